//! Services and lists of them.

ghost use Rattle.std.specs.Prelude.{◌≡◌, [], ◌∷◌, ◌++◌, IfOk, OnOk, OnErr, length, slice_get, option_copied, is_some, nat_lt, ◌↔◌, IsTrue};
ghost use Rattle.cdx_models.specs.Trees.{service};
ghost use Rattle.cdx_schema.specs.Kinds.{services, a_list, a_record};
ghost use Rattle.cdx_models.specs.Equal.{equal};
ghost use Rattle.cdx_models.specs.EqualLaws.{equal_laws};
ghost use Rattle.cdx_service.specs.Trees.{service_tree, services_tree, service_items};
ghost use Rattle.cdx_service.specs.Laws.{service_there, services_there};

mod compared;
mod copied;
pub(crate) mod parts;

use cdx_events::{List, Text};
use cdx_license::Licenses;
use cdx_models::{ExternalReferences, HasTree, OrganizationalEntity, Properties};
use cdx_schema::Kinded;
use cdx_service_data::Data;
use cdx_signature::Signature;
use compared::{equal_service, equal_services};
use copied::{copy_service, copy_services};
use std::alloc::{AllocError, Global};

/// A service that a component calls, or that is described by itself.
#[cycle(service)]
#[derive(Debug)]
pub struct Service {
    /// The name by which the rest of the bill refers to it.
    pub bom_ref: Option<Text>,
    /// Who runs it.
    pub provider: Option<OrganizationalEntity>,
    /// The group of which it is a part.
    pub group: Option<Text>,
    /// Its name.
    pub name: Text,
    /// Its own version.
    pub version: Option<Text>,
    /// What it does.
    pub description: Option<Text>,
    /// The addresses under which it is reached.
    pub endpoints: Option<List<Text>>,
    /// Whether it asks who calls.
    pub authenticated: Option<bool>,
    /// Whether data crosses a border of trust on its way.
    pub x_trust_boundary: Option<bool>,
    /// What it takes and gives.
    pub data_items: Option<Data>,
    /// Its licenses.
    pub licenses: Option<Licenses>,
    /// Where more is told of it.
    pub external_references: Option<ExternalReferences>,
    /// What else there is to say of it.
    pub properties: Option<Properties>,
    /// The services that it holds.
    pub services: Option<Services>,
    /// Known from 1.4 on.
    pub signature: Option<Signature>,
    /// Known from 1.5 on.
    pub trust_zone: Option<Text>,
}

// By hand, so that one is freed by a call wherever it ends, and not field by field.
impl Drop for Service {
    fn drop(self) {
        let Service {
            bom_ref: _,
            provider: _,
            group: _,
            name: _,
            version: _,
            description: _,
            endpoints: _,
            authenticated: _,
            x_trust_boundary: _,
            data_items: _,
            licenses: _,
            external_references: _,
            properties: _,
            services: _,
            signature: _,
            trust_zone: _,
        } = self;
    }
}

/// A list of services.
#[cycle(service)]
#[derive(Debug, Drop)]
pub struct Services {
    pub(crate) items: Vec<Service>,
}

impl Services {
    /// The empty list. It takes no memory.
    pub fn new(alloc: Global) -> Services
        ensures { service_items result ≡ [] }
    {
        Services {
            items: Vec::new(alloc),
        }
    }

    /// The empty list, with room for so many services. Only want of memory refuses.
    pub fn with_capacity(alloc: Global, capacity: usize) -> Result<Services, AllocError>
        ensures { IfOk result (λ l. service_items l ≡ []) }
    {
        let items = Vec::with_capacity(alloc, capacity)?;
        Ok(Services { items })
    }

    /// Appends a service. Where memory runs out, the list is as before and the service is dropped.
    pub fn push(&mut self, item: Service) -> Result<(), AllocError>
        ensures ok { OnOk result
            (service_items self.new ≡ service_items self.old ++ item ∷ []) }
        ensures err { OnErr result (service_items self.new ≡ service_items self.old) }
    {
        self.items.push(item)?;
        Ok(())
    }

    /// How many services there are. It takes no memory.
    pub fn len(&self) -> usize
        ensures { result ≡ length (service_items self.now) }
    {
        self.items.len()
    }

    /// The service at a place, counted from 0, or `None` exactly from the length on. It takes no memory.
    pub fn get(&self, at: usize) -> Option<&Service>
        ensures item { option_copied result ≡ slice_get (service_items self.now) at }
        ensures there { is_some result ≡ nat_lt at (length (service_items self.now)) }
    {
        self.items.get(at)
    }

    /// The services. It takes no memory.
    pub fn as_slice(&self) -> &[Service]
        ensures { result.now ≡ service_items self.now }
    {
        self.items.as_slice()
    }
}

impl HasTree for Service {
    ghost tree = { service_tree };

    ghost there = { service_there };

    fn copy(&self, alloc: Global) -> Result<Service, AllocError> {
        copy_service(self, alloc)
    }

    fn agrees(&self, other: &Service) -> bool {
        equal_service(self, other)
    }
}

impl Kinded for Service {
    ghost kind = { a_record service };
}

impl PartialEq for Service {
    ghost eq = { λ a b. equal (service_tree a) (service_tree b) };

    ghost laws = { equal_laws service_tree };

    fn eq(&self, other: &Service) -> bool
        ensures test { result ≡ equal (service_tree self.now) (service_tree other.now) }
        ensures equality { IsTrue result ↔ (service_tree self.now ≡ service_tree other.now) }
    {
        self.equals(other)
    }
}

impl HasTree for Services {
    ghost tree = { services_tree };

    ghost there = { services_there };

    fn copy(&self, alloc: Global) -> Result<Services, AllocError> {
        copy_services(self, alloc)
    }

    fn agrees(&self, other: &Services) -> bool {
        equal_services(self, other)
    }
}

impl Kinded for Services {
    ghost kind = { a_list services };
}

impl PartialEq for Services {
    ghost eq = { λ a b. equal (services_tree a) (services_tree b) };

    ghost laws = { equal_laws services_tree };

    fn eq(&self, other: &Services) -> bool
        ensures test { result ≡ equal (services_tree self.now) (services_tree other.now) }
        ensures equality { IsTrue result ↔ (services_tree self.now ≡ services_tree other.now) }
    {
        self.equals(other)
    }
}
