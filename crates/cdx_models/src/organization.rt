//! Organizations and their contacts.

ghost use Rattle.std.specs.Prelude.{◌≡◌, refl, IfOk, None, Some, ◌↔◌, IsTrue};
ghost use Rattle.cdx_models.specs.Records.{contact_tree, entity_tree};
ghost use Rattle.cdx_models.specs.Equal.{equal};
ghost use Rattle.cdx_models.specs.EqualLaws.{equal_laws};

use crate::tree::{HasTree, copy_row, equal_row};
use cdx_events::{List, Text};
use std::alloc::{AllocError, Global};

/// A person to turn to, or an author.
#[derive(Debug, Drop)]
pub struct OrganizationalContact {
    /// The name by which the rest of the bill refers to it.
    pub bom_ref: Option<Text>,
    /// The name of the person or the role.
    pub name: Option<Text>,
    /// The address for mail.
    pub email: Option<Text>,
    /// The number to call.
    pub phone: Option<Text>,
}

impl HasTree for OrganizationalContact {
    ghost tree = { contact_tree };

    ghost there = { λ x. refl };

    fn copy(&self, alloc: Global) -> Result<OrganizationalContact, AllocError> {
        Ok(OrganizationalContact {
            bom_ref: copy_row(alloc, &self.bom_ref)?,
            name: copy_row(alloc, &self.name)?,
            email: copy_row(alloc, &self.email)?,
            phone: copy_row(alloc, &self.phone)?,
        })
    }

    fn agrees(&self, other: &OrganizationalContact) -> bool {
        equal_row(&self.bom_ref, &other.bom_ref)
            && equal_row(&self.name, &other.name)
            && equal_row(&self.email, &other.email)
            && equal_row(&self.phone, &other.phone)
    }
}

impl PartialEq for OrganizationalContact {
    ghost eq = { λ a b. equal (contact_tree a) (contact_tree b) };

    ghost laws = { equal_laws contact_tree };

    fn eq(&self, other: &OrganizationalContact) -> bool
        ensures test { result ≡ equal (contact_tree self.now) (contact_tree other.now) }
        ensures equality { IsTrue result ↔ (contact_tree self.now ≡ contact_tree other.now) }
    {
        self.equals(other)
    }
}

/// An organization, as a supplier or a manufacturer.
#[derive(Debug, Drop)]
pub struct OrganizationalEntity {
    /// The name by which the rest of the bill refers to it.
    pub bom_ref: Option<Text>,
    /// The name of the organization.
    pub name: Option<Text>,
    /// The organization's addresses in the web.
    pub url: Option<List<Text>>,
    /// Whom to ask there.
    pub contact: Option<List<OrganizationalContact>>,
}

impl OrganizationalEntity {
    /// The organization with this name and nothing else.
    pub fn new(alloc: Global, name: &str) -> Result<OrganizationalEntity, AllocError>
        ensures { IfOk result
            (λ r. r ≡ record { bom_ref = None; name = Some name.now; url = None; contact = None }) }
    {
        Ok(OrganizationalEntity {
            bom_ref: None,
            name: Some(Text::new(alloc, name)?),
            url: None,
            contact: None,
        })
    }
}

impl HasTree for OrganizationalEntity {
    ghost tree = { entity_tree };

    ghost there = { λ x. refl };

    fn copy(&self, alloc: Global) -> Result<OrganizationalEntity, AllocError> {
        Ok(OrganizationalEntity {
            bom_ref: copy_row(alloc, &self.bom_ref)?,
            name: copy_row(alloc, &self.name)?,
            url: copy_row(alloc, &self.url)?,
            contact: copy_row(alloc, &self.contact)?,
        })
    }

    fn agrees(&self, other: &OrganizationalEntity) -> bool {
        equal_row(&self.bom_ref, &other.bom_ref)
            && equal_row(&self.name, &other.name)
            && equal_row(&self.url, &other.url)
            && equal_row(&self.contact, &other.contact)
    }
}

impl PartialEq for OrganizationalEntity {
    ghost eq = { λ a b. equal (entity_tree a) (entity_tree b) };

    ghost laws = { equal_laws entity_tree };

    fn eq(&self, other: &OrganizationalEntity) -> bool
        ensures test { result ≡ equal (entity_tree self.now) (entity_tree other.now) }
        ensures equality { IsTrue result ↔ (entity_tree self.now ≡ entity_tree other.now) }
    {
        self.equals(other)
    }
}
