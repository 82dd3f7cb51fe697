//! A whole bill.

ghost use Rattle.cdx_schema.specs.Kinds.{a_bill};
ghost use Rattle.std.specs.Prelude.{◌≡◌, refl, None, ◌↔◌, IsTrue};
ghost use Rattle.cdx_models.specs.Equal.{equal};
ghost use Rattle.cdx_models.specs.EqualLaws.{equal_laws};
ghost use Rattle.cdx_bom.specs.Trees.{bom_tree};

pub(crate) mod compared;
mod copied;
mod fitting;
mod output;
mod parsing;
pub(crate) mod parts;
mod sending;
pub(crate) mod settled;
mod shallow;
mod surviving;

use cdx_models::{ExternalReferences, HasTree, Properties, SpecVersion, UrnUuid};
use cdx_nest::{Components, Metadata, Services};
use cdx_relations::{Compositions, Dependencies};
use cdx_schema::Kinded;
use cdx_signature::Signature;
use compared::equal_bom;
use copied::copy_bom;
use std::alloc::{AllocError, Global};

/// A bill of materials.
#[derive(Debug)]
pub struct Bom {
    /// The bill's label: the version of the format that it names.
    pub spec_version: SpecVersion,
    /// How often this bill was issued, from 1 on by CycloneDX.
    pub version: u32,
    /// The number by which the bill is known.
    pub serial_number: Option<UrnUuid>,
    /// What the bill says of itself.
    pub metadata: Option<Metadata>,
    /// What the software is made of.
    pub components: Option<Components>,
    /// The services that it calls.
    pub services: Option<Services>,
    /// Where more is told of the bill.
    pub external_references: Option<ExternalReferences>,
    /// Which parts need which.
    pub dependencies: Option<Dependencies>,
    /// How complete the lists of parts are.
    pub compositions: Option<Compositions>,
    /// Known from 1.5 on.
    pub properties: Option<Properties>,
    /// Known from 1.4 on.
    pub signature: Option<Signature>,
}

// By hand, so that one is freed by a call wherever it ends, and not field by field.
impl Drop for Bom {
    fn drop(self) {
        let Bom {
            spec_version: _,
            version: _,
            serial_number: _,
            metadata: _,
            components: _,
            services: _,
            external_references: _,
            dependencies: _,
            compositions: _,
            properties: _,
            signature: _,
        } = self;
    }
}

impl Bom {
    /// The bill of version 1 under this label, without any other field. It takes no memory.
    pub fn new(spec_version: SpecVersion) -> Bom
        ensures { result ≡ record {
          spec_version = spec_version;
          version = 1;
          serial_number = None;
          metadata = None;
          components = None;
          services = None;
          external_references = None;
          dependencies = None;
          compositions = None;
          properties = None;
          signature = None;
        } }
    {
        Bom {
            spec_version,
            version: 1,
            serial_number: None,
            metadata: None,
            components: None,
            services: None,
            external_references: None,
            dependencies: None,
            compositions: None,
            properties: None,
            signature: None,
        }
    }
}

impl HasTree for Bom {
    ghost tree = { bom_tree };

    ghost there = { λ x. refl };

    fn copy(&self, alloc: Global) -> Result<Bom, AllocError> {
        copy_bom(self, alloc)
    }

    fn agrees(&self, other: &Bom) -> bool {
        equal_bom(self, other)
    }
}

impl Kinded for Bom {
    ghost kind = { a_bill };
}

impl PartialEq for Bom {
    ghost eq = { λ a b. equal (bom_tree a) (bom_tree b) };

    ghost laws = { equal_laws bom_tree };

    fn eq(&self, other: &Bom) -> bool
        ensures test { result ≡ equal (bom_tree self.now) (bom_tree other.now) }
        ensures equality { IsTrue result ↔ (bom_tree self.now ≡ bom_tree other.now) }
    {
        self.equals(other)
    }
}
