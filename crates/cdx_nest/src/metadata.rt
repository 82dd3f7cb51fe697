//! What a bill says of itself.

ghost use Rattle.cdx_models.specs.Trees.{metadata};
ghost use Rattle.std.specs.Prelude.{◌≡◌, refl, None, ◌↔◌, IsTrue};
ghost use Rattle.cdx_models.specs.Equal.{equal};
ghost use Rattle.cdx_models.specs.EqualLaws.{equal_laws};
ghost use Rattle.cdx_models.specs.Trees.{metadata};
ghost use Rattle.cdx_schema.specs.Kinds.{a_record};
ghost use Rattle.cdx_schema.specs.Keeping.{fits};
ghost use Rattle.cdx_nest.specs.Trees.{metadata_tree};

mod compared;
mod copied;
pub(crate) mod parts;

use crate::tools::Tools;
use cdx_component::{Component, component_row_has_versions};
use cdx_events::{List, Text};
use cdx_license::Licenses;
use cdx_models::{HasTree, OrganizationalContact, OrganizationalEntity, Properties, SpecVersion};
use cdx_schema::Record;
use compared::equal_metadata;
use copied::copy_metadata;
use std::alloc::{AllocError, Global};

/// What a bill says of itself and of the component that it is of.
#[derive(Debug)]
pub struct Metadata {
    /// When the bill was made: a date with time and zone by CycloneDX, which isn't checked.
    pub timestamp: Option<Text>,
    /// What made the bill.
    pub tools: Option<Tools>,
    /// The persons who made the bill.
    pub authors: Option<List<OrganizationalContact>>,
    /// What the bill is of.
    pub component: Option<Component>,
    /// Who made the component that the bill is of.
    pub manufacture: Option<OrganizationalEntity>,
    /// Who supplied the component that the bill is of.
    pub supplier: Option<OrganizationalEntity>,
    /// The licenses of the bill itself.
    pub licenses: Option<Licenses>,
    /// What else there is to say of the bill.
    pub properties: Option<Properties>,
}

// By hand, so that one is freed by a call wherever it ends, and not field by field.
impl Drop for Metadata {
    fn drop(self) {
        let Metadata {
            timestamp: _,
            tools: _,
            authors: _,
            component: _,
            manufacture: _,
            supplier: _,
            licenses: _,
            properties: _,
        } = self;
    }
}

impl Default for Metadata {
    ghost is_default = { λ metadata. metadata ≡ record {
      timestamp = None;
      tools = None;
      authors =
          None;
      component = None;
      manufacture = None;
      supplier = None;
      licenses = None;
      properties = None;
    } };

    /// The metadata without any field.
    fn default() -> Metadata {
        Metadata {
            timestamp: None,
            tools: None,
            authors: None,
            component: None,
            manufacture: None,
            supplier: None,
            licenses: None,
            properties: None,
        }
    }
}

impl Metadata {
    /// Whether the version can hold the metadata: it is not 1.3, or the metadata's component has a version and so has
    /// each one in it, at every depth and in pedigrees. The components of the tools are not asked. It takes no memory.
    #[tactic(auto, using(crate::proofs::MetadataFits::metadata_has))]
    pub fn fits(&self, version: SpecVersion) -> bool
        ensures { result ≡ fits version (metadata_tree self.now) (a_record metadata) }
    {
        version != SpecVersion::V1_3 || component_row_has_versions(&self.component)
    }
}

impl HasTree for Metadata {
    ghost tree = { metadata_tree };

    ghost there = { λ x. refl };

    fn copy(&self, alloc: Global) -> Result<Metadata, AllocError> {
        copy_metadata(self, alloc)
    }

    fn agrees(&self, other: &Metadata) -> bool {
        equal_metadata(self, other)
    }
}

impl Record for Metadata {
    ghost name = { metadata };

    ghost is_record = { λ x. refl };

    ghost plain = { refl };
}

impl PartialEq for Metadata {
    ghost eq = { λ a b. equal (metadata_tree a) (metadata_tree b) };

    ghost laws = { equal_laws metadata_tree };

    fn eq(&self, other: &Metadata) -> bool
        ensures test { result ≡ equal (metadata_tree self.now) (metadata_tree other.now) }
        ensures equality { IsTrue result ↔ (metadata_tree self.now ≡ metadata_tree other.now) }
    {
        self.equals(other)
    }
}
