//! Which bills a version can hold.

ghost use Rattle.std.specs.Prelude.{◌≡◌};
ghost use Rattle.cdx_models.specs.Trees.{metadata, present};
ghost use Rattle.cdx_schema.specs.Kinds.{components, a_list, a_record, a_bill};
ghost use Rattle.cdx_schema.specs.Keeping.{fits};
ghost use Rattle.cdx_nest.specs.Nested.{components_tree};
ghost use Rattle.cdx_nest.specs.Trees.{metadata_tree};
ghost use Rattle.cdx_bom.specs.Trees.{bom_tree};

use crate::bom::Bom;
use cdx_models::SpecVersion;
use cdx_nest::{Components, Metadata};

impl Bom {
    /// Whether the version can hold the bill: it is not 1.3, or each component has a version, at every depth, in
    /// pedigrees and in the metadata, which 1.3 requires. The components of the metadata's tools are not asked. It
    /// takes no memory.
    pub fn fits(&self, version: SpecVersion) -> bool
        ensures { result ≡ fits version (bom_tree self.now) a_bill }
    {
        metadata_row_fits(&self.metadata, version) && components_row_fit(&self.components, version)
    }
}

fn metadata_row_fits(held: &Option<Metadata>, version: SpecVersion) -> bool
    ensures { result ≡ fits version (present metadata_tree held.now) (a_record metadata) }
{
    match held {
        None => true,
        Some(held) => held.fits(version),
    }
}

fn components_row_fit(held: &Option<Components>, version: SpecVersion) -> bool
    ensures { result ≡ fits version (present components_tree held.now) (a_list components) }
{
    match held {
        None => true,
        Some(held) => held.fits(version),
    }
}
