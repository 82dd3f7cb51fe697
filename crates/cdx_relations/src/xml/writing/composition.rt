//! Compositions as XML events.

ghost use Rattle.std.specs.Prelude.{refl, codes};
ghost use Rattle.cdx_models.specs.Trees.{composition};
ghost use Rattle.cdx_schema.specs.Kinds.{compositions};

use crate::composition::{Composition, Compositions};
use cdx_events::{EventWriter, List, OwnedAttribute};
use cdx_models::SpecVersion;
use cdx_schema::Target;
use cdx_write::{
    Element, HasContent, Item, Tagged, WriteResult, WrittenRecord, put_attribute_since,
    put_child_since, put_list, put_list_since, put_required_child, write_list,
};
use std::alloc::AllocError;

impl WrittenRecord for Composition {
    #[tactic(auto, unfolding(cdx_write::proofs::OnRows::on_rows))]
    fn attributes(&self, target: Target) -> Result<List<OwnedAttribute>, AllocError> {
        let mut attributes = List::new(target.alloc);
        put_attribute_since(
            &mut attributes,
            SpecVersion::V1_5,
            "bom-ref",
            &self.bom_ref,
            target,
        )?;
        Ok(attributes)
    }

    fn write_rows(&self, writer: &mut EventWriter, target: Target) -> WriteResult {
        put_required_child(writer, "aggregate", &self.aggregate, target)?;
        put_list(writer, "assemblies", "assembly", &self.assemblies, target)?;
        put_list(
            writer,
            "dependencies",
            "dependency",
            &self.dependencies,
            target,
        )?;
        put_list_since(
            writer,
            SpecVersion::V1_5,
            "vulnerabilities",
            "vulnerability",
            &self.vulnerabilities,
            target,
        )?;
        put_child_since(
            writer,
            SpecVersion::V1_4,
            "signature",
            &self.signature,
            target,
        )
    }
}

impl Item for Composition {
    fn is_passed_over(&self) -> bool {
        false
    }
}

impl HasContent for Composition {
    fn has_content(&self) -> bool {
        true
    }
}

impl Tagged for Composition {
    ghost own_name = { codes "composition" };

    fn own_name() -> &'static str {
        "composition"
    }
}

impl Element for Compositions {
    ghost keeps = { refl };

    #[tactic(auto, unfolding(cdx_schema::specs::Table::list))]
    fn write_as(&self, writer: &mut EventWriter, tag: &str, target: Target) -> WriteResult {
        write_list(writer, tag, "composition", &self.0, target)
    }
}

impl HasContent for Compositions {
    fn has_content(&self) -> bool {
        true
    }
}

impl Tagged for Compositions {
    ghost own_name = { codes "compositions" };

    fn own_name() -> &'static str {
        "compositions"
    }
}
