//! External references.

ghost use Rattle.std.specs.Prelude.{refl, codes};
ghost use Rattle.cdx_write.specs.Lone.{text_is_lone};

use crate::attribute::put_required_attribute;
use crate::element::{Element, HasContent, Item, Lone, Tagged, write_lone};
use crate::list::write_list;
use crate::record::WrittenRecord;
use crate::row::{put_child, put_required_child};
use crate::tags::WriteResult;
use cdx_events::{EventWriter, List, OwnedAttribute, Text};
use cdx_models::{ExternalReference, ExternalReferences, Uri};
use cdx_schema::Target;
use std::alloc::{AllocError, Global};

impl Lone for Uri {
    ghost lone = { λ x. text_is_lone _ };

    fn xml_text(&self, alloc: Global) -> Result<Text, AllocError> {
        Text::new(alloc, self.as_str())
    }
}

impl Element for Uri {
    ghost keeps = { refl };

    fn write_as(&self, writer: &mut EventWriter, tag: &str, target: Target) -> WriteResult {
        write_lone(writer, tag, self, target)
    }
}

impl WrittenRecord for ExternalReference {
    #[tactic(auto, unfolding(crate::proofs::OnRows::on_rows))]
    fn attributes(&self, target: Target) -> Result<List<OwnedAttribute>, AllocError> {
        let mut attributes = List::new(target.alloc);
        put_required_attribute(
            &mut attributes,
            "type",
            &self.external_reference_type,
            target,
        )?;
        Ok(attributes)
    }

    #[tactic(auto, unfolding(crate::proofs::OnRows::on_rows), using(crate::proofs::OnRows::in_turn))]
    fn write_rows(&self, writer: &mut EventWriter, target: Target) -> WriteResult {
        put_required_child(writer, "url", &self.url, target)?;
        put_child(writer, "comment", &self.comment, target)?;
        put_child(writer, "hashes", &self.hashes, target)
    }
}

impl Item for ExternalReference {
    fn is_passed_over(&self) -> bool {
        false
    }
}

impl HasContent for ExternalReference {
    fn has_content(&self) -> bool {
        true
    }
}

impl Tagged for ExternalReference {
    ghost own_name = { codes "reference" };

    fn own_name() -> &'static str {
        "reference"
    }
}

impl Element for ExternalReferences {
    ghost keeps = { refl };

    #[tactic(auto, unfolding(crate::proofs::OnRows::on_rows))]
    fn write_as(&self, writer: &mut EventWriter, tag: &str, target: Target) -> WriteResult {
        write_list(writer, tag, "reference", &self.0, target)
    }
}

impl HasContent for ExternalReferences {
    fn has_content(&self) -> bool {
        true
    }
}

impl Tagged for ExternalReferences {
    ghost own_name = { codes "externalReferences" };

    fn own_name() -> &'static str {
        "externalReferences"
    }
}
