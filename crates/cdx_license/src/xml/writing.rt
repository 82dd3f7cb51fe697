//! Licenses as XML events.

ghost use Rattle.std.specs.Prelude.{refl, codes};
ghost use Rattle.cdx_models.specs.Trees.{license, expression};
ghost use Rattle.cdx_schema.specs.Kinds.{licenses};

use crate::license::{Expression, License, LicenseChoice, LicenseIdentifier, Licenses};
use cdx_events::{EventWriter, List, OwnedAttribute};
use cdx_models::SpecVersion;
use cdx_schema::Target;
use cdx_write::{
    Element, HasContent, Item, Tagged, WriteResult, WrittenRecord, put_attribute,
    put_attribute_since, put_child, put_child_since, put_content, put_required_child, write_list,
    write_record, write_simple_tag,
};
use std::alloc::AllocError;

impl Element for LicenseIdentifier {
    ghost keeps = { refl };

    fn write_as(&self, writer: &mut EventWriter, tag: &str, target: Target) -> WriteResult {
        match self {
            LicenseIdentifier::SpdxId(held) => write_simple_tag(
                target.alloc,
                writer,
                "id",
                held.as_str(),
            ),
            LicenseIdentifier::Name(held) => write_simple_tag(
                target.alloc,
                writer,
                "name",
                held.as_str(),
            ),
        }
    }
}

impl HasContent for LicenseIdentifier {
    fn has_content(&self) -> bool {
        true
    }
}

impl Tagged for LicenseIdentifier {
    ghost own_name = { codes "id" };

    fn own_name() -> &'static str {
        "id"
    }
}

impl WrittenRecord for License {
    #[tactic(auto, unfolding(cdx_write::proofs::OnRows::on_rows))]
    fn attributes(&self, target: Target) -> Result<List<OwnedAttribute>, AllocError> {
        let mut attributes = List::new(target.alloc);
        put_attribute_since(
            &mut attributes,
            SpecVersion::V1_5,
            "bom-ref",
            &self.bom_ref,
            target,
        )?;
        Ok(attributes)
    }

    fn write_rows(&self, writer: &mut EventWriter, target: Target) -> WriteResult {
        put_required_child(writer, "id", &self.license_identifier, target)?;
        put_child(writer, "text", &self.text, target)?;
        put_child(writer, "url", &self.url, target)?;
        put_child_since(
            writer,
            SpecVersion::V1_5,
            "properties",
            &self.properties,
            target,
        )
    }
}

impl HasContent for License {
    fn has_content(&self) -> bool {
        true
    }
}

impl Tagged for License {
    ghost own_name = { codes "license" };

    fn own_name() -> &'static str {
        "license"
    }
}

impl WrittenRecord for Expression {
    #[tactic(auto, unfolding(cdx_write::proofs::OnRows::on_rows))]
    fn attributes(&self, target: Target) -> Result<List<OwnedAttribute>, AllocError> {
        let mut attributes = List::new(target.alloc);
        put_attribute(&mut attributes, "bom-ref", &self.bom_ref, target)?;
        Ok(attributes)
    }

    fn write_rows(&self, writer: &mut EventWriter, target: Target) -> WriteResult {
        put_content(target.alloc, writer, &self.expression)
    }
}

impl HasContent for Expression {
    fn has_content(&self) -> bool {
        true
    }
}

impl Tagged for Expression {
    ghost own_name = { codes "expression" };

    fn own_name() -> &'static str {
        "expression"
    }
}

impl Element for LicenseChoice {
    ghost keeps = { refl };

    fn write_as(&self, writer: &mut EventWriter, tag: &str, target: Target) -> WriteResult {
        match self {
            LicenseChoice::License(held) => write_record(writer, "license", held, target),
            LicenseChoice::Expression(held) => write_record(writer, "expression", held, target),
        }
    }
}

impl Item for LicenseChoice {
    fn is_passed_over(&self) -> bool {
        false
    }
}

impl HasContent for LicenseChoice {
    fn has_content(&self) -> bool {
        true
    }
}

impl Tagged for LicenseChoice {
    ghost own_name = { codes "license" };

    fn own_name() -> &'static str {
        "license"
    }
}

impl Element for Licenses {
    ghost keeps = { refl };

    #[tactic(auto, unfolding(cdx_schema::specs::Table::list))]
    fn write_as(&self, writer: &mut EventWriter, tag: &str, target: Target) -> WriteResult {
        write_list(writer, tag, "license", &self.0, target)
    }
}

impl HasContent for Licenses {
    fn has_content(&self) -> bool {
        true
    }
}

impl Tagged for Licenses {
    ghost own_name = { codes "licenses" };

    fn own_name() -> &'static str {
        "licenses"
    }
}
