//! The data of services.

ghost use Rattle.std.specs.Prelude.{◌≡◌, refl, codes, ◌&&◌, ◌||◌, is_some};
ghost use Rattle.std.specs.List.{list_any};
ghost use Rattle.cdx_models.specs.declared.bom.SpecVersion.TheVariants.{V1_5};
ghost use Rattle.cdx_models.specs.Versions.{knows};
ghost use Rattle.cdx_schema.specs.Kinds.{a_data};
ghost use Rattle.cdx_write.specs.Spelling.{untagged, inner};
ghost use Rattle.cdx_write.specs.Writing.{Appends};
ghost use Rattle.cdx_service_data.specs.Records.{data_tree};

use crate::service::{Data, DataClassification, ServiceData, classifications};
use cdx_events::{EventWriter, List, OwnedAttribute};
use cdx_models::{SpecVersion, XmlWriteError};
use cdx_schema::Target;
use cdx_write::{
    Element, HasContent, Item, Tagged, ToXml, WriteResult, WrittenRecord, put_attribute,
    put_content, put_required_attribute, put_required_child, write_close_tag, write_items,
    write_start_tag,
};
use std::alloc::{AllocError, Global};

impl WrittenRecord for DataClassification {
    #[tactic(auto, unfolding(cdx_write::proofs::OnRows::on_rows))]
    fn attributes(&self, target: Target) -> Result<List<OwnedAttribute>, AllocError> {
        let mut attributes = List::new(target.alloc);
        put_required_attribute(&mut attributes, "flow", &self.flow, target)?;
        Ok(attributes)
    }

    #[tactic(auto, unfolding(cdx_write::proofs::OnRows::on_rows), using(cdx_write::proofs::OnRows::in_turn))]
    fn write_rows(&self, writer: &mut EventWriter, target: Target) -> WriteResult {
        put_content(target.alloc, writer, &self.classification)
    }
}

impl Item for DataClassification {
    fn is_passed_over(&self) -> bool {
        false
    }
}

impl HasContent for DataClassification {
    fn has_content(&self) -> bool {
        true
    }
}

impl Tagged for DataClassification {
    ghost own_name = { codes "classification" };

    fn own_name() -> &'static str {
        "classification"
    }
}

impl WrittenRecord for ServiceData {
    #[tactic(auto, unfolding(cdx_write::proofs::OnRows::on_rows))]
    fn attributes(&self, target: Target) -> Result<List<OwnedAttribute>, AllocError> {
        let mut attributes = List::new(target.alloc);
        put_attribute(&mut attributes, "name", &self.name, target)?;
        put_attribute(&mut attributes, "description", &self.description, target)?;
        Ok(attributes)
    }

    #[tactic(auto, unfolding(cdx_write::proofs::OnRows::on_rows), using(cdx_write::proofs::OnRows::in_turn))]
    fn write_rows(&self, writer: &mut EventWriter, target: Target) -> WriteResult {
        put_required_child(writer, "classification", &self.classification, target)
    }
}

impl Item for ServiceData {
    fn is_passed_over(&self) -> bool {
        false
    }
}

impl HasContent for ServiceData {
    fn has_content(&self) -> bool {
        true
    }
}

impl Tagged for ServiceData {
    ghost own_name = { codes "dataflow" };

    fn own_name() -> &'static str {
        "dataflow"
    }
}

/// Whether one of them has a name or a description. It takes no memory.
fn any_flow(held: &List<ServiceData>) -> bool
    ensures { result ≡ list_any (λ x. is_some x.name || is_some x.description) held.now }
{
    held.as_slice().iter().any(|data| data.is_flow())
}

/// Whether the version writes them as flows: it knows flows, and there is one. It takes no memory.
fn has_flow(held: &List<ServiceData>, version: SpecVersion) -> bool
    ensures { result
        ≡ (knows V1_5 version && list_any (λ x. is_some x.name || is_some x.description) held.now) }
{
    SpecVersion::V1_5.is_known_to(version) && any_flow(held)
}

/// Appends the entries of what the version keeps. Only want of memory refuses; the writer then has a prefix of that.
fn write_entries(writer: &mut EventWriter, held: &Data, target: Target) -> WriteResult
    ensures { Appends writer.old writer.new (inner (data_tree held.now) target.version a_data)
        result }
{
    match held {
        Data::Classification(held) => write_items(writer, "classification", held, target),
        Data::ServiceData(held) => {
            if has_flow(held, target.version) {
                return write_items(writer, "dataflow", held, target);
            }
            let held = classifications(target.alloc, held)?;
            write_items(writer, "classification", &held, target)
        }
    }
}

impl Element for Data {
    ghost keeps = { refl };

    fn write_as(&self, writer: &mut EventWriter, tag: &str, target: Target) -> WriteResult {
        write_start_tag(target.alloc, writer, tag)?;
        write_entries(writer, self, target)?;
        write_close_tag(target.alloc, writer, tag)
    }
}

impl HasContent for Data {
    fn has_content(&self) -> bool {
        true
    }
}

impl ToXml for Data {
    ghost tag = { untagged };

    /// Its entries without a tag, which the service around them writes. With at least one flow each entry is a `dataflow`,
    /// else each is a `classification`.
    fn write_xml_element(
        &self,
        alloc: Global,
        writer: &mut EventWriter,
        version: SpecVersion,
    ) -> Result<(), XmlWriteError> {
        write_entries(writer, self, Target { alloc, version })
    }

    fn will_write(&self) -> bool {
        self.has_content()
    }
}
