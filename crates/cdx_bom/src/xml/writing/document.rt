//! Whole documents of bills.

ghost use Rattle.std.specs.Prelude.{◌≡◌, List, [], ◌∷◌, ◌++◌, IfOk, OnOk};
ghost use Rattle.cdx_models.specs.Trees.{bill};
ghost use Rattle.cdx_schema.specs.Kinds.{a_bill};
ghost use Rattle.cdx_schema.specs.Keeping.{keep};
ghost use Rattle.cdx_schema.specs.Table.{rows};
ghost use Rattle.cdx_schema.specs.XmlSpelling.{xml_document};
ghost use Rattle.cdx_write.specs.Spelling.{whole};
ghost use Rattle.cdx_models.specs.Trees.{fields_of};
ghost use Rattle.cdx_write.specs.WrittenRows.{rows_written};
ghost use Rattle.cdx_write.specs.Writing.{Appends};
ghost use Rattle.cdx_bom.specs.Trees.{bom_tree};
ghost use Rattle.cdx_bom.specs.BillWriting.{root_start};
ghost use Rattle.cdx_bom.specs.Pieces.{OnlyMemory};

use crate::bom::Bom;
use crate::xml::writing::rows::{root_attributes, write_inventory_rows, write_relations_rows};
use cdx_events::{EventWriter, Events, EventsError, Namespace, OwnedName, Text, XmlEvent};
use cdx_leaf::namespace_of;
use cdx_models::{SpecVersion, XmlWriteError};
use cdx_schema::Target;
use cdx_write::{HasContent, ToXml, WriteResult, write_close_tag};
use std::alloc::{AllocError, Global};

pub(crate) fn write_start(writer: &mut EventWriter) -> WriteResult
    ensures { Appends writer.old writer.new (XmlEvent.StartDocument ∷ []) result }
{
    writer.write(XmlEvent::StartDocument)?;
    Ok(())
}

pub(crate) fn write_end(writer: &mut EventWriter) -> WriteResult
    ensures { Appends writer.old writer.new (XmlEvent.EndDocument ∷ []) result }
{
    writer.write(XmlEvent::EndDocument)?;
    Ok(())
}

// The version's namespace is the root's default.
pub(crate) fn write_root_start(held: &Bom, writer: &mut EventWriter, target: Target) -> WriteResult
    ensures { Appends writer.old writer.new (root_start (bom_tree held.now) target.version ∷ [])
        result }
{
    let attributes = root_attributes(held, target)?;
    let name = OwnedName::local(target.alloc, "bom")?;
    let default = Text::new(target.alloc, namespace_of(target.version))?;
    writer.write(XmlEvent::StartElement {
        name,
        attributes,
        namespace: Namespace {
            default: Some(default),
        },
    })?;
    Ok(())
}

// What stands between the root's tags.
fn write_rows(held: &Bom, writer: &mut EventWriter, target: Target) -> WriteResult
    ensures { Appends writer.old writer.new
        (rows_written (fields_of (bom_tree held.now)) target.version (rows bill)) result }
{
    write_inventory_rows(held, writer, target)?;
    write_relations_rows(held, writer, target)
}

// The document of what the version keeps. Only want of memory refuses; the writer then has a prefix of that.
fn write_document(held: &Bom, writer: &mut EventWriter, target: Target) -> WriteResult
    ensures { Appends writer.old writer.new
        (xml_document (keep target.version (bom_tree held.now) a_bill) target.version)
        result }
{
    write_start(writer)?;
    write_root_start(held, writer, target)?;
    write_rows(held, writer, target)?;
    write_close_tag(target.alloc, writer, "bom")?;
    write_end(writer)
}

impl HasContent for Bom {
    fn has_content(&self) -> bool {
        true
    }
}

impl ToXml for Bom {
    ghost tag = { whole };

    /// The whole document: its start, the root with the version's namespace, and its end.
    fn write_xml_element(
        &self,
        alloc: Global,
        writer: &mut EventWriter,
        version: SpecVersion,
    ) -> Result<(), XmlWriteError> {
        write_document(self, writer, Target { alloc, version })
    }

    fn will_write(&self) -> bool {
        self.has_content()
    }
}

/// The answer of a writer that only want of memory refuses, with that as its one error.
pub(crate) fn only_memory(answer: WriteResult) -> Result<(), AllocError>
    requires { OnlyMemory answer }
    ensures { (old : List XmlEvent) (new : List XmlEvent) (spelling : List XmlEvent)
        → Appends old new spelling answer → OnOk result (new ≡ old ++ spelling) }
{
    match answer {
        Ok(()) => Ok(()),
        Err(XmlWriteError::Memory(error)) => Err(error),
        Err(XmlWriteError::BomError(_)) => unreachable!(),
        Err(XmlWriteError::XmlElementWriteError { .. }) => unreachable!(),
    }
}

/// The events of the document of what the version keeps. Only want of memory refuses.
#[tactic(auto, using(crate::proofs::Pieces::appends_only_memory))]
pub(crate) fn document_events(held: &Bom, target: Target) -> Result<Events, AllocError>
    ensures { IfOk result
        (λ e. e.list ≡ xml_document
        (keep target.version (bom_tree held.now) a_bill) target.version) }
{
    let mut writer = EventWriter::new(target.alloc);
    only_memory(write_document(held, &mut writer, target))?;
    match writer.finish() {
        Ok(events) => Ok(events),
        Err(EventsError::Memory(error)) => Err(error),
        Err(EventsError::Unbalanced { .. }) => unreachable!(),
    }
}
