//! Documents of bills in pieces, of which each component is one, and each dependency.

ghost use Rattle.std.specs.Prelude.{◌≡◌, IfOk, OnErr};
ghost use Rattle.cdx_write.specs.Writing.{Appends};
ghost use Rattle.cdx_bom.specs.Trees.{bom_tree};
ghost use Rattle.cdx_bom.specs.BillWriting.{document_in};
ghost use Rattle.cdx_bom.specs.Pieces.{GivesPiece, all_components, all_dependencies, list_opened, list_closed, component_written, dependency_written, before_components, before_dependencies, after_dependencies};

use crate::bom::Bom;
use crate::xml::writing::{only_memory, write_end, write_root_start, write_start};
use cdx_events::{EventWriter, List, XmlEvent};
use cdx_models::SpecVersion;
use cdx_nest::Component;
use cdx_relations::Dependency;
use cdx_schema::Target;
use cdx_write::{
    Element, WriteResult, put_child, put_child_since, write_close_tag, write_start_tag,
};
use std::alloc::{AllocError, Global};
use std::marker::Model;

/// The events of a bill's document, in pieces that are made one after another: what stands before the components, each
/// component, what stands between them and the dependencies, each dependency, and what comes after them. Contracts see
/// the events that are still to come, and how many pieces they are.
#[derive(Drop)]
pub struct DocumentPieces<'a> {
    bill: &'a Bom,
    target: Target,
    stage: Stage<'a>,
}

// What is still to come: all pieces, these components and all after them, these dependencies and the last piece, or
// nothing.
#[derive(Drop)]
enum Stage<'a> {
    Start,
    Components(&'a [Component]),
    Dependencies(&'a [Dependency]),
    Done,
}

impl<'a> Model for DocumentPieces<'a> {
    ghost use Rattle.cdx_bom.specs.Pieces.{Ahead};

    ghost Value = { Ahead };

    ghost use Rattle.cdx_bom.specs.Pieces.{ahead};

    ghost view = { λ p. ahead p.bill.now p.target.version p.stage };
}

impl Bom {
    /// The pieces of the document of what the version keeps of the bill, as `output_xml` makes it at once; whether the
    /// bill fits the version isn't asked. It takes no memory.
    pub fn document_pieces(&self, alloc: Global, version: SpecVersion) -> DocumentPieces<'_>
        ensures { result.events ≡ document_in version (bom_tree self.now) }
    {
        DocumentPieces {
            bill: self,
            target: Target { alloc, version },
            stage: Stage::Start,
        }
    }
}

impl<'a> DocumentPieces<'a> {
    /// The next piece, or `None`, which comes only where no event is left. Only want of memory refuses; what is to come
    /// is then as before.
    pub fn next(&mut self) -> Result<Option<List<XmlEvent>>, AllocError>
        ensures gives { IfOk result (λ piece. GivesPiece self.old self.new piece) }
        ensures kept { OnErr result (self.new ≡ self.old) }
    {
        match self.stage {
            Stage::Start => {
                let piece = first_piece(self.bill, self.target)?;
                self.stage = Stage::Components(components_of(self.bill));
                Ok(Some(piece))
            }
            Stage::Components([first, more @ ..]) => {
                let piece = component_piece(first, self.target)?;
                self.stage = Stage::Components(more);
                Ok(Some(piece))
            }
            Stage::Components([]) => {
                let piece = middle_piece(self.bill, self.target)?;
                self.stage = Stage::Dependencies(dependencies_of(self.bill));
                Ok(Some(piece))
            }
            Stage::Dependencies([first, more @ ..]) => {
                let piece = dependency_piece(first, self.target)?;
                self.stage = Stage::Dependencies(more);
                Ok(Some(piece))
            }
            Stage::Dependencies([]) => {
                let piece = last_piece(self.bill, self.target)?;
                self.stage = Stage::Done;
                Ok(Some(piece))
            }
            Stage::Done => Ok(None),
        }
    }
}

fn components_of<'a>(bill: &'a Bom) -> &'a [Component]
    ensures { result.now ≡ all_components bill.now }
{
    match &bill.components {
        None => &[],
        Some(held) => held.as_slice(),
    }
}

fn dependencies_of<'a>(bill: &'a Bom) -> &'a [Dependency]
    ensures { result.now ≡ all_dependencies bill.now }
{
    match &bill.dependencies {
        None => &[],
        Some(held) => held.0.as_slice(),
    }
}

// The start of a list, where there is one.
fn open_list<T>(
    writer: &mut EventWriter,
    name: &str,
    held: &Option<T>,
    target: Target,
) -> WriteResult
    ensures { Appends writer.old writer.new (list_opened name.now held.now) result }
{
    match held {
        None => Ok(()),
        Some(_) => write_start_tag(target.alloc, writer, name),
    }
}

// The end of a list, where there is one.
fn close_list<T>(
    writer: &mut EventWriter,
    name: &str,
    held: &Option<T>,
    target: Target,
) -> WriteResult
    ensures { Appends writer.old writer.new (list_closed name.now held.now) result }
{
    match held {
        None => Ok(()),
        Some(_) => write_close_tag(target.alloc, writer, name),
    }
}

// What stands before the components, with the start of their list where there is one.
#[tactic(auto, using(crate::proofs::Pieces::appends_only_memory))]
fn first_piece(bill: &Bom, target: Target) -> Result<List<XmlEvent>, AllocError>
    ensures { IfOk result (λ piece. piece ≡ before_components target.version bill.now) }
{
    let mut writer = EventWriter::new(target.alloc);
    only_memory(write_start(&mut writer))?;
    only_memory(write_root_start(bill, &mut writer, target))?;
    only_memory(put_child(&mut writer, "metadata", &bill.metadata, target))?;
    only_memory(open_list(&mut writer, "components", &bill.components, target))?;
    Ok(writer.into_list())
}

#[tactic(auto, using(crate::proofs::Pieces::appends_only_memory))]
fn component_piece(held: &Component, target: Target) -> Result<List<XmlEvent>, AllocError>
    ensures { IfOk result (λ piece. piece ≡ component_written target.version held.now) }
{
    let mut writer = EventWriter::new(target.alloc);
    only_memory(held.write_as(&mut writer, "component", target))?;
    Ok(writer.into_list())
}

// What stands between the components and the dependencies, from the end of the one list to the start of the other,
// where there are such.
#[tactic(auto, using(crate::proofs::Pieces::appends_only_memory))]
fn middle_piece(bill: &Bom, target: Target) -> Result<List<XmlEvent>, AllocError>
    ensures { IfOk result (λ piece. piece ≡ before_dependencies target.version bill.now) }
{
    let mut writer = EventWriter::new(target.alloc);
    only_memory(close_list(&mut writer, "components", &bill.components, target))?;
    only_memory(put_child(&mut writer, "services", &bill.services, target))?;
    only_memory(put_child(
        &mut writer,
        "externalReferences",
        &bill.external_references,
        target,
    ))?;
    only_memory(open_list(&mut writer, "dependencies", &bill.dependencies, target))?;
    Ok(writer.into_list())
}

#[tactic(auto, using(crate::proofs::Pieces::appends_only_memory))]
fn dependency_piece(held: &Dependency, target: Target) -> Result<List<XmlEvent>, AllocError>
    ensures { IfOk result (λ piece. piece ≡ dependency_written target.version held.now) }
{
    let mut writer = EventWriter::new(target.alloc);
    only_memory(held.write_as(&mut writer, "dependency", target))?;
    Ok(writer.into_list())
}

// What comes after the dependencies, with the end of their list where there is one.
#[tactic(auto, using(crate::proofs::Pieces::appends_only_memory))]
fn last_piece(bill: &Bom, target: Target) -> Result<List<XmlEvent>, AllocError>
    ensures { IfOk result (λ piece. piece ≡ after_dependencies target.version bill.now) }
{
    let mut writer = EventWriter::new(target.alloc);
    only_memory(close_list(&mut writer, "dependencies", &bill.dependencies, target))?;
    only_memory(put_child(&mut writer, "compositions", &bill.compositions, target))?;
    only_memory(put_child_since(
        &mut writer,
        SpecVersion::V1_5,
        "properties",
        &bill.properties,
        target,
    ))?;
    only_memory(put_child_since(
        &mut writer,
        SpecVersion::V1_4,
        "signature",
        &bill.signature,
        target,
    ))?;
    only_memory(write_close_tag(target.alloc, &mut writer, "bom"))?;
    only_memory(write_end(&mut writer))?;
    Ok(writer.into_list())
}
