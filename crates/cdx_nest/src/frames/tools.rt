//! Tools while their children are read.

ghost use Rattle.std.specs.Prelude.{◌≡◌, ◌+◌, ◌||◌, not, Some, OnOk};
ghost use Rattle.cdx_models.specs.Trees.{Trees, absent, more, two, present, is_absent};
ghost use Rattle.cdx_schema.specs.XmlReading.{tools_object_of, tools_plan};
ghost use Rattle.cdx_leaf.specs.Attribute.{GivesAt};
ghost use Rattle.cdx_machine.specs.Several.{at_position, found_from, Puts};
ghost use Rattle.cdx_nest_machine.specs.declared.nested.ChildReader.TheVariants.{Leaf, Nested};
ghost use Rattle.cdx_nest_machine.specs.Children.{HasReader};
ghost use Rattle.cdx_nest_machine.specs.Forms.{tools_last};
ghost use Rattle.cdx_push.specs.Leaf.{value_kind as leaf_value_kind, value_tree as leaf_value_tree};
ghost use Rattle.cdx_component.specs.Trees.{components_tree};
ghost use Rattle.cdx_service.specs.Trees.{services_tree};
ghost use Rattle.cdx_nest.specs.Trees.{tools_tree};
ghost use Rattle.cdx_nest.specs.Frames.{value_kind, value_tree, tools_readers};
ghost use Rattle.cdx_nest.specs.Reading.{tools_part, object_slots};

use crate::frames::{NestKind, NestValue};
use crate::tools::Tools;
use cdx_component::Components;
use cdx_events::{List, OwnedName};
use cdx_leaf::End;
use cdx_machine::FoundChild;
use cdx_models::{SpecVersion, Tool, XmlReadError};
use cdx_nest_machine::ChildReader;
use cdx_push::{LeafKind, LeafValue};
use cdx_service::Services;
use cdx_write::is_there;
use std::alloc::{AllocError, Global};

/// The tools that were met so far, and the services and the components that were read last.
#[derive(Drop)]
pub struct ToolsPart {
    pub(crate) tools: List<Tool>,
    pub(crate) services: Option<Services>,
    pub(crate) components: Option<Components>,
}

/// Tools before their children.
pub(crate) fn begin_tools(alloc: Global) -> ToolsPart
    ensures { tools_part result ≡ more absent (two absent absent) }
{
    ToolsPart {
        tools: List::new(alloc),
        services: None,
        components: None,
    }
}

/// The child of tools that the version knows by the name: services and components are known from 1.5 on.
#[tactic(auto, unfolding(cdx_machine::proofs::OnRows::on_rows), using(cdx_machine::proofs::OnRows::by_rows))]
pub(crate) fn find_in_tools(version: SpecVersion, name: &OwnedName) -> FoundChild
    ensures { (ts : Trees)
        → result ≡ found_from 0 tools_plan.children ts version name.now.local_name }
{
    match name.local_name.as_str() {
        "tool" => FoundChild::At(0),
        "services" => FoundChild::since(SpecVersion::V1_5, version, 1),
        "components" => FoundChild::since(SpecVersion::V1_5, version, 2),
        _ => FoundChild::Unknown,
    }
}

/// What reads the child of the position in tools.
pub(crate) fn child_in_tools(position: usize) -> ChildReader<LeafKind, NestKind>
    requires { HasReader (at_position tools_readers) position }
    ensures { at_position tools_readers position ≡ Some result }
{
    match position {
        0 => ChildReader::Leaf(LeafKind::Tool),
        1 => ChildReader::Nested(NestKind::Services),
        2 => ChildReader::Nested(NestKind::Components),
        _ => unreachable!(),
    }
}

/// Puts the tool that the child of the position was read as to the end of the list. Only want of memory refuses.
pub(crate) fn put_tool(
    part: &mut ToolsPart,
    position: usize,
    value: LeafValue,
) -> Result<(), AllocError>
    requires { at_position tools_readers position ≡ Some (Leaf (leaf_value_kind value)) }
    ensures { OnOk result (Puts tools_plan.children position (leaf_value_tree value)
        (tools_part part.old) (tools_part part.new)) }
{
    match (position, value) {
        (0, LeafValue::Tool(tool)) => part.tools.push(tool),
        _ => unreachable!(),
    }
}

/// Puts the services or the components into their field.
pub(crate) fn put_tools_part(part: &mut ToolsPart, position: usize, value: NestValue)
    requires { at_position tools_readers position ≡ Some (Nested (value_kind value)) }
    ensures { Puts tools_plan.children position (value_tree value) (tools_part part.old)
        (tools_part part.new) }
{
    match (position, value) {
        (1, NestValue::Services(services)) => part.services = Some(services),
        (2, NestValue::Components(components)) => part.components = Some(components),
        _ => unreachable!(),
    }
}

// The services and components, and before 1.5 the empty list.
fn object_in(
    alloc: Global,
    version: SpecVersion,
    services: Option<Services>,
    components: Option<Components>,
) -> Tools
    ensures { tools_tree result ≡ tools_object_of version (object_slots services components) }
{
    match version {
        SpecVersion::V1_3 => Tools::List(List::new(alloc)),
        SpecVersion::V1_4 => Tools::List(List::new(alloc)),
        SpecVersion::V1_5 => Tools::Object {
            services,
            components,
        },
    }
}

// Whether services or components stand there.
fn has_object(part: &ToolsPart) -> bool
    ensures { result ≡ (not (is_absent (present services_tree part.now.services))
        || not (is_absent (present components_tree part.now.components))) }
{
    is_there(&part.services) || is_there(&part.components)
}

/// The tools where there is one, else the services and components, and before 1.5 the empty list. `RequiredDataMissing`
/// of `tool array or services & components` at the element's end, exactly where services or components stand beside a
/// tool.
pub(crate) fn finish_tools(closed: &End<'_>, part: ToolsPart) -> Result<Tools, XmlReadError>
    ensures { GivesAt tools_tree (closed.now.place + 1)
        (tools_last closed.now.element.now.local_name closed.now.version closed.now.place
        (tools_part part)) result }
{
    if part.tools.len() == 0 {
        return Ok(object_in(closed.alloc, closed.version, part.services, part.components));
    }
    if has_object(&part) {
        let missing = "tool array or services & components";
        return Err(XmlReadError::required_data_missing(
            closed.alloc,
            closed.place,
            missing,
            closed.element,
        )?);
    }
    Ok(Tools::List(part.tools))
}
