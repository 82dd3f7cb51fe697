//! Which bills count as the same.

ghost use Rattle.std.specs.Prelude.{◌≡◌, ◌↔◌, true};
ghost use Rattle.cdx_models.specs.Trees.{metadata, present, list_tree};
ghost use Rattle.cdx_models.specs.Records.{tool_tree};
ghost use Rattle.cdx_models.specs.Equal.{equal, equal_each};
ghost use Rattle.cdx_schema.specs.Kinds.{a_record, a_tools, a_bill};
ghost use Rattle.cdx_schema.specs.Trips.{settled, IsSame};
ghost use Rattle.cdx_nest.specs.Trees.{object_tree, tools_tree, metadata_tree};
ghost use Rattle.cdx_bom.specs.Trees.{bom_tree};
ghost use Rattle.cdx_bom.specs.SettledBills.{settled_inventory};

use crate::bom::Bom;
use crate::bom::compared::{equal_contents, equal_identity, equal_relations};
use cdx_events::List;
use cdx_models::{HasTree, Tool, equal_row};
use cdx_nest::{Components, Metadata, Services, Tools};

/// Whether two bills are the same: equal, once an empty tool list counts as a tools object without services and
/// components. That is what comes back of an empty tool list from XML in 1.5. It takes no memory.
pub fn same(one: &Bom, other: &Bom) -> bool
    ensures { (result ≡ true) ↔ IsSame (bom_tree one.now) (bom_tree other.now) }
{
    same_settled(one, other)
}

#[tactic(auto, using(crate::proofs::Settled::bills_compared))]
fn same_settled(one: &Bom, other: &Bom) -> bool
    ensures { result
        ≡ equal (settled (bom_tree one.now) a_bill) (settled (bom_tree other.now) a_bill) }
{
    same_settled_inventory(one, other) && equal_relations(one, other)
}

#[tactic(auto, using(crate::proofs::Settled::inventory_settled))]
fn same_settled_inventory(one: &Bom, other: &Bom) -> bool
    ensures { result ≡ equal_each (settled_inventory one.now) (settled_inventory other.now) }
{
    equal_identity(one, other)
        && same_metadata_row(&one.metadata, &other.metadata)
        && equal_contents(one, other)
}

fn same_tools(one: &Tools, other: &Tools) -> bool
    ensures { result ≡ equal (settled (tools_tree one.now) a_tools)
        (settled (tools_tree other.now) a_tools) }
{
    match (one, other) {
        (Tools::List(one), Tools::List(other)) => one.agrees(other),
        (
            Tools::List(tools),
            Tools::Object {
                services,
                components,
            },
        ) => is_nothing(tools, services, components),
        (
            Tools::Object {
                services,
                components,
            },
            Tools::List(tools),
        ) => is_nothing(tools, services, components),
        (
            Tools::Object {
                services,
                components,
            },
            Tools::Object {
                services: other_services,
                components: other_components,
            },
        ) => equal_row(services, other_services) && equal_row(components, other_components),
    }
}

// Whether the list has no tool and the object no part, so that they are the same.
fn is_nothing(
    tools: &List<Tool>,
    services: &Option<Services>,
    components: &Option<Components>,
) -> bool
    ensures list { result ≡ equal (settled (list_tree tool_tree tools.now) a_tools)
        (settled (object_tree services.now components.now) a_tools) }
    ensures object { result ≡ equal (settled (object_tree services.now components.now) a_tools)
        (settled (list_tree tool_tree tools.now) a_tools) }
{
    if tools.len() != 0 {
        return false;
    }
    services.is_none() && components.is_none()
}

fn same_tools_row(one: &Option<Tools>, other: &Option<Tools>) -> bool
    ensures { result ≡ equal (settled (present tools_tree one.now) a_tools)
        (settled (present tools_tree other.now) a_tools) }
{
    match (one, other) {
        (None, None) => true,
        (Some(one), Some(other)) => same_tools(one, other),
        (None, Some(_)) => false,
        (Some(_), None) => false,
    }
}

#[tactic(auto, using(crate::proofs::Settled::metadata_settled))]
fn same_metadata(one: &Metadata, other: &Metadata) -> bool
    ensures { result ≡ equal (settled (metadata_tree one.now) (a_record metadata))
        (settled (metadata_tree other.now) (a_record metadata)) }
{
    equal_row(&one.timestamp, &other.timestamp)
        && same_tools_row(&one.tools, &other.tools)
        && equal_row(&one.authors, &other.authors)
        && equal_row(&one.component, &other.component)
        && equal_row(&one.manufacture, &other.manufacture)
        && equal_row(&one.supplier, &other.supplier)
        && equal_row(&one.licenses, &other.licenses)
        && equal_row(&one.properties, &other.properties)
}

fn same_metadata_row(one: &Option<Metadata>, other: &Option<Metadata>) -> bool
    ensures { result ≡ equal (settled (present metadata_tree one.now) (a_record metadata))
        (settled (present metadata_tree other.now) (a_record metadata)) }
{
    match (one, other) {
        (None, None) => true,
        (Some(one), Some(other)) => same_metadata(one, other),
        (None, Some(_)) => false,
        (Some(_), None) => false,
    }
}
