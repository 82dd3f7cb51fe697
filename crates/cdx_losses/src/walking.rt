//! What a road takes of tools, metadata and a whole bill.

ghost use Rattle.std.specs.Prelude.{◌≡◌, IfOk, OnOk};
ghost use Rattle.cdx_models.specs.Trees.{metadata as metadata_record};
ghost use Rattle.cdx_schema.specs.Kinds.{a_record, a_tools, a_bill};
ghost use Rattle.cdx_nest.specs.Trees.{object_tree, tools_tree, metadata_tree};
ghost use Rattle.cdx_bom.specs.Trees.{bom_tree};
ghost use Rattle.cdx_bom.specs.Docs.{hops_of};
ghost use Rattle.cdx_losses.specs.Losses.{item_reason, lost, taken};
ghost use Rattle.cdx_losses.specs.Told.{all_told};
ghost use Rattle.cdx_losses.specs.Walks.{AddsLosses, value_lost};

use crate::losing::{Losing, lose_items, lose_row};
use crate::loss::{Loss, Reason};
use crate::road::{Road, lowest_version, xml_trips};
use crate::walk::Walk;
use cdx_bom::{Bom, Hop};
use cdx_events::List as Items;
use cdx_models::SpecVersion;
use cdx_nest::{Components, Metadata, Services, Tools};
use std::alloc::{AllocError, Global};

// Why a road takes a tools object.
fn tools_reason(
    road: Road,
    services: &Option<Services>,
    components: &Option<Components>,
) -> Option<Reason>
    ensures { result
        ≡ item_reason road.version road.trips a_tools (object_tree services.now components.now) }
{
    let has_part = services.is_some() || components.is_some();
    if has_part && !SpecVersion::V1_5.is_known_to(road.version) {
        Some(Reason::Tools)
    } else {
        None
    }
}

fn lose_tools_parts(
    road: Road,
    services: &Option<Services>,
    components: &Option<Components>,
    walk: &mut Walk,
) -> Result<(), AllocError>
    ensures { OnOk result
        (AddsLosses (lost road.version road.trips (object_tree services.now components.now) a_tools)
        walk.old walk.new) }
{
    lose_row(road, "services", services, walk)?;
    lose_row(road, "components", components, walk)?;
    Ok(())
}

fn lose_tools_object(
    road: Road,
    services: &Option<Services>,
    components: &Option<Components>,
    walk: &mut Walk,
) -> Result<(), AllocError>
    ensures { OnOk result
        (AddsLosses (value_lost road (object_tree services.now components.now) a_tools)
        walk.old walk.new) }
{
    match tools_reason(road, services, components) {
        Some(reason) => walk.record(reason),
        None => lose_tools_parts(road, services, components, walk),
    }
}

impl Losing for Tools {
    ghost tree = { tools_tree };

    ghost kind = { a_tools };

    fn lose(&self, road: Road, walk: &mut Walk) -> Result<(), AllocError> {
        match self {
            Tools::List(tools) => lose_items(road, tools.as_slice(), walk),
            Tools::Object {
                services,
                components,
            } => lose_tools_object(road, services, components, walk),
        }
    }
}

impl Losing for Metadata {
    ghost tree = { metadata_tree };

    ghost kind = { a_record metadata_record };

    fn lose(&self, road: Road, walk: &mut Walk) -> Result<(), AllocError> {
        lose_row(road, "tools", &self.tools, walk)?;
        lose_row(road, "authors", &self.authors, walk)?;
        lose_row(road, "component", &self.component, walk)?;
        lose_row(road, "manufacture", &self.manufacture, walk)?;
        lose_row(road, "supplier", &self.supplier, walk)?;
        lose_row(road, "licenses", &self.licenses, walk)?;
        Ok(())
    }
}

fn lose_bill(road: Road, bill: &Bom, walk: &mut Walk) -> Result<(), AllocError>
    ensures { OnOk result
        (AddsLosses (lost road.version road.trips (bom_tree bill.now) a_bill) walk.old walk.new) }
{
    lose_row(road, "metadata", &bill.metadata, walk)?;
    lose_row(road, "components", &bill.components, walk)?;
    lose_row(road, "services", &bill.services, walk)?;
    lose_row(road, "compositions", &bill.compositions, walk)?;
    walk.record_member(
        "properties",
        road.unknown(SpecVersion::V1_5, &bill.properties),
    )?;
    walk.record_member(
        "signature",
        road.unknown(SpecVersion::V1_4, &bill.signature),
    )?;
    Ok(())
}

fn taken_by(alloc: Global, road: Road, bill: &Bom) -> Result<Items<Loss>, AllocError>
    ensures { IfOk result
        (λ ls. all_told ls ≡ lost road.version road.trips (bom_tree bill.now) a_bill) }
{
    let mut walk = Walk::new(alloc);
    lose_bill(road, bill, &mut walk)?;
    Ok(walk.into_losses())
}

/// What a road along the hops takes of a bill: each with its path and the reason, in document order, fields in the order
/// of the schema's rows and items in order. What goes whole is one entry, below which nothing is listed. A road without
/// hops takes nothing. Only want of memory refuses.
pub fn losses(alloc: Global, bill: &Bom, hops: &[Hop]) -> Result<Items<Loss>, AllocError>
    ensures { IfOk result (λ ls. all_told ls ≡ taken (bom_tree bill.now) (hops_of hops.now)) }
{
    let Some((first, rest)) = hops.split_first() else {
        return Ok(Items::new(alloc));
    };
    let road = Road {
        version: lowest_version(first.version, rest),
        trips: xml_trips(hops),
    };
    taken_by(alloc, road, bill)
}
