//! What a road takes of components and services.

ghost use Rattle.std.specs.Prelude.{codes, OnOk};
ghost use Rattle.cdx_models.specs.Trees.{component, pedigree, service, present};
ghost use Rattle.cdx_schema.specs.Kinds.{components, services, a_list, a_record};
ghost use Rattle.cdx_schema.specs.Faults.{to_member};
ghost use Rattle.cdx_component.specs.Trees.{component_tree, components_tree, pedigree_tree};
ghost use Rattle.cdx_service.specs.Trees.{service_tree, services_tree};
ghost use Rattle.cdx_ways.specs.Ways.{behind_step};
ghost use Rattle.cdx_losses.specs.Losses.{lost};
ghost use Rattle.cdx_losses.specs.Walks.{AddsLosses};

use crate::leaves::{evidence_reason, supplier_reason};
use crate::losing::{Losing, lose_row, lose_row_or};
use crate::road::Road;
use crate::walk::Walk;
use cdx_models::SpecVersion;
use cdx_nest::{Component, Components, Pedigree, Service, Services};
use std::alloc::AllocError;

// ---- components

#[cycle(components)]
fn lose_component(road: Road, held: &Component, walk: &mut Walk) -> Result<(), AllocError>
    ensures { OnOk result
        (AddsLosses (lost road.version road.trips (component_tree held.now) (a_record component))
        walk.old walk.new) }
{
    let supplier = supplier_reason(road, &held.supplier);
    lose_row_or(road, "supplier", supplier, &held.supplier, walk)?;
    lose_row(road, "licenses", &held.licenses, walk)?;
    lose_pedigree_row(road, &held.pedigree, walk)?;
    lose_components_row(road, "components", &held.components, walk)?;
    let evidence = evidence_reason(road, &held.evidence);
    lose_row_or(road, "evidence", evidence, &held.evidence, walk)?;
    walk.record_member(
        "signature",
        road.unknown(SpecVersion::V1_4, &held.signature),
    )?;
    Ok(())
}

#[cycle(components)]
fn lose_pedigree(road: Road, held: &Pedigree, walk: &mut Walk) -> Result<(), AllocError>
    ensures { OnOk result
        (AddsLosses (lost road.version road.trips (pedigree_tree held.now) (a_record pedigree))
        walk.old walk.new) }
{
    lose_components_row(road, "ancestors", &held.ancestors, walk)?;
    lose_components_row(road, "descendants", &held.descendants, walk)?;
    lose_components_row(road, "variants", &held.variants, walk)?;
    lose_row(road, "patches", &held.patches, walk)?;
    Ok(())
}

#[cycle(components)]
fn lose_components(road: Road, held: &Components, walk: &mut Walk) -> Result<(), AllocError>
    ensures { OnOk result
        (AddsLosses (lost road.version road.trips (components_tree held.now) (a_list components))
        walk.old walk.new) }
{
    let depth = walk.depth();
    for (i, item) in held.as_slice().iter().enumerate() {
        walk.enter_item(i)?;
        lose_component(road, item, walk)?;
        walk.leave(depth);
    }
    Ok(())
}

#[cycle(components)]
fn lose_pedigree_row(road: Road, held: &Option<Pedigree>, walk: &mut Walk) -> Result<(), AllocError>
    ensures { OnOk result (AddsLosses (behind_step (to_member (codes "pedigree"))
        (lost road.version road.trips (present pedigree_tree held.now) (a_record pedigree)))
        walk.old walk.new) }
{
    match held {
        None => Ok(()),
        Some(held) => {
            let depth = walk.depth();
            walk.enter_member("pedigree")?;
            lose_pedigree(road, held, walk)?;
            walk.leave(depth);
            Ok(())
        }
    }
}

#[cycle(components)]
fn lose_components_row(
    road: Road,
    name: &str,
    held: &Option<Components>,
    walk: &mut Walk,
) -> Result<(), AllocError>
    ensures { OnOk result (AddsLosses (behind_step (to_member name.now)
        (lost road.version road.trips (present components_tree held.now) (a_list components)))
        walk.old walk.new) }
{
    match held {
        None => Ok(()),
        Some(held) => {
            let depth = walk.depth();
            walk.enter_member(name)?;
            lose_components(road, held, walk)?;
            walk.leave(depth);
            Ok(())
        }
    }
}

impl Losing for Component {
    ghost tree = { component_tree };

    ghost kind = { a_record component };

    fn lose(&self, road: Road, walk: &mut Walk) -> Result<(), AllocError> {
        lose_component(road, self, walk)
    }
}

impl Losing for Components {
    ghost tree = { components_tree };

    ghost kind = { a_list components };

    fn lose(&self, road: Road, walk: &mut Walk) -> Result<(), AllocError> {
        lose_components(road, self, walk)
    }
}

// ---- services

#[cycle(services)]
fn lose_service(road: Road, held: &Service, walk: &mut Walk) -> Result<(), AllocError>
    ensures { OnOk result
        (AddsLosses (lost road.version road.trips (service_tree held.now) (a_record service))
        walk.old walk.new) }
{
    lose_row(road, "provider", &held.provider, walk)?;
    lose_row(road, "data", &held.data_items, walk)?;
    lose_row(road, "licenses", &held.licenses, walk)?;
    lose_services_row(road, &held.services, walk)?;
    walk.record_member(
        "signature",
        road.unknown(SpecVersion::V1_4, &held.signature),
    )?;
    walk.record_member(
        "trustZone",
        road.unknown(SpecVersion::V1_5, &held.trust_zone),
    )?;
    Ok(())
}

#[cycle(services)]
fn lose_services(road: Road, held: &Services, walk: &mut Walk) -> Result<(), AllocError>
    ensures { OnOk result
        (AddsLosses (lost road.version road.trips (services_tree held.now) (a_list services))
        walk.old walk.new) }
{
    let depth = walk.depth();
    for (i, item) in held.as_slice().iter().enumerate() {
        walk.enter_item(i)?;
        lose_service(road, item, walk)?;
        walk.leave(depth);
    }
    Ok(())
}

#[cycle(services)]
fn lose_services_row(road: Road, held: &Option<Services>, walk: &mut Walk) -> Result<(), AllocError>
    ensures { OnOk result (AddsLosses (behind_step (to_member (codes "services"))
        (lost road.version road.trips (present services_tree held.now) (a_list services)))
        walk.old walk.new) }
{
    match held {
        None => Ok(()),
        Some(held) => {
            let depth = walk.depth();
            walk.enter_member("services")?;
            lose_services(road, held, walk)?;
            walk.leave(depth);
            Ok(())
        }
    }
}

impl Losing for Services {
    ghost tree = { services_tree };

    ghost kind = { a_list services };

    fn lose(&self, road: Road, walk: &mut Walk) -> Result<(), AllocError> {
        lose_services(road, self, walk)
    }
}
