//! Why a road takes what XML may leave out: records without children, and lists of which nothing is written.

ghost use Rattle.std.specs.Prelude.{◌≡◌, ◌&&◌, ◌||◌, is_some, not};
ghost use Rattle.cdx_models.specs.Trees.{text, present, list_tree};
ghost use Rattle.cdx_models.specs.Records.{contact_tree, entity_tree};
ghost use Rattle.cdx_patch.specs.Records.{diff_tree, source_tree};
ghost use Rattle.cdx_component_parts.specs.Records.{evidence_tree};
ghost use Rattle.cdx_schema.specs.Trips.{bare, is_hollow};
ghost use Rattle.cdx_losses.specs.Losses.{field_reason};
ghost use Rattle.cdx_losses.specs.LeftOut.{is_left_out, after_two_trips, urls_row, contacts_row, diff_row, source_row, supplier_row, evidence_row};

use crate::loss::Reason;
use crate::road::Road;
use cdx_component_parts::ComponentEvidence;
use cdx_events::{List as Items, Text};
use cdx_models::{OrganizationalContact, OrganizationalEntity};
use cdx_patch::{Diff, Source};
use cdx_trips::{
    is_hollow_contact, is_hollow_diff, is_hollow_entity, is_hollow_evidence, is_hollow_source,
};

/// Why a road takes a patch's diff.
pub(super) fn diff_reason(road: Road, held: &Option<Diff>) -> Option<Reason>
    ensures { result ≡ field_reason road.version road.trips diff_row (present diff_tree held.now) }
{
    match held {
        None => None,
        Some(diff) => road.unwritten(is_hollow_diff(diff)),
    }
}

/// Why a road takes an issue's source.
pub(super) fn source_reason(road: Road, held: &Option<Source>) -> Option<Reason>
    ensures { result
        ≡ field_reason road.version road.trips source_row (present source_tree held.now) }
{
    match held {
        None => None,
        Some(source) => road.unwritten(is_hollow_source(source)),
    }
}

/// Why a road takes a component's evidence.
pub(crate) fn evidence_reason(road: Road, held: &Option<ComponentEvidence>) -> Option<Reason>
    ensures { result
        ≡ field_reason road.version road.trips evidence_row (present evidence_tree held.now) }
{
    match held {
        None => None,
        Some(evidence) => road.unwritten(is_hollow_evidence(evidence)),
    }
}

// ---- lists of which nothing is written

fn are_blank(contacts: &[OrganizationalContact]) -> bool
    ensures { result ≡ is_left_out (list_tree contact_tree contacts.now) }
{
    for contact in contacts {
        if !is_hollow_contact(contact) {
            return false;
        }
    }
    true
}

fn lacks_urls(held: &Option<Items<Text>>) -> bool
    ensures { result ≡ is_left_out (present (list_tree text) held.now) }
{
    match held {
        None => true,
        Some(urls) => urls.as_slice().is_empty(),
    }
}

fn lacks_contacts(held: &Option<Items<OrganizationalContact>>) -> bool
    ensures { result ≡ is_left_out (present (list_tree contact_tree) held.now) }
{
    match held {
        None => true,
        Some(contacts) => are_blank(contacts.as_slice()),
    }
}

/// Why a road takes an organization's addresses.
pub(super) fn urls_reason(road: Road, held: &Option<Items<Text>>) -> Option<Reason>
    ensures { result
        ≡ field_reason road.version road.trips urls_row (present (list_tree text) held.now) }
{
    match held {
        None => None,
        Some(_) => road.unwritten(lacks_urls(held)),
    }
}

/// Why a road takes an organization's contacts.
pub(super) fn contacts_reason(
    road: Road,
    held: &Option<Items<OrganizationalContact>>,
) -> Option<Reason>
    ensures { result ≡ field_reason road.version road.trips contacts_row
        (present (list_tree contact_tree) held.now) }
{
    match held {
        None => None,
        Some(_) => road.unwritten(lacks_contacts(held)),
    }
}

// ---- suppliers

// Whether an organization has no addresses and no contacts after a trip.
fn lacks_lists(entity: &OrganizationalEntity) -> bool
    ensures { result ≡ (is_left_out (present (list_tree text) entity.now.url)
        && is_left_out (present (list_tree contact_tree) entity.now.contact)) }
{
    lacks_urls(&entity.url) && lacks_contacts(&entity.contact)
}

// Whether an organization has no children after a trip.
fn is_hollow_after(entity: &OrganizationalEntity) -> bool
    ensures { result ≡ is_hollow (bare (entity_tree entity.now)) }
{
    entity.name.is_none() && lacks_lists(entity)
}

// Whether the first trip leaves a supplier out, or the second what the first left of it.
#[tactic(auto, using(crate::proofs::Gone::two_trips, crate::proofs::Gone::no_two_trips))]
fn is_supplier_left_out(road: Road, entity: &OrganizationalEntity) -> bool
    ensures { result ≡ (is_hollow (entity_tree entity.now)
        || after_two_trips road.trips (is_hollow (bare (entity_tree entity.now)))) }
{
    if is_hollow_entity(entity) {
        true
    } else if road.trips > 1 {
        is_hollow_after(entity)
    } else {
        false
    }
}

/// Why a road takes a component's supplier.
pub(crate) fn supplier_reason(road: Road, held: &Option<OrganizationalEntity>) -> Option<Reason>
    ensures { result
        ≡ field_reason road.version road.trips supplier_row (present entity_tree held.now) }
{
    match held {
        None => None,
        Some(entity) => road.unwritten(is_supplier_left_out(road, entity)),
    }
}
