//! Organizations and contacts of which a trip takes nothing.

ghost use Rattle.std.specs.Prelude.{◌≡◌, ◌&&◌, not};
ghost use Rattle.cdx_models.specs.Trees.{contact, entity, text, each, present, list_tree};
ghost use Rattle.cdx_models.specs.Records.{contact_tree, entity_tree};
ghost use Rattle.cdx_schema.specs.Kinds.{contacts, authors, a_list, a_record, optional};
ghost use Rattle.cdx_schema.specs.Trips.{is_hollow};
ghost use Rattle.cdx_trips.specs.Surviving.{is_nothing, survives, items_survive};

use crate::hollow::{is_hollow_contact, is_hollow_entity};
use cdx_events::{List, Text};
use cdx_models::{OrganizationalContact, OrganizationalEntity};

// Whether each is written in a list.
fn contacts_survive(held: &[OrganizationalContact]) -> bool
    ensures { result ≡ items_survive (each contact_tree held.now) (a_record contact) }
{
    for item in held {
        if is_hollow_contact(item) {
            return false;
        }
    }
    true
}

fn urls_row_survives(held: &Option<List<Text>>) -> bool
    ensures { result ≡ not (is_nothing optional (present (list_tree text) held.now)) }
{
    match held {
        None => true,
        Some(urls) => !urls.as_slice().is_empty(),
    }
}

#[tactic(auto, unfolding(crate::specs::Surviving::survives, cdx_schema::specs::Table::list))]
fn contacts_row_survives(held: &Option<List<OrganizationalContact>>) -> bool
    ensures { result ≡ (not (is_nothing optional (present (list_tree contact_tree) held.now))
        && survives (present (list_tree contact_tree) held.now) (a_list contacts)) }
{
    match held {
        None => true,
        Some(contacts) => {
            let contacts = contacts.as_slice();
            !contacts.is_empty() && contacts_survive(contacts)
        }
    }
}

/// Whether a trip takes none of the authors.
#[tactic(auto, unfolding(crate::specs::Surviving::survives, cdx_schema::specs::Table::list))]
pub(crate) fn authors_row_survives(held: &Option<List<OrganizationalContact>>) -> bool
    ensures { result ≡ survives (present (list_tree contact_tree) held.now) (a_list authors) }
{
    match held {
        None => true,
        Some(authors) => contacts_survive(authors.as_slice()),
    }
}

#[tactic(auto, using(crate::proofs::Records::entity_rows))]
fn entity_survives(held: &OrganizationalEntity) -> bool
    ensures { result ≡ survives (entity_tree held.now) (a_record entity) }
{
    urls_row_survives(&held.url) && contacts_row_survives(&held.contact)
}

/// Whether a trip takes nothing of an organization.
#[tactic(auto, unfolding(crate::specs::Surviving::survives))]
pub(crate) fn entity_row_survives(held: &Option<OrganizationalEntity>) -> bool
    ensures { result ≡ survives (present entity_tree held.now) (a_record entity) }
{
    match held {
        None => true,
        Some(held) => entity_survives(held),
    }
}

/// Whether a trip takes neither a component's supplier nor anything of it.
#[tactic(auto, unfolding(crate::specs::Surviving::survives, cdx_schema::specs::Trips::is_hollow))]
pub(crate) fn supplier_row_survives(held: &Option<OrganizationalEntity>) -> bool
    ensures { result ≡ (not (is_hollow (present entity_tree held.now))
        && survives (present entity_tree held.now) (a_record entity)) }
{
    match held {
        None => true,
        Some(held) => !is_hollow_entity(held) && entity_survives(held),
    }
}
