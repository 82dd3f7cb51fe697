//! Records that would be elements without children.

ghost use Rattle.std.specs.Prelude.{◌≡◌, ◌&&◌, is_some, not};
ghost use Rattle.cdx_models.specs.Records.{contact_tree, entity_tree};
ghost use Rattle.cdx_patch.specs.Records.{diff_tree, source_tree};
ghost use Rattle.cdx_component_parts.specs.Records.{evidence_tree};
ghost use Rattle.cdx_schema.specs.Trips.{is_hollow};

use cdx_component_parts::ComponentEvidence;
use cdx_models::{OrganizationalContact, OrganizationalEntity};
use cdx_patch::{Diff, Source};

fn has_no_address(contact: &OrganizationalContact) -> bool
    ensures { result ≡ (not (is_some contact.now.email) && not (is_some contact.now.phone)) }
{
    contact.email.is_none() && contact.phone.is_none()
}

/// Whether a contact has neither a name, nor an address for mail, nor a number to call. A list's XML leaves it out.
pub fn is_hollow_contact(contact: &OrganizationalContact) -> bool
    ensures { result ≡ is_hollow (contact_tree contact.now) }
{
    contact.name.is_none() && has_no_address(contact)
}

/// Whether a diff has neither a text nor an address. A patch's XML leaves it out.
pub fn is_hollow_diff(diff: &Diff) -> bool
    ensures { result ≡ is_hollow (diff_tree diff.now) }
{
    diff.text.is_none() && diff.url.is_none()
}

/// Whether a source has neither a name nor an address. An issue's XML leaves it out.
pub fn is_hollow_source(source: &Source) -> bool
    ensures { result ≡ is_hollow (source_tree source.now) }
{
    source.name.is_none() && source.url.is_none()
}

/// Whether evidence has neither licenses nor copyright texts. A component's XML leaves it out.
pub fn is_hollow_evidence(evidence: &ComponentEvidence) -> bool
    ensures { result ≡ is_hollow (evidence_tree evidence.now) }
{
    evidence.licenses.is_none() && evidence.copyright.is_none()
}

fn has_no_list(entity: &OrganizationalEntity) -> bool
    ensures { result ≡ (not (is_some entity.now.url) && not (is_some entity.now.contact)) }
{
    entity.url.is_none() && entity.contact.is_none()
}

/// Whether an organization has neither a name, nor addresses, nor contacts. A component's XML leaves such a supplier out.
pub fn is_hollow_entity(entity: &OrganizationalEntity) -> bool
    ensures { result ≡ is_hollow (entity_tree entity.now) }
{
    entity.name.is_none() && has_no_list(entity)
}
