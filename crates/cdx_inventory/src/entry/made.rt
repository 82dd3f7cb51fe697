//! What an inventory tells, out of a component.

ghost use Rattle.std.specs.Prelude.{◌≡◌, IfOk};
ghost use Rattle.cdx_models.specs.declared.errors.Step.{Step};
ghost use Rattle.cdx_models.specs.Trees.{present, each};
ghost use Rattle.cdx_license.specs.Records.{choice_tree, licenses_tree};
ghost use Rattle.cdx_component.specs.Trees.{component_tree};
ghost use Rattle.cdx_inventory.specs.Entries.{entry, told, license_text as text_in, license_texts, members_of, has_license as is_under};

use super::Entry;
use cdx_component::Component;
use cdx_events::{List as Items, Text};
use cdx_license::{LicenseChoice, LicenseIdentifier, Licenses};
use cdx_models::{HasTree, Step, copy_row};
use cdx_ways::copy_path;
use std::alloc::{AllocError, Global};

// Of a license its id or name, of an expression its text.
fn license_text(choice: &LicenseChoice) -> &Text
    ensures { result.now ≡ text_in (choice_tree choice.now) }
{
    match choice {
        LicenseChoice::License(license) => match &license.license_identifier {
            LicenseIdentifier::SpdxId(id) => id,
            LicenseIdentifier::Name(name) => name,
        },
        LicenseChoice::Expression(expression) => &expression.expression,
    }
}

fn texts_of(alloc: Global, choices: &[LicenseChoice]) -> Result<Items<Text>, AllocError>
    ensures { IfOk result (λ ts. ts ≡ license_texts (each choice_tree choices.now)) }
{
    let mut texts = Items::with_capacity(alloc, choices.len())?;
    for choice in choices {
        texts.push(license_text(choice).copy(alloc)?)?;
    }
    Ok(texts)
}

fn license_texts_of(alloc: Global, licenses: &Option<Licenses>) -> Result<Items<Text>, AllocError>
    ensures { IfOk result
        (λ ts. ts ≡ license_texts (members_of (present licenses_tree licenses.now))) }
{
    match licenses {
        None => Ok(Items::new(alloc)),
        Some(licenses) => texts_of(alloc, licenses.0.as_slice()),
    }
}

/// The entry of a component at a path. Only want of memory refuses.
pub(crate) fn entry_of(
    alloc: Global,
    steps: &[Step],
    component: &Component,
) -> Result<Entry, AllocError>
    ensures { IfOk result (λ e. told e ≡ entry (steps.now, component_tree component.now)) }
{
    let path = copy_path(alloc, steps)?;
    let name = component.name.copy(alloc)?;
    let version = copy_row(alloc, &component.version)?;
    let licenses = license_texts_of(alloc, &component.licenses)?;
    Ok(Entry {
        path,
        name,
        version,
        licenses,
    })
}

/// Whether one of the entry's license texts is exactly this one. It takes no memory.
pub(crate) fn has_license(entry: &Entry, license: &str) -> bool
    ensures { result ≡ is_under license.now (told entry.now) }
{
    for item in entry.licenses.as_slice() {
        if item.is(license) {
            return true;
        }
    }
    false
}
