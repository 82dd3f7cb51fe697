//! The walk over a bill's components: a component before what stands inside it, in the order of rows and items.

ghost use Rattle.std.specs.Prelude.{◌≡◌, ◌∷◌, ◌++◌, [], codes, length, take, None, filter, IfOk, OnOk, option_map};
ghost use Rattle.cdx_models.specs.Trees.{component, pedigree, metadata, present};
ghost use Rattle.cdx_schema.specs.Kinds.{components, a_list, a_record, a_tools};
ghost use Rattle.cdx_schema.specs.Faults.{to_member, to_item};
ghost use Rattle.cdx_component.specs.Trees.{component_tree, components_tree, pedigree_tree};
ghost use Rattle.cdx_nest.specs.Trees.{tools_tree, metadata_tree};
ghost use Rattle.cdx_bom.specs.Trees.{bom_tree};
ghost use Rattle.cdx_ways.specs.Ways.{behind_step};
ghost use Rattle.cdx_inventory.specs.Listing.{listed_in};
ghost use Rattle.cdx_inventory.specs.Entries.{all_told, inventory as inventory_of, has_license as is_under};
ghost use Rattle.cdx_inventory.specs.Walks.{AddsEntries};

use crate::entry::{Entry, entry_of, has_license};
use cdx_bom::Bom;
use cdx_component::Pedigree;
use cdx_events::{List as Items, Text};
use cdx_models::Step;
use cdx_nest::{Component, Components, Metadata, Tools};
use std::alloc::{AllocError, Global};

// The path goes on to a member.
fn enter_member(alloc: Global, path: &mut Vec<Step>, name: &str) -> Result<(), AllocError>
    ensures { OnOk result (path.new.items ≡ path.old.items ++ to_member name.now ∷ []) }
{
    path.push(Step::Member(Text::new(alloc, name)?))?;
    Ok(())
}

// The path goes on to an item.
fn enter_item(path: &mut Vec<Step>, number: usize) -> Result<(), AllocError>
    ensures { OnOk result (path.new.items ≡ path.old.items ++ to_item number ∷ []) }
{
    path.push(Step::Item(number))?;
    Ok(())
}

fn steps_in(path: &Vec<Step>) -> usize
    ensures { result ≡ length path.now.items }
{
    path.len()
}

// The path goes back to so many steps.
fn leave(path: &mut Vec<Step>, depth: usize)
    ensures { path.new.items ≡ take depth path.old.items }
{
    path.truncate(depth);
}

#[cycle(listing)]
fn list_component(
    alloc: Global,
    held: &Component,
    path: &mut Vec<Step>,
    entries: &mut Items<Entry>,
) -> Result<(), AllocError>
    ensures { OnOk result (AddsEntries (listed_in (component_tree held.now) (a_record component))
        path.old.items path.new.items entries.old entries.new) }
{
    let entry = entry_of(alloc, path.as_slice(), held)?;
    entries.push(entry)?;
    list_pedigree_row(alloc, &held.pedigree, path, entries)?;
    list_components_row(alloc, "components", &held.components, path, entries)?;
    Ok(())
}

#[cycle(listing)]
fn list_pedigree(
    alloc: Global,
    held: &Pedigree,
    path: &mut Vec<Step>,
    entries: &mut Items<Entry>,
) -> Result<(), AllocError>
    ensures { OnOk result (AddsEntries (listed_in (pedigree_tree held.now) (a_record pedigree))
        path.old.items path.new.items entries.old entries.new) }
{
    list_components_row(alloc, "ancestors", &held.ancestors, path, entries)?;
    list_components_row(alloc, "descendants", &held.descendants, path, entries)?;
    list_components_row(alloc, "variants", &held.variants, path, entries)?;
    Ok(())
}

#[cycle(listing)]
fn list_components(
    alloc: Global,
    held: &Components,
    path: &mut Vec<Step>,
    entries: &mut Items<Entry>,
) -> Result<(), AllocError>
    ensures { OnOk result (AddsEntries (listed_in (components_tree held.now) (a_list components))
        path.old.items path.new.items entries.old entries.new) }
{
    let depth = steps_in(path);
    for (i, item) in held.as_slice().iter().enumerate() {
        enter_item(path, i)?;
        list_component(alloc, item, path, entries)?;
        leave(path, depth);
    }
    Ok(())
}

#[cycle(listing)]
fn list_pedigree_row(
    alloc: Global,
    held: &Option<Pedigree>,
    path: &mut Vec<Step>,
    entries: &mut Items<Entry>,
) -> Result<(), AllocError>
    ensures { OnOk result (AddsEntries (behind_step (to_member (codes "pedigree"))
        (listed_in (present pedigree_tree held.now) (a_record pedigree)))
        path.old.items path.new.items entries.old entries.new) }
{
    match held {
        None => Ok(()),
        Some(held) => {
            let depth = steps_in(path);
            enter_member(alloc, path, "pedigree")?;
            list_pedigree(alloc, held, path, entries)?;
            leave(path, depth);
            Ok(())
        }
    }
}

#[cycle(listing)]
fn list_components_row(
    alloc: Global,
    name: &str,
    held: &Option<Components>,
    path: &mut Vec<Step>,
    entries: &mut Items<Entry>,
) -> Result<(), AllocError>
    ensures { OnOk result (AddsEntries (behind_step (to_member name.now)
        (listed_in (present components_tree held.now) (a_list components)))
        path.old.items path.new.items entries.old entries.new) }
{
    match held {
        None => Ok(()),
        Some(held) => {
            let depth = steps_in(path);
            enter_member(alloc, path, name)?;
            list_components(alloc, held, path, entries)?;
            leave(path, depth);
            Ok(())
        }
    }
}

fn list_tools(
    alloc: Global,
    tools: &Tools,
    path: &mut Vec<Step>,
    entries: &mut Items<Entry>,
) -> Result<(), AllocError>
    ensures { OnOk result (AddsEntries (listed_in (tools_tree tools.now) a_tools)
        path.old.items path.new.items entries.old entries.new) }
{
    match tools {
        Tools::List(_) => Ok(()),
        Tools::Object { components, .. } => {
            list_components_row(alloc, "components", components, path, entries)?;
            Ok(())
        }
    }
}

fn list_tools_row(
    alloc: Global,
    held: &Option<Tools>,
    path: &mut Vec<Step>,
    entries: &mut Items<Entry>,
) -> Result<(), AllocError>
    ensures { OnOk result (AddsEntries (behind_step (to_member (codes "tools"))
        (listed_in (present tools_tree held.now) a_tools))
        path.old.items path.new.items entries.old entries.new) }
{
    match held {
        None => Ok(()),
        Some(held) => {
            let depth = steps_in(path);
            enter_member(alloc, path, "tools")?;
            list_tools(alloc, held, path, entries)?;
            leave(path, depth);
            Ok(())
        }
    }
}

// The one component that stands in a member of its own.
fn list_component_row(
    alloc: Global,
    held: &Option<Component>,
    path: &mut Vec<Step>,
    entries: &mut Items<Entry>,
) -> Result<(), AllocError>
    ensures { OnOk result (AddsEntries (behind_step (to_member (codes "component"))
        (listed_in (present component_tree held.now) (a_record component)))
        path.old.items path.new.items entries.old entries.new) }
{
    match held {
        None => Ok(()),
        Some(held) => {
            let depth = steps_in(path);
            enter_member(alloc, path, "component")?;
            list_component(alloc, held, path, entries)?;
            leave(path, depth);
            Ok(())
        }
    }
}

fn list_metadata(
    alloc: Global,
    held: &Metadata,
    path: &mut Vec<Step>,
    entries: &mut Items<Entry>,
) -> Result<(), AllocError>
    ensures { OnOk result (AddsEntries (listed_in (metadata_tree held.now) (a_record metadata))
        path.old.items path.new.items entries.old entries.new) }
{
    list_tools_row(alloc, &held.tools, path, entries)?;
    list_component_row(alloc, &held.component, path, entries)?;
    Ok(())
}

fn list_metadata_row(
    alloc: Global,
    held: &Option<Metadata>,
    path: &mut Vec<Step>,
    entries: &mut Items<Entry>,
) -> Result<(), AllocError>
    ensures { OnOk result (AddsEntries (behind_step (to_member (codes "metadata"))
        (listed_in (present metadata_tree held.now) (a_record metadata)))
        path.old.items path.new.items entries.old entries.new) }
{
    match held {
        None => Ok(()),
        Some(held) => {
            let depth = steps_in(path);
            enter_member(alloc, path, "metadata")?;
            list_metadata(alloc, held, path, entries)?;
            leave(path, depth);
            Ok(())
        }
    }
}

// The entries of all components of the bill.
fn list_bill(alloc: Global, bill: &Bom) -> Result<Items<Entry>, AllocError>
    ensures { IfOk result (λ es. all_told es ≡ inventory_of (bom_tree bill.now) None) }
{
    let mut path = Vec::new(alloc);
    let mut entries = Items::new(alloc);
    list_metadata_row(alloc, &bill.metadata, &mut path, &mut entries)?;
    list_components_row(
        alloc,
        "components",
        &bill.components,
        &mut path,
        &mut entries,
    )?;
    Ok(entries)
}

// Those of the entries under a license.
fn keep_licensed(entries: Items<Entry>, license: &str) -> Items<Entry>
    ensures { all_told result ≡ filter (is_under license.now) (all_told entries) }
{
    let mut kept = entries.into_vec();
    kept.retain(|entry| has_license(entry, license));
    Items::from_vec(kept)
}

/// The components of a bill, wherever they stand: in `components`, in the metadata and its tools object, and in
/// pedigrees, at every depth. They come in document order: fields in the order of the schema's rows, items in order, a
/// component before what stands inside it. With a license, those alone of which a license text is exactly that one.
/// Only want of memory refuses.
pub fn inventory(
    alloc: Global,
    bill: &Bom,
    license: Option<&str>,
) -> Result<Items<Entry>, AllocError>
    ensures { IfOk result (λ es. all_told es
        ≡ inventory_of (bom_tree bill.now) (option_map (λ s. s.now) license.entry)) }
{
    let entries = list_bill(alloc, bill)?;
    match license {
        None => Ok(entries),
        Some(license) => Ok(keep_licensed(entries, license)),
    }
}
