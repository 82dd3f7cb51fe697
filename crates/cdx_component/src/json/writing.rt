//! Components, pedigrees and lists of components as JSON.

ghost use Rattle.std.specs.Prelude.{◌≡◌, IfOk, OnOk};
ghost use Rattle.cdx_models.specs.Trees.{component, pedigree, present};
ghost use Rattle.cdx_schema.specs.Kinds.{components, a_list, a_record};
ghost use Rattle.cdx_schema.specs.Keeping.{keep};
ghost use Rattle.cdx_schema.specs.JsonSpelling.{jspell};
ghost use Rattle.cdx_schema.specs.Table.{rows};
ghost use Rattle.cdx_json.specs.KeptRows.{put_kept, rows_put};
ghost use Rattle.cdx_json.specs.Spellings.{spelling_data, spelling_members};
ghost use Rattle.cdx_component.specs.declared.component.Component.{out-Component};
ghost use Rattle.cdx_component.specs.declared.component.Pedigree.{out-Pedigree};
ghost use Rattle.cdx_component.specs.Trees.{component_tree, components_tree, pedigree_tree, origin, naming, marks, component_contents, pedigree_fields};
ghost use Rattle.cdx_schema.specs.Groups.{group};

use crate::component::{Component, Components, Pedigree};
use cdx_json::{Members, Spelling, put, put_required, put_row, put_row_since};
use cdx_models::SpecVersion;
use cdx_schema::Target;
use std::alloc::AllocError;

/// The spelling of what the version keeps of a component.
#[cycle(component_write)]
pub(crate) fn write_component(held: &Component, target: Target) -> Result<Spelling<'_>, AllocError>
    ensures { IfOk result (λ v. spelling_data v ≡ jspell
        (keep target.version (component_tree held.now) (a_record component)) target.version
        (a_record component)) }
{
    let mut map = Vec::new(target.alloc);
    put_origin(held, &mut map, target)?;
    put_naming(held, &mut map, target)?;
    put_marks(held, &mut map, target)?;
    put_contents(held, &mut map, target)?;
    Ok(Spelling::Object(map))
}

/// The spelling of what the version keeps of a list of components.
#[cycle(component_write)]
pub(crate) fn write_components(
    held: &Components,
    target: Target,
) -> Result<Spelling<'_>, AllocError>
    ensures { IfOk result (λ v. spelling_data v ≡ jspell
        (keep target.version (components_tree held.now) (a_list components)) target.version
        (a_list components)) }
{
    let mut values = Vec::with_capacity(target.alloc, held.len())?;
    for item in &held.items {
        values.push(write_component(item, target)?)?;
    }
    Ok(Spelling::Array(values))
}

/// The spelling of what the version keeps of a pedigree.
#[cycle(component_write)]
pub(crate) fn write_pedigree(held: &Pedigree, target: Target) -> Result<Spelling<'_>, AllocError>
    ensures { IfOk result (λ v. spelling_data v ≡ jspell
        (keep target.version (pedigree_tree held.now) (a_record pedigree)) target.version
        (a_record pedigree)) }
{
    let mut map = Vec::new(target.alloc);
    put_pedigree_members(held, &mut map, target)?;
    Ok(Spelling::Object(map))
}

#[cycle(component_write)]
fn put_pedigree_members<'b>(
    held: &'b Pedigree,
    map: &mut Members<'b>,
    target: Target,
) -> Result<(), AllocError>
    ensures { OnOk result (spelling_members map.new.items ≡ rows_put
        (pedigree_fields components_tree (out-Pedigree held.now)) target.version (rows pedigree)
        (spelling_members map.old.items)) }
{
    put_components_row(&held.ancestors, map, "ancestors", target)?;
    put_components_row(&held.descendants, map, "descendants", target)?;
    put_components_row(&held.variants, map, "variants", target)?;
    put_row(map, "commits", &held.commits, target)?;
    put_row(map, "patches", &held.patches, target)?;
    put_row(map, "notes", &held.notes, target)?;
    Ok(())
}

fn put_origin<'b>(
    held: &'b Component,
    map: &mut Members<'b>,
    target: Target,
) -> Result<(), AllocError>
    ensures { OnOk result (spelling_members map.new.items ≡ rows_put
        (origin (out-Component held.now)) target.version (group 0 component)
        (spelling_members map.old.items)) }
{
    put_required(map, "type", &held.component_type, target)?;
    put_row(map, "mime-type", &held.mime_type, target)?;
    put_row(map, "bom-ref", &held.bom_ref, target)?;
    put_row(map, "supplier", &held.supplier, target)?;
    put_row(map, "author", &held.author, target)?;
    put_row(map, "publisher", &held.publisher, target)?;
    Ok(())
}

fn put_naming<'b>(
    held: &'b Component,
    map: &mut Members<'b>,
    target: Target,
) -> Result<(), AllocError>
    ensures { OnOk result (spelling_members map.new.items ≡ rows_put
        (naming (out-Component held.now)) target.version (group 1 component)
        (spelling_members map.old.items)) }
{
    put_row(map, "group", &held.group, target)?;
    put_required(map, "name", &held.name, target)?;
    put_row(map, "version", &held.version, target)?;
    put_row(map, "description", &held.description, target)?;
    put_row(map, "scope", &held.scope, target)?;
    put_row(map, "hashes", &held.hashes, target)?;
    Ok(())
}

fn put_marks<'b>(
    held: &'b Component,
    map: &mut Members<'b>,
    target: Target,
) -> Result<(), AllocError>
    ensures { OnOk result (spelling_members map.new.items ≡ rows_put
        (marks (out-Component held.now)) target.version (group 2 component)
        (spelling_members map.old.items)) }
{
    put_row(map, "licenses", &held.licenses, target)?;
    put_row(map, "copyright", &held.copyright, target)?;
    put_row(map, "cpe", &held.cpe, target)?;
    put_row(map, "purl", &held.purl, target)?;
    put_row(map, "swid", &held.swid, target)?;
    put_row(map, "modified", &held.modified, target)?;
    Ok(())
}

#[cycle(component_write)]
fn put_contents<'b>(
    held: &'b Component,
    map: &mut Members<'b>,
    target: Target,
) -> Result<(), AllocError>
    ensures { OnOk result (spelling_members map.new.items ≡ rows_put
        (component_contents components_tree pedigree_tree (out-Component held.now)) target.version
        (group 3 component) (spelling_members map.old.items)) }
{
    put_pedigree_row(&held.pedigree, map, "pedigree", target)?;
    put_row(map, "externalReferences", &held.external_references, target)?;
    put_row(map, "properties", &held.properties, target)?;
    put_components_row(&held.components, map, "components", target)?;
    put_row(map, "evidence", &held.evidence, target)?;
    put_row_since(map, "signature", &held.signature, SpecVersion::V1_4, target)?;
    Ok(())
}

#[cycle(component_write)]
fn put_pedigree_row<'b>(
    held: &'b Option<Pedigree>,
    map: &mut Members<'b>,
    name: &'b str,
    target: Target,
) -> Result<(), AllocError>
    ensures { OnOk result (spelling_members map.new.items ≡ put_kept name.now (a_record pedigree)
        (present pedigree_tree held.now) target.version (spelling_members map.old.items)) }
{
    match held {
        None => Ok(()),
        Some(held) => {
            let value = write_pedigree(held, target)?;
            put(map, name, value)
        }
    }
}

#[cycle(component_write)]
fn put_components_row<'b>(
    held: &'b Option<Components>,
    map: &mut Members<'b>,
    name: &'b str,
    target: Target,
) -> Result<(), AllocError>
    ensures { OnOk result (spelling_members map.new.items ≡ put_kept name.now (a_list components)
        (present components_tree held.now) target.version (spelling_members map.old.items)) }
{
    match held {
        None => Ok(()),
        Some(held) => {
            let value = write_components(held, target)?;
            put(map, name, value)
        }
    }
}
