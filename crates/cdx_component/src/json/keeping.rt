//! What a version keeps of components, pedigrees and lists of components.

ghost use Rattle.std.specs.Prelude.{◌≡◌, IfOk};
ghost use Rattle.cdx_models.specs.Trees.{component, pedigree, present};
ghost use Rattle.cdx_schema.specs.Kinds.{components, a_list, a_record};
ghost use Rattle.cdx_schema.specs.Keeping.{kept};
ghost use Rattle.cdx_json.specs.KeptRows.{rows_held};
ghost use Rattle.cdx_component.specs.declared.component.Component.{out-Component};
ghost use Rattle.cdx_component.specs.Trees.{component_tree, components_tree, pedigree_tree, origin, naming, marks, component_contents};
ghost use Rattle.cdx_component.specs.PartTrees.{origin_trees, naming_trees, marks_trees, contents_trees};
ghost use Rattle.cdx_schema.specs.Groups.{group};

use crate::component::parts::{Contents, Marks, Naming, Origin, assemble};
use crate::component::{Component, Components, Pedigree};
use cdx_json::{Keeping, Kept, keep_row, keep_row_since};
use cdx_models::SpecVersion;
use std::alloc::AllocError;

/// What a version keeps of a component.
#[cycle(component_keep)]
pub(crate) fn keep_component(held: &Component, keeping: Keeping) -> Result<Component, AllocError>
    ensures { IfOk result (λ r. component_tree r
        ≡ kept keeping.version keeping.label (component_tree held.now) (a_record component)) }
{
    let origin = keep_origin(held, keeping)?;
    let naming = match keep_naming(held, keeping) {
        Ok(naming) => naming,
        Err(error) => {
            drop(origin);
            return Err(error);
        }
    };
    let marks = match keep_marks(held, keeping) {
        Ok(marks) => marks,
        Err(error) => {
            drop(origin);
            drop(naming);
            return Err(error);
        }
    };
    let contents = match keep_contents(held, keeping) {
        Ok(contents) => contents,
        Err(error) => {
            drop(origin);
            drop(naming);
            drop(marks);
            return Err(error);
        }
    };
    Ok(assemble(origin, naming, marks, contents))
}

/// What a version keeps of a list of components.
#[cycle(component_keep)]
pub(crate) fn keep_components(held: &Components, keeping: Keeping) -> Result<Components, AllocError>
    ensures { IfOk result (λ r. components_tree r
        ≡ kept keeping.version keeping.label (components_tree held.now) (a_list components)) }
{
    let mut copies = Components::with_capacity(keeping.alloc, held.len())?;
    for item in &held.items {
        copies.push(keep_component(item, keeping)?)?;
    }
    Ok(copies)
}

/// What a version keeps of a pedigree.
#[cycle(component_keep)]
pub(crate) fn keep_pedigree(held: &Pedigree, keeping: Keeping) -> Result<Pedigree, AllocError>
    ensures { IfOk result
        (λ r. pedigree_tree r ≡ kept keeping.version keeping.label (pedigree_tree held.now)
        (a_record pedigree)) }
{
    let ancestors = keep_components_row(&held.ancestors, keeping)?;
    let descendants = keep_components_row(&held.descendants, keeping)?;
    let variants = keep_components_row(&held.variants, keeping)?;
    let commits = keep_row(&held.commits, keeping)?;
    let patches = keep_row(&held.patches, keeping)?;
    let notes = keep_row(&held.notes, keeping)?;
    Ok(Pedigree {
        ancestors,
        descendants,
        variants,
        commits,
        patches,
        notes,
    })
}

#[tactic(auto, unfolding(cdx_json::proofs::OnRows::on_rows))]
fn keep_origin(held: &Component, keeping: Keeping) -> Result<Origin, AllocError>
    ensures { IfOk result (λ r. origin_trees r
        ≡ rows_held keeping.version keeping.label (origin (out-Component held.now))
        (group 0 component)) }
{
    let component_type = held.component_type.kept_as(keeping)?;
    let mime_type = keep_row(&held.mime_type, keeping)?;
    let bom_ref = keep_row(&held.bom_ref, keeping)?;
    let author = keep_row(&held.author, keeping)?;
    let publisher = keep_row(&held.publisher, keeping)?;
    let supplier = keep_row(&held.supplier, keeping)?;
    Ok(Origin {
        component_type,
        mime_type,
        bom_ref,
        supplier,
        author,
        publisher,
    })
}

#[tactic(auto, unfolding(cdx_json::proofs::OnRows::on_rows))]
fn keep_naming(held: &Component, keeping: Keeping) -> Result<Naming, AllocError>
    ensures { IfOk result (λ r. naming_trees r
        ≡ rows_held keeping.version keeping.label (naming (out-Component held.now))
        (group 1 component)) }
{
    let group = keep_row(&held.group, keeping)?;
    let name = held.name.kept_as(keeping)?;
    let held_version = keep_row(&held.version, keeping)?;
    let description = keep_row(&held.description, keeping)?;
    let scope = keep_row(&held.scope, keeping)?;
    let hashes = keep_row(&held.hashes, keeping)?;
    Ok(Naming {
        group,
        name,
        version: held_version,
        description,
        scope,
        hashes,
    })
}

#[tactic(auto, unfolding(cdx_json::proofs::OnRows::on_rows))]
fn keep_marks(held: &Component, keeping: Keeping) -> Result<Marks, AllocError>
    ensures { IfOk result (λ r. marks_trees r
        ≡ rows_held keeping.version keeping.label (marks (out-Component held.now))
        (group 2 component)) }
{
    let licenses = keep_row(&held.licenses, keeping)?;
    let copyright = keep_row(&held.copyright, keeping)?;
    let cpe = keep_row(&held.cpe, keeping)?;
    let purl = keep_row(&held.purl, keeping)?;
    let modified = keep_row(&held.modified, keeping)?;
    let swid = keep_row(&held.swid, keeping)?;
    Ok(Marks {
        licenses,
        copyright,
        cpe,
        purl,
        swid,
        modified,
    })
}

#[cycle(component_keep)]
#[tactic(auto, unfolding(cdx_json::proofs::OnRows::on_rows))]
fn keep_contents(held: &Component, keeping: Keeping) -> Result<Contents, AllocError>
    ensures { IfOk result (λ r. contents_trees r ≡ rows_held keeping.version keeping.label
        (component_contents components_tree pedigree_tree (out-Component held.now))
        (group 3 component)) }
{
    let external_references = keep_row(&held.external_references, keeping)?;
    let properties = keep_row(&held.properties, keeping)?;
    let components = keep_components_row(&held.components, keeping)?;
    let evidence = keep_row(&held.evidence, keeping)?;
    let signature = keep_row_since(&held.signature, SpecVersion::V1_4, keeping)?;
    let pedigree = keep_pedigree_row(&held.pedigree, keeping)?;
    Ok(Contents {
        pedigree,
        external_references,
        properties,
        components,
        evidence,
        signature,
    })
}

#[cycle(component_keep)]
#[tactic(auto, unfolding(cdx_schema::specs::Keeping::kept))]
fn keep_pedigree_row(
    held: &Option<Pedigree>,
    keeping: Keeping,
) -> Result<Option<Pedigree>, AllocError>
    ensures { IfOk result (λ r. present pedigree_tree r
        ≡ kept keeping.version keeping.label (present pedigree_tree held.now) (a_record pedigree)) }
{
    match held {
        None => Ok(None),
        Some(held) => Ok(Some(keep_pedigree(held, keeping)?)),
    }
}

#[cycle(component_keep)]
#[tactic(auto, unfolding(cdx_schema::specs::Keeping::kept))]
fn keep_components_row(
    held: &Option<Components>,
    keeping: Keeping,
) -> Result<Option<Components>, AllocError>
    ensures { IfOk result (λ r. present components_tree r
        ≡ kept keeping.version keeping.label (present components_tree held.now)
        (a_list components)) }
{
    match held {
        None => Ok(None),
        Some(held) => Ok(Some(keep_components(held, keeping)?)),
    }
}
