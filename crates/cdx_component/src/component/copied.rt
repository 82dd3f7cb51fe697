//! Copies of components, pedigrees and lists of components.

ghost use Rattle.std.specs.Prelude.{◌≡◌, IfOk};
ghost use Rattle.cdx_models.specs.Trees.{present};
ghost use Rattle.cdx_component.specs.Trees.{component_tree, components_tree, pedigree_tree, origin, naming, marks, component_contents};
ghost use Rattle.cdx_component.specs.PartTrees.{origin_trees, naming_trees, marks_trees, contents_trees};
ghost use Rattle.cdx_component.specs.declared.component.Component.{out-Component};

use crate::component::parts::{Contents, Marks, Naming, Origin, assemble};
use crate::component::{Component, Components, Pedigree};
use cdx_models::{HasTree, copy_row};
use std::alloc::{AllocError, Global};

fn copy_origin(component: &Component, alloc: Global) -> Result<Origin, AllocError>
    ensures { IfOk result (λ r. origin_trees r ≡ origin (out-Component component.now)) }
{
    let component_type = component.component_type.copy(alloc)?;
    let mime_type = copy_row(alloc, &component.mime_type)?;
    let bom_ref = copy_row(alloc, &component.bom_ref)?;
    let author = copy_row(alloc, &component.author)?;
    let publisher = copy_row(alloc, &component.publisher)?;
    let supplier = copy_row(alloc, &component.supplier)?;
    Ok(Origin {
        component_type,
        mime_type,
        bom_ref,
        supplier,
        author,
        publisher,
    })
}

fn copy_naming(component: &Component, alloc: Global) -> Result<Naming, AllocError>
    ensures { IfOk result (λ r. naming_trees r ≡ naming (out-Component component.now)) }
{
    let group = copy_row(alloc, &component.group)?;
    let name = component.name.copy(alloc)?;
    let version = copy_row(alloc, &component.version)?;
    let description = copy_row(alloc, &component.description)?;
    let scope = copy_row(alloc, &component.scope)?;
    let hashes = copy_row(alloc, &component.hashes)?;
    Ok(Naming {
        group,
        name,
        version,
        description,
        scope,
        hashes,
    })
}

fn copy_marks(component: &Component, alloc: Global) -> Result<Marks, AllocError>
    ensures { IfOk result (λ r. marks_trees r ≡ marks (out-Component component.now)) }
{
    let licenses = copy_row(alloc, &component.licenses)?;
    let copyright = copy_row(alloc, &component.copyright)?;
    let cpe = copy_row(alloc, &component.cpe)?;
    let purl = copy_row(alloc, &component.purl)?;
    let modified = copy_row(alloc, &component.modified)?;
    let swid = copy_row(alloc, &component.swid)?;
    Ok(Marks {
        licenses,
        copyright,
        cpe,
        purl,
        swid,
        modified,
    })
}

#[cycle(component_copy)]
fn copy_contents(component: &Component, alloc: Global) -> Result<Contents, AllocError>
    ensures { IfOk result (λ r. contents_trees r
        ≡ component_contents components_tree pedigree_tree (out-Component component.now)) }
{
    let external_references = copy_row(alloc, &component.external_references)?;
    let properties = copy_row(alloc, &component.properties)?;
    let components = copy_components_row(&component.components, alloc)?;
    let evidence = copy_row(alloc, &component.evidence)?;
    let signature = copy_row(alloc, &component.signature)?;
    let pedigree = copy_pedigree_row(&component.pedigree, alloc)?;
    Ok(Contents {
        pedigree,
        external_references,
        properties,
        components,
        evidence,
        signature,
    })
}

#[cycle(component_copy)]
pub(crate) fn copy_component(component: &Component, alloc: Global) -> Result<Component, AllocError>
    ensures { IfOk result (λ r. component_tree r ≡ component_tree component.now) }
{
    let origin = copy_origin(component, alloc)?;
    let naming = match copy_naming(component, alloc) {
        Ok(naming) => naming,
        Err(error) => {
            drop(origin);
            return Err(error);
        }
    };
    let marks = match copy_marks(component, alloc) {
        Ok(marks) => marks,
        Err(error) => {
            drop(origin);
            drop(naming);
            return Err(error);
        }
    };
    let contents = match copy_contents(component, alloc) {
        Ok(contents) => contents,
        Err(error) => {
            drop(origin);
            drop(naming);
            drop(marks);
            return Err(error);
        }
    };
    Ok(assemble(origin, naming, marks, contents))
}

#[cycle(component_copy)]
pub(crate) fn copy_pedigree(pedigree: &Pedigree, alloc: Global) -> Result<Pedigree, AllocError>
    ensures { IfOk result (λ r. pedigree_tree r ≡ pedigree_tree pedigree.now) }
{
    let ancestors = copy_components_row(&pedigree.ancestors, alloc)?;
    let descendants = copy_components_row(&pedigree.descendants, alloc)?;
    let variants = copy_components_row(&pedigree.variants, alloc)?;
    let commits = copy_row(alloc, &pedigree.commits)?;
    let patches = copy_row(alloc, &pedigree.patches)?;
    let notes = copy_row(alloc, &pedigree.notes)?;
    Ok(Pedigree {
        ancestors,
        descendants,
        variants,
        commits,
        patches,
        notes,
    })
}

#[cycle(component_copy)]
pub(crate) fn copy_components(
    components: &Components,
    alloc: Global,
) -> Result<Components, AllocError>
    ensures { IfOk result (λ r. components_tree r ≡ components_tree components.now) }
{
    let mut copies = Components::with_capacity(alloc, components.len())?;
    for item in &components.items {
        copies.push(copy_component(item, alloc)?)?;
    }
    Ok(copies)
}

#[cycle(component_copy)]
pub(crate) fn copy_pedigree_row(
    held: &Option<Pedigree>,
    alloc: Global,
) -> Result<Option<Pedigree>, AllocError>
    ensures { IfOk result (λ r. present pedigree_tree r ≡ present pedigree_tree held.now) }
{
    match held {
        None => Ok(None),
        Some(held) => Ok(Some(copy_pedigree(held, alloc)?)),
    }
}

#[cycle(component_copy)]
pub(crate) fn copy_components_row(
    held: &Option<Components>,
    alloc: Global,
) -> Result<Option<Components>, AllocError>
    ensures { IfOk result (λ r. present components_tree r ≡ present components_tree held.now) }
{
    match held {
        None => Ok(None),
        Some(held) => Ok(Some(copy_components(held, alloc)?)),
    }
}
