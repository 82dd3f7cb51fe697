//! Copies of metadata.

ghost use Rattle.std.specs.Prelude.{◌≡◌, IfOk};
ghost use Rattle.cdx_nest.specs.Trees.{metadata_tree, makers, terms};
ghost use Rattle.cdx_nest.specs.PartTrees.{makers_trees, terms_trees};

use crate::metadata::Metadata;
use crate::metadata::parts::{Makers, Terms, assemble};
use cdx_models::{HasTree, copy_row};
use std::alloc::{AllocError, Global};

fn copy_makers(metadata: &Metadata, alloc: Global) -> Result<Makers, AllocError>
    ensures { IfOk result (λ r. makers_trees r ≡ makers metadata.now) }
{
    let timestamp = copy_row(alloc, &metadata.timestamp)?;
    let tools = copy_row(alloc, &metadata.tools)?;
    let authors = copy_row(alloc, &metadata.authors)?;
    let manufacture = copy_row(alloc, &metadata.manufacture)?;
    let supplier = copy_row(alloc, &metadata.supplier)?;
    let component = copy_row(alloc, &metadata.component)?;
    Ok(Makers {
        timestamp,
        tools,
        authors,
        component,
        manufacture,
        supplier,
    })
}

fn copy_terms(metadata: &Metadata, alloc: Global) -> Result<Terms, AllocError>
    ensures { IfOk result (λ r. terms_trees r ≡ terms metadata.now) }
{
    let licenses = copy_row(alloc, &metadata.licenses)?;
    let properties = copy_row(alloc, &metadata.properties)?;
    Ok(Terms {
        licenses,
        properties,
    })
}

pub(crate) fn copy_metadata(metadata: &Metadata, alloc: Global) -> Result<Metadata, AllocError>
    ensures { IfOk result (λ r. metadata_tree r ≡ metadata_tree metadata.now) }
{
    let terms = copy_terms(metadata, alloc)?;
    let makers = copy_makers(metadata, alloc)?;
    Ok(assemble(makers, terms))
}
