//! Metadata in JSON.

ghost use Rattle.std.specs.Prelude.{◌≡◌, IfOk, OnOk};
ghost use Rattle.cdx_json.specs.Spellings.{spelling_members};
ghost use Rattle.cdx_models.specs.Trees.{metadata};
ghost use Rattle.cdx_schema.specs.JsonReading.{seen};
ghost use Rattle.cdx_schema.specs.Depths.{depth_of};
ghost use Rattle.cdx_json.specs.Gives.{Gives};
ghost use Rattle.cdx_json.specs.KeptRows.{rows_held, rows_put};
ghost use Rattle.cdx_nest.specs.Trees.{metadata_tree, makers, terms};
ghost use Rattle.cdx_nest.specs.PartTrees.{makers_trees, terms_trees};
ghost use Rattle.cdx_schema.specs.Groups.{group};
ghost use Rattle.cdx_json.specs.Groups.{group_read};
ghost use Rattle.cdx_nest.specs.Groups.{metadata_by_groups};
ghost use Rattle.cdx_json.specs.SeenOf.{seen_of};

use crate::metadata::Metadata;
use crate::metadata::parts::{Makers, Terms, assemble};
use cdx_json::{
    Context, JsonRecord, Keeping, Members, SeenMembers, keep_optional_list, keep_row,
    optional_list_row, optional_row, put_optional_list, put_row,
};
use cdx_models::JsonReadError;
use cdx_schema::Target;
use std::alloc::AllocError;

impl JsonRecord for Metadata {
    fn from_members(map: &SeenMembers<'_>, context: Context) -> Result<Metadata, JsonReadError> {
        metadata_from_members(map, context)
    }

    fn kept_by_rows(&self, keeping: Keeping) -> Result<Metadata, AllocError> {
        let terms = keep_terms(self, keeping)?;
        let makers = keep_makers(self, keeping)?;
        Ok(assemble(makers, terms))
    }

    fn put_members<'b>(&'b self, map: &mut Members<'b>, target: Target) -> Result<(), AllocError> {
        put_makers(self, map, target)?;
        put_terms(self, map, target)?;
        Ok(())
    }
}

fn metadata_from_members(map: &SeenMembers<'_>, context: Context) -> Result<Metadata, JsonReadError>
    ensures { Gives metadata_tree result
        (metadata_by_groups (seen (seen_of map.now.members.items)) context.version
        (depth_of context.depth)) }
{
    let makers = read_makers(map, context)?;
    match read_terms(map, context) {
        Ok(terms) => Ok(assemble(makers, terms)),
        Err(error) => {
            drop(makers);
            Err(error)
        }
    }
}

fn read_makers(map: &SeenMembers<'_>, context: Context) -> Result<Makers, JsonReadError>
    ensures { Gives makers_trees result
        (group_read 0 metadata (seen (seen_of map.now.members.items)) context.version
        (depth_of context.depth)) }
{
    let timestamp = optional_row(map, "timestamp", context)?;
    let tools = optional_row(map, "tools", context)?;
    let authors = optional_list_row(map, "authors", context)?;
    let component = optional_row(map, "component", context)?;
    let manufacture = match optional_row(map, "manufacture", context) {
        Ok(manufacture) => manufacture,
        Err(error) => {
            drop(component);
            return Err(error);
        }
    };
    let supplier = match optional_row(map, "supplier", context) {
        Ok(supplier) => supplier,
        Err(error) => {
            drop(component);
            return Err(error);
        }
    };
    Ok(Makers {
        timestamp,
        tools,
        authors,
        component,
        manufacture,
        supplier,
    })
}

fn read_terms(map: &SeenMembers<'_>, context: Context) -> Result<Terms, JsonReadError>
    ensures { Gives terms_trees result
        (group_read 1 metadata (seen (seen_of map.now.members.items)) context.version
        (depth_of context.depth)) }
{
    let licenses = optional_row(map, "licenses", context)?;
    let properties = optional_row(map, "properties", context)?;
    Ok(Terms {
        licenses,
        properties,
    })
}

#[tactic(auto, unfolding(cdx_json::proofs::OnRows::on_rows))]
fn keep_makers(held: &Metadata, keeping: Keeping) -> Result<Makers, AllocError>
    ensures { IfOk result
        (λ r. makers_trees r ≡ rows_held keeping.version keeping.label (makers held.now)
        (group 0 metadata)) }
{
    let timestamp = keep_row(&held.timestamp, keeping)?;
    let tools = keep_row(&held.tools, keeping)?;
    let authors = keep_optional_list(&held.authors, keeping)?;
    let manufacture = keep_row(&held.manufacture, keeping)?;
    let supplier = keep_row(&held.supplier, keeping)?;
    let component = keep_row(&held.component, keeping)?;
    Ok(Makers {
        timestamp,
        tools,
        authors,
        component,
        manufacture,
        supplier,
    })
}

#[tactic(auto, unfolding(cdx_json::proofs::OnRows::on_rows))]
fn keep_terms(held: &Metadata, keeping: Keeping) -> Result<Terms, AllocError>
    ensures { IfOk result
        (λ r. terms_trees r ≡ rows_held keeping.version keeping.label (terms held.now)
        (group 1 metadata)) }
{
    let licenses = keep_row(&held.licenses, keeping)?;
    let properties = keep_row(&held.properties, keeping)?;
    Ok(Terms {
        licenses,
        properties,
    })
}

fn put_makers<'b>(
    held: &'b Metadata,
    map: &mut Members<'b>,
    target: Target,
) -> Result<(), AllocError>
    ensures { OnOk result (spelling_members map.new.items
        ≡ rows_put (makers held.now) target.version (group 0 metadata)
        (spelling_members map.old.items)) }
{
    put_row(map, "timestamp", &held.timestamp, target)?;
    put_row(map, "tools", &held.tools, target)?;
    put_optional_list(map, "authors", &held.authors, target)?;
    put_row(map, "component", &held.component, target)?;
    put_row(map, "manufacture", &held.manufacture, target)?;
    put_row(map, "supplier", &held.supplier, target)?;
    Ok(())
}

fn put_terms<'b>(
    held: &'b Metadata,
    map: &mut Members<'b>,
    target: Target,
) -> Result<(), AllocError>
    ensures { OnOk result (spelling_members map.new.items
        ≡ rows_put (terms held.now) target.version (group 1 metadata)
        (spelling_members map.old.items)) }
{
    put_row(map, "licenses", &held.licenses, target)?;
    put_row(map, "properties", &held.properties, target)?;
    Ok(())
}
