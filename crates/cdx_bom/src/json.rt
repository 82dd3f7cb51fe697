//! Bills in JSON.

ghost use Rattle.std.specs.Prelude.{◌≡◌, OnOk};
ghost use Rattle.serde_json.specs.Data.{no_members};
ghost use Rattle.cdx_json.specs.Spellings.{spelling_members};
ghost use Rattle.cdx_models.specs.Trees.{bill};
ghost use Rattle.cdx_schema.specs.JsonReading.{Found, seen};
ghost use Rattle.cdx_schema.specs.JsonSpelling.{heading};
ghost use Rattle.cdx_schema.specs.Depths.{depth_of};
ghost use Rattle.cdx_json.specs.Gives.{Gives};
ghost use Rattle.cdx_bom.specs.Trees.{bom_tree};
ghost use Rattle.cdx_bom.specs.Groups.{format_text, format_of, bill_by_groups};
ghost use Rattle.cdx_bom.specs.ReadApart.{AreComponents, with_components};
ghost use Rattle.cdx_bom.specs.Stays.{kept_bill_there};
ghost use Rattle.cdx_json.specs.SeenOf.{seen_of};

mod keeping;
mod label;
mod owned;
mod printing;
mod reading;
mod writing;

use crate::bom::Bom;
use crate::bom::parts::assemble;
use cdx_events::Text;
use cdx_json::{
    Context, FromJson, Keeping, Kept, Members, SeenMembers, Spelling, ToJson, at_member, here,
    optional_row, put, required_row,
};
use cdx_models::{JsonKind, JsonReadError, SpecVersion};
use cdx_nest::Components;
use cdx_schema::Target;
use keeping::{keep_inventory, keep_relations};
pub(crate) use owned::bill_from_owned;
use reading::{read_inventory, read_relations};
use serde_json::Value;
use std::alloc::{AllocError, Global};
use writing::{put_inventory, put_relations};

impl FromJson for Bom {
    fn from_json_at(value: &Value, context: Context) -> Result<Bom, JsonReadError> {
        match value.as_object() {
            None => Err(here(context.alloc, JsonKind::WrongKind)),
            Some(map) => {
                let members = SeenMembers::of(context.alloc, map)?;
                let components = optional_row(&members, "components", context);
                bom_from_members(&members, components, context)
            }
        }
    }
}

impl Kept for Bom {
    ghost stays = { kept_bill_there };

    fn kept_as(&self, keeping: Keeping) -> Result<Bom, AllocError> {
        let relations = keep_relations(self, keeping)?;
        let inventory = keep_inventory(self, keeping)?;
        Ok(assemble(inventory, relations))
    }
}

impl ToJson for Bom {
    fn spelling(&self, alloc: Global, version: SpecVersion) -> Result<Spelling<'_>, AllocError> {
        let mut map = Vec::new(alloc);
        put_format(&mut map)?;
        let target = Target { alloc, version };
        put_inventory(self, self.components.as_ref(), &mut map, target)?;
        put_relations(self, &mut map, target)?;
        Ok(Spelling::Object(map))
    }
}

// The bill whose members these are beside its components, which were read apart; or the first fault.
pub(crate) fn bom_from_members(
    map: &SeenMembers<'_>,
    components: Result<Option<Components>, JsonReadError>,
    context: Context,
) -> Result<Bom, JsonReadError>
    ensures { (held : Found)
        → AreComponents held context.version (depth_of context.depth) components
        → Gives bom_tree result
        (bill_by_groups (with_components held (seen (seen_of map.now.members.items)))
        context.version (depth_of context.depth)) }
{
    check_format(map, context)?;
    let inventory = read_inventory(map, components, context)?;
    match read_relations(map, context) {
        Ok(relations) => Ok(assemble(inventory, relations)),
        Err(error) => {
            drop(inventory);
            Err(error)
        }
    }
}

// The format's name, which each bill in JSON tells.
const FORMAT: &str = "CycloneDX";

fn check_format(map: &SeenMembers<'_>, context: Context) -> Result<(), JsonReadError>
    ensures { Gives format_text result
        (format_of (seen (seen_of map.now.members.items)) context.version (depth_of context.depth)) }
{
    let format: Text = required_row(map, "bomFormat", context)?;
    if format.is(FORMAT) {
        Ok(())
    } else {
        Err(at_member(
            context.alloc,
            "bomFormat",
            here(context.alloc, JsonKind::BadFormat),
        ))
    }
}

fn put_format(map: &mut Members<'_>) -> Result<(), AllocError>
    requires { spelling_members map.now.items ≡ no_members }
    ensures { OnOk result (spelling_members map.new.items ≡ heading bill) }
{
    put(map, "bomFormat", Spelling::Text(FORMAT))
}
