//! Bills printed as JSON, piece by piece.

ghost use Rattle.std.specs.Prelude.{◌≡◌, ◌++◌, OnOk, IfOk};
ghost use Rattle.serde_json.specs.Data.{no_members};
ghost use Rattle.cdx_json.specs.Spellings.{spelling_members};
ghost use Rattle.cdx_models.specs.Trees.{bill, absent};
ghost use Rattle.cdx_schema.specs.Groups.{group};
ghost use Rattle.cdx_json.specs.KeptRows.{rows_put};
ghost use Rattle.cdx_print.specs.Printed.{printed};
ghost use Rattle.cdx_bom.specs.Trees.{bom_tree, inventory_beside, relations};
ghost use Rattle.cdx_bom.specs.Outputs.{compact_kept};

use crate::bom::Bom;
use crate::json::writing::{put_inventory, put_relations};
use cdx_json::{Members, ToJson};
use cdx_models::SpecVersion;
use cdx_print::{Printed, Printer, print_items, print_members, print_spelling};
use cdx_schema::Target;
use std::alloc::{AllocError, Global};

// What stands before a bill's components.
const BEGINNING: &str = "{\"bomFormat\":\"CycloneDX\",\"components\":";

impl Bom {
    /// Prints what the version keeps of the bill after a text: the text that `serde_json` gives for the value of
    /// `output_json`. Of a bill with components each one's spelling is freed before the next is made. It doesn't ask
    /// whether the bill fits the version. Only want of memory refuses.
    pub fn print_json(
        &self,
        alloc: Global,
        version: SpecVersion,
        out: &mut Printed,
    ) -> Result<(), AllocError>
        ensures { OnOk result (printed out.new
            ≡ printed out.old ++ compact_kept version (bom_tree self.now)) }
    {
        match &self.components {
            None => {
                let spelling = self.spelling(alloc, version)?;
                print_spelling(&mut Printer::new(alloc), &mut out.last, &spelling)
            }
            Some(components) => {
                out.push_str(BEGINNING)?;
                let mut printer = Printer::new(alloc);
                print_items(&mut printer, out, components.as_slice(), version)?;
                let others = other_rows(self, Target { alloc, version })?;
                print_members(&mut printer, &mut out.last, &others, true)
            }
        }
    }
}

// The members of the rows other than the components'.
fn other_rows(held: &Bom, target: Target) -> Result<Members<'_>, AllocError>
    ensures { IfOk result (λ m. spelling_members m.items
        ≡ rows_put (relations held.now) target.version (group 1 bill)
        (rows_put (inventory_beside absent held.now) target.version (group 0 bill) no_members)) }
{
    let mut map = Vec::new(target.alloc);
    put_inventory(held, None, &mut map, target)?;
    put_relations(held, &mut map, target)?;
    Ok(map)
}
