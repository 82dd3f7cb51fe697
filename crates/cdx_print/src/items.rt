//! The items of a list, printed one after another.

ghost use Rattle.std.specs.Prelude.{◌≡◌, ◌++◌, map as each, OnOk};
ghost use Rattle.serde_json.specs.Data.{array};
ghost use Rattle.serde_json.specs.View.{items_of};
ghost use Rattle.serde_json.specs.Written.{compact_text};
ghost use Rattle.cdx_print.specs.Printed.{printed};
ghost use Rattle.cdx_print.specs.Prints.{kept_value};

use crate::pieces::print_comma_if;
use crate::printed::Printed;
use crate::printer::Printer;
use crate::spelling::print_spelling;
use cdx_json::ToJson;
use cdx_models::SpecVersion;
use std::alloc::AllocError;

// What the version keeps of the item. Its spelling is freed at the end.
fn print_item<T: ToJson>(
    printer: &mut Printer,
    out: &mut Printed,
    item: &T,
    version: SpecVersion,
) -> Result<(), AllocError>
    ensures { OnOk result (printed out.new ≡ printed out.old
        ++ compact_text (kept_value T.tree T.kind version item.now)) }
{
    let spelling = item.spelling(printer.alloc, version)?;
    print_spelling(printer, &mut out.last, &spelling)?;
    out.break_if_long(printer.alloc)
}

/// What the version keeps of the items, as an array, where each item's spelling is made, printed and freed before the
/// next. Only want of memory refuses.
pub fn print_items<T: ToJson>(
    printer: &mut Printer,
    out: &mut Printed,
    items: &[T],
    version: SpecVersion,
) -> Result<(), AllocError>
    ensures { OnOk result (printed out.new ≡ printed out.old
        ++ compact_text (array (items_of (each (kept_value T.tree T.kind version) items.now)))) }
{
    out.push_str("[")?;
    let mut is_later = false;
    for item in items {
        print_comma_if(&mut out.last, is_later)?;
        print_item(printer, out, item, version)?;
        is_later = true;
    }
    out.push_str("]")
}
