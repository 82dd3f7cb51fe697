//! Spellings printed as JSON.

ghost use Rattle.std.specs.Prelude.{◌≡◌, ◌++◌, OnOk, string_bytes};
ghost use Rattle.serde_json.specs.Data.{array, boolean};
ghost use Rattle.serde_json.specs.Written.{compact_text, members_text};
ghost use Rattle.cdx_json.specs.Spellings.{spelling_data, spelling_items, spelling_members};

use crate::pieces::{print_comma_if, print_number};
use crate::printer::Printer;
use cdx_json::{Members, Spelling};
use std::alloc::AllocError;

fn print_bool(out: &mut String, held: bool) -> Result<(), AllocError>
    ensures { OnOk result
        (string_bytes out.new ≡ string_bytes out.old ++ compact_text (boolean held)) }
{
    out.push_str(if held { "true" } else { "false" })
}

/// The spelling's text: what `Value::to_string` gives of its value. Only want of memory refuses.
#[cycle(spellings)]
pub fn print_spelling(
    printer: &mut Printer,
    out: &mut String,
    spelling: &Spelling<'_>,
) -> Result<(), AllocError>
    ensures { OnOk result (string_bytes out.new
        ≡ string_bytes out.old ++ compact_text (spelling_data spelling.now)) }
{
    match spelling {
        Spelling::Bool(held) => print_bool(out, *held),
        Spelling::Number(held) => print_number(printer.alloc, out, *held),
        Spelling::Text(held) => printer.print_text(out, "", held),
        Spelling::Array(items) => print_array(printer, out, items),
        Spelling::Object(members) => {
            out.push_str("{")?;
            print_members(printer, out, members, false)
        }
    }
}

#[cycle(spellings)]
fn print_array(
    printer: &mut Printer,
    out: &mut String,
    items: &Vec<Spelling<'_>>,
) -> Result<(), AllocError>
    ensures { OnOk result (string_bytes out.new
        ≡ string_bytes out.old ++ compact_text (array (spelling_items items.now.items))) }
{
    out.push_str("[")?;
    let mut is_later = false;
    for item in items {
        print_comma_if(out, is_later)?;
        print_spelling(printer, out, item)?;
        is_later = true;
    }
    out.push_str("]")
}

/// The members of an object, with the comma before the first where one stands before it, and the closing brace. Only
/// want of memory refuses.
#[cycle(spellings)]
pub fn print_members(
    printer: &mut Printer,
    out: &mut String,
    members: &Members<'_>,
    is_later: bool,
) -> Result<(), AllocError>
    ensures { OnOk result (string_bytes out.new ≡ string_bytes out.old
        ++ members_text is_later (spelling_members members.now.items)) }
{
    let mut follows = is_later;
    for member in members {
        printer.print_key(out, member.0, follows)?;
        print_spelling(printer, out, &member.1)?;
        follows = true;
    }
    out.push_str("}")
}
