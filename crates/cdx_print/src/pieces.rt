//! The pieces: a comma, a text, a whole number and a value.

ghost use Rattle.std.specs.Prelude.{◌≡◌, ◌++◌, false, IfOk, OnOk, string_bytes};
ghost use Rattle.serde_json.specs.Data.{number, string, unsigned};
ghost use Rattle.serde_json.specs.View.{view};
ghost use Rattle.serde_json.specs.Written.{comma_if, compact_text, has_float};
ghost use Rattle.cdx_print.specs.Prints.{then_text};

use serde_json::Value;
use std::alloc::{AllocError, Global};

/// A comma, where an item stands before. Only want of memory refuses.
pub fn print_comma_if(out: &mut String, is_later: bool) -> Result<(), AllocError>
    ensures { OnOk result (string_bytes out.new ≡ string_bytes out.old ++ comma_if is_later) }
{
    if is_later {
        out.push_str(",")?;
    }
    Ok(())
}

/// The text as JSON. Only want of memory refuses.
pub(crate) fn quoted(alloc: Global, text: &str) -> Result<String, AllocError>
    ensures { IfOk result (λ p. string_bytes p ≡ compact_text (string text.now)) }
{
    match serde_json::to_string(alloc, &text) {
        Ok(printed) => Ok(printed),
        // No clause says that it refuses only for want of memory, as this does.
        Err(_) => Value::try_from_str(alloc, text)?.to_string(alloc),
    }
}

/// The start of a member, and then the text as JSON. Only want of memory refuses.
pub fn print_text(
    alloc: Global,
    out: &mut String,
    start: &str,
    text: &str,
) -> Result<(), AllocError>
    ensures { OnOk result
        (string_bytes out.new ≡ then_text start.now text.now (string_bytes out.old)) }
{
    out.push_str(start)?;
    out.push_str(quoted(alloc, text)?.as_str())
}

/// The number in decimal. Only want of memory refuses.
pub(crate) fn print_number(alloc: Global, out: &mut String, held: u32) -> Result<(), AllocError>
    ensures { OnOk result
        (string_bytes out.new ≡ string_bytes out.old ++ compact_text (number (unsigned held))) }
{
    out.push_str(Value::from(held).to_string(alloc)?.as_str())
}

/// The value's text, as `Value::to_string` gives it. Only want of memory refuses.
pub fn print_value(alloc: Global, out: &mut String, value: &Value) -> Result<(), AllocError>
    ensures { OnOk result (has_float (view value.now) ≡ false
        → string_bytes out.new ≡ string_bytes out.old ++ compact_text (view value.now)) }
{
    out.push_str(value.to_string(alloc)?.as_str())
}
