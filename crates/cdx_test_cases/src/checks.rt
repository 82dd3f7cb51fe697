//! What ends a test: each check answers with a failure that tells what doesn't hold, and a `?` at it ends the test.

use std::test::Fail;

// A failure has room for 512 bytes: for so many of what is found and of what is wanted, and for a row's beginning.
const SHOWN: usize = 130;

// How many bytes of the texts are the same, up to where the first letter differs.
fn same_until(found: &str, wanted: &str) -> usize {
    for ((at, one), other) in found.char_indices().zip(wanted.chars()) {
        if one != other {
            return at;
        }
    }
    found.len().min(wanted.len())
}

// What stands in the text from there on, as much of it as a failure shows.
fn shown(text: &str, from: usize) -> &str {
    let (_, rest) = text.split_at_checked(from).unwrap_or(("", text));
    let (shown, _) = rest
        .split_at_checked(rest.floor_char_boundary(SHOWN))
        .unwrap_or((rest, ""));
    shown
}

/// A failure where something doesn't hold, which is said.
pub fn holds(what: &str, is_so: bool) -> Result<(), Fail> {
    if is_so {
        return Ok(());
    }
    Err(Fail::new(format_args!("doesn't hold: {what}")))
}

/// A failure where something doesn't hold at this call, place or length.
pub fn holds_at(at: u64, what: &str, is_so: bool) -> Result<(), Fail> {
    if is_so {
        return Ok(());
    }
    Err(Fail::new(format_args!("doesn't hold at {at}: {what}")))
}

/// A failure where something doesn't hold of a row.
pub fn row_holds(row: &str, what: &str, is_so: bool) -> Result<(), Fail> {
    if is_so {
        return Ok(());
    }
    Err(Fail::new(format_args!("doesn't hold: {what}, of the row {}", row.trim_ascii())))
}

/// A failure where the texts differ: what stands in each from the first difference on.
pub fn text_is(found: &str, wanted: &str) -> Result<(), Fail> {
    if found == wanted {
        return Ok(());
    }
    let at = same_until(found, wanted);
    let (found, wanted) = (shown(found, at), shown(wanted, at));
    Err(Fail::new(format_args!("from byte {at} on found `{found}`, wanted `{wanted}`")))
}

/// A failure where what comes of a row isn't what the row says.
pub fn row_is(row: &str, found: &str, wanted: &str) -> Result<(), Fail> {
    if found == wanted {
        return Ok(());
    }
    let at = same_until(found, wanted);
    let (found, wanted) = (shown(found, at), shown(wanted, at));
    Err(Fail::new(format_args!(
        "from byte {at} on found `{found}`, wanted `{wanted}`, of the row {}",
        row.trim_ascii()
    )))
}

/// A failure where what comes of a row's first `count` events isn't what is wanted.
pub fn beginning_is(row: &str, count: usize, found: &str, wanted: &str) -> Result<(), Fail> {
    if found == wanted {
        return Ok(());
    }
    let at = same_until(found, wanted);
    let (found, wanted) = (shown(found, at), shown(wanted, at));
    Err(Fail::new(format_args!(
        "from byte {at} on found `{found}`, wanted `{wanted}`, of the first {count} events of {}",
        row.trim_ascii()
    )))
}
