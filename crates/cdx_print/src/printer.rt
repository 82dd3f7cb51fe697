//! Texts printed as JSON, of which names come again and again: `serde_json` prints each of them once.

ghost use Rattle.std.specs.Prelude.{◌≡◌, ◌++◌, codes, IfOk, IfSome, OnOk, string_bytes};
ghost use Rattle.serde_json.specs.Data.{string};
ghost use Rattle.serde_json.specs.Written.{compact_text};
ghost use Rattle.cdx_print.specs.Prints.{then_text, key_text};

use crate::known::KnownText;
use crate::pieces::{print_text, quoted};
use std::alloc::{AllocError, Global};

// So many names are known at most. The schema's elements, attributes and members have fewer.
const MOST: usize = 128;
// A longer name isn't kept.
const LONGEST: usize = 64;

/// Prints texts as JSON after a text, and knows again the names that it has printed.
#[derive(Drop)]
pub struct Printer {
    pub(crate) alloc: Global,
    known: Vec<KnownText>,
    // Which of them was last met at each place.
    places: [u8; 256],
}

impl Printer {
    /// A printer that knows no name yet. It takes no memory.
    pub fn new(alloc: Global) -> Printer {
        Printer {
            alloc,
            known: Vec::new(alloc),
            places: [0; 256],
        }
    }

    /// The start of a member, and then the text as JSON. Only want of memory refuses.
    pub fn print_text(&self, out: &mut String, start: &str, text: &str) -> Result<(), AllocError>
        ensures { OnOk result
            (string_bytes out.new ≡ then_text start.now text.now (string_bytes out.old)) }
    {
        print_text(self.alloc, out, start, text)
    }

    /// The same of a name: where it is known, what `serde_json` printed of it is copied. Only want of memory refuses.
    pub fn print_name(
        &mut self,
        out: &mut String,
        start: &str,
        name: &str,
    ) -> Result<(), AllocError>
        ensures { OnOk result
            (string_bytes out.new ≡ then_text start.now name.now (string_bytes out.old)) }
    {
        out.push_str(start)?;
        let place = place_of(name.as_bytes());
        let at = self.places[place as usize] as usize;
        match known_at(self.known.as_slice(), at, name) {
            Some(held) => out.push_str(held.printed.as_str()),
            None => self.print_found(out, name, place),
        }
    }

    /// The start of a member: a comma, where one stands before it, its name as JSON and the colon. Only want of memory
    /// refuses.
    pub fn print_key(
        &mut self,
        out: &mut String,
        name: &str,
        is_later: bool,
    ) -> Result<(), AllocError>
        ensures { OnOk result
            (string_bytes out.new ≡ string_bytes out.old ++ key_text is_later name.now) }
    {
        if is_later {
            let at = self.places[place_of(name.as_bytes()) as usize] as usize;
            if let Some(held) = known_at(self.known.as_slice(), at, name) {
                return out.push_str(held.key.as_str());
            }
        }
        self.print_name(out, if is_later { "," } else { "" }, name)?;
        out.push_str(":")
    }

    // The name as JSON, where another was last met at its place.
    fn print_found(&mut self, out: &mut String, name: &str, place: u8) -> Result<(), AllocError>
        ensures { OnOk result
            (string_bytes out.new ≡ string_bytes out.old ++ compact_text (string name.now)) }
    {
        let at = position(self.known.as_slice(), name);
        self.places[place as usize] = at;
        match known_at(self.known.as_slice(), at as usize, name) {
            Some(held) => out.push_str(held.printed.as_str()),
            None => self.print_new(out, name),
        }
    }

    // The name as JSON, which is known from then on where there is room for it.
    fn print_new(&mut self, out: &mut String, name: &str) -> Result<(), AllocError>
        ensures { OnOk result
            (string_bytes out.new ≡ string_bytes out.old ++ compact_text (string name.now)) }
    {
        let printed = quoted(self.alloc, name)?;
        out.push_str(printed.as_str())?;
        if self.known.len() < MOST && name.len() <= LONGEST {
            let text = String::from_str(self.alloc, name)?;
            let key = key_of(self.alloc, printed.as_str())?;
            self.known.push(KnownText { text, printed, key })?;
        }
        Ok(())
    }
}

// Where the name is looked for first. Few names of the schema share a place.
fn place_of(name: &[u8]) -> u8 {
    match (name.first(), name.last()) {
        (Some(first), Some(last)) => ((name.len() % 256) as u8)
            .wrapping_mul(27)
            .wrapping_add(first.wrapping_mul(10))
            .wrapping_add(*last),
        _ => 0,
    }
}

// The name, if it is the known one with this number.
fn known_at<'k>(known: &'k [KnownText], at: usize, name: &str) -> Option<&'k KnownText>
    ensures { IfSome result (λ k. string_bytes k.now.text ≡ name.now) }
{
    match known.get(at) {
        Some(held) if held.text.as_str() == name => Some(held),
        _ => None,
    }
}

// What starts a member behind another, of what was printed of its name.
fn key_of(alloc: Global, printed: &str) -> Result<String, AllocError>
    ensures { IfOk result (λ k. string_bytes k ≡ codes "," ++ (printed.now ++ codes ":")) }
{
    let mut key = String::with_capacity(alloc, printed.len().saturating_add(2))?;
    key.push_str(",")?;
    key.push_str(printed)?;
    key.push_str(":")?;
    Ok(key)
}

// The name's number, if it is known, and otherwise the number that the next known name has.
fn position(known: &[KnownText], name: &str) -> u8 {
    let mut at = 0;
    for held in known {
        if may_be_same(held.text.as_bytes(), name.as_bytes()) && held.text.as_str() == name {
            return at;
        }
        at = at.wrapping_add(1);
    }
    at
}

// Of most pairs of names the lengths or the ends differ, which takes less time to see than whether all bytes are the same.
fn may_be_same(one: &[u8], other: &[u8]) -> bool {
    one.len() == other.len() && one.last() == other.last() && one.first() == other.first()
}
