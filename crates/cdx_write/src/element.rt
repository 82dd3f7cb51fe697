//! Values that are written as elements.

ghost use Rattle.std.specs.Prelude.{◌≡◌, IfOk, true, ℕ, List};
ghost use Rattle.cdx_schema.specs.Trips.{is_hollow, is_passed_over};
ghost use Rattle.cdx_schema.specs.XmlTexts.{text_of};
ghost use Rattle.cdx_write.specs.Lone.{IsLone};
ghost use Rattle.cdx_write.specs.Spelling.{spelled_events};
ghost use Rattle.cdx_write.specs.Stays.{keeps_presence, KeepsHollow};
ghost use Rattle.cdx_write.specs.WillWrite.{will_write};
ghost use Rattle.cdx_write.specs.Writing.{Appends};

use crate::tags::{WriteResult, write_simple_tag};
use cdx_events::{EventWriter, Text};
use cdx_schema::{Kinded, Target};
use std::alloc::{AllocError, Global};

/// A value that is written as one text: an attribute's value, or an element's content.
pub trait Lone: Kinded {
    /// The text. Only want of memory refuses.
    fn xml_text(&self, alloc: Global) -> Result<Text, AllocError>
        ensures { IfOk result (λ r. r ≡ text_of (Self.tree self.now)) };

    ghost lone: { (x : Self) → IsLone Self.kind (Self.tree x) };
}

/// A value that the record or the list around it writes under a name.
pub trait Element: Kinded {
    /// Appends the element of what the version keeps, under the name, unless the kind has a name of its own. Only want
    /// of memory is refused; the writer then has a prefix of that.
    fn write_as(&self, writer: &mut EventWriter, tag: &str, target: Target) -> WriteResult
        ensures { Appends writer.old writer.new
            (spelled_events (Self.tree self.now) target.version tag.now Self.kind) result };

    ghost keeps: { keeps_presence Self.kind ≡ true };
}

/// A value that may have nothing to write.
pub trait HasContent: Kinded {
    /// Whether there is something to write: false exactly for a record none of whose fields that count is there. It
    /// takes no memory.
    fn has_content(&self) -> bool
        ensures { result ≡ will_write (Self.tree self.now) };
}

/// A value with a name of its own, for where nothing else names it.
pub trait Tagged: Element + HasContent {
    // The name.
    ghost own_name: { List ℕ };

    /// The name.
    fn own_name() -> &'static str
        ensures { result.now ≡ own_name };
}

/// An item of a list.
pub trait Item: Element {
    /// Whether a list doesn't write it: exactly a contact without name, email and phone. It takes no memory.
    fn is_passed_over(&self) -> bool
        ensures { result ≡ is_passed_over (Self.tree self.now) };
}

/// A record that, as some fields, isn't written where it would be an element without children.
pub trait Filled: Element {
    /// Whether it would be an element without children. It takes no memory.
    fn is_hollow(&self) -> bool
        ensures { result ≡ is_hollow (Self.tree self.now) };

    ghost keeps_hollow: { (x : Self) → KeepsHollow Self.kind (Self.tree x) };
}

/// An element that holds a text alone.
pub fn write_lone<T: Lone>(
    writer: &mut EventWriter,
    tag: &str,
    held: &T,
    target: Target,
) -> WriteResult
    ensures { Appends writer.old writer.new
        (spelled_events (T.tree held.now) target.version tag.now T.kind) result }
{
    let text = held.xml_text(target.alloc)?;
    write_simple_tag(target.alloc, writer, tag, text.as_str())
}
