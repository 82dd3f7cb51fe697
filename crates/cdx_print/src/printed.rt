//! Long texts while they are printed.

ghost use Rattle.std.specs.Prelude.{◌≡◌, [], ◌++◌, IfOk, OnOk};
ghost use Rattle.cdx_print.specs.Printed.{printed};

use crate::long_text::LongText;
use cdx_events::Text;
use std::alloc::{AllocError, Global};
use std::mem::replace;

// A piece ends where it has so many bytes or more.
const LONG: usize = 61_440;

// Room for a piece and for what may be printed beyond its end.
const ROOM: usize = 65_536;

/// What was printed of a long text: its pieces, and the text behind them, which is printed on.
#[derive(Drop)]
pub struct Printed {
    /// The pieces that ended.
    pub pieces: LongText,
    /// What stands behind them.
    pub last: String,
}

impl Printed {
    /// Nothing yet. It takes no memory.
    pub fn new(alloc: Global) -> Printed
        ensures { printed result ≡ [] }
    {
        Printed {
            pieces: LongText::new(alloc),
            last: String::new(alloc),
        }
    }

    /// Prints a text behind the last one. Only want of memory refuses.
    pub fn push_str(&mut self, text: &str) -> Result<(), AllocError>
        ensures { OnOk result (printed self.new ≡ printed self.old ++ text.now) }
    {
        self.last.push_str(text)
    }

    /// Ends the piece where it is long. Only want of memory refuses.
    pub fn break_if_long(&mut self, alloc: Global) -> Result<(), AllocError>
        ensures { OnOk result (printed self.new ≡ printed self.old) }
    {
        if self.last.len() < LONG {
            return Ok(());
        }
        let room = String::with_capacity(alloc, ROOM)?;
        let piece = replace(&mut self.last, room);
        self.pieces.push(Text::from_string(piece))
    }

    /// The whole text. Only want of memory refuses.
    pub fn finish(self) -> Result<LongText, AllocError>
        ensures { IfOk result (λ t. t ≡ printed self) }
    {
        let Printed { mut pieces, last } = self;
        pieces.push(Text::from_string(last))?;
        Ok(pieces)
    }
}
