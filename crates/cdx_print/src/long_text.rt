//! Long texts.

ghost use Rattle.std.specs.Prelude.{◌≡◌, ◌≤◌, [], ◌++◌, length, IfOk, OnOk, OnErr};
ghost use Rattle.std.specs.List.{concat};

use cdx_events::{List, Text};
use std::alloc::{AllocError, Global};
use std::marker::Model;

/// A text in pieces, so that a long one needs neither room for all of it at one place nor a copy where it grows. Contracts
/// see its bytes.
#[derive(Debug, Drop)]
pub struct LongText {
    pieces: List<Text>,
    len: usize,
}

impl Model for LongText {
    ghost use Rattle.std.specs.Prelude.{◌≡◌, List, ℕ, length};
    ghost use Rattle.std.specs.List.{concat};

    ghost Value = { List ℕ };

    ghost view = { λ t. concat t.pieces };

    ghost invariant = { λ t. t.len ≡ length (concat t.pieces) };
}

impl LongText {
    /// The empty text. It takes no memory.
    pub fn new(alloc: Global) -> LongText
        ensures { result ≡ [] }
    {
        LongText {
            pieces: List::new(alloc),
            len: 0,
        }
    }

    /// The text that is this one piece. Only want of memory refuses.
    pub fn from_text(alloc: Global, piece: Text) -> Result<LongText, AllocError>
        ensures { IfOk result (λ t. t ≡ piece) }
    {
        let mut text = LongText::new(alloc);
        text.push(piece)?;
        Ok(text)
    }

    /// Appends a piece. Only want of memory refuses; the text is then as before, and the piece is dropped.
    pub fn push(&mut self, piece: Text) -> Result<(), AllocError>
        ensures ok { OnOk result (self.new ≡ self.old ++ piece) }
        ensures err { OnErr result (self.new ≡ self.old) }
    {
        let Some(len) = self.len.checked_add(piece.as_str().len()) else {
            return Err(AllocError);
        };
        self.pieces.push(piece)?;
        self.len = len;
        Ok(())
    }

    /// How many bytes it has. It takes no memory.
    pub fn len(&self) -> usize
        ensures { result ≡ length self.now }
    {
        self.len
    }

    /// Its pieces, in order. It takes no memory.
    pub fn as_slice(&self) -> &[Text]
        ensures pieces { concat result.now ≡ self.now }
        ensures bound { length self.now ≤ usize.MAX }
    {
        // Its length is a `usize`.
        self.len();
        self.pieces.as_slice()
    }

    /// The whole in one piece. Only want of memory refuses.
    pub fn to_text(&self, alloc: Global) -> Result<Text, AllocError>
        ensures { IfOk result (λ t. t ≡ self.now) }
    {
        let mut whole = String::with_capacity(alloc, self.len)?;
        for piece in self.pieces.as_slice() {
            whole.push_str(piece.as_str())?;
        }
        Ok(Text::from_string(whole))
    }
}
