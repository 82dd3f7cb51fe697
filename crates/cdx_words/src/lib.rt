//! The words that a program is called with, and its status where it can't have them.
#![tactic(auto)]

ghost use Rattle.std.specs.Prelude.{◌≡◌};

use std::env;
use std::io::{self, ErrorKind};
use std::rt::Env;

/// The status where memory was refused.
pub const NO_MEMORY: u8 = 5;

/// The status where the words can't be had for another reason.
pub const NO_WORDS: u8 = 7;

/// The words that the program was called with, in order, without its own name. They can't be had where memory runs
/// out, as `OutOfMemory`, or where one of them isn't in UTF-8, as `InvalidData`.
pub fn words<R: Env + AllocGlobal>(rt: &R) -> io::Result<Vec<String>> {
    let mut words = Vec::new(rt.alloc());
    for word in env::args(rt)?.skip(1) {
        words.push(word)?;
    }
    Ok(words)
}

/// The program's status where the words can't be had: `NO_MEMORY` exactly where memory was refused, and otherwise
/// `NO_WORDS`.
pub fn status_without_words(kind: ErrorKind) -> u8
    ensures memory { kind ≡ ErrorKind.OutOfMemory → result ≡ NO_MEMORY }
    ensures other { (kind ≡ ErrorKind.OutOfMemory → ⊥) → result ≡ NO_WORDS }
{
    if kind == ErrorKind::OutOfMemory {
        NO_MEMORY
    } else {
        NO_WORDS
    }
}
