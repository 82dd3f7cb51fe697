//! Makes a document of many like parts and reads it, whole or event by event: what `bench/push` times. Three words say of what
//! it is made, how it is read, and how many parts it has.
#![tactic(auto)]

mod documents;
mod reading;

use crate::reading::read_made;
use cdx_words::words;
use std::test::Fail;

fn main(rt: HostRuntime) -> Result<(), Fail> {
    let words = words(&rt)?;
    read_made(rt.alloc(), words.as_slice())
}
