//! What the tests run programs with.

use cdx_events::List;
use std::alloc::{AllocError, Global};

/// The words of a program.
pub fn words_of(alloc: Global, words: &[&str]) -> Result<Vec<String>, AllocError> {
    let mut texts = Vec::new(alloc);
    for word in words {
        texts.push(String::from_str(alloc, word)?)?;
    }
    Ok(texts)
}

/// The bytes of a text, as a source has them.
pub fn bytes_of(alloc: Global, text: &str) -> Result<List<u8>, AllocError> {
    Ok(List::from_vec(text.as_bytes().to_vec(alloc)?))
}
