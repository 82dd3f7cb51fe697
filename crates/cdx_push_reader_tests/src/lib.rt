//! Tests of the reader of bills that is fed events piece by piece: what it answers to each piece, which fault it tells
//! after it and what it comes to at the end, also of documents of 160,006 and 200,006 events that come one by one.
//!
//! The reader takes no more events than can be counted, so all tests feed it by one proved loop (`feed_each`).
#![tactic(auto)]

mod feeding;
mod told;

pub use feeding::{Fed, feed_each};

#[cfg(test)]
mod documents;
#[cfg(test)]
mod lines;
#[cfg(test)]
mod long;
#[cfg(test)]
mod pieces;
#[cfg(test)]
mod samples;
