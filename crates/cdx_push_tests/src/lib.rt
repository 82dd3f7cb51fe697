//! Tests of the machine of every kind that doesn't contain itself: its answers to each beginning of an element, beside those
//! of the kind's reader to the element that this beginning would be, once all that it leaves open is ended.
//!
//! The machine takes an event only where it goes on with one element, so all tests feed it by one proved loop (`feed`).
//! What the tests of other machines take from here is in `pieces`, and the proof of that loop.
#![tactic(auto)]

mod feeding;
pub mod pieces;

pub use feeding::{Heard, feed};

#[cfg(test)]
mod beginnings;
#[cfg(test)]
mod kinds;
#[cfg(test)]
mod readers;
#[cfg(test)]
mod same;
#[cfg(test)]
mod samples;
#[cfg(test)]
mod told;
#[cfg(test)]
mod variants;
#[cfg(test)]
mod whole;
