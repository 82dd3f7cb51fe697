//! Tests of the machine of every kind that can hold components or services: its answers to each beginning of an element,
//! beside those of the kind's reader to the element that this beginning would be, once all that it leaves open is ended; and
//! its values and faults, beside those that tables give.
//!
//! The machine takes an event only where it goes on with one element, so all tests feed it by one proved loop (`feed`).
#![tactic(auto)]

mod feeding;

pub use feeding::{Heard, Reading, feed};

#[cfg(test)]
mod beginnings;
#[cfg(test)]
mod depths;
#[cfg(test)]
mod kinds;
#[cfg(test)]
mod readers;
#[cfg(test)]
mod samples;
#[cfg(test)]
mod steps;
#[cfg(test)]
mod told;
#[cfg(test)]
mod values;
#[cfg(test)]
mod whole;
