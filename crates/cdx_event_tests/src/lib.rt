//! Worked examples of texts, events, sources and sinks, and of the tags of single elements, as tests.
#![tactic(auto)]

#[cfg(test)]
mod events;
#[cfg(test)]
mod sinks;
#[cfg(test)]
mod tags;
