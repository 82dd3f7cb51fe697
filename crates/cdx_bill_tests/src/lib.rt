//! Worked examples of whole bills: as values, read, kept, written and carried along roads, through public calls.
#![tactic(auto)]

#[cfg(test)]
mod documents;
#[cfg(test)]
mod faults;
#[cfg(test)]
mod last;
#[cfg(test)]
mod printed;
#[cfg(test)]
mod short;
#[cfg(test)]
mod values;
#[cfg(test)]
mod writing;
