//! Tests of records, call by call: each call of each trait by itself where memory suffices, which variant stands in a
//! value that is read, copied or kept, and calls that no table of the other crates of tests makes.
#![tactic(auto)]

#[cfg(test)]
mod calls;
#[cfg(test)]
mod made;
#[cfg(test)]
mod samples;
#[cfg(test)]
mod single;
#[cfg(test)]
mod variants;
