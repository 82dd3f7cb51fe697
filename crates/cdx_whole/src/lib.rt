//! Every bill is one: the laws that ask for a bill, or for the shape of one, hold of each `Bom`, whoever made it.
#![tactic(auto)]

mod again;
mod bill;
mod changes;
mod components;
mod data;
mod leaves;
mod licenses;
mod nest;
mod owned;
mod parts;
mod relations;
mod services;
mod signatures;
mod telling;
#[cfg(test)]
mod tests;

pub use again::read_again;
pub use bill::is_a_bill;
pub use owned::{owned_bill, owned_bill_again};
