//! JSON values that nothing else needs, freed while they are read, and floating-point numbers refused there.
#![tactic(auto)]

mod floats;
mod list;
mod member;
mod spent;

pub use floats::{refuse_floats, refuse_floats_before, refuse_member_floats};
pub use list::{items_from_owned, list_from_owned};
pub use member::take_list_row;
pub use spent::Spent;
