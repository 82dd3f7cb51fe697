//! The leaf records in JSON: what a value denotes, what a version keeps, and how it is written, each as the schema says.
#![tactic(auto)]

pub mod attached_text;
pub mod bom;
pub mod context;
pub mod external_reference;
pub mod fault;
pub mod hash;
pub mod keeping;
pub mod organization;
pub mod property;
pub mod reading;
pub mod seen;
pub mod seen_member;
pub mod spelling;
pub mod tool;
pub mod traits;
pub mod writing;

pub use context::Context;
pub use fault::{at_item, at_member, here, missing};
pub use keeping::Keeping;
pub use reading::{
    first_or_old, first_row, has_member, has_value, list_from_items, list_from_value, list_row,
    member, member_not_null, optional_list_row, optional_list_row_since, optional_row,
    optional_row_since, required_row,
};
pub use seen::SeenMembers;
pub use seen_member::SeenMember;
pub use spelling::Spelling;
pub use spelling::members::{Members, put};
pub use traits::{FromJson, JsonRecord, Kept, ToJson};
pub use writing::{
    keep_list, keep_optional_list, keep_optional_list_since, keep_row, keep_row_since,
    list_spelling, put_list, put_optional_list, put_optional_list_since, put_required,
    put_required_list, put_row, put_row_since,
};
