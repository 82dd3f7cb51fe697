//! A member of an object that is read.

use serde_json::Value;

/// A member of an object that is read.
#[derive(Clone, Copy)]
pub struct SeenMember<'v> {
    /// The member's name.
    pub name: &'v str,
    /// The member's value.
    pub value: &'v Value,
}
