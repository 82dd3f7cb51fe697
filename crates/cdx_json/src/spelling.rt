//! JSON that is written, before it is a value or a text.

pub mod members;
mod values;

/// A JSON value that borrows its names and texts from what is written, so that none is copied. It is printed by
/// `cdx_print`, or made a `Value` of its own.
#[derive(Drop)]
pub enum Spelling<'b> {
    /// `true` or `false`.
    Bool(bool),
    /// A whole number.
    Number(u32),
    /// A text.
    Text(&'b str),
    /// An array: its items.
    Array(Vec<Spelling<'b>>),
    /// An object: its members, as `put` sets them.
    Object(Vec<(&'b str, Spelling<'b>)>),
}
