//! The records that hold neither components nor services.

mod code;
mod licenses;
mod models;
mod parts;
mod relations;
mod values;
