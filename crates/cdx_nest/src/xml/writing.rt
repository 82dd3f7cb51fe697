//! Tools and metadata as XML events.

mod metadata;
mod tools;
