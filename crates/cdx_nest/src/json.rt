//! Tools and metadata in JSON.

mod metadata;
mod tools;
