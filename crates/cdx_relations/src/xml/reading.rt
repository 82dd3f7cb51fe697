//! Dependencies and compositions read from XML.

mod composition;
mod dependency;
