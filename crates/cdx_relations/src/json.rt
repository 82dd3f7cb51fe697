//! Dependencies and compositions in JSON.

mod composition;
mod dependency;
