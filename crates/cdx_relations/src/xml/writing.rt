//! Dependencies and compositions as XML events.

mod composition;
mod dependency;
mod reference;
