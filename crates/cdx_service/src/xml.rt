//! Services and lists of services in XML.

pub(crate) mod reading;
mod writing;
