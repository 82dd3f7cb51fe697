//! Components, pedigrees and lists of components in XML.

pub(crate) mod reading;
mod writing;
