//! The leaf records of components in XML.

mod reading;
mod writing;
