//! Licenses in XML.

mod reading;
mod writing;
