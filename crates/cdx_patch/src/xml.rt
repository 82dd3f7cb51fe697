//! Patches and issues in XML.

mod reading;
mod writing;
