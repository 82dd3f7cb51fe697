//! Tools and metadata in XML.

mod reading;
mod writing;
