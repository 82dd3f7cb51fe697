//! Signatures in XML.

mod reading;
mod writing;
