//! Whole bills in XML.

pub(crate) mod pieces;
pub(crate) mod reading;
pub(crate) mod writing;
