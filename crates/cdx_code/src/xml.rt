//! Commits in XML.

mod reading;
mod writing;
