//! Patches and issues read from XML.

mod issue;
mod patch;
