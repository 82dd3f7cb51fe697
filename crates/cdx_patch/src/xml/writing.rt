//! Patches and issues written as XML.

mod issue;
mod patch;
