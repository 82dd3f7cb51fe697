//! What an inventory tells of a component.

use cdx_events::{List, Text};
use cdx_models::Path;

/// A component of a bill: where it stands, what it is called, and its licenses.
#[derive(Debug, Drop)]
pub struct Entry {
    /// Where it stands in the bill, by the JSON names of members and the numbers of items.
    pub path: Path,
    /// Its name.
    pub name: Text,
    /// Its version, where it has one.
    pub version: Option<Text>,
    /// The texts of its licenses, in order: of a license its id or name, of an expression its text. Those in its evidence
    /// don't count.
    pub licenses: List<Text>,
}

mod made;

pub(crate) use made::{entry_of, has_license};
