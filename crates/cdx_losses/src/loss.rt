//! Losses.

use cdx_models::Path;

/// Why a road takes something of a bill. Of several reasons the first counts.
#[derive(Clone, Copy, Debug, PartialEq, Eq)]
pub enum Reason {
    /// The lowest version of the hops doesn't know the field.
    Version,
    /// The lowest version of the hops has tool lists alone, and it is a tools object with a part.
    Tools,
    /// The lowest version of the hops has classifications alone, and it is a flow.
    Flow,
    /// XML doesn't write it.
    Xml,
}

/// Something that a road takes of a bill.
#[derive(Debug, Drop)]
pub struct Loss {
    /// Where it stands in the bill, by the JSON names of members and the numbers of items.
    pub path: Path,
    /// Why the road takes it.
    pub reason: Reason,
}
