//! Records while their children are read.

use cdx_events::Text;
use cdx_models::Hashes;

/// A reference while its children are read.
#[derive(Drop)]
pub struct ReferencePart {
    /// Its type, which the attributes give.
    pub external_reference_type: Text,
    /// Its address, of the last child that is one.
    pub url: Option<Text>,
    /// Its comment.
    pub comment: Option<Text>,
    /// The hashes of what stands there.
    pub hashes: Option<Hashes>,
}
