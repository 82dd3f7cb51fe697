//! Compositions while their children are read.

use crate::composition::BomReference;
use cdx_events::{List, Text};
use cdx_signature::Signature;

/// A composition while its children are read.
#[derive(Drop)]
pub struct CompositionPart {
    /// Its own reference.
    pub bom_ref: Option<Text>,
    /// How complete it is, once its child was read.
    pub aggregate: Option<Text>,
    /// The assemblies, once they were read.
    pub assemblies: Option<List<BomReference>>,
    /// The dependencies, once they were read.
    pub dependencies: Option<List<BomReference>>,
    /// The vulnerabilities, once they were read.
    pub vulnerabilities: Option<List<BomReference>>,
    /// The signature, once it was read.
    pub signature: Option<Signature>,
}
