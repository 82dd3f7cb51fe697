//! Signatures while their children are read.

use crate::signature::Signature;
use cdx_events::Text;

/// A signer while its children are read.
#[derive(Drop)]
pub struct SignerPart {
    /// The name of its algorithm.
    pub algorithm: Option<Text>,
    /// Its value.
    pub value: Option<Text>,
}

/// A signature while its children are read.
#[derive(Drop)]
pub struct SignaturePart {
    /// The signers or the chain that was read last.
    pub list: Option<Signature>,
    /// What was read of a single signer.
    pub signer: SignerPart,
}
