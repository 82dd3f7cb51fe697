//! The signatures that vouch for a bill and its parts: their types and trees, and what they are in JSON and in XML.
#![tactic(auto)]

mod json;
mod parts;
pub mod signature;
mod xml;

pub use parts::{SignaturePart, SignerPart};
pub use signature::{Algorithm, Signature, Signer};
