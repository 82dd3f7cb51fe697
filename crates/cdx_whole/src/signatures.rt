//! Signatures.

use crate::telling::{TellsKind, tell_list};
use cdx_signature::{Algorithm, Signature, Signer};

impl TellsKind for Algorithm {
    fn tell(&self) {
        let _name = self.as_str();
    }
}

impl TellsKind for Signer {
    fn tell(&self) {
        self.algorithm.tell();
        self.value.tell();
    }
}

impl TellsKind for Signature {
    fn tell(&self) {
        match self {
            Signature::Signers(signers) => tell_list(signers),
            Signature::Chain(chain) => tell_list(chain),
            Signature::Single(signer) => signer.tell(),
        }
    }
}
