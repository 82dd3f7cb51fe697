//! Signatures in the JSON Signature Format.

ghost use Rattle.cdx_models.specs.Trees.{signer};
ghost use Rattle.cdx_schema.specs.Kinds.{a_signature, a_text};
ghost use Rattle.std.specs.Prelude.{◌≡◌, refl, IfOk, ◌↔◌, IsTrue};
ghost use Rattle.cdx_signature.specs.Records.{algorithm_tree, signer_tree, signature_tree, signature_there};
ghost use Rattle.cdx_signature.specs.Signatures.{algorithm_of, algorithm_name, signer_of};
ghost use Rattle.cdx_models.specs.Equal.{equal};
ghost use Rattle.cdx_models.specs.EqualLaws.{equal_laws};

use cdx_events::{List, Text};
use cdx_models::HasTree;
use cdx_schema::{Kinded, Record};
use std::alloc::{AllocError, Global};

/// An algorithm of a signature, by its name in the JSON Signature Format. Two that have the same name are equal.
#[derive(Debug, Drop)]
pub enum Algorithm {
    /// RSASSA-PKCS1-v1_5 with SHA-256.
    RS256,
    /// RSASSA-PKCS1-v1_5 with SHA-384.
    RS384,
    /// RSASSA-PKCS1-v1_5 with SHA-512.
    RS512,
    /// RSASSA-PSS with SHA-256.
    PS256,
    /// RSASSA-PSS with SHA-384.
    PS384,
    /// RSASSA-PSS with SHA-512.
    PS512,
    /// ECDSA with SHA-256.
    ES256,
    /// ECDSA with SHA-384.
    ES384,
    /// ECDSA with SHA-512.
    ES512,
    /// EdDSA on the curve Ed25519.
    Ed25519,
    /// EdDSA on the curve Ed448.
    Ed448,
    /// HMAC with SHA-256.
    HS256,
    /// HMAC with SHA-384.
    HS384,
    /// HMAC with SHA-512.
    HS512,
    /// Any other algorithm, by its name.
    Unknown(Text),
}

impl Algorithm {
    /// The variant with this name, and else `Unknown` with the text.
    pub fn new_unchecked(alloc: Global, algorithm: &str) -> Result<Algorithm, AllocError>
        ensures { IfOk result (λ r. r ≡ algorithm_of algorithm.now) }
    {
        match algorithm {
            "RS256" => Ok(Algorithm::RS256),
            "RS384" => Ok(Algorithm::RS384),
            "RS512" => Ok(Algorithm::RS512),
            "PS256" => Ok(Algorithm::PS256),
            "PS384" => Ok(Algorithm::PS384),
            "PS512" => Ok(Algorithm::PS512),
            "ES256" => Ok(Algorithm::ES256),
            "ES384" => Ok(Algorithm::ES384),
            "ES512" => Ok(Algorithm::ES512),
            "Ed25519" => Ok(Algorithm::Ed25519),
            "Ed448" => Ok(Algorithm::Ed448),
            "HS256" => Ok(Algorithm::HS256),
            "HS384" => Ok(Algorithm::HS384),
            "HS512" => Ok(Algorithm::HS512),
            _ => Ok(Algorithm::Unknown(Text::new(alloc, algorithm)?)),
        }
    }

    /// The algorithm's name. It takes no memory.
    pub fn as_str(&self) -> &str
        ensures { result.now ≡ algorithm_name self.now }
    {
        match self {
            Algorithm::RS256 => "RS256",
            Algorithm::RS384 => "RS384",
            Algorithm::RS512 => "RS512",
            Algorithm::PS256 => "PS256",
            Algorithm::PS384 => "PS384",
            Algorithm::PS512 => "PS512",
            Algorithm::ES256 => "ES256",
            Algorithm::ES384 => "ES384",
            Algorithm::ES512 => "ES512",
            Algorithm::Ed25519 => "Ed25519",
            Algorithm::Ed448 => "Ed448",
            Algorithm::HS256 => "HS256",
            Algorithm::HS384 => "HS384",
            Algorithm::HS512 => "HS512",
            Algorithm::Unknown(text) => text.as_str(),
        }
    }
}

impl HasTree for Algorithm {
    ghost tree = { algorithm_tree };

    ghost there = { λ x. refl };

    fn copy(&self, alloc: Global) -> Result<Algorithm, AllocError>
        ensures equal { IfOk result (λ r. algorithm_tree r ≡ algorithm_tree self.now) }
        ensures variant { IfOk result (λ r. r ≡ self.now) }
    {
        match self {
            Algorithm::RS256 => Ok(Algorithm::RS256),
            Algorithm::RS384 => Ok(Algorithm::RS384),
            Algorithm::RS512 => Ok(Algorithm::RS512),
            Algorithm::PS256 => Ok(Algorithm::PS256),
            Algorithm::PS384 => Ok(Algorithm::PS384),
            Algorithm::PS512 => Ok(Algorithm::PS512),
            Algorithm::ES256 => Ok(Algorithm::ES256),
            Algorithm::ES384 => Ok(Algorithm::ES384),
            Algorithm::ES512 => Ok(Algorithm::ES512),
            Algorithm::Ed25519 => Ok(Algorithm::Ed25519),
            Algorithm::Ed448 => Ok(Algorithm::Ed448),
            Algorithm::HS256 => Ok(Algorithm::HS256),
            Algorithm::HS384 => Ok(Algorithm::HS384),
            Algorithm::HS512 => Ok(Algorithm::HS512),
            Algorithm::Unknown(text) => Ok(Algorithm::Unknown(text.copy(alloc)?)),
        }
    }

    fn agrees(&self, other: &Algorithm) -> bool {
        self.as_str() == other.as_str()
    }
}

impl Kinded for Algorithm {
    ghost kind = { a_text };
}

impl PartialEq for Algorithm {
    ghost eq = { λ a b. equal (algorithm_tree a) (algorithm_tree b) };

    ghost laws = { equal_laws algorithm_tree };

    fn eq(&self, other: &Algorithm) -> bool
        ensures test { result ≡ equal (algorithm_tree self.now) (algorithm_tree other.now) }
        ensures equality { IsTrue result ↔ (algorithm_tree self.now ≡ algorithm_tree other.now) }
    {
        self.equals(other)
    }
}

/// One signature: its algorithm and its value.
#[derive(Debug, Drop)]
pub struct Signer {
    /// How it was signed.
    pub algorithm: Algorithm,
    /// The signature itself, in base64url by the JSON Signature Format, which isn't checked.
    pub value: Text,
}

impl Signer {
    /// The signer with the algorithm that has this name, and with this value.
    pub fn new(alloc: Global, algorithm: &str, value: &str) -> Result<Signer, AllocError>
        ensures { IfOk result (λ r. r ≡ signer_of algorithm.now value.now) }
    {
        Ok(Signer {
            algorithm: Algorithm::new_unchecked(alloc, algorithm)?,
            value: Text::new(alloc, value)?,
        })
    }
}

impl HasTree for Signer {
    ghost tree = { signer_tree };

    ghost there = { λ x. refl };

    fn copy(&self, alloc: Global) -> Result<Signer, AllocError> {
        Ok(Signer {
            algorithm: self.algorithm.copy(alloc)?,
            value: self.value.copy(alloc)?,
        })
    }

    fn agrees(&self, other: &Signer) -> bool {
        self.algorithm.agrees(&other.algorithm) && self.value.agrees(&other.value)
    }
}

impl Record for Signer {
    ghost name = { signer };

    ghost is_record = { λ x. refl };

    ghost plain = { refl };
}

impl PartialEq for Signer {
    ghost eq = { λ a b. equal (signer_tree a) (signer_tree b) };

    ghost laws = { equal_laws signer_tree };

    fn eq(&self, other: &Signer) -> bool
        ensures test { result ≡ equal (signer_tree self.now) (signer_tree other.now) }
        ensures equality { IsTrue result ↔ (signer_tree self.now ≡ signer_tree other.now) }
    {
        self.equals(other)
    }
}

/// What signs a bill or a part of it.
#[derive(Debug, Drop)]
pub enum Signature {
    /// Signatures that stand side by side.
    Signers(List<Signer>),
    /// Signatures of which each also signs the ones before it.
    Chain(List<Signer>),
    /// One signer.
    Single(Signer),
}

impl Signature {
    /// The one signature with the algorithm that has this name, and with this value.
    pub fn single(alloc: Global, algorithm: &str, value: &str) -> Result<Signature, AllocError>
        ensures { IfOk result (λ r. r ≡ Signature.Single (signer_of algorithm.now value.now)) }
    {
        Ok(Signature::Single(Signer::new(alloc, algorithm, value)?))
    }

    /// The chain of these signers. It takes no memory.
    pub fn chain(chain: List<Signer>) -> Signature
        ensures { result ≡ Signature.Chain chain }
    {
        Signature::Chain(chain)
    }

    /// These signers side by side. It takes no memory.
    pub fn signers(signers: List<Signer>) -> Signature
        ensures { result ≡ Signature.Signers signers }
    {
        Signature::Signers(signers)
    }
}

impl HasTree for Signature {
    ghost tree = { signature_tree };

    ghost there = { signature_there };

    fn copy(&self, alloc: Global) -> Result<Signature, AllocError> {
        match self {
            Signature::Signers(held) => Ok(Signature::Signers(held.copy(alloc)?)),
            Signature::Chain(held) => Ok(Signature::Chain(held.copy(alloc)?)),
            Signature::Single(held) => Ok(Signature::Single(held.copy(alloc)?)),
        }
    }

    fn agrees(&self, other: &Signature) -> bool {
        match (self, other) {
            (Signature::Signers(one), Signature::Signers(other)) => one.agrees(other),
            (Signature::Signers(_), Signature::Chain(_)) => false,
            (Signature::Signers(_), Signature::Single(_)) => false,
            (Signature::Chain(_), Signature::Signers(_)) => false,
            (Signature::Chain(one), Signature::Chain(other)) => one.agrees(other),
            (Signature::Chain(_), Signature::Single(_)) => false,
            (Signature::Single(_), Signature::Signers(_)) => false,
            (Signature::Single(_), Signature::Chain(_)) => false,
            (Signature::Single(one), Signature::Single(other)) => one.agrees(other),
        }
    }
}

impl Kinded for Signature {
    ghost kind = { a_signature };
}

impl PartialEq for Signature {
    ghost eq = { λ a b. equal (signature_tree a) (signature_tree b) };

    ghost laws = { equal_laws signature_tree };

    fn eq(&self, other: &Signature) -> bool
        ensures test { result ≡ equal (signature_tree self.now) (signature_tree other.now) }
        ensures equality { IsTrue result ↔ (signature_tree self.now ≡ signature_tree other.now) }
    {
        self.equals(other)
    }
}
