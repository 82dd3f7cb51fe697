//! Which variant stands in a value that a machine reads. Trees don't tell it, so no contract does.

use crate::feeding::Heard;
use crate::pieces::around;
use crate::readers::read;
use crate::told::{fed, kind_of};
use cdx_events::{Events, List};
use cdx_models::{ExternalReferences, SpecVersion, Uri};
use cdx_push::{LeafKind, LeafValue};
use cdx_signature::{Algorithm, Signature, Signer};
use cdx_test_cases::checks::row_is;
use cdx_test_cases::rows::{Case, cases};
use std::alloc::Global;
use std::test::Fail;

fn signer_variant(signer: &Signer) -> &'static str {
    match signer.algorithm {
        Algorithm::RS256 => "RS256",
        Algorithm::ES256 => "ES256",
        Algorithm::Ed25519 => "Ed25519",
        Algorithm::HS512 => "HS512",
        Algorithm::Unknown(_) => "unknown",
        _ => "another",
    }
}

fn of_only(signers: &List<Signer>) -> &'static str {
    match signers.as_slice() {
        [signer] => signer_variant(signer),
        _ => "not one",
    }
}

fn signature_variant(signature: &Signature) -> &'static str {
    match signature {
        Signature::Single(signer) => signer_variant(signer),
        Signature::Chain(signers) => of_only(signers),
        Signature::Signers(signers) => of_only(signers),
    }
}

fn of_references(references: &ExternalReferences) -> &'static str {
    match references.0.as_slice() {
        [reference] => match reference.url {
            Uri::Url(_) => "address",
            Uri::BomLink(_) => "link",
        },
        _ => "not one",
    }
}

fn variant(value: &LeafValue) -> &'static str {
    match value {
        LeafValue::Signature(signature) => signature_variant(signature),
        LeafValue::ExternalReferences(references) => of_references(references),
        _ => "another kind",
    }
}

// The variant in what the machine reads.
fn heard_variant(heard: &Heard) -> &'static str {
    match heard {
        Heard::Done(value) => variant(value),
        _ => "not read by the machine",
    }
}

// The same in what the kind's machine reads of the events. One value is held at a time, since each place where a function
// ends frees what it holds, variant by variant.
fn machine_variant(
    alloc: Global,
    events: &Events,
    kind: LeafKind,
    version: SpecVersion,
) -> &'static str {
    let heard = fed(alloc, events, kind, version, usize::MAX);
    heard_variant(&heard)
}

// The same in what the kind's reader reads of them.
fn reader_variant(
    alloc: Global,
    events: &Events,
    kind: LeafKind,
    version: SpecVersion,
) -> Result<&'static str, Fail> {
    let wanted = read(alloc, events, kind, version)?;
    Ok(variant(&wanted))
}

// The variant in what the machine reads, where it is that in what the kind's reader reads.
fn found(alloc: Global, case: &Case<'_>) -> Result<&'static str, Fail> {
    let kind = kind_of(case.word)?;
    let events = around(alloc, case.given)?;
    let heard = machine_variant(alloc, &events, kind, case.version);
    if heard != reader_variant(alloc, &events, kind, case.version)? {
        return Ok("another than the reader's");
    }
    Ok(heard)
}

fn variants(alloc: Global, rows: &str) -> Result<(), Fail> {
    for case in &cases(alloc, rows)? {
        row_is(case.line, found(alloc, case)?, case.answer)?;
    }
    Ok(())
}

const ALGORITHMS: &str = r#"
    1.3,1.4,1.5 Signature <signature|<algorithm|=ES256|>algorithm|<value|=a|>value|>signature -> ES256
    1.5 Signature <signature|<algorithm|=Ed25519|>algorithm|<value|=a|>value|>signature -> Ed25519
    1.5 Signature <signature|<algorithm|=es256|>algorithm|<value|=a|>value|>signature -> unknown
    1.5 Signature <signature|<chain|<chain|<algorithm|=RS256|>algorithm|<value|=a|>value|>chain|>chain|>signature -> RS256
    1.5 Signature <signature|<chain|<chain|<algorithm|=XY1|>algorithm|<value|=a|>value|>chain|>chain|>signature -> unknown
    1.5 Signature <signature|<signers|<signer|<algorithm|=HS512|>algorithm|<value|=a|>value|>signer|>signers|>signature -> HS512
"#;

#[test]
fn algorithms(rt: HostRuntime) -> Result<(), Fail> {
    variants(rt.alloc(), ALGORITHMS)
}

// An address is a link to a bill where it begins with `urn:cdx:`.
const ADDRESSES: &str = r#"
    1.3,1.4,1.5 ExternalReferences <externalReferences|<reference type=t|<url|=urn:cdx:x|>url|>reference|>externalReferences -> link
    1.3,1.4,1.5 ExternalReferences <externalReferences|<reference type=t|<url|=u|>url|>reference|>externalReferences -> address
"#;

#[test]
fn addresses(rt: HostRuntime) -> Result<(), Fail> {
    variants(rt.alloc(), ADDRESSES)
}
