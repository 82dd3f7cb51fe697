//! Calls that make a value from nothing but its parts.

use cdx_events::{List, OwnedName};
use cdx_json::ToJson;
use cdx_models::XmlReadError;
use cdx_nest::Metadata;
use cdx_signature::{Algorithm, Signature, Signer};
use cdx_test_cases::checks::{holds, text_is};
use cdx_test_cases::faults::xml_fault_line;
use cdx_test_cases::forms::{V5, held};
use cdx_write::ToXml;
use std::alloc::Global;
use std::test::Fail;

// The fault tells its place, the element's local name and the field.
#[test]
fn missing_data(rt: HostRuntime) -> Result<(), Fail> {
    let alloc = rt.alloc();
    let element = OwnedName::local(alloc, "x")?;
    let fault = XmlReadError::required_data_missing(alloc, 5, "f", &element)?;
    text_is(xml_fault_line(alloc, &fault)?.as_str(), "missing 5 x f")
}

#[test]
fn local_names(rt: HostRuntime) -> Result<(), Fail> {
    let name = OwnedName::local(rt.alloc(), "a")?;
    text_is(name.local_name.as_str(), "a")?;
    holds(
        "a local name has neither namespace nor prefix",
        name.namespace.is_none() && name.prefix.is_none(),
    )
}

#[test]
fn metadata_without_fields(rt: HostRuntime) -> Result<(), Fail> {
    let alloc = rt.alloc();
    let metadata = Metadata::default();
    let is_empty = metadata == held::<Metadata>(alloc, "{}", V5)?;
    let will_write = metadata.will_write();
    let written = metadata.to_json(alloc, V5)?.to_string(alloc)?;
    drop(metadata);
    holds(
        "metadata without fields is that of an empty object",
        is_empty,
    )?;
    holds("metadata without fields has nothing to write", !will_write)?;
    text_is(written.as_str(), "{}")
}

fn signers(alloc: Global, algorithm: &str) -> Result<List<Signer>, Fail> {
    let mut signers = List::new(alloc);
    signers.push(Signer::new(alloc, algorithm, "a")?)?;
    Ok(signers)
}

// The one signer of signers that stand side by side.
fn only(signature: &Signature) -> Option<&Signer> {
    match signature {
        Signature::Signers(signers) => signers.get(0),
        _ => None,
    }
}

#[test]
fn one_signer(rt: HostRuntime) -> Result<(), Fail> {
    let alloc = rt.alloc();
    let signature = Signature::signers(signers(alloc, "ES256")?);
    let signer = Signer::new(alloc, "ES256", "a")?;
    holds(
        "the signer stands in the signature",
        only(&signature) == Some(&signer),
    )?;
    let text = r#"{"signers":[{"algorithm":"ES256","value":"a"}]}"#;
    let is_read = signature == held::<Signature>(alloc, text, V5)?;
    holds("the text denotes the signature", is_read)
}

// The name of an algorithm that has none of the variants.
fn unknown(signer: &Signer) -> &str {
    match &signer.algorithm {
        Algorithm::Unknown(name) => name.as_str(),
        _ => "",
    }
}

#[test]
fn algorithms_by_name(rt: HostRuntime) -> Result<(), Fail> {
    let alloc = rt.alloc();
    text_is(unknown(&Signer::new(alloc, "XY1", "v")?), "XY1")?;
    let known = Algorithm::new_unchecked(alloc, "Ed448")?;
    holds(
        "Ed448 is known by its name",
        matches!(known, Algorithm::Ed448),
    )?;
    let known = Signer::new(alloc, "ES256", "v")?;
    holds(
        "ES256 is known by its name",
        matches!(known.algorithm, Algorithm::ES256),
    )
}
