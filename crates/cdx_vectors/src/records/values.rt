//! What constructors give, and values that no document tells apart.

use cdx_component_parts::ComponentEvidence;
use cdx_events::{List, Text};
use cdx_json::{FromJson, Kept};
use cdx_license::Expression;
use cdx_models::{ExternalReference, ExternalReferences, HasTree, OrganizationalEntity, Tool, Uri};
use cdx_patch::Source;
use cdx_relations::BomReference;
use cdx_service_data::{Data, DataClassification};
use cdx_signature::{Algorithm, Signature, Signer};
use cdx_test_cases::checks::{holds, row_holds, text_is};
use cdx_test_cases::forms::{V3, V5, denoted, held, named, shown};
use cdx_write::{Filled, ToInnerXml};
use std::alloc::{AllocError, Global};
use std::test::Fail;

// The value is what the text denotes.
fn is_made<T: FromJson + PartialEq + Drop>(alloc: Global, made: T, text: &str) -> Result<(), Fail> {
    let is_so = made == held::<T>(alloc, text, V5)?;
    row_holds(text, "the value is what the text denotes", is_so)
}

#[test]
fn constructors(rt: HostRuntime) -> Result<(), Fail> {
    let alloc = rt.alloc();
    is_made(alloc, Tool::default(), "{}")?;
    let acme = OrganizationalEntity::new(alloc, "Acme")?;
    is_made(alloc, acme, r#"{"name":"Acme"}"#)?;
    let expression = Expression::new(alloc, "MIT")?;
    is_made(alloc, expression, r#"{"expression":"MIT"}"#)?;
    let class = DataClassification::new(alloc, "inbound", "PII")?;
    let flow = r#"{"flow":"inbound","classification":"PII"}"#;
    is_made(alloc, class, flow)?;
    is_made(alloc, BomReference::new(alloc, "r")?, r#""r""#)?;
    let single = Signature::single(alloc, "ES256", "v")?;
    is_made(alloc, single, r#"{"algorithm":"ES256","value":"v"}"#)?;
    let signer = Signer::new(alloc, "XY1", "v")?;
    is_made(alloc, signer, r#"{"algorithm":"XY1","value":"v"}"#)?;
    let chain = Signature::chain(List::new(alloc));
    is_made(alloc, chain, r#"{"chain":[]}"#)?;
    let signers = Signature::signers(List::new(alloc));
    is_made(alloc, signers, r#"{"signers":[]}"#)
}

fn is_link(uri: &Uri) -> bool {
    matches!(uri, Uri::BomLink(_))
}

fn address(alloc: Global, text: &str) -> Result<Uri, AllocError> {
    Ok(Uri::from_text(Text::new(alloc, text)?))
}

fn plain_address(alloc: Global, text: &str) -> Result<Uri, AllocError> {
    Ok(Uri::Url(Text::new(alloc, text)?))
}

// Whether the address is taken as a link or as none, and copied so.
fn is_taken_so(alloc: Global, text: &str, is_so: bool) -> Result<bool, AllocError> {
    let taken = address(alloc, text)?;
    let copy = taken.copy(alloc)?;
    Ok(is_link(&taken) == is_so && is_link(&copy) == is_so)
}

// Whether the same text as no link is copied so, and equal to the address.
fn is_equal_plain(alloc: Global, text: &str) -> Result<bool, AllocError> {
    let plain = plain_address(alloc, text)?;
    let copy = plain.copy(alloc)?;
    Ok(!is_link(&copy) && address(alloc, text)? == plain)
}

// The addresses, parted by `|`, are taken as links or as none, and copied so. A link is equal to its text as no link.
fn are_links(alloc: Global, texts: &str, is_so: bool) -> Result<(), Fail> {
    for text in texts.split('|') {
        text_is(address(alloc, text)?.as_str(), text)?;
        let is_taken = is_taken_so(alloc, text, is_so)?;
        row_holds(text, "it is a link or none, and so is its copy", is_taken)?;
        let is_equal = is_equal_plain(alloc, text)?;
        row_holds(text, "it is equal to its text as no link", is_equal)?;
    }
    Ok(())
}

fn reference(alloc: Global) -> Result<ExternalReference, Fail> {
    held::<ExternalReference>(alloc, r#"{"type":"t","url":"urn:cdx:x"}"#, V5)
}

const REFERENCES: &str =
    "<externalReferences|<reference type=t|<url|=urn:cdx:x|>url|>reference|>externalReferences";

// Whether the one that the document lists is a link.
fn is_read_as_link(alloc: Global) -> Result<bool, Fail> {
    let references = denoted::<ExternalReferences>(alloc, REFERENCES, V5)?;
    match references.0.as_slice() {
        [reference] => Ok(is_link(&reference.url)),
        _ => Ok(false),
    }
}

// An address is a link to a bill where it begins with `urn:cdx:`.
#[test]
fn addresses(rt: HostRuntime) -> Result<(), Fail> {
    let alloc = rt.alloc();
    are_links(alloc, "urn:cdx:|urn:cdx:x", true)?;
    are_links(alloc, "u|urn:cdx|URN:CDX:x| urn:cdx:x", false)?;
    let is_so = is_link(&reference(alloc)?.url);
    holds("the reference's address is a link", is_so)?;
    let is_so = is_link(&reference(alloc)?.kept(alloc, V3)?.url);
    holds("the address that 1.3 keeps is a link", is_so)?;
    let is_so = is_read_as_link(alloc)?;
    holds("the address that the document lists is a link", is_so)
}

fn is_unknown(algorithm: &Algorithm) -> bool {
    matches!(algorithm, Algorithm::Unknown(_))
}

const ALGORITHMS: &str =
    "RS256 RS384 RS512 PS256 PS384 PS512 ES256 ES384 ES512 Ed25519 Ed448 HS256 HS384 HS512";

fn known(alloc: Global, name: &str) -> Result<Algorithm, AllocError> {
    Algorithm::new_unchecked(alloc, name)
}

fn unknown(alloc: Global, name: &str) -> Result<Algorithm, AllocError> {
    Ok(Algorithm::Unknown(Text::new(alloc, name)?))
}

// Whether the name is that of a known algorithm, and so is its copy's.
fn is_known(alloc: Global, name: &str) -> Result<bool, AllocError> {
    let algorithm = known(alloc, name)?;
    let copy = algorithm.copy(alloc)?;
    Ok(!is_unknown(&algorithm) && !is_unknown(&copy))
}

// Whether the unknown one of the name is copied so, and equal to the known one.
fn is_equal_unknown(alloc: Global, name: &str) -> Result<bool, AllocError> {
    let algorithm = unknown(alloc, name)?;
    let copy = algorithm.copy(alloc)?;
    Ok(is_unknown(&copy) && known(alloc, name)? == algorithm)
}

#[test]
fn algorithms(rt: HostRuntime) -> Result<(), Fail> {
    let alloc = rt.alloc();
    for name in ALGORITHMS.split(' ') {
        text_is(known(alloc, name)?.as_str(), name)?;
        let is_known = is_known(alloc, name)?;
        row_holds(name, "the algorithm is known, and so is its copy", is_known)?;
        let is_equal = is_equal_unknown(alloc, name)?;
        row_holds(name, "the unknown one is equal to it", is_equal)?;
    }
    let is_unknown = is_unknown(&known(alloc, "es256")?);
    holds("a name in other letters is unknown", is_unknown)?;
    let is_other = Algorithm::ES256 != Algorithm::ES384;
    holds("two algorithms differ", is_other)
}

fn classes(alloc: Global) -> Result<Data, AllocError> {
    let mut entries = List::new(alloc);
    entries.push(DataClassification::new(alloc, "inbound", "PII")?)?;
    Ok(Data::Classification(entries))
}

fn flows(alloc: Global) -> Result<Data, Fail> {
    let line = "<data|<dataflow|<classification flow=inbound|=PII|>classification|>dataflow|>data";
    denoted::<Data>(alloc, line, V5)
}

// Classifications and flows are two cases, equal where each flow has neither a name nor a description.
#[test]
fn classes_and_flows(rt: HostRuntime) -> Result<(), Fail> {
    let alloc = rt.alloc();
    let are_flows = matches!(flows(alloc)?, Data::ServiceData(_));
    holds("the document is read as flows", are_flows)?;
    let is_equal = classes(alloc)? == flows(alloc)?;
    holds("classifications are equal to their flows", is_equal)?;
    let is_equal = flows(alloc)?.copy(alloc)? == classes(alloc)?;
    holds(
        "the copy of flows is equal to their classifications",
        is_equal,
    )
}

// Whether the option has something to write, and what is written of it under a name.
fn option_named<T: ToInnerXml + Drop>(
    alloc: Global,
    held: Option<T>,
) -> Result<(bool, String), Fail> {
    let will_write = held.will_write();
    Ok((will_write, named(alloc, &held, V5, "n")?))
}

// What is there is written, whatever it holds.
#[test]
fn options(rt: HostRuntime) -> Result<(), Fail> {
    let alloc = rt.alloc();
    let hollow = held::<OrganizationalEntity>(alloc, r#"{"bom-ref":"e"}"#, V5)?;
    let (will_write, line) = option_named(alloc, Some(hollow))?;
    text_is(line.as_str(), "<n bom-ref=e|>n")?;
    holds("what is there has something to write", will_write)?;
    let (will_write, line) = option_named::<OrganizationalEntity>(alloc, None)?;
    text_is(line.as_str(), "")?;
    holds("what isn't there has nothing to write", !will_write)?;
    let signature: Option<Signature> = None;
    text_is(shown(alloc, &signature, V5)?.as_str(), "")
}

fn is_hollow<T: FromJson + Filled + Drop>(alloc: Global, text: &str) -> Result<bool, Fail> {
    Ok(held::<T>(alloc, text, V5)?.is_hollow())
}

#[test]
fn hollow(rt: HostRuntime) -> Result<(), Fail> {
    let alloc = rt.alloc();
    holds(
        "a source without members is hollow",
        is_hollow::<Source>(alloc, "{}")?,
    )?;
    holds(
        "a source with an empty address isn't hollow",
        !is_hollow::<Source>(alloc, r#"{"url":""}"#)?,
    )?;
    holds(
        "evidence without members is hollow",
        is_hollow::<ComponentEvidence>(alloc, "{}")?,
    )?;
    holds(
        "evidence with an empty list isn't hollow",
        !is_hollow::<ComponentEvidence>(alloc, r#"{"copyright":[]}"#)?,
    )
}
