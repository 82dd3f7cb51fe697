//! Which variant stands in a value that is read, copied or kept. Trees don't tell it, so no contract does.
//!
//! A row is `versions words given -> variant`, where each of the versions does each of the words with what is given, a JSON
//! text or a document of one element:
//! - `reads`: what the text denotes in the version, its copy, and what the version keeps of it;
//! - `parses`: what the document denotes in the version, its copy, and what the version keeps of it;
//! - `keeps`: what the version keeps of what the text denotes in 1.5.

use cdx_events::List;
use cdx_json::{FromJson, Kept};
use cdx_leaf::FromXml;
use cdx_models::{ExternalReference, SpecVersion, Uri};
use cdx_service_data::Data;
use cdx_signature::{Algorithm, Signature, Signer};
use cdx_test_cases::checks::row_is;
use cdx_test_cases::forms::{V5, denoted, held};
use cdx_test_cases::rows::{Case, cases};
use std::alloc::Global;
use std::test::Fail;

/// A value in which one of several variants stands.
trait Varied {
    /// The variant's name.
    fn variant(&self) -> &'static str;
}

impl Varied for Signer {
    fn variant(&self) -> &'static str {
        match self.algorithm {
            Algorithm::ES256 => "ES256",
            Algorithm::HS512 => "HS512",
            Algorithm::Unknown(_) => "unknown",
            _ => "another",
        }
    }
}

// The variant of the only signer.
fn of_only(signers: &List<Signer>) -> &'static str {
    match signers.as_slice() {
        [signer] => signer.variant(),
        _ => "not one",
    }
}

impl Varied for Signature {
    fn variant(&self) -> &'static str {
        match self {
            Signature::Single(signer) => signer.variant(),
            Signature::Chain(signers) => of_only(signers),
            Signature::Signers(signers) => of_only(signers),
        }
    }
}

impl Varied for ExternalReference {
    fn variant(&self) -> &'static str {
        match self.url {
            Uri::Url(_) => "address",
            Uri::BomLink(_) => "link",
        }
    }
}

impl Varied for Data {
    fn variant(&self) -> &'static str {
        match self {
            Data::Classification(_) => "classifications",
            Data::ServiceData(_) => "flows",
        }
    }
}

// The variant of the value, where its copy and what the version keeps have the same.
fn settled<T: Kept + Varied + Drop>(
    alloc: Global,
    held: &T,
    version: SpecVersion,
) -> Result<&'static str, Fail> {
    let variant = held.variant();
    if held.copy(alloc)?.variant() != variant {
        return Ok("another in a copy");
    }
    if held.kept(alloc, version)?.variant() != variant {
        return Ok("another where it is kept");
    }
    Ok(variant)
}

fn found<T: FromJson + Kept + FromXml + Varied>(
    alloc: Global,
    case: &Case<'_>,
) -> Result<&'static str, Fail> {
    let v = case.version;
    match case.word {
        "reads" => settled(alloc, &held::<T>(alloc, case.given, v)?, v),
        "parses" => settled(alloc, &denoted::<T>(alloc, case.given, v)?, v),
        "keeps" => Ok(held::<T>(alloc, case.given, V5)?.kept(alloc, v)?.variant()),
        _ => Err(Fail::new("a row has a word that this check doesn't know")),
    }
}

fn variants<T: FromJson + Kept + FromXml + Varied>(alloc: Global, rows: &str) -> Result<(), Fail> {
    for case in &cases(alloc, rows)? {
        row_is(case.line, found::<T>(alloc, case)?, case.answer)?;
    }
    Ok(())
}

const SIGNATURES: &str = r#"
    1.3,1.4,1.5 reads,keeps {"algorithm":"ES256","value":"a"} -> ES256
    1.3,1.4,1.5 reads,keeps {"chain":[{"algorithm":"ES256","value":"a"}]} -> ES256
    1.3,1.4,1.5 reads,keeps {"signers":[{"algorithm":"HS512","value":"a"}]} -> HS512
    1.3,1.4,1.5 reads,keeps [{"algorithm":"ES256","value":"a"}] -> ES256
    1.3,1.4,1.5 reads,keeps {"algorithm":"es256","value":"a"} -> unknown
    1.3,1.4,1.5 reads,keeps {"chain":[{"algorithm":"XY1","value":"a"}]} -> unknown
    1.3,1.4,1.5 parses <signature|<algorithm|=ES256|>algorithm|<value|=a|>value|>signature -> ES256
    1.3,1.4,1.5 parses <signature|<chain|<chain|<algorithm|=ES256|>algorithm|<value|=a|>value|>chain|>chain|>signature -> ES256
    1.3,1.4,1.5 parses <signature|<signers|<signer|<algorithm|=HS512|>algorithm|<value|=a|>value|>signer|>signers|>signature -> HS512
    1.3,1.4,1.5 parses <signature|<algorithm|=XY1|>algorithm|<value|=a|>value|>signature -> unknown
"#;

const SIGNERS: &str = r#"
    1.5 reads,keeps {"algorithm":"ES256","value":"a"} -> ES256
    1.5 reads,keeps {"algorithm":"XY1","value":"a"} -> unknown
    1.5 parses <signer|<algorithm|=ES256|>algorithm|<value|=a|>value|>signer -> ES256
"#;

#[test]
fn algorithms(rt: HostRuntime) -> Result<(), Fail> {
    variants::<Signature>(rt.alloc(), SIGNATURES)?;
    variants::<Signer>(rt.alloc(), SIGNERS)
}

const REFERENCES: &str = r#"
    1.3,1.4,1.5 reads,keeps {"type":"t","url":"urn:cdx:x"} -> link
    1.3,1.4,1.5 reads,keeps {"type":"t","url":"u"} -> address
    1.3,1.4,1.5 parses <reference type=t|<url|=urn:cdx:x|>url|>reference -> link
    1.3,1.4,1.5 parses <reference type=t|<url|=u|>url|>reference -> address
"#;

// An address is a link to a bill where it begins with `urn:cdx:`.
#[test]
fn addresses(rt: HostRuntime) -> Result<(), Fail> {
    variants::<ExternalReference>(rt.alloc(), REFERENCES)
}

// Only 1.5 knows flows. In JSON it reads each item as one, and in XML a `dataflow` alone.
const DATA: &str = r#"
    1.5 reads [{"classification":"PII","flow":"inbound"}] -> flows
    1.3,1.4 reads [{"classification":"PII","flow":"inbound"}] -> classifications
    1.5 keeps [{"classification":"PII","flow":"inbound","name":"n"}] -> flows
    1.3,1.4 keeps [{"classification":"PII","flow":"inbound","name":"n"}] -> classifications
    1.3,1.4,1.5 parses <data|<classification flow=inbound|=PII|>classification|>data -> classifications
    1.3,1.4 parses <data|<dataflow|<classification flow=f|=c|>classification|>dataflow|>data -> classifications
    1.5 parses <data|<dataflow|<classification flow=f|=c|>classification|>dataflow|>data -> flows
"#;

#[test]
fn data(rt: HostRuntime) -> Result<(), Fail> {
    variants::<Data>(rt.alloc(), DATA)
}
