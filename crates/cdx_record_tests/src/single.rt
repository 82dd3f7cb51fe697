//! Single elements and values, each read by a call of its own record.

use cdx_component_parts::ComponentEvidence;
use cdx_json::{FromJson, ToJson};
use cdx_leaf::FromXml;
use cdx_license::{License, LicenseChoice};
use cdx_models::{Hashes, OrganizationalEntity, SpecVersion};
use cdx_nest::{Component, Tools};
use cdx_relations::Dependencies;
use cdx_service_data::Data;
use cdx_signature::Signature;
use cdx_test_cases::checks::{holds, row_is};
use cdx_test_cases::forms::{V4, V5, again, denoted, read};
use cdx_test_cases::rows::row;
use cdx_write::ToXml;
use std::alloc::Global;
use std::test::Fail;

// The element denotes what stands after the arrow, in JSON, or has that fault.
fn reads<T: FromXml + ToJson>(alloc: Global, version: SpecVersion, rows: &str) -> Result<(), Fail> {
    for line in rows.lines() {
        if let Some((element, wanted)) = row(line) {
            row_is(line, read::<T>(alloc, element, version)?.as_str(), wanted)?;
        }
    }
    Ok(())
}

// The text denotes what stands after the arrow, or has that fault.
fn takes<T: FromJson + ToJson + Drop>(
    alloc: Global,
    version: SpecVersion,
    rows: &str,
) -> Result<(), Fail> {
    for line in rows.lines() {
        if let Some((text, wanted)) = row(line) {
            row_is(line, again::<T>(alloc, text, version)?.as_str(), wanted)?;
        }
    }
    Ok(())
}

const HASHES: &str = r#"
    <hashes|<hash alg=algorithm|=hash value|>hash|>hashes -> [{"alg":"algorithm","content":"hash value"}]
    <hashes|>hashes -> []
"#;

const DEPENDENCIES: &str = r#"
    <dependencies|<dependency ref=dependency|>dependency|>dependencies -> [{"ref":"dependency"}]
"#;

const SUPPLIER: &str = r#"
    <supplier|<url|=a|>url|<url|=b|>url|>supplier -> {"url":["a","b"]}
"#;

const SIGNATURES: &str = r#"
    <signature|<value|=abc|>value|>signature -> missing 5 signature algorithm
    <signature|<note|>note|>signature -> unexpected 2 signature StartElement
"#;

const LICENSES: &str = r#"
    <license|<id|=MIT|>id|<name|=M|>name|>license -> unexpected 5 license StartElement
    <license|>license -> missing 2 license id or name
"#;

#[test]
fn leaf_elements(rt: HostRuntime) -> Result<(), Fail> {
    let alloc = rt.alloc();
    reads::<Hashes>(alloc, V5, HASHES)?;
    reads::<Dependencies>(alloc, V5, DEPENDENCIES)?;
    reads::<OrganizationalEntity>(alloc, V5, SUPPLIER)?;
    reads::<Signature>(alloc, V5, SIGNATURES)?;
    reads::<License>(alloc, V5, LICENSES)
}

const COMPONENT: &str = r#"
    <component type=library|=x|>component -> unexpected 2 component Characters
"#;

const TOOLS: &str = r#"
    <tools|<tool|>tool|<components|>components|>tools -> missing 6 tools tool array or services & components
"#;

const OLD_TOOLS: &str = r#"
    <tools|<tool|>tool|<components|>components|>tools -> unexpected 4 tools StartElement
"#;

#[test]
fn nested_elements(rt: HostRuntime) -> Result<(), Fail> {
    let alloc = rt.alloc();
    reads::<Component>(alloc, V5, COMPONENT)?;
    reads::<Tools>(alloc, V5, TOOLS)?;
    reads::<Tools>(alloc, V4, OLD_TOOLS)
}

// Texts and unknown elements are passed over, and what they hold.
#[test]
fn evidence_of_nothing(rt: HostRuntime) -> Result<(), Fail> {
    let alloc = rt.alloc();
    let line = "<evidence|=t|<note|<licenses|>licenses|>note|>evidence";
    let evidence = denoted::<ComponentEvidence>(alloc, line, V5)?;
    holds(
        "evidence holds neither licenses nor copyright",
        evidence.licenses.is_none() && evidence.copyright.is_none(),
    )?;
    holds(
        "evidence of nothing has nothing to write",
        !evidence.will_write(),
    )
}

const CHOICES: &str = r#"
    {"license":{"id":"MIT"},"note":1} -> Missing /expression
    {"license":{"name":"M","id":"MIT"}} -> {"license":{"id":"MIT"}}
"#;

// The members of a flow's classification stand in the flow's own object, and nowhere else.
const DATA: &str = r#"
    [{"name":1}] -> WrongKind /0/name
    [{"classification":{"classification":"c","flow":"f"}}] -> Missing /0/flow
    [{"classification":"c","flow":"f"},{"classification":"d","flow":"g","name":"n"}]
"#;

const OLD_DATA: &str = r#"
    [{"classification":"c","flow":"f"},{"classification":"d","flow":"g","name":"n"}] -> [{"classification":"c","flow":"f"},{"classification":"d","flow":"g"}]
"#;

#[test]
fn values(rt: HostRuntime) -> Result<(), Fail> {
    let alloc = rt.alloc();
    takes::<LicenseChoice>(alloc, V5, CHOICES)?;
    takes::<Data>(alloc, V5, DATA)?;
    takes::<Data>(alloc, V4, OLD_DATA)
}
