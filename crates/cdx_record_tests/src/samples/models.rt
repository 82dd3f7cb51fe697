//! Texts, booleans and numbers, and the records that stand in many others.

use crate::calls::{in_both, in_json, lone, named, record};
use cdx_events::Text;
use cdx_models::{
    AttachedText, ExternalReference, ExternalReferences, Hash, HashValue, Hashes,
    OrganizationalContact, OrganizationalEntity, Properties, Property, Tool, Uri, UrnUuid,
};
use cdx_test_cases::checks::text_is;
use cdx_test_cases::forms::{V5, spelled};
use std::test::Fail;

#[test]
fn texts_booleans_and_numbers(rt: HostRuntime) -> Result<(), Fail> {
    let alloc = rt.alloc();
    in_both::<Text>(alloc, r#""x" -> <n|=x|>n"#)?;
    in_both::<bool>(alloc, "true -> <n|=true|>n")?;
    in_both::<bool>(alloc, "false -> <n|=0|>n")?;
    in_both::<u32>(alloc, "7 -> <n|= 7 |>n")?;
    let text = spelled::<Text>(alloc, r#""x""#, V5, "n")?;
    text_is(text.as_str(), "<n|=x|>n")?;
    let is_so = spelled::<bool>(alloc, "false", V5, "n")?;
    text_is(is_so.as_str(), "<n|=false|>n")
}

#[test]
fn values_that_are_one_text(rt: HostRuntime) -> Result<(), Fail> {
    let alloc = rt.alloc();
    in_json::<UrnUuid>(alloc, r#""u""#)?;
    in_json::<Uri>(alloc, r#""urn:cdx:x""#)?;
    in_json::<HashValue>(alloc, r#""ab""#)?;
    lone::<Text>(alloc, r#""x" -> x"#)?;
    lone::<bool>(alloc, "true -> true")?;
    lone::<u32>(alloc, "7 -> 7")?;
    lone::<UrnUuid>(alloc, r#""u" -> u"#)?;
    lone::<Uri>(alloc, r#""urn:cdx:x" -> urn:cdx:x"#)?;
    let uri = spelled::<Uri>(alloc, r#""u""#, V5, "n")?;
    text_is(uri.as_str(), "<n|=u|>n")
}

const ATTACHED_TEXT: &str =
    r#"{"content":"c","contentType":"t","encoding":"base64"} -> <n content-type=t encoding=base64|=c|>n"#;

const HASH: &str = r#"{"alg":"MD5","content":"ab"} -> <hash alg=MD5|=ab|>hash"#;

const HASHES: &str = r#"[{"alg":"MD5","content":"ab"}] -> <hashes|<hash alg=MD5|=ab|>hash|>hashes"#;

const PROPERTY: &str = r#"{"name":"n","value":"v"} -> <property name=n|=v|>property"#;

const PROPERTIES: &str =
    r#"[{"name":"n","value":"v"}] -> <properties|<property name=n|=v|>property|>properties"#;

#[test]
fn texts_hashes_and_properties(rt: HostRuntime) -> Result<(), Fail> {
    let alloc = rt.alloc();
    named::<AttachedText>(alloc, ATTACHED_TEXT)?;
    record::<Hash>(alloc, HASH)?;
    record::<Hashes>(alloc, HASHES)?;
    record::<Property>(alloc, PROPERTY)?;
    record::<Properties>(alloc, PROPERTIES)
}

const CONTACT: &str =
    r#"{"bom-ref":"r","email":"e","name":"n","phone":"p"} -> <n bom-ref=r|<name|=n|>name|<email|=e|>email|<phone|=p|>phone|>n"#;

const ENTITY: &str =
    r#"{"bom-ref":"r","contact":[{"name":"c"}],"name":"n","url":["u"]} -> <n bom-ref=r|<name|=n|>name|<url|=u|>url|<contact|<name|=c|>name|>contact|>n"#;

const REFERENCE: &str =
    r#"{"comment":"c","hashes":[],"type":"vcs","url":"u"} -> <reference type=vcs|<url|=u|>url|<comment|=c|>comment|<hashes|>hashes|>reference"#;

const REFERENCES: &str =
    r#"[{"type":"vcs","url":"u"}] -> <externalReferences|<reference type=vcs|<url|=u|>url|>reference|>externalReferences"#;

const TOOL: &str =
    r#"{"externalReferences":[],"hashes":[],"name":"n","vendor":"v","version":"1"} -> <tool|<vendor|=v|>vendor|<name|=n|>name|<version|=1|>version|<hashes|>hashes|<externalReferences|>externalReferences|>tool"#;

#[test]
fn organizations_references_and_tools(rt: HostRuntime) -> Result<(), Fail> {
    let alloc = rt.alloc();
    named::<OrganizationalContact>(alloc, CONTACT)?;
    named::<OrganizationalEntity>(alloc, ENTITY)?;
    record::<ExternalReference>(alloc, REFERENCE)?;
    record::<ExternalReferences>(alloc, REFERENCES)?;
    record::<Tool>(alloc, TOOL)
}
