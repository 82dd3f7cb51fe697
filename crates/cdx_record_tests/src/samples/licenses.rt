//! Licenses and signatures.

use crate::calls::{in_json, lone, record};
use cdx_license::{Expression, License, LicenseChoice, LicenseIdentifier, Licenses};
use cdx_signature::{Algorithm, Signature, Signer};
use std::test::Fail;

const EXPRESSION: &str =
    r#"{"bom-ref":"r","expression":"MIT"} -> <expression bom-ref=r|=MIT|>expression"#;

const LICENSE: &str =
    r#"{"bom-ref":"r","id":"MIT","properties":[],"text":{"content":"c"},"url":"u"} -> <license bom-ref=r|<id|=MIT|>id|<text|=c|>text|<url|=u|>url|<properties|>properties|>license"#;

const LICENSES: &str =
    r#"[{"license":{"id":"MIT"}},{"expression":"e"}] -> <licenses|<license|<id|=MIT|>id|>license|<expression|=e|>expression|>licenses"#;

#[test]
fn licenses(rt: HostRuntime) -> Result<(), Fail> {
    let alloc = rt.alloc();
    record::<Expression>(alloc, EXPRESSION)?;
    record::<License>(alloc, LICENSE)?;
    record::<Licenses>(alloc, LICENSES)
}

const CHOSEN_LICENSE: &str = r#"{"license":{"id":"MIT"}} -> <license|<id|=MIT|>id|>license"#;

const CHOSEN_EXPRESSION: &str = r#"{"expression":"MIT"} -> <expression|=MIT|>expression"#;

// A value of each case.
#[test]
fn license_choices(rt: HostRuntime) -> Result<(), Fail> {
    let alloc = rt.alloc();
    record::<LicenseIdentifier>(alloc, r#"{"id":"MIT"} -> <id|=MIT|>id"#)?;
    record::<LicenseIdentifier>(alloc, r#"{"name":"M"} -> <name|=M|>name"#)?;
    record::<LicenseChoice>(alloc, CHOSEN_LICENSE)?;
    record::<LicenseChoice>(alloc, CHOSEN_EXPRESSION)
}

// By itself a signer has no element of its own.
const SIGNER: &str =
    r#"{"algorithm":"ES256","value":"v"} -> <algorithm|=ES256|>algorithm|<value|=v|>value -> <n|<algorithm|=ES256|>algorithm|<value|=v|>value|>n"#;

const SINGLE: &str =
    r#"{"algorithm":"ES256","value":"v"} -> <signature|<algorithm|=ES256|>algorithm|<value|=v|>value|>signature"#;

const CHAIN: &str =
    r#"{"chain":[{"algorithm":"ES256","value":"v"}]} -> <signature|<chain|<chain|<algorithm|=ES256|>algorithm|<value|=v|>value|>chain|>chain|>signature"#;

const SIGNERS: &str =
    r#"{"signers":[{"algorithm":"own","value":"v"}]} -> <signature|<signers|<signer|<algorithm|=own|>algorithm|<value|=v|>value|>signer|>signers|>signature"#;

#[test]
fn signatures(rt: HostRuntime) -> Result<(), Fail> {
    let alloc = rt.alloc();
    in_json::<Algorithm>(alloc, r#""ES256""#)?;
    in_json::<Algorithm>(alloc, r#""own""#)?;
    lone::<Algorithm>(alloc, r#""ES256" -> ES256"#)?;
    record::<Signer>(alloc, SIGNER)?;
    record::<Signature>(alloc, SINGLE)?;
    record::<Signature>(alloc, CHAIN)?;
    record::<Signature>(alloc, SIGNERS)
}
