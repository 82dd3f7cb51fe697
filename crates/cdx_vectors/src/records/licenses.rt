//! Licenses and signatures.

use crate::checks::{readings, records, values};
use cdx_license::{Expression, License, LicenseChoice, LicenseIdentifier, Licenses};
use cdx_signature::{Signature, Signer};
use std::test::Fail;

const EXPRESSION: &str = r#"
    1.5 reads,keeps {"bom-ref":"r","expression":"e"}
    // the reference as old documents spell it, and under both spellings
    1.5 reads,keeps {"expression":"e","bomRef":"r"} -> {"bom-ref":"r","expression":"e"}
    1.5 reads {"expression":"e","bom-ref":null,"bomRef":"r"} -> {"bom-ref":"r","expression":"e"}
    1.5 reads {"expression":"e","bom-ref":"r","bomRef":1} -> {"bom-ref":"r","expression":"e"}
    1.5 reads {"expression":"e","bom-ref":1,"bomRef":"r"} -> WrongKind /bom-ref
    1.5 reads {"expression":"e","bomRef":1} -> WrongKind /bomRef
"#;

const LICENSE: &str = r#"
    1.5 reads,keeps {"bom-ref":"r","id":"MIT","properties":[],"text":{"content":"c"},"url":"u"}
    // the reference as old documents spell it, and under both spellings
    1.5 reads,keeps {"id":"MIT","bomRef":"r"} -> {"bom-ref":"r","id":"MIT"}
    1.5 reads {"id":"MIT","bom-ref":null,"bomRef":"r"} -> {"bom-ref":"r","id":"MIT"}
    1.5 reads {"id":"MIT","bom-ref":"r","bomRef":1} -> {"bom-ref":"r","id":"MIT"}
    1.5 reads {"id":"MIT","bom-ref":1,"bomRef":"r"} -> WrongKind /bom-ref
    1.5 reads {"id":"MIT","bomRef":1} -> WrongKind /bomRef
    1.4 reads {"bom-ref":1,"bomRef":1,"id":"MIT"} -> {"id":"MIT"}
    1.5 reads,keeps {"name":"M"}
    1.5 reads {"name":"M","id":"MIT"} -> {"id":"MIT"}
    1.5 parses <license|<id|=MIT|>id|<name|=M|>name|>license -> unexpected 5 license StartElement
    1.5 parses <license|>license -> missing 2 license id or name
    1.5 differs {"id":"MIT"}
    1.5 differs {"id":"ISC"}
    1.5 differs {"name":"MIT"}
    1.5 differs {"id":"MIT","bom-ref":"a"}
    1.5 differs {"id":"MIT","text":{"content":"a"}}
    1.5 differs {"id":"MIT","url":"a"}
    1.5 differs {"id":"MIT","properties":[]}
"#;

const LICENSE_IDENTIFIER: &str = r#"
    1.5 reads,keeps {"id":"MIT"}
    1.5 reads,keeps {"name":"M"}
    1.5 reads {"id":null,"name":"M"} -> WrongKind /id
    1.5 parses <x|=MIT|>x -> missing 1 x id or name
    1.5 writes {"name":"Own"} -> <name|=Own|>name
"#;

const LICENSE_CHOICE: &str = r#"
    1.5 reads,keeps {"license":{"id":"MIT"}}
    1.5 reads,keeps {"expression":"e"}
    1.5 reads {"license":{"id":"MIT"},"note":1} -> Missing /expression
    1.5 reads {"license":{"url":"u"}} -> Missing /license/id
    1.5 parses <x|=MIT|>x -> missing 1 x license or expression
    1.5 differs {"expression":"MIT"}
    1.5 differs {"license":{"id":"MIT"}}
"#;

const LICENSES: &str = r#"
    1.5 reads,keeps [{"license":{"id":"MIT"}},{"expression":"e"}]
    1.5 parses <licenses|<license|<id|=MIT|>id|<text|=t|>text|>license|<expression|=MIT|>expression|>licenses -> [{"license":{"id":"MIT","text":{"content":"t"}}},{"expression":"MIT"}]
    // a license has a reference and properties from 1.5 on
    1.4 writes [{"license":{"bom-ref":"l","id":"MIT","properties":[{"name":"k","value":""}],"text":{"content":"t"},"url":"u"}},{"bom-ref":"x","expression":"MIT OR Zlib"}] -> <licenses|<license|<id|=MIT|>id|<text|=t|>text|<url|=u|>url|>license|<expression bom-ref=x|=MIT OR Zlib|>expression|>licenses
    1.5 writes [{"license":{"bom-ref":"l","id":"MIT","properties":[{"name":"k","value":""}],"text":{"content":"t"},"url":"u"}},{"bom-ref":"x","expression":"MIT OR Zlib"}] -> <licenses|<license bom-ref=l|<id|=MIT|>id|<text|=t|>text|<url|=u|>url|<properties|<property name=k|=|>property|>properties|>license|<expression bom-ref=x|=MIT OR Zlib|>expression|>licenses
    1.5 differs []
    1.5 differs [{"expression":"MIT"}]
"#;

const SIGNER: &str = r#"
    1.5 reads,keeps {"algorithm":"ES256","value":"a"}
    1.5 parses <signature|<algorithm|=ES256|>algorithm|<value|=abc|>value|>signature -> {"algorithm":"ES256","value":"abc"}
    1.5 writes {"algorithm":"ES256","value":"s"} -> <algorithm|=ES256|>algorithm|<value|=s|>value
    1.5 differs {"algorithm":"XY1","value":"v"}
    1.5 differs {"algorithm":"ES256","value":"v"}
    1.5 differs {"algorithm":"ES384","value":"v"}
    1.5 differs {"algorithm":"ES256","value":"x"}
"#;

const SIGNATURE: &str = r#"
    1.5 reads,keeps {"chain":[{"algorithm":"ES256","value":"a"}]}
    1.5 reads,keeps {"algorithm":"ES256","value":"a"}
    1.5 reads {"chain":[{"algorithm":"ES256","value":"a"}],"signers":null} -> {"chain":[{"algorithm":"ES256","value":"a"}]}
    1.5 reads [] -> {"signers":[]}
    1.5 reads {"algorithm":"ES256"} -> Missing /value
    1.5 parses <signature|<algorithm|=ES256|>algorithm|<value|=abc|>value|>signature -> {"algorithm":"ES256","value":"abc"}
    // the list of signers that stands last counts
    1.5 parses <signature|<signers|>signers|<chain|<chain|<value|>value|<algorithm|=XY1|>algorithm|>chain|>chain|>signature -> {"chain":[{"algorithm":"XY1","value":""}]}
    1.5 parses <signature|<value|=abc|>value|>signature -> missing 5 signature algorithm
    1.5 parses <signature|<note|>note|>signature -> unexpected 2 signature StartElement
    1.5 writes {"algorithm":"ES256","value":"s"} -> <signature|<algorithm|=ES256|>algorithm|<value|=s|>value|>signature
    1.5 writes {"signers":[{"algorithm":"own","value":"t"}]} -> <signature|<signers|<signer|<algorithm|=own|>algorithm|<value|=t|>value|>signer|>signers|>signature
    1.5 writes {"chain":[{"algorithm":"own","value":"t"}]} -> <signature|<chain|<chain|<algorithm|=own|>algorithm|<value|=t|>value|>chain|>chain|>signature
    1.5 differs {"algorithm":"ES256","value":"v"}
    1.5 differs {"chain":[{"algorithm":"ES256","value":"v"}]}
    1.5 differs {"signers":[{"algorithm":"ES256","value":"v"}]}
    1.5 differs {"chain":[{"algorithm":"ES256","value":"x"}]}
    1.5 differs {"chain":[]}
    1.5 differs {"signers":[]}
"#;

#[test]
fn licenses_and_signatures(rt: HostRuntime) -> Result<(), Fail> {
    let alloc = rt.alloc();
    values::<Expression>(alloc, EXPRESSION)?;
    readings::<License>(alloc, LICENSE)?;
    records::<LicenseIdentifier>(alloc, LICENSE_IDENTIFIER)?;
    records::<LicenseChoice>(alloc, LICENSE_CHOICE)?;
    records::<Licenses>(alloc, LICENSES)?;
    records::<Signer>(alloc, SIGNER)?;
    records::<Signature>(alloc, SIGNATURE)
}
