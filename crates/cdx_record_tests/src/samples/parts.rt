//! The leaf records of components, and the data of services.

use crate::calls::{in_json, lone, record};
use cdx_component_parts::{ComponentEvidence, Copyright, CopyrightTexts, Cpe, MimeType, Swid};
use cdx_service_data::{Data, DataClassification, ServiceData};
use std::test::Fail;

const SWID: &str =
    r#"{"name":"n","patch":true,"tagId":"t","tagVersion":7,"text":{"content":"c"},"url":"u","version":"1"} -> <swid tagId=t name=n version=1 tagVersion=7 patch=true|<text|=c|>text|<url|=u|>url|>swid"#;

#[test]
fn names_and_tags(rt: HostRuntime) -> Result<(), Fail> {
    let alloc = rt.alloc();
    in_json::<MimeType>(alloc, r#""text/plain""#)?;
    lone::<MimeType>(alloc, r#""text/plain" -> text/plain"#)?;
    lone::<Cpe>(alloc, r#""cpe:/a:b" -> cpe:/a:b"#)?;
    record::<Cpe>(alloc, r#""cpe:/a:b" -> <cpe|=cpe:/a:b|>cpe"#)?;
    record::<Swid>(alloc, SWID)
}

const EVIDENCE: &str =
    r#"{"copyright":[{"text":"c"}],"licenses":[{"expression":"X"}]} -> <evidence|<licenses|<expression|=X|>expression|>licenses|<copyright|<text|!c|>text|>copyright|>evidence"#;

const COPYRIGHT: &str = r#"{"text":"c"} -> <text|!c|>text"#;

const COPYRIGHT_TEXTS: &str = r#"[{"text":"c"}] -> <copyright|<text|!c|>text|>copyright"#;

#[test]
fn evidence(rt: HostRuntime) -> Result<(), Fail> {
    let alloc = rt.alloc();
    record::<ComponentEvidence>(alloc, EVIDENCE)?;
    record::<Copyright>(alloc, COPYRIGHT)?;
    record::<CopyrightTexts>(alloc, COPYRIGHT_TEXTS)
}

const CLASSIFICATION: &str =
    r#"{"classification":"PII","flow":"inbound"} -> <classification flow=inbound|=PII|>classification"#;

const FLOW: &str =
    r#"{"classification":"c","description":"d","flow":"f","name":"n"} -> <dataflow name=n description=d|<classification flow=f|=c|>classification|>dataflow"#;

// By itself a service's data has no element of its own.
const DATA: &str =
    r#"[{"classification":"c","flow":"f","name":"n"}] -> <dataflow name=n|<classification flow=f|=c|>classification|>dataflow -> <data|<dataflow name=n|<classification flow=f|=c|>classification|>dataflow|>data"#;

#[test]
fn data(rt: HostRuntime) -> Result<(), Fail> {
    let alloc = rt.alloc();
    record::<DataClassification>(alloc, CLASSIFICATION)?;
    record::<ServiceData>(alloc, FLOW)?;
    record::<Data>(alloc, DATA)
}
