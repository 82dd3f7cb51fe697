//! Tags and evidence, which no version changes, and the data of services.

use crate::checks::{records, values};
use cdx_component_parts::{ComponentEvidence, Copyright, CopyrightTexts, Cpe, MimeType, Swid};
use cdx_service_data::{Data, DataClassification, ServiceData};
use std::test::Fail;

const SWID: &str = r#"
    1.3,1.4,1.5 reads,keeps {"name":"n","patch":true,"tagId":"t","tagVersion":4294967295,"text":{"content":"c"},"url":"u","version":"1"}
    1.3,1.4,1.5 reads,keeps {"name":"n","tagId":"t"}
    1.4 reads {"name":"n","tagId":"t","tagVersion":4294967296} -> OutOfRange /tagVersion
    1.4 reads {} -> Missing /tagId
    1.4 reads {"tagId":"t"} -> Missing /name
    1.5 parses <swid tagId=t name=n version=1 tagVersion=+007 patch=1|<note|=x|>note|<text|=c|>text|<url|=u|>url|>swid -> {"name":"n","patch":true,"tagId":"t","tagVersion":7,"text":{"content":"c"},"url":"u","version":"1"}
    1.5 parses <swid tagId=t name=n|<text|=|>text|>swid -> {"name":"n","tagId":"t","text":{"content":""}}
    1.5 parses <swid tagId=t name=n|<text|>text|>swid -> unexpected 3 text EndElement
    1.5 parses <swid tagId=t name=n|=x|>swid -> unexpected 2 swid Characters
    1.5 parses <swid name=n patch=no|>swid -> missing 1 swid tagId
    1.5 parses <swid tagId=t patch=no|>swid -> missing 1 swid name
    1.5 parses <swid tagId=t name=n tagVersion=4294967296|=x|>swid -> parse 1 tagVersion 4294967296 xs:integer
    1.5 parses <swid tagId=t name=n patch=TRUE|>swid -> parse 1 patch TRUE xs:boolean
    1.3,1.4,1.5 rewrites,places <swid tagId=t name=n version=1 tagVersion=7 patch=true|<text encoding=base64|=c|>text|<url|=u|>url|>swid
    1.3,1.4,1.5 rewrites,places <swid tagId=t name=n patch=false|>swid
    1.5 differs {"tagId":"t","name":"n"}
    1.5 differs {"tagId":"t","name":"n","patch":false}
    1.5 differs {"tagId":"t","name":"n","tagVersion":0}
"#;

const CPE: &str = r#"
    1.3,1.4,1.5 reads,keeps "cpe:/a:acme"
    1.4 reads 1 -> WrongKind
    1.5 parses <cpe|=a|>cpe -> "a"
    1.3,1.4,1.5 rewrites,places <cpe|=a|>cpe
    1.5 fills "" -> written
    1.5 differs "a"
    1.5 differs "b"
"#;

const MIME_TYPE: &str = r#"
    1.3,1.4,1.5 reads,keeps "text/plain"
"#;

const COMPONENT_EVIDENCE: &str = r#"
    1.3,1.4,1.5 reads,keeps {"copyright":[{"text":"c"}],"licenses":[{"expression":"X"}]}
    1.3,1.4,1.5 reads,keeps {}
    1.4 reads {"copyright":[{}]} -> Missing /copyright/0/text
    1.5 parses <evidence|<note|<licenses|<expression|=X|>expression|>licenses|>note|<copyright|<text|=c|>text|>copyright|>evidence -> {"copyright":[{"text":"c"}]}
    1.5 parses <evidence|=words|<note|>note|!more|>evidence -> {}
    1.5 parses <evidence|<licenses|<expression|=X|>expression|>licenses|<copyright|>copyright|>evidence -> {"copyright":[],"licenses":[{"expression":"X"}]}
    1.3,1.4,1.5 rewrites,places <evidence|<licenses|<expression|=X|>expression|>licenses|<copyright|<text|!c|>text|>copyright|>evidence
    1.3,1.4,1.5 rewrites,places <evidence|>evidence
    1.5 fills {} -> passed over
    1.5 fills {"copyright":[]} -> written
    1.5 differs {}
    1.5 differs {"licenses":[]}
    1.5 differs {"copyright":[]}
"#;

const COPYRIGHT: &str = r#"
    1.3,1.4,1.5 reads,keeps {"text":"c"}
    1.5 parses <text|=c|=d|>text -> unexpected 3 text Characters
    1.3,1.4,1.5 rewrites,places <text|!c|>text
"#;

const COPYRIGHT_TEXTS: &str = r#"
    1.3,1.4,1.5 reads,keeps []
    1.3,1.4,1.5 reads,keeps [{"text":""}]
    1.5 parses <copyright|<text|!a|>text|<text|>text|>copyright -> [{"text":"a"},{"text":""}]
    1.5 parses <copyright|<note|>note|>copyright -> unexpected 2 copyright StartElement
    1.3,1.4,1.5 rewrites,places <copyright|<text|!|>text|<text|!c|>text|>copyright
"#;

const DATA_CLASSIFICATION: &str = r#"
    1.3,1.4,1.5 reads,keeps {"classification":"PII","flow":"inbound"}
    1.5 parses <classification flow=f|>classification -> {"classification":"","flow":"f"}
    1.5 parses <classification|=c|>classification -> missing 1 classification flow
    1.3,1.4,1.5 rewrites,places <classification flow=f|=|>classification
"#;

const SERVICE_DATA: &str = r#"
    1.3,1.4,1.5 reads,keeps {"classification":"PII","description":"d","flow":"inbound","name":"n"}
    1.3,1.4,1.5 reads,keeps {"classification":"PII","flow":"inbound"}
    1.4 reads {"flow":"f","name":1} -> WrongKind /name
    1.5 parses <dataflow name=n description=d|<note|>note|<classification flow=f|=c|>classification|>dataflow -> {"classification":"c","description":"d","flow":"f","name":"n"}
    1.5 parses <dataflow name=n|>dataflow -> missing 2 dataflow classification
    1.5 parses <dataflow|=x|>dataflow -> unexpected 2 dataflow Characters
    1.3,1.4,1.5 rewrites,places <dataflow name=n description=d|<classification flow=f|=c|>classification|>dataflow
    1.3,1.4,1.5 rewrites,places <dataflow|<classification flow=f|=c|>classification|>dataflow
    // a flow without a name and a description counts as its classification
    1.5 differs {"flow":"inbound","classification":"PII"}
    1.5 differs {"flow":"inbound","classification":"public"}
    1.5 differs {"flow":"inbound","classification":"PII","name":"n"}
"#;

const DATA: &str = r#"
    1.3,1.4,1.5 reads,keeps []
    1.3,1.4,1.5 reads,keeps [{"classification":"public","flow":"outbound"},{"classification":"x","flow":"unknown"}]
    // only 1.5 reads and keeps flows; before, each is its classification
    1.3,1.4 reads,keeps [{"classification":"public","flow":"outbound","name":"n"},{"classification":"x","flow":"unknown"}] -> [{"classification":"public","flow":"outbound"},{"classification":"x","flow":"unknown"}]
    1.3,1.4,1.5 reads {} -> WrongKind
    1.3,1.4,1.5 reads [1] -> WrongKind /0
    1.3,1.4,1.5 reads [{}] -> Missing /0/flow
    1.3,1.4,1.5 reads [{"classification":null,"flow":"f"}] -> WrongKind /0/classification
    1.3,1.4 reads [{"classification":"c","flow":"f"},{"flow":"f","name":1}] -> Missing /1/classification
    1.5 reads,keeps [{"classification":"public","flow":"outbound","name":"n"},{"classification":"x","flow":"unknown"}]
    1.5 reads [{"classification":"c","flow":"f"},{"flow":"f","name":1}] -> WrongKind /1/name
    // a flow hides the classifications, which are read all the same; before 1.5 there is none
    1.4,1.5 parses <data|<dataflow|<classification flow=f|=c|>classification|>dataflow|<classification|>classification|>data -> missing 7 classification flow
    1.4,1.5 parses <data|<note|>note|>data -> []
    1.4 parses <data|<classification flow=inbound|=PII|>classification|<dataflow name=n|<classification flow=outbound|=public|>classification|>dataflow|<classification flow=unknown|=x|>classification|>data -> [{"classification":"PII","flow":"inbound"},{"classification":"x","flow":"unknown"}]
    1.4 parses <data|=words|<dataflow|<classification flow=f|=c|>classification|>dataflow|>data -> []
    1.5 parses <data|<classification flow=inbound|=PII|>classification|<dataflow name=n|<classification flow=outbound|=public|>classification|>dataflow|<classification flow=unknown|=x|>classification|>data -> [{"classification":"public","flow":"outbound","name":"n"}]
    1.5 parses <data|=words|<dataflow|<classification flow=f|=c|>classification|>dataflow|>data -> [{"classification":"c","flow":"f"}]
    // by itself a service's data has no element of its own
    1.3,1.4 writes [{"classification":"c","flow":"f","name":"n"},{"classification":"d","flow":"g"}] -> <classification flow=f|=c|>classification|<classification flow=g|=d|>classification
    1.3,1.4,1.5 writes [] ->
    1.5 writes [{"classification":"c","flow":"f","name":"n"},{"classification":"d","flow":"g"}] -> <dataflow name=n|<classification flow=f|=c|>classification|>dataflow|<dataflow|<classification flow=g|=d|>classification|>dataflow
    1.3,1.4,1.5 places <data|>data
    1.3,1.4,1.5 places <data|<classification flow=f|=c|>classification|<classification flow=g|=d|>classification|>data
    // flows without names
    1.3,1.4,1.5 places <data|<dataflow|<classification flow=f|=c|>classification|>dataflow|<dataflow|<classification flow=g|=d|>classification|>dataflow|>data -> <data|<classification flow=f|=c|>classification|<classification flow=g|=d|>classification|>data
    1.5 differs []
    1.5 differs [{"flow":"inbound","classification":"PII"}]
    1.5 differs [{"flow":"inbound","classification":"PII","name":"n"}]
"#;

#[test]
fn tags_evidence_and_data(rt: HostRuntime) -> Result<(), Fail> {
    let alloc = rt.alloc();
    records::<Swid>(alloc, SWID)?;
    records::<Cpe>(alloc, CPE)?;
    values::<MimeType>(alloc, MIME_TYPE)?;
    records::<ComponentEvidence>(alloc, COMPONENT_EVIDENCE)?;
    records::<Copyright>(alloc, COPYRIGHT)?;
    records::<CopyrightTexts>(alloc, COPYRIGHT_TEXTS)?;
    records::<DataClassification>(alloc, DATA_CLASSIFICATION)?;
    records::<ServiceData>(alloc, SERVICE_DATA)?;
    records::<Data>(alloc, DATA)
}
