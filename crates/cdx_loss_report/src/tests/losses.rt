//! What roads take of bills, as the program answers it.
//!
//! A table is a text of one row per line, with ` -> ` between what is asked and its answer. Blank lines and comments are
//! passed over.

use cdx_events::{Sink, Source};
use cdx_losses::report;
use cdx_test_cases::programs::{
    Program, answers, refuses_a_byte_more, refuses_words, tells_failing_calls,
};
use cdx_test_cases::rows::row;
use std::alloc::{AllocError, Global};
use std::test::Fail;

struct LossReport;

impl Program for LossReport {
    fn call<S: Source, K: Sink>(
        alloc: Global,
        words: &[String],
        source: &mut S,
        sink: &mut K,
    ) -> u8 {
        report(alloc, words, source, sink)
    }
}

// ---- roads of a bill, and what they take

// What stands before a further item of a list.
fn comma(items: &str) -> &'static str {
    if items.is_empty() { "" } else { "," }
}

// Hops, each as `form:version`.
fn hops_of(alloc: Global, words: &str) -> Result<String, AllocError> {
    let mut hops = String::new(alloc);
    for word in words.split_whitespace() {
        let (form, version) = word.split_once(':').unwrap_or((word, "no version"));
        let comma = comma(hops.as_str());
        let hop = format!(in alloc; "{comma}{{\"form\":\"{form}\",\"version\":\"{version}\"}}")?;
        hops.push_str(hop.as_str())?;
    }
    Ok(hops)
}

// Losses, each as `path=reason`.
fn losses_of(alloc: Global, words: &str) -> Result<String, AllocError> {
    let mut losses = String::new(alloc);
    for word in words.split_whitespace() {
        let (path, reason) = word.split_once('=').unwrap_or((word, "no reason"));
        let comma = comma(losses.as_str());
        let loss = format!(in alloc; "{comma}{{\"path\":\"{path}\",\"reason\":\"{reason}\"}}")?;
        losses.push_str(loss.as_str())?;
    }
    Ok(losses)
}

// A failure where the hops don't take these losses of the bill of 1.5 with the members.
fn takes(alloc: Global, members: &str, hops: &str, losses: &str) -> Result<(), Fail> {
    let hops = hops_of(alloc, hops)?;
    let request = format!(in alloc;
        "{{\"from\":\"1.5\",\"doc\":{{\"json\":{{\"bomFormat\":\"CycloneDX\",\"specVersion\":\"1.5\",\"version\":1,{members}}}}},\"hops\":[{hops}]}}"
    )?;
    let losses = losses_of(alloc, losses)?;
    let answer = format!(in alloc; "{{\"losses\":[{losses}]}}")?;
    answers::<LossReport>(alloc, &["losses"], request.as_str(), 0, answer.as_str())
}

// One row: the hops and, after a `|`, the members of a bill; and the losses.
fn row_takes(alloc: Global, line: &str) -> Result<(), Fail> {
    let Some((asked, losses)) = row(line) else {
        return Ok(());
    };
    let (hops, members) = asked.split_once('|').unwrap_or((asked, "no members"));
    takes(alloc, members.trim_ascii(), hops, losses)
}

fn all_take(alloc: Global, rows: &str) -> Result<(), Fail> {
    for line in rows.lines() {
        row_takes(alloc, line)?;
    }
    Ok(())
}

const TO_XML: &str = r#"
    // a supplier with an empty list of addresses: the list goes at the first trip, and the supplier at the second
    | "components":[{"type":"library","name":"a","supplier":{"url":[]}}] ->
    json:1.5 | "components":[{"type":"library","name":"a","supplier":{"url":[]}}] ->
    xml:1.5 | "components":[{"type":"library","name":"a","supplier":{"url":[]}}] -> /components/0/supplier/url=xml
    xml:1.5 xml:1.5 | "components":[{"type":"library","name":"a","supplier":{"url":[]}}] -> /components/0/supplier=xml
    xml:1.4 json:1.5 xml:1.5 | "components":[{"type":"library","name":"a","supplier":{"url":[]}}] -> /components/0/supplier=xml
    xml:1.5 xml:1.5 xml:1.5 | "components":[{"type":"library","name":"a","supplier":{"url":[]}}] -> /components/0/supplier=xml
    json:1.5 xml:1.5 json:1.5 | "components":[{"type":"library","name":"a","supplier":{"url":[]}}] -> /components/0/supplier/url=xml
    // without name, addresses and contacts it goes at once, and with a name it stays
    xml:1.5 | "components":[{"type":"library","name":"a","supplier":{}},{"type":"library","name":"b","supplier":{"bom-ref":"r"}}] -> /components/0/supplier=xml /components/1/supplier=xml
    xml:1.5 xml:1.5 | "components":[{"type":"library","name":"a","supplier":{"name":"","url":[],"contact":[]}}] -> /components/0/supplier/url=xml /components/0/supplier/contact=xml
    xml:1.5 xml:1.5 | "components":[{"type":"library","name":"a","supplier":{"url":["u"],"contact":[{}]}}] -> /components/0/supplier/contact=xml
    // a supplier of nothing but contacts that go
    xml:1.5 | "components":[{"type":"library","name":"a","supplier":{"contact":[{"bom-ref":"c"}]}}] -> /components/0/supplier/contact=xml
    xml:1.5 xml:1.5 | "components":[{"type":"library","name":"a","supplier":{"contact":[{"bom-ref":"c"}]}}] -> /components/0/supplier=xml
    xml:1.5 xml:1.5 | "components":[{"type":"library","name":"a","supplier":{"contact":[{},{"phone":"1"}]}}] -> /components/0/supplier/contact/0=xml
    // organizations that no component is supplied by stay
    xml:1.5 xml:1.5 | "metadata":{"manufacture":{"url":[]},"supplier":{"contact":[]}},"services":[{"name":"s","provider":{"url":[]}},{"name":"t","provider":{}}] -> /metadata/manufacture/url=xml /metadata/supplier/contact=xml /services/0/provider/url=xml
    // none of the contacts, one, several and all
    xml:1.5 | "metadata":{"supplier":{"contact":[{"name":"n"},{"email":""},{"phone":"1","bom-ref":"c"}]}} ->
    xml:1.5 | "metadata":{"supplier":{"contact":[{"name":"n"},{},{"phone":"1"}]}} -> /metadata/supplier/contact/1=xml
    xml:1.5 xml:1.5 | "metadata":{"supplier":{"contact":[{"bom-ref":"a"},{"name":"n"},{"bom-ref":"b"}]}} -> /metadata/supplier/contact/0=xml /metadata/supplier/contact/2=xml
    xml:1.5 | "metadata":{"supplier":{"contact":[{},{"bom-ref":"a"}]}} -> /metadata/supplier/contact=xml
    xml:1.5 | "metadata":{"supplier":{"contact":[]}} -> /metadata/supplier/contact=xml
    // the list of authors stays
    xml:1.5 | "metadata":{"authors":[]} ->
    xml:1.5 | "metadata":{"authors":[{}]} -> /metadata/authors/0=xml
    xml:1.3 | "metadata":{"authors":[{"bom-ref":"a"},{"name":"n"},{}]} -> /metadata/authors/0=xml /metadata/authors/2=xml
    json:1.3 | "metadata":{"authors":[{"bom-ref":"a"},{"name":"n"},{}]} ->
    // evidence, differences and sources of issues without content
    xml:1.5 | "components":[{"type":"library","name":"a","evidence":{}},{"type":"library","name":"b","evidence":{"licenses":[]}},{"type":"library","name":"c","evidence":{"copyright":[]}}] -> /components/0/evidence=xml
    xml:1.5 | "components":[{"type":"library","name":"a","pedigree":{"patches":[{"type":"backport","diff":{}},{"type":"backport","diff":{"url":""},"resolves":[{"type":"defect","source":{}},{"type":"defect","source":{"name":""}}]}]}}] -> /components/0/pedigree/patches/0/diff=xml /components/0/pedigree/patches/1/resolves/0/source=xml
    // what else is empty is kept
    xml:1.5 xml:1.5 | "components":[{"type":"library","name":"a","hashes":[],"licenses":[],"pedigree":{},"externalReferences":[],"properties":[],"components":[]}],"services":[],"metadata":{},"externalReferences":[],"dependencies":[{"ref":"a","dependsOn":[]}],"compositions":[],"properties":[] ->
"#;

#[test]
fn taken_by_xml(rt: HostRuntime) -> Result<(), Fail> {
    all_take(rt.alloc(), TO_XML)
}

const TO_VERSIONS: &str = r#"
    json:1.5 | "properties":[{"name":"p","value":"v"}],"signature":{"algorithm":"ES256","value":"v"} ->
    json:1.4 | "properties":[{"name":"p","value":"v"}],"signature":{"algorithm":"ES256","value":"v"} -> /properties=version
    xml:1.3 | "properties":[],"signature":{"signers":[]} -> /properties=version /signature=version
    json:1.4 | "compositions":[{"aggregate":"complete"},{"bom-ref":"c","aggregate":"complete","assemblies":["a"],"vulnerabilities":["v"],"signature":{"algorithm":"ES256","value":"v"}}] -> /compositions/1/bom-ref=version /compositions/1/vulnerabilities=version
    json:1.3 | "compositions":[{"bom-ref":"c","aggregate":"complete","dependencies":["a"],"vulnerabilities":[],"signature":{"algorithm":"ES256","value":"v"}}] -> /compositions/0/bom-ref=version /compositions/0/vulnerabilities=version /compositions/0/signature=version
    // licenses, those in evidence among them; an expression keeps its reference
    xml:1.4 | "components":[{"type":"library","name":"a","licenses":[{"expression":"E","bom-ref":"e"},{"license":{"id":"MIT","bom-ref":"l","url":"u","properties":[]}}],"evidence":{"licenses":[{"license":{"name":"N","properties":[]}}]}}] -> /components/0/licenses/1/license/bom-ref=version /components/0/licenses/1/license/properties=version /components/0/evidence/licenses/0/license/properties=version
    json:1.3 | "metadata":{"licenses":[{"license":{"id":"MIT","bom-ref":"l"}}]},"services":[{"name":"s","licenses":[{"license":{"id":"MIT","bom-ref":"l"}}]}] -> /metadata/licenses/0/license/bom-ref=version /services/0/licenses/0/license/bom-ref=version
    // tools
    json:1.4 | "metadata":{"tools":[{"name":"t","externalReferences":[]}]} ->
    json:1.3 | "metadata":{"tools":[{"name":"t","externalReferences":[]},{"name":"u"},{"externalReferences":[{"type":"vcs","url":"u"}]}]} -> /metadata/tools/0/externalReferences=version /metadata/tools/2/externalReferences=version
    // what stands inside comes before what stands after it
    json:1.3 | "components":[{"type":"library","name":"a","version":"1","signature":{"algorithm":"ES256","value":"v"},"components":[{"type":"library","name":"b","version":"1","signature":{"algorithm":"ES256","value":"v"}}]}] -> /components/0/components/0/signature=version /components/0/signature=version
    json:1.4 | "services":[{"name":"s","trustZone":"z","services":[{"name":"t","trustZone":""}],"signature":{"algorithm":"ES256","value":"v"}}] -> /services/0/services/0/trustZone=version /services/0/trustZone=version
    json:1.3 | "services":[{"name":"s","trustZone":"z","services":[{"name":"t","trustZone":""}],"signature":{"algorithm":"ES256","value":"v"}}] -> /services/0/services/0/trustZone=version /services/0/signature=version /services/0/trustZone=version
"#;

#[test]
fn taken_by_versions(rt: HostRuntime) -> Result<(), Fail> {
    all_take(rt.alloc(), TO_VERSIONS)
}

const BELOW_1_5: &str = r#"
    // tools objects, of which the components need no version
    json:1.3 | "metadata":{"tools":{"components":[{"type":"library","name":"a"}]}} -> /metadata/tools=tools
    json:1.4 | "metadata":{"tools":{"services":[]}} -> /metadata/tools=tools
    json:1.5 json:1.4 json:1.5 | "metadata":{"tools":{"components":[]}} -> /metadata/tools=tools
    json:1.3 | "metadata":{"tools":{}} ->
    json:1.3 | "metadata":{"tools":[]} ->
    json:1.5 | "metadata":{"tools":{"services":[{"name":"s","trustZone":"z"}],"components":[{"type":"library","name":"a","supplier":{}}]}} ->
    // nothing is listed below what goes whole
    xml:1.4 | "metadata":{"tools":{"services":[{"name":"s","trustZone":"z"}],"components":[{"type":"library","name":"a","supplier":{}}]}} -> /metadata/tools=tools
    xml:1.5 | "metadata":{"tools":{"services":[{"name":"s","provider":{"url":[]}}],"components":[{"type":"library","name":"a","supplier":{}}]}} -> /metadata/tools/services/0/provider/url=xml /metadata/tools/components/0/supplier=xml
    // flows: those entries of data that have a name or a description
    json:1.5 | "services":[{"name":"s","data":[{"flow":"inbound","classification":"PII","name":"n"}]}] ->
    json:1.4 | "services":[{"name":"s","data":[{"flow":"inbound","classification":"PII"},{"flow":"inbound","classification":"PII","name":"n"},{"flow":"inbound","classification":"PII","description":""}]}] -> /services/0/data/1=flow /services/0/data/2=flow
    xml:1.3 xml:1.5 | "services":[{"name":"s","services":[{"name":"t","data":[{"flow":"inbound","classification":"PII","name":"n"}]}],"trustZone":"z"}] -> /services/0/services/0/data/0=flow /services/0/trustZone=version
"#;

#[test]
fn taken_below_1_5(rt: HostRuntime) -> Result<(), Fail> {
    all_take(rt.alloc(), BELOW_1_5)
}

const AT_EACH_DEPTH: &str = r#"
    xml:1.5 | "components":[{"type":"library","name":"a","version":"1","pedigree":{"ancestors":[{"type":"library","name":"b","version":"1","supplier":{}}],"descendants":[{"type":"library","name":"c","version":"1","evidence":{}}],"variants":[{"type":"library","name":"d","version":"1","components":[{"type":"library","name":"e","version":"1","pedigree":{"patches":[{"type":"backport","diff":{}}]}}]}]},"components":[{"type":"library","name":"f","version":"1","supplier":{"contact":[{}]}}],"evidence":{}}],"metadata":{"tools":{"components":[{"type":"library","name":"g","supplier":{"url":[]}}]},"component":{"type":"library","name":"h","version":"1","components":[{"type":"library","name":"i","version":"1","supplier":{}}]}} -> /metadata/tools/components/0/supplier/url=xml /metadata/component/components/0/supplier=xml /components/0/pedigree/ancestors/0/supplier=xml /components/0/pedigree/descendants/0/evidence=xml /components/0/pedigree/variants/0/components/0/pedigree/patches/0/diff=xml /components/0/components/0/supplier/contact=xml /components/0/evidence=xml
    xml:1.3 | "components":[{"type":"library","name":"a","version":"1","pedigree":{"ancestors":[{"type":"library","name":"b","version":"1","signature":{"algorithm":"ES256","value":"v"}}],"variants":[{"type":"library","name":"d","version":"1","components":[{"type":"library","name":"e","version":"1","licenses":[{"license":{"id":"MIT","properties":[]}}]}]}]}}],"metadata":{"tools":{"components":[{"type":"library","name":"g","signature":{"algorithm":"ES256","value":"v"}}]},"component":{"type":"library","name":"h","version":"1","signature":{"algorithm":"ES256","value":"v"}}} -> /metadata/tools=tools /metadata/component/signature=version /components/0/pedigree/ancestors/0/signature=version /components/0/pedigree/variants/0/components/0/licenses/0/license/properties=version
"#;

#[test]
fn taken_at_each_depth(rt: HostRuntime) -> Result<(), Fail> {
    all_take(rt.alloc(), AT_EACH_DEPTH)
}

// The hops of a road in each order take the same, and so does the road twice over where it takes XML twice already.
const IN_EACH_ORDER: &str = r#"
    xml:1.5 json:1.4 | "components":[{"type":"library","name":"a","supplier":{"url":[]}}],"properties":[] -> /components/0/supplier/url=xml /properties=version
    json:1.4 xml:1.5 | "components":[{"type":"library","name":"a","supplier":{"url":[]}}],"properties":[] -> /components/0/supplier/url=xml /properties=version
    xml:1.4 json:1.5 | "components":[{"type":"library","name":"a","supplier":{"url":[]}}],"properties":[] -> /components/0/supplier/url=xml /properties=version
    xml:1.5 json:1.4 xml:1.5 | "components":[{"type":"library","name":"a","supplier":{"url":[]}}],"properties":[] -> /components/0/supplier=xml /properties=version
    json:1.4 xml:1.5 xml:1.5 | "components":[{"type":"library","name":"a","supplier":{"url":[]}}],"properties":[] -> /components/0/supplier=xml /properties=version
    xml:1.5 xml:1.5 json:1.4 | "components":[{"type":"library","name":"a","supplier":{"url":[]}}],"properties":[] -> /components/0/supplier=xml /properties=version
    xml:1.5 xml:1.5 json:1.4 xml:1.5 xml:1.5 json:1.4 | "components":[{"type":"library","name":"a","supplier":{"url":[]}}],"properties":[] -> /components/0/supplier=xml /properties=version
    json:1.3 json:1.4 json:1.5 | "properties":[],"signature":{"algorithm":"ES256","value":"v"} -> /properties=version /signature=version
    json:1.5 json:1.3 json:1.4 | "properties":[],"signature":{"algorithm":"ES256","value":"v"} -> /properties=version /signature=version
    json:1.4 json:1.5 json:1.3 | "properties":[],"signature":{"algorithm":"ES256","value":"v"} -> /properties=version /signature=version
"#;

#[test]
fn taken_in_each_order(rt: HostRuntime) -> Result<(), Fail> {
    all_take(rt.alloc(), IN_EACH_ORDER)
}

// ---- requests and statuses

// A failure where a row's request doesn't get the row's answer with this status.
fn row_answered(alloc: Global, status: u8, line: &str) -> Result<(), Fail> {
    let Some((request, answer)) = row(line) else {
        return Ok(());
    };
    answers::<LossReport>(alloc, &["losses"], request, status, answer)
}

fn all_answered(alloc: Global, status: u8, rows: &str) -> Result<(), Fail> {
    for line in rows.lines() {
        row_answered(alloc, status, line)?;
    }
    Ok(())
}

// A document of events, and one of an older version, where the reading itself knows no more.
const SERVED: &str = r#"
    {"doc":{"xml":[{"document":"start"},{"attributes":[{"name":"version","value":"1"}],"default":"http://cyclonedx.org/schema/bom/1.5","element":"bom"},{"element":"services"},{"element":"service"},{"element":"name"},{"text":"s"},{"end":"name"},{"element":"data"},{"attributes":[{"name":"flow","value":"inbound"}],"element":"classification"},{"text":"PII"},{"end":"classification"},{"attributes":[{"name":"name","value":"n"}],"element":"dataflow"},{"attributes":[{"name":"flow","value":"outbound"}],"element":"classification"},{"text":"public"},{"end":"classification"},{"end":"dataflow"},{"attributes":[{"name":"flow","value":"unknown"}],"element":"classification"},{"text":"x"},{"end":"classification"},{"end":"data"},{"end":"service"},{"end":"services"},{"end":"bom"},{"document":"end"}]},"from":"1.5","hops":[{"form":"json","version":"1.4"}]} -> {"losses":[{"path":"/services/0/data/0","reason":"flow"}]}
    {"hops":[{"version":"1.3","form":"xml"}],"from":"1.4","doc":{"json":{"bomFormat":"CycloneDX","specVersion":"1.5","version":1,"properties":[],"signature":{"algorithm":"ES256","value":"v"},"note":1}}} -> {"losses":[{"path":"/signature","reason":"version"}]}
"#;

const REFUSED: &str = r#"
    {"from":"1.5","doc":{"xml":[{"document":"start"},{"element":"bom"}]},"hops":[]} -> {"refused":{"cause":"unbalanced","place":2}}
    {"from":"1.5","doc":{"json":{"extra":0.5,"specVersion":"1.5","version":1}},"hops":[]} -> {"refused":{"cause":"float","path":"/extra"}}
    {"from":"1.5","doc":{"json":{"specVersion":"1.5","version":1}},"hops":[]} -> {"refused":{"cause":"missing","path":"/bomFormat"}}
    {"from":"1.4","doc":{"xml":[{"document":"start"},{"default":"http://cyclonedx.org/schema/bom/1.5","element":"bom"},{"end":"bom"},{"document":"end"}]},"hops":[]} -> {"refused":{"actual":"http://cyclonedx.org/schema/bom/1.5","cause":"namespace","expected":"http://cyclonedx.org/schema/bom/1.4","place":1}}
    // a missing version, whichever hop asks for it, and only where the document has no fault
    {"from":"1.5","doc":{"json":{"bomFormat":"CycloneDX","components":[{"name":"a","type":"library"}],"specVersion":"1.5","version":1}},"hops":[{"form":"json","version":"1.3"}]} -> {"refused":{"cause":"version missing"}}
    {"from":"1.5","doc":{"json":{"bomFormat":"CycloneDX","components":[{"name":"a","type":"library"}],"specVersion":"1.5","version":1}},"hops":[{"form":"json","version":"1.4"},{"form":"xml","version":"1.3"}]} -> {"refused":{"cause":"version missing"}}
    {"from":"1.5","doc":{"json":{"bomFormat":"CycloneDX","components":[{"type":"library"}],"specVersion":"1.5","version":1}},"hops":[{"form":"json","version":"1.3"}]} -> {"refused":{"cause":"missing","path":"/components/0/name"}}
"#;

// What is no request, where the shape comes before the balance of the events.
const SHAPELESS: &str = r#"
    null -> {"request":"shape"}
    [] -> {"request":"shape"}
    {"from":"1.5","doc":{"json":{}}} -> {"request":"shape"}
    {"from":"1.6","doc":{"json":{}},"hops":[]} -> {"request":"shape"}
    {"from":"1.5","doc":{"json":{},"xml":[]},"hops":[]} -> {"request":"shape"}
    {"from":"1.5","doc":{"json":{}},"hops":[],"note":1} -> {"request":"shape"}
    {"from":"1.5","doc":{"json":{}},"hops":{}} -> {"request":"shape"}
    {"from":"1.5","doc":{"json":{}},"hops":[{"form":"json"}]} -> {"request":"shape"}
    {"from":"1.5","doc":{"xml":[]},"hops":[{"form":"text","version":"1.5"}]} -> {"request":"shape"}
    // no JSON
    { -> {"request":"not JSON"}
    {}{} -> {"request":"not JSON"}
"#;

#[test]
fn requests(rt: HostRuntime) -> Result<(), Fail> {
    let alloc = rt.alloc();
    all_answered(alloc, 0, SERVED)?;
    all_answered(alloc, 1, REFUSED)?;
    all_answered(alloc, 2, SHAPELESS)
}

const NO_HOP: &str =
    r#"{"from":"1.5","doc":{"json":{"bomFormat":"CycloneDX","specVersion":"1.5","version":1}},"hops":[]}"#;

const OTHER_WORDS: [&[&str]; 6] = [
    &[],
    &[""],
    &["loss"],
    &["Losses"],
    &["road"],
    &["losses", "1.5"],
];

#[test]
fn words(rt: HostRuntime) -> Result<(), Fail> {
    let alloc = rt.alloc();
    for words in &OTHER_WORDS {
        refuses_words::<LossReport>(alloc, words, NO_HOP)?;
    }
    answers::<LossReport>(alloc, &["losses"], "", 2, "{\"request\":\"not JSON\"}")
}

#[test]
fn one_byte_too_many(rt: HostRuntime) -> Result<(), Fail> {
    refuses_a_byte_more::<LossReport>(rt.alloc(), &["losses"])
}

#[test]
fn failing_calls(rt: HostRuntime) -> Result<(), Fail> {
    tells_failing_calls::<LossReport>(rt.alloc(), &["losses"], NO_HOP, "{\"losses\":[]}")
}
