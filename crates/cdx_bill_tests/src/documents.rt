//! Documents read, kept and carried, as rows of `versions words given -> answer`; documents are short ones.
//!
//! - `reads`: what the version reads of the document, as JSON of 1.5, or the first fault with its path or its place.
//! - `labels`: the label and the version of the bill that the version reads.
//! - `passes`: what the version reads where nothing looks for floats.
//! - `gathers`: what the version reads of a source of events that fail, break off or go on for too long.
//! - `fits`: whether the version has all that it asks for.
//! - `keeps`: what the version keeps of the bill, as JSON of 1.5.
//! - `carries`: the document, read by the version, goes along the road of the documents after it, or is refused.

use crate::faults::of_road;
use crate::last::in_pieces;
use crate::short::{bill, hop_of, label, only, parse_xml, read, shown, whole};
use cdx_bom::{Bom, Doc, Hop, RoadError, into_road, next_bill, recode, road, start_road};
use cdx_events::{EventSource, List, MemoryEventSource, XmlEvent};
use cdx_json::{FromJson, Kept};
use cdx_leaf::FromXmlDocument;
use cdx_models::SpecVersion;
use cdx_test_cases::checks::{holds, row_is, text_is};
use cdx_test_cases::documents::{document, line_of, list_of};
use cdx_test_cases::faults::{json_fault_line, xml_fault_line};
use cdx_test_cases::forms::V5;
use cdx_test_cases::rows::{Case, cases, parted};
use serde_json::Value;
use std::alloc::{AllocError, Global};
use std::test::Fail;

// The label of events is the version that reads them, and that of JSON is the one that was read.
fn labelled(alloc: Global, text: &str, version: SpecVersion) -> Result<String, Fail> {
    if !text.starts_with("start|") {
        let value = Value::from_str(alloc, text)?;
        return Ok(label(alloc, &Bom::parse_json(alloc, &value, version)?)?);
    }
    let events = document(alloc, text)?;
    let found = label(alloc, &parse_xml(alloc, &events, version)?)?;
    if label(alloc, &Bom::read_xml_document(alloc, &events, version)?)? != found {
        return Err(Fail::new("another label"));
    }
    Ok(found)
}

fn passed(alloc: Global, text: &str, version: SpecVersion) -> Result<String, Fail> {
    let value = Value::from_str(alloc, text)?;
    match Bom::from_json(alloc, &value, version) {
        Ok(bill) => Ok(shown(alloc, &bill)?),
        Err(error) => Ok(json_fault_line(alloc, &error)?),
    }
}

// 13 events.
const LINE: &str =
    "start|<bom xmlns=1.5 serialNumber=U version=1|<metadata|<tools|<tool|<name|=my_tool|>name|>tool|>tools|>metadata|>bom|end";

// The budget and the call that fails, and other events where they aren't the line's. Calls are counted from 1, so none
// fails where that is 0.
fn gathered(alloc: Global, words: &str, version: SpecVersion) -> Result<String, Fail> {
    let (budget, words) = parted(words);
    let (fails, events) = parted(words);
    let fails = only(alloc, fails.parse::<u64>()?)?;
    let events = list_of(alloc, if events.is_empty() { LINE } else { events })?;
    let mut source = MemoryEventSource::new(events, fails);
    Ok(told_source(alloc, &mut source, version, budget.parse::<usize>()?)?)
}

fn told_source(
    alloc: Global,
    source: &mut MemoryEventSource,
    version: SpecVersion,
    budget: usize,
) -> Result<String, AllocError> {
    match Bom::parse_from_xml_source(alloc, source, version, budget) {
        Ok(bill) => shown(alloc, &bill),
        Err(error) => xml_fault_line(alloc, &error),
    }
}

fn fitting(alloc: Global, short: &str, version: SpecVersion) -> Result<String, Fail> {
    let bill = bill(alloc, short)?;
    let found = if bill.fits(version) { "fits" } else { "lacks" };
    Ok(String::from_str(alloc, found)?)
}

// The label of what is kept is the version.
fn kept(alloc: Global, short: &str, version: SpecVersion) -> Result<String, Fail> {
    let kept = bill(alloc, short)?.kept(alloc, version)?;
    if label(alloc, &kept)? != format!(in alloc; "{} 1", version.as_str())? {
        return Err(Fail::new("another label"));
    }
    Ok(shown(alloc, &kept)?)
}

// The document of the text.
fn doc(alloc: Global, text: &str) -> Result<Doc, Fail> {
    if text.starts_with("start|") {
        return Ok(Doc::Xml(document(alloc, text)?));
    }
    Ok(Doc::Json(Value::from_str(alloc, text)?))
}

fn text_of(alloc: Global, doc: &Doc) -> Result<String, AllocError> {
    match doc {
        Doc::Json(value) => value.to_string(alloc),
        Doc::Xml(events) => line_of(alloc, events.copy(alloc)?.into_list().as_slice()),
    }
}

// The hops that write the short documents, and these documents, each with a space before it. What is no short document
// is the refusal of the road, and stands alone.
fn along(alloc: Global, shorts: &str) -> Result<(Vec<Hop>, String), AllocError> {
    let mut hops = Vec::new(alloc);
    let mut texts = String::new(alloc);
    for short in shorts.split(" -> ") {
        let Some(hop) = hop_of(short) else {
            return Ok((hops, String::from_str(alloc, short)?));
        };
        hops.push(hop)?;
        texts.push(' ')?;
        texts.push_str(whole(alloc, short)?.as_str())?;
    }
    Ok((hops, texts))
}

// The documents, each with a space before it.
fn texts_of(alloc: Global, docs: &[Doc]) -> Result<String, AllocError> {
    let mut texts = String::new(alloc);
    for doc in docs {
        texts.push(' ')?;
        texts.push_str(text_of(alloc, doc)?.as_str())?;
    }
    Ok(texts)
}

// The documents, or the refusal.
fn told_road(alloc: Global, answer: Result<List<Doc>, RoadError>) -> Result<String, AllocError> {
    match answer {
        Ok(docs) => texts_of(alloc, docs.as_slice()),
        Err(error) => of_road(alloc, &error),
    }
}

// The same, each document made of its hop's bill, piece by piece.
fn told_pieces(
    alloc: Global,
    start: Result<Bom, RoadError>,
    hops: &[Hop],
) -> Result<String, AllocError> {
    let mut bill = match start {
        Ok(bill) => bill,
        Err(error) => return of_road(alloc, &error),
    };
    let mut texts = String::new(alloc);
    for hop in hops {
        texts.push(' ')?;
        texts.push_str(in_pieces(alloc, &bill, *hop)?.as_str())?;
        bill = match next_bill(alloc, bill, *hop) {
            Ok(next) => next,
            Err(error) => return of_road(alloc, &error),
        };
    }
    Ok(texts)
}

// The same of the road of one hop.
fn recoded(alloc: Global, doc: &Doc, version: SpecVersion, hop: Hop) -> Result<String, AllocError> {
    match recode(alloc, doc, version, hop.form, hop.version) {
        Ok(doc) => format!(in alloc; " {}", text_of(alloc, &doc)?.as_str()),
        Err(error) => of_road(alloc, &error),
    }
}

// By each of the calls.
fn carried(alloc: Global, case: &Case<'_>) -> Result<String, Fail> {
    let (hops, _) = along(alloc, case.answer)?;
    let text = whole(alloc, case.given)?;
    let start = start_road(
        alloc,
        doc(alloc, text.as_str())?,
        case.version,
        hops.as_slice(),
    );
    let doc = doc(alloc, text.as_str())?;
    let found = told_road(alloc, road(alloc, &doc, case.version, hops.as_slice()))?;
    if let [hop] = hops.as_slice() {
        if recoded(alloc, &doc, case.version, *hop)? != found {
            return Err(Fail::new("recoded otherwise"));
        }
    }
    if told_road(alloc, into_road(alloc, doc, case.version, hops.as_slice()))? != found {
        return Err(Fail::new("carried otherwise"));
    }
    if told_pieces(alloc, start, hops.as_slice())? != found {
        return Err(Fail::new("made otherwise in pieces"));
    }
    Ok(found)
}

fn found(alloc: Global, case: &Case<'_>) -> Result<String, Fail> {
    let v = case.version;
    match case.word {
        "reads" => read(alloc, whole(alloc, case.given)?.as_str(), v),
        "labels" => labelled(alloc, whole(alloc, case.given)?.as_str(), v),
        "passes" => passed(alloc, whole(alloc, case.given)?.as_str(), v),
        "gathers" => gathered(alloc, case.given, v),
        "fits" => fitting(alloc, case.given, v),
        "keeps" => kept(alloc, case.given, v),
        "carries" => carried(alloc, case),
        _ => Err(Fail::new("a row has a word that this check doesn't know")),
    }
}

fn wanted(alloc: Global, case: &Case<'_>) -> Result<String, AllocError> {
    if case.word == "carries" {
        return Ok(along(alloc, case.answer)?.1);
    }
    whole(alloc, case.answer)
}

fn bills(alloc: Global, rows: &str) -> Result<(), Fail> {
    for case in &cases(alloc, rows)? {
        let found = found(alloc, case)?;
        row_is(case.line, found.as_str(), wanted(alloc, case)?.as_str())?;
    }
    Ok(())
}

const READ: &str = r#"
    // a float is found before any other fault: members in byte order of their names, depth first
    1.5 reads {"specVersion":"1.5","version":1,"extra":{"confidence":0.5}} -> Float /extra/confidence
    1.5 reads {"specVersion":"1.5","version":1,"extra":{"confidence":5}} -> Missing /bomFormat
    1.3 reads {"b":0.5,"a":[1,{"y":2.5,"Z":[1.5]}]} -> Float /a/1/Z/0
    1.4 reads {"bomFormat":"CycloneDX","specVersion":"1.5","version":1.0} -> Float /version
    1.4 reads 7 -> WrongKind
    1.3 reads {"bomFormat":null} -> WrongKind /bomFormat
    1.5 reads {"bomFormat":"X","specVersion":"1.6"} -> BadFormat /bomFormat
    1.4 reads {"bomFormat":"CycloneDX"} -> Missing /specVersion
    1.5 reads {"bomFormat":"CycloneDX","specVersion":"1.6"} -> BadSpecVersion /specVersion
    1.3 reads {"bomFormat":"CycloneDX","specVersion":"1.5"} -> Missing /version
    1.5 reads {"bomFormat":"CycloneDX","specVersion":"1.5","version":"1"} -> WrongKind /version
    1.4 reads {"bomFormat":"CycloneDX","specVersion":"1.5","version":-1} -> OutOfRange /version
    1.5 reads {"bomFormat":"CycloneDX","specVersion":"1.5","version":4294967296} -> OutOfRange /version
    1.5 reads {"bomFormat":"CycloneDX","specVersion":"1.5","version":4294967295} -> {"bomFormat":"CycloneDX","specVersion":"1.5","version":4294967295}

    // faults come in the order of the schema's rows, and what a version doesn't know is passed over, whatever it is
    1.5 reads json 1.5 "services":1,"serialNumber":1, -> WrongKind /serialNumber
    1.5 reads json 1.5 "services":1,"components":{}, -> WrongKind /components
    1.4 reads json 1.5 "services":[{}], -> Missing /services/0/name
    1.5 reads json 1.5 "dependencies":[{"ref":"a","dependsOn":null}], -> WrongKind /dependencies/0/dependsOn
    1.5 reads json 1.5 "properties":7,"signature":7, -> WrongKind /properties
    1.4 reads json 1.5 "properties":7,"signature":7, -> WrongKind /signature
    1.3 reads json 1.5 "properties":7,"signature":7, -> json 1.5
    1.5 reads json 1.5 "note":{"bomFormat":1},"metadata":null, -> json 1.5
    1.3 reads json 1.5 "components":[{"name":"a","type":"library"}], -> Missing /components/0/version
    1.4 reads json 1.5 "components":[{"name":"a","type":"library"}], -> json 1.5 "components":[{"name":"a","type":"library"}],
    1.3 reads json 1.5 "metadata":{"tools":{}}, -> WrongKind /metadata/tools
    1.4 reads json 1.5 "metadata":{"tools":{}}, -> WrongKind /metadata/tools
    1.5 reads json 1.5 "metadata":{"tools":{}}, -> json 1.5 "metadata":{"tools":{}},
    1.4 reads json 1.5 "signature":[], -> json 1.5 "signature":{"signers":[]},

    // the name is asked first, then the namespace, then the version, and what stands in the root last
    1.5 reads start|<foo|>foo|end -> unexpected 1 bom StartElement
    1.5 reads start|<Bom version=x|=x|>Bom|end -> unexpected 1 bom StartElement
    1.4 reads xml 1.5 -> http://cyclonedx.org/schema/bom/1.5 for http://cyclonedx.org/schema/bom/1.4
    1.3 reads start|<bom xmlns=1.4 version=x|=x|>bom|end -> http://cyclonedx.org/schema/bom/1.4 for http://cyclonedx.org/schema/bom/1.3
    1.5 reads start|<bom version=1|>bom|end -> none for http://cyclonedx.org/schema/bom/1.5
    1.5 reads start|<bom xmlns=1.5 version=4294967296|>bom|end -> parse 1 version 4294967296 xs:integer
    1.4 reads start|<bom xmlns=1.4 version=x|=x|>bom|end -> parse 1 version x xs:integer
    1.3 reads start|<bom xmlns=1.3 version=-1|>bom|end -> parse 1 version -1 xs:integer
    1.4 reads start|<bom xmlns=1.4 serialNumber=U|>bom|end -> json 1.5 "serialNumber":"U",

    // other elements are skipped whole, and the last of a name counts
    1.5 reads xml 1.5 <note|<services|=x|>services|=x|>note|=x| -> unexpected 8 bom Characters
    1.5 reads xml 1.5 <components|<component type=library|=x|>component|>components| -> unexpected 4 component Characters
    1.4 reads xml 1.4 <metadata|!x|>metadata|<services|=y|>services| -> unexpected 3 metadata CData
    1.5 reads xml 1.5 <components|<component type=library|<name|=a|>name|<licenses|<license|<id|=MIT|>id|<name|=M|>name|>license|>licenses|>component|>components| -> unexpected 12 license StartElement
    1.5 reads xml 1.5 <components|<component type=library|<name|=a|>name|<swid tagId=t name=n|<text|>text|>swid|>component|>components| -> unexpected 9 text EndElement
    1.5 reads xml 1.5 <metadata|<tools|<tool|>tool|<components|>components|>tools|>metadata| -> missing 8 tools tool array or services & components
    1.3 reads xml 1.3 <components|<component type=library|<name|=a|>name|>component|>components| -> missing 7 component version
    1.4 reads xml 1.4 <components|<component type=library|<name|=a|>name|>component|>components| -> json 1.5 "components":[{"name":"a","type":"library"}],
    1.4 reads xml 1.4 <signature|<value|=v|>value|>signature| -> missing 6 signature algorithm
    1.4 reads xml 1.4 <signature|<algorithm|=A|>algorithm|<value|=v|>value|>signature| -> json 1.5 "signature":{"algorithm":"A","value":"v"},
    1.3 reads xml 1.3 <signature|=x|>signature|<properties|=x|>properties| -> json 1.5
    1.5 reads xml 1.5 <properties|=x|>properties| -> unexpected 3 properties Characters
    1.5 reads xml 1.5 <metadata|>metadata|<metadata|<timestamp|=t|>timestamp|>metadata| -> json 1.5 "metadata":{"timestamp":"t"},
    1.4 reads xml 1.4 <metadata|<tools|>tools|>metadata| -> json 1.5 "metadata":{"tools":[]},
    1.5 reads xml 1.5 <metadata|<tools|>tools|>metadata| -> json 1.5 "metadata":{"tools":{}},

    1.3 labels start|<bom xmlns=1.3|>bom|end -> 1.3 1
    1.4 labels start|<bom xmlns=1.4 version=+7|>bom|end -> 1.4 7
    1.5 labels start|<bom version=4294967295 version=x xmlns=1.5|>bom|end -> 1.5 4294967295
    1.3,1.4,1.5 labels json 1.3 -> 1.3 1

    // a float that a row reads is of the wrong kind, and others are passed over
    1.5 passes json 1.5 "extra":0.5, -> json 1.5
    1.5 passes json 1.5 "components":0.5, -> WrongKind /components

    // a fault of the document comes after those of its source
    1.5 gathers 13 0 -> json 1.5 "metadata":{"tools":[{"name":"my_tool"}]},"serialNumber":"U",
    1.5 gathers 5 0 -> Budget 5
    1.5 gathers 13 2 -> Fault 1
    1.5 gathers 0 1 -> Budget 0
    1.5 gathers 13 14 -> json 1.5 "metadata":{"tools":[{"name":"my_tool"}]},"serialNumber":"U",
    1.4 gathers 13 13 -> Fault 12
    1.4 gathers 12 0 -> Budget 12
    1.4 gathers 13 0 -> http://cyclonedx.org/schema/bom/1.5 for http://cyclonedx.org/schema/bom/1.4
    1.5 gathers 13 0 start|<bom xmlns=1.5 version=x -> Unbalanced 2
    1.5 gathers 13 0 start|<a|>b|=x -> Unbalanced 2
"#;

#[test]
fn read_and_gathered(rt: HostRuntime) -> Result<(), Fail> {
    bills(rt.alloc(), READ)
}

// What comes after the document stays in the source.
#[test]
fn left_in_the_source(rt: HostRuntime) -> Result<(), Fail> {
    let alloc = rt.alloc();
    let events = list_of(alloc, "start|<foo|>foo|end|start")?;
    let mut source = MemoryEventSource::new(events, only(alloc, 0)?);
    let found = told_source(alloc, &mut source, V5, 13)?;
    text_is(found.as_str(), "unexpected 1 bom StartElement")?;
    holds(
        "the source gives the event after the document",
        matches!(source.next(), Ok(Some(XmlEvent::StartDocument))),
    )
}

const KEPT: &str = r#"
    // later versions ask for no more than any bill has
    1.3,1.4,1.5 fits json 1.5 -> fits
    1.3,1.4,1.5 fits json 1.5 "components":[{"name":"a","type":"t","version":""}], -> fits
    1.3 fits json 1.5 "components":[{"name":"a","type":"t"}], -> lacks
    1.4,1.5 fits json 1.5 "components":[{"name":"a","type":"t"}], -> fits
    1.3 fits json 1.5 "metadata":{"component":{"name":"a","type":"t"}}, -> lacks
    1.4,1.5 fits json 1.5 "metadata":{"component":{"name":"a","type":"t"}}, -> fits
    1.3,1.4,1.5 fits json 1.5 "metadata":{"tools":{"components":[{"name":"a","type":"t"}]}}, -> fits

    1.4 keeps json 1.5 "metadata":{"tools":{"components":[{"name":"a","type":"library"}]}}, -> json 1.5 "metadata":{"tools":[]},
    1.5 keeps json 1.5 "metadata":{"tools":{"components":[]}}, -> json 1.5 "metadata":{"tools":{"components":[]}},
    1.4 keeps json 1.5 "components":[{"name":"a","type":"library"}], -> json 1.5 "components":[{"name":"a","type":"library"}],
    1.3 keeps json 1.5 "properties":[],"signature":{"algorithm":"ES256","value":"v"}, -> json 1.5
    1.4 keeps json 1.5 "properties":[],"signature":[], -> json 1.5 "signature":{"signers":[]},
    1.5 keeps json 1.5 "properties":[],"signature":[], -> json 1.5 "properties":[],"signature":{"signers":[]},
"#;

const CARRIED: &str = r#"
    // a supplier without a name stays for one writing as XML, and is gone with the next
    1.5 carries json 1.5 "serialNumber":"U", ->
    1.5 carries json 1.5 "serialNumber":"U", -> json 1.4 "serialNumber":"U",
    1.5 carries json 1.3 -> json 1.5
    1.5 carries json 1.5 "services":[], -> xml 1.4 <services|>services| -> xml 1.5 <services|>services| -> json 1.3 "services":[],
    1.4 carries xml 1.4 <services|<service|<name|=s|>name|>service|>services| -> json 1.3 "services":[{"name":"s"}],
    1.3 carries json 1.5 "serialNumber":null,"services":[], -> xml 1.5 <services|>services|
    1.5 carries json 1.5 "metadata":{"tools":[{"name":"my_tool"}]}, -> xml 1.5 <metadata|<tools|<tool|<name|=my_tool|>name|>tool|>tools|>metadata| -> json 1.5 "metadata":{"tools":[{"name":"my_tool"}]},
    1.5 carries json 1.5 "signature":[{"algorithm":"ES256","value":"a"}], -> json 1.5 "signature":{"signers":[{"algorithm":"ES256","value":"a"}]}, -> xml 1.5 <signature|<signers|<signer|<algorithm|=ES256|>algorithm|<value|=a|>value|>signer|>signers|>signature| -> json 1.5 "signature":{"signers":[{"algorithm":"ES256","value":"a"}]},
    1.5 carries json 1.5 "signature":{"chain":[{"algorithm":"ES256","value":"a"}]}, -> json 1.4 "signature":{"chain":[{"algorithm":"ES256","value":"a"}]}, -> json 1.3 -> json 1.4
    1.5 carries json 1.5 "components":[{"name":"a","supplier":{"url":[]},"type":"library"}], -> xml 1.5 <components|<component type=library|<supplier|>supplier|<name|=a|>name|>component|>components| -> xml 1.5 <components|<component type=library|<name|=a|>name|>component|>components| -> xml 1.5 <components|<component type=library|<name|=a|>name|>component|>components|
    1.5 carries json 1.5 "metadata":{"tools":[]}, -> xml 1.5 <metadata|<tools|>tools|>metadata| -> json 1.5 "metadata":{"tools":{}},
    1.5 carries json 1.5 "metadata":{"tools":[]}, -> xml 1.4 <metadata|<tools|>tools|>metadata| -> json 1.5 "metadata":{"tools":[]},
    1.5 carries json 1.5 "metadata":{"tools":{"components":[{"name":"a","type":"library"}]}}, -> json 1.3 "metadata":{"tools":[]}, -> json 1.5 "metadata":{"tools":[]},
    1.5 carries json 1.5 "components":[{"name":"a","type":"library"}], -> json 1.4 "components":[{"name":"a","type":"library"}],
    1.5 carries json 1.5 "components":[{"name":"a","type":"library"},{"name":"b","type":"file"}],"services":[], -> xml 1.5 <components|<component type=library|<name|=a|>name|>component|<component type=file|<name|=b|>name|>component|>components|<services|>services| -> json 1.5 "components":[{"name":"a","type":"library"},{"name":"b","type":"file"}],"services":[],
    1.5 carries json 1.5 "components":[{"name":"a","type":"library"},{"name":"b","type":"file"}],"services":[], -> json 1.4 "components":[{"name":"a","type":"library"},{"name":"b","type":"file"}],"services":[],
    1.5 carries json 1.5 "components":[{"name":"a","type":"library"},{"name":"b","type":"file"}],"services":[], -> xml 1.4 <components|<component type=library|<name|=a|>name|>component|<component type=file|<name|=b|>name|>component|>components|<services|>services|
    1.5 carries json 1.5 "components":[],"metadata":{"tools":[]}, -> xml 1.4 <metadata|<tools|>tools|>metadata|<components|>components|
    1.5 carries json 1.5 "components":[], -> json 1.4 "components":[],

    // the document's fault comes before a version that is missing, whichever hop asks for it
    1.5 carries json 1.5 "components":[{"name":"a","type":"library"}], -> json 1.4 -> json 1.3 -> version missing in 1.3
    1.4 carries xml 1.4 <components|<component type=a|<name|=a|>name|>component|>components| -> xml 1.3 -> json 1.5 -> version missing in 1.3
    1.5 carries json 1.5 "components":[{"name":"a","type":"library"}],"dependencies":1, -> json 1.3 -> WrongKind /dependencies
    1.5 carries json 1.5 "dependencies":[{"ref":"a","dependsOn":null}], -> WrongKind /dependencies/0/dependsOn
    1.5 carries start|<foo|>foo|end -> json 1.3 -> unexpected 1 bom StartElement
"#;

#[test]
fn kept_and_carried(rt: HostRuntime) -> Result<(), Fail> {
    bills(rt.alloc(), KEPT)?;
    bills(rt.alloc(), CARRIED)
}
