//! Documents, fed in each way, as rows of `versions place document -> fault`, and those without a fault as rows of
//! `versions whole document -> bill`, where the bill is JSON of 1.5.

use crate::samples::{Sample, each_way};
use cdx_test_cases::documents::list_of;
use cdx_test_cases::forms::{V5, chain};
use cdx_test_cases::rows::{Case, cases};
use std::alloc::Global;
use std::test::Fail;

fn place_of(word: &str) -> Result<Option<usize>, Fail> {
    match word {
        "whole" => Ok(None),
        _ => Ok(Some(word.parse::<usize>()?)),
    }
}

fn each_row(alloc: Global, case: &Case<'_>) -> Result<(), Fail> {
    let events = list_of(alloc, case.given)?;
    let sample = Sample {
        line: case.line,
        version: case.version,
        events: events.as_slice(),
        place: place_of(case.word)?,
        answer: case.answer,
    };
    each_way(alloc, &sample)
}

fn all_rows(alloc: Global, rows: &str) -> Result<(), Fail> {
    for case in &cases(alloc, rows)? {
        each_row(alloc, case)?;
    }
    Ok(())
}

// Documents without a fault, and the bills that they denote, as JSON of 1.5.
const WHOLE: &str = r#"
    // the bill of one tool
    1.5 whole start|<bom xmlns=1.5 serialNumber=urn:uuid:3e671687-395b-41f5-a30f-a58921a69b79 version=1|<metadata|<tools|<tool|<name|=my_tool|>name|>tool|>tools|>metadata|>bom|end -> {"bomFormat":"CycloneDX","metadata":{"tools":[{"name":"my_tool"}]},"serialNumber":"urn:uuid:3e671687-395b-41f5-a30f-a58921a69b79","specVersion":"1.5","version":1}
    // no field, and each
    1.3 whole start|<bom xmlns=1.3|>bom|end -> {"bomFormat":"CycloneDX","specVersion":"1.5","version":1}
    1.5 whole start|<bom xmlns=1.5 serialNumber=U version=+7|<metadata|<timestamp|=t|>timestamp|>metadata|<components|<component type=library|<name|=a|>name|<components|<component type=file|<name|=b|>name|>component|>components|>component|>components|<services|<service|<name|=s|>name|<authenticated|=1|>authenticated|>service|>services|<externalReferences|<reference type=t|<url|=u|>url|>reference|>externalReferences|<dependencies|<dependency ref=a|<dependency ref=b|>dependency|>dependency|>dependencies|<compositions|<composition|<aggregate|=complete|>aggregate|>composition|>compositions|<properties|<property name=n|=v|>property|>properties|<signature|<algorithm|=ES256|>algorithm|<value|=v|>value|>signature|>bom|end -> {"bomFormat":"CycloneDX","components":[{"components":[{"name":"b","type":"file"}],"name":"a","type":"library"}],"compositions":[{"aggregate":"complete"}],"dependencies":[{"dependsOn":["b"],"ref":"a"}],"externalReferences":[{"type":"t","url":"u"}],"metadata":{"timestamp":"t"},"properties":[{"name":"n","value":"v"}],"serialNumber":"U","services":[{"authenticated":true,"name":"s"}],"signature":{"algorithm":"ES256","value":"v"},"specVersion":"1.5","version":7}
    // what isn't known is passed over whole
    1.5 whole start|<bom xmlns=1.5|<note|<bom|=x|<services|!y|>services|>bom|=z|>note|>bom|end -> {"bomFormat":"CycloneDX","specVersion":"1.5","version":1}
    1.3 whole start|<bom xmlns=1.3|<signature|=x|>signature|<properties|=x|>properties|>bom|end -> {"bomFormat":"CycloneDX","specVersion":"1.5","version":1}
    1.5 whole start|<bom xmlns=1.5|<components|<component type=library|<name|=a|>name|<evidence|=x|<note|<licenses|<expression|=X|>expression|>licenses|>note|<copyright|<text|!c|>text|>copyright|>evidence|>component|>components|>bom|end -> {"bomFormat":"CycloneDX","components":[{"evidence":{"copyright":[{"text":"c"}]},"name":"a","type":"library"}],"specVersion":"1.5","version":1}
    // the last of a name counts
    1.4 whole start|<bom xmlns=1.4|<metadata|<timestamp|=s|>timestamp|>metadata|<metadata|<tools|>tools|>metadata|>bom|end -> {"bomFormat":"CycloneDX","metadata":{"tools":[]},"specVersion":"1.5","version":1}
"#;

#[test]
fn whole_documents(rt: HostRuntime) -> Result<(), Fail> {
    all_rows(rt.alloc(), WHOLE)
}

// Documents that denote no bill, with their first fault.
const REFUSED: &str = r#"
    // at the start of the root
    1.5 1 start|<foo|<bom xmlns=1.5|>bom|>foo|end -> unexpected 1 bom StartElement
    1.4 1 start|<bom xmlns=1.5 version=x|=x|>bom|end -> http://cyclonedx.org/schema/bom/1.5 for http://cyclonedx.org/schema/bom/1.4
    1.5 1 start|<bom version=1|>bom|end -> none for http://cyclonedx.org/schema/bom/1.5
    1.5 1 start|<bom xmlns=1.5 version=4294967296|=x|>bom|end -> parse 1 version 4294967296 xs:integer
    // at another start
    1.5 12 start|<bom xmlns=1.5 version=1|<components|<component type=library|<name|=a|>name|<licenses|<license|<id|=MIT|>id|<name|=M|>name|>license|>licenses|>component|>components|>bom|end -> unexpected 12 license StartElement
    1.5 3 start|<bom xmlns=1.5|<components|<component mime-type=m|<name|=a|>name|>component|>components|>bom|end -> missing 3 component type
    1.3 3 start|<bom xmlns=1.3|<dependencies|<dependency|>dependency|>dependencies|>bom|end -> missing 3 dependency ref
    1.5 7 start|<bom xmlns=1.5|<components|<component type=library|<name|=a|>name|<swid tagId=t name=n patch=yes|>swid|>component|>components|>bom|end -> parse 7 patch yes xs:boolean
    1.4 3 start|<bom xmlns=1.4|<signature|<note|>note|>signature|>bom|end -> unexpected 3 signature StartElement
    // at a text
    1.5 8 start|<bom xmlns=1.5|<note|<services|=x|>services|=x|>note|=x|>bom|end -> unexpected 8 bom Characters
    1.3 3 start|<bom xmlns=1.3|<metadata|!x|=y|>metadata|>bom|end -> unexpected 3 metadata CData
    1.5 5 start|<bom xmlns=1.5|<metadata|<timestamp|=t|=u|>timestamp|>metadata|>bom|end -> unexpected 5 timestamp Characters
    // at an end
    1.3 7 start|<bom xmlns=1.3|<components|<component type=library|<name|=a|>name|>component|>components|>bom|end -> missing 7 component version
    1.5 8 start|<bom xmlns=1.5|<metadata|<tools|<tool|>tool|<components|>components|>tools|>metadata|>bom|end -> missing 8 tools tool array or services & components
    1.5 9 start|<bom xmlns=1.5|<components|<component type=library|<name|=a|>name|<swid tagId=t name=n|<text|>text|>swid|>component|>components|>bom|end -> unexpected 9 text EndElement
    1.5 6 start|<bom xmlns=1.5|<services|<service|<authenticated|=yes|>authenticated|>service|>services|>bom|end -> parse 6 authenticated yes xs:boolean
    1.5 4 start|<bom xmlns=1.5|<services|<service|>service|>services|>bom|end -> missing 4 service name
    1.4 6 start|<bom xmlns=1.4|<signature|<value|=v|>value|>signature|>bom|end -> missing 6 signature algorithm
    // the first of several, also of one that is out of balance
    1.5 4 start|<bom xmlns=1.5|<services|<service|=x|=y|>service|>services|=z|>bom|end -> unexpected 4 service Characters
    1.5 1 start|<foo|>bar|end -> unexpected 1 bom StartElement
    1.5 4 start|<bom xmlns=1.5|<components|<component type=library|=x|>components|end -> unexpected 4 component Characters
"#;

#[test]
fn refused_documents(rt: HostRuntime) -> Result<(), Fail> {
    all_rows(rt.alloc(), REFUSED)
}

// Events that are out of balance before the document's end. Where the event at that place would be a fault of the bill as
// well, the imbalance comes first.
const UNBALANCED: &str = r#"
    // no document start
    1.5 0 <bom xmlns=1.5|>bom|end -> Unbalanced 0
    1.3 0 end|start -> Unbalanced 0
    1.5 0 =x|start|<bom xmlns=1.5|>bom|end -> Unbalanced 0
    // no root
    1.5 1 start|end -> Unbalanced 1
    1.4 1 start|start|<bom xmlns=1.4|>bom|end -> Unbalanced 1
    1.5 1 start|=x|<foo|>foo|end -> Unbalanced 1
    1.5 1 start|>bom|end -> Unbalanced 1
    // another end than that of the element that is open
    1.5 2 start|<bom xmlns=1.5|>x|>bom|end -> Unbalanced 2
    1.5 2 start|<bom xmlns=1.5|end -> Unbalanced 2
    1.5 4 start|<bom xmlns=1.5|<note|=x|>bom|end -> Unbalanced 4
    1.5 5 start|<bom xmlns=1.5|<metadata|<timestamp|=t|>metadata|>bom|end -> Unbalanced 5
    1.3 3 start|<bom xmlns=1.3|<metadata|start|>metadata|>bom|end -> Unbalanced 3
    // something else after the root's end than the document's
    1.5 3 start|<bom xmlns=1.5|>bom|=x|end -> Unbalanced 3
    1.5 3 start|<bom xmlns=1.5|>bom|<foo|>foo|end -> Unbalanced 3
    1.5 3 start|<bom xmlns=1.5|>bom|>bom|end -> Unbalanced 3
    // an end that an element without a name and one without a type lack as well
    1.5 4 start|<bom xmlns=1.5|<services|<service|>services|>bom|end -> Unbalanced 4
    1.5 6 start|<bom xmlns=1.5|<metadata|<tools|<tool|>tool|end|>tools|>metadata|>bom|end -> Unbalanced 6
    // before a fault
    1.5 2 start|<bom xmlns=1.5|>x|=x|>bom|end -> Unbalanced 2
    1.5 3 start|<bom xmlns=1.5|<components|>bom|<component|>component|end -> Unbalanced 3
"#;

#[test]
fn unbalanced_events(rt: HostRuntime) -> Result<(), Fail> {
    all_rows(rt.alloc(), UNBALANCED)
}

const ELEMENT: (&str, &str) = (
    "<component type=library|<name|=a|>name|<components|",
    ">components|>component|",
);

// A document of components, each inside the one before.
fn nested(alloc: Global, levels: usize, place: Option<usize>, answer: &str) -> Result<(), Fail> {
    let first = "start|<bom xmlns=1.5|<components|";
    let line = chain(alloc, first, ELEMENT, levels, ">components|>bom|end")?;
    let events = list_of(alloc, line.as_str())?;
    let sample = Sample {
        line: "nested components",
        version: V5,
        events: events.as_slice(),
        place,
        answer,
    };
    each_way(alloc, &sample)
}

const MEMBERS: (&str, &str) = (r#"{"components":["#, r#"],"name":"a","type":"library"}"#);

#[test]
fn nested_components(rt: HostRuntime) -> Result<(), Fail> {
    let alloc = rt.alloc();
    let first = r#"{"bomFormat":"CycloneDX","components":["#;
    let last = r#"],"specVersion":"1.5","version":1}"#;
    let bill = chain(alloc, first, MEMBERS, 32, last)?;
    nested(alloc, 32, None, bill.as_str())?;
    nested(alloc, 33, Some(163), "too deep 163")
}
