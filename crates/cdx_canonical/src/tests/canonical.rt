//! The program of canonical texts: questions about one bill and about two, and words.
//!
//! A table is a text of one row per line, with ` -> ` between what is asked and its answer. Blank lines and comments are
//! passed over.

use cdx_canon::canonical;
use cdx_events::{Sink, Source};
use cdx_test_cases::programs::{Program, answers, refuses_words, tells_failing_calls};
use std::alloc::{AllocError, Global};
use std::test::Fail;

// What the row asks and its answer. Nothing answers `no answer`, so a row without one fails its test.
fn row(line: &str) -> Option<(&str, &str)> {
    let line = line.trim_ascii();
    if line.is_empty() || line.starts_with("//") {
        return None;
    }
    Some(line.split_once(" -> ").unwrap_or((line, "no answer")))
}

struct Canonical;

impl Program for Canonical {
    fn call<S: Source, K: Sink>(
        alloc: Global,
        words: &[String],
        source: &mut S,
        sink: &mut K,
    ) -> u8 {
        canonical(alloc, words, source, sink)
    }
}

// A question about two bills, of a question for each side.
fn pair(alloc: Global, left: &str, right: &str) -> Result<String, AllocError> {
    format!(in alloc; "{{\"left\":{left},\"right\":{right}}}")
}

// A failure where the question about two bills doesn't get the answer with this status.
fn two_answered(
    alloc: Global,
    (left, right): (&str, &str),
    status: u8,
    answer: &str,
) -> Result<(), Fail> {
    let both = pair(alloc, left, right)?;
    answers::<Canonical>(alloc, &["equal"], both.as_str(), status, answer)
}

// Questions about a bill, and its text.
const TEXTS: &str = r#"
    // another label
    {"doc":{"json":{"bomFormat":"CycloneDX","serialNumber":"urn:uuid:3e671687-395b-41f5-a30f-a58921a69b79","specVersion":"1.3","version":1}},"from":"1.5"} -> {"bomFormat":"CycloneDX","serialNumber":"urn:uuid:3e671687-395b-41f5-a30f-a58921a69b79","specVersion":"1.5","version":1}
    // read in an older version, which doesn't know of properties and signatures
    {"from":"1.3","doc":{"json":{"bomFormat":"CycloneDX","specVersion":"1.5","version":1,"properties":[]}}} -> {"bomFormat":"CycloneDX","specVersion":"1.5","version":1}
    // each member in byte order of its name, and none that isn't known
    {"from":"1.5","doc":{"json":{"version":1,"note":[1],"components":[{"type":"library","version":"1","name":"a","modified":true,"bom-ref":"r","supplier":{"url":[]}}],"specVersion":"1.5","bomFormat":"CycloneDX"}}} -> {"bomFormat":"CycloneDX","components":[{"bom-ref":"r","modified":true,"name":"a","supplier":{"url":[]},"type":"library","version":"1"}],"specVersion":"1.5","version":1}
    // a member that is null, and a list of nothing in a dependency
    {"from":"1.5","doc":{"json":{"bomFormat":"CycloneDX","specVersion":"1.5","version":1,"serialNumber":null,"services":[],"dependencies":[{"ref":"a","dependsOn":[]}]}}} -> {"bomFormat":"CycloneDX","dependencies":[{"ref":"a"}],"services":[],"specVersion":"1.5","version":1}
    // no tool
    {"from":"1.3","doc":{"json":{"bomFormat":"CycloneDX","specVersion":"1.3","version":1,"metadata":{"tools":[]}}}} -> {"bomFormat":"CycloneDX","metadata":{"tools":{}},"specVersion":"1.5","version":1}
    {"from":"1.5","doc":{"json":{"bomFormat":"CycloneDX","specVersion":"1.5","version":1,"metadata":{"tools":{}}}}} -> {"bomFormat":"CycloneDX","metadata":{"tools":{}},"specVersion":"1.5","version":1}
    {"from":"1.5","doc":{"json":{"bomFormat":"CycloneDX","specVersion":"1.5","version":1,"metadata":{"tools":[{}]}}}} -> {"bomFormat":"CycloneDX","metadata":{"tools":[{}]},"specVersion":"1.5","version":1}
    // escapes: those that JSON asks for, in their short form where there is one, and no other
    {"from":"1.5","doc":{"json":{"bomFormat":"CycloneDX","specVersion":"1.5","version":1,"serialNumber":"\u0041\u002f\/\u0022\u005c\u0008\u000c\u000a\u000d\u0009\u0001\u001F\u00e9"}}} -> {"bomFormat":"CycloneDX","serialNumber":"A//\"\\\b\f\n\r\t\u0001\u001fé","specVersion":"1.5","version":1}
    // characters beyond the BMP, as they stand and by two escapes, and noncharacters
    {"from":"1.5","doc":{"json":{"bomFormat":"CycloneDX","specVersion":"1.5","version":1,"serialNumber":"😀\ud83d\ude00\udbff\udfff￿"}}} -> {"bomFormat":"CycloneDX","serialNumber":"😀😀􏿿￿","specVersion":"1.5","version":1}
    // from XML
    {"doc":{"xml":[{"document":"start"},{"attributes":[{"name":"version","value":"4294967295"}],"default":"http://cyclonedx.org/schema/bom/1.4","element":"bom"},{"element":"components"},{"attributes":[{"name":"type","value":"file"}],"element":"component"},{"element":"name"},{"cdata":"a<"},{"end":"name"},{"end":"component"},{"end":"components"},{"end":"bom"},{"document":"end"}]},"from":"1.4"} -> {"bomFormat":"CycloneDX","components":[{"name":"a<","type":"file"}],"specVersion":"1.5","version":4294967295}
"#;

// A text is a bill's document, which has that text again.
#[test]
fn texts(rt: HostRuntime) -> Result<(), Fail> {
    let alloc = rt.alloc();
    for line in TEXTS.lines() {
        if let Some((asked, text)) = row(line) {
            answers::<Canonical>(alloc, &["text"], asked, 0, text)?;
            let again = format!(in alloc; "{{\"from\":\"1.5\",\"doc\":{{\"json\":{text}}}}}")?;
            answers::<Canonical>(alloc, &["text"], again.as_str(), 0, text)?;
            let is_equal = "{\"equal\":true}";
            two_answered(alloc, (asked, again.as_str()), 0, is_equal)?;
        }
    }
    Ok(())
}

// Questions about two bills, left and right with ` | ` between, and whether these have one text.
const PAIRS: &str = r#"
    // one bill in both forms
    {"doc":{"json":{"bomFormat":"CycloneDX","metadata":{"tools":[{"name":"my_tool"}]},"serialNumber":"urn:uuid:3e671687-395b-41f5-a30f-a58921a69b79","specVersion":"1.5","version":1}},"from":"1.5"} | {"doc":{"xml":[{"document":"start"},{"attributes":[{"name":"serialNumber","value":"urn:uuid:3e671687-395b-41f5-a30f-a58921a69b79"},{"name":"version","value":"1"}],"default":"http://cyclonedx.org/schema/bom/1.5","element":"bom"},{"element":"metadata"},{"element":"tools"},{"element":"tool"},{"element":"name"},{"text":"my_tool"},{"end":"name"},{"end":"tool"},{"end":"tools"},{"end":"metadata"},{"end":"bom"},{"document":"end"}]},"from":"1.5"} -> true
    // the two forms of no tool
    {"doc":{"json":{"bomFormat":"CycloneDX","metadata":{"tools":[]},"specVersion":"1.5","version":1}},"from":"1.5"} | {"doc":{"json":{"bomFormat":"CycloneDX","metadata":{"tools":{}},"specVersion":"1.5","version":1}},"from":"1.5"} -> true
    // other labels, and other versions that read
    {"from":"1.3","doc":{"json":{"bomFormat":"CycloneDX","specVersion":"1.3","version":1}}} | {"from":"1.4","doc":{"json":{"bomFormat":"CycloneDX","specVersion":"1.5","version":1}}} -> true
    // another order of members, and null for what isn't there
    {"from":"1.5","doc":{"json":{"version":1,"specVersion":"1.5","bomFormat":"CycloneDX","serialNumber":null}}} | {"doc":{"json":{"bomFormat":"CycloneDX","specVersion":"1.5","version":1}},"from":"1.5"} -> true
    // an escape
    {"from":"1.5","doc":{"json":{"bomFormat":"CycloneDX","specVersion":"1.5","version":1,"serialNumber":"\ud83d\ude00"}}} | {"from":"1.5","doc":{"json":{"bomFormat":"CycloneDX","specVersion":"1.5","version":1,"serialNumber":"😀"}}} -> true
    // two bills
    {"doc":{"json":{"bomFormat":"CycloneDX","metadata":{},"specVersion":"1.5","version":1}},"from":"1.5"} | {"doc":{"json":{"bomFormat":"CycloneDX","services":[],"specVersion":"1.5","version":1}},"from":"1.5"} -> false
    // another version of the bill
    {"from":"1.5","doc":{"json":{"bomFormat":"CycloneDX","specVersion":"1.5","version":1}}} | {"from":"1.5","doc":{"json":{"bomFormat":"CycloneDX","specVersion":"1.5","version":2}}} -> false
    // another order of items
    {"from":"1.5","doc":{"json":{"bomFormat":"CycloneDX","specVersion":"1.5","version":1,"components":[{"type":"t","name":"a"},{"type":"t","name":"b"}]}}} | {"from":"1.5","doc":{"json":{"bomFormat":"CycloneDX","specVersion":"1.5","version":1,"components":[{"type":"t","name":"b"},{"type":"t","name":"a"}]}}} -> false
    // an empty list where the other has none
    {"from":"1.5","doc":{"json":{"bomFormat":"CycloneDX","specVersion":"1.5","version":1,"components":[]}}} | {"from":"1.5","doc":{"json":{"bomFormat":"CycloneDX","specVersion":"1.5","version":1}}} -> false
    // a tool list, and a tools object with an empty part
    {"from":"1.5","doc":{"json":{"bomFormat":"CycloneDX","specVersion":"1.5","version":1,"metadata":{"tools":[{}]}}}} | {"from":"1.5","doc":{"json":{"bomFormat":"CycloneDX","specVersion":"1.5","version":1,"metadata":{"tools":[]}}}} -> false
    {"from":"1.5","doc":{"json":{"bomFormat":"CycloneDX","specVersion":"1.5","version":1,"metadata":{"tools":{"services":[]}}}}} | {"from":"1.5","doc":{"json":{"bomFormat":"CycloneDX","specVersion":"1.5","version":1,"metadata":{"tools":[]}}}} -> false
"#;

#[test]
fn pairs(rt: HostRuntime) -> Result<(), Fail> {
    let alloc = rt.alloc();
    for line in PAIRS.lines() {
        if let Some((asked, is_equal)) = row(line) {
            let (left, right) = asked.split_once(" | ").unwrap_or((asked, "no side"));
            let answer = format!(in alloc; "{{\"equal\":{is_equal}}}")?;
            two_answered(alloc, (left, right), 0, answer.as_str())?;
            two_answered(alloc, (right, left), 0, answer.as_str())?;
        }
    }
    Ok(())
}

const SHAPE: &str = "{\"request\":\"shape\"}";

const BILL: &str =
    r#"{"from":"1.5","doc":{"json":{"bomFormat":"CycloneDX","specVersion":"1.5","version":1}}}"#;

// Questions whose document is refused, and the refusal.
const REFUSED: &str = r#"
    {"doc":{"xml":[{"document":"start"},{"element":"bom"}]},"from":"1.5"} -> {"cause":"unbalanced","place":2}
    {"doc":{"json":{"extra":{"confidence":0.5},"specVersion":"1.5","version":1}},"from":"1.5"} -> {"cause":"float","path":"/extra/confidence"}
    {"doc":{"json":{"extra":{"confidence":5},"specVersion":"1.5","version":1}},"from":"1.5"} -> {"cause":"missing","path":"/bomFormat"}
    {"doc":{"json":{"bomFormat":"CycloneDX","dependencies":[{"dependsOn":null,"ref":"a"}],"specVersion":"1.5","version":1}},"from":"1.5"} -> {"cause":"wrong kind","path":"/dependencies/0/dependsOn"}
    {"doc":{"json":{"bomFormat":"CycloneDX","specVersion":"1.5","version":-1}},"from":"1.5"} -> {"cause":"out of range","path":"/version"}
    {"doc":{"json":{"bomFormat":"X","specVersion":"1.5","version":1}},"from":"1.5"} -> {"cause":"bad format","path":"/bomFormat"}
    {"doc":{"json":{"bomFormat":"CycloneDX","specVersion":"1.6","version":1}},"from":"1.5"} -> {"cause":"bad spec version","path":"/specVersion"}
    {"doc":{"json":null},"from":"1.5"} -> {"cause":"wrong kind","path":""}
    {"doc":{"xml":[{"document":"start"},{"attributes":[{"name":"version","value":"1"}],"default":"http://cyclonedx.org/schema/bom/1.5","element":"bom"},{"end":"bom"},{"document":"end"}]},"from":"1.4"} -> {"actual":"http://cyclonedx.org/schema/bom/1.5","cause":"namespace","expected":"http://cyclonedx.org/schema/bom/1.4","place":1}
    {"doc":{"xml":[{"document":"start"},{"element":"foo"},{"end":"foo"},{"document":"end"}]},"from":"1.5"} -> {"cause":"unexpected","element":"bom","place":1}
    {"doc":{"xml":[{"document":"start"},{"attributes":[{"name":"version","value":"1"}],"default":"http://cyclonedx.org/schema/bom/1.5","element":"bom"},{"element":"metadata"},{"element":"tools"},{"element":"tool"},{"end":"tool"},{"element":"components"},{"end":"components"},{"end":"tools"},{"end":"metadata"},{"end":"bom"},{"document":"end"}]},"from":"1.5"} -> {"cause":"missing","element":"tools","field":"tool array or services & components","place":8}
    {"doc":{"xml":[{"document":"start"},{"attributes":[{"name":"version","value":"4294967296"}],"default":"http://cyclonedx.org/schema/bom/1.5","element":"bom"},{"end":"bom"},{"document":"end"}]},"from":"1.5"} -> {"cause":"parse","element":"version","place":1,"value":"4294967296"}
"#;

// The refusal of a question about two bills, with its side.
fn sided(alloc: Global, refusal: &str, side: &str) -> Result<String, AllocError> {
    format!(in alloc; "{{\"refused\":{refusal},\"side\":\"{side}\"}}")
}

// A failure where a question isn't refused so: alone, on either side beside a bill, and on both. One that is none
// beside it comes first.
fn refused_so(alloc: Global, asked: &str, refusal: &str) -> Result<(), Fail> {
    let alone = format!(in alloc; "{{\"refused\":{refusal}}}")?;
    answers::<Canonical>(alloc, &["text"], asked, 1, alone.as_str())?;
    let left = sided(alloc, refusal, "left")?;
    two_answered(alloc, (asked, BILL), 1, left.as_str())?;
    two_answered(alloc, (asked, asked), 1, left.as_str())?;
    let right = sided(alloc, refusal, "right")?;
    two_answered(alloc, (BILL, asked), 1, right.as_str())?;
    two_answered(alloc, (asked, "null"), 2, SHAPE)?;
    two_answered(alloc, ("null", asked), 2, SHAPE)
}

// A failure where the refusal isn't that of the left side beside each other one that is refused too.
fn left_comes_first(alloc: Global, asked: &str, refusal: &str) -> Result<(), Fail> {
    let left = sided(alloc, refusal, "left")?;
    for line in REFUSED.lines() {
        if let Some((other, _)) = row(line) {
            two_answered(alloc, (asked, other), 1, left.as_str())?;
        }
    }
    Ok(())
}

#[test]
fn refused_sides(rt: HostRuntime) -> Result<(), Fail> {
    let alloc = rt.alloc();
    for line in REFUSED.lines() {
        if let Some((asked, refusal)) = row(line) {
            refused_so(alloc, asked, refusal)?;
            left_comes_first(alloc, asked, refusal)?;
        }
    }
    Ok(())
}

// 33 components, each inside the one before.
#[test]
fn too_deep(rt: HostRuntime) -> Result<(), Fail> {
    let alloc = rt.alloc();
    let open = ",\"components\":[{\"type\":\"library\",\"name\":\"a\"".repeat(alloc, 33)?;
    let close = "}]".repeat(alloc, 33)?;
    let path = "/components/0".repeat(alloc, 33)?;
    let asked = format!(in alloc;
        "{{\"from\":\"1.5\",\"doc\":{{\"json\":{{\"bomFormat\":\"CycloneDX\",\"specVersion\":\"1.5\",\"version\":1{open}{close}}}}}}}"
    )?;
    let refusal = format!(in alloc; "{{\"cause\":\"too deep\",\"path\":\"{path}\"}}")?;
    refused_so(alloc, asked.as_str(), refusal.as_str())
}

// What is no question about a bill, and so no side.
const SHAPELESS: &str = r#"
    null
    []
    {}
    "text"
    {"from":"1.5"}
    {"doc":{"json":1}}
    {"from":"1.6","doc":{"json":{"bomFormat":"CycloneDX","specVersion":"1.5","version":1}}}
    {"from":"1.5","doc":{"json":{"bomFormat":"CycloneDX","specVersion":"1.5","version":1}},"hops":[]}
    {"from":"1.5","doc":{"json":1,"xml":[]}}
    {"from":"1.5","doc":{"xml":[{"text":1}]}}
    {"from":"1.5","doc":{"xml":{}}}
    {"left":{"from":"1.5","doc":{"json":1}},"right":{"from":"1.5","doc":{"json":1}}}
"#;

// What is no question about two bills.
const UNPAIRED: &str = r#"
    null
    []
    {"from":"1.5","doc":{"json":{"bomFormat":"CycloneDX","specVersion":"1.5","version":1}}}
    {"left":{"from":"1.5","doc":{"json":1}}}
    {"right":{"from":"1.5","doc":{"json":1}}}
    {"left":{"from":"1.5","doc":{"json":1}},"Right":{"from":"1.5","doc":{"json":1}}}
    {"left":{"from":"1.5","doc":{"json":1}},"right":{"from":"1.5","doc":{"json":1}},"side":"left"}
"#;

#[test]
fn shapes(rt: HostRuntime) -> Result<(), Fail> {
    let alloc = rt.alloc();
    for asked in SHAPELESS.trim_ascii().lines() {
        answers::<Canonical>(alloc, &["text"], asked, 2, SHAPE)?;
        two_answered(alloc, (asked, BILL), 2, SHAPE)?;
        two_answered(alloc, (BILL, asked), 2, SHAPE)?;
    }
    for asked in UNPAIRED.trim_ascii().lines() {
        answers::<Canonical>(alloc, &["equal"], asked, 2, SHAPE)?;
    }
    Ok(())
}

const OTHER_WORDS: [&[&str]; 8] = [
    &[],
    &[""],
    &["road"],
    &["Text"],
    &["text "],
    &["text", "text"],
    &["equal", ""],
    &["text", "1.5"],
];

#[test]
fn other_words(rt: HostRuntime) -> Result<(), Fail> {
    let alloc = rt.alloc();
    for words in &OTHER_WORDS {
        refuses_words::<Canonical>(alloc, words, BILL)?;
    }
    Ok(())
}

#[test]
fn no_json(rt: HostRuntime) -> Result<(), Fail> {
    let alloc = rt.alloc();
    let answer = "{\"request\":\"not JSON\"}";
    for input in ["", "{", "\u{feff}{}", "{}{}", "nul"] {
        answers::<Canonical>(alloc, &["text"], input, 2, answer)?;
        answers::<Canonical>(alloc, &["equal"], input, 2, answer)?;
    }
    Ok(())
}

#[test]
fn failing_calls(rt: HostRuntime) -> Result<(), Fail> {
    let text = r#"{"bomFormat":"CycloneDX","specVersion":"1.5","version":1}"#;
    tells_failing_calls::<Canonical>(rt.alloc(), &["text"], BILL, text)
}
