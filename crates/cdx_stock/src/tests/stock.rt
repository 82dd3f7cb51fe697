//! The components of bills as the program answers them.

use cdx_events::{Sink, Source};
use cdx_inventory::stock;
use cdx_test_cases::programs::{
    Program, answers, refuses_a_byte_more, refuses_words, tells_failing_calls,
};
use std::alloc::Global;
use std::test::Fail;

// A question about the bill of a build tool.
const SHOP: &str =
    r#"{"doc":{"json":{"$schema":"http://cyclonedx.org/schema/bom-1.4.schema.json","bomFormat":"CycloneDX","components":[{"bom-ref":"pkg:cargo/log@0.4.20","externalReferences":[{"type":"vcs","url":"https://example.org/log"}],"licenses":[{"license":{"id":"MIT"}},{"expression":"MIT OR Apache-2.0"}],"name":"log","purl":"pkg:cargo/log@0.4.20","scope":"required","type":"library","version":"0.4.20"}],"dependencies":[{"dependsOn":["pkg:cargo/log@0.4.20"],"ref":"app"},{"ref":"pkg:cargo/log@0.4.20"}],"metadata":{"component":{"bom-ref":"app","name":"shop","type":"application","version":"1.0.0"},"timestamp":"2024-05-01T10:00:00Z","tools":[{"hashes":[{"alg":"SHA-256","content":"ab12"}],"name":"scan","vendor":"acme","version":"2.1.0"}]},"serialNumber":"urn:uuid:3e671687-395b-41f5-a30f-a58921a69b79","specVersion":"1.4","version":1,"vulnerabilities":[]}},"from":"1.4"}"#;

// What the words list of it.
const SHOP_LISTS: [(&[&str], &str); 4] = [
    (
        &["list"],
        r#"{"components":[{"licenses":[],"name":"shop","path":"/metadata/component","version":"1.0.0"},{"licenses":["MIT","MIT OR Apache-2.0"],"name":"log","path":"/components/0","version":"0.4.20"}]}"#,
    ),
    (
        &["list", "MIT"],
        r#"{"components":[{"licenses":["MIT","MIT OR Apache-2.0"],"name":"log","path":"/components/0","version":"0.4.20"}]}"#,
    ),
    (&["list", "Apache-2.0"], r#"{"components":[]}"#),
    (
        &["list", "MIT OR Apache-2.0"],
        r#"{"components":[{"licenses":["MIT","MIT OR Apache-2.0"],"name":"log","path":"/components/0","version":"0.4.20"}]}"#,
    ),
];

// Members of a bill, and its components.
const PLACES: [(&str, &str); 9] = [
    // no component
    (r#""services":[{"name":"s"}],"metadata":{}"#, ""),
    // ancestors before components
    (
        r#""components":[{"type":"library","name":"a","pedigree":{"ancestors":[{"type":"library","name":"b"}]},"components":[{"type":"library","name":"c"}]}]"#,
        r#"{"licenses":[],"name":"a","path":"/components/0"},{"licenses":[],"name":"b","path":"/components/0/pedigree/ancestors/0"},{"licenses":[],"name":"c","path":"/components/0/components/0"}"#,
    ),
    // a pedigree
    (
        r#""components":[{"type":"library","name":"a","pedigree":{"variants":[{"type":"library","name":"d"},{"type":"library","name":"e"}],"descendants":[{"type":"library","name":"c"}],"ancestors":[{"type":"library","name":"b"}]}}]"#,
        r#"{"licenses":[],"name":"a","path":"/components/0"},{"licenses":[],"name":"b","path":"/components/0/pedigree/ancestors/0"},{"licenses":[],"name":"c","path":"/components/0/pedigree/descendants/0"},{"licenses":[],"name":"d","path":"/components/0/pedigree/variants/0"},{"licenses":[],"name":"e","path":"/components/0/pedigree/variants/1"}"#,
    ),
    // metadata and tools, and an empty version
    (
        r#""components":[{"type":"library","name":"a"}],"metadata":{"component":{"type":"library","name":"m","version":""},"tools":{"components":[{"type":"library","name":"t","version":"1"}],"services":[{"name":"s"}]}}"#,
        r#"{"licenses":[],"name":"t","path":"/metadata/tools/components/0","version":"1"},{"licenses":[],"name":"m","path":"/metadata/component","version":""},{"licenses":[],"name":"a","path":"/components/0"}"#,
    ),
    // a list of tools
    (r#""metadata":{"tools":[{"name":"t","version":"1"}]}"#, ""),
    // inside a tool
    (
        r#""metadata":{"tools":{"components":[{"type":"library","name":"a","components":[{"type":"library","name":"b"}]}]}}"#,
        r#"{"licenses":[],"name":"a","path":"/metadata/tools/components/0"},{"licenses":[],"name":"b","path":"/metadata/tools/components/0/components/0"}"#,
    ),
    // at several depths
    (
        r#""metadata":{"component":{"type":"library","name":"m","components":[{"type":"library","name":"a","components":[{"type":"library","name":"b","pedigree":{"variants":[{"type":"library","name":"c","components":[{"type":"library","name":"d"}]}]}}]}]}}"#,
        r#"{"licenses":[],"name":"m","path":"/metadata/component"},{"licenses":[],"name":"a","path":"/metadata/component/components/0"},{"licenses":[],"name":"b","path":"/metadata/component/components/0/components/0"},{"licenses":[],"name":"c","path":"/metadata/component/components/0/components/0/pedigree/variants/0"},{"licenses":[],"name":"d","path":"/metadata/component/components/0/components/0/pedigree/variants/0/components/0"}"#,
    ),
    // each kind of a license
    (
        r#""components":[{"type":"library","name":"a","licenses":[{"license":{"name":"N"}},{"expression":"A OR B"},{"license":{"id":"MIT","name":"M"}}]}]"#,
        r#"{"licenses":["N","A OR B","MIT"],"name":"a","path":"/components/0"}"#,
    ),
    // licenses in evidence
    (
        r#""components":[{"type":"library","name":"a","evidence":{"licenses":[{"license":{"id":"MIT"}}]}}]"#,
        r#"{"licenses":[],"name":"a","path":"/components/0"}"#,
    ),
];

// A license, members of a bill, and its components under that license.
const UNDER: [(&str, &str, &str); 7] = [
    // an expression is its own text
    (
        "MIT",
        r#""components":[{"type":"library","name":"a","licenses":[{"expression":"MIT OR Apache-2.0"}]},{"type":"library","name":"b","licenses":[{"expression":"MIT"}]}]"#,
        r#"{"licenses":["MIT"],"name":"b","path":"/components/1"}"#,
    ),
    // licenses in evidence
    (
        "MIT",
        r#""components":[{"type":"library","name":"a","evidence":{"licenses":[{"license":{"id":"MIT"}}]}}]"#,
        "",
    ),
    // inside a component under another license
    (
        "MIT",
        r#""components":[{"type":"library","name":"a","licenses":[{"license":{"id":"ISC"}}],"pedigree":{"ancestors":[{"type":"library","name":"b","licenses":[{"license":{"id":"ISC"}},{"license":{"id":"MIT"}}]}]}}]"#,
        r#"{"licenses":["ISC","MIT"],"name":"b","path":"/components/0/pedigree/ancestors/0"}"#,
    ),
    // an empty text
    (
        "",
        r#""components":[{"type":"library","name":"a"},{"type":"library","name":"b","licenses":[{"license":{"name":""}}]}]"#,
        r#"{"licenses":[""],"name":"b","path":"/components/1"}"#,
    ),
    // a part of a text
    (
        "MI",
        r#""components":[{"type":"library","name":"a","licenses":[{"license":{"id":"MIT"}}]}]"#,
        "",
    ),
    // other letters
    (
        "mit",
        r#""components":[{"type":"library","name":"a","licenses":[{"license":{"id":"MIT"}}]}]"#,
        "",
    ),
    // any text
    (
        r#"Ärzte & "Söhne""#,
        r#""components":[{"type":"library","name":"a","licenses":[{"license":{"name":"Ärzte & \"Söhne\""}}]}]"#,
        r#"{"licenses":["Ärzte & \"Söhne\""],"name":"a","path":"/components/0"}"#,
    ),
];

const OTHER_WORDS: [&[&str]; 9] = [
    &[],
    &[""],
    &["lists"],
    &["List"],
    &["list "],
    &["MIT"],
    &["MIT", "list"],
    &["list", "MIT", "ISC"],
    &["list", "", ""],
];

// What is no question, and why.
const NO_QUESTIONS: [(&str, &str); 10] = [
    ("", r#"{"request":"not JSON"}"#),
    (r#"{"from":"1.5""#, r#"{"request":"not JSON"}"#),
    ("null", r#"{"request":"shape"}"#),
    (r#"{"from":"1.5"}"#, r#"{"request":"shape"}"#),
    (r#"{"doc":{"json":{}}}"#, r#"{"request":"shape"}"#),
    (
        r#"{"from":"1.6","doc":{"json":{}}}"#,
        r#"{"request":"shape"}"#,
    ),
    (
        r#"{"from":"1.5","doc":{"json":{},"xml":[]}}"#,
        r#"{"request":"shape"}"#,
    ),
    (
        r#"{"from":"1.5","doc":{"xml":[{"text":1}]}}"#,
        r#"{"request":"shape"}"#,
    ),
    (
        r#"{"from":"1.5","doc":{"json":{}},"hops":[]}"#,
        r#"{"request":"shape"}"#,
    ),
    (
        r#"{"from":"1.5","doc":{"xml":[]},"hops":[]}"#,
        r#"{"request":"shape"}"#,
    ),
];

// Questions whose document is refused, and how.
const REFUSED: [(&str, &str); 8] = [
    // no event
    (
        r#"{"from":"1.5","doc":{"xml":[]}}"#,
        r#"{"refused":{"cause":"unbalanced","place":0}}"#,
    ),
    // an end too few
    (
        r#"{"from":"1.5","doc":{"xml":[{"document":"start"},{"element":"bom"}]}}"#,
        r#"{"refused":{"cause":"unbalanced","place":2}}"#,
    ),
    // a component without a name
    (
        r#"{"from":"1.5","doc":{"json":{"bomFormat":"CycloneDX","specVersion":"1.5","version":1,"components":[{"type":"library"}]}}}"#,
        r#"{"refused":{"cause":"missing","path":"/components/0/name"}}"#,
    ),
    // a component without a version in 1.3
    (
        r#"{"from":"1.3","doc":{"json":{"bomFormat":"CycloneDX","specVersion":"1.3","version":1,"components":[{"type":"library","name":"a"}]}}}"#,
        r#"{"refused":{"cause":"missing","path":"/components/0/version"}}"#,
    ),
    // a float
    (
        r#"{"from":"1.5","doc":{"json":{"bomFormat":"CycloneDX","specVersion":"1.5","version":0.5}}}"#,
        r#"{"refused":{"cause":"float","path":"/version"}}"#,
    ),
    // another kind
    (
        r#"{"from":"1.5","doc":{"json":null}}"#,
        r#"{"refused":{"cause":"wrong kind","path":""}}"#,
    ),
    // the namespace of another version
    (
        r#"{"from":"1.4","doc":{"xml":[{"document":"start"},{"element":"bom","default":"http://cyclonedx.org/schema/bom/1.5"},{"end":"bom"},{"document":"end"}]}}"#,
        r#"{"refused":{"actual":"http://cyclonedx.org/schema/bom/1.5","cause":"namespace","expected":"http://cyclonedx.org/schema/bom/1.4","place":1}}"#,
    ),
    // a text between components
    (
        r#"{"from":"1.5","doc":{"xml":[{"document":"start"},{"element":"bom","default":"http://cyclonedx.org/schema/bom/1.5"},{"element":"components"},{"text":"none"},{"end":"components"},{"end":"bom"},{"document":"end"}]}}"#,
        r#"{"refused":{"cause":"unexpected","element":"components","place":3}}"#,
    ),
];

// The same components in a document in XML.
const SHOP_IN_XML: &str =
    r#"{"from":"1.4","doc":{"xml":[{"document":"start"},{"element":"bom","default":"http://cyclonedx.org/schema/bom/1.4"},{"element":"metadata"},{"element":"component","attributes":[{"name":"type","value":"application"}]},{"element":"name"},{"text":"shop"},{"end":"name"},{"element":"version"},{"text":"1.0.0"},{"end":"version"},{"end":"component"},{"end":"metadata"},{"element":"components"},{"element":"component","attributes":[{"name":"type","value":"library"}]},{"element":"name"},{"text":"log"},{"end":"name"},{"element":"version"},{"text":"0.4.20"},{"end":"version"},{"element":"licenses"},{"element":"license"},{"element":"id"},{"text":"MIT"},{"end":"id"},{"end":"license"},{"element":"expression"},{"text":"MIT OR Apache-2.0"},{"end":"expression"},{"end":"licenses"},{"end":"component"},{"end":"components"},{"end":"bom"},{"document":"end"}]}}"#;

struct Stock;

impl Program for Stock {
    fn call<S: Source, K: Sink>(
        alloc: Global,
        words: &[String],
        source: &mut S,
        sink: &mut K,
    ) -> u8 {
        stock(alloc, words, source, sink)
    }
}

// A failure where the program doesn't answer these components for the bill of 1.5 with these members.
fn lists(alloc: Global, words: &[&str], members: &str, components: &str) -> Result<(), Fail> {
    let head =
        r#"{"from":"1.5","doc":{"json":{"bomFormat":"CycloneDX","specVersion":"1.5","version":1,"#;
    let question = format!(in alloc; "{head}{members}}}}}}}")?;
    let answer = format!(in alloc; "{{\"components\":[{components}]}}")?;
    answers::<Stock>(alloc, words, question.as_str(), 0, answer.as_str())
}

#[test]
fn a_shop(rt: HostRuntime) -> Result<(), Fail> {
    let alloc = rt.alloc();
    for (words, answer) in &SHOP_LISTS {
        answers::<Stock>(alloc, words, SHOP, 0, answer)?;
        answers::<Stock>(alloc, words, SHOP_IN_XML, 0, answer)?;
    }
    Ok(())
}

#[test]
fn components_in_each_place(rt: HostRuntime) -> Result<(), Fail> {
    let alloc = rt.alloc();
    for (members, components) in &PLACES {
        lists(alloc, &["list"], members, components)?;
    }
    Ok(())
}

#[test]
fn components_under_a_license(rt: HostRuntime) -> Result<(), Fail> {
    let alloc = rt.alloc();
    for (license, members, components) in &UNDER {
        lists(alloc, &["list", license], members, components)?;
    }
    Ok(())
}

#[test]
fn other_words(rt: HostRuntime) -> Result<(), Fail> {
    let alloc = rt.alloc();
    for words in &OTHER_WORDS {
        refuses_words::<Stock>(alloc, words, SHOP)?;
    }
    Ok(())
}

#[test]
fn refusals(rt: HostRuntime) -> Result<(), Fail> {
    let alloc = rt.alloc();
    for (question, answer) in &NO_QUESTIONS {
        answers::<Stock>(alloc, &["list"], question, 2, answer)?;
        answers::<Stock>(alloc, &["list", "MIT"], question, 2, answer)?;
    }
    for (question, answer) in &REFUSED {
        answers::<Stock>(alloc, &["list"], question, 1, answer)?;
        answers::<Stock>(alloc, &["list", "MIT"], question, 1, answer)?;
    }
    Ok(())
}

#[test]
fn one_byte_too_many(rt: HostRuntime) -> Result<(), Fail> {
    refuses_a_byte_more::<Stock>(rt.alloc(), &["list"])
}

#[test]
fn failing_calls(rt: HostRuntime) -> Result<(), Fail> {
    let words = ["list", "Apache-2.0"];
    tells_failing_calls::<Stock>(rt.alloc(), &words, SHOP, "{\"components\":[]}")
}
