//! The helpers that read and write single elements.

use cdx_events::{EventWriter, Events, List, Text, XmlEvent};
use cdx_leaf::{
    FromXmlType, Root, attribute_or_error, closing_tag_or_error, expected_namespace_or_error,
    inner_text_or_error, inner_text_or_none, optional_attribute, read_boolean_tag,
    read_lax_validation_list_tag, read_lax_validation_tag, read_list_tag, read_optional_tag,
    read_simple_tag, read_u32_tag, root_of, unexpected_element_error,
};
use cdx_models::{Hash, XmlReadError, XmlWriteError};
use cdx_test_cases::checks::{holds, row_is, text_is};
use cdx_test_cases::documents::document;
use cdx_test_cases::faults::xml_fault_line;
use cdx_test_cases::forms::{V5, closed, opened};
use cdx_test_cases::rows::row;
use cdx_write::{
    write_close_tag, write_list_string_tag, write_list_tag, write_simple_option_tag,
    write_simple_tag, write_start_tag,
};
use std::alloc::{AllocError, Global};
use std::fmt::Display;
use std::test::Fail;

fn told_text(alloc: Global, answer: Result<Text, XmlReadError>) -> Result<String, AllocError> {
    match answer {
        Ok(text) => String::from_str(alloc, text.as_str()),
        Err(fault) => xml_fault_line(alloc, &fault),
    }
}

fn optional_answer(
    alloc: Global,
    answer: Result<Option<Text>, XmlReadError>,
) -> Result<String, AllocError> {
    match answer {
        Ok(Some(text)) => String::from_str(alloc, text.as_str()),
        Ok(None) => String::from_str(alloc, "none"),
        Err(fault) => xml_fault_line(alloc, &fault),
    }
}

fn printed<T: Display + Drop>(
    alloc: Global,
    answer: Result<T, XmlReadError>,
) -> Result<String, AllocError> {
    match answer {
        Ok(value) => format!(in alloc; "{value}"),
        Err(fault) => xml_fault_line(alloc, &fault),
    }
}

fn list_answer(
    alloc: Global,
    answer: Result<List<Hash>, XmlReadError>,
) -> Result<String, AllocError> {
    match answer {
        Ok(hashes) => format!(in alloc; "{}", hashes.len()),
        Err(fault) => xml_fault_line(alloc, &fault),
    }
}

fn unit_answer(alloc: Global, answer: Result<(), XmlReadError>) -> Result<String, AllocError> {
    match answer {
        Ok(()) => String::from_str(alloc, "closed"),
        Err(fault) => xml_fault_line(alloc, &fault),
    }
}

// What the helper of this word answers for the document.
fn answer(alloc: Global, helper: &str, events: &Events) -> Result<String, AllocError> {
    let Root {
        mut reader,
        name,
        attributes,
        namespace,
        ..
    } = root_of(events);
    match helper {
        "number" => printed(alloc, read_u32_tag(alloc, &mut reader, name)),
        "boolean" => printed(alloc, read_boolean_tag(alloc, &mut reader, name)),
        "optional" => optional_answer(alloc, read_optional_tag(alloc, &mut reader, name)),
        "simple" => told_text(alloc, read_simple_tag(alloc, &mut reader, name)),
        "inner" => told_text(alloc, inner_text_or_error(alloc, &mut reader, name)),
        "inner-or-none" => optional_answer(alloc, inner_text_or_none(alloc, &mut reader, name)),
        "closing" => unit_answer(alloc, closing_tag_or_error(alloc, &mut reader, name)),
        "hashes" => list_answer(alloc, read_list_tag(alloc, &mut reader, V5, name, "hash")),
        "lax-hashes" => list_answer(
            alloc,
            read_lax_validation_list_tag(alloc, &mut reader, V5, name, "hash"),
        ),
        "lax" => {
            read_lax_validation_tag(&mut reader, name);
            format!(in alloc; "{}", reader.place())
        }
        "attribute-x" => told_text(alloc, attribute_or_error(alloc, 1, name, attributes, "x")),
        "namespace" => unit_answer(alloc, expected_namespace_or_error(alloc, V5, namespace)),
        _ => String::from_str(alloc, "no such helper"),
    }
}

const READ: &str = r#"
    number <n|= 7 |>n -> 7
    number <n|=x|>n -> parse 2 n x u32
    number <n|=4294967296|>n -> parse 2 n 4294967296 u32
    boolean <b|=1|>b -> true
    boolean <b|=TRUE|>b -> parse 3 b TRUE xs:boolean
    optional <s|>s -> none
    optional <s|=x|>s -> x
    simple <s|<t|>t|>s -> unexpected 2 s StartElement
    simple <s|>s ->
    inner <s|>s -> unexpected 2 s EndElement
    inner-or-none <s|>s -> none
    inner-or-none <s|=x|>s -> x
    closing <s|=x|>s -> unexpected 2 s Characters
    hashes <hashes|<hash alg=algorithm|=hash value|>hash|>hashes -> 1
    hashes <hashes|<note|>note|>hashes -> unexpected 2 hashes StartElement
    lax-hashes <hashes|<note|>note|>hashes -> 0
    lax <hashes|<note|>note|>hashes -> 5
    attribute-x <a x=1|>a -> 1
    attribute-x <a y=1|>a -> missing 1 a x
    namespace <a|>a -> none for http://cyclonedx.org/schema/bom/1.5
    namespace <a xmlns=1.5|>a -> closed
"#;

#[test]
fn read(rt: HostRuntime) -> Result<(), Fail> {
    let alloc = rt.alloc();
    for line in READ.lines() {
        if let Some((given, expected)) = row(line) {
            let (helper, element) = given.split_once(' ').unwrap_or((given, ""));
            let whole = format!(in alloc; "start|{element}|end")?;
            let events = document(alloc, whole.as_str())?;
            row_is(given, answer(alloc, helper, &events)?.as_str(), expected)?;
        }
    }
    Ok(())
}

// What the text is as an integer, and where it is none as a boolean.
const VALUES: &str = r#"
    8 -> 8 / parse 1 b 8 xs:boolean
    +08 -> 8 / parse 1 b +08 xs:boolean
    + -> parse 1 n + xs:integer / parse 1 b + xs:boolean
    1 -> 1 / true
    yes -> parse 1 n yes xs:integer / parse 1 b yes xs:boolean
"#;

fn told_value(alloc: Global, text: &str) -> Result<String, AllocError> {
    let number = printed(alloc, u32::from_xml_value(alloc, 1, "n", text))?;
    let boolean = printed(alloc, bool::from_xml_value(alloc, 1, "b", text))?;
    format!(in alloc; "{} / {}", number.as_str(), boolean.as_str())
}

#[test]
fn values(rt: HostRuntime) -> Result<(), Fail> {
    let alloc = rt.alloc();
    for line in VALUES.lines() {
        if let Some((text, expected)) = row(line) {
            row_is(text, told_value(alloc, text)?.as_str(), expected)?;
        }
    }
    text_is(bool::xml_type_display(), "xs:boolean")?;
    text_is(u32::xml_type_display(), "xs:integer")
}

// Whether an element with the attribute `x` has the attribute.
fn has_attribute(alloc: Global, name: &str) -> Result<bool, Fail> {
    let events = document(alloc, "start|<a x=1|>a|end")?;
    Ok(optional_attribute(root_of(&events).attributes, name).is_some())
}

// What the fault of a text in the element tells.
fn unexpected(alloc: Global, element: &str) -> Result<String, AllocError> {
    let text = XmlEvent::Characters(Text::new(alloc, "x")?);
    xml_fault_line(alloc, &unexpected_element_error(alloc, 2, element, &text)?)
}

#[test]
fn attributes_and_faults(rt: HostRuntime) -> Result<(), Fail> {
    let alloc = rt.alloc();
    holds("the attribute is found", has_attribute(alloc, "x")?)?;
    holds("no other attribute is found", !has_attribute(alloc, "y")?)?;
    text_is(
        unexpected(alloc, "a")?.as_str(),
        "unexpected 2 a Characters",
    )
}

fn write_texts(alloc: Global, writer: &mut EventWriter) -> Result<(), XmlWriteError> {
    write_simple_tag(alloc, writer, "t", "x")?;
    write_simple_tag(alloc, writer, "t", "")?;
    write_simple_option_tag(alloc, writer, "o", Some("x"))?;
    write_simple_option_tag(alloc, writer, "o", None)?;
    write_start_tag(alloc, writer, "s")?;
    write_close_tag(alloc, writer, "s")
}

fn write_lists(alloc: Global, writer: &mut EventWriter) -> Result<(), Fail> {
    let none: List<Hash> = List::new(alloc);
    write_list_tag(alloc, writer, V5, "hashes", &none)?;
    let mut texts = List::new(alloc);
    texts.push(Text::new(alloc, "x")?)?;
    Ok(write_list_string_tag(alloc, writer, "l", "c", &texts)?)
}

#[test]
fn written(rt: HostRuntime) -> Result<(), Fail> {
    let alloc = rt.alloc();
    let mut writer = opened(alloc)?;
    write_texts(alloc, &mut writer)?;
    write_lists(alloc, &mut writer)?;
    let line = "<t|=x|>t|<t|=|>t|<o|=x|>o|<s|>s|<hashes|>hashes|<l|<c|=x|>c|>l";
    text_is(closed(alloc, writer)?.as_str(), line)
}
