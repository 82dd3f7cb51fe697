//! Booleans and numbers as texts.

ghost use Rattle.std.specs.Prelude.{◌≡◌, ◌+◌};
ghost use Rattle.cdx_models.specs.Trees.{present};
ghost use Rattle.cdx_schema.specs.XmlReading.{find_attribute};
ghost use Rattle.cdx_schema.specs.XmlTexts.{boolean_of, number_of};
ghost use Rattle.cdx_leaf.specs.Attribute.{GivesAt};
ghost use Rattle.cdx_leaf.specs.Numbers.{parsed_attribute};

use crate::attribute::optional_attribute;
use crate::error::{Reading, invalid_parse_error};
use crate::start::Start;
use cdx_models::{HasTree, XmlReadError};
use std::alloc::Global;

/// What a text is read as, by a data type of XML Schema.
pub trait FromXmlType: HasTree + Drop {
    ghost use Rattle.std.specs.Prelude.{◌≡◌, ◌+◌};
    ghost use Rattle.cdx_schema.specs.Kinds.{Kind};
    ghost use Rattle.cdx_schema.specs.XmlTexts.{type_name};
    ghost use Rattle.cdx_leaf.specs.Attribute.{GivesAt};
    ghost use Rattle.cdx_leaf.specs.Numbers.{value_read};

    /// The kind as which a text is read.
    ghost value_kind: { Kind };

    /// The data type's name, as `xs:integer`.
    fn xml_type_display() -> &'static str
        ensures { result.now ≡ type_name value_kind };

    /// The value of the text, which isn't trimmed. `InvalidParseError` at `place` exactly where the text is none, with
    /// the name of the element or attribute that holds it, the text and the data type's name.
    fn from_xml_value(
        alloc: Global,
        place: usize,
        element: &str,
        value: &str,
    ) -> Result<Self, XmlReadError>
        ensures { GivesAt Self.tree (place + 1) (value_read value_kind place element.now value.now)
            result };
}

fn boolean_of(text: &str) -> Option<bool>
    ensures { result ≡ boolean_of text.now }
{
    if text == "true" {
        Some(true)
    } else if text == "1" {
        Some(true)
    } else if text == "false" {
        Some(false)
    } else if text == "0" {
        Some(false)
    } else {
        None
    }
}

pub(crate) fn number_of(text: &str) -> Option<u32>
    ensures { result ≡ number_of text.now }
{
    match text.parse::<u32>() {
        Ok(number) => Some(number),
        Err(_) => None,
    }
}

/// `true`, `1`, `false` or `0`.
impl FromXmlType for bool {
    ghost use Rattle.cdx_schema.specs.Kinds.{a_boolean};

    ghost value_kind = { a_boolean };

    fn xml_type_display() -> &'static str {
        "xs:boolean"
    }

    fn from_xml_value(
        alloc: Global,
        place: usize,
        element: &str,
        value: &str,
    ) -> Result<bool, XmlReadError> {
        match boolean_of(value) {
            Some(truth) => Ok(truth),
            None => Err(invalid_parse_error(alloc, place, element, value, "xs:boolean")?),
        }
    }
}

/// An optional `+` and one or more ASCII digits, below 2 to the 32nd.
impl FromXmlType for u32 {
    ghost use Rattle.cdx_schema.specs.Kinds.{a_number};

    ghost value_kind = { a_number };

    fn xml_type_display() -> &'static str {
        "xs:integer"
    }

    fn from_xml_value(
        alloc: Global,
        place: usize,
        element: &str,
        value: &str,
    ) -> Result<u32, XmlReadError> {
        match number_of(value) {
            Some(number) => Ok(number),
            None => Err(invalid_parse_error(alloc, place, element, value, "xs:integer")?),
        }
    }
}

/// The value of the first attribute of that local name, where there is one. A text that is no value is refused at the
/// start.
pub fn attribute_value<T: FromXmlType>(opened: &Start<'_>, expected: &str) -> Reading<Option<T>>
    ensures { GivesAt (present T.tree) (opened.now.place + 1)
        (parsed_attribute T.value_kind opened.now.place expected.now
        (find_attribute expected.now opened.now.attributes.now))
        result }
{
    match optional_attribute(opened.attributes, expected) {
        Some(value) => {
            let text = value.as_str();
            Ok(Some(T::from_xml_value(opened.alloc, opened.place, expected, text)?))
        }
        None => Ok(None),
    }
}
