//! Records read from XML: traits with laws, helpers, and the leaf records.
#![tactic(auto)]

mod attribute;
mod child;
mod children;
mod content;
mod error;
mod from_xml;
mod lists;
mod namespace;
mod reading;
mod record;
mod root;
mod rule;
mod start;
mod tags;
mod take;
mod taken;
mod texts;
mod xml_type;

pub use attribute::{
    attribute_or_error, attribute_or_none, attribute_since, child_or_error, last_attribute,
    optional_attribute, required_attribute,
};
pub use children::{Children, read_record};
pub use content::{read_content, read_exact_content};
pub use error::{Reading, invalid_parse_error, refuse, refuse_missing, unexpected_element_error};
pub use from_xml::{FromXml, FromXmlDocument};
pub use lists::{read_items, read_lax_validation_list_tag, read_list_tag};
pub use namespace::{expected_namespace_or_error, namespace_of};
pub use reading::begin_attached_text;
pub use record::{TextRecord, XmlRecord, read_text_record, read_whole};
pub use root::{Root, read_root, root_of};
pub use rule::Rule;
pub use start::{End, Start};
pub use tags::{
    closing_tag_or_error, inner_text_or_error, inner_text_or_none, read_boolean_tag,
    read_exact_tag, read_lax_validation_tag, read_optional_tag, read_simple_tag, read_u32_tag,
};
pub use take::{push_into, take_into, take_list, take_more, take_one, take_one_since};
pub use taken::Taken;
pub use xml_type::{FromXmlType, attribute_value};
