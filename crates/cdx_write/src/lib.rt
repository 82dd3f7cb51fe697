//! The leaf records as XML events: each is written as the schema says of what a version keeps of it. One helper per
//! sort of row, one writer of records and one of lists serve all of them.
#![tactic(auto)]

pub mod attached_text;
pub mod attribute;
pub mod element;
pub mod external_reference;
pub mod hash;
pub mod list;
pub mod organization;
pub mod property;
pub mod record;
pub mod row;
pub mod tags;
pub mod to_xml;
pub mod tool;
pub mod values;

pub use attribute::{put_attribute, put_attribute_since, put_required_attribute};
pub use element::{Element, Filled, HasContent, Item, Lone, Tagged, write_lone};
pub use list::{put_each, put_list, put_list_since, write_items, write_list};
pub use record::{WrittenRecord, write_record};
pub use row::{
    is_there, put_cdata, put_child, put_child_since, put_content, put_filled_child,
    put_required_child,
};
pub use tags::{
    WriteResult, write_close_tag, write_list_string_tag, write_list_tag, write_opening,
    write_simple_option_tag, write_simple_tag, write_start_tag,
};
pub use to_xml::{Shown, ToInnerXml, ToXml};
