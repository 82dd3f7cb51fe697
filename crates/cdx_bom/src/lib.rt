//! Whole bills: their type and tree, copies, `==`, the versions that they fit, JSON and XML; a reader of bills that is fed
//! events as they arrive; documents and the laws of roads and of documents without their empty texts; texts into sinks; a
//! bill printed as JSON component by component.
#![tactic(auto)]

pub mod bom;
mod doc;
mod json;
mod laws;
mod push;
pub mod putting;
mod refused;
mod roads;
mod xml;

pub use bom::Bom;
pub use bom::settled::same;
pub use doc::{Doc, Form, Hop, RoadError};
pub use laws::{reads_without_empty_texts, roads_join, roads_settle};
pub use push::{GatheringReader, PushError, PushReader};
pub use putting::{PutError, put_bytes, put_long_text, put_text};
pub use roads::{
    fits_all, into_bill, into_road, is_document, next_bill, one_document, recode, road, start_road,
    version_missing,
};
pub use xml::pieces::DocumentPieces;
