//! The readers of the kinds.

use cdx_events::{Events, List};
use cdx_leaf::{FromXml, Root, read_list_tag, read_root, root_of};
use cdx_models::{SpecVersion, XmlReadError};
use cdx_push::{LeafKind, LeafValue};
use std::alloc::Global;

// Lists that no type stands for are read where they are fields, by the name of their items and a strict rule.
fn read_items<X: FromXml>(
    alloc: Global,
    events: &Events,
    version: SpecVersion,
    inner: &str,
) -> Result<List<X>, XmlReadError> {
    let Root {
        mut reader,
        name,
        ..
    } = root_of(events);
    read_list_tag(alloc, &mut reader, version, name, inner)
}

// What the root is read as, as a kind of the first half.
fn read_first(
    alloc: Global,
    events: &Events,
    kind: LeafKind,
    version: SpecVersion,
) -> Result<LeafValue, XmlReadError> {
    match kind {
        LeafKind::Text => Ok(LeafValue::Text(read_root(alloc, events, version)?)),
        LeafKind::Flag => Ok(LeafValue::Flag(read_root(alloc, events, version)?)),
        LeafKind::AttachedText => Ok(LeafValue::AttachedText(read_root(alloc, events, version)?)),
        LeafKind::Endpoints => {
            let endpoints = read_items(alloc, events, version, "endpoint")?;
            Ok(LeafValue::Endpoints(endpoints))
        }
        LeafKind::Authors => {
            let authors = read_items(alloc, events, version, "author")?;
            Ok(LeafValue::Authors(authors))
        }
        LeafKind::Entity => Ok(LeafValue::Entity(read_root(alloc, events, version)?)),
        LeafKind::Hashes => Ok(LeafValue::Hashes(read_root(alloc, events, version)?)),
        LeafKind::Properties => Ok(LeafValue::Properties(read_root(alloc, events, version)?)),
        LeafKind::Commits => Ok(LeafValue::Commits(read_root(alloc, events, version)?)),
        _ => Ok(LeafValue::Patches(read_root(alloc, events, version)?)),
    }
}

/// What the root is read as, as the kind in the version, by the kind's reader, or its first fault.
pub fn read(
    alloc: Global,
    events: &Events,
    kind: LeafKind,
    version: SpecVersion,
) -> Result<LeafValue, XmlReadError> {
    match kind {
        LeafKind::ExternalReferences => {
            let references = read_root(alloc, events, version)?;
            Ok(LeafValue::ExternalReferences(references))
        }
        LeafKind::Dependencies => Ok(LeafValue::Dependencies(read_root(alloc, events, version)?)),
        LeafKind::Compositions => Ok(LeafValue::Compositions(read_root(alloc, events, version)?)),
        LeafKind::Licenses => Ok(LeafValue::Licenses(read_root(alloc, events, version)?)),
        LeafKind::Signature => Ok(LeafValue::Signature(read_root(alloc, events, version)?)),
        LeafKind::Tool => Ok(LeafValue::Tool(read_root(alloc, events, version)?)),
        LeafKind::Swid => Ok(LeafValue::Swid(read_root(alloc, events, version)?)),
        LeafKind::Evidence => Ok(LeafValue::Evidence(read_root(alloc, events, version)?)),
        LeafKind::Data => Ok(LeafValue::Data(read_root(alloc, events, version)?)),
        _ => read_first(alloc, events, kind, version),
    }
}
