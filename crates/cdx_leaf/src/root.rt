//! The root of a document.

ghost use Rattle.cdx_leaf.specs.Reading.{IsIn, IsAt, ReadsRoot};
ghost use Rattle.cdx_leaf.specs.Roots.{IsRootOf};

use crate::from_xml::FromXml;
use cdx_events::{EventReader, Events, List, Namespace, OwnedAttribute, OwnedName, XmlEvent};
use cdx_models::{SpecVersion, XmlReadError};
use std::alloc::Global;

/// The root of a document, with a reader right after its start, which has place 1.
#[derive(Drop)]
pub struct Root<'a> {
    /// Right after the root's start.
    pub reader: EventReader<'a>,
    /// The root's name.
    pub name: &'a OwnedName,
    /// The root's attributes, in their order.
    pub attributes: &'a List<OwnedAttribute>,
    /// The namespace declarations that hold at the root.
    pub namespace: &'a Namespace,
}

/// The root of the document that the events are.
pub fn root_of<'a>(events: &'a Events) -> Root<'a>
    ensures root { IsRootOf events.now.list result.reader result.name.now result.attributes.now
        result.namespace.now }
    ensures inside { IsIn result.reader result.name.now }
    ensures at { IsAt result.reader result.name.now }
{
    let mut reader = EventReader::new(events);
    reader.next();
    let Some(event) = reader.next() else {
        unreachable!()
    };
    match event {
        XmlEvent::StartElement {
            name,
            attributes,
            namespace,
        } => Root {
            reader,
            name,
            attributes,
            namespace,
        },
        _ => unreachable!(),
    }
}

/// What the document's root denotes in `version` as the type's kind, whatever its name is, or its first fault.
pub fn read_root<X: FromXml>(
    alloc: Global,
    events: &Events,
    version: SpecVersion,
) -> Result<X, XmlReadError>
    ensures { ReadsRoot X.tree events.now.list version X.kind result }
{
    let Root {
        mut reader,
        name,
        attributes,
        ..
    } = root_of(events);
    X::read_xml_element(alloc, &mut reader, version, name, attributes)
}
