//! Events of XML documents.

ghost use Rattle.std.specs.Prelude.{◌≡◌, IfOk};
ghost use Rattle.cdx_events.specs.Event.{event_kind};

use crate::copied::Copied;
use crate::list::List;
use crate::name::{Namespace, OwnedAttribute, OwnedName};
use crate::text::Text;
use std::alloc::{AllocError, Global};

/// An event of an XML document.
#[derive(Debug, Drop, PartialEq, Eq)]
pub enum XmlEvent {
    /// The document begins.
    StartDocument,
    /// The document ends.
    EndDocument,
    /// An element begins.
    StartElement {
        /// The name in its start tag.
        name: OwnedName,
        /// The attributes, in the order of the start tag.
        attributes: List<OwnedAttribute>,
        /// What namespace stands without a prefix inside it.
        namespace: Namespace,
    },
    /// An element ends.
    EndElement {
        /// The name in its end tag.
        name: OwnedName,
    },
    /// A text, with its references already put in.
    Characters(Text),
    /// A text of a CDATA section.
    CData(Text),
}

/// What an event is, without its name or its text.
#[derive(Clone, Copy, Debug, PartialEq, Eq)]
pub enum EventKind {
    /// The begin of the document.
    StartDocument,
    /// The end of the document.
    EndDocument,
    /// The begin of an element.
    StartElement,
    /// The end of an element.
    EndElement,
    /// A text.
    Characters,
    /// A text of a CDATA section.
    CData,
}

impl XmlEvent {
    /// What the event is.
    pub fn kind(&self) -> EventKind
        ensures { result ≡ event_kind self.now }
    {
        match self {
            XmlEvent::StartDocument => EventKind::StartDocument,
            XmlEvent::EndDocument => EventKind::EndDocument,
            XmlEvent::StartElement { .. } => EventKind::StartElement,
            XmlEvent::EndElement { .. } => EventKind::EndElement,
            XmlEvent::Characters(_) => EventKind::Characters,
            XmlEvent::CData(_) => EventKind::CData,
        }
    }

    /// A copy, equal to its original. Only want of memory refuses.
    pub fn copy(&self, alloc: Global) -> Result<XmlEvent, AllocError>
        ensures { IfOk result (λ e. e ≡ self.now) }
    {
        match self {
            XmlEvent::StartDocument => Ok(XmlEvent::StartDocument),
            XmlEvent::EndDocument => Ok(XmlEvent::EndDocument),
            XmlEvent::StartElement {
                name,
                attributes,
                namespace,
            } => Ok(XmlEvent::StartElement {
                name: name.copy(alloc)?,
                attributes: attributes.copy(alloc)?,
                namespace: namespace.copy(alloc)?,
            }),
            XmlEvent::EndElement { name } => Ok(XmlEvent::EndElement {
                name: name.copy(alloc)?,
            }),
            XmlEvent::Characters(text) => Ok(XmlEvent::Characters(text.copy(alloc)?)),
            XmlEvent::CData(text) => Ok(XmlEvent::CData(text.copy(alloc)?)),
        }
    }
}

impl Copied for XmlEvent {
    fn copied(&self, alloc: Global) -> Result<XmlEvent, AllocError> {
        self.copy(alloc)
    }
}
