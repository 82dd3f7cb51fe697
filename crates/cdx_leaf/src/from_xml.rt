//! What is read from elements and from documents.

use crate::error::Reading;
use crate::start::Start;
use cdx_events::{EventReader, Events, List, OwnedAttribute, OwnedName};
use cdx_models::{SpecVersion, XmlReadError};
use cdx_schema::Kinded;
use std::alloc::Global;

/// What is read from an element, as its kind.
pub trait FromXml: Kinded + Drop {
    ghost use Rattle.std.specs.Prelude.{◌≡◌};
    ghost use Rattle.cdx_schema.specs.Depth.{Depth, top};
    ghost use Rattle.cdx_leaf.specs.Reading.{IsIn, ReadsAs};

    /// The depth at which it is read, of the one around it: the same one, or none for what counts its depth from itself
    /// on.
    ghost depth: { Depth → Depth };

    // Where nothing stands around it, it is read at no depth.
    ghost at_top: { depth top ≡ top };

    /// What the element denotes in its version, whose start the reader has just taken; after that it stands right after
    /// the element's end. Else the element's first fault, in the order of CycloneDX's XML: the attributes, the content
    /// from left to right, and at the end what is missing. Places are the reader's. After a refusal it doesn't stand
    /// before where it stood and, unless memory ran out, at most one place after the fault's.
    fn read_from(reader: &mut EventReader<'_>, opened: &Start<'_>) -> Reading<Self>
        requires { IsIn reader.old opened.now.element.now }
        ensures { ReadsAs Self.tree reader.old reader.new opened.now.element.now
            opened.now.attributes.now opened.now.version Self.kind depth result };

    /// The same, of a start that is told in pieces.
    fn read_xml_element(
        alloc: Global,
        reader: &mut EventReader<'_>,
        version: SpecVersion,
        element: &OwnedName,
        attributes: &List<OwnedAttribute>,
    ) -> Result<Self, XmlReadError>
        requires { IsIn reader.old element.now }
        ensures { ReadsAs Self.tree reader.old reader.new element.now attributes.now version
            Self.kind depth result }
    {
        let opened = Start {
            alloc,
            place: reader.place() - 1,
            version,
            element,
            attributes,
        };
        Self::read_from(reader, &opened)
    }
}

/// What is read from a whole document, as its kind.
pub trait FromXmlDocument: Kinded + Drop {
    ghost use Rattle.cdx_leaf.specs.Reading.{ReadsRoot};

    /// What the document denotes in `version`, or its first fault. Places are those of the events.
    fn read_xml_document(
        alloc: Global,
        events: &Events,
        version: SpecVersion,
    ) -> Result<Self, XmlReadError>
        ensures { ReadsRoot Self.tree events.now.list version Self.kind result };
}
