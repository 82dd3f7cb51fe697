//! Whole records: one that is read child by child, and one whose content is a text.

ghost use Rattle.std.specs.Prelude.{refl};
ghost use Rattle.cdx_schema.specs.Kinds.{a_record};
ghost use Rattle.cdx_leaf.specs.Reading.{IsIn, ReadsAs};

use crate::children::{Children, read_record};
use crate::content::read_content;
use crate::error::Reading;
use crate::from_xml::FromXml;
use crate::start::{End, Start};
use cdx_events::{EventReader, List, Text};
use cdx_models::SpecVersion;
use cdx_schema::Record;

/// A record that is read child by child, by its rows of the schema.
pub trait XmlRecord: Record + Drop {
    ghost use Rattle.std.specs.Prelude.{◌≡◌, ◌+◌};
    ghost use Rattle.cdx_models.specs.Trees.{fields_of};
    ghost use Rattle.cdx_schema.specs.Table.{rows};
    ghost use Rattle.cdx_schema.specs.XmlReading.{content_from, record_plan, ended};
    ghost use Rattle.cdx_schema.specs.XmlReading as xml;
    ghost use Rattle.cdx_leaf.specs.Attribute.{GivesAt, start_read};

    /// The record while its children are read.
    type Part: Children;

    /// What the attributes give, or the fault of the first row that is lacking or that no value can be read from, at
    /// the element's start.
    fn begin(opened: &Start<'_>) -> Reading<Self::Part>
        ensures { GivesAt Self.Part.slots (opened.now.place + 1)
            (start_read Self.name opened.now.version opened.now.element.now.local_name
            opened.now.attributes.now opened.now.place) result };

    /// The record that was read, or the fault of the first required child that is missing, at the element's end.
    fn finish(closed: &End<'_>, part: Self::Part) -> Reading<Self>
        ensures { GivesAt (λ x. fields_of (Self.tree x)) (closed.now.place + 1)
            (ended (rows Self.name) (Self.Part.slots part) closed.now.version
            closed.now.element.now.local_name closed.now.place) result };

    // None of its rows is a text that stands right in it.
    ghost no_content: { content_from 0 (rows Self.name) ≡ xml.no_content };

    // Its children are those of its rows, and are read at the depth of the record itself.
    ghost by_rows: { (part : Self.Part)
        → (Self.Part.plan part ≡ record_plan Self.name) × (Self.Part.depth part ≡ (λ d. d)) };
}

/// The record that the element is, in which nothing that has a depth stands.
pub fn read_whole<X: XmlRecord>(reader: &mut EventReader<'_>, opened: &Start<'_>) -> Reading<X>
    requires { IsIn reader.old opened.now.element.now }
    ensures { ReadsAs X.tree reader.old reader.new opened.now.element.now
        opened.now.attributes.now opened.now.version (a_record X.name) (λ d. d) result }
{
    let begun = X::begin(&Start {
        place: reader.place() - 1,
        ..*opened
    });
    let part: X::Part = read_record(reader, opened, begun)?;
    let end = reader.place() - 1;
    X::finish(
        &End {
            alloc: opened.alloc,
            place: end,
            version: opened.version,
            element: opened.element,
        },
        part,
    )
}

/// A record is read at the depth around it.
impl<X: XmlRecord> FromXml for X {
    ghost depth = { λ d. d };

    ghost at_top = { refl };

    fn read_from(reader: &mut EventReader<'_>, opened: &Start<'_>) -> Reading<X> {
        read_whole(reader, opened)
    }
}

/// A record of attributes and one text, which may be empty.
pub trait TextRecord: Record + Drop {
    ghost use Rattle.std.specs.Prelude.{◌≡◌, ◌+◌, ℕ, List, Ok};
    ghost use Rattle.cdx_models.specs.declared.bom.SpecVersion.{SpecVersion};
    ghost use Rattle.cdx_models.specs.Trees.{Trees, fields, with_field, text};
    ghost use Rattle.cdx_schema.specs.Table.{rows};
    ghost use Rattle.cdx_schema.specs.XmlReading.{any_text, content_from, ended};
    ghost use Rattle.cdx_leaf.specs.Attribute.{GivesAt, start_read};

    /// What the attributes give.
    type Start: Drop;

    /// The fields that the attributes give.
    ghost start: { Self.Start → Trees };

    /// The row of the text.
    ghost at: { ℕ };

    /// What the attributes give, or the fault of the first row that is lacking, at the element's start.
    fn begin(opened: &Start<'_>) -> Reading<Self::Start>
        ensures { GivesAt start (opened.now.place + 1)
            (start_read Self.name opened.now.version opened.now.element.now.local_name
            opened.now.attributes.now opened.now.place) result };

    /// The record with this text.
    fn with_text(begun: Self::Start, content: Text) -> Self
        ensures { Self.tree result
            ≡ fields Self.name (with_field at (text content) (start begun)) };

    // That row is the text that stands right in the element.
    ghost content: { content_from 0 (rows Self.name) ≡ any_text at };

    // Nothing is missing at the end.
    ghost whole: { (s : Self.Start) (t : List ℕ) (v : SpecVersion) (el : List ℕ) (q : ℕ)
        → ended (rows Self.name) (with_field at (text t) (start s)) v el q
        ≡ Ok (with_field at (text t) (start s)) };
}

/// The record that the element is.
pub fn read_text_record<X: TextRecord>(
    reader: &mut EventReader<'_>,
    opened: &Start<'_>,
) -> Reading<X>
    requires { IsIn reader.old opened.now.element.now }
    ensures { ReadsAs X.tree reader.old reader.new opened.now.element.now
        opened.now.attributes.now opened.now.version (a_record X.name) (λ d. d) result }
{
    let begun = X::begin(&Start {
        place: reader.place() - 1,
        ..*opened
    });
    let (start, content) = read_content(reader, opened, begun)?;
    Ok(X::with_text(start, content))
}
