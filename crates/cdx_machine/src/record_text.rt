//! Records of attributes and a text, which may be missing or has to be there.

use crate::content::{Content, ContentMachine};
use cdx_events::{EventKind, OwnedName, Text};
use cdx_leaf::{Start, TextRecord};
use cdx_models::{HasTree, XmlReadError};
use std::alloc::Global;

/// What the attributes of a record begin, whose content is a text that may be missing.
#[derive(Drop)]
pub struct BegunText<X: TextRecord> {
    start: X::Start,
}

/// The machine of such a record.
pub type TextRecordMachine<X> = ContentMachine<BegunText<X>>;

impl<X: TextRecord> Content for BegunText<X> {
    ghost use Rattle.cdx_schema.specs.Kinds.{a_record};
    ghost use Rattle.cdx_leaf.proofs.Contents.{any_content};
    ghost use Rattle.cdx_machine.specs.Plain.{attributes_first, record_last, record_content};

    type Value = X;

    ghost kind = { a_record X.name };

    ghost first = { attributes_first X.name };

    ghost last = { record_last X.name X.at };

    ghost start = { λ r. X.start r.start };

    ghost content = { record_content X.name X.at (λ r. X.start r.start)
        (any_content X.name X.at X.content) X.plain (λ r. X.whole r.start) };

    fn begin(opened: &Start<'_>) -> Result<BegunText<X>, XmlReadError> {
        Ok(BegunText {
            start: X::begin(opened)?,
        })
    }

    fn finish(
        self,
        alloc: Global,
        _place: usize,
        _element: &OwnedName,
        text: Option<Text>,
    ) -> Result<X, XmlReadError> {
        match text {
            Some(text) => Ok(X::with_text(self.start, text)),
            None => Ok(X::with_text(self.start, Text::new(alloc, "")?)),
        }
    }
}

/// A record of attributes and exactly one text.
pub trait ExactRecord {
    ghost use Rattle.std.specs.Prelude.{◌≡◌, ◌+◌, ℕ, List, Ok, true};
    ghost use Rattle.cdx_models.specs.declared.bom.SpecVersion.{SpecVersion};
    ghost use Rattle.cdx_models.specs.Trees.{Name, Trees, fields, with_field, text};
    ghost use Rattle.cdx_schema.specs.Plain.{is_plain};
    ghost use Rattle.cdx_schema.specs.Table.{rows};
    ghost use Rattle.cdx_schema.specs.XmlReading.{one_text_alone, content_from, ended};
    ghost use Rattle.cdx_leaf.specs.Attribute.{GivesAt, start_read};

    /// What the element is read as.
    type Value: HasTree + Drop;

    /// What the attributes give.
    type Start: Drop;

    /// The record's name.
    ghost name: { Name };

    /// The fields that the attributes give.
    ghost start: { Self.Start → Trees };

    /// The row of the text.
    ghost at: { ℕ };

    /// What the attributes give, or their first fault, at the element's start.
    fn begin(opened: &Start<'_>) -> Result<Self::Start, XmlReadError>
        ensures { GivesAt start (opened.now.place + 1)
            (start_read name opened.now.version opened.now.element.now.local_name
            opened.now.attributes.now opened.now.place) result };

    /// The record with this text.
    fn with_text(begun: Self::Start, content: Text) -> Self::Value
        ensures { Self.Value.tree result
            ≡ fields name (with_field at (text content) (start begun)) };

    // That row is the text that stands right in the element.
    ghost content: { content_from 0 (rows name) ≡ one_text_alone at };

    // The record holds nothing that has a depth.
    ghost plain: { is_plain name ≡ true };

    // Nothing is missing at the end.
    ghost whole: { (s : Self.Start) (t : List ℕ) (v : SpecVersion) (el : List ℕ) (q : ℕ)
        → ended (rows name) (with_field at (text t) (start s)) v el q
        ≡ Ok (with_field at (text t) (start s)) };
}

/// What the attributes of such a record begin.
#[derive(Drop)]
pub struct BegunExact<X: ExactRecord> {
    start: X::Start,
}

/// The machine of such a record.
pub type ExactRecordMachine<X> = ContentMachine<BegunExact<X>>;

impl<X: ExactRecord> Content for BegunExact<X> {
    ghost use Rattle.cdx_schema.specs.Kinds.{a_record};
    ghost use Rattle.cdx_machine.specs.Plain.{attributes_first, exact_last, exact_record_content, one_content};

    type Value = X::Value;

    ghost kind = { a_record X.name };

    ghost first = { attributes_first X.name };

    ghost last = { exact_last X.name X.at };

    ghost start = { λ r. X.start r.start };

    ghost content = { exact_record_content X.name X.at (λ r. X.start r.start)
        (one_content X.name X.at X.content) X.plain (λ r. X.whole r.start) };

    fn begin(opened: &Start<'_>) -> Result<BegunExact<X>, XmlReadError> {
        Ok(BegunExact {
            start: X::begin(opened)?,
        })
    }

    fn finish(
        self,
        alloc: Global,
        place: usize,
        element: &OwnedName,
        text: Option<Text>,
    ) -> Result<X::Value, XmlReadError> {
        match text {
            Some(text) => Ok(X::with_text(self.start, text)),
            None => Err(XmlReadError::UnexpectedElementReadError {
                place,
                element: element.local_name.copy(alloc)?,
                found: EventKind::EndElement,
            }),
        }
    }
}
