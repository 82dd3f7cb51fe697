//! Attached texts.

use cdx_events::{Text, XmlEvent};
use cdx_leaf::{Start, begin_attached_text};
use cdx_machine::{ExactRecord, ExactRecordMachine, Machine};
use cdx_models::{AttachedText, XmlReadError};

/// An attached text, whose text has to be there.
pub struct ExactAttachedText;

/// The machine of an attached text.
pub struct AttachedTextMachine {
    machine: ExactRecordMachine<ExactAttachedText>,
}

impl Drop for AttachedTextMachine {
    fn drop(self) {
        let AttachedTextMachine { machine: _ } = self;
    }
}

impl Machine for AttachedTextMachine {
    ghost use Rattle.cdx_models.specs.Records.{attached_text_tree};
    ghost use Rattle.cdx_schema.specs.Kinds.{a_record};
    ghost use Rattle.cdx_models.specs.Trees.{attached_text};

    type Value = AttachedText;

    ghost tree = { attached_text_tree };

    ghost kind = { a_record attached_text };

    ghost holds = { λ m. ⟦<ExactRecordMachine<ExactAttachedText> as Machine>⟧.holds m.machine };

    fn start(opened: &Start<'_>) -> Result<AttachedTextMachine, XmlReadError> {
        Ok(AttachedTextMachine {
            machine: ExactRecordMachine::<ExactAttachedText>::start(opened)?,
        })
    }

    fn step(&mut self, place: usize, event: &XmlEvent) -> Result<bool, XmlReadError> {
        self.machine.step(place, event)
    }

    fn finish(self, place: usize, event: &XmlEvent) -> Result<AttachedText, XmlReadError> {
        let AttachedTextMachine { machine } = self;
        machine.finish(place, event)
    }
}

impl ExactRecord for ExactAttachedText {
    ghost use Rattle.std.specs.Prelude.{refl};
    ghost use Rattle.cdx_models.specs.Trees.{attached_text};
    ghost use Rattle.cdx_leaf.specs.Parts.{attached_start};
    ghost use Rattle.cdx_leaf.specs.RowContents.{content_from_rows};
    ghost use Rattle.cdx_push_models.specs.Exact.{attached_whole};

    type Value = AttachedText;

    type Start = (Option<Text>, Option<Text>);

    ghost name = { attached_text };

    ghost start = { attached_start };

    ghost at = { 2 };

    ghost content = { content_from_rows attached_text };

    ghost plain = { refl };

    ghost whole = { attached_whole };

    fn begin(opened: &Start<'_>) -> Result<(Option<Text>, Option<Text>), XmlReadError> {
        begin_attached_text(opened)
    }

    fn with_text(begun: (Option<Text>, Option<Text>), content: Text) -> AttachedText {
        AttachedText {
            content_type: begun.0,
            encoding: begun.1,
            content,
        }
    }
}
