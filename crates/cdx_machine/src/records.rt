//! Records that are read child by child.

use crate::frame::{FoundChild, Frame, FrameMachine};
use crate::or::Machines;
use cdx_events::OwnedName;
use cdx_leaf::{Children, End, Rule, Start, XmlRecord};
use cdx_models::{SpecVersion, XmlReadError};
use std::alloc::{AllocError, Global};

/// The children of a record: the machines that read them, their names, and the fields that they go into.
pub trait PushRecord {
    ghost use Rattle.std.specs.Prelude.{◌≡◌, OnOk};
    ghost use Rattle.cdx_schema.specs.XmlReading.{record_plan};
    ghost use Rattle.cdx_machine.specs.Several.{kinds_of, found_from, Puts};

    /// The record.
    type Record: XmlRecord;

    /// The machines of its children, in the order of its rows.
    type Child: Machines;

    /// The child that the version knows by the name.
    fn find(
        part: &<Self::Record as XmlRecord>::Part,
        version: SpecVersion,
        name: &OwnedName,
    ) -> FoundChild
        ensures { result ≡ found_from 0 (record_plan Self.Record.name).children
            (Self.Record.Part.slots part.now) version name.now.local_name };

    /// Puts what a child was read as into its field.
    fn put(
        part: &mut <Self::Record as XmlRecord>::Part,
        alloc: Global,
        value: <Self::Child as Machines>::Value,
    ) -> Result<(), AllocError>
        ensures { OnOk result (Puts (record_plan Self.Record.name).children
            (Self.Child.source value) (Self.Child.tree value) (Self.Record.Part.slots part.old)
            (Self.Record.Part.slots part.new)) };

    // The machines read the kinds of its children.
    ghost child_kinds: { Self.Child.kinds ≡ kinds_of (record_plan Self.Record.name).children };
}

/// A record while its children are read.
#[derive(Drop)]
pub struct BegunRecord<K: PushRecord> {
    part: <K::Record as XmlRecord>::Part,
}

/// The machine of a record.
pub type RecordMachine<K> = FrameMachine<BegunRecord<K>>;

impl<K: PushRecord> Frame for BegunRecord<K> {
    ghost use Rattle.cdx_schema.specs.Kinds.{a_record};
    ghost use Rattle.cdx_schema.specs.XmlReading.{record_plan};
    ghost use Rattle.cdx_machine.specs.Plain.{attributes_first};
    ghost use Rattle.cdx_machine.specs.Records.{record_end, record_frame};

    type Value = K::Record;

    type Child = K::Child;

    ghost tree = { K.Record.tree };

    ghost kind = { a_record K.Record.name };

    ghost plan = { record_plan K.Record.name };

    ghost first = { attributes_first K.Record.name };

    ghost last = { record_end K.Record.name };

    ghost slots = { λ r. K.Record.Part.slots r.part };

    ghost child_kinds = { K.child_kinds };

    ghost frame = { record_frame K.Record.name K.Record.no_content K.Record.plain };

    fn rule(&self) -> Rule {
        self.part.rule()
    }

    fn begin(opened: &Start<'_>) -> Result<BegunRecord<K>, XmlReadError> {
        Ok(BegunRecord {
            part: <K::Record as XmlRecord>::begin(opened)?,
        })
    }

    fn find(&self, version: SpecVersion, name: &OwnedName) -> FoundChild {
        K::find(&self.part, version, name)
    }

    fn put(
        &mut self,
        alloc: Global,
        value: <K::Child as Machines>::Value,
    ) -> Result<(), AllocError> {
        K::put(&mut self.part, alloc, value)
    }

    fn finish(self, closed: &End<'_>) -> Result<K::Record, XmlReadError> {
        <K::Record as XmlRecord>::finish(closed, self.part)
    }
}
