//! The data of services.

use cdx_events::{List, OwnedName, XmlEvent};
use cdx_leaf::{Children, End, Rule, Start, XmlRecord};
use cdx_machine::{
    FoundChild, Frame, FrameMachine, Machine, Only, Or, PushRecord, RecordMachine,
    TextRecordMachine,
};
use cdx_models::{SpecVersion, XmlReadError};
use cdx_service_data::{Data, DataClassification, DataPart, ServiceData, ServiceDataPart};
use std::alloc::{AllocError, Global};

/// The machine of a classification.
pub type ClassificationMachine = TextRecordMachine<DataClassification>;

/// The children of a flow.
pub struct ServiceDataChildren;

/// The machine of a flow.
pub type ServiceDataMachine = RecordMachine<ServiceDataChildren>;

#[tactic(auto, unfolding(cdx_machine::proofs::OnRows::on_rows), using(cdx_machine::proofs::OnRows::by_rows))]
impl PushRecord for ServiceDataChildren {
    ghost use Rattle.cdx_push_parts.specs.RecordKinds.{service_data_kinds};

    type Record = ServiceData;

    type Child = Only<ClassificationMachine>;

    ghost child_kinds = { service_data_kinds };

    fn find(_part: &ServiceDataPart, _version: SpecVersion, name: &OwnedName) -> FoundChild {
        match name.local_name.as_str() {
            "classification" => FoundChild::At(0),
            _ => FoundChild::Unknown,
        }
    }

    fn put(
        part: &mut ServiceDataPart,
        _alloc: Global,
        value: DataClassification,
    ) -> Result<(), AllocError> {
        part.classification = Some(value);
        Ok(())
    }
}

/// A flow while it is read as an entry of a service's data.
#[derive(Drop)]
pub struct BegunEntry {
    part: ServiceDataPart,
}

/// The machine of an entry.
#[derive(Drop)]
pub struct EntryMachine {
    machine: FrameMachine<BegunEntry>,
}

impl Machine for EntryMachine {
    ghost use Rattle.cdx_service_data.specs.Records.{service_entry};
    ghost use Rattle.cdx_schema.specs.Kinds.{an_entry};

    type Value = ServiceData;

    ghost tree = { service_entry };

    ghost kind = { an_entry };

    ghost holds = { λ m. ⟦<FrameMachine<BegunEntry> as Machine>⟧.holds m.machine };

    fn start(opened: &Start<'_>) -> Result<EntryMachine, XmlReadError> {
        Ok(EntryMachine {
            machine: FrameMachine::<BegunEntry>::start(opened)?,
        })
    }

    fn step(&mut self, place: usize, event: &XmlEvent) -> Result<bool, XmlReadError> {
        self.machine.step(place, event)
    }

    fn finish(self, place: usize, event: &XmlEvent) -> Result<ServiceData, XmlReadError> {
        self.machine.finish(place, event)
    }
}

impl Frame for BegunEntry {
    ghost use Rattle.cdx_models.specs.Trees.{service_data};
    ghost use Rattle.cdx_schema.specs.Kinds.{an_entry};
    ghost use Rattle.cdx_schema.specs.XmlReading.{record_plan};
    ghost use Rattle.cdx_service_data.specs.Parts.{service_data_part};
    ghost use Rattle.cdx_service_data.specs.Records.{service_entry};
    ghost use Rattle.cdx_machine.specs.Plain.{attributes_first};
    ghost use Rattle.cdx_push_parts.specs.RecordKinds.{service_data_kinds};
    ghost use Rattle.cdx_push_parts.specs.ServiceData.{entry_last, entry_frame};

    type Value = ServiceData;

    type Child = Only<ClassificationMachine>;

    ghost tree = { service_entry };

    ghost kind = { an_entry };

    ghost plan = { record_plan service_data };

    ghost first = { attributes_first service_data };

    ghost last = { entry_last };

    ghost slots = { λ r. service_data_part r.part };

    ghost child_kinds = { service_data_kinds };

    ghost frame = { entry_frame };

    fn rule(&self) -> Rule {
        self.part.rule()
    }

    fn begin(opened: &Start<'_>) -> Result<BegunEntry, XmlReadError> {
        Ok(BegunEntry {
            part: ServiceData::begin(opened)?,
        })
    }

    fn find(&self, version: SpecVersion, name: &OwnedName) -> FoundChild {
        ServiceDataChildren::find(&self.part, version, name)
    }

    fn put(&mut self, alloc: Global, value: DataClassification) -> Result<(), AllocError> {
        ServiceDataChildren::put(&mut self.part, alloc, value)
    }

    fn finish(self, closed: &End<'_>) -> Result<ServiceData, XmlReadError> {
        ServiceData::finish(closed, self.part)
    }
}

/// The data of a service while it is read.
#[derive(Drop)]
pub struct BegunData {
    part: DataPart,
}

/// The machine of the data of a service.
pub struct DataMachine {
    machine: FrameMachine<BegunData>,
}

impl Drop for DataMachine {
    fn drop(self) {
        let DataMachine { machine: _ } = self;
    }
}

impl Machine for DataMachine {
    ghost use Rattle.cdx_service_data.specs.Records.{data_tree};
    ghost use Rattle.cdx_schema.specs.Kinds.{a_data};

    type Value = Data;

    ghost tree = { data_tree };

    ghost kind = { a_data };

    ghost holds = { λ m. ⟦<FrameMachine<BegunData> as Machine>⟧.holds m.machine };

    fn start(opened: &Start<'_>) -> Result<DataMachine, XmlReadError> {
        Ok(DataMachine {
            machine: FrameMachine::<BegunData>::start(opened)?,
        })
    }

    fn step(&mut self, place: usize, event: &XmlEvent) -> Result<bool, XmlReadError> {
        self.machine.step(place, event)
    }

    fn finish(self, place: usize, event: &XmlEvent) -> Result<Data, XmlReadError> {
        let DataMachine { machine } = self;
        machine.finish(place, event)
    }
}

#[tactic(auto, unfolding(cdx_machine::proofs::OnRows::on_rows), using(cdx_machine::proofs::OnRows::by_rows))]
impl Frame for BegunData {
    ghost use Rattle.std.specs.Prelude.{refl};
    ghost use Rattle.cdx_schema.specs.Kinds.{a_data};
    ghost use Rattle.cdx_schema.specs.XmlReading.{data_plan};
    ghost use Rattle.cdx_service_data.specs.Parts.{data_part};
    ghost use Rattle.cdx_service_data.specs.Records.{data_tree};
    ghost use Rattle.cdx_push_parts.specs.ServiceData.{data_first, data_last, data_frame};

    type Value = Data;

    type Child = Or<ClassificationMachine, Only<EntryMachine>>;

    ghost tree = { data_tree };

    ghost kind = { a_data };

    ghost plan = { data_plan };

    ghost first = { data_first };

    ghost last = { data_last };

    ghost slots = { λ r. data_part r.part };

    ghost child_kinds = { refl };

    ghost frame = { data_frame };

    fn rule(&self) -> Rule {
        Rule::Passing
    }

    fn begin(opened: &Start<'_>) -> Result<BegunData, XmlReadError> {
        Ok(BegunData {
            part: DataPart {
                classifications: List::new(opened.alloc),
                flows: List::new(opened.alloc),
            },
        })
    }

    fn find(&self, version: SpecVersion, name: &OwnedName) -> FoundChild {
        match name.local_name.as_str() {
            "classification" => FoundChild::At(0),
            "dataflow" => FoundChild::since(SpecVersion::V1_5, version, 1),
            _ => FoundChild::Unknown,
        }
    }

    fn put(
        &mut self,
        _alloc: Global,
        value: Or<DataClassification, ServiceData>,
    ) -> Result<(), AllocError> {
        match value {
            Or::This(classification) => self.part.classifications.push(classification),
            Or::Other(flow) => self.part.flows.push(flow),
        }
    }

    fn finish(self, _closed: &End<'_>) -> Result<Data, XmlReadError> {
        let DataPart {
            classifications,
            flows,
        } = self.part;
        if flows.len() == 0 {
            return Ok(Data::Classification(classifications));
        }
        Ok(Data::ServiceData(flows))
    }
}
