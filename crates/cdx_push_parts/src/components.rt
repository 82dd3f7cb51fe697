//! Software tags and evidence.

use crate::licenses::LicensesMachine;
use cdx_component_parts::{ComponentEvidence, Copyright, CopyrightTexts, Swid};
use cdx_events::{OwnedName, Text, XmlEvent};
use cdx_leaf::{Rule, Start};
use cdx_license::Licenses;
use cdx_machine::{
    FoundChild, ListMachine, ListOf, Machine, Only, Or, PushRecord, RecordMachine, TextMachine,
    TextRecordMachine,
};
use cdx_models::{AttachedText, SpecVersion, XmlReadError};
use cdx_push_models::AttachedTextMachine;
use std::alloc::{AllocError, Global};

/// The children of a software tag.
pub struct SwidChildren;

/// The machine of a software tag.
pub struct SwidMachine {
    machine: RecordMachine<SwidChildren>,
}

impl Drop for SwidMachine {
    fn drop(self) {
        let SwidMachine { machine: _ } = self;
    }
}

impl Machine for SwidMachine {
    ghost use Rattle.cdx_models.specs.Trees.{swid};
    ghost use Rattle.cdx_component_parts.specs.Records.{swid_tree};
    ghost use Rattle.cdx_schema.specs.Kinds.{a_record};

    type Value = Swid;

    ghost tree = { swid_tree };

    ghost kind = { a_record swid };

    ghost holds = { λ m. ⟦<RecordMachine<SwidChildren> as Machine>⟧.holds m.machine };

    fn start(opened: &Start<'_>) -> Result<SwidMachine, XmlReadError> {
        Ok(SwidMachine {
            machine: RecordMachine::<SwidChildren>::start(opened)?,
        })
    }

    fn step(&mut self, place: usize, event: &XmlEvent) -> Result<bool, XmlReadError> {
        self.machine.step(place, event)
    }

    fn finish(self, place: usize, event: &XmlEvent) -> Result<Swid, XmlReadError> {
        let SwidMachine { machine } = self;
        machine.finish(place, event)
    }
}

#[tactic(auto, unfolding(cdx_machine::proofs::OnRows::on_rows), using(cdx_machine::proofs::OnRows::by_rows))]
impl PushRecord for SwidChildren {
    ghost use Rattle.cdx_push_parts.specs.RecordKinds.{swid_kinds};

    type Record = Swid;

    type Child = Or<AttachedTextMachine, Only<TextMachine>>;

    ghost child_kinds = { swid_kinds };

    fn find(_part: &Swid, _version: SpecVersion, name: &OwnedName) -> FoundChild {
        match name.local_name.as_str() {
            "text" => FoundChild::At(0),
            "url" => FoundChild::At(1),
            _ => FoundChild::Unknown,
        }
    }

    fn put(
        part: &mut Swid,
        _alloc: Global,
        value: Or<AttachedText, Text>,
    ) -> Result<(), AllocError> {
        match value {
            Or::This(text) => part.text = Some(text),
            Or::Other(url) => part.url = Some(url),
        }
        Ok(())
    }
}

/// Copyrights as a list.
pub struct CopyrightList;

/// The machine of copyrights.
#[derive(Drop)]
pub struct CopyrightTextsMachine {
    machine: ListMachine<CopyrightList>,
}

impl Machine for CopyrightTextsMachine {
    ghost use Rattle.cdx_component_parts.specs.Records.{copyrights_tree};
    ghost use Rattle.cdx_schema.specs.Kinds.{a_list, copyright_texts};

    type Value = CopyrightTexts;

    ghost tree = { copyrights_tree };

    ghost kind = { a_list copyright_texts };

    ghost holds = { λ m. ⟦<ListMachine<CopyrightList> as Machine>⟧.holds m.machine };

    fn start(opened: &Start<'_>) -> Result<CopyrightTextsMachine, XmlReadError> {
        Ok(CopyrightTextsMachine {
            machine: ListMachine::<CopyrightList>::start(opened)?,
        })
    }

    fn step(&mut self, place: usize, event: &XmlEvent) -> Result<bool, XmlReadError> {
        self.machine.step(place, event)
    }

    fn finish(self, place: usize, event: &XmlEvent) -> Result<CopyrightTexts, XmlReadError> {
        Ok(CopyrightTexts(self.machine.finish(place, event)?))
    }
}

#[tactic(auto, unfolding(cdx_machine::proofs::OnRows::on_rows), using(cdx_machine::proofs::OnRows::by_rows))]
impl ListOf for CopyrightList {
    ghost use Rattle.cdx_schema.specs.Kinds.{copyright_texts};
    ghost use Rattle.cdx_push_parts.specs.ItemKinds.{copyright_texts_item};

    type Item = TextRecordMachine<Copyright>;

    ghost list_name = { copyright_texts };

    ghost one_name = { tt };

    ghost item_kind = { copyright_texts_item };

    fn inner() -> &'static str {
        "text"
    }

    fn rule() -> Rule {
        Rule::Strict
    }
}

/// The children of a component's evidence.
pub struct ComponentEvidenceChildren;

/// The machine of a component's evidence.
pub struct ComponentEvidenceMachine {
    machine: RecordMachine<ComponentEvidenceChildren>,
}

impl Drop for ComponentEvidenceMachine {
    fn drop(self) {
        let ComponentEvidenceMachine { machine: _ } = self;
    }
}

impl Machine for ComponentEvidenceMachine {
    ghost use Rattle.cdx_models.specs.Trees.{evidence};
    ghost use Rattle.cdx_component_parts.specs.Records.{evidence_tree};
    ghost use Rattle.cdx_schema.specs.Kinds.{a_record};

    type Value = ComponentEvidence;

    ghost tree = { evidence_tree };

    ghost kind = { a_record evidence };

    ghost holds = { λ m. ⟦<RecordMachine<ComponentEvidenceChildren> as Machine>⟧.holds m.machine };

    fn start(opened: &Start<'_>) -> Result<ComponentEvidenceMachine, XmlReadError> {
        Ok(ComponentEvidenceMachine {
            machine: RecordMachine::<ComponentEvidenceChildren>::start(opened)?,
        })
    }

    fn step(&mut self, place: usize, event: &XmlEvent) -> Result<bool, XmlReadError> {
        self.machine.step(place, event)
    }

    fn finish(self, place: usize, event: &XmlEvent) -> Result<ComponentEvidence, XmlReadError> {
        let ComponentEvidenceMachine { machine } = self;
        machine.finish(place, event)
    }
}

#[tactic(auto, unfolding(cdx_machine::proofs::OnRows::on_rows), using(cdx_machine::proofs::OnRows::by_rows))]
impl PushRecord for ComponentEvidenceChildren {
    ghost use Rattle.cdx_push_parts.specs.RecordKinds.{evidence_kinds};

    type Record = ComponentEvidence;

    type Child = Or<LicensesMachine, Only<CopyrightTextsMachine>>;

    ghost child_kinds = { evidence_kinds };

    fn find(_part: &ComponentEvidence, _version: SpecVersion, name: &OwnedName) -> FoundChild {
        match name.local_name.as_str() {
            "licenses" => FoundChild::At(0),
            "copyright" => FoundChild::At(1),
            _ => FoundChild::Unknown,
        }
    }

    fn put(
        part: &mut ComponentEvidence,
        _alloc: Global,
        value: Or<Licenses, CopyrightTexts>,
    ) -> Result<(), AllocError> {
        match value {
            Or::This(licenses) => part.licenses = Some(licenses),
            Or::Other(copyright) => part.copyright = Some(copyright),
        }
        Ok(())
    }
}
