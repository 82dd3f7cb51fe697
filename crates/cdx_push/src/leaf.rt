//! The machine of any kind that doesn't contain itself.

use crate::kinds::{LeafKind, LeafValue};
use cdx_events::XmlEvent;
use cdx_leaf::Start;
use cdx_machine::{FlagMachine, Leaves, Machine, TextMachine};
use cdx_models::XmlReadError;
use cdx_push_code::{CommitsMachine, PatchesMachine};
use cdx_push_models::{
    AttachedTextMachine, AuthorsMachine, EndpointsMachine, EntityMachine,
    ExternalReferencesMachine, HashesMachine, PropertiesMachine, ToolMachine,
};
use cdx_push_parts::{ComponentEvidenceMachine, DataMachine, LicensesMachine, SwidMachine};
use cdx_push_relations::{CompositionsMachine, DependenciesMachine, SignatureMachine};

/// The machine of the kind that its variant names.
pub enum Leaf {
    /// A text.
    Text(TextMachine),
    /// `true` or `false`.
    Flag(FlagMachine),
    /// A text with its content type and its encoding.
    AttachedText(AttachedTextMachine),
    /// The addresses of a service.
    Endpoints(EndpointsMachine),
    /// The authors of a bill.
    Authors(AuthorsMachine),
    /// An organization.
    Entity(EntityMachine),
    /// Hashes.
    Hashes(HashesMachine),
    /// Properties.
    Properties(PropertiesMachine),
    /// Commits.
    Commits(CommitsMachine),
    /// Patches.
    Patches(PatchesMachine),
    /// References to what stands outside the bill.
    ExternalReferences(ExternalReferencesMachine),
    /// Dependencies.
    Dependencies(DependenciesMachine),
    /// Compositions.
    Compositions(CompositionsMachine),
    /// Licenses and expressions.
    Licenses(LicensesMachine),
    /// A signature.
    Signature(SignatureMachine),
    /// A tool.
    Tool(ToolMachine),
    /// A software tag.
    Swid(SwidMachine),
    /// The evidence of a component.
    Evidence(ComponentEvidenceMachine),
    /// The data of a service.
    Data(DataMachine),
}

impl Drop for Leaf {
    fn drop(self) {
        match self {
            Leaf::Text(_) => {}
            Leaf::Flag(_) => {}
            Leaf::AttachedText(_) => {}
            Leaf::Endpoints(_) => {}
            Leaf::Authors(_) => {}
            Leaf::Entity(_) => {}
            Leaf::Hashes(_) => {}
            Leaf::Properties(_) => {}
            Leaf::Commits(_) => {}
            Leaf::Patches(_) => {}
            Leaf::ExternalReferences(_) => {}
            Leaf::Dependencies(_) => {}
            Leaf::Compositions(_) => {}
            Leaf::Licenses(_) => {}
            Leaf::Signature(_) => {}
            Leaf::Tool(_) => {}
            Leaf::Swid(_) => {}
            Leaf::Evidence(_) => {}
            Leaf::Data(_) => {}
        }
    }
}

impl Leaves for Leaf {
    ghost use Rattle.cdx_push.specs.declared.leaf.Leaf.TheVariants.{Text, Flag, AttachedText, Endpoints, Authors, Entity, Hashes, Properties, Commits, Patches, ExternalReferences, Dependencies, Compositions, Licenses, Signature, Tool, Swid, Evidence, Data};
    ghost use Rattle.cdx_push.specs.Leaf.{kind_of, value_kind, value_tree, leaf_kind};

    type Sort = LeafKind;

    type Value = LeafValue;

    ghost as_kind = { kind_of };

    ghost sort_of = { leaf_kind };

    ghost value_sort = { value_kind };

    ghost tree = { value_tree };

    ghost holds = { elim [
      | Text m ↦ ⟦<TextMachine as Machine>⟧.holds m
      | Flag m ↦ ⟦<FlagMachine as Machine>⟧.holds m
      | AttachedText m ↦ ⟦<AttachedTextMachine as Machine>⟧.holds m
      | Endpoints m ↦ ⟦<EndpointsMachine as Machine>⟧.holds m
      | Authors m ↦ ⟦<AuthorsMachine as Machine>⟧.holds m
      | Entity m ↦ ⟦<EntityMachine as Machine>⟧.holds m
      | Hashes m ↦ ⟦<HashesMachine as Machine>⟧.holds m
      | Properties m ↦ ⟦<PropertiesMachine as Machine>⟧.holds m
      | Commits m ↦ ⟦<CommitsMachine as Machine>⟧.holds m
      | Patches m ↦ ⟦<PatchesMachine as Machine>⟧.holds m
      | ExternalReferences m ↦ ⟦<ExternalReferencesMachine as Machine>⟧.holds m
      | Dependencies m ↦ ⟦<DependenciesMachine as Machine>⟧.holds m
      | Compositions m ↦ ⟦<CompositionsMachine as Machine>⟧.holds m
      | Licenses m ↦ ⟦<LicensesMachine as Machine>⟧.holds m
      | Signature m ↦ ⟦<SignatureMachine as Machine>⟧.holds m
      | Tool m ↦ ⟦<ToolMachine as Machine>⟧.holds m
      | Swid m ↦ ⟦<SwidMachine as Machine>⟧.holds m
      | Evidence m ↦ ⟦<ComponentEvidenceMachine as Machine>⟧.holds m
      | Data m ↦ ⟦<DataMachine as Machine>⟧.holds m
    ] };

    fn start(sort: LeafKind, opened: &Start<'_>) -> Result<Leaf, XmlReadError> {
        match sort {
            LeafKind::Text => Ok(Leaf::Text(TextMachine::start(opened)?)),
            LeafKind::Flag => Ok(Leaf::Flag(FlagMachine::start(opened)?)),
            LeafKind::AttachedText => Ok(Leaf::AttachedText(AttachedTextMachine::start(opened)?)),
            LeafKind::Endpoints => Ok(Leaf::Endpoints(EndpointsMachine::start(opened)?)),
            LeafKind::Authors => Ok(Leaf::Authors(AuthorsMachine::start(opened)?)),
            LeafKind::Entity => Ok(Leaf::Entity(EntityMachine::start(opened)?)),
            LeafKind::Hashes => Ok(Leaf::Hashes(HashesMachine::start(opened)?)),
            LeafKind::Properties => Ok(Leaf::Properties(PropertiesMachine::start(opened)?)),
            LeafKind::Commits => Ok(Leaf::Commits(CommitsMachine::start(opened)?)),
            LeafKind::Patches => Ok(Leaf::Patches(PatchesMachine::start(opened)?)),
            LeafKind::ExternalReferences => Ok(Leaf::ExternalReferences(
                ExternalReferencesMachine::start(opened)?,
            )),
            LeafKind::Dependencies => Ok(Leaf::Dependencies(DependenciesMachine::start(opened)?)),
            LeafKind::Compositions => Ok(Leaf::Compositions(CompositionsMachine::start(opened)?)),
            LeafKind::Licenses => Ok(Leaf::Licenses(LicensesMachine::start(opened)?)),
            LeafKind::Signature => Ok(Leaf::Signature(SignatureMachine::start(opened)?)),
            LeafKind::Tool => Ok(Leaf::Tool(ToolMachine::start(opened)?)),
            LeafKind::Swid => Ok(Leaf::Swid(SwidMachine::start(opened)?)),
            LeafKind::Evidence => Ok(Leaf::Evidence(ComponentEvidenceMachine::start(opened)?)),
            LeafKind::Data => Ok(Leaf::Data(DataMachine::start(opened)?)),
        }
    }

    fn step(&mut self, place: usize, event: &XmlEvent) -> Result<bool, XmlReadError> {
        match self {
            Leaf::Text(machine) => machine.step(place, event),
            Leaf::Flag(machine) => machine.step(place, event),
            Leaf::AttachedText(machine) => machine.step(place, event),
            Leaf::Endpoints(machine) => machine.step(place, event),
            Leaf::Authors(machine) => machine.step(place, event),
            Leaf::Entity(machine) => machine.step(place, event),
            Leaf::Hashes(machine) => machine.step(place, event),
            Leaf::Properties(machine) => machine.step(place, event),
            Leaf::Commits(machine) => machine.step(place, event),
            Leaf::Patches(machine) => machine.step(place, event),
            Leaf::ExternalReferences(machine) => machine.step(place, event),
            Leaf::Dependencies(machine) => machine.step(place, event),
            Leaf::Compositions(machine) => machine.step(place, event),
            Leaf::Licenses(machine) => machine.step(place, event),
            Leaf::Signature(machine) => machine.step(place, event),
            Leaf::Tool(machine) => machine.step(place, event),
            Leaf::Swid(machine) => machine.step(place, event),
            Leaf::Evidence(machine) => machine.step(place, event),
            Leaf::Data(machine) => machine.step(place, event),
        }
    }

    fn finish(self, place: usize, event: &XmlEvent) -> Result<LeafValue, XmlReadError> {
        match self {
            Leaf::Text(machine) => Ok(LeafValue::Text(machine.finish(place, event)?)),
            Leaf::Flag(machine) => Ok(LeafValue::Flag(machine.finish(place, event)?)),
            Leaf::AttachedText(machine) => Ok(LeafValue::AttachedText(machine.finish(
                place, event,
            )?)),
            Leaf::Endpoints(machine) => Ok(LeafValue::Endpoints(machine.finish(place, event)?)),
            Leaf::Authors(machine) => Ok(LeafValue::Authors(machine.finish(place, event)?)),
            Leaf::Entity(machine) => Ok(LeafValue::Entity(machine.finish(place, event)?)),
            Leaf::Hashes(machine) => Ok(LeafValue::Hashes(machine.finish(place, event)?)),
            Leaf::Properties(machine) => Ok(LeafValue::Properties(machine.finish(place, event)?)),
            Leaf::Commits(machine) => Ok(LeafValue::Commits(machine.finish(place, event)?)),
            Leaf::Patches(machine) => Ok(LeafValue::Patches(machine.finish(place, event)?)),
            Leaf::ExternalReferences(machine) => Ok(LeafValue::ExternalReferences(machine.finish(
                place, event,
            )?)),
            Leaf::Dependencies(machine) => Ok(LeafValue::Dependencies(machine.finish(
                place, event,
            )?)),
            Leaf::Compositions(machine) => Ok(LeafValue::Compositions(machine.finish(
                place, event,
            )?)),
            Leaf::Licenses(machine) => Ok(LeafValue::Licenses(machine.finish(place, event)?)),
            Leaf::Signature(machine) => Ok(LeafValue::Signature(machine.finish(place, event)?)),
            Leaf::Tool(machine) => Ok(LeafValue::Tool(machine.finish(place, event)?)),
            Leaf::Swid(machine) => Ok(LeafValue::Swid(machine.finish(place, event)?)),
            Leaf::Evidence(machine) => Ok(LeafValue::Evidence(machine.finish(place, event)?)),
            Leaf::Data(machine) => Ok(LeafValue::Data(machine.finish(place, event)?)),
        }
    }
}
