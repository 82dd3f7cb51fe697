//! Dependencies and compositions.

use crate::bom_reference::BomReferenceMachine;
use crate::signature::SignatureMachine;
use cdx_events::{List, OwnedName, Text, XmlEvent};
use cdx_leaf::{Rule, Start, XmlRecord};
use cdx_machine::{
    FoundChild, ListMachine, ListOf, Machine, NoMachine, Only, Or, PushRecord, RecordMachine,
    TextMachine,
};
use cdx_models::{SpecVersion, XmlReadError};
use cdx_relations::{BomReference, Composition, Compositions, Dependencies, Dependency};
use cdx_signature::Signature;
use std::alloc::{AllocError, Global};

/// The children of a dependency.
pub struct DependencyChildren;

/// The machine of a dependency.
#[derive(Drop)]
pub struct DependencyMachine {
    machine: RecordMachine<DependencyChildren>,
}

impl Machine for DependencyMachine {
    ghost use Rattle.cdx_models.specs.Trees.{dependency};
    ghost use Rattle.cdx_relations.specs.Records.{dependency_tree};
    ghost use Rattle.cdx_schema.specs.Kinds.{a_record};

    type Value = Dependency;

    ghost tree = { dependency_tree };

    ghost kind = { a_record dependency };

    ghost holds = { λ m. ⟦<RecordMachine<DependencyChildren> as Machine>⟧.holds m.machine };

    fn start(opened: &Start<'_>) -> Result<DependencyMachine, XmlReadError> {
        Ok(DependencyMachine {
            machine: RecordMachine::<DependencyChildren>::start(opened)?,
        })
    }

    fn step(&mut self, place: usize, event: &XmlEvent) -> Result<bool, XmlReadError> {
        self.machine.step(place, event)
    }

    fn finish(self, place: usize, event: &XmlEvent) -> Result<Dependency, XmlReadError> {
        self.machine.finish(place, event)
    }
}

#[tactic(auto, unfolding(cdx_machine::proofs::OnRows::on_rows), using(cdx_machine::proofs::OnRows::by_rows))]
impl PushRecord for DependencyChildren {
    ghost use Rattle.cdx_push_relations.specs.RecordKinds.{dependency_kinds};

    type Record = Dependency;

    type Child = Or<BomReferenceMachine, NoMachine>;

    ghost child_kinds = { dependency_kinds };

    fn find(_part: &Dependency, _version: SpecVersion, name: &OwnedName) -> FoundChild {
        match name.local_name.as_str() {
            "dependency" => FoundChild::At(0),
            _ => FoundChild::Unknown,
        }
    }

    fn put(
        part: &mut Dependency,
        _alloc: Global,
        value: Or<BomReference, NoMachine>,
    ) -> Result<(), AllocError> {
        match value {
            Or::This(reference) => part.depends_on.push(reference.0),
            Or::Other(_) => Ok(()),
        }
    }
}

/// Dependencies as a list.
pub struct DependencyList;

/// The machine of dependencies.
pub struct DependenciesMachine {
    machine: ListMachine<DependencyList>,
}

impl Drop for DependenciesMachine {
    fn drop(self) {
        let DependenciesMachine { machine: _ } = self;
    }
}

impl Machine for DependenciesMachine {
    ghost use Rattle.cdx_relations.specs.Records.{dependencies_tree};
    ghost use Rattle.cdx_schema.specs.Kinds.{a_list, dependencies};

    type Value = Dependencies;

    ghost tree = { dependencies_tree };

    ghost kind = { a_list dependencies };

    ghost holds = { λ m. ⟦<ListMachine<DependencyList> as Machine>⟧.holds m.machine };

    fn start(opened: &Start<'_>) -> Result<DependenciesMachine, XmlReadError> {
        Ok(DependenciesMachine {
            machine: ListMachine::<DependencyList>::start(opened)?,
        })
    }

    fn step(&mut self, place: usize, event: &XmlEvent) -> Result<bool, XmlReadError> {
        self.machine.step(place, event)
    }

    fn finish(self, place: usize, event: &XmlEvent) -> Result<Dependencies, XmlReadError> {
        let DependenciesMachine { machine } = self;
        Ok(Dependencies(machine.finish(place, event)?))
    }
}

#[tactic(auto, unfolding(cdx_machine::proofs::OnRows::on_rows), using(cdx_machine::proofs::OnRows::by_rows))]
impl ListOf for DependencyList {
    ghost use Rattle.cdx_schema.specs.Kinds.{dependencies};
    ghost use Rattle.cdx_push_relations.specs.ItemKinds.{dependencies_item};

    type Item = DependencyMachine;

    ghost list_name = { dependencies };

    ghost one_name = { tt };

    ghost item_kind = { dependencies_item };

    fn inner() -> &'static str {
        "dependency"
    }

    fn rule() -> Rule {
        Rule::Strict
    }
}

/// Assemblies as a list.
pub struct AssemblyList;

/// The machine of assemblies.
#[derive(Drop)]
pub struct AssembliesMachine {
    machine: ListMachine<AssemblyList>,
}

impl Machine for AssembliesMachine {
    ghost use Rattle.cdx_models.specs.Trees.{list_tree};
    ghost use Rattle.cdx_relations.specs.Records.{bom_reference_tree};
    ghost use Rattle.cdx_schema.specs.Kinds.{a_list, assemblies};

    type Value = List<BomReference>;

    ghost tree = { list_tree bom_reference_tree };

    ghost kind = { a_list assemblies };

    ghost holds = { λ m. ⟦<ListMachine<AssemblyList> as Machine>⟧.holds m.machine };

    fn start(opened: &Start<'_>) -> Result<AssembliesMachine, XmlReadError> {
        Ok(AssembliesMachine {
            machine: ListMachine::<AssemblyList>::start(opened)?,
        })
    }

    fn step(&mut self, place: usize, event: &XmlEvent) -> Result<bool, XmlReadError> {
        self.machine.step(place, event)
    }

    fn finish(self, place: usize, event: &XmlEvent) -> Result<List<BomReference>, XmlReadError> {
        self.machine.finish(place, event)
    }
}

#[tactic(auto, unfolding(cdx_machine::proofs::OnRows::on_rows), using(cdx_machine::proofs::OnRows::by_rows))]
impl ListOf for AssemblyList {
    ghost use Rattle.cdx_schema.specs.Kinds.{assemblies};
    ghost use Rattle.cdx_push_relations.specs.ItemKinds.{assemblies_item};

    type Item = BomReferenceMachine;

    ghost list_name = { assemblies };

    ghost one_name = { tt };

    ghost item_kind = { assemblies_item };

    fn inner() -> &'static str {
        "assembly"
    }

    fn rule() -> Rule {
        Rule::Lax
    }
}

/// The dependencies of a composition as a list.
pub struct ComposedList;

/// The machine of the dependencies of a composition.
#[derive(Drop)]
pub struct ComposedMachine {
    machine: ListMachine<ComposedList>,
}

impl Machine for ComposedMachine {
    ghost use Rattle.cdx_models.specs.Trees.{list_tree};
    ghost use Rattle.cdx_relations.specs.Records.{bom_reference_tree};
    ghost use Rattle.cdx_schema.specs.Kinds.{a_list, composed};

    type Value = List<BomReference>;

    ghost tree = { list_tree bom_reference_tree };

    ghost kind = { a_list composed };

    ghost holds = { λ m. ⟦<ListMachine<ComposedList> as Machine>⟧.holds m.machine };

    fn start(opened: &Start<'_>) -> Result<ComposedMachine, XmlReadError> {
        Ok(ComposedMachine {
            machine: ListMachine::<ComposedList>::start(opened)?,
        })
    }

    fn step(&mut self, place: usize, event: &XmlEvent) -> Result<bool, XmlReadError> {
        self.machine.step(place, event)
    }

    fn finish(self, place: usize, event: &XmlEvent) -> Result<List<BomReference>, XmlReadError> {
        self.machine.finish(place, event)
    }
}

#[tactic(auto, unfolding(cdx_machine::proofs::OnRows::on_rows), using(cdx_machine::proofs::OnRows::by_rows))]
impl ListOf for ComposedList {
    ghost use Rattle.cdx_schema.specs.Kinds.{composed};
    ghost use Rattle.cdx_push_relations.specs.ItemKinds.{composed_item};

    type Item = BomReferenceMachine;

    ghost list_name = { composed };

    ghost one_name = { tt };

    ghost item_kind = { composed_item };

    fn inner() -> &'static str {
        "dependency"
    }

    fn rule() -> Rule {
        Rule::Lax
    }
}

/// Vulnerabilities as a list.
pub struct VulnerabilityList;

/// The machine of vulnerabilities.
#[derive(Drop)]
pub struct VulnerabilitiesMachine {
    machine: ListMachine<VulnerabilityList>,
}

impl Machine for VulnerabilitiesMachine {
    ghost use Rattle.cdx_models.specs.Trees.{list_tree};
    ghost use Rattle.cdx_relations.specs.Records.{bom_reference_tree};
    ghost use Rattle.cdx_schema.specs.Kinds.{a_list, vulnerabilities};

    type Value = List<BomReference>;

    ghost tree = { list_tree bom_reference_tree };

    ghost kind = { a_list vulnerabilities };

    ghost holds = { λ m. ⟦<ListMachine<VulnerabilityList> as Machine>⟧.holds m.machine };

    fn start(opened: &Start<'_>) -> Result<VulnerabilitiesMachine, XmlReadError> {
        Ok(VulnerabilitiesMachine {
            machine: ListMachine::<VulnerabilityList>::start(opened)?,
        })
    }

    fn step(&mut self, place: usize, event: &XmlEvent) -> Result<bool, XmlReadError> {
        self.machine.step(place, event)
    }

    fn finish(self, place: usize, event: &XmlEvent) -> Result<List<BomReference>, XmlReadError> {
        self.machine.finish(place, event)
    }
}

#[tactic(auto, unfolding(cdx_machine::proofs::OnRows::on_rows), using(cdx_machine::proofs::OnRows::by_rows))]
impl ListOf for VulnerabilityList {
    ghost use Rattle.cdx_schema.specs.Kinds.{vulnerabilities};
    ghost use Rattle.cdx_push_relations.specs.ItemKinds.{vulnerabilities_item};

    type Item = BomReferenceMachine;

    ghost list_name = { vulnerabilities };

    ghost one_name = { tt };

    ghost item_kind = { vulnerabilities_item };

    fn inner() -> &'static str {
        "vulnerability"
    }

    fn rule() -> Rule {
        Rule::Lax
    }
}

/// The children of a composition.
pub struct CompositionChildren;

/// The machine of a composition.
#[derive(Drop)]
pub struct CompositionMachine {
    machine: RecordMachine<CompositionChildren>,
}

impl Machine for CompositionMachine {
    ghost use Rattle.cdx_models.specs.Trees.{composition};
    ghost use Rattle.cdx_relations.specs.Records.{composition_tree};
    ghost use Rattle.cdx_schema.specs.Kinds.{a_record};

    type Value = Composition;

    ghost tree = { composition_tree };

    ghost kind = { a_record composition };

    ghost holds = { λ m. ⟦<RecordMachine<CompositionChildren> as Machine>⟧.holds m.machine };

    fn start(opened: &Start<'_>) -> Result<CompositionMachine, XmlReadError> {
        Ok(CompositionMachine {
            machine: RecordMachine::<CompositionChildren>::start(opened)?,
        })
    }

    fn step(&mut self, place: usize, event: &XmlEvent) -> Result<bool, XmlReadError> {
        self.machine.step(place, event)
    }

    fn finish(self, place: usize, event: &XmlEvent) -> Result<Composition, XmlReadError> {
        self.machine.finish(place, event)
    }
}

#[tactic(auto, unfolding(cdx_machine::proofs::OnRows::on_rows), using(cdx_machine::proofs::OnRows::by_rows))]
impl PushRecord for CompositionChildren {
    ghost use Rattle.cdx_push_relations.specs.RecordKinds.{composition_kinds};

    type Record = Composition;

    type Child = Or<
        TextMachine,
        Or<
            AssembliesMachine,
            Or<ComposedMachine, Or<VulnerabilitiesMachine, Only<SignatureMachine>>>,
        >,
    >;

    ghost child_kinds = { composition_kinds };

    fn find(
        _part: &<Composition as XmlRecord>::Part,
        version: SpecVersion,
        name: &OwnedName,
    ) -> FoundChild {
        match name.local_name.as_str() {
            "aggregate" => FoundChild::At(0),
            "assemblies" => FoundChild::At(1),
            "dependencies" => FoundChild::At(2),
            "vulnerabilities" => FoundChild::since(SpecVersion::V1_5, version, 3),
            "signature" => FoundChild::since(SpecVersion::V1_4, version, 4),
            _ => FoundChild::Unknown,
        }
    }

    fn put(
        part: &mut <Composition as XmlRecord>::Part,
        _alloc: Global,
        value: Or<
            Text,
            Or<List<BomReference>, Or<List<BomReference>, Or<List<BomReference>, Signature>>>,
        >,
    ) -> Result<(), AllocError> {
        match value {
            Or::This(aggregate) => part.aggregate = Some(aggregate),
            Or::Other(Or::This(assemblies)) => part.assemblies = Some(assemblies),
            Or::Other(Or::Other(Or::This(dependencies))) => part.dependencies = Some(dependencies),
            Or::Other(Or::Other(Or::Other(Or::This(vulnerabilities)))) => part.vulnerabilities =
                Some(vulnerabilities),
            Or::Other(Or::Other(Or::Other(Or::Other(signature)))) => part.signature = Some(
                signature,
            ),
        }
        Ok(())
    }
}

/// Compositions as a list.
pub struct CompositionList;

/// The machine of compositions.
pub struct CompositionsMachine {
    machine: ListMachine<CompositionList>,
}

impl Drop for CompositionsMachine {
    fn drop(self) {
        let CompositionsMachine { machine: _ } = self;
    }
}

impl Machine for CompositionsMachine {
    ghost use Rattle.cdx_relations.specs.Records.{compositions_tree};
    ghost use Rattle.cdx_schema.specs.Kinds.{a_list, compositions};

    type Value = Compositions;

    ghost tree = { compositions_tree };

    ghost kind = { a_list compositions };

    ghost holds = { λ m. ⟦<ListMachine<CompositionList> as Machine>⟧.holds m.machine };

    fn start(opened: &Start<'_>) -> Result<CompositionsMachine, XmlReadError> {
        Ok(CompositionsMachine {
            machine: ListMachine::<CompositionList>::start(opened)?,
        })
    }

    fn step(&mut self, place: usize, event: &XmlEvent) -> Result<bool, XmlReadError> {
        self.machine.step(place, event)
    }

    fn finish(self, place: usize, event: &XmlEvent) -> Result<Compositions, XmlReadError> {
        let CompositionsMachine { machine } = self;
        Ok(Compositions(machine.finish(place, event)?))
    }
}

#[tactic(auto, unfolding(cdx_machine::proofs::OnRows::on_rows), using(cdx_machine::proofs::OnRows::by_rows))]
impl ListOf for CompositionList {
    ghost use Rattle.cdx_schema.specs.Kinds.{compositions};
    ghost use Rattle.cdx_push_relations.specs.ItemKinds.{compositions_item};

    type Item = CompositionMachine;

    ghost list_name = { compositions };

    ghost one_name = { tt };

    ghost item_kind = { compositions_item };

    fn inner() -> &'static str {
        "composition"
    }

    fn rule() -> Rule {
        Rule::Lax
    }
}
