//! Hashes and properties.

use cdx_events::XmlEvent;
use cdx_leaf::{Rule, Start};
use cdx_machine::{ListMachine, ListOf, Machine, TextRecordMachine};
use cdx_models::{Hash, Hashes, Properties, Property, XmlReadError};

/// Hashes as a list.
pub struct HashList;

/// The machine of hashes.
pub struct HashesMachine {
    machine: ListMachine<HashList>,
}

impl Drop for HashesMachine {
    fn drop(self) {
        let HashesMachine { machine: _ } = self;
    }
}

impl Machine for HashesMachine {
    ghost use Rattle.cdx_models.specs.Records.{hashes_tree};
    ghost use Rattle.cdx_schema.specs.Kinds.{a_list, hashes};

    type Value = Hashes;

    ghost tree = { hashes_tree };

    ghost kind = { a_list hashes };

    ghost holds = { λ m. ⟦<ListMachine<HashList> as Machine>⟧.holds m.machine };

    fn start(opened: &Start<'_>) -> Result<HashesMachine, XmlReadError> {
        Ok(HashesMachine {
            machine: ListMachine::<HashList>::start(opened)?,
        })
    }

    fn step(&mut self, place: usize, event: &XmlEvent) -> Result<bool, XmlReadError> {
        self.machine.step(place, event)
    }

    fn finish(self, place: usize, event: &XmlEvent) -> Result<Hashes, XmlReadError> {
        let HashesMachine { machine } = self;
        Ok(Hashes(machine.finish(place, event)?))
    }
}

#[tactic(auto, unfolding(cdx_machine::proofs::OnRows::on_rows), using(cdx_machine::proofs::OnRows::by_rows))]
impl ListOf for HashList {
    ghost use Rattle.cdx_schema.specs.Kinds.{hashes};
    ghost use Rattle.cdx_push_models.specs.ItemKinds.{hashes_item};

    type Item = TextRecordMachine<Hash>;

    ghost list_name = { hashes };

    ghost one_name = { tt };

    ghost item_kind = { hashes_item };

    fn inner() -> &'static str {
        "hash"
    }

    fn rule() -> Rule {
        Rule::Strict
    }
}

/// Properties as a list.
pub struct PropertyList;

/// The machine of properties.
pub struct PropertiesMachine {
    machine: ListMachine<PropertyList>,
}

impl Drop for PropertiesMachine {
    fn drop(self) {
        let PropertiesMachine { machine: _ } = self;
    }
}

impl Machine for PropertiesMachine {
    ghost use Rattle.cdx_models.specs.Records.{properties_tree};
    ghost use Rattle.cdx_schema.specs.Kinds.{a_list, properties};

    type Value = Properties;

    ghost tree = { properties_tree };

    ghost kind = { a_list properties };

    ghost holds = { λ m. ⟦<ListMachine<PropertyList> as Machine>⟧.holds m.machine };

    fn start(opened: &Start<'_>) -> Result<PropertiesMachine, XmlReadError> {
        Ok(PropertiesMachine {
            machine: ListMachine::<PropertyList>::start(opened)?,
        })
    }

    fn step(&mut self, place: usize, event: &XmlEvent) -> Result<bool, XmlReadError> {
        self.machine.step(place, event)
    }

    fn finish(self, place: usize, event: &XmlEvent) -> Result<Properties, XmlReadError> {
        let PropertiesMachine { machine } = self;
        Ok(Properties(machine.finish(place, event)?))
    }
}

#[tactic(auto, unfolding(cdx_machine::proofs::OnRows::on_rows), using(cdx_machine::proofs::OnRows::by_rows))]
impl ListOf for PropertyList {
    ghost use Rattle.cdx_schema.specs.Kinds.{properties};
    ghost use Rattle.cdx_push_models.specs.ItemKinds.{properties_item};

    type Item = TextRecordMachine<Property>;

    ghost list_name = { properties };

    ghost one_name = { tt };

    ghost item_kind = { properties_item };

    fn inner() -> &'static str {
        "property"
    }

    fn rule() -> Rule {
        Rule::Lax
    }
}
