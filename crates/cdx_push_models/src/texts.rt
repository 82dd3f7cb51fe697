//! Lists of texts.

use cdx_events::{List, Text, XmlEvent};
use cdx_leaf::{Rule, Start};
use cdx_machine::{ListMachine, ListOf, Machine, TextMachine};
use cdx_models::XmlReadError;

/// The addresses of an issue as a list.
pub struct LinkList;

/// The machine of the addresses of an issue.
pub struct LinksMachine {
    machine: ListMachine<LinkList>,
}

impl Drop for LinksMachine {
    fn drop(self) {
        let LinksMachine { machine: _ } = self;
    }
}

impl Machine for LinksMachine {
    ghost use Rattle.cdx_models.specs.Trees.{list_tree, text};
    ghost use Rattle.cdx_schema.specs.Kinds.{a_list, links};

    type Value = List<Text>;

    ghost tree = { list_tree text };

    ghost kind = { a_list links };

    ghost holds = { λ m. ⟦<ListMachine<LinkList> as Machine>⟧.holds m.machine };

    fn start(opened: &Start<'_>) -> Result<LinksMachine, XmlReadError> {
        Ok(LinksMachine {
            machine: ListMachine::<LinkList>::start(opened)?,
        })
    }

    fn step(&mut self, place: usize, event: &XmlEvent) -> Result<bool, XmlReadError> {
        self.machine.step(place, event)
    }

    fn finish(self, place: usize, event: &XmlEvent) -> Result<List<Text>, XmlReadError> {
        let LinksMachine { machine } = self;
        machine.finish(place, event)
    }
}

#[tactic(auto, unfolding(cdx_machine::proofs::OnRows::on_rows), using(cdx_machine::proofs::OnRows::by_rows))]
impl ListOf for LinkList {
    ghost use Rattle.cdx_schema.specs.Kinds.{links};
    ghost use Rattle.cdx_push_models.specs.ItemKinds.{links_item};

    type Item = TextMachine;

    ghost list_name = { links };

    ghost one_name = { tt };

    ghost item_kind = { links_item };

    fn inner() -> &'static str {
        "url"
    }

    fn rule() -> Rule {
        Rule::Strict
    }
}

/// Endpoints as a list.
pub struct EndpointList;

/// The machine of endpoints.
pub struct EndpointsMachine {
    machine: ListMachine<EndpointList>,
}

impl Drop for EndpointsMachine {
    fn drop(self) {
        let EndpointsMachine { machine: _ } = self;
    }
}

impl Machine for EndpointsMachine {
    ghost use Rattle.cdx_models.specs.Trees.{list_tree, text};
    ghost use Rattle.cdx_schema.specs.Kinds.{a_list, endpoints};

    type Value = List<Text>;

    ghost tree = { list_tree text };

    ghost kind = { a_list endpoints };

    ghost holds = { λ m. ⟦<ListMachine<EndpointList> as Machine>⟧.holds m.machine };

    fn start(opened: &Start<'_>) -> Result<EndpointsMachine, XmlReadError> {
        Ok(EndpointsMachine {
            machine: ListMachine::<EndpointList>::start(opened)?,
        })
    }

    fn step(&mut self, place: usize, event: &XmlEvent) -> Result<bool, XmlReadError> {
        self.machine.step(place, event)
    }

    fn finish(self, place: usize, event: &XmlEvent) -> Result<List<Text>, XmlReadError> {
        let EndpointsMachine { machine } = self;
        machine.finish(place, event)
    }
}

#[tactic(auto, unfolding(cdx_machine::proofs::OnRows::on_rows), using(cdx_machine::proofs::OnRows::by_rows))]
impl ListOf for EndpointList {
    ghost use Rattle.cdx_schema.specs.Kinds.{endpoints};
    ghost use Rattle.cdx_push_models.specs.ItemKinds.{endpoints_item};

    type Item = TextMachine;

    ghost list_name = { endpoints };

    ghost one_name = { tt };

    ghost item_kind = { endpoints_item };

    fn inner() -> &'static str {
        "endpoint"
    }

    fn rule() -> Rule {
        Rule::Strict
    }
}
