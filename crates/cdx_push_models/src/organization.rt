//! Organizations and their contacts.

use cdx_events::{List, OwnedName, Text, XmlEvent};
use cdx_leaf::{Rule, Start, push_into};
use cdx_machine::{
    FoundChild, ListMachine, ListOf, Machine, Only, Or, PushRecord, RecordMachine, TextMachine,
};
use cdx_models::{OrganizationalContact, OrganizationalEntity, SpecVersion, XmlReadError};
use std::alloc::{AllocError, Global};

/// The children of a contact.
pub struct ContactChildren;

/// The machine of a contact.
#[derive(Drop)]
pub struct ContactMachine {
    machine: RecordMachine<ContactChildren>,
}

impl Machine for ContactMachine {
    ghost use Rattle.cdx_models.specs.Trees.{contact};
    ghost use Rattle.cdx_models.specs.Records.{contact_tree};
    ghost use Rattle.cdx_schema.specs.Kinds.{a_record};

    type Value = OrganizationalContact;

    ghost tree = { contact_tree };

    ghost kind = { a_record contact };

    ghost holds = { λ m. ⟦<RecordMachine<ContactChildren> as Machine>⟧.holds m.machine };

    fn start(opened: &Start<'_>) -> Result<ContactMachine, XmlReadError> {
        Ok(ContactMachine {
            machine: RecordMachine::<ContactChildren>::start(opened)?,
        })
    }

    fn step(&mut self, place: usize, event: &XmlEvent) -> Result<bool, XmlReadError> {
        self.machine.step(place, event)
    }

    fn finish(self, place: usize, event: &XmlEvent) -> Result<OrganizationalContact, XmlReadError> {
        self.machine.finish(place, event)
    }
}

#[tactic(auto, unfolding(cdx_machine::proofs::OnRows::on_rows), using(cdx_machine::proofs::OnRows::by_rows))]
impl PushRecord for ContactChildren {
    ghost use Rattle.cdx_push_models.specs.RecordKinds.{contact_kinds};

    type Record = OrganizationalContact;

    type Child = Or<TextMachine, Or<TextMachine, Only<TextMachine>>>;

    ghost child_kinds = { contact_kinds };

    fn find(_part: &OrganizationalContact, _version: SpecVersion, name: &OwnedName) -> FoundChild {
        match name.local_name.as_str() {
            "name" => FoundChild::At(0),
            "email" => FoundChild::At(1),
            "phone" => FoundChild::At(2),
            _ => FoundChild::Unknown,
        }
    }

    fn put(
        part: &mut OrganizationalContact,
        _alloc: Global,
        value: Or<Text, Or<Text, Text>>,
    ) -> Result<(), AllocError> {
        match value {
            Or::This(name) => part.name = Some(name),
            Or::Other(Or::This(email)) => part.email = Some(email),
            Or::Other(Or::Other(phone)) => part.phone = Some(phone),
        }
        Ok(())
    }
}

/// The children of an entity.
pub struct EntityChildren;

/// The machine of an entity.
pub struct EntityMachine {
    machine: RecordMachine<EntityChildren>,
}

impl Drop for EntityMachine {
    fn drop(self) {
        let EntityMachine { machine: _ } = self;
    }
}

impl Machine for EntityMachine {
    ghost use Rattle.cdx_models.specs.Trees.{entity};
    ghost use Rattle.cdx_models.specs.Records.{entity_tree};
    ghost use Rattle.cdx_schema.specs.Kinds.{a_record};

    type Value = OrganizationalEntity;

    ghost tree = { entity_tree };

    ghost kind = { a_record entity };

    ghost holds = { λ m. ⟦<RecordMachine<EntityChildren> as Machine>⟧.holds m.machine };

    fn start(opened: &Start<'_>) -> Result<EntityMachine, XmlReadError> {
        Ok(EntityMachine {
            machine: RecordMachine::<EntityChildren>::start(opened)?,
        })
    }

    fn step(&mut self, place: usize, event: &XmlEvent) -> Result<bool, XmlReadError> {
        self.machine.step(place, event)
    }

    fn finish(self, place: usize, event: &XmlEvent) -> Result<OrganizationalEntity, XmlReadError> {
        let EntityMachine { machine } = self;
        machine.finish(place, event)
    }
}

#[tactic(auto, unfolding(cdx_machine::proofs::OnRows::on_rows), using(cdx_machine::proofs::OnRows::by_rows))]
impl PushRecord for EntityChildren {
    ghost use Rattle.cdx_push_models.specs.RecordKinds.{entity_kinds};

    type Record = OrganizationalEntity;

    type Child = Or<TextMachine, Or<TextMachine, Only<ContactMachine>>>;

    ghost child_kinds = { entity_kinds };

    fn find(_part: &OrganizationalEntity, _version: SpecVersion, name: &OwnedName) -> FoundChild {
        match name.local_name.as_str() {
            "name" => FoundChild::At(0),
            "url" => FoundChild::At(1),
            "contact" => FoundChild::At(2),
            _ => FoundChild::Unknown,
        }
    }

    fn put(
        part: &mut OrganizationalEntity,
        alloc: Global,
        value: Or<Text, Or<Text, OrganizationalContact>>,
    ) -> Result<(), AllocError> {
        match value {
            Or::This(name) => part.name = Some(name),
            Or::Other(Or::This(url)) => push_into(alloc, &mut part.url, url)?,
            Or::Other(Or::Other(contact)) => push_into(alloc, &mut part.contact, contact)?,
        }
        Ok(())
    }
}

/// Authors as a list.
pub struct AuthorList;

/// The machine of authors.
pub struct AuthorsMachine {
    machine: ListMachine<AuthorList>,
}

impl Drop for AuthorsMachine {
    fn drop(self) {
        let AuthorsMachine { machine: _ } = self;
    }
}

impl Machine for AuthorsMachine {
    ghost use Rattle.cdx_models.specs.Trees.{list_tree};
    ghost use Rattle.cdx_models.specs.Records.{contact_tree};
    ghost use Rattle.cdx_schema.specs.Kinds.{a_list, authors};

    type Value = List<OrganizationalContact>;

    ghost tree = { list_tree contact_tree };

    ghost kind = { a_list authors };

    ghost holds = { λ m. ⟦<ListMachine<AuthorList> as Machine>⟧.holds m.machine };

    fn start(opened: &Start<'_>) -> Result<AuthorsMachine, XmlReadError> {
        Ok(AuthorsMachine {
            machine: ListMachine::<AuthorList>::start(opened)?,
        })
    }

    fn step(&mut self, place: usize, event: &XmlEvent) -> Result<bool, XmlReadError> {
        self.machine.step(place, event)
    }

    fn finish(
        self,
        place: usize,
        event: &XmlEvent,
    ) -> Result<List<OrganizationalContact>, XmlReadError> {
        let AuthorsMachine { machine } = self;
        machine.finish(place, event)
    }
}

#[tactic(auto, unfolding(cdx_machine::proofs::OnRows::on_rows), using(cdx_machine::proofs::OnRows::by_rows))]
impl ListOf for AuthorList {
    ghost use Rattle.cdx_schema.specs.Kinds.{authors};
    ghost use Rattle.cdx_push_models.specs.ItemKinds.{authors_item};

    type Item = ContactMachine;

    ghost list_name = { authors };

    ghost one_name = { tt };

    ghost item_kind = { authors_item };

    fn inner() -> &'static str {
        "author"
    }

    fn rule() -> Rule {
        Rule::Strict
    }
}
