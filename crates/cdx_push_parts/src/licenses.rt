//! Licenses.

use cdx_events::{List, OwnedName, Text, XmlEvent};
use cdx_leaf::{End, Rule, Start};
use cdx_license::{Expression, License, LicenseChoice, LicenseIdentifier, LicensePart, Licenses};
use cdx_machine::{
    ByName, ExactRecord, ExactRecordMachine, FoundChild, Frame, FrameMachine, Machine,
    NamedMachine, Only, Or, PushRecord, RecordMachine, TextMachine, TextRecordMachine,
};
use cdx_models::{AttachedText, Properties, SpecVersion, XmlReadError};
use cdx_push_models::{AttachedTextMachine, PropertiesMachine};
use std::alloc::{AllocError, Global};

/// An SPDX id, which has to be there.
pub struct ExactId;

impl ExactRecord for ExactId {
    ghost use Rattle.std.specs.Prelude.{refl};
    ghost use Rattle.cdx_models.specs.Trees.{spdx_id};
    ghost use Rattle.cdx_leaf.specs.RowContents.{content_from_rows};
    ghost use Rattle.cdx_push_parts.specs.Exact.{nothing_begun, id_whole};

    type Value = LicenseIdentifier;

    type Start = ();

    ghost name = { spdx_id };

    ghost start = { nothing_begun };

    ghost at = { 0 };

    ghost content = { content_from_rows spdx_id };

    ghost plain = { refl };

    ghost whole = { id_whole };

    fn begin(_opened: &Start<'_>) -> Result<(), XmlReadError> {
        Ok(())
    }

    fn with_text(_begun: (), content: Text) -> LicenseIdentifier {
        LicenseIdentifier::SpdxId(content)
    }
}

/// The name of a license, which has to be there.
pub struct ExactName;

impl ExactRecord for ExactName {
    ghost use Rattle.std.specs.Prelude.{refl};
    ghost use Rattle.cdx_models.specs.Trees.{license_name};
    ghost use Rattle.cdx_leaf.specs.RowContents.{content_from_rows};
    ghost use Rattle.cdx_push_parts.specs.Exact.{nothing_begun, name_whole};

    type Value = LicenseIdentifier;

    type Start = ();

    ghost name = { license_name };

    ghost start = { nothing_begun };

    ghost at = { 0 };

    ghost content = { content_from_rows license_name };

    ghost plain = { refl };

    ghost whole = { name_whole };

    fn begin(_opened: &Start<'_>) -> Result<(), XmlReadError> {
        Ok(())
    }

    fn with_text(_begun: (), content: Text) -> LicenseIdentifier {
        LicenseIdentifier::Name(content)
    }
}

/// How a license is named, by an `id` or by a `name`.
pub struct IdOrName;

/// The machine of how a license is named.
#[derive(Drop)]
pub struct LicenseIdentifierMachine {
    machine: NamedMachine<IdOrName>,
}

impl Machine for LicenseIdentifierMachine {
    ghost use Rattle.cdx_license.specs.Records.{identifier_tree};
    ghost use Rattle.cdx_schema.specs.Kinds.{a_license_identifier};

    type Value = LicenseIdentifier;

    ghost tree = { identifier_tree };

    ghost kind = { a_license_identifier };

    ghost holds = { λ m. ⟦<NamedMachine<IdOrName> as Machine>⟧.holds m.machine };

    fn start(opened: &Start<'_>) -> Result<LicenseIdentifierMachine, XmlReadError> {
        Ok(LicenseIdentifierMachine {
            machine: NamedMachine::<IdOrName>::start(opened)?,
        })
    }

    fn step(&mut self, place: usize, event: &XmlEvent) -> Result<bool, XmlReadError> {
        self.machine.step(place, event)
    }

    fn finish(self, place: usize, event: &XmlEvent) -> Result<LicenseIdentifier, XmlReadError> {
        self.machine.finish(place, event)
    }
}

impl ByName for IdOrName {
    ghost use Rattle.std.specs.Prelude.{codes, ◌≡◌};
    ghost use Rattle.cdx_schema.specs.Kinds.{a_license_identifier};
    ghost use Rattle.cdx_license.specs.Records.{identifier_tree};
    ghost use Rattle.cdx_push_parts.specs.Choices.{identifier_by_name};

    type First = ExactRecordMachine<ExactId>;

    type Second = ExactRecordMachine<ExactName>;

    type Value = LicenseIdentifier;

    ghost tree = { identifier_tree };

    ghost kind = { a_license_identifier };

    ghost one = { codes "id" };

    ghost other = { codes "name" };

    ghost lacked = { codes "id or name" };

    ghost by_name = { identifier_by_name };

    fn first() -> &'static str {
        "id"
    }

    fn second() -> &'static str {
        "name"
    }

    fn lacks() -> &'static str {
        "id or name"
    }

    fn from_first(value: LicenseIdentifier) -> LicenseIdentifier
        ensures { identifier_tree result ≡ identifier_tree value }
    {
        value
    }

    fn from_second(value: LicenseIdentifier) -> LicenseIdentifier
        ensures { identifier_tree result ≡ identifier_tree value }
    {
        value
    }
}

/// The children of a license.
pub struct LicenseChildren;

/// The machine of a license.
#[derive(Drop)]
pub struct LicenseMachine {
    machine: RecordMachine<LicenseChildren>,
}

impl Machine for LicenseMachine {
    ghost use Rattle.cdx_models.specs.Trees.{license};
    ghost use Rattle.cdx_license.specs.Records.{license_tree};
    ghost use Rattle.cdx_schema.specs.Kinds.{a_record};

    type Value = License;

    ghost tree = { license_tree };

    ghost kind = { a_record license };

    ghost holds = { λ m. ⟦<RecordMachine<LicenseChildren> as Machine>⟧.holds m.machine };

    fn start(opened: &Start<'_>) -> Result<LicenseMachine, XmlReadError> {
        Ok(LicenseMachine {
            machine: RecordMachine::<LicenseChildren>::start(opened)?,
        })
    }

    fn step(&mut self, place: usize, event: &XmlEvent) -> Result<bool, XmlReadError> {
        self.machine.step(place, event)
    }

    fn finish(self, place: usize, event: &XmlEvent) -> Result<License, XmlReadError> {
        self.machine.finish(place, event)
    }
}

#[tactic(auto, unfolding(cdx_machine::proofs::OnRows::on_rows), using(cdx_machine::proofs::OnRows::by_rows))]
impl PushRecord for LicenseChildren {
    ghost use Rattle.cdx_push_parts.specs.RecordKinds.{license_kinds};

    type Record = License;

    type Child = Or<
        LicenseIdentifierMachine,
        Or<
            LicenseIdentifierMachine,
            Or<AttachedTextMachine, Or<TextMachine, Only<PropertiesMachine>>>,
        >,
    >;

    ghost child_kinds = { license_kinds };

    fn find(part: &LicensePart, version: SpecVersion, name: &OwnedName) -> FoundChild {
        match name.local_name.as_str() {
            "id" => {
                if part.license_identifier.is_some() {
                    return FoundChild::Second;
                }
                FoundChild::At(0)
            }
            "name" => {
                if part.license_identifier.is_some() {
                    return FoundChild::Second;
                }
                FoundChild::At(1)
            }
            "text" => FoundChild::At(2),
            "url" => FoundChild::At(3),
            "properties" => FoundChild::since(SpecVersion::V1_5, version, 4),
            _ => FoundChild::Unknown,
        }
    }

    fn put(
        part: &mut LicensePart,
        _alloc: Global,
        value: Or<LicenseIdentifier, Or<LicenseIdentifier, Or<AttachedText, Or<Text, Properties>>>>,
    ) -> Result<(), AllocError> {
        match value {
            Or::This(id) => part.license_identifier = Some(id),
            Or::Other(Or::This(name)) => part.license_identifier = Some(name),
            Or::Other(Or::Other(Or::This(text))) => part.text = Some(text),
            Or::Other(Or::Other(Or::Other(Or::This(url)))) => part.url = Some(url),
            Or::Other(Or::Other(Or::Other(Or::Other(properties)))) => part.properties = Some(
                properties,
            ),
        }
        Ok(())
    }
}

/// A license or an expression, by its element's name.
pub struct LicenseOrExpression;

/// The machine of a license or an expression.
#[derive(Drop)]
pub struct LicenseChoiceMachine {
    machine: NamedMachine<LicenseOrExpression>,
}

impl Machine for LicenseChoiceMachine {
    ghost use Rattle.cdx_license.specs.Records.{choice_tree};
    ghost use Rattle.cdx_schema.specs.Kinds.{a_license_choice};

    type Value = LicenseChoice;

    ghost tree = { choice_tree };

    ghost kind = { a_license_choice };

    ghost holds = { λ m. ⟦<NamedMachine<LicenseOrExpression> as Machine>⟧.holds m.machine };

    fn start(opened: &Start<'_>) -> Result<LicenseChoiceMachine, XmlReadError> {
        Ok(LicenseChoiceMachine {
            machine: NamedMachine::<LicenseOrExpression>::start(opened)?,
        })
    }

    fn step(&mut self, place: usize, event: &XmlEvent) -> Result<bool, XmlReadError> {
        self.machine.step(place, event)
    }

    fn finish(self, place: usize, event: &XmlEvent) -> Result<LicenseChoice, XmlReadError> {
        self.machine.finish(place, event)
    }
}

impl ByName for LicenseOrExpression {
    ghost use Rattle.std.specs.Prelude.{codes, ◌≡◌};
    ghost use Rattle.cdx_schema.specs.Kinds.{a_license_choice};
    ghost use Rattle.cdx_license.specs.Records.{choice_tree, license_tree, expression_tree};
    ghost use Rattle.cdx_push_parts.specs.Choices.{choice_by_name};

    type First = LicenseMachine;

    type Second = TextRecordMachine<Expression>;

    type Value = LicenseChoice;

    ghost tree = { choice_tree };

    ghost kind = { a_license_choice };

    ghost one = { codes "license" };

    ghost other = { codes "expression" };

    ghost lacked = { codes "license or expression" };

    ghost by_name = { choice_by_name };

    fn first() -> &'static str {
        "license"
    }

    fn second() -> &'static str {
        "expression"
    }

    fn lacks() -> &'static str {
        "license or expression"
    }

    fn from_first(value: License) -> LicenseChoice
        ensures { choice_tree result ≡ license_tree value }
    {
        LicenseChoice::License(value)
    }

    fn from_second(value: Expression) -> LicenseChoice
        ensures { choice_tree result ≡ expression_tree value }
    {
        LicenseChoice::Expression(value)
    }
}

/// Licenses while they are read.
#[derive(Drop)]
pub struct BegunLicenses {
    items: List<LicenseChoice>,
}

/// The machine of licenses.
pub struct LicensesMachine {
    machine: FrameMachine<BegunLicenses>,
}

impl Drop for LicensesMachine {
    fn drop(self) {
        let LicensesMachine { machine: _ } = self;
    }
}

impl Machine for LicensesMachine {
    ghost use Rattle.cdx_license.specs.Records.{licenses_tree};
    ghost use Rattle.cdx_schema.specs.Kinds.{a_list, licenses};

    type Value = Licenses;

    ghost tree = { licenses_tree };

    ghost kind = { a_list licenses };

    ghost holds = { λ m. ⟦<FrameMachine<BegunLicenses> as Machine>⟧.holds m.machine };

    fn start(opened: &Start<'_>) -> Result<LicensesMachine, XmlReadError> {
        Ok(LicensesMachine {
            machine: FrameMachine::<BegunLicenses>::start(opened)?,
        })
    }

    fn step(&mut self, place: usize, event: &XmlEvent) -> Result<bool, XmlReadError> {
        self.machine.step(place, event)
    }

    fn finish(self, place: usize, event: &XmlEvent) -> Result<Licenses, XmlReadError> {
        let LicensesMachine { machine } = self;
        machine.finish(place, event)
    }
}

#[tactic(auto, unfolding(cdx_machine::proofs::OnRows::on_rows), using(cdx_machine::proofs::OnRows::by_rows))]
impl Frame for BegunLicenses {
    ghost use Rattle.cdx_schema.specs.Kinds.{a_list, licenses};
    ghost use Rattle.cdx_schema.specs.XmlReading.{plan_of_list};
    ghost use Rattle.cdx_license.specs.Records.{choice_tree, licenses_tree};
    ghost use Rattle.cdx_machine.specs.Records.{list_first, list_last, list_frame, items_slots};
    ghost use Rattle.cdx_push_parts.specs.Choices.{licenses_kinds};

    type Value = Licenses;

    type Child = Or<LicenseChoiceMachine, Only<LicenseChoiceMachine>>;

    ghost tree = { licenses_tree };

    ghost kind = { a_list licenses };

    ghost plan = { plan_of_list licenses };

    ghost first = { list_first };

    ghost last = { list_last };

    ghost slots = { λ r. items_slots choice_tree r.items };

    ghost child_kinds = { licenses_kinds };

    ghost frame = { list_frame licenses };

    fn rule(&self) -> Rule {
        Rule::Strict
    }

    fn begin(opened: &Start<'_>) -> Result<BegunLicenses, XmlReadError> {
        Ok(BegunLicenses {
            items: List::new(opened.alloc),
        })
    }

    fn find(&self, _version: SpecVersion, name: &OwnedName) -> FoundChild {
        match name.local_name.as_str() {
            "license" => FoundChild::At(0),
            "expression" => FoundChild::At(1),
            _ => FoundChild::Unknown,
        }
    }

    fn put(
        &mut self,
        _alloc: Global,
        value: Or<LicenseChoice, LicenseChoice>,
    ) -> Result<(), AllocError> {
        match value {
            Or::This(license) => self.items.push(license),
            Or::Other(expression) => self.items.push(expression),
        }
    }

    fn finish(self, _closed: &End<'_>) -> Result<Licenses, XmlReadError> {
        Ok(Licenses(self.items))
    }
}
