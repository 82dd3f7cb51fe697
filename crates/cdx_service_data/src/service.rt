//! The data that a service takes or gives.

ghost use Rattle.cdx_models.specs.Trees.{classification, service_data, list_tree};
ghost use Rattle.cdx_schema.specs.Kinds.{a_data};
ghost use Rattle.std.specs.Prelude.{◌≡◌, refl, IfOk, is_some, ◌||◌, ◌↔◌, IsTrue};
ghost use Rattle.cdx_models.specs.Entries.{entry_of};
ghost use Rattle.cdx_models.specs.Equal.{equal};
ghost use Rattle.cdx_models.specs.EqualLaws.{equal_laws};
ghost use Rattle.cdx_service_data.specs.Records.{classification_tree, service_data_tree, service_classification, service_entry, data_tree, data_there};

use cdx_events::{List, Text};
use cdx_models::{HasTree, copy_row, equal_row};
use cdx_schema::{Kinded, Record};
use std::alloc::{AllocError, Global};

/// How sensitive data is.
#[derive(Debug, Drop)]
pub struct DataClassification {
    /// Whether the data goes in or out, as `inbound`.
    pub flow: Text,
    /// The data's class, as `PII`.
    pub classification: Text,
}

impl DataClassification {
    /// The data of this class that flows this way.
    pub fn new(
        alloc: Global,
        flow: &str,
        classification: &str,
    ) -> Result<DataClassification, AllocError>
        ensures { IfOk result
            (λ r. r ≡ record { flow = flow.now; classification = classification.now }) }
    {
        Ok(DataClassification {
            flow: Text::new(alloc, flow)?,
            classification: Text::new(alloc, classification)?,
        })
    }
}

impl HasTree for DataClassification {
    ghost tree = { classification_tree };

    ghost there = { λ x. refl };

    fn copy(&self, alloc: Global) -> Result<DataClassification, AllocError> {
        Ok(DataClassification {
            flow: self.flow.copy(alloc)?,
            classification: self.classification.copy(alloc)?,
        })
    }

    fn agrees(&self, other: &DataClassification) -> bool {
        self.flow.agrees(&other.flow) && self.classification.agrees(&other.classification)
    }
}

impl Record for DataClassification {
    ghost name = { classification };

    ghost is_record = { λ x. refl };

    ghost plain = { refl };
}

impl PartialEq for DataClassification {
    ghost eq = { λ a b. equal (classification_tree a) (classification_tree b) };

    ghost laws = { equal_laws classification_tree };

    fn eq(&self, other: &DataClassification) -> bool
        ensures test { result
            ≡ equal (classification_tree self.now) (classification_tree other.now) }
        ensures equality { IsTrue result
            ↔ (classification_tree self.now ≡ classification_tree other.now) }
    {
        self.equals(other)
    }
}

/// Data with a name and a description. Known from 1.5 on.
#[derive(Debug, Drop)]
pub struct ServiceData {
    /// The name of the data.
    pub name: Option<Text>,
    /// What the data are.
    pub description: Option<Text>,
    /// How they flow, and how they are classified.
    pub classification: DataClassification,
}

impl HasTree for ServiceData {
    ghost tree = { service_data_tree };

    ghost there = { λ x. refl };

    fn copy(&self, alloc: Global) -> Result<ServiceData, AllocError> {
        Ok(ServiceData {
            name: copy_row(alloc, &self.name)?,
            description: copy_row(alloc, &self.description)?,
            classification: self.classification.copy(alloc)?,
        })
    }

    fn agrees(&self, other: &ServiceData) -> bool {
        equal_row(&self.name, &other.name)
            && equal_row(&self.description, &other.description)
            && self.classification.agrees(&other.classification)
    }
}

impl Record for ServiceData {
    ghost name = { service_data };

    ghost is_record = { λ x. refl };

    ghost plain = { refl };
}

impl PartialEq for ServiceData {
    ghost eq = { λ a b. equal (service_data_tree a) (service_data_tree b) };

    ghost laws = { equal_laws service_data_tree };

    fn eq(&self, other: &ServiceData) -> bool
        ensures test { result ≡ equal (service_data_tree self.now) (service_data_tree other.now) }
        ensures equality { IsTrue result
            ↔ (service_data_tree self.now ≡ service_data_tree other.now) }
    {
        self.equals(other)
    }
}

/// The data that a service takes or gives. It is seen as the list of its entries: a `ServiceData` with neither name
/// nor description counts as its classification.
#[derive(Debug, Drop)]
pub enum Data {
    /// Each with its classification alone.
    Classification(List<DataClassification>),
    /// Known from 1.5 on.
    ServiceData(List<ServiceData>),
}

impl HasTree for Data {
    ghost tree = { data_tree };

    ghost there = { data_there };

    fn copy(&self, alloc: Global) -> Result<Data, AllocError> {
        match self {
            Data::Classification(held) => Ok(Data::Classification(held.copy(alloc)?)),
            Data::ServiceData(held) => Ok(Data::ServiceData(held.copy(alloc)?)),
        }
    }

    fn agrees(&self, other: &Data) -> bool {
        match (self, other) {
            (Data::Classification(one), Data::Classification(other)) => one.agrees(other),
            (Data::Classification(one), Data::ServiceData(other)) => equal_entries(one, other),
            (Data::ServiceData(one), Data::Classification(other)) => equal_entries(other, one),
            (Data::ServiceData(one), Data::ServiceData(other)) => equal_entries(one, other),
        }
    }
}

impl Kinded for Data {
    ghost kind = { a_data };
}

impl PartialEq for Data {
    ghost eq = { λ a b. equal (data_tree a) (data_tree b) };

    ghost laws = { equal_laws data_tree };

    fn eq(&self, other: &Data) -> bool
        ensures test { result ≡ equal (data_tree self.now) (data_tree other.now) }
        ensures equality { IsTrue result ↔ (data_tree self.now ≡ data_tree other.now) }
    {
        self.equals(other)
    }
}

impl ServiceData {
    /// Whether it has a name or a description, so that it is more than its classification. It takes no memory.
    pub fn is_flow(&self) -> bool
        ensures { result ≡ (is_some self.now.name || is_some self.now.description) }
    {
        self.name.is_some() || self.description.is_some()
    }
}

/// A value that may stand among a service's data.
trait DataEntry: HasTree {
    /// Whether it is the same entry as a service data. It takes no memory.
    fn equal_entry(&self, other: &ServiceData) -> bool
        ensures { result ≡ equal (entry_of (Self.tree self.now)) (service_entry other.now) };
}

impl DataEntry for DataClassification {
    fn equal_entry(&self, other: &ServiceData) -> bool {
        !other.is_flow() && self.equals(&other.classification)
    }
}

impl DataEntry for ServiceData {
    fn equal_entry(&self, other: &ServiceData) -> bool {
        if self.is_flow() {
            self.equals(other)
        } else {
            self.classification.equal_entry(other)
        }
    }
}

/// Whether the entries are equal one by one. It takes no memory.
fn equal_entries<T: DataEntry + Drop>(one: &List<T>, other: &List<ServiceData>) -> bool
    ensures { result
        ≡ equal (list_tree (λ x. entry_of (T.tree x)) one.now)
        (list_tree service_entry other.now) }
{
    let one = one.as_slice();
    let other = other.as_slice();
    if one.len() != other.len() {
        return false;
    }
    for i in 0..one.len() {
        if !one[i].equal_entry(&other[i]) {
            return false;
        }
    }
    true
}

/// The classification of each. Only want of memory refuses.
pub(crate) fn classifications(
    alloc: Global,
    held: &List<ServiceData>,
) -> Result<List<DataClassification>, AllocError>
    ensures { IfOk result
        (λ r. list_tree classification_tree r ≡ list_tree service_classification held.now) }
{
    let mut copies = List::with_capacity(alloc, held.len())?;
    for item in held.as_slice() {
        copies.push(item.classification.copy(alloc)?)?;
    }
    Ok(copies)
}
