//! The data of services in JSON.

ghost use Rattle.std.specs.Prelude.{◌≡◌, IfOk};
ghost use Rattle.cdx_models.specs.Trees.{list_tree};
ghost use Rattle.cdx_schema.specs.Kinds.{an_entry, a_list, classifications};
ghost use Rattle.cdx_schema.specs.Keeping.{keep};
ghost use Rattle.cdx_schema.specs.JsonSpelling.{jspell};
ghost use Rattle.cdx_json.specs.Spellings.{spelling_data};
ghost use Rattle.serde_json.specs.View.{items_view};
ghost use Rattle.cdx_json.specs.ByRows.{list_read};
ghost use Rattle.cdx_schema.specs.Depths.{depth_of};
ghost use Rattle.cdx_json.specs.Gives.{Gives};
ghost use Rattle.cdx_service_data.specs.Records.{data_tree, service_classification};
ghost use Rattle.cdx_service_data.specs.Stays.{data_stays};

use crate::service::{Data, DataClassification, ServiceData, classifications};
use cdx_events::List;
use cdx_json::{
    Context, FromJson, JsonRecord, Keeping, Kept, Members, SeenMembers, Spelling, ToJson, here,
    keep_list, keep_row, list_from_items, list_spelling, optional_row, put_required, put_row,
    required_row,
};
use cdx_models::{JsonKind, JsonReadError, SpecVersion};
use cdx_schema::Target;
use serde_json::Value;
use std::alloc::{AllocError, Global};

#[tactic(auto, unfolding(cdx_json::proofs::OnRows::on_rows))]
impl JsonRecord for DataClassification {
    fn from_members(
        map: &SeenMembers<'_>,
        context: Context,
    ) -> Result<DataClassification, JsonReadError> {
        let flow = required_row(map, "flow", context)?;
        let classification = required_row(map, "classification", context)?;
        Ok(DataClassification {
            flow,
            classification,
        })
    }

    fn kept_by_rows(&self, keeping: Keeping) -> Result<DataClassification, AllocError> {
        Ok(DataClassification {
            flow: self.flow.kept_as(keeping)?,
            classification: self.classification.kept_as(keeping)?,
        })
    }

    fn put_members<'b>(&'b self, map: &mut Members<'b>, target: Target) -> Result<(), AllocError> {
        put_required(map, "flow", &self.flow, target)?;
        put_required(map, "classification", &self.classification, target)
    }
}

#[tactic(auto, unfolding(cdx_json::proofs::OnRows::on_rows))]
impl JsonRecord for ServiceData {
    fn from_members(map: &SeenMembers<'_>, context: Context) -> Result<ServiceData, JsonReadError> {
        let name = optional_row(map, "name", context)?;
        let description = optional_row(map, "description", context)?;
        let classification = DataClassification::from_members(map, context)?;
        Ok(ServiceData {
            name,
            description,
            classification,
        })
    }

    fn kept_by_rows(&self, keeping: Keeping) -> Result<ServiceData, AllocError> {
        Ok(ServiceData {
            name: keep_row(&self.name, keeping)?,
            description: keep_row(&self.description, keeping)?,
            classification: self.classification.kept_as(keeping)?,
        })
    }

    fn put_members<'b>(&'b self, map: &mut Members<'b>, target: Target) -> Result<(), AllocError> {
        put_row(map, "name", &self.name, target)?;
        put_row(map, "description", &self.description, target)?;
        self.classification.put_members(map, target)
    }
}

impl FromJson for Data {
    /// An array. In 1.5 each item is read as a service data, before as a classification.
    fn from_json_at(value: &Value, context: Context) -> Result<Data, JsonReadError> {
        match value.as_array() {
            None => Err(here(context.alloc, JsonKind::WrongKind)),
            Some(items) => entries_from_items(items, context),
        }
    }
}

fn entries_from_items(items: &Vec<Value>, context: Context) -> Result<Data, JsonReadError>
    ensures { Gives data_tree result
        (list_read (items_view items.now.items) context.version an_entry (depth_of context.depth)) }
{
    if SpecVersion::V1_5.is_known_to(context.version) {
        Ok(Data::ServiceData(list_from_items(items, context)?))
    } else {
        Ok(Data::Classification(list_from_items(items, context)?))
    }
}

impl Kept for Data {
    ghost stays = { data_stays };

    /// Before 1.5 each flow becomes its classification.
    fn kept_as(&self, keeping: Keeping) -> Result<Data, AllocError> {
        match self {
            Data::Classification(held) => Ok(Data::Classification(keep_list(held, keeping)?)),
            Data::ServiceData(held) => {
                if !SpecVersion::V1_5.is_known_to(keeping.version) {
                    let held = classifications(keeping.alloc, held)?;
                    return Ok(Data::Classification(keep_list(&held, keeping)?));
                }
                Ok(Data::ServiceData(keep_list(held, keeping)?))
            }
        }
    }
}

impl ToJson for Data {
    fn spelling(&self, alloc: Global, version: SpecVersion) -> Result<Spelling<'_>, AllocError> {
        match self {
            Data::Classification(held) => list_spelling(alloc, held, version),
            Data::ServiceData(held) => {
                if SpecVersion::V1_5.is_known_to(version) {
                    list_spelling(alloc, held, version)
                } else {
                    early_spelling(alloc, held, version)
                }
            }
        }
    }
}

// Before 1.5 each flow is written as its classification.
fn early_spelling<'b>(
    alloc: Global,
    held: &'b List<ServiceData>,
    version: SpecVersion,
) -> Result<Spelling<'b>, AllocError>
    ensures { IfOk result (λ s. spelling_data s ≡ jspell
        (keep version (list_tree service_classification held.now) (a_list classifications)) version
        (a_list classifications)) }
{
    let mut values = Vec::with_capacity(alloc, held.len())?;
    for item in held.as_slice() {
        values.push(item.classification.spelling(alloc, version)?)?;
    }
    Ok(Spelling::Array(values))
}
