//! A bill's label in JSON: the version that it names.

ghost use Rattle.cdx_schema.specs.Kinds.{a_version};
ghost use Rattle.std.specs.Prelude.{refl};
ghost use Rattle.cdx_schema.specs.Kinds.{a_version};
ghost use Rattle.cdx_bom.specs.Labels.{named_tree};
ghost use Rattle.cdx_bom.specs.Stays.{label_stays};

use crate::bom::compared::equal_label;
use cdx_json::{Context, FromJson, Keeping, Kept, here};
use cdx_models::{HasTree, JsonKind, JsonReadError, SpecVersion};
use cdx_schema::Kinded;
use serde_json::Value;
use std::alloc::{AllocError, Global};

/// The version that a bill names.
#[derive(Drop)]
pub(crate) struct Label {
    pub(crate) version: SpecVersion,
}

impl HasTree for Label {
    ghost tree = { named_tree };

    ghost there = { λ x. refl };

    fn copy(&self, alloc: Global) -> Result<Label, AllocError> {
        Ok(Label {
            version: self.version,
        })
    }

    fn agrees(&self, other: &Label) -> bool {
        equal_label(self.version, other.version)
    }
}

impl Kinded for Label {
    ghost kind = { a_version };
}

impl FromJson for Label {
    fn from_json_at(value: &Value, context: Context) -> Result<Label, JsonReadError> {
        match value.as_str() {
            None => Err(here(context.alloc, JsonKind::WrongKind)),
            Some(text) => match SpecVersion::from_text(text) {
                None => Err(here(context.alloc, JsonKind::BadSpecVersion)),
                Some(version) => Ok(Label { version }),
            },
        }
    }
}

impl Kept for Label {
    ghost stays = { label_stays };

    #[tactic(auto, unfolding(cdx_schema::specs::Keeping::kept))]
    fn kept_as(&self, keeping: Keeping) -> Result<Label, AllocError> {
        Ok(Label {
            version: keeping.label,
        })
    }
}
