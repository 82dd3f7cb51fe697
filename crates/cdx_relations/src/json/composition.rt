//! Compositions in JSON.

ghost use Rattle.cdx_schema.specs.Kinds.{compositions};
ghost use Rattle.cdx_json.specs.Stays.{reference_stays, list_stays};

use crate::composition::{BomReference, Composition, Compositions};
use cdx_json::{
    Context, FromJson, JsonRecord, Keeping, Kept, Members, SeenMembers, Spelling, ToJson,
    first_or_old, here, keep_list, keep_optional_list, keep_optional_list_since, keep_row_since,
    list_from_value, list_spelling, optional_list_row, optional_list_row_since, optional_row_since,
    put_optional_list, put_optional_list_since, put_required, put_row_since, required_row,
};
use cdx_models::{HasTree, JsonKind, JsonReadError, SpecVersion};
use cdx_schema::Target;
use serde_json::Value;
use std::alloc::{AllocError, Global};

impl FromJson for BomReference {
    fn from_json_at(value: &Value, context: Context) -> Result<BomReference, JsonReadError> {
        match value.as_str() {
            None => Err(here(context.alloc, JsonKind::WrongKind)),
            Some(text) => Ok(BomReference::new(context.alloc, text)?),
        }
    }
}

impl Kept for BomReference {
    ghost stays = { λ w l x. reference_stays w l _ };

    #[tactic(auto, unfolding(cdx_schema::specs::Keeping::kept))]
    fn kept_as(&self, keeping: Keeping) -> Result<BomReference, AllocError> {
        self.copy(keeping.alloc)
    }
}

impl ToJson for BomReference {
    #[tactic(auto, unfolding(cdx_json::proofs::OnRows::on_spelled))]
    fn spelling(&self, alloc: Global, version: SpecVersion) -> Result<Spelling<'_>, AllocError> {
        Ok(Spelling::Text(self.0.as_str()))
    }
}

#[tactic(auto, unfolding(cdx_json::proofs::OnRows::on_rows))]
impl JsonRecord for Composition {
    fn from_members(map: &SeenMembers<'_>, context: Context) -> Result<Composition, JsonReadError> {
        let reference = first_or_old(map, "bom-ref", "bomRef");
        let bom_ref = optional_row_since(map, reference, SpecVersion::V1_5, context)?;
        let aggregate = required_row(map, "aggregate", context)?;
        let assemblies = optional_list_row(map, "assemblies", context)?;
        let dependencies = optional_list_row(map, "dependencies", context)?;
        let vulnerabilities = optional_list_row_since(
            map,
            "vulnerabilities",
            SpecVersion::V1_5,
            context,
        )?;
        let signature = optional_row_since(map, "signature", SpecVersion::V1_4, context)?;
        Ok(Composition {
            bom_ref,
            aggregate,
            assemblies,
            dependencies,
            vulnerabilities,
            signature,
        })
    }

    fn kept_by_rows(&self, keeping: Keeping) -> Result<Composition, AllocError> {
        Ok(Composition {
            bom_ref: keep_row_since(&self.bom_ref, SpecVersion::V1_5, keeping)?,
            aggregate: self.aggregate.kept_as(keeping)?,
            assemblies: keep_optional_list(&self.assemblies, keeping)?,
            dependencies: keep_optional_list(&self.dependencies, keeping)?,
            vulnerabilities: keep_optional_list_since(
                &self.vulnerabilities,
                SpecVersion::V1_5,
                keeping,
            )?,
            signature: keep_row_since(&self.signature, SpecVersion::V1_4, keeping)?,
        })
    }

    fn put_members<'b>(&'b self, map: &mut Members<'b>, target: Target) -> Result<(), AllocError> {
        put_row_since(map, "bom-ref", &self.bom_ref, SpecVersion::V1_5, target)?;
        put_required(map, "aggregate", &self.aggregate, target)?;
        put_optional_list(map, "assemblies", &self.assemblies, target)?;
        put_optional_list(map, "dependencies", &self.dependencies, target)?;
        put_optional_list_since(
            map,
            "vulnerabilities",
            &self.vulnerabilities,
            SpecVersion::V1_5,
            target,
        )?;
        put_row_since(map, "signature", &self.signature, SpecVersion::V1_4, target)?;
        Ok(())
    }
}

impl FromJson for Compositions {
    #[tactic(auto, unfolding(cdx_schema::specs::Table::list))]
    fn from_json_at(value: &Value, context: Context) -> Result<Compositions, JsonReadError> {
        Ok(Compositions(list_from_value(value, context)?))
    }
}

impl Kept for Compositions {
    ghost stays = { λ w l x. list_stays w l compositions _ };

    #[tactic(auto, unfolding(cdx_schema::specs::Table::list))]
    fn kept_as(&self, keeping: Keeping) -> Result<Compositions, AllocError> {
        Ok(Compositions(keep_list(&self.0, keeping)?))
    }
}

impl ToJson for Compositions {
    #[tactic(auto, unfolding(cdx_schema::specs::Table::list))]
    fn spelling(&self, alloc: Global, version: SpecVersion) -> Result<Spelling<'_>, AllocError> {
        list_spelling(alloc, &self.0, version)
    }
}
