//! Licenses in JSON.

ghost use Rattle.std.specs.Prelude.{◌≡◌, OnOk};
ghost use Rattle.cdx_models.specs.Trees.{expression, license};
ghost use Rattle.cdx_schema.specs.Kinds.{licenses, a_license_identifier};
ghost use Rattle.cdx_json.specs.Stays.{list_stays};
ghost use Rattle.cdx_license.specs.Stays.{choice_stays, identifier_stays};
ghost use Rattle.cdx_json.specs.Spellings.{spelling_members};
ghost use Rattle.cdx_license.specs.Records.{identifier_tree, choice_tree};
ghost use Rattle.cdx_schema.specs.JsonReading.{seen, is_lone_license};
ghost use Rattle.cdx_schema.specs.Depths.{depth_of};
ghost use Rattle.cdx_json.specs.Gives.{Gives};
ghost use Rattle.cdx_json.specs.ByRows.{identifier_of, choice_of};
ghost use Rattle.cdx_json.specs.KeptRows.{put_own};
ghost use Rattle.cdx_json.specs.SeenOf.{seen_of};

use crate::license::{Expression, License, LicenseChoice, LicenseIdentifier, Licenses};
use cdx_json::{
    Context, FromJson, JsonRecord, Keeping, Kept, Members, SeenMembers, Spelling, ToJson,
    first_or_old, has_member, here, keep_list, keep_row, keep_row_since, list_from_value,
    list_spelling, missing, optional_row, optional_row_since, put_required, put_row, put_row_since,
    required_row,
};
use cdx_models::{JsonKind, JsonReadError, SpecVersion};
use cdx_schema::Target;
use serde_json::Value;
use std::alloc::{AllocError, Global};

#[tactic(auto, unfolding(cdx_json::proofs::OnRows::on_rows))]
impl JsonRecord for Expression {
    fn from_members(map: &SeenMembers<'_>, context: Context) -> Result<Expression, JsonReadError> {
        let reference = first_or_old(map, "bom-ref", "bomRef");
        let bom_ref = optional_row(map, reference, context)?;
        let expression = required_row(map, "expression", context)?;
        Ok(Expression {
            bom_ref,
            expression,
        })
    }

    fn kept_by_rows(&self, keeping: Keeping) -> Result<Expression, AllocError> {
        Ok(Expression {
            bom_ref: keep_row(&self.bom_ref, keeping)?,
            expression: self.expression.kept_as(keeping)?,
        })
    }

    fn put_members<'b>(&'b self, map: &mut Members<'b>, target: Target) -> Result<(), AllocError> {
        put_row(map, "bom-ref", &self.bom_ref, target)?;
        put_required(map, "expression", &self.expression, target)
    }
}

#[tactic(auto, unfolding(cdx_json::proofs::OnRows::on_rows))]
impl JsonRecord for License {
    fn from_members(map: &SeenMembers<'_>, context: Context) -> Result<License, JsonReadError> {
        let reference = first_or_old(map, "bom-ref", "bomRef");
        let bom_ref = optional_row_since(map, reference, SpecVersion::V1_5, context)?;
        let license_identifier = identifier_from_members(map, context)?;
        let text = optional_row(map, "text", context)?;
        let url = optional_row(map, "url", context)?;
        let properties = optional_row_since(map, "properties", SpecVersion::V1_5, context)?;
        Ok(License {
            bom_ref,
            license_identifier,
            text,
            url,
            properties,
        })
    }

    fn kept_by_rows(&self, keeping: Keeping) -> Result<License, AllocError> {
        Ok(License {
            bom_ref: keep_row_since(&self.bom_ref, SpecVersion::V1_5, keeping)?,
            license_identifier: self.license_identifier.kept_as(keeping)?,
            text: keep_row(&self.text, keeping)?,
            url: keep_row(&self.url, keeping)?,
            properties: keep_row_since(&self.properties, SpecVersion::V1_5, keeping)?,
        })
    }

    fn put_members<'b>(&'b self, map: &mut Members<'b>, target: Target) -> Result<(), AllocError> {
        put_row_since(map, "bom-ref", &self.bom_ref, SpecVersion::V1_5, target)?;
        put_identifier(map, &self.license_identifier, target)?;
        put_row(map, "text", &self.text, target)?;
        put_row(map, "url", &self.url, target)?;
        put_row_since(
            map,
            "properties",
            &self.properties,
            SpecVersion::V1_5,
            target,
        )?;
        Ok(())
    }
}

impl FromJson for Licenses {
    #[tactic(auto, unfolding(cdx_schema::specs::Table::list))]
    fn from_json_at(value: &Value, context: Context) -> Result<Licenses, JsonReadError> {
        Ok(Licenses(list_from_value(value, context)?))
    }
}

impl Kept for Licenses {
    ghost stays = { λ w l x. list_stays w l licenses _ };

    #[tactic(auto, unfolding(cdx_schema::specs::Table::list))]
    fn kept_as(&self, keeping: Keeping) -> Result<Licenses, AllocError> {
        Ok(Licenses(keep_list(&self.0, keeping)?))
    }
}

impl ToJson for Licenses {
    #[tactic(auto, unfolding(cdx_schema::specs::Table::list))]
    fn spelling(&self, alloc: Global, version: SpecVersion) -> Result<Spelling<'_>, AllocError> {
        list_spelling(alloc, &self.0, version)
    }
}

impl FromJson for LicenseIdentifier {
    /// It is read from the license's object.
    fn from_json_at(value: &Value, context: Context) -> Result<LicenseIdentifier, JsonReadError> {
        match value.as_object() {
            None => Err(here(context.alloc, JsonKind::WrongKind)),
            Some(map) => {
                let members = SeenMembers::of(context.alloc, map)?;
                identifier_from_members(&members, context)
            }
        }
    }
}

/// The SPDX id where there is an `id`, else the name.
fn identifier_from_members(
    map: &SeenMembers<'_>,
    context: Context,
) -> Result<LicenseIdentifier, JsonReadError>
    ensures { Gives identifier_tree result
        (identifier_of (seen (seen_of map.now.members.items)) context.version
        (depth_of context.depth)) }
{
    if has_member(map, "id") {
        Ok(LicenseIdentifier::SpdxId(required_row(map, "id", context)?))
    } else if has_member(map, "name") {
        Ok(LicenseIdentifier::Name(required_row(map, "name", context)?))
    } else {
        Err(missing(context.alloc, "id"))
    }
}

impl Kept for LicenseIdentifier {
    ghost stays = { identifier_stays };

    fn kept_as(&self, keeping: Keeping) -> Result<LicenseIdentifier, AllocError> {
        match self {
            LicenseIdentifier::SpdxId(held) => Ok(LicenseIdentifier::SpdxId(held.kept_as(
                keeping,
            )?)),
            LicenseIdentifier::Name(held) => Ok(LicenseIdentifier::Name(held.kept_as(keeping)?)),
        }
    }
}

impl ToJson for LicenseIdentifier {
    /// The object that has it as its one member.
    fn spelling(&self, alloc: Global, version: SpecVersion) -> Result<Spelling<'_>, AllocError> {
        let mut map = Vec::new(alloc);
        put_identifier(&mut map, self, Target { alloc, version })?;
        Ok(Spelling::Object(map))
    }
}

/// Sets the license's member `id` or `name`.
fn put_identifier<'b>(
    map: &mut Members<'b>,
    held: &'b LicenseIdentifier,
    target: Target,
) -> Result<(), AllocError>
    ensures { OnOk result (spelling_members map.new.items ≡ put_own a_license_identifier
        (identifier_tree held.now) target.version (spelling_members map.old.items)) }
{
    match held {
        LicenseIdentifier::SpdxId(id) => put_required(map, "id", id, target),
        LicenseIdentifier::Name(name) => put_required(map, "name", name, target),
    }
}

impl FromJson for LicenseChoice {
    /// An object whose only member is `license` is a license, and any other object an expression.
    fn from_json_at(value: &Value, context: Context) -> Result<LicenseChoice, JsonReadError> {
        match value.as_object() {
            None => Err(here(context.alloc, JsonKind::WrongKind)),
            Some(map) => {
                let members = SeenMembers::of(context.alloc, map)?;
                choice_from_members(&members, context)
            }
        }
    }
}

fn choice_from_members(
    map: &SeenMembers<'_>,
    context: Context,
) -> Result<LicenseChoice, JsonReadError>
    ensures { Gives choice_tree result
        (choice_of (seen_of map.now.members.items) context.version (depth_of context.depth)) }
{
    if is_lone_license(map) {
        Ok(LicenseChoice::License(required_row(map, "license", context)?))
    } else {
        Ok(LicenseChoice::Expression(Expression::from_members(map, context)?))
    }
}

fn is_lone_license(map: &SeenMembers<'_>) -> bool
    ensures { result ≡ is_lone_license (seen_of map.now.members.items) }
{
    map.len() == 1 && has_member(map, "license")
}

impl Kept for LicenseChoice {
    ghost stays = { choice_stays };

    fn kept_as(&self, keeping: Keeping) -> Result<LicenseChoice, AllocError> {
        match self {
            LicenseChoice::License(held) => Ok(LicenseChoice::License(held.kept_as(keeping)?)),
            LicenseChoice::Expression(held) => Ok(LicenseChoice::Expression(held.kept_as(
                keeping,
            )?)),
        }
    }
}

impl ToJson for LicenseChoice {
    /// A license stands alone under `license`, and an expression is the object itself.
    fn spelling(&self, alloc: Global, version: SpecVersion) -> Result<Spelling<'_>, AllocError> {
        match self {
            LicenseChoice::License(held) => {
                let mut map = Vec::new(alloc);
                put_required(&mut map, "license", held, Target { alloc, version })?;
                Ok(Spelling::Object(map))
            }
            LicenseChoice::Expression(held) => held.spelling(alloc, version),
        }
    }
}
