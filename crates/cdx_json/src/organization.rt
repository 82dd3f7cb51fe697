//! Organizations and the people in them in JSON.

ghost use Rattle.cdx_models.specs.Trees.{contact};

use crate::context::Context;
use crate::keeping::Keeping;
use crate::reading::{first_or_old, optional_list_row, optional_row};
use crate::seen::SeenMembers;
use crate::spelling::members::Members;
use crate::traits::JsonRecord;
use crate::writing::{keep_optional_list, keep_row, put_optional_list, put_row};
use cdx_models::{JsonReadError, OrganizationalContact, OrganizationalEntity};
use cdx_schema::Target;
use std::alloc::AllocError;

impl JsonRecord for OrganizationalContact {
    #[tactic(auto, unfolding(crate::proofs::OnRows::on_rows))]
    fn from_members(
        map: &SeenMembers<'_>,
        context: Context,
    ) -> Result<OrganizationalContact, JsonReadError> {
        let reference = first_or_old(map, "bom-ref", "bomRef");
        let bom_ref = optional_row(map, reference, context)?;
        let name = optional_row(map, "name", context)?;
        let email = optional_row(map, "email", context)?;
        let phone = optional_row(map, "phone", context)?;
        Ok(OrganizationalContact {
            bom_ref,
            name,
            email,
            phone,
        })
    }

    #[tactic(auto, unfolding(crate::proofs::OnRows::on_rows))]
    fn kept_by_rows(&self, keeping: Keeping) -> Result<OrganizationalContact, AllocError> {
        Ok(OrganizationalContact {
            bom_ref: keep_row(&self.bom_ref, keeping)?,
            name: keep_row(&self.name, keeping)?,
            email: keep_row(&self.email, keeping)?,
            phone: keep_row(&self.phone, keeping)?,
        })
    }

    #[tactic(auto, unfolding(crate::proofs::OnRows::on_rows))]
    fn put_members<'b>(&'b self, map: &mut Members<'b>, target: Target) -> Result<(), AllocError> {
        put_row(map, "bom-ref", &self.bom_ref, target)?;
        put_row(map, "name", &self.name, target)?;
        put_row(map, "email", &self.email, target)?;
        put_row(map, "phone", &self.phone, target)
    }
}

impl JsonRecord for OrganizationalEntity {
    #[tactic(auto, unfolding(crate::proofs::OnRows::on_rows))]
    fn from_members(
        map: &SeenMembers<'_>,
        context: Context,
    ) -> Result<OrganizationalEntity, JsonReadError> {
        let reference = first_or_old(map, "bom-ref", "bomRef");
        let bom_ref = optional_row(map, reference, context)?;
        let name = optional_row(map, "name", context)?;
        let url = optional_list_row(map, "url", context)?;
        let contact = optional_list_row(map, "contact", context)?;
        Ok(OrganizationalEntity {
            bom_ref,
            name,
            url,
            contact,
        })
    }

    #[tactic(auto, unfolding(crate::proofs::OnRows::on_rows))]
    fn kept_by_rows(&self, keeping: Keeping) -> Result<OrganizationalEntity, AllocError> {
        Ok(OrganizationalEntity {
            bom_ref: keep_row(&self.bom_ref, keeping)?,
            name: keep_row(&self.name, keeping)?,
            url: keep_optional_list(&self.url, keeping)?,
            contact: keep_optional_list(&self.contact, keeping)?,
        })
    }

    #[tactic(auto, unfolding(crate::proofs::OnRows::on_rows))]
    fn put_members<'b>(&'b self, map: &mut Members<'b>, target: Target) -> Result<(), AllocError> {
        put_row(map, "bom-ref", &self.bom_ref, target)?;
        put_row(map, "name", &self.name, target)?;
        put_optional_list(map, "url", &self.url, target)?;
        put_optional_list(map, "contact", &self.contact, target)
    }
}
