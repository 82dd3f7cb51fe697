//! Contacts and organizations.

ghost use Rattle.cdx_write.specs.Stays.{entity_keeps_hollow};

use crate::attribute::put_attribute;
use crate::element::{Filled, HasContent, Item};
use crate::list::put_each;
use crate::record::WrittenRecord;
use crate::row::{is_there, put_child};
use crate::tags::WriteResult;
use cdx_events::{EventWriter, List, OwnedAttribute};
use cdx_models::{OrganizationalContact, OrganizationalEntity};
use cdx_schema::Target;
use std::alloc::AllocError;

impl WrittenRecord for OrganizationalContact {
    #[tactic(auto, unfolding(crate::proofs::OnRows::on_rows))]
    fn attributes(&self, target: Target) -> Result<List<OwnedAttribute>, AllocError> {
        let mut attributes = List::new(target.alloc);
        put_attribute(&mut attributes, "bom-ref", &self.bom_ref, target)?;
        Ok(attributes)
    }

    #[tactic(auto, unfolding(crate::proofs::OnRows::on_rows), using(crate::proofs::OnRows::in_turn))]
    fn write_rows(&self, writer: &mut EventWriter, target: Target) -> WriteResult {
        put_child(writer, "name", &self.name, target)?;
        put_child(writer, "email", &self.email, target)?;
        put_child(writer, "phone", &self.phone, target)
    }
}

impl Item for OrganizationalContact {
    fn is_passed_over(&self) -> bool {
        !self.has_content()
    }
}

impl HasContent for OrganizationalContact {
    /// False exactly where name, email and phone are absent.
    fn has_content(&self) -> bool {
        is_there(&self.name) || is_there(&self.email) || is_there(&self.phone)
    }
}

impl WrittenRecord for OrganizationalEntity {
    #[tactic(auto, unfolding(crate::proofs::OnRows::on_rows))]
    fn attributes(&self, target: Target) -> Result<List<OwnedAttribute>, AllocError> {
        let mut attributes = List::new(target.alloc);
        put_attribute(&mut attributes, "bom-ref", &self.bom_ref, target)?;
        Ok(attributes)
    }

    fn write_rows(&self, writer: &mut EventWriter, target: Target) -> WriteResult {
        put_child(writer, "name", &self.name, target)?;
        put_each(writer, "url", &self.url, target)?;
        put_each(writer, "contact", &self.contact, target)
    }
}

impl Filled for OrganizationalEntity {
    ghost keeps_hollow = { λ x. entity_keeps_hollow _ };

    fn is_hollow(&self) -> bool {
        !self.has_content()
    }
}

impl HasContent for OrganizationalEntity {
    /// False exactly where name, url and contact are absent, whatever the reference is.
    fn has_content(&self) -> bool {
        is_there(&self.name) || is_there(&self.url) || is_there(&self.contact)
    }
}
