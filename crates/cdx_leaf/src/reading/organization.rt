//! Organizations and their contacts.

use crate::attribute::attribute_or_none;
use crate::children::Children;
use crate::error::Reading;
use crate::record::XmlRecord;
use crate::rule::Rule;
use crate::start::{End, Start};
use crate::take::{take_more, take_one};
use crate::taken::Taken;
use cdx_events::EventReader;
use cdx_models::{OrganizationalContact, OrganizationalEntity};

impl Children for OrganizationalContact {
    ghost use Rattle.cdx_models.specs.Trees.{contact};
    ghost use Rattle.cdx_schema.specs.XmlReading.{record_plan};
    ghost use Rattle.cdx_leaf.specs.Parts.{contact_slots};

    ghost slots = { contact_slots };

    ghost plan = { λ r. record_plan contact };

    ghost depth = { λ r d. d };

    fn rule(&self) -> Rule {
        Rule::Lax
    }

    fn read_child(&mut self, reader: &mut EventReader<'_>, opened: &Start<'_>) -> Reading<Taken> {
        match opened.element.local_name.as_str() {
            "name" => take_one(reader, opened, &mut self.name),
            "email" => take_one(reader, opened, &mut self.email),
            "phone" => take_one(reader, opened, &mut self.phone),
            _ => Ok(Taken::Unknown),
        }
    }
}

impl XmlRecord for OrganizationalContact {
    ghost use Rattle.std.specs.Prelude.{refl};
    ghost use Rattle.cdx_models.specs.Trees.{contact};
    ghost use Rattle.cdx_leaf.specs.RowContents.{content_from_rows};

    type Part = OrganizationalContact;

    ghost no_content = { content_from_rows contact };

    ghost by_rows = { λ part. (refl, refl) };

    fn begin(opened: &Start<'_>) -> Reading<OrganizationalContact> {
        Ok(OrganizationalContact {
            bom_ref: attribute_or_none(opened.alloc, opened.attributes, "bom-ref")?,
            name: None,
            email: None,
            phone: None,
        })
    }

    fn finish(_closed: &End<'_>, part: OrganizationalContact) -> Reading<OrganizationalContact> {
        Ok(part)
    }
}

impl Children for OrganizationalEntity {
    ghost use Rattle.cdx_models.specs.Trees.{entity};
    ghost use Rattle.cdx_schema.specs.XmlReading.{record_plan};
    ghost use Rattle.cdx_leaf.specs.Parts.{entity_slots};

    ghost slots = { entity_slots };

    ghost plan = { λ r. record_plan entity };

    ghost depth = { λ r d. d };

    fn rule(&self) -> Rule {
        Rule::Lax
    }

    fn read_child(&mut self, reader: &mut EventReader<'_>, opened: &Start<'_>) -> Reading<Taken> {
        match opened.element.local_name.as_str() {
            "name" => take_one(reader, opened, &mut self.name),
            "url" => take_more(reader, opened, &mut self.url),
            "contact" => take_more(reader, opened, &mut self.contact),
            _ => Ok(Taken::Unknown),
        }
    }
}

impl XmlRecord for OrganizationalEntity {
    ghost use Rattle.std.specs.Prelude.{refl};
    ghost use Rattle.cdx_models.specs.Trees.{entity};
    ghost use Rattle.cdx_leaf.specs.RowContents.{content_from_rows};

    type Part = OrganizationalEntity;

    ghost no_content = { content_from_rows entity };

    ghost by_rows = { λ part. (refl, refl) };

    fn begin(opened: &Start<'_>) -> Reading<OrganizationalEntity> {
        Ok(OrganizationalEntity {
            bom_ref: attribute_or_none(opened.alloc, opened.attributes, "bom-ref")?,
            name: None,
            url: None,
            contact: None,
        })
    }

    fn finish(_closed: &End<'_>, part: OrganizationalEntity) -> Reading<OrganizationalEntity> {
        Ok(part)
    }
}
