//! What a road takes of licenses, organizations, tools, compositions, patches and the data of services.

ghost use Rattle.std.specs.Prelude.{OnOk};
ghost use Rattle.cdx_models.specs.Trees.{license as license_record, contact, entity, tool, issue, patch, composition, evidence, list_tree};
ghost use Rattle.cdx_models.specs.Records.{contact_tree, entity_tree, tool_tree};
ghost use Rattle.cdx_license.specs.Records.{license_tree, choice_tree, licenses_tree};
ghost use Rattle.cdx_patch.specs.Records.{issue_tree, patch_tree, patches_tree};
ghost use Rattle.cdx_component_parts.specs.Records.{evidence_tree};
ghost use Rattle.cdx_service_data.specs.Records.{service_entry, data_tree};
ghost use Rattle.cdx_relations.specs.Records.{composition_tree, compositions_tree};
ghost use Rattle.cdx_schema.specs.Kinds.{a_list, a_record, a_license_choice, a_data, an_entry, licenses, authors, compositions, patches, resolved};
ghost use Rattle.cdx_losses.specs.Losses.{lost};
ghost use Rattle.cdx_losses.specs.Walks.{AddsLosses};

mod hollow;

use crate::losing::{Losing, lose_items, lose_row, lose_row_or};
use crate::loss::Reason;
use crate::road::Road;
use crate::walk::Walk;
use cdx_component_parts::ComponentEvidence;
use cdx_events::List as Items;
use cdx_license::{License, LicenseChoice, Licenses};
use cdx_models::{OrganizationalContact, OrganizationalEntity, SpecVersion, Tool};
use cdx_patch::{Issue, Patch, Patches};
use cdx_relations::{Composition, Compositions};
use cdx_service_data::{Data, ServiceData};
use cdx_trips::is_hollow_contact;
use hollow::{contacts_reason, diff_reason, source_reason, urls_reason};
pub(crate) use hollow::{evidence_reason, supplier_reason};
use std::alloc::AllocError;

// ---- licenses

fn lose_license(road: Road, license: &License, walk: &mut Walk) -> Result<(), AllocError>
    ensures { OnOk result
        (AddsLosses
        (lost road.version road.trips (license_tree license.now) (a_record license_record))
        walk.old walk.new) }
{
    walk.record_member("bom-ref", road.unknown(SpecVersion::V1_5, &license.bom_ref))?;
    walk.record_member(
        "properties",
        road.unknown(SpecVersion::V1_5, &license.properties),
    )?;
    Ok(())
}

impl Losing for LicenseChoice {
    ghost tree = { choice_tree };

    ghost kind = { a_license_choice };

    fn lose(&self, road: Road, walk: &mut Walk) -> Result<(), AllocError> {
        match self {
            LicenseChoice::Expression(_) => Ok(()),
            LicenseChoice::License(license) => {
                let depth = walk.depth();
                walk.enter_member("license")?;
                lose_license(road, license, walk)?;
                walk.leave(depth);
                Ok(())
            }
        }
    }
}

impl Losing for Licenses {
    ghost tree = { licenses_tree };

    ghost kind = { a_list licenses };

    fn lose(&self, road: Road, walk: &mut Walk) -> Result<(), AllocError> {
        lose_items(road, self.0.as_slice(), walk)
    }
}

// ---- organizations

impl Losing for OrganizationalContact {
    ghost tree = { contact_tree };

    ghost kind = { a_record contact };

    fn lose(&self, road: Road, walk: &mut Walk) -> Result<(), AllocError> {
        match road.unwritten(is_hollow_contact(self)) {
            None => Ok(()),
            Some(reason) => walk.record(reason),
        }
    }
}

// A list of authors, or of contacts.
impl Losing for Items<OrganizationalContact> {
    ghost tree = { list_tree contact_tree };

    ghost kind = { a_list authors };

    fn lose(&self, road: Road, walk: &mut Walk) -> Result<(), AllocError> {
        lose_items(road, self.as_slice(), walk)
    }
}

impl Losing for OrganizationalEntity {
    ghost tree = { entity_tree };

    ghost kind = { a_record entity };

    fn lose(&self, road: Road, walk: &mut Walk) -> Result<(), AllocError> {
        walk.record_member("url", urls_reason(road, &self.url))?;
        let reason = contacts_reason(road, &self.contact);
        lose_row_or(road, "contact", reason, &self.contact, walk)?;
        Ok(())
    }
}

// ---- tools and compositions

impl Losing for Tool {
    ghost tree = { tool_tree };

    ghost kind = { a_record tool };

    fn lose(&self, road: Road, walk: &mut Walk) -> Result<(), AllocError> {
        let unknown = road.unknown(SpecVersion::V1_4, &self.external_references);
        walk.record_member("externalReferences", unknown)?;
        Ok(())
    }
}

impl Losing for Composition {
    ghost tree = { composition_tree };

    ghost kind = { a_record composition };

    fn lose(&self, road: Road, walk: &mut Walk) -> Result<(), AllocError> {
        walk.record_member("bom-ref", road.unknown(SpecVersion::V1_5, &self.bom_ref))?;
        let unknown = road.unknown(SpecVersion::V1_5, &self.vulnerabilities);
        walk.record_member("vulnerabilities", unknown)?;
        walk.record_member(
            "signature",
            road.unknown(SpecVersion::V1_4, &self.signature),
        )?;
        Ok(())
    }
}

impl Losing for Compositions {
    ghost tree = { compositions_tree };

    ghost kind = { a_list compositions };

    fn lose(&self, road: Road, walk: &mut Walk) -> Result<(), AllocError> {
        lose_items(road, self.0.as_slice(), walk)
    }
}

// ---- patches

impl Losing for Issue {
    ghost tree = { issue_tree };

    ghost kind = { a_record issue };

    fn lose(&self, road: Road, walk: &mut Walk) -> Result<(), AllocError> {
        walk.record_member("source", source_reason(road, &self.source))?;
        Ok(())
    }
}

impl Losing for Items<Issue> {
    ghost tree = { list_tree issue_tree };

    ghost kind = { a_list resolved };

    fn lose(&self, road: Road, walk: &mut Walk) -> Result<(), AllocError> {
        lose_items(road, self.as_slice(), walk)
    }
}

impl Losing for Patch {
    ghost tree = { patch_tree };

    ghost kind = { a_record patch };

    fn lose(&self, road: Road, walk: &mut Walk) -> Result<(), AllocError> {
        walk.record_member("diff", diff_reason(road, &self.diff))?;
        lose_row(road, "resolves", &self.resolves, walk)?;
        Ok(())
    }
}

impl Losing for Patches {
    ghost tree = { patches_tree };

    ghost kind = { a_list patches };

    fn lose(&self, road: Road, walk: &mut Walk) -> Result<(), AllocError> {
        lose_items(road, self.0.as_slice(), walk)
    }
}

// ---- parts of components and services

impl Losing for ComponentEvidence {
    ghost tree = { evidence_tree };

    ghost kind = { a_record evidence };

    fn lose(&self, road: Road, walk: &mut Walk) -> Result<(), AllocError> {
        lose_row(road, "licenses", &self.licenses, walk)?;
        Ok(())
    }
}

// An entry of a service's data.
impl Losing for ServiceData {
    ghost tree = { service_entry };

    ghost kind = { an_entry };

    fn lose(&self, road: Road, walk: &mut Walk) -> Result<(), AllocError> {
        if self.is_flow() && !SpecVersion::V1_5.is_known_to(road.version) {
            walk.record(Reason::Flow)
        } else {
            Ok(())
        }
    }
}

impl Losing for Data {
    ghost tree = { data_tree };

    ghost kind = { a_data };

    fn lose(&self, road: Road, walk: &mut Walk) -> Result<(), AllocError> {
        match self {
            Data::Classification(_) => Ok(()),
            Data::ServiceData(entries) => lose_items(road, entries.as_slice(), walk),
        }
    }
}
