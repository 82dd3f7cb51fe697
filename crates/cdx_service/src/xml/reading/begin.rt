//! What a service's attributes begin.

ghost use Rattle.std.specs.Prelude.{◌≡◌, ℕ, List, Ok, IfOk};
ghost use Rattle.cdx_models.specs.Trees.{service};
ghost use Rattle.cdx_models.specs.declared.bom.SpecVersion.{SpecVersion};
ghost use Rattle.cdx_schema.specs.Table.{rows};
ghost use Rattle.cdx_schema.specs.XmlReading.{attributes_read};
ghost use Rattle.cdx_service.specs.ReadingParts.{service_part};

use crate::service::parts::{ServiceAccess, ServiceContents};
use crate::xml::reading::parts::{NamingPart, ServicePart};
use cdx_events::{List, OwnedAttribute};
use cdx_leaf::attribute_or_none;
use std::alloc::{AllocError, Global};

/// A service of these attributes, before its children.
pub(crate) fn begin_service(
    alloc: Global,
    attributes: &List<OwnedAttribute>,
) -> Result<ServicePart, AllocError>
    ensures { IfOk result (λ part. (v : SpecVersion) (el : List ℕ) (p : ℕ)
        → attributes_read (rows service) attributes.now v el p ≡ Ok (service_part part)) }
{
    let naming = NamingPart {
        bom_ref: attribute_or_none(alloc, attributes, "bom-ref")?,
        provider: None,
        group: None,
        name: None,
        version: None,
        description: None,
    };
    let access = ServiceAccess {
        endpoints: None,
        authenticated: None,
        x_trust_boundary: None,
        data_items: None,
        licenses: None,
        external_references: None,
    };
    let contents = ServiceContents {
        properties: None,
        services: None,
        signature: None,
        trust_zone: None,
    };
    Ok(ServicePart {
        naming,
        access,
        contents,
    })
}
