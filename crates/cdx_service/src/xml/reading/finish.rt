//! The service that was read, at its element's end.

ghost use Rattle.std.specs.Prelude.{◌+◌};
ghost use Rattle.cdx_models.specs.Trees.{service};
ghost use Rattle.cdx_models.specs.declared.bom.SpecVersion.{SpecVersion};
ghost use Rattle.cdx_schema.specs.XmlReading.{ended};
ghost use Rattle.cdx_schema.specs.Groups.{group};
ghost use Rattle.cdx_leaf.specs.Attribute.{GivesAt};
ghost use Rattle.cdx_machine.specs.Records.{record_end};
ghost use Rattle.cdx_service.specs.Trees.{service_tree};
ghost use Rattle.cdx_service.specs.PartTrees.{service_naming_trees};
ghost use Rattle.cdx_service.specs.ReadingParts.{naming_part, service_part};

use crate::service::Service;
use crate::service::parts::{ServiceNaming, assemble};
use crate::xml::reading::parts::{NamingPart, ServicePart};
use cdx_leaf::{End, child_or_error};
use cdx_models::XmlReadError;

// The rows that were read. `RequiredDataMissing` at the element's end, where there is no name.
fn finish_naming(closed: &End<'_>, part: NamingPart) -> Result<ServiceNaming, XmlReadError>
    ensures { (v : SpecVersion) → GivesAt service_naming_trees (closed.now.place + 1)
        (ended (group 0 service) (naming_part part) v closed.now.element.now.local_name
        closed.now.place) result }
{
    let name = child_or_error(closed, part.name, "name")?;
    Ok(ServiceNaming {
        bom_ref: part.bom_ref,
        provider: part.provider,
        group: part.group,
        name,
        version: part.version,
        description: part.description,
    })
}

/// The service that was read. `RequiredDataMissing` at the element's end, where it has no name.
pub(crate) fn finish_service(closed: &End<'_>, part: ServicePart) -> Result<Service, XmlReadError>
    ensures { (v : SpecVersion) → GivesAt service_tree (closed.now.place + 1)
        (record_end service closed.now.element.now.local_name v closed.now.place
        (service_part part)) result }
{
    let ServicePart {
        naming: read,
        access,
        contents,
    } = part;
    match finish_naming(closed, read) {
        Ok(naming) => Ok(assemble(naming, access, contents)),
        Err(error) => {
            drop(access);
            drop(contents);
            Err(error)
        }
    }
}
