//! What an element's attributes begin.

ghost use Rattle.std.specs.Prelude.{◌≡◌, ◌+◌, ℕ, List, Ok};
ghost use Rattle.cdx_events.specs.declared.name.OwnedAttribute.{OwnedAttribute};
ghost use Rattle.cdx_models.specs.Trees.{component, pedigree, text, present};
ghost use Rattle.cdx_models.specs.declared.bom.SpecVersion.{SpecVersion};
ghost use Rattle.cdx_schema.specs.XmlReading.{attributes_read};
ghost use Rattle.cdx_schema.specs.Groups.{group};
ghost use Rattle.cdx_leaf.specs.Attribute.{GivesAt};
ghost use Rattle.cdx_machine.specs.Plain.{attributes_first};
ghost use Rattle.cdx_component_parts.specs.Records.{mime_type_tree};
ghost use Rattle.cdx_component.specs.PartTrees.{origin_trees};
ghost use Rattle.cdx_component.specs.ReadingParts.{component_part, pedigree_part};

use crate::component::parts::{Contents, Marks, Origin};
use crate::xml::reading::parts::{ComponentPart, NamingPart, PedigreePart};
use cdx_component_parts::MimeType;
use cdx_events::Text;
use cdx_leaf::{Start, attribute_or_none, required_attribute};
use cdx_models::XmlReadError;

fn mime_type_of(held: Option<Text>) -> Option<MimeType>
    ensures { present mime_type_tree result ≡ present text held }
{
    match held {
        Some(name) => Some(MimeType(name)),
        None => None,
    }
}

/// What the attributes give of the first rows, or the fault that the type is lacking, at the element's start.
fn begin_origin(opened: &Start<'_>) -> Result<Origin, XmlReadError>
    ensures { (v : SpecVersion) → GivesAt origin_trees (opened.now.place + 1)
        (attributes_read (group 0 component) opened.now.attributes.now v
        opened.now.element.now.local_name opened.now.place) result }
{
    let component_type = required_attribute(opened, "type")?;
    let mime_type = attribute_or_none(opened.alloc, opened.attributes, "mime-type")?;
    let bom_ref = attribute_or_none(opened.alloc, opened.attributes, "bom-ref")?;
    Ok(Origin {
        component_type,
        mime_type: mime_type_of(mime_type),
        bom_ref,
        supplier: None,
        author: None,
        publisher: None,
    })
}

/// The component that the attributes begin, or the fault that the type is lacking, at the element's start.
pub(crate) fn begin_component(opened: &Start<'_>) -> Result<ComponentPart, XmlReadError>
    ensures { (v : SpecVersion) → GivesAt component_part (opened.now.place + 1)
        (attributes_first component opened.now.element.now.local_name opened.now.attributes.now v
        opened.now.place) result }
{
    let origin = begin_origin(opened)?;
    Ok(ComponentPart {
        origin,
        naming: NamingPart {
            group: None,
            name: None,
            version: None,
            description: None,
            scope: None,
            hashes: None,
        },
        marks: Marks {
            licenses: None,
            copyright: None,
            cpe: None,
            purl: None,
            swid: None,
            modified: None,
        },
        contents: Contents {
            pedigree: None,
            external_references: None,
            properties: None,
            components: None,
            evidence: None,
            signature: None,
        },
    })
}

/// The pedigree that no attribute tells of.
pub(crate) fn begin_pedigree() -> PedigreePart
    ensures { (name : List ℕ) (attributes : List OwnedAttribute) (v : SpecVersion) (place : ℕ)
        → attributes_first pedigree name attributes v place ≡ Ok (pedigree_part result) }
{
    PedigreePart {
        ancestors: None,
        descendants: None,
        variants: None,
        commits: None,
        patches: None,
        notes: None,
    }
}
