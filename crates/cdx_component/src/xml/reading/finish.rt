//! What was read, at an element's end.

ghost use Rattle.std.specs.Prelude.{◌≡◌, ◌+◌, ℕ, List, Ok};
ghost use Rattle.cdx_models.specs.declared.bom.SpecVersion.{SpecVersion};
ghost use Rattle.cdx_models.specs.Trees.{component, pedigree};
ghost use Rattle.cdx_schema.specs.Faults.{lacking};
ghost use Rattle.cdx_schema.specs.XmlReading.{ended};
ghost use Rattle.cdx_schema.specs.Groups.{group};
ghost use Rattle.cdx_leaf.specs.Attribute.{GivesAt};
ghost use Rattle.cdx_machine.specs.Records.{record_end};
ghost use Rattle.cdx_component.specs.Trees.{component_tree, pedigree_tree};
ghost use Rattle.cdx_component.specs.PartTrees.{naming_trees};
ghost use Rattle.cdx_component.specs.ReadingParts.{naming_part, component_part, pedigree_part, in_first};

use crate::component::parts::{Naming, assemble};
use crate::component::{Component, Pedigree};
use crate::xml::reading::parts::{ComponentPart, NamingPart, PedigreePart};
use cdx_events::Text;
use cdx_leaf::{End, child_or_error};
use cdx_models::{SpecVersion, XmlReadError};

/// A child that 1.3 requires. `RequiredDataMissing` at the element's end, where it isn't there in 1.3.
fn first_child_or_error(
    closed: &End<'_>,
    child: Option<Text>,
    expected: &str,
) -> Result<Option<Text>, XmlReadError>
    ensures { GivesAt (λ o. o) (closed.now.place + 1)
        (in_first closed.now.version child (lacking closed.now.place
        closed.now.element.now.local_name expected.now)) result }
{
    match closed.version {
        SpecVersion::V1_3 => Ok(Some(child_or_error(closed, child, expected)?)),
        SpecVersion::V1_4 => Ok(child),
        SpecVersion::V1_5 => Ok(child),
    }
}

/// The rows with the name. `RequiredDataMissing` at the element's end, where the name isn't there, or in 1.3 the
/// version.
fn finish_naming(closed: &End<'_>, part: NamingPart) -> Result<Naming, XmlReadError>
    ensures { GivesAt naming_trees (closed.now.place + 1)
        (ended (group 1 component) (naming_part part) closed.now.version
        closed.now.element.now.local_name closed.now.place) result }
{
    let name = child_or_error(closed, part.name, "name")?;
    let version = first_child_or_error(closed, part.version, "version")?;
    Ok(Naming {
        group: part.group,
        name,
        version,
        description: part.description,
        scope: part.scope,
        hashes: part.hashes,
    })
}

/// The component that was read, or the fault of the first required child that is missing, at the element's end.
pub(crate) fn finish_component(
    closed: &End<'_>,
    part: ComponentPart,
) -> Result<Component, XmlReadError>
    ensures { GivesAt component_tree (closed.now.place + 1)
        (record_end component closed.now.element.now.local_name closed.now.version closed.now.place
        (component_part part)) result }
{
    let ComponentPart {
        origin,
        naming: read,
        marks,
        contents,
    } = part;
    match finish_naming(closed, read) {
        Ok(naming) => Ok(assemble(origin, naming, marks, contents)),
        Err(error) => {
            drop(origin);
            drop(marks);
            drop(contents);
            Err(error)
        }
    }
}

/// The pedigree that was read.
pub(crate) fn finish_pedigree(part: PedigreePart) -> Pedigree
    ensures { (name : List ℕ) (v : SpecVersion) (place : ℕ)
        → record_end pedigree name v place (pedigree_part part) ≡ Ok (pedigree_tree result) }
{
    Pedigree {
        ancestors: part.ancestors,
        descendants: part.descendants,
        variants: part.variants,
        commits: part.commits,
        patches: part.patches,
        notes: part.notes,
    }
}
