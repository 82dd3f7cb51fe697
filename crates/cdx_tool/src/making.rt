//! The bill that is made from a number, and the answer that counts what its road writes.

ghost use Rattle.std.specs.Prelude.{◌≡◌, ◌++◌, codes, decimal, IfOk};
ghost use Rattle.cdx_component.specs.Trees.{component_tree, components_tree};
ghost use Rattle.cdx_models.specs.Trees.{items};
ghost use Rattle.cdx_bom.specs.Trees.{bom_tree};
ghost use Rattle.cdx_request.specs.Made.{made_component as component_of, made_components as components_of, made_bill};

use cdx_bom::Bom;
use cdx_component::{Component, Components};
use cdx_events::Text;
use cdx_models::SpecVersion;
use std::alloc::{AllocError, Global};

mod counts;

pub(crate) use counts::answer_made;

fn text_of(alloc: Global, number: u32) -> Result<Text, AllocError>
    ensures { IfOk result (λ t. t ≡ decimal number) }
{
    Ok(Text::from_string(format!(in alloc; "{number}")?))
}

fn name_of(alloc: Global, number: u32) -> Result<Text, AllocError>
    ensures { IfOk result (λ t. t ≡ codes "c" ++ decimal number) }
{
    Ok(Text::from_string(format!(in alloc; "c{number}")?))
}

// The library `c` and the number, whose version is the number.
fn made_component(alloc: Global, number: u32) -> Result<Component, AllocError>
    ensures { IfOk result (λ c. component_tree c ≡ component_of number) }
{
    let component_type = Text::new(alloc, "library")?;
    let name = name_of(alloc, number)?;
    let version = text_of(alloc, number)?;
    Ok(Component::new(component_type, name, Some(version)))
}

// So many components, numbered from 0 on.
fn made_components(alloc: Global, count: u32) -> Result<Components, AllocError>
    ensures { IfOk result (λ cs. components_tree cs ≡ items (components_of 0 count)) }
{
    let mut components = Components::new(alloc);
    for number in 0..count {
        components.push(made_component(alloc, number)?)?;
    }
    Ok(components)
}

/// The bill of 1.5 with version 1 and the components numbered from 0 to `count` - 1: each is of type `library`, its name
/// is `c` and its number, and its version is its number, in decimal. Only want of memory refuses.
pub fn made(alloc: Global, count: u32) -> Result<Bom, AllocError>
    ensures { IfOk result (λ b. bom_tree b ≡ made_bill count) }
{
    let components = made_components(alloc, count)?;
    let mut bom = Bom::new(SpecVersion::V1_5);
    bom.components = Some(components);
    Ok(bom)
}
