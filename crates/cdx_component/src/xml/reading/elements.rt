//! Elements that are components, pedigrees and lists of components, which stand in one another.

ghost use Rattle.std.specs.Prelude.{◌≡◌};
ghost use Rattle.cdx_models.specs.Trees.{component, pedigree};
ghost use Rattle.cdx_schema.specs.Kinds.{components, a_list, a_record};
ghost use Rattle.cdx_schema.specs.Depths.{depth_of};
ghost use Rattle.cdx_leaf.specs.Reading.{IsIn, ReadsAs};
ghost use Rattle.cdx_component.specs.Trees.{component_tree, components_tree, pedigree_tree};
ghost use Rattle.cdx_component.specs.Frames.{value_kind, value_tree};
ghost use Rattle.cdx_component.specs.declared.frames.ComponentKind.TheVariants as kinds;

use crate::component::{Component, Components, Pedigree};
use crate::frames::{ComponentFrame, ComponentKind, ComponentValue};
use cdx_events::EventReader;
use cdx_leaf::{Reading, Start};
use cdx_nest_machine::read_element;
use cdx_schema::Depth;

/// The component that the element is. One inside 32 components is `TooDeep` at its start, before anything else.
pub(crate) fn read_component_element(
    reader: &mut EventReader<'_>,
    opened: &Start<'_>,
    depth: Depth,
) -> Reading<Component>
    requires { IsIn reader.old opened.now.element.now }
    ensures { ReadsAs component_tree reader.old reader.new opened.now.element.now
        opened.now.attributes.now opened.now.version (a_record component)
        (λ _. depth_of depth) result }
{
    let value = read_element::<ComponentFrame>(reader, opened, ComponentKind::Component, depth)?;
    Ok(component_of(value))
}

/// The pedigree that the element is.
pub(crate) fn read_pedigree_element(
    reader: &mut EventReader<'_>,
    opened: &Start<'_>,
    depth: Depth,
) -> Reading<Pedigree>
    requires { IsIn reader.old opened.now.element.now }
    ensures { ReadsAs pedigree_tree reader.old reader.new opened.now.element.now
        opened.now.attributes.now opened.now.version (a_record pedigree)
        (λ _. depth_of depth) result }
{
    let value = read_element::<ComponentFrame>(reader, opened, ComponentKind::Pedigree, depth)?;
    Ok(pedigree_of(value))
}

/// The components that the element lists.
pub(crate) fn read_components_element(
    reader: &mut EventReader<'_>,
    opened: &Start<'_>,
    depth: Depth,
) -> Reading<Components>
    requires { IsIn reader.old opened.now.element.now }
    ensures { ReadsAs components_tree reader.old reader.new opened.now.element.now
        opened.now.attributes.now opened.now.version (a_list components)
        (λ _. depth_of depth) result }
{
    let value = read_element::<ComponentFrame>(reader, opened, ComponentKind::Components, depth)?;
    Ok(components_of(value))
}

// The value, where it was read as a component.
fn component_of(value: ComponentValue) -> Component
    requires { value_kind value ≡ kinds.Component }
    ensures { component_tree result ≡ value_tree value }
{
    let ComponentValue::Component(component) = value else {
        unreachable!()
    };
    component
}

// The value, where it was read as a list of components.
fn components_of(value: ComponentValue) -> Components
    requires { value_kind value ≡ kinds.Components }
    ensures { components_tree result ≡ value_tree value }
{
    let ComponentValue::Components(components) = value else {
        unreachable!()
    };
    components
}

// The value, where it was read as a pedigree.
fn pedigree_of(value: ComponentValue) -> Pedigree
    requires { value_kind value ≡ kinds.Pedigree }
    ensures { pedigree_tree result ≡ value_tree value }
{
    let ComponentValue::Pedigree(pedigree) = value else {
        unreachable!()
    };
    pedigree
}
