//! Components, pedigrees and lists of components from XML.

ghost use Rattle.std.specs.Prelude.{refl};
ghost use Rattle.cdx_schema.specs.Depth.{top};

pub(crate) mod begin;
mod elements;
pub(crate) mod finish;
pub(crate) mod parts;

use crate::component::{Component, Components, Pedigree};
use crate::xml::reading::elements::{
    read_component_element, read_components_element, read_pedigree_element,
};
use cdx_events::EventReader;
use cdx_leaf::{FromXml, Reading, Start};
use cdx_schema::Depth;

/// A component outside all components. Its parts count their depth from here on.
impl FromXml for Component {
    ghost depth = { λ d. top };

    ghost at_top = { refl };

    fn read_from(reader: &mut EventReader<'_>, opened: &Start<'_>) -> Reading<Component> {
        read_component_element(reader, opened, Depth::top())
    }
}

/// A list of components outside all components.
impl FromXml for Components {
    ghost depth = { λ d. top };

    ghost at_top = { refl };

    fn read_from(reader: &mut EventReader<'_>, opened: &Start<'_>) -> Reading<Components> {
        read_components_element(reader, opened, Depth::top())
    }
}

/// A pedigree outside all components.
impl FromXml for Pedigree {
    ghost depth = { λ d. top };

    ghost at_top = { refl };

    fn read_from(reader: &mut EventReader<'_>, opened: &Start<'_>) -> Reading<Pedigree> {
        read_pedigree_element(reader, opened, Depth::top())
    }
}
