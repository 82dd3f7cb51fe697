//! The tools that made a bill.

ghost use Rattle.std.specs.Prelude.{◌≡◌, ◌↔◌, IsTrue};
ghost use Rattle.cdx_schema.specs.Kinds.{a_tools};
ghost use Rattle.cdx_models.specs.Equal.{equal};
ghost use Rattle.cdx_models.specs.EqualLaws.{equal_laws};
ghost use Rattle.cdx_nest.specs.Trees.{tools_tree, tools_there};

use cdx_component::Components;
use cdx_events::List;
use cdx_models::{HasTree, Tool, copy_row, equal_row};
use cdx_schema::Kinded;
use cdx_service::Services;
use std::alloc::{AllocError, Global};

/// The tools that made a bill: each by its name, or the services and components that they are.
#[derive(Debug, Drop)]
pub enum Tools {
    /// Tools by their names, in order.
    List(List<Tool>),
    /// Known from 1.5 on.
    Object {
        /// Services that took part.
        services: Option<Services>,
        /// Components that took part.
        components: Option<Components>,
    },
}

impl HasTree for Tools {
    ghost tree = { tools_tree };

    ghost there = { tools_there };

    fn copy(&self, alloc: Global) -> Result<Tools, AllocError> {
        match self {
            Tools::List(held) => Ok(Tools::List(held.copy(alloc)?)),
            Tools::Object {
                services,
                components,
            } => Ok(Tools::Object {
                services: copy_row(alloc, services)?,
                components: copy_row(alloc, components)?,
            }),
        }
    }

    fn agrees(&self, other: &Tools) -> bool {
        match (self, other) {
            (Tools::List(one), Tools::List(other)) => one.agrees(other),
            (
                Tools::Object {
                    services,
                    components,
                },
                Tools::Object {
                    services: other_services,
                    components: other_components,
                },
            ) => equal_row(services, other_services) && equal_row(components, other_components),
            _ => false,
        }
    }
}

impl Kinded for Tools {
    ghost kind = { a_tools };
}

impl PartialEq for Tools {
    ghost eq = { λ a b. equal (tools_tree a) (tools_tree b) };

    ghost laws = { equal_laws tools_tree };

    fn eq(&self, other: &Tools) -> bool
        ensures test { result ≡ equal (tools_tree self.now) (tools_tree other.now) }
        ensures equality { IsTrue result ↔ (tools_tree self.now ≡ tools_tree other.now) }
    {
        self.equals(other)
    }
}
