//! Components, pedigrees and lists of components as XML events.

ghost use Rattle.std.specs.Prelude.{refl, codes};

mod elements;
mod rows;

use crate::component::{Component, Components, Pedigree};
use cdx_events::EventWriter;
use cdx_schema::Target;
use cdx_write::{Element, HasContent, Item, Tagged, WriteResult, is_there};
use elements::{write_component, write_components, write_pedigree};

impl Element for Component {
    ghost keeps = { refl };

    fn write_as(&self, writer: &mut EventWriter, tag: &str, target: Target) -> WriteResult {
        write_component(self, writer, tag, target)
    }
}

impl Item for Component {
    #[tactic(auto, using(crate::proofs::Written::component_counts))]
    fn is_passed_over(&self) -> bool {
        false
    }
}

impl HasContent for Component {
    #[tactic(auto, using(crate::proofs::Written::component_will_write))]
    fn has_content(&self) -> bool {
        true
    }
}

impl Tagged for Component {
    ghost own_name = { codes "component" };

    fn own_name() -> &'static str {
        "component"
    }
}

impl Element for Components {
    ghost keeps = { refl };

    fn write_as(&self, writer: &mut EventWriter, tag: &str, target: Target) -> WriteResult {
        write_components(self, writer, tag, target)
    }
}

impl HasContent for Components {
    #[tactic(auto, using(crate::proofs::Written::components_will_write))]
    fn has_content(&self) -> bool {
        true
    }
}

impl Tagged for Components {
    ghost own_name = { codes "components" };

    fn own_name() -> &'static str {
        "components"
    }
}

impl Element for Pedigree {
    ghost keeps = { refl };

    fn write_as(&self, writer: &mut EventWriter, tag: &str, target: Target) -> WriteResult {
        write_pedigree(self, writer, tag, target)
    }
}

impl HasContent for Pedigree {
    /// False exactly where every field is absent.
    #[tactic(auto, using(crate::proofs::Written::pedigree_will_write))]
    fn has_content(&self) -> bool {
        is_there(&self.ancestors)
            || is_there(&self.descendants)
            || is_there(&self.variants)
            || is_there(&self.commits)
            || is_there(&self.patches)
            || is_there(&self.notes)
    }
}

impl Tagged for Pedigree {
    ghost own_name = { codes "pedigree" };

    fn own_name() -> &'static str {
        "pedigree"
    }
}
