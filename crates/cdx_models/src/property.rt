//! Properties: names with values.

ghost use Rattle.std.specs.Prelude.{refl, ◌≡◌, ◌↔◌, IsTrue};
ghost use Rattle.cdx_models.specs.Records.{property_tree, properties_tree};
ghost use Rattle.cdx_models.specs.Equal.{equal};
ghost use Rattle.cdx_models.specs.EqualLaws.{equal_laws};

use crate::tree::HasTree;
use cdx_events::{List, Text};
use std::alloc::{AllocError, Global};

/// A name with a value, for what the format has no field for.
#[derive(Debug, Drop)]
pub struct Property {
    /// It may be there more than once in a list.
    pub name: Text,
    /// What stands under the name.
    pub value: Text,
}

impl HasTree for Property {
    ghost tree = { property_tree };

    ghost there = { λ x. refl };

    fn copy(&self, alloc: Global) -> Result<Property, AllocError> {
        Ok(Property {
            name: self.name.copy(alloc)?,
            value: self.value.copy(alloc)?,
        })
    }

    fn agrees(&self, other: &Property) -> bool {
        self.name.agrees(&other.name) && self.value.agrees(&other.value)
    }
}

impl PartialEq for Property {
    ghost eq = { λ a b. equal (property_tree a) (property_tree b) };

    ghost laws = { equal_laws property_tree };

    fn eq(&self, other: &Property) -> bool
        ensures test { result ≡ equal (property_tree self.now) (property_tree other.now) }
        ensures equality { IsTrue result ↔ (property_tree self.now ≡ property_tree other.now) }
    {
        self.equals(other)
    }
}

/// Properties, in order; a name may stand more than once.
#[derive(Debug, Drop)]
pub struct Properties(pub List<Property>);

impl HasTree for Properties {
    ghost tree = { properties_tree };

    ghost there = { λ x. refl };

    fn copy(&self, alloc: Global) -> Result<Properties, AllocError> {
        Ok(Properties(self.0.copy(alloc)?))
    }

    fn agrees(&self, other: &Properties) -> bool {
        self.0.agrees(&other.0)
    }
}

impl PartialEq for Properties {
    ghost eq = { λ a b. equal (properties_tree a) (properties_tree b) };

    ghost laws = { equal_laws properties_tree };

    fn eq(&self, other: &Properties) -> bool
        ensures test { result ≡ equal (properties_tree self.now) (properties_tree other.now) }
        ensures equality { IsTrue result ↔ (properties_tree self.now ≡ properties_tree other.now) }
    {
        self.equals(other)
    }
}
