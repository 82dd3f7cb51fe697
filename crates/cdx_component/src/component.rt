//! Components, their pedigrees and lists of them.

ghost use Rattle.std.specs.Prelude.{◌≡◌, [], ◌∷◌, ◌++◌, IfOk, OnOk, OnErr, length, slice_get, option_copied, is_some, nat_lt, ◌↔◌, IsTrue};
ghost use Rattle.cdx_models.specs.Trees.{component, pedigree};
ghost use Rattle.cdx_schema.specs.Kinds.{components, a_list, a_record};
ghost use Rattle.cdx_models.specs.Equal.{equal};
ghost use Rattle.cdx_models.specs.EqualLaws.{equal_laws};
ghost use Rattle.cdx_component.specs.Trees.{component_tree, components_tree, pedigree_tree, new_component, component_items};
ghost use Rattle.cdx_component.specs.Laws.{component_there, components_there, pedigree_there};

mod compared;
mod copied;
mod fitting;
pub(crate) mod parts;

use cdx_code::Commits;
use cdx_component_parts::{ComponentEvidence, Cpe, MimeType, Swid};
use cdx_events::{List, Text};
use cdx_license::Licenses;
use cdx_models::{ExternalReferences, HasTree, Hashes, OrganizationalEntity, Properties};
use cdx_patch::Patches;
use cdx_schema::Kinded;
use cdx_signature::Signature;
use compared::{equal_component, equal_components, equal_pedigree};
use copied::{copy_component, copy_components, copy_pedigree};
pub use fitting::component_row_has_versions;
use std::alloc::{AllocError, Global};

/// A component: software, a part of it, or a device.
#[cycle(component)]
#[derive(Debug)]
pub struct Component {
    /// What it is, as `library`.
    pub component_type: Text,
    /// The media type of the file that it is.
    pub mime_type: Option<MimeType>,
    /// The name by which the rest of the bill refers to it.
    pub bom_ref: Option<Text>,
    /// Who supplied it, often its maker.
    pub supplier: Option<OrganizationalEntity>,
    /// Who wrote it.
    pub author: Option<Text>,
    /// Who published it.
    pub publisher: Option<Text>,
    /// The group of which it is a part.
    pub group: Option<Text>,
    /// Its name.
    pub name: Text,
    /// Required in 1.3.
    pub version: Option<Text>,
    /// What it is.
    pub description: Option<Text>,
    /// Whether it is needed, as `required`.
    pub scope: Option<Text>,
    /// The hashes of its file.
    pub hashes: Option<Hashes>,
    /// Its licenses.
    pub licenses: Option<Licenses>,
    /// Its copyright notice.
    pub copyright: Option<Text>,
    /// Its name in the Common Platform Enumeration.
    pub cpe: Option<Cpe>,
    /// A package URL, which isn't checked.
    pub purl: Option<Text>,
    /// Its software identification tag.
    pub swid: Option<Swid>,
    /// Whether it was changed since its author published it.
    pub modified: Option<bool>,
    /// What it was made from.
    pub pedigree: Option<Pedigree>,
    /// Where more is told of it.
    pub external_references: Option<ExternalReferences>,
    /// What else there is to say of it.
    pub properties: Option<Properties>,
    /// The components that it holds.
    pub components: Option<Components>,
    /// What was found in it.
    pub evidence: Option<ComponentEvidence>,
    /// Known from 1.4 on.
    pub signature: Option<Signature>,
}

impl Component {
    /// The component of this type, as `library`, of this name and, where there is one, this version, and nothing else. In
    /// 1.3 each component outside of tools has a version.
    pub fn new(component_type: Text, name: Text, version: Option<Text>) -> Component
        ensures { component_tree result ≡ new_component component_type name version }
    {
        Component {
            component_type,
            mime_type: None,
            bom_ref: None,
            supplier: None,
            author: None,
            publisher: None,
            group: None,
            name,
            version,
            description: None,
            scope: None,
            hashes: None,
            licenses: None,
            copyright: None,
            cpe: None,
            purl: None,
            swid: None,
            modified: None,
            pedigree: None,
            external_references: None,
            properties: None,
            components: None,
            evidence: None,
            signature: None,
        }
    }
}

// By hand, so that one is freed by a call wherever it ends, and not field by field.
impl Drop for Component {
    #[cycle(freed)]
    fn drop(self) {
        let Component {
            component_type: _,
            mime_type: _,
            bom_ref: _,
            supplier: _,
            author: _,
            publisher: _,
            group: _,
            name: _,
            version: _,
            description: _,
            scope: _,
            hashes: _,
            licenses: _,
            copyright: _,
            cpe: _,
            purl: _,
            swid: _,
            modified: _,
            pedigree: _,
            external_references: _,
            properties: _,
            components: _,
            evidence: _,
            signature: _,
        } = self;
    }
}

/// A list of components.
#[cycle(component)]
#[derive(Debug, Drop)]
pub struct Components {
    pub(crate) items: Vec<Component>,
}

/// What a component came from, and how it was changed.
#[cycle(component)]
#[derive(Debug)]
pub struct Pedigree {
    /// What it was made from.
    pub ancestors: Option<Components>,
    /// What was made from it.
    pub descendants: Option<Components>,
    /// What is like it, where it isn't known which was first.
    pub variants: Option<Components>,
    /// The commits that lie between.
    pub commits: Option<Commits>,
    /// The patches that lie between.
    pub patches: Option<Patches>,
    /// What else there is to say.
    pub notes: Option<Text>,
}

// By hand, so that one is freed by a call wherever it ends, and not field by field.
impl Drop for Pedigree {
    #[cycle(freed)]
    fn drop(self) {
        let Pedigree {
            ancestors: _,
            descendants: _,
            variants: _,
            commits: _,
            patches: _,
            notes: _,
        } = self;
    }
}

impl Components {
    /// The empty list. It takes no memory.
    pub fn new(alloc: Global) -> Components
        ensures { component_items result ≡ [] }
    {
        Components {
            items: Vec::new(alloc),
        }
    }

    /// The empty list, with room for so many components. Only want of memory refuses.
    pub fn with_capacity(alloc: Global, capacity: usize) -> Result<Components, AllocError>
        ensures { IfOk result (λ l. component_items l ≡ []) }
    {
        let items = Vec::with_capacity(alloc, capacity)?;
        Ok(Components { items })
    }

    /// The components of a list. It takes no memory.
    pub fn from_list(list: List<Component>) -> Components
        ensures { component_items result ≡ list }
    {
        Components {
            items: list.into_vec(),
        }
    }

    /// Appends a component. Where memory runs out, the list is as before and the component is dropped.
    pub fn push(&mut self, item: Component) -> Result<(), AllocError>
        ensures ok { OnOk result
            (component_items self.new ≡ component_items self.old ++ item ∷ []) }
        ensures err { OnErr result (component_items self.new ≡ component_items self.old) }
    {
        self.items.push(item)?;
        Ok(())
    }

    /// How many components there are. It takes no memory.
    pub fn len(&self) -> usize
        ensures { result ≡ length (component_items self.now) }
    {
        self.items.len()
    }

    /// The component at a place, counted from 0, or `None` exactly from the length on. It takes no memory.
    pub fn get(&self, at: usize) -> Option<&Component>
        ensures item { option_copied result ≡ slice_get (component_items self.now) at }
        ensures there { is_some result ≡ nat_lt at (length (component_items self.now)) }
    {
        self.items.get(at)
    }

    /// The components. It takes no memory.
    pub fn as_slice(&self) -> &[Component]
        ensures { result.now ≡ component_items self.now }
    {
        self.items.as_slice()
    }
}

impl HasTree for Component {
    ghost tree = { component_tree };

    ghost there = { component_there };

    fn copy(&self, alloc: Global) -> Result<Component, AllocError> {
        copy_component(self, alloc)
    }

    fn agrees(&self, other: &Component) -> bool {
        equal_component(self, other)
    }
}

impl Kinded for Component {
    ghost kind = { a_record component };
}

impl PartialEq for Component {
    ghost eq = { λ a b. equal (component_tree a) (component_tree b) };

    ghost laws = { equal_laws component_tree };

    fn eq(&self, other: &Component) -> bool
        ensures test { result ≡ equal (component_tree self.now) (component_tree other.now) }
        ensures equality { IsTrue result ↔ (component_tree self.now ≡ component_tree other.now) }
    {
        self.equals(other)
    }
}

impl HasTree for Components {
    ghost tree = { components_tree };

    ghost there = { components_there };

    fn copy(&self, alloc: Global) -> Result<Components, AllocError> {
        copy_components(self, alloc)
    }

    fn agrees(&self, other: &Components) -> bool {
        equal_components(self, other)
    }
}

impl Kinded for Components {
    ghost kind = { a_list components };
}

impl PartialEq for Components {
    ghost eq = { λ a b. equal (components_tree a) (components_tree b) };

    ghost laws = { equal_laws components_tree };

    fn eq(&self, other: &Components) -> bool
        ensures test { result ≡ equal (components_tree self.now) (components_tree other.now) }
        ensures equality { IsTrue result ↔ (components_tree self.now ≡ components_tree other.now) }
    {
        self.equals(other)
    }
}

impl HasTree for Pedigree {
    ghost tree = { pedigree_tree };

    ghost there = { pedigree_there };

    fn copy(&self, alloc: Global) -> Result<Pedigree, AllocError> {
        copy_pedigree(self, alloc)
    }

    fn agrees(&self, other: &Pedigree) -> bool {
        equal_pedigree(self, other)
    }
}

impl Kinded for Pedigree {
    ghost kind = { a_record pedigree };
}

impl PartialEq for Pedigree {
    ghost eq = { λ a b. equal (pedigree_tree a) (pedigree_tree b) };

    ghost laws = { equal_laws pedigree_tree };

    fn eq(&self, other: &Pedigree) -> bool
        ensures test { result ≡ equal (pedigree_tree self.now) (pedigree_tree other.now) }
        ensures equality { IsTrue result ↔ (pedigree_tree self.now ≡ pedigree_tree other.now) }
    {
        self.equals(other)
    }
}
