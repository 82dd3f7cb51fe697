//! Records while their children are read: a component in four groups of rows, of which a required name may not be there
//! yet, and a pedigree.

use crate::component::Components;
use crate::component::parts::{Contents, Marks, Origin};
use cdx_code::Commits;
use cdx_events::Text;
use cdx_models::Hashes;
use cdx_patch::Patches;

#[derive(Drop)]
pub(crate) struct NamingPart {
    pub(crate) group: Option<Text>,
    pub(crate) name: Option<Text>,
    pub(crate) version: Option<Text>,
    pub(crate) description: Option<Text>,
    pub(crate) scope: Option<Text>,
    pub(crate) hashes: Option<Hashes>,
}

/// A component of which children may be missing yet.
#[derive(Drop)]
pub struct ComponentPart {
    pub(crate) origin: Origin,
    pub(crate) naming: NamingPart,
    pub(crate) marks: Marks,
    pub(crate) contents: Contents,
}

/// A pedigree with the children so far.
#[derive(Drop)]
pub struct PedigreePart {
    pub(crate) ancestors: Option<Components>,
    pub(crate) descendants: Option<Components>,
    pub(crate) variants: Option<Components>,
    pub(crate) commits: Option<Commits>,
    pub(crate) patches: Option<Patches>,
    pub(crate) notes: Option<Text>,
}
