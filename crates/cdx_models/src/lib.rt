//! Versions of the format, errors, leaf records, and the trees that contracts see of records.
#![tactic(auto)]

pub mod attached_text;
pub mod bom;
pub mod errors;
pub mod external_reference;
pub mod hash;
pub mod organization;
mod path;
pub mod property;
pub mod tool;
pub mod tree;

pub use attached_text::AttachedText;
pub use bom::{SpecVersion, UrnUuid};
pub use errors::{
    BomError, JsonKind, JsonReadError, JsonWriteError, Lack, Path, ReadKind, Step, XmlReadError,
    XmlWriteError,
};
pub use external_reference::{ExternalReference, ExternalReferences, Uri};
pub use hash::{Hash, HashValue, Hashes};
pub use organization::{OrganizationalContact, OrganizationalEntity};
pub use property::{Properties, Property};
pub use tool::Tool;
pub use tree::{HasTree, copy_row, equal_row};
