//! Values of the schema's kinds.

ghost use Rattle.std.specs.Prelude.{refl};
ghost use Rattle.cdx_models.specs.Trees.{attached_text, contact, entity, hash, property, reference, tool};
ghost use Rattle.cdx_schema.specs.Kinds.{a_boolean, a_list, a_number, a_record, a_text, external_references, hashes, properties};

use cdx_events::Text;
use cdx_models::{
    AttachedText, ExternalReference, ExternalReferences, HasTree, Hash, HashValue, Hashes,
    OrganizationalContact, OrganizationalEntity, Properties, Property, Tool, Uri, UrnUuid,
};

/// A value of one of the schema's kinds. What is read, kept or written of it is what the schema says of its tree as
/// that kind.
pub trait Kinded: HasTree {
    ghost use Rattle.cdx_schema.specs.Kinds.{Kind};

    /// The kind of its tree.
    ghost kind: { Kind };
}

/// A record that is read and written by its rows alone.
pub trait Record: HasTree {
    ghost use Rattle.std.specs.Prelude.{◌≡◌, true};
    ghost use Rattle.cdx_models.specs.Trees.{Name, fields, fields_of};
    ghost use Rattle.cdx_schema.specs.Plain.{is_plain};

    /// Its name in the schema.
    ghost name: { Name };

    // Its tree has a field for each of its rows.
    ghost is_record: { (x : Self) → Self.tree x ≡ fields name (fields_of (Self.tree x)) };

    // It has no member beside those of its rows, and no depth of its own.
    ghost plain: { is_plain name ≡ true };
}

/// A record is of the kind of its name.
impl<T: Record> Kinded for T {
    ghost kind = { a_record T.name };
}

impl Kinded for Text {
    ghost kind = { a_text };
}

impl Kinded for bool {
    ghost kind = { a_boolean };
}

impl Kinded for u32 {
    ghost kind = { a_number };
}

impl Kinded for UrnUuid {
    ghost kind = { a_text };
}

impl Kinded for HashValue {
    ghost kind = { a_text };
}

impl Kinded for Uri {
    ghost kind = { a_text };
}

impl Kinded for Hashes {
    ghost kind = { a_list hashes };
}

impl Kinded for Properties {
    ghost kind = { a_list properties };
}

impl Kinded for ExternalReferences {
    ghost kind = { a_list external_references };
}

impl Record for AttachedText {
    ghost name = { attached_text };

    ghost is_record = { λ x. refl };

    ghost plain = { refl };
}

impl Record for Hash {
    ghost name = { hash };

    ghost is_record = { λ x. refl };

    ghost plain = { refl };
}

impl Record for Property {
    ghost name = { property };

    ghost is_record = { λ x. refl };

    ghost plain = { refl };
}

impl Record for OrganizationalContact {
    ghost name = { contact };

    ghost is_record = { λ x. refl };

    ghost plain = { refl };
}

impl Record for OrganizationalEntity {
    ghost name = { entity };

    ghost is_record = { λ x. refl };

    ghost plain = { refl };
}

impl Record for ExternalReference {
    ghost name = { reference };

    ghost is_record = { λ x. refl };

    ghost plain = { refl };
}

impl Record for Tool {
    ghost name = { tool };

    ghost is_record = { λ x. refl };

    ghost plain = { refl };
}
