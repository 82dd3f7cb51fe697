//! What is read from JSON, kept by a version and written to JSON.

ghost use Rattle.std.specs.Prelude.{◌≡◌, IfOk, OnOk, false};
ghost use Rattle.serde_json.specs.View.{view};
ghost use Rattle.cdx_models.specs.Trees.{fields, fields_of, is_absent};
ghost use Rattle.cdx_models.specs.declared.bom.SpecVersion.{SpecVersion};
ghost use Rattle.cdx_schema.specs.Table.{rows};
ghost use Rattle.cdx_schema.specs.Depth.{top};
ghost use Rattle.cdx_schema.specs.Keeping.{kept, keep};
ghost use Rattle.cdx_schema.specs.JsonReading.{jread, seen};
ghost use Rattle.cdx_schema.specs.JsonSpelling.{jspell};
ghost use Rattle.cdx_schema.specs.Depths.{depth_of};
ghost use Rattle.cdx_json.specs.Gives.{Gives, Makes};
ghost use Rattle.cdx_json.specs.ByRows.{by_rows};
ghost use Rattle.cdx_json.specs.KeptRows.{rows_held, rows_put};
ghost use Rattle.cdx_json.specs.SeenOf.{seen_of};
ghost use Rattle.cdx_json.specs.Spellings.{spelling_data, spelling_members};

use crate::context::Context;
use crate::fault::here;
use crate::keeping::Keeping;
use crate::seen::SeenMembers;
use crate::spelling::Spelling;
use crate::spelling::members::Members;
use cdx_models::{JsonKind, JsonReadError, JsonWriteError, SpecVersion};
use cdx_schema::{Depth, Kinded, Record, Target};
use serde_json::Value;
use std::alloc::{AllocError, Global};

/// A value that is read from JSON.
pub trait FromJson: Kinded {
    /// What the value denotes in a version as a part that stands at a depth, or its first fault. The fault's path is
    /// counted from the value. Where memory runs out, the answer is `Memory` instead.
    fn from_json_at(value: &Value, context: Context) -> Result<Self, JsonReadError>
        ensures { Gives Self.tree result
            (jread (view value.now) context.version Self.kind (depth_of context.depth)) };

    /// What the value denotes in a version outside all components and services, or its first fault. The fault's path
    /// is counted from the value. Where memory runs out, the answer is `Memory` instead.
    final fn from_json(
        alloc: Global,
        value: &Value,
        version: SpecVersion,
    ) -> Result<Self, JsonReadError>
        ensures { Gives Self.tree result (jread (view value.now) version Self.kind top) }
    {
        let context = Context {
            alloc,
            version,
            depth: Depth::top(),
        };
        Self::from_json_at(value, context)
    }
}

/// A value of which a version keeps what it knows.
pub trait Kept: Kinded {
    /// What a version keeps of it, where a bill's label becomes the one given. Only want of memory refuses.
    fn kept_as(&self, keeping: Keeping) -> Result<Self, AllocError>
        ensures { IfOk result
            (λ r. Self.tree r ≡ kept keeping.version keeping.label (Self.tree self.now)
            Self.kind) };

    /// What a version keeps of it: the fields that the version doesn't know are gone. Only want of memory refuses.
    final fn kept(&self, alloc: Global, version: SpecVersion) -> Result<Self, AllocError>
        ensures { IfOk result (λ r. Self.tree r ≡ keep version (Self.tree self.now) Self.kind) }
    {
        self.kept_as(Keeping {
            alloc,
            version,
            label: version,
        })
    }

    // What is there stays there.
    ghost stays: { (w l : SpecVersion) → (x : Self)
        → is_absent (kept w l (Self.tree x) Self.kind) ≡ false };
}

/// A value that is written as JSON.
pub trait ToJson: Kept {
    /// The spelling of what the version keeps. Only want of memory refuses.
    fn spelling(&self, alloc: Global, version: SpecVersion) -> Result<Spelling<'_>, AllocError>
        ensures { IfOk result
            (λ v. spelling_data v
            ≡ jspell (keep version (Self.tree self.now) Self.kind) version Self.kind) };

    /// The spelling of what the version keeps, as a value of its own. Only want of memory refuses.
    final fn to_value(&self, alloc: Global, version: SpecVersion) -> Result<Value, AllocError>
        ensures { IfOk result
            (λ v. view v
            ≡ jspell (keep version (Self.tree self.now) Self.kind) version Self.kind) }
    {
        self.spelling(alloc, version)?.to_value(alloc)
    }

    /// The spelling of what the version keeps. Only want of memory refuses, as `Memory`.
    final fn to_json(&self, alloc: Global, version: SpecVersion) -> Result<Value, JsonWriteError>
        ensures { Makes result
            (λ v. view v
            ≡ jspell (keep version (Self.tree self.now) Self.kind) version Self.kind) }
    {
        match self.to_value(alloc, version) {
            Ok(value) => Ok(value),
            Err(e) => Err(JsonWriteError::Memory(e)),
        }
    }
}

/// A record that is read, kept and written row by row. So it is `FromJson`, `Kept` and `ToJson`.
pub trait JsonRecord: Record {
    /// The record whose members these are, or the first fault. Where memory runs out, the answer is `Memory`
    /// instead.
    fn from_members(map: &SeenMembers<'_>, context: Context) -> Result<Self, JsonReadError>
        ensures { Gives Self.tree result
            (by_rows Self.name (seen (seen_of map.now.members.items)) context.version
            (depth_of context.depth)) };

    /// What a version keeps of its rows, where a bill's label becomes the one given. Only want of memory refuses.
    fn kept_by_rows(&self, keeping: Keeping) -> Result<Self, AllocError>
        ensures { IfOk result (λ r. Self.tree r
            ≡ fields Self.name
            (rows_held keeping.version keeping.label (fields_of (Self.tree self.now))
            (rows Self.name))) };

    /// Sets the members of what the version keeps. Only want of memory refuses.
    fn put_members<'b>(&'b self, map: &mut Members<'b>, target: Target) -> Result<(), AllocError>
        ensures { OnOk result (spelling_members map.new.items
            ≡ rows_put (fields_of (Self.tree self.now)) target.version (rows Self.name)
            (spelling_members map.old.items)) };
}

/// A record is read from an object, row by row.
impl<T: JsonRecord> FromJson for T {
    fn from_json_at(value: &Value, context: Context) -> Result<T, JsonReadError> {
        match value.as_object() {
            None => Err(here(context.alloc, JsonKind::WrongKind)),
            Some(map) => {
                let members = SeenMembers::of(context.alloc, map)?;
                T::from_members(&members, context)
            }
        }
    }
}

/// A version keeps the rows of a record that it knows.
impl<T: JsonRecord> Kept for T {
    ghost use Rattle.cdx_json.specs.Stays.{record_tree_stays};

    ghost stays = { λ w l x. record_tree_stays w l T.name (T.tree x) (T.is_record x) };

    fn kept_as(&self, keeping: Keeping) -> Result<T, AllocError> {
        self.kept_by_rows(keeping)
    }
}

/// A record is written as an object, row by row.
impl<T: JsonRecord> ToJson for T {
    fn spelling(&self, alloc: Global, version: SpecVersion) -> Result<Spelling<'_>, AllocError> {
        let mut map = Vec::new(alloc);
        self.put_members(&mut map, Target { alloc, version })?;
        Ok(Spelling::Object(map))
    }
}
