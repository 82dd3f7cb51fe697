//! The members of an object that is read.

ghost use Rattle.std.specs.Prelude.{◌≡◌, IfOk, length, option_map};
ghost use Rattle.std.specs.Str.{bytes_eq};
ghost use Rattle.serde_json.specs.Find.{get_member};
ghost use Rattle.serde_json.specs.View.{view, members_view};
ghost use Rattle.cdx_json.specs.SeenOf.{seen_of};

use crate::seen_member::SeenMember;
use serde_json::{Map, Value};
use std::alloc::{AllocError, Global};

/// The members of an object that is read, one after another: each of a record's rows is looked up in them, and a search of
/// the map takes longer than a walk over the names.
#[derive(Drop)]
pub struct SeenMembers<'v> {
    /// The members, in the map's order.
    pub members: Vec<SeenMember<'v>>,
}

impl<'v> SeenMembers<'v> {
    /// The members of the map. Only want of memory refuses.
    pub fn of(alloc: Global, map: &'v Map<String, Value>) -> Result<SeenMembers<'v>, AllocError>
        ensures { IfOk result (λ m. seen_of m.members.items ≡ members_view map.now.entries) }
    {
        let mut members = Vec::with_capacity(alloc, map.len())?;
        for (name, value) in map.iter() {
            members.push(SeenMember {
                name: name.as_str(),
                value,
            })?;
        }
        Ok(SeenMembers { members })
    }

    /// How many they are.
    pub fn len(&self) -> usize
        ensures { result ≡ length self.now.members.items }
    {
        self.members.len()
    }

    /// The member of that name.
    pub fn get(&self, name: &str) -> Option<&'v Value>
        ensures { option_map (λ v. view v.now) result
            ≡ get_member name.now (seen_of self.now.members.items) }
    {
        for member in self.members.as_slice() {
            if is_same(name, member.name) {
                return Some(member.value);
            }
        }
        None
    }
}

// Most names differ in their length, which is seen without a call.
fn is_same(one: &str, other: &str) -> bool
    ensures { result ≡ bytes_eq one.now other.now }
{
    one.len() == other.len() && one == other
}
