//! The members of an object that is written.

ghost use Rattle.std.specs.Prelude.{◌≡◌, OnOk};
ghost use Rattle.serde_json.specs.Data.{put as with_member};
ghost use Rattle.cdx_json.specs.Spellings.{spelling_data, spelling_members};

use crate::spelling::Spelling;
use std::alloc::AllocError;
use std::cmp::Ordering;

/// The members of an object that is written, in byte order of their names.
pub type Members<'b> = Vec<(&'b str, Spelling<'b>)>;

/// Sets a member. Only want of memory refuses.
pub fn put<'b>(
    members: &mut Members<'b>,
    name: &'b str,
    value: Spelling<'b>,
) -> Result<(), AllocError>
    ensures { OnOk result (spelling_members members.new.items
        ≡ with_member name.now (spelling_data value.entry) (spelling_members members.old.items)) }
{
    let mut at = 0;
    for member in members.as_slice() {
        match name.cmp(member.0) {
            Ordering::Greater => at += 1,
            Ordering::Less => break,
            Ordering::Equal => {
                members[at].1 = value;
                return Ok(());
            }
        }
    }
    members.insert(at, (name, value))?;
    Ok(())
}
