//! Keeping and writing texts, booleans, numbers, lists and the members of records.

ghost use Rattle.std.specs.Prelude.{◌≡◌, IfOk, OnOk};
ghost use Rattle.cdx_models.specs.Trees.{present, list_tree};
ghost use Rattle.cdx_schema.specs.Kinds.{Lists, a_list};
ghost use Rattle.cdx_schema.specs.Keeping.{kept, keep};
ghost use Rattle.cdx_schema.specs.JsonSpelling.{jspell};
ghost use Rattle.cdx_json.specs.ByRows.{IsJsonListOf};
ghost use Rattle.cdx_json.specs.KeptRows.{put_kept, put_filled, late_put, late_kept};
ghost use Rattle.cdx_json.specs.Spellings.{spelling_data, spelling_members};

use crate::keeping::Keeping;
use crate::spelling::Spelling;
use crate::spelling::members::{Members, put};
use crate::traits::{Kept, ToJson};
use cdx_events::{List, Text};
use cdx_models::{HasTree, SpecVersion};
use cdx_schema::Target;
use std::alloc::{AllocError, Global};

impl Kept for Text {
    ghost use Rattle.cdx_json.specs.Stays.{text_stays};

    ghost stays = { text_stays };

    #[tactic(auto, unfolding(cdx_schema::specs::Keeping::kept))]
    fn kept_as(&self, keeping: Keeping) -> Result<Text, AllocError> {
        self.copy(keeping.alloc)
    }
}

impl ToJson for Text {
    #[tactic(auto, unfolding(crate::proofs::OnRows::on_spelled))]
    fn spelling(&self, alloc: Global, version: SpecVersion) -> Result<Spelling<'_>, AllocError> {
        Ok(Spelling::Text(self.as_str()))
    }
}

impl Kept for bool {
    ghost use Rattle.cdx_json.specs.Stays.{boolean_stays};

    ghost stays = { boolean_stays };

    #[tactic(auto, unfolding(cdx_schema::specs::Keeping::kept))]
    fn kept_as(&self, keeping: Keeping) -> Result<bool, AllocError> {
        Ok(*self)
    }
}

impl ToJson for bool {
    #[tactic(auto, unfolding(crate::proofs::OnRows::on_spelled))]
    fn spelling(&self, alloc: Global, version: SpecVersion) -> Result<Spelling<'_>, AllocError> {
        Ok(Spelling::Bool(*self))
    }
}

impl Kept for u32 {
    ghost use Rattle.cdx_json.specs.Stays.{number_stays};

    ghost stays = { number_stays };

    #[tactic(auto, unfolding(cdx_schema::specs::Keeping::kept))]
    fn kept_as(&self, keeping: Keeping) -> Result<u32, AllocError> {
        Ok(*self)
    }
}

impl ToJson for u32 {
    #[tactic(auto, unfolding(crate::proofs::OnRows::on_spelled))]
    fn spelling(&self, alloc: Global, version: SpecVersion) -> Result<Spelling<'_>, AllocError> {
        Ok(Spelling::Number(*self))
    }
}

/// What a version keeps of a list, as any of the schema's lists whose items are of the kind of `T`.
pub fn keep_list<T: Kept + Drop>(held: &List<T>, keeping: Keeping) -> Result<List<T>, AllocError>
    ensures { (l : Lists) → IsJsonListOf T.kind l → IfOk result
        (λ r. list_tree T.tree r ≡ kept keeping.version keeping.label (list_tree T.tree held.now)
        (a_list l)) }
{
    let mut copies = List::with_capacity(keeping.alloc, held.len())?;
    for item in held.as_slice() {
        copies.push(item.kept_as(keeping)?)?;
    }
    Ok(copies)
}

/// A list as an array, as any of the schema's lists whose items are of the kind of `T`.
pub fn list_spelling<'b, T: ToJson + Drop>(
    alloc: Global,
    held: &'b List<T>,
    version: SpecVersion,
) -> Result<Spelling<'b>, AllocError>
    ensures { (l : Lists) → IsJsonListOf T.kind l → IfOk result
        (λ v. spelling_data v
        ≡ jspell (keep version (list_tree T.tree held.now) (a_list l)) version (a_list l)) }
{
    let mut values = Vec::with_capacity(alloc, held.len())?;
    for item in held.as_slice() {
        values.push(item.spelling(alloc, version)?)?;
    }
    Ok(Spelling::Array(values))
}

/// Sets a member that is always there.
pub fn put_required<'b, T: ToJson>(
    map: &mut Members<'b>,
    name: &'b str,
    held: &'b T,
    target: Target,
) -> Result<(), AllocError>
    ensures { OnOk result (spelling_members map.new.items
        ≡ put_kept name.now T.kind (T.tree held.now) target.version
        (spelling_members map.old.items)) }
{
    put(map, name, held.spelling(target.alloc, target.version)?)
}

/// Sets a member, where it is there.
pub fn put_row<'b, T: ToJson>(
    map: &mut Members<'b>,
    name: &'b str,
    held: &'b Option<T>,
    target: Target,
) -> Result<(), AllocError>
    ensures { OnOk result (spelling_members map.new.items
        ≡ put_kept name.now T.kind (present T.tree held.now) target.version
        (spelling_members map.old.items)) }
{
    match held {
        None => Ok(()),
        Some(held) => put_required(map, name, held, target),
    }
}

/// Sets a member, where it is there and the version is not before `since`.
pub fn put_row_since<'b, T: ToJson>(
    map: &mut Members<'b>,
    name: &'b str,
    held: &'b Option<T>,
    since: SpecVersion,
    target: Target,
) -> Result<(), AllocError>
    ensures { OnOk result (spelling_members map.new.items
        ≡ late_put since target.version (spelling_members map.old.items)
        (put_kept name.now T.kind (present T.tree held.now) target.version
        (spelling_members map.old.items))) }
{
    if since.is_known_to(target.version) {
        put_row(map, name, held, target)
    } else {
        Ok(())
    }
}

/// Sets a list that is written even where it is empty.
pub fn put_required_list<'b, T: ToJson + Drop>(
    map: &mut Members<'b>,
    name: &'b str,
    held: &'b List<T>,
    target: Target,
) -> Result<(), AllocError>
    ensures { (l : Lists) → IsJsonListOf T.kind l → OnOk result (spelling_members map.new.items
        ≡ put_kept name.now (a_list l) (list_tree T.tree held.now) target.version
        (spelling_members map.old.items)) }
{
    put(
        map,
        name,
        list_spelling(target.alloc, held, target.version)?,
    )
}

/// Sets a list that is not written where it is empty.
pub fn put_list<'b, T: ToJson + Drop>(
    map: &mut Members<'b>,
    name: &'b str,
    held: &'b List<T>,
    target: Target,
) -> Result<(), AllocError>
    ensures { (l : Lists) → IsJsonListOf T.kind l → OnOk result (spelling_members map.new.items
        ≡ put_filled name.now (a_list l) (list_tree T.tree held.now) target.version
        (spelling_members map.old.items)) }
{
    if held.len() == 0 {
        return Ok(());
    }
    put(
        map,
        name,
        list_spelling(target.alloc, held, target.version)?,
    )
}

/// Sets a list, where it is there.
pub fn put_optional_list<'b, T: ToJson + Drop>(
    map: &mut Members<'b>,
    name: &'b str,
    held: &'b Option<List<T>>,
    target: Target,
) -> Result<(), AllocError>
    ensures { (l : Lists) → IsJsonListOf T.kind l → OnOk result (spelling_members map.new.items
        ≡ put_kept name.now (a_list l) (present (list_tree T.tree) held.now) target.version
        (spelling_members map.old.items)) }
{
    match held {
        None => Ok(()),
        Some(held) => put_required_list(map, name, held, target),
    }
}

/// Sets a list, where it is there and the version is not before `since`.
pub fn put_optional_list_since<'b, T: ToJson + Drop>(
    map: &mut Members<'b>,
    name: &'b str,
    held: &'b Option<List<T>>,
    since: SpecVersion,
    target: Target,
) -> Result<(), AllocError>
    ensures { (l : Lists) → IsJsonListOf T.kind l → OnOk result (spelling_members map.new.items
        ≡ late_put since target.version (spelling_members map.old.items)
        (put_kept name.now (a_list l) (present (list_tree T.tree) held.now) target.version
        (spelling_members map.old.items))) }
{
    if since.is_known_to(target.version) {
        put_optional_list(map, name, held, target)
    } else {
        Ok(())
    }
}

/// What a version keeps of a field that may be absent.
#[tactic(auto, unfolding(cdx_schema::specs::Keeping::kept))]
pub fn keep_row<T: Kept>(held: &Option<T>, keeping: Keeping) -> Result<Option<T>, AllocError>
    ensures { IfOk result
        (λ r. present T.tree r ≡ kept keeping.version keeping.label (present T.tree held.now)
        T.kind) }
{
    match held {
        None => Ok(None),
        Some(held) => Ok(Some(held.kept_as(keeping)?)),
    }
}

/// What a version keeps of a field that may be absent: nothing where the version is before `since`.
#[tactic(auto, unfolding(crate::specs::KeptRows::late_kept))]
pub fn keep_row_since<T: Kept>(
    held: &Option<T>,
    since: SpecVersion,
    keeping: Keeping,
) -> Result<Option<T>, AllocError>
    ensures { IfOk result (λ r. present T.tree r
        ≡ late_kept since keeping.version (kept keeping.version keeping.label
        (present T.tree held.now) T.kind)) }
{
    if since.is_known_to(keeping.version) {
        keep_row(held, keeping)
    } else {
        Ok(None)
    }
}

/// What a version keeps of a list that may be absent.
pub fn keep_optional_list<T: Kept + Drop>(
    held: &Option<List<T>>,
    keeping: Keeping,
) -> Result<Option<List<T>>, AllocError>
    ensures { (l : Lists) → IsJsonListOf T.kind l → IfOk result
        (λ r. present (list_tree T.tree) r
        ≡ kept keeping.version keeping.label (present (list_tree T.tree) held.now) (a_list l)) }
{
    match held {
        None => Ok(None),
        Some(held) => Ok(Some(keep_list(held, keeping)?)),
    }
}

/// What a version keeps of a list that may be absent: nothing where the version is before `since`.
pub fn keep_optional_list_since<T: Kept + Drop>(
    held: &Option<List<T>>,
    since: SpecVersion,
    keeping: Keeping,
) -> Result<Option<List<T>>, AllocError>
    ensures { (l : Lists) → IsJsonListOf T.kind l → IfOk result (λ r. present (list_tree T.tree) r
        ≡ late_kept since keeping.version
        (kept keeping.version keeping.label (present (list_tree T.tree) held.now) (a_list l))) }
{
    if since.is_known_to(keeping.version) {
        keep_optional_list(held, keeping)
    } else {
        Ok(None)
    }
}
