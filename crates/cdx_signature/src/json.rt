//! Signatures in JSON.

ghost use Rattle.std.specs.Prelude.{◌≡◌, option_map, Some, IfOk};
ghost use Rattle.cdx_schema.specs.Kinds.{signer_list, a_list, a_text};
ghost use Rattle.cdx_json.specs.Stays.{text_stays};
ghost use Rattle.cdx_signature.specs.Stays.{signature_stays};
ghost use Rattle.serde_json.specs.Find.{as_str};
ghost use Rattle.serde_json.specs.View.{view};
ghost use Rattle.cdx_json.specs.Spellings.{spelling_data};
ghost use Rattle.cdx_signature.specs.Records.{algorithm_tree, signer_tree, signature_tree};
ghost use Rattle.cdx_signature.specs.Signatures.{algorithm_of};
ghost use Rattle.cdx_schema.specs.Keeping.{kept};
ghost use Rattle.cdx_schema.specs.JsonReading.{jread, seen};
ghost use Rattle.cdx_schema.specs.Depths.{depth_of};
ghost use Rattle.cdx_json.specs.Gives.{Gives};
ghost use Rattle.serde_json.specs.Data.{no_members, object};
ghost use Rattle.cdx_models.specs.Trees.{signer, list_tree};
ghost use Rattle.cdx_json.specs.ByRows.{signature_in};
ghost use Rattle.cdx_json.specs.KeptRows.{put_kept};
ghost use Rattle.cdx_json.specs.SeenOf.{seen_of};

use crate::signature::{Algorithm, Signature, Signer};
use cdx_events::List;
use cdx_json::{
    Context, FromJson, JsonRecord, Keeping, Kept, Members, SeenMembers, Spelling, ToJson,
    has_value, here, keep_list, list_from_items, list_row, put_required, put_required_list,
    required_row,
};
use cdx_models::{HasTree, JsonKind, JsonReadError, SpecVersion};
use cdx_schema::Target;
use serde_json::Value;
use std::alloc::{AllocError, Global};

impl FromJson for Algorithm {
    /// A text, as any `Algorithm` that a text gives: the variant is the one that `Algorithm::new_unchecked` gives.
    fn from_json_at(value: &Value, context: Context) -> Result<Algorithm, JsonReadError>
        ensures gives { Gives algorithm_tree result
            (jread (view value.now) context.version a_text (depth_of context.depth)) }
        ensures variant { IfOk result
            (λ r. option_map algorithm_of (as_str (view value.now)) ≡ Some r) }
    {
        match value.as_str() {
            None => Err(here(context.alloc, JsonKind::WrongKind)),
            Some(text) => Ok(Algorithm::new_unchecked(context.alloc, text)?),
        }
    }
}

impl Kept for Algorithm {
    ghost stays = { λ w l x. text_stays w l _ };

    #[tactic(auto, unfolding(cdx_schema::specs::Keeping::kept))]
    fn kept_as(&self, keeping: Keeping) -> Result<Algorithm, AllocError>
        ensures gives { IfOk result
            (λ r. algorithm_tree r ≡ kept keeping.version keeping.label (algorithm_tree self.now)
            a_text) }
        ensures variant { IfOk result (λ r. r ≡ self.now) }
    {
        self.copy(keeping.alloc)
    }
}

impl ToJson for Algorithm {
    #[tactic(auto, unfolding(cdx_json::proofs::OnRows::on_spelled))]
    fn spelling(&self, alloc: Global, version: SpecVersion) -> Result<Spelling<'_>, AllocError> {
        Ok(Spelling::Text(self.as_str()))
    }
}

#[tactic(auto, unfolding(cdx_json::proofs::OnRows::on_rows))]
impl JsonRecord for Signer {
    fn from_members(map: &SeenMembers<'_>, context: Context) -> Result<Signer, JsonReadError> {
        let algorithm = required_row(map, "algorithm", context)?;
        let value = required_row(map, "value", context)?;
        Ok(Signer { algorithm, value })
    }

    fn kept_by_rows(&self, keeping: Keeping) -> Result<Signer, AllocError> {
        Ok(Signer {
            algorithm: self.algorithm.kept_as(keeping)?,
            value: self.value.kept_as(keeping)?,
        })
    }

    fn put_members<'b>(&'b self, map: &mut Members<'b>, target: Target) -> Result<(), AllocError> {
        put_required(map, "algorithm", &self.algorithm, target)?;
        put_required(map, "value", &self.value, target)
    }
}

impl FromJson for Signature {
    /// An array is signers. An object is the signers or else the chain where it has them, and else a single signer.
    fn from_json_at(value: &Value, context: Context) -> Result<Signature, JsonReadError> {
        match value.as_array() {
            Some(items) => Ok(Signature::Signers(list_from_items(items, context)?)),
            None => match value.as_object() {
                None => Err(here(context.alloc, JsonKind::WrongKind)),
                Some(map) => {
                    let members = SeenMembers::of(context.alloc, map)?;
                    signature_from_members(&members, context)
                }
            },
        }
    }
}

fn signature_from_members(
    map: &SeenMembers<'_>,
    context: Context,
) -> Result<Signature, JsonReadError>
    ensures { Gives signature_tree result
        (signature_in (seen (seen_of map.now.members.items)) context.version
        (depth_of context.depth)) }
{
    if has_value(map, "signers") {
        Ok(Signature::Signers(list_row(map, "signers", context)?))
    } else if has_value(map, "chain") {
        Ok(Signature::Chain(list_row(map, "chain", context)?))
    } else {
        Ok(Signature::Single(Signer::from_members(map, context)?))
    }
}

impl Kept for Signature {
    ghost stays = { signature_stays };

    fn kept_as(&self, keeping: Keeping) -> Result<Signature, AllocError> {
        match self {
            Signature::Signers(held) => Ok(Signature::Signers(keep_list(held, keeping)?)),
            Signature::Chain(held) => Ok(Signature::Chain(keep_list(held, keeping)?)),
            Signature::Single(held) => Ok(Signature::Single(held.kept_as(keeping)?)),
        }
    }
}

impl ToJson for Signature {
    fn spelling(&self, alloc: Global, version: SpecVersion) -> Result<Spelling<'_>, AllocError> {
        match self {
            Signature::Signers(signers) => signers_spelling(alloc, "signers", signers, version),
            Signature::Chain(chain) => signers_spelling(alloc, "chain", chain, version),
            Signature::Single(signer) => signer.spelling(alloc, version),
        }
    }
}

/// Signers as the one member of an object.
fn signers_spelling<'b>(
    alloc: Global,
    name: &'b str,
    held: &'b List<Signer>,
    version: SpecVersion,
) -> Result<Spelling<'b>, AllocError>
    ensures { IfOk result (λ v. spelling_data v ≡ object (put_kept name.now (a_list signer_list)
        (list_tree signer_tree held.now) version no_members)) }
{
    let mut map = Vec::new(alloc);
    put_required_list(&mut map, name, held, Target { alloc, version })?;
    Ok(Spelling::Object(map))
}
