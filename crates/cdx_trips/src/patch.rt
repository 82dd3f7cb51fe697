//! Patches of which a trip takes nothing.

ghost use Rattle.std.specs.Prelude.{◌≡◌, ◌&&◌, not};
ghost use Rattle.cdx_models.specs.Trees.{issue, patch, each, present, list_tree};
ghost use Rattle.cdx_patch.specs.Records.{diff_tree, source_tree, issue_tree, patch_tree, patches_tree};
ghost use Rattle.cdx_schema.specs.Kinds.{patches, resolved, a_list, a_record};
ghost use Rattle.cdx_schema.specs.Trips.{is_hollow};
ghost use Rattle.cdx_trips.specs.Surviving.{survives, items_survive};

use crate::hollow::{is_hollow_diff, is_hollow_source};
use cdx_events::List;
use cdx_patch::{Diff, Issue, Patch, Patches, Source};

fn source_row_survives(held: &Option<Source>) -> bool
    ensures { result ≡ not (is_hollow (present source_tree held.now)) }
{
    match held {
        None => true,
        Some(source) => !is_hollow_source(source),
    }
}

fn issues_survive(held: &[Issue]) -> bool
    ensures { result ≡ items_survive (each issue_tree held.now) (a_record issue) }
{
    for item in held {
        if !source_row_survives(&item.source) {
            return false;
        }
    }
    true
}

#[tactic(auto, unfolding(crate::specs::Surviving::survives, cdx_schema::specs::Table::list))]
fn issues_row_survives(held: &Option<List<Issue>>) -> bool
    ensures { result ≡ survives (present (list_tree issue_tree) held.now) (a_list resolved) }
{
    match held {
        None => true,
        Some(issues) => issues_survive(issues.as_slice()),
    }
}

fn diff_row_survives(held: &Option<Diff>) -> bool
    ensures { result ≡ not (is_hollow (present diff_tree held.now)) }
{
    match held {
        None => true,
        Some(diff) => !is_hollow_diff(diff),
    }
}

#[tactic(auto, using(crate::proofs::Records::patch_rows))]
fn patch_survives(held: &Patch) -> bool
    ensures { result ≡ survives (patch_tree held.now) (a_record patch) }
{
    diff_row_survives(&held.diff) && issues_row_survives(&held.resolves)
}

fn patches_survive(held: &[Patch]) -> bool
    ensures { result ≡ items_survive (each patch_tree held.now) (a_record patch) }
{
    for item in held {
        if !patch_survives(item) {
            return false;
        }
    }
    true
}

/// Whether a trip takes nothing of the patches.
#[tactic(auto, unfolding(crate::specs::Surviving::survives, cdx_schema::specs::Table::list))]
pub(crate) fn patches_row_survives(held: &Option<Patches>) -> bool
    ensures { result ≡ survives (present patches_tree held.now) (a_list patches) }
{
    match held {
        None => true,
        Some(patches) => patches_survive(patches.0.as_slice()),
    }
}
