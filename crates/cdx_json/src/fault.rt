//! Faults of JSON values: they are made where the part stands, and gather the steps of their path on the way out.

ghost use Rattle.std.specs.Prelude.{[], ◌∷◌};
ghost use Rattle.cdx_models.specs.declared.errors.Step.{Step};
ghost use Rattle.cdx_models.specs.declared.errors.JsonKind.{JsonKind};
ghost use Rattle.cdx_json.specs.Gives.{IsFaultAt, IsWithin};

use cdx_events::{List, Text};
use cdx_models::{JsonKind, JsonReadError, Path, Step};
use std::alloc::{AllocError, Global};

/// The fault of the value itself.
pub fn here(alloc: Global, kind: JsonKind) -> JsonReadError
    ensures { IsFaultAt [] kind result }
{
    JsonReadError::JsonElementReadError {
        path: Path(List::new(alloc)),
        kind,
    }
}

/// The fault of an object that lacks a required member, at the path that the member would have.
pub fn missing(alloc: Global, name: &str) -> JsonReadError
    ensures { IsFaultAt (Step.Member name.now ∷ []) JsonKind.Missing result }
{
    at_member(alloc, name, here(alloc, JsonKind::Missing))
}

/// A member's fault, seen from the object that has the member.
pub fn at_member(alloc: Global, name: &str, error: JsonReadError) -> JsonReadError
    ensures { IsWithin (Step.Member name.now) error result }
{
    match Text::new(alloc, name) {
        Ok(name) => within(Step::Member(name), error),
        Err(e) => JsonReadError::Memory(e),
    }
}

/// An item's fault, seen from its array.
pub fn at_item(at: usize, error: JsonReadError) -> JsonReadError
    ensures { IsWithin (Step.Item at) error result }
{
    within(Step::Item(at), error)
}

fn within(step: Step, error: JsonReadError) -> JsonReadError
    ensures { IsWithin step error result }
{
    match error {
        JsonReadError::Memory(e) => JsonReadError::Memory(e),
        JsonReadError::BomError(e) => JsonReadError::BomError(e),
        JsonReadError::JsonElementReadError { path, kind } => {
            let mut steps = path.0.into_vec();
            match steps.insert(0, step) {
                Ok(()) => JsonReadError::JsonElementReadError {
                    path: Path(List::from_vec(steps)),
                    kind,
                },
                Err(_) => JsonReadError::Memory(AllocError),
            }
        }
    }
}
