//! Copies of paths.

ghost use Rattle.std.specs.Prelude.{◌≡◌, IfOk};

use cdx_events::List;
use cdx_models::{HasTree, Path, Step};
use std::alloc::{AllocError, Global};

fn copy_step(alloc: Global, step: &Step) -> Result<Step, AllocError>
    ensures { IfOk result (λ s. s ≡ step.now) }
{
    match step {
        Step::Member(name) => Ok(Step::Member(name.copy(alloc)?)),
        Step::Item(number) => Ok(Step::Item(*number)),
    }
}

/// The path of these steps. Only want of memory refuses.
pub fn copy_path(alloc: Global, steps: &[Step]) -> Result<Path, AllocError>
    ensures { IfOk result (λ p. p.0 ≡ steps.now) }
{
    let mut copies = List::with_capacity(alloc, steps.len())?;
    for step in steps {
        copies.push(copy_step(alloc, step)?)?;
    }
    Ok(Path(copies))
}
