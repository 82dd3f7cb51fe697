//! What a program's command answers.

ghost use Rattle.std.specs.Prelude.{◌≡◌, List, ℕ, IfOk};
ghost use Rattle.cdx_request.specs.Replies.{Reply};
ghost use Rattle.cdx_tool.specs.Shows.{reply_of};
ghost use Rattle.cdx_tool.specs.Owed.{IsSettled};

use crate::answer::Answer;
use cdx_events::List as Items;
use std::alloc::{AllocError, Global};

/// What a command answers to the bytes of its input.
pub trait Respond {
    /// The reply that is owed to the bytes, which are no more than 67,108,864.
    ghost owed: { Self → List ℕ → Reply };

    /// The answer that is owed to the bytes, of status 0, 1 or 2. Nothing else needs them. Only want of memory refuses.
    fn answer(&self, alloc: Global, bytes: Items<u8>) -> Result<Answer, AllocError>
        ensures reply { IfOk result (λ a. reply_of a ≡ owed self.now bytes) }
        ensures status { IfOk result (λ a. IsSettled a.status) };
}
