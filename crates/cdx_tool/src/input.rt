//! Taking all that a source has.

ghost use Rattle.std.specs.Prelude.{◌≡◌, ◌≤◌, ◌<◌, ◌+◌, ◌^◌, ◌⊎◌, List, ℕ, length, Some, IfOk, OnOk, IsErrOf};
ghost use Rattle.std.specs.declared.alloc.AllocError.{AllocError as Refused};
ghost use Rattle.std.specs.Io.KnownBytes.{Consumes, IsAtEnd};
ghost use Rattle.cdx_events.specs.Causes.{Rose};

use cdx_events::{Failed, List as Items, Source};
use std::alloc::{AllocError, AllocFailed, Global};

const CHUNK: usize = 4096;

/// Why a source's bytes could not be had.
#[derive(Debug, Drop)]
pub enum InputError {
    /// The source failed.
    Fault,
    /// The source had more bytes left than the limit.
    TooLong,
    /// Memory ran out.
    Memory(AllocError),
}

/// All bytes that the source has left, which are no more than `limit`. At most one byte beyond it is taken.
///
/// `Fault` comes only where the source's count of faults rose. `TooLong` comes only where more than `limit` bytes
/// were left; where so many were left and the count didn't rise, the answer is `TooLong` or `Memory`. `Ok` and
/// `TooLong` come only where the count stayed.
pub fn take_input<S: Source>(
    alloc: Global,
    source: &mut S,
    limit: usize,
) -> Result<Items<u8>, InputError>
    requires { limit + 1 < 2 ^ 64 }
    ensures ok { IfOk result (λ bytes. Consumes (S.left source.old) (S.left source.new) bytes
        × IsAtEnd (S.left source.new) × (length bytes ≤ limit)) }
    ensures taken { (taken : List ℕ) × Consumes (S.left source.old) (S.left source.new) taken
        × (length taken ≤ limit + 1) }
    ensures fault { IsErrOf result InputError.Fault
        → Rose (S.faults source.old) (S.faults source.new) }
    ensures too_long { IsErrOf result InputError.TooLong → (taken : List ℕ)
        × Consumes (S.left source.old) (S.left source.new) taken × (limit < length taken) }
    ensures long { (told : List ℕ) → S.left source.old ≡ Some told → limit < length told
        → (Rose (S.faults source.old) (S.faults source.new) → ⊥)
        → IsErrOf result InputError.TooLong
        ⊎ ((error : Refused) × IsErrOf result (InputError.Memory error)) }
    ensures later { S.faults source.old ≤ S.faults source.new }
    ensures ok_cause { OnOk result (S.faults source.new ≡ S.faults source.old) }
    ensures too_long_cause { IsErrOf result InputError.TooLong
        → S.faults source.new ≡ S.faults source.old }
{
    let mut bytes = Vec::new(alloc);
    let mut chunk = [0u8; CHUNK];
    while bytes.len() <= limit {
        let room = (limit + 1 - bytes.len()).min(CHUNK);
        match source.take(&mut chunk[..room]) {
            Err(Failed) => return Err(InputError::Fault),
            Ok(0) => return Ok(Items::from_vec(bytes)),
            Ok(count) => match bytes.extend_from_slice(&chunk[..count]) {
                Ok(()) => {}
                Err(error) => return Err(InputError::Memory(error)),
            },
        }
    }
    Err(InputError::TooLong)
}
