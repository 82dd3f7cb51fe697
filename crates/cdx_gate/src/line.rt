//! The line that is being taken.

ghost use Rattle.std.specs.Prelude.{◌≡◌, ◌≤◌, ◌<◌, ◌++◌, take, slice_index, length, vec_len, true, MatchOption, OnOk};
ghost use Rattle.cdx_gate.specs.Lines.{line_feed, has_no_feed};
ghost use Rattle.cdx_gate.specs.Gate.{most_held};

use std::alloc::AllocError;

// One byte more than a request may have: enough to tell that a line is too long.
const KEPT: usize = 67_108_865;

/// The place of the first line feed.
pub(crate) fn find_feed(bytes: &[u8]) -> Option<usize>
    ensures { MatchOption result (has_no_feed bytes.now ≡ true)
        (λ n. (n < length bytes.now) × (slice_index bytes.now n ≡ line_feed)
        × (has_no_feed (take n bytes.now) ≡ true)) }
{
    bytes.iter().position(|byte| *byte == b'\n')
}

/// Appends the bytes to the line, of which no more are kept than tell that it is too long.
pub(crate) fn hold(line: &mut Vec<u8>, bytes: &[u8]) -> Result<(), AllocError>
    requires { vec_len line.old ≤ most_held }
    ensures items { OnOk result (line.new.items ≡ take most_held (line.old.items ++ bytes.now)) }
    ensures few { OnOk result (vec_len line.new ≤ most_held) }
{
    let room = bytes.len().min(KEPT - line.len());
    line.extend_from_slice(&bytes[..room])
}
