//! Bounds on key bytes.
ghost use Rattle.std.specs.Prelude.{◌≡◌, ◌≤◌, ◌↔◌, IsTrue};
ghost use Rattle.art_nodes.specs.ChildMap.{AreValidBounds};
ghost use Rattle.art_nodes.specs.PairSources.{first_byte, end_byte};

use std::ops::{Bound, Range};

/// Whether a range of key bytes may have these bounds. It may not where both are excluded and
/// equal, or where the start is above the end.
pub fn valid_range_bounds(start: Bound<u8>, end: Bound<u8>) -> bool
    ensures { IsTrue result ↔ AreValidBounds start end }
{
    match (start, end) {
        (Bound::Excluded(start), Bound::Excluded(end)) => start < end,
        (
            Bound::Included(start) | Bound::Excluded(start),
            Bound::Included(end) | Bound::Excluded(end),
        ) => start <= end,
        _ => true,
    }
}

/// The bytes that meet both bounds, as numbers, so that no bound wraps.
pub(crate) fn byte_range(start: Bound<u8>, end: Bound<u8>) -> Range<usize>
    requires { AreValidBounds start end }
    ensures first { result.start ≡ first_byte start }
    ensures end { result.end ≡ end_byte end }
    ensures ordered { result.start ≤ result.end }
    ensures fits { result.end ≤ 256 }
{
    let first = match start {
        Bound::Included(byte) => usize::from(byte),
        Bound::Excluded(byte) => usize::from(byte) + 1,
        Bound::Unbounded => 0,
    };
    let end = match end {
        Bound::Included(byte) => usize::from(byte) + 1,
        Bound::Excluded(byte) => usize::from(byte),
        Bound::Unbounded => 256,
    };
    first..end
}
