//! The remaining pairs of an iterator over a table of 256 places.
ghost use Rattle.std.specs.Prelude.{◌≡◌, ◌+◌, ◌<◌, ◌≤◌, length, [], ◌∷◌, ◌++◌, IfNone, IfSome};
ghost use Rattle.std.specs.Iterator.{YieldsFirst, YieldsLast, item_count};
ghost use Rattle.art_nodes.specs.ChildTable.{filled_within};

use crate::inner_nodes::tables::byte_set::ByteSet;
use std::marker::Model;
use std::ops::Range;

/// The children of 256 places whose byte is in a set and within a range.
#[derive(Drop)]
pub(crate) struct TablePairs<'a, H> {
    filled: &'a ByteSet,
    children: &'a [H],
    start: usize,
    end: usize,
}

impl<'a, H> Model for TablePairs<'a, H> {
    ghost use Rattle.std.specs.Prelude.{◌≡◌, ◌≤◌, length};
    ghost use Rattle.art_nodes.specs.ChildMap.{ChildMap};
    ghost use Rattle.art_nodes.specs.ChildTable.{filled_within};

    ghost Value = { ChildMap H };

    ghost view = { λ p. filled_within p.filled.now.words p.children.now p.start p.end };

    ghost invariant = { λ p. (length p.children.now ≡ 256) × (p.end ≤ 256) };
}

impl<'a, H: Copy> TablePairs<'a, H> {
    /// The filled places of a range of bytes.
    #[inline]
    pub(crate) fn new(filled: &'a ByteSet, children: &'a [H], bytes: Range<usize>) -> Self
        requires all_places { length children.now ≡ 256 }
        requires fits { bytes.end ≤ 256 }
        ensures { result ≡ filled_within filled.now.words children.now bytes.start bytes.end }
    {
        TablePairs {
            filled,
            children,
            start: bytes.start,
            end: bytes.end,
        }
    }
}

impl<'a, H: Copy> Iterator for TablePairs<'a, H> {
    type Item = (u8, H);

    ghost next_gives = { YieldsFirst (λ pairs. pairs) };

    ghost remaining = { item_count (λ pairs. pairs) };

    #[inline]
    fn next(&mut self) -> Option<(u8, H)> {
        let (byte, child) = first_within(self.filled, self.children, self.start, self.end)?;
        self.start = usize::from(byte) + 1;
        Some((byte, child))
    }
}

impl<'a, H: Copy> DoubleEndedIterator for TablePairs<'a, H> {
    ghost next_back_gives = { YieldsLast (λ pairs. pairs) };

    #[inline]
    fn next_back(&mut self) -> Option<(u8, H)> {
        let (byte, child) = last_within(self.filled, self.children, self.start, self.end)?;
        self.end = usize::from(byte);
        Some((byte, child))
    }
}

// The first child with a byte from `from` up to `end` (excluded), with its byte.
#[inline]
fn first_within<H: Copy>(
    filled: &ByteSet,
    children: &[H],
    from: usize,
    end: usize,
) -> Option<(u8, H)>
    requires all_places { length children.now ≡ 256 }
    requires fits { end ≤ 256 }
    ensures in_range { IfSome result (λ pair. (from ≤ pair.0) × (pair.0 < end)) }
    ensures found { IfSome result (λ pair. filled_within filled.now.words children.now from end
        ≡ pair ∷ filled_within filled.now.words children.now (pair.0 + 1) end) }
    ensures none { IfNone result (filled_within filled.now.words children.now from end ≡ []) }
{
    let byte = filled.first_from(from)?;
    let place = usize::from(byte);
    if place < end {
        Some((byte, children[place]))
    } else {
        None
    }
}

// The last child with a byte from `from` up to `end` (excluded), with its byte.
#[inline]
fn last_within<H: Copy>(
    filled: &ByteSet,
    children: &[H],
    from: usize,
    end: usize,
) -> Option<(u8, H)>
    requires all_places { length children.now ≡ 256 }
    requires fits { end ≤ 256 }
    ensures in_range { IfSome result (λ pair. (from ≤ pair.0) × (pair.0 < end)) }
    ensures found { IfSome result (λ pair. filled_within filled.now.words children.now from end
        ≡ filled_within filled.now.words children.now from pair.0 ++ pair ∷ []) }
    ensures none { IfNone result (filled_within filled.now.words children.now from end ≡ []) }
{
    let byte = filled.last_before(end)?;
    let place = usize::from(byte);
    if from <= place {
        Some((byte, children[place]))
    } else {
        None
    }
}
