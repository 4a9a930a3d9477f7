//! The iterator over the children of an inner node.
ghost use Rattle.std.specs.Prelude.{◌≡◌, length};
ghost use Rattle.std.specs.Iterator.{YieldsFirst, YieldsLast, item_count};
ghost use Rattle.art_nodes.specs.ChildMap.{table_children, pairs_within, IsAscending, AreValidBounds};
ghost use Rattle.art_nodes.specs.IndirectNode.{named_pointers, AreBelow};
ghost use Rattle.art_nodes.specs.Inner.{sorted_children};

use crate::inner_nodes::tables::child_table::ChildTable;
use crate::inner_nodes::tables::index_table::IndexTable;
use crate::iteration::bounds::byte_range;
use crate::iteration::index_pairs::IndexPairs;
use crate::iteration::sorted_pairs::{SortedPairs, count_below};
use crate::iteration::table_pairs::TablePairs;
use crate::pointers::OpaqueNodePtr;
use crate::pointers::packed::PackedNodePtr;
use std::iter::FusedIterator;
use std::marker::Model;
use std::ops::Bound;

/// An iterator over the children of an inner node, as pairs of a byte and a child, by ascending
/// byte. [`PairIter`] has an example.
pub type ChildIter<'a, K, V, const PREFIX_LEN: usize> = PairIter<
    'a,
    PackedNodePtr<K, V, PREFIX_LEN>,
>;

/// An iterator over pairs of a byte and the item under it, by ascending byte.
///
/// It borrows the node and takes no memory. Each pair is returned once, from the start or from the
/// end. After the last pair every call returns `None`.
///
/// (from tests/art_node_tests/nodes/iteration.rt.txt)
/// ```rust
/// let mut pairs = node.iter();
/// assert!(rt; pairs.next() == Some(first));
/// assert!(rt; pairs.next_back() == Some(fourth));
/// assert!(rt; pairs.next() == Some(second));
/// assert!(rt; pairs.next_back() == Some(third));
/// assert!(rt; pairs.next() == None);
/// assert!(rt; pairs.next_back() == None);
/// ```
#[derive(Drop)]
pub struct PairIter<'a, H> {
    source: Source<'a, H>,
}

// The ways that inner nodes keep their children.
#[derive(Drop)]
enum Source<'a, H> {
    Sorted(SortedPairs<'a, H>),
    Table(TablePairs<'a, H>),
    Indexed(IndexPairs<'a, H>),
}

impl<'a, H> Model for PairIter<'a, H> {
    ghost use Rattle.art_nodes.specs.ChildMap.{ChildMap};

    ghost Value = { ChildMap H };

    ghost use Rattle.art_nodes.specs.ChildIter.{pairs_of};

    ghost view = { λ it. pairs_of it.source };
}

impl<'a, H: Copy> PairIter<'a, H> {
    /// Iterates over ascending bytes with their children.
    pub(crate) fn over_sorted(keys: &'a [u8], children: &'a [H]) -> Self
        requires { length children.now ≡ length keys.now }
        ensures { result ≡ sorted_children keys.now children.now }
    {
        PairIter {
            source: Source::Sorted(SortedPairs::new(keys, children)),
        }
    }

    /// Iterates over a table with a place for each byte.
    pub(crate) fn over_table(table: &'a ChildTable<H>) -> Self
        ensures { result ≡ table_children 0 table.now }
    {
        PairIter {
            source: Source::Table(table.pairs()),
        }
    }

    /// Iterates over the pairs of a table that has the index of each child.
    pub(crate) fn over_indices(pairs: IndexPairs<'a, H>) -> Self
        ensures { result ≡ pairs.entry }
    {
        PairIter {
            source: Source::Indexed(pairs),
        }
    }

    /// Iterates over the ascending bytes that meet both bounds, with their children.
    pub(crate) fn over_sorted_range(
        keys: &'a [u8],
        children: &'a [H],
        start: Bound<u8>,
        end: Bound<u8>,
    ) -> Self
        requires beside { length children.now ≡ length keys.now }
        requires ascending { IsAscending keys.now }
        requires valid { AreValidBounds start end }
        ensures { result ≡ pairs_within (sorted_children keys.now children.now) start end }
    {
        let bytes = byte_range(start, end);
        let from = count_below(keys, bytes.start);
        let (keys, children) = (&keys[from..], &children[from..]);
        let kept = count_below(keys, bytes.end);
        Self::over_sorted(&keys[..kept], &children[..kept])
    }

    /// Iterates over the places of a table whose bytes meet both bounds.
    pub(crate) fn over_table_range(
        table: &'a ChildTable<H>,
        start: Bound<u8>,
        end: Bound<u8>,
    ) -> Self
        requires { AreValidBounds start end }
        ensures { result ≡ pairs_within (table_children 0 table.now) start end }
    {
        PairIter {
            source: Source::Table(table.pairs_within(byte_range(start, end))),
        }
    }

    /// Iterates over the places of a table of indices whose bytes meet both bounds.
    pub(crate) fn over_indices_range(
        indices: &'a IndexTable,
        children: &'a [H],
        start: Bound<u8>,
        end: Bound<u8>,
    ) -> Self
        requires named { AreBelow (length children.now) indices.now }
        requires valid { AreValidBounds start end }
        ensures { result ≡ pairs_within
            (table_children 0 (named_pointers children.now indices.now)) start end }
    {
        let bytes = byte_range(start, end);
        let places = &indices.places()[bytes.start..bytes.end];
        PairIter {
            source: Source::Indexed(IndexPairs::new(bytes.start, places, children)),
        }
    }

    // Removes and returns the first pair.
    #[inline]
    fn next_pair(&mut self) -> Option<(u8, H)>
        ensures { YieldsFirst (λ pairs. pairs) self.old result self.new }
    {
        match &mut self.source {
            Source::Sorted(pairs) => pairs.next(),
            Source::Table(pairs) => pairs.next(),
            Source::Indexed(pairs) => pairs.next(),
        }
    }

    // Removes and returns the last pair.
    #[inline]
    fn last_pair(&mut self) -> Option<(u8, H)>
        ensures { YieldsLast (λ pairs. pairs) self.old result self.new }
    {
        match &mut self.source {
            Source::Sorted(pairs) => pairs.next_back(),
            Source::Table(pairs) => pairs.next_back(),
            Source::Indexed(pairs) => pairs.next_back(),
        }
    }
}

impl<'a, K, V, const PREFIX_LEN: usize> Iterator for PairIter<'a, PackedNodePtr<K, V, PREFIX_LEN>> {
    type Item = (u8, OpaqueNodePtr<K, V, PREFIX_LEN>);

    ghost next_gives = { YieldsFirst (λ pairs. pairs) };

    ghost remaining = { item_count (λ pairs. pairs) };

    fn next(&mut self) -> Option<(u8, OpaqueNodePtr<K, V, PREFIX_LEN>)> {
        let (byte, child) = self.next_pair()?;
        Some((byte, child.to_opaque()))
    }
}

impl<'a, K, V, const PREFIX_LEN: usize> DoubleEndedIterator
    for PairIter<'a, PackedNodePtr<K, V, PREFIX_LEN>> {
    ghost next_back_gives = { YieldsLast (λ pairs. pairs) };

    fn next_back(&mut self) -> Option<(u8, OpaqueNodePtr<K, V, PREFIX_LEN>)> {
        let (byte, child) = self.last_pair()?;
        Some((byte, child.to_opaque()))
    }
}

impl<'a, K, V, const PREFIX_LEN: usize> FusedIterator
    for PairIter<'a, PackedNodePtr<K, V, PREFIX_LEN>> {}
