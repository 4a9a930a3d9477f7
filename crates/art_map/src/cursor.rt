//! Cursors: a gap between two entries of a map, which moves over one entry at a time.
ghost use Rattle.std.specs.Prelude.{◌≡◌, ◌-◌, ◌∷◌, ◌++◌, [], true, false, length, slice_get, IfNone, IfSome, ⊤};
ghost use Rattle.std.specs.Option.{option_map};
ghost use Rattle.art_map.specs.Cursors.{AreSides, gap_sides};

use crate::iter::Iter;
use crate::map::Map;
use art_keys::{KeyBytes, RadixKey};
use std::alloc::AllocError;
use std::marker::Model;
use std::ops::Bound;

/// A cursor of a map, which stands in a gap: between two entries, before the first, or after the last.
/// Contracts see the list of the entries before the gap and that of those after it, both in ascending
/// order of their keys.
#[derive(Drop)]
pub struct Cursor<'a, K: KeyBytes, V> {
    map: &'a Map<K, V>,
    // The entries on one side of the gap. Those on the other side are sought when they are asked for.
    entries: Iter<'a, K, V>,
    // Whether they are those after the gap.
    are_after: bool,
}

impl<'a, K: KeyBytes, V> Model for Cursor<'a, K, V> {
    ghost use Rattle.std.specs.Prelude.{List};
    ghost use Rattle.art_map.specs.Cursors.{AreSides, gap_sides};

    ghost Value = { List (K × V) × List (K × V) };

    ghost view = { λ cursor. gap_sides cursor.map.now cursor.are_after cursor.entries };

    ghost invariant = { λ cursor. AreSides cursor.map.now
        (gap_sides cursor.map.now cursor.are_after cursor.entries) };
}

/// The gap of a map after or before these entries.
pub(crate) fn cursor_at<'a, K: KeyBytes, V>(
    map: &'a Map<K, V>,
    entries: Iter<'a, K, V>,
    are_after: bool,
) -> Cursor<'a, K, V>
    requires { AreSides map.now (gap_sides map.now are_after entries) }
    ensures { result ≡ gap_sides map.now are_after entries.entry }
{
    Cursor {
        map,
        entries,
        are_after,
    }
}

// Another iterator over the entries that are left.
fn same_entries<'a, K: KeyBytes, V>(entries: &Iter<'a, K, V>) -> Iter<'a, K, V>
    ensures { result ≡ entries.now }
{
    match entries.clone() {
        Ok(copy) => copy,
        Err(_) => unreachable!(),
    }
}

// The entries above the last of these, which are those before a gap; all where there are none.
fn entries_above<'a, K: RadixKey, V>(
    map: &'a Map<K, V>,
    mut before: Iter<'a, K, V>,
) -> Iter<'a, K, V>
    requires { AreSides map.now (gap_sides map.now false before) }
    ensures { AreSides map.now (before.entry, result) }
{
    let Some((last, _)) = before.next_back() else {
        return map.iter();
    };
    let end: Bound<&K> = Bound::Unbounded;
    map.range((Bound::Excluded(last), end))
}

// The entries below the first of these, which are those after a gap; all where there are none.
fn entries_below<'a, K: RadixKey, V>(
    map: &'a Map<K, V>,
    mut after: Iter<'a, K, V>,
) -> Iter<'a, K, V>
    requires { AreSides map.now (gap_sides map.now true after) }
    ensures { AreSides map.now (result, after.entry) }
{
    let Some((first, _)) = after.next() else {
        return map.iter();
    };
    let start: Bound<&K> = Bound::Unbounded;
    map.range((start, Bound::Excluded(first)))
}

impl<'a, K: RadixKey, V> Cursor<'a, K, V> {
    // The entries after the gap.
    fn after(&self) -> Iter<'a, K, V>
        ensures { result ≡ self.now.1 }
    {
        let entries = same_entries(&self.entries);
        if self.are_after {
            return entries;
        }
        entries_above(self.map, entries)
    }

    // The entries before the gap.
    fn before(&self) -> Iter<'a, K, V>
        ensures { result ≡ self.now.0 }
    {
        let entries = same_entries(&self.entries);
        if self.are_after {
            return entries_below(self.map, entries);
        }
        entries
    }

    /// Moves over the entry after the gap, and returns it. At the end of the map it stays where it is.
    ///
    /// Takes constant time, and one way down the tree for the first move that follows a move back.
    pub fn next(&mut self) -> Option<(&'a K, &'a V)>
        ensures returned { IfSome result (λ entry. self.old.1 ≡ (entry.0.now, entry.1.now) ∷ self.new.1) }
        ensures passed { IfSome result (λ entry. self.new.0 ≡ self.old.0 ++ (entry.0.now, entry.1.now) ∷ []) }
        ensures none { IfNone result (self.old.1 ≡ []) }
        ensures stays { IfNone result (self.new ≡ self.old) }
    {
        let mut after = self.after();
        let entry = after.next();
        self.entries = after;
        self.are_after = true;
        entry
    }

    /// Moves back over the entry before the gap, and returns it. At the start of the map it stays where
    /// it is.
    ///
    /// Takes constant time, and one way down the tree for the first move that follows a move forward.
    pub fn prev(&mut self) -> Option<(&'a K, &'a V)>
        ensures returned { IfSome result (λ entry. self.old.0 ≡ self.new.0 ++ (entry.0.now, entry.1.now) ∷ []) }
        ensures passed { IfSome result (λ entry. self.new.1 ≡ (entry.0.now, entry.1.now) ∷ self.old.1) }
        ensures none { IfNone result (self.old.0 ≡ []) }
        ensures stays { IfNone result (self.new ≡ self.old) }
    {
        let mut before = self.before();
        let entry = before.next_back();
        self.entries = before;
        self.are_after = false;
        entry
    }

    /// The entry after the gap. The cursor stays where it is. Costs as much as [`next`](Self::next).
    pub fn peek_next(&self) -> Option<(&'a K, &'a V)>
        ensures { option_map (λ entry. (entry.0.now, entry.1.now)) result ≡ slice_get self.now.1 0 }
    {
        self.after().next()
    }

    /// The entry before the gap. The cursor stays where it is. Costs as much as [`prev`](Self::prev).
    pub fn peek_prev(&self) -> Option<(&'a K, &'a V)>
        ensures { option_map (λ entry. (entry.0.now, entry.1.now)) result
            ≡ slice_get self.now.0 (length self.now.0 - 1) }
    {
        self.before().next_back()
    }
}

/// Another cursor in the same gap. Takes no memory and never fails.
impl<'a, K: KeyBytes, V> Clone for Cursor<'a, K, V> {
    ghost is_clone = { λ cursor copy. copy ≡ cursor };

    ghost is_infallible = { λ _. ⊤ };

    fn clone(&self) -> Result<Cursor<'a, K, V>, AllocError> {
        Ok(Cursor {
            map: self.map,
            entries: same_entries(&self.entries),
            are_after: self.are_after,
        })
    }
}
