//! Cursors at the gap of a bound.
ghost use Rattle.std.specs.Prelude.{◌≡◌, ◌++◌, not, filter};
ghost use Rattle.art_pages.specs.Entries.{IsOrdered};
ghost use Rattle.art_map.specs.Ranges.{is_from, is_past};

use super::Map;
use crate::cursor::{Cursor, cursor_at};
use crate::within::{entries_from, entries_up_to};
use art_keys::{RadixKey, RadixQuery};
use std::ops::Bound;

impl<K: RadixKey, V> Map<K, V> {
    /// A cursor before the first entry within a start bound: from the query on where it is included, above
    /// it where it is excluded, and before all entries where there is no bound. After all entries where none
    /// is within the bound.
    ///
    /// Takes one way down the tree, and no memory.
    pub fn lower_bound<Q: RadixQuery<K>>(&self, bound: Bound<Q>) -> Cursor<'_, K, V>
        ensures before { result.0 ≡ filter (λ entry. not (is_from Q.compare bound entry.0)) self.now }
        ensures after { result.1 ≡ filter (λ entry. is_from Q.compare bound entry.0) self.now }
        ensures whole { result.0 ++ result.1 ≡ self.now }
        ensures ordered { IsOrdered K.cmp self.now }
    {
        let after = entries_from(&self.head, &self.tree, bound);
        cursor_at(self, after, true)
    }

    /// A cursor after the last entry within an end bound: up to the query where it is included, below it
    /// where it is excluded, and after all entries where there is no bound. Before all entries where none is
    /// within the bound.
    ///
    /// Takes one way down the tree, and no memory.
    pub fn upper_bound<Q: RadixQuery<K>>(&self, bound: Bound<Q>) -> Cursor<'_, K, V>
        ensures before { result.0 ≡ filter (λ entry. not (is_past Q.compare bound entry.0)) self.now }
        ensures after { result.1 ≡ filter (λ entry. is_past Q.compare bound entry.0) self.now }
        ensures whole { result.0 ++ result.1 ≡ self.now }
        ensures ordered { IsOrdered K.cmp self.now }
    {
        let before = entries_up_to(&self.head, &self.tree, bound);
        cursor_at(self, before, false)
    }
}
