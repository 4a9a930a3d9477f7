//! The entries within bounds.
ghost use Rattle.std.specs.Prelude.{◌≡◌, ◌&&◌, not, filter};
ghost use Rattle.std.specs.BTreeMap.Range.{entries_between};
ghost use Rattle.std.specs.Range.Bound.{bound_map};
ghost use Rattle.art_pages.specs.Entries.{IsOrdered};
ghost use Rattle.art_map.specs.Ranges.{IsPartOf, entries_within, is_from, is_past};

use super::Map;
use crate::iter::Iter;
use crate::within::entries_within;
use art_keys::{Edge, PrefixBound, PrefixQuery, RadixKey, RadixQuery};
use std::ops::{Bound, RangeBounds};

impl<K: RadixKey, V> Map<K, V> {
    // The entries within two bounds.
    fn between<P: RadixQuery<K>, Q: RadixQuery<K>>(
        &self,
        start: Bound<P>,
        end: Bound<Q>,
    ) -> Iter<'_, K, V>
        ensures within { result ≡ filter
            (λ entry. is_from P.compare start entry.0 && not (is_past Q.compare end entry.0)) self.now }
        ensures part { IsPartOf self.now result }
        ensures ordered { IsOrdered K.cmp self.now }
    {
        entries_within(&self.head, &self.tree, start, end)
    }

    /// The entries whose keys are within a range of keys, as `low..high` or `..=high`, or a pair of
    /// [`Bound`]s. In ascending order, and from the back in descending order. There are none where the start is
    /// above the end.
    ///
    /// Goes down the tree to the page of each end; then each entry takes constant time. Takes no memory. Of a
    /// range type whose impl says nothing of its bounds, only that the entries stand next to each other is
    /// known.
    pub fn range<R: RangeBounds<K> + Drop>(&self, range: R) -> Iter<'_, K, V>
        ensures between { R.has_bounds range →
            result ≡ entries_between K.cmp (R.start_bound range) (R.end_bound range) self.now }
        ensures contiguous { IsPartOf self.now result }
        ensures ordered { IsOrdered K.cmp self.now }
    {
        self.between(range.start_bound(), range.end_bound())
    }

    /// As [`range`](Self::range), of a range of borrowed forms of keys: `"a".."f"` where keys are `String`,
    /// `(&7, "a")..` where they are `(u32, String)`. Takes no memory.
    pub fn within<Q: RadixQuery<K>, R: RangeBounds<Q> + Drop>(&self, range: R) -> Iter<'_, K, V>
        ensures between { R.has_bounds range →
            result ≡ entries_within Q.compare (R.start_bound range) (R.end_bound range) self.now }
        ensures contiguous { IsPartOf self.now result }
        ensures ordered { IsOrdered K.cmp self.now }
    {
        self.between(copy_of(range.start_bound()), copy_of(range.end_bound()))
    }

    /// The entries whose keys begin with a prefix: `"ti"` where keys are strings, `(&7,)` where they are
    /// tuples with this first part, `Prefix((&7, "ti"))` where their second part begins so. In ascending order,
    /// and from the back in descending order.
    ///
    /// Costs as much as a [`range`](Self::range). Takes no memory.
    pub fn prefix<P: PrefixQuery<K>>(&self, prefix: P) -> Iter<'_, K, V>
        ensures begun { result ≡ filter (λ entry. P.begins prefix entry.0) self.now }
        ensures contiguous { IsPartOf self.now result }
        ensures ordered { IsOrdered K.cmp self.now }
    {
        let start = PrefixBound {
            prefix,
            edge: Edge::Lowest,
        };
        let end = PrefixBound {
            prefix,
            edge: Edge::Highest,
        };
        self.between(Bound::Included(start), Bound::Excluded(end))
    }
}

// The same bound, without the reference.
fn copy_of<Q: Copy>(bound: Bound<&Q>) -> Bound<Q>
    ensures { result ≡ bound_map (λ query. query.now) bound.entry }
{
    match bound {
        Bound::Included(query) => Bound::Included(*query),
        Bound::Excluded(query) => Bound::Excluded(*query),
        Bound::Unbounded => Bound::Unbounded,
    }
}
