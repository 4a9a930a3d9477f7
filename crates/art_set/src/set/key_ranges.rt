//! The keys within bounds.
ghost use Rattle.std.specs.Prelude.{◌≡◌, filter};
ghost use Rattle.std.specs.List.Sorted.{IsStrictlySortedBy};
ghost use Rattle.art_map.specs.Ranges.{IsPartOf};
ghost use Rattle.art_set.specs.KeyLists.{keys_between, keys_within};

use super::Set;
use art_keys::{PrefixQuery, RadixKey, RadixQuery};
use art_map::Keys;
use std::ops::RangeBounds;

impl<K: RadixKey> Set<K> {
    /// The keys within a range of keys, as `low..high` or `..=high`, or a pair of
    /// [`Bound`](std::ops::Bound)s. In ascending order, and from the back in descending order. There are
    /// none where the start is above the end.
    ///
    /// Goes down the tree to the page of each end; then each key takes constant time. Takes no memory. Of a
    /// range type whose impl says nothing of its bounds, only that the keys stand next to each other is
    /// known.
    pub fn range<R: RangeBounds<K> + Drop>(&self, range: R) -> Keys<'_, K, ()>
        ensures between { R.has_bounds range →
            result ≡ keys_between K.cmp (R.start_bound range) (R.end_bound range) self.now }
        ensures contiguous { IsPartOf self.now result }
        ensures ordered { IsStrictlySortedBy K.cmp self.now }
    {
        self.entries.range(range).keys()
    }

    /// As [`range`](Self::range), of a range of borrowed forms of keys: `"a".."f"` where keys are `String`,
    /// `(&7, "a")..` where they are `(u32, String)`. Takes no memory.
    pub fn within<Q: RadixQuery<K>, R: RangeBounds<Q> + Drop>(&self, range: R) -> Keys<'_, K, ()>
        ensures between { R.has_bounds range →
            result ≡ keys_within Q.compare (R.start_bound range) (R.end_bound range) self.now }
        ensures contiguous { IsPartOf self.now result }
        ensures ordered { IsStrictlySortedBy K.cmp self.now }
    {
        self.entries.within(range).keys()
    }

    /// The keys that begin with a prefix: `"ti"` where keys are strings, `(&7,)` where they are tuples with
    /// this first part, `Prefix((&7, "ti"))` where their second part begins so. In ascending order, and from
    /// the back in descending order.
    ///
    /// Costs as much as a [`range`](Self::range). Takes no memory.
    pub fn prefix<P: PrefixQuery<K>>(&self, prefix: P) -> Keys<'_, K, ()>
        ensures begun { result ≡ filter (λ key. P.begins prefix key) self.now }
        ensures contiguous { IsPartOf self.now result }
        ensures ordered { IsStrictlySortedBy K.cmp self.now }
    {
        self.entries.prefix(prefix).keys()
    }
}
