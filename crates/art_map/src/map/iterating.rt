//! All entries in order, and those at both ends.
ghost use Rattle.std.specs.Prelude.{All, ◌≡◌, ◌-◌, [], false, length, map, slice_get, IfNone, IfSome, Some};
ghost use Rattle.std.specs.Option.{option_map};
ghost use Rattle.std.specs.Ordering.{is_gt, is_lt};
ghost use Rattle.art_pages.specs.Entries.{IsOrdered, get_by};
ghost use Rattle.art_map.specs.KeyBounds.{IsLowerBound, IsUpperBound};

use super::Map;
use crate::iter::{Iter, entries_of_run};
use crate::keys::{Keys, Values, keys_of, values_of};
use crate::runs::whole_run;
use art_keys::RadixKey;

impl<K: RadixKey, V> Map<K, V> {
    /// The entries, in ascending order of their keys, and from the back in descending order.
    pub fn iter(&self) -> Iter<'_, K, V>
        ensures entries { result ≡ self.now }
        ensures ordered { IsOrdered K.cmp self.now }
    {
        entries_of_run(self.head.entries(), whole_run(&self.tree), &[])
    }

    /// The keys, in ascending order, and from the back in descending order.
    pub fn keys(&self) -> Keys<'_, K, V>
        ensures { result ≡ map (λ entry. entry.0) self.now }
    {
        keys_of(self.iter())
    }

    /// The values, in ascending order of their keys, and from the back in descending order.
    pub fn values(&self) -> Values<'_, K, V>
        ensures { result ≡ map (λ entry. entry.1) self.now }
    {
        values_of(self.iter())
    }

    /// The entry with the least key.
    pub fn first_key_value(&self) -> Option<(&K, &V)>
        ensures first { option_map (λ entry. (entry.0.now, entry.1.now)) result ≡ slice_get self.now 0 }
        ensures value { IfSome result (λ entry. get_by (K.cmp entry.0.now) self.now ≡ Some entry.1.now) }
        ensures least { IfSome result (λ entry. IsLowerBound K.cmp self.now entry.0.now) }
        ensures all_from { IfSome result
            (λ entry. All (λ other. is_gt (K.cmp entry.0.now other.0) ≡ false) self.now) }
        ensures none { IfNone result (self.now ≡ []) }
        ensures ordered { IsOrdered K.cmp self.now }
    {
        self.iter().next()
    }

    /// The entry with the greatest key.
    pub fn last_key_value(&self) -> Option<(&K, &V)>
        ensures last { option_map (λ entry. (entry.0.now, entry.1.now)) result
            ≡ slice_get self.now (length self.now - 1) }
        ensures value { IfSome result (λ entry. get_by (K.cmp entry.0.now) self.now ≡ Some entry.1.now) }
        ensures greatest { IfSome result (λ entry. IsUpperBound K.cmp self.now entry.0.now) }
        ensures all_up_to { IfSome result
            (λ entry. All (λ other. is_lt (K.cmp entry.0.now other.0) ≡ false) self.now) }
        ensures none { IfNone result (self.now ≡ []) }
        ensures ordered { IsOrdered K.cmp self.now }
    {
        self.iter().next_back()
    }
}

impl<'a, K: RadixKey, V> Iter<'a, K, V> {
    /// The keys of the entries that are left, from both ends.
    pub fn keys(self) -> Keys<'a, K, V>
        ensures { result ≡ map (λ entry. entry.0) self.entry }
    {
        keys_of(self)
    }

    /// The values of the entries that are left, from both ends.
    pub fn values(self) -> Values<'a, K, V>
        ensures { result ≡ map (λ entry. entry.1) self.entry }
    {
        values_of(self)
    }
}

impl<'a, K: RadixKey, V> IntoIterator for &'a Map<K, V> {
    type Item = (&'a K, &'a V);

    type IntoIter = Iter<'a, K, V>;

    ghost into_iter_gives = { λ map entries. entries ≡ map.now };

    /// As [`iter`](Map::iter).
    fn into_iter(self) -> Iter<'a, K, V> {
        self.iter()
    }
}
