//! Keys looked up, and all of them in order.
ghost use Rattle.std.specs.Prelude.{All, ◌≡◌, ◌-◌, [], false, length, slice_get, is_some, IfNone, IfSome, IsTrue};
ghost use Rattle.std.specs.Option.{option_copied};
ghost use Rattle.std.specs.Ordering.{is_gt, is_lt};
ghost use Rattle.std.specs.List.Sorted.{IsStrictlySortedBy};
ghost use Rattle.std.specs.declared.cmp.Ordering.TheVariants.{Equal};
ghost use Rattle.art_set.specs.KeyLists.{IsLowerKeyBound, IsUpperKeyBound, contains_by, find_by};

use super::Set;
use art_keys::{RadixKey, RadixQuery};
use art_map::Keys;

impl<K: RadixKey> Set<K> {
    /// Whether the set has the key of a query.
    pub fn contains<Q: RadixQuery<K>>(&self, key: Q) -> bool
        ensures { result ≡ contains_by (Q.compare key) self.now }
    {
        self.entries.contains_key(key)
    }

    /// The key of the set that a query asks for.
    pub fn get<Q: RadixQuery<K>>(&self, key: Q) -> Option<&K>
        ensures key { option_copied result ≡ find_by (Q.compare key) self.now }
        ensures same_key { IfSome result (λ found. Q.compare key found.now ≡ Equal) }
        ensures variant { is_some result ≡ contains_by (Q.compare key) self.now }
    {
        match self.entries.get_key_value(key) {
            Some((key, _)) => Some(key),
            None => None,
        }
    }

    /// The keys, in ascending order, and from the back in descending order.
    pub fn iter(&self) -> Keys<'_, K, ()>
        ensures keys { result ≡ self.now }
        ensures found { All (λ key. IsTrue (contains_by (K.cmp key) self.now)) self.now }
        ensures ordered { IsStrictlySortedBy K.cmp self.now }
    {
        // So that the keys are known to be in order.
        let _len = self.len();
        self.entries.keys()
    }

    /// The least key.
    pub fn first(&self) -> Option<&K>
        ensures first { option_copied result ≡ slice_get self.now 0 }
        ensures member { IfSome result (λ key. IsTrue (contains_by (K.cmp key.now) self.now)) }
        ensures least { IfSome result (λ key. IsLowerKeyBound K.cmp self.now key.now) }
        ensures all_from { IfSome result
            (λ key. All (λ other. is_gt (K.cmp key.now other) ≡ false) self.now) }
        ensures none { IfNone result (self.now ≡ []) }
        ensures ordered { IsStrictlySortedBy K.cmp self.now }
    {
        self.iter().next()
    }

    /// The greatest key.
    pub fn last(&self) -> Option<&K>
        ensures last { option_copied result ≡ slice_get self.now (length self.now - 1) }
        ensures member { IfSome result (λ key. IsTrue (contains_by (K.cmp key.now) self.now)) }
        ensures greatest { IfSome result (λ key. IsUpperKeyBound K.cmp self.now key.now) }
        ensures all_up_to { IfSome result
            (λ key. All (λ other. is_lt (K.cmp key.now other) ≡ false) self.now) }
        ensures none { IfNone result (self.now ≡ []) }
        ensures ordered { IsStrictlySortedBy K.cmp self.now }
    {
        self.iter().next_back()
    }
}

impl<'a, K: RadixKey> IntoIterator for &'a Set<K> {
    type Item = &'a K;

    type IntoIter = Keys<'a, K, ()>;

    ghost into_iter_gives = { λ set keys. keys ≡ set.now };

    /// As [`iter`](Set::iter).
    fn into_iter(self) -> Keys<'a, K, ()> {
        self.iter()
    }
}
