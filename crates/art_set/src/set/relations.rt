//! Two sets compared: whether one has the keys of the other, and key by key in their order.
ghost use Rattle.std.specs.Prelude.{All, ◌≡◌, ◌↔◌, false, IsTrue};
ghost use Rattle.std.specs.Cmp.Lexicographic.{pointwise, slice_cmp, slice_partial_cmp, lists_equiv, lists_agrees, lists_total, lists_ties, lists_per, lists_po};
ghost use Rattle.std.specs.Hash.{items_Alike};
ghost use Rattle.std.specs.Hash as fed;
ghost use Rattle.art_set.specs.KeyLists.{contains_by};

use super::Set;
use art_keys::RadixKey;
use std::cmp::Ordering;
use std::hash::{Hash, Hasher};

impl<K: RadixKey> Set<K> {
    /// Whether the other set has each key of this one. Compares the numbers of keys first, and then looks
    /// each key of this set up in the other. Takes no memory.
    pub fn is_subset(&self, other: &Self) -> bool
        ensures { IsTrue result ↔ All (λ key. IsTrue (contains_by (K.cmp key) other.now)) self.now }
    {
        if self.len() > other.len() {
            return false;
        }
        let mut keys = self.iter();
        'each: while let Some(key) = keys.next() {
            if !other.contains(key) {
                return false;
            }
        }
        true
    }

    /// Whether this set has each key of the other one. Costs as much as [`is_subset`](Self::is_subset) of
    /// the other set. Takes no memory.
    pub fn is_superset(&self, other: &Self) -> bool
        ensures { IsTrue result ↔ All (λ key. IsTrue (contains_by (K.cmp key) self.now)) other.now }
    {
        other.is_subset(self)
    }

    /// Whether the other set has no key of this one. Looks each key of the set with fewer keys up in the
    /// other. Takes no memory.
    pub fn is_disjoint(&self, other: &Self) -> bool
        ensures { IsTrue result ↔ All (λ key. contains_by (K.cmp key) other.now ≡ false) self.now }
    {
        if self.len() <= other.len() {
            self.shares_none(other)
        } else {
            other.shares_none(self)
        }
    }

    // Whether the other set has no key of this one.
    fn shares_none(&self, other: &Self) -> bool
        ensures { IsTrue result ↔ All (λ key. contains_by (K.cmp key) other.now ≡ false) self.now }
    {
        let mut keys = self.iter();
        'each: while let Some(key) = keys.next() {
            if other.contains(key) {
                return false;
            }
        }
        true
    }
}

/// Equal keys, one by one. Compares the numbers of keys first.
impl<K: RadixKey> PartialEq for Set<K> {
    ghost eq = { pointwise K.eq };

    ghost laws = { lists_per K.PartialEq.laws };

    fn eq(&self, other: &Self) -> bool {
        self.entries == other.entries
    }
}

impl<K: RadixKey> Eq for Set<K> {
    ghost laws = { lists_equiv K.Eq.laws };
}

/// The first two keys that differ decide, and a set that ends before the other is less.
impl<K: RadixKey> PartialOrd for Set<K> {
    ghost partial_cmp = { slice_partial_cmp K.partial_cmp };

    ghost laws = { lists_po K.PartialOrd.laws };

    fn partial_cmp(&self, other: &Self) -> Option<Ordering> {
        self.entries.partial_cmp(&other.entries)
    }
}

/// As [`PartialOrd`].
impl<K: RadixKey> Ord for Set<K> {
    ghost cmp = { slice_cmp K.cmp };

    ghost total = { lists_total K.total };

    ghost matches_partial_cmp = { λ x y. lists_agrees K.matches_partial_cmp x y };

    ghost matches_eq = { λ x y. lists_ties K.cmp K.matches_eq x y };

    fn cmp(&self, other: &Self) -> Ordering {
        self.entries.cmp(&other.entries)
    }
}

/// The number of keys, and then the keys in order.
impl<K: RadixKey + Hash> Hash for Set<K> {
    ghost hash_input = { fed.slice K.hash_input };

    ghost respects_eq = { (items_Alike (record { fed = K.respects_eq })).fed };

    fn hash<H: Hasher>(&self, state: &mut H) {
        self.entries.hash(state);
    }
}
