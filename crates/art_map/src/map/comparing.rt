//! Maps compared and hashed entry by entry, in their order.
ghost use Rattle.std.specs.Prelude.{◌≡◌, ◌&&◌, ◌++◌};
ghost use Rattle.std.specs.Hash as fed;
ghost use Rattle.std.specs.List.{flat_map, fold};
ghost use Rattle.std.specs.Cmp.Lexicographic.{pointwise, slice_cmp, slice_partial_cmp, lists_equiv, lists_agrees, lists_total, lists_ties, lists_per, lists_po};
ghost use Rattle.std.specs.Cmp.{on_equiv, and_equiv, then_agrees, on_total, then_total, both_tied, on_per, and_per, on_po, then_po};
ghost use Rattle.std.specs.Ordering.{ordering_then, partial_ordering_then};
ghost use Rattle.std.specs.Hash.{on_Alike, and-Alike, items_Alike};

use super::Map;
use crate::iter::Iter;
use art_keys::RadixKey;
use std::cmp::Ordering;
use std::hash::{Hash, Hasher};

// Whether the entries are equal one by one, and as many.
fn are_same<K: RadixKey, V: PartialEq>(mut left: Iter<'_, K, V>, mut right: Iter<'_, K, V>) -> bool
    ensures { result ≡ pointwise (λ p q. K.eq p.0 q.0 && V.eq p.1 q.1) left.entry right.entry }
{
    'each: while let Some((key, value)) = left.next() {
        let Some((other_key, other_value)) = right.next() else {
            return false;
        };
        if !(key == other_key && value == other_value) {
            return false;
        }
    }
    right.next().is_none()
}

// How one entry compares with another: by key, and then by value.
fn partial_order_of_two<K: PartialOrd, V: PartialOrd>(
    key: &K,
    value: &V,
    other_key: &K,
    other_value: &V,
) -> Option<Ordering>
    ensures { result ≡ partial_ordering_then (K.partial_cmp key.now other_key.now)
        (V.partial_cmp value.now other_value.now) }
{
    match key.partial_cmp(other_key) {
        Some(Ordering::Equal) => value.partial_cmp(other_value),
        decided => decided,
    }
}

// How the entries compare: the first two that differ decide, and a map that ends before is less.
fn partial_order_of<K: RadixKey, V: PartialOrd>(
    mut left: Iter<'_, K, V>,
    mut right: Iter<'_, K, V>,
) -> Option<Ordering>
    ensures { result ≡ slice_partial_cmp
        (λ p q. partial_ordering_then (K.partial_cmp p.0 q.0) (V.partial_cmp p.1 q.1)) left.entry right.entry }
{
    'each: while let Some((key, value)) = left.next() {
        let Some((other_key, other_value)) = right.next() else {
            return Some(Ordering::Greater);
        };
        match partial_order_of_two(key, value, other_key, other_value) {
            Some(Ordering::Equal) => {}
            decided => return decided,
        }
    }
    match right.next() {
        Some(_) => Some(Ordering::Less),
        None => Some(Ordering::Equal),
    }
}

// How one entry compares with another: by key, and then by value.
fn order_of_two<K: Ord, V: Ord>(key: &K, value: &V, other_key: &K, other_value: &V) -> Ordering
    ensures { result ≡ ordering_then (K.cmp key.now other_key.now) (V.cmp value.now other_value.now) }
{
    match key.cmp(other_key) {
        Ordering::Equal => value.cmp(other_value),
        decided => decided,
    }
}

// How the entries compare: the first two that differ decide, and a map that ends before is less.
fn order_of<K: RadixKey, V: Ord>(mut left: Iter<'_, K, V>, mut right: Iter<'_, K, V>) -> Ordering
    ensures { result ≡ slice_cmp (λ p q. ordering_then (K.cmp p.0 q.0) (V.cmp p.1 q.1)) left.entry right.entry }
{
    'each: while let Some((key, value)) = left.next() {
        let Some((other_key, other_value)) = right.next() else {
            return Ordering::Greater;
        };
        match order_of_two(key, value, other_key, other_value) {
            Ordering::Equal => {}
            decided => return decided,
        }
    }
    match right.next() {
        Some(_) => Ordering::Less,
        None => Ordering::Equal,
    }
}

/// Equal keys and equal values, one by one. Compares the numbers of entries first.
impl<K: RadixKey, V: PartialEq> PartialEq for Map<K, V> {
    ghost eq = { pointwise (λ p q. K.eq p.0 q.0 && V.eq p.1 q.1) };

    ghost laws = { lists_per (and_per (on_per (λ p. p.0) K.PartialEq.laws) (on_per (λ p. p.1) V.laws)) };

    fn eq(&self, other: &Self) -> bool {
        self.len() == other.len() && are_same(self.iter(), other.iter())
    }
}

impl<K: RadixKey, V: Eq> Eq for Map<K, V> {
    ghost laws = { lists_equiv (and_equiv (on_equiv (λ p. p.0) K.Eq.laws) (on_equiv (λ p. p.1) V.Eq.laws)) };
}

/// The first two entries that differ decide, by their keys and then by their values, and a map that ends
/// before the other is less.
impl<K: RadixKey, V: PartialOrd> PartialOrd for Map<K, V> {
    ghost partial_cmp = { slice_partial_cmp
        (λ p q. partial_ordering_then (K.partial_cmp p.0 q.0) (V.partial_cmp p.1 q.1)) };

    ghost laws = { lists_po (then_po (on_po (λ p. p.0) K.PartialOrd.laws) (on_po (λ p. p.1) V.PartialOrd.laws)) };

    fn partial_cmp(&self, other: &Self) -> Option<Ordering> {
        partial_order_of(self.iter(), other.iter())
    }
}

/// As [`PartialOrd`].
impl<K: RadixKey, V: Ord> Ord for Map<K, V> {
    ghost cmp = { slice_cmp (λ p q. ordering_then (K.cmp p.0 q.0) (V.cmp p.1 q.1)) };

    ghost total = { lists_total (then_total (on_total (λ p. p.0) K.total) (on_total (λ p. p.1) V.total)) };

    ghost matches_partial_cmp = { λ x y. lists_agrees
        (then_agrees (λ p q. K.matches_partial_cmp p.0 q.0) (λ p q. V.matches_partial_cmp p.1 q.1)) x y };

    ghost matches_eq = { λ x y.
        let of_keys = K.cmp in
        let of_values = V.cmp in
        lists_ties (λ p q. ordering_then (of_keys p.0 q.0) (of_values p.1 q.1))
        (λ p q. both_tied _ _ (of_keys p.0 q.0) (of_values p.1 q.1) (K.matches_eq p.0 q.0) (V.matches_eq p.1 q.1)) x y };

    fn cmp(&self, other: &Self) -> Ordering {
        order_of(self.iter(), other.iter())
    }
}

// Feeds the entries to a hasher, each key and then its value.
fn feed<K: RadixKey + Hash, V: Hash, H: Hasher>(mut entries: Iter<'_, K, V>, state: &mut H)
    ensures { state.new ≡ fold H.write state.old
        (flat_map (λ p. K.hash_input p.0 ++ V.hash_input p.1) entries.entry) }
{
    'each: while let Some((key, value)) = entries.next() {
        key.hash(state);
        value.hash(state);
    }
}

/// The number of entries, and then each key and its value, in order.
impl<K: RadixKey + Hash, V: Hash> Hash for Map<K, V> {
    ghost hash_input = { fed.slice (λ p. K.hash_input p.0 ++ V.hash_input p.1) };

    ghost respects_eq = { (items_Alike (and-Alike (on_Alike (λ p. p.0) (record { fed = K.respects_eq }))
        (on_Alike (λ p. p.1) (record { fed = V.respects_eq })))).fed };

    fn hash<H: Hasher>(&self, state: &mut H) {
        self.len().hash(state);
        feed(self.iter(), state);
    }
}
