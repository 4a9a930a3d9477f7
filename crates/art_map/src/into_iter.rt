//! The entries of a map that is taken apart, one by one. A page is taken out of it at a time.
ghost use Rattle.std.specs.Prelude.{◌≡◌, ◌+◌, ◌^◌, ◌<◌, ◌++◌, length, map};
ghost use Rattle.std.specs.Iterator.{YieldsFirst, YieldsLast, item_count};

use crate::map::Map;
use art_keys::{KeyBytes, RadixKey};
use std::iter::FusedIterator;
use std::marker::Model;
use std::vec;

/// The entries of a map that was taken apart, in ascending order of their keys, and from the back in
/// descending order. Contracts see the list of those that are left. What is left is freed when the
/// iterator is dropped.
#[derive(Drop)]
pub struct IntoIter<K: KeyBytes, V> {
    // What is left of the page that was taken out last.
    first: vec::IntoIter<(K, V)>,
    rest: Map<K, V>,
}

impl<K: KeyBytes, V> Model for IntoIter<K, V> {
    ghost use Rattle.std.specs.Prelude.{◌^◌, ◌<◌, ◌++◌, List, length};
    ghost use Rattle.std.specs.Vec.Iter.{into_iter_items};

    ghost Value = { List (K × V) };

    ghost view = { λ it. into_iter_items it.first ++ it.rest };

    ghost invariant = { λ it. length (into_iter_items it.first ++ it.rest) < 2 ^ 64 };
}

impl<K: RadixKey + Drop, V: Drop> Iterator for IntoIter<K, V> {
    type Item = (K, V);

    ghost next_gives = { YieldsFirst (λ rest. rest) };

    ghost remaining = { item_count (λ rest. rest) };

    fn next(&mut self) -> Option<(K, V)> {
        if let Some(entry) = self.first.next() {
            return Some(entry);
        }
        self.first = self.rest.take_first_page().into_iter();
        self.first.next()
    }

    fn size_hint(&self) -> (usize, Option<usize>) {
        let len = self.len();
        (len, Some(len))
    }
}

impl<K: RadixKey + Drop, V: Drop> DoubleEndedIterator for IntoIter<K, V> {
    ghost next_back_gives = { YieldsLast (λ rest. rest) };

    fn next_back(&mut self) -> Option<(K, V)> {
        match self.rest.pop_last() {
            Some(entry) => Some(entry),
            None => self.first.next_back(),
        }
    }
}

impl<K: RadixKey + Drop, V: Drop> FusedIterator for IntoIter<K, V> {}

impl<K: RadixKey + Drop, V: Drop> ExactSizeIterator for IntoIter<K, V> {
    fn len(&self) -> usize {
        self.first.len() + self.rest.len()
    }
}

/// The keys of a map that was taken apart, in ascending order, and from the back in descending order.
/// Contracts see the list of those that are left.
#[derive(Drop)]
pub struct IntoKeys<K: KeyBytes, V> {
    entries: IntoIter<K, V>,
}

impl<K: KeyBytes, V> Model for IntoKeys<K, V> {
    ghost use Rattle.std.specs.Prelude.{List, map};

    ghost Value = { List K };

    ghost view = { λ keys. map (λ entry. entry.0) keys.entries };
}

impl<K: RadixKey + Drop, V: Drop> Iterator for IntoKeys<K, V> {
    type Item = K;

    ghost next_gives = { YieldsFirst (λ rest. rest) };

    ghost remaining = { item_count (λ rest. rest) };

    fn next(&mut self) -> Option<K> {
        match self.entries.next() {
            Some((key, _)) => Some(key),
            None => None,
        }
    }

    fn size_hint(&self) -> (usize, Option<usize>) {
        let len = self.len();
        (len, Some(len))
    }
}

impl<K: RadixKey + Drop, V: Drop> DoubleEndedIterator for IntoKeys<K, V> {
    ghost next_back_gives = { YieldsLast (λ rest. rest) };

    fn next_back(&mut self) -> Option<K> {
        match self.entries.next_back() {
            Some((key, _)) => Some(key),
            None => None,
        }
    }
}

impl<K: RadixKey + Drop, V: Drop> FusedIterator for IntoKeys<K, V> {}

impl<K: RadixKey + Drop, V: Drop> ExactSizeIterator for IntoKeys<K, V> {
    fn len(&self) -> usize {
        self.entries.len()
    }
}

/// The values of a map that was taken apart, in ascending order of their keys, and from the back in
/// descending order. Contracts see the list of those that are left.
#[derive(Drop)]
pub struct IntoValues<K: KeyBytes, V> {
    entries: IntoIter<K, V>,
}

impl<K: KeyBytes, V> Model for IntoValues<K, V> {
    ghost use Rattle.std.specs.Prelude.{List, map};

    ghost Value = { List V };

    ghost view = { λ values. map (λ entry. entry.1) values.entries };
}

impl<K: RadixKey + Drop, V: Drop> Iterator for IntoValues<K, V> {
    type Item = V;

    ghost next_gives = { YieldsFirst (λ rest. rest) };

    ghost remaining = { item_count (λ rest. rest) };

    fn next(&mut self) -> Option<V> {
        match self.entries.next() {
            Some((_, value)) => Some(value),
            None => None,
        }
    }

    fn size_hint(&self) -> (usize, Option<usize>) {
        let len = self.len();
        (len, Some(len))
    }
}

impl<K: RadixKey + Drop, V: Drop> DoubleEndedIterator for IntoValues<K, V> {
    ghost next_back_gives = { YieldsLast (λ rest. rest) };

    fn next_back(&mut self) -> Option<V> {
        match self.entries.next_back() {
            Some((_, value)) => Some(value),
            None => None,
        }
    }
}

impl<K: RadixKey + Drop, V: Drop> FusedIterator for IntoValues<K, V> {}

impl<K: RadixKey + Drop, V: Drop> ExactSizeIterator for IntoValues<K, V> {
    fn len(&self) -> usize {
        self.entries.len()
    }
}

/// The entries of a map, of which none is taken yet.
pub(crate) fn entries_taken<K: KeyBytes, V>(first: Vec<(K, V)>, rest: Map<K, V>) -> IntoIter<K, V>
    requires { length (first.items ++ rest) < 2 ^ 64 }
    ensures { result ≡ first.items ++ rest }
{
    IntoIter {
        first: first.into_iter(),
        rest,
    }
}

/// The keys of these entries.
pub(crate) fn keys_taken<K: KeyBytes, V>(entries: IntoIter<K, V>) -> IntoKeys<K, V>
    ensures { result ≡ map (λ entry. entry.0) entries }
{
    IntoKeys { entries }
}

/// The values of these entries.
pub(crate) fn values_taken<K: KeyBytes, V>(entries: IntoIter<K, V>) -> IntoValues<K, V>
    ensures { result ≡ map (λ entry. entry.1) entries }
{
    IntoValues { entries }
}
