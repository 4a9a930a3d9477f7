//! The keys and the values of the entries of a map, in order.
ghost use Rattle.std.specs.Prelude.{◌≡◌, map, ⊤};
ghost use Rattle.std.specs.Iterator.{YieldsFirstBy, YieldsLastBy, item_count};

use crate::iter::Iter;
use art_keys::{KeyBytes, RadixKey};
use std::alloc::AllocError;
use std::iter::FusedIterator;
use std::marker::Model;

/// The keys of a map, in ascending order. Contracts see the list of those that are left.
#[derive(Drop)]
pub struct Keys<'a, K: KeyBytes, V> {
    entries: Iter<'a, K, V>,
}

impl<'a, K: KeyBytes, V> Model for Keys<'a, K, V> {
    ghost use Rattle.std.specs.Prelude.{List, map};

    ghost Value = { List K };

    ghost view = { λ keys. map (λ entry. entry.0) keys.entries };
}

impl<'a, K: RadixKey, V> Iterator for Keys<'a, K, V> {
    type Item = &'a K;

    ghost next_gives = { YieldsFirstBy (λ item. item.now) (λ rest. rest) };

    ghost remaining = { item_count (λ rest. rest) };

    fn next(&mut self) -> Option<&'a K> {
        match self.entries.next() {
            Some((key, _)) => Some(key),
            None => None,
        }
    }

    // Written out: the trait's own body gets no proof where the item lacks a type of the iterator.
    fn size_hint(&self) -> (usize, Option<usize>) {
        (0, None)
    }
}

impl<'a, K: RadixKey, V> DoubleEndedIterator for Keys<'a, K, V> {
    ghost next_back_gives = { YieldsLastBy (λ item. item.now) (λ rest. rest) };

    fn next_back(&mut self) -> Option<&'a K> {
        match self.entries.next_back() {
            Some((key, _)) => Some(key),
            None => None,
        }
    }
}

impl<'a, K: RadixKey, V> FusedIterator for Keys<'a, K, V> {}

/// Another iterator over the keys that are left. Takes no memory and never fails.
impl<'a, K: KeyBytes, V> Clone for Keys<'a, K, V> {
    ghost is_clone = { λ keys copy. copy ≡ keys };

    ghost is_infallible = { λ _. ⊤ };

    fn clone(&self) -> Result<Keys<'a, K, V>, AllocError> {
        let entries = self.entries.clone()?;
        Ok(Keys { entries })
    }
}

/// The values of a map, in ascending order of their keys. Contracts see the list of
/// those that are left.
#[derive(Drop)]
pub struct Values<'a, K: KeyBytes, V> {
    entries: Iter<'a, K, V>,
}

impl<'a, K: KeyBytes, V> Model for Values<'a, K, V> {
    ghost use Rattle.std.specs.Prelude.{List, map};

    ghost Value = { List V };

    ghost view = { λ values. map (λ entry. entry.1) values.entries };
}

impl<'a, K: RadixKey, V> Iterator for Values<'a, K, V> {
    type Item = &'a V;

    ghost next_gives = { YieldsFirstBy (λ item. item.now) (λ rest. rest) };

    ghost remaining = { item_count (λ rest. rest) };

    fn next(&mut self) -> Option<&'a V> {
        match self.entries.next() {
            Some((_, value)) => Some(value),
            None => None,
        }
    }

    // Written out: the trait's own body gets no proof where the item lacks a type of the iterator.
    fn size_hint(&self) -> (usize, Option<usize>) {
        (0, None)
    }
}

impl<'a, K: RadixKey, V> DoubleEndedIterator for Values<'a, K, V> {
    ghost next_back_gives = { YieldsLastBy (λ item. item.now) (λ rest. rest) };

    fn next_back(&mut self) -> Option<&'a V> {
        match self.entries.next_back() {
            Some((_, value)) => Some(value),
            None => None,
        }
    }
}

impl<'a, K: RadixKey, V> FusedIterator for Values<'a, K, V> {}

/// Another iterator over the values that are left. Takes no memory and never fails.
impl<'a, K: KeyBytes, V> Clone for Values<'a, K, V> {
    ghost is_clone = { λ values copy. copy ≡ values };

    ghost is_infallible = { λ _. ⊤ };

    fn clone(&self) -> Result<Values<'a, K, V>, AllocError> {
        let entries = self.entries.clone()?;
        Ok(Values { entries })
    }
}

/// The keys of these entries.
pub(crate) fn keys_of<'a, K: KeyBytes, V>(entries: Iter<'a, K, V>) -> Keys<'a, K, V>
    ensures { result ≡ map (λ entry. entry.0) entries.entry }
{
    Keys { entries }
}

/// The values of these entries.
pub(crate) fn values_of<'a, K: KeyBytes, V>(entries: Iter<'a, K, V>) -> Values<'a, K, V>
    ensures { result ≡ map (λ entry. entry.1) entries.entry }
{
    Values { entries }
}
