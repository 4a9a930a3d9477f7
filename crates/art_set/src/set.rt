//! The set.
ghost use Rattle.std.specs.Prelude.{◌≡◌, ◌↔◌, [], length, IsTrue};
ghost use Rattle.std.specs.List.Sorted.{IsStrictlySortedBy};

mod end_keys;
mod key_changes;
mod key_ranges;
mod many_keys;
mod merging;
mod reading_keys;
mod relations;

use art_keys::{KeyBytes, RadixKey};
use art_map::Map;
pub use merging::Merged;
use std::alloc::Global;
use std::marker::Model;

/// An ordered set: the list of its keys, in ascending order.
#[derive(Drop)]
pub struct Set<K: KeyBytes> {
    entries: Map<K, ()>,
}

impl<K: KeyBytes> Model for Set<K> {
    ghost use Rattle.std.specs.Prelude.{List};
    ghost use Rattle.std.specs.Map.{keys_of};

    ghost Value = { List K };

    ghost view = { λ set. keys_of set.entries };
}

impl<K: RadixKey> Set<K> {
    /// A set with no keys. It takes no memory.
    pub fn new(alloc: Global) -> Self
        ensures { result ≡ [] }
    {
        Set {
            entries: Map::new(alloc),
        }
    }

    /// How many keys the set has.
    pub fn len(&self) -> usize
        ensures len { result ≡ length self.now }
        ensures ordered { IsStrictlySortedBy K.cmp self.now }
    {
        self.entries.len()
    }

    /// Whether the set has no keys.
    pub fn is_empty(&self) -> bool
        ensures { IsTrue result ↔ (self.now ≡ []) }
    {
        self.len() == 0
    }
}
