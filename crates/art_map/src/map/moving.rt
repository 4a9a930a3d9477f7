//! Entries moved: out of a map one by one, by value, and from one map into another.
ghost use Rattle.std.specs.Prelude.{◌≡◌, ◌∷◌, ◌++◌, [], List, None, map, IfErr, OnErr, OnOk};
ghost use Rattle.art_pages.specs.Entries.{IsOrdered, get_by};
ghost use Rattle.art_map.specs.Inserts.{insert_all};
ghost use Rattle.art_map.specs.declared.fault.InsertRefusal.TheVariants.{OutOfMemory};

use super::Map;
use crate::fault::InsertFault;
use crate::first_page::take_page;
use crate::into_iter::{IntoIter, IntoKeys, IntoValues, entries_taken, keys_taken, values_taken};
use art_keys::RadixKey;
use std::mem;

impl<K: RadixKey, V> Map<K, V> {
    // Takes the entries of the first page that has any out of the map. Where there is none, it is empty.
    pub(crate) fn take_first_page(&mut self) -> Vec<(K, V)>
        ensures first { self.old ≡ result.items ++ self.new }
        ensures none { result.items ≡ [] → self.new ≡ [] }
    {
        let first = take_page(&mut self.head, &mut self.tree, self.alloc);
        self.len -= first.len();
        first
    }
}

impl<K: RadixKey + Drop, V: Drop> Map<K, V> {
    /// The keys themselves, in ascending order, and from the back in descending order. Costs as much as
    /// [`into_iter`](Self::into_iter).
    pub fn into_keys(self) -> IntoKeys<K, V>
        ensures { result ≡ map (λ entry. entry.0) self }
    {
        keys_taken(self.into_iter())
    }

    /// The values themselves, in ascending order of their keys, and from the back in descending order.
    /// Costs as much as [`into_iter`](Self::into_iter).
    pub fn into_values(self) -> IntoValues<K, V>
        ensures { result ≡ map (λ entry. entry.1) self }
    {
        values_taken(self.into_iter())
    }

    /// Moves all entries of another map into this one, each as [`insert`](Self::insert) does: a key that is
    /// there stays, and takes the value of the other map. The other map is left empty.
    ///
    /// Stops where memory is refused, and returns the entry that had no room: those before it are in this
    /// map, and those behind it still in the other. Costs an insert and a [`pop_first`](Self::pop_first) for
    /// each entry that moves, and nothing where this map is empty.
    pub fn append(&mut self, other: &mut Self) -> Result<(), InsertFault<K, V>>
        ensures all { OnOk result (self.new ≡ insert_all K.cmp self.old other.old) }
        ensures emptied { OnOk result (other.new ≡ []) }
        ensures stopped { IfErr result (λ fault. (moved : List (K × V))
            × (other.old ≡ moved ++ (fault.key, fault.value) ∷ other.new)
            × (self.new ≡ insert_all K.cmp self.old moved)) }
        ensures refusal { IfErr result (λ fault. fault.refusal ≡ OutOfMemory) }
        ensures absent { IfErr result (λ fault. get_by (K.cmp fault.key) self.new ≡ None) }
        ensures ordered { IsOrdered K.cmp self.new }
        ensures other_ordered { IsOrdered K.cmp other.new }
    {
        // So that the entries are known to be in order, with keys that are not too long.
        let _len = &self.len;
        let _other_len = &other.len;
        if self.is_empty() {
            mem::swap(self, other);
            return Ok(());
        }
        'each: while let Some((key, value)) = other.pop_first() {
            match self.insert(key, value) {
                Ok(_) => {}
                Err(fault) => return Err(fault),
            }
        }
        Ok(())
    }
}

impl<K: RadixKey + Drop, V: Drop> IntoIterator for Map<K, V> {
    type Item = (K, V);

    type IntoIter = IntoIter<K, V>;

    ghost into_iter_gives = { λ map entries. entries ≡ map };

    /// The entries themselves, in ascending order of their keys, and from the back in descending order.
    /// Takes no memory, and is never refused. From the front an entry costs constant time, and each page a
    /// search more; from the back each entry costs as much as [`pop_last`](Map::pop_last).
    fn into_iter(self) -> IntoIter<K, V> {
        let _len = self.len();
        entries_taken(Vec::new(self.alloc), self)
    }
}
