//! Entries added.
ghost use Rattle.std.specs.Prelude.{◌≡◌, ◌+◌, ◌≤◌, ◌^◌, ◌↔◌, None, Some, length, is_some, if◌then◌else◌, IfOk, IfErr, IfNone, IfSome, IsSome, OnOk, OnErr};
ghost use Rattle.std.specs.BTreeMap.{insert_entry, is_at};
ghost use Rattle.std.specs.Map.{set_key};
ghost use Rattle.art_pages.specs.Entries.{AreKeys, IsIndexable, IsOrdered, get_by, get_key_by};
ghost use Rattle.art_map.specs.declared.fault.InsertRefusal.TheVariants.{KeyTooLong};

use super::{FIRST_MOST, MOST, Map};
use crate::fault::{InsertFault, InsertRefusal, TOO_LONG, refuse};
use crate::put::{put, swap};
use crate::room::make_room;
use art_keys::RadixKey;
use std::alloc::AllocError;

impl<K: RadixKey, V> Map<K, V> {
    /// Inserts an entry. Where the key is there, it stays and takes the value, and the old value is
    /// returned.
    ///
    /// Only a key that is not there is refused, and then the entry comes back and the map is as it was:
    /// as too long where its encoding has 2^32 bytes or more, else for memory.
    pub fn insert(&mut self, key: K, value: V) -> Result<Option<V>, InsertFault<K, V>>
    where
        K: Drop,
        V: Drop,
        ensures old { IfOk result (λ old. old ≡ get_by (K.cmp key) self.old) }
        ensures entries { OnOk result (self.new ≡ insert_entry K.cmp self.old key value) }
        ensures too_long { IfErr result
            (λ fault. (fault.refusal ≡ KeyTooLong) ↔ (2 ^ 32 ≤ length (K.encoded key))) }
        ensures returned { IfErr result (λ fault. (fault.key ≡ key) × (fault.value ≡ value)) }
        ensures absent { OnErr result (get_by (K.cmp key) self.old ≡ None) }
        ensures err { OnErr result (self.new ≡ self.old) }
        ensures ordered { IsOrdered K.cmp self.new }
    {
        self.show_keys();
        if TOO_LONG <= key.encoded_len() {
            return Err(refuse(InsertRefusal::KeyTooLong, key, value));
        }
        let (key, value) = match self.put(key, value) {
            Ok(old) => return Ok(old),
            Err(back) => back,
        };
        if self.make_room(&key).is_err() {
            return Err(refuse(InsertRefusal::OutOfMemory, key, value));
        }
        match self.put(key, value) {
            Ok(old) => Ok(old),
            Err((key, value)) => Err(refuse(InsertRefusal::OutOfMemory, key, value)),
        }
    }

    /// Inserts an entry where its key is not there. Where it is, the map is as it was, and key and value
    /// come back.
    ///
    /// Only a key that is not there is refused, as [`insert`](Self::insert) refuses it. Costs a search
    /// more than `insert`.
    pub fn try_insert(&mut self, key: K, value: V) -> Result<Option<(K, V)>, InsertFault<K, V>>
    where
        K: Drop,
        V: Drop,
        ensures kept { IfOk result (λ back. IfSome back (λ entry. (entry ≡ (key, value))
            × (self.new ≡ self.old) × IsSome (get_by (K.cmp key) self.old))) }
        ensures added { IfOk result (λ back. IfNone back ((get_by (K.cmp key) self.old ≡ None)
            × (self.new ≡ insert_entry K.cmp self.old key value))) }
        ensures too_long { IfErr result
            (λ fault. (fault.refusal ≡ KeyTooLong) ↔ (2 ^ 32 ≤ length (K.encoded key))) }
        ensures returned { IfErr result (λ fault. (fault.key ≡ key) × (fault.value ≡ value)) }
        ensures absent { OnErr result (get_by (K.cmp key) self.old ≡ None) }
        ensures err { OnErr result (self.new ≡ self.old) }
        ensures ordered { IsOrdered K.cmp self.new }
    {
        if self.contains_key(&key) {
            self.show_keys();
            return Ok(Some((key, value)));
        }
        match self.insert(key, value) {
            Ok(_) => Ok(None),
            Err(fault) => Err(fault),
        }
    }

    /// Puts a key into the place of the equal key that the map has, which is returned. Its value and the
    /// other entries stay. Where there is none, the key comes back. It is never refused.
    ///
    /// Costs as much as [`get`](Self::get), and the keys of a page are read once, with memory for what a
    /// search there begins with: refused, such searches take longer, and no more.
    pub fn replace_key(&mut self, key: K) -> Result<K, K>
    where
        K: Drop,
        V: Drop,
        ensures old { IfOk result (λ old. get_key_by (K.cmp key) self.old ≡ Some old) }
        ensures entries { OnOk result (self.new ≡ set_key (is_at (K.cmp key)) self.old key) }
        ensures returned { IfErr result (λ back. back ≡ key) }
        ensures absent { OnErr result (get_key_by (K.cmp key) self.old ≡ None) }
        ensures err { OnErr result (self.new ≡ self.old) }
        ensures ordered { IsOrdered K.cmp self.new }
    {
        self.show_keys();
        if key.encoded_len() >= TOO_LONG {
            return Err(key);
        }
        swap(&mut self.head, &mut self.tree, self.alloc, key)
    }

    // What is known of the entries of each map.
    fn show_keys(&self)
        ensures ordered { IsOrdered K.cmp self.now }
        ensures keys { AreKeys K.is_key K.encoded self.now }
    {
        let _len = &self.len;
    }

    // Puts an entry where there is room for it, or replaces the value of its key. Takes no memory: else the
    // entry comes back.
    fn put(&mut self, key: K, value: V) -> Result<Option<V>, (K, V)>
    where
        K: Drop,
        requires { IsIndexable K.is_key K.encoded key }
        ensures old { IfOk result (λ old. old ≡ get_by (K.cmp key) self.old) }
        ensures entries { OnOk result (self.new ≡ insert_entry K.cmp self.old key value) }
        ensures returned { IfErr result (λ back. back ≡ (key, value)) }
        ensures absent { OnErr result (get_by (K.cmp key) self.old ≡ None) }
        ensures same { OnErr result (self.new ≡ self.old) }
        ensures ordered { IsOrdered K.cmp self.new }
    {
        let most = if self.len == usize::MAX {
            0
        } else if self.tree.is_none() {
            FIRST_MOST
        } else {
            MOST
        };
        match put(&mut self.head, &mut self.tree, most, key, value) {
            Ok(Some(old)) => Ok(Some(old)),
            Ok(None) => {
                self.len += 1;
                Ok(None)
            }
            Err(back) => Err(back),
        }
    }

    // Makes room for an entry with this key, by more memory for its page or by two pages in place of one.
    // The entries are the same, also where memory is refused.
    fn make_room(&mut self, key: &K) -> Result<(), AllocError>
    where
        K: Drop,
        V: Drop,
        requires { IsIndexable K.is_key K.encoded key.now }
        ensures same { self.new ≡ self.old }
        ensures ordered { IsOrdered K.cmp self.new }
    {
        make_room(&mut self.head, &mut self.tree, key, self.alloc)
    }
}
