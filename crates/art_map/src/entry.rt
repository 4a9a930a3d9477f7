//! The entry of a key in a map, whether it is there or not.
ghost use Rattle.std.specs.Prelude.{◌≡◌, ◌^◌, ◌≤◌, ◌↔◌, IfErr, IfNone, IfOk, IfSome, OnErr, None, Some, is_some, length};
ghost use Rattle.std.specs.Borrow.{MutBor, sem};
ghost use Rattle.std.specs.BTreeMap.{insert_entry, is_at};
ghost use Rattle.std.specs.Fn.{FnOnceReturnsAt, FnOnceReturnsAtMut};
ghost use Rattle.std.specs.Map.{remove_entry, set_value};
ghost use Rattle.std.specs.Option.{UnwrapsOrElse, option_copied, option_copied_mut, option_map, unwrap_or};
ghost use Rattle.art_pages.specs.Entries.{get_by, get_key_by};
ghost use Rattle.art_map.specs.EntryCalls.{entry_key, entry_map, entry_value, is_occupied};
ghost use Rattle.art_map.specs.Lending.{LendsEntered, LendsFound};
ghost use Rattle.art_map.specs.declared.fault.InsertRefusal.TheVariants.{KeyTooLong};

use crate::fault::InsertFault;
use crate::map::Map;
use art_keys::RadixKey;
use std::mem;

/// An entry that is there, in a map `M`. Callers name it [`OccupiedEntry`].
#[derive(Drop)]
pub struct OccupiedOver<'a, M, K> {
    map: &'a mut M,
    key: K,
}

/// A key without an entry, in a map `M`. Callers name it [`VacantEntry`].
#[derive(Drop)]
pub struct VacantOver<'a, M, K> {
    map: &'a mut M,
    key: K,
}

/// The entry of a key, in a map `M`. Callers name it [`Entry`].
#[derive(Drop)]
pub enum EntryOver<'a, M, K> {
    /// The entry is there.
    Occupied(OccupiedOver<'a, M, K>),
    /// There is none.
    Vacant(VacantOver<'a, M, K>),
}

/// The entry of a key in a map, as [`entry`](Map::entry) returns it.
pub type Entry<'a, K, V> = EntryOver<'a, Map<K, V>, K>;

/// An entry that is there: its value, to be read, changed or removed.
///
/// Each call searches the entry again. That it is there is known to a caller by the clause `occupied`
/// of [`entry`](Map::entry), and not to the type, so what is looked up is in an `Option`.
pub type OccupiedEntry<'a, K, V> = OccupiedOver<'a, Map<K, V>, K>;

/// A key without an entry, which may be added.
pub type VacantEntry<'a, K, V> = VacantOver<'a, Map<K, V>, K>;

impl<K: RadixKey, V> Map<K, V> {
    /// The entry of a key, whether it is there or not: to be read, changed, added or removed. If it is
    /// dropped, the map is as it was. Takes no memory. Costs as much as [`get`](Self::get), and each
    /// call of the entry as much as the call of the map that does the same; so
    /// [`get_or_insert_with`](Self::get_or_insert_with) spares a search.
    pub fn entry(&mut self, key: K) -> Entry<'_, K, V>
        ensures same_map { (entry_map result).ghost_name ≡ self.entry.ghost_name }
        ensures same_entries { (entry_map result).now ≡ self.old }
        ensures key { entry_key result ≡ key }
        ensures occupied { is_occupied result ≡ is_some (get_by (K.cmp key) self.old) }
        ensures value { entry_value K.cmp result ≡ get_by (K.cmp key) self.old }
    {
        if self.contains_key(&key) {
            return Entry::Occupied(OccupiedOver { map: self, key });
        }
        Entry::Vacant(VacantOver { map: self, key })
    }
}

impl<'a, K: RadixKey + Drop, V: Drop> Entry<'a, K, V> {
    /// The key that was looked for.
    pub fn key(&self) -> &K
        ensures { result.now ≡ entry_key self.now }
    {
        match self {
            Entry::Occupied(entry) => entry.key(),
            Entry::Vacant(entry) => entry.key(),
        }
    }

    /// A mutable reference to the value of the entry. Where there is none, it is added with this value
    /// first. The map ends with the value that the caller leaves there.
    ///
    /// Only a key without an entry is refused, as [`insert`](Map::insert) refuses it, with key and
    /// value; the map is then as it was. Costs as much as `insert`.
    pub fn or_insert(self, value: V) -> Result<&'a mut V, InsertFault<K, V>>
        ensures* writes_back { sem 𝓛 (LendsEntered K.row V.row K.KeyBytes (entry_map self.entry)
            K.cmp (entry_key self.entry) result) }
        ensures value { IfOk result (λ lent. lent.now
            ≡ unwrap_or (get_by (K.cmp (entry_key self.entry)) (entry_map self.entry).now) value) }
        ensures too_long { IfErr result (λ fault.
            (fault.refusal ≡ KeyTooLong) ↔ (2 ^ 32 ≤ length (K.encoded (entry_key self.entry)))) }
        ensures returned { IfErr result
            (λ fault. (fault.key ≡ entry_key self.entry) × (fault.value ≡ value)) }
        ensures absent { OnErr result
            (get_by (K.cmp (entry_key self.entry)) (entry_map self.entry).now ≡ None) }
    {
        match self {
            Entry::Occupied(entry) => {
                let OccupiedOver { map, key } = entry;
                map.get_or_insert_with(key, move || value)
            }
            Entry::Vacant(entry) => {
                let VacantOver { map, key } = entry;
                map.get_or_insert_with(key, move || value)
            }
        }
    }

    /// As [`or_insert`](Self::or_insert), with the value that the closure makes. Where the entry is
    /// there, the closure is not called: a test sees that, and no clause says it.
    pub fn or_insert_with<F: FnOnce() -> V>(self, make: F) -> Result<&'a mut V, InsertFault<K, V>>
        requires { F.pre make }
        ensures* writes_back { sem 𝓛 (LendsEntered K.row V.row K.KeyBytes (entry_map self.entry)
            K.cmp (entry_key self.entry) result) }
        ensures value { IfOk result (λ lent. UnwrapsOrElse
            (get_by (K.cmp (entry_key self.entry)) (entry_map self.entry).now) (F.post make) lent.now) }
        ensures too_long { IfErr result (λ fault.
            (fault.refusal ≡ KeyTooLong) ↔ (2 ^ 32 ≤ length (K.encoded (entry_key self.entry)))) }
        ensures returned { IfErr result
            (λ fault. (fault.key ≡ entry_key self.entry) × F.post make fault.value) }
        ensures absent { OnErr result
            (get_by (K.cmp (entry_key self.entry)) (entry_map self.entry).now ≡ None) }
    {
        match self {
            Entry::Occupied(entry) => {
                let OccupiedOver { map, key } = entry;
                map.get_or_insert_with(key, make)
            }
            Entry::Vacant(entry) => {
                let VacantOver { map, key } = entry;
                map.get_or_insert_with(key, make)
            }
        }
    }

    /// As [`or_insert`](Self::or_insert), with the value that `Default` makes.
    pub fn or_default(self) -> Result<&'a mut V, InsertFault<K, V>>
    where
        V: Default,
        ensures* writes_back { sem 𝓛 (LendsEntered K.row V.row K.KeyBytes (entry_map self.entry)
            K.cmp (entry_key self.entry) result) }
        ensures value { IfOk result (λ lent. UnwrapsOrElse
            (get_by (K.cmp (entry_key self.entry)) (entry_map self.entry).now) V.is_default lent.now) }
        ensures too_long { IfErr result (λ fault.
            (fault.refusal ≡ KeyTooLong) ↔ (2 ^ 32 ≤ length (K.encoded (entry_key self.entry)))) }
        ensures returned { IfErr result
            (λ fault. (fault.key ≡ entry_key self.entry) × V.is_default fault.value) }
        ensures absent { OnErr result
            (get_by (K.cmp (entry_key self.entry)) (entry_map self.entry).now ≡ None) }
    {
        match self {
            Entry::Occupied(entry) => {
                let OccupiedOver { map, key } = entry;
                map.get_or_insert_with(key, || V::default())
            }
            Entry::Vacant(entry) => {
                let VacantOver { map, key } = entry;
                map.get_or_insert_with(key, || V::default())
            }
        }
    }

    /// Calls the closure at the value, which it may change, where the entry is there, and returns the
    /// entry. Other entries are as they were, and all are where there is none. Costs as much as
    /// [`get`](Map::get). Takes no memory.
    pub fn and_modify<F: FnOnce(&mut V)>(self, change: F) -> Self
        requires { (lent : MutBor V) → get_by (K.cmp (entry_key self)) (entry_map self).now ≡ Some lent.now
            → F.pre change lent }
        ensures same_map { (entry_map result).ghost_name ≡ (entry_map self.entry).ghost_name }
        ensures same_key { entry_key result ≡ entry_key self.entry }
        ensures same_kind { is_occupied result ≡ is_occupied self.entry }
        ensures changed { IfSome (entry_value K.cmp self.entry) (λ value. (now : V)
            × FnOnceReturnsAtMut F.FnOnce change value tt now × ((entry_map result).now
            ≡ set_value (is_at (K.cmp (entry_key self.entry))) (entry_map self.entry).now now)) }
        ensures same_entries { IfNone (entry_value K.cmp self.entry)
            ((entry_map result).now ≡ (entry_map self.entry).now) }
    {
        match self {
            Entry::Occupied(entry) => {
                let OccupiedOver { map, key } = entry;
                if let Some(value) = map.get_mut(&key) {
                    change(value);
                }
                Entry::Occupied(OccupiedOver { map, key })
            }
            Entry::Vacant(entry) => Entry::Vacant(entry),
        }
    }
}

impl<'a, K: RadixKey + Drop, V: Drop> OccupiedEntry<'a, K, V> {
    /// The key that was looked for. That of the map is equal to it.
    pub fn key(&self) -> &K
        ensures { result.now ≡ self.now.key }
    {
        &self.key
    }

    /// The value. Costs as much as [`get`](Map::get). Takes no memory.
    pub fn get(&self) -> Option<&V>
        ensures { option_copied result ≡ get_by (K.cmp self.now.key) self.now.map.now }
    {
        self.map.get(&self.key)
    }

    /// A mutable reference to the value, which the caller may change. Costs as much as
    /// [`get`](Map::get). Takes no memory.
    ///
    /// No clause says what the map is afterwards: where a proof needs it, take [`insert`](Self::insert),
    /// [`into_mut`](Self::into_mut) or [`and_modify`](EntryOver::and_modify).
    pub fn get_mut(&mut self) -> Option<&mut V>
        ensures { option_copied_mut result ≡ get_by (K.cmp self.old.key) self.old.map.now }
    {
        let OccupiedOver { map, key } = self;
        map.get_mut(&*key)
    }

    /// Replaces the value, and returns the one that was there. Costs as much as [`get`](Map::get).
    /// Takes no memory.
    pub fn insert(&mut self, value: V) -> Option<V>
        ensures same_map { self.new.map.ghost_name ≡ self.old.map.ghost_name }
        ensures same_key { self.new.key ≡ self.old.key }
        ensures replaced { result ≡ get_by (K.cmp self.old.key) self.old.map.now }
        ensures entries { self.new.map.now ≡ set_value (is_at (K.cmp self.old.key)) self.old.map.now value }
    {
        let held = self.map.get_mut(&self.key)?;
        Some(mem::replace(held, value))
    }

    /// A mutable reference to the value, for as long as the map is borrowed. The map ends with the value
    /// that the caller leaves there. Costs as much as [`get`](Map::get). Takes no memory.
    pub fn into_mut(self) -> Option<&'a mut V>
        ensures* writes_back { sem 𝓛 (LendsFound K.row V.row K.KeyBytes self.entry.map
            (K.cmp self.entry.key) result) }
        ensures value { option_copied_mut result ≡ get_by (K.cmp self.entry.key) self.entry.map.now }
    {
        let OccupiedOver { map, key } = self;
        map.get_mut(&key)
    }

    /// Removes the entry, and returns the key and the value that it had. It is never
    /// refused. Costs as much as [`remove`](Map::remove).
    pub fn remove_entry(self) -> Option<(K, V)>
        ensures key { option_map (λ entry. entry.0) result ≡ get_key_by (K.cmp self.entry.key) self.entry.map.now }
        ensures value { option_map (λ entry. entry.1) result ≡ get_by (K.cmp self.entry.key) self.entry.map.now }
        ensures entries { self.exit.0.now ≡ remove_entry (is_at (K.cmp self.entry.key)) self.entry.map.now }
    {
        let OccupiedOver { map, key } = self;
        map.remove_entry(&key)
    }

    /// Removes the entry, and returns its value. It is never refused. Costs as much as
    /// [`remove`](Map::remove).
    pub fn remove(self) -> Option<V>
        ensures value { result ≡ get_by (K.cmp self.entry.key) self.entry.map.now }
        ensures entries { self.exit.0.now ≡ remove_entry (is_at (K.cmp self.entry.key)) self.entry.map.now }
    {
        let OccupiedOver { map, key } = self;
        map.remove(&key)
    }
}

impl<'a, K: RadixKey + Drop, V: Drop> VacantEntry<'a, K, V> {
    /// The key that was looked for.
    pub fn key(&self) -> &K
        ensures { result.now ≡ self.now.key }
    {
        &self.key
    }

    /// The key that was looked for, by value. The entries are unchanged.
    pub fn into_key(self) -> K
        ensures key { result ≡ self.entry.key }
        ensures same_entries { self.exit.0.now ≡ self.entry.map.now }
    {
        self.key
    }

    /// Adds the entry with this value, and returns a mutable reference to it. Refused and costs as
    /// [`insert`](Map::insert) of the map, with key and value; the map is then as it was.
    pub fn insert(self, value: V) -> Result<&'a mut V, InsertFault<K, V>>
        ensures* writes_back { sem 𝓛 (LendsEntered K.row V.row K.KeyBytes self.entry.map
            K.cmp self.entry.key result) }
        ensures value { IfOk result
            (λ lent. lent.now ≡ unwrap_or (get_by (K.cmp self.entry.key) self.entry.map.now) value) }
        ensures too_long { IfErr result
            (λ fault. (fault.refusal ≡ KeyTooLong) ↔ (2 ^ 32 ≤ length (K.encoded self.entry.key))) }
        ensures returned { IfErr result (λ fault. (fault.key ≡ self.entry.key) × (fault.value ≡ value)) }
        ensures absent { OnErr result (get_by (K.cmp self.entry.key) self.entry.map.now ≡ None) }
    {
        let VacantOver { map, key } = self;
        map.get_or_insert_with(key, move || value)
    }
}
