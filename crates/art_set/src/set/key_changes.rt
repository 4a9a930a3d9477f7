//! Keys added and taken out.
ghost use Rattle.std.specs.Prelude.{◌≡◌, ◌+◌, ◌≤◌, ◌^◌, ◌↔◌, [], false, not, length, is_some, if◌then◌else◌, IfErr, IfNone, IfOk, IfSome, OnErr, OnOk};
ghost use Rattle.std.specs.Bool.{OnFalse};
ghost use Rattle.std.specs.BTreeMap.{is_at};
ghost use Rattle.std.specs.BTreeSet.{insert_key, replace_key};
ghost use Rattle.std.specs.List.Sorted.{IsStrictlySortedBy};
ghost use Rattle.std.specs.Set.{remove_key};
ghost use Rattle.std.specs.declared.cmp.Ordering.TheVariants.{Equal};
ghost use Rattle.art_map.specs.declared.fault.InsertRefusal.TheVariants.{KeyTooLong};
ghost use Rattle.art_set.specs.KeyLists.{contains_by, find_by};

use super::Set;
use art_keys::{RadixKey, RadixQuery};
use art_map::InsertFault;

impl<K: RadixKey> Set<K> {
    /// Adds a key, and returns whether it is new. If it is not, the key of the set stays, and the new one
    /// is dropped.
    ///
    /// Only a key that is not there is refused, and then it comes back and the set is as it was: as too
    /// long where its encoding has 2^32 bytes or more, else for memory.
    pub fn insert(&mut self, key: K) -> Result<bool, InsertFault<K, ()>>
    where
        K: Drop,
        ensures added { IfOk result (λ added. added ≡ not (contains_by (K.cmp key) self.old)) }
        ensures keys { OnOk result (self.new ≡ insert_key K.cmp self.old key) }
        ensures unchanged { IfOk result (λ added. OnFalse added (self.new ≡ self.old)) }
        ensures len { IfOk result (λ added. length self.new ≡ length self.old + (if added then 1 else 0)) }
        ensures too_long { IfErr result
            (λ fault. (fault.refusal ≡ KeyTooLong) ↔ (2 ^ 32 ≤ length (K.encoded key))) }
        ensures returned { IfErr result (λ fault. fault.key ≡ key) }
        ensures absent { OnErr result (contains_by (K.cmp key) self.old ≡ false) }
        ensures err { OnErr result (self.new ≡ self.old) }
        ensures ordered { IsStrictlySortedBy K.cmp self.new }
    {
        // So that the keys are known to be in order.
        let _len = self.len();
        let old = match self.entries.insert(key, ()) {
            Ok(old) => old,
            Err(fault) => return Err(fault),
        };
        Ok(old.is_none())
    }

    /// Adds a key. Where the set has an equal one, it takes its place, and that one is returned.
    ///
    /// Only a key that is not there is refused, as [`insert`](Self::insert) refuses it, and then it comes
    /// back and the set is as it was.
    pub fn replace(&mut self, key: K) -> Result<Option<K>, InsertFault<K, ()>>
    where
        K: Drop,
        ensures old { IfOk result (λ old. old ≡ find_by (K.cmp key) self.old) }
        ensures keys { OnOk result (self.new ≡ replace_key K.cmp self.old key) }
        ensures len { IfOk result (λ old. length self.new ≡ length self.old + (if is_some old then 0 else 1)) }
        ensures too_long { IfErr result
            (λ fault. (fault.refusal ≡ KeyTooLong) ↔ (2 ^ 32 ≤ length (K.encoded key))) }
        ensures returned { IfErr result (λ fault. fault.key ≡ key) }
        ensures absent { OnErr result (contains_by (K.cmp key) self.old ≡ false) }
        ensures err { OnErr result (self.new ≡ self.old) }
        ensures ordered { IsStrictlySortedBy K.cmp self.new }
    {
        // So that the keys are known to be in order.
        let _len = self.len();
        let key = match self.entries.replace_key(key) {
            Ok(old) => return Ok(Some(old)),
            Err(key) => key,
        };
        match self.insert(key) {
            Ok(_) => Ok(None),
            Err(fault) => Err(fault),
        }
    }

    /// Takes out the key of a query, if the set has it. It is never refused.
    pub fn take<Q: RadixQuery<K>>(&mut self, key: Q) -> Option<K>
        ensures key { result ≡ find_by (Q.compare key) self.old }
        ensures same_key { IfSome result (λ found. Q.compare key found ≡ Equal) }
        ensures variant { is_some result ≡ contains_by (Q.compare key) self.old }
        ensures keys { self.new ≡ remove_key (is_at (Q.compare key)) self.old }
        ensures unchanged { IfNone result (self.new ≡ self.old) }
        ensures len { length self.new + (if is_some result then 1 else 0) ≡ length self.old }
        ensures ordered { IsStrictlySortedBy K.cmp self.new }
    {
        let Some((key, _)) = self.entries.remove_entry(key) else {
            return None;
        };
        Some(key)
    }

    /// Takes out the key of a query, if the set has it, and returns whether it had. It is never
    /// refused.
    pub fn remove<Q: RadixQuery<K>>(&mut self, key: Q) -> bool
    where
        K: Drop,
        ensures test { result ≡ contains_by (Q.compare key) self.old }
        ensures keys { self.new ≡ remove_key (is_at (Q.compare key)) self.old }
        ensures unchanged { OnFalse result (self.new ≡ self.old) }
        ensures len { length self.new + (if result then 1 else 0) ≡ length self.old }
        ensures ordered { IsStrictlySortedBy K.cmp self.new }
    {
        self.take(key).is_some()
    }

    /// Drops all keys, and gives the memory of the pages but the first back. It takes none.
    pub fn clear(&mut self)
    where
        K: Drop,
        ensures { self.new ≡ [] }
    {
        self.entries.clear();
    }
}
