//! Calls for many entries: inserted in turn, and cloned.
ghost use Rattle.std.specs.Prelude.{◌≡◌, ◌≢◌, ◌∷◌, ◌++◌, ◌≤◌, ◌^◌, ◌↔◌, None, Some, [], List, length, IfErr, IfOk, IsTrue, OnErr, OnOk};
ghost use Rattle.std.specs.Iterator.{Drains, IsFiniteIterable, YieldsThen};
ghost use Rattle.std.specs.List.{AllZip};
ghost use Rattle.art_pages.specs.Entries.{AllBelow, IsOrdered, get_by};
ghost use Rattle.art_map.specs.Inserts.{insert_all};
ghost use Rattle.art_map.specs.declared.fault.InsertRefusal.TheVariants.{KeyTooLong};

use super::Map;
use crate::fault::ExtendFault;
use crate::iter::Iter;
use art_keys::RadixKey;
use std::alloc::{AllocError, Global};

// A map of clones of these entries, in their order.
fn clones_of<K: RadixKey + Clone, V: Clone>(
    alloc: Global,
    mut entries: Iter<'_, K, V>,
) -> Result<Map<K, V>, AllocError>
    ensures { IfOk result (λ map. AllZip (λ p q. K.is_clone p.0 q.0 × V.is_clone p.1 q.1) entries.entry map) }
{
    let mut copy = Map::new(alloc);
    'each: while let Some((key, value)) = entries.next() {
        copy.push(key.clone()?, value.clone()?)?;
    }
    Ok(copy)
}

impl<K: RadixKey, V> Map<K, V> {
    /// A map of these entries, inserted one after the other: of entries with the same key the first key
    /// stays, with the last value. Entries that ascend fill their pages.
    ///
    /// Stops at the first entry that [`insert`](Self::insert) refuses, and returns it with the reason and
    /// those behind it. Those before it are dropped: a caller who wants to keep them calls
    /// [`extend`](Self::extend) of an empty map. Costs as much as the inserts.
    pub fn from_entries<I: IntoIterator<Item = (K, V)>>(
        alloc: Global,
        entries: I,
    ) -> Result<Self, ExtendFault<K, V, I::IntoIter>>
    where
        K: Drop,
        V: Drop,
        requires { IsFiniteIterable I.into_iter_gives I.IntoIter.can_next I.IntoIter.remaining entries }
        ensures all { IfOk result (λ map. (it : I.IntoIter) × (items : List (K × V)) × I.into_iter_gives entries it
            × Drains I.IntoIter.next_gives it items × (map ≡ insert_all K.cmp [] items)) }
        ensures stopped { IfErr result (λ fault. (it : I.IntoIter) × (items : List (K × V))
            × I.into_iter_gives entries it
            × YieldsThen I.IntoIter.next_gives it items (Some (fault.refused.key, fault.refused.value)) fault.rest
            × (get_by (K.cmp fault.refused.key) (insert_all K.cmp [] items) ≡ None)) }
        ensures too_long { IfErr result (λ fault.
            (fault.refused.refusal ≡ KeyTooLong) ↔ (2 ^ 32 ≤ length (K.encoded fault.refused.key))) }
    {
        let mut map = Map::new(alloc);
        match map.extend(entries) {
            Ok(()) => Ok(map),
            Err(fault) => Err(fault),
        }
    }

    /// Inserts these entries, one after the other, each as [`insert`](Self::insert) does: a key that is
    /// there stays and takes the value. Entries that ascend, above all that are there, fill their pages.
    ///
    /// Stops at the first entry that is refused, and returns it with the reason and those behind it. Those
    /// before it are in. Takes no memory but that of the inserts, and costs as much as they do.
    pub fn extend<I: IntoIterator<Item = (K, V)>>(
        &mut self,
        entries: I,
    ) -> Result<(), ExtendFault<K, V, I::IntoIter>>
    where
        K: Drop,
        V: Drop,
        requires { IsFiniteIterable I.into_iter_gives I.IntoIter.can_next I.IntoIter.remaining entries }
        ensures all { OnOk result ((it : I.IntoIter) × (items : List (K × V)) × I.into_iter_gives entries it
            × Drains I.IntoIter.next_gives it items × (self.new ≡ insert_all K.cmp self.old items)) }
        ensures stopped { IfErr result (λ fault. (it : I.IntoIter) × (items : List (K × V))
            × I.into_iter_gives entries it
            × YieldsThen I.IntoIter.next_gives it items (Some (fault.refused.key, fault.refused.value)) fault.rest
            × (self.new ≡ insert_all K.cmp self.old items)) }
        ensures too_long { IfErr result (λ fault.
            (fault.refused.refusal ≡ KeyTooLong) ↔ (2 ^ 32 ≤ length (K.encoded fault.refused.key))) }
        ensures absent { IfErr result (λ fault. get_by (K.cmp fault.refused.key) self.new ≡ None) }
        ensures ordered { IsOrdered K.cmp self.new }
    {
        // So that the entries are known to be in order where no item comes.
        let _len = self.len();
        let mut rest = entries.into_iter();
        'each: while let Some(entry) = rest.next() {
            let (key, value) = entry;
            match self.insert(key, value) {
                Ok(_) => {}
                Err(refused) => return Err(ExtendFault { refused, rest }),
            }
        }
        Ok(())
    }

    // Adds an entry behind all others. Refused for memory, or where its key is not above all others.
    fn push(&mut self, key: K, value: V) -> Result<(), AllocError>
    where
        K: Drop,
        V: Drop,
        ensures { OnOk result (self.new ≡ self.old ++ (key, value) ∷ []) }
    {
        if !self.is_below(&key) {
            return Err(AllocError);
        }
        match self.insert(key, value) {
            Ok(_) => Ok(()),
            Err(_) => Err(AllocError),
        }
    }

    // Whether all keys are below this one.
    fn is_below(&self, key: &K) -> bool
        ensures { IsTrue result → AllBelow (K.cmp key.now) self.now }
    {
        match self.last_key_value() {
            Some((last, _)) => key.cmp(last).is_gt(),
            None => true,
        }
    }
}

impl<K: RadixKey + Clone, V: Clone> Map<K, V> {
    /// A map of clones of the entries, in their order. Its pages are full.
    ///
    /// Refused where memory is, and where the clone of a key is not above that of the key before, which no
    /// key of this library's does: what was cloned is dropped. A map with no entries is never refused.
    pub fn try_clone(&self, alloc: Global) -> Result<Self, AllocError>
        ensures clones { IfOk result
            (λ map. AllZip (λ p q. K.is_clone p.0 q.0 × V.is_clone p.1 q.1) self.now map) }
        ensures some_entries { OnErr result (self.now ≢ []) }
    {
        if self.is_empty() {
            return Ok(Map::new(alloc));
        }
        clones_of(alloc, self.iter())
    }
}
