//! Calls for many keys: inserted in turn, and cloned.
ghost use Rattle.std.specs.Prelude.{◌≡◌, ◌≢◌, ◌≤◌, ◌^◌, ◌↔◌, false, Some, [], List, length, IfErr, IfOk, OnErr, OnOk};
ghost use Rattle.std.specs.Iterator.{Drains, IsFiniteIterable, YieldsThen};
ghost use Rattle.std.specs.List.{AllZip};
ghost use Rattle.std.specs.List.Sorted.{IsStrictlySortedBy};
ghost use Rattle.art_map.specs.declared.fault.InsertRefusal.TheVariants.{KeyTooLong};
ghost use Rattle.art_set.specs.KeyLists.{contains_by, insert_keys};

use super::Set;
use art_keys::RadixKey;
use art_map::ExtendFault;
use std::alloc::{AllocError, Global};

impl<K: RadixKey> Set<K> {
    /// A set of these keys, inserted one after the other: of equal keys the first stays. Keys that ascend
    /// fill their pages.
    ///
    /// Stops at the first key that [`insert`](Self::insert) refuses, and returns it with the reason and
    /// those behind it. Those before it are dropped: a caller who wants to keep them calls
    /// [`extend`](Self::extend) of an empty set. Costs as much as the inserts.
    pub fn from_keys<I: IntoIterator<Item = K>>(
        alloc: Global,
        keys: I,
    ) -> Result<Self, ExtendFault<K, (), I::IntoIter>>
    where
        K: Drop,
        requires { IsFiniteIterable I.into_iter_gives I.IntoIter.can_next I.IntoIter.remaining keys }
        ensures all { IfOk result (λ set. (it : I.IntoIter) × (items : List K) × I.into_iter_gives keys it
            × Drains I.IntoIter.next_gives it items × (set ≡ insert_keys K.cmp [] items)) }
        ensures stopped { IfErr result (λ fault. (it : I.IntoIter) × (items : List K) × I.into_iter_gives keys it
            × YieldsThen I.IntoIter.next_gives it items (Some fault.refused.key) fault.rest
            × (contains_by (K.cmp fault.refused.key) (insert_keys K.cmp [] items) ≡ false)) }
        ensures too_long { IfErr result (λ fault.
            (fault.refused.refusal ≡ KeyTooLong) ↔ (2 ^ 32 ≤ length (K.encoded fault.refused.key))) }
    {
        let mut set = Set::new(alloc);
        match set.extend(keys) {
            Ok(()) => Ok(set),
            Err(fault) => Err(fault),
        }
    }

    /// Inserts these keys, one after the other, each as [`insert`](Self::insert) does: a key that is there
    /// stays. Keys that ascend, above all that are there, fill their pages.
    ///
    /// Stops at the first key that is refused, and returns it with the reason and those behind it. Those
    /// before it are in. Takes no memory but that of the inserts, and costs as much as they do.
    pub fn extend<I: IntoIterator<Item = K>>(
        &mut self,
        keys: I,
    ) -> Result<(), ExtendFault<K, (), I::IntoIter>>
    where
        K: Drop,
        requires { IsFiniteIterable I.into_iter_gives I.IntoIter.can_next I.IntoIter.remaining keys }
        ensures all { OnOk result ((it : I.IntoIter) × (items : List K) × I.into_iter_gives keys it
            × Drains I.IntoIter.next_gives it items × (self.new ≡ insert_keys K.cmp self.old items)) }
        ensures stopped { IfErr result (λ fault. (it : I.IntoIter) × (items : List K) × I.into_iter_gives keys it
            × YieldsThen I.IntoIter.next_gives it items (Some fault.refused.key) fault.rest
            × (self.new ≡ insert_keys K.cmp self.old items)) }
        ensures too_long { IfErr result (λ fault.
            (fault.refused.refusal ≡ KeyTooLong) ↔ (2 ^ 32 ≤ length (K.encoded fault.refused.key))) }
        ensures absent { IfErr result (λ fault. contains_by (K.cmp fault.refused.key) self.new ≡ false) }
        ensures ordered { IsStrictlySortedBy K.cmp self.new }
    {
        // So that the keys are known to be in order where no item comes.
        let _len = self.len();
        let mut rest = keys.into_iter();
        'each: while let Some(key) = rest.next() {
            match self.insert(key) {
                Ok(_) => {}
                Err(refused) => return Err(ExtendFault { refused, rest }),
            }
        }
        Ok(())
    }
}

impl<K: RadixKey + Clone> Set<K> {
    /// A set of clones of the keys, in their order. Its pages are full.
    ///
    /// Refused where memory is, and where the clone of a key is not above that of the key before, which no
    /// key of this library's does: what was cloned is dropped. A set with no keys is never refused.
    pub fn try_clone(&self, alloc: Global) -> Result<Self, AllocError>
        ensures clones { IfOk result (λ set. AllZip K.is_clone self.now set) }
        ensures some_keys { OnErr result (self.now ≢ []) }
    {
        match self.entries.try_clone(alloc) {
            Ok(entries) => Ok(Set { entries }),
            Err(refused) => Err(refused),
        }
    }
}
