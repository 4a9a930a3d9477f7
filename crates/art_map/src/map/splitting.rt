//! A map split at a key.
ghost use Rattle.std.specs.Prelude.{◌≡◌, ◌∷◌, ◌++◌, [], List, false, true, filter, not, IfErr, IfNone, IfOk, IfSome, OnOk};
ghost use Rattle.std.specs.Ordering.{is_le};
ghost use Rattle.std.specs.declared.ops.Bound.TheVariants.{Included};
ghost use Rattle.art_pages.specs.Entries.{IsOrdered};
ghost use Rattle.art_map.specs.Ranges.{is_from};
ghost use Rattle.art_map.specs.declared.fault.InsertRefusal.TheVariants.{OutOfMemory};

use super::Map;
use crate::fault::SplitFault;
use art_keys::{RadixKey, RadixQuery};
use std::ops::Bound;

impl<K: RadixKey + Drop, V: Drop> Map<K, V> {
    /// Moves the entries from a query on, those at it and above it, into a new map, which is returned.
    ///
    /// Stops where memory is refused, and returns the entry that had no room, with the map of those behind
    /// it: those before it are still in this map, so nothing is lost. Costs a [`pop_last`](Self::pop_last)
    /// and an insert for each entry that moves.
    pub fn split_off<Q: RadixQuery<K>>(&mut self, from: Q) -> Result<Self, SplitFault<K, V>>
        ensures kept { OnOk result
            (self.new ≡ filter (λ entry. not (is_from Q.compare (Included from) entry.0)) self.old) }
        ensures moved { IfOk result
            (λ moved. moved ≡ filter (λ entry. is_from Q.compare (Included from) entry.0) self.old) }
        ensures parts { IfOk result (λ moved. self.old ≡ self.new ++ moved) }
        ensures stopped { IfErr result (λ fault. self.old
            ≡ self.new ++ (fault.refused.key, fault.refused.value) ∷ fault.moved) }
        ensures at_or_above { IfErr result (λ fault. is_from Q.compare (Included from) fault.refused.key ≡ true) }
        ensures refusal { IfErr result (λ fault. fault.refused.refusal ≡ OutOfMemory) }
        ensures ordered { IsOrdered K.cmp self.new }
    {
        // So that it is known how the query parts the entries.
        let _ = self.lower_bound(Bound::Included(from));
        let mut moved = Map::new(self.alloc);
        'each: while let Some((key, value)) = self.pop_last_from(from) {
            match moved.insert(key, value) {
                Ok(_) => {}
                Err(refused) => return Err(SplitFault { refused, moved }),
            }
        }
        Ok(moved)
    }

    // Takes out the last entry where it is at a query or above it.
    fn pop_last_from<Q: RadixQuery<K>>(&mut self, from: Q) -> Option<(K, V)>
        ensures removal { IfSome result (λ entry. self.old ≡ self.new ++ entry ∷ []) }
        ensures at_or_above { IfSome result (λ entry. is_le (Q.compare from entry.0) ≡ true) }
        ensures below { IfNone result ((before : List (K × V)) → (entry : K × V) →
            self.old ≡ before ++ entry ∷ [] → is_le (Q.compare from entry.0) ≡ false) }
        ensures unchanged { IfNone result (self.new ≡ self.old) }
        ensures ordered { IsOrdered K.cmp self.new }
    {
        if self.ends_from(from) {
            return self.pop_last();
        }
        None
    }

    // Whether the last entry is at a query or above it.
    fn ends_from<Q: RadixQuery<K>>(&self, from: Q) -> bool
        ensures ordered { IsOrdered K.cmp self.now }
        ensures last { (before : List (K × V)) → (entry : K × V) → self.now ≡ before ++ entry ∷ []
            → is_le (Q.compare from entry.0) ≡ result }
    {
        match self.last_key_value() {
            Some((key, _)) => from.compare(key).is_le(),
            None => false,
        }
    }
}
