//! Values lent, to be changed.
ghost use Rattle.std.specs.Prelude.{◌≡◌, ◌^◌, ◌≤◌, ◌↔◌, None, IfErr, IfOk, OnErr, length};
ghost use Rattle.std.specs.Borrow.{sem};
ghost use Rattle.std.specs.Option.{UnwrapsOrElse, option_copied_mut};
ghost use Rattle.art_pages.specs.Entries.{IsOrdered, get_by};
ghost use Rattle.art_map.specs.Lending.{LendsEntered, LendsFound};
ghost use Rattle.art_map.specs.declared.fault.InsertRefusal.TheVariants.{KeyTooLong};

use super::{FIRST_MOST, MOST, Map};
use crate::fault::InsertFault;
use crate::spots::{enter, find};
use art_index::page_mut;
use art_keys::{RadixKey, RadixQuery};

impl<K: RadixKey, V> Map<K, V> {
    /// A mutable reference to the value under the key of a query. The map ends with the same entries,
    /// this one with the value that the caller leaves there. Costs as much as [`get`](Self::get), and
    /// takes no memory.
    pub fn get_mut<Q: RadixQuery<K>>(&mut self, key: Q) -> Option<&mut V>
        ensures* writes_back { sem 𝓛 (LendsFound K.row V.row K.KeyBytes self.entry (Q.compare key) result) }
        ensures value { option_copied_mut result ≡ get_by (Q.compare key) self.old }
        ensures ordered { IsOrdered K.cmp self.old }
    {
        let (leaf, found) = find(&self.head, &self.tree, key);
        let Ok(place) = found else {
            return None;
        };
        match leaf {
            None => Some(self.head.value_mut(place)),
            Some(leaf) => match self.tree.as_mut() {
                Some(tree) => Some(page_mut(tree, leaf).value_mut(place)),
                None => None,
            },
        }
    }
}

impl<K: RadixKey + Drop, V: Drop> Map<K, V> {
    /// A mutable reference to the value under a key. Where there is no entry, it is added first, with
    /// the value that the closure makes; the map ends with the value that the caller leaves there.
    ///
    /// Only a key that is not there is refused, as [`insert`](Self::insert) refuses it; key and value
    /// come back, and the map is as it was. Where the entry is there, the closure is not called: a test
    /// sees that, and no clause says it. Costs as much as `insert`.
    pub fn get_or_insert_with<F: FnOnce() -> V>(
        &mut self,
        key: K,
        make: F,
    ) -> Result<&mut V, InsertFault<K, V>>
        requires { F.pre make }
        ensures* writes_back { sem 𝓛 (LendsEntered K.row V.row K.KeyBytes self.entry K.cmp key result) }
        ensures value { IfOk result
            (λ lent. UnwrapsOrElse (get_by (K.cmp key) self.old) (F.post make) lent.now) }
        ensures too_long { IfErr result
            (λ fault. (fault.refusal ≡ KeyTooLong) ↔ (2 ^ 32 ≤ length (K.encoded key))) }
        ensures returned { IfErr result (λ fault. (fault.key ≡ key) × F.post make fault.value) }
        ensures absent { OnErr result (get_by (K.cmp key) self.old ≡ None) }
        ensures ordered { IsOrdered K.cmp self.old }
    {
        let most = if self.len == usize::MAX {
            0
        } else if self.tree.is_none() {
            FIRST_MOST
        } else {
            MOST
        };
        let spot = enter(&mut self.head, &mut self.tree, self.alloc, most, key, make)?;
        self.len += spot.more;
        match spot.leaf {
            None => Ok(self.head.value_mut(spot.place)),
            Some(leaf) => match self.tree.as_mut() {
                Some(tree) => Ok(page_mut(tree, leaf).value_mut(spot.place)),
                None => unreachable!(),
            },
        }
    }
}
