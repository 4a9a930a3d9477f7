//! All entries gone through in ascending order of their keys: some are kept, or values are changed.
ghost use Rattle.std.specs.Prelude.{◌≡◌, ◌≤◌, length, map};
ghost use Rattle.std.specs.Map.Calls.{CallableOnEachPair, CalledAtPair, RetainsPairs, TakesPair};
ghost use Rattle.art_pages.specs.Entries.{IsOrdered};
ghost use Rattle.art_pages.specs.Retaining.{CallableInTurn, ChangesInTurn};

use super::Map;
use crate::walk::retain;
use art_keys::RadixKey;
use art_pages::{Keeps, OnEntry, OnValue};

impl<K: RadixKey + Drop, V: Drop> Map<K, V> {
    /// Keeps the entries at which the closure returns true, and drops the others. It is called once for
    /// each entry, in ascending order of the keys, and may change the value.
    ///
    /// It is never refused: an emptied page stays where a smaller node would need memory that is refused.
    /// Takes time linear in the number of entries, beside the calls. Pages that keep an entry keep their
    /// memory.
    pub fn retain<F: FnMut(&K, &mut V) -> bool>(&mut self, f: F)
        requires { CallableOnEachPair (CalledAtPair F.FnMut) (TakesPair F.FnMut) f self.old }
        ensures retained { RetainsPairs (CalledAtPair F.FnMut) f self.old self.new }
        ensures bound { length self.new ≤ length self.old }
        ensures ordered { IsOrdered K.cmp self.new }
        ensures was_ordered { IsOrdered K.cmp self.old }
    {
        self.retain_by(OnEntry { keep: f });
    }

    /// Calls the closure once for each entry, in ascending order of the keys. It may change the value;
    /// the keys stay. It is never refused, and costs as much as a [`retain`](Self::retain) that keeps all
    /// entries.
    ///
    /// Where each call leaves what a function makes of key and value, and changes nothing else, the lemma
    /// `values_same` of `proofs/CalledLemmas.antt` has the entries afterwards.
    pub fn for_each_value_mut<F: FnMut(&K, &mut V)>(&mut self, f: F)
        requires { CallableInTurn F.FnMut f self.old }
        ensures in_turn { ChangesInTurn F.FnMut f self.old self.new }
        ensures same_keys { map (λ entry. entry.0) self.new ≡ map (λ entry. entry.0) self.old }
        ensures ordered { IsOrdered K.cmp self.new }
    {
        self.retain_by(OnValue { change: f });
    }

    // The same by a test.
    fn retain_by<F: Keeps<K, V>>(&mut self, test: F)
        requires { CallableOnEachPair F.step F.accepts test self.old }
        ensures retained { RetainsPairs F.step test self.old self.new }
        ensures bound { length self.new ≤ length self.old }
        ensures ordered { IsOrdered K.cmp self.new }
        ensures was_ordered { IsOrdered K.cmp self.old }
    {
        self.len = retain(&mut self.head, &mut self.tree, self.len, test);
    }
}
