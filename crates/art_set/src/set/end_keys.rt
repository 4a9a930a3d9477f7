//! Keys taken out at both ends.
ghost use Rattle.std.specs.Prelude.{All, ◌≡◌, ◌+◌, ◌∷◌, ◌++◌, [], length, is_some, if◌then◌else◌, IfNone, IfSome, IsTrue};
ghost use Rattle.std.specs.List.Sorted.{IsStrictlySortedBy};
ghost use Rattle.std.specs.declared.cmp.Ordering.TheVariants.{Greater, Less};
ghost use Rattle.art_set.specs.KeyLists.{contains_by};

use super::Set;
use art_keys::RadixKey;

impl<K: RadixKey> Set<K> {
    /// Takes out the least key, if there is one. It is never refused. Costs one way down the tree.
    pub fn pop_first(&mut self) -> Option<K>
        ensures removal { IfSome result (λ key. self.old ≡ key ∷ self.new) }
        ensures member { IfSome result (λ key. IsTrue (contains_by (K.cmp key) self.old)) }
        ensures all_above { IfSome result (λ key. All (λ other. K.cmp key other ≡ Less) self.new) }
        ensures none { IfNone result (self.old ≡ []) }
        ensures unchanged { IfNone result (self.new ≡ self.old) }
        ensures len { length self.new + (if is_some result then 1 else 0) ≡ length self.old }
        ensures ordered { IsStrictlySortedBy K.cmp self.new }
    {
        let Some((key, _)) = self.entries.pop_first() else {
            return None;
        };
        Some(key)
    }

    /// Takes out the greatest key, if there is one. It is never refused. Costs one way down the tree.
    pub fn pop_last(&mut self) -> Option<K>
        ensures removal { IfSome result (λ key. self.old ≡ self.new ++ key ∷ []) }
        ensures member { IfSome result (λ key. IsTrue (contains_by (K.cmp key) self.old)) }
        ensures all_below { IfSome result (λ key. All (λ other. K.cmp key other ≡ Greater) self.new) }
        ensures none { IfNone result (self.old ≡ []) }
        ensures unchanged { IfNone result (self.new ≡ self.old) }
        ensures len { length self.new + (if is_some result then 1 else 0) ≡ length self.old }
        ensures ordered { IsStrictlySortedBy K.cmp self.new }
    {
        let Some((key, _)) = self.entries.pop_last() else {
            return None;
        };
        Some(key)
    }
}
