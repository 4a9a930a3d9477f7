//! Entries taken out.
ghost use Rattle.std.specs.Prelude.{◌≡◌, ◌+◌, ◌∷◌, ◌++◌, [], length, is_some, if◌then◌else◌, IfNone, IfSome, Some};
ghost use Rattle.std.specs.BTreeMap.{is_at};
ghost use Rattle.std.specs.Map.{remove_entry};
ghost use Rattle.std.specs.Option.{option_map};
ghost use Rattle.art_pages.specs.Entries.{AllAbove, AllBelow, IsOrdered, get_by, get_key_by};

use super::Map;
use crate::ends::{take_first, take_last};
use crate::take::take;
use art_keys::{RadixKey, RadixQuery};

impl<K: RadixKey, V> Map<K, V> {
    /// Takes out the entry with the key of a query, if there is one. It is never
    /// refused: an emptied page stays where a smaller node would need memory that is refused.
    pub fn remove_entry<Q: RadixQuery<K>>(&mut self, key: Q) -> Option<(K, V)>
        ensures key { option_map (λ entry. entry.0) result ≡ get_key_by (Q.compare key) self.old }
        ensures value { option_map (λ entry. entry.1) result ≡ get_by (Q.compare key) self.old }
        ensures entries { self.new ≡ remove_entry (is_at (Q.compare key)) self.old }
        ensures unchanged { IfNone result (self.new ≡ self.old) }
        ensures len { length self.new + (if is_some result then 1 else 0) ≡ length self.old }
        ensures ordered { IsOrdered K.cmp self.new }
    {
        match take(&mut self.head, &mut self.tree, key) {
            Some(entry) => {
                self.len -= 1;
                Some(entry)
            }
            None => None,
        }
    }

    /// Takes out the entry with the key of a query, if there is one, and returns its value. It is never
    /// refused, as [`remove_entry`](Self::remove_entry).
    pub fn remove<Q: RadixQuery<K>>(&mut self, key: Q) -> Option<V>
    where
        K: Drop,
        ensures value { result ≡ get_by (Q.compare key) self.old }
        ensures entries { self.new ≡ remove_entry (is_at (Q.compare key)) self.old }
        ensures unchanged { IfNone result (self.new ≡ self.old) }
        ensures len { length self.new + (if is_some result then 1 else 0) ≡ length self.old }
        ensures ordered { IsOrdered K.cmp self.new }
    {
        match self.remove_entry(key) {
            Some((_, value)) => Some(value),
            None => None,
        }
    }

    /// Drops all entries, and gives the memory of the pages but the first back. It takes none.
    pub fn clear(&mut self)
    where
        K: Drop,
        V: Drop,
        ensures { self.new ≡ [] }
    {
        self.head.clear();
        self.tree = None;
        self.len = 0;
    }

    /// Takes out the first entry, if there is one. It is never refused.
    pub fn pop_first(&mut self) -> Option<(K, V)>
        ensures removal { IfSome result (λ entry. self.old ≡ entry ∷ self.new) }
        ensures value { IfSome result (λ entry. get_by (K.cmp entry.0) self.old ≡ Some entry.1) }
        ensures all_above { IfSome result (λ entry. AllAbove (K.cmp entry.0) self.new) }
        ensures none { IfNone result (self.old ≡ []) }
        ensures unchanged { IfNone result (self.new ≡ self.old) }
        ensures len { length self.new + (if is_some result then 1 else 0) ≡ length self.old }
        ensures ordered { IsOrdered K.cmp self.new }
    {
        match take_first(&mut self.head, &mut self.tree) {
            Some(entry) => {
                self.len -= 1;
                Some(entry)
            }
            None => None,
        }
    }

    /// Takes out the last entry, if there is one. It is never refused.
    pub fn pop_last(&mut self) -> Option<(K, V)>
        ensures removal { IfSome result (λ entry. self.old ≡ self.new ++ entry ∷ []) }
        ensures value { IfSome result (λ entry. get_by (K.cmp entry.0) self.old ≡ Some entry.1) }
        ensures all_below { IfSome result (λ entry. AllBelow (K.cmp entry.0) self.new) }
        ensures none { IfNone result (self.old ≡ []) }
        ensures unchanged { IfNone result (self.new ≡ self.old) }
        ensures len { length self.new + (if is_some result then 1 else 0) ≡ length self.old }
        ensures ordered { IsOrdered K.cmp self.new }
    {
        match take_last(&mut self.head, &mut self.tree) {
            Some(entry) => {
                self.len -= 1;
                Some(entry)
            }
            None => None,
        }
    }
}
