//! Pages.
ghost use Rattle.std.specs.Prelude.{◌≡◌, ◌+◌, ◌-◌, ◌<◌, ◌≤◌, ◌↔◌, ◌++◌, [], length, take, drop, insert, remove, slice_get, vec_capacity, IsTrue, IsOk, IfOk, IfErr, OnOk, OnErr, Some, Ok, Err};
ghost use Rattle.std.specs.BTreeMap.{insert_entry};
ghost use Rattle.std.specs.Borrow.{sem};
ghost use Rattle.std.specs.Map.Calls.{CallableOnEachPair};
ghost use Rattle.std.specs.Option.{option_map};
ghost use Rattle.std.specs.Ordering.{ordering_reverse};
ghost use Rattle.art_pages.specs.Entries.{IsOrdered, IsIndexable, AreKeys, IsPlaceOf};
ghost use Rattle.art_pages.specs.Retaining.{RetainsTo};

use crate::guess::place_near;
use crate::heads::{FEWEST_HEADS, Heads};
use crate::keeps::Keeps;
use crate::sift::retain_pairs;
use art_keys::{KeyBytes, RadixKey, RadixQuery};
use std::alloc::{AllocError, AllocFailed, Global};
use std::cmp::Ordering;
use std::marker::Model;
use std::mem;

/// A run of entries in ascending order of their keys, with room for more. Contracts see the list of the
/// entries, and for how many the page has memory.
pub struct Page<K: KeyBytes, V> {
    pairs: Vec<(K, V)>,
    heads: Heads,
}

impl<K: KeyBytes, V> Model for Page<K, V> {
    ghost use Rattle.std.specs.Prelude.{vec_capacity};
    ghost use Rattle.art_pages.specs.Contents.{PageContents};

    ghost Value = { PageContents K V };

    ghost use Rattle.art_pages.specs.Entries.{IsOrdered, AreKeys};

    ghost view = { λ page. record { entries = page.pairs.items; capacity = vec_capacity page.pairs } };

    ghost invariant = { λ page. IsOrdered K.order page.pairs.items × AreKeys K.is_key K.encoded page.pairs.items };
}

impl<K: KeyBytes + Drop, V: Drop> Drop for Page<K, V> {
    fn drop(self) {
        let Page { pairs, heads } = self;
    }
}

impl<K: RadixKey, V> Page<K, V> {
    ghost use Rattle.art_pages.specs.Contents.{page_with_value};
    ghost use Rattle.art_pages.specs.Lending.{LendsPageValue};

    /// A page with no entries. It takes no memory.
    pub fn new(alloc: Global) -> Self
        ensures { result.entries ≡ [] }
    {
        Page {
            pairs: Vec::new(alloc),
            heads: Heads::new(alloc),
        }
    }

    /// A page with no entries, and memory for this many.
    pub fn with_capacity(alloc: Global, capacity: usize) -> Result<Self, AllocError>
        ensures entries { IfOk result (λ page. page.entries ≡ []) }
        ensures capacity { IfOk result (λ page. capacity ≤ page.capacity) }
    {
        let pairs = Vec::with_capacity(alloc, capacity)?;
        let mut heads = Heads::new(alloc);
        heads.reserve::<K>(capacity);
        Ok(Page { pairs, heads })
    }

    /// A page with these entries, in the memory that they are in.
    pub fn from_entries(entries: Vec<(K, V)>) -> Self
        requires ordered { IsOrdered K.cmp entries.items }
        requires keys { AreKeys K.is_key K.encoded entries.items }
        ensures entries { result.entries ≡ entries.items }
        ensures capacity { result.capacity ≡ vec_capacity entries }
    {
        let mut heads = Heads::new(*entries.allocator());
        heads.follow_entries(entries.as_slice());
        Page {
            pairs: entries,
            heads,
        }
    }

    /// How many entries the page has.
    pub fn len(&self) -> usize
        ensures len { result ≡ length self.now.entries }
        ensures ordered { IsOrdered K.cmp self.now.entries }
        ensures keys { AreKeys K.is_key K.encoded self.now.entries }
    {
        self.pairs.len()
    }

    /// Whether the page has no entries.
    pub fn is_empty(&self) -> bool
        ensures { IsTrue result ↔ (self.now.entries ≡ []) }
    {
        self.pairs.is_empty()
    }

    /// For how many entries the page has memory.
    pub fn capacity(&self) -> usize
        ensures { result ≡ self.now.capacity }
    {
        self.pairs.capacity()
    }

    /// Whether the page has memory for one more entry.
    pub fn has_room(&self) -> bool
        ensures { IsTrue result ↔ (length self.now.entries < self.now.capacity) }
    {
        self.pairs.len() < self.pairs.capacity()
    }

    /// Takes memory for this many more entries, and no more than that.
    pub fn reserve(&mut self, more: usize) -> Result<(), AllocError>
        ensures entries { self.new.entries ≡ self.old.entries }
        ensures room { OnOk result (length self.new.entries + more ≤ self.new.capacity) }
        ensures capacity { self.old.capacity ≤ self.new.capacity }
        ensures refused { OnErr result (self.old.capacity < length self.old.entries + more) }
    {
        self.pairs.try_reserve_exact(more)?;
        self.heads.reserve::<K>(more);
        Ok(())
    }

    /// The index of the entry with the key of a query, or else of the first entry above it.
    pub fn search<Q: RadixQuery<K>>(&self, query: Q) -> Result<usize, usize>
        ensures { IsPlaceOf (Q.compare query) self.now.entries result }
    {
        // The laws of orders hold for queries that their type has.
        let _len = query.encoded_len();
        let pairs = self.pairs.as_slice();
        if K::WANTS_HEADS && pairs.len() < FEWEST_HEADS {
            return self.search_all(query);
        }
        let guess = self.heads.guess(pairs, query);
        match place_near(pairs, guess, query) {
            Some(place) => place,
            None => self.search_all(query),
        }
    }

    // The same with no guess.
    #[inline(never)]
    fn search_all<Q: RadixQuery<K>>(&self, query: Q) -> Result<usize, usize>
        ensures { IsPlaceOf (Q.compare query) self.now.entries result }
    {
        let _len = query.encoded_len();
        self.pairs.binary_search_by(
            |pair: &(K, V)| -> Ordering
                ensures { result ≡ ordering_reverse (Q.compare query pair.now.0) }
            { query.compare(&pair.0).reverse() },
        )
    }

    /// The entries, in order.
    pub fn entries(&self) -> &[(K, V)]
        ensures entries { result.now ≡ self.now.entries }
        ensures ordered { IsOrdered K.cmp self.now.entries }
        ensures keys { AreKeys K.is_key K.encoded self.now.entries }
    {
        self.pairs.as_slice()
    }

    /// The entry at an index below `len`.
    pub fn entry_at(&self, place: usize) -> (&K, &V)
        requires { place < length self.now.entries }
        ensures { slice_get self.now.entries place ≡ Some (result.0.now, result.1.now) }
    {
        let pair = &self.pairs[place];
        (&pair.0, &pair.1)
    }

    /// The key at an index below `len`.
    pub fn key_at(&self, place: usize) -> &K
        requires { place < length self.now.entries }
        ensures { option_map (λ entry. entry.0) (slice_get self.now.entries place) ≡ Some result.now }
    {
        &self.pairs[place].0
    }

    /// The value at an index below `len`.
    pub fn value_at(&self, place: usize) -> &V
        requires { place < length self.now.entries }
        ensures { option_map (λ entry. entry.1) (slice_get self.now.entries place) ≡ Some result.now }
    {
        &self.pairs[place].1
    }

    /// The value at an index below `len`, to be changed.
    pub fn value_mut(&mut self, place: usize) -> &mut V
        requires { place < length self.old.entries }
        ensures* writes_back { sem 𝓛 (LendsPageValue K.row V.row K.KeyBytes self.entry place result) }
        ensures value { option_map (λ entry. entry.1) (slice_get self.old.entries place) ≡ Some result.now }
    {
        &mut self.pairs[place].1
    }

    /// Replaces the value at an index below `len`, and returns the old one.
    pub fn replace_value(&mut self, place: usize, value: V) -> V
        requires { place < length self.old.entries }
        ensures value { option_map (λ entry. entry.1) (slice_get self.old.entries place) ≡ Some result }
        ensures page { self.new ≡ page_with_value self.old place value }
    {
        mem::replace(&mut self.pairs[place].1, value)
    }

    /// The first entry.
    pub fn first(&self) -> Option<(&K, &V)>
        ensures { option_map (λ entry. (entry.0.now, entry.1.now)) result ≡ slice_get self.now.entries 0 }
    {
        let pair = self.pairs.first()?;
        Some((&pair.0, &pair.1))
    }

    /// The last entry.
    pub fn last(&self) -> Option<(&K, &V)>
        ensures { option_map (λ entry. (entry.0.now, entry.1.now)) result
            ≡ slice_get self.now.entries (length self.now.entries - 1) }
    {
        let pair = self.pairs.last()?;
        Some((&pair.0, &pair.1))
    }

    /// Puts an entry into the gap where `search` did not find its key. Without spare capacity it takes
    /// memory; refused, the entries are unchanged, and the entry is returned.
    pub fn insert_at(&mut self, place: usize, key: K, value: V) -> Result<(), AllocFailed<(K, V)>>
        requires gap { IsPlaceOf (K.cmp key) self.old.entries (Err place) }
        requires key { IsIndexable K.is_key K.encoded key }
        ensures entries { OnOk result (self.new.entries ≡ insert_entry K.cmp self.old.entries key value) }
        ensures placed { OnOk result (self.new.entries ≡ insert self.old.entries place (key, value)) }
        ensures with_room { length self.old.entries < self.old.capacity → IsOk result × (self.new.capacity ≡ self.old.capacity) }
        ensures returned { IfErr result (λ refused. refused.value ≡ (key, value)) }
        ensures unchanged { OnErr result (self.new.entries ≡ self.old.entries) }
        ensures capacity { self.old.capacity ≤ self.new.capacity }
    {
        self.pairs.insert(place, (key, value))?;
        self.heads.follow_insert(self.pairs.as_slice(), place);
        Ok(())
    }

    /// Takes out the entry at an index below `len`. The capacity stays.
    pub fn remove_at(&mut self, place: usize) -> (K, V)
        requires { place < length self.old.entries }
        ensures entry { slice_get self.old.entries place ≡ Some result }
        ensures entries { self.new.entries ≡ remove self.old.entries place }
        ensures capacity { self.new.capacity ≡ self.old.capacity }
    {
        self.heads.follow_remove(place);
        self.pairs.remove(place)
    }

    /// Moves the entries from an index on into a page of their own, which has memory for `room` entries or
    /// more. Refused memory, the page is unchanged.
    pub fn split_off(&mut self, place: usize, room: usize) -> Result<Self, AllocError>
        requires { place ≤ length self.old.entries }
        ensures lower { OnOk result (self.new.entries ≡ take place self.old.entries) }
        ensures upper { IfOk result (λ page. page.entries ≡ drop place self.old.entries) }
        ensures room { IfOk result (λ page. room ≤ page.capacity) }
        ensures unchanged { OnErr result (self.new.entries ≡ self.old.entries) }
        ensures capacity { self.old.capacity ≤ self.new.capacity }
    {
        let mut upper = self.pairs.split_off(place)?;
        if upper
            .try_reserve_exact(room.saturating_sub(upper.len()))
            .is_err()
        {
            let _moved = self.pairs.append(&mut upper);
            upper.destroy_empty();
            return Err(AllocError);
        }
        let heads = self
            .heads
            .follow_split(self.pairs.as_slice(), upper.as_slice(), room);
        Ok(Page {
            pairs: upper,
            heads,
        })
    }

    /// Moves the entries of a page that lies above this one to its end. With enough spare capacity it does
    /// not fail. Refused memory, the entries are unchanged, and the other page is returned.
    pub fn append(&mut self, mut other: Self) -> Result<(), AllocFailed<Self>>
        requires { IsOrdered K.cmp (self.old.entries ++ other.entries) }
        ensures entries { OnOk result (self.new.entries ≡ self.old.entries ++ other.entries) }
        ensures with_room { length self.old.entries + length other.entries ≤ self.old.capacity → IsOk result }
        ensures returned { IfErr result (λ refused. refused.value.entries ≡ other.entries) }
        ensures unchanged { OnErr result (self.new.entries ≡ self.old.entries) }
        ensures capacity { self.old.capacity ≤ self.new.capacity }
    {
        if self.pairs.append(&mut other.pairs).is_err() {
            return Err(AllocFailed { value: other });
        }
        let Page { pairs, heads } = other;
        pairs.destroy_empty();
        self.heads.follow_entries(self.pairs.as_slice());
        Ok(())
    }

    /// Drops the entries from an index on. The capacity stays.
    pub fn truncate(&mut self, len: usize)
    where
        K: Drop,
        V: Drop,
        ensures entries { self.new.entries ≡ take len self.old.entries }
        ensures capacity { self.new.capacity ≡ self.old.capacity }
    {
        self.pairs.truncate(len);
        self.heads.follow_truncate(len);
    }

    /// Tests each entry in turn, and drops those that the test does not keep: so many are gone. The test
    /// may change the values. The capacity stays.
    pub fn retain<F: Keeps<K, V>>(&mut self, test: &mut F) -> usize
    where
        K: Drop,
        V: Drop,
        requires { CallableOnEachPair F.step F.accepts test.old self.old.entries }
        ensures retained { RetainsTo F.step test.old self.old.entries self.new.entries test.new }
        ensures gone { length self.new.entries + result ≡ length self.old.entries }
        ensures capacity { self.new.capacity ≡ self.old.capacity }
    {
        let before = self.pairs.len();
        retain_pairs(&mut self.pairs, test);
        let gone = before - self.pairs.len();
        if gone != 0 {
            self.heads.follow_entries(self.pairs.as_slice());
        }
        gone
    }

    /// Drops all entries. The capacity stays.
    pub fn clear(&mut self)
    where
        K: Drop,
        V: Drop,
        ensures entries { self.new.entries ≡ [] }
        ensures capacity { self.new.capacity ≡ self.old.capacity }
    {
        self.pairs.clear();
        self.heads.follow_truncate(0);
    }

    /// The entries, in order.
    pub fn into_entries(self) -> Vec<(K, V)>
        ensures { result.items ≡ self.entries }
    {
        let Page { pairs, heads } = self;
        pairs
    }
}
