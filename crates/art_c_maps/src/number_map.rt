//! Maps by 64-bit numbers.
ghost use Rattle.std.specs.Prelude.{◌≡◌, ◌-◌, ◌<◌, [], drop, get_or, length, min, take, IfErr, IfOk, None, OnErr, OnOk, not, if◌then◌else◌};
ghost use Rattle.std.specs.BTreeMap.Range.{is_from_start, is_past_end};
ghost use Rattle.std.specs.List.{zip};
ghost use Rattle.std.specs.Option.{option_map};
ghost use Rattle.std.specs.Ordering.{is_ge, is_gt, is_le, is_lt, nat_cmp};
ghost use Rattle.art_c_maps.specs.Batch.{toward};
ghost use Rattle.art_c_maps.specs.Entries.{begun_with, entries_from, entries_to, first_of, keys_of, last_of, next_entries, previous_entries, put, put_each, value_of, values_of, without};
ghost use Rattle.art_c_maps.specs.Lent.{LendsRun};
ghost use Rattle.art_c_maps.specs.Loads.{IsNumberLoadRefused, TakesNumbers};
ghost use Rattle.art_c_maps.specs.Many.{are_found, found_values};

use crate::lent::NumberRun;
use crate::loads::{map_of_numbers, numbers_ascend};
use crate::loan::Loan;
use crate::many::{found_beside, next_entry};
use crate::refusal::LoadRefusal;
use art_map::{Iter, Map};
use std::alloc::{AllocError, Global};
use std::marker::Model;
use std::ops::Bound;

/// An ordered map from 64-bit numbers to 64-bit values: the list of its entries, in ascending order of
/// their keys. No call has a condition. A call takes memory only where it says so.
#[derive(Drop)]
pub struct NumberMap {
    entries: Map<u64, u64>,
}

impl Model for NumberMap {
    ghost use Rattle.std.specs.Prelude.{List, ℕ};

    ghost Value = { List (ℕ × ℕ) };

    ghost view = { λ map. map.entries };
}

// Key and value of an entry that was found.
fn entry_of(found: Option<(&u64, &u64)>) -> Option<(u64, u64)>
    ensures { result ≡ option_map (λ (key, value). (key.now, value.now)) found.entry }
{
    let (key, value) = found?;
    Some((*key, *value))
}

// Writes the first of these entries, or the last ones where it goes backward, as many as the shorter of both
// slices holds. Returns how many.
fn write_entries(
    mut entries: Iter<'_, u64, u64>,
    backward: bool,
    keys: &mut [u64],
    values: &mut [u64],
) -> usize
    ensures count { result ≡ length
        (take (min (length keys.old) (length values.old)) (toward backward entries.entry)) }
    ensures keys { keys.new ≡ begun_with (keys_of
        (take (min (length keys.old) (length values.old)) (toward backward entries.entry))) keys.old }
    ensures values { values.new ≡ begun_with (values_of
        (take (min (length keys.old) (length values.old)) (toward backward entries.entry))) values.old }
{
    let room = keys.len().min(values.len());
    for index in 0..room {
        let Some((key, value)) = next_entry(&mut entries, backward) else {
            return index;
        };
        keys[index] = *key;
        values[index] = *value;
    }
    room
}

// A bound at a key: of a start or an end within which the key itself is where it is included.
fn bound_at(key: u64, inclusive: bool) -> Bound<u64>
    ensures start { (x : _) → is_from_start nat_cmp result x
        ≡ (if inclusive then is_le (nat_cmp key x) else is_lt (nat_cmp key x)) }
    ensures end { (x : _) → not (is_past_end nat_cmp result x)
        ≡ (if inclusive then is_ge (nat_cmp key x) else is_gt (nat_cmp key x)) }
{
    if inclusive {
        Bound::Included(key)
    } else {
        Bound::Excluded(key)
    }
}

impl NumberMap {
    // The entries at a key or after it, only after it where it is not included.
    fn from(&self, key: u64, inclusive: bool) -> Iter<'_, u64, u64>
        ensures { result ≡ entries_from nat_cmp inclusive key self.now }
    {
        self.entries
            .range((bound_at(key, inclusive), Bound::Unbounded))
    }

    // The entries at a key or before it, only before it where it is not included.
    fn up_to(&self, key: u64, inclusive: bool) -> Iter<'_, u64, u64>
        ensures { result ≡ entries_to nat_cmp inclusive key self.now }
    {
        self.entries
            .range((Bound::Unbounded, bound_at(key, inclusive)))
    }

    /// A map with no entries. Takes no memory.
    pub fn new(alloc: Global) -> NumberMap
        ensures { result ≡ [] }
    {
        NumberMap {
            entries: Map::new(alloc),
        }
    }

    /// The number of entries. Takes constant time.
    pub fn len(&self) -> usize
        ensures { result ≡ length self.now }
    {
        self.entries.len()
    }

    /// Removes all entries.
    pub fn clear(&mut self)
        ensures { self.new ≡ [] }
    {
        self.entries.clear();
    }

    /// Sets the value of a key, and returns the value that it had.
    ///
    /// Takes memory for a key that is not there. Error: [`AllocError`] where that is refused. The entries are
    /// unchanged.
    pub fn insert(&mut self, key: u64, value: u64) -> Result<Option<u64>, AllocError>
        ensures replaced { IfOk result (λ before. before ≡ value_of nat_cmp self.old key) }
        ensures entries { OnOk result (self.new ≡ put nat_cmp self.old key value) }
        ensures no_entry { OnErr result (value_of nat_cmp self.old key ≡ None) }
        ensures same_entries { OnErr result (self.new ≡ self.old) }
    {
        match self.entries.insert(key, value) {
            Ok(before) => Ok(before),
            Err(_) => Err(AllocError),
        }
    }

    /// The value of a key, or None where there is none.
    pub fn get(&self, key: u64) -> Option<u64>
        ensures { result ≡ value_of nat_cmp self.now key }
    {
        self.entries.get(&key).copied()
    }

    /// Removes a key, and returns the value that it had. It is never refused.
    pub fn remove(&mut self, key: u64) -> Option<u64>
        ensures removed { result ≡ value_of nat_cmp self.old key }
        ensures entries { self.new ≡ without nat_cmp self.old key }
    {
        self.entries.remove(&key)
    }

    /// The first entry at a key or after it, only after it where it is not included.
    pub fn next(&self, from: u64, inclusive: bool) -> Option<(u64, u64)>
        ensures { result ≡ first_of (entries_from nat_cmp inclusive from self.now) }
    {
        entry_of(self.from(from, inclusive).next())
    }

    /// The last entry at a key or before it, only before it where it is not included.
    pub fn previous(&self, from: u64, inclusive: bool) -> Option<(u64, u64)>
        ensures { result ≡ last_of (entries_to nat_cmp inclusive from self.now) }
    {
        entry_of(self.up_to(from, inclusive).next_back())
    }

    /// The entry with the least key, or None where there is no entry.
    pub fn first(&self) -> Option<(u64, u64)>
        ensures { result ≡ first_of self.now }
    {
        entry_of(self.entries.first_key_value())
    }

    /// The entry with the greatest key, or None where there is no entry.
    pub fn last(&self) -> Option<(u64, u64)>
        ensures { result ≡ last_of self.now }
    {
        entry_of(self.entries.last_key_value())
    }

    /// Removes the entry with the least key and returns it, or None where there is no entry. It is never
    /// refused.
    pub fn pop_first(&mut self) -> Option<(u64, u64)>
        ensures removed { result ≡ first_of self.old }
        ensures entries { self.new ≡ drop 1 self.old }
    {
        self.entries.pop_first()
    }

    /// Removes the entry with the greatest key and returns it, or None where there is no entry. It is never
    /// refused.
    pub fn pop_last(&mut self) -> Option<(u64, u64)>
        ensures removed { result ≡ last_of self.old }
        ensures entries { self.new ≡ take (length self.old - 1) self.old }
    {
        self.entries.pop_last()
    }

    /// Writes the first entries at a key or after it, only after it where it is not included: as many as
    /// the shorter of both slices holds. Returns how many.
    pub fn next_many(
        &self,
        from: u64,
        inclusive: bool,
        keys: &mut [u64],
        values: &mut [u64],
    ) -> usize
        ensures count { result ≡ length (next_entries nat_cmp
            (min (length keys.old) (length values.old)) inclusive from self.now) }
        ensures keys { keys.new ≡ begun_with (keys_of (next_entries nat_cmp
            (min (length keys.old) (length values.old)) inclusive from self.now)) keys.old }
        ensures values { values.new ≡ begun_with (values_of (next_entries nat_cmp
            (min (length keys.old) (length values.old)) inclusive from self.now)) values.old }
    {
        write_entries(self.from(from, inclusive), false, keys, values)
    }

    /// Lends the entries at a key or after it, only after it where it is not included, as they lie in the map, to
    /// the end of their page. Returns their address, and how many they are: 0 only where none follows.
    pub fn lend_run<'a>(&'a self, loan: Loan<'a>, from: u64, inclusive: bool) -> (NumberRun, usize)
        ensures { LendsRun loan.entry.life (entries_from nat_cmp inclusive from self.now) result.0 result.1 }
    {
        let mut entries = self.from(from, inclusive);
        let run = entries.next_run();
        (NumberRun::of(run, loan), run.len())
    }

    /// Writes the last entries at a key or before it, only before it where it is not included, from the last
    /// one down: as many as the shorter of both slices holds. Returns how many.
    pub fn previous_many(
        &self,
        from: u64,
        inclusive: bool,
        keys: &mut [u64],
        values: &mut [u64],
    ) -> usize
        ensures count { result ≡ length (previous_entries nat_cmp
            (min (length keys.old) (length values.old)) inclusive from self.now) }
        ensures keys { keys.new ≡ begun_with (keys_of (previous_entries nat_cmp
            (min (length keys.old) (length values.old)) inclusive from self.now)) keys.old }
        ensures values { values.new ≡ begun_with (values_of (previous_entries nat_cmp
            (min (length keys.old) (length values.old)) inclusive from self.now)) values.old }
    {
        write_entries(self.up_to(from, inclusive), true, keys, values)
    }

    /// Looks up each of these keys, as [`get`](Self::get) does: `found` has a 1 for each that has an entry, and
    /// a 0 for each other, and `values` the value of each that has one. As many as the shortest of the slices
    /// holds: returns how many.
    pub fn get_many(&self, keys: &[u64], found: &mut [u8], values: &mut [u64]) -> usize
        ensures count { result ≡ min (length keys.now) (min (length found.old) (length values.old)) }
        ensures found { found.new ≡ begun_with (are_found (value_of nat_cmp self.now)
            (take result keys.now)) found.old }
        ensures values { values.new ≡ begun_with (found_values (value_of nat_cmp self.now)
            (take result (zip keys.now values.old))) values.old }
    {
        let count = keys.len().min(found.len().min(values.len()));
        for index in 0..count {
            let (is_found, value) = found_beside(self.get(keys[index]), values[index]);
            found[index] = is_found;
            values[index] = value;
        }
        count
    }

    /// Sets the values of these keys one after another, as [`insert`](Self::insert) does: as many as the
    /// shorter of both slices holds. Stops at the first whose memory is refused, and only at one that is not
    /// there. Returns how many were set, and whether all were.
    pub fn insert_many(&mut self, keys: &[u64], values: &[u64]) -> (usize, Result<(), AllocError>)
        ensures entries { self.new ≡ put_each nat_cmp self.old (take result.0 (zip keys.now values.now)) }
        ensures all { OnOk result.1 (result.0 ≡ length (zip keys.now values.now)) }
        ensures stopped { OnErr result.1 (result.0 < length (zip keys.now values.now)) }
        ensures no_entry { OnErr result.1 (value_of nat_cmp self.new (get_or keys.now result.0 0) ≡ None) }
    {
        let count = keys.len().min(values.len());
        for index in 0..count {
            let Ok(_) = self.insert(keys[index], values[index]) else {
                return (index, Err(AllocError));
            };
        }
        (count, Ok(()))
    }

    /// Puts these entries, whose keys must ascend, into a map that has none: all of them, as many as the
    /// shorter of both slices holds, or none. They fill their pages. Costs as much as the inserts.
    ///
    /// The keys are looked at before memory is taken. After a refusal the entries are unchanged.
    pub fn load(&mut self, alloc: Global, keys: &[u64], values: &[u64]) -> Result<(), LoadRefusal>
        ensures entries { OnOk result (self.new ≡ zip keys.now values.now) }
        ensures taken { OnOk result (TakesNumbers self.old (keys_of (zip keys.now values.now))) }
        ensures refusal_due { IfErr result
            (IsNumberLoadRefused self.old (keys_of (zip keys.now values.now))) }
        ensures same_entries { OnErr result (self.new ≡ self.old) }
    {
        let is_empty = self.len() == 0;
        if !is_empty {
            return Err(LoadRefusal::NotEmpty);
        }
        let count = keys.len().min(values.len());
        let wanted = &keys[..count];
        if !numbers_ascend(wanted) {
            return Err(LoadRefusal::NotAscending);
        }
        match map_of_numbers(alloc, keys, values) {
            Ok(loaded) => {
                self.entries = loaded;
                Ok(())
            }
            Err(_) => Err(LoadRefusal::OutOfMemory),
        }
    }
}
