//! Maps by bytes.
ghost use Rattle.std.specs.Prelude.{IfErr, IfNone, IfOk, IfSome, None, OnErr, OnOk, Some, [], drop, get_or, if◌then◌else◌, length, min, reverse, take, true, ◌-◌, ◌<◌, ◌≡◌};
ghost use Rattle.std.specs.List.{zip};
ghost use Rattle.std.specs.Option.{option_map};
ghost use Rattle.art_bytes.specs.Text.{text_order};
ghost use Rattle.art_c_maps.specs.Batch.{ends_of, joined_keys, next_fitting, previous_fitting, unfit_len};
ghost use Rattle.art_c_maps.specs.Buffers.{key_fits, key_written, len_and_value};
ghost use Rattle.art_c_maps.specs.Entries.{begun_with, entries_from, entries_in_bytes, entries_to, entries_with_prefix, first_of, keys_of, last_of, next_entries, put, put_each, value_of, values_of, without};
ghost use Rattle.art_c_maps.specs.Lent.{LendsNext};
ghost use Rattle.art_c_maps.specs.Loads.{IsBytesLoadRefused, TakesBytes};
ghost use Rattle.art_c_maps.specs.Many.{are_found, cut, found_values};
ghost use Rattle.art_c_maps.specs.Refusals.{IsBytesRefused, IsNotTooLong};

use crate::batch::write_batch;
use crate::buffers::{found_fits, write_found, write_removed};
use crate::byte_string::ByteString;
use crate::lending::lend_entries;
use crate::lent::BytesEntry;
use crate::limit::{Limit, bound_at, limits_from, limits_to};
use crate::loads::{keys_ascend, map_of_bytes, some_too_long};
use crate::loan::Loan;
use crate::many::{bytes_between, found_beside};
use crate::refusal::{LoadRefusal, Refusal, is_too_long};
use art_map::{Iter, Map};
use std::alloc::Global;
use std::marker::Model;
use std::mem;
use std::ops::Bound;

/// An ordered map from byte strings, any at all, to 64-bit values: the list of its entries, in ascending
/// order of the bytes of their keys. No call has a condition. A call takes memory only where it says so.
#[derive(Drop)]
pub struct BytesMap {
    entries: Map<ByteString, u64>,
}

impl Model for BytesMap {
    ghost use Rattle.std.specs.Prelude.{List, ℕ};
    ghost use Rattle.art_c_maps.specs.Entries.{entries_in_bytes};

    ghost Value = { List (List ℕ × ℕ) };

    ghost view = { λ map. entries_in_bytes map.entries };
}

impl BytesMap {
    // The entries at a key or after it, only after it where it is not included.
    fn from(&self, key: &[u8], inclusive: bool) -> Iter<'_, ByteString, u64>
        ensures { entries_in_bytes result ≡ entries_from text_order inclusive key.now self.now }
    {
        let end: Bound<Limit> = Bound::Unbounded;
        self.entries.within((bound_at(key, inclusive), end))
    }

    // The entries at a key or before it, only before it where it is not included.
    fn up_to(&self, key: &[u8], inclusive: bool) -> Iter<'_, ByteString, u64>
        ensures { entries_in_bytes result ≡ entries_to text_order inclusive key.now self.now }
    {
        let start: Bound<Limit> = Bound::Unbounded;
        self.entries.within((start, bound_at(key, inclusive)))
    }

    // The entries at a key or after it, of those whose keys begin with a prefix.
    fn from_with_prefix(
        &self,
        prefix: &[u8],
        key: &[u8],
        inclusive: bool,
    ) -> Iter<'_, ByteString, u64>
        ensures { entries_in_bytes result ≡ entries_from text_order inclusive key.now
            (entries_with_prefix prefix.now self.now) }
    {
        self.entries.within(limits_from(prefix, key, inclusive))
    }

    // The entries at a key or before it, of those whose keys begin with a prefix.
    fn up_to_with_prefix(
        &self,
        prefix: &[u8],
        key: &[u8],
        inclusive: bool,
    ) -> Iter<'_, ByteString, u64>
        ensures { entries_in_bytes result ≡ entries_to text_order inclusive key.now
            (entries_with_prefix prefix.now self.now) }
    {
        self.entries.within(limits_to(prefix, key, inclusive))
    }

    // Sets the value of a key that is there, and returns the value that it had.
    fn replace(&mut self, key: &[u8], value: u64) -> Option<u64>
        ensures before { result ≡ value_of text_order self.old key.now }
        ensures replaced { IfSome result (λ _. self.new ≡ put text_order self.old key.now value) }
        ensures same_entries { IfNone result (self.new ≡ self.old) }
    {
        let there = self.entries.get_mut(key)?;
        Some(mem::replace(there, value))
    }

    // Sets the value of a key where it is there. Where it is not, it is refused for memory.
    fn replace_only(&mut self, key: &[u8], value: u64) -> Result<Option<u64>, Refusal>
        requires { IsNotTooLong key.now }
        ensures replaced { IfOk result
            (λ before. before ≡ value_of text_order self.old key.now) }
        ensures entries { OnOk result (self.new ≡ put text_order self.old key.now value) }
        ensures refusal_due { IfErr result (IsBytesRefused self.old key.now) }
        ensures same_entries { OnErr result (self.new ≡ self.old) }
    {
        match self.replace(key, value) {
            Some(before) => Ok(Some(before)),
            None => Err(Refusal::OutOfMemory),
        }
    }

    // Inserts a key that is not too long, on one way down the tree.
    fn insert_once(&mut self, alloc: Global, key: &[u8], value: u64) -> Result<Option<u64>, Refusal>
        requires { IsNotTooLong key.now }
        ensures replaced { IfOk result
            (λ before. before ≡ value_of text_order self.old key.now) }
        ensures entries { OnOk result (self.new ≡ put text_order self.old key.now value) }
        ensures refusal_due { IfErr result (IsBytesRefused self.old key.now) }
        ensures same_entries { OnErr result (self.new ≡ self.old) }
    {
        let Ok(owned) = ByteString::new(alloc, key) else {
            return self.replace_only(key, value);
        };
        match self.entries.insert(owned, value) {
            Ok(before) => Ok(before),
            Err(_) => Err(Refusal::OutOfMemory),
        }
    }
}

impl BytesMap {
    /// A map with no entries. Takes no memory.
    pub fn new(alloc: Global) -> BytesMap
        ensures { result ≡ [] }
    {
        BytesMap {
            entries: Map::new(alloc),
        }
    }

    /// The number of entries. Takes constant time.
    pub fn len(&self) -> usize
        ensures { result ≡ length self.now }
    {
        self.entries.len()
    }

    /// Removes all entries.
    pub fn clear(&mut self)
        ensures { self.new ≡ [] }
    {
        self.entries.clear();
    }

    /// Sets the value of a key, and returns the value that it had.
    ///
    /// Takes memory for a key that is not there, and none where it is there or too long. After a refusal the
    /// entries are unchanged.
    pub fn insert(&mut self, alloc: Global, key: &[u8], value: u64) -> Result<Option<u64>, Refusal>
        ensures replaced { IfOk result
            (λ before. before ≡ value_of text_order self.old key.now) }
        ensures entries { OnOk result (self.new ≡ put text_order self.old key.now value) }
        ensures not_too_long { OnOk result (IsNotTooLong key.now) }
        ensures refusal_due { IfErr result (IsBytesRefused self.old key.now) }
        ensures same_entries { OnErr result (self.new ≡ self.old) }
    {
        if is_too_long(key) {
            return Err(Refusal::KeyTooLong);
        }
        if ByteString::takes_memory(key) {
            if let Some(before) = self.replace(key, value) {
                return Ok(Some(before));
            }
        }
        self.insert_once(alloc, key, value)
    }

    /// The value of a key, or None where there is none.
    pub fn get(&self, key: &[u8]) -> Option<u64>
        ensures { result ≡ value_of text_order self.now key.now }
    {
        self.entries.get(key).copied()
    }

    /// Removes a key, and returns the value that it had. It is never refused.
    pub fn remove(&mut self, key: &[u8]) -> Option<u64>
        ensures removed { result ≡ value_of text_order self.old key.now }
        ensures entries { self.new ≡ without text_order self.old key.now }
    {
        self.entries.remove(key)
    }

    /// Finds the first entry at a key or after it, only after it where it is not included. Writes its key
    /// where it fits, and returns its key's length and its value.
    pub fn next(&self, from: &[u8], inclusive: bool, key_out: &mut [u8]) -> Option<(usize, u64)>
        ensures found { result ≡ option_map len_and_value
            (first_of (entries_from text_order inclusive from.now self.now)) }
        ensures written { key_out.new ≡ key_written
            (first_of (entries_from text_order inclusive from.now self.now)) key_out.old }
    {
        write_found(self.from(from, inclusive).next(), key_out)
    }

    /// Finds the last entry at a key or before it, only before it where it is not included. Writes its key
    /// where it fits, and returns its key's length and its value.
    pub fn previous(&self, from: &[u8], inclusive: bool, key_out: &mut [u8]) -> Option<(usize, u64)>
        ensures found { result ≡ option_map len_and_value
            (last_of (entries_to text_order inclusive from.now self.now)) }
        ensures written { key_out.new ≡ key_written
            (last_of (entries_to text_order inclusive from.now self.now)) key_out.old }
    {
        write_found(self.up_to(from, inclusive).next_back(), key_out)
    }

    /// Finds the first entry at a key or after it, only after it where it is not included, of those whose
    /// keys begin with a prefix. Writes its key where it fits, and returns its key's length and its value.
    pub fn next_with_prefix(
        &self,
        prefix: &[u8],
        from: &[u8],
        inclusive: bool,
        key_out: &mut [u8],
    ) -> Option<(usize, u64)>
        ensures found { result ≡ option_map len_and_value
            (first_of (entries_from text_order inclusive from.now
            (entries_with_prefix prefix.now self.now))) }
        ensures written { key_out.new ≡ key_written
            (first_of (entries_from text_order inclusive from.now
            (entries_with_prefix prefix.now self.now))) key_out.old }
    {
        write_found(
            self.from_with_prefix(prefix, from, inclusive).next(),
            key_out,
        )
    }

    /// Writes the first entries at a key or after it, only after it where it is not included, of those whose
    /// keys begin with a prefix: the keys one behind another, where each ends among them, and the values. As
    /// many as the shorter of `ends` and `values` holds, and before the first key that no longer fits.
    /// Returns how many, and where none is written the number of bytes of the first one's key, if there is
    /// one. Goes down the tree to the first entry and to the end of the prefix, and then along the pages.
    pub fn next_many(
        &self,
        prefix: &[u8],
        from: &[u8],
        inclusive: bool,
        keys: &mut [u8],
        ends: &mut [usize],
        values: &mut [u64],
    ) -> (usize, Option<usize>)
        ensures count { result.0 ≡ length (next_fitting
            (min (length ends.old) (length values.old)) (length keys.old)
            prefix.now inclusive from.now self.now) }
        ensures unfit { result.1 ≡ unfit_len
            (next_fitting (min (length ends.old) (length values.old)) (length keys.old)
            prefix.now inclusive from.now self.now)
            (first_of (entries_from text_order inclusive from.now
            (entries_with_prefix prefix.now self.now))) }
        ensures keys { keys.new ≡ begun_with (joined_keys (keys_of (next_fitting
            (min (length ends.old) (length values.old)) (length keys.old)
            prefix.now inclusive from.now self.now))) keys.old }
        ensures ends { ends.new ≡ begun_with (ends_of (next_fitting
            (min (length ends.old) (length values.old)) (length keys.old)
            prefix.now inclusive from.now self.now)) ends.old }
        ensures values { values.new ≡ begun_with (values_of (next_fitting
            (min (length ends.old) (length values.old)) (length keys.old)
            prefix.now inclusive from.now self.now)) values.old }
    {
        let entries = self.from_with_prefix(prefix, from, inclusive);
        write_batch(entries, false, keys, ends, values)
    }

    /// Lends the first entries at a key or after it, only after it where it is not included, of those whose keys
    /// begin with a prefix: the addresses of their keys, and their values, as many as there are places. Returns
    /// how many.
    pub fn lend_next<'a>(
        &'a self,
        loan: Loan<'a>,
        prefix: &[u8],
        from: &[u8],
        inclusive: bool,
        out: &mut [BytesEntry],
    ) -> usize
        ensures { LendsNext loan.entry.life (next_entries text_order (length out.old) inclusive from.now
            (entries_with_prefix prefix.now self.now)) out.old out.new result }
    {
        let entries = self.from_with_prefix(prefix, from, inclusive);
        lend_entries(entries, &loan, out)
    }

    /// Writes the last entries at a key or before it, only before it where it is not included, of those
    /// whose keys begin with a prefix, from the last one down. Else as [`next_many`](Self::next_many).
    pub fn previous_many(
        &self,
        prefix: &[u8],
        from: &[u8],
        inclusive: bool,
        keys: &mut [u8],
        ends: &mut [usize],
        values: &mut [u64],
    ) -> (usize, Option<usize>)
        ensures count { result.0 ≡ length (previous_fitting
            (min (length ends.old) (length values.old)) (length keys.old)
            prefix.now inclusive from.now self.now) }
        ensures unfit { result.1 ≡ unfit_len
            (previous_fitting (min (length ends.old) (length values.old)) (length keys.old)
            prefix.now inclusive from.now self.now)
            (first_of (reverse (entries_to text_order inclusive from.now
            (entries_with_prefix prefix.now self.now)))) }
        ensures keys { keys.new ≡ begun_with (joined_keys (keys_of (previous_fitting
            (min (length ends.old) (length values.old)) (length keys.old)
            prefix.now inclusive from.now self.now))) keys.old }
        ensures ends { ends.new ≡ begun_with (ends_of (previous_fitting
            (min (length ends.old) (length values.old)) (length keys.old)
            prefix.now inclusive from.now self.now)) ends.old }
        ensures values { values.new ≡ begun_with (values_of (previous_fitting
            (min (length ends.old) (length values.old)) (length keys.old)
            prefix.now inclusive from.now self.now)) values.old }
    {
        let entries = self.up_to_with_prefix(prefix, from, inclusive);
        write_batch(entries, true, keys, ends, values)
    }

    /// Finds the entry with the least key. Writes its key where it fits, and returns its key's length and
    /// its value, or None where there is no entry.
    pub fn first(&self, key_out: &mut [u8]) -> Option<(usize, u64)>
        ensures found { result ≡ option_map len_and_value (first_of self.now) }
        ensures written { key_out.new ≡ key_written (first_of self.now) key_out.old }
    {
        write_found(self.entries.first_key_value(), key_out)
    }

    /// Finds the entry with the greatest key. Writes its key where it fits, and returns its key's length
    /// and its value, or None where there is no entry.
    pub fn last(&self, key_out: &mut [u8]) -> Option<(usize, u64)>
        ensures found { result ≡ option_map len_and_value (last_of self.now) }
        ensures written { key_out.new ≡ key_written (last_of self.now) key_out.old }
    {
        write_found(self.entries.last_key_value(), key_out)
    }

    /// As [`first`](Self::first), and removes the entry where its key fits. It is never refused.
    pub fn pop_first(&mut self, key_out: &mut [u8]) -> Option<(usize, u64)>
        ensures found { result ≡ option_map len_and_value (first_of self.old) }
        ensures written { key_out.new ≡ key_written (first_of self.old) key_out.old }
        ensures entries { self.new
            ≡ (if key_fits (first_of self.old) (length key_out.old) then drop 1 self.old else self.old) }
    {
        if !found_fits(self.entries.first_key_value(), key_out.len()) {
            return self.first(key_out);
        }
        let removed = self.entries.pop_first();
        write_removed(removed, key_out)
    }

    /// As [`last`](Self::last), and removes the entry where its key fits. It is never refused.
    pub fn pop_last(&mut self, key_out: &mut [u8]) -> Option<(usize, u64)>
        ensures found { result ≡ option_map len_and_value (last_of self.old) }
        ensures written { key_out.new ≡ key_written (last_of self.old) key_out.old }
        ensures entries { self.new
            ≡ (if key_fits (last_of self.old) (length key_out.old)
            then take (length self.old - 1) self.old else self.old) }
    {
        if !found_fits(self.entries.last_key_value(), key_out.len()) {
            return self.last(key_out);
        }
        let removed = self.entries.pop_last();
        write_removed(removed, key_out)
    }

    /// How many keys begin with these bytes. Takes time linear in their number.
    pub fn count_prefix(&self, prefix: &[u8]) -> usize
        ensures { result ≡ length (entries_with_prefix prefix.now self.now) }
    {
        // The count is no greater, so it fits.
        let _most = self.entries.len();
        self.entries.prefix(prefix).count()
    }

    /// Looks up many keys, as [`get`](Self::get) does: bytes, cut where each key ends. `found` has a 1 for each
    /// that has an entry, and a 0 for each other, and `values` the value of each that has one. As many as the
    /// shortest of `ends`, `found` and `values` holds: returns how many.
    pub fn get_many(
        &self,
        keys: &[u8],
        ends: &[usize],
        found: &mut [u8],
        values: &mut [u64],
    ) -> usize
        ensures count { result ≡ min (length ends.now) (min (length found.old) (length values.old)) }
        ensures found { found.new ≡ begun_with (are_found (value_of text_order self.now)
            (take result (cut keys.now ends.now))) found.old }
        ensures values { values.new ≡ begun_with (found_values (value_of text_order self.now)
            (take result (zip (cut keys.now ends.now) values.old))) values.old }
    {
        let count = ends.len().min(found.len().min(values.len()));
        let mut start = 0;
        for index in 0..count {
            let end = ends[index];
            let value = self.get(bytes_between(keys, start, end));
            let (is_found, value) = found_beside(value, values[index]);
            found[index] = is_found;
            values[index] = value;
            start = end;
        }
        count
    }

    /// Sets the values of many keys one after another, as [`insert`](Self::insert) does: bytes, cut where each
    /// key ends. As many as the shorter of `ends` and `values` holds. Stops at the first that is refused.
    /// Returns how many were set, and why the next one is refused, if it is.
    pub fn insert_many(
        &mut self,
        alloc: Global,
        keys: &[u8],
        ends: &[usize],
        values: &[u64],
    ) -> (usize, Result<(), Refusal>)
        ensures entries { self.new ≡ put_each text_order self.old
            (take result.0 (zip (cut keys.now ends.now) values.now)) }
        ensures all { OnOk result.1 (result.0 ≡ length (zip (cut keys.now ends.now) values.now)) }
        ensures stopped { OnErr result.1 (result.0 < length (zip (cut keys.now ends.now) values.now)) }
        ensures refusal_due { IfErr result.1 (IsBytesRefused self.new
            (get_or (cut keys.now ends.now) result.0 [])) }
    {
        let count = ends.len().min(values.len());
        let mut start = 0;
        for index in 0..count {
            let end = ends[index];
            match self.insert(alloc, bytes_between(keys, start, end), values[index]) {
                Ok(_) => start = end,
                Err(refusal) => return (index, Err(refusal)),
            }
        }
        (count, Ok(()))
    }

    /// Puts many entries, whose keys must ascend, into a map that has none: bytes, cut where each key ends.
    /// All of them, as many as the shorter of `ends` and `values` holds, or none. They fill their pages. Costs
    /// as much as the inserts.
    ///
    /// The keys are looked at before memory is taken. After a refusal the entries are unchanged.
    pub fn load(
        &mut self,
        alloc: Global,
        keys: &[u8],
        ends: &[usize],
        values: &[u64],
    ) -> Result<(), LoadRefusal>
        ensures entries { OnOk result (self.new ≡ zip (cut keys.now ends.now) values.now) }
        ensures taken { OnOk result
            (TakesBytes self.old (keys_of (zip (cut keys.now ends.now) values.now))) }
        ensures refusal_due { IfErr result
            (IsBytesLoadRefused self.old (keys_of (zip (cut keys.now ends.now) values.now))) }
        ensures same_entries { OnErr result (self.new ≡ self.old) }
    {
        let is_empty = self.len() == 0;
        if !is_empty {
            return Err(LoadRefusal::NotEmpty);
        }
        let count = ends.len().min(values.len());
        let wanted = &ends[..count];
        if !keys_ascend(keys, wanted) {
            return Err(LoadRefusal::NotAscending);
        }
        if some_too_long(keys, wanted) {
            return Err(LoadRefusal::KeyTooLong);
        }
        match map_of_bytes(alloc, keys, ends, values) {
            Ok(loaded) => {
                self.entries = loaded;
                Ok(())
            }
            Err(_) => Err(LoadRefusal::OutOfMemory),
        }
    }
}
