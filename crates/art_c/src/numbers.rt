//! The exports for maps by numbers.
ghost use Rattle.std.specs.Prelude.{◌≡◌, ◌≢◌, ◌-◌, ◌<◌, ◌⊎◌, ◌↔◌, [], None, Some, IsSome, drop, get_or, length, min, take};
ghost use Rattle.std.specs.List.{zip};
ghost use Rattle.std.specs.Option.{option_map};
ghost use Rattle.std.specs.Ordering.{nat_cmp};
ghost use Rattle.art_c.specs.Handles.{held_entries};
ghost use Rattle.art_c.specs.Statuses.{ART_HAS_MAP, ART_NONE, ART_NO_MAP, ART_NO_MEMORY, IsDone, IsRefusalStatus, number_or, status_of_found, value_or};
ghost use Rattle.art_c_maps.specs.Entries.{begun_with, entries_from, entries_to, first_of, keys_of, last_of, next_entries, previous_entries, put, put_each, value_of, values_of, without};
ghost use Rattle.art_c_maps.specs.Many.{are_found, found_or, found_values};

use crate::number_handle::NumberHandle;
use crate::number_view::NumberView;
use crate::statuses::{HAS_MAP, NO_MAP, NO_MEMORY, NONE, SOME};
use art_c_maps::NumberMap;
use std::alloc::Global;

// The status of a call that finds a value, which is written out.
pub(crate) fn value_status(found: Option<u64>, value: &mut u64) -> u32
    ensures status { result ≡ status_of_found found }
    ensures never_no_memory { result ≢ ART_NO_MEMORY }
    ensures value { value.new ≡ found_or found value.old }
{
    match found {
        Some(found) => {
            *value = found;
            SOME
        }
        None => NONE,
    }
}

// The status of a call that finds an entry, which is written out.
fn entry_status(found: Option<(u64, u64)>, key: &mut u64, value: &mut u64) -> u32
    ensures status { result ≡ status_of_found found }
    ensures never_no_memory { result ≢ ART_NO_MEMORY }
    ensures key { key.new ≡ number_or found key.old }
    ensures value { value.new ≡ value_or found value.old }
{
    match found {
        Some((found_key, found_value)) => {
            *key = found_key;
            *value = found_value;
            SOME
        }
        None => NONE,
    }
}

/// Makes an empty map behind a handle that holds none.
#[unsafe(no_mangle)]
pub extern "C" fn art_u64_new(alloc: Global, map: &mut NumberHandle) -> u32
    ensures has_map { (result ≡ ART_HAS_MAP) ↔ IsSome map.old.held }
    ensures made { (result ≢ ART_HAS_MAP) × (result ≢ ART_NO_MEMORY) →
        (result ≡ ART_NONE) × (map.new.held ≡ Some []) }
    ensures refused { (result ≡ ART_HAS_MAP) ⊎ (result ≡ ART_NO_MEMORY) →
        map.new.held ≡ map.old.held }
{
    if let Some(_) = map.lent_mut() {
        return HAS_MAP;
    }
    match map.hold(alloc, NumberMap::new(alloc)) {
        Ok(_) => NONE,
        Err(_) => NO_MEMORY,
    }
}

/// Frees the map, if there is one. The handle then holds none.
#[unsafe(no_mangle)]
pub extern "C" fn art_u64_free(alloc: Global, map: &mut NumberHandle)
    ensures { map.new.held ≡ None }
{
    map.free(alloc);
}

/// The number of entries, 0 where there is no map.
#[unsafe(no_mangle)]
pub extern "C" fn art_u64_len(map: &mut NumberView) -> usize
    ensures len { result ≡ length (held_entries map.old.seen) }
    ensures same { map.new ≡ map.old }
{
    let Some(held) = map.lent() else {
        return 0;
    };
    let len = held.len();
    len
}

/// Removes all entries.
#[unsafe(no_mangle)]
pub extern "C" fn art_u64_clear(map: &mut NumberHandle)
    ensures { map.new.held ≡ option_map (λ _. []) map.old.held }
{
    let Some(held) = map.lent_mut() else {
        return;
    };
    held.clear();
}

/// Sets the value of a key, and writes out the one that it had.
#[unsafe(no_mangle)]
pub extern "C" fn art_u64_insert(
    map: &mut NumberHandle,
    key: u64,
    value: u64,
    before: &mut u64,
) -> u32
    ensures no_map { (result ≡ ART_NO_MAP) ↔ (map.old.held ≡ None) }
    ensures entries { IsDone result →
        map.new.held ≡ Some (put nat_cmp (held_entries map.old.held) key value) }
    ensures status { IsDone result →
        result ≡ status_of_found (value_of nat_cmp (held_entries map.old.held) key) }
    ensures before { IsDone result →
        before.new ≡ found_or (value_of nat_cmp (held_entries map.old.held) key) before.old }
    ensures no_entry { result ≡ ART_NO_MEMORY → value_of nat_cmp (held_entries map.old.held) key ≡ None }
    ensures refused { IsRefusalStatus result →
        (map.new.held ≡ map.old.held) × (before.new ≡ before.old) }
{
    let Some(held) = map.lent_mut() else {
        return NO_MAP;
    };
    let inserted = held.insert(key, value);
    match inserted {
        Ok(found) => value_status(found, before),
        Err(_) => NO_MEMORY,
    }
}

/// Finds the value of a key.
#[unsafe(no_mangle)]
pub extern "C" fn art_u64_get(map: &mut NumberView, key: u64, value: &mut u64) -> u32
    ensures no_map { (result ≡ ART_NO_MAP) ↔ (map.old.seen ≡ None) }
    ensures status { result ≢ ART_NO_MAP →
        result ≡ status_of_found (value_of nat_cmp (held_entries map.old.seen) key) }
    ensures value { value.new
        ≡ found_or (value_of nat_cmp (held_entries map.old.seen) key) value.old }
    ensures same { map.new ≡ map.old }
{
    let Some(held) = map.lent() else {
        return NO_MAP;
    };
    let found = held.get(key);
    value_status(found, value)
}

/// Removes a key, and writes out its value.
#[unsafe(no_mangle)]
pub extern "C" fn art_u64_remove(map: &mut NumberHandle, key: u64, value: &mut u64) -> u32
    ensures no_map { (result ≡ ART_NO_MAP) ↔ (map.old.held ≡ None) }
    ensures never_no_memory { result ≢ ART_NO_MEMORY }
    ensures entries { map.new.held ≡ option_map (λ entries. without nat_cmp entries key) map.old.held }
    ensures status { result ≢ ART_NO_MAP →
        result ≡ status_of_found (value_of nat_cmp (held_entries map.old.held) key) }
    ensures value { value.new ≡ found_or (value_of nat_cmp (held_entries map.old.held) key) value.old }
{
    let Some(held) = map.lent_mut() else {
        return NO_MAP;
    };
    let removed = held.remove(key);
    value_status(removed, value)
}

/// Finds the first entry at a key or after it.
#[unsafe(no_mangle)]
pub extern "C" fn art_u64_next(
    map: &mut NumberView,
    from: u64,
    inclusive: bool,
    key: &mut u64,
    value: &mut u64,
) -> u32
    ensures no_map { (result ≡ ART_NO_MAP) ↔ (map.old.seen ≡ None) }
    ensures status { result ≢ ART_NO_MAP → result
        ≡ status_of_found (first_of (entries_from nat_cmp inclusive from (held_entries map.old.seen))) }
    ensures key { key.new ≡ number_or
        (first_of (entries_from nat_cmp inclusive from (held_entries map.old.seen))) key.old }
    ensures value { value.new ≡ value_or
        (first_of (entries_from nat_cmp inclusive from (held_entries map.old.seen))) value.old }
    ensures same { map.new ≡ map.old }
{
    let Some(held) = map.lent() else {
        return NO_MAP;
    };
    let found = held.next(from, inclusive);
    entry_status(found, key, value)
}

/// Finds the last entry at a key or before it.
#[unsafe(no_mangle)]
pub extern "C" fn art_u64_previous(
    map: &mut NumberView,
    from: u64,
    inclusive: bool,
    key: &mut u64,
    value: &mut u64,
) -> u32
    ensures no_map { (result ≡ ART_NO_MAP) ↔ (map.old.seen ≡ None) }
    ensures status { result ≢ ART_NO_MAP → result
        ≡ status_of_found (last_of (entries_to nat_cmp inclusive from (held_entries map.old.seen))) }
    ensures key { key.new ≡ number_or
        (last_of (entries_to nat_cmp inclusive from (held_entries map.old.seen))) key.old }
    ensures value { value.new ≡ value_or
        (last_of (entries_to nat_cmp inclusive from (held_entries map.old.seen))) value.old }
    ensures same { map.new ≡ map.old }
{
    let Some(held) = map.lent() else {
        return NO_MAP;
    };
    let found = held.previous(from, inclusive);
    entry_status(found, key, value)
}

/// Finds the entry with the least key.
#[unsafe(no_mangle)]
pub extern "C" fn art_u64_first(map: &mut NumberView, key: &mut u64, value: &mut u64) -> u32
    ensures no_map { (result ≡ ART_NO_MAP) ↔ (map.old.seen ≡ None) }
    ensures status { result ≢ ART_NO_MAP → result ≡ status_of_found (first_of (held_entries map.old.seen)) }
    ensures key { key.new ≡ number_or (first_of (held_entries map.old.seen)) key.old }
    ensures value { value.new ≡ value_or (first_of (held_entries map.old.seen)) value.old }
    ensures same { map.new ≡ map.old }
{
    let Some(held) = map.lent() else {
        return NO_MAP;
    };
    let found = held.first();
    entry_status(found, key, value)
}

/// Finds the entry with the greatest key.
#[unsafe(no_mangle)]
pub extern "C" fn art_u64_last(map: &mut NumberView, key: &mut u64, value: &mut u64) -> u32
    ensures no_map { (result ≡ ART_NO_MAP) ↔ (map.old.seen ≡ None) }
    ensures status { result ≢ ART_NO_MAP → result ≡ status_of_found (last_of (held_entries map.old.seen)) }
    ensures key { key.new ≡ number_or (last_of (held_entries map.old.seen)) key.old }
    ensures value { value.new ≡ value_or (last_of (held_entries map.old.seen)) value.old }
    ensures same { map.new ≡ map.old }
{
    let Some(held) = map.lent() else {
        return NO_MAP;
    };
    let found = held.last();
    entry_status(found, key, value)
}

/// Removes the entry with the least key, and writes it out.
#[unsafe(no_mangle)]
pub extern "C" fn art_u64_pop_first(map: &mut NumberHandle, key: &mut u64, value: &mut u64) -> u32
    ensures no_map { (result ≡ ART_NO_MAP) ↔ (map.old.held ≡ None) }
    ensures never_no_memory { result ≢ ART_NO_MEMORY }
    ensures entries { map.new.held ≡ option_map (λ entries. drop 1 entries) map.old.held }
    ensures status { result ≢ ART_NO_MAP → result ≡ status_of_found (first_of (held_entries map.old.held)) }
    ensures key { key.new ≡ number_or (first_of (held_entries map.old.held)) key.old }
    ensures value { value.new ≡ value_or (first_of (held_entries map.old.held)) value.old }
{
    let Some(held) = map.lent_mut() else {
        return NO_MAP;
    };
    let removed = held.pop_first();
    entry_status(removed, key, value)
}

/// Removes the entry with the greatest key, and writes it out.
#[unsafe(no_mangle)]
pub extern "C" fn art_u64_pop_last(map: &mut NumberHandle, key: &mut u64, value: &mut u64) -> u32
    ensures no_map { (result ≡ ART_NO_MAP) ↔ (map.old.held ≡ None) }
    ensures never_no_memory { result ≢ ART_NO_MEMORY }
    ensures entries { map.new.held ≡ option_map (λ entries. take (length entries - 1) entries) map.old.held }
    ensures status { result ≢ ART_NO_MAP → result ≡ status_of_found (last_of (held_entries map.old.held)) }
    ensures key { key.new ≡ number_or (last_of (held_entries map.old.held)) key.old }
    ensures value { value.new ≡ value_or (last_of (held_entries map.old.held)) value.old }
{
    let Some(held) = map.lent_mut() else {
        return NO_MAP;
    };
    let removed = held.pop_last();
    entry_status(removed, key, value)
}

/// Writes out the first entries at a key or after it, as many as the shorter of both arrays holds. Returns
/// how many.
#[unsafe(no_mangle)]
pub extern "C" fn art_u64_next_many(
    map: &mut NumberView,
    from: u64,
    inclusive: bool,
    keys: &mut [u64],
    values: &mut [u64],
) -> usize
    ensures count { result ≡ length (next_entries nat_cmp
        (min (length keys.old) (length values.old)) inclusive from (held_entries map.old.seen)) }
    ensures keys { keys.new ≡ begun_with (keys_of (next_entries nat_cmp
        (min (length keys.old) (length values.old)) inclusive from (held_entries map.old.seen))) keys.old }
    ensures values { values.new ≡ begun_with (values_of (next_entries nat_cmp
        (min (length keys.old) (length values.old)) inclusive from (held_entries map.old.seen))) values.old }
    ensures same { map.new ≡ map.old }
{
    let Some(held) = map.lent() else {
        return 0;
    };
    let count = held.next_many(from, inclusive, keys, values);
    count
}

/// Writes out the last entries at a key or before it, from the last one down, as many as the shorter of both
/// arrays holds. Returns how many.
#[unsafe(no_mangle)]
pub extern "C" fn art_u64_previous_many(
    map: &mut NumberView,
    from: u64,
    inclusive: bool,
    keys: &mut [u64],
    values: &mut [u64],
) -> usize
    ensures count { result ≡ length (previous_entries nat_cmp
        (min (length keys.old) (length values.old)) inclusive from (held_entries map.old.seen)) }
    ensures keys { keys.new ≡ begun_with (keys_of (previous_entries nat_cmp
        (min (length keys.old) (length values.old)) inclusive from (held_entries map.old.seen))) keys.old }
    ensures values { values.new ≡ begun_with (values_of (previous_entries nat_cmp
        (min (length keys.old) (length values.old)) inclusive from (held_entries map.old.seen))) values.old }
    ensures same { map.new ≡ map.old }
{
    let Some(held) = map.lent() else {
        return 0;
    };
    let count = held.previous_many(from, inclusive, keys, values);
    count
}

/// Looks up many keys, as many as the shortest of the arrays holds: which of them are found, with a 1 or a 0 each,
/// and the values of those. Returns how many were looked up.
#[unsafe(no_mangle)]
pub extern "C" fn art_u64_get_many(
    map: &mut NumberView,
    keys: &[u64],
    found: &mut [u8],
    values: &mut [u64],
) -> usize
    ensures no_map { map.old.seen ≡ None → result ≡ 0 }
    ensures count { IsSome map.old.seen →
        result ≡ min (length keys.now) (min (length found.old) (length values.old)) }
    ensures found { found.new ≡ begun_with (are_found (value_of nat_cmp (held_entries map.old.seen))
        (take result keys.now)) found.old }
    ensures values { values.new ≡ begun_with (found_values (value_of nat_cmp (held_entries map.old.seen))
        (take result (zip keys.now values.old))) values.old }
    ensures same { map.new ≡ map.old }
{
    let Some(held) = map.lent() else {
        return 0;
    };
    let count = held.get_many(keys, found, values);
    count
}

/// Sets the values of many keys one after another, as many as the shorter of both arrays holds, and writes out
/// how many were set.
#[unsafe(no_mangle)]
pub extern "C" fn art_u64_insert_many(
    map: &mut NumberHandle,
    keys: &[u64],
    values: &[u64],
    done: &mut usize,
) -> u32
    ensures no_map { (result ≡ ART_NO_MAP) ↔ (map.old.held ≡ None) }
    ensures entries { result ≢ ART_NO_MAP → map.new.held ≡ Some (put_each nat_cmp
        (held_entries map.old.held) (take done.new (zip keys.now values.now))) }
    ensures status { IsDone result → result ≡ ART_NONE }
    ensures all { IsDone result → done.new ≡ length (zip keys.now values.now) }
    ensures stopped { result ≡ ART_NO_MEMORY → done.new < length (zip keys.now values.now) }
    ensures no_entry { result ≡ ART_NO_MEMORY →
        value_of nat_cmp (held_entries map.new.held) (get_or keys.now done.new 0) ≡ None }
    ensures unchanged { result ≡ ART_NO_MAP →
        (map.new.held ≡ map.old.held) × (done.new ≡ done.old) }
{
    let Some(held) = map.lent_mut() else {
        return NO_MAP;
    };
    let (count, inserted) = held.insert_many(keys, values);
    *done = count;
    match inserted {
        Ok(_) => NONE,
        Err(_) => NO_MEMORY,
    }
}
