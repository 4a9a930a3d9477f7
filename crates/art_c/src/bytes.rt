//! The exports for maps by bytes.
ghost use Rattle.std.specs.Prelude.{◌≡◌, ◌≢◌, ◌-◌, ◌<◌, ◌⊎◌, ◌↔◌, [], None, Some, IfNone, IfSome, IsSome, drop, get_or, length, min, nat_le, reverse, take, if◌then◌else◌};
ghost use Rattle.std.specs.List.{zip};
ghost use Rattle.std.specs.Option.{option_map};
ghost use Rattle.art_bytes.specs.Text.{text_order};
ghost use Rattle.art_c.specs.Handles.{held_entries};
ghost use Rattle.art_c.specs.Statuses.{ART_HAS_MAP, ART_KEY_TOO_LONG, ART_NONE, ART_NO_MAP, ART_NO_MEMORY, ART_SMALL_BUFFER, ART_SOME, IsDone, IsRefusalStatus, batch_status, key_len_or, status_in, status_of_found, value_in};
ghost use Rattle.art_c_maps.specs.Batch.{ends_of, joined_keys, next_fitting, previous_fitting, unfit_len};
ghost use Rattle.art_c_maps.specs.Buffers.{key_written};
ghost use Rattle.art_c_maps.specs.Entries.{begun_with, entries_from, entries_to, entries_with_prefix, first_of, keys_of, last_of, put, put_each, value_of, values_of, without};
ghost use Rattle.art_c_maps.specs.Many.{are_found, cut, found_or, found_values};
ghost use Rattle.art_c_maps.specs.Refusals.{IsNotTooLong, IsTooLong};

use crate::bytes_handle::BytesHandle;
use crate::bytes_view::BytesView;
use crate::numbers::value_status;
use crate::statuses::{HAS_MAP, KEY_TOO_LONG, NO_MAP, NO_MEMORY, NONE, SMALL_BUFFER, SOME};
use art_c_maps::{BytesMap, Refusal};
use std::alloc::Global;

// The status of a call that finds an entry, whose key's length and whose value are written out.
fn entry_status(
    found: Option<(usize, u64)>,
    room: usize,
    key_len: &mut usize,
    value: &mut u64,
) -> u32
    ensures none { IfNone found ((result ≡ ART_NONE) × (key_len.new ≡ key_len.old) × (value.new ≡ value.old)) }
    ensures some { IfSome found (λ entry. (key_len.new ≡ entry.0)
        × (result ≡ (if nat_le entry.0 room then ART_SOME else ART_SMALL_BUFFER))
        × (value.new ≡ (if nat_le entry.0 room then entry.1 else value.old))) }
    ensures never_no_memory { result ≢ ART_NO_MEMORY }
{
    let Some((len, found)) = found else {
        return NONE;
    };
    *key_len = len;
    if len > room {
        return SMALL_BUFFER;
    }
    *value = found;
    SOME
}

// The status of a call for many entries. How many are written out, or how many bytes the first key has that
// does not fit.
fn batch_status(written: usize, unfit: Option<usize>, count: &mut usize, key_len: &mut usize) -> u32
    ensures status { result ≡ batch_status written unfit }
    ensures never_no_memory { result ≢ ART_NO_MEMORY }
    ensures count { count.new ≡ written }
    ensures key_len { key_len.new ≡ found_or unfit key_len.old }
{
    *count = written;
    if let Some(len) = unfit {
        *key_len = len;
        return SMALL_BUFFER;
    }
    if written > 0 { SOME } else { NONE }
}

/// Makes an empty map behind a handle that holds none.
#[unsafe(no_mangle)]
pub extern "C" fn art_bytes_new(alloc: Global, map: &mut BytesHandle) -> u32
    ensures has_map { (result ≡ ART_HAS_MAP) ↔ IsSome map.old.held }
    ensures made { (result ≢ ART_HAS_MAP) × (result ≢ ART_NO_MEMORY) →
        (result ≡ ART_NONE) × (map.new.held ≡ Some []) }
    ensures refused { (result ≡ ART_HAS_MAP) ⊎ (result ≡ ART_NO_MEMORY) →
        map.new.held ≡ map.old.held }
{
    if let Some(_) = map.lent_mut() {
        return HAS_MAP;
    }
    match map.hold(alloc, BytesMap::new(alloc)) {
        Ok(_) => NONE,
        Err(_) => NO_MEMORY,
    }
}

/// Frees the map, if there is one. The handle then holds none.
#[unsafe(no_mangle)]
pub extern "C" fn art_bytes_free(alloc: Global, map: &mut BytesHandle)
    ensures { map.new.held ≡ None }
{
    map.free(alloc);
}

/// The number of entries, 0 where there is no map.
#[unsafe(no_mangle)]
pub extern "C" fn art_bytes_len(map: &mut BytesView) -> usize
    ensures len { result ≡ length (held_entries map.old.seen) }
    ensures same { map.new ≡ map.old }
{
    let Some(held) = map.lent() else {
        return 0;
    };
    let len = held.len();
    len
}

/// Removes all entries.
#[unsafe(no_mangle)]
pub extern "C" fn art_bytes_clear(map: &mut BytesHandle)
    ensures { map.new.held ≡ option_map (λ _. []) map.old.held }
{
    let Some(held) = map.lent_mut() else {
        return;
    };
    held.clear();
}

/// Sets the value of a key, and writes out the one that it had.
#[unsafe(no_mangle)]
pub extern "C" fn art_bytes_insert(
    alloc: Global,
    map: &mut BytesHandle,
    key: &[u8],
    value: u64,
    before: &mut u64,
) -> u32
    ensures no_map { (result ≡ ART_NO_MAP) ↔ (map.old.held ≡ None) }
    ensures entries { IsDone result × (result ≢ ART_KEY_TOO_LONG) →
        map.new.held ≡ Some (put text_order (held_entries map.old.held) key.now value) }
    ensures status { IsDone result × (result ≢ ART_KEY_TOO_LONG) →
        result ≡ status_of_found (value_of text_order (held_entries map.old.held) key.now) }
    ensures before { IsDone result × (result ≢ ART_KEY_TOO_LONG) → before.new
        ≡ found_or (value_of text_order (held_entries map.old.held) key.now) before.old }
    ensures too_long { result ≢ ART_NO_MAP →
        (result ≡ ART_KEY_TOO_LONG) ↔ IsTooLong key.now }
    ensures no_entry { result ≡ ART_NO_MEMORY →
        value_of text_order (held_entries map.old.held) key.now ≡ None }
    ensures refused { IsRefusalStatus result →
        (map.new.held ≡ map.old.held) × (before.new ≡ before.old) }
{
    let Some(held) = map.lent_mut() else {
        return NO_MAP;
    };
    let inserted = held.insert(alloc, key, value);
    match inserted {
        Ok(found) => value_status(found, before),
        Err(Refusal::KeyTooLong) => KEY_TOO_LONG,
        Err(Refusal::OutOfMemory) => NO_MEMORY,
    }
}

/// Finds the value of a key.
#[unsafe(no_mangle)]
pub extern "C" fn art_bytes_get(map: &mut BytesView, key: &[u8], value: &mut u64) -> u32
    ensures no_map { (result ≡ ART_NO_MAP) ↔ (map.old.seen ≡ None) }
    ensures never_no_memory { result ≢ ART_NO_MEMORY }
    ensures status { result ≢ ART_NO_MAP →
        result ≡ status_of_found (value_of text_order (held_entries map.old.seen) key.now) }
    ensures value { value.new
        ≡ found_or (value_of text_order (held_entries map.old.seen) key.now) value.old }
    ensures same { map.new ≡ map.old }
{
    let Some(held) = map.lent() else {
        return NO_MAP;
    };
    let found = held.get(key);
    value_status(found, value)
}

/// Removes a key, and writes out its value.
#[unsafe(no_mangle)]
pub extern "C" fn art_bytes_remove(map: &mut BytesHandle, key: &[u8], value: &mut u64) -> u32
    ensures no_map { (result ≡ ART_NO_MAP) ↔ (map.old.held ≡ None) }
    ensures never_no_memory { result ≢ ART_NO_MEMORY }
    ensures entries { map.new.held
        ≡ option_map (λ entries. without text_order entries key.now) map.old.held }
    ensures status { result ≢ ART_NO_MAP →
        result ≡ status_of_found (value_of text_order (held_entries map.old.held) key.now) }
    ensures value { value.new
        ≡ found_or (value_of text_order (held_entries map.old.held) key.now) value.old }
{
    let Some(held) = map.lent_mut() else {
        return NO_MAP;
    };
    let removed = held.remove(key);
    value_status(removed, value)
}

/// Finds the first entry at a key or after it.
#[unsafe(no_mangle)]
pub extern "C" fn art_bytes_next(
    map: &mut BytesView,
    from: &[u8],
    inclusive: bool,
    key_out: &mut [u8],
    key_len: &mut usize,
    value: &mut u64,
) -> u32
    ensures no_map { (result ≡ ART_NO_MAP) ↔ (map.old.seen ≡ None) }
    ensures never_no_memory { result ≢ ART_NO_MEMORY }
    ensures status { result ≢ ART_NO_MAP → result ≡ status_in
        (first_of (entries_from text_order inclusive from.now (held_entries map.old.seen)))
        (length key_out.old) }
    ensures key { key_out.new ≡ key_written
        (first_of (entries_from text_order inclusive from.now (held_entries map.old.seen)))
        key_out.old }
    ensures key_len { key_len.new ≡ key_len_or
        (first_of (entries_from text_order inclusive from.now (held_entries map.old.seen)))
        key_len.old }
    ensures value { value.new ≡ value_in
        (first_of (entries_from text_order inclusive from.now (held_entries map.old.seen)))
        (length key_out.old) value.old }
    ensures same { map.new ≡ map.old }
{
    let Some(held) = map.lent() else {
        return NO_MAP;
    };
    let room = key_out.len();
    let found = held.next(from, inclusive, key_out);
    entry_status(found, room, key_len, value)
}

/// Finds the last entry at a key or before it.
#[unsafe(no_mangle)]
pub extern "C" fn art_bytes_previous(
    map: &mut BytesView,
    from: &[u8],
    inclusive: bool,
    key_out: &mut [u8],
    key_len: &mut usize,
    value: &mut u64,
) -> u32
    ensures no_map { (result ≡ ART_NO_MAP) ↔ (map.old.seen ≡ None) }
    ensures never_no_memory { result ≢ ART_NO_MEMORY }
    ensures status { result ≢ ART_NO_MAP → result ≡ status_in
        (last_of (entries_to text_order inclusive from.now (held_entries map.old.seen)))
        (length key_out.old) }
    ensures key { key_out.new ≡ key_written
        (last_of (entries_to text_order inclusive from.now (held_entries map.old.seen)))
        key_out.old }
    ensures key_len { key_len.new ≡ key_len_or
        (last_of (entries_to text_order inclusive from.now (held_entries map.old.seen)))
        key_len.old }
    ensures value { value.new ≡ value_in
        (last_of (entries_to text_order inclusive from.now (held_entries map.old.seen)))
        (length key_out.old) value.old }
    ensures same { map.new ≡ map.old }
{
    let Some(held) = map.lent() else {
        return NO_MAP;
    };
    let room = key_out.len();
    let found = held.previous(from, inclusive, key_out);
    entry_status(found, room, key_len, value)
}

/// Finds the first entry at a key or after it, of those whose keys begin with a prefix.
#[unsafe(no_mangle)]
pub extern "C" fn art_bytes_next_with_prefix(
    map: &mut BytesView,
    prefix: &[u8],
    from: &[u8],
    inclusive: bool,
    key_out: &mut [u8],
    key_len: &mut usize,
    value: &mut u64,
) -> u32
    ensures no_map { (result ≡ ART_NO_MAP) ↔ (map.old.seen ≡ None) }
    ensures never_no_memory { result ≢ ART_NO_MEMORY }
    ensures status { result ≢ ART_NO_MAP → result ≡ status_in
        (first_of (entries_from text_order inclusive from.now
        (entries_with_prefix prefix.now (held_entries map.old.seen))))
        (length key_out.old) }
    ensures key { key_out.new ≡ key_written
        (first_of (entries_from text_order inclusive from.now
        (entries_with_prefix prefix.now (held_entries map.old.seen))))
        key_out.old }
    ensures key_len { key_len.new ≡ key_len_or
        (first_of (entries_from text_order inclusive from.now
        (entries_with_prefix prefix.now (held_entries map.old.seen))))
        key_len.old }
    ensures value { value.new ≡ value_in
        (first_of (entries_from text_order inclusive from.now
        (entries_with_prefix prefix.now (held_entries map.old.seen))))
        (length key_out.old) value.old }
    ensures same { map.new ≡ map.old }
{
    let Some(held) = map.lent() else {
        return NO_MAP;
    };
    let room = key_out.len();
    let found = held.next_with_prefix(prefix, from, inclusive, key_out);
    entry_status(found, room, key_len, value)
}

/// Writes out the first entries at a key or after it, of those whose keys begin with a prefix: as many as the
/// buffers hold.
#[unsafe(no_mangle)]
pub extern "C" fn art_bytes_next_many(
    map: &mut BytesView,
    prefix: &[u8],
    from: &[u8],
    inclusive: bool,
    keys: &mut [u8],
    ends: &mut [usize],
    values: &mut [u64],
    count: &mut usize,
    key_len: &mut usize,
) -> u32
    ensures no_map { (result ≡ ART_NO_MAP) ↔ (map.old.seen ≡ None) }
    ensures never_no_memory { result ≢ ART_NO_MEMORY }
    ensures status { result ≢ ART_NO_MAP → result ≡ batch_status
        (length (next_fitting
        (min (length ends.old) (length values.old)) (length keys.old)
        prefix.now inclusive from.now (held_entries map.old.seen)))
        (unfit_len (next_fitting
        (min (length ends.old) (length values.old)) (length keys.old)
        prefix.now inclusive from.now (held_entries map.old.seen))
        (first_of (entries_from text_order inclusive from.now
        (entries_with_prefix prefix.now (held_entries map.old.seen))))) }
    ensures count { result ≢ ART_NO_MAP → count.new ≡ length (next_fitting
        (min (length ends.old) (length values.old)) (length keys.old)
        prefix.now inclusive from.now (held_entries map.old.seen)) }
    ensures keys { result ≢ ART_NO_MAP → keys.new ≡ begun_with (joined_keys (keys_of (next_fitting
        (min (length ends.old) (length values.old)) (length keys.old)
        prefix.now inclusive from.now (held_entries map.old.seen)))) keys.old }
    ensures ends { result ≢ ART_NO_MAP → ends.new ≡ begun_with (ends_of (next_fitting
        (min (length ends.old) (length values.old)) (length keys.old)
        prefix.now inclusive from.now (held_entries map.old.seen))) ends.old }
    ensures values { result ≢ ART_NO_MAP → values.new ≡ begun_with (values_of (next_fitting
        (min (length ends.old) (length values.old)) (length keys.old)
        prefix.now inclusive from.now (held_entries map.old.seen))) values.old }
    ensures key_len { result ≢ ART_NO_MAP → key_len.new ≡ found_or
        (unfit_len (next_fitting
        (min (length ends.old) (length values.old)) (length keys.old)
        prefix.now inclusive from.now (held_entries map.old.seen))
        (first_of (entries_from text_order inclusive from.now
        (entries_with_prefix prefix.now (held_entries map.old.seen))))) key_len.old }
    ensures unchanged { result ≡ ART_NO_MAP → (keys.new ≡ keys.old) × (ends.new ≡ ends.old)
        × (values.new ≡ values.old) × (count.new ≡ count.old) × (key_len.new ≡ key_len.old) }
    ensures same { map.new ≡ map.old }
{
    let Some(held) = map.lent() else {
        return NO_MAP;
    };
    let (written, unfit) = held.next_many(prefix, from, inclusive, keys, ends, values);
    batch_status(written, unfit, count, key_len)
}

/// Writes out the last entries at a key or before it, of those whose keys begin with a prefix, from the last one
/// down: as many as the buffers hold.
#[unsafe(no_mangle)]
pub extern "C" fn art_bytes_previous_many(
    map: &mut BytesView,
    prefix: &[u8],
    from: &[u8],
    inclusive: bool,
    keys: &mut [u8],
    ends: &mut [usize],
    values: &mut [u64],
    count: &mut usize,
    key_len: &mut usize,
) -> u32
    ensures no_map { (result ≡ ART_NO_MAP) ↔ (map.old.seen ≡ None) }
    ensures never_no_memory { result ≢ ART_NO_MEMORY }
    ensures status { result ≢ ART_NO_MAP → result ≡ batch_status
        (length (previous_fitting
        (min (length ends.old) (length values.old)) (length keys.old)
        prefix.now inclusive from.now (held_entries map.old.seen)))
        (unfit_len (previous_fitting
        (min (length ends.old) (length values.old)) (length keys.old)
        prefix.now inclusive from.now (held_entries map.old.seen))
        (first_of (reverse (entries_to text_order inclusive from.now
        (entries_with_prefix prefix.now (held_entries map.old.seen)))))) }
    ensures count { result ≢ ART_NO_MAP → count.new ≡ length (previous_fitting
        (min (length ends.old) (length values.old)) (length keys.old)
        prefix.now inclusive from.now (held_entries map.old.seen)) }
    ensures keys { result ≢ ART_NO_MAP → keys.new ≡ begun_with (joined_keys (keys_of (previous_fitting
        (min (length ends.old) (length values.old)) (length keys.old)
        prefix.now inclusive from.now (held_entries map.old.seen)))) keys.old }
    ensures ends { result ≢ ART_NO_MAP → ends.new ≡ begun_with (ends_of (previous_fitting
        (min (length ends.old) (length values.old)) (length keys.old)
        prefix.now inclusive from.now (held_entries map.old.seen))) ends.old }
    ensures values { result ≢ ART_NO_MAP → values.new ≡ begun_with (values_of (previous_fitting
        (min (length ends.old) (length values.old)) (length keys.old)
        prefix.now inclusive from.now (held_entries map.old.seen))) values.old }
    ensures key_len { result ≢ ART_NO_MAP → key_len.new ≡ found_or
        (unfit_len (previous_fitting
        (min (length ends.old) (length values.old)) (length keys.old)
        prefix.now inclusive from.now (held_entries map.old.seen))
        (first_of (reverse (entries_to text_order inclusive from.now
        (entries_with_prefix prefix.now (held_entries map.old.seen)))))) key_len.old }
    ensures unchanged { result ≡ ART_NO_MAP → (keys.new ≡ keys.old) × (ends.new ≡ ends.old)
        × (values.new ≡ values.old) × (count.new ≡ count.old) × (key_len.new ≡ key_len.old) }
    ensures same { map.new ≡ map.old }
{
    let Some(held) = map.lent() else {
        return NO_MAP;
    };
    let (written, unfit) = held.previous_many(prefix, from, inclusive, keys, ends, values);
    batch_status(written, unfit, count, key_len)
}

/// Finds the entry with the least key.
#[unsafe(no_mangle)]
pub extern "C" fn art_bytes_first(
    map: &mut BytesView,
    key_out: &mut [u8],
    key_len: &mut usize,
    value: &mut u64,
) -> u32
    ensures no_map { (result ≡ ART_NO_MAP) ↔ (map.old.seen ≡ None) }
    ensures status { result ≢ ART_NO_MAP → result
        ≡ status_in (first_of (held_entries map.old.seen)) (length key_out.old) }
    ensures key { key_out.new ≡ key_written (first_of (held_entries map.old.seen)) key_out.old }
    ensures key_len { key_len.new
        ≡ key_len_or (first_of (held_entries map.old.seen)) key_len.old }
    ensures value { value.new
        ≡ value_in (first_of (held_entries map.old.seen)) (length key_out.old) value.old }
    ensures same { map.new ≡ map.old }
{
    let Some(held) = map.lent() else {
        return NO_MAP;
    };
    let room = key_out.len();
    let found = held.first(key_out);
    entry_status(found, room, key_len, value)
}

/// Finds the entry with the greatest key.
#[unsafe(no_mangle)]
pub extern "C" fn art_bytes_last(
    map: &mut BytesView,
    key_out: &mut [u8],
    key_len: &mut usize,
    value: &mut u64,
) -> u32
    ensures no_map { (result ≡ ART_NO_MAP) ↔ (map.old.seen ≡ None) }
    ensures status { result ≢ ART_NO_MAP → result
        ≡ status_in (last_of (held_entries map.old.seen)) (length key_out.old) }
    ensures key { key_out.new ≡ key_written (last_of (held_entries map.old.seen)) key_out.old }
    ensures key_len { key_len.new
        ≡ key_len_or (last_of (held_entries map.old.seen)) key_len.old }
    ensures value { value.new
        ≡ value_in (last_of (held_entries map.old.seen)) (length key_out.old) value.old }
    ensures same { map.new ≡ map.old }
{
    let Some(held) = map.lent() else {
        return NO_MAP;
    };
    let room = key_out.len();
    let found = held.last(key_out);
    entry_status(found, room, key_len, value)
}

/// Finds the entry with the least key, and removes it where its key fits.
#[unsafe(no_mangle)]
pub extern "C" fn art_bytes_pop_first(
    map: &mut BytesHandle,
    key_out: &mut [u8],
    key_len: &mut usize,
    value: &mut u64,
) -> u32
    ensures no_map { (result ≡ ART_NO_MAP) ↔ (map.old.held ≡ None) }
    ensures never_no_memory { result ≢ ART_NO_MEMORY }
    ensures removed { result ≡ ART_SOME → map.new.held ≡ Some (drop 1 (held_entries map.old.held)) }
    ensures same_entries { result ≢ ART_SOME → map.new.held ≡ map.old.held }
    ensures status { result ≢ ART_NO_MAP → result
        ≡ status_in (first_of (held_entries map.old.held)) (length key_out.old) }
    ensures key { key_out.new ≡ key_written (first_of (held_entries map.old.held)) key_out.old }
    ensures key_len { key_len.new ≡ key_len_or (first_of (held_entries map.old.held)) key_len.old }
    ensures value { value.new
        ≡ value_in (first_of (held_entries map.old.held)) (length key_out.old) value.old }
{
    let Some(held) = map.lent_mut() else {
        return NO_MAP;
    };
    let room = key_out.len();
    let found = held.pop_first(key_out);
    entry_status(found, room, key_len, value)
}

/// Finds the entry with the greatest key, and removes it where its key fits.
#[unsafe(no_mangle)]
pub extern "C" fn art_bytes_pop_last(
    map: &mut BytesHandle,
    key_out: &mut [u8],
    key_len: &mut usize,
    value: &mut u64,
) -> u32
    ensures no_map { (result ≡ ART_NO_MAP) ↔ (map.old.held ≡ None) }
    ensures never_no_memory { result ≢ ART_NO_MEMORY }
    ensures removed { result ≡ ART_SOME → map.new.held ≡ Some (take (length (held_entries map.old.held) - 1) (held_entries map.old.held)) }
    ensures same_entries { result ≢ ART_SOME → map.new.held ≡ map.old.held }
    ensures status { result ≢ ART_NO_MAP → result
        ≡ status_in (last_of (held_entries map.old.held)) (length key_out.old) }
    ensures key { key_out.new ≡ key_written (last_of (held_entries map.old.held)) key_out.old }
    ensures key_len { key_len.new ≡ key_len_or (last_of (held_entries map.old.held)) key_len.old }
    ensures value { value.new
        ≡ value_in (last_of (held_entries map.old.held)) (length key_out.old) value.old }
{
    let Some(held) = map.lent_mut() else {
        return NO_MAP;
    };
    let room = key_out.len();
    let found = held.pop_last(key_out);
    entry_status(found, room, key_len, value)
}

/// How many keys begin with these bytes, 0 where there is no map.
#[unsafe(no_mangle)]
pub extern "C" fn art_bytes_count_prefix(map: &mut BytesView, prefix: &[u8]) -> usize
    ensures count { result ≡ length (entries_with_prefix prefix.now (held_entries map.old.seen)) }
    ensures same { map.new ≡ map.old }
{
    let Some(held) = map.lent() else {
        return 0;
    };
    let count = held.count_prefix(prefix);
    count
}

/// Looks up many keys, as many as the shortest of `ends`, `found` and `values` holds: which of them are found, with a
/// 1 or a 0 each, and the values of those. Writes out how many were looked up.
#[unsafe(no_mangle)]
pub extern "C" fn art_bytes_get_many(
    map: &mut BytesView,
    keys: &[u8],
    ends: &[usize],
    found: &mut [u8],
    values: &mut [u64],
    count: &mut usize,
) -> u32
    ensures no_map { (result ≡ ART_NO_MAP) ↔ (map.old.seen ≡ None) }
    ensures status { result ≢ ART_NO_MAP → result ≡ ART_NONE }
    ensures count { result ≢ ART_NO_MAP →
        count.new ≡ min (length ends.now) (min (length found.old) (length values.old)) }
    ensures found { result ≢ ART_NO_MAP → found.new ≡ begun_with
        (are_found (value_of text_order (held_entries map.old.seen)) (take count.new (cut keys.now ends.now))) found.old }
    ensures values { result ≢ ART_NO_MAP → values.new ≡ begun_with
        (found_values (value_of text_order (held_entries map.old.seen))
        (take count.new (zip (cut keys.now ends.now) values.old))) values.old }
    ensures unchanged { result ≡ ART_NO_MAP →
        (found.new ≡ found.old) × (values.new ≡ values.old) × (count.new ≡ count.old) }
    ensures same { map.new ≡ map.old }
{
    let Some(held) = map.lent() else {
        return NO_MAP;
    };
    let done = held.get_many(keys, ends, found, values);
    *count = done;
    NONE
}

/// Sets the values of many keys one after another, as many as the shorter of `ends` and `values` holds, and writes
/// out how many were set.
#[unsafe(no_mangle)]
pub extern "C" fn art_bytes_insert_many(
    alloc: Global,
    map: &mut BytesHandle,
    keys: &[u8],
    ends: &[usize],
    values: &[u64],
    done: &mut usize,
) -> u32
    ensures no_map { (result ≡ ART_NO_MAP) ↔ (map.old.held ≡ None) }
    ensures entries { result ≢ ART_NO_MAP → map.new.held ≡ Some (put_each text_order
        (held_entries map.old.held) (take done.new (zip (cut keys.now ends.now) values.now))) }
    ensures status { IsDone result × (result ≢ ART_KEY_TOO_LONG) → result ≡ ART_NONE }
    ensures all { result ≡ ART_NONE → done.new ≡ length (zip (cut keys.now ends.now) values.now) }
    ensures stopped { (result ≡ ART_NO_MEMORY) ⊎ (result ≡ ART_KEY_TOO_LONG) →
        done.new < length (zip (cut keys.now ends.now) values.now) }
    ensures too_long { result ≡ ART_KEY_TOO_LONG →
        IsTooLong (get_or (cut keys.now ends.now) done.new []) }
    ensures not_too_long { result ≡ ART_NO_MEMORY →
        IsNotTooLong (get_or (cut keys.now ends.now) done.new []) }
    ensures no_entry { result ≡ ART_NO_MEMORY → value_of text_order (held_entries map.new.held)
        (get_or (cut keys.now ends.now) done.new []) ≡ None }
    ensures unchanged { result ≡ ART_NO_MAP →
        (map.new.held ≡ map.old.held) × (done.new ≡ done.old) }
{
    let Some(held) = map.lent_mut() else {
        return NO_MAP;
    };
    let (count, inserted) = held.insert_many(alloc, keys, ends, values);
    *done = count;
    match inserted {
        Ok(_) => NONE,
        Err(Refusal::KeyTooLong) => KEY_TOO_LONG,
        Err(Refusal::OutOfMemory) => NO_MEMORY,
    }
}
