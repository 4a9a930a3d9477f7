//! The exports that put many ascending entries into a map without entries.
ghost use Rattle.std.specs.Prelude.{◌≡◌, ◌≢◌, ◌⊎◌, ◌↔◌, [], None, Some, false, true};
ghost use Rattle.std.specs.List.{zip};
ghost use Rattle.std.specs.Ordering.{nat_cmp};
ghost use Rattle.art_bytes.specs.Text.{text_order};
ghost use Rattle.art_c.specs.Handles.{held_entries};
ghost use Rattle.art_c.specs.Statuses.{ART_KEY_TOO_LONG, ART_NONE, ART_NOT_ASCENDING, ART_NOT_EMPTY, ART_NO_MAP, ART_NO_MEMORY, IsLoadRefusal};
ghost use Rattle.art_c_maps.specs.Entries.{keys_of};
ghost use Rattle.art_c_maps.specs.Loads.{SomeTooLong, TakesBytes, TakesNumbers, ascend};
ghost use Rattle.art_c_maps.specs.Many.{cut};

use crate::bytes_handle::BytesHandle;
use crate::number_handle::NumberHandle;
use crate::statuses::{KEY_TOO_LONG, NO_MAP, NO_MEMORY, NONE, NOT_ASCENDING, NOT_EMPTY};
use art_c_maps::LoadRefusal;
use std::alloc::Global;

/// Puts many entries, whose keys must ascend, into a map that has none: all of them, as many as the shorter of
/// `ends` and `values` holds, or none.
#[unsafe(no_mangle)]
pub extern "C" fn art_bytes_load(
    alloc: Global,
    map: &mut BytesHandle,
    keys: &[u8],
    ends: &[usize],
    values: &[u64],
) -> u32
    ensures no_map { (result ≡ ART_NO_MAP) ↔ (map.old.held ≡ None) }
    ensures not_empty { (result ≡ ART_NOT_EMPTY) ↔ (held_entries map.old.held ≢ []) }
    ensures not_ascending { (result ≡ ART_NOT_ASCENDING) ↔ ((map.old.held ≡ Some [])
        × (ascend text_order (keys_of (zip (cut keys.now ends.now) values.now)) ≡ false)) }
    ensures too_long { (result ≡ ART_KEY_TOO_LONG) ↔ ((map.old.held ≡ Some [])
        × (ascend text_order (keys_of (zip (cut keys.now ends.now) values.now)) ≡ true)
        × SomeTooLong (keys_of (zip (cut keys.now ends.now) values.now))) }
    ensures no_memory { result ≡ ART_NO_MEMORY → TakesBytes (held_entries map.old.held)
        (keys_of (zip (cut keys.now ends.now) values.now)) }
    ensures entries { result ≡ ART_NONE → map.new.held ≡ Some (zip (cut keys.now ends.now) values.now) }
    ensures same_entries { IsLoadRefusal result → map.new.held ≡ map.old.held }
    ensures no_other_status { (result ≡ ART_NONE) ⊎ IsLoadRefusal result }
{
    let Some(held) = map.lent_mut() else {
        return NO_MAP;
    };
    let loaded = held.load(alloc, keys, ends, values);
    match loaded {
        Ok(_) => NONE,
        Err(LoadRefusal::NotEmpty) => NOT_EMPTY,
        Err(LoadRefusal::NotAscending) => NOT_ASCENDING,
        Err(LoadRefusal::KeyTooLong) => KEY_TOO_LONG,
        Err(LoadRefusal::OutOfMemory) => NO_MEMORY,
    }
}

/// Puts many entries, whose keys must ascend, into a map that has none: all of them, as many as the shorter of both
/// arrays holds, or none.
#[unsafe(no_mangle)]
pub extern "C" fn art_u64_load(
    alloc: Global,
    map: &mut NumberHandle,
    keys: &[u64],
    values: &[u64],
) -> u32
    ensures no_map { (result ≡ ART_NO_MAP) ↔ (map.old.held ≡ None) }
    ensures not_empty { (result ≡ ART_NOT_EMPTY) ↔ (held_entries map.old.held ≢ []) }
    ensures not_ascending { (result ≡ ART_NOT_ASCENDING) ↔ ((map.old.held ≡ Some [])
        × (ascend nat_cmp (keys_of (zip keys.now values.now)) ≡ false)) }
    ensures no_memory { result ≡ ART_NO_MEMORY →
        TakesNumbers (held_entries map.old.held) (keys_of (zip keys.now values.now)) }
    ensures never_too_long { result ≢ ART_KEY_TOO_LONG }
    ensures entries { result ≡ ART_NONE → map.new.held ≡ Some (zip keys.now values.now) }
    ensures same_entries { IsLoadRefusal result → map.new.held ≡ map.old.held }
    ensures no_other_status { (result ≡ ART_NONE) ⊎ IsLoadRefusal result }
{
    let Some(held) = map.lent_mut() else {
        return NO_MAP;
    };
    let loaded = held.load(alloc, keys, values);
    match loaded {
        Ok(_) => NONE,
        Err(LoadRefusal::NotEmpty) => NOT_EMPTY,
        Err(LoadRefusal::NotAscending) => NOT_ASCENDING,
        Err(LoadRefusal::KeyTooLong) => KEY_TOO_LONG,
        Err(LoadRefusal::OutOfMemory) => NO_MEMORY,
    }
}
