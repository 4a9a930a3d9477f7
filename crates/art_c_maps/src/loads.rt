//! Entries that are loaded: whether their keys may be, and the map that has them.
ghost use Rattle.std.specs.Prelude.{◌≡◌, false, true, IfOk, IsTrue};
ghost use Rattle.std.specs.List.{zip};
ghost use Rattle.std.specs.Ordering.{nat_cmp};
ghost use Rattle.art_bytes.specs.Text.{text_order};
ghost use Rattle.art_c_maps.specs.Entries.{entries_in_bytes, keys_of};
ghost use Rattle.art_c_maps.specs.Loads.{NoneTooLong, SomeTooLong, ascend};
ghost use Rattle.art_c_maps.specs.Many.{cut};

use crate::byte_string::ByteString;
use crate::many::bytes_between;
use crate::refusal::is_too_long;
use art_map::Map;
use std::alloc::{AllocError, Global};

/// Whether each number is below the next one.
pub(crate) fn numbers_ascend(keys: &[u64]) -> bool
    ensures { result ≡ ascend nat_cmp keys.now }
{
    let pairs = keys.len().saturating_sub(1);
    for index in 0..pairs {
        let is_below = keys[index].cmp(&keys[index + 1]).is_lt();
        if !is_below {
            return false;
        }
    }
    true
}

/// Whether each key is below the next one.
pub(crate) fn keys_ascend(keys: &[u8], ends: &[usize]) -> bool
    ensures { result ≡ ascend text_order (cut keys.now ends.now) }
{
    let pairs = ends.len().saturating_sub(1);
    let mut start = 0;
    for index in 0..pairs {
        let end = ends[index];
        let key = bytes_between(keys, start, end);
        let next = bytes_between(keys, end, ends[index + 1]);
        let is_below = key.cmp(next).is_lt();
        if !is_below {
            return false;
        }
        start = end;
    }
    true
}

/// Whether some key is too long for a map.
pub(crate) fn some_too_long(keys: &[u8], ends: &[usize]) -> bool
    ensures some { IsTrue result → SomeTooLong (cut keys.now ends.now) }
    ensures none { result ≡ false → NoneTooLong (cut keys.now ends.now) }
{
    let mut start = 0;
    for index in 0..ends.len() {
        let end = ends[index];
        if is_too_long(bytes_between(keys, start, end)) {
            return true;
        }
        start = end;
    }
    false
}

/// The map of these entries, whose keys ascend: as many as the shorter of both slices holds.
pub(crate) fn map_of_numbers(
    alloc: Global,
    keys: &[u64],
    values: &[u64],
) -> Result<Map<u64, u64>, AllocError>
    requires { ascend nat_cmp (keys_of (zip keys.now values.now)) ≡ true }
    ensures { IfOk result (λ map. map ≡ zip keys.now values.now) }
{
    let count = keys.len().min(values.len());
    let mut loaded = Map::new(alloc);
    for index in 0..count {
        let Ok(_) = loaded.insert(keys[index], values[index]) else {
            return Err(AllocError);
        };
    }
    Ok(loaded)
}

/// The map of these entries, whose keys ascend, and none of which is too long: as many as the shorter of `ends`
/// and `values` holds.
pub(crate) fn map_of_bytes(
    alloc: Global,
    keys: &[u8],
    ends: &[usize],
    values: &[u64],
) -> Result<Map<ByteString, u64>, AllocError>
    requires { ascend text_order (keys_of (zip (cut keys.now ends.now) values.now)) ≡ true }
    ensures { IfOk result (λ map. entries_in_bytes map ≡ zip (cut keys.now ends.now) values.now) }
{
    let count = ends.len().min(values.len());
    let mut loaded = Map::new(alloc);
    let mut start = 0;
    for index in 0..count {
        let end = ends[index];
        let key = ByteString::new(alloc, bytes_between(keys, start, end))?;
        let Ok(_) = loaded.insert(key, values[index]) else {
            return Err(AllocError);
        };
        start = end;
    }
    Ok(loaded)
}
