//! Many entries of a map by bytes, into buffers of a caller.
ghost use Rattle.std.specs.Prelude.{◌≡◌, ◌≢◌, ◌+◌, ◌≤◌, ◌∷◌, ◌++◌, [], drop, length, min, take, IfNone, IfSome, None, Some};
ghost use Rattle.std.specs.Option.{option_map};
ghost use Rattle.art_c_maps.specs.Batch.{ends_of, fitting, joined_keys, toward, unfit_len};
ghost use Rattle.art_c_maps.specs.Entries.{begun_with, entries_in_bytes, first_of, keys_of, values_of};

use crate::byte_string::ByteString;
use crate::many::next_entry;
use art_map::Iter;

/// The bytes and the value of the entry that is next.
pub(crate) fn next_bytes<'a>(
    entries: &mut Iter<'a, ByteString, u64>,
    backward: bool,
) -> Option<(&'a [u8], u64)>
    ensures some { IfSome result (λ (key, value). toward backward (entries_in_bytes entries.old)
        ≡ (key.now, value) ∷ toward backward (entries_in_bytes entries.new)) }
    ensures none { IfNone result (toward backward (entries_in_bytes entries.old) ≡ []) }
{
    let (key, value) = next_entry(entries, backward)?;
    Some((key.as_bytes(), *value))
}

// The number of bytes of the key that is next.
fn next_len(mut entries: Iter<'_, ByteString, u64>, backward: bool) -> Option<usize>
    ensures { result ≡ option_map (λ entry. length entry.0)
        (first_of (toward backward (entries_in_bytes entries.entry))) }
{
    let (key, _) = next_bytes(&mut entries, backward)?;
    Some(key.len())
}

// The number of bytes of a key that does not fit, where none is written before it.
fn unfit_at(index: usize, len: usize) -> Option<usize>
    ensures first { index ≡ 0 → result ≡ Some len }
    ensures others { index ≢ 0 → result ≡ None }
{
    if index == 0 { Some(len) } else { None }
}

// Writes bytes behind the first `at` bytes.
fn write_behind(bytes: &[u8], out: &mut [u8], at: usize)
    requires { at + length bytes.now ≤ length out.old }
    ensures { out.new ≡ take at out.old ++ bytes.now ++ drop (at + length bytes.now) out.old }
{
    let end = at + bytes.len();
    out[at..end].copy_from_slice(bytes);
}

/// Writes the first of these entries, or the last ones where it goes backward: the keys one behind another,
/// where each ends, and the values; as many as the shorter of `ends` and `values` holds, and before the first
/// key that no longer fits. Returns how many, and where none is written the number of bytes of the first key,
/// if there is one.
pub(crate) fn write_batch(
    mut entries: Iter<'_, ByteString, u64>,
    backward: bool,
    keys: &mut [u8],
    ends: &mut [usize],
    values: &mut [u64],
) -> (usize, Option<usize>)
    ensures count { result.0 ≡ length (fitting (min (length ends.old) (length values.old)) (length keys.old)
        (toward backward (entries_in_bytes entries.entry))) }
    ensures unfit { result.1 ≡ unfit_len
        (fitting (min (length ends.old) (length values.old)) (length keys.old)
        (toward backward (entries_in_bytes entries.entry)))
        (first_of (toward backward (entries_in_bytes entries.entry))) }
    ensures keys { keys.new ≡ begun_with (joined_keys (keys_of (fitting
        (min (length ends.old) (length values.old)) (length keys.old)
        (toward backward (entries_in_bytes entries.entry))))) keys.old }
    ensures ends { ends.new ≡ begun_with (ends_of (fitting
        (min (length ends.old) (length values.old)) (length keys.old)
        (toward backward (entries_in_bytes entries.entry)))) ends.old }
    ensures values { values.new ≡ begun_with (values_of (fitting
        (min (length ends.old) (length values.old)) (length keys.old)
        (toward backward (entries_in_bytes entries.entry)))) values.old }
{
    let room = ends.len().min(values.len());
    if room == 0 {
        return (0, next_len(entries, backward));
    }
    let mut at = 0;
    for index in 0..room {
        let Some((key, value)) = next_bytes(&mut entries, backward) else {
            return (index, None);
        };
        let len = key.len();
        if len > keys.len() - at {
            return (index, unfit_at(index, len));
        }
        write_behind(key, keys, at);
        at += len;
        ends[index] = at;
        values[index] = value;
    }
    (room, None)
}
