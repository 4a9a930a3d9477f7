//! The exports that lend entries, and copy none.
ghost use Rattle.std.specs.Prelude.{◌≡◌, [], drop, length, take};
ghost use Rattle.std.specs.List.{AllZip};
ghost use Rattle.std.specs.Ordering.{nat_cmp};
ghost use Rattle.art_bytes.specs.Text.{text_order};
ghost use Rattle.art_c.specs.Handles.{held_entries};
ghost use Rattle.art_c_maps.specs.Entries.{entries_from, entries_with_prefix, next_entries};
ghost use Rattle.art_c_maps.specs.Lent.{IsLent};

use crate::bytes_view::BytesView;
use crate::number_view::NumberView;
use art_c_maps::{BytesEntry, NumberRun};

/// Lends the entries at a key or after it, as they lie in the map, to the end of their page, for as long as the
/// map is lent. Writes out their address. Returns how many they are: 0 only where none follows.
#[unsafe(no_mangle)]
pub extern "C" fn art_u64_page(
    map: &mut NumberView,
    from: u64,
    inclusive: bool,
    entries: &mut NumberRun,
) -> usize
    ensures count { result ≡ length entries.new.entries }
    ensures first { entries.new.entries
        ≡ take result (entries_from nat_cmp inclusive from (held_entries map.old.seen)) }
    ensures none { result ≡ 0 → entries_from nat_cmp inclusive from (held_entries map.old.seen) ≡ [] }
    ensures lent { entries.new.life ≡ map.old.life }
    ensures same { map.new ≡ map.old }
{
    let (run, count) = map.lend_run(from, inclusive);
    *entries = run;
    count
}

/// Lends the first entries at a key or after it, of those whose keys begin with a prefix, for as long as the map
/// is lent: writes out the addresses of their keys, and their values, as many as the array holds. Returns how
/// many.
#[unsafe(no_mangle)]
pub extern "C" fn art_bytes_page(
    map: &mut BytesView,
    prefix: &[u8],
    from: &[u8],
    inclusive: bool,
    entries: &mut [BytesEntry],
) -> usize
    ensures count { result ≡ length (next_entries text_order (length entries.old) inclusive from.now
        (entries_with_prefix prefix.now (held_entries map.old.seen))) }
    ensures lent { AllZip (IsLent map.old.life) (next_entries text_order (length entries.old) inclusive from.now
        (entries_with_prefix prefix.now (held_entries map.old.seen))) (take result entries.new) }
    ensures others { drop result entries.new ≡ drop result entries.old }
    ensures same { map.new ≡ map.old }
{
    map.lend_next(prefix, from, inclusive, entries)
}
