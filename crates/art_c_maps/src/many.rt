//! What calls for many entries share.
ghost use Rattle.std.specs.Prelude.{◌≡◌, ◌-◌, ◌∷◌, [], drop, take, IfNone, IfSome};
ghost use Rattle.art_c_maps.specs.Batch.{toward};
ghost use Rattle.art_c_maps.specs.Many.{found_or, one_if_found};

use art_keys::RadixKey;
use art_map::Iter;

/// Whether a value is found, and the value, or else the one that was there before.
pub(crate) fn found_beside(found: Option<u64>, before: u64) -> (u8, u64)
    ensures { result ≡ (one_if_found found, found_or found before) }
{
    match found {
        Some(value) => (1, value),
        None => (0, before),
    }
}

/// The bytes from a start to an end, as far as there are any.
pub(crate) fn bytes_between(bytes: &[u8], start: usize, end: usize) -> &[u8]
    ensures { result.now ≡ take (end - start) (drop start bytes.now) }
{
    let from = start.min(bytes.len());
    let to = end.min(bytes.len()).max(from);
    &bytes[from..to]
}

/// The entry that is next in this direction.
pub(crate) fn next_entry<'a, K: RadixKey, V>(
    entries: &mut Iter<'a, K, V>,
    backward: bool,
) -> Option<(&'a K, &'a V)>
    ensures some { IfSome result (λ (key, value).
        toward backward entries.old ≡ (key.now, value.now) ∷ toward backward entries.new) }
    ensures none { IfNone result (toward backward entries.old ≡ []) }
{
    if backward {
        entries.next_back()
    } else {
        entries.next()
    }
}
