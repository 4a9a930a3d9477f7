//! Keys of any type, counted.
ghost use Rattle.std.specs.Prelude.{◌≡◌, ◌+◌, ◌-◌, ◌^◌, min, OnErr, OnOk};
ghost use Rattle.std.specs.BTreeMap.{insert_entry};
ghost use Rattle.std.specs.Option.{unwrap_or};
ghost use Rattle.art_pages.specs.Entries.{get_by};

use art_keys::RadixKey;
use art_map::Map;
use std::alloc::AllocError;

/// Counts a key once more, up to the greatest number. Refused, the counts are as they were.
pub fn count<K: RadixKey + Drop>(counts: &mut Map<K, u32>, key: K) -> Result<(), AllocError>
    ensures counted { OnOk result (counts.new ≡ insert_entry K.cmp counts.old key
        (min (unwrap_or (get_by (K.cmp key) counts.old) 0 + 1) (2 ^ 32 - 1))) }
    ensures refused { OnErr result (counts.new ≡ counts.old) }
{
    let count = counts.get_or_insert_with(key, || 0)?;
    *count = count.saturating_add(1);
    Ok(())
}
