//! Keys of entries that are found, written into a buffer of a caller.
ghost use Rattle.std.specs.Prelude.{◌≡◌};
ghost use Rattle.std.specs.Option.{option_map};
ghost use Rattle.art_c_maps.specs.ByteStrings.{bytes_of_string};
ghost use Rattle.art_c_maps.specs.Buffers.{key_fits, key_written, len_and_value, written};

use crate::byte_string::ByteString;

// Writes bytes into a buffer, where they fit.
fn write(bytes: &[u8], out: &mut [u8])
    ensures { out.new ≡ written bytes.now out.old }
{
    let len = bytes.len();
    if len <= out.len() {
        out[..len].copy_from_slice(bytes);
    }
}

/// Writes the key of an entry that was found, where it fits. Returns its length and the value.
pub(crate) fn write_found(
    found: Option<(&ByteString, &u64)>,
    key_out: &mut [u8],
) -> Option<(usize, u64)>
    ensures found { result ≡ option_map len_and_value (option_map
        (λ (key, value). (bytes_of_string key.now, value.now)) found.entry) }
    ensures written { key_out.new ≡ key_written (option_map
        (λ (key, value). (bytes_of_string key.now, value.now)) found.entry) key_out.old }
{
    let (key, value) = found?;
    let bytes = key.as_bytes();
    write(bytes, key_out);
    Some((bytes.len(), *value))
}

/// The same for an entry that was removed.
pub(crate) fn write_removed(
    removed: Option<(ByteString, u64)>,
    key_out: &mut [u8],
) -> Option<(usize, u64)>
    ensures found { result ≡ option_map len_and_value
        (option_map (λ (key, value). (bytes_of_string key, value)) removed) }
    ensures written { key_out.new ≡ key_written
        (option_map (λ (key, value). (bytes_of_string key, value)) removed) key_out.old }
{
    let (key, value) = removed?;
    let bytes = key.as_bytes();
    write(bytes, key_out);
    Some((bytes.len(), value))
}

/// Whether an entry was found whose key fits into so many bytes.
pub(crate) fn found_fits(found: Option<(&ByteString, &u64)>, room: usize) -> bool
    ensures { result ≡ key_fits (option_map
        (λ (key, value). (bytes_of_string key.now, value.now)) found.entry) room }
{
    match found {
        Some((key, _)) => key.as_bytes().len() <= room,
        None => false,
    }
}
