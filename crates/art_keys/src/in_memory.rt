//! Encodings in memory.
ghost use Rattle.std.specs.Prelude.{◌≡◌, ◌^◌, ◌≤◌, ◌<◌, IfOk, length, take};

use crate::key::RadixKey;
use std::alloc::{AllocError, Global};

/// The encoding of a key, in memory. Linear in its length.
///
/// Condition: it is shorter than 2^32 bytes, which `encoded_len` tells.
///
/// # Errors
///
/// There is no memory for it.
///
/// (from crates/art_key_tests/src/parts.rt)
/// ```rust
/// pub fn release_bytes(release: &Release, alloc: Global) -> Result<Option<Vec<u8>>, AllocError> {
///     if release.encoded_len() < 1 << 32 {
///         let bytes = encoding(release, alloc)?;
///         Ok(Some(bytes))
///     } else {
///         Ok(None)
///     }
/// }
/// ```
pub fn encoding<K: RadixKey>(key: &K, alloc: Global) -> Result<Vec<u8>, AllocError>
    requires short { length (K.encoded key.now) < 2 ^ 32 }
    ensures { IfOk result (λ bytes. bytes.items ≡ K.encoded key.now) }
{
    let len = key.encoded_len();
    encoding_prefix(key, len, alloc)
}

/// The first `count` bytes of the encoding of a key, in memory. Linear in `count`.
///
/// Conditions: the encoding has so many bytes, and they are fewer than 2^32. [`encoding`] has an
/// example.
///
/// # Errors
///
/// There is no memory for them.
pub fn encoding_prefix<K: RadixKey>(
    key: &K,
    count: usize,
    alloc: Global,
) -> Result<Vec<u8>, AllocError>
    requires within { count ≤ length (K.encoded key.now) }
    requires short { count < 2 ^ 32 }
    ensures { IfOk result (λ bytes. bytes.items ≡ take count (K.encoded key.now)) }
{
    let mut bytes = Vec::with_capacity(alloc, count)?;
    for index in 0..count {
        bytes.push(key.encoded_byte(index))?;
    }
    Ok(bytes)
}
