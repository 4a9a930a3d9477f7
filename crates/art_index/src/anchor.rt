//! Anchors: the keys of an index, which are bytes of encodings.
ghost use Rattle.std.specs.Prelude.{◌≡◌, ◌≤◌, IfOk, IsOk, length, take};
ghost use Rattle.art_bytes.specs.Text.{IsText};

use art_bytes::AsBytes;
use art_keys::RadixKey;
use std::alloc::{AllocError, Global};
use std::marker::Model;

// So many bytes are kept in place.
const MOST_IN_PLACE: usize = 22;

// Few bytes, in place.
#[derive(Drop)]
struct ShortBytes {
    len: u8,
    bytes: [u8; 22],
    ghost fits: { len ≤ 22 },
}

// Few bytes in place, or more on the heap.
#[derive(Drop)]
enum Form {
    Short(ShortBytes),
    Long(Vec<u8>),
}

/// The anchor of a page: the bytes of an encoding, which is not above that of any key of the page. Up to
/// 22 bytes are kept in place. Contracts see it as the list of these bytes.
#[derive(Drop)]
pub struct Anchor {
    form: Form,
}

impl Model for Anchor {
    ghost use Rattle.std.specs.Prelude.{ℕ, List};
    ghost use Rattle.art_index.specs.Anchors.{form_bytes};

    ghost Value = { List ℕ };

    ghost view = { λ anchor. form_bytes anchor.form };
}

impl AsBytes for Anchor {
    ghost use Rattle.std.specs.Prelude.{⊤};

    ghost text = { λ anchor. anchor };

    ghost is_key = { λ _. ⊤ };

    fn as_bytes(&self) -> &[u8] {
        match &self.form {
            Form::Short(short) => short_bytes(short),
            Form::Long(bytes) => bytes.as_bytes(),
        }
    }
}

// The bytes that are kept in place.
fn short_bytes(short: &ShortBytes) -> &[u8]
    ensures value { result.now ≡ take short.now.len short.now.bytes }
    ensures bytes { IsText result.now }
{
    let all = short.bytes.as_bytes();
    &all[..short.len as usize]
}

// The first bytes of an encoding, in place. Condition: these are all of them.
fn short_encoding<K: RadixKey>(key: &K, len: usize) -> ShortBytes
    requires in_place { len ≤ 22 }
    requires all { len ≡ length (K.encoded key.now) }
    ensures { take result.len result.bytes ≡ K.encoded key.now }
{
    let mut bytes = [0; 22];
    for index in 0..len {
        bytes[index] = key.encoded_byte(index);
    }
    ShortBytes {
        len: len as u8,
        bytes,
    }
}

// The bytes of an encoding, on the heap.
fn long_encoding<K: RadixKey>(key: &K, len: usize, alloc: Global) -> Result<Vec<u8>, AllocError>
    requires { len ≡ length (K.encoded key.now) }
    ensures { IfOk result (λ bytes. bytes.items ≡ K.encoded key.now) }
{
    let mut bytes = Vec::with_capacity(alloc, len)?;
    for index in 0..len {
        bytes.push(key.encoded_byte(index))?;
    }
    Ok(bytes)
}

impl Anchor {
    /// The encoding of a key. Error: [`AllocError`], where memory is refused for more than 22 bytes, or
    /// the encoding is longer than memory.
    pub fn of<K: RadixKey>(key: &K, alloc: Global) -> Result<Anchor, AllocError>
        ensures bytes { IfOk result (λ anchor. anchor ≡ K.encoded key.now) }
        ensures takes_no_memory { length (K.encoded key.now) ≤ 22 → IsOk result }
    {
        let len = key.encoded_len();
        if len == usize::MAX {
            return Err(AllocError);
        }
        if len <= MOST_IN_PLACE {
            let short = short_encoding(key, len);
            return Ok(Anchor {
                form: Form::Short(short),
            });
        }
        let bytes = long_encoding(key, len, alloc)?;
        Ok(Anchor {
            form: Form::Long(bytes),
        })
    }
}
