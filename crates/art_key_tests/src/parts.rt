//! What generic code and plain code know of keys and queries.
ghost use Rattle.std.specs.Prelude.{◌≡◌, get_or};

use crate::own_key::Release;
use art_keys::{Edge, Prefix, PrefixBound, PrefixQuery, RadixKey, RadixQuery, TotalF64, encoding};
use std::alloc::{AllocError, Global};
use std::cmp::{Ordering, Reverse};

/// The first byte of an encoding, and a zero where there is none.
pub fn first_byte<K: RadixKey>(key: &K) -> u8
    ensures { result ≡ get_or (K.encoded key.now) 0 0 }
{
    if 0 < key.encoded_len() {
        key.encoded_byte(0)
    } else {
        0
    }
}

/// How a query compares to a key.
pub fn ask<K: RadixKey, Q: RadixQuery<K>>(query: Q, key: &K) -> Ordering
    ensures { result ≡ Q.compare query key.now }
{
    query.compare(key)
}

/// The encoding of a release, unless it is too long.
pub fn release_bytes(release: &Release, alloc: Global) -> Result<Option<Vec<u8>>, AllocError> {
    if release.encoded_len() < 1 << 32 {
        let bytes = encoding(release, alloc)?;
        Ok(Some(bytes))
    } else {
        Ok(None)
    }
}

/// The release of a name, asked for by a borrowed string.
pub fn is_release(key: &(String, Reverse<u32>), name: &str, number: &Reverse<u32>) -> bool {
    ask((name, number), key).is_eq()
}

/// The head of a key of three parts.
pub fn head(key: &(u32, String, u64)) -> u64 {
    key.encoded_head(4)
}

/// The greater of two floats, in their total order.
pub fn warmest(first: f64, second: f64) -> f64 {
    let warmest = TotalF64::new(first).max(TotalF64::new(second));
    warmest.get()
}

/// A float that became a key and is read back.
pub fn read_back(value: f64) -> f64
    ensures { result ≡ value }
{
    let key = TotalF64::new(value);
    key.get()
}

/// Whether a key is between the bounds of a prefix.
pub fn is_within<K: RadixKey, P: PrefixQuery<K>>(prefix: P, key: &K) -> bool {
    let lower = PrefixBound {
        prefix,
        edge: Edge::Lowest,
    };
    let upper = PrefixBound {
        prefix,
        edge: Edge::Highest,
    };
    ask(lower, key).is_lt() && ask(upper, key).is_gt()
}

/// Whether a release's name begins so, asked by the bounds.
pub fn is_named(key: &(String, Reverse<u32>), start: &str) -> bool {
    is_within(Prefix((start,)), key)
}

/// Whether it is this number's, and a word that begins so.
pub fn is_word(key: &(u32, String, u64), number: u32, start: &str) -> bool {
    is_within((&number,), key) && is_within(Prefix((&number, start)), key)
}
