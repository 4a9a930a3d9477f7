//! Strings: each byte plus one, and a zero.
ghost use Rattle.std.specs.Prelude.{◌≡◌, ◌<◌, length, get_or, refl};
ghost use Rattle.std.specs.String.{string_bytes};
ghost use Rattle.std.specs.Box.{boxed_str_bytes};
ghost use Rattle.std.specs.Ordering.{nat_cmp};
ghost use Rattle.std.specs.Cmp.Lexicographic.{slice_cmp};
ghost use Rattle.art_keys.specs.EncodingLaws.{sorted_agrees};
ghost use Rattle.art_keys.specs.StringLaws.{raised_sort, raised_are_bytes};
ghost use Rattle.art_keys.specs.Encoding.{saturated};
ghost use Rattle.art_keys.specs.Heads.{head_at};
ghost use Rattle.art_keys.specs.Strings.{raised, IsStringText};

use crate::head::{ByteSource, head_of};
use crate::key::{KeyBytes, RadixKey};
use crate::query::{ExactQuery, RadixQuery};
use std::boxed::BoxedStr;
use std::cmp::Ordering;

/// How many bytes the encoding of a string has.
pub(crate) fn raised_len(text: &str) -> usize
    ensures len { result ≡ saturated (length (raised text.now)) }
    ensures text { IsStringText text.now }
{
    text.len().saturating_add(1)
}

/// One byte of it.
pub(crate) fn raised_byte(text: &str, index: usize) -> u8
    ensures { result ≡ get_or (raised text.now) index 0 }
{
    let bytes = text.as_bytes();
    if index < bytes.len() {
        bytes[index] + 1
    } else {
        0
    }
}

/// Eight bytes of it.
pub(crate) fn raised_head(text: &str, skip: u32) -> u64
    ensures { result ≡ head_at skip (raised text.now) }
{
    let bytes = text.as_bytes();
    let start = skip as usize;
    if bytes.len() < start + 8 {
        return head_of(Raised(text), skip);
    }
    let eight = u64::from_be_bytes([
        bytes[start],
        bytes[start + 1],
        bytes[start + 2],
        bytes[start + 3],
        bytes[start + 4],
        bytes[start + 5],
        bytes[start + 6],
        bytes[start + 7],
    ]);
    eight + 0x0101_0101_0101_0101
}

#[derive(Clone, Copy)]
struct Raised<'a>(&'a str);

impl ByteSource for Raised<'_> {
    ghost text = { λ bytes. raised bytes.0.now };

    fn byte_at(&self, index: usize) -> u8 {
        raised_byte(self.0, index)
    }
}

impl KeyBytes for String {
    ghost encoded = { λ s. raised (string_bytes s) };

    ghost is_key = { λ s. IsStringText (string_bytes s) };

    ghost order = { λ x y. slice_cmp nat_cmp (string_bytes x) (string_bytes y) };
}

impl RadixKey for String {
    const WANTS_HEADS: bool = true;

    ghost ordered = { refl };

    ghost are_bytes = { λ s is. raised_are_bytes (string_bytes s) is };

    ghost sorted = { λ x y _ _. raised_sort (string_bytes x) (string_bytes y) };

    fn encoded_len(&self) -> usize {
        raised_len(self.as_str())
    }

    fn encoded_byte(&self, index: usize) -> u8 {
        raised_byte(self.as_str(), index)
    }

    fn encoded_head(&self, skip: u32) -> u64 {
        raised_head(self.as_str(), skip)
    }
}

impl RadixQuery<String> for &str {
    ghost encoded = { λ q. raised q.now };

    ghost is_query = { λ q. IsStringText q.now };

    ghost compare = { λ q x. slice_cmp nat_cmp q.now (string_bytes x) };

    ghost are_bytes = { λ q is. raised_are_bytes q.now is };

    ghost agrees = { λ q x _ _ _. sorted_agrees (slice_cmp nat_cmp q.now (string_bytes x))
        (raised q.now) (raised (string_bytes x)) (raised_sort q.now (string_bytes x)) };

    fn compare(&self, key: &String) -> Ordering {
        let text = key.as_str();
        (*self).cmp(text)
    }

    fn encoded_len(&self) -> usize {
        raised_len(*self)
    }

    fn encoded_byte(&self, index: usize) -> u8 {
        raised_byte(*self, index)
    }

    fn encoded_head(&self, skip: u32) -> u64 {
        raised_head(*self, skip)
    }
}

impl ExactQuery<String> for &str {
    ghost sorted = { λ q x _ _. raised_sort q.now (string_bytes x) };
}

impl KeyBytes for BoxedStr {
    ghost encoded = { λ s. raised (boxed_str_bytes s) };

    ghost is_key = { λ s. IsStringText (boxed_str_bytes s) };

    ghost order = { λ x y. slice_cmp nat_cmp (boxed_str_bytes x) (boxed_str_bytes y) };
}

impl RadixKey for BoxedStr {
    const WANTS_HEADS: bool = true;

    ghost ordered = { refl };

    ghost are_bytes = { λ s is. raised_are_bytes (boxed_str_bytes s) is };

    ghost sorted = { λ x y _ _. raised_sort (boxed_str_bytes x) (boxed_str_bytes y) };

    fn encoded_len(&self) -> usize {
        raised_len(self.as_str())
    }

    fn encoded_byte(&self, index: usize) -> u8 {
        raised_byte(self.as_str(), index)
    }

    fn encoded_head(&self, skip: u32) -> u64 {
        raised_head(self.as_str(), skip)
    }
}

impl RadixQuery<BoxedStr> for &str {
    ghost encoded = { λ q. raised q.now };

    ghost is_query = { λ q. IsStringText q.now };

    ghost compare = { λ q x. slice_cmp nat_cmp q.now (boxed_str_bytes x) };

    ghost are_bytes = { λ q is. raised_are_bytes q.now is };

    ghost agrees = { λ q x _ _ _. sorted_agrees (slice_cmp nat_cmp q.now (boxed_str_bytes x))
        (raised q.now) (raised (boxed_str_bytes x)) (raised_sort q.now (boxed_str_bytes x)) };

    fn compare(&self, key: &BoxedStr) -> Ordering {
        let text = key.as_str();
        (*self).cmp(text)
    }

    fn encoded_len(&self) -> usize {
        raised_len(*self)
    }

    fn encoded_byte(&self, index: usize) -> u8 {
        raised_byte(*self, index)
    }

    fn encoded_head(&self, skip: u32) -> u64 {
        raised_head(*self, skip)
    }
}

impl ExactQuery<BoxedStr> for &str {
    ghost sorted = { λ q x _ _. raised_sort q.now (boxed_str_bytes x) };
}
