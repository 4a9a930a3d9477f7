//! Byte strings: vectors and arrays.
ghost use Rattle.std.specs.Prelude.{refl};
ghost use Rattle.std.specs.Prelude.{◌≡◌, length};
ghost use Rattle.std.specs.Ordering.{nat_cmp};
ghost use Rattle.std.specs.Cmp.Lexicographic.{slice_cmp};
ghost use Rattle.art_bytes.specs.Text.{IsText};
ghost use Rattle.art_keys.specs.Groups.{grouped};
ghost use Rattle.art_keys.specs.GroupLaws.{strings_sort, strings_are_bytes};
ghost use Rattle.art_keys.specs.EncodingLaws.{arrays_sort, sorted_agrees};

use crate::grouped::{grouped_byte, grouped_head, grouped_len};
use crate::key::{KeyBytes, RadixKey};
use crate::query::{ExactQuery, RadixQuery};
use std::cmp::Ordering;

impl KeyBytes for Vec<u8> {
    ghost encoded = { λ v. grouped v.items };

    ghost is_key = { λ v. IsText v.items };

    ghost order = { λ x y. slice_cmp nat_cmp x.items y.items };
}

impl RadixKey for Vec<u8> {
    const WANTS_HEADS: bool = true;

    ghost ordered = { refl };

    ghost are_bytes = { λ v is. strings_are_bytes v.items is };

    ghost sorted = { λ x y _ _. strings_sort x.items y.items };

    fn encoded_len(&self) -> usize {
        let bytes = self.as_slice();
        grouped_len(bytes)
    }

    fn encoded_byte(&self, index: usize) -> u8 {
        let bytes = self.as_slice();
        grouped_byte(bytes, index)
    }

    fn encoded_head(&self, skip: u32) -> u64 {
        grouped_head(self.as_slice(), skip)
    }
}

impl RadixQuery<Vec<u8>> for &[u8] {
    ghost encoded = { λ q. grouped q.now };

    ghost is_query = { λ q. IsText q.now };

    ghost compare = { λ q x. slice_cmp nat_cmp q.now x.items };

    ghost are_bytes = { λ q is. strings_are_bytes q.now is };

    ghost agrees = { λ q x _ _ _. sorted_agrees (slice_cmp nat_cmp q.now x.items) (grouped q.now)
        (grouped x.items) (strings_sort q.now x.items) };

    fn compare(&self, key: &Vec<u8>) -> Ordering {
        let bytes = key.as_slice();
        (*self).cmp(bytes)
    }

    fn encoded_len(&self) -> usize {
        let bytes = *self;
        grouped_len(bytes)
    }

    fn encoded_byte(&self, index: usize) -> u8 {
        grouped_byte(*self, index)
    }

    fn encoded_head(&self, skip: u32) -> u64 {
        grouped_head(*self, skip)
    }
}

impl ExactQuery<Vec<u8>> for &[u8] {
    ghost sorted = { λ q x _ _. strings_sort q.now x.items };
}

impl<const N: usize> KeyBytes for [u8; N] {
    ghost encoded = { λ a. a };

    ghost is_key = { λ a. (length a ≡ N) × IsText a };

    ghost order = { slice_cmp nat_cmp };
}

impl<const N: usize> RadixKey for [u8; N] {
    const WANTS_HEADS: bool = 16 < N;

    ghost ordered = { refl };

    ghost are_bytes = { λ _ is. is.1 };

    ghost sorted = { λ x y x_is y_is. arrays_sort N x y x_is.0 y_is.0 };

    fn encoded_len(&self) -> usize {
        let bytes = self.as_slice();
        bytes.len()
    }

    fn encoded_byte(&self, index: usize) -> u8 {
        self[index]
    }
}
