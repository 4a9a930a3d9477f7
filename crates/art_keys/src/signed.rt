//! Signed integers: their big-endian bytes with the top bit flipped.
ghost use Rattle.std.specs.Prelude.{◌≡◌, refl};
ghost use Rattle.std.specs.Ordering.{nat_cmp, int_cmp};
ghost use Rattle.std.proofs.Common.{rules};
ghost use Rattle.art_mapped.specs.Numbers.{IsSigned, signed_text};
ghost use Rattle.art_mapped.specs.NumberLaws.{signed_keep};
ghost use Rattle.art_keys.specs.EncodingLaws.{width_sorts, signed_are_bytes};

use crate::key::{KeyBytes, RadixKey};
use art_mapped::{Element, Signed};

impl KeyBytes for i8 {
    ghost encoded = { signed_text 1 };

    ghost is_key = { IsSigned 1 };

    ghost order = { int_cmp };
}

impl RadixKey for i8 {
    const WANTS_HEADS: bool = false;

    ghost ordered = { refl };

    ghost are_bytes = { λ z _. signed_are_bytes 1 z };

    ghost sorted = { width_sorts (signed_keep 1 (Prim.search rules)) };

    fn encoded_len(&self) -> usize {
        let _value = <i8 as Element<Signed>>::encode(*self);
        1
    }

    fn encoded_byte(&self, index: usize) -> u8 {
        let bytes = <i8 as Element<Signed>>::encode(*self);
        bytes[index]
    }
}

impl KeyBytes for i16 {
    ghost encoded = { signed_text 2 };

    ghost is_key = { IsSigned 2 };

    ghost order = { int_cmp };
}

impl RadixKey for i16 {
    const WANTS_HEADS: bool = false;

    ghost ordered = { refl };

    ghost are_bytes = { λ z _. signed_are_bytes 2 z };

    ghost sorted = { width_sorts (signed_keep 2 (Prim.search rules)) };

    fn encoded_len(&self) -> usize {
        let _value = <i16 as Element<Signed>>::encode(*self);
        2
    }

    fn encoded_byte(&self, index: usize) -> u8 {
        let bytes = <i16 as Element<Signed>>::encode(*self);
        bytes[index]
    }
}

impl KeyBytes for i32 {
    ghost encoded = { signed_text 4 };

    ghost is_key = { IsSigned 4 };

    ghost order = { int_cmp };
}

impl RadixKey for i32 {
    const WANTS_HEADS: bool = false;

    ghost ordered = { refl };

    ghost are_bytes = { λ z _. signed_are_bytes 4 z };

    ghost sorted = { width_sorts (signed_keep 4 (Prim.search rules)) };

    fn encoded_len(&self) -> usize {
        let _value = <i32 as Element<Signed>>::encode(*self);
        4
    }

    fn encoded_byte(&self, index: usize) -> u8 {
        let bytes = <i32 as Element<Signed>>::encode(*self);
        bytes[index]
    }
}

impl KeyBytes for i64 {
    ghost encoded = { signed_text 8 };

    ghost is_key = { IsSigned 8 };

    ghost order = { int_cmp };
}

impl RadixKey for i64 {
    const WANTS_HEADS: bool = false;

    ghost ordered = { refl };

    ghost are_bytes = { λ z _. signed_are_bytes 8 z };

    ghost sorted = { width_sorts (signed_keep 8 (Prim.search rules)) };

    fn encoded_len(&self) -> usize {
        let _value = <i64 as Element<Signed>>::encode(*self);
        8
    }

    fn encoded_byte(&self, index: usize) -> u8 {
        let bytes = <i64 as Element<Signed>>::encode(*self);
        bytes[index]
    }
}

impl KeyBytes for i128 {
    ghost encoded = { signed_text 16 };

    ghost is_key = { IsSigned 16 };

    ghost order = { int_cmp };
}

impl RadixKey for i128 {
    const WANTS_HEADS: bool = false;

    ghost ordered = { refl };

    ghost are_bytes = { λ z _. signed_are_bytes 16 z };

    ghost sorted = { width_sorts (signed_keep 16 (Prim.search rules)) };

    fn encoded_len(&self) -> usize {
        let _value = <i128 as Element<Signed>>::encode(*self);
        16
    }

    fn encoded_byte(&self, index: usize) -> u8 {
        let bytes = wide_bytes(*self);
        bytes[index]
    }
}

fn wide_bytes(value: i128) -> [u8; 16]
    ensures { result ≡ signed_text 16 value }
{
    <i128 as Element<Signed>>::encode(value)
}
