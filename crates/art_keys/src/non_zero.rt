//! Integers that are not zero: the bytes of the integer.
ghost use Rattle.std.specs.Prelude.{refl};
ghost use Rattle.std.specs.Int.NonZero.{non_zero_u8_get, non_zero_u16_get, non_zero_u32_get};
ghost use Rattle.std.specs.Int.NonZero.{non_zero_u64_get, non_zero_u128_get};
ghost use Rattle.std.specs.Int.NonZero.{non_zero_i8_get, non_zero_i16_get, non_zero_i32_get};
ghost use Rattle.std.specs.Int.NonZero.{non_zero_i64_get, non_zero_i128_get};
ghost use Rattle.std.specs.Ordering.{nat_cmp, int_cmp, on};
ghost use Rattle.std.proofs.Common.{rules};
ghost use Rattle.art_mapped.specs.Numbers.{digits, IsUnsigned, IsSigned, signed_text};
ghost use Rattle.art_mapped.specs.NumberLaws.{unsigned_keep, signed_keep};
ghost use Rattle.art_keys.specs.EncodingLaws.{width_sorts, digits_are_bytes, signed_are_bytes};

use crate::key::{KeyBytes, RadixKey};
use std::num::{
    NonZeroI8, NonZeroI16, NonZeroI32, NonZeroI64, NonZeroI128, NonZeroU8, NonZeroU16, NonZeroU32,
    NonZeroU64, NonZeroU128,
};

impl KeyBytes for NonZeroU8 {
    ghost encoded = { λ n. digits 1 (non_zero_u8_get n) };

    ghost is_key = { λ n. IsUnsigned 1 (non_zero_u8_get n) };

    ghost order = { on non_zero_u8_get nat_cmp };
}

impl RadixKey for NonZeroU8 {
    const WANTS_HEADS: bool = false;

    ghost ordered = { refl };

    ghost are_bytes = { λ n _. digits_are_bytes 1 (non_zero_u8_get n) };

    ghost sorted = { λ x y. width_sorts (unsigned_keep 1 (Prim.search rules)) (non_zero_u8_get x) (non_zero_u8_get y) };

    fn encoded_len(&self) -> usize {
        let value = self.get();
        value.encoded_len()
    }

    fn encoded_byte(&self, index: usize) -> u8 {
        let value = self.get();
        value.encoded_byte(index)
    }

    fn encoded_head(&self, skip: u32) -> u64 {
        let value = self.get();
        value.encoded_head(skip)
    }
}

impl KeyBytes for NonZeroU16 {
    ghost encoded = { λ n. digits 2 (non_zero_u16_get n) };

    ghost is_key = { λ n. IsUnsigned 2 (non_zero_u16_get n) };

    ghost order = { on non_zero_u16_get nat_cmp };
}

impl RadixKey for NonZeroU16 {
    const WANTS_HEADS: bool = false;

    ghost ordered = { refl };

    ghost are_bytes = { λ n _. digits_are_bytes 2 (non_zero_u16_get n) };

    ghost sorted = { λ x y. width_sorts (unsigned_keep 2 (Prim.search rules)) (non_zero_u16_get x) (non_zero_u16_get y) };

    fn encoded_len(&self) -> usize {
        let value = self.get();
        value.encoded_len()
    }

    fn encoded_byte(&self, index: usize) -> u8 {
        let value = self.get();
        value.encoded_byte(index)
    }

    fn encoded_head(&self, skip: u32) -> u64 {
        let value = self.get();
        value.encoded_head(skip)
    }
}

impl KeyBytes for NonZeroU32 {
    ghost encoded = { λ n. digits 4 (non_zero_u32_get n) };

    ghost is_key = { λ n. IsUnsigned 4 (non_zero_u32_get n) };

    ghost order = { on non_zero_u32_get nat_cmp };
}

impl RadixKey for NonZeroU32 {
    const WANTS_HEADS: bool = false;

    ghost ordered = { refl };

    ghost are_bytes = { λ n _. digits_are_bytes 4 (non_zero_u32_get n) };

    ghost sorted = { λ x y. width_sorts (unsigned_keep 4 (Prim.search rules)) (non_zero_u32_get x) (non_zero_u32_get y) };

    fn encoded_len(&self) -> usize {
        let value = self.get();
        value.encoded_len()
    }

    fn encoded_byte(&self, index: usize) -> u8 {
        let value = self.get();
        value.encoded_byte(index)
    }

    fn encoded_head(&self, skip: u32) -> u64 {
        let value = self.get();
        value.encoded_head(skip)
    }
}

impl KeyBytes for NonZeroU64 {
    ghost encoded = { λ n. digits 8 (non_zero_u64_get n) };

    ghost is_key = { λ n. IsUnsigned 8 (non_zero_u64_get n) };

    ghost order = { on non_zero_u64_get nat_cmp };
}

impl RadixKey for NonZeroU64 {
    const WANTS_HEADS: bool = false;

    ghost ordered = { refl };

    ghost are_bytes = { λ n _. digits_are_bytes 8 (non_zero_u64_get n) };

    ghost sorted = { λ x y. width_sorts (unsigned_keep 8 (Prim.search rules)) (non_zero_u64_get x) (non_zero_u64_get y) };

    fn encoded_len(&self) -> usize {
        let value = self.get();
        value.encoded_len()
    }

    fn encoded_byte(&self, index: usize) -> u8 {
        let value = self.get();
        value.encoded_byte(index)
    }

    fn encoded_head(&self, skip: u32) -> u64 {
        let value = self.get();
        value.encoded_head(skip)
    }
}

impl KeyBytes for NonZeroU128 {
    ghost encoded = { λ n. digits 16 (non_zero_u128_get n) };

    ghost is_key = { λ n. IsUnsigned 16 (non_zero_u128_get n) };

    ghost order = { on non_zero_u128_get nat_cmp };
}

impl RadixKey for NonZeroU128 {
    const WANTS_HEADS: bool = false;

    ghost ordered = { refl };

    ghost are_bytes = { λ n _. digits_are_bytes 16 (non_zero_u128_get n) };

    ghost sorted = { λ x y. width_sorts (unsigned_keep 16 (Prim.search rules)) (non_zero_u128_get x) (non_zero_u128_get y) };

    fn encoded_len(&self) -> usize {
        let value = self.get();
        value.encoded_len()
    }

    fn encoded_byte(&self, index: usize) -> u8 {
        let value = self.get();
        value.encoded_byte(index)
    }

    fn encoded_head(&self, skip: u32) -> u64 {
        let value = self.get();
        value.encoded_head(skip)
    }
}

impl KeyBytes for NonZeroI8 {
    ghost encoded = { λ n. signed_text 1 (non_zero_i8_get n) };

    ghost is_key = { λ n. IsSigned 1 (non_zero_i8_get n) };

    ghost order = { on non_zero_i8_get int_cmp };
}

impl RadixKey for NonZeroI8 {
    const WANTS_HEADS: bool = false;

    ghost ordered = { refl };

    ghost are_bytes = { λ n _. signed_are_bytes 1 (non_zero_i8_get n) };

    ghost sorted = { λ x y. width_sorts (signed_keep 1 (Prim.search rules)) (non_zero_i8_get x) (non_zero_i8_get y) };

    fn encoded_len(&self) -> usize {
        let value = self.get();
        value.encoded_len()
    }

    fn encoded_byte(&self, index: usize) -> u8 {
        let value = self.get();
        value.encoded_byte(index)
    }

    fn encoded_head(&self, skip: u32) -> u64 {
        let value = self.get();
        value.encoded_head(skip)
    }
}

impl KeyBytes for NonZeroI16 {
    ghost encoded = { λ n. signed_text 2 (non_zero_i16_get n) };

    ghost is_key = { λ n. IsSigned 2 (non_zero_i16_get n) };

    ghost order = { on non_zero_i16_get int_cmp };
}

impl RadixKey for NonZeroI16 {
    const WANTS_HEADS: bool = false;

    ghost ordered = { refl };

    ghost are_bytes = { λ n _. signed_are_bytes 2 (non_zero_i16_get n) };

    ghost sorted = { λ x y. width_sorts (signed_keep 2 (Prim.search rules)) (non_zero_i16_get x) (non_zero_i16_get y) };

    fn encoded_len(&self) -> usize {
        let value = self.get();
        value.encoded_len()
    }

    fn encoded_byte(&self, index: usize) -> u8 {
        let value = self.get();
        value.encoded_byte(index)
    }

    fn encoded_head(&self, skip: u32) -> u64 {
        let value = self.get();
        value.encoded_head(skip)
    }
}

impl KeyBytes for NonZeroI32 {
    ghost encoded = { λ n. signed_text 4 (non_zero_i32_get n) };

    ghost is_key = { λ n. IsSigned 4 (non_zero_i32_get n) };

    ghost order = { on non_zero_i32_get int_cmp };
}

impl RadixKey for NonZeroI32 {
    const WANTS_HEADS: bool = false;

    ghost ordered = { refl };

    ghost are_bytes = { λ n _. signed_are_bytes 4 (non_zero_i32_get n) };

    ghost sorted = { λ x y. width_sorts (signed_keep 4 (Prim.search rules)) (non_zero_i32_get x) (non_zero_i32_get y) };

    fn encoded_len(&self) -> usize {
        let value = self.get();
        value.encoded_len()
    }

    fn encoded_byte(&self, index: usize) -> u8 {
        let value = self.get();
        value.encoded_byte(index)
    }

    fn encoded_head(&self, skip: u32) -> u64 {
        let value = self.get();
        value.encoded_head(skip)
    }
}

impl KeyBytes for NonZeroI64 {
    ghost encoded = { λ n. signed_text 8 (non_zero_i64_get n) };

    ghost is_key = { λ n. IsSigned 8 (non_zero_i64_get n) };

    ghost order = { on non_zero_i64_get int_cmp };
}

impl RadixKey for NonZeroI64 {
    const WANTS_HEADS: bool = false;

    ghost ordered = { refl };

    ghost are_bytes = { λ n _. signed_are_bytes 8 (non_zero_i64_get n) };

    ghost sorted = { λ x y. width_sorts (signed_keep 8 (Prim.search rules)) (non_zero_i64_get x) (non_zero_i64_get y) };

    fn encoded_len(&self) -> usize {
        let value = self.get();
        value.encoded_len()
    }

    fn encoded_byte(&self, index: usize) -> u8 {
        let value = self.get();
        value.encoded_byte(index)
    }

    fn encoded_head(&self, skip: u32) -> u64 {
        let value = self.get();
        value.encoded_head(skip)
    }
}

impl KeyBytes for NonZeroI128 {
    ghost encoded = { λ n. signed_text 16 (non_zero_i128_get n) };

    ghost is_key = { λ n. IsSigned 16 (non_zero_i128_get n) };

    ghost order = { on non_zero_i128_get int_cmp };
}

impl RadixKey for NonZeroI128 {
    const WANTS_HEADS: bool = false;

    ghost ordered = { refl };

    ghost are_bytes = { λ n _. signed_are_bytes 16 (non_zero_i128_get n) };

    ghost sorted = { λ x y. width_sorts (signed_keep 16 (Prim.search rules)) (non_zero_i128_get x) (non_zero_i128_get y) };

    fn encoded_len(&self) -> usize {
        let value = self.get();
        value.encoded_len()
    }

    fn encoded_byte(&self, index: usize) -> u8 {
        let value = self.get();
        value.encoded_byte(index)
    }

    fn encoded_head(&self, skip: u32) -> u64 {
        let value = self.get();
        value.encoded_head(skip)
    }
}
