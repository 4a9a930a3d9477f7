//! Unsigned integers: their big-endian bytes.
ghost use Rattle.std.specs.Prelude.{refl};
ghost use Rattle.std.specs.Ordering.{nat_cmp, int_cmp};
ghost use Rattle.std.proofs.Common.{rules};
ghost use Rattle.art_mapped.specs.Numbers.{digits, IsUnsigned};
ghost use Rattle.art_mapped.specs.NumberLaws.{unsigned_keep};
ghost use Rattle.art_keys.specs.EncodingLaws.{width_sorts, digits_are_bytes};

use crate::key::{KeyBytes, RadixKey};

impl KeyBytes for u8 {
    ghost encoded = { digits 1 };

    ghost is_key = { IsUnsigned 1 };

    ghost order = { nat_cmp };
}

impl RadixKey for u8 {
    const WANTS_HEADS: bool = false;

    ghost ordered = { refl };

    ghost are_bytes = { λ n _. digits_are_bytes 1 n };

    ghost sorted = { width_sorts (unsigned_keep 1 (Prim.search rules)) };

    fn encoded_len(&self) -> usize {
        let _value = *self;
        1
    }

    fn encoded_byte(&self, index: usize) -> u8 {
        self.to_be_bytes()[index]
    }
}

impl KeyBytes for u16 {
    ghost encoded = { digits 2 };

    ghost is_key = { IsUnsigned 2 };

    ghost order = { nat_cmp };
}

impl RadixKey for u16 {
    const WANTS_HEADS: bool = false;

    ghost ordered = { refl };

    ghost are_bytes = { λ n _. digits_are_bytes 2 n };

    ghost sorted = { width_sorts (unsigned_keep 2 (Prim.search rules)) };

    fn encoded_len(&self) -> usize {
        let _value = *self;
        2
    }

    fn encoded_byte(&self, index: usize) -> u8 {
        self.to_be_bytes()[index]
    }
}

impl KeyBytes for u32 {
    ghost encoded = { digits 4 };

    ghost is_key = { IsUnsigned 4 };

    ghost order = { nat_cmp };
}

impl RadixKey for u32 {
    const WANTS_HEADS: bool = false;

    ghost ordered = { refl };

    ghost are_bytes = { λ n _. digits_are_bytes 4 n };

    ghost sorted = { width_sorts (unsigned_keep 4 (Prim.search rules)) };

    fn encoded_len(&self) -> usize {
        let _value = *self;
        4
    }

    fn encoded_byte(&self, index: usize) -> u8 {
        self.to_be_bytes()[index]
    }
}

impl KeyBytes for u64 {
    ghost encoded = { digits 8 };

    ghost is_key = { IsUnsigned 8 };

    ghost order = { nat_cmp };
}

impl RadixKey for u64 {
    const WANTS_HEADS: bool = false;

    ghost ordered = { refl };

    ghost are_bytes = { λ n _. digits_are_bytes 8 n };

    ghost sorted = { width_sorts (unsigned_keep 8 (Prim.search rules)) };

    fn encoded_len(&self) -> usize {
        let _value = *self;
        8
    }

    fn encoded_byte(&self, index: usize) -> u8 {
        self.to_be_bytes()[index]
    }
}

impl KeyBytes for u128 {
    ghost encoded = { digits 16 };

    ghost is_key = { IsUnsigned 16 };

    ghost order = { nat_cmp };
}

impl RadixKey for u128 {
    const WANTS_HEADS: bool = false;

    ghost ordered = { refl };

    ghost are_bytes = { λ n _. digits_are_bytes 16 n };

    ghost sorted = { width_sorts (unsigned_keep 16 (Prim.search rules)) };

    fn encoded_len(&self) -> usize {
        let _value = *self;
        16
    }

    fn encoded_byte(&self, index: usize) -> u8 {
        self.to_be_bytes()[index]
    }
}
