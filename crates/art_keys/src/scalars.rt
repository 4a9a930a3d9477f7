//! Truth values and characters.
ghost use Rattle.std.specs.Prelude.{refl, ⊤};
ghost use Rattle.std.specs.Ordering.{nat_cmp, bool_cmp};
ghost use Rattle.std.proofs.Common.{rules};
ghost use Rattle.art_mapped.specs.Numbers.{digits, IsUnsigned};
ghost use Rattle.art_mapped.specs.NumberLaws.{unsigned_keep};
ghost use Rattle.art_keys.specs.Encoding.{bool_encoded};
ghost use Rattle.art_keys.specs.EncodingLaws.{width_sorts, digits_are_bytes, bools_sort, bools_are_bytes};

use crate::key::{KeyBytes, RadixKey};

impl KeyBytes for bool {
    ghost encoded = { bool_encoded };

    ghost is_key = { λ _. ⊤ };

    ghost order = { bool_cmp };
}

impl RadixKey for bool {
    const WANTS_HEADS: bool = false;

    ghost ordered = { refl };

    ghost are_bytes = { λ b _. bools_are_bytes b };

    ghost sorted = { λ x y _ _. bools_sort x y };

    fn encoded_len(&self) -> usize {
        1
    }

    fn encoded_byte(&self, _index: usize) -> u8 {
        if *self { 1 } else { 0 }
    }
}

impl KeyBytes for char {
    ghost encoded = { digits 4 };

    ghost is_key = { IsUnsigned 4 };

    ghost order = { nat_cmp };
}

impl RadixKey for char {
    const WANTS_HEADS: bool = false;

    ghost ordered = { refl };

    ghost are_bytes = { λ c _. digits_are_bytes 4 c };

    ghost sorted = { width_sorts (unsigned_keep 4 (Prim.search rules)) };

    fn encoded_len(&self) -> usize {
        let code = *self as u32;
        code.encoded_len()
    }

    fn encoded_byte(&self, index: usize) -> u8 {
        let code = *self as u32;
        code.encoded_byte(index)
    }

    fn encoded_head(&self, skip: u32) -> u64 {
        let code = *self as u32;
        code.encoded_head(skip)
    }
}
