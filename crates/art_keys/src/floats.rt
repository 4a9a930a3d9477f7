//! Floats as keys: in the total order of IEEE 754, by their bits.
ghost use Rattle.std.specs.Prelude.{◌≡◌, refl};
ghost use Rattle.std.specs.Float.{binary32, binary64};
ghost use Rattle.std.specs.Ordering.{nat_cmp};
ghost use Rattle.std.proofs.Common.{rules};
ghost use Rattle.art_mapped.specs.Numbers.{digits, IsUnsigned};
ghost use Rattle.art_mapped.specs.NumberLaws.{unsigned_keep};
ghost use Rattle.art_keys.specs.EncodingLaws.{width_sorts, digits_are_bytes};
ghost use Rattle.art_keys.specs.Floats.{bits_at, total_f64, total_f32};

use crate::key::{KeyBytes, RadixKey};
use std::fmt::{Debug, Formatter, Result, Write};
use std::num::{
    f32_from_bits_with_nan, f32_to_bits_with_nan, f64_from_bits_with_nan, f64_to_bits_with_nan,
};

/// An `f64` as a key, in the total order of IEEE 754: negative infinity, negative numbers, -0.0, 0.0,
/// positive numbers, infinity, and NaN as one value above them all.
///
/// The order is that of the bits, as `f64::total_cmp` has it for all that is no NaN: the bits of a
/// positive number with the sign bit flipped, and all bits of a negative one.
///
/// (from crates/art_key_tests/src/parts.rt)
/// ```rust
/// pub fn warmest(first: f64, second: f64) -> f64 {
///     let warmest = TotalF64::new(first).max(TotalF64::new(second));
///     warmest.get()
/// }
/// ```
#[derive(Clone, Copy, PartialEq, Eq, PartialOrd, Ord, Hash)]
pub struct TotalF64 {
    // The bits, changed so that they have the order of the floats.
    rank: u64,
}

const SIGN_64: u64 = 1 << 63;

impl TotalF64 {
    /// The key of a float. Constant time.
    pub fn new(value: f64) -> TotalF64
        ensures { total_f64 result ≡ value }
    {
        let bits = f64_to_bits_with_nan(value);
        let rank = rank_of_64(bits);
        TotalF64 { rank }
    }

    /// The float. Constant time.
    pub fn get(self) -> f64
        ensures { result ≡ total_f64 self }
    {
        let bits = bits_of_64(self.rank);
        f64_from_bits_with_nan(bits)
    }
}

// The place of a float's bits in the order.
fn rank_of_64(bits: u64) -> u64
    ensures { bits_at binary64 result ≡ bits }
{
    if bits < SIGN_64 {
        bits + SIGN_64
    } else {
        u64::MAX - bits
    }
}

// The bits at a place of the order.
fn bits_of_64(rank: u64) -> u64
    ensures { result ≡ bits_at binary64 rank }
{
    if rank < SIGN_64 {
        u64::MAX - rank
    } else {
        rank - SIGN_64
    }
}

impl Debug for TotalF64 {
    fn fmt<W: Write>(&self, f: &mut Formatter<W>) -> Result {
        self.get().fmt(f)
    }
}

impl KeyBytes for TotalF64 {
    ghost encoded = { λ x. digits 8 x.rank };

    ghost is_key = { λ x. IsUnsigned 8 x.rank };

    ghost order = { λ x y. nat_cmp x.rank y.rank };
}

impl RadixKey for TotalF64 {
    const WANTS_HEADS: bool = false;

    ghost ordered = { refl };

    ghost are_bytes = { λ x _. digits_are_bytes 8 x.rank };

    ghost sorted = { λ x y. width_sorts (unsigned_keep 8 (Prim.search rules)) x.rank y.rank };

    fn encoded_len(&self) -> usize {
        self.rank.encoded_len()
    }

    fn encoded_byte(&self, index: usize) -> u8 {
        self.rank.encoded_byte(index)
    }

    fn encoded_head(&self, skip: u32) -> u64 {
        self.rank.encoded_head(skip)
    }
}

/// An `f32` as a key, as [`TotalF64`] is an `f64`.
#[derive(Clone, Copy, PartialEq, Eq, PartialOrd, Ord, Hash)]
pub struct TotalF32 {
    // The bits, changed so that they have the order of the floats.
    rank: u32,
}

const SIGN_32: u32 = 1 << 31;

impl TotalF32 {
    /// The key of a float. Constant time.
    pub fn new(value: f32) -> TotalF32
        ensures { total_f32 result ≡ value }
    {
        let bits = f32_to_bits_with_nan(value);
        let rank = rank_of_32(bits);
        TotalF32 { rank }
    }

    /// The float. Constant time.
    pub fn get(self) -> f32
        ensures { result ≡ total_f32 self }
    {
        let bits = bits_of_32(self.rank);
        f32_from_bits_with_nan(bits)
    }
}

// The place of a float's bits in the order.
fn rank_of_32(bits: u32) -> u32
    ensures { bits_at binary32 result ≡ bits }
{
    if bits < SIGN_32 {
        bits + SIGN_32
    } else {
        u32::MAX - bits
    }
}

// The bits at a place of the order.
fn bits_of_32(rank: u32) -> u32
    ensures { result ≡ bits_at binary32 rank }
{
    if rank < SIGN_32 {
        u32::MAX - rank
    } else {
        rank - SIGN_32
    }
}

impl Debug for TotalF32 {
    fn fmt<W: Write>(&self, f: &mut Formatter<W>) -> Result {
        self.get().fmt(f)
    }
}

impl KeyBytes for TotalF32 {
    ghost encoded = { λ x. digits 4 x.rank };

    ghost is_key = { λ x. IsUnsigned 4 x.rank };

    ghost order = { λ x y. nat_cmp x.rank y.rank };
}

impl RadixKey for TotalF32 {
    const WANTS_HEADS: bool = false;

    ghost ordered = { refl };

    ghost are_bytes = { λ x _. digits_are_bytes 4 x.rank };

    ghost sorted = { λ x y. width_sorts (unsigned_keep 4 (Prim.search rules)) x.rank y.rank };

    fn encoded_len(&self) -> usize {
        self.rank.encoded_len()
    }

    fn encoded_byte(&self, index: usize) -> u8 {
        self.rank.encoded_byte(index)
    }

    fn encoded_head(&self, skip: u32) -> u64 {
        self.rank.encoded_head(skip)
    }
}
