//! Signed integers as bytes that sort.
ghost use Rattle.std.specs.Prelude.{refl};
ghost use Rattle.std.specs.Int.NonZero.{non_zero_i8_get, non_zero_i16_get, non_zero_i32_get};
ghost use Rattle.std.specs.Int.NonZero.{non_zero_i64_get, non_zero_i128_get, non_zero_isize_get};
ghost use Rattle.std.proofs.Common.{rules};
ghost use Rattle.art_mapped.specs.Numbers.{IsSigned, signed_text};
ghost use Rattle.art_mapped.specs.NumberLaws.{signed_keep, keep_of, signed_decides};

use crate::element::{Element, Single};
use crate::sequence::IntegerForm;
use crate::written::{Domain, DomainTexts, ToBigEndian};
use std::num::{NonZeroI8, NonZeroI16, NonZeroI32, NonZeroI64, NonZeroI128, NonZeroIsize};

/// The form of signed integers: the digits of the number plus half of its type's range, which are
/// those of its two's complement with the top bit flipped.
///
/// [`ToBigEndian`] has an example.
pub struct Signed;

impl IntegerForm for Signed {}

/// Signed integers as big-endian bytes that sort.
///
/// The domains are `i8` to `i128`, `isize`, their `NonZero` types, and arrays and vectors of these,
/// as the elements' bytes joined. Only arrays and vectors take memory.
///
/// (from crates/art_node_tests/src/mapped.rt)
/// ```rust
/// let more = Mapped::<ToIBE, [i32; 3]>::new(alloc, [-121, 100, 0])?;
/// let less = Mapped::<ToIBE, [i32; 3]>::new(alloc, [-121, 100, -1])?;
/// assert!(rt; more.cmp(&less) == Ordering::Greater);
/// assert!(rt; more.as_bytes() > less.as_bytes());
/// ```
pub type ToIBE = ToBigEndian<Signed>;

impl Domain<Signed> for i8 {
    type Mapping = Single<Signed>;

    ghost same_keys = { λ _ _. (λ holds. holds, λ holds. holds) };

    ghost same_texts = { λ _ _. (λ is. is, λ is. is) };
}

impl DomainTexts<Signed> for i8 {
    type ToBytes = ToBigEndian<Signed>;

    ghost is_in_range = { IsSigned 1 };

    ghost text_of = { signed_text 1 };
}

impl Element<Signed> for i8 {
    type Bytes = [u8; 1];

    ghost keeps = { signed_keep 1 (Prim.search rules) };

    fn encode(self) -> [u8; 1] {
        u8::to_be_bytes(self.cast_unsigned() ^ (1 << 7))
    }

    fn decode(bytes: [u8; 1]) -> Option<i8> {
        Some((u8::from_be_bytes(bytes) ^ (1 << 7)).cast_signed())
    }
}

impl Domain<Signed> for NonZeroI8 {
    type Mapping = Single<Signed>;

    ghost same_keys = { λ _ _. (λ holds. holds, λ holds. holds) };

    ghost same_texts = { λ _ _. (λ is. is, λ is. is) };
}

impl DomainTexts<Signed> for NonZeroI8 {
    type ToBytes = ToBigEndian<Signed>;

    ghost is_in_range = { λ n. IsSigned 1 (non_zero_i8_get n) };

    ghost text_of = { λ n. signed_text 1 (non_zero_i8_get n) };
}

impl Element<Signed> for NonZeroI8 {
    type Bytes = [u8; 1];

    ghost keeps = { keep_of (signed_keep 1 (Prim.search rules)) non_zero_i8_get
        (signed_decides non_zero_i8_get (λ n. n.ok)
        (λ value ok. record { value = value; ok = ok }) (λ _. refl)) };

    fn encode(self) -> [u8; 1] {
        i8::encode(self.get())
    }

    fn decode(bytes: [u8; 1]) -> Option<NonZeroI8> {
        NonZeroI8::new(i8::decode(bytes)?)
    }
}

impl Domain<Signed> for i16 {
    type Mapping = Single<Signed>;

    ghost same_keys = { λ _ _. (λ holds. holds, λ holds. holds) };

    ghost same_texts = { λ _ _. (λ is. is, λ is. is) };
}

impl DomainTexts<Signed> for i16 {
    type ToBytes = ToBigEndian<Signed>;

    ghost is_in_range = { IsSigned 2 };

    ghost text_of = { signed_text 2 };
}

impl Element<Signed> for i16 {
    type Bytes = [u8; 2];

    ghost keeps = { signed_keep 2 (Prim.search rules) };

    fn encode(self) -> [u8; 2] {
        u16::to_be_bytes(self.cast_unsigned() ^ (1 << 15))
    }

    fn decode(bytes: [u8; 2]) -> Option<i16> {
        Some((u16::from_be_bytes(bytes) ^ (1 << 15)).cast_signed())
    }
}

impl Domain<Signed> for NonZeroI16 {
    type Mapping = Single<Signed>;

    ghost same_keys = { λ _ _. (λ holds. holds, λ holds. holds) };

    ghost same_texts = { λ _ _. (λ is. is, λ is. is) };
}

impl DomainTexts<Signed> for NonZeroI16 {
    type ToBytes = ToBigEndian<Signed>;

    ghost is_in_range = { λ n. IsSigned 2 (non_zero_i16_get n) };

    ghost text_of = { λ n. signed_text 2 (non_zero_i16_get n) };
}

impl Element<Signed> for NonZeroI16 {
    type Bytes = [u8; 2];

    ghost keeps = { keep_of (signed_keep 2 (Prim.search rules)) non_zero_i16_get
        (signed_decides non_zero_i16_get (λ n. n.ok)
        (λ value ok. record { value = value; ok = ok }) (λ _. refl)) };

    fn encode(self) -> [u8; 2] {
        i16::encode(self.get())
    }

    fn decode(bytes: [u8; 2]) -> Option<NonZeroI16> {
        NonZeroI16::new(i16::decode(bytes)?)
    }
}

impl Domain<Signed> for i32 {
    type Mapping = Single<Signed>;

    ghost same_keys = { λ _ _. (λ holds. holds, λ holds. holds) };

    ghost same_texts = { λ _ _. (λ is. is, λ is. is) };
}

impl DomainTexts<Signed> for i32 {
    type ToBytes = ToBigEndian<Signed>;

    ghost is_in_range = { IsSigned 4 };

    ghost text_of = { signed_text 4 };
}

impl Element<Signed> for i32 {
    type Bytes = [u8; 4];

    ghost keeps = { signed_keep 4 (Prim.search rules) };

    fn encode(self) -> [u8; 4] {
        u32::to_be_bytes(self.cast_unsigned() ^ (1 << 31))
    }

    fn decode(bytes: [u8; 4]) -> Option<i32> {
        Some((u32::from_be_bytes(bytes) ^ (1 << 31)).cast_signed())
    }
}

impl Domain<Signed> for NonZeroI32 {
    type Mapping = Single<Signed>;

    ghost same_keys = { λ _ _. (λ holds. holds, λ holds. holds) };

    ghost same_texts = { λ _ _. (λ is. is, λ is. is) };
}

impl DomainTexts<Signed> for NonZeroI32 {
    type ToBytes = ToBigEndian<Signed>;

    ghost is_in_range = { λ n. IsSigned 4 (non_zero_i32_get n) };

    ghost text_of = { λ n. signed_text 4 (non_zero_i32_get n) };
}

impl Element<Signed> for NonZeroI32 {
    type Bytes = [u8; 4];

    ghost keeps = { keep_of (signed_keep 4 (Prim.search rules)) non_zero_i32_get
        (signed_decides non_zero_i32_get (λ n. n.ok)
        (λ value ok. record { value = value; ok = ok }) (λ _. refl)) };

    fn encode(self) -> [u8; 4] {
        i32::encode(self.get())
    }

    fn decode(bytes: [u8; 4]) -> Option<NonZeroI32> {
        NonZeroI32::new(i32::decode(bytes)?)
    }
}

impl Domain<Signed> for i64 {
    type Mapping = Single<Signed>;

    ghost same_keys = { λ _ _. (λ holds. holds, λ holds. holds) };

    ghost same_texts = { λ _ _. (λ is. is, λ is. is) };
}

impl DomainTexts<Signed> for i64 {
    type ToBytes = ToBigEndian<Signed>;

    ghost is_in_range = { IsSigned 8 };

    ghost text_of = { signed_text 8 };
}

impl Element<Signed> for i64 {
    type Bytes = [u8; 8];

    ghost keeps = { signed_keep 8 (Prim.search rules) };

    fn encode(self) -> [u8; 8] {
        u64::to_be_bytes(self.cast_unsigned() ^ (1 << 63))
    }

    fn decode(bytes: [u8; 8]) -> Option<i64> {
        Some((u64::from_be_bytes(bytes) ^ (1 << 63)).cast_signed())
    }
}

impl Domain<Signed> for NonZeroI64 {
    type Mapping = Single<Signed>;

    ghost same_keys = { λ _ _. (λ holds. holds, λ holds. holds) };

    ghost same_texts = { λ _ _. (λ is. is, λ is. is) };
}

impl DomainTexts<Signed> for NonZeroI64 {
    type ToBytes = ToBigEndian<Signed>;

    ghost is_in_range = { λ n. IsSigned 8 (non_zero_i64_get n) };

    ghost text_of = { λ n. signed_text 8 (non_zero_i64_get n) };
}

impl Element<Signed> for NonZeroI64 {
    type Bytes = [u8; 8];

    ghost keeps = { keep_of (signed_keep 8 (Prim.search rules)) non_zero_i64_get
        (signed_decides non_zero_i64_get (λ n. n.ok)
        (λ value ok. record { value = value; ok = ok }) (λ _. refl)) };

    fn encode(self) -> [u8; 8] {
        i64::encode(self.get())
    }

    fn decode(bytes: [u8; 8]) -> Option<NonZeroI64> {
        NonZeroI64::new(i64::decode(bytes)?)
    }
}

impl Domain<Signed> for i128 {
    type Mapping = Single<Signed>;

    ghost same_keys = { λ _ _. (λ holds. holds, λ holds. holds) };

    ghost same_texts = { λ _ _. (λ is. is, λ is. is) };
}

impl DomainTexts<Signed> for i128 {
    type ToBytes = ToBigEndian<Signed>;

    ghost is_in_range = { IsSigned 16 };

    ghost text_of = { signed_text 16 };
}

impl Element<Signed> for i128 {
    type Bytes = [u8; 16];

    ghost keeps = { signed_keep 16 (Prim.search rules) };

    fn encode(self) -> [u8; 16] {
        u128::to_be_bytes(self.cast_unsigned() ^ (1 << 127))
    }

    fn decode(bytes: [u8; 16]) -> Option<i128> {
        Some((u128::from_be_bytes(bytes) ^ (1 << 127)).cast_signed())
    }
}

impl Domain<Signed> for NonZeroI128 {
    type Mapping = Single<Signed>;

    ghost same_keys = { λ _ _. (λ holds. holds, λ holds. holds) };

    ghost same_texts = { λ _ _. (λ is. is, λ is. is) };
}

impl DomainTexts<Signed> for NonZeroI128 {
    type ToBytes = ToBigEndian<Signed>;

    ghost is_in_range = { λ n. IsSigned 16 (non_zero_i128_get n) };

    ghost text_of = { λ n. signed_text 16 (non_zero_i128_get n) };
}

impl Element<Signed> for NonZeroI128 {
    type Bytes = [u8; 16];

    ghost keeps = { keep_of (signed_keep 16 (Prim.search rules)) non_zero_i128_get
        (signed_decides non_zero_i128_get (λ n. n.ok)
        (λ value ok. record { value = value; ok = ok }) (λ _. refl)) };

    fn encode(self) -> [u8; 16] {
        i128::encode(self.get())
    }

    fn decode(bytes: [u8; 16]) -> Option<NonZeroI128> {
        NonZeroI128::new(i128::decode(bytes)?)
    }
}

impl Domain<Signed> for isize {
    type Mapping = Single<Signed>;

    ghost same_keys = { λ _ _. (λ holds. holds, λ holds. holds) };

    ghost same_texts = { λ _ _. (λ is. is, λ is. is) };
}

impl DomainTexts<Signed> for isize {
    type ToBytes = ToBigEndian<Signed>;

    ghost is_in_range = { IsSigned 8 };

    ghost text_of = { signed_text 8 };
}

impl Element<Signed> for isize {
    type Bytes = [u8; 8];

    ghost keeps = { signed_keep 8 (Prim.search rules) };

    fn encode(self) -> [u8; 8] {
        usize::to_be_bytes(self.cast_unsigned() ^ (1 << 63))
    }

    fn decode(bytes: [u8; 8]) -> Option<isize> {
        Some((usize::from_be_bytes(bytes) ^ (1 << 63)).cast_signed())
    }
}

impl Domain<Signed> for NonZeroIsize {
    type Mapping = Single<Signed>;

    ghost same_keys = { λ _ _. (λ holds. holds, λ holds. holds) };

    ghost same_texts = { λ _ _. (λ is. is, λ is. is) };
}

impl DomainTexts<Signed> for NonZeroIsize {
    type ToBytes = ToBigEndian<Signed>;

    ghost is_in_range = { λ n. IsSigned 8 (non_zero_isize_get n) };

    ghost text_of = { λ n. signed_text 8 (non_zero_isize_get n) };
}

impl Element<Signed> for NonZeroIsize {
    type Bytes = [u8; 8];

    ghost keeps = { keep_of (signed_keep 8 (Prim.search rules)) non_zero_isize_get
        (signed_decides non_zero_isize_get (λ n. n.ok)
        (λ value ok. record { value = value; ok = ok }) (λ _. refl)) };

    fn encode(self) -> [u8; 8] {
        isize::encode(self.get())
    }

    fn decode(bytes: [u8; 8]) -> Option<NonZeroIsize> {
        NonZeroIsize::new(isize::decode(bytes)?)
    }
}
