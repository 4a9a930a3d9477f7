//! Unsigned integers as bytes.
ghost use Rattle.std.specs.Prelude.{refl};
ghost use Rattle.std.specs.Int.NonZero.{non_zero_u8_get, non_zero_u16_get, non_zero_u32_get};
ghost use Rattle.std.specs.Int.NonZero.{non_zero_u64_get, non_zero_u128_get, non_zero_usize_get};
ghost use Rattle.std.proofs.Common.{rules};
ghost use Rattle.art_mapped.specs.Numbers.{digits, IsUnsigned};
ghost use Rattle.art_mapped.specs.NumberLaws.{unsigned_keep, keep_of, unsigned_decides};

use crate::element::{Element, Single};
use crate::sequence::IntegerForm;
use crate::written::{Domain, DomainTexts, ToBigEndian};
use std::num::{NonZeroU8, NonZeroU16, NonZeroU32, NonZeroU64, NonZeroU128, NonZeroUsize};

/// The form of unsigned integers: the digits in base 256 at full width, most significant first.
///
/// [`ToBigEndian`] has an example.
pub struct Unsigned;

impl IntegerForm for Unsigned {}

/// Unsigned integers as their big-endian bytes.
///
/// The domains are `u8` to `u128`, `usize`, their `NonZero` types, and arrays and vectors of these,
/// as the elements' bytes joined. Only arrays and vectors take memory.
///
/// (from crates/art_node_tests/src/mapped/mapped_examples.rt)
/// ```rust
/// fn key_of(alloc: Global, port: u16) -> Result<Mapped<ToUBE, u16>, AllocError>
///     ensures text { IfOk result (λ key. mapped_text key ≡ digits 2 port) }
///     ensures always { IsOk result }
/// {
///     Mapped::new(alloc, port)
/// }
/// // ..
///     let (http, https) = (key_of(alloc, 80)?, key_of(alloc, 443)?);
///     assert!(rt; https.as_bytes() == [1, 187].as_slice());
/// ```
pub type ToUBE = ToBigEndian<Unsigned>;

impl Domain<Unsigned> for u8 {
    type Mapping = Single<Unsigned>;

    ghost same_keys = { λ _ _. (λ holds. holds, λ holds. holds) };

    ghost same_texts = { λ _ _. (λ is. is, λ is. is) };
}

impl DomainTexts<Unsigned> for u8 {
    type ToBytes = ToBigEndian<Unsigned>;

    ghost is_in_range = { IsUnsigned 1 };

    ghost text_of = { digits 1 };
}

impl Element<Unsigned> for u8 {
    type Bytes = [u8; 1];

    ghost keeps = { unsigned_keep 1 (Prim.search rules) };

    fn encode(self) -> [u8; 1] {
        u8::to_be_bytes(self)
    }

    fn decode(bytes: [u8; 1]) -> Option<u8> {
        Some(u8::from_be_bytes(bytes))
    }
}

impl Domain<Unsigned> for NonZeroU8 {
    type Mapping = Single<Unsigned>;

    ghost same_keys = { λ _ _. (λ holds. holds, λ holds. holds) };

    ghost same_texts = { λ _ _. (λ is. is, λ is. is) };
}

impl DomainTexts<Unsigned> for NonZeroU8 {
    type ToBytes = ToBigEndian<Unsigned>;

    ghost is_in_range = { λ n. IsUnsigned 1 (non_zero_u8_get n) };

    ghost text_of = { λ n. digits 1 (non_zero_u8_get n) };
}

impl Element<Unsigned> for NonZeroU8 {
    type Bytes = [u8; 1];

    ghost keeps = { keep_of (unsigned_keep 1 (Prim.search rules)) non_zero_u8_get
        (unsigned_decides non_zero_u8_get (λ n. n.ok)
        (λ value ok. record { value = value; ok = ok }) (λ _. refl)) };

    fn encode(self) -> [u8; 1] {
        u8::encode(self.get())
    }

    fn decode(bytes: [u8; 1]) -> Option<NonZeroU8> {
        NonZeroU8::new(u8::decode(bytes)?)
    }
}

impl Domain<Unsigned> for u16 {
    type Mapping = Single<Unsigned>;

    ghost same_keys = { λ _ _. (λ holds. holds, λ holds. holds) };

    ghost same_texts = { λ _ _. (λ is. is, λ is. is) };
}

impl DomainTexts<Unsigned> for u16 {
    type ToBytes = ToBigEndian<Unsigned>;

    ghost is_in_range = { IsUnsigned 2 };

    ghost text_of = { digits 2 };
}

impl Element<Unsigned> for u16 {
    type Bytes = [u8; 2];

    ghost keeps = { unsigned_keep 2 (Prim.search rules) };

    fn encode(self) -> [u8; 2] {
        u16::to_be_bytes(self)
    }

    fn decode(bytes: [u8; 2]) -> Option<u16> {
        Some(u16::from_be_bytes(bytes))
    }
}

impl Domain<Unsigned> for NonZeroU16 {
    type Mapping = Single<Unsigned>;

    ghost same_keys = { λ _ _. (λ holds. holds, λ holds. holds) };

    ghost same_texts = { λ _ _. (λ is. is, λ is. is) };
}

impl DomainTexts<Unsigned> for NonZeroU16 {
    type ToBytes = ToBigEndian<Unsigned>;

    ghost is_in_range = { λ n. IsUnsigned 2 (non_zero_u16_get n) };

    ghost text_of = { λ n. digits 2 (non_zero_u16_get n) };
}

impl Element<Unsigned> for NonZeroU16 {
    type Bytes = [u8; 2];

    ghost keeps = { keep_of (unsigned_keep 2 (Prim.search rules)) non_zero_u16_get
        (unsigned_decides non_zero_u16_get (λ n. n.ok)
        (λ value ok. record { value = value; ok = ok }) (λ _. refl)) };

    fn encode(self) -> [u8; 2] {
        u16::encode(self.get())
    }

    fn decode(bytes: [u8; 2]) -> Option<NonZeroU16> {
        NonZeroU16::new(u16::decode(bytes)?)
    }
}

impl Domain<Unsigned> for u32 {
    type Mapping = Single<Unsigned>;

    ghost same_keys = { λ _ _. (λ holds. holds, λ holds. holds) };

    ghost same_texts = { λ _ _. (λ is. is, λ is. is) };
}

impl DomainTexts<Unsigned> for u32 {
    type ToBytes = ToBigEndian<Unsigned>;

    ghost is_in_range = { IsUnsigned 4 };

    ghost text_of = { digits 4 };
}

impl Element<Unsigned> for u32 {
    type Bytes = [u8; 4];

    ghost keeps = { unsigned_keep 4 (Prim.search rules) };

    fn encode(self) -> [u8; 4] {
        u32::to_be_bytes(self)
    }

    fn decode(bytes: [u8; 4]) -> Option<u32> {
        Some(u32::from_be_bytes(bytes))
    }
}

impl Domain<Unsigned> for NonZeroU32 {
    type Mapping = Single<Unsigned>;

    ghost same_keys = { λ _ _. (λ holds. holds, λ holds. holds) };

    ghost same_texts = { λ _ _. (λ is. is, λ is. is) };
}

impl DomainTexts<Unsigned> for NonZeroU32 {
    type ToBytes = ToBigEndian<Unsigned>;

    ghost is_in_range = { λ n. IsUnsigned 4 (non_zero_u32_get n) };

    ghost text_of = { λ n. digits 4 (non_zero_u32_get n) };
}

impl Element<Unsigned> for NonZeroU32 {
    type Bytes = [u8; 4];

    ghost keeps = { keep_of (unsigned_keep 4 (Prim.search rules)) non_zero_u32_get
        (unsigned_decides non_zero_u32_get (λ n. n.ok)
        (λ value ok. record { value = value; ok = ok }) (λ _. refl)) };

    fn encode(self) -> [u8; 4] {
        u32::encode(self.get())
    }

    fn decode(bytes: [u8; 4]) -> Option<NonZeroU32> {
        NonZeroU32::new(u32::decode(bytes)?)
    }
}

impl Domain<Unsigned> for u64 {
    type Mapping = Single<Unsigned>;

    ghost same_keys = { λ _ _. (λ holds. holds, λ holds. holds) };

    ghost same_texts = { λ _ _. (λ is. is, λ is. is) };
}

impl DomainTexts<Unsigned> for u64 {
    type ToBytes = ToBigEndian<Unsigned>;

    ghost is_in_range = { IsUnsigned 8 };

    ghost text_of = { digits 8 };
}

impl Element<Unsigned> for u64 {
    type Bytes = [u8; 8];

    ghost keeps = { unsigned_keep 8 (Prim.search rules) };

    fn encode(self) -> [u8; 8] {
        u64::to_be_bytes(self)
    }

    fn decode(bytes: [u8; 8]) -> Option<u64> {
        Some(u64::from_be_bytes(bytes))
    }
}

impl Domain<Unsigned> for NonZeroU64 {
    type Mapping = Single<Unsigned>;

    ghost same_keys = { λ _ _. (λ holds. holds, λ holds. holds) };

    ghost same_texts = { λ _ _. (λ is. is, λ is. is) };
}

impl DomainTexts<Unsigned> for NonZeroU64 {
    type ToBytes = ToBigEndian<Unsigned>;

    ghost is_in_range = { λ n. IsUnsigned 8 (non_zero_u64_get n) };

    ghost text_of = { λ n. digits 8 (non_zero_u64_get n) };
}

impl Element<Unsigned> for NonZeroU64 {
    type Bytes = [u8; 8];

    ghost keeps = { keep_of (unsigned_keep 8 (Prim.search rules)) non_zero_u64_get
        (unsigned_decides non_zero_u64_get (λ n. n.ok)
        (λ value ok. record { value = value; ok = ok }) (λ _. refl)) };

    fn encode(self) -> [u8; 8] {
        u64::encode(self.get())
    }

    fn decode(bytes: [u8; 8]) -> Option<NonZeroU64> {
        NonZeroU64::new(u64::decode(bytes)?)
    }
}

impl Domain<Unsigned> for u128 {
    type Mapping = Single<Unsigned>;

    ghost same_keys = { λ _ _. (λ holds. holds, λ holds. holds) };

    ghost same_texts = { λ _ _. (λ is. is, λ is. is) };
}

impl DomainTexts<Unsigned> for u128 {
    type ToBytes = ToBigEndian<Unsigned>;

    ghost is_in_range = { IsUnsigned 16 };

    ghost text_of = { digits 16 };
}

impl Element<Unsigned> for u128 {
    type Bytes = [u8; 16];

    ghost keeps = { unsigned_keep 16 (Prim.search rules) };

    fn encode(self) -> [u8; 16] {
        u128::to_be_bytes(self)
    }

    fn decode(bytes: [u8; 16]) -> Option<u128> {
        Some(u128::from_be_bytes(bytes))
    }
}

impl Domain<Unsigned> for NonZeroU128 {
    type Mapping = Single<Unsigned>;

    ghost same_keys = { λ _ _. (λ holds. holds, λ holds. holds) };

    ghost same_texts = { λ _ _. (λ is. is, λ is. is) };
}

impl DomainTexts<Unsigned> for NonZeroU128 {
    type ToBytes = ToBigEndian<Unsigned>;

    ghost is_in_range = { λ n. IsUnsigned 16 (non_zero_u128_get n) };

    ghost text_of = { λ n. digits 16 (non_zero_u128_get n) };
}

impl Element<Unsigned> for NonZeroU128 {
    type Bytes = [u8; 16];

    ghost keeps = { keep_of (unsigned_keep 16 (Prim.search rules)) non_zero_u128_get
        (unsigned_decides non_zero_u128_get (λ n. n.ok)
        (λ value ok. record { value = value; ok = ok }) (λ _. refl)) };

    fn encode(self) -> [u8; 16] {
        u128::encode(self.get())
    }

    fn decode(bytes: [u8; 16]) -> Option<NonZeroU128> {
        NonZeroU128::new(u128::decode(bytes)?)
    }
}

impl Domain<Unsigned> for usize {
    type Mapping = Single<Unsigned>;

    ghost same_keys = { λ _ _. (λ holds. holds, λ holds. holds) };

    ghost same_texts = { λ _ _. (λ is. is, λ is. is) };
}

impl DomainTexts<Unsigned> for usize {
    type ToBytes = ToBigEndian<Unsigned>;

    ghost is_in_range = { IsUnsigned 8 };

    ghost text_of = { digits 8 };
}

impl Element<Unsigned> for usize {
    type Bytes = [u8; 8];

    ghost keeps = { unsigned_keep 8 (Prim.search rules) };

    fn encode(self) -> [u8; 8] {
        usize::to_be_bytes(self)
    }

    fn decode(bytes: [u8; 8]) -> Option<usize> {
        Some(usize::from_be_bytes(bytes))
    }
}

impl Domain<Unsigned> for NonZeroUsize {
    type Mapping = Single<Unsigned>;

    ghost same_keys = { λ _ _. (λ holds. holds, λ holds. holds) };

    ghost same_texts = { λ _ _. (λ is. is, λ is. is) };
}

impl DomainTexts<Unsigned> for NonZeroUsize {
    type ToBytes = ToBigEndian<Unsigned>;

    ghost is_in_range = { λ n. IsUnsigned 8 (non_zero_usize_get n) };

    ghost text_of = { λ n. digits 8 (non_zero_usize_get n) };
}

impl Element<Unsigned> for NonZeroUsize {
    type Bytes = [u8; 8];

    ghost keeps = { keep_of (unsigned_keep 8 (Prim.search rules)) non_zero_usize_get
        (unsigned_decides non_zero_usize_get (λ n. n.ok)
        (λ value ok. record { value = value; ok = ok }) (λ _. refl)) };

    fn encode(self) -> [u8; 8] {
        usize::encode(self.get())
    }

    fn decode(bytes: [u8; 8]) -> Option<NonZeroUsize> {
        NonZeroUsize::new(usize::decode(bytes)?)
    }
}
