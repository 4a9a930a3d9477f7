//! Which bytes are a value's. The functions do no work: the contract of each is a law.
//!
//! `BytesMapping::is_value` returns whether some value has the bytes. These laws state for which
//! bytes there is one, so that `from_bytes` can be called where `is_value` was not.
ghost use Rattle.std.specs.Prelude.{◌≡◌, ◌≢◌, ◌↔◌, ℕ, List, ◌+◌, ◌*◌, ◌/◌, ◌%◌, ◌<◌, ◌∷◌, length, take, drop, replicate, Vec, IsTrue, ⊤};
ghost use Rattle.std.specs.Net.Addr.{ipv4_octets, ipv6_octets};
ghost use Rattle.std.specs.Vec.{vec_items};
ghost use Rattle.std.specs.declared.alloc.Global.{Global};
ghost use Rattle.art_mapped.specs.Addresses.{IsIpv4, IsIpv6};
ghost use Rattle.art_mapped.specs.Escaped.{is_escaped, vec_escaped_text};
ghost use Rattle.art_mapped.specs.Mapping.{StandsForSome, HasTextOf};
ghost use Rattle.art_mapped.specs.Numbers.{digits, IsUnsigned, IsSigned, signed_text};
ghost use Rattle.art_mapped.specs.Sequences.{joined, part, IsArray, IsVec, vec_text};
ghost use Rattle.art_mapped.specs.ValueBytes.{HasWidth, IsTextOfSome};

use crate::element::Element;
use crate::joint::Joint;
use crate::mapping::BytesMapping;
use crate::sequence::IntegerForm;
use crate::signed::Signed;
use crate::tuple::{ConcatTuple, SameTexts, TupleMappings, TupleValues};
use crate::unsigned::Unsigned;
use crate::written::DomainTexts;
use std::num::{
    NonZeroI8, NonZeroI16, NonZeroI32, NonZeroI64, NonZeroI128, NonZeroIsize, NonZeroU8,
    NonZeroU16, NonZeroU32, NonZeroU64, NonZeroU128, NonZeroUsize,
};

/// Any bytes of an integer's width, or of an address's, are those of a value.
pub fn any_bytes_are_a_value()
    ensures unsigned { (width : ℕ) (bytes : List ℕ) → HasWidth width bytes →
        IsTextOfSome (IsUnsigned width) (digits width) bytes }
    ensures signed { (width : ℕ) (bytes : List ℕ) → 0 < width → HasWidth width bytes →
        IsTextOfSome (IsSigned width) (signed_text width) bytes }
    ensures ipv4 { (bytes : List ℕ) → HasWidth 4 bytes → IsTextOfSome IsIpv4 ipv4_octets bytes }
    ensures ipv6 { (bytes : List ℕ) → HasWidth 16 bytes → IsTextOfSome IsIpv6 ipv6_octets bytes }
{}

/// Parts of bytes have their widths: the first bytes, those after them, and each part of several
/// of one width.
pub fn parts_have_their_widths()
    ensures first { (first last : ℕ) (bytes : List ℕ) → HasWidth (first + last) bytes →
        HasWidth first (take first bytes) }
    ensures last { (first last : ℕ) (bytes : List ℕ) → HasWidth (first + last) bytes →
        HasWidth last (drop first bytes) }
    ensures part { (width count k : ℕ) (bytes : List ℕ) → HasWidth (count * width) bytes →
        k < count → HasWidth width (part width k bytes) }
{}

/// Bytes are those of a `NonZero` type of unsigned integers exactly where they are not all zero.
pub fn bytes_of_non_zero_unsigned_integers()
    ensures u8 { (bytes : List ℕ) → HasWidth 1 bytes → IsTextOfSome
        ⟦<NonZeroU8 as DomainTexts<Unsigned>>⟧.is_in_range
        ⟦<NonZeroU8 as DomainTexts<Unsigned>>⟧.text_of bytes ↔ (bytes ≢ replicate 1 0) }
    ensures u16 { (bytes : List ℕ) → HasWidth 2 bytes → IsTextOfSome
        ⟦<NonZeroU16 as DomainTexts<Unsigned>>⟧.is_in_range
        ⟦<NonZeroU16 as DomainTexts<Unsigned>>⟧.text_of bytes ↔ (bytes ≢ replicate 2 0) }
    ensures u32 { (bytes : List ℕ) → HasWidth 4 bytes → IsTextOfSome
        ⟦<NonZeroU32 as DomainTexts<Unsigned>>⟧.is_in_range
        ⟦<NonZeroU32 as DomainTexts<Unsigned>>⟧.text_of bytes ↔ (bytes ≢ replicate 4 0) }
    ensures u64 { (bytes : List ℕ) → HasWidth 8 bytes → IsTextOfSome
        ⟦<NonZeroU64 as DomainTexts<Unsigned>>⟧.is_in_range
        ⟦<NonZeroU64 as DomainTexts<Unsigned>>⟧.text_of bytes ↔ (bytes ≢ replicate 8 0) }
    ensures u128 { (bytes : List ℕ) → HasWidth 16 bytes → IsTextOfSome
        ⟦<NonZeroU128 as DomainTexts<Unsigned>>⟧.is_in_range
        ⟦<NonZeroU128 as DomainTexts<Unsigned>>⟧.text_of bytes ↔ (bytes ≢ replicate 16 0) }
    ensures usize { (bytes : List ℕ) → HasWidth 8 bytes → IsTextOfSome
        ⟦<NonZeroUsize as DomainTexts<Unsigned>>⟧.is_in_range
        ⟦<NonZeroUsize as DomainTexts<Unsigned>>⟧.text_of bytes ↔ (bytes ≢ replicate 8 0) }
{}

/// Bytes are those of a `NonZero` type of signed integers exactly where they are not 128 followed
/// by zeros.
pub fn bytes_of_non_zero_signed_integers()
    ensures i8 { (bytes : List ℕ) → HasWidth 1 bytes → IsTextOfSome
        ⟦<NonZeroI8 as DomainTexts<Signed>>⟧.is_in_range
        ⟦<NonZeroI8 as DomainTexts<Signed>>⟧.text_of bytes ↔ (bytes ≢ 128 ∷ replicate 0 0) }
    ensures i16 { (bytes : List ℕ) → HasWidth 2 bytes → IsTextOfSome
        ⟦<NonZeroI16 as DomainTexts<Signed>>⟧.is_in_range
        ⟦<NonZeroI16 as DomainTexts<Signed>>⟧.text_of bytes ↔ (bytes ≢ 128 ∷ replicate 1 0) }
    ensures i32 { (bytes : List ℕ) → HasWidth 4 bytes → IsTextOfSome
        ⟦<NonZeroI32 as DomainTexts<Signed>>⟧.is_in_range
        ⟦<NonZeroI32 as DomainTexts<Signed>>⟧.text_of bytes ↔ (bytes ≢ 128 ∷ replicate 3 0) }
    ensures i64 { (bytes : List ℕ) → HasWidth 8 bytes → IsTextOfSome
        ⟦<NonZeroI64 as DomainTexts<Signed>>⟧.is_in_range
        ⟦<NonZeroI64 as DomainTexts<Signed>>⟧.text_of bytes ↔ (bytes ≢ 128 ∷ replicate 7 0) }
    ensures i128 { (bytes : List ℕ) → HasWidth 16 bytes → IsTextOfSome
        ⟦<NonZeroI128 as DomainTexts<Signed>>⟧.is_in_range
        ⟦<NonZeroI128 as DomainTexts<Signed>>⟧.text_of bytes ↔ (bytes ≢ 128 ∷ replicate 15 0) }
    ensures isize { (bytes : List ℕ) → HasWidth 8 bytes → IsTextOfSome
        ⟦<NonZeroIsize as DomainTexts<Signed>>⟧.is_in_range
        ⟦<NonZeroIsize as DomainTexts<Signed>>⟧.text_of bytes ↔ (bytes ≢ 128 ∷ replicate 7 0) }
{}

/// Bytes are those of an array of `N` elements exactly where there are `N` times as many as an
/// element has, and each part is some element's. They are those of a vector exactly where their
/// number is a multiple of an element's, and each part is some element's.
pub fn bytes_of_arrays_and_vectors<F: IntegerForm, E: Element<F>>()
    ensures array { (count : ℕ) (bytes : List ℕ) →
        IsTextOfSome (IsArray count E.is_in_range) (joined E.text_of) bytes ↔
        ((length bytes ≡ count * E.Bytes.WIDTH) × ((k : ℕ) → k < count →
        IsTextOfSome E.is_in_range E.text_of (part E.Bytes.WIDTH k bytes))) }
    ensures vector { (bytes : Vec ℕ Global) →
        StandsForSome (IsVec E.is_in_range) (HasTextOf vec_items (vec_text {A = Global} E.text_of))
        bytes ↔ ((length (vec_items bytes) % E.Bytes.WIDTH ≡ 0) ×
        ((k : ℕ) → k < length (vec_items bytes) / E.Bytes.WIDTH →
        IsTextOfSome E.is_in_range E.text_of (part E.Bytes.WIDTH k (vec_items bytes)))) }
{}

/// Bytes are those of a byte string under `Escaped` exactly where each zero among them is followed by
/// 255, but for the two zeros that end them.
pub fn bytes_of_escaped_strings()
    ensures { (bytes : Vec ℕ Global) →
        StandsForSome (λ _. ⊤) (HasTextOf vec_items (vec_escaped_text {A = Global})) bytes ↔
        IsTrue (is_escaped (vec_items bytes)) }
{}

/// The bytes of a tuple are as many as those of its parts together. Bytes that are keys of the
/// parts' widths, joined, are a tuple's exactly where each of the keys is some value's. The keys are
/// nested in pairs, as `((first, second), third)`, and so is what holds of each.
pub fn bytes_of_tuples<N, D, P, J, T>()
where
    D: TupleValues<PartCount = N, Pairs = P> + Drop,
    J: Joint<P>,
    T: TupleMappings<PartCount = N, Joint = J> + SameTexts<D, P, J>,
    ensures length { (bytes : Vec ℕ Global) →
        StandsForSome
        ⟦<ConcatTuple<T> as BytesMapping<D>>⟧.is_in_domain
        ⟦<ConcatTuple<T> as BytesMapping<D>>⟧.stands_for bytes →
        length (vec_items bytes) ≡ J.width }
    ensures parts { (bytes : Vec ℕ Global) (keys : J.Keys) → J.are_keys keys →
        vec_items bytes ≡ J.text_of_keys keys →
        StandsForSome
        ⟦<ConcatTuple<T> as BytesMapping<D>>⟧.is_in_domain
        ⟦<ConcatTuple<T> as BytesMapping<D>>⟧.stands_for bytes ↔ J.are_values keys }
{}
