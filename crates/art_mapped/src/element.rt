//! What integers and addresses share: bytes of one width, in the order of the values.
ghost use Rattle.std.specs.Prelude.{◌≡◌, ◌≢◌, ℕ, List, false, IfSome, IfNone, refl};
ghost use Rattle.std.proofs.Common.{ap};
ghost use Rattle.art_mapped.specs.Elements.{KeepsOrder};
ghost use Rattle.art_mapped.specs.Mapping.{HasTextInRange, HasTextOf};
ghost use Rattle.art_mapped.specs.MappingLaws.{kept_by_text, text_of_a_key};
ghost use Rattle.art_mapped.specs.SequenceLaws.{same_from_text, prefix_is_whole};

use crate::fixed::FixedBytes;
use crate::mapping::{
    BorrowedMapping, BytesMapping, Holds, InPlaceMapping, InjectiveMapping, NoPrefixesMapping,
    OrderedMapping, ValueTexts,
};
use crate::written::DomainTexts;
use art_bytes::AsBytes;
use std::alloc::{AllocError, Global};
use std::marker::PhantomData;

/// A type whose values have, in the form `F`, bytes of one width that sort as the values do.
///
/// (from crates/art_node_tests/src/mapped/mapped_callers.rt)
/// ```rust
/// fn element_back<F, E: Element<F>>(alloc: Global, value: E) -> Result<E, AllocError>
///     ensures value { IfOk result (λ read. read ≡ value) }
///     ensures always { IsOk result }
/// {
///     Mapped::<Single<F>, E>::new(alloc, value)?.get(alloc)
/// }
/// // ..
/// assert!(rt; element_back::<Unsigned, u64>(alloc, 1 << 40)? == 1 << 40);
/// ```
pub trait Element<F>: DomainTexts<F> + Copy + Ord {
    /// The bytes of a value.
    type Bytes: FixedBytes;

    /// The bytes of a value. Takes no memory.
    fn encode(self) -> Self::Bytes
        ensures key { Self.Bytes.is_key result }
        ensures text { Self.Bytes.text result ≡ Self.text_of self }
        ensures in_range { Self.is_in_range self };

    /// The value with these bytes, and `None` exactly where no value has them. Takes no memory.
    fn decode(bytes: Self::Bytes) -> Option<Self>
        ensures some { IfSome result (λ value.
            Self.is_in_range value × (Self.Bytes.text bytes ≡ Self.text_of value)) }
        ensures none { IfNone result ((value : Self) → Self.is_in_range value →
            Self.Bytes.text bytes ≢ Self.text_of value) };

    /// All values have bytes of one width, in the order of the values.
    ghost keeps: { KeepsOrder Self.is_in_range Self.text_of Self.cmp Self.Bytes.WIDTH };
}

/// The mapping of one element to its bytes.
///
/// [`Element`] has an example.
pub struct Single<F>(PhantomData<F>);

impl<F, E: DomainTexts<F>, K: AsBytes> Holds<E, K> for Single<F> {
    ghost holds = { HasTextInRange E.is_in_range K.text E.text_of };
}

impl<F, E: DomainTexts<F>> ValueTexts<E> for Single<F> {
    ghost is_text = { HasTextInRange E.is_in_range (λ text. text) E.text_of };
}

impl<F, E: Element<F>> BytesMapping<E> for Single<F> {
    ghost holds_value = { λ _ _. (λ holds. holds, λ holds. holds) };

    ghost is_text_of_a_key = { λ _ text value _. text_of_a_key E.Bytes.is_key E.Bytes.text E.is_in_range E.text_of text value (λ in_range.
        E.Bytes.held (E.text_of value) (E.keeps.long value in_range)) };

    type Bytes = E::Bytes;

    const ALLOCATES: bool = false;

    const READ_ALLOCATES: bool = false;

    ghost ALLOCATES = { false };

    ghost READ_ALLOCATES = { false };

    ghost is_in_domain = { E.is_in_range };

    ghost text_of = { E.text_of };

    ghost are_same = { λ x y. x ≡ y };

    ghost stands_for = { HasTextOf E.Bytes.text E.text_of };

    ghost has_text = { λ _ _ _ stands. stands };

    ghost one_text = { λ x y same. ap E.text_of same };

    ghost reads_one = { λ _ x y x_in y_in x_text y_text.
        same_from_text E.keeps x y x_in y_in x_text y_text };

    ghost kept_by_text = { λ a b _. kept_by_text E.is_in_range E.Bytes.text E.text_of a b };

    fn to_bytes(_alloc: Global, value: E) -> Result<E::Bytes, AllocError> {
        Ok(value.encode())
    }

    fn from_bytes(_alloc: Global, bytes: E::Bytes) -> Result<E, AllocError> {
        match E::decode(bytes) {
            Some(value) => Ok(value),
            None => unreachable!(),
        }
    }

    fn is_value(bytes: &E::Bytes) -> bool {
        E::decode(*bytes).is_some()
    }
}

impl<F, E: Element<F>> InPlaceMapping<E> for Single<F> {
    fn encode(value: E) -> E::Bytes {
        value.encode()
    }

    fn decode(bytes: &E::Bytes) -> E {
        match E::decode(*bytes) {
            Some(value) => value,
            None => unreachable!(),
        }
    }
}

impl<F, E: Element<F>> BorrowedMapping<E> for Single<F> {
    fn read(_alloc: Global, bytes: &E::Bytes) -> Result<E, AllocError> {
        Ok(<Single<F> as InPlaceMapping<E>>::decode(bytes))
    }
}

impl<F, E: Element<F>> InjectiveMapping<E> for Single<F> {
    ghost decided_by_text = { λ x y x_in y_in same.
        same_from_text E.keeps x y x_in y_in refl same };
}

impl<F, E: Element<F>> OrderedMapping<E> for Single<F> {
    ghost keeps_order = { E.keeps.keeps };
}

impl<F, E: Element<F>> NoPrefixesMapping<E> for Single<F> {
    ghost no_prefixes = { prefix_is_whole E.keeps };
}
