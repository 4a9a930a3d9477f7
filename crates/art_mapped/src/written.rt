//! The mappings of integers and addresses: one type, generic in the form of its elements.
ghost use Rattle.std.specs.Prelude.{◌↔◌, ℕ, List};
ghost use Rattle.art_mapped.specs.Sequences.{joined, IsArray, IsVec, vec_text};
ghost use Rattle.art_mapped.specs.Mapping.{HasTextInRange};
ghost use Rattle.art_mapped.specs.MappingLaws.{both_ways};

use crate::element::{Element, Single};
use crate::mapping::{
    BorrowedMapping, BytesMapping, Holds, InPlaceMapping, InjectiveMapping, NoPrefixesMapping,
    OrderedMapping, ValueTexts,
};
use crate::sequence::{IntegerForm, Several};
use art_bytes::AsBytes;
use std::alloc::{AllocError, Global};
use std::marker::PhantomData;

/// Values as big-endian bytes, in the form `F` of their elements. Its aliases are
/// [`ToUBE`](crate::ToUBE), [`ToIBE`](crate::ToIBE) and [`ToOctets`](crate::ToOctets).
///
/// (from crates/art_node_tests/src/mapped.rt)
/// ```rust
/// fn written_in<F, D: Domain<F>>(
///     // ..
///     written::<ToBigEndian<F>, D>(rt, alloc, value, bytes)
/// }
/// // ..
///     written_in::<Unsigned, u16>(rt, alloc, 258, &[1, 2])?;
///     // ..
///     written_in::<Octets, Ipv4Addr>(rt, alloc, Ipv4Addr::BROADCAST, &[255, 255, 255, 255])?;
/// ```
pub struct ToBigEndian<F>(PhantomData<F>);

/// Which values a mapping of the form `F` takes, and their bytes.
///
/// [`ToBigEndian`] has an example.
pub trait DomainTexts<F> {
    /// The mapping that writes the values, [`ToBigEndian`] over the form. It tells `u64` from `usize`,
    /// which are one type in contracts, so that a function over either gets its proof.
    type ToBytes;

    /// Which values the type has, as 0 to 65535 for `u16`.
    ghost is_in_range: { Self → Type 0 };

    /// The bytes of a value, as a list.
    ghost text_of: { Self → List ℕ };
}

impl<F: IntegerForm, E: DomainTexts<F>, const N: usize> DomainTexts<F> for [E; N] {
    type ToBytes = ToBigEndian<F>;

    ghost is_in_range = { IsArray N E.is_in_range };

    ghost text_of = { joined E.text_of };
}

impl<F: IntegerForm, E: DomainTexts<F>> DomainTexts<F> for Vec<E> {
    type ToBytes = ToBigEndian<F>;

    ghost is_in_range = { IsVec E.is_in_range };

    ghost text_of = { vec_text E.text_of };
}

/// What a mapping of the form `F` takes: one element, or an array or a vector of integers.
///
/// [`ToBigEndian`] has an example.
pub trait Domain<F>: DomainTexts<F> + Ord {
    /// How a value is written: as one element, or as several joined.
    type Mapping: OrderedMapping<Self>;

    /// A key of that mapping holds the values in range whose bytes it has.
    ghost same_keys: { (bytes : Self.Mapping.Bytes) (value : Self) →
        HasTextInRange Self.is_in_range Self.Mapping.Bytes.text Self.text_of bytes value ↔
        Self.Mapping.holds bytes value };

    /// A list is the bytes of a value in range exactly where that mapping says so.
    ghost same_texts: { (text : List ℕ) (value : Self) →
        HasTextInRange Self.is_in_range (λ text. text) Self.text_of text value ↔
        Self.Mapping.is_text text value };
}

impl<F: IntegerForm, E: Element<F>, const N: usize> Domain<F> for [E; N] {
    type Mapping = Several<F>;

    ghost same_keys = { λ _ _. (λ holds. holds, λ holds. holds) };

    ghost same_texts = { λ _ _. (λ is. is, λ is. is) };
}

impl<F: IntegerForm, E: Element<F>> Domain<F> for Vec<E> {
    type Mapping = Several<F>;

    ghost same_keys = { λ _ _. (λ holds. holds, λ holds. holds) };

    ghost same_texts = { λ _ _. (λ is. is, λ is. is) };
}

impl<F, D: DomainTexts<F>, K: AsBytes> Holds<D, K> for ToBigEndian<F> {
    ghost holds = { HasTextInRange D.is_in_range K.text D.text_of };
}

impl<F, D: DomainTexts<F>> ValueTexts<D> for ToBigEndian<F> {
    ghost is_text = { HasTextInRange D.is_in_range (λ text. text) D.text_of };
}

/// One element or several.
impl<F, D: Domain<F>> BytesMapping<D> for ToBigEndian<F> {
    ghost holds_value = { λ bytes value.
        both_ways (D.same_keys bytes value) (D.Mapping.holds_value bytes value) };

    ghost is_text_of_a_key = { λ other text value fits. both_ways (D.same_texts text value)
        (D.Mapping.is_text_of_a_key other text value fits) };

    type Bytes = <D::Mapping as BytesMapping<D>>::Bytes;

    const ALLOCATES: bool = <D::Mapping as BytesMapping<D>>::ALLOCATES;

    const READ_ALLOCATES: bool = <D::Mapping as BytesMapping<D>>::READ_ALLOCATES;

    ghost ALLOCATES = { D.Mapping.ALLOCATES };

    ghost READ_ALLOCATES = { D.Mapping.READ_ALLOCATES };

    ghost is_in_domain = { D.Mapping.is_in_domain };

    ghost text_of = { D.Mapping.text_of };

    ghost are_same = { D.Mapping.are_same };

    ghost stands_for = { D.Mapping.stands_for };

    ghost has_text = { D.Mapping.has_text };

    ghost one_text = { D.Mapping.one_text };

    ghost reads_one = { D.Mapping.reads_one };

    ghost kept_by_text = { D.Mapping.kept_by_text };

    fn to_bytes(alloc: Global, value: D) -> Result<Self::Bytes, AllocError> {
        D::Mapping::to_bytes(alloc, value)
    }

    fn from_bytes(alloc: Global, bytes: Self::Bytes) -> Result<D, AllocError> {
        D::Mapping::from_bytes(alloc, bytes)
    }

    fn is_value(bytes: &Self::Bytes) -> bool {
        D::Mapping::is_value(bytes)
    }
}

/// Integers and addresses.
impl<F, D: Domain<F>> InPlaceMapping<D> for ToBigEndian<F>
where
    D::Mapping: InPlaceMapping<D>,
{
    fn encode(value: D) -> Self::Bytes {
        <D::Mapping as InPlaceMapping<D>>::encode(value)
    }

    fn decode(bytes: &Self::Bytes) -> D {
        <D::Mapping as InPlaceMapping<D>>::decode(bytes)
    }
}

impl<F, D: Domain<F>> BorrowedMapping<D> for ToBigEndian<F>
where
    D::Mapping: BorrowedMapping<D>,
{
    fn read(alloc: Global, bytes: &Self::Bytes) -> Result<D, AllocError> {
        <D::Mapping as BorrowedMapping<D>>::read(alloc, bytes)
    }
}

impl<F, D: Domain<F>> InjectiveMapping<D> for ToBigEndian<F> {
    ghost decided_by_text = { D.Mapping.decided_by_text };
}

impl<F, D: Domain<F>> OrderedMapping<D> for ToBigEndian<F> {
    ghost keeps_order = { D.Mapping.keeps_order };
}

/// Integers, addresses and arrays have bytes of one length.
impl<F, D: Domain<F>> NoPrefixesMapping<D> for ToBigEndian<F>
where
    D::Mapping: NoPrefixesMapping<D>,
{
    ghost no_prefixes = { D.Mapping.no_prefixes };
}
