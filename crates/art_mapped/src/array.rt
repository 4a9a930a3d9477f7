//! Arrays of integers, as the bytes of their elements joined.
ghost use Rattle.std.specs.Prelude.{◌≡◌, true, false};
ghost use Rattle.std.specs.Vec.{vec_items};
ghost use Rattle.std.proofs.Common.{ap, refl};
ghost use Rattle.art_mapped.specs.Mapping.{HasTextInRange, HasTextOf};
ghost use Rattle.art_mapped.specs.MappingLaws.{kept_by_text};
ghost use Rattle.art_mapped.specs.Sequences.{joined, IsArray};
ghost use Rattle.art_mapped.specs.SequenceLaws.{same_from_joined, joined_keep, joined_prefix_is_whole};
ghost use Rattle.art_mapped.specs.VecLaws.{text_of_a_vec};

use crate::element::Element;
use crate::fixed::FixedBytes;
use crate::mapping::{
    BorrowedMapping, BytesMapping, Holds, InjectiveMapping, NoPrefixesMapping, OrderedMapping,
    ValueTexts,
};
use crate::sequence::{IntegerForm, Several, are_elements, array_of, joined_bytes};
use crate::written::DomainTexts;
use art_bytes::AsBytes;
use std::alloc::{AllocError, Global};

impl<F: IntegerForm, E: DomainTexts<F>, const N: usize, K: AsBytes> Holds<[E; N], K>
    for Several<F> {
    ghost holds = { HasTextInRange (IsArray N E.is_in_range) K.text (joined E.text_of) };
}

impl<F: IntegerForm, E: DomainTexts<F>, const N: usize> ValueTexts<[E; N]> for Several<F> {
    ghost is_text = { HasTextInRange (IsArray N E.is_in_range) (λ text. text) (joined E.text_of) };
}

/// Arrays of exactly `N` elements. Writing one takes memory, reading one does not.
impl<F: IntegerForm, E: Element<F>, const N: usize> BytesMapping<[E; N]> for Several<F> {
    ghost holds_value = { λ _ _. (λ holds. holds, λ holds. holds) };

    ghost is_text_of_a_key = { λ other text value fits. text_of_a_vec (λ _. tt) (IsArray N E.is_in_range)
        (HasTextOf (λ text. text) (joined E.text_of)) value other text fits (λ of. of, λ of. of) };

    type Bytes = Vec<u8>;

    const ALLOCATES: bool = true;

    const READ_ALLOCATES: bool = false;

    ghost ALLOCATES = { true };

    ghost READ_ALLOCATES = { false };

    ghost is_in_domain = { IsArray N E.is_in_range };

    ghost text_of = { joined E.text_of };

    ghost are_same = { λ x y. x ≡ y };

    ghost stands_for = { HasTextOf vec_items (joined E.text_of) };

    ghost has_text = { λ _ _ _ stands. stands };

    ghost one_text = { λ x y same. ap (joined E.text_of) same };

    ghost reads_one = { λ _ x y x_in y_in x_text y_text.
        same_from_joined E.keeps x y x_in.1 y_in.1 x_text y_text };

    ghost kept_by_text = { λ a b _.
        kept_by_text (IsArray N E.is_in_range) vec_items (joined E.text_of) a b };

    fn to_bytes(alloc: Global, value: [E; N]) -> Result<Vec<u8>, AllocError> {
        joined_bytes::<F, E>(alloc, &value)
    }

    fn from_bytes(_alloc: Global, bytes: Vec<u8>) -> Result<[E; N], AllocError> {
        Ok(array_of::<F, E, N>(&bytes))
    }

    fn is_value(bytes: &Vec<u8>) -> bool {
        bytes.len() / E::Bytes::WIDTH == N && are_elements::<F, E>(bytes)
    }
}

impl<F: IntegerForm, E: Element<F>, const N: usize> BorrowedMapping<[E; N]> for Several<F> {
    fn read(_alloc: Global, bytes: &Vec<u8>) -> Result<[E; N], AllocError> {
        Ok(array_of::<F, E, N>(bytes))
    }
}

impl<F: IntegerForm, E: Element<F>, const N: usize> InjectiveMapping<[E; N]> for Several<F> {
    ghost decided_by_text = { λ x y x_in y_in same.
        same_from_joined E.keeps x y x_in.1 y_in.1 refl same };
}

impl<F: IntegerForm, E: Element<F>, const N: usize> OrderedMapping<[E; N]> for Several<F> {
    ghost keeps_order = { λ x y x_in y_in. joined_keep E.keeps x y x_in.1 y_in.1 };
}

impl<F: IntegerForm, E: Element<F>, const N: usize> NoPrefixesMapping<[E; N]> for Several<F> {
    ghost no_prefixes = { joined_prefix_is_whole E.keeps N };
}
