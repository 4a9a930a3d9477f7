//! Vectors of integers, as the bytes of their elements joined.
ghost use Rattle.std.specs.Prelude.{◌≡◌, true};
ghost use Rattle.std.specs.Vec.{vec_items};
ghost use Rattle.std.proofs.Common.{ap, refl};
ghost use Rattle.art_mapped.specs.Mapping.{HasTextInRange, HasTextOf};
ghost use Rattle.art_mapped.specs.MappingLaws.{kept_by_text};
ghost use Rattle.art_mapped.specs.Sequences.{joined, IsVec, vec_text};
ghost use Rattle.art_mapped.specs.SequenceLaws.{same_from_joined, joined_keep};
ghost use Rattle.art_mapped.specs.VecLaws.{text_of_a_vec};
ghost use Rattle.std.specs.declared.alloc.Global.{Global as GlobalAlloc};

use crate::element::Element;
use crate::mapping::{
    BorrowedMapping, BytesMapping, Holds, InjectiveMapping, OrderedMapping, ValueTexts,
};
use crate::sequence::{IntegerForm, Several, are_elements, joined_bytes, vec_of};
use crate::written::DomainTexts;
use art_bytes::AsBytes;
use std::alloc::{AllocError, Global};

impl<F: IntegerForm, E: DomainTexts<F>, K: AsBytes> Holds<Vec<E>, K> for Several<F> {
    ghost holds = { HasTextInRange (IsVec {A = GlobalAlloc} E.is_in_range) K.text (vec_text {A = GlobalAlloc} E.text_of) };
}

impl<F: IntegerForm, E: DomainTexts<F>> ValueTexts<Vec<E>> for Several<F> {
    ghost is_text = { HasTextInRange (IsVec {A = GlobalAlloc} E.is_in_range) (λ text. text) (vec_text {A = GlobalAlloc} E.text_of) };
}

/// Vectors of any length; a proper prefix of a vector sorts before it. Writing and reading take
/// memory. The bytes of one vector may be a prefix of another's, so these keys have no prefix law.
impl<F: IntegerForm, E: Element<F>> BytesMapping<Vec<E>> for Several<F> {
    ghost holds_value = { λ _ _. (λ holds. holds, λ holds. holds) };

    ghost is_text_of_a_key = { λ other text value fits. text_of_a_vec (λ _. tt) (IsVec E.is_in_range)
        (HasTextOf (λ text. text) (vec_text E.text_of)) value other text fits (λ of. of, λ of. of) };

    type Bytes = Vec<u8>;

    const ALLOCATES: bool = true;

    const READ_ALLOCATES: bool = true;

    ghost ALLOCATES = { true };

    ghost READ_ALLOCATES = { true };

    ghost is_in_domain = { IsVec E.is_in_range };

    ghost text_of = { vec_text E.text_of };

    ghost are_same = { λ x y. vec_items x ≡ vec_items y };

    ghost stands_for = { HasTextOf vec_items (vec_text E.text_of) };

    ghost has_text = { λ _ _ _ stands. stands };

    ghost one_text = { λ x y same. ap (joined E.text_of) same };

    ghost reads_one = { λ _ x y x_in y_in x_text y_text.
        same_from_joined E.keeps x.items y.items x_in y_in x_text y_text };

    ghost kept_by_text = { λ a b _.
        kept_by_text (IsVec E.is_in_range) vec_items (vec_text E.text_of) a b };

    fn to_bytes(alloc: Global, value: Vec<E>) -> Result<Vec<u8>, AllocError> {
        joined_bytes::<F, E>(alloc, &value)
    }

    fn from_bytes(alloc: Global, bytes: Vec<u8>) -> Result<Vec<E>, AllocError> {
        vec_of::<F, E>(alloc, &bytes)
    }

    fn is_value(bytes: &Vec<u8>) -> bool {
        are_elements::<F, E>(bytes)
    }
}

impl<F: IntegerForm, E: Element<F>> BorrowedMapping<Vec<E>> for Several<F> {
    fn read(alloc: Global, bytes: &Vec<u8>) -> Result<Vec<E>, AllocError> {
        vec_of::<F, E>(alloc, bytes)
    }
}

impl<F: IntegerForm, E: Element<F>> InjectiveMapping<Vec<E>> for Several<F> {
    ghost decided_by_text = { λ x y x_in y_in same.
        same_from_joined E.keeps x.items y.items x_in y_in refl same };
}

impl<F: IntegerForm, E: Element<F>> OrderedMapping<Vec<E>> for Several<F> {
    ghost keeps_order = { λ x y. joined_keep E.keeps x.items y.items };
}
