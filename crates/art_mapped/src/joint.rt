//! Parts of fixed width, one after the other, as tuples are written.
ghost use Rattle.std.specs.Prelude.{◌≡◌, ◌≤◌, length, Vec, ◌↔◌, ◌++◌, ◌+◌, ◌-◌, ◌^◌, ◌||◌, ℕ, List, Bool, false, IsTrue, IsOk, OnOk, IfOk, min};
ghost use Rattle.std.specs.Vec.{vec_items};
ghost use Rattle.std.specs.declared.alloc.Global.{Global};
ghost use Rattle.art_mapped.specs.Mapping.{StandsForSome};
ghost use Rattle.art_mapped.specs.Tuples.{IsPart, IsTextOf, Both, both_texts, AreSameBoth, StandsForBoth, TextLaws, OrderLaws, KeyLaws};
ghost use Rattle.art_mapped.specs.TupleLaws.{part_laws, part_key_laws, part_text, both_laws, both_key_laws, both_text, both_order};

use crate::fixed::FixedBytes;
use crate::mapping::{BytesMapping, OrderedMapping, ValueTexts};
use art_bytes::AsBytes;
use std::alloc::{AllocError, Global};
use std::marker::PhantomData;

/// Which lists are the bytes of the parts, joined.
pub trait JointTexts<D> {
    /// The list is the bytes of the value's parts.
    ghost is_text: { List ℕ → D → Type 0 };
}

impl<D, M: ValueTexts<D>> JointTexts<D> for Part<M> {
    ghost is_text = { M.is_text };
}

impl<A, B, F: JointTexts<A>, L: JointTexts<B>> JointTexts<(A, B)> for Then<F, L> {
    ghost is_text = { StandsForBoth F.is_text L.is_text };
}

/// Mappings of fixed width whose bytes are joined: the parts of a tuple, nested in pairs from the
/// first part on.
pub trait Joint<D>: JointTexts<D> {
    /// A key for each part, nested in pairs as the parts are.
    type Keys;

    /// Whether `read` takes memory. Where it is false, `read` never fails.
    const READ_ALLOCATES: bool;

    /// The same constant, for contracts.
    ghost READ_ALLOCATES: { Bool };

    /// How many bytes all parts have.
    ghost width: { ℕ };

    /// Which values the parts map.
    ghost is_in_domain: { D → Type 0 };

    /// The bytes of the parts, joined.
    ghost text_of: { D → List ℕ };

    /// Two values are the same, part by part.
    ghost are_same: { D → D → Type 0 };

    /// The bytes stand for the value.
    ghost stands_for: { List ℕ → D → Type 0 };

    /// Each is a key.
    ghost are_keys: { Self.Keys → Type 0 };

    /// The bytes of the keys, joined.
    ghost text_of_keys: { Self.Keys → List ℕ };

    /// Each key is some value's.
    ghost are_values: { Self.Keys → Type 0 };

    /// How many bytes to reserve: those of all parts, and at most `usize::MAX`.
    fn room() -> usize
        ensures { result ≡ min width (2 ^ 64 - 1) };

    /// Appends the bytes of the parts to `bytes`. On an allocation failure the value has been
    /// dropped, and some of its bytes may have been appended.
    fn write(alloc: Global, value: D, bytes: &mut Vec<u8>) -> Result<(), AllocError>
        ensures text { OnOk result (bytes.new.items ≡ bytes.old.items ++ text_of value) }
        ensures in_domain { OnOk result (is_in_domain value) }
        ensures stands { OnOk result (stands_for (text_of value) value) };

    /// Whether some value has these bytes.
    fn is_value(bytes: &[u8]) -> bool
        ensures { IsTrue result ↔ StandsForSome is_in_domain stands_for bytes.now };

    /// The value with these bytes. Condition: there is one, which `is_value` tests. The only error
    /// is an allocation failure.
    fn read(alloc: Global, bytes: &[u8]) -> Result<D, AllocError>
        requires { StandsForSome is_in_domain stands_for bytes.now }
        ensures in_domain { IfOk result is_in_domain }
        ensures stands { IfOk result (stands_for bytes.now) }
        ensures inverts { (value : D) → is_in_domain value → stands_for bytes.now value →
            IfOk result (λ read. are_same read value) }
        ensures takes_no_memory { READ_ALLOCATES ≡ false → IsOk result };

    /// A list is the bytes of the values that it stands for, where it is no longer than some vector.
    ghost is_text_of_parts: { (other : Vec ℕ Global) (text : List ℕ) (value : D) →
        length text ≤ length (vec_items other) →
        Self.is_text text value ↔ (is_in_domain value × stands_for text value) };

    /// Equal values have the same bytes.
    ghost one_text: { (x y : D) → are_same x y → text_of x ≡ text_of y };

    /// Bytes stand for at most one value, each value's bytes stand for it, and all values have
    /// bytes of one width.
    ghost laws: { TextLaws is_in_domain text_of stands_for are_same width };

    /// All keys have bytes of that width, which joined are some value's exactly where each key is.
    ghost key_laws: { KeyLaws is_in_domain stands_for are_keys text_of_keys are_values width };
}

/// Parts whose bytes keep the order of their values.
pub trait OrderedJoint<D: Ord>: Joint<D> {
    /// Two values compare as their bytes do.
    ghost order: { OrderLaws Self.is_in_domain Self.text_of D.cmp };
}

/// One part, by a mapping to keys of one width.
pub struct Part<M>(PhantomData<M>);

impl<D, K: FixedBytes, M: BytesMapping<D, Bytes = K>> Joint<D> for Part<M> {
    type Keys = K;

    const READ_ALLOCATES: bool = M::READ_ALLOCATES;

    ghost READ_ALLOCATES = { M.READ_ALLOCATES };

    ghost width = { K.WIDTH };

    ghost is_in_domain = { IsPart M.is_in_domain M.text_of
        (IsTextOf K.is_key K.text M.stands_for) K.WIDTH };

    ghost text_of = { M.text_of };

    ghost are_same = { M.are_same };

    ghost stands_for = { IsTextOf K.is_key K.text M.stands_for };

    ghost are_keys = { K.is_key };

    ghost text_of_keys = { K.text };

    ghost are_values = { StandsForSome M.is_in_domain M.stands_for };

    ghost one_text = { M.one_text };

    ghost is_text_of_parts = { λ other text value fits.
        part_text M.has_text K.width text value (M.is_text_of_a_key other text value fits) };

    ghost laws = { part_laws K.WIDTH M.has_text K.one_key M.reads_one };

    ghost key_laws = { part_key_laws M.has_text K.one_key K.width };

    fn room() -> usize {
        K::WIDTH
    }

    fn write(alloc: Global, value: D, bytes: &mut Vec<u8>) -> Result<(), AllocError> {
        let key = M::to_bytes(alloc, value)?;
        bytes.extend_from_slice(key.as_bytes())?;
        Ok(())
    }

    fn is_value(bytes: &[u8]) -> bool {
        bytes.len() == K::WIDTH && M::is_value(&K::from_slice(bytes))
    }

    fn read(alloc: Global, bytes: &[u8]) -> Result<D, AllocError> {
        M::from_bytes(alloc, K::from_slice(bytes))
    }
}

impl<D: Ord, K: FixedBytes, M: OrderedMapping<D, Bytes = K>> OrderedJoint<D> for Part<M> {
    ghost order = { record { keeps = λ x y x_in y_in. M.keeps_order x y x_in.0 y_in.0 } };
}

/// The parts `F`, followed by those of `L`.
pub struct Then<F, L>(PhantomData<(F, L)>);

impl<A: Drop, B: Drop, F: Joint<A>, L: Joint<B>> Joint<(A, B)> for Then<F, L> {
    type Keys = (F::Keys, L::Keys);

    const READ_ALLOCATES: bool = F::READ_ALLOCATES || L::READ_ALLOCATES;

    ghost READ_ALLOCATES = { F.READ_ALLOCATES || L.READ_ALLOCATES };

    ghost width = { F.width + L.width };

    ghost is_in_domain = { Both F.is_in_domain L.is_in_domain };

    ghost text_of = { both_texts F.text_of L.text_of };

    ghost are_same = { AreSameBoth F.are_same L.are_same };

    ghost stands_for = { StandsForBoth F.stands_for L.stands_for };

    ghost are_keys = { Both F.are_keys L.are_keys };

    ghost text_of_keys = { both_texts F.text_of_keys L.text_of_keys };

    ghost are_values = { Both F.are_values L.are_values };

    ghost one_text = { λ x y same.
        Prim.rw (F.one_text x.0 y.0 same.0, L.one_text x.1 y.1 same.1) Prim.cc };

    ghost is_text_of_parts = { λ other. both_text (length (vec_items other))
        (F.is_text_of_parts other) (L.is_text_of_parts other) };

    ghost laws = { both_laws F.laws L.laws };

    ghost key_laws = { both_key_laws F.laws L.laws F.key_laws L.key_laws };

    fn room() -> usize {
        F::room().saturating_add(L::room())
    }

    fn write(alloc: Global, value: (A, B), bytes: &mut Vec<u8>) -> Result<(), AllocError> {
        let (front, last) = value;
        F::write(alloc, front, bytes)?;
        L::write(alloc, last, bytes)
    }

    fn is_value(bytes: &[u8]) -> bool {
        let width = L::room();
        if bytes.len() < width {
            return false;
        }
        let (front, last) = bytes.split_at(bytes.len() - width);
        F::is_value(front) && L::is_value(last)
    }

    fn read(alloc: Global, bytes: &[u8]) -> Result<(A, B), AllocError> {
        let (front, last) = bytes.split_at(bytes.len() - L::room());
        let value = F::read(alloc, front)?;
        Ok((value, L::read(alloc, last)?))
    }
}

impl<A: Ord + Drop, B: Ord + Drop, F: OrderedJoint<A>, L: OrderedJoint<B>> OrderedJoint<(A, B)>
    for Then<F, L> {
    ghost order = { both_order F.laws L.laws F.order L.order };
}
