//! Tuples as their bytes joined.
ghost use Rattle.std.specs.Prelude.{◌≡◌, ◌↔◌, ℕ, List, [], ◌∷◌, true, refl};
ghost use Rattle.std.specs.Vec.{vec_items};
ghost use Rattle.std.proofs.Common.{◌∙◌, arith};
ghost use Rattle.art_mapped.specs.MappingLaws.{both_ways};
ghost use Rattle.std.specs.declared.cmp.Ordering.{Ordering};
ghost use Rattle.art_mapped.specs.Orders.{ByFirstPart};
ghost use Rattle.art_mapped.specs.Tuples.{StandsForBoth};
ghost use Rattle.art_mapped.specs.TupleLaws.{by_first_part, kept_by_items, same_from_one_text, wide_prefix_is_whole};
ghost use Rattle.art_mapped.specs.VecLaws.{text_of_a_vec};

use crate::joint::{Joint, JointTexts, OrderedJoint, Part, Then};
use crate::mapping::{
    BorrowedMapping, BytesMapping, Holds, InjectiveMapping, NoPrefixesMapping, OrderedMapping,
    ValueTexts,
};
use std::alloc::{AllocError, Global};
use std::marker::PhantomData;

mod sealed {
    /// No other crate can name this trait, so no other crate can add an impl.
    pub trait Sealed {}

    impl<A, B> Sealed for (A, B) {}

    impl<A, B, C> Sealed for (A, B, C) {}

    impl<A, B, C, D> Sealed for (A, B, C, D) {}

    impl<A, B, C, D, E> Sealed for (A, B, C, D, E) {}

    impl<A, B, C, D, E, F> Sealed for (A, B, C, D, E, F) {}
}

use sealed::Sealed;

/// Tuples of two to six values, as their bytes joined: `ConcatTuple<(M0, M1)>` maps the first value
/// by `M0` and the second by `M1`. Writing a tuple takes memory; reading one does only where
/// reading a part does.
///
/// Each part has a fixed number of bytes, so that no tuple's bytes are a proper prefix of
/// another's. Where every part keeps an order, the first part that differs decides.
///
/// (from crates/art_node_tests/src/mapped/tuples.rt)
/// ```rust
/// type Route = ConcatTuple<(ToOctets, ToIBE)>;
/// // ..
///     Mapped::new(alloc, (to, cost))
/// // ..
///     let key = route(alloc, Ipv4Addr::UNSPECIFIED, -212)?;
///     assert!(rt; key.as_bytes() == [0, 0, 0, 0, 127, 255, 255, 44].as_slice());
///     assert!(rt; route_of(alloc, key)? == (Ipv4Addr::UNSPECIFIED, -212));
/// ```
pub struct ConcatTuple<T>(PhantomData<T>);

/// Two to six mappings, for the parts of a tuple. The trait is sealed: no other type can implement
/// it.
///
/// [`ConcatTuple`] has an example.
pub trait TupleMappings: Sealed {
    /// An array type with one place for each mapping.
    type PartCount;

    /// The same mappings, nested in pairs.
    type Joint;
}

/// A tuple of two to six values, and the same values nested in pairs, as `((A, B), C)`. The trait is
/// sealed: no other type can implement it.
///
/// [`ConcatTuple`] has an example.
pub trait TupleValues: Sealed + Sized {
    /// An array type with one place for each value. It distinguishes a pair whose first value is a
    /// pair from a tuple of three.
    type PartCount;

    /// The values, nested in pairs.
    type Pairs;

    /// The values of the tuple, nested in pairs.
    ghost in_pairs: { Self → Self.Pairs };

    /// The tuple of the values in nested pairs.
    ghost flat: { Self.Pairs → Self };

    /// The values of the tuple, nested in pairs.
    fn pair_up(self) -> Self::Pairs
        ensures { result ≡ in_pairs self };

    /// The tuple of the values.
    fn flatten(value: Self::Pairs) -> Self
        ensures { result ≡ flat value };

    /// Pairing up undoes flattening.
    ghost pairs_flat: { (value : Self.Pairs) → in_pairs (flat value) ≡ value };

    /// Flattening undoes pairing up.
    ghost flat_pairs: { (value : Self) → flat (in_pairs value) ≡ value };
}

/// A tuple that compares as its nested pairs do: by the first part that differs.
///
/// [`ConcatTuple`] has an example.
pub trait OrderedTuple<P: Ord>: TupleValues<Pairs = P> + Ord {
    /// A tuple compares as its nested pairs do.
    ghost same_order: { (x y : Self) → Self.cmp x y ≡ P.cmp (Self.in_pairs x) (Self.in_pairs y) };

    /// The comparisons of two tuples, part by part.
    ghost comparisons: { Self → Self → List Ordering };

    /// The first part that differs decides.
    ghost by_first_part: { (x y : Self) → ByFirstPart (Self.cmp x y) (comparisons x y) };
}

/// Which lists are the bytes of a tuple. The trait is sealed: no other type can implement it.
///
/// [`ConcatTuple`] has an example.
pub trait TupleTexts<D>: Sealed {
    /// The list is the bytes of the tuple.
    ghost is_text: { List ℕ → D → Type 0 };
}

/// A tuple has the bytes of its nested pairs. The trait is sealed: no other type can implement it.
///
/// [`ConcatTuple`] has an example.
pub trait SameTexts<D, P, J>: TupleTexts<D>
where
    D: TupleValues<Pairs = P>,
    J: JointTexts<P>,
{
    /// A list is the bytes of a tuple exactly where it is those of the nested pairs.
    ghost same_texts: { (text : List ℕ) (value : D) →
        Self.is_text text value ↔ J.is_text text (D.in_pairs value) };
}

impl<D, T: TupleTexts<D>> Holds<D, Vec<u8>> for ConcatTuple<T> {
    ghost holds = { λ bytes value. T.is_text (vec_items bytes) value };
}

impl<D, T: TupleTexts<D>> ValueTexts<D> for ConcatTuple<T> {
    ghost is_text = { T.is_text };
}

impl<A, B, M0: ValueTexts<A>, M1: ValueTexts<B>> TupleTexts<(A, B)> for (M0, M1) {
    ghost is_text = { λ text value. StandsForBoth M0.is_text M1.is_text text
        (value.0, value.1) };
}

impl<A, B, M0: ValueTexts<A>, M1: ValueTexts<B>> SameTexts<(A, B), (A, B), Then<Part<M0>, Part<M1>>>
    for (M0, M1) {
    ghost same_texts = { λ _ _. (λ is. is, λ is. is) };
}

impl<A, B, C, M0: ValueTexts<A>, M1: ValueTexts<B>, M2: ValueTexts<C>> TupleTexts<(A, B, C)>
    for (M0, M1, M2) {
    ghost is_text = { λ text value. StandsForBoth (StandsForBoth M0.is_text M1.is_text) M2.is_text text
        ((value.0, value.1), value.2) };
}

impl<A, B, C, M0: ValueTexts<A>, M1: ValueTexts<B>, M2: ValueTexts<C>> SameTexts<
    (A, B, C),
    ((A, B), C),
    Then<Then<Part<M0>, Part<M1>>, Part<M2>>,
> for (M0, M1, M2) {
    ghost same_texts = { λ _ _. (λ is. is, λ is. is) };
}

impl<
    A,
    B,
    C,
    D,
    M0: ValueTexts<A>,
    M1: ValueTexts<B>,
    M2: ValueTexts<C>,
    M3: ValueTexts<D>,
> TupleTexts<(A, B, C, D)> for (M0, M1, M2, M3) {
    ghost is_text = { λ text value. StandsForBoth (StandsForBoth (StandsForBoth M0.is_text M1.is_text) M2.is_text) M3.is_text text
        (((value.0, value.1), value.2), value.3) };
}

impl<
    A,
    B,
    C,
    D,
    M0: ValueTexts<A>,
    M1: ValueTexts<B>,
    M2: ValueTexts<C>,
    M3: ValueTexts<D>,
> SameTexts<
    (A, B, C, D),
    (((A, B), C), D),
    Then<Then<Then<Part<M0>, Part<M1>>, Part<M2>>, Part<M3>>,
> for (M0, M1, M2, M3) {
    ghost same_texts = { λ _ _. (λ is. is, λ is. is) };
}

impl<
    A,
    B,
    C,
    D,
    E,
    M0: ValueTexts<A>,
    M1: ValueTexts<B>,
    M2: ValueTexts<C>,
    M3: ValueTexts<D>,
    M4: ValueTexts<E>,
> TupleTexts<(A, B, C, D, E)> for (M0, M1, M2, M3, M4) {
    ghost is_text = { λ text value. StandsForBoth (StandsForBoth (StandsForBoth (StandsForBoth M0.is_text M1.is_text) M2.is_text) M3.is_text) M4.is_text text
        ((((value.0, value.1), value.2), value.3), value.4) };
}

impl<
    A,
    B,
    C,
    D,
    E,
    M0: ValueTexts<A>,
    M1: ValueTexts<B>,
    M2: ValueTexts<C>,
    M3: ValueTexts<D>,
    M4: ValueTexts<E>,
> SameTexts<
    (A, B, C, D, E),
    ((((A, B), C), D), E),
    Then<Then<Then<Then<Part<M0>, Part<M1>>, Part<M2>>, Part<M3>>, Part<M4>>,
> for (M0, M1, M2, M3, M4) {
    ghost same_texts = { λ _ _. (λ is. is, λ is. is) };
}

impl<
    A,
    B,
    C,
    D,
    E,
    F,
    M0: ValueTexts<A>,
    M1: ValueTexts<B>,
    M2: ValueTexts<C>,
    M3: ValueTexts<D>,
    M4: ValueTexts<E>,
    M5: ValueTexts<F>,
> TupleTexts<(A, B, C, D, E, F)> for (M0, M1, M2, M3, M4, M5) {
    ghost is_text = { λ text value. StandsForBoth (StandsForBoth (StandsForBoth (StandsForBoth (StandsForBoth M0.is_text M1.is_text) M2.is_text) M3.is_text) M4.is_text) M5.is_text text
        (((((value.0, value.1), value.2), value.3), value.4), value.5) };
}

impl<
    A,
    B,
    C,
    D,
    E,
    F,
    M0: ValueTexts<A>,
    M1: ValueTexts<B>,
    M2: ValueTexts<C>,
    M3: ValueTexts<D>,
    M4: ValueTexts<E>,
    M5: ValueTexts<F>,
> SameTexts<
    (A, B, C, D, E, F),
    (((((A, B), C), D), E), F),
    Then<Then<Then<Then<Then<Part<M0>, Part<M1>>, Part<M2>>, Part<M3>>, Part<M4>>, Part<M5>>,
> for (M0, M1, M2, M3, M4, M5) {
    ghost same_texts = { λ _ _. (λ is. is, λ is. is) };
}

/// Writing a tuple takes memory. Reading one does where reading a part does.
impl<N, D, P, J, T> BytesMapping<D> for ConcatTuple<T>
where
    D: TupleValues<PartCount = N, Pairs = P> + Drop,
    J: Joint<P>,
    T: TupleMappings<PartCount = N, Joint = J> + SameTexts<D, P, J>,
{
    ghost holds_value = { λ bytes value. both_ways (T.same_texts (vec_items bytes) value)
        (J.is_text_of_parts bytes (vec_items bytes) (D.in_pairs value) (Prim.omega arith)) };

    ghost is_text_of_a_key = { λ other text value fits.
        text_of_a_vec (λ _. tt) J.is_in_domain J.stands_for (D.in_pairs value) other text fits
        (both_ways (T.same_texts text value)
        (J.is_text_of_parts other text (D.in_pairs value) fits)) };

    type Bytes = Vec<u8>;

    const ALLOCATES: bool = true;

    const READ_ALLOCATES: bool = J::READ_ALLOCATES;

    ghost ALLOCATES = { true };

    ghost READ_ALLOCATES = { J.READ_ALLOCATES };

    ghost is_in_domain = { λ value. J.is_in_domain (D.in_pairs value) };

    ghost text_of = { λ value. J.text_of (D.in_pairs value) };

    ghost are_same = { λ x y. J.are_same (D.in_pairs x) (D.in_pairs y) };

    ghost stands_for = { λ bytes value. J.stands_for (vec_items bytes) (D.in_pairs value) };

    ghost has_text = { λ bytes value. J.laws.has_text (vec_items bytes) (D.in_pairs value) };

    ghost one_text = { λ x y. J.one_text (D.in_pairs x) (D.in_pairs y) };

    ghost reads_one = { λ bytes x y.
        J.laws.reads_one (vec_items bytes) (D.in_pairs x) (D.in_pairs y) };

    ghost kept_by_text = { λ a b _.
        kept_by_items D.in_pairs J.is_in_domain J.stands_for (vec_items a) (vec_items b) };

    fn to_bytes(alloc: Global, value: D) -> Result<Vec<u8>, AllocError> {
        let mut bytes = Vec::with_capacity(alloc, J::room())?;
        J::write(alloc, value.pair_up(), &mut bytes)?;
        Ok(bytes)
    }

    fn from_bytes(alloc: Global, bytes: Vec<u8>) -> Result<D, AllocError> {
        Ok(D::flatten(J::read(alloc, &bytes)?))
    }

    fn is_value(bytes: &Vec<u8>) -> bool {
        J::is_value(bytes)
    }
}

impl<N, D, P, J, T> BorrowedMapping<D> for ConcatTuple<T>
where
    D: TupleValues<PartCount = N, Pairs = P> + Drop,
    J: Joint<P>,
    T: TupleMappings<PartCount = N, Joint = J> + SameTexts<D, P, J>,
{
    fn read(alloc: Global, bytes: &Vec<u8>) -> Result<D, AllocError> {
        Ok(D::flatten(J::read(alloc, bytes)?))
    }
}

impl<N, D, P, J, T> InjectiveMapping<D> for ConcatTuple<T>
where
    D: TupleValues<PartCount = N, Pairs = P> + Drop,
    J: Joint<P>,
    T: TupleMappings<PartCount = N, Joint = J> + SameTexts<D, P, J>,
{
    ghost decided_by_text = { λ x y. same_from_one_text J.laws (D.in_pairs x) (D.in_pairs y) };
}

impl<N, D, P, J, T> OrderedMapping<D> for ConcatTuple<T>
where
    D: OrderedTuple<P> + TupleValues<PartCount = N, Pairs = P> + Drop,
    P: Ord,
    J: OrderedJoint<P>,
    T: TupleMappings<PartCount = N, Joint = J> + SameTexts<D, P, J>,
{
    ghost keeps_order = { λ x y x_in y_in.
        D.same_order x y ∙ J.order.keeps (D.in_pairs x) (D.in_pairs y) x_in y_in };
}

impl<N, D, P, J, T> NoPrefixesMapping<D> for ConcatTuple<T>
where
    D: TupleValues<PartCount = N, Pairs = P> + Drop,
    J: Joint<P>,
    T: TupleMappings<PartCount = N, Joint = J> + SameTexts<D, P, J>,
{
    ghost no_prefixes = { λ x y. wide_prefix_is_whole J.laws (D.in_pairs x) (D.in_pairs y) };
}

impl<M0, M1> TupleMappings for (M0, M1) {
    type PartCount = [(); 2];

    type Joint = Then<Part<M0>, Part<M1>>;
}

impl<A, B> TupleValues for (A, B) {
    type PartCount = [(); 2];

    type Pairs = (A, B);

    ghost in_pairs = { λ value. value };

    ghost flat = { λ value. value };

    ghost pairs_flat = { λ _. refl };

    ghost flat_pairs = { λ _. refl };

    fn pair_up(self) -> (A, B) {
        let (a, b) = self;
        (a, b)
    }

    fn flatten((a, b): (A, B)) -> (A, B) {
        (a, b)
    }
}

impl<A: Ord, B: Ord> OrderedTuple<(A, B)> for (A, B) {
    ghost same_order = { λ _ _. refl };

    ghost comparisons = { λ x y. A.cmp x.0 y.0 ∷ B.cmp x.1 y.1 ∷ [] };

    ghost by_first_part = { λ x y. by_first_part (A.cmp x.0 y.0) (B.cmp x.1 y.1 ∷ []) };
}

impl<M0, M1, M2> TupleMappings for (M0, M1, M2) {
    type PartCount = [(); 3];

    type Joint = Then<Then<Part<M0>, Part<M1>>, Part<M2>>;
}

impl<A, B, C> TupleValues for (A, B, C) {
    type PartCount = [(); 3];

    type Pairs = ((A, B), C);

    ghost in_pairs = { λ value. ((value.0, value.1), value.2) };

    ghost flat = { λ value. (value.0.0, value.0.1, value.1) };

    ghost pairs_flat = { λ _. refl };

    ghost flat_pairs = { λ _. refl };

    fn pair_up(self) -> ((A, B), C) {
        let (a, b, c) = self;
        ((a, b), c)
    }

    fn flatten(((a, b), c): ((A, B), C)) -> (A, B, C) {
        (a, b, c)
    }
}

impl<A: Ord, B: Ord, C: Ord> OrderedTuple<((A, B), C)> for (A, B, C) {
    ghost same_order = { λ _ _. refl };

    ghost comparisons = { λ x y. A.cmp x.0 y.0 ∷ B.cmp x.1 y.1 ∷ C.cmp x.2 y.2 ∷ [] };

    ghost by_first_part = { λ x y. by_first_part (A.cmp x.0 y.0) (B.cmp x.1 y.1 ∷ C.cmp x.2 y.2 ∷ []) };
}

impl<M0, M1, M2, M3> TupleMappings for (M0, M1, M2, M3) {
    type PartCount = [(); 4];

    type Joint = Then<Then<Then<Part<M0>, Part<M1>>, Part<M2>>, Part<M3>>;
}

impl<A, B, C, D> TupleValues for (A, B, C, D) {
    type PartCount = [(); 4];

    type Pairs = (((A, B), C), D);

    ghost in_pairs = { λ value. (((value.0, value.1), value.2), value.3) };

    ghost flat = { λ value. (value.0.0.0, value.0.0.1, value.0.1, value.1) };

    ghost pairs_flat = { λ _. refl };

    ghost flat_pairs = { λ _. refl };

    fn pair_up(self) -> (((A, B), C), D) {
        let (a, b, c, d) = self;
        (((a, b), c), d)
    }

    fn flatten((((a, b), c), d): (((A, B), C), D)) -> (A, B, C, D) {
        (a, b, c, d)
    }
}

impl<A: Ord, B: Ord, C: Ord, D: Ord> OrderedTuple<(((A, B), C), D)> for (A, B, C, D) {
    ghost same_order = { λ _ _. refl };

    ghost comparisons = { λ x y. A.cmp x.0 y.0 ∷ B.cmp x.1 y.1 ∷ C.cmp x.2 y.2 ∷ D.cmp x.3 y.3 ∷ [] };

    ghost by_first_part = { λ x y. by_first_part (A.cmp x.0 y.0) (B.cmp x.1 y.1 ∷ C.cmp x.2 y.2 ∷ D.cmp x.3 y.3 ∷ []) };
}

impl<M0, M1, M2, M3, M4> TupleMappings for (M0, M1, M2, M3, M4) {
    type PartCount = [(); 5];

    type Joint = Then<Then<Then<Then<Part<M0>, Part<M1>>, Part<M2>>, Part<M3>>, Part<M4>>;
}

impl<A, B, C, D, E> TupleValues for (A, B, C, D, E) {
    type PartCount = [(); 5];

    type Pairs = ((((A, B), C), D), E);

    ghost in_pairs = { λ value. ((((value.0, value.1), value.2), value.3), value.4) };

    ghost flat = { λ value. (value.0.0.0.0, value.0.0.0.1, value.0.0.1, value.0.1, value.1) };

    ghost pairs_flat = { λ _. refl };

    ghost flat_pairs = { λ _. refl };

    fn pair_up(self) -> ((((A, B), C), D), E) {
        let (a, b, c, d, e) = self;
        ((((a, b), c), d), e)
    }

    fn flatten(((((a, b), c), d), e): ((((A, B), C), D), E)) -> (A, B, C, D, E) {
        (a, b, c, d, e)
    }
}

impl<A: Ord, B: Ord, C: Ord, D: Ord, E: Ord> OrderedTuple<((((A, B), C), D), E)>
    for (A, B, C, D, E) {
    ghost same_order = { λ _ _. refl };

    ghost comparisons = { λ x y. A.cmp x.0 y.0 ∷ B.cmp x.1 y.1 ∷ C.cmp x.2 y.2 ∷ D.cmp x.3 y.3
        ∷ E.cmp x.4 y.4 ∷ [] };

    ghost by_first_part = { λ x y. by_first_part (A.cmp x.0 y.0)
        (B.cmp x.1 y.1 ∷ C.cmp x.2 y.2 ∷ D.cmp x.3 y.3 ∷ E.cmp x.4 y.4 ∷ []) };
}

impl<M0, M1, M2, M3, M4, M5> TupleMappings for (M0, M1, M2, M3, M4, M5) {
    type PartCount = [(); 6];

    type Joint = Then<
        Then<Then<Then<Then<Part<M0>, Part<M1>>, Part<M2>>, Part<M3>>, Part<M4>>,
        Part<M5>,
    >;
}

impl<A, B, C, D, E, F> TupleValues for (A, B, C, D, E, F) {
    type PartCount = [(); 6];

    type Pairs = (((((A, B), C), D), E), F);

    ghost in_pairs = { λ value. (((((value.0, value.1), value.2), value.3), value.4), value.5) };

    ghost flat = { λ value.
        (value.0.0.0.0.0, value.0.0.0.0.1, value.0.0.0.1, value.0.0.1, value.0.1, value.1) };

    ghost pairs_flat = { λ _. refl };

    ghost flat_pairs = { λ _. refl };

    fn pair_up(self) -> (((((A, B), C), D), E), F) {
        let (a, b, c, d, e, f) = self;
        (((((a, b), c), d), e), f)
    }

    fn flatten((((((a, b), c), d), e), f): (((((A, B), C), D), E), F)) -> (A, B, C, D, E, F) {
        (a, b, c, d, e, f)
    }
}

impl<A: Ord, B: Ord, C: Ord, D: Ord, E: Ord, F: Ord> OrderedTuple<(((((A, B), C), D), E), F)>
    for (A, B, C, D, E, F) {
    ghost same_order = { λ _ _. refl };

    ghost comparisons = { λ x y. A.cmp x.0 y.0 ∷ B.cmp x.1 y.1 ∷ C.cmp x.2 y.2 ∷ D.cmp x.3 y.3
        ∷ E.cmp x.4 y.4 ∷ F.cmp x.5 y.5 ∷ [] };

    ghost by_first_part = { λ x y. by_first_part (A.cmp x.0 y.0)
        (B.cmp x.1 y.1 ∷ C.cmp x.2 y.2 ∷ D.cmp x.3 y.3 ∷ E.cmp x.4 y.4 ∷ F.cmp x.5 y.5 ∷ []) };
}
