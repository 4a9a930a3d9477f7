//! Tuples: the bytes of one part after the other, as of a pair of all parts but the last, and the last.
ghost use Rattle.std.specs.Prelude.{◌++◌, ◌^◌};
ghost use Rattle.std.specs.Ordering.{ordering_then};
ghost use Rattle.std.proofs.lemmas.List.Elements.{All-append};
ghost use Rattle.art_bytes.specs.Text.{IsByte};
ghost use Rattle.art_keys.specs.EncodingLaws.{joined_sort, joined_agree, later_short, triple_order, order_of_4, order_of_5, order_of_6};

use crate::key::{KeyBytes, RadixKey};
use crate::query::{ExactQuery, RadixQuery};
use std::cmp::Ordering;

impl<A: KeyBytes, B: KeyBytes, C: KeyBytes> KeyBytes for (A, B, C) {
    ghost encoded = { λ t. (A.encoded t.0 ++ B.encoded t.1) ++ C.encoded t.2 };

    ghost is_key = { λ t. A.is_key t.0 × B.is_key t.1 × C.is_key t.2 };

    ghost order = { λ x y. ordering_then (ordering_then (A.order x.0 y.0) (B.order x.1 y.1)) (C.order x.2 y.2) };
}

impl<A: RadixKey, B: RadixKey, C: RadixKey> RadixKey for (A, B, C) {
    const WANTS_HEADS: bool = A::WANTS_HEADS || B::WANTS_HEADS || C::WANTS_HEADS;

    ghost ordered = { triple_order A.ordered B.ordered C.ordered };

    ghost are_bytes = { λ t is. All-append IsByte (A.encoded t.0 ++ B.encoded t.1) (C.encoded t.2)
        (All-append IsByte (A.encoded t.0) (B.encoded t.1)
        (A.are_bytes t.0 is.0)
        (B.are_bytes t.1 is.1))
        (C.are_bytes t.2 is.2) };

    ghost sorted = { λ x y x_is y_is. joined_sort (ordering_then (A.cmp x.0 y.0) (B.cmp x.1 y.1)) (C.cmp x.2 y.2) (A.encoded x.0 ++ B.encoded x.1) (A.encoded y.0 ++ B.encoded y.1) (C.encoded x.2) (C.encoded y.2)
        (joined_sort (A.cmp x.0 y.0) (B.cmp x.1 y.1) (A.encoded x.0) (A.encoded y.0) (B.encoded x.1) (B.encoded y.1)
        (A.sorted x.0 y.0 x_is.0 y_is.0)
        (B.sorted x.1 y.1 x_is.1 y_is.1))
        (C.sorted x.2 y.2 x_is.2 y_is.2) };

    fn encoded_len(&self) -> usize {
        let whole = ((&self.0, &self.1), &self.2);
        <_ as RadixQuery<((A, B), C)>>::encoded_len(&whole)
    }

    fn encoded_byte(&self, index: usize) -> u8 {
        let whole = ((&self.0, &self.1), &self.2);
        <_ as RadixQuery<((A, B), C)>>::encoded_byte(&whole, index)
    }

    fn encoded_head(&self, skip: u32) -> u64 {
        let whole = ((&self.0, &self.1), &self.2);
        <_ as RadixQuery<((A, B), C)>>::encoded_head(&whole, skip)
    }
}

impl<
    A: RadixKey,
    B: RadixKey,
    C: RadixKey,
    P: ExactQuery<A>,
    Q: ExactQuery<B>,
    R: RadixQuery<C>,
> RadixQuery<(A, B, C)> for (P, Q, R) {
    ghost encoded = { λ q. (P.encoded q.0 ++ Q.encoded q.1) ++ R.encoded q.2 };

    ghost is_query = { λ q. P.is_query q.0 × Q.is_query q.1 × R.is_query q.2 };

    ghost compare = { λ q x. ordering_then (ordering_then (P.compare q.0 x.0) (Q.compare q.1 x.1)) (R.compare q.2 x.2) };

    ghost are_bytes = { λ q is. All-append IsByte (P.encoded q.0 ++ Q.encoded q.1) (R.encoded q.2)
        (All-append IsByte (P.encoded q.0) (Q.encoded q.1)
        (P.are_bytes q.0 is.0)
        (Q.are_bytes q.1 is.1))
        (R.are_bytes q.2 is.2) };

    ghost agrees = { λ q x q_is x_is short. joined_agree (ordering_then (P.compare q.0 x.0) (Q.compare q.1 x.1)) (R.compare q.2 x.2) (P.encoded q.0 ++ Q.encoded q.1) (A.encoded x.0 ++ B.encoded x.1) (R.encoded q.2) (C.encoded x.2)
        (joined_sort (P.compare q.0 x.0) (Q.compare q.1 x.1) (P.encoded q.0) (A.encoded x.0) (Q.encoded q.1) (B.encoded x.1)
        (P.sorted q.0 x.0 q_is.0 x_is.0)
        (Q.sorted q.1 x.1 q_is.1 x_is.1))
        (R.agrees q.2 x.2 q_is.2 x_is.2
        (later_short (A.encoded x.0 ++ B.encoded x.1) (C.encoded x.2) (2 ^ 32) short)) };

    fn compare(&self, key: &(A, B, C)) -> Ordering {
        let first = self.0.compare(&key.0);
        let second = self.1.compare(&key.1);
        let third = self.2.compare(&key.2);
        first.then(second).then(third)
    }

    fn encoded_len(&self) -> usize {
        let whole = ((self.0, self.1), self.2);
        <_ as RadixQuery<((A, B), C)>>::encoded_len(&whole)
    }

    fn encoded_byte(&self, index: usize) -> u8 {
        let whole = ((self.0, self.1), self.2);
        <_ as RadixQuery<((A, B), C)>>::encoded_byte(&whole, index)
    }

    fn encoded_head(&self, skip: u32) -> u64 {
        let whole = ((self.0, self.1), self.2);
        <_ as RadixQuery<((A, B), C)>>::encoded_head(&whole, skip)
    }
}

impl<
    A: RadixKey,
    B: RadixKey,
    C: RadixKey,
    P: ExactQuery<A>,
    Q: ExactQuery<B>,
    R: ExactQuery<C>,
> ExactQuery<(A, B, C)> for (P, Q, R) {
    ghost sorted = { λ q x q_is x_is. joined_sort (ordering_then (P.compare q.0 x.0) (Q.compare q.1 x.1)) (R.compare q.2 x.2) (P.encoded q.0 ++ Q.encoded q.1) (A.encoded x.0 ++ B.encoded x.1) (R.encoded q.2) (C.encoded x.2)
        (joined_sort (P.compare q.0 x.0) (Q.compare q.1 x.1) (P.encoded q.0) (A.encoded x.0) (Q.encoded q.1) (B.encoded x.1)
        (P.sorted q.0 x.0 q_is.0 x_is.0)
        (Q.sorted q.1 x.1 q_is.1 x_is.1))
        (R.sorted q.2 x.2 q_is.2 x_is.2) };
}

impl<A: KeyBytes, B: KeyBytes, C: KeyBytes, D: KeyBytes> KeyBytes for (A, B, C, D) {
    ghost encoded = { λ t. ((A.encoded t.0 ++ B.encoded t.1) ++ C.encoded t.2) ++ D.encoded t.3 };

    ghost is_key = { λ t. A.is_key t.0 × B.is_key t.1 × C.is_key t.2 × D.is_key t.3 };

    ghost order = { λ x y. ordering_then (ordering_then (ordering_then (A.order x.0 y.0) (B.order x.1 y.1)) (C.order x.2 y.2)) (D.order x.3 y.3) };
}

impl<A: RadixKey, B: RadixKey, C: RadixKey, D: RadixKey> RadixKey for (A, B, C, D) {
    const WANTS_HEADS: bool = A::WANTS_HEADS || B::WANTS_HEADS || C::WANTS_HEADS || D::WANTS_HEADS;

    ghost ordered = { order_of_4 A.ordered B.ordered C.ordered D.ordered };

    ghost are_bytes = { λ t is. All-append IsByte ((A.encoded t.0 ++ B.encoded t.1) ++ C.encoded t.2) (D.encoded t.3)
        (All-append IsByte (A.encoded t.0 ++ B.encoded t.1) (C.encoded t.2)
        (All-append IsByte (A.encoded t.0) (B.encoded t.1)
        (A.are_bytes t.0 is.0)
        (B.are_bytes t.1 is.1))
        (C.are_bytes t.2 is.2))
        (D.are_bytes t.3 is.3) };

    ghost sorted = { λ x y x_is y_is. joined_sort (ordering_then (ordering_then (A.cmp x.0 y.0) (B.cmp x.1 y.1)) (C.cmp x.2 y.2)) (D.cmp x.3 y.3) ((A.encoded x.0 ++ B.encoded x.1) ++ C.encoded x.2) ((A.encoded y.0 ++ B.encoded y.1) ++ C.encoded y.2) (D.encoded x.3) (D.encoded y.3)
        (joined_sort (ordering_then (A.cmp x.0 y.0) (B.cmp x.1 y.1)) (C.cmp x.2 y.2) (A.encoded x.0 ++ B.encoded x.1) (A.encoded y.0 ++ B.encoded y.1) (C.encoded x.2) (C.encoded y.2)
        (joined_sort (A.cmp x.0 y.0) (B.cmp x.1 y.1) (A.encoded x.0) (A.encoded y.0) (B.encoded x.1) (B.encoded y.1)
        (A.sorted x.0 y.0 x_is.0 y_is.0)
        (B.sorted x.1 y.1 x_is.1 y_is.1))
        (C.sorted x.2 y.2 x_is.2 y_is.2))
        (D.sorted x.3 y.3 x_is.3 y_is.3) };

    fn encoded_len(&self) -> usize {
        let whole = ((&self.0, &self.1, &self.2), &self.3);
        <_ as RadixQuery<((A, B, C), D)>>::encoded_len(&whole)
    }

    fn encoded_byte(&self, index: usize) -> u8 {
        let whole = ((&self.0, &self.1, &self.2), &self.3);
        <_ as RadixQuery<((A, B, C), D)>>::encoded_byte(&whole, index)
    }

    fn encoded_head(&self, skip: u32) -> u64 {
        let whole = ((&self.0, &self.1, &self.2), &self.3);
        <_ as RadixQuery<((A, B, C), D)>>::encoded_head(&whole, skip)
    }
}

impl<
    A: RadixKey,
    B: RadixKey,
    C: RadixKey,
    D: RadixKey,
    P: ExactQuery<A>,
    Q: ExactQuery<B>,
    R: ExactQuery<C>,
    S: RadixQuery<D>,
> RadixQuery<(A, B, C, D)> for (P, Q, R, S) {
    ghost encoded = { λ q. ((P.encoded q.0 ++ Q.encoded q.1) ++ R.encoded q.2) ++ S.encoded q.3 };

    ghost is_query = { λ q. P.is_query q.0 × Q.is_query q.1 × R.is_query q.2 × S.is_query q.3 };

    ghost compare = { λ q x. ordering_then (ordering_then (ordering_then (P.compare q.0 x.0) (Q.compare q.1 x.1)) (R.compare q.2 x.2)) (S.compare q.3 x.3) };

    ghost are_bytes = { λ q is. All-append IsByte ((P.encoded q.0 ++ Q.encoded q.1) ++ R.encoded q.2) (S.encoded q.3)
        (All-append IsByte (P.encoded q.0 ++ Q.encoded q.1) (R.encoded q.2)
        (All-append IsByte (P.encoded q.0) (Q.encoded q.1)
        (P.are_bytes q.0 is.0)
        (Q.are_bytes q.1 is.1))
        (R.are_bytes q.2 is.2))
        (S.are_bytes q.3 is.3) };

    ghost agrees = { λ q x q_is x_is short. joined_agree (ordering_then (ordering_then (P.compare q.0 x.0) (Q.compare q.1 x.1)) (R.compare q.2 x.2)) (S.compare q.3 x.3) ((P.encoded q.0 ++ Q.encoded q.1) ++ R.encoded q.2) ((A.encoded x.0 ++ B.encoded x.1) ++ C.encoded x.2) (S.encoded q.3) (D.encoded x.3)
        (joined_sort (ordering_then (P.compare q.0 x.0) (Q.compare q.1 x.1)) (R.compare q.2 x.2) (P.encoded q.0 ++ Q.encoded q.1) (A.encoded x.0 ++ B.encoded x.1) (R.encoded q.2) (C.encoded x.2)
        (joined_sort (P.compare q.0 x.0) (Q.compare q.1 x.1) (P.encoded q.0) (A.encoded x.0) (Q.encoded q.1) (B.encoded x.1)
        (P.sorted q.0 x.0 q_is.0 x_is.0)
        (Q.sorted q.1 x.1 q_is.1 x_is.1))
        (R.sorted q.2 x.2 q_is.2 x_is.2))
        (S.agrees q.3 x.3 q_is.3 x_is.3
        (later_short ((A.encoded x.0 ++ B.encoded x.1) ++ C.encoded x.2) (D.encoded x.3) (2 ^ 32) short)) };

    fn compare(&self, key: &(A, B, C, D)) -> Ordering {
        let first = self.0.compare(&key.0);
        let second = self.1.compare(&key.1);
        let third = self.2.compare(&key.2);
        let fourth = self.3.compare(&key.3);
        first.then(second).then(third).then(fourth)
    }

    fn encoded_len(&self) -> usize {
        let whole = ((self.0, self.1, self.2), self.3);
        <_ as RadixQuery<((A, B, C), D)>>::encoded_len(&whole)
    }

    fn encoded_byte(&self, index: usize) -> u8 {
        let whole = ((self.0, self.1, self.2), self.3);
        <_ as RadixQuery<((A, B, C), D)>>::encoded_byte(&whole, index)
    }

    fn encoded_head(&self, skip: u32) -> u64 {
        let whole = ((self.0, self.1, self.2), self.3);
        <_ as RadixQuery<((A, B, C), D)>>::encoded_head(&whole, skip)
    }
}

impl<
    A: RadixKey,
    B: RadixKey,
    C: RadixKey,
    D: RadixKey,
    P: ExactQuery<A>,
    Q: ExactQuery<B>,
    R: ExactQuery<C>,
    S: ExactQuery<D>,
> ExactQuery<(A, B, C, D)> for (P, Q, R, S) {
    ghost sorted = { λ q x q_is x_is. joined_sort (ordering_then (ordering_then (P.compare q.0 x.0) (Q.compare q.1 x.1)) (R.compare q.2 x.2)) (S.compare q.3 x.3) ((P.encoded q.0 ++ Q.encoded q.1) ++ R.encoded q.2) ((A.encoded x.0 ++ B.encoded x.1) ++ C.encoded x.2) (S.encoded q.3) (D.encoded x.3)
        (joined_sort (ordering_then (P.compare q.0 x.0) (Q.compare q.1 x.1)) (R.compare q.2 x.2) (P.encoded q.0 ++ Q.encoded q.1) (A.encoded x.0 ++ B.encoded x.1) (R.encoded q.2) (C.encoded x.2)
        (joined_sort (P.compare q.0 x.0) (Q.compare q.1 x.1) (P.encoded q.0) (A.encoded x.0) (Q.encoded q.1) (B.encoded x.1)
        (P.sorted q.0 x.0 q_is.0 x_is.0)
        (Q.sorted q.1 x.1 q_is.1 x_is.1))
        (R.sorted q.2 x.2 q_is.2 x_is.2))
        (S.sorted q.3 x.3 q_is.3 x_is.3) };
}

impl<A: KeyBytes, B: KeyBytes, C: KeyBytes, D: KeyBytes, E: KeyBytes> KeyBytes for (A, B, C, D, E) {
    ghost encoded = { λ t. (((A.encoded t.0 ++ B.encoded t.1) ++ C.encoded t.2) ++ D.encoded t.3) ++ E.encoded t.4 };

    ghost is_key = { λ t. A.is_key t.0 × B.is_key t.1 × C.is_key t.2 × D.is_key t.3 × E.is_key t.4 };

    ghost order = { λ x y. ordering_then (ordering_then (ordering_then (ordering_then (A.order x.0 y.0) (B.order x.1 y.1)) (C.order x.2 y.2)) (D.order x.3 y.3)) (E.order x.4 y.4) };
}

impl<A: RadixKey, B: RadixKey, C: RadixKey, D: RadixKey, E: RadixKey> RadixKey for (A, B, C, D, E) {
    const WANTS_HEADS: bool = A::WANTS_HEADS
        || B::WANTS_HEADS
        || C::WANTS_HEADS
        || D::WANTS_HEADS
        || E::WANTS_HEADS;

    ghost ordered = { order_of_5 A.ordered B.ordered C.ordered D.ordered E.ordered };

    ghost are_bytes = { λ t is. All-append IsByte (((A.encoded t.0 ++ B.encoded t.1) ++ C.encoded t.2) ++ D.encoded t.3) (E.encoded t.4)
        (All-append IsByte ((A.encoded t.0 ++ B.encoded t.1) ++ C.encoded t.2) (D.encoded t.3)
        (All-append IsByte (A.encoded t.0 ++ B.encoded t.1) (C.encoded t.2)
        (All-append IsByte (A.encoded t.0) (B.encoded t.1)
        (A.are_bytes t.0 is.0)
        (B.are_bytes t.1 is.1))
        (C.are_bytes t.2 is.2))
        (D.are_bytes t.3 is.3))
        (E.are_bytes t.4 is.4) };

    ghost sorted = { λ x y x_is y_is. joined_sort (ordering_then (ordering_then (ordering_then (A.cmp x.0 y.0) (B.cmp x.1 y.1)) (C.cmp x.2 y.2)) (D.cmp x.3 y.3)) (E.cmp x.4 y.4) (((A.encoded x.0 ++ B.encoded x.1) ++ C.encoded x.2) ++ D.encoded x.3) (((A.encoded y.0 ++ B.encoded y.1) ++ C.encoded y.2) ++ D.encoded y.3) (E.encoded x.4) (E.encoded y.4)
        (joined_sort (ordering_then (ordering_then (A.cmp x.0 y.0) (B.cmp x.1 y.1)) (C.cmp x.2 y.2)) (D.cmp x.3 y.3) ((A.encoded x.0 ++ B.encoded x.1) ++ C.encoded x.2) ((A.encoded y.0 ++ B.encoded y.1) ++ C.encoded y.2) (D.encoded x.3) (D.encoded y.3)
        (joined_sort (ordering_then (A.cmp x.0 y.0) (B.cmp x.1 y.1)) (C.cmp x.2 y.2) (A.encoded x.0 ++ B.encoded x.1) (A.encoded y.0 ++ B.encoded y.1) (C.encoded x.2) (C.encoded y.2)
        (joined_sort (A.cmp x.0 y.0) (B.cmp x.1 y.1) (A.encoded x.0) (A.encoded y.0) (B.encoded x.1) (B.encoded y.1)
        (A.sorted x.0 y.0 x_is.0 y_is.0)
        (B.sorted x.1 y.1 x_is.1 y_is.1))
        (C.sorted x.2 y.2 x_is.2 y_is.2))
        (D.sorted x.3 y.3 x_is.3 y_is.3))
        (E.sorted x.4 y.4 x_is.4 y_is.4) };

    fn encoded_len(&self) -> usize {
        let whole = ((&self.0, &self.1, &self.2, &self.3), &self.4);
        <_ as RadixQuery<((A, B, C, D), E)>>::encoded_len(&whole)
    }

    fn encoded_byte(&self, index: usize) -> u8 {
        let whole = ((&self.0, &self.1, &self.2, &self.3), &self.4);
        <_ as RadixQuery<((A, B, C, D), E)>>::encoded_byte(&whole, index)
    }

    fn encoded_head(&self, skip: u32) -> u64 {
        let whole = ((&self.0, &self.1, &self.2, &self.3), &self.4);
        <_ as RadixQuery<((A, B, C, D), E)>>::encoded_head(&whole, skip)
    }
}

impl<
    A: RadixKey,
    B: RadixKey,
    C: RadixKey,
    D: RadixKey,
    E: RadixKey,
    P: ExactQuery<A>,
    Q: ExactQuery<B>,
    R: ExactQuery<C>,
    S: ExactQuery<D>,
    T: RadixQuery<E>,
> RadixQuery<(A, B, C, D, E)> for (P, Q, R, S, T) {
    ghost encoded = { λ q. (((P.encoded q.0 ++ Q.encoded q.1) ++ R.encoded q.2) ++ S.encoded q.3) ++ T.encoded q.4 };

    ghost is_query = { λ q. P.is_query q.0 × Q.is_query q.1 × R.is_query q.2 × S.is_query q.3 × T.is_query q.4 };

    ghost compare = { λ q x. ordering_then (ordering_then (ordering_then (ordering_then (P.compare q.0 x.0) (Q.compare q.1 x.1)) (R.compare q.2 x.2)) (S.compare q.3 x.3)) (T.compare q.4 x.4) };

    ghost are_bytes = { λ q is. All-append IsByte (((P.encoded q.0 ++ Q.encoded q.1) ++ R.encoded q.2) ++ S.encoded q.3) (T.encoded q.4)
        (All-append IsByte ((P.encoded q.0 ++ Q.encoded q.1) ++ R.encoded q.2) (S.encoded q.3)
        (All-append IsByte (P.encoded q.0 ++ Q.encoded q.1) (R.encoded q.2)
        (All-append IsByte (P.encoded q.0) (Q.encoded q.1)
        (P.are_bytes q.0 is.0)
        (Q.are_bytes q.1 is.1))
        (R.are_bytes q.2 is.2))
        (S.are_bytes q.3 is.3))
        (T.are_bytes q.4 is.4) };

    ghost agrees = { λ q x q_is x_is short. joined_agree (ordering_then (ordering_then (ordering_then (P.compare q.0 x.0) (Q.compare q.1 x.1)) (R.compare q.2 x.2)) (S.compare q.3 x.3)) (T.compare q.4 x.4) (((P.encoded q.0 ++ Q.encoded q.1) ++ R.encoded q.2) ++ S.encoded q.3) (((A.encoded x.0 ++ B.encoded x.1) ++ C.encoded x.2) ++ D.encoded x.3) (T.encoded q.4) (E.encoded x.4)
        (joined_sort (ordering_then (ordering_then (P.compare q.0 x.0) (Q.compare q.1 x.1)) (R.compare q.2 x.2)) (S.compare q.3 x.3) ((P.encoded q.0 ++ Q.encoded q.1) ++ R.encoded q.2) ((A.encoded x.0 ++ B.encoded x.1) ++ C.encoded x.2) (S.encoded q.3) (D.encoded x.3)
        (joined_sort (ordering_then (P.compare q.0 x.0) (Q.compare q.1 x.1)) (R.compare q.2 x.2) (P.encoded q.0 ++ Q.encoded q.1) (A.encoded x.0 ++ B.encoded x.1) (R.encoded q.2) (C.encoded x.2)
        (joined_sort (P.compare q.0 x.0) (Q.compare q.1 x.1) (P.encoded q.0) (A.encoded x.0) (Q.encoded q.1) (B.encoded x.1)
        (P.sorted q.0 x.0 q_is.0 x_is.0)
        (Q.sorted q.1 x.1 q_is.1 x_is.1))
        (R.sorted q.2 x.2 q_is.2 x_is.2))
        (S.sorted q.3 x.3 q_is.3 x_is.3))
        (T.agrees q.4 x.4 q_is.4 x_is.4
        (later_short (((A.encoded x.0 ++ B.encoded x.1) ++ C.encoded x.2) ++ D.encoded x.3) (E.encoded x.4) (2 ^ 32) short)) };

    fn compare(&self, key: &(A, B, C, D, E)) -> Ordering {
        let first = self.0.compare(&key.0);
        let second = self.1.compare(&key.1);
        let third = self.2.compare(&key.2);
        let fourth = self.3.compare(&key.3);
        let fifth = self.4.compare(&key.4);
        first.then(second).then(third).then(fourth).then(fifth)
    }

    fn encoded_len(&self) -> usize {
        let whole = ((self.0, self.1, self.2, self.3), self.4);
        <_ as RadixQuery<((A, B, C, D), E)>>::encoded_len(&whole)
    }

    fn encoded_byte(&self, index: usize) -> u8 {
        let whole = ((self.0, self.1, self.2, self.3), self.4);
        <_ as RadixQuery<((A, B, C, D), E)>>::encoded_byte(&whole, index)
    }

    fn encoded_head(&self, skip: u32) -> u64 {
        let whole = ((self.0, self.1, self.2, self.3), self.4);
        <_ as RadixQuery<((A, B, C, D), E)>>::encoded_head(&whole, skip)
    }
}

impl<
    A: RadixKey,
    B: RadixKey,
    C: RadixKey,
    D: RadixKey,
    E: RadixKey,
    P: ExactQuery<A>,
    Q: ExactQuery<B>,
    R: ExactQuery<C>,
    S: ExactQuery<D>,
    T: ExactQuery<E>,
> ExactQuery<(A, B, C, D, E)> for (P, Q, R, S, T) {
    ghost sorted = { λ q x q_is x_is. joined_sort (ordering_then (ordering_then (ordering_then (P.compare q.0 x.0) (Q.compare q.1 x.1)) (R.compare q.2 x.2)) (S.compare q.3 x.3)) (T.compare q.4 x.4) (((P.encoded q.0 ++ Q.encoded q.1) ++ R.encoded q.2) ++ S.encoded q.3) (((A.encoded x.0 ++ B.encoded x.1) ++ C.encoded x.2) ++ D.encoded x.3) (T.encoded q.4) (E.encoded x.4)
        (joined_sort (ordering_then (ordering_then (P.compare q.0 x.0) (Q.compare q.1 x.1)) (R.compare q.2 x.2)) (S.compare q.3 x.3) ((P.encoded q.0 ++ Q.encoded q.1) ++ R.encoded q.2) ((A.encoded x.0 ++ B.encoded x.1) ++ C.encoded x.2) (S.encoded q.3) (D.encoded x.3)
        (joined_sort (ordering_then (P.compare q.0 x.0) (Q.compare q.1 x.1)) (R.compare q.2 x.2) (P.encoded q.0 ++ Q.encoded q.1) (A.encoded x.0 ++ B.encoded x.1) (R.encoded q.2) (C.encoded x.2)
        (joined_sort (P.compare q.0 x.0) (Q.compare q.1 x.1) (P.encoded q.0) (A.encoded x.0) (Q.encoded q.1) (B.encoded x.1)
        (P.sorted q.0 x.0 q_is.0 x_is.0)
        (Q.sorted q.1 x.1 q_is.1 x_is.1))
        (R.sorted q.2 x.2 q_is.2 x_is.2))
        (S.sorted q.3 x.3 q_is.3 x_is.3))
        (T.sorted q.4 x.4 q_is.4 x_is.4) };
}

impl<A: KeyBytes, B: KeyBytes, C: KeyBytes, D: KeyBytes, E: KeyBytes, F: KeyBytes> KeyBytes
    for (A, B, C, D, E, F) {
    ghost encoded = { λ t. ((((A.encoded t.0 ++ B.encoded t.1) ++ C.encoded t.2) ++ D.encoded t.3) ++ E.encoded t.4) ++ F.encoded t.5 };

    ghost is_key = { λ t. A.is_key t.0 × B.is_key t.1 × C.is_key t.2 × D.is_key t.3 × E.is_key t.4 × F.is_key t.5 };

    ghost order = { λ x y. ordering_then (ordering_then (ordering_then (ordering_then (ordering_then (A.order x.0 y.0) (B.order x.1 y.1)) (C.order x.2 y.2)) (D.order x.3 y.3)) (E.order x.4 y.4)) (F.order x.5 y.5) };
}

impl<A: RadixKey, B: RadixKey, C: RadixKey, D: RadixKey, E: RadixKey, F: RadixKey> RadixKey
    for (A, B, C, D, E, F) {
    const WANTS_HEADS: bool = A::WANTS_HEADS
        || B::WANTS_HEADS
        || C::WANTS_HEADS
        || D::WANTS_HEADS
        || E::WANTS_HEADS
        || F::WANTS_HEADS;

    ghost ordered = { order_of_6 A.ordered B.ordered C.ordered D.ordered E.ordered F.ordered };

    ghost are_bytes = { λ t is. All-append IsByte ((((A.encoded t.0 ++ B.encoded t.1) ++ C.encoded t.2) ++ D.encoded t.3) ++ E.encoded t.4) (F.encoded t.5)
        (All-append IsByte (((A.encoded t.0 ++ B.encoded t.1) ++ C.encoded t.2) ++ D.encoded t.3) (E.encoded t.4)
        (All-append IsByte ((A.encoded t.0 ++ B.encoded t.1) ++ C.encoded t.2) (D.encoded t.3)
        (All-append IsByte (A.encoded t.0 ++ B.encoded t.1) (C.encoded t.2)
        (All-append IsByte (A.encoded t.0) (B.encoded t.1)
        (A.are_bytes t.0 is.0)
        (B.are_bytes t.1 is.1))
        (C.are_bytes t.2 is.2))
        (D.are_bytes t.3 is.3))
        (E.are_bytes t.4 is.4))
        (F.are_bytes t.5 is.5) };

    ghost sorted = { λ x y x_is y_is. joined_sort (ordering_then (ordering_then (ordering_then (ordering_then (A.cmp x.0 y.0) (B.cmp x.1 y.1)) (C.cmp x.2 y.2)) (D.cmp x.3 y.3)) (E.cmp x.4 y.4)) (F.cmp x.5 y.5) ((((A.encoded x.0 ++ B.encoded x.1) ++ C.encoded x.2) ++ D.encoded x.3) ++ E.encoded x.4) ((((A.encoded y.0 ++ B.encoded y.1) ++ C.encoded y.2) ++ D.encoded y.3) ++ E.encoded y.4) (F.encoded x.5) (F.encoded y.5)
        (joined_sort (ordering_then (ordering_then (ordering_then (A.cmp x.0 y.0) (B.cmp x.1 y.1)) (C.cmp x.2 y.2)) (D.cmp x.3 y.3)) (E.cmp x.4 y.4) (((A.encoded x.0 ++ B.encoded x.1) ++ C.encoded x.2) ++ D.encoded x.3) (((A.encoded y.0 ++ B.encoded y.1) ++ C.encoded y.2) ++ D.encoded y.3) (E.encoded x.4) (E.encoded y.4)
        (joined_sort (ordering_then (ordering_then (A.cmp x.0 y.0) (B.cmp x.1 y.1)) (C.cmp x.2 y.2)) (D.cmp x.3 y.3) ((A.encoded x.0 ++ B.encoded x.1) ++ C.encoded x.2) ((A.encoded y.0 ++ B.encoded y.1) ++ C.encoded y.2) (D.encoded x.3) (D.encoded y.3)
        (joined_sort (ordering_then (A.cmp x.0 y.0) (B.cmp x.1 y.1)) (C.cmp x.2 y.2) (A.encoded x.0 ++ B.encoded x.1) (A.encoded y.0 ++ B.encoded y.1) (C.encoded x.2) (C.encoded y.2)
        (joined_sort (A.cmp x.0 y.0) (B.cmp x.1 y.1) (A.encoded x.0) (A.encoded y.0) (B.encoded x.1) (B.encoded y.1)
        (A.sorted x.0 y.0 x_is.0 y_is.0)
        (B.sorted x.1 y.1 x_is.1 y_is.1))
        (C.sorted x.2 y.2 x_is.2 y_is.2))
        (D.sorted x.3 y.3 x_is.3 y_is.3))
        (E.sorted x.4 y.4 x_is.4 y_is.4))
        (F.sorted x.5 y.5 x_is.5 y_is.5) };

    fn encoded_len(&self) -> usize {
        let whole = ((&self.0, &self.1, &self.2, &self.3, &self.4), &self.5);
        <_ as RadixQuery<((A, B, C, D, E), F)>>::encoded_len(&whole)
    }

    fn encoded_byte(&self, index: usize) -> u8 {
        let whole = ((&self.0, &self.1, &self.2, &self.3, &self.4), &self.5);
        <_ as RadixQuery<((A, B, C, D, E), F)>>::encoded_byte(&whole, index)
    }

    fn encoded_head(&self, skip: u32) -> u64 {
        let whole = ((&self.0, &self.1, &self.2, &self.3, &self.4), &self.5);
        <_ as RadixQuery<((A, B, C, D, E), F)>>::encoded_head(&whole, skip)
    }
}

impl<
    A: RadixKey,
    B: RadixKey,
    C: RadixKey,
    D: RadixKey,
    E: RadixKey,
    F: RadixKey,
    P: ExactQuery<A>,
    Q: ExactQuery<B>,
    R: ExactQuery<C>,
    S: ExactQuery<D>,
    T: ExactQuery<E>,
    U: RadixQuery<F>,
> RadixQuery<(A, B, C, D, E, F)> for (P, Q, R, S, T, U) {
    ghost encoded = { λ q. ((((P.encoded q.0 ++ Q.encoded q.1) ++ R.encoded q.2) ++ S.encoded q.3) ++ T.encoded q.4) ++ U.encoded q.5 };

    ghost is_query = { λ q. P.is_query q.0 × Q.is_query q.1 × R.is_query q.2 × S.is_query q.3 × T.is_query q.4 × U.is_query q.5 };

    ghost compare = { λ q x. ordering_then (ordering_then (ordering_then (ordering_then (ordering_then (P.compare q.0 x.0) (Q.compare q.1 x.1)) (R.compare q.2 x.2)) (S.compare q.3 x.3)) (T.compare q.4 x.4)) (U.compare q.5 x.5) };

    ghost are_bytes = { λ q is. All-append IsByte ((((P.encoded q.0 ++ Q.encoded q.1) ++ R.encoded q.2) ++ S.encoded q.3) ++ T.encoded q.4) (U.encoded q.5)
        (All-append IsByte (((P.encoded q.0 ++ Q.encoded q.1) ++ R.encoded q.2) ++ S.encoded q.3) (T.encoded q.4)
        (All-append IsByte ((P.encoded q.0 ++ Q.encoded q.1) ++ R.encoded q.2) (S.encoded q.3)
        (All-append IsByte (P.encoded q.0 ++ Q.encoded q.1) (R.encoded q.2)
        (All-append IsByte (P.encoded q.0) (Q.encoded q.1)
        (P.are_bytes q.0 is.0)
        (Q.are_bytes q.1 is.1))
        (R.are_bytes q.2 is.2))
        (S.are_bytes q.3 is.3))
        (T.are_bytes q.4 is.4))
        (U.are_bytes q.5 is.5) };

    ghost agrees = { λ q x q_is x_is short. joined_agree (ordering_then (ordering_then (ordering_then (ordering_then (P.compare q.0 x.0) (Q.compare q.1 x.1)) (R.compare q.2 x.2)) (S.compare q.3 x.3)) (T.compare q.4 x.4)) (U.compare q.5 x.5) ((((P.encoded q.0 ++ Q.encoded q.1) ++ R.encoded q.2) ++ S.encoded q.3) ++ T.encoded q.4) ((((A.encoded x.0 ++ B.encoded x.1) ++ C.encoded x.2) ++ D.encoded x.3) ++ E.encoded x.4) (U.encoded q.5) (F.encoded x.5)
        (joined_sort (ordering_then (ordering_then (ordering_then (P.compare q.0 x.0) (Q.compare q.1 x.1)) (R.compare q.2 x.2)) (S.compare q.3 x.3)) (T.compare q.4 x.4) (((P.encoded q.0 ++ Q.encoded q.1) ++ R.encoded q.2) ++ S.encoded q.3) (((A.encoded x.0 ++ B.encoded x.1) ++ C.encoded x.2) ++ D.encoded x.3) (T.encoded q.4) (E.encoded x.4)
        (joined_sort (ordering_then (ordering_then (P.compare q.0 x.0) (Q.compare q.1 x.1)) (R.compare q.2 x.2)) (S.compare q.3 x.3) ((P.encoded q.0 ++ Q.encoded q.1) ++ R.encoded q.2) ((A.encoded x.0 ++ B.encoded x.1) ++ C.encoded x.2) (S.encoded q.3) (D.encoded x.3)
        (joined_sort (ordering_then (P.compare q.0 x.0) (Q.compare q.1 x.1)) (R.compare q.2 x.2) (P.encoded q.0 ++ Q.encoded q.1) (A.encoded x.0 ++ B.encoded x.1) (R.encoded q.2) (C.encoded x.2)
        (joined_sort (P.compare q.0 x.0) (Q.compare q.1 x.1) (P.encoded q.0) (A.encoded x.0) (Q.encoded q.1) (B.encoded x.1)
        (P.sorted q.0 x.0 q_is.0 x_is.0)
        (Q.sorted q.1 x.1 q_is.1 x_is.1))
        (R.sorted q.2 x.2 q_is.2 x_is.2))
        (S.sorted q.3 x.3 q_is.3 x_is.3))
        (T.sorted q.4 x.4 q_is.4 x_is.4))
        (U.agrees q.5 x.5 q_is.5 x_is.5
        (later_short ((((A.encoded x.0 ++ B.encoded x.1) ++ C.encoded x.2) ++ D.encoded x.3) ++ E.encoded x.4) (F.encoded x.5) (2 ^ 32) short)) };

    fn compare(&self, key: &(A, B, C, D, E, F)) -> Ordering {
        let first = self.0.compare(&key.0);
        let second = self.1.compare(&key.1);
        let third = self.2.compare(&key.2);
        let fourth = self.3.compare(&key.3);
        let fifth = self.4.compare(&key.4);
        let sixth = self.5.compare(&key.5);
        first
            .then(second)
            .then(third)
            .then(fourth)
            .then(fifth)
            .then(sixth)
    }

    fn encoded_len(&self) -> usize {
        let whole = ((self.0, self.1, self.2, self.3, self.4), self.5);
        <_ as RadixQuery<((A, B, C, D, E), F)>>::encoded_len(&whole)
    }

    fn encoded_byte(&self, index: usize) -> u8 {
        let whole = ((self.0, self.1, self.2, self.3, self.4), self.5);
        <_ as RadixQuery<((A, B, C, D, E), F)>>::encoded_byte(&whole, index)
    }

    fn encoded_head(&self, skip: u32) -> u64 {
        let whole = ((self.0, self.1, self.2, self.3, self.4), self.5);
        <_ as RadixQuery<((A, B, C, D, E), F)>>::encoded_head(&whole, skip)
    }
}

impl<
    A: RadixKey,
    B: RadixKey,
    C: RadixKey,
    D: RadixKey,
    E: RadixKey,
    F: RadixKey,
    P: ExactQuery<A>,
    Q: ExactQuery<B>,
    R: ExactQuery<C>,
    S: ExactQuery<D>,
    T: ExactQuery<E>,
    U: ExactQuery<F>,
> ExactQuery<(A, B, C, D, E, F)> for (P, Q, R, S, T, U) {
    ghost sorted = { λ q x q_is x_is. joined_sort (ordering_then (ordering_then (ordering_then (ordering_then (P.compare q.0 x.0) (Q.compare q.1 x.1)) (R.compare q.2 x.2)) (S.compare q.3 x.3)) (T.compare q.4 x.4)) (U.compare q.5 x.5) ((((P.encoded q.0 ++ Q.encoded q.1) ++ R.encoded q.2) ++ S.encoded q.3) ++ T.encoded q.4) ((((A.encoded x.0 ++ B.encoded x.1) ++ C.encoded x.2) ++ D.encoded x.3) ++ E.encoded x.4) (U.encoded q.5) (F.encoded x.5)
        (joined_sort (ordering_then (ordering_then (ordering_then (P.compare q.0 x.0) (Q.compare q.1 x.1)) (R.compare q.2 x.2)) (S.compare q.3 x.3)) (T.compare q.4 x.4) (((P.encoded q.0 ++ Q.encoded q.1) ++ R.encoded q.2) ++ S.encoded q.3) (((A.encoded x.0 ++ B.encoded x.1) ++ C.encoded x.2) ++ D.encoded x.3) (T.encoded q.4) (E.encoded x.4)
        (joined_sort (ordering_then (ordering_then (P.compare q.0 x.0) (Q.compare q.1 x.1)) (R.compare q.2 x.2)) (S.compare q.3 x.3) ((P.encoded q.0 ++ Q.encoded q.1) ++ R.encoded q.2) ((A.encoded x.0 ++ B.encoded x.1) ++ C.encoded x.2) (S.encoded q.3) (D.encoded x.3)
        (joined_sort (ordering_then (P.compare q.0 x.0) (Q.compare q.1 x.1)) (R.compare q.2 x.2) (P.encoded q.0 ++ Q.encoded q.1) (A.encoded x.0 ++ B.encoded x.1) (R.encoded q.2) (C.encoded x.2)
        (joined_sort (P.compare q.0 x.0) (Q.compare q.1 x.1) (P.encoded q.0) (A.encoded x.0) (Q.encoded q.1) (B.encoded x.1)
        (P.sorted q.0 x.0 q_is.0 x_is.0)
        (Q.sorted q.1 x.1 q_is.1 x_is.1))
        (R.sorted q.2 x.2 q_is.2 x_is.2))
        (S.sorted q.3 x.3 q_is.3 x_is.3))
        (T.sorted q.4 x.4 q_is.4 x_is.4))
        (U.sorted q.5 x.5 q_is.5 x_is.5) };
}
