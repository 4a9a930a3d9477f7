//! Prefixes of tuples of six parts: queries for their first parts.
ghost use Rattle.std.specs.Prelude.{◌++◌, refl};
ghost use Rattle.std.specs.Ordering.{is_eq, ordering_then};
ghost use Rattle.std.proofs.lemmas.List.Elements.{All-append};
ghost use Rattle.art_bytes.specs.Text.{IsByte};
ghost use Rattle.art_keys.specs.EncodingLaws.{joined_sort};
ghost use Rattle.art_keys.specs.Prefixes.{edge_encoded};
ghost use Rattle.art_keys.specs.PrefixLaws.{
  edges_are_bytes,
  first_agree_1,
  first_agree_2,
  first_agree_3,
  first_agree_4,
  first_agree_5,
};

use crate::key::RadixKey;
use crate::prefix::{Edge, PrefixQuery};
use crate::query::{ExactQuery, RadixQuery};
use std::cmp::Ordering;

impl<
    A: RadixKey,
    B: RadixKey,
    C: RadixKey,
    D: RadixKey,
    E: RadixKey,
    F: RadixKey,
    P: ExactQuery<A>,
> PrefixQuery<(A, B, C, D, E, F)> for (P,) {
    ghost is_prefix = { λ q. P.is_query q.0 };

    ghost begins = { λ q x. is_eq (P.compare q.0 x.0) };

    ghost compare_start = { λ q x. P.compare q.0 x.0 };

    ghost bound_encoded = { λ q edge. P.encoded q.0 ++ edge_encoded edge };

    ghost begins_is = { λ _ _. refl };

    ghost are_bytes = { λ q edge is. All-append IsByte (P.encoded q.0) (edge_encoded edge)
        (P.are_bytes q.0 is) (edges_are_bytes edge) };

    ghost agrees = { λ q edge x q_is x_is rest rest_is short. first_agree_5 (P.compare q.0 x.0)
        edge (P.encoded q.0) (A.encoded x.0) (B.encoded x.1) (C.encoded x.2) (D.encoded x.3) (E.encoded x.4)
        (F.encoded x.5) rest
        (P.sorted q.0 x.0 q_is x_is.0)
        (B.are_bytes x.1 x_is.1) (C.are_bytes x.2 x_is.2) (D.are_bytes x.3 x_is.3) (E.are_bytes x.4 x_is.4)
        (F.are_bytes x.5 x_is.5) rest_is short };

    fn compare_start(&self, key: &(A, B, C, D, E, F)) -> Ordering {
        self.0.compare(&key.0)
    }

    fn bound_len(&self, edge: Edge) -> usize {
        let query = (self.0, edge);
        <_ as RadixQuery<(A, B)>>::encoded_len(&query)
    }

    fn bound_byte(&self, edge: Edge, index: usize) -> u8 {
        let query = (self.0, edge);
        <_ as RadixQuery<(A, B)>>::encoded_byte(&query, index)
    }
}

impl<
    A: RadixKey,
    B: RadixKey,
    C: RadixKey,
    D: RadixKey,
    E: RadixKey,
    F: RadixKey,
    P: ExactQuery<A>,
    Q: ExactQuery<B>,
> PrefixQuery<(A, B, C, D, E, F)> for (P, Q) {
    ghost is_prefix = { λ q. P.is_query q.0 × Q.is_query q.1 };

    ghost begins = { λ q x. is_eq (ordering_then (P.compare q.0 x.0) (Q.compare q.1 x.1)) };

    ghost compare_start = { λ q x. ordering_then (P.compare q.0 x.0) (Q.compare q.1 x.1) };

    ghost bound_encoded = { λ q edge. (P.encoded q.0 ++ Q.encoded q.1) ++ edge_encoded edge };

    ghost begins_is = { λ _ _. refl };

    ghost are_bytes = { λ q edge is. All-append IsByte (P.encoded q.0 ++ Q.encoded q.1) (edge_encoded edge)
        (All-append IsByte (P.encoded q.0) (Q.encoded q.1)
        (P.are_bytes q.0 is.0)
        (Q.are_bytes q.1 is.1)) (edges_are_bytes edge) };

    ghost agrees = { λ q edge x q_is x_is rest rest_is short. first_agree_4 (ordering_then (P.compare q.0
        x.0) (Q.compare q.1 x.1))
        edge (P.encoded q.0 ++ Q.encoded q.1) (A.encoded x.0 ++ B.encoded x.1) (C.encoded x.2) (D.encoded
        x.3) (E.encoded x.4) (F.encoded x.5) rest
        (joined_sort (P.compare q.0 x.0) (Q.compare q.1 x.1) (P.encoded q.0) (A.encoded x.0) (Q.encoded q.1)
        (B.encoded x.1)
        (P.sorted q.0 x.0 q_is.0 x_is.0)
        (Q.sorted q.1 x.1 q_is.1 x_is.1))
        (C.are_bytes x.2 x_is.2) (D.are_bytes x.3 x_is.3) (E.are_bytes x.4 x_is.4) (F.are_bytes x.5 x_is.5)
        rest_is short };

    fn compare_start(&self, key: &(A, B, C, D, E, F)) -> Ordering {
        let first = self.0.compare(&key.0);
        let second = self.1.compare(&key.1);
        first.then(second)
    }

    fn bound_len(&self, edge: Edge) -> usize {
        let query = (self.0, self.1, edge);
        <_ as RadixQuery<(A, B, C)>>::encoded_len(&query)
    }

    fn bound_byte(&self, edge: Edge, index: usize) -> u8 {
        let query = (self.0, self.1, edge);
        <_ as RadixQuery<(A, B, C)>>::encoded_byte(&query, index)
    }
}

impl<
    A: RadixKey,
    B: RadixKey,
    C: RadixKey,
    D: RadixKey,
    E: RadixKey,
    F: RadixKey,
    P: ExactQuery<A>,
    Q: ExactQuery<B>,
    R: ExactQuery<C>,
> PrefixQuery<(A, B, C, D, E, F)> for (P, Q, R) {
    ghost is_prefix = { λ q. P.is_query q.0 × Q.is_query q.1 × R.is_query q.2 };

    ghost begins = { λ q x. is_eq (ordering_then (ordering_then (P.compare q.0 x.0) (Q.compare q.1 x.1))
        (R.compare q.2 x.2)) };

    ghost compare_start = { λ q x. ordering_then (ordering_then (P.compare q.0 x.0) (Q.compare q.1 x.1))
        (R.compare q.2 x.2) };

    ghost bound_encoded = { λ q edge. ((P.encoded q.0 ++ Q.encoded q.1) ++ R.encoded q.2) ++ edge_encoded
        edge };

    ghost begins_is = { λ _ _. refl };

    ghost are_bytes = { λ q edge is. All-append IsByte ((P.encoded q.0 ++ Q.encoded q.1) ++ R.encoded q.2)
        (edge_encoded edge)
        (All-append IsByte (P.encoded q.0 ++ Q.encoded q.1) (R.encoded q.2)
        (All-append IsByte (P.encoded q.0) (Q.encoded q.1)
        (P.are_bytes q.0 is.0)
        (Q.are_bytes q.1 is.1))
        (R.are_bytes q.2 is.2)) (edges_are_bytes edge) };

    ghost agrees = { λ q edge x q_is x_is rest rest_is short. first_agree_3 (ordering_then (ordering_then
        (P.compare q.0 x.0) (Q.compare q.1 x.1)) (R.compare q.2 x.2))
        edge ((P.encoded q.0 ++ Q.encoded q.1) ++ R.encoded q.2) ((A.encoded x.0 ++ B.encoded x.1) ++
        C.encoded x.2) (D.encoded x.3) (E.encoded x.4) (F.encoded x.5) rest
        (joined_sort (ordering_then (P.compare q.0 x.0) (Q.compare q.1 x.1)) (R.compare q.2 x.2) (P.encoded
        q.0 ++ Q.encoded q.1) (A.encoded x.0 ++ B.encoded x.1) (R.encoded q.2) (C.encoded x.2)
        (joined_sort (P.compare q.0 x.0) (Q.compare q.1 x.1) (P.encoded q.0) (A.encoded x.0) (Q.encoded q.1)
        (B.encoded x.1)
        (P.sorted q.0 x.0 q_is.0 x_is.0)
        (Q.sorted q.1 x.1 q_is.1 x_is.1))
        (R.sorted q.2 x.2 q_is.2 x_is.2))
        (D.are_bytes x.3 x_is.3) (E.are_bytes x.4 x_is.4) (F.are_bytes x.5 x_is.5) rest_is short };

    fn compare_start(&self, key: &(A, B, C, D, E, F)) -> Ordering {
        let first = self.0.compare(&key.0);
        let second = self.1.compare(&key.1);
        let third = self.2.compare(&key.2);
        first.then(second).then(third)
    }

    fn bound_len(&self, edge: Edge) -> usize {
        let query = (self.0, self.1, self.2, edge);
        <_ as RadixQuery<(A, B, C, D)>>::encoded_len(&query)
    }

    fn bound_byte(&self, edge: Edge, index: usize) -> u8 {
        let query = (self.0, self.1, self.2, edge);
        <_ as RadixQuery<(A, B, C, D)>>::encoded_byte(&query, index)
    }
}

impl<
    A: RadixKey,
    B: RadixKey,
    C: RadixKey,
    D: RadixKey,
    E: RadixKey,
    F: RadixKey,
    P: ExactQuery<A>,
    Q: ExactQuery<B>,
    R: ExactQuery<C>,
    S: ExactQuery<D>,
> PrefixQuery<(A, B, C, D, E, F)> for (P, Q, R, S) {
    ghost is_prefix = { λ q. P.is_query q.0 × Q.is_query q.1 × R.is_query q.2 × S.is_query q.3 };

    ghost begins = { λ q x. is_eq (ordering_then (ordering_then (ordering_then (P.compare q.0 x.0)
        (Q.compare q.1 x.1)) (R.compare q.2 x.2)) (S.compare q.3 x.3)) };

    ghost compare_start = { λ q x. ordering_then (ordering_then (ordering_then (P.compare q.0 x.0)
        (Q.compare q.1 x.1)) (R.compare q.2 x.2)) (S.compare q.3 x.3) };

    ghost bound_encoded = { λ q edge. (((P.encoded q.0 ++ Q.encoded q.1) ++ R.encoded q.2) ++ S.encoded q.3)
        ++ edge_encoded edge };

    ghost begins_is = { λ _ _. refl };

    ghost are_bytes = { λ q edge is. All-append IsByte (((P.encoded q.0 ++ Q.encoded q.1) ++ R.encoded q.2)
        ++ S.encoded q.3) (edge_encoded edge)
        (All-append IsByte ((P.encoded q.0 ++ Q.encoded q.1) ++ R.encoded q.2) (S.encoded q.3)
        (All-append IsByte (P.encoded q.0 ++ Q.encoded q.1) (R.encoded q.2)
        (All-append IsByte (P.encoded q.0) (Q.encoded q.1)
        (P.are_bytes q.0 is.0)
        (Q.are_bytes q.1 is.1))
        (R.are_bytes q.2 is.2))
        (S.are_bytes q.3 is.3)) (edges_are_bytes edge) };

    ghost agrees = { λ q edge x q_is x_is rest rest_is short. first_agree_2 (ordering_then (ordering_then
        (ordering_then (P.compare q.0 x.0) (Q.compare q.1 x.1)) (R.compare q.2 x.2)) (S.compare q.3 x.3))
        edge (((P.encoded q.0 ++ Q.encoded q.1) ++ R.encoded q.2) ++ S.encoded q.3) (((A.encoded x.0 ++
        B.encoded x.1) ++ C.encoded x.2) ++ D.encoded x.3) (E.encoded x.4) (F.encoded x.5) rest
        (joined_sort (ordering_then (ordering_then (P.compare q.0 x.0) (Q.compare q.1 x.1)) (R.compare q.2
        x.2)) (S.compare q.3 x.3) ((P.encoded q.0 ++ Q.encoded q.1) ++ R.encoded q.2) ((A.encoded x.0 ++
        B.encoded x.1) ++ C.encoded x.2) (S.encoded q.3) (D.encoded x.3)
        (joined_sort (ordering_then (P.compare q.0 x.0) (Q.compare q.1 x.1)) (R.compare q.2 x.2) (P.encoded
        q.0 ++ Q.encoded q.1) (A.encoded x.0 ++ B.encoded x.1) (R.encoded q.2) (C.encoded x.2)
        (joined_sort (P.compare q.0 x.0) (Q.compare q.1 x.1) (P.encoded q.0) (A.encoded x.0) (Q.encoded q.1)
        (B.encoded x.1)
        (P.sorted q.0 x.0 q_is.0 x_is.0)
        (Q.sorted q.1 x.1 q_is.1 x_is.1))
        (R.sorted q.2 x.2 q_is.2 x_is.2))
        (S.sorted q.3 x.3 q_is.3 x_is.3))
        (E.are_bytes x.4 x_is.4) (F.are_bytes x.5 x_is.5) rest_is short };

    fn compare_start(&self, key: &(A, B, C, D, E, F)) -> Ordering {
        let first = self.0.compare(&key.0);
        let second = self.1.compare(&key.1);
        let third = self.2.compare(&key.2);
        let fourth = self.3.compare(&key.3);
        first.then(second).then(third).then(fourth)
    }

    fn bound_len(&self, edge: Edge) -> usize {
        let query = (self.0, self.1, self.2, self.3, edge);
        <_ as RadixQuery<(A, B, C, D, E)>>::encoded_len(&query)
    }

    fn bound_byte(&self, edge: Edge, index: usize) -> u8 {
        let query = (self.0, self.1, self.2, self.3, edge);
        <_ as RadixQuery<(A, B, C, D, E)>>::encoded_byte(&query, index)
    }
}

impl<
    A: RadixKey,
    B: RadixKey,
    C: RadixKey,
    D: RadixKey,
    E: RadixKey,
    F: RadixKey,
    P: ExactQuery<A>,
    Q: ExactQuery<B>,
    R: ExactQuery<C>,
    S: ExactQuery<D>,
    T: ExactQuery<E>,
> PrefixQuery<(A, B, C, D, E, F)> for (P, Q, R, S, T) {
    ghost is_prefix = { λ q. P.is_query q.0 × Q.is_query q.1 × R.is_query q.2 × S.is_query q.3 × T.is_query
        q.4 };

    ghost begins = { λ q x. is_eq (ordering_then (ordering_then (ordering_then (ordering_then (P.compare q.0
        x.0) (Q.compare q.1 x.1)) (R.compare q.2 x.2)) (S.compare q.3 x.3)) (T.compare q.4 x.4)) };

    ghost compare_start = { λ q x. ordering_then (ordering_then (ordering_then (ordering_then (P.compare q.0
        x.0) (Q.compare q.1 x.1)) (R.compare q.2 x.2)) (S.compare q.3 x.3)) (T.compare q.4 x.4) };

    ghost bound_encoded = { λ q edge. ((((P.encoded q.0 ++ Q.encoded q.1) ++ R.encoded q.2) ++ S.encoded
        q.3) ++ T.encoded q.4) ++ edge_encoded edge };

    ghost begins_is = { λ _ _. refl };

    ghost are_bytes = { λ q edge is. All-append IsByte ((((P.encoded q.0 ++ Q.encoded q.1) ++ R.encoded q.2)
        ++ S.encoded q.3) ++ T.encoded q.4) (edge_encoded edge)
        (All-append IsByte (((P.encoded q.0 ++ Q.encoded q.1) ++ R.encoded q.2) ++ S.encoded q.3) (T.encoded
        q.4)
        (All-append IsByte ((P.encoded q.0 ++ Q.encoded q.1) ++ R.encoded q.2) (S.encoded q.3)
        (All-append IsByte (P.encoded q.0 ++ Q.encoded q.1) (R.encoded q.2)
        (All-append IsByte (P.encoded q.0) (Q.encoded q.1)
        (P.are_bytes q.0 is.0)
        (Q.are_bytes q.1 is.1))
        (R.are_bytes q.2 is.2))
        (S.are_bytes q.3 is.3))
        (T.are_bytes q.4 is.4)) (edges_are_bytes edge) };

    ghost agrees = { λ q edge x q_is x_is rest rest_is short. first_agree_1 (ordering_then (ordering_then
        (ordering_then (ordering_then (P.compare q.0 x.0) (Q.compare q.1 x.1)) (R.compare q.2 x.2))
        (S.compare q.3 x.3)) (T.compare q.4 x.4))
        edge ((((P.encoded q.0 ++ Q.encoded q.1) ++ R.encoded q.2) ++ S.encoded q.3) ++ T.encoded q.4)
        ((((A.encoded x.0 ++ B.encoded x.1) ++ C.encoded x.2) ++ D.encoded x.3) ++ E.encoded x.4) (F.encoded
        x.5) rest
        (joined_sort (ordering_then (ordering_then (ordering_then (P.compare q.0 x.0) (Q.compare q.1 x.1))
        (R.compare q.2 x.2)) (S.compare q.3 x.3)) (T.compare q.4 x.4) (((P.encoded q.0 ++ Q.encoded q.1) ++
        R.encoded q.2) ++ S.encoded q.3) (((A.encoded x.0 ++ B.encoded x.1) ++ C.encoded x.2) ++ D.encoded
        x.3) (T.encoded q.4) (E.encoded x.4)
        (joined_sort (ordering_then (ordering_then (P.compare q.0 x.0) (Q.compare q.1 x.1)) (R.compare q.2
        x.2)) (S.compare q.3 x.3) ((P.encoded q.0 ++ Q.encoded q.1) ++ R.encoded q.2) ((A.encoded x.0 ++
        B.encoded x.1) ++ C.encoded x.2) (S.encoded q.3) (D.encoded x.3)
        (joined_sort (ordering_then (P.compare q.0 x.0) (Q.compare q.1 x.1)) (R.compare q.2 x.2) (P.encoded
        q.0 ++ Q.encoded q.1) (A.encoded x.0 ++ B.encoded x.1) (R.encoded q.2) (C.encoded x.2)
        (joined_sort (P.compare q.0 x.0) (Q.compare q.1 x.1) (P.encoded q.0) (A.encoded x.0) (Q.encoded q.1)
        (B.encoded x.1)
        (P.sorted q.0 x.0 q_is.0 x_is.0)
        (Q.sorted q.1 x.1 q_is.1 x_is.1))
        (R.sorted q.2 x.2 q_is.2 x_is.2))
        (S.sorted q.3 x.3 q_is.3 x_is.3))
        (T.sorted q.4 x.4 q_is.4 x_is.4))
        (F.are_bytes x.5 x_is.5) rest_is short };

    fn compare_start(&self, key: &(A, B, C, D, E, F)) -> Ordering {
        let first = self.0.compare(&key.0);
        let second = self.1.compare(&key.1);
        let third = self.2.compare(&key.2);
        let fourth = self.3.compare(&key.3);
        let fifth = self.4.compare(&key.4);
        first.then(second).then(third).then(fourth).then(fifth)
    }

    fn bound_len(&self, edge: Edge) -> usize {
        let query = (self.0, self.1, self.2, self.3, self.4, edge);
        <_ as RadixQuery<(A, B, C, D, E, F)>>::encoded_len(&query)
    }

    fn bound_byte(&self, edge: Edge, index: usize) -> u8 {
        let query = (self.0, self.1, self.2, self.3, self.4, edge);
        <_ as RadixQuery<(A, B, C, D, E, F)>>::encoded_byte(&query, index)
    }
}
