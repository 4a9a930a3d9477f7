//! Prefixes of tuples: queries for their first parts, of which the last is a prefix itself.
ghost use Rattle.std.specs.Prelude.{◌++◌, ◌&&◌};
ghost use Rattle.std.specs.Ordering.{is_eq, ordering_then};
ghost use Rattle.std.proofs.lemmas.List.Elements.{All-append};
ghost use Rattle.art_bytes.specs.Text.{IsByte};
ghost use Rattle.art_keys.specs.EncodingLaws.{joined_sort};
ghost use Rattle.art_keys.specs.PrefixLaws.{
  last_agrees_1,
  last_agrees_2,
  last_agrees_3,
  last_begins,
  start_agrees_1,
  start_agrees_2,
  start_agrees_3,
};

use crate::key::RadixKey;
use crate::prefix::{Edge, Prefix, PrefixBound, PrefixQuery};
use crate::query::{ExactQuery, RadixQuery};
use std::cmp::Ordering;

impl<A: RadixKey, B: RadixKey, P: PrefixQuery<A>> PrefixQuery<(A, B)> for Prefix<(P,)> {
    ghost is_prefix = { λ q. P.is_prefix q.0.0 };

    ghost begins = { λ q x. P.begins q.0.0 x.0 };

    ghost compare_start = { λ q x. P.compare_start q.0.0 x.0 };

    ghost bound_encoded = { λ q edge. P.bound_encoded q.0.0 edge };

    ghost begins_is = { λ q x. P.begins_is q.0.0 x.0 };

    ghost are_bytes = { λ q edge is. P.are_bytes q.0.0 edge is };

    ghost agrees = { λ q edge x q_is x_is rest rest_is short. start_agrees_1 (P.compare_start q.0.0 x.0) edge
        (P.bound_encoded q.0.0 edge) (A.encoded x.0) (B.encoded x.1) rest (P.agrees q.0.0 edge x.0 q_is
        x_is.0)
        (B.are_bytes x.1 x_is.1) rest_is short };

    fn compare_start(&self, key: &(A, B)) -> Ordering {
        self.0.0.compare_start(&key.0)
    }

    fn bound_len(&self, edge: Edge) -> usize {
        self.0.0.bound_len(edge)
    }

    fn bound_byte(&self, edge: Edge, index: usize) -> u8 {
        self.0.0.bound_byte(edge, index)
    }
}

impl<A: RadixKey, B: RadixKey, P: ExactQuery<A>, Q: PrefixQuery<B>> PrefixQuery<(A, B)>
    for Prefix<(P, Q)> {
    ghost is_prefix = { λ q. P.is_query q.0.0 × Q.is_prefix q.0.1 };

    ghost begins = { λ q x. is_eq (P.compare q.0.0 x.0) && Q.begins q.0.1 x.1 };

    ghost compare_start = { λ q x. ordering_then (P.compare q.0.0 x.0) (Q.compare_start q.0.1 x.1) };

    ghost bound_encoded = { λ q edge. P.encoded q.0.0 ++ Q.bound_encoded q.0.1 edge };

    ghost begins_is = { λ q x. last_begins (P.compare q.0.0 x.0) (Q.compare_start q.0.1 x.1)
        (Q.begins q.0.1 x.1) (Q.begins_is q.0.1 x.1) };

    ghost are_bytes = { λ q edge is. All-append IsByte (P.encoded q.0.0) (Q.bound_encoded q.0.1 edge)
        (P.are_bytes q.0.0 is.0) (Q.are_bytes q.0.1 edge is.1) };

    ghost agrees = { λ q edge x q_is x_is rest rest_is short. last_agrees_1 (P.compare q.0.0 x.0)
        (Q.compare_start q.0.1 x.1)
        edge (P.encoded q.0.0) (A.encoded x.0) (Q.bound_encoded q.0.1 edge) (B.encoded x.1) rest
        (P.sorted q.0.0 x.0 q_is.0 x_is.0)
        (Q.agrees q.0.1 edge x.1 q_is.1 x_is.1) rest_is short };

    fn compare_start(&self, key: &(A, B)) -> Ordering {
        let first = self.0.0.compare(&key.0);
        let second = self.0.1.compare_start(&key.1);
        first.then(second)
    }

    fn bound_len(&self, edge: Edge) -> usize {
        let bound = PrefixBound {
            prefix: self.0.1,
            edge,
        };
        let query = (self.0.0, bound);
        <_ as RadixQuery<(A, B)>>::encoded_len(&query)
    }

    fn bound_byte(&self, edge: Edge, index: usize) -> u8 {
        let bound = PrefixBound {
            prefix: self.0.1,
            edge,
        };
        let query = (self.0.0, bound);
        <_ as RadixQuery<(A, B)>>::encoded_byte(&query, index)
    }
}

impl<A: RadixKey, B: RadixKey, C: RadixKey, P: PrefixQuery<A>> PrefixQuery<(A, B, C)>
    for Prefix<(P,)> {
    ghost is_prefix = { λ q. P.is_prefix q.0.0 };

    ghost begins = { λ q x. P.begins q.0.0 x.0 };

    ghost compare_start = { λ q x. P.compare_start q.0.0 x.0 };

    ghost bound_encoded = { λ q edge. P.bound_encoded q.0.0 edge };

    ghost begins_is = { λ q x. P.begins_is q.0.0 x.0 };

    ghost are_bytes = { λ q edge is. P.are_bytes q.0.0 edge is };

    ghost agrees = { λ q edge x q_is x_is rest rest_is short. start_agrees_2 (P.compare_start q.0.0 x.0) edge
        (P.bound_encoded q.0.0 edge) (A.encoded x.0) (B.encoded x.1) (C.encoded x.2) rest (P.agrees q.0.0
        edge x.0 q_is x_is.0)
        (B.are_bytes x.1 x_is.1) (C.are_bytes x.2 x_is.2) rest_is short };

    fn compare_start(&self, key: &(A, B, C)) -> Ordering {
        self.0.0.compare_start(&key.0)
    }

    fn bound_len(&self, edge: Edge) -> usize {
        self.0.0.bound_len(edge)
    }

    fn bound_byte(&self, edge: Edge, index: usize) -> u8 {
        self.0.0.bound_byte(edge, index)
    }
}

impl<A: RadixKey, B: RadixKey, C: RadixKey, P: ExactQuery<A>, Q: PrefixQuery<B>> PrefixQuery<
    (A, B, C),
> for Prefix<(P, Q)> {
    ghost is_prefix = { λ q. P.is_query q.0.0 × Q.is_prefix q.0.1 };

    ghost begins = { λ q x. is_eq (P.compare q.0.0 x.0) && Q.begins q.0.1 x.1 };

    ghost compare_start = { λ q x. ordering_then (P.compare q.0.0 x.0) (Q.compare_start q.0.1 x.1) };

    ghost bound_encoded = { λ q edge. P.encoded q.0.0 ++ Q.bound_encoded q.0.1 edge };

    ghost begins_is = { λ q x. last_begins (P.compare q.0.0 x.0) (Q.compare_start q.0.1 x.1)
        (Q.begins q.0.1 x.1) (Q.begins_is q.0.1 x.1) };

    ghost are_bytes = { λ q edge is. All-append IsByte (P.encoded q.0.0) (Q.bound_encoded q.0.1 edge)
        (P.are_bytes q.0.0 is.0) (Q.are_bytes q.0.1 edge is.1) };

    ghost agrees = { λ q edge x q_is x_is rest rest_is short. last_agrees_2 (P.compare q.0.0 x.0)
        (Q.compare_start q.0.1 x.1)
        edge (P.encoded q.0.0) (A.encoded x.0) (Q.bound_encoded q.0.1 edge) (B.encoded x.1) (C.encoded x.2)
        rest
        (P.sorted q.0.0 x.0 q_is.0 x_is.0)
        (Q.agrees q.0.1 edge x.1 q_is.1 x_is.1) (C.are_bytes x.2 x_is.2) rest_is short };

    fn compare_start(&self, key: &(A, B, C)) -> Ordering {
        let first = self.0.0.compare(&key.0);
        let second = self.0.1.compare_start(&key.1);
        first.then(second)
    }

    fn bound_len(&self, edge: Edge) -> usize {
        let bound = PrefixBound {
            prefix: self.0.1,
            edge,
        };
        let query = (self.0.0, bound);
        <_ as RadixQuery<(A, B)>>::encoded_len(&query)
    }

    fn bound_byte(&self, edge: Edge, index: usize) -> u8 {
        let bound = PrefixBound {
            prefix: self.0.1,
            edge,
        };
        let query = (self.0.0, bound);
        <_ as RadixQuery<(A, B)>>::encoded_byte(&query, index)
    }
}

impl<
    A: RadixKey,
    B: RadixKey,
    C: RadixKey,
    P: ExactQuery<A>,
    Q: ExactQuery<B>,
    R: PrefixQuery<C>,
> PrefixQuery<(A, B, C)> for Prefix<(P, Q, R)> {
    ghost is_prefix = { λ q. P.is_query q.0.0 × Q.is_query q.0.1 × R.is_prefix q.0.2 };

    ghost begins = { λ q x. is_eq (ordering_then (P.compare q.0.0 x.0) (Q.compare q.0.1 x.1)) && R.begins
        q.0.2 x.2 };

    ghost compare_start = { λ q x. ordering_then (ordering_then (P.compare q.0.0 x.0) (Q.compare q.0.1 x.1))
        (R.compare_start q.0.2 x.2) };

    ghost bound_encoded = { λ q edge. (P.encoded q.0.0 ++ Q.encoded q.0.1) ++ R.bound_encoded q.0.2 edge };

    ghost begins_is = { λ q x. last_begins (ordering_then (P.compare q.0.0 x.0) (Q.compare q.0.1 x.1))
        (R.compare_start q.0.2 x.2)
        (R.begins q.0.2 x.2) (R.begins_is q.0.2 x.2) };

    ghost are_bytes = { λ q edge is. All-append IsByte (P.encoded q.0.0 ++ Q.encoded q.0.1) (R.bound_encoded
        q.0.2 edge)
        (All-append IsByte (P.encoded q.0.0) (Q.encoded q.0.1)
        (P.are_bytes q.0.0 is.0)
        (Q.are_bytes q.0.1 is.1)) (R.are_bytes q.0.2 edge is.2) };

    ghost agrees = { λ q edge x q_is x_is rest rest_is short. last_agrees_1 (ordering_then (P.compare q.0.0
        x.0) (Q.compare q.0.1 x.1)) (R.compare_start q.0.2 x.2)
        edge (P.encoded q.0.0 ++ Q.encoded q.0.1) (A.encoded x.0 ++ B.encoded x.1) (R.bound_encoded q.0.2
        edge) (C.encoded x.2) rest
        (joined_sort (P.compare q.0.0 x.0) (Q.compare q.0.1 x.1) (P.encoded q.0.0) (A.encoded x.0)
        (Q.encoded q.0.1) (B.encoded x.1)
        (P.sorted q.0.0 x.0 q_is.0 x_is.0)
        (Q.sorted q.0.1 x.1 q_is.1 x_is.1))
        (R.agrees q.0.2 edge x.2 q_is.2 x_is.2) rest_is short };

    fn compare_start(&self, key: &(A, B, C)) -> Ordering {
        let first = self.0.0.compare(&key.0);
        let second = self.0.1.compare(&key.1);
        let third = self.0.2.compare_start(&key.2);
        first.then(second).then(third)
    }

    fn bound_len(&self, edge: Edge) -> usize {
        let bound = PrefixBound {
            prefix: self.0.2,
            edge,
        };
        let query = (self.0.0, self.0.1, bound);
        <_ as RadixQuery<(A, B, C)>>::encoded_len(&query)
    }

    fn bound_byte(&self, edge: Edge, index: usize) -> u8 {
        let bound = PrefixBound {
            prefix: self.0.2,
            edge,
        };
        let query = (self.0.0, self.0.1, bound);
        <_ as RadixQuery<(A, B, C)>>::encoded_byte(&query, index)
    }
}

impl<A: RadixKey, B: RadixKey, C: RadixKey, D: RadixKey, P: PrefixQuery<A>> PrefixQuery<
    (A, B, C, D),
> for Prefix<(P,)> {
    ghost is_prefix = { λ q. P.is_prefix q.0.0 };

    ghost begins = { λ q x. P.begins q.0.0 x.0 };

    ghost compare_start = { λ q x. P.compare_start q.0.0 x.0 };

    ghost bound_encoded = { λ q edge. P.bound_encoded q.0.0 edge };

    ghost begins_is = { λ q x. P.begins_is q.0.0 x.0 };

    ghost are_bytes = { λ q edge is. P.are_bytes q.0.0 edge is };

    ghost agrees = { λ q edge x q_is x_is rest rest_is short. start_agrees_3 (P.compare_start q.0.0 x.0) edge
        (P.bound_encoded q.0.0 edge) (A.encoded x.0) (B.encoded x.1) (C.encoded x.2) (D.encoded x.3) rest
        (P.agrees q.0.0 edge x.0 q_is x_is.0)
        (B.are_bytes x.1 x_is.1) (C.are_bytes x.2 x_is.2) (D.are_bytes x.3 x_is.3) rest_is short };

    fn compare_start(&self, key: &(A, B, C, D)) -> Ordering {
        self.0.0.compare_start(&key.0)
    }

    fn bound_len(&self, edge: Edge) -> usize {
        self.0.0.bound_len(edge)
    }

    fn bound_byte(&self, edge: Edge, index: usize) -> u8 {
        self.0.0.bound_byte(edge, index)
    }
}

impl<
    A: RadixKey,
    B: RadixKey,
    C: RadixKey,
    D: RadixKey,
    P: ExactQuery<A>,
    Q: PrefixQuery<B>,
> PrefixQuery<(A, B, C, D)> for Prefix<(P, Q)> {
    ghost is_prefix = { λ q. P.is_query q.0.0 × Q.is_prefix q.0.1 };

    ghost begins = { λ q x. is_eq (P.compare q.0.0 x.0) && Q.begins q.0.1 x.1 };

    ghost compare_start = { λ q x. ordering_then (P.compare q.0.0 x.0) (Q.compare_start q.0.1 x.1) };

    ghost bound_encoded = { λ q edge. P.encoded q.0.0 ++ Q.bound_encoded q.0.1 edge };

    ghost begins_is = { λ q x. last_begins (P.compare q.0.0 x.0) (Q.compare_start q.0.1 x.1)
        (Q.begins q.0.1 x.1) (Q.begins_is q.0.1 x.1) };

    ghost are_bytes = { λ q edge is. All-append IsByte (P.encoded q.0.0) (Q.bound_encoded q.0.1 edge)
        (P.are_bytes q.0.0 is.0) (Q.are_bytes q.0.1 edge is.1) };

    ghost agrees = { λ q edge x q_is x_is rest rest_is short. last_agrees_3 (P.compare q.0.0 x.0)
        (Q.compare_start q.0.1 x.1)
        edge (P.encoded q.0.0) (A.encoded x.0) (Q.bound_encoded q.0.1 edge) (B.encoded x.1) (C.encoded x.2)
        (D.encoded x.3) rest
        (P.sorted q.0.0 x.0 q_is.0 x_is.0)
        (Q.agrees q.0.1 edge x.1 q_is.1 x_is.1) (C.are_bytes x.2 x_is.2) (D.are_bytes x.3 x_is.3) rest_is
        short };

    fn compare_start(&self, key: &(A, B, C, D)) -> Ordering {
        let first = self.0.0.compare(&key.0);
        let second = self.0.1.compare_start(&key.1);
        first.then(second)
    }

    fn bound_len(&self, edge: Edge) -> usize {
        let bound = PrefixBound {
            prefix: self.0.1,
            edge,
        };
        let query = (self.0.0, bound);
        <_ as RadixQuery<(A, B)>>::encoded_len(&query)
    }

    fn bound_byte(&self, edge: Edge, index: usize) -> u8 {
        let bound = PrefixBound {
            prefix: self.0.1,
            edge,
        };
        let query = (self.0.0, bound);
        <_ as RadixQuery<(A, B)>>::encoded_byte(&query, index)
    }
}

impl<
    A: RadixKey,
    B: RadixKey,
    C: RadixKey,
    D: RadixKey,
    P: ExactQuery<A>,
    Q: ExactQuery<B>,
    R: PrefixQuery<C>,
> PrefixQuery<(A, B, C, D)> for Prefix<(P, Q, R)> {
    ghost is_prefix = { λ q. P.is_query q.0.0 × Q.is_query q.0.1 × R.is_prefix q.0.2 };

    ghost begins = { λ q x. is_eq (ordering_then (P.compare q.0.0 x.0) (Q.compare q.0.1 x.1)) && R.begins
        q.0.2 x.2 };

    ghost compare_start = { λ q x. ordering_then (ordering_then (P.compare q.0.0 x.0) (Q.compare q.0.1 x.1))
        (R.compare_start q.0.2 x.2) };

    ghost bound_encoded = { λ q edge. (P.encoded q.0.0 ++ Q.encoded q.0.1) ++ R.bound_encoded q.0.2 edge };

    ghost begins_is = { λ q x. last_begins (ordering_then (P.compare q.0.0 x.0) (Q.compare q.0.1 x.1))
        (R.compare_start q.0.2 x.2)
        (R.begins q.0.2 x.2) (R.begins_is q.0.2 x.2) };

    ghost are_bytes = { λ q edge is. All-append IsByte (P.encoded q.0.0 ++ Q.encoded q.0.1) (R.bound_encoded
        q.0.2 edge)
        (All-append IsByte (P.encoded q.0.0) (Q.encoded q.0.1)
        (P.are_bytes q.0.0 is.0)
        (Q.are_bytes q.0.1 is.1)) (R.are_bytes q.0.2 edge is.2) };

    ghost agrees = { λ q edge x q_is x_is rest rest_is short. last_agrees_2 (ordering_then (P.compare q.0.0
        x.0) (Q.compare q.0.1 x.1)) (R.compare_start q.0.2 x.2)
        edge (P.encoded q.0.0 ++ Q.encoded q.0.1) (A.encoded x.0 ++ B.encoded x.1) (R.bound_encoded q.0.2
        edge) (C.encoded x.2) (D.encoded x.3) rest
        (joined_sort (P.compare q.0.0 x.0) (Q.compare q.0.1 x.1) (P.encoded q.0.0) (A.encoded x.0)
        (Q.encoded q.0.1) (B.encoded x.1)
        (P.sorted q.0.0 x.0 q_is.0 x_is.0)
        (Q.sorted q.0.1 x.1 q_is.1 x_is.1))
        (R.agrees q.0.2 edge x.2 q_is.2 x_is.2) (D.are_bytes x.3 x_is.3) rest_is short };

    fn compare_start(&self, key: &(A, B, C, D)) -> Ordering {
        let first = self.0.0.compare(&key.0);
        let second = self.0.1.compare(&key.1);
        let third = self.0.2.compare_start(&key.2);
        first.then(second).then(third)
    }

    fn bound_len(&self, edge: Edge) -> usize {
        let bound = PrefixBound {
            prefix: self.0.2,
            edge,
        };
        let query = (self.0.0, self.0.1, bound);
        <_ as RadixQuery<(A, B, C)>>::encoded_len(&query)
    }

    fn bound_byte(&self, edge: Edge, index: usize) -> u8 {
        let bound = PrefixBound {
            prefix: self.0.2,
            edge,
        };
        let query = (self.0.0, self.0.1, bound);
        <_ as RadixQuery<(A, B, C)>>::encoded_byte(&query, index)
    }
}

impl<
    A: RadixKey,
    B: RadixKey,
    C: RadixKey,
    D: RadixKey,
    P: ExactQuery<A>,
    Q: ExactQuery<B>,
    R: ExactQuery<C>,
    S: PrefixQuery<D>,
> PrefixQuery<(A, B, C, D)> for Prefix<(P, Q, R, S)> {
    ghost is_prefix = { λ q. P.is_query q.0.0 × Q.is_query q.0.1 × R.is_query q.0.2 × S.is_prefix q.0.3 };

    ghost begins = { λ q x. is_eq (ordering_then (ordering_then (P.compare q.0.0 x.0) (Q.compare q.0.1 x.1))
        (R.compare q.0.2 x.2)) && S.begins q.0.3 x.3 };

    ghost compare_start = { λ q x. ordering_then (ordering_then (ordering_then (P.compare q.0.0 x.0)
        (Q.compare q.0.1 x.1)) (R.compare q.0.2 x.2)) (S.compare_start q.0.3 x.3) };

    ghost bound_encoded = { λ q edge. ((P.encoded q.0.0 ++ Q.encoded q.0.1) ++ R.encoded q.0.2) ++
        S.bound_encoded q.0.3 edge };

    ghost begins_is = { λ q x. last_begins (ordering_then (ordering_then (P.compare q.0.0 x.0) (Q.compare
        q.0.1 x.1)) (R.compare q.0.2 x.2)) (S.compare_start q.0.3 x.3)
        (S.begins q.0.3 x.3) (S.begins_is q.0.3 x.3) };

    ghost are_bytes = { λ q edge is. All-append IsByte ((P.encoded q.0.0 ++ Q.encoded q.0.1) ++ R.encoded
        q.0.2) (S.bound_encoded q.0.3 edge)
        (All-append IsByte (P.encoded q.0.0 ++ Q.encoded q.0.1) (R.encoded q.0.2)
        (All-append IsByte (P.encoded q.0.0) (Q.encoded q.0.1)
        (P.are_bytes q.0.0 is.0)
        (Q.are_bytes q.0.1 is.1))
        (R.are_bytes q.0.2 is.2)) (S.are_bytes q.0.3 edge is.3) };

    ghost agrees = { λ q edge x q_is x_is rest rest_is short. last_agrees_1 (ordering_then (ordering_then
        (P.compare q.0.0 x.0) (Q.compare q.0.1 x.1)) (R.compare q.0.2 x.2)) (S.compare_start q.0.3 x.3)
        edge ((P.encoded q.0.0 ++ Q.encoded q.0.1) ++ R.encoded q.0.2) ((A.encoded x.0 ++ B.encoded x.1) ++
        C.encoded x.2) (S.bound_encoded q.0.3 edge) (D.encoded x.3) rest
        (joined_sort (ordering_then (P.compare q.0.0 x.0) (Q.compare q.0.1 x.1)) (R.compare q.0.2 x.2)
        (P.encoded q.0.0 ++ Q.encoded q.0.1) (A.encoded x.0 ++ B.encoded x.1) (R.encoded q.0.2) (C.encoded
        x.2)
        (joined_sort (P.compare q.0.0 x.0) (Q.compare q.0.1 x.1) (P.encoded q.0.0) (A.encoded x.0)
        (Q.encoded q.0.1) (B.encoded x.1)
        (P.sorted q.0.0 x.0 q_is.0 x_is.0)
        (Q.sorted q.0.1 x.1 q_is.1 x_is.1))
        (R.sorted q.0.2 x.2 q_is.2 x_is.2))
        (S.agrees q.0.3 edge x.3 q_is.3 x_is.3) rest_is short };

    fn compare_start(&self, key: &(A, B, C, D)) -> Ordering {
        let first = self.0.0.compare(&key.0);
        let second = self.0.1.compare(&key.1);
        let third = self.0.2.compare(&key.2);
        let fourth = self.0.3.compare_start(&key.3);
        first.then(second).then(third).then(fourth)
    }

    fn bound_len(&self, edge: Edge) -> usize {
        let bound = PrefixBound {
            prefix: self.0.3,
            edge,
        };
        let query = (self.0.0, self.0.1, self.0.2, bound);
        <_ as RadixQuery<(A, B, C, D)>>::encoded_len(&query)
    }

    fn bound_byte(&self, edge: Edge, index: usize) -> u8 {
        let bound = PrefixBound {
            prefix: self.0.3,
            edge,
        };
        let query = (self.0.0, self.0.1, self.0.2, bound);
        <_ as RadixQuery<(A, B, C, D)>>::encoded_byte(&query, index)
    }
}
