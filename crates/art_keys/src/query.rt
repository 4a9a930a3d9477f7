//! Queries: a key behind a reference, borrowed forms of a key, and bounds.
ghost use Rattle.std.specs.Prelude.{◌≡◌, ℕ, ◌<◌, ◌^◌, List, ◌++◌, length, get_or};
ghost use Rattle.std.specs.Ordering.{ordering_then};
ghost use Rattle.std.specs.declared.cmp.Ordering.{Ordering};
ghost use Rattle.std.proofs.lemmas.List.Elements.{All-append};
ghost use Rattle.art_bytes.specs.Text.{IsByte, IsText, text_order};
ghost use Rattle.art_keys.specs.Encoding.{SortedBy, Agrees, saturated};
ghost use Rattle.art_keys.specs.EncodingLaws.{joined_sort, joined_agree, sorted_agrees, later_short};
ghost use Rattle.art_keys.specs.Heads.{head_at};

use crate::key::RadixKey;
use std::cmp::Ordering;

/// What a map with keys `K` is asked for: a key behind a reference, a borrowed form of one, as `&str`
/// for `String` and `&[u8]` for `Vec<u8>`, a tuple of such, or a bound between keys.
///
/// (from crates/art_key_tests/src/parts.rt)
/// ```rust
/// pub fn ask<K: RadixKey, Q: RadixQuery<K>>(query: Q, key: &K) -> Ordering
///     ensures { result ≡ Q.compare query key.now }
/// {
///     query.compare(key)
/// }
/// // ..
/// pub fn is_release(key: &(String, Reverse<u32>), name: &str, number: &Reverse<u32>) -> bool {
///     ask((name, number), key).is_eq()
/// }
/// ```
pub trait RadixQuery<K: RadixKey>: Copy {
    /// The bytes of the encoding.
    ghost encoded: { Self → List ℕ };

    /// Which values the type has.
    ghost is_query: { Self → Type 0 };

    /// What `compare` returns.
    ghost compare: { Self → K → Ordering };

    /// How the query compares to a key. Its cost is that of `cmp`.
    fn compare(&self, key: &K) -> Ordering
        ensures { result ≡ compare self.now key.now };

    /// How many bytes the encoding has, and `usize::MAX` where they are more. Constant time.
    fn encoded_len(&self) -> usize
        ensures len { result ≡ saturated (length (encoded self.now)) }
        ensures query { is_query self.now };

    /// The byte at `index` of the encoding. Condition: `index` is less than `encoded_len`. Constant time.
    fn encoded_byte(&self, index: usize) -> u8
        requires { index < saturated (length (encoded self.now)) }
        ensures { result ≡ get_or (encoded self.now) index 0 };

    /// The head behind the first `skip` bytes, as [`RadixKey::encoded_head`] has it.
    fn encoded_head(&self, skip: u32) -> u64
        ensures { result ≡ head_at skip (encoded self.now) };

    /// Each item of the encoding is a byte.
    ghost are_bytes: { (q : Self) → is_query q → IsText (encoded q) };

    /// Where the encoding of a query is below or above that of a key, so is the query. Said of keys
    /// whose encodings are shorter than 2^32, as those in an index are.
    ghost agrees: { (q : Self) (x : K) → is_query q → K.is_key x → length (K.encoded x) < 2 ^ 32 →
        Agrees (text_order (encoded q) (K.encoded x)) (compare q x) };
}

/// A query that stands for one key, and no bound: so it may be followed by others in a tuple.
///
/// `&K`, `&str`, `&[u8]` and tuples of such are. [`RadixQuery`] has an example.
pub trait ExactQuery<K: RadixKey>: RadixQuery<K> {
    /// The encoding of a query and that of a key sort as the query and the key do, whatever follows
    /// them.
    ghost sorted: { (q : Self) (x : K) → Self.is_query q → K.is_key x →
        SortedBy (Self.compare q x) (Self.encoded q) (K.encoded x) };
}

impl<K: RadixKey> RadixQuery<K> for &K {
    ghost encoded = { λ q. K.encoded q.now };

    ghost is_query = { λ q. K.is_key q.now };

    ghost compare = { λ q. K.cmp q.now };

    ghost are_bytes = { λ q. K.are_bytes q.now };

    ghost agrees = { λ q x q_is x_is _. sorted_agrees (K.cmp q.now x) (K.encoded q.now) (K.encoded x)
        (K.sorted q.now x q_is x_is) };

    fn compare(&self, key: &K) -> Ordering {
        (*self).cmp(key)
    }

    fn encoded_len(&self) -> usize {
        (**self).encoded_len()
    }

    fn encoded_byte(&self, index: usize) -> u8 {
        (**self).encoded_byte(index)
    }

    fn encoded_head(&self, skip: u32) -> u64 {
        (**self).encoded_head(skip)
    }
}

impl<K: RadixKey> ExactQuery<K> for &K {
    ghost sorted = { λ q x. K.sorted q.now x };
}

impl<A: RadixKey, B: RadixKey, P: ExactQuery<A>, Q: RadixQuery<B>> RadixQuery<(A, B)> for (P, Q) {
    ghost encoded = { λ q. P.encoded q.0 ++ Q.encoded q.1 };

    ghost is_query = { λ q. P.is_query q.0 × Q.is_query q.1 };

    ghost compare = { λ q x. ordering_then (P.compare q.0 x.0) (Q.compare q.1 x.1) };

    ghost are_bytes = { λ q is. All-append IsByte (P.encoded q.0) (Q.encoded q.1)
        (P.are_bytes q.0 is.0) (Q.are_bytes q.1 is.1) };

    ghost agrees = { λ q x q_is x_is short. joined_agree (P.compare q.0 x.0) (Q.compare q.1 x.1)
        (P.encoded q.0) (A.encoded x.0) (Q.encoded q.1) (B.encoded x.1)
        (P.sorted q.0 x.0 q_is.0 x_is.0) (Q.agrees q.1 x.1 q_is.1 x_is.1
        (later_short (A.encoded x.0) (B.encoded x.1) (2 ^ 32) short)) };

    fn compare(&self, key: &(A, B)) -> Ordering {
        let first = self.0.compare(&key.0);
        let later = self.1.compare(&key.1);
        first.then(later)
    }

    fn encoded_len(&self) -> usize {
        self.0.encoded_len().saturating_add(self.1.encoded_len())
    }

    fn encoded_byte(&self, index: usize) -> u8 {
        let first = self.0.encoded_len();
        if index < first {
            self.0.encoded_byte(index)
        } else {
            self.1.encoded_byte(index - first)
        }
    }

    fn encoded_head(&self, skip: u32) -> u64 {
        let first = self.0.encoded_len();
        let start = skip as usize;
        if first <= start {
            return self.1.encoded_head((start - first) as u32);
        }
        let front = self.0.encoded_head(skip);
        let left = first - start;
        if 8 <= left {
            return front;
        }
        // For the proof alone: the query is one of its type.
        let _later = self.1.encoded_len();
        front + (self.1.encoded_head(0) >> (8 * left))
    }
}

impl<A: RadixKey, B: RadixKey, P: ExactQuery<A>, Q: ExactQuery<B>> ExactQuery<(A, B)> for (P, Q) {
    ghost sorted = { λ q x q_is x_is. joined_sort (P.compare q.0 x.0) (Q.compare q.1 x.1)
        (P.encoded q.0) (A.encoded x.0) (Q.encoded q.1) (B.encoded x.1)
        (P.sorted q.0 x.0 q_is.0 x_is.0) (Q.sorted q.1 x.1 q_is.1 x_is.1) };
}
