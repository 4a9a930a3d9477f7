//! What a key is, and keys that are made of others: pairs and `Reverse`.
ghost use Rattle.std.specs.Prelude.{◌≡◌, ℕ, ◌<◌, List, ◌++◌, length, get_or};
ghost use Rattle.std.specs.declared.cmp.Ordering.{Ordering};
ghost use Rattle.std.specs.Ordering.{ordering_then, nat_cmp, int_cmp};
ghost use Rattle.std.specs.Cmp.Lexicographic.{slice_cmp};
ghost use Rattle.std.specs.Prelude.{refl};
ghost use Rattle.std.proofs.Common.{rules};
ghost use Rattle.std.proofs.lemmas.List.Elements.{All-append};
ghost use Rattle.art_bytes.specs.Text.{IsByte, IsText};
ghost use Rattle.art_mapped.specs.Numbers.{digits, IsUnsigned};
ghost use Rattle.art_mapped.specs.NumberLaws.{unsigned_keep};
ghost use Rattle.art_keys.specs.Encoding.{SortedBy, saturated, complemented};
ghost use Rattle.art_keys.specs.Heads.{head_at};
ghost use Rattle.art_keys.specs.EncodingLaws.{width_sorts, joined_sort, complements_sort, complements_are_bytes, reversed_order, pair_order};

use crate::query::RadixQuery;
use std::cmp::Reverse;

/// What proofs know of a key: its encoding, its values and their order.
///
/// It has no methods and no bounds, so that a struct generic in a `K: KeyBytes` costs its callers'
/// proofs little; methods that read keys are bounded by [`RadixKey`].
///
/// (from crates/art_key_tests/src/own_key.rt)
/// ```rust
/// impl<N: KeyBytes, R: KeyBytes> KeyBytes for Numbered<N, R> {
///     ghost encoded = { λ it. N.encoded it.name ++ R.encoded it.number };
///     // ..
/// }
/// ```
pub trait KeyBytes {
    /// The bytes of the encoding.
    ghost encoded: { Self → List ℕ };

    /// Which values the type has, as 0 to 65535 for `u16`: in a law a number is any number.
    ghost is_key: { Self → Type 0 };

    /// The order of the keys.
    ghost order: { Self → Self → Ordering };
}

/// A key of an ordered map: a value with an encoding, bytes that sort as the keys do and of which none
/// is a proper prefix of another's.
///
/// A tree reads the encoding one byte at a time, and no memory is taken for it. Which bytes they are
/// is not promised, only what the laws say of them. Encodings of numbers, `bool`, `char`, addresses
/// and arrays have one length; those of strings and byte strings end in a mark; those of `Option`,
/// `Reverse` and tuples are made of those of their parts.
///
/// (from crates/art_key_tests/src/parts.rt)
/// ```rust
/// pub fn first_byte<K: RadixKey>(key: &K) -> u8
///     ensures { result ≡ get_or (K.encoded key.now) 0 0 }
/// {
///     if 0 < key.encoded_len() {
///         key.encoded_byte(0)
///     } else {
///         0
///     }
/// }
/// ```
pub trait RadixKey: KeyBytes + Ord + Sized {
    /// Whether a search among such keys is faster by their heads, kept beside them, than by `cmp`: true
    /// of strings, byte strings, arrays of more than 16 bytes, and keys that have such a part.
    const WANTS_HEADS: bool;

    /// How many bytes the encoding has, and `usize::MAX` where they are more. Constant time.
    fn encoded_len(&self) -> usize
        ensures len { result ≡ saturated (length (Self.encoded self.now)) }
        ensures key { Self.is_key self.now };

    /// The byte at `index` of the encoding. Condition: `index` is less than `encoded_len`. Constant time,
    /// for a tuple linear in its parts.
    fn encoded_byte(&self, index: usize) -> u8
        requires { index < saturated (length (Self.encoded self.now)) }
        ensures { result ≡ get_or (Self.encoded self.now) index 0 };

    /// The head behind the first `skip` bytes: the next eight bytes of the encoding as a number, the
    /// first the most significant, with zeros behind the end. Constant time.
    ///
    /// Where two encodings agree in the first `skip` bytes, the key with the lesser head is less
    /// (law [`heads_sort`](crate::laws::heads_sort)); equal heads decide nothing.
    ///
    /// (from crates/art_key_tests/src/parts.rt)
    /// ```rust
    /// pub fn head(key: &(u32, String, u64)) -> u64 {
    ///     key.encoded_head(4)
    /// }
    /// ```
    fn encoded_head(&self, skip: u32) -> u64
        ensures { result ≡ head_at skip (Self.encoded self.now) }
    {
        let end = self.encoded_len();
        let start = skip as usize;
        let mut head = 0;
        for place in 0..8 {
            let index = start + place;
            let byte = if index < end {
                self.encoded_byte(index)
            } else {
                0 // behind the end
            };
            head = head * 256 + byte as u64;
        }
        head
    }

    /// Each item of the encoding is a byte.
    ghost are_bytes: { (x : Self) → Self.is_key x → IsText (Self.encoded x) };

    /// The encodings sort as the keys do, whatever follows them: so none is a proper prefix of another,
    /// and one may stand before another, as in a tuple.
    ghost sorted: { (x y : Self) → Self.is_key x → Self.is_key y →
        SortedBy (Self.cmp x y) (Self.encoded x) (Self.encoded y) };

    /// The order of [`KeyBytes`] is that of `Ord`.
    ghost ordered: { Self.order ≡ Self.cmp };
}

impl<A: KeyBytes, B: KeyBytes> KeyBytes for (A, B) {
    ghost encoded = { λ t. A.encoded t.0 ++ B.encoded t.1 };

    ghost is_key = { λ t. A.is_key t.0 × B.is_key t.1 };

    ghost order = { λ x y. ordering_then (A.order x.0 y.0) (B.order x.1 y.1) };
}

impl<A: RadixKey, B: RadixKey> RadixKey for (A, B) {
    const WANTS_HEADS: bool = A::WANTS_HEADS || B::WANTS_HEADS;

    ghost ordered = { pair_order A.ordered B.ordered };

    ghost are_bytes = { λ t is. All-append IsByte (A.encoded t.0) (B.encoded t.1)
        (A.are_bytes t.0 is.0) (B.are_bytes t.1 is.1) };

    ghost sorted = { λ x y x_is y_is. joined_sort (A.cmp x.0 y.0) (B.cmp x.1 y.1) (A.encoded x.0)
        (A.encoded y.0) (B.encoded x.1) (B.encoded y.1) (A.sorted x.0 y.0 x_is.0 y_is.0)
        (B.sorted x.1 y.1 x_is.1 y_is.1) };

    fn encoded_len(&self) -> usize {
        let parts = (&self.0, &self.1);
        <_ as RadixQuery<(A, B)>>::encoded_len(&parts)
    }

    fn encoded_byte(&self, index: usize) -> u8 {
        let parts = (&self.0, &self.1);
        <_ as RadixQuery<(A, B)>>::encoded_byte(&parts, index)
    }

    fn encoded_head(&self, skip: u32) -> u64 {
        let parts = (&self.0, &self.1);
        <_ as RadixQuery<(A, B)>>::encoded_head(&parts, skip)
    }
}

impl<K: KeyBytes> KeyBytes for Reverse<K> {
    ghost encoded = { λ r. complemented (K.encoded r.0) };

    ghost is_key = { λ r. K.is_key r.0 };

    ghost order = { λ x y. K.order y.0 x.0 };
}

impl<K: RadixKey> RadixKey for Reverse<K> {
    const WANTS_HEADS: bool = K::WANTS_HEADS;

    ghost ordered = { reversed_order K.ordered };

    ghost are_bytes = { λ r _. complements_are_bytes (K.encoded r.0) };

    ghost sorted = { λ x y x_is y_is. complements_sort (K.cmp y.0 x.0) (K.encoded y.0) (K.encoded x.0)
        (K.are_bytes y.0 y_is) (K.are_bytes x.0 x_is) (K.sorted y.0 x.0 y_is x_is) };

    fn encoded_len(&self) -> usize {
        self.0.encoded_len()
    }

    fn encoded_byte(&self, index: usize) -> u8 {
        255 - self.0.encoded_byte(index)
    }
}
