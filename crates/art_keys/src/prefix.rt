//! Prefixes: what is asked for the keys that begin alike, and bounds between such keys and others.
ghost use Rattle.std.specs.Prelude.{◌≡◌, ℕ, ◌<◌, List, length, get_or, Bool, ⊤};
ghost use Rattle.std.specs.Ordering.{is_eq, ordering_then};
ghost use Rattle.std.specs.declared.cmp.Ordering.{Ordering};
ghost use Rattle.art_bytes.specs.Text.{IsText};
ghost use Rattle.art_keys.specs.Encoding.{saturated};
ghost use Rattle.art_keys.specs.Heads.{head_at};
ghost use Rattle.art_keys.specs.declared.prefix.Edge.{Edge};
ghost use Rattle.art_keys.specs.Prefixes.{edge_encoded, edge_order};
ghost use Rattle.art_keys.specs.PrefixLaws.{AgreesBefore, edges_are_bytes, edges_agree, agrees_alone};

use crate::head::{ByteSource, head_of};
use crate::key::RadixKey;
use crate::query::RadixQuery;
use std::cmp::Ordering;
use std::marker::PhantomData;

/// A bound below all keys, or above all.
///
/// Behind other parts in a tuple it is a bound of the keys with these parts.
#[derive(Clone, Copy, PartialEq, Eq, Debug)]
pub enum Edge {
    /// Below all keys.
    Lowest,
    /// Above all keys.
    Highest,
}

/// How many bytes the bound above all keys has: more than an encoding in an index.
pub(crate) const HIGHEST_LEN: usize = 1 << 33;

impl<K: RadixKey> RadixQuery<K> for Edge {
    ghost encoded = { edge_encoded };

    ghost is_query = { λ _. ⊤ };

    ghost compare = { λ edge _. edge_order edge };

    ghost are_bytes = { λ edge _. edges_are_bytes edge };

    ghost agrees = { λ edge x _ x_is short. edges_agree edge (K.encoded x) (K.are_bytes x x_is) short };

    fn compare(&self, _key: &K) -> Ordering {
        match self {
            Edge::Lowest => Ordering::Less,
            Edge::Highest => Ordering::Greater,
        }
    }

    fn encoded_len(&self) -> usize {
        match self {
            Edge::Lowest => 0,
            Edge::Highest => HIGHEST_LEN,
        }
    }

    fn encoded_byte(&self, _index: usize) -> u8 {
        255
    }

    fn encoded_head(&self, _skip: u32) -> u64 {
        match self {
            Edge::Lowest => 0,
            Edge::Highest => u64::MAX,
        }
    }
}

/// What a map with keys `K` is asked for all keys that begin with it: a `&str` for strings, a `&[u8]`
/// for byte strings, and for tuples a tuple of queries for their first parts, or a [`Prefix`] of these.
pub trait PrefixQuery<K: RadixKey>: Copy {
    /// Which values the type has.
    ghost is_prefix: { Self → Type 0 };

    /// Whether a key begins with it.
    ghost begins: { Self → K → Bool };

    /// What `compare_start` returns.
    ghost compare_start: { Self → K → Ordering };

    /// The bytes of its two bounds.
    ghost bound_encoded: { Self → Edge → List ℕ };

    /// How it compares to a key: `Equal` where the key begins with it, `Less` where it is below the key,
    /// as all keys that begin with it are, and `Greater` where it is above. Its cost is that of `cmp`.
    fn compare_start(&self, key: &K) -> Ordering
        ensures { result ≡ compare_start self.now key.now };

    /// How many bytes the encoding of a bound has, and `usize::MAX` where they are more. Constant time.
    fn bound_len(&self, edge: Edge) -> usize
        ensures len { result ≡ saturated (length (bound_encoded self.now edge)) }
        ensures prefix { is_prefix self.now };

    /// The byte at `index` of the encoding of a bound. Condition: `index` is less than `bound_len`. Constant
    /// time.
    fn bound_byte(&self, edge: Edge, index: usize) -> u8
        requires { index < saturated (length (bound_encoded self.now edge)) }
        ensures { result ≡ get_or (bound_encoded self.now edge) index 0 };

    /// A key begins with it exactly where the two compare as equal.
    ghost begins_is: { (q : Self) (x : K) → begins q x ≡ is_eq (compare_start q x) };

    /// Each item of the encodings is a byte.
    ghost are_bytes: { (q : Self) (edge : Edge) → is_prefix q → IsText (bound_encoded q edge) };

    /// Where the encoding of a bound is below or above that of a key, so is the bound, whatever follows the
    /// key: the keys that begin with the prefix are between both. Said of encodings shorter than 2^32.
    ghost agrees: { (q : Self) (edge : Edge) (x : K) → is_prefix q → K.is_key x →
        AgreesBefore (compare_start q x) edge (bound_encoded q edge) (K.encoded x) };
}

/// The bound below or above the keys that begin with a prefix.
#[derive(Clone, Copy)]
pub struct PrefixBound<P> {
    /// The prefix.
    pub prefix: P,
    /// Whether the bound is below these keys, or above.
    pub edge: Edge,
}

impl<K: RadixKey, P: PrefixQuery<K>> RadixQuery<K> for PrefixBound<P> {
    ghost encoded = { λ b. P.bound_encoded b.prefix b.edge };

    ghost is_query = { λ b. P.is_prefix b.prefix };

    ghost compare = { λ b x. ordering_then (P.compare_start b.prefix x) (edge_order b.edge) };

    ghost are_bytes = { λ b is. P.are_bytes b.prefix b.edge is };

    ghost agrees = { λ b x b_is x_is short. agrees_alone (P.compare_start b.prefix x) b.edge
        (P.bound_encoded b.prefix b.edge) (K.encoded x) (P.agrees b.prefix b.edge x b_is x_is) short };

    fn compare(&self, key: &K) -> Ordering {
        let beyond = <_ as RadixQuery<K>>::compare(&self.edge, key);
        self.prefix.compare_start(key).then(beyond)
    }

    fn encoded_len(&self) -> usize {
        self.prefix.bound_len(self.edge)
    }

    fn encoded_byte(&self, index: usize) -> u8 {
        self.prefix.bound_byte(self.edge, index)
    }

    fn encoded_head(&self, skip: u32) -> u64 {
        let bytes: BoundBytes<K, P> = BoundBytes {
            bound: *self,
            of: PhantomData,
        };
        head_of(bytes, skip)
    }
}

#[derive_where(Clone, Copy; P)]
struct BoundBytes<K, P> {
    bound: PrefixBound<P>,
    of: PhantomData<K>,
}

impl<K: RadixKey, P: PrefixQuery<K>> ByteSource for BoundBytes<K, P> {
    ghost text = { λ bytes. P.bound_encoded bytes.bound.prefix bytes.bound.edge };

    fn byte_at(&self, index: usize) -> u8 {
        let bound = self.bound;
        if index < bound.prefix.bound_len(bound.edge) {
            bound.prefix.bound_byte(bound.edge, index)
        } else {
            0
        }
    }
}

/// A tuple of queries of which the last is a prefix itself, as `Prefix((&7, "ti"))` for the tuples of 7
/// and a string that begins with "ti".
#[derive(Clone, Copy)]
pub struct Prefix<T>(pub T);
