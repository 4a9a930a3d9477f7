//! The key traits: bytes of a key, keys of which none is a proper prefix of another, ordered keys.
ghost use Rattle.std.specs.Prelude.{◌≡◌, ℕ, List, length, refl, ⊤};
ghost use Rattle.std.specs.String.{string_bytes};
ghost use Rattle.art_bytes.specs.Laws.{prefix_of_length};
ghost use Rattle.art_bytes.specs.Text.{IsPrefixOf, IsText, text_order};

/// A type whose values are the keys of an adaptive radix tree: each shows its bytes.
///
/// Numbers, addresses, tuples and any strings are keys under a mapping: see `Mapped` of `art_mapped`.
///
/// (from crates/art_node_tests/src/bytes/key_examples.rt)
/// ```rust
/// pub fn text_of<K: AsBytes>(key: &K) -> &[u8]
///     ensures text { result.now ≡ K.text key.now }
///     ensures bytes { IsText (K.text key.now) }
/// {
///     key.as_bytes()
/// }
/// ```
pub trait AsBytes {
    /// The bytes of a key, in order. Contracts call them the text of the key.
    ghost text: { Self → List ℕ };

    /// Which values are keys. Laws of keys speak of these values only.
    ghost is_key: { Self → Type 0 };

    /// The bytes of the key. Takes no memory.
    fn as_bytes(&self) -> &[u8]
        ensures text { result.now ≡ text self.now }
        ensures bytes { IsText (text self.now) }
        ensures key { is_key self.now };
}

/// A type of keys of which none is a proper prefix of another, so that any of them can be in one
/// adaptive radix tree together.
///
/// (from crates/art_node_tests/src/bytes.rt)
/// ```rust
/// pub(crate) fn has_prefix<K: NoPrefixesBytes>(key: &K, prefix: &K) -> bool
///     ensures { IsTrue result ↔ (K.text key.now ≡ K.text prefix.now) }
/// {
///     key.as_bytes().starts_with(prefix.as_bytes())
/// }
/// ```
pub trait NoPrefixesBytes: AsBytes {
    /// Where the bytes of one key are a prefix of those of another, they are equal.
    ghost no_prefixes: { (a b : Self) → Self.is_key a → Self.is_key b →
        IsPrefixOf (Self.text a) (Self.text b) → Self.text a ≡ Self.text b };
}

/// A type of binary-comparable keys, in the sense of Leis, Kemper and Neumann (2013): the keys have
/// the order of their bytes, so that a tree over the bytes keeps them in order.
///
/// (from crates/art_node_tests/src/bytes/key_examples.rt)
/// ```rust
/// pub fn order_of_texts<K: OrderedBytes>(a: &K, b: &K) -> Ordering
///     ensures { result ≡ K.cmp a.now b.now }
/// {
///     a.as_bytes().cmp(b.as_bytes())
/// }
/// ```
pub trait OrderedBytes: AsBytes + Ord {
    /// Two keys compare as their bytes do.
    ghost ordered: { (a b : Self) → Self.is_key a → Self.is_key b →
        Self.cmp a b ≡ text_order (Self.text a) (Self.text b) };
}

/// The bytes of a string are its UTF-8.
impl AsBytes for String {
    ghost text = { λ s. string_bytes s };

    ghost is_key = { λ _. ⊤ };

    fn as_bytes(&self) -> &[u8] {
        // Named, here and in the other keys, so that the check knows that each item is a byte.
        let bytes = self.as_bytes();
        bytes
    }
}

impl OrderedBytes for String {
    ghost ordered = { λ a b _ _. refl };
}

/// The bytes of a vector are its items.
impl AsBytes for Vec<u8> {
    ghost text = { λ v. v.items };

    ghost is_key = { λ _. ⊤ };

    fn as_bytes(&self) -> &[u8] {
        self.as_slice()
    }
}

impl OrderedBytes for Vec<u8> {
    ghost ordered = { λ a b _ _. refl };
}

/// The bytes of an array are its items. A key has exactly `N`.
impl<const N: usize> AsBytes for [u8; N] {
    ghost text = { λ a. a };

    ghost is_key = { λ a. length a ≡ N };

    fn as_bytes(&self) -> &[u8] {
        let bytes = self.as_slice();
        bytes
    }
}

impl<const N: usize> NoPrefixesBytes for [u8; N] {
    ghost no_prefixes = { prefix_of_length N };
}

impl<const N: usize> OrderedBytes for [u8; N] {
    ghost ordered = { λ a b _ _. refl };
}
