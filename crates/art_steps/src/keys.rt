//! Loading: what has a key, as a plan reads it.
ghost use Rattle.std.specs.Prelude.{◌≡◌};

use art_arena::{LeafPtr, NodeArena};
use art_bytes::AsBytes;

/// What has a key in a context: an entry in any, a leaf in its arena.
pub trait KeyIn<C>: Sized {
    ghost use Rattle.std.specs.Prelude.{◌≡◌, ℕ, List};
    ghost use Rattle.art_bytes.specs.Text.{IsText};

    /// The bytes of the key.
    ghost text_in: { C → Self → List ℕ };

    /// The context has the key.
    ghost is_in: { C → Self → Type 0 };

    /// The bytes of the key.
    fn key_in<'a>(&'a self, context: &'a C) -> &'a [u8]
        requires { is_in context.now self.now }
        ensures text { result.now ≡ text_in context.now self.now }
        ensures bytes { IsText (text_in context.now self.now) };
}

/// An entry has its key anywhere.
impl<K: AsBytes, V> KeyIn<()> for (K, V) {
    ghost use Rattle.std.specs.Prelude.{⊤};

    ghost text_in = { λ _ entry. K.text entry.0 };

    ghost is_in = { λ _ _. ⊤ };

    fn key_in<'a>(&'a self, _context: &'a ()) -> &'a [u8] {
        self.0.as_bytes()
    }
}

/// The key of a leaf is in the arena that holds it.
impl<K: AsBytes, V, const PREFIX_LEN: usize> KeyIn<NodeArena<K, V, PREFIX_LEN>>
    for LeafPtr<K, V, PREFIX_LEN> {
    ghost use Rattle.art_nodes.specs.Pointers.{slab_key};
    ghost use Rattle.art_arena.specs.Links.{HoldsLeaf, text_at};

    ghost text_in = { λ arena leaf. text_at K.text arena (slab_key leaf) };

    ghost is_in = { λ arena leaf. HoldsLeaf arena (slab_key leaf) };

    fn key_in<'a>(&'a self, context: &'a NodeArena<K, V, PREFIX_LEN>) -> &'a [u8] {
        let (key, _) = context.as_key_value_ref(*self);
        key.as_bytes()
    }
}
