//! Borrowed bytes as keys.
ghost use Rattle.std.specs.Prelude.{◌≡◌, refl, ⊤};

use crate::bytes::{AsBytes, OrderedBytes};

/// Borrowed bytes as a key, where blart takes `[u8]`. Keys are equal, ordered and hashed by their
/// bytes.
///
/// (from crates/art_node_tests/src/bytes.rt)
/// ```rust
/// const HELLO: &[u8] = b"hello world";
/// // ..
/// let slice = SliceKey::new(HELLO);
/// assert!(rt; text_of(&slice) == HELLO);
/// ```
#[derive(Clone, Copy, PartialEq, Eq, PartialOrd, Ord, Hash)]
pub struct SliceKey<'a> {
    bytes: &'a [u8],
}

impl<'a> SliceKey<'a> {
    ghost use Rattle.art_bytes.specs.SliceKey.{slice_key_text};

    /// The key whose bytes are `bytes`. Takes no memory.
    pub fn new(bytes: &'a [u8]) -> SliceKey<'a>
        ensures { slice_key_text result ≡ bytes.now }
    {
        SliceKey { bytes }
    }

    /// The bytes that the key was made of.
    pub fn get(self) -> &'a [u8]
        ensures { result.now ≡ slice_key_text self.entry }
    {
        self.bytes
    }
}

impl<'a> AsBytes for SliceKey<'a> {
    ghost use Rattle.art_bytes.specs.SliceKey.{slice_key_text};

    ghost text = { slice_key_text };

    ghost is_key = { λ _. ⊤ };

    fn as_bytes(&self) -> &[u8] {
        let bytes = self.get();
        bytes
    }
}

impl<'a> OrderedBytes for SliceKey<'a> {
    ghost ordered = { λ a b _ _. refl };
}
