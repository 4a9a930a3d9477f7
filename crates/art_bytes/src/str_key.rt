//! Borrowed strings as keys.
ghost use Rattle.std.specs.Prelude.{◌≡◌, refl, ⊤};

use crate::bytes::{AsBytes, OrderedBytes};

/// A borrowed string as a key, where blart takes `str`. Keys are equal, ordered and hashed by their
/// bytes.
///
/// (from crates/art_node_tests/src/bytes.rt)
/// ```rust
/// const HELLO: &[u8] = b"hello world";
/// // ..
/// assert!(rt; text_of(&StrKey::new("hello world")) == HELLO);
/// assert!(rt; string_through_a_key("hello world") == "hello world");
/// ```
#[derive(Clone, Copy, PartialEq, Eq, PartialOrd, Ord, Hash)]
pub struct StrKey<'a> {
    string: &'a str,
}

impl<'a> StrKey<'a> {
    ghost use Rattle.art_bytes.specs.StrKey.{str_key_text};

    /// The key whose bytes are the UTF-8 of `string`. Takes no memory.
    pub fn new(string: &'a str) -> StrKey<'a>
        ensures { str_key_text result ≡ string.now }
    {
        StrKey { string }
    }

    /// The string that the key was made of.
    pub fn get(self) -> &'a str
        ensures { result.now ≡ str_key_text self.entry }
    {
        self.string
    }
}

impl<'a> AsBytes for StrKey<'a> {
    ghost use Rattle.art_bytes.specs.StrKey.{str_key_text};

    ghost text = { str_key_text };

    ghost is_key = { λ _. ⊤ };

    fn as_bytes(&self) -> &[u8] {
        let bytes = self.get().as_bytes();
        bytes
    }
}

impl<'a> OrderedBytes for StrKey<'a> {
    ghost ordered = { λ a b _ _. refl };
}
