//! A buffer for the keys that are looked up.
ghost use Rattle.std.specs.Prelude.{◌≡◌, ◌+◌, ◌*◌, ◌≤◌, length, IfOk, IsOk, OnErr, OnOk, refl};
ghost use Rattle.art_mapped.specs.Escaped.{escaped_text, IsEscaped};
ghost use Rattle.art_mapped.specs.EscapedLaws.{escaped_text_is_whole};

use crate::escaped::{push_text, text_of};
use art_bytes::{AsBytes, NoPrefixesBytes, OrderedBytes};
use std::alloc::{AllocError, Global};

/// The key of a byte string under [`Escaped`](crate::Escaped), in a buffer that can be used again
/// for the next key. Keys are equal, ordered and hashed by their bytes.
///
/// (from crates/art_node_tests/src/mapped/escaped_examples.rt)
/// ```rust
/// let mut looked_up = EscapedKey::new(alloc, b"a\0b")?;
/// assert!(rt; looked_up.as_bytes() == b"a\0\xffb\0\0".as_slice());
/// looked_up.set(b"tin")?;
/// ```
#[derive(Drop, PartialEq, Eq, PartialOrd, Ord, Hash)]
pub struct EscapedKey {
    text: Vec<u8>,
    ghost ended: { IsEscaped text.items },
}

impl EscapedKey {
    ghost use Rattle.art_mapped.specs.EscapedKey.{escaped_key_text, escaped_key_room};

    /// The key of a byte string.
    ///
    /// Error: [`AllocError`] on an allocation failure.
    pub fn new(alloc: Global, bytes: &[u8]) -> Result<EscapedKey, AllocError>
        ensures { IfOk result (λ key. escaped_key_text key ≡ escaped_text bytes.now) }
    {
        let text = text_of(alloc, bytes)?;
        Ok(EscapedKey { text })
    }

    /// Makes this the key of another byte string. It takes memory only where the buffer has no room
    /// for twice the bytes and the end: never where an earlier call was given as many.
    ///
    /// Error: [`AllocError`] on an allocation failure. The key is unchanged.
    pub fn set(&mut self, bytes: &[u8]) -> Result<(), AllocError>
        ensures text { OnOk result (escaped_key_text self.new ≡ escaped_text bytes.now) }
        ensures kept { OnErr result (escaped_key_text self.new ≡ escaped_key_text self.old) }
        ensures room { OnOk result (2 * length bytes.now + 2 ≤ escaped_key_room self.new) }
        ensures room_kept { escaped_key_room self.old ≤ escaped_key_room self.new }
        ensures succeeds { 2 * length bytes.now + 2 ≤ escaped_key_room self.old → IsOk result }
    {
        // First what can fail, so that the old key stays where it does.
        let most = bytes.len().saturating_mul(2).saturating_add(2);
        self.text.reserve(most.saturating_sub(self.text.len()))?;
        self.text.clear();
        push_text(&mut self.text, bytes)
    }
}

impl AsBytes for EscapedKey {
    ghost use Rattle.art_mapped.specs.EscapedKey.{escaped_key_text};

    ghost text = { escaped_key_text };

    ghost is_key = { λ key. IsEscaped (escaped_key_text key) };

    fn as_bytes(&self) -> &[u8] {
        let bytes = self.text.as_slice();
        bytes
    }
}

impl NoPrefixesBytes for EscapedKey {
    ghost no_prefixes = { λ a b. escaped_text_is_whole a.text.items b.text.items };
}

impl OrderedBytes for EscapedKey {
    ghost ordered = { λ a b _ _. refl };
}
