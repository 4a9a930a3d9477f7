//! C strings as keys.
ghost use Rattle.std.specs.Prelude.{◌≡◌, ◌<◌, [], ◌∷◌, ◌++◌, vec_len, vec_capacity, IfOk, IfErr, IsOk, OnOk, refl};
ghost use Rattle.art_bytes.specs.CString.{IsCString, HasNoZero};
ghost use Rattle.art_bytes.specs.CStringLaws.{c_string_prefix_is_whole};

use crate::bytes::{AsBytes, NoPrefixesBytes, OrderedBytes};
use std::error::Error;
use std::fmt;

/// A C string as a key, where blart takes `CStr` and `CString`: bytes of which none is zero, and a
/// zero byte after them. So no key is a proper prefix of another. Keys are equal, ordered and
/// hashed by their bytes.
///
/// (from crates/art_node_tests/src/bytes.rt)
/// ```rust
/// match CStringKey::new(HELLO.to_vec(rt.alloc())?) {
///     Ok(key) => {
///         assert!(rt; text_of(&key) == b"hello world\0".as_slice());
///         // ..
///     }
///     Err(CStringKeyError::InteriorZero { .. }) => panic!(rt; "there is no zero"),
///     Err(CStringKeyError::OutOfMemory { bytes }) => {
///         // ..
///     }
/// }
/// ```
#[derive(Drop, PartialEq, Eq, PartialOrd, Ord, Hash)]
pub struct CStringKey {
    bytes: Vec<u8>,
    ghost ended: { IsCString bytes.items },
}

impl CStringKey {
    ghost use Rattle.art_bytes.specs.CStringKey.{c_string_key_text, IsRefusalOf};

    /// The key whose bytes are `bytes` and a zero byte. The zero byte is appended by the vector's
    /// own allocator, and takes no memory where the vector has spare capacity.
    ///
    /// Errors: [`CStringKeyError::InteriorZero`] where a byte is zero, found before any memory is
    /// taken; otherwise [`CStringKeyError::OutOfMemory`] where the allocation fails. Both return
    /// `bytes` unchanged.
    pub fn new(mut bytes: Vec<u8>) -> Result<CStringKey, CStringKeyError>
        ensures text { IfOk result (λ key. c_string_key_text key ≡ bytes.items ++ 0 ∷ []) }
        ensures no_zero { OnOk result (HasNoZero bytes.items) }
        ensures refused { IfErr result (IsRefusalOf bytes.items) }
        ensures succeeds { vec_len bytes < vec_capacity bytes → HasNoZero bytes.items →
            IsOk result }
    {
        if let Some(position) = bytes.iter().position(|byte| *byte == 0) {
            return Err(CStringKeyError::InteriorZero { position, bytes });
        }
        if bytes.push(0).is_err() {
            return Err(CStringKeyError::OutOfMemory { bytes });
        }
        Ok(CStringKey { bytes })
    }
}

impl AsBytes for CStringKey {
    ghost use Rattle.art_bytes.specs.CStringKey.{c_string_key_text};

    ghost text = { c_string_key_text };

    ghost is_key = { λ key. IsCString (c_string_key_text key) };

    fn as_bytes(&self) -> &[u8] {
        let bytes = self.bytes.as_slice();
        bytes
    }
}

impl NoPrefixesBytes for CStringKey {
    ghost no_prefixes = { λ a b. c_string_prefix_is_whole a.bytes.items b.bytes.items };
}

impl OrderedBytes for CStringKey {
    ghost ordered = { λ a b _ _. refl };
}

/// Why [`CStringKey::new`] refuses bytes. Each variant returns the bytes.
///
/// (from crates/art_node_tests/src/bytes.rt)
/// ```rust
/// let Err(refusal) = CStringKey::new(vec![in alloc; 1, 0]?) else {
///     panic!(rt; "no zero was found");
/// };
/// assert!(rt; format!(in alloc; "{refusal}")?.as_str() == "zero byte at position 1");
/// ```
#[derive(Debug, Drop)]
pub enum CStringKeyError {
    /// A byte is zero. The first zero byte is at `position`.
    InteriorZero {
        /// The index of the first zero byte, from 0.
        position: usize,
        /// The bytes, unchanged.
        bytes: Vec<u8>,
    },
    /// No byte is zero, and the allocation for the zero byte at the end failed.
    OutOfMemory {
        /// The bytes, unchanged.
        bytes: Vec<u8>,
    },
}

impl fmt::Display for CStringKeyError {
    fn fmt<W: fmt::Write>(&self, f: &mut fmt::Formatter<W>) -> fmt::Result {
        match self {
            CStringKeyError::InteriorZero { position, .. } => {
                write!(f, "zero byte at position {position}")
            }
            CStringKeyError::OutOfMemory { .. } => write!(f, "out of memory"),
        }
    }
}

impl Error for CStringKeyError {}
