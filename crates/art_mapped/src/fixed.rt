//! Keys of one length.
ghost use Rattle.std.specs.Prelude.{◌≡◌, ℕ, List, length, refl};

use art_bytes::AsBytes;

mod sealed {
    /// No other crate can name this trait, so no other crate can add an impl.
    pub trait Sealed {}

    impl<const N: usize> Sealed for [u8; N] {}
}

use sealed::Sealed;

/// Keys that all have the same number of bytes. The arrays `[u8; N]` are such keys. The trait is
/// sealed: no other type can implement it.
///
/// (from crates/art_node_tests/src/mapped.rt)
/// ```rust
/// assert!(rt; <<ToIBE as BytesMapping<i128>>::Bytes as FixedBytes>::WIDTH == 16);
/// assert!(rt; <[u8; 3] as FixedBytes>::from_slice(&[1, 2, 3]) == [1, 2, 3]);
/// ```
pub trait FixedBytes: AsBytes + Copy + Sealed {
    /// How many bytes a key has.
    const WIDTH: usize;

    /// The same number, for contracts.
    ghost WIDTH: { ℕ };

    /// The key with these bytes. Condition: exactly `WIDTH` bytes. Takes no memory.
    fn from_slice(bytes: &[u8]) -> Self
        requires { length bytes.now ≡ WIDTH }
        ensures key { Self.is_key result }
        ensures text { Self.text result ≡ bytes.now };

    /// A key has exactly `WIDTH` bytes.
    ghost width: { (key : Self) → Self.is_key key → length (Self.text key) ≡ WIDTH };

    /// Exactly so many bytes are those of some key.
    ghost held: { (text : List ℕ) → length text ≡ WIDTH →
        (key : Self) × Self.is_key key × (Self.text key ≡ text) };

    /// Keys with the same bytes are equal.
    ghost one_key: { (a b : Self) → Self.is_key a → Self.is_key b →
        Self.text a ≡ Self.text b → a ≡ b };
}

impl<const N: usize> FixedBytes for [u8; N] {
    const WIDTH: usize = N;

    ghost WIDTH = { N };

    ghost width = { λ key is_key. is_key };

    ghost held = { λ text long. (text, long, refl) };

    ghost one_key = { λ a b _ _ same. same };

    fn from_slice(bytes: &[u8]) -> [u8; N] {
        let mut key = [0; N];
        key.copy_from_slice(bytes);
        key
    }
}
