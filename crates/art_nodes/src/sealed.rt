//! Sealed traits: no other crate can name them, so no other crate can implement a node.
ghost use Rattle.std.specs.Prelude.{◌≡◌, ◌^◌, ◌<◌, ◌≤◌, length};
ghost use Rattle.art_header.specs.Header.{capped, empty_header};

use art_header::Header;

/// Prevents an impl of a trait in another crate.
pub trait Sealed {}

/// A value that no other crate can make. A call that takes one can only be made in this crate.
#[derive(Drop)]
pub struct InThisCrate(pub(crate) ());

/// How an inner node begins: with a prefix and no children. Other crates use a builder.
pub trait InnerNodeInit<const PREFIX_LEN: usize>: Sealed + Sized {
    ghost use Rattle.art_header.specs.Header.{Header};

    /// The node of a header, with no children.
    ghost empty_with: { Header → Self };

    /// A node with this prefix and no children. Conditions: those of [`Header::new`].
    fn from_prefix(caller: InThisCrate, prefix: &[u8], prefix_len: usize) -> Self
        requires has_stored_bytes { capped PREFIX_LEN prefix_len ≤ length prefix.now }
        requires no_longer { length prefix.now ≤ prefix_len }
        requires fits { prefix_len < 2 ^ 32 }
        ensures { result ≡ empty_with (empty_header PREFIX_LEN prefix.now prefix_len) };
}
