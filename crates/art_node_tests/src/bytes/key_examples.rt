//! How a crate uses `art_bytes`: through the bounds, with none of its lemmas.
ghost use Rattle.std.specs.Prelude.{◌≡◌};
ghost use Rattle.art_bytes.specs.Text.{IsText};

use art_bytes::{AsBytes, OrderedBytes};
use std::cmp::Ordering;

/// The bytes of a key.
pub fn text_of<K: AsBytes>(key: &K) -> &[u8]
    ensures text { result.now ≡ K.text key.now }
    ensures bytes { IsText (K.text key.now) }
{
    key.as_bytes()
}

/// Keys sort as their bytes do.
pub fn order_of_texts<K: OrderedBytes>(a: &K, b: &K) -> Ordering
    ensures { result ≡ K.cmp a.now b.now }
{
    a.as_bytes().cmp(b.as_bytes())
}
