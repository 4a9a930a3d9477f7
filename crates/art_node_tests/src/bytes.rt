//! Each kind of key, used as the crates above use it: through its bounds.
ghost use Rattle.std.specs.Prelude.{◌≡◌, ◌↔◌, IsTrue, fold};
ghost use Rattle.std.specs.Hash as fed;
ghost use Rattle.art_bytes.specs.CStringKey.{c_string_key_text};
ghost use Rattle.art_bytes.specs.SliceKey.{slice_key_text};
ghost use Rattle.art_bytes.specs.StrKey.{str_key_text};

use art_bytes::{AsBytes, CStringKey, NoPrefixesBytes, OrderedBytes, SliceKey, StrKey};
use std::hash::{Hash, Hasher};

pub(crate) mod key_examples;

use key_examples::{order_of_texts, text_of};

// Keys are equal where their bytes are.
fn have_one_text<K: OrderedBytes>(a: &K, b: &K) -> bool
    ensures { result ≡ K.eq a.now b.now }
{
    a.as_bytes() == b.as_bytes()
}

// No key is a proper prefix of another, so one test decides whether they are the same.
pub(crate) fn has_prefix<K: NoPrefixesBytes>(key: &K, prefix: &K) -> bool
    ensures { IsTrue result ↔ (K.text key.now ≡ K.text prefix.now) }
{
    key.as_bytes().starts_with(prefix.as_bytes())
}

// A key feeds a hasher what its bytes do.
fn feed_str_key<H: Hasher>(key: &StrKey, hasher: &mut H)
    ensures { hasher.new ≡ fold H.write hasher.old (fed.str (str_key_text key.now)) }
{
    key.hash(hasher);
}

fn feed_slice_key<H: Hasher>(key: &SliceKey, hasher: &mut H)
    ensures { hasher.new ≡ fold H.write hasher.old (fed.slice fed.u8 (slice_key_text key.now)) }
{
    key.hash(hasher);
}

fn feed_c_string_key<H: Hasher>(key: &CStringKey, hasher: &mut H)
    ensures { hasher.new ≡ fold H.write hasher.old (fed.slice fed.u8 (c_string_key_text key.now)) }
{
    key.hash(hasher);
}

// A key returns the string that it was made of.
fn string_through_a_key(string: &str) -> &str
    ensures { result.now ≡ string.now }
{
    StrKey::new(string).get()
}

fn bytes_through_a_key(bytes: &[u8]) -> &[u8]
    ensures { result.now ≡ bytes.now }
{
    SliceKey::new(bytes).get()
}
