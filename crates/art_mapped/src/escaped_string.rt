//! Strings, with their zero bytes escaped.
ghost use Rattle.std.specs.Prelude.{◌≡◌, ◌≢◌, ◌↔◌, ◌<◌, ◌≤◌, ℕ, length, take, drop, slice_index, string_bytes, IfOk, IsTrue, true, ⊤};
ghost use Rattle.std.specs.Str.{IsUtf8};
ghost use Rattle.std.specs.Vec.{vec_items};
ghost use Rattle.std.proofs.Common.{ap, refl};
ghost use Rattle.art_mapped.specs.Escaped.{escaped_text};
ghost use Rattle.art_mapped.specs.EscapedLaws.{same_from_escaped, escaped_order, escaped_prefix_is_whole};
ghost use Rattle.art_mapped.specs.EscapedStrings.{IsEscapedUtf8, string_escaped_text};
ghost use Rattle.art_mapped.specs.Mapping.{HasTextInRange, HasTextOf};
ghost use Rattle.art_mapped.specs.MappingLaws.{kept_by_text};
ghost use Rattle.art_mapped.specs.VecLaws.{text_of_a_vec};
ghost use Rattle.std.specs.declared.alloc.Global.{Global as GlobalAlloc};

use crate::escaped::{Escaped, text_of, unescaped};
use crate::mapping::{
    BorrowedMapping, BytesMapping, Holds, InjectiveMapping, NoPrefixesMapping, OrderedMapping,
    ValueTexts,
};
use art_bytes::AsBytes;
use std::alloc::{AllocError, Global};
use std::str::from_utf8;

/// How many bytes there are before the first zero.
fn len_to_zero(text: &[u8]) -> usize
    ensures within { result ≤ length text.now }
    ensures before { (k : ℕ) → k < result → slice_index text.now k ≢ 0 }
    ensures found { result < length text.now → slice_index text.now result ≡ 0 }
{
    for (index, byte) in text.iter().enumerate() {
        if *byte == 0 {
            return index;
        }
    }
    text.len()
}

/// The bytes after the first of them.
fn after(text: &[u8], len: usize) -> &[u8]
    requires { len ≤ length text.now }
    ensures { result.now ≡ drop len text.now }
{
    &text[len..]
}

/// Whether the first bytes are UTF-8.
fn are_utf8(text: &[u8], len: usize) -> bool
    requires { len ≤ length text.now }
    ensures { IsTrue result ↔ IsUtf8 (take len text.now) }
{
    match from_utf8(&text[..len]) {
        Ok(_) => true,
        Err(_) => false,
    }
}

/// Whether the text is the escaped text of some UTF-8.
fn is_escaped_utf8(text: &[u8]) -> bool
    ensures { IsTrue result ↔ IsEscapedUtf8 text.now }
{
    let mut rest = text;
    while !rest.is_empty() {
        // A zero is a whole character, so the bytes between two zeros are whole characters too.
        let run = len_to_zero(rest);
        if !are_utf8(rest, run) {
            return false;
        }
        let end = after(rest, run);
        if end.len() < 2 {
            return false;
        }
        if end[1] != 255 {
            return end[1] == 0 && end.len() == 2;
        }
        rest = after(end, 2);
    }
    false
}

/// The string whose escaped text this is. Condition: there is such a string.
fn string_of(alloc: Global, text: &[u8]) -> Result<String, AllocError>
    requires { IsEscapedUtf8 text.now }
    ensures { IfOk result (λ read. text.now ≡ string_escaped_text read) }
{
    match String::from_utf8(unescaped(alloc, text)?) {
        Ok(read) => Ok(read),
        Err(_) => unreachable!(),
    }
}

impl<K: AsBytes> Holds<String, K> for Escaped {
    ghost holds = { HasTextInRange (λ _. ⊤) K.text (string_escaped_text {A = GlobalAlloc}) };
}

impl ValueTexts<String> for Escaped {
    ghost is_text = { HasTextInRange (λ _. ⊤) (λ text. text)
        (string_escaped_text {A = GlobalAlloc}) };
}

/// Strings, by their UTF-8.
impl BytesMapping<String> for Escaped {
    ghost holds_value = { λ _ _. (λ holds. holds, λ holds. holds) };

    ghost is_text_of_a_key = { λ other text value fits. text_of_a_vec (λ _. tt) (λ _. ⊤)
        (HasTextOf (λ text. text) string_escaped_text) value other text fits
        (λ of. of, λ of. of) };

    type Bytes = Vec<u8>;

    const ALLOCATES: bool = true;

    const READ_ALLOCATES: bool = true;

    ghost ALLOCATES = { true };

    ghost READ_ALLOCATES = { true };

    ghost is_in_domain = { λ _. ⊤ };

    ghost text_of = { string_escaped_text };

    ghost are_same = { λ x y. string_bytes x ≡ string_bytes y };

    ghost stands_for = { HasTextOf vec_items string_escaped_text };

    ghost has_text = { λ _ _ _ stands. stands };

    ghost one_text = { λ x y same. ap escaped_text same };

    ghost reads_one = { λ _ x y _ _ x_text y_text.
        same_from_escaped (string_bytes x) (string_bytes y) x_text y_text };

    ghost kept_by_text = { λ a b _. kept_by_text (λ _. ⊤) vec_items string_escaped_text a b };

    fn to_bytes(alloc: Global, value: String) -> Result<Vec<u8>, AllocError> {
        text_of(alloc, value.as_bytes())
    }

    fn from_bytes(alloc: Global, bytes: Vec<u8>) -> Result<String, AllocError> {
        string_of(alloc, &bytes)
    }

    fn is_value(bytes: &Vec<u8>) -> bool {
        is_escaped_utf8(bytes)
    }
}

impl BorrowedMapping<String> for Escaped {
    fn read(alloc: Global, bytes: &Vec<u8>) -> Result<String, AllocError> {
        string_of(alloc, bytes)
    }
}

impl InjectiveMapping<String> for Escaped {
    ghost decided_by_text = { λ x y _ _ same.
        same_from_escaped (string_bytes x) (string_bytes y) refl same };
}

impl OrderedMapping<String> for Escaped {
    ghost keeps_order = { λ x y _ _. escaped_order (string_bytes x) (string_bytes y) };
}

impl NoPrefixesMapping<String> for Escaped {
    ghost no_prefixes = { λ x y _ _ front.
        escaped_prefix_is_whole (string_bytes x) (string_bytes y) front };
}
