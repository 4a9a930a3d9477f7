//! Strings of any bytes, with their zero bytes escaped.
ghost use Rattle.std.specs.Prelude.{◌≡◌, ◌↔◌, ◌++◌, ◌+◌, ◌*◌, ◌<◌, ◌≤◌, ℕ, List, Vec, length, vec_len, vec_capacity, IsTrue, IfOk, OnOk, OnErr, true, ⊤};
ghost use Rattle.std.specs.Vec.{vec_items};
ghost use Rattle.std.proofs.Common.{ap, sym, refl};
ghost use Rattle.art_bytes.specs.Text.{IsPrefixOf};
ghost use Rattle.art_mapped.specs.Escaped.{escaped, escaped_text, vec_escaped_text, IsEscaped};
ghost use Rattle.art_mapped.specs.EscapedLaws.{same_from_escaped, escaped_order, escaped_prefix_is_whole};
ghost use Rattle.art_mapped.specs.Mapping.{HasTextInRange, HasTextOf};
ghost use Rattle.art_mapped.specs.MappingLaws.{kept_by_text};
ghost use Rattle.art_mapped.specs.VecLaws.{text_of_a_vec};
ghost use Rattle.std.specs.declared.alloc.Global.{Global as GlobalAlloc};

use crate::mapping::{
    BorrowedMapping, BytesMapping, Holds, InjectiveMapping, NoPrefixesMapping, OrderedMapping,
    ValueTexts,
};
use art_bytes::AsBytes;
use std::alloc::{AllocError, Global};

/// Maps byte strings to their escaped text, as ordered key encodings of databases do: a zero byte
/// is written as 0, 255, any other byte as itself, and 0, 0 ends the text.
///
/// So every byte string has a key, no key is a prefix of another, and keys sort as the bytes do.
/// Writing and reading take memory, and time linear in the bytes.
///
/// (from crates/art_node_tests/src/mapped/escaped_examples.rt)
/// ```rust
/// let (tin, tins) = (key_of(alloc, b"tin")?, key_of(alloc, b"tins")?);
/// assert!(rt; tin.as_bytes() == b"tin\0\0".as_slice());
/// assert!(rt; tin < tins && !has_prefix(&tins, &tin));
/// ```
#[derive(Debug)]
pub struct Escaped;

/// Appends the escaped bytes. It fails only where there is no room for twice as many.
fn push_escaped(text: &mut Vec<u8>, bytes: &[u8]) -> Result<(), AllocError>
    ensures text { OnOk result (text.new.items ≡ text.old.items ++ escaped bytes.now) }
    ensures len { OnOk result (vec_len text.new ≤ vec_len text.old + 2 * length bytes.now) }
    ensures capacity { vec_capacity text.old ≤ vec_capacity text.new }
    ensures refused { OnErr result
        (vec_capacity text.old < vec_len text.old + 2 * length bytes.now) }
{
    for byte in bytes {
        text.push(*byte)?;
        if *byte == 0 {
            text.push(255)?;
        }
    }
    Ok(())
}

/// The escaped bytes, without an end. They are a prefix of exactly those keys whose own bytes begin
/// with these, also where the last of these is zero: so `prefix` of a map takes them.
///
/// Error: [`AllocError`] on an allocation failure.
pub fn escaped_prefix(alloc: Global, bytes: &[u8]) -> Result<Vec<u8>, AllocError>
    ensures text { IfOk result (λ prefix. prefix.items ≡ escaped bytes.now) }
    ensures keys { IfOk result (λ prefix. (key : List ℕ) →
        IsPrefixOf prefix.items (escaped_text key) ↔ IsPrefixOf bytes.now key) }
{
    let mut prefix = Vec::with_capacity(alloc, bytes.len())?;
    push_escaped(&mut prefix, bytes)?;
    Ok(prefix)
}

/// Appends the escaped text of the bytes. It fails only where there is no room for twice as many
/// and the end.
pub(crate) fn push_text(text: &mut Vec<u8>, bytes: &[u8]) -> Result<(), AllocError>
    ensures text { OnOk result (text.new.items ≡ text.old.items ++ escaped_text bytes.now) }
    ensures capacity { vec_capacity text.old ≤ vec_capacity text.new }
    ensures refused { OnErr result
        (vec_capacity text.old < vec_len text.old + 2 * length bytes.now + 2) }
{
    push_escaped(text, bytes)?;
    text.extend_from_slice(&[0, 0])
}

/// The escaped text of the bytes.
pub(crate) fn text_of(alloc: Global, bytes: &[u8]) -> Result<Vec<u8>, AllocError>
    ensures { IfOk result (λ text. text.items ≡ escaped_text bytes.now) }
{
    let mut text = Vec::with_capacity(alloc, bytes.len().saturating_add(2))?;
    push_text(&mut text, bytes)?;
    Ok(text)
}

/// Whether the text is the escaped text of some bytes.
fn is_escaped(text: &[u8]) -> bool
    ensures { IsTrue result ↔ IsEscaped text.now }
{
    let mut after_zero = false;
    for (index, byte) in text.iter().enumerate() {
        if !after_zero {
            after_zero = *byte == 0;
        } else if *byte == 255 {
            after_zero = false;
        } else {
            return *byte == 0 && index + 1 == text.len();
        }
    }
    false
}

/// The bytes whose escaped text this is. Condition: there are such bytes.
pub(crate) fn unescaped(alloc: Global, text: &[u8]) -> Result<Vec<u8>, AllocError>
    requires { IsEscaped text.now }
    ensures { IfOk result (λ bytes. text.now ≡ escaped_text bytes.items) }
{
    let mut bytes = Vec::with_capacity(alloc, text.len().saturating_sub(2))?;
    let mut after_zero = false;
    for byte in text {
        if !after_zero {
            if *byte == 0 {
                after_zero = true;
            } else {
                bytes.push(*byte)?;
            }
        } else {
            if *byte == 0 {
                return Ok(bytes);
            }
            bytes.push(0)?;
            after_zero = false;
        }
    }
    Ok(bytes)
}

impl<K: AsBytes> Holds<Vec<u8>, K> for Escaped {
    ghost holds = { HasTextInRange (λ _. ⊤) K.text (vec_escaped_text {A = GlobalAlloc}) };
}

impl ValueTexts<Vec<u8>> for Escaped {
    ghost is_text = { HasTextInRange (λ _. ⊤) (λ text. text) (vec_escaped_text {A = GlobalAlloc}) };
}

impl BytesMapping<Vec<u8>> for Escaped {
    ghost holds_value = { λ _ _. (λ holds. holds, λ holds. holds) };

    ghost is_text_of_a_key = { λ other text value fits. text_of_a_vec (λ _. tt) (λ _. ⊤)
        (HasTextOf (λ text. text) vec_escaped_text) value other text fits (λ of. of, λ of. of) };

    type Bytes = Vec<u8>;

    const ALLOCATES: bool = true;

    const READ_ALLOCATES: bool = true;

    ghost ALLOCATES = { true };

    ghost READ_ALLOCATES = { true };

    ghost is_in_domain = { λ _. ⊤ };

    ghost text_of = { vec_escaped_text };

    ghost are_same = { λ x y. vec_items x ≡ vec_items y };

    ghost stands_for = { HasTextOf vec_items vec_escaped_text };

    ghost has_text = { λ _ _ _ stands. stands };

    ghost one_text = { λ x y same. ap escaped_text same };

    ghost reads_one = { λ _ x y _ _ x_text y_text. same_from_escaped x.items y.items x_text y_text };

    ghost kept_by_text = { λ a b _. kept_by_text (λ _. ⊤) vec_items vec_escaped_text a b };

    fn to_bytes(alloc: Global, value: Vec<u8>) -> Result<Vec<u8>, AllocError> {
        text_of(alloc, &value)
    }

    fn from_bytes(alloc: Global, bytes: Vec<u8>) -> Result<Vec<u8>, AllocError> {
        unescaped(alloc, &bytes)
    }

    fn is_value(bytes: &Vec<u8>) -> bool {
        is_escaped(bytes)
    }
}

impl BorrowedMapping<Vec<u8>> for Escaped {
    fn read(alloc: Global, bytes: &Vec<u8>) -> Result<Vec<u8>, AllocError> {
        unescaped(alloc, bytes)
    }
}

impl InjectiveMapping<Vec<u8>> for Escaped {
    ghost decided_by_text = { λ x y _ _ same. same_from_escaped x.items y.items refl same };
}

impl OrderedMapping<Vec<u8>> for Escaped {
    ghost keeps_order = { λ x y _ _. escaped_order x.items y.items };
}

impl NoPrefixesMapping<Vec<u8>> for Escaped {
    ghost no_prefixes = { λ x y _ _ front. escaped_prefix_is_whole x.items y.items front };
}
