//! Byte strings that keep few bytes in place, as keys of a map.
ghost use Rattle.std.specs.Prelude.{◌≡◌, ◌≤◌, IfOk, IsOk, Some, length, nat_eq, nat_lt, refl};
ghost use Rattle.std.specs.Cmp.{on_equiv, on_per, on_po, on_total, partial_equiv_from_equiv};
ghost use Rattle.std.specs.Cmp.Lexicographic.{nat_list_cmp_total, nat_list_eq_equiv, pointwise, texts_po, texts_ties};
ghost use Rattle.std.proofs.lemmas.List.Elements.{All-append};
ghost use Rattle.art_bytes.specs.Text.{IsByte, IsText, text_order};
ghost use Rattle.art_keys.specs.EncodingLaws.{sorted_agrees};
ghost use Rattle.art_keys.specs.Groups.{grouped};
ghost use Rattle.art_keys.specs.GroupLaws.{strings_are_bytes, strings_sort};
ghost use Rattle.art_keys.specs.Prefixes.{begins_with, grouped_bound, prefix_cmp};
ghost use Rattle.art_keys.specs.PrefixLaws.{grouped_bounds_agree, grouped_bounds_are_bytes, starts_equal};
ghost use Rattle.art_c_maps.specs.ByteStrings.{bytes_of_string, string_form_bytes};

use crate::few_bytes::{Boxed, Short};
use art_keys::{Edge, KeyBytes, PrefixQuery, RadixKey, RadixQuery};
use std::alloc::{AllocError, Global};
use std::cmp::Ordering;

// So many bytes are kept in place.
const MOST_IN_PLACE: usize = 22;

// Few bytes in place, more in a box of the next of these sizes, or many in a vector.
#[derive(Drop)]
enum Form {
    Short(Short),
    UpTo40(Boxed<40>),
    UpTo56(Boxed<56>),
    UpTo72(Boxed<72>),
    UpTo104(Boxed<104>),
    UpTo152(Boxed<152>),
    UpTo264(Boxed<264>),
    Long(Box<Vec<u8>>),
}

/// A byte string of 24 bytes: up to 22 are kept in place, more on the heap.
#[derive(Drop)]
pub(crate) struct ByteString {
    form: Form,
}

impl ByteString {
    /// The string of these bytes. Takes memory for more than 22.
    pub(crate) fn new(alloc: Global, bytes: &[u8]) -> Result<ByteString, AllocError>
        ensures bytes { IfOk result (λ string. bytes_of_string string ≡ bytes.now) }
        ensures takes_no_memory { length bytes.now ≤ 22 → IsOk result }
    {
        let form = form_of(alloc, bytes)?;
        Ok(ByteString { form })
    }

    /// Whether a string of these bytes takes memory.
    pub(crate) fn takes_memory(bytes: &[u8]) -> bool
        ensures { result ≡ nat_lt 22 (length bytes.now) }
    {
        MOST_IN_PLACE < bytes.len()
    }

    /// The bytes.
    #[inline]
    pub(crate) fn as_bytes(&self) -> &[u8]
        ensures { result.now ≡ bytes_of_string self.now }
    {
        match &self.form {
            Form::Short(short) => short.as_bytes(),
            Form::UpTo40(boxed) => boxed.as_bytes(),
            Form::UpTo56(boxed) => boxed.as_bytes(),
            Form::UpTo72(boxed) => boxed.as_bytes(),
            Form::UpTo104(boxed) => boxed.as_bytes(),
            Form::UpTo152(boxed) => boxed.as_bytes(),
            Form::UpTo264(boxed) => boxed.as_bytes(),
            Form::Long(bytes) => bytes.as_slice(),
        }
    }
}

// The form that has room for these bytes.
fn form_of(alloc: Global, bytes: &[u8]) -> Result<Form, AllocError>
    ensures bytes { IfOk result (λ form. string_form_bytes form ≡ bytes.now) }
    ensures takes_no_memory { length bytes.now ≤ 22 → IsOk result }
{
    let len = bytes.len();
    if len <= MOST_IN_PLACE {
        return Ok(Form::Short(Short::of(bytes)));
    }
    if len <= 40 {
        return Ok(Form::UpTo40(Boxed::of(alloc, bytes)?));
    }
    if len <= 56 {
        return Ok(Form::UpTo56(Boxed::of(alloc, bytes)?));
    }
    if len <= 72 {
        return Ok(Form::UpTo72(Boxed::of(alloc, bytes)?));
    }
    if len <= 104 {
        return Ok(Form::UpTo104(Boxed::of(alloc, bytes)?));
    }
    if len <= 152 {
        return Ok(Form::UpTo152(Boxed::of(alloc, bytes)?));
    }
    if len <= 264 {
        return Ok(Form::UpTo264(Boxed::of(alloc, bytes)?));
    }
    let vector = Vec::from_slice(alloc, bytes)?;
    let boxed = Box::new(alloc, vector)?;
    Ok(Form::Long(boxed))
}

impl PartialEq for ByteString {
    ghost eq = { λ x y. pointwise nat_eq (bytes_of_string x) (bytes_of_string y) };

    ghost laws = { on_per (λ x. bytes_of_string x) (partial_equiv_from_equiv nat_list_eq_equiv) };

    fn eq(&self, other: &Self) -> bool {
        self.as_bytes() == other.as_bytes()
    }
}

impl Eq for ByteString {
    ghost laws = { on_equiv (λ x. bytes_of_string x) nat_list_eq_equiv };
}

impl PartialOrd for ByteString {
    ghost partial_cmp = { λ x y. Some (text_order (bytes_of_string x) (bytes_of_string y)) };

    ghost laws = { on_po (λ x. bytes_of_string x) texts_po };

    fn partial_cmp(&self, other: &Self) -> Option<Ordering> {
        Some(self.cmp(other))
    }
}

impl Ord for ByteString {
    ghost cmp = { λ x y. text_order (bytes_of_string x) (bytes_of_string y) };

    ghost total = { on_total (λ x. bytes_of_string x) nat_list_cmp_total };

    ghost matches_partial_cmp = { λ x y. refl };

    ghost matches_eq = { λ x y. texts_ties (bytes_of_string x) (bytes_of_string y) };

    fn cmp(&self, other: &Self) -> Ordering {
        self.as_bytes().cmp(other.as_bytes())
    }
}

impl KeyBytes for ByteString {
    ghost encoded = { λ x. grouped (bytes_of_string x) };

    ghost is_key = { λ x. IsText (bytes_of_string x) };

    ghost order = { λ x y. text_order (bytes_of_string x) (bytes_of_string y) };
}

impl RadixKey for ByteString {
    const WANTS_HEADS: bool = true;

    ghost ordered = { refl };

    ghost are_bytes = { λ x is. strings_are_bytes (bytes_of_string x) is };

    ghost sorted = { λ x y _ _. strings_sort (bytes_of_string x) (bytes_of_string y) };

    #[inline]
    fn encoded_len(&self) -> usize {
        let bytes = self.as_bytes();
        <_ as RadixQuery<Vec<u8>>>::encoded_len(&bytes)
    }

    #[inline]
    fn encoded_byte(&self, index: usize) -> u8 {
        let bytes = self.as_bytes();
        <_ as RadixQuery<Vec<u8>>>::encoded_byte(&bytes, index)
    }

    #[inline]
    fn encoded_head(&self, skip: u32) -> u64 {
        let bytes = self.as_bytes();
        <_ as RadixQuery<Vec<u8>>>::encoded_head(&bytes, skip)
    }
}

impl RadixQuery<ByteString> for &[u8] {
    ghost encoded = { λ q. grouped q.now };

    ghost is_query = { λ q. IsText q.now };

    ghost compare = { λ q x. text_order q.now (bytes_of_string x) };

    ghost are_bytes = { λ q is. strings_are_bytes q.now is };

    ghost agrees = { λ q x _ _ _. sorted_agrees (text_order q.now (bytes_of_string x)) (grouped q.now)
        (grouped (bytes_of_string x)) (strings_sort q.now (bytes_of_string x)) };

    #[inline]
    fn compare(&self, key: &ByteString) -> Ordering {
        let bytes = key.as_bytes();
        (*self).cmp(bytes)
    }

    #[inline]
    fn encoded_len(&self) -> usize {
        <_ as RadixQuery<Vec<u8>>>::encoded_len(self)
    }

    #[inline]
    fn encoded_byte(&self, index: usize) -> u8 {
        <_ as RadixQuery<Vec<u8>>>::encoded_byte(self, index)
    }

    #[inline]
    fn encoded_head(&self, skip: u32) -> u64 {
        <_ as RadixQuery<Vec<u8>>>::encoded_head(self, skip)
    }
}

// How a prefix compares to a byte string: equal where that begins with it.
fn compare_front(prefix: &[u8], bytes: &[u8]) -> Ordering
    ensures { result ≡ prefix_cmp prefix.now bytes.now }
{
    let count = prefix.len().min(bytes.len());
    prefix.cmp(&bytes[..count])
}

impl PrefixQuery<ByteString> for &[u8] {
    ghost is_prefix = { λ q. IsText q.now };

    ghost begins = { λ q x. begins_with q.now (bytes_of_string x) };

    ghost compare_start = { λ q x. prefix_cmp q.now (bytes_of_string x) };

    ghost bound_encoded = { λ q. grouped_bound q.now };

    ghost begins_is = { λ q x. starts_equal q.now (bytes_of_string x) };

    ghost are_bytes = { λ q edge is. grouped_bounds_are_bytes q.now edge is };

    ghost agrees = { λ q edge x _ x_is rest rest_is short. grouped_bounds_agree q.now edge (bytes_of_string x) rest
        (All-append IsByte (grouped (bytes_of_string x)) rest (strings_are_bytes (bytes_of_string x) x_is) rest_is) short };

    fn compare_start(&self, key: &ByteString) -> Ordering {
        compare_front(*self, key.as_bytes())
    }

    fn bound_len(&self, edge: Edge) -> usize {
        <_ as PrefixQuery<Vec<u8>>>::bound_len(self, edge)
    }

    fn bound_byte(&self, edge: Edge, index: usize) -> u8 {
        <_ as PrefixQuery<Vec<u8>>>::bound_byte(self, edge, index)
    }
}
