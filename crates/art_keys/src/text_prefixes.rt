//! Prefixes of strings and of byte strings.
ghost use Rattle.std.specs.Prelude.{◌≡◌, ◌<◌, List, ℕ, length, get_or};
ghost use Rattle.std.specs.Box.{boxed_str_bytes};
ghost use Rattle.std.specs.String.{string_bytes};
ghost use Rattle.std.proofs.lemmas.List.Elements.{All-append};
ghost use Rattle.art_bytes.specs.Text.{IsByte, IsText};
ghost use Rattle.art_keys.specs.Encoding.{saturated};
ghost use Rattle.art_keys.specs.Groups.{grouped};
ghost use Rattle.art_keys.specs.GroupLaws.{strings_are_bytes};
ghost use Rattle.art_keys.specs.PrefixLaws.{
  starts_equal,
  raised_bounds_are_bytes,
  raised_bounds_agree,
  grouped_bounds_are_bytes,
  grouped_bounds_agree,
};
ghost use Rattle.art_keys.specs.Prefixes.{begins_with, prefix_cmp, raised_bound, begun_from, grouped_bound};
ghost use Rattle.art_keys.specs.StringLaws.{raised_are_bytes};
ghost use Rattle.art_keys.specs.Strings.{IsStringText, raised};

use crate::grouped::{grouped_byte, grouped_len};
use crate::prefix::{Edge, HIGHEST_LEN, PrefixQuery};
use crate::strings::raised_len;
use std::boxed::BoxedStr;
use std::cmp::Ordering;

/// How a prefix compares to a byte string: equal where that begins with it.
fn compare_front(prefix: &[u8], bytes: &[u8]) -> Ordering
    ensures { result ≡ prefix_cmp prefix.now bytes.now }
{
    let count = prefix.len().min(bytes.len());
    prefix.cmp(&bytes[..count])
}

/// How many bytes a bound of a prefix of strings has.
fn raised_bound_len(prefix: &str, edge: Edge) -> usize
    ensures len { result ≡ saturated (length (raised_bound prefix.now edge)) }
    ensures text { IsStringText prefix.now }
{
    // For the proof alone: the string is UTF-8.
    let _len = raised_len(prefix);
    match edge {
        Edge::Lowest => prefix.len(),
        Edge::Highest => prefix.len().saturating_add(HIGHEST_LEN),
    }
}

/// One byte of it.
fn raised_bound_byte(prefix: &str, edge: Edge, index: usize) -> u8
    requires { index < saturated (length (raised_bound prefix.now edge)) }
    ensures { result ≡ get_or (raised_bound prefix.now edge) index 0 }
{
    let bytes = prefix.as_bytes();
    if index < bytes.len() {
        bytes[index] + 1
    } else {
        255
    }
}

impl PrefixQuery<String> for &str {
    ghost is_prefix = { λ q. IsStringText q.now };

    ghost begins = { λ q x. begins_with q.now (string_bytes x) };

    ghost compare_start = { λ q x. prefix_cmp q.now (string_bytes x) };

    ghost bound_encoded = { λ q. raised_bound q.now };

    ghost begins_is = { λ q x. starts_equal q.now (string_bytes x) };

    ghost are_bytes = { λ q edge is. raised_bounds_are_bytes q.now edge is };

    ghost agrees = { λ q edge x _ x_is rest rest_is short. raised_bounds_agree q.now edge (string_bytes x) rest
        (All-append IsByte (raised (string_bytes x)) rest (raised_are_bytes (string_bytes x) x_is) rest_is) short };

    fn compare_start(&self, key: &String) -> Ordering {
        compare_front(self.as_bytes(), key.as_bytes())
    }

    fn bound_len(&self, edge: Edge) -> usize {
        raised_bound_len(*self, edge)
    }

    fn bound_byte(&self, edge: Edge, index: usize) -> u8 {
        raised_bound_byte(*self, edge, index)
    }
}

impl PrefixQuery<BoxedStr> for &str {
    ghost is_prefix = { λ q. IsStringText q.now };

    ghost begins = { λ q x. begins_with q.now (boxed_str_bytes x) };

    ghost compare_start = { λ q x. prefix_cmp q.now (boxed_str_bytes x) };

    ghost bound_encoded = { λ q. raised_bound q.now };

    ghost begins_is = { λ q x. starts_equal q.now (boxed_str_bytes x) };

    ghost are_bytes = { λ q edge is. raised_bounds_are_bytes q.now edge is };

    ghost agrees = { λ q edge x _ x_is rest rest_is short. raised_bounds_agree q.now edge (boxed_str_bytes x) rest
        (All-append IsByte (raised (boxed_str_bytes x)) rest
        (raised_are_bytes (boxed_str_bytes x) x_is) rest_is) short };

    fn compare_start(&self, key: &BoxedStr) -> Ordering {
        let text = key.as_str();
        compare_front(self.as_bytes(), text.as_bytes())
    }

    fn bound_len(&self, edge: Edge) -> usize {
        raised_bound_len(*self, edge)
    }

    fn bound_byte(&self, edge: Edge, index: usize) -> u8 {
        raised_bound_byte(*self, edge, index)
    }
}

/// How many bytes a bound of a prefix of byte strings has.
fn grouped_bound_len(prefix: &[u8], edge: Edge) -> usize
    ensures len { result ≡ saturated (length (grouped_bound prefix.now edge)) }
    ensures bytes { IsText prefix.now }
{
    let whole = grouped_len(prefix);
    match edge {
        Edge::Lowest => whole,
        Edge::Highest => begun_len(prefix).saturating_add(HIGHEST_LEN),
    }
}

/// How many bytes the groups of a byte string have up to its last byte.
fn begun_len(prefix: &[u8]) -> usize
    ensures { result ≡ length (begun_from 8 prefix.now) }
{
    prefix.len() + prefix.len().saturating_sub(1) / 8
}

/// One byte of a bound.
fn grouped_bound_byte(prefix: &[u8], edge: Edge, index: usize) -> u8
    requires { index < saturated (length (grouped_bound prefix.now edge)) }
    ensures { result ≡ get_or (grouped_bound prefix.now edge) index 0 }
{
    match edge {
        Edge::Lowest => grouped_byte(prefix, index),
        Edge::Highest => {
            if index < begun_len(prefix) {
                grouped_byte(prefix, index)
            } else {
                255
            }
        }
    }
}

impl PrefixQuery<Vec<u8>> for &[u8] {
    ghost is_prefix = { λ q. IsText q.now };

    ghost begins = { λ q x. begins_with q.now x.items };

    ghost compare_start = { λ q x. prefix_cmp q.now x.items };

    ghost bound_encoded = { λ q. grouped_bound q.now };

    ghost begins_is = { λ q x. starts_equal q.now x.items };

    ghost are_bytes = { λ q edge is. grouped_bounds_are_bytes q.now edge is };

    ghost agrees = { λ q edge x _ x_is rest rest_is short. grouped_bounds_agree q.now edge x.items rest
        (All-append IsByte (grouped x.items) rest (strings_are_bytes x.items x_is) rest_is) short };

    fn compare_start(&self, key: &Vec<u8>) -> Ordering {
        compare_front(*self, key.as_slice())
    }

    fn bound_len(&self, edge: Edge) -> usize {
        grouped_bound_len(*self, edge)
    }

    fn bound_byte(&self, edge: Edge, index: usize) -> u8 {
        grouped_bound_byte(*self, edge, index)
    }
}
