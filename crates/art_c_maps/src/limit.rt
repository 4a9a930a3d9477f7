//! Limits of the entries that are sought, as bounds of a range of a map by byte strings.
ghost use Rattle.std.specs.Prelude.{◌≡◌, ◌&&◌, not, nat_eq, if◌then◌else◌};
ghost use Rattle.std.specs.List.{starts_with};
ghost use Rattle.std.specs.Ordering.{is_ge, is_gt, is_le, is_lt};
ghost use Rattle.art_bytes.specs.Text.{text_order};
ghost use Rattle.art_keys.specs.Prefixes.{prefix_cmp};
ghost use Rattle.art_map.specs.Ranges.{is_from, is_past};
ghost use Rattle.art_keys.specs.declared.prefix.Edge.TheVariants.{Highest};
ghost use Rattle.art_c_maps.specs.ByteStrings.{bytes_of_string};
ghost use Rattle.art_c_maps.specs.Limits.{is_limit, limit_compare, limit_encoded, limits_agree, limits_are_bytes};

use crate::byte_string::ByteString;
use art_keys::{Edge, PrefixBound, RadixQuery};
use std::cmp::Ordering;
use std::ops::Bound;

/// A key, or what is behind all keys that begin with a prefix.
#[derive(Clone, Copy)]
pub(crate) enum Limit<'a> {
    Key(&'a [u8]),
    Behind(&'a [u8]),
}

// The bound behind all keys that begin with a prefix.
fn behind(prefix: &[u8]) -> PrefixBound<&[u8]>
    ensures prefix { result.prefix.now ≡ prefix.now }
    ensures edge { result.edge ≡ Highest }
{
    PrefixBound {
        prefix,
        edge: Edge::Highest,
    }
}

impl<'a> RadixQuery<ByteString> for Limit<'a> {
    ghost encoded = { limit_encoded };

    ghost is_query = { is_limit };

    ghost compare = { limit_compare };

    ghost are_bytes = { limits_are_bytes };

    ghost agrees = { limits_agree };

    fn compare(&self, key: &ByteString) -> Ordering {
        match self {
            Limit::Key(limit) => <_ as RadixQuery<ByteString>>::compare(limit, key),
            Limit::Behind(prefix) => <_ as RadixQuery<ByteString>>::compare(&behind(*prefix), key),
        }
    }

    fn encoded_len(&self) -> usize {
        match self {
            Limit::Key(limit) => <_ as RadixQuery<ByteString>>::encoded_len(limit),
            Limit::Behind(prefix) => <_ as RadixQuery<ByteString>>::encoded_len(&behind(*prefix)),
        }
    }

    fn encoded_byte(&self, index: usize) -> u8 {
        match self {
            Limit::Key(limit) => <_ as RadixQuery<ByteString>>::encoded_byte(limit, index),
            Limit::Behind(prefix) => <_ as RadixQuery<ByteString>>::encoded_byte(
                &behind(*prefix),
                index,
            ),
        }
    }

    fn encoded_head(&self, skip: u32) -> u64 {
        match self {
            Limit::Key(limit) => <_ as RadixQuery<ByteString>>::encoded_head(limit, skip),
            Limit::Behind(prefix) => <_ as RadixQuery<ByteString>>::encoded_head(
                &behind(*prefix),
                skip,
            ),
        }
    }
}

/// A bound at a key: of a start or an end within which the key itself is where it is included.
pub(crate) fn bound_at(key: &[u8], inclusive: bool) -> Bound<Limit<'_>>
    ensures start { (x : _) → is_from limit_compare result x
        ≡ (if inclusive then is_le (text_order key.now (bytes_of_string x)) else is_lt (text_order key.now (bytes_of_string x))) }
    ensures end { (x : _) → not (is_past limit_compare result x)
        ≡ (if inclusive then is_ge (text_order key.now (bytes_of_string x)) else is_gt (text_order key.now (bytes_of_string x))) }
{
    let limit = Limit::Key(key);
    if inclusive {
        Bound::Included(limit)
    } else {
        Bound::Excluded(limit)
    }
}

// A start bound before all keys that begin with a prefix.
fn start_of(prefix: &[u8]) -> Bound<Limit<'_>>
    ensures { (x : _) → is_from limit_compare result x ≡ is_le (text_order prefix.now (bytes_of_string x)) }
{
    if prefix.is_empty() {
        Bound::Unbounded
    } else {
        Bound::Included(Limit::Key(prefix))
    }
}

// An end bound behind all keys that begin with a prefix.
fn end_of(prefix: &[u8]) -> Bound<Limit<'_>>
    ensures { (x : _) → is_past limit_compare result x ≡ is_lt (prefix_cmp prefix.now (bytes_of_string x)) }
{
    if prefix.is_empty() {
        Bound::Unbounded
    } else {
        Bound::Excluded(Limit::Behind(prefix))
    }
}

// How a prefix compares to a key: equal where that begins with it, and less where that is behind all that do.
fn compare_start(prefix: &[u8], key: &[u8]) -> Ordering
    ensures { result ≡ prefix_cmp prefix.now key.now }
{
    let count = prefix.len().min(key.len());
    prefix.cmp(&key[..count])
}

/// The bounds of the keys that begin with a prefix, and are at a key or after it, only after it where it is not
/// included.
pub(crate) fn limits_from<'a>(
    prefix: &'a [u8],
    from: &'a [u8],
    inclusive: bool,
) -> (Bound<Limit<'a>>, Bound<Limit<'a>>)
    ensures { (x : _) → (is_from limit_compare result.0 x && not (is_past limit_compare result.1 x))
        ≡ (starts_with nat_eq (bytes_of_string x) prefix.now
        && (if inclusive then is_le (text_order from.now (bytes_of_string x)) else is_lt (text_order from.now (bytes_of_string x)))) }
{
    let end = end_of(prefix);
    let is_before = compare_start(prefix, from).is_gt();
    if is_before {
        return (start_of(prefix), end);
    }
    (bound_at(from, inclusive), end)
}

/// The bounds of the keys that begin with a prefix, and are at a key or before it, only before it where it is not
/// included.
pub(crate) fn limits_to<'a>(
    prefix: &'a [u8],
    from: &'a [u8],
    inclusive: bool,
) -> (Bound<Limit<'a>>, Bound<Limit<'a>>)
    ensures { (x : _) → (is_from limit_compare result.0 x && not (is_past limit_compare result.1 x))
        ≡ (starts_with nat_eq (bytes_of_string x) prefix.now
        && (if inclusive then is_ge (text_order from.now (bytes_of_string x)) else is_gt (text_order from.now (bytes_of_string x)))) }
{
    let start = start_of(prefix);
    let is_behind = compare_start(prefix, from).is_lt();
    if is_behind {
        return (start, end_of(prefix));
    }
    (start, bound_at(from, inclusive))
}
