//! Where an entry may be: guesses of an index, and what the entries there say of them.
ghost use Rattle.std.specs.Prelude.{◌≤◌, length, IfSome};
ghost use Rattle.art_pages.specs.Places.{IsSearchResult};

use art_keys::{RadixKey, RadixQuery};
use std::cmp::Ordering;

// How many entries a block has.
const BLOCK: usize = 8;

/// How many of these heads are below one, where they ascend: first of the last ones of blocks, and then in
/// a block. One load waits for others, and no branch depends on a head.
#[inline]
pub(crate) fn heads_below(heads: &[u64], head: u64) -> usize
    ensures { result ≤ length heads.now }
{
    let mut base = 0;
    for block in 0..heads.len() / BLOCK {
        base += if heads[block * BLOCK + (BLOCK - 1)] < head {
            BLOCK
        } else {
            0
        };
    }
    let mut count = base;
    for index in base..heads.len().min(base + (BLOCK - 1)) {
        count += if heads[index] < head { 1 } else { 0 };
    }
    count
}

/// The same of entries and a query.
#[inline]
pub(crate) fn entries_below<K: RadixKey, V, Q: RadixQuery<K>>(pairs: &[(K, V)], query: Q) -> usize
    ensures { result ≤ length pairs.now }
{
    let mut base = 0;
    for block in 0..pairs.len() / BLOCK {
        base += if is_above(&query, &pairs[block * BLOCK + (BLOCK - 1)].0) {
            BLOCK
        } else {
            0
        };
    }
    let mut count = base;
    for index in base..pairs.len().min(base + (BLOCK - 1)) {
        count += if is_above(&query, &pairs[index].0) {
            1
        } else {
            0
        };
    }
    count
}

#[inline]
fn is_above<K: RadixKey, Q: RadixQuery<K>>(query: &Q, key: &K) -> bool {
    query.compare(key) == Ordering::Greater
}

/// Whether a query belongs to an index, or else to the next: a query may have the head of an entry below it.
#[inline]
pub(crate) fn place_near<K: RadixKey, V, Q: RadixQuery<K>>(
    pairs: &[(K, V)],
    index: usize,
    query: Q,
) -> Option<Result<usize, usize>>
    requires { index ≤ length pairs.now }
    ensures { IfSome result (IsSearchResult (Q.compare query) pairs.now) }
{
    match place_at(pairs, index, query) {
        Some(place) => Some(place),
        None if index < pairs.len() => place_at(pairs, index + 1, query),
        None => None,
    }
}

// Whether a query belongs to an index: what the entries beside it say.
#[inline]
fn place_at<K: RadixKey, V, Q: RadixQuery<K>>(
    pairs: &[(K, V)],
    index: usize,
    query: Q,
) -> Option<Result<usize, usize>>
    requires { index ≤ length pairs.now }
    ensures { IfSome result (IsSearchResult (Q.compare query) pairs.now) }
{
    if index < pairs.len() {
        match query.compare(&pairs[index].0) {
            Ordering::Equal => return Some(Ok(index)),
            Ordering::Greater => return None,
            Ordering::Less => {}
        }
    }
    if 0 < index {
        match query.compare(&pairs[index - 1].0) {
            Ordering::Greater => {}
            _ => return None,
        }
    }
    Some(Err(index))
}
