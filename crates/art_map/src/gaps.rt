//! Gaps between entries, found by a query.
ghost use Rattle.art_map.specs.Gaps.{IsGapAt, IsSeat};
ghost use Rattle.art_map.specs.Pages.{IsMap};
ghost use Rattle.art_map.specs.Trees.{pages_of};

use crate::map::{Leaf, Tree};
use art_index::{floor, page};
use art_keys::{RadixKey, RadixQuery};
use art_pages::Page;

/// The index of the first entry of a page behind the gap of a query.
pub fn gap_in<K: RadixKey, V, Q: RadixQuery<K>>(page: &Page<K, V>, query: Q, after: bool) -> usize
    ensures { IsGapAt (Q.compare query) after page.now.entries result }
{
    // So that an index is known to be below the greatest number.
    let _len = page.len();
    match page.search(query) {
        Ok(place) => { if after { place + 1 } else { place } }
        Err(place) => place,
    }
}

/// The page with the gap of a query, by its leaf or none where it is the first page, and the index of
/// the first entry of it behind the gap.
pub fn seat_of<K: RadixKey, V, Q: RadixQuery<K>>(
    head: &Page<K, V>,
    tree: &Tree<K, V>,
    query: Q,
    after: bool,
) -> (Option<Leaf<K, V>>, usize)
    requires { IsMap K.order K.is_key K.encoded head.now.entries (pages_of tree.now.arena) }
    ensures { IsSeat (Q.compare query) after head.now.entries tree.now.arena result.0 result.1 }
{
    // So that the laws of queries are known of it.
    let _len = query.encoded_len();
    match floor(tree, query) {
        Some(leaf) => (Some(leaf), gap_in(page(tree, leaf).1, query, after)),
        None => (None, gap_in(head, query, after)),
    }
}
