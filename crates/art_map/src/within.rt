//! The entries within two bounds: the place of each is sought, and what is between them are pages.
ghost use Rattle.std.specs.Prelude.{◌≡◌, ◌<◌, ◌≤◌, ◌&&◌, ℕ, true, false, not, Some, drop, filter, length, take};
ghost use Rattle.art_nodes.specs.Pointers.{slab_key};
ghost use Rattle.art_index.specs.Places.{IsPlaced};
ghost use Rattle.art_map.specs.Gaps.{is_behind};
ghost use Rattle.art_map.specs.Pages.{map_entries, IsMap};
ghost use Rattle.art_map.specs.Ranges.{IsPartOf, is_from, is_past};
ghost use Rattle.art_map.specs.Runs.{IsRun, rank_at};
ghost use Rattle.art_map.specs.Seats.{IsGapOf, IsInPage, seat_place};
ghost use Rattle.art_map.specs.Trees.{pages_in, pages_of};

use crate::gaps::{gap_in, seat_of};
use crate::iter::{Iter, entries_of_run};
use crate::map::{Leaf, Tree};
use crate::runs::{take_first, take_last};
use art_bytes::AsBytes;
use art_index::{first_page, last_page, page};
use art_keys::{RadixKey, RadixQuery};
use art_pages::Page;
use std::ops::Bound;

// The entries from one index on and before another, none where the other is before it.
fn slice_between<T>(entries: &[T], start: usize, end: usize) -> &[T]
    requires { end ≤ length entries.now }
    ensures { result.now ≡ drop start (take end entries.now) }
{
    if start <= end {
        &entries[start..end]
    } else {
        &[]
    }
}

// The entries from an index on.
fn slice_from<T>(entries: &[T], start: usize) -> &[T]
    requires { start ≤ length entries.now }
    ensures { result.now ≡ drop start entries.now }
{
    &entries[start..]
}

// The entries before an index.
fn slice_up_to<T>(entries: &[T], end: usize) -> &[T]
    requires { end ≤ length entries.now }
    ensures { result.now ≡ take end entries.now }
{
    &entries[..end]
}

// These entries.
fn entries_of_slice<'a, K: RadixKey, V>(entries: &'a [(K, V)]) -> Iter<'a, K, V>
    ensures { result ≡ entries.now }
{
    entries_of_run(entries, None, &[])
}

// The index of the first entry of a page within a start bound.
fn start_in<K: RadixKey, V, Q: RadixQuery<K>>(page: &Page<K, V>, start: Bound<Q>) -> usize
    ensures inside { result ≤ length page.now.entries }
    ensures gap { IsGapOf (λ entry. is_from Q.compare start entry.0) page.now.entries result }
{
    match start {
        Bound::Included(query) => gap_in(page, query, false),
        Bound::Excluded(query) => gap_in(page, query, true),
        Bound::Unbounded => 0,
    }
}

// The index of the first entry of a page past an end bound.
fn end_in<K: RadixKey, V, Q: RadixQuery<K>>(page: &Page<K, V>, end: Bound<Q>) -> usize
    ensures inside { result ≤ length page.now.entries }
    ensures gap { IsGapOf (λ entry. is_past Q.compare end entry.0) page.now.entries result }
{
    match end {
        Bound::Included(query) => gap_in(page, query, true),
        Bound::Excluded(query) => gap_in(page, query, false),
        Bound::Unbounded => page.len(),
    }
}

// The gap of a query among all entries of a map: the page of it, and an index there.
fn place_of<K: RadixKey, V, Q: RadixQuery<K>>(
    head: &Page<K, V>,
    tree: &Tree<K, V>,
    query: Q,
    after: bool,
) -> (Option<Leaf<K, V>>, usize)
    requires { IsMap K.order K.is_key K.encoded head.now.entries (pages_of tree.now.arena) }
    ensures inside { IsInPage head.now.entries tree.now.arena result.0 result.1 }
    ensures gap { IsGapOf (λ entry. is_behind (Q.compare query) after entry.0)
        (map_entries head.now.entries (pages_of tree.now.arena))
        (seat_place head.now.entries tree.now.arena result.0 result.1) }
{
    seat_of(head, tree, query, after)
}

// The place of the first entry of a map within a start bound.
fn start_of<K: RadixKey, V, Q: RadixQuery<K>>(
    head: &Page<K, V>,
    tree: &Tree<K, V>,
    start: Bound<Q>,
) -> (Option<Leaf<K, V>>, usize)
    requires { IsMap K.order K.is_key K.encoded head.now.entries (pages_of tree.now.arena) }
    ensures inside { IsInPage head.now.entries tree.now.arena result.0 result.1 }
    ensures gap { IsGapOf (λ entry. is_from Q.compare start entry.0)
        (map_entries head.now.entries (pages_of tree.now.arena))
        (seat_place head.now.entries tree.now.arena result.0 result.1) }
{
    match start {
        Bound::Included(query) => place_of(head, tree, query, false),
        Bound::Excluded(query) => place_of(head, tree, query, true),
        Bound::Unbounded => (None, 0),
    }
}

// The place behind the last entry of a map.
fn end_place<K: RadixKey, V>(head: &Page<K, V>, tree: &Tree<K, V>) -> (Option<Leaf<K, V>>, usize)
    ensures inside { IsInPage head.now.entries tree.now.arena result.0 result.1 }
    ensures end { seat_place head.now.entries tree.now.arena result.0 result.1
        ≡ length (map_entries head.now.entries (pages_of tree.now.arena)) }
{
    match last_page(tree) {
        Some(leaf) => (Some(leaf), page(tree, leaf).1.len()),
        None => (None, head.len()),
    }
}

// The place of the first entry of a map past an end bound.
fn end_of<K: RadixKey, V, Q: RadixQuery<K>>(
    head: &Page<K, V>,
    tree: &Tree<K, V>,
    end: Bound<Q>,
) -> (Option<Leaf<K, V>>, usize)
    requires { IsMap K.order K.is_key K.encoded head.now.entries (pages_of tree.now.arena) }
    ensures inside { IsInPage head.now.entries tree.now.arena result.0 result.1 }
    ensures gap { IsGapOf (λ entry. is_past Q.compare end entry.0)
        (map_entries head.now.entries (pages_of tree.now.arena))
        (seat_place head.now.entries tree.now.arena result.0 result.1) }
{
    match end {
        Bound::Included(query) => place_of(head, tree, query, true),
        Bound::Excluded(query) => place_of(head, tree, query, false),
        Bound::Unbounded => end_place(head, tree),
    }
}

// Whether the page of a leaf is before that of another.
fn is_before<K: RadixKey, V>(tree: &Tree<K, V>, leaf: Leaf<K, V>, other: Leaf<K, V>) -> bool
    requires leaf { IsPlaced (λ anchor. anchor) tree.now.arena leaf }
    requires other { IsPlaced (λ anchor. anchor) tree.now.arena other }
    ensures before { result ≡ true →
        rank_at tree.now.arena (slab_key leaf) < rank_at tree.now.arena (slab_key other) }
    ensures behind { result ≡ false →
        rank_at tree.now.arena (slab_key other) ≤ rank_at tree.now.arena (slab_key leaf) }
{
    if leaf.key() == other.key() {
        return false;
    }
    let anchor = page(tree, leaf).0.as_bytes();
    let other_anchor = page(tree, other).0.as_bytes();
    anchor.cmp(other_anchor).is_lt()
}

// The entries from an index of the first page up to an index of the page of a leaf.
fn from_head<'a, K: RadixKey, V>(
    head: &'a Page<K, V>,
    tree: &'a Tree<K, V>,
    start: usize,
    last: Leaf<K, V>,
    end: usize,
) -> Iter<'a, K, V>
    requires start { start ≤ length head.now.entries }
    requires end { IsInPage head.now.entries tree.now.arena (Some last) end }
    ensures { result ≡ drop start (take (seat_place head.now.entries tree.now.arena (Some last) end)
        (map_entries head.now.entries (pages_of tree.now.arena))) }
{
    let Some(first) = first_page(tree) else {
        return entries_of_slice(&[]);
    };
    let (entries, pages) = take_last(tree, first, last);
    let front = slice_from(head.entries(), start);
    entries_of_run(front, pages, slice_up_to(entries, end))
}

// The entries from an index of the page of a leaf up to an index of that of another, or of the same.
fn from_leaf<'a, K: RadixKey, V>(
    _head: &Page<K, V>,
    tree: &'a Tree<K, V>,
    first: Leaf<K, V>,
    start: usize,
    last: Leaf<K, V>,
    end: usize,
) -> Iter<'a, K, V>
    requires { (run : IsRun tree.now.arena first last) × (start ≤ length run.begins.entry.1.entries)
        × (end ≤ length run.ends.entry.1.entries) }
    ensures { result ≡ drop (seat_place _head.now.entries tree.now.arena (Some first) start)
        (take (seat_place _head.now.entries tree.now.arena (Some last) end)
        (map_entries _head.now.entries (pages_of tree.now.arena))) }
{
    let (entries, rest) = take_first(tree, first, last);
    match rest {
        None => entries_of_slice(slice_between(entries, start, end)),
        Some((tree, next, last)) => {
            let (last_entries, pages) = take_last(tree, next, last);
            let front = slice_from(entries, start);
            entries_of_run(front, pages, slice_up_to(last_entries, end))
        }
    }
}

// The entries from a place up to an index of the first page, none where that is before the place.
fn up_to_head<'a, K: RadixKey, V>(
    head: &'a Page<K, V>,
    _tree: &Tree<K, V>,
    start: (Option<Leaf<K, V>>, usize),
    end: usize,
) -> Iter<'a, K, V>
    requires start { IsInPage head.now.entries _tree.now.arena start.0 start.1 }
    requires end { end ≤ length head.now.entries }
    ensures { result ≡ drop (seat_place head.now.entries _tree.now.arena start.0 start.1)
        (take end (map_entries head.now.entries (pages_of _tree.now.arena))) }
{
    match start.0 {
        None => entries_of_slice(slice_between(head.entries(), start.1, end)),
        Some(_leaf) => entries_of_slice(&[]),
    }
}

// The entries from a place up to an index of the page of a leaf, none where that is before the place.
fn up_to_leaf<'a, K: RadixKey, V>(
    head: &'a Page<K, V>,
    tree: &'a Tree<K, V>,
    start: (Option<Leaf<K, V>>, usize),
    last: Leaf<K, V>,
    end: usize,
) -> Iter<'a, K, V>
    requires start { IsInPage head.now.entries tree.now.arena start.0 start.1 }
    requires end { IsInPage head.now.entries tree.now.arena (Some last) end }
    ensures { result ≡ drop (seat_place head.now.entries tree.now.arena start.0 start.1)
        (take (seat_place head.now.entries tree.now.arena (Some last) end)
        (map_entries head.now.entries (pages_of tree.now.arena))) }
{
    let Some(first) = start.0 else {
        return from_head(head, tree, start.1, last, end);
    };
    if is_before(tree, last, first) {
        return entries_of_slice(&[]);
    }
    from_leaf(head, tree, first, start.1, last, end)
}

// The entries from one place of a map up to another, none where the other is before it.
fn entries_between<'a, K: RadixKey, V>(
    head: &'a Page<K, V>,
    tree: &'a Tree<K, V>,
    start: (Option<Leaf<K, V>>, usize),
    end: (Option<Leaf<K, V>>, usize),
) -> Iter<'a, K, V>
    requires start { IsInPage head.now.entries tree.now.arena start.0 start.1 }
    requires end { IsInPage head.now.entries tree.now.arena end.0 end.1 }
    ensures { result ≡ drop (seat_place head.now.entries tree.now.arena start.0 start.1)
        (take (seat_place head.now.entries tree.now.arena end.0 end.1)
        (map_entries head.now.entries (pages_of tree.now.arena))) }
{
    match end.0 {
        Some(last) => up_to_leaf(head, tree, start, last, end.1),
        None => up_to_head(head, tree, start, end.1),
    }
}

// The entries of a map with a tree that are within two bounds.
fn within_tree<'a, K: RadixKey, V, P: RadixQuery<K>, Q: RadixQuery<K>>(
    head: &'a Page<K, V>,
    tree: &'a Tree<K, V>,
    start: Bound<P>,
    end: Bound<Q>,
) -> Iter<'a, K, V>
    requires { IsMap K.order K.is_key K.encoded head.now.entries (pages_of tree.now.arena) }
    ensures within { result ≡ filter
        (λ entry. is_from P.compare start entry.0 && not (is_past Q.compare end entry.0))
        (map_entries head.now.entries (pages_of tree.now.arena)) }
    ensures part { IsPartOf (map_entries head.now.entries (pages_of tree.now.arena)) result }
{
    let from = start_of(head, tree, start);
    let to = end_of(head, tree, end);
    entries_between(head, tree, from, to)
}

// The entries of a page that are within two bounds.
fn within_page<'a, K: RadixKey, V, P: RadixQuery<K>, Q: RadixQuery<K>>(
    page: &'a Page<K, V>,
    start: Bound<P>,
    end: Bound<Q>,
) -> &'a [(K, V)]
    ensures within { result.now ≡ filter
        (λ entry. is_from P.compare start entry.0 && not (is_past Q.compare end entry.0)) page.now.entries }
    ensures part { IsPartOf page.now.entries result.now }
{
    slice_between(page.entries(), start_in(page, start), end_in(page, end))
}

/// The entries of a map that are within two bounds. Takes no memory.
pub(crate) fn entries_within<'a, K: RadixKey, V, P: RadixQuery<K>, Q: RadixQuery<K>>(
    head: &'a Page<K, V>,
    tree: &'a Option<Box<Tree<K, V>>>,
    start: Bound<P>,
    end: Bound<Q>,
) -> Iter<'a, K, V>
    requires { IsMap K.order K.is_key K.encoded head.now.entries
        (pages_in (λ tree. pages_of tree.value.arena) tree.now) }
    ensures within { result ≡ filter
        (λ entry. is_from P.compare start entry.0 && not (is_past Q.compare end entry.0))
        (map_entries head.now.entries (pages_in (λ tree. pages_of tree.value.arena) tree.now)) }
    ensures part { IsPartOf
        (map_entries head.now.entries (pages_in (λ tree. pages_of tree.value.arena) tree.now)) result }
{
    match tree {
        Some(tree) => within_tree(head, tree, start, end),
        None => entries_of_slice(within_page(head, start, end)),
    }
}

// The entries of a map with a tree from the gap of a start bound on.
fn from_in_tree<'a, K: RadixKey, V, Q: RadixQuery<K>>(
    head: &'a Page<K, V>,
    tree: &'a Tree<K, V>,
    start: Bound<Q>,
) -> Iter<'a, K, V>
    requires { IsMap K.order K.is_key K.encoded head.now.entries (pages_of tree.now.arena) }
    ensures { (place : ℕ) × IsGapOf (λ entry. is_from Q.compare start entry.0)
        (map_entries head.now.entries (pages_of tree.now.arena)) place ×
        (result ≡ drop place (map_entries head.now.entries (pages_of tree.now.arena))) }
{
    let from = start_of(head, tree, start);
    let to = end_place(head, tree);
    entries_between(head, tree, from, to)
}

// The entries of a map with a tree up to the gap of an end bound.
fn up_to_in_tree<'a, K: RadixKey, V, Q: RadixQuery<K>>(
    head: &'a Page<K, V>,
    tree: &'a Tree<K, V>,
    end: Bound<Q>,
) -> Iter<'a, K, V>
    requires { IsMap K.order K.is_key K.encoded head.now.entries (pages_of tree.now.arena) }
    ensures { (place : ℕ) × IsGapOf (λ entry. is_past Q.compare end entry.0)
        (map_entries head.now.entries (pages_of tree.now.arena)) place ×
        (result ≡ take place (map_entries head.now.entries (pages_of tree.now.arena))) }
{
    let to = end_of(head, tree, end);
    entries_between(head, tree, (None, 0), to)
}

/// The entries of a map from the gap of a start bound on. Takes no memory.
pub(crate) fn entries_from<'a, K: RadixKey, V, Q: RadixQuery<K>>(
    head: &'a Page<K, V>,
    tree: &'a Option<Box<Tree<K, V>>>,
    start: Bound<Q>,
) -> Iter<'a, K, V>
    requires { IsMap K.order K.is_key K.encoded head.now.entries
        (pages_in (λ tree. pages_of tree.value.arena) tree.now) }
    ensures { (place : ℕ) × IsGapOf (λ entry. is_from Q.compare start entry.0)
        (map_entries head.now.entries (pages_in (λ tree. pages_of tree.value.arena) tree.now)) place ×
        (result ≡ drop place
        (map_entries head.now.entries (pages_in (λ tree. pages_of tree.value.arena) tree.now))) }
{
    match tree {
        Some(tree) => from_in_tree(head, tree, start),
        None => entries_of_slice(slice_from(head.entries(), start_in(head, start))),
    }
}

/// The entries of a map up to the gap of an end bound. Takes no memory.
pub(crate) fn entries_up_to<'a, K: RadixKey, V, Q: RadixQuery<K>>(
    head: &'a Page<K, V>,
    tree: &'a Option<Box<Tree<K, V>>>,
    end: Bound<Q>,
) -> Iter<'a, K, V>
    requires { IsMap K.order K.is_key K.encoded head.now.entries
        (pages_in (λ tree. pages_of tree.value.arena) tree.now) }
    ensures { (place : ℕ) × IsGapOf (λ entry. is_past Q.compare end entry.0)
        (map_entries head.now.entries (pages_in (λ tree. pages_of tree.value.arena) tree.now)) place ×
        (result ≡ take place
        (map_entries head.now.entries (pages_in (λ tree. pages_of tree.value.arena) tree.now))) }
{
    match tree {
        Some(tree) => up_to_in_tree(head, tree, end),
        None => entries_of_slice(slice_up_to(head.entries(), end_in(head, end))),
    }
}
