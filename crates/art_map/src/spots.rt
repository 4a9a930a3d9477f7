//! Where the entry of a key is, or where it belongs, and an entry put there.
ghost use Rattle.std.specs.Prelude.{◌≡◌, ◌<◌, ◌≤◌, ◌^◌, ◌↔◌, None, Ok, Err, length, IfOk, IfErr, IfSome, IsTrue, OnOk, OnErr};
ghost use Rattle.std.specs.BTreeMap.{insert_entry};
ghost use Rattle.art_pages.specs.Entries.{IsIndexable, IsPlaceOf, get_by};
ghost use Rattle.art_map.specs.Pages.{map_entries, IsMap};
ghost use Rattle.art_map.specs.Spots.{HaveKeyNow, IsBeforeSome, IsBehindSome, IsPageSpot, IsSpotInLeaf, IsSpotOver};
ghost use Rattle.art_map.specs.Trees.{pages_in, pages_of};
ghost use Rattle.art_map.specs.declared.fault.InsertRefusal.TheVariants.{KeyTooLong, OutOfMemory};

use crate::fault::{InsertFault, InsertRefusal, TOO_LONG, refuse};
use crate::map::{Leaf, Tree};
use crate::room::make_room;
use art_index::{floor, likely_floor, next_page, page, page_mut};
use art_keys::{RadixKey, RadixQuery};
use art_pages::Page;
use std::alloc::Global;

/// Where an entry is: in the page of a leaf, or in the first page where there is no leaf, and there at
/// an index. And how many entries more there are for it.
#[derive(Drop)]
pub(crate) struct Spot<L> {
    pub(crate) leaf: Option<L>,
    pub(crate) place: usize,
    pub(crate) more: usize,
}

// The page where a query belongs, by the anchors, and its index there.
fn find_by_anchors<K: RadixKey, V, Q: RadixQuery<K>>(
    head: &Page<K, V>,
    tree: &Tree<K, V>,
    query: Q,
) -> (Option<Leaf<K, V>>, Result<usize, usize>)
    requires { IsMap K.order K.is_key K.encoded head.now.entries (pages_of tree.now.arena) }
    ensures { IsSpotOver (Q.compare query) (Q.encoded query) head.now.entries tree.now.arena result.0 result.1 }
{
    // So that the laws of queries are known of it.
    let _len = query.encoded_len();
    match floor(tree, query) {
        Some(leaf) => (Some(leaf), page(tree, leaf).1.search(query)),
        None => (None, head.search(query)),
    }
}

// The page that a query likely belongs to, and its index there, where the page shows that it does: it has
// the entry, or two entries beside the query, or one before it and is the last page.
#[inline]
fn find_inside<K: RadixKey, V, Q: RadixQuery<K>>(
    _head: &Page<K, V>,
    tree: &Tree<K, V>,
    query: Q,
) -> Option<(Leaf<K, V>, Result<usize, usize>)>
    requires { IsMap K.order K.is_key K.encoded _head.now.entries (pages_of tree.now.arena) }
    ensures { IfSome result (λ found.
        IsSpotInLeaf (Q.compare query) (Q.encoded query) _head.now.entries tree.now.arena found.0 found.1) }
{
    // So that the laws of queries are known of it.
    let _len = query.encoded_len();
    let leaf = likely_floor(tree, query)?;
    let page = page(tree, leaf).1;
    let place = page.search(query);
    if !is_behind_some(place) {
        return None;
    }
    if is_before_some(place, page.len()) {
        return Some((leaf, place));
    }
    match next_page(tree, leaf) {
        Some(_) => None,
        None => Some((leaf, place)),
    }
}

// Whether a place is that of an entry, or lies behind one.
#[inline]
fn is_behind_some(place: Result<usize, usize>) -> bool
    ensures { IsTrue result → IsBehindSome place }
{
    match place {
        Ok(_) => true,
        Err(place) => 0 < place,
    }
}

// Whether a place among so many entries is that of an entry, or lies before one.
#[inline]
fn is_before_some(place: Result<usize, usize>, len: usize) -> bool
    ensures { IsTrue result → IsBeforeSome place len }
{
    match place {
        Ok(_) => true,
        Err(place) => place < len,
    }
}

/// The page of a map with a tree where a query belongs, and its index there.
pub(crate) fn find_over<K: RadixKey, V, Q: RadixQuery<K>>(
    head: &Page<K, V>,
    tree: &Tree<K, V>,
    query: Q,
) -> (Option<Leaf<K, V>>, Result<usize, usize>)
    requires { IsMap K.order K.is_key K.encoded head.now.entries (pages_of tree.now.arena) }
    ensures { IsSpotOver (Q.compare query) (Q.encoded query) head.now.entries tree.now.arena result.0 result.1 }
{
    match find_inside(head, tree, query) {
        Some((leaf, place)) => (Some(leaf), place),
        None => find_by_anchors(head, tree, query),
    }
}

/// The page where a query belongs, by its leaf or none where it is the first page, and its index there:
/// that of its entry, or else of the first entry above it.
pub(crate) fn find<K: RadixKey, V, Q: RadixQuery<K>>(
    head: &Page<K, V>,
    tree: &Option<Box<Tree<K, V>>>,
    query: Q,
) -> (Option<Leaf<K, V>>, Result<usize, usize>)
    requires { IsMap K.order K.is_key K.encoded head.now.entries
        (pages_in (λ tree. pages_of tree.value.arena) tree.now) }
    ensures { IsPageSpot (Q.compare query) (Q.encoded query) head.now.entries (λ tree. tree.value.arena) tree.now
        result.0 result.1 }
{
    match tree {
        Some(tree) => find_over(head, tree, query),
        None => (None, head.search(query)),
    }
}

// Puts an entry into a gap of a page with spare capacity and fewer entries than `most`. Else the entry
// comes back.
fn add_in<K: RadixKey, V>(
    page: &mut Page<K, V>,
    place: usize,
    most: usize,
    key: K,
    value: V,
) -> Result<(), (K, V)>
    requires gap { IsPlaceOf (K.cmp key) page.old.entries (Err place) }
    requires key { IsIndexable K.is_key K.encoded key }
    ensures entries { OnOk result (page.new.entries ≡ insert_entry K.cmp page.old.entries key value) }
    ensures there { OnOk result (IsPlaceOf (K.cmp key) page.new.entries (Ok place)) }
    ensures most { OnOk result (0 < most) }
    ensures returned { IfErr result (λ back. back ≡ (key, value)) }
    ensures same { OnErr result (page.new.entries ≡ page.old.entries) }
{
    if !page.has_room() || most <= page.len() {
        return Err((key, value));
    }
    match page.insert_at(place, key, value) {
        Ok(()) => Ok(()),
        Err(refused) => Err(refused.value),
    }
}

// The same in a map, at the spot of the key.
fn add_over<K: RadixKey, V>(
    head: &mut Page<K, V>,
    tree: &mut Tree<K, V>,
    leaf: Option<Leaf<K, V>>,
    place: usize,
    most: usize,
    key: K,
    value: V,
) -> Result<(), (K, V)>
    requires map { IsMap K.order K.is_key K.encoded head.old.entries (pages_of tree.old.arena) }
    requires key { IsIndexable K.is_key K.encoded key }
    requires spot { IsSpotOver (K.cmp key) (K.encoded key) head.old.entries tree.old.arena leaf (Err place) }
    ensures map { IsMap K.order K.is_key K.encoded head.new.entries (pages_of tree.new.arena) }
    ensures entries { OnOk result (map_entries head.new.entries (pages_of tree.new.arena)
        ≡ insert_entry K.cmp (map_entries head.old.entries (pages_of tree.old.arena)) key value) }
    ensures spot { OnOk result
        (IsSpotOver (K.cmp key) (K.encoded key) head.new.entries tree.new.arena leaf (Ok place)) }
    ensures most { OnOk result (0 < most) }
    ensures returned { IfErr result (λ back. back ≡ (key, value)) }
    ensures same { OnErr result (map_entries head.new.entries (pages_of tree.new.arena)
        ≡ map_entries head.old.entries (pages_of tree.old.arena)) }
{
    match leaf {
        Some(leaf) => add_in(page_mut(tree, leaf), place, most, key, value),
        None => add_in(head, place, most, key, value),
    }
}

// The same where there may be no tree.
fn add<K: RadixKey, V>(
    head: &mut Page<K, V>,
    tree: &mut Option<Box<Tree<K, V>>>,
    leaf: Option<Leaf<K, V>>,
    place: usize,
    most: usize,
    key: K,
    value: V,
) -> Result<(), (K, V)>
    requires map { IsMap K.order K.is_key K.encoded head.old.entries
        (pages_in (λ tree. pages_of tree.value.arena) tree.old) }
    requires key { IsIndexable K.is_key K.encoded key }
    requires spot { IsPageSpot (K.cmp key) (K.encoded key) head.old.entries (λ tree. tree.value.arena) tree.old
        leaf (Err place) }
    ensures map { IsMap K.order K.is_key K.encoded head.new.entries
        (pages_in (λ tree. pages_of tree.value.arena) tree.new) }
    ensures entries { OnOk result (map_entries head.new.entries
        (pages_in (λ tree. pages_of tree.value.arena) tree.new)
        ≡ insert_entry K.cmp (map_entries head.old.entries
        (pages_in (λ tree. pages_of tree.value.arena) tree.old)) key value) }
    ensures spot { OnOk result (IsPageSpot (K.cmp key) (K.encoded key) head.new.entries
        (λ tree. tree.value.arena) tree.new leaf (Ok place)) }
    ensures most { OnOk result (0 < most) }
    ensures returned { IfErr result (λ back. back ≡ (key, value)) }
    ensures same { OnErr result (map_entries head.new.entries
        (pages_in (λ tree. pages_of tree.value.arena) tree.new)
        ≡ map_entries head.old.entries (pages_in (λ tree. pages_of tree.value.arena) tree.old)) }
{
    match tree {
        Some(tree) => add_over(head, tree, leaf, place, most, key, value),
        None => add_in(head, place, most, key, value),
    }
}

/// Finds the entry of a key in a map. Where there is none, it is added with the value that the closure
/// makes. An entry that is refused comes back, and the entries are the same: where `most` is 0 each new
/// one is refused.
pub(crate) fn enter<K: RadixKey + Drop, V: Drop, F: FnOnce() -> V>(
    head: &mut Page<K, V>,
    tree: &mut Option<Box<Tree<K, V>>>,
    alloc: Global,
    most: usize,
    key: K,
    make: F,
) -> Result<Spot<Leaf<K, V>>, InsertFault<K, V>>
    requires map { IsMap K.order K.is_key K.encoded head.old.entries
        (pages_in (λ tree. pages_of tree.value.arena) tree.old) }
    requires make { F.pre make }
    ensures map { IsMap K.order K.is_key K.encoded head.new.entries
        (pages_in (λ tree. pages_of tree.value.arena) tree.new) }
    ensures entered { IfOk result (λ spot. HaveKeyNow K.cmp key (F.post make)
        (map_entries head.old.entries (pages_in (λ tree. pages_of tree.value.arena) tree.old))
        (map_entries head.new.entries (pages_in (λ tree. pages_of tree.value.arena) tree.new)) spot.more) }
    ensures spot { IfOk result (λ spot. IsPageSpot (K.cmp key) (K.encoded key) head.new.entries
        (λ tree. tree.value.arena) tree.new spot.leaf (Ok spot.place)) }
    ensures most { IfOk result (λ spot. spot.more ≤ most) }
    ensures one { IfOk result (λ spot. spot.more ≤ 1) }
    ensures too_long { IfErr result
        (λ fault. (fault.refusal ≡ KeyTooLong) ↔ (2 ^ 32 ≤ length (K.encoded key))) }
    ensures returned { IfErr result (λ fault. (fault.key ≡ key) × F.post make fault.value) }
    ensures absent { OnErr result (get_by (K.cmp key)
        (map_entries head.old.entries (pages_in (λ tree. pages_of tree.value.arena) tree.old)) ≡ None) }
    ensures same { OnErr result (map_entries head.new.entries
        (pages_in (λ tree. pages_of tree.value.arena) tree.new)
        ≡ map_entries head.old.entries (pages_in (λ tree. pages_of tree.value.arena) tree.old)) }
{
    let (leaf, found) = find(head, tree, &key);
    match found {
        Ok(place) => Ok(Spot {
            leaf,
            place,
            more: 0,
        }),
        Err(place) => enter_new(head, tree, leaf, place, alloc, most, key, make()),
    }
}

// The same of a key that has no entry, at its spot.
fn enter_new<K: RadixKey + Drop, V: Drop>(
    head: &mut Page<K, V>,
    tree: &mut Option<Box<Tree<K, V>>>,
    leaf: Option<Leaf<K, V>>,
    place: usize,
    alloc: Global,
    most: usize,
    key: K,
    value: V,
) -> Result<Spot<Leaf<K, V>>, InsertFault<K, V>>
    requires map { IsMap K.order K.is_key K.encoded head.old.entries
        (pages_in (λ tree. pages_of tree.value.arena) tree.old) }
    requires spot { IsPageSpot (K.cmp key) (K.encoded key) head.old.entries (λ tree. tree.value.arena) tree.old
        leaf (Err place) }
    ensures map { IsMap K.order K.is_key K.encoded head.new.entries
        (pages_in (λ tree. pages_of tree.value.arena) tree.new) }
    ensures entries { OnOk result (map_entries head.new.entries
        (pages_in (λ tree. pages_of tree.value.arena) tree.new)
        ≡ insert_entry K.cmp (map_entries head.old.entries
        (pages_in (λ tree. pages_of tree.value.arena) tree.old)) key value) }
    ensures spot { IfOk result (λ spot. IsPageSpot (K.cmp key) (K.encoded key) head.new.entries
        (λ tree. tree.value.arena) tree.new spot.leaf (Ok spot.place)) }
    ensures more { IfOk result (λ spot. spot.more ≡ 1) }
    ensures most { OnOk result (0 < most) }
    ensures too_long { IfErr result
        (λ fault. (fault.refusal ≡ KeyTooLong) ↔ (2 ^ 32 ≤ length (K.encoded key))) }
    ensures returned { IfErr result (λ fault. (fault.key ≡ key) × (fault.value ≡ value)) }
    ensures same { OnErr result (map_entries head.new.entries
        (pages_in (λ tree. pages_of tree.value.arena) tree.new)
        ≡ map_entries head.old.entries (pages_in (λ tree. pages_of tree.value.arena) tree.old)) }
{
    if TOO_LONG <= key.encoded_len() {
        return Err(refuse(InsertRefusal::KeyTooLong, key, value));
    }
    let (key, value) = match add(head, tree, leaf, place, most, key, value) {
        Ok(()) => return Ok(Spot {
            leaf,
            place,
            more: 1,
        }),
        Err(back) => back,
    };
    if make_room(head, tree, &key, alloc).is_err() {
        return Err(refuse(InsertRefusal::OutOfMemory, key, value));
    }
    enter_with_room(head, tree, most, key, value)
}

// The same of a key that an index can hold, with a search for its spot, and no more room.
fn enter_with_room<K: RadixKey + Drop, V: Drop>(
    head: &mut Page<K, V>,
    tree: &mut Option<Box<Tree<K, V>>>,
    most: usize,
    key: K,
    value: V,
) -> Result<Spot<Leaf<K, V>>, InsertFault<K, V>>
    requires map { IsMap K.order K.is_key K.encoded head.old.entries
        (pages_in (λ tree. pages_of tree.value.arena) tree.old) }
    requires key { IsIndexable K.is_key K.encoded key }
    requires absent { get_by (K.cmp key)
        (map_entries head.old.entries (pages_in (λ tree. pages_of tree.value.arena) tree.old)) ≡ None }
    ensures map { IsMap K.order K.is_key K.encoded head.new.entries
        (pages_in (λ tree. pages_of tree.value.arena) tree.new) }
    ensures entries { OnOk result (map_entries head.new.entries
        (pages_in (λ tree. pages_of tree.value.arena) tree.new)
        ≡ insert_entry K.cmp (map_entries head.old.entries
        (pages_in (λ tree. pages_of tree.value.arena) tree.old)) key value) }
    ensures spot { IfOk result (λ spot. IsPageSpot (K.cmp key) (K.encoded key) head.new.entries
        (λ tree. tree.value.arena) tree.new spot.leaf (Ok spot.place)) }
    ensures more { IfOk result (λ spot. spot.more ≡ 1) }
    ensures most { OnOk result (0 < most) }
    ensures refusal { IfErr result (λ fault. fault.refusal ≡ OutOfMemory) }
    ensures returned { IfErr result (λ fault. (fault.key ≡ key) × (fault.value ≡ value)) }
    ensures same { OnErr result (map_entries head.new.entries
        (pages_in (λ tree. pages_of tree.value.arena) tree.new)
        ≡ map_entries head.old.entries (pages_in (λ tree. pages_of tree.value.arena) tree.old)) }
{
    let (leaf, found) = find(head, tree, &key);
    let Err(place) = found else {
        unreachable!();
    };
    match add(head, tree, leaf, place, most, key, value) {
        Ok(()) => Ok(Spot {
            leaf,
            place,
            more: 1,
        }),
        Err((key, value)) => Err(refuse(InsertRefusal::OutOfMemory, key, value)),
    }
}
