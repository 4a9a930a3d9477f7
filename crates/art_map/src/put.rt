//! An entry put into the page where it belongs.
ghost use Rattle.std.specs.Prelude.{◌≡◌, ◌<◌, None, Some, IfOk, IfErr, OnOk, OnErr};
ghost use Rattle.std.specs.BTreeMap.{insert_entry};
ghost use Rattle.art_pages.specs.Entries.{IsIndexable, IsPlaceOf, get_by, get_key_by};
ghost use Rattle.art_map.specs.Inserts.{IsSwapped};
ghost use Rattle.art_map.specs.Pages.{map_entries, IsMap};
ghost use Rattle.art_map.specs.Trees.{pages_in, pages_of};

use crate::map::Tree;
use crate::spots::find_over;
use art_index::{floor, page_mut};
use art_keys::RadixKey;
use art_pages::Page;
use std::alloc::Global;
use std::mem;

// Puts an entry at its place in a page with spare capacity and fewer entries than `most`, or replaces the
// value of its key. Else the entry comes back.
fn put_at<K: RadixKey + Drop, V>(
    page: &mut Page<K, V>,
    found: Result<usize, usize>,
    most: usize,
    key: K,
    value: V,
) -> Result<Option<V>, (K, V)>
    requires key { IsIndexable K.is_key K.encoded key }
    requires place { IsPlaceOf (K.cmp key) page.old.entries found }
    ensures old { IfOk result (λ old. old ≡ get_by (K.cmp key) page.old.entries) }
    ensures entries { OnOk result (page.new.entries ≡ insert_entry K.cmp page.old.entries key value) }
    ensures most { IfOk result (λ old. old ≡ None → 0 < most) }
    ensures returned { IfErr result (λ back. back ≡ (key, value)) }
    ensures absent { OnErr result (get_by (K.cmp key) page.old.entries ≡ None) }
    ensures same { OnErr result (page.new.entries ≡ page.old.entries) }
{
    match found {
        Ok(place) => Ok(Some(page.replace_value(place, value))),
        Err(place) => {
            if !page.has_room() || most <= page.len() {
                return Err((key, value));
            }
            match page.insert_at(place, key, value) {
                Ok(()) => Ok(None),
                Err(refused) => Err(refused.value),
            }
        }
    }
}

// The same in the only page of a map.
fn put_in<K: RadixKey + Drop, V>(
    page: &mut Page<K, V>,
    most: usize,
    key: K,
    value: V,
) -> Result<Option<V>, (K, V)>
    requires { IsIndexable K.is_key K.encoded key }
    ensures old { IfOk result (λ old. old ≡ get_by (K.cmp key) page.old.entries) }
    ensures entries { OnOk result (page.new.entries ≡ insert_entry K.cmp page.old.entries key value) }
    ensures most { IfOk result (λ old. old ≡ None → 0 < most) }
    ensures returned { IfErr result (λ back. back ≡ (key, value)) }
    ensures absent { OnErr result (get_by (K.cmp key) page.old.entries ≡ None) }
    ensures same { OnErr result (page.new.entries ≡ page.old.entries) }
{
    let found = page.search(&key);
    put_at(page, found, most, key, value)
}

// The same in the page of a map where the entry belongs.
fn put_over<K: RadixKey + Drop, V>(
    head: &mut Page<K, V>,
    tree: &mut Tree<K, V>,
    most: usize,
    key: K,
    value: V,
) -> Result<Option<V>, (K, V)>
    requires map { IsMap K.order K.is_key K.encoded head.old.entries (pages_of tree.old.arena) }
    requires key { IsIndexable K.is_key K.encoded key }
    ensures map { IsMap K.order K.is_key K.encoded head.new.entries (pages_of tree.new.arena) }
    ensures old { IfOk result (λ old. old ≡ get_by (K.cmp key)
        (map_entries head.old.entries (pages_of tree.old.arena))) }
    ensures entries { OnOk result (map_entries head.new.entries (pages_of tree.new.arena)
        ≡ insert_entry K.cmp (map_entries head.old.entries (pages_of tree.old.arena)) key value) }
    ensures most { IfOk result (λ old. old ≡ None → 0 < most) }
    ensures returned { IfErr result (λ back. back ≡ (key, value)) }
    ensures absent { OnErr result (get_by (K.cmp key)
        (map_entries head.old.entries (pages_of tree.old.arena)) ≡ None) }
    ensures same { OnErr result (map_entries head.new.entries (pages_of tree.new.arena)
        ≡ map_entries head.old.entries (pages_of tree.old.arena)) }
{
    let (leaf, found) = find_over(head, tree, &key);
    match leaf {
        Some(leaf) => put_at(page_mut(tree, leaf), found, most, key, value),
        None => put_at(head, found, most, key, value),
    }
}

/// Puts an entry into the page of a map where it belongs, or replaces the value of its key. Takes no
/// memory: where it is needed for a new key, or `most` is 0, the entry comes back.
pub(crate) fn put<K: RadixKey + Drop, V>(
    head: &mut Page<K, V>,
    tree: &mut Option<Box<Tree<K, V>>>,
    most: usize,
    key: K,
    value: V,
) -> Result<Option<V>, (K, V)>
    requires map { IsMap K.order K.is_key K.encoded head.old.entries
        (pages_in (λ tree. pages_of tree.value.arena) tree.old) }
    requires key { IsIndexable K.is_key K.encoded key }
    ensures map { IsMap K.order K.is_key K.encoded head.new.entries
        (pages_in (λ tree. pages_of tree.value.arena) tree.new) }
    ensures old { IfOk result (λ old. old ≡ get_by (K.cmp key) (map_entries head.old.entries
        (pages_in (λ tree. pages_of tree.value.arena) tree.old))) }
    ensures entries { OnOk result (map_entries head.new.entries
        (pages_in (λ tree. pages_of tree.value.arena) tree.new)
        ≡ insert_entry K.cmp (map_entries head.old.entries
        (pages_in (λ tree. pages_of tree.value.arena) tree.old)) key value) }
    ensures most { IfOk result (λ old. old ≡ None → 0 < most) }
    ensures returned { IfErr result (λ back. back ≡ (key, value)) }
    ensures absent { OnErr result (get_by (K.cmp key) (map_entries head.old.entries
        (pages_in (λ tree. pages_of tree.value.arena) tree.old)) ≡ None) }
    ensures same { OnErr result (map_entries head.new.entries
        (pages_in (λ tree. pages_of tree.value.arena) tree.new)
        ≡ map_entries head.old.entries (pages_in (λ tree. pages_of tree.value.arena) tree.old)) }
{
    match tree {
        Some(tree) => put_over(head, tree, most, key, value),
        None => put_in(head, most, key, value),
    }
}

// Puts a key into the place of the equal key that a page has, and returns that one. Else the key comes
// back.
fn swap_in<K: RadixKey + Drop, V: Drop>(
    page: &mut Page<K, V>,
    alloc: Global,
    key: K,
) -> Result<K, K>
    requires { IsIndexable K.is_key K.encoded key }
    ensures old { IfOk result (λ old. get_key_by (K.cmp key) page.old.entries ≡ Some old) }
    ensures entries { OnOk result (IsSwapped K.cmp key page.old.entries page.new.entries) }
    ensures returned { IfErr result (λ back. back ≡ key) }
    ensures absent { OnErr result (get_key_by (K.cmp key) page.old.entries ≡ None) }
    ensures same { OnErr result (page.new.entries ≡ page.old.entries) }
{
    // So that the entries are known to be in order.
    let _len = page.len();
    let place = match page.search(&key) {
        Ok(place) => place,
        Err(_) => return Err(key),
    };
    let held = mem::replace(page, Page::new(alloc));
    let mut entries = held.into_entries();
    let old = mem::replace(&mut entries[place].0, key);
    *page = Page::from_entries(entries);
    Ok(old)
}

// The same in the page of a map where the key belongs.
fn swap_over<K: RadixKey + Drop, V: Drop>(
    head: &mut Page<K, V>,
    tree: &mut Tree<K, V>,
    alloc: Global,
    key: K,
) -> Result<K, K>
    requires map { IsMap K.order K.is_key K.encoded head.old.entries (pages_of tree.old.arena) }
    requires key { IsIndexable K.is_key K.encoded key }
    ensures map { IsMap K.order K.is_key K.encoded head.new.entries (pages_of tree.new.arena) }
    ensures old { IfOk result (λ old. get_key_by (K.cmp key)
        (map_entries head.old.entries (pages_of tree.old.arena)) ≡ Some old) }
    ensures entries { OnOk result (IsSwapped K.cmp key (map_entries head.old.entries (pages_of tree.old.arena))
        (map_entries head.new.entries (pages_of tree.new.arena))) }
    ensures returned { IfErr result (λ back. back ≡ key) }
    ensures absent { OnErr result (get_key_by (K.cmp key)
        (map_entries head.old.entries (pages_of tree.old.arena)) ≡ None) }
    ensures same { OnErr result (map_entries head.new.entries (pages_of tree.new.arena)
        ≡ map_entries head.old.entries (pages_of tree.old.arena)) }
{
    match floor(tree, &key) {
        Some(leaf) => swap_in(page_mut(tree, leaf), alloc, key),
        None => swap_in(head, alloc, key),
    }
}

/// Puts a key into the place of the equal key that a map has, and returns that one. Where there is none,
/// the key comes back. Is never refused.
pub(crate) fn swap<K: RadixKey + Drop, V: Drop>(
    head: &mut Page<K, V>,
    tree: &mut Option<Box<Tree<K, V>>>,
    alloc: Global,
    key: K,
) -> Result<K, K>
    requires map { IsMap K.order K.is_key K.encoded head.old.entries
        (pages_in (λ tree. pages_of tree.value.arena) tree.old) }
    requires key { IsIndexable K.is_key K.encoded key }
    ensures map { IsMap K.order K.is_key K.encoded head.new.entries
        (pages_in (λ tree. pages_of tree.value.arena) tree.new) }
    ensures old { IfOk result (λ old. get_key_by (K.cmp key) (map_entries head.old.entries
        (pages_in (λ tree. pages_of tree.value.arena) tree.old)) ≡ Some old) }
    ensures entries { OnOk result (IsSwapped K.cmp key
        (map_entries head.old.entries (pages_in (λ tree. pages_of tree.value.arena) tree.old))
        (map_entries head.new.entries (pages_in (λ tree. pages_of tree.value.arena) tree.new))) }
    ensures returned { IfErr result (λ back. back ≡ key) }
    ensures absent { OnErr result (get_key_by (K.cmp key) (map_entries head.old.entries
        (pages_in (λ tree. pages_of tree.value.arena) tree.old)) ≡ None) }
    ensures same { OnErr result (map_entries head.new.entries
        (pages_in (λ tree. pages_of tree.value.arena) tree.new)
        ≡ map_entries head.old.entries (pages_in (λ tree. pages_of tree.value.arena) tree.old)) }
{
    match tree {
        Some(tree) => swap_over(head, tree, alloc, key),
        None => swap_in(head, alloc, key),
    }
}
