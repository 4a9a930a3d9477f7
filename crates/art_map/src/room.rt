//! Room for an entry: more memory for a page, or two pages in place of one.
ghost use Rattle.std.specs.Prelude.{◌≡◌, ◌<◌, None, [], length, IsTrue};
ghost use Rattle.art_pages.specs.Entries.{AllBelow, IsIndexable};
ghost use Rattle.art_index.specs.Places.{IsPlaced};
ghost use Rattle.art_steps.specs.Room.{HasEntryRoom};
ghost use Rattle.art_map.specs.Pages.{map_entries, AnchorsBelow, IsMap};
ghost use Rattle.art_map.specs.Trees.{pages_in, pages_of};

use crate::map::{FIRST_MOST, Leaf, MOST, Tree};
use art_index::{Anchor, add_page, first_page, floor, laws, next_page, page, page_mut};
use art_keys::{KeyBytes, RadixKey};
use art_pages::Page;
use art_tree::ArtTree;
use std::alloc::{AllocError, Global};

// Takes memory for as many more entries as a page has, or for eleven, but not for more than the first page may have.
fn grow<K: RadixKey, V>(page: &mut Page<K, V>) -> Result<(), AllocError>
    ensures { page.new.entries ≡ page.old.entries }
{
    let len = page.len();
    let more = if len == 0 { 11 } else { len };
    page.reserve(more.min(FIRST_MOST.saturating_sub(len)))
}

// Cuts the first page of a map in two. The upper half goes into the tree.
fn cut_head<K: RadixKey + Drop, V: Drop>(
    head: &mut Page<K, V>,
    tree: &mut Tree<K, V>,
    alloc: Global,
) -> Result<(), AllocError>
    requires map { IsMap K.order K.is_key K.encoded head.old.entries (pages_of tree.old.arena) }
    requires some { 0 < length head.old.entries }
    requires room { HasEntryRoom tree.old.arena 1 }
    ensures map { IsMap K.order K.is_key K.encoded head.new.entries (pages_of tree.new.arena) }
    ensures same { map_entries head.new.entries (pages_of tree.new.arena)
        ≡ map_entries head.old.entries (pages_of tree.old.arena) }
{
    laws::encodings_never_clash::<K, Anchor, Page<K, V>, 16>();
    let middle = head.len() / 2;
    let anchor = Anchor::of(head.key_at(middle), alloc)?;
    let upper = head.split_off(middle, MOST)?;
    match add_page(tree, anchor, upper) {
        Ok(()) => Ok(()),
        Err(_) => unreachable!(),
    }
}

// Cuts the page of a leaf in two. The upper half is a page of its own.
fn cut_page<K: RadixKey + Drop, V: Drop>(
    _head: &Page<K, V>,
    tree: &mut Tree<K, V>,
    leaf: Leaf<K, V>,
    alloc: Global,
) -> Result<(), AllocError>
    requires map { IsMap K.order K.is_key K.encoded _head.now.entries (pages_of tree.old.arena) }
    requires leaf { IsPlaced (λ anchor. anchor) tree.old.arena leaf }
    requires some { (here : IsPlaced (λ anchor. anchor) tree.old.arena leaf) →
        1 < length here.entry.1.entries }
    requires room { HasEntryRoom tree.old.arena 1 }
    ensures map { IsMap K.order K.is_key K.encoded _head.now.entries (pages_of tree.new.arena) }
    ensures same { map_entries _head.now.entries (pages_of tree.new.arena)
        ≡ map_entries _head.now.entries (pages_of tree.old.arena) }
{
    laws::encodings_never_clash::<K, Anchor, Page<K, V>, 16>();
    let full = page(tree, leaf).1;
    let middle = full.len() / 2;
    let anchor = Anchor::of(full.key_at(middle), alloc)?;
    let upper = page_mut(tree, leaf).split_off(middle, MOST)?;
    match add_page(tree, anchor, upper) {
        Ok(()) => Ok(()),
        Err(_) => unreachable!(),
    }
}

// Whether a key is above all entries of a page.
fn is_above<K: RadixKey, V>(page: &Page<K, V>, key: &K) -> bool
    ensures { IsTrue result → AllBelow (K.cmp key.now) page.now.entries }
{
    match page.search(key) {
        Ok(_) => false,
        Err(place) => place == page.len(),
    }
}

// Adds an empty page behind all others, for a key that is above all entries.
fn add_last<K: RadixKey + Drop, V: Drop>(
    _head: &Page<K, V>,
    tree: &mut Tree<K, V>,
    key: &K,
    alloc: Global,
) -> Result<(), AllocError>
    requires map { IsMap K.order K.is_key K.encoded _head.now.entries (pages_of tree.old.arena) }
    requires key { IsIndexable K.is_key K.encoded key.now }
    requires above { AllBelow (K.cmp key.now) (map_entries _head.now.entries (pages_of tree.old.arena)) }
    requires anchors { AnchorsBelow (K.encoded key.now) (pages_of tree.old.arena) }
    requires room { HasEntryRoom tree.old.arena 1 }
    ensures map { IsMap K.order K.is_key K.encoded _head.now.entries (pages_of tree.new.arena) }
    ensures same { map_entries _head.now.entries (pages_of tree.new.arena)
        ≡ map_entries _head.now.entries (pages_of tree.old.arena) }
{
    laws::encodings_never_clash::<K, Anchor, Page<K, V>, 16>();
    let anchor = Anchor::of(key, alloc)?;
    let page = Page::with_capacity(alloc, MOST)?;
    match add_page(tree, anchor, page) {
        Ok(()) => Ok(()),
        Err(_) => unreachable!(),
    }
}

// Makes two pages of the full page where a key belongs: halves of it, or where the key is above all
// entries, the page and an empty one behind it. So ascending inserts leave full pages.
fn cut<K: RadixKey + Drop, V: Drop>(
    head: &mut Page<K, V>,
    tree: &mut Tree<K, V>,
    key: &K,
    alloc: Global,
) -> Result<(), AllocError>
    requires map { IsMap K.order K.is_key K.encoded head.old.entries (pages_of tree.old.arena) }
    requires key { IsIndexable K.is_key K.encoded key.now }
    requires room { HasEntryRoom tree.old.arena 1 }
    ensures map { IsMap K.order K.is_key K.encoded head.new.entries (pages_of tree.new.arena) }
    ensures same { map_entries head.new.entries (pages_of tree.new.arena)
        ≡ map_entries head.old.entries (pages_of tree.old.arena) }
{
    match floor(tree, key) {
        Some(leaf) => {
            let full = page(tree, leaf).1;
            if full.len() < 2 {
                return Err(AllocError);
            }
            if next_page(tree, leaf).is_none() && is_above(full, key) {
                return add_last(head, tree, key, alloc);
            }
            cut_page(head, tree, leaf, alloc)
        }
        None => {
            if head.is_empty() {
                return Err(AllocError);
            }
            if first_page(tree).is_none() && is_above(head, key) {
                return add_last(head, tree, key, alloc);
            }
            cut_head(head, tree, alloc)
        }
    }
}

// Makes room where there is a tree.
fn make_room_over<K: RadixKey + Drop, V: Drop>(
    head: &mut Page<K, V>,
    tree: &mut Tree<K, V>,
    key: &K,
    alloc: Global,
) -> Result<(), AllocError>
    requires map { IsMap K.order K.is_key K.encoded head.old.entries (pages_of tree.old.arena) }
    requires key { IsIndexable K.is_key K.encoded key.now }
    ensures map { IsMap K.order K.is_key K.encoded head.new.entries (pages_of tree.new.arena) }
    ensures same { map_entries head.new.entries (pages_of tree.new.arena)
        ≡ map_entries head.old.entries (pages_of tree.old.arena) }
{
    match floor(tree, key) {
        Some(leaf) => {
            if page(tree, leaf).1.len() < MOST {
                return grow(page_mut(tree, leaf));
            }
        }
        None => {
            if head.len() < MOST {
                return grow(head);
            }
        }
    }
    tree.reserve_entries(1)?;
    cut(head, tree, key, alloc)
}

/// Makes room in the page of a map where a key belongs. The entries are the same, also where memory is
/// refused.
pub(crate) fn make_room<K: RadixKey + Drop, V: Drop>(
    head: &mut Page<K, V>,
    tree: &mut Option<Box<Tree<K, V>>>,
    key: &K,
    alloc: Global,
) -> Result<(), AllocError>
    requires map { IsMap K.order K.is_key K.encoded head.old.entries
        (pages_in (λ tree. pages_of tree.value.arena) tree.old) }
    requires key { IsIndexable K.is_key K.encoded key.now }
    ensures map { IsMap K.order K.is_key K.encoded head.new.entries
        (pages_in (λ tree. pages_of tree.value.arena) tree.new) }
    ensures same { map_entries head.new.entries (pages_in (λ tree. pages_of tree.value.arena) tree.new)
        ≡ map_entries head.old.entries (pages_in (λ tree. pages_of tree.value.arena) tree.old) }
{
    if tree.is_none() {
        if head.len() < FIRST_MOST {
            return grow(head);
        }
        plant(tree, alloc)?;
    }
    match tree {
        Some(tree) => make_room_over(head, tree, key, alloc),
        None => Err(AllocError),
    }
}

// A tree with no pages, in the place of none.
fn plant<K: KeyBytes + Drop, V: Drop>(
    tree: &mut Option<Box<Tree<K, V>>>,
    alloc: Global,
) -> Result<(), AllocError>
    requires { tree.old ≡ None }
    ensures { pages_in (λ tree. pages_of tree.value.arena) tree.new ≡ [] }
{
    let first = Box::new(alloc, ArtTree::new(alloc))?;
    *tree = Some(first);
    Ok(())
}
