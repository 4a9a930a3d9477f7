//! An entry taken out of the page where it belongs.
ghost use Rattle.std.specs.Prelude.{◌≡◌};
ghost use Rattle.std.specs.BTreeMap.{is_at};
ghost use Rattle.std.specs.Map.{remove_entry};
ghost use Rattle.std.specs.Option.{option_map};
ghost use Rattle.art_pages.specs.Entries.{IsPlaceOf, get_by, get_key_by};
ghost use Rattle.art_index.specs.Places.{IsPlaced};
ghost use Rattle.art_map.specs.Pages.{map_entries, IsMap};
ghost use Rattle.art_map.specs.Trees.{pages_in, pages_of};

use crate::join::settle;
use crate::map::{Leaf, Tree};
use crate::spots::find_over;
use art_index::{page, page_mut, take_page};
use art_keys::{RadixKey, RadixQuery};
use art_pages::Page;

// Takes the entry at the place of a query out of a page, if there is one.
fn take_at<K: RadixKey, V, Q: RadixQuery<K>>(
    page: &mut Page<K, V>,
    _query: Q,
    found: Result<usize, usize>,
) -> Option<(K, V)>
    requires { IsPlaceOf (Q.compare _query) page.old.entries found }
    ensures key { option_map (λ entry. entry.0) result ≡ get_key_by (Q.compare _query) page.old.entries }
    ensures value { option_map (λ entry. entry.1) result ≡ get_by (Q.compare _query) page.old.entries }
    ensures entries { page.new.entries ≡ remove_entry (is_at (Q.compare _query)) page.old.entries }
{
    match found {
        Ok(place) => Some(page.remove_at(place)),
        Err(_) => None,
    }
}

// Takes the entry with the key of a query out of a page, if the page has it.
fn take_in<K: RadixKey, V, Q: RadixQuery<K>>(page: &mut Page<K, V>, query: Q) -> Option<(K, V)>
    ensures key { option_map (λ entry. entry.0) result ≡ get_key_by (Q.compare query) page.old.entries }
    ensures value { option_map (λ entry. entry.1) result ≡ get_by (Q.compare query) page.old.entries }
    ensures entries { page.new.entries ≡ remove_entry (is_at (Q.compare query)) page.old.entries }
{
    let found = page.search(query);
    take_at(page, query, found)
}

/// Takes the page of a leaf out of the tree of a map, if it has no entries. Where memory is refused for
/// that, it stays.
pub(crate) fn drop_if_empty<K: RadixKey, V>(
    _head: &Page<K, V>,
    tree: &mut Tree<K, V>,
    leaf: Leaf<K, V>,
)
    requires map { IsMap K.order K.is_key K.encoded _head.now.entries (pages_of tree.old.arena) }
    requires leaf { IsPlaced (λ anchor. anchor) tree.old.arena leaf }
    ensures map { IsMap K.order K.is_key K.encoded _head.now.entries (pages_of tree.new.arena) }
    ensures same { map_entries _head.now.entries (pages_of tree.new.arena)
        ≡ map_entries _head.now.entries (pages_of tree.old.arena) }
{
    if page(tree, leaf).1.is_empty() {
        if let Ok((_, empty)) = take_page(tree, leaf) {
            empty.into_entries().destroy_empty();
        }
    }
}

// The same in the page of a map where the entry belongs.
fn take_over<K: RadixKey, V, Q: RadixQuery<K>>(
    head: &mut Page<K, V>,
    tree: &mut Tree<K, V>,
    query: Q,
) -> Option<(K, V)>
    requires { IsMap K.order K.is_key K.encoded head.old.entries (pages_of tree.old.arena) }
    ensures map { IsMap K.order K.is_key K.encoded head.new.entries (pages_of tree.new.arena) }
    ensures key { option_map (λ entry. entry.0) result ≡ get_key_by (Q.compare query)
        (map_entries head.old.entries (pages_of tree.old.arena)) }
    ensures value { option_map (λ entry. entry.1) result ≡ get_by (Q.compare query)
        (map_entries head.old.entries (pages_of tree.old.arena)) }
    ensures entries { map_entries head.new.entries (pages_of tree.new.arena)
        ≡ remove_entry (is_at (Q.compare query)) (map_entries head.old.entries (pages_of tree.old.arena)) }
{
    // So that the laws of queries are known of it.
    let _len = query.encoded_len();
    let (leaf, found) = find_over(head, tree, query);
    match leaf {
        Some(leaf) => {
            let taken = take_at(page_mut(tree, leaf), query, found);
            settle(head, tree, leaf);
            taken
        }
        None => take_at(head, query, found),
    }
}

/// Takes the entry with the key of a query out of a map, if the map has it. Is never refused.
pub(crate) fn take<K: RadixKey, V, Q: RadixQuery<K>>(
    head: &mut Page<K, V>,
    tree: &mut Option<Box<Tree<K, V>>>,
    query: Q,
) -> Option<(K, V)>
    requires { IsMap K.order K.is_key K.encoded head.old.entries
        (pages_in (λ tree. pages_of tree.value.arena) tree.old) }
    ensures map { IsMap K.order K.is_key K.encoded head.new.entries
        (pages_in (λ tree. pages_of tree.value.arena) tree.new) }
    ensures key { option_map (λ entry. entry.0) result ≡ get_key_by (Q.compare query)
        (map_entries head.old.entries (pages_in (λ tree. pages_of tree.value.arena) tree.old)) }
    ensures value { option_map (λ entry. entry.1) result ≡ get_by (Q.compare query)
        (map_entries head.old.entries (pages_in (λ tree. pages_of tree.value.arena) tree.old)) }
    ensures entries { map_entries head.new.entries (pages_in (λ tree. pages_of tree.value.arena) tree.new)
        ≡ remove_entry (is_at (Q.compare query))
        (map_entries head.old.entries (pages_in (λ tree. pages_of tree.value.arena) tree.old)) }
{
    match tree {
        Some(tree) => take_over(head, tree, query),
        None => take_in(head, query),
    }
}
