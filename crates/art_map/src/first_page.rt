//! The entries of the first page of a map that has any, taken out at once.
ghost use Rattle.std.specs.Prelude.{◌≡◌, ◌++◌, []};
ghost use Rattle.art_map.specs.Pages.{map_entries, IsMap};
ghost use Rattle.art_map.specs.Trees.{pages_in, pages_of};

use crate::ends::first_filled_leaf;
use crate::map::Tree;
use crate::take::drop_if_empty;
use art_index::page_mut;
use art_keys::RadixKey;
use art_pages::Page;
use std::alloc::Global;
use std::mem;

// Takes the entries of the first page that has any out of the tree of a map whose first page has none.
fn take_page_over<K: RadixKey, V>(
    _head: &Page<K, V>,
    tree: &mut Tree<K, V>,
    alloc: Global,
) -> Vec<(K, V)>
    requires map { IsMap K.order K.is_key K.encoded _head.now.entries (pages_of tree.old.arena) }
    requires none { _head.now.entries ≡ [] }
    ensures map { IsMap K.order K.is_key K.encoded _head.now.entries (pages_of tree.new.arena) }
    ensures first { map_entries _head.now.entries (pages_of tree.old.arena)
        ≡ result.items ++ map_entries _head.now.entries (pages_of tree.new.arena) }
    ensures none { result.items ≡ [] → map_entries _head.now.entries (pages_of tree.new.arena) ≡ [] }
{
    let Some(leaf) = first_filled_leaf(tree) else {
        return Vec::new(alloc);
    };
    let first = mem::replace(page_mut(tree, leaf), Page::new(alloc));
    drop_if_empty(_head, tree, leaf);
    first.into_entries()
}

/// Takes the entries of the first page that has any out of a map, or none where no page has any. Takes no
/// memory: where it is refused for a smaller node, the emptied page stays.
pub(crate) fn take_page<K: RadixKey, V>(
    head: &mut Page<K, V>,
    tree: &mut Option<Box<Tree<K, V>>>,
    alloc: Global,
) -> Vec<(K, V)>
    requires { IsMap K.order K.is_key K.encoded head.old.entries
        (pages_in (λ tree. pages_of tree.value.arena) tree.old) }
    ensures map { IsMap K.order K.is_key K.encoded head.new.entries
        (pages_in (λ tree. pages_of tree.value.arena) tree.new) }
    ensures first { map_entries head.old.entries (pages_in (λ tree. pages_of tree.value.arena) tree.old)
        ≡ result.items ++ map_entries head.new.entries (pages_in (λ tree. pages_of tree.value.arena) tree.new) }
    ensures none { result.items ≡ [] →
        map_entries head.new.entries (pages_in (λ tree. pages_of tree.value.arena) tree.new) ≡ [] }
{
    if !head.is_empty() {
        return mem::replace(head, Page::new(alloc)).into_entries();
    }
    match tree {
        Some(tree) => take_page_over(head, tree, alloc),
        None => Vec::new(alloc),
    }
}
