//! Pages of few entries beside each other, joined: so removals give memory back.
ghost use Rattle.std.specs.Prelude.{◌≡◌, ◌+◌, ◌≤◌, length, IsTrue};
ghost use Rattle.art_index.specs.Places.{IsPlaced};
ghost use Rattle.art_map.specs.Joins.{AreJoinable};
ghost use Rattle.art_map.specs.Pages.{map_entries, IsMap};
ghost use Rattle.art_map.specs.Trees.{pages_of};

use crate::map::{Leaf, MOST, Tree};
use crate::take::drop_if_empty;
use art_index::{next_page, page, page_mut, previous_page, take_page};
use art_keys::RadixKey;
use art_pages::Page;

// Whether two pages have few entries together, and the lower one has memory for them.
fn are_few<K: RadixKey, V>(low: &Page<K, V>, high: &Page<K, V>) -> bool
    ensures { IsTrue result → length low.now.entries + length high.now.entries ≤ low.now.capacity }
{
    let both = low.len().saturating_add(high.len());
    both <= MOST / 2 && both <= low.capacity()
}

// Moves the entries of the page of the second leaf to the end of that of the first, which is before it.
// Where memory is refused for a smaller node, both stay.
fn join<K: RadixKey, V>(
    _head: &Page<K, V>,
    tree: &mut Tree<K, V>,
    first: Leaf<K, V>,
    second: Leaf<K, V>,
)
    requires map { IsMap K.order K.is_key K.encoded _head.now.entries (pages_of tree.old.arena) }
    requires leaves { AreJoinable tree.old.arena first second }
    ensures map { IsMap K.order K.is_key K.encoded _head.now.entries (pages_of tree.new.arena) }
    ensures same { map_entries _head.now.entries (pages_of tree.new.arena)
        ≡ map_entries _head.now.entries (pages_of tree.old.arena) }
{
    if let Ok((_, upper)) = take_page(tree, second) {
        match page_mut(tree, first).append(upper) {
            Ok(()) => {}
            Err(_) => unreachable!(),
        }
    }
}

// Joins the page of a leaf with the one before it, or else with the one behind it, where both have few
// entries together.
fn join_neighbours<K: RadixKey, V>(_head: &Page<K, V>, tree: &mut Tree<K, V>, leaf: Leaf<K, V>)
    requires map { IsMap K.order K.is_key K.encoded _head.now.entries (pages_of tree.old.arena) }
    requires leaf { IsPlaced (λ anchor. anchor) tree.old.arena leaf }
    ensures map { IsMap K.order K.is_key K.encoded _head.now.entries (pages_of tree.new.arena) }
    ensures same { map_entries _head.now.entries (pages_of tree.new.arena)
        ≡ map_entries _head.now.entries (pages_of tree.old.arena) }
{
    if let Some(previous) = previous_page(tree, leaf) {
        if are_few(page(tree, previous).1, page(tree, leaf).1) {
            return join(_head, tree, previous, leaf);
        }
    }
    if let Some(next) = next_page(tree, leaf) {
        if are_few(page(tree, leaf).1, page(tree, next).1) {
            join(_head, tree, leaf, next);
        }
    }
}

/// Follows a removal from the page of a leaf: takes the page out of the tree if it has no entries, and
/// joins it with a neighbour if it has few. Where memory is refused for that, it stays.
pub(crate) fn settle<K: RadixKey, V>(_head: &Page<K, V>, tree: &mut Tree<K, V>, leaf: Leaf<K, V>)
    requires map { IsMap K.order K.is_key K.encoded _head.now.entries (pages_of tree.old.arena) }
    requires leaf { IsPlaced (λ anchor. anchor) tree.old.arena leaf }
    ensures map { IsMap K.order K.is_key K.encoded _head.now.entries (pages_of tree.new.arena) }
    ensures same { map_entries _head.now.entries (pages_of tree.new.arena)
        ≡ map_entries _head.now.entries (pages_of tree.old.arena) }
{
    let len = page(tree, leaf).1.len();
    if len == 0 {
        drop_if_empty(_head, tree, leaf);
    } else if len <= MOST / 4 {
        join_neighbours(_head, tree, leaf);
    }
}
