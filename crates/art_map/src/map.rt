//! The map.
ghost use Rattle.std.specs.Prelude.{◌≡◌, ◌↔◌, [], length, IsTrue};
ghost use Rattle.art_pages.specs.Entries.{IsOrdered};

mod changes;
mod comparing;
mod cursors;
mod iterating;
mod lending;
mod many_entries;
mod moving;
mod ranges;
mod reading;
mod removals;
mod retaining;
mod splitting;

use art_arena::LeafPtr;
use art_index::Anchor;
use art_keys::{KeyBytes, RadixKey};
use art_pages::Page;
use art_tree::ArtTree;
use std::alloc::Global;
use std::marker::Model;

/// How many entries a page has, at most.
pub(crate) const MOST: usize = 63;

/// How many entries the first page has, at most, where there is no tree. Each half of them has room for one more.
pub(crate) const FIRST_MOST: usize = 124;

/// A tree with a page in each leaf, under the page's anchor.
pub type Tree<K, V> = ArtTree<Anchor, Page<K, V>, 16>;

/// A leaf of it.
pub type Leaf<K, V> = LeafPtr<Anchor, Page<K, V>, 16>;

/// An ordered map: the list of its entries, in ascending order of their keys.
#[derive(Drop)]
pub struct Map<K: KeyBytes, V> {
    // The entries below all anchors.
    head: Page<K, V>,
    tree: Option<Box<Tree<K, V>>>,
    len: usize,
    alloc: Global,
}

impl<K: KeyBytes, V> Model for Map<K, V> {
    ghost use Rattle.std.specs.Prelude.{◌≡◌, List, length};

    ghost Value = { List (K × V) };

    ghost use Rattle.art_map.specs.Pages.{map_entries, IsMap};
    ghost use Rattle.art_map.specs.Trees.{pages_in, pages_of};

    ghost view = { λ map. map_entries map.head.entries (pages_in (λ tree. pages_of tree.value.arena) map.tree) };

    ghost invariant = { λ map. IsMap K.order K.is_key K.encoded map.head.entries (pages_in (λ tree. pages_of tree.value.arena) map.tree)
        × (map.len ≡ length (map_entries map.head.entries (pages_in (λ tree. pages_of tree.value.arena) map.tree))) };
}

impl<K: RadixKey, V> Map<K, V> {
    /// A map with no entries. It takes no memory.
    pub fn new(alloc: Global) -> Self
        ensures { result ≡ [] }
    {
        Map {
            head: Page::new(alloc),
            tree: None,
            len: 0,
            alloc,
        }
    }

    /// How many entries the map has.
    pub fn len(&self) -> usize
        ensures len { result ≡ length self.now }
        ensures ordered { IsOrdered K.cmp self.now }
    {
        self.len
    }

    /// Whether the map has no entries.
    pub fn is_empty(&self) -> bool
        ensures { IsTrue result ↔ (self.now ≡ []) }
    {
        self.len == 0
    }
}
