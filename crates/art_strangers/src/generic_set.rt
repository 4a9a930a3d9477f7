//! A set of keys of any type: a struct over its tree, and an alias that names the tree.
use art_tree::{ArtTree, AsBytes};
use std::alloc::Global;

#[derive(Drop)]
pub struct SetOver<T> {
    tree: T,
}

pub type Set<K> = SetOver<ArtTree<K, (), 16>>;

impl<K: AsBytes + Drop> SetOver<ArtTree<K, (), 16>> {
    pub fn new(alloc: Global) -> Set<K> {
        SetOver {
            tree: ArtTree::new(alloc),
        }
    }

    pub fn add(&mut self, key: K) -> bool {
        self.tree.insert(key, ()).is_ok()
    }

    pub fn add_two(&mut self, a: K, b: K) -> bool {
        self.add(a) && self.add(b)
    }

    pub fn has(&self, key: &[u8]) -> bool {
        self.tree.get(key).is_some()
    }

    pub fn first(&self) -> Option<&K> {
        Some(self.tree.first()?.0)
    }
}
