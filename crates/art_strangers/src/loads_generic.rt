//! A tree loaded from entries of any key type.
use art_tree::{ArtTree, AsBytes, LoadFault};
use std::alloc::Global;

pub fn index_of<K: AsBytes + Drop, V: Drop, const P: usize>(
    alloc: Global,
    entries: Vec<(K, V)>,
) -> Result<ArtTree<K, V, P>, LoadFault<K, V>> {
    ArtTree::load(alloc, entries)
}
