//! The last entry of a tree of any key type.
use art_tree::{ArtTree, AsBytes};

pub fn last_value<K: AsBytes>(index: &ArtTree<K, u64, 8>) -> Option<u64> {
    Some(*index.last()?.1)
}

pub fn first_length<K: AsBytes, V>(index: &ArtTree<K, V, 8>) -> usize {
    match index.first() {
        Some((key, _)) => key.as_bytes().len(),
        None => 0,
    }
}
