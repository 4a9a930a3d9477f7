//! A tree that is generic in the key alone.
use art_tree::{ArtTree, AsBytes};

pub fn read<K: AsBytes>(index: &ArtTree<K, u32, 16>, key: &[u8]) -> u32 {
    match index.get(key) {
        Some(value) => *value,
        None => 0,
    }
}

pub fn gone<K: AsBytes + Drop>(index: &mut ArtTree<K, u32, 16>, key: &[u8]) -> bool {
    index.remove(key).is_ok()
}
