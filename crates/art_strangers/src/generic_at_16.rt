//! A tree that is generic in key and value, with a prefix of 16 bytes.
use art_tree::{ArtTree, AsBytes};

pub fn fill<K: AsBytes + Drop, V: Drop>(index: &mut ArtTree<K, V, 16>, key: K, value: V) -> bool {
    index.insert(key, value).is_ok()
}
