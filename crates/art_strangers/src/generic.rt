//! A tree that is generic in all its parameters.
use art_tree::{ArtTree, AsBytes};

pub fn fill<K: AsBytes + Drop, V: Drop, const P: usize>(
    index: &mut ArtTree<K, V, P>,
    key: K,
    value: V,
) -> bool {
    index.insert(key, value).is_ok()
}
