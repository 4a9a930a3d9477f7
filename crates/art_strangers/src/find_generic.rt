//! The path of a key in a tree of any key type.
use art_tree::{ArenaReader, ArtTree, AsBytes, TreePath, find_leaf};

pub fn path_of<K: AsBytes, V>(index: &ArtTree<K, V, 16>, key: &[u8]) -> Option<TreePath<K, V, 16>> {
    let root = index.root()?;
    let mut reader = ArenaReader::with_budget(index.arena(), key.len() + 1);
    let (_, path) = find_leaf(&mut reader, root, key)?;
    Some(path)
}
