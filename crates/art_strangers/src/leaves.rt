//! Single leaves of any key type.
use art_tree::{AsBytes, LeafNode};

pub fn has_key<K: AsBytes, V>(leaf: &LeafNode<K, V, 16>, key: &[u8]) -> bool {
    leaf.matches_full_key(key)
}

pub fn is_in_order<K: AsBytes, V>(a: &LeafNode<K, V, 16>, b: &LeafNode<K, V, 16>) -> bool {
    a.compare_full_key(b.key_ref().as_bytes()).is_lt()
}

pub fn count_up<K>(leaf: &mut LeafNode<K, u32, 16>) {
    let value = leaf.value_mut();
    *value = value.saturating_add(1);
}
