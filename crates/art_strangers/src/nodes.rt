//! Single inner nodes.
use art_tree::{
    InnerNode, InnerNode4, InnerNodeCommon, InnerNodeRead, Mapped, OpaqueNodePtr, ToUBE,
};

type Key = Mapped<ToUBE, u32>;

pub fn add(
    node: &mut InnerNode4<Key, u32, 16>,
    byte: u8,
    child: OpaqueNodePtr<Key, u32, 16>,
) -> bool {
    if node.is_full() {
        return false;
    }
    node.write_child(byte, child);
    true
}

pub fn has_child<K, V>(node: &InnerNode4<K, V, 16>, byte: u8) -> bool {
    node.lookup_child(byte).is_some()
}

pub fn sum_of_bytes<K, V>(node: &InnerNode4<K, V, 16>) -> u64 {
    let mut sum = 0u64;
    for (byte, _) in node.iter() {
        sum = sum.saturating_add(u64::from(byte));
    }
    sum
}
