//! Leaves in an arena.
use art_tree::{LeafNode, Mapped, NodeArena, NodePtr, ToUBE};

type Key = Mapped<ToUBE, u32>;

type Arena = NodeArena<Key, u32, 16>;

pub fn keep(arena: &mut Arena, key: Key, value: u32) -> Option<u32> {
    let leaf = arena
        .allocate_node_ptr(LeafNode::with_no_siblings(key, value))
        .ok()?;
    Some(*arena.as_value_ref(leaf))
}

pub fn take(arena: &mut Arena, leaf: NodePtr<16, LeafNode<Key, u32, 16>>) -> Option<u32> {
    if !arena.holds(leaf) {
        return None;
    }
    let (_, value) = arena.deallocate_node_ptr(leaf).into_entry();
    Some(value)
}
