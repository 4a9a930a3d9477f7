//! A run of commands.
use art_tree::{ChildCommand, ChildNode, ChildReply, Header, OpaqueNodePtr};
use std::alloc::{AllocError, Global};

pub fn add<K, V>(
    alloc: Global,
    node: &mut ChildNode<K, V, 16>,
    byte: u8,
    child: OpaqueNodePtr<K, V, 16>,
) -> Result<bool, AllocError> {
    match node.apply(alloc, &ChildCommand::Write(byte, child))? {
        ChildReply::Child(old) => Ok(old.is_none()),
        _ => Ok(false),
    }
}

pub fn count<K, V>(header: Header<16>) -> usize {
    ChildNode::<K, V, 16>::from_header(header).num_children()
}
