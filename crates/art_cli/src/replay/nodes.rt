//! The nodes of the program: children are leaf pointers, and no leaf is ever made.
ghost use Rattle.std.specs.Prelude.{◌≡◌};
ghost use Rattle.art_nodes.specs.Pointers.{node_kind, opaque_key};

use art_tree::{ChildCommand, ChildNode, ChildReply, LeafNode, NodePtr, NodeType, OpaqueNodePtr};

/// How many bytes of a prefix a node stores.
pub(crate) const PREFIX_LEN: usize = 16;

/// A command that a line gives.
pub(crate) type Command = ChildCommand<(), (), PREFIX_LEN>;

/// A reply that a line is printed for.
pub(crate) type Reply = ChildReply<(), (), PREFIX_LEN>;

/// The node on which the commands are carried out.
pub(crate) type Node = ChildNode<(), (), PREFIX_LEN>;

/// A child.
pub(crate) type Child = OpaqueNodePtr<(), (), PREFIX_LEN>;

/// The leaf that a child points to.
pub(crate) type Leaf = LeafNode<(), (), PREFIX_LEN>;

/// The child that a number in a line names: the pointer to the leaf under that key.
pub(crate) fn child_of(key: u32) -> Child
    ensures kind { node_kind result ≡ NodeType.Leaf }
    ensures key { opaque_key result ≡ key }
{
    NodePtr::<PREFIX_LEN, Leaf>::from_key(key as usize).to_opaque()
}
