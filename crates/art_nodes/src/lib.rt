//! The nodes of an adaptive radix tree: pointers, inner nodes, leaves, and runs of child commands.
//!
//! An inner node has a compressed prefix, and children under bytes. [`InnerNodeCommon`] has its
//! calls, whichever way it keeps its children: [`InnerNode4`] and [`InnerNode16`] as sorted bytes,
//! [`InnerNode48`] with an index for each byte, [`InnerNode256`] with a place for each byte.
//! [`InnerNode`] grows and shrinks a node. [`ChildNode`] grows and shrinks by itself, command by
//! command, and [`replay`] runs a list of commands. Names and behaviour are those of the crate
//! `blart` 0.6.0, the kinds those of Leis, Kemper and Neumann, "The Adaptive Radix Tree" (2013).
//!
//! The module `inner_nodes` has the traits, the three representations and the builder, `iteration`
//! the iterators over children, `commands` child commands and runs of them.
//!
//! The examples are lines of tests. There `rt` is the `HostRuntime` of the test, and `assert!(rt;
//! c)` fails where `c` is false. `leaf(k)` is the pointer to the leaf with the slab key `k`.
//! `pair`, `node_of` and `with_bytes` make a node with a prefix and children.
#![tactic(auto)]

mod commands;
mod inner_nodes;
mod iteration;
mod leaf_node;
mod no_bytes;
mod pointers;
mod sealed;

pub use art_bytes::common_prefix_len;
pub use art_header::{Header, NodeType, NonMaxIndex, TryFromByteError};
pub use commands::child_node::ChildNode;
pub use commands::command::{ChildCommand, ChildPairs, ChildReply};
pub use commands::replay::{Replayed, replay};
pub use commands::sequence::Sequence;
pub use inner_nodes::builder::{BuilderState, HasChild, HasOneChild, InnerNodeBuilder, NoChild};
pub use inner_nodes::prefix_match::{
    AttemptOptimisticPrefixMatch, ExplicitMismatch, NodePrefix, OptimisticMismatch,
    PessimisticMismatch, PrefixMatch,
};
pub use inner_nodes::representations::inner_node_direct::{InnerNode256, InnerNodeDirect};
pub use inner_nodes::representations::inner_node_indirect::{InnerNode48, InnerNodeIndirect};
pub use inner_nodes::representations::inner_node_sorted::{
    InnerNode4, InnerNode16, InnerNodeSorted,
};
pub use inner_nodes::traits::inner_node::InnerNode;
pub use inner_nodes::traits::inner_node_read::InnerNodeRead;
pub use inner_nodes::traits::node::{InnerNodeCommon, Node};
pub use iteration::bounds::valid_range_bounds;
pub use iteration::child_iter::{ChildIter, PairIter};
pub use leaf_node::LeafNode;
pub use pointers::concrete::{ConcreteInnerNodePtr, ConcreteNodePtr};
pub use pointers::packed::PackedNodePtr;
pub use pointers::{NodePtr, OpaqueNodePtr};
