//! An arena of nodes, and laws of the trees in it and of the lists of its leaves.
//!
//! A [`NodeArena`] keeps nodes by kind under slab keys. [`ArenaReader`] returns nodes and counts
//! the node visits. [`end_leaf`] finds the first or the last leaf of a tree. [`laws`] states what
//! holds of every tree and of every list.
#![tactic(auto)]

mod arena;
mod ends;
mod inner_ref;
pub mod laws;
mod reader;

pub use arena::{ArenaInnerNode, ArenaNode, LeafPtr, NodeArena};
pub use ends::{End, any_leaf, end_leaf};
pub use inner_ref::{AnyInnerRef, InnerRef};
pub use reader::{AnyNodeRef, ArenaReader, NodeRef};
