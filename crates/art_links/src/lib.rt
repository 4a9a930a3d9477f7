//! What one call does to some nodes of an arena: the linked list of its leaves, whole compressed
//! prefixes, and inner nodes that are made and replaced.
//!
//! [`LeafLinks`] links leaves into a list. [`FullPrefix`] reads a whole compressed prefix, however
//! few of its bytes the node stores. [`replace_node`] puts a node of another kind in a node's place.
#![tactic(auto)]

mod full_prefix;
mod leaf_links;
mod node;

pub use art_nodes::{ExplicitMismatch, NodePrefix};
pub use full_prefix::FullPrefix;
pub use leaf_links::LeafLinks;
pub use node::{allocate_node_as, replace_node};
