//! The traits of nodes and of inner nodes, and how an inner node grows and shrinks.
pub(crate) mod inner_node;
pub(crate) mod inner_node_read;
pub(crate) mod node;
