//! The three representations of an inner node, and conversions between them.
pub(crate) mod conversions;
pub(crate) mod inner_node_direct;
pub(crate) mod inner_node_indirect;
pub(crate) mod inner_node_sorted;
