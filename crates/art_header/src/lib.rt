//! Node kinds, headers and indices of an adaptive radix tree.
//!
//! Every inner node has a [`Header`]: the number of children, the length of the compressed prefix,
//! and the stored prefix, at most `PREFIX_LEN` bytes of it. [`NodeType`] names the kinds of nodes
//! and how many children each holds. [`NonMaxIndex`] is an index into the places of a node.
//!
//! The examples are lines of tests. There `rt` is the `HostRuntime` of the test, and `assert!(rt;
//! c)` fails where `c` is false.
#![tactic(auto)]

mod header;
mod node_type;
mod non_max_index;

pub use header::Header;
pub use node_type::NodeType;
pub use non_max_index::{NonMaxIndex, TryFromByteError};
