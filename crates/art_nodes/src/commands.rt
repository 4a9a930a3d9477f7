//! Child commands, the node that they are applied to, and whole runs of them.
pub(crate) mod any_inner;
pub(crate) mod child_node;
pub(crate) mod command;
pub(crate) mod replay;
pub(crate) mod sequence;
