//! Callers of the tree below a map.
pub mod reserved_entries;
