//! Callers of headers, kinds of nodes, and indices.
mod header_callers;
mod node_type;
mod non_max_index;
