//! Callers of nodes of each kind, and of pointers to them.
mod node_callers;
