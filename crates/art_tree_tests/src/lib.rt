//! Proved callers of the arena and of trees, which use public names alone, as another crate does.
//!
//! What `art_node_tests` says of its callers and tests holds here too. `link_examples` and
//! `tree_examples` show how a crate uses `art_arena` and `art_tree`.
#![tactic(auto)]

mod arena;
mod tree;
