//! Proved callers of keys, headers and nodes. They use public names only, as another crate does.
//!
//! Each has a contract, which it proves by the contracts of what it calls. The modules
//! `key_examples`, `mapped_examples`, `mapped_callers`, `header_callers` and `node_callers` show how
//! a crate uses each layer. Callers of the arena and of trees are in `art_tree_tests`, so that a
//! change there does not prove these again.
//!
//! The tests are in the folder `tests/` of the repository, where they are run and not proved, as
//! modules below these and as additions to them. They test what no contract states: worked examples
//! with values from outside, printed texts, each public call once, each generic impl at a concrete
//! type, and these callers.
#![tactic(auto)]

mod bytes;
mod header;
mod mapped;
mod nodes;
