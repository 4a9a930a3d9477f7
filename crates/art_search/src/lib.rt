//! The leaf with a key: [`find_leaf`], by one visit of each node on the way to it, and the path
//! that a search remembers.
#![tactic(auto)]

mod find;
mod path;

pub use find::find_leaf;
pub use path::{TreePath, TreePathSearch};
