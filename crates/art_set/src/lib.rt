//! An ordered set with native keys: a map by pages without values.
#![tactic(auto)]

mod debug;
mod set;

pub use set::{Merged, Set};
