//! Pages of an ordered map: a page is a run of entries in ascending order of their keys, in one piece of memory.
#![tactic(auto)]

mod guess;
mod heads;
mod keeps;
mod page;
mod sift;

pub use keeps::{Keeps, OnEntry, OnValue};
pub use page::Page;
