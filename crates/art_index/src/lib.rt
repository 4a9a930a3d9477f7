//! The search of an index: the leaf of a tree with the greatest text that is not above a query, whose
//! encoding is read a byte at a time.
#![tactic(auto)]

mod anchor;
pub mod laws;
mod likely;
mod pages;
mod search;

pub use anchor::Anchor;
pub use likely::likely_floor;
pub use pages::{
    add_page, first_page, last_page, next_page, page, page_mut, previous_page, take_page,
};
pub use search::floor;
