//! An ordered map with native keys: pages of sorted entries, under an adaptive radix tree.
#![tactic(auto)]

mod cursor;
mod debug;
mod ends;
mod entry;
mod fault;
mod first_page;
mod gaps;
mod into_iter;
mod iter;
mod join;
mod keys;
mod map;
mod put;
mod room;
mod runs;
mod spots;
mod take;
mod walk;
mod within;

pub use cursor::Cursor;
pub use entry::{Entry, EntryOver, OccupiedEntry, OccupiedOver, VacantEntry, VacantOver};
pub use fault::{ExtendFault, InsertFault, InsertRefusal, SplitFault};
pub use into_iter::{IntoIter, IntoKeys, IntoValues};
pub use iter::Iter;
pub use keys::{Keys, Values};
pub use map::{Leaf, Map, Tree};
