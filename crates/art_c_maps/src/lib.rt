//! Ordered maps as types without parameters, for the static library: `BytesMap` by any bytes and
//! `NumberMap` by 64-bit numbers, both to 64-bit values. A contract sees a map as the list of its
//! entries, ascending by key. `CALLING.md` shows how they are used.
#![tactic(auto)]

mod batch;
mod buffers;
mod byte_string;
mod bytes_map;
mod few_bytes;
mod lending;
mod lent;
mod limit;
mod loads;
mod loan;
mod many;
mod number_map;
mod refusal;

pub use bytes_map::BytesMap;
pub use lent::{BytesEntry, NumberRun};
pub use loan::Loan;
pub use number_map::NumberMap;
pub use refusal::{LoadRefusal, Refusal};
