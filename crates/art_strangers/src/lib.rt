//! What a new user writes first over these crates: functions with no contract and no proof file.
//!
//! Each module is one trial. The gate proves them all, and `./test` runs more of them, in
//! `tests/art_strangers`; what is not proved, and the way round it, is in `docs/DECISIONS.md`.
#![tactic(auto)]

pub mod addresses;
pub mod arena;
pub mod arrays;
pub mod c_strings;
pub mod commands;
pub mod ends;
pub mod ends_generic;
pub mod find;
pub mod find_generic;
pub mod generic;
pub mod generic_at_16;
pub mod generic_key;
pub mod generic_set;
pub mod leaves;
pub mod loads;
pub mod loads_generic;
pub mod nodes;
pub mod numbers;
pub mod ports;
pub mod route_table;
pub mod strings;
pub mod tuples;
pub mod words;
