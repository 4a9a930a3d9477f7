//! Callers of maps, with contracts of their own: each is proved from what the map says of its calls.
#![tactic(auto)]

pub mod counts;
pub mod map;
pub mod over_map;
pub mod over_std;
pub mod prices;
