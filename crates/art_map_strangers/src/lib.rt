//! What a new user writes first over a map by pages: functions with no contract and no proof file.
#![tactic(auto)]

pub mod any_key;
pub mod history;
pub mod moved_entries;
pub mod name_tuples;
pub mod nine_parts;
pub mod over_pages;
pub mod over_std;
pub mod sixteen_maps;
pub mod split_maps;
pub mod word_counts;
