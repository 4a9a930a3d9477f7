//! Callers of `art_keys`: a key type of one's own, and generic code over keys.
#![tactic(auto)]

pub mod own_key;
pub mod parts;
