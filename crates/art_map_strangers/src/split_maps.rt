//! A map split at a key.
use art_map::Map;
use std::alloc::AllocError;

/// The events from a time on. The earlier ones stay.
pub fn later(events: &mut Map<u64, String>, time: u64) -> Result<Map<u64, String>, AllocError> {
    Ok(events.split_off(&time)?)
}

/// How many words would not fit behind this one.
pub fn count_refused(words: &mut Map<String, u32>, from: &str) -> usize {
    match words.split_off(from) {
        Ok(_) => 0,
        Err(fault) => fault.moved.len(),
    }
}
