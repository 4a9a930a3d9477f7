//! Entries moved out of a map by value, and from one map into another.
use art_map::{InsertFault, Map};
use std::alloc::{AllocError, Global};

/// The words that were counted so often or more, in their order. The map is taken apart.
pub fn frequent_words(
    counts: Map<String, u32>,
    least: u32,
    alloc: Global,
) -> Result<Vec<String>, AllocError> {
    let mut words = Vec::new(alloc);
    for (word, count) in counts {
        if least <= count {
            words.push(word)?;
        }
    }
    Ok(words)
}

/// The words that were counted, from the last one on.
pub fn words_backwards(counts: Map<String, u32>, alloc: Global) -> Result<Vec<String>, AllocError> {
    let mut words = Vec::new(alloc);
    for word in counts.into_keys().rev() {
        words.push(word)?;
    }
    Ok(words)
}

/// The sum of all counts, or the greatest number.
pub fn total(counts: Map<String, u32>) -> u32 {
    let mut total: u32 = 0;
    for count in counts.into_values() {
        total = total.saturating_add(count);
    }
    total
}

/// Moves the stock of one shop into that of another, which has none of these names.
pub fn take_over(
    stock: &mut Map<String, u32>,
    other: &mut Map<String, u32>,
) -> Result<(), InsertFault<String, u32>> {
    stock.append(other)?;
    Ok(())
}
