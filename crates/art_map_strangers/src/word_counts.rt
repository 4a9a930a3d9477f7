//! How often each word is there: values that are lent, and added where there are none.
use art_map::{Entry, Map};
use std::alloc::{AllocError, Global};

/// How often each of these words is there.
pub fn count_words(words: &[&str], alloc: Global) -> Result<Map<String, u32>, AllocError> {
    let mut counts: Map<String, u32> = Map::new(alloc);
    for word in words {
        let count = counts.entry(String::from_str(alloc, word)?).or_insert(0)?;
        *count = count.saturating_add(1);
    }
    Ok(counts)
}

/// The same, where each word is sought once.
pub fn count_faster(words: &[&str], alloc: Global) -> Result<Map<String, u32>, AllocError> {
    let mut counts: Map<String, u32> = Map::new(alloc);
    for word in words {
        let count = counts.get_or_insert_with(String::from_str(alloc, word)?, || 0)?;
        *count = count.saturating_add(1);
    }
    Ok(counts)
}

/// Counts one word more.
pub fn count_word(counts: &mut Map<String, u32>, word: String) -> Result<(), AllocError> {
    counts
        .entry(word)
        .and_modify(|count| *count = count.saturating_add(1))
        .or_insert(1)?;
    Ok(())
}

/// How often a word is there, which is counted 0 times where it is not.
pub fn count_of(counts: &mut Map<String, u32>, word: String) -> Result<u32, AllocError> {
    Ok(*counts.entry(word).or_default()?)
}

/// Counts a word once less. With its last count it goes.
pub fn discount(counts: &mut Map<String, u32>, word: String) -> bool {
    match counts.entry(word) {
        Entry::Occupied(mut entry) => {
            if let Some(count) = entry.get_mut() {
                if 1 < *count {
                    *count -= 1;
                    return true;
                }
            }
            entry.remove().is_some()
        }
        Entry::Vacant(_) => false,
    }
}

/// Counts a word that is there.
pub fn count_known(counts: &mut Map<String, u32>, word: &str) -> bool {
    let Some(count) = counts.get_mut(word) else {
        return false;
    };
    *count = count.saturating_add(1);
    true
}
