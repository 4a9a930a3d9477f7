//! Words inserted in a loop.
use art_tree::ArtTree;
use std::alloc::{AllocError, Global};

pub fn fill(
    index: &mut ArtTree<String, u32, 16>,
    alloc: Global,
    words: &[&str],
) -> Result<u32, AllocError> {
    let mut count = 0u32;
    for word in words {
        if index.insert(String::from_str(alloc, word)?, count).is_ok() {
            count = count.saturating_add(1);
        }
    }
    Ok(count)
}
