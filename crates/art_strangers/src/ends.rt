//! The entries at both ends.
use art_tree::{ArtTree, AsBytes, Mapped, ToIBE};
use std::alloc::{AllocError, Global};

type Index = ArtTree<Mapped<ToIBE, i64>, u32, 16>;

fn values(index: &Index) -> Option<(u32, u32)> {
    let (_, first) = index.first()?;
    let (_, last) = index.last()?;
    Some((*first, *last))
}

pub fn differ(index: &Index) -> bool {
    match values(index) {
        Some((first, last)) => first != last,
        None => false,
    }
}

pub fn least(alloc: Global, index: &Index) -> Result<Option<Vec<u8>>, AllocError> {
    match index.first() {
        Some((key, _)) => Ok(Some(Vec::from_slice(alloc, key.as_bytes())?)),
        None => Ok(None),
    }
}
