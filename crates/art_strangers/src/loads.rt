//! A tree loaded from entries.
use art_tree::{ArtTree, LoadRefusal, Mapped, ToUBE};
use std::alloc::Global;

type Index = ArtTree<Mapped<ToUBE, u64>, String, 16>;

pub fn index_of(
    alloc: Global,
    entries: Vec<(Mapped<ToUBE, u64>, String)>,
) -> Result<Index, LoadRefusal> {
    match ArtTree::load(alloc, entries) {
        Ok(index) => Ok(index),
        Err(fault) => Err(fault.refusal),
    }
}

pub fn is_loaded(alloc: Global, entries: Vec<(Mapped<ToUBE, u64>, String)>) -> bool {
    index_of(alloc, entries).is_ok()
}
