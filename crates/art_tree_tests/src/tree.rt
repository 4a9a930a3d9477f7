//! Callers of trees that are made by `load` and by inserts and removals.
mod branches;
mod changes;
mod reading;
mod reserving;
mod tree_examples;

ghost use Rattle.std.specs.Prelude.{IfOk};
ghost use Rattle.art_search.specs.Search.{HasTree};

use art_tree::{
    ArenaReader, ArtTree, AsBytes, InnerNodeCommon, InnerNodeRead, NodeArena, NodeType,
    OpaqueNodePtr, SliceKey, find_leaf, laws, load,
};
use std::alloc::{AllocError, Global};
use std::test::Fail;

// Each key with its number.
fn numbered<K: Drop>(alloc: Global, keys: Vec<K>) -> Result<Vec<(K, usize)>, AllocError> {
    let mut entries = Vec::new(alloc);
    for (number, key) in keys.into_iter().enumerate() {
        entries.push((key, number))?;
    }
    Ok(entries)
}

// The texts as keys.
fn slice_keys<'a>(alloc: Global, texts: &[&'a [u8]]) -> Result<Vec<SliceKey<'a>>, AllocError> {
    let mut keys = Vec::new(alloc);
    for text in texts {
        keys.push(SliceKey::new(text))?;
    }
    Ok(keys)
}

// Loads the keys with their numbers as values. Each tree that stands still stands.
fn load_all<K: AsBytes + Drop, const PREFIX_LEN: usize>(
    alloc: Global,
    arena: &mut NodeArena<K, usize, PREFIX_LEN>,
    keys: Vec<K>,
) -> Result<OpaqueNodePtr<K, usize, PREFIX_LEN>, Fail>
    ensures loaded { IfOk result (λ root. HasTree K.text arena.new root) }
    ensures kept { IfOk result (λ _. (root : _) → HasTree K.text arena.old root →
        HasTree K.text arena.new root) }
{
    laws::trees_stand_where_all_is_kept::<K, usize, PREFIX_LEN>();
    let entries = numbered(alloc, keys)?;
    match load(alloc, arena, entries) {
        Ok(root) => Ok(root),
        Err(fault) => Err(fault.refusal.into()),
    }
}

// The same for these texts.
fn load_texts<'a, const PREFIX_LEN: usize>(
    alloc: Global,
    arena: &mut NodeArena<SliceKey<'a>, usize, PREFIX_LEN>,
    texts: &[&'a [u8]],
) -> Result<OpaqueNodePtr<SliceKey<'a>, usize, PREFIX_LEN>, Fail>
    ensures loaded { IfOk result (λ root. HasTree ⟦<SliceKey<'a> as AsBytes>⟧.text arena.new root) }
    ensures kept { IfOk result (λ _. (root : _) → HasTree ⟦<SliceKey<'a> as AsBytes>⟧.text arena.old root →
        HasTree ⟦<SliceKey<'a> as AsBytes>⟧.text arena.new root) }
{
    load_all(alloc, arena, slice_keys(alloc, texts)?)
}
