//! Entries that go into a tree one by one, once memory for all of them is reserved.
ghost use Rattle.std.specs.Prelude.{◌≢◌, ◌+◌, ℕ, IfErr, IfOk};
ghost use Rattle.art_steps.specs.Room.{HasEntryRoom};
ghost use Rattle.art_steps.specs.declared.faults.InsertRefusal.TheVariants.{OutOfMemory};

use art_tree::{ArtTree, AsBytes, InsertFault};
use std::alloc::AllocError;

/// Enters an entry. Room for it and some others suffices, and is room for the others afterwards.
fn enter<K: AsBytes + Drop, const PREFIX_LEN: usize>(
    tree: &mut ArtTree<K, u32, PREFIX_LEN>,
    key: K,
    value: u32,
) -> Result<(), InsertFault<K, u32>>
    ensures enough { (count : ℕ) → HasEntryRoom tree.old.arena (count + 1) →
        IfErr result (λ fault. fault.refusal ≢ OutOfMemory) }
    ensures lasts { (count : ℕ) → HasEntryRoom tree.old.arena (count + 1) → HasEntryRoom tree.new.arena count }
{
    match tree.insert(key, value) {
        Ok(_) => Ok(()),
        Err(fault) => Err(fault),
    }
}

/// Enters each entry by a call of its own, with memory reserved first: none is refused for memory.
pub fn enter_each<K: AsBytes + Drop, const PREFIX_LEN: usize>(
    tree: &mut ArtTree<K, u32, PREFIX_LEN>,
    entries: Vec<(K, u32)>,
) -> Result<Result<(), InsertFault<K, u32>>, AllocError>
    ensures { IfOk result (λ entered. IfErr entered (λ fault. fault.refusal ≢ OutOfMemory)) }
{
    tree.reserve_entries(entries.len())?;
    let mut entries = entries.into_iter();
    'each: while let Some((key, value)) = entries.next() {
        match enter(tree, key, value) {
            Ok(()) => {}
            Err(fault) => return Ok(Err(fault)),
        }
    }
    Ok(Ok(()))
}
