//! A leaf found by its key in an arena.
use art_tree::{ArenaReader, ConcatTuple, Mapped, NodeArena, ToOctets, ToUBE, find_leaf, load};
use std::alloc::Global;
use std::net::Ipv4Addr;

type Key = Mapped<ConcatTuple<(ToOctets, ToUBE)>, (Ipv4Addr, u16)>;

pub fn number_of(alloc: Global, entries: Vec<(Key, u32)>, key: &[u8]) -> Option<u32> {
    let mut arena = NodeArena::<Key, u32, 16>::new(alloc);
    let root = load(alloc, &mut arena, entries).ok()?;
    let mut reader = ArenaReader::with_budget(&arena, key.len() + 1);
    let (leaf, _) = find_leaf(&mut reader, root, key)?;
    Some(*arena.as_value_ref(leaf))
}
