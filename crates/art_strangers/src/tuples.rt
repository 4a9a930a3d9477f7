//! Keys of an address and a number, as in the README.
use art_tree::{ArtTree, ConcatTuple, Mapped, ToIBE, ToOctets};
use std::net::Ipv4Addr;

type Key = Mapped<ConcatTuple<(ToOctets, ToIBE)>, (Ipv4Addr, i32)>;

type Index = ArtTree<Key, u32, 16>;

fn put(index: &mut Index, key: Key, value: u32) -> bool {
    index.insert(key, value).is_ok()
}

pub fn hand_on(index: &mut Index, key: Key) -> bool {
    put(index, key, 1)
}

pub fn read(index: &Index, key: &[u8]) -> u32 {
    match index.get(key) {
        Some(value) => *value,
        None => 0,
    }
}
