//! Keys of nine numbers.
use art_map::Map;
use std::alloc::Global;

type Triple = (u64, u64, u64);

type Key = (Triple, Triple, Triple);

type Index = Map<Key, u64>;

pub fn made(alloc: Global) -> Index {
    Map::new(alloc)
}

fn put(index: &mut Index, key: Key, value: u64) -> bool {
    index.insert(key, value).is_ok()
}

pub fn hand_on(index: &mut Index, key: Key) -> bool {
    put(index, key, 1)
}

pub fn read(index: &Index, key: &Key) -> u64 {
    match index.get(key) {
        Some(value) => *value,
        None => 0,
    }
}

pub fn forget(index: &mut Index, key: &Key) -> Option<u64> {
    index.remove(key)
}

pub fn sum(index: &Index) -> u64 {
    let mut sum: u64 = 0;
    for (_, value) in index {
        sum = sum.saturating_add(*value);
    }
    sum
}

pub fn last_part(index: &Index) -> Option<u64> {
    let (key, _) = index.last_key_value()?;
    Some(key.2.2)
}

pub struct Two {
    pub first: Index,
    pub second: Map<Key, String>,
}

pub fn both_are_empty(two: &Two) -> bool {
    two.first.is_empty() && two.second.is_empty()
}
