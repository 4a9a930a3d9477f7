//! Keys of strings and numbers in one tuple.
use art_map::Map;
use std::alloc::AllocError;

type Key = (u32, String, u64);

pub fn put(index: &mut Map<Key, u64>, key: Key, value: u64) -> bool {
    index.insert(key, value).is_ok()
}

pub fn forget(index: &mut Map<Key, u64>, key: &Key) -> Option<u64> {
    index.remove(key)
}

pub fn find(index: &Map<Key, u64>, key: &Key) -> bool {
    index.contains_key(key)
}

pub fn value_of(index: &Map<Key, u64>, host: u32, name: &str, number: u64) -> Option<u64> {
    index.get((&host, name, &number)).copied()
}

type Names = Map<(String, String), u32>;

pub fn add(names: &mut Names, first: String, last: String) -> bool {
    names.insert((first, last), 1).is_ok()
}

pub fn number_of(names: &Names, first: &str, last: &str) -> u32 {
    match names.get((first, last)) {
        Some(number) => *number,
        None => 0,
    }
}

pub fn number_or(
    names: &mut Names,
    first: String,
    last: String,
    other: u32,
) -> Result<u32, AllocError> {
    Ok(*names.entry((first, last)).or_insert(other)?)
}
