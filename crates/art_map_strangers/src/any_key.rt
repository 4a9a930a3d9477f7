//! An index by keys of any type.
use art_keys::{RadixKey, RadixQuery};
use art_map::Map;
use std::alloc::{AllocError, Global};

#[derive(Drop)]
pub struct Index<K: RadixKey> {
    map: Map<K, u64>,
    inserts: u64,
}

impl<K: RadixKey + Drop> Index<K> {
    pub fn new(alloc: Global) -> Index<K> {
        Index {
            map: Map::new(alloc),
            inserts: 0,
        }
    }

    pub fn add(&mut self, key: K) -> bool {
        self.inserts = self.inserts.saturating_add(1);
        let number = self.inserts;
        self.map.insert(key, number).is_ok()
    }

    pub fn add_two(&mut self, one: K, other: K) -> bool {
        self.add(one) && self.add(other)
    }

    pub fn number_of<Q: RadixQuery<K>>(&self, key: Q) -> Option<u64> {
        self.map.get(key).copied()
    }

    pub fn forget<Q: RadixQuery<K>>(&mut self, key: Q) -> bool {
        self.map.remove(key).is_some()
    }

    pub fn first(&self) -> Option<&K> {
        let (key, _) = self.map.first_key_value()?;
        Some(key)
    }

    pub fn count_above(&self, least: u64) -> usize {
        let mut count: usize = 0;
        for (_, number) in self.map.iter() {
            if least < *number {
                count = count.saturating_add(1);
            }
        }
        count
    }

    pub fn sum(&self) -> u64 {
        let mut sum: u64 = 0;
        for number in self.map.values() {
            sum = sum.saturating_add(*number);
        }
        sum
    }

    pub fn number_or_next(&mut self, key: K) -> Result<u64, AllocError> {
        let next = self.inserts.saturating_add(1);
        Ok(*self.map.entry(key).or_insert(next)?)
    }
}

pub type Words = Index<String>;

pub fn word_number(words: &Words, word: &str) -> u64 {
    words.number_of(word).unwrap_or(0)
}

pub fn add_word(words: &mut Words, word: String) -> bool {
    words.add(word)
}

pub fn add_port(ports: &mut Index<(u16, u32)>, port: u16) -> bool {
    ports.add((port, 1))
}
