//! A struct with sixteen maps, by keys of as many types.
use art_map::Map;
use std::alloc::Global;
use std::cmp::Reverse;
use std::net::Ipv4Addr;

#[derive(Drop)]
pub struct Maps {
    by_u64: Map<u64, u32>,
    by_u32: Map<u32, u32>,
    by_u16: Map<u16, u32>,
    by_u8: Map<u8, u32>,
    by_i64: Map<i64, u32>,
    by_i32: Map<i32, u32>,
    by_bool: Map<bool, u32>,
    by_char: Map<char, u32>,
    by_string: Map<String, u32>,
    by_bytes: Map<Vec<u8>, u32>,
    by_array: Map<[u8; 4], u32>,
    by_address: Map<Ipv4Addr, u32>,
    by_pair: Map<(u32, u64), u32>,
    by_name: Map<(String, u64), u32>,
    by_option: Map<Option<u32>, u32>,
    by_reverse: Map<Reverse<u64>, u32>,
}

impl Maps {
    pub fn new(alloc: Global) -> Maps {
        Maps {
            by_u64: Map::new(alloc),
            by_u32: Map::new(alloc),
            by_u16: Map::new(alloc),
            by_u8: Map::new(alloc),
            by_i64: Map::new(alloc),
            by_i32: Map::new(alloc),
            by_bool: Map::new(alloc),
            by_char: Map::new(alloc),
            by_string: Map::new(alloc),
            by_bytes: Map::new(alloc),
            by_array: Map::new(alloc),
            by_address: Map::new(alloc),
            by_pair: Map::new(alloc),
            by_name: Map::new(alloc),
            by_option: Map::new(alloc),
            by_reverse: Map::new(alloc),
        }
    }

    pub fn put_number(&mut self, number: u64, value: u32) -> bool {
        self.by_u64.insert(number, value).is_ok()
    }

    pub fn put_name(&mut self, name: String, number: u64, value: u32) -> bool {
        self.by_name.insert((name, number), value).is_ok()
    }

    pub fn put_address(&mut self, address: Ipv4Addr, value: u32) -> bool {
        self.by_address.insert(address, value).is_ok()
    }

    pub fn put_all(&mut self, name: String, address: Ipv4Addr) -> bool {
        self.put_number(7, 1) && self.put_name(name, 7, 2) && self.put_address(address, 3)
    }

    pub fn read(&self, text: &str) -> Option<u32> {
        self.by_string.get(text).copied()
    }

    pub fn read_name(&self, text: &str, number: u64) -> Option<u32> {
        self.by_name.get((text, &number)).copied()
    }

    pub fn forget_bytes(&mut self, bytes: &[u8]) -> Option<u32> {
        self.by_bytes.remove(bytes)
    }

    pub fn first_array(&self) -> Option<[u8; 4]> {
        let (array, _) = self.by_array.first_key_value()?;
        Some(*array)
    }

    pub fn greatest(&self) -> Option<u64> {
        let (number, _) = self.by_reverse.first_key_value()?;
        Some(number.0)
    }

    pub fn are_empty(&self) -> bool {
        self.by_u64.is_empty() && self.by_char.is_empty() && self.by_option.is_empty()
    }
}
