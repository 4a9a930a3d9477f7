//! A struct that calls its own methods.
use art_tree::{ArtTree, AsBytes, Mapped, ToUBE};
use std::alloc::Global;

#[derive(Drop)]
pub struct Ports {
    tree: ArtTree<Mapped<ToUBE, u16>, u32, 16>,
}

impl Ports {
    pub fn new(alloc: Global) -> Ports {
        Ports {
            tree: ArtTree::new(alloc),
        }
    }

    pub fn put(&mut self, alloc: Global, port: u16, value: u32) -> bool {
        match Mapped::<ToUBE, u16>::new(alloc, port) {
            Ok(key) => self.tree.insert(key, value).is_ok(),
            Err(_) => false,
        }
    }

    pub fn get(&self, alloc: Global, port: u16) -> Option<u32> {
        let key = Mapped::<ToUBE, u16>::new(alloc, port).ok()?;
        self.tree.get(key.as_bytes()).copied()
    }

    pub fn put_two(&mut self, alloc: Global, a: u16, b: u16) -> bool {
        self.put(alloc, a, 1) && self.put(alloc, b, 2)
    }
}
