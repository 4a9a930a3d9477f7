//! A stock over a map by pages: `over_std` under another `use` line.
use art_map::Map as BTreeMap;
use std::alloc::Global;

type Stock = BTreeMap<String, u32>;

pub fn made(alloc: Global) -> Stock {
    BTreeMap::new(alloc)
}

pub fn count_of(stock: &Stock, name: &String) -> u32 {
    match stock.get(name) {
        Some(count) => *count,
        None => 0,
    }
}

fn set(stock: &mut Stock, name: String, count: u32) -> bool {
    stock.insert(name, count).is_ok()
}

pub fn add(stock: &mut Stock, name: String, more: u32) -> bool {
    let count = count_of(stock, &name).saturating_add(more);
    set(stock, name, count)
}

pub fn forget(stock: &mut Stock, name: &String) -> Option<u32> {
    stock.remove(name)
}

pub fn total(stock: &Stock) -> u32 {
    let mut total: u32 = 0;
    for (_, count) in stock.iter() {
        total = total.saturating_add(*count);
    }
    total
}

pub fn first_name(stock: &Stock) -> Option<&String> {
    let (name, _) = stock.first_key_value()?;
    Some(name)
}

#[derive(Drop)]
pub struct Shop {
    stock: Stock,
    sales: u32,
}

impl Shop {
    pub fn new(alloc: Global) -> Shop {
        Shop {
            stock: BTreeMap::new(alloc),
            sales: 0,
        }
    }

    pub fn buy(&mut self, name: String, count: u32) -> bool {
        add(&mut self.stock, name, count)
    }

    pub fn sell_all(&mut self, name: &String) -> bool {
        match forget(&mut self.stock, name) {
            Some(count) => {
                self.sales = self.sales.saturating_add(count);
                true
            }
            None => false,
        }
    }

    pub fn left(&self) -> u32 {
        total(&self.stock)
    }
}
