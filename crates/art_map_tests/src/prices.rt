//! A price list by names.
ghost use Rattle.std.specs.Prelude.{◌≡◌, ◌+◌, ◌-◌, ◌^◌, false, filter, map, min, IfOk, IsTrue, None};
ghost use Rattle.std.specs.BTreeMap.{insert_entry};
ghost use Rattle.std.specs.String.{string_bytes, string_cmp};
ghost use Rattle.std.specs.declared.ops.Bound.TheVariants.{Excluded, Included};
ghost use Rattle.art_keys.specs.Prefixes.{begins_with};
ghost use Rattle.art_map.specs.Ranges.{entries_within};
ghost use Rattle.art_map_tests.specs.Names.{name_order};
ghost use Rattle.art_pages.specs.Entries.{get_by};

use art_map::Map;
use std::alloc::{AllocError, Global};

/// Prices by names.
pub type Prices = Map<String, u32>;

/// Sets the price of a name. Refused, the prices are as they were.
pub fn set_price(prices: &mut Prices, name: String, price: u32) -> bool
    ensures set { IsTrue result → prices.new ≡ insert_entry string_cmp prices.old name price }
    ensures refused { result ≡ false → prices.new ≡ prices.old }
{
    prices.insert(name, price).is_ok()
}

/// The price of a name.
pub fn price_of(prices: &Prices, name: &str) -> Option<u32>
    ensures { result ≡ get_by (name_order name.entry) prices.now }
{
    prices.get(name).copied()
}

/// Raises each price by one, but for the greatest number.
pub fn raise_prices(prices: &mut Prices)
    ensures { prices.new ≡ map (λ entry. (entry.0, min (entry.1 + 1) (2 ^ 32 - 1))) prices.old }
{
    prices.for_each_value_mut(|_, price| *price = price.saturating_add(1));
}

/// Takes a name off the list, and returns its price. The name is not there afterwards.
pub fn take_off(prices: &mut Prices, name: &str) -> Option<u32>
    ensures price { result ≡ get_by (name_order name.entry) prices.old }
    ensures gone { get_by (name_order name.entry) prices.new ≡ None }
{
    // So that the names are known to be in order, each once.
    let _count = prices.len();
    prices.remove(name)
}

/// The prices of the names from the one on and below the other, in the order of the names.
pub fn prices_within(
    prices: &Prices,
    low: &str,
    high: &str,
    alloc: Global,
) -> Result<Vec<u32>, AllocError>
    ensures { IfOk result (λ found. found.items ≡ map (λ entry. entry.1)
        (entries_within name_order (Included low.entry) (Excluded high.entry) prices.now)) }
{
    let mut found = Vec::new(alloc);
    for (_, price) in prices.within(low..high) {
        found.push(*price)?;
    }
    Ok(found)
}

/// The prices of the names that begin with a prefix, in the order of the names.
pub fn prices_below(prices: &Prices, prefix: &str, alloc: Global) -> Result<Vec<u32>, AllocError>
    ensures { IfOk result (λ found. found.items ≡ map (λ entry. entry.1)
        (filter (λ entry. begins_with prefix.now (string_bytes entry.0)) prices.now)) }
{
    let mut found = Vec::new(alloc);
    for price in prices.prefix(prefix).values() {
        found.push(*price)?;
    }
    Ok(found)
}
