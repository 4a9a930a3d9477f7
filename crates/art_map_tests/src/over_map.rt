//! A stock over a map by pages: `over_std` under another `use` line.
ghost use Rattle.std.specs.Prelude.{◌≡◌, ◌+◌, ◌-◌, ◌^◌, false, map, min, IfOk, IsTrue};
ghost use Rattle.std.specs.BTreeMap.{insert_entry, is_at};
ghost use Rattle.std.specs.BTreeMap.Range.{entries_between};
ghost use Rattle.std.specs.Map.{lookup, remove_entry};
ghost use Rattle.std.specs.Option.{unwrap_or};
ghost use Rattle.std.specs.Ordering.{nat_cmp};
ghost use Rattle.std.specs.declared.ops.Bound.TheVariants.{Included, Unbounded};
ghost use Rattle.art_map_tests.specs.MapEntries.{entries_of};

use art_map::Map as BTreeMap;
use std::alloc::{AllocError, Global};

/// How many there are, by number.
pub type Stock = BTreeMap<u32, u32>;

/// Adds so many to a number, up to the greatest count. Refused, the stock is as it was.
pub fn add(stock: &mut Stock, number: u32, more: u32) -> bool
    ensures added { IsTrue result → entries_of stock.new ≡ insert_entry nat_cmp (entries_of stock.old)
        number (min (unwrap_or (lookup (is_at (nat_cmp number)) (entries_of stock.old)) 0 + more)
        (2 ^ 32 - 1)) }
    ensures refused { result ≡ false → entries_of stock.new ≡ entries_of stock.old }
{
    let count = match stock.get(&number) {
        Some(count) => *count,
        None => 0,
    };
    stock.insert(number, count.saturating_add(more)).is_ok()
}

/// Takes out a number.
pub fn take_out(stock: &mut Stock, number: u32) -> Option<u32>
    ensures count { result ≡ lookup (is_at (nat_cmp number)) (entries_of stock.old) }
    ensures others { entries_of stock.new
        ≡ remove_entry (is_at (nat_cmp number)) (entries_of stock.old) }
{
    stock.remove(&number)
}

/// The counts of the numbers from this one on, in order.
pub fn counts_from(stock: &Stock, least: u32, alloc: Global) -> Result<Vec<u32>, AllocError>
    ensures { IfOk result (λ counts. counts.items ≡ map (λ entry. entry.1)
        (entries_between nat_cmp (Included least) Unbounded (entries_of stock.now))) }
{
    let mut counts = Vec::new(alloc);
    for (_, count) in stock.range(least..) {
        counts.push(*count)?;
    }
    Ok(counts)
}

/// The numbers, in order.
pub fn numbers(stock: &Stock, alloc: Global) -> Result<Vec<u32>, AllocError>
    ensures { IfOk result (λ numbers. numbers.items ≡ map (λ entry. entry.0) (entries_of stock.now)) }
{
    let mut numbers = Vec::new(alloc);
    for (number, _) in stock {
        numbers.push(*number)?;
    }
    Ok(numbers)
}
