//! The rows that a query asks for, and the hosts one after another.
ghost use Rattle.std.specs.Prelude.{◌≡◌, filter, length, map};
ghost use Rattle.std.specs.Option.{option_map};
ghost use Rattle.index.specs.Keys.{AreKeyed};
ghost use Rattle.index.specs.Replies.{is_within};
ghost use Rattle.index.specs.Searches.{IsNextHost};

use crate::rows::{Row, RowKey, RowMap};
use art_map::Iter;
use std::net::Ipv6Addr;
use std::ops::Bound;

/// Some rows of a table in order, under their keys.
pub(crate) type Rows<'i, 'a> = Iter<'i, RowKey, Row<'a>>;

/// The rows of a host from the one time to the other, in order. Goes down the tree to both ends.
pub(crate) fn rows_of_host<'i, 'a>(
    index: &'i RowMap<'a>,
    address: Ipv6Addr,
    from: i64,
    to: i64,
) -> Rows<'i, 'a>
    requires keyed { AreKeyed index.now }
    ensures { map (λ entry. entry.1) result
        ≡ filter (is_within address from to) (map (λ entry. entry.1) index.now) }
{
    index.range((address, (from, 0))..=(address, (to, u64::MAX)))
}

/// How many rows a host has from the one time to the other. Goes over them.
pub(crate) fn count_of_host(index: &RowMap<'_>, address: Ipv6Addr, from: i64, to: i64) -> usize
    requires keyed { AreKeyed index.now }
    ensures { result
        ≡ length (filter (is_within address from to) (map (λ entry. entry.1) index.now)) }
{
    // The count is no greater, so it fits.
    let _most = index.len();
    rows_of_host(index, address, from, to).count()
}

/// The least host above the last one, or the least of all where there is no last one. Goes down the
/// tree once, however many rows a host has.
pub(crate) fn next_host(index: &RowMap<'_>, last: Option<Ipv6Addr>) -> Option<Ipv6Addr>
    requires keyed { AreKeyed index.now }
    ensures { IsNextHost (map (λ entry. entry.1) index.now) last result }
{
    match last {
        None => host_of(index.first_key_value()),
        Some(address) => {
            let end = (address, (i64::MAX, u64::MAX));
            let gap = index.lower_bound(Bound::Excluded(&end));
            host_of(gap.peek_next())
        }
    }
}

// The host of an entry.
fn host_of(entry: Option<(&RowKey, &Row<'_>)>) -> Option<Ipv6Addr>
    ensures { result ≡ option_map (λ (key, row). row.now.reading.address) entry.entry }
{
    match entry {
        Some((_, row)) => Some(row.reading.address),
        None => None,
    }
}
