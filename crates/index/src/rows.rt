//! The rows of a table, and the index of them.
ghost use Rattle.std.specs.Prelude.{All, IfOk, map};
ghost use Rattle.index.specs.Keys.{AreKeyed, HasTime};
ghost use Rattle.index.specs.Rows.{IsIndex};

use crate::reading::Reading;
use art_map::Map;
use std::alloc::{AllocError, Global};
use std::net::Ipv6Addr;

/// A row of the table.
#[derive(Clone, Copy)]
pub struct Row<'a> {
    /// How many rows come before it in the table.
    pub place: usize,
    /// What its line says.
    pub reading: Reading<'a>,
}

/// The key of a row: its address, and then its time and its place in the table.
pub(crate) type RowKey = (Ipv6Addr, (i64, u64));

/// The rows of a table under their keys.
pub(crate) type RowMap<'a> = Map<RowKey, Row<'a>>;

/// The index of these rows.
pub(crate) fn index_of<'a>(alloc: Global, table: &[Reading<'a>]) -> Result<RowMap<'a>, AllocError>
    requires { All HasTime table.now }
    ensures rows { IfOk result (λ index. IsIndex table.now (map (λ entry. entry.1) index)) }
    ensures keyed { IfOk result AreKeyed }
{
    let mut index = Map::new(alloc);
    for (place, reading) in table.iter().enumerate() {
        let key = (reading.address, (reading.time, place as u64));
        let row = Row {
            place,
            reading: *reading,
        };
        index.insert(key, row)?;
    }
    // So that the rows are known to ascend where there is none.
    let _count = index.len();
    Ok(index)
}
