//! The table of an indirect node: an index, or none, for each byte.
ghost use Rattle.std.specs.Prelude.{◌≡◌, ◌≤◌, length, map, replicate, slice_index_or, slice_set, None, Some};
ghost use Rattle.std.specs.List.{range_with_len, zip};
ghost use Rattle.art_nodes.specs.ChildMap.{table_children, IsAscending};
ghost use Rattle.art_nodes.specs.IndexTable.{index_of};

use art_header::NonMaxIndex;
use std::marker::Model;

/// An index, or none, for each byte, in one byte of memory each.
#[derive(Drop)]
pub(crate) struct IndexTable {
    // The number of the index of each byte, and 255 where there is none.
    places: [u8; 256],
}

impl Model for IndexTable {
    ghost use Rattle.std.specs.Prelude.{◌≡◌, ℕ, List, Option, length, map};
    ghost use Rattle.art_nodes.specs.IndexTable.{index_of};

    ghost Value = { List (Option ℕ) };

    ghost view = { λ table. map index_of table.places };

    ghost invariant = { λ table. length table.places ≡ 256 };
}

impl IndexTable {
    /// A table with no index.
    pub(crate) fn new() -> Self
        ensures { result ≡ replicate 256 None }
    {
        IndexTable {
            places: [u8::MAX; 256],
        }
    }

    /// The table in which each of these bytes has its place among them as its index. Conditions:
    /// they ascend, and there are at most 255 of them.
    pub(crate) fn of_places(bytes: &[u8]) -> Self
        requires ascending { IsAscending bytes.now }
        requires fit { length bytes.now ≤ 255 }
        ensures pairs { table_children 0 result ≡
            zip bytes.now (range_with_len 0 (length bytes.now)) }
        ensures all_bytes { length result ≡ 256 }
    {
        let mut table = Self::new();
        for (place, byte) in bytes.iter().enumerate() {
            table.set(*byte, NonMaxIndex::new_unchecked(place as u8));
        }
        table
    }

    /// A copy. Takes no memory.
    pub(crate) fn clone(&self) -> Self
        ensures { result ≡ self.now }
    {
        IndexTable {
            places: self.places,
        }
    }

    /// The entry of each byte: the number of its index, and 255 where there is none.
    pub(crate) fn places(&self) -> &[u8]
        ensures indices { map index_of result.now ≡ self.now }
        ensures all_bytes { length result.now ≡ 256 }
    {
        &self.places[..]
    }

    /// The index of the byte, if it has one.
    pub(crate) fn get(&self, byte: u8) -> Option<NonMaxIndex>
        ensures { result ≡ slice_index_or self.now byte None }
    {
        NonMaxIndex::new(self.places[usize::from(byte)])
    }

    /// Gives the byte this index.
    pub(crate) fn set(&mut self, byte: u8, index: NonMaxIndex)
        ensures { self.new ≡ slice_set self.old byte (Some index) }
    {
        self.places[usize::from(byte)] = index.get();
    }

    /// Removes the index of the byte.
    pub(crate) fn clear(&mut self, byte: u8)
        ensures { self.new ≡ slice_set self.old byte None }
    {
        self.places[usize::from(byte)] = u8::MAX;
    }
}
