//! The remaining pairs of an iterator over a table of 256 indices.
ghost use Rattle.std.specs.Prelude.{◌≡◌, ◌+◌, ◌<◌, ◌≤◌, ℕ, length, map, slice_get, Some, [], ◌∷◌, ◌++◌, drop, take, IfNone, IfSome};
ghost use Rattle.std.specs.Iterator.{YieldsFirst, YieldsLast, item_count};
ghost use Rattle.art_nodes.specs.ChildMap.{table_children};
ghost use Rattle.art_nodes.specs.IndexTable.{index_of};
ghost use Rattle.art_nodes.specs.IndirectNode.{named_pointers, AreBelow};

use art_header::NonMaxIndex;
use std::marker::Model;

/// Places of consecutive bytes, with the indices of the children.
#[derive(Drop)]
pub(crate) struct IndexPairs<'a, H> {
    places: &'a [u8],
    children: &'a [H],
    // The byte of the first place.
    byte: usize,
}

impl<'a, H> Model for IndexPairs<'a, H> {
    ghost use Rattle.std.specs.Prelude.{◌≤◌, ◌+◌, length, map};
    ghost use Rattle.art_nodes.specs.ChildMap.{ChildMap, table_children};
    ghost use Rattle.art_nodes.specs.IndexTable.{index_of};
    ghost use Rattle.art_nodes.specs.IndirectNode.{named_pointers, AreBelow};

    ghost Value = { ChildMap H };

    ghost view = { λ p. table_children p.byte
        (named_pointers p.children.now (map index_of p.places.now)) };

    ghost invariant = { λ p. (p.byte + length p.places.now ≤ 256) ×
        AreBelow (length p.children.now) (map index_of p.places.now) };
}

impl<'a, H: Copy> IndexPairs<'a, H> {
    /// The pairs of these places, where `byte` is that of the first place.
    pub(crate) fn new(byte: usize, places: &'a [u8], children: &'a [H]) -> Self
        requires fits { byte + length places.now ≤ 256 }
        requires named { AreBelow (length children.now) (map index_of places.now) }
        ensures { result ≡
            table_children byte (named_pointers children.now (map index_of places.now)) }
    {
        IndexPairs {
            places,
            children,
            byte,
        }
    }
}

impl<'a, H: Copy> Iterator for IndexPairs<'a, H> {
    type Item = (u8, H);

    ghost next_gives = { YieldsFirst (λ pairs. pairs) };

    ghost remaining = { item_count (λ pairs. pairs) };

    #[inline]
    fn next(&mut self) -> Option<(u8, H)> {
        let (place, index) = first_index(self.places)?;
        let child = named_child(self.children, index);
        let byte = self.byte + place;
        self.places = &self.places[place + 1..];
        self.byte = byte + 1;
        Some((byte as u8, child))
    }
}

impl<'a, H: Copy> DoubleEndedIterator for IndexPairs<'a, H> {
    ghost next_back_gives = { YieldsLast (λ pairs. pairs) };

    #[inline]
    fn next_back(&mut self) -> Option<(u8, H)> {
        let (place, index) = last_index(self.places)?;
        let child = named_child(self.children, index);
        self.places = &self.places[..place];
        Some(((self.byte + place) as u8, child))
    }
}

// The child at an index.
fn named_child<H: Copy>(children: &[H], index: NonMaxIndex) -> H
    requires { index < length children.now }
    ensures { slice_get children.now index ≡ Some result }
{
    children[usize::from(index)]
}

// The first place that has an index, with it.
fn first_index(places: &[u8]) -> Option<(usize, NonMaxIndex)>
    ensures in_range { IfSome result (λ found. found.0 < length places.now) }
    ensures found { IfSome result (λ found. (byte : ℕ) →
        table_children byte (map index_of places.now) ≡ (byte + found.0, found.1) ∷
        table_children (byte + found.0 + 1) (map index_of (drop (found.0 + 1) places.now))) }
    ensures empty { IfNone result ((byte : ℕ) →
        table_children byte (map index_of places.now) ≡ []) }
{
    for (place, number) in places.iter().enumerate() {
        if let Some(index) = NonMaxIndex::new(*number) {
            return Some((place, index));
        }
    }
    None
}

// The last place that has an index, with it.
fn last_index(places: &[u8]) -> Option<(usize, NonMaxIndex)>
    ensures in_range { IfSome result (λ found. found.0 < length places.now) }
    ensures found { IfSome result (λ found. (byte : ℕ) →
        table_children byte (map index_of places.now) ≡
        table_children byte (map index_of (take found.0 places.now))
        ++ (byte + found.0, found.1) ∷ []) }
    ensures empty { IfNone result ((byte : ℕ) →
        table_children byte (map index_of places.now) ≡ []) }
{
    for place in (0..places.len()).rev() {
        if let Some(index) = NonMaxIndex::new(places[place]) {
            return Some((place, index));
        }
    }
    None
}
