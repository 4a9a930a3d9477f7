//! Why an entry, or many at once, are refused.
ghost use Rattle.std.specs.Prelude.{◌≡◌, false, IsTrue};
ghost use Rattle.art_c_maps.specs.Refusals.{IsNotTooLong, IsTooLong};

/// Why [`BytesMap::insert`](crate::BytesMap::insert) refuses an entry. The map is unchanged.
#[derive(Clone, Copy, PartialEq, Eq, Debug)]
pub enum Refusal {
    /// The key has more than 3,817,748,704 bytes.
    KeyTooLong,
    /// An allocation failed.
    OutOfMemory,
}

/// Why [`BytesMap::load`](crate::BytesMap::load) and [`NumberMap::load`](crate::NumberMap::load) refuse
/// entries: the first of these. The map is unchanged.
#[derive(Clone, Copy, PartialEq, Eq, Debug)]
pub enum LoadRefusal {
    /// The map has entries.
    NotEmpty,
    /// Some key is not below the next one.
    NotAscending,
    /// Some key has more than 3,817,748,704 bytes.
    KeyTooLong,
    /// An allocation failed.
    OutOfMemory,
}

// The greatest number of bytes of a key: the map takes nine for each eight of them, and fewer than 2^32.
const MOST_BYTES: usize = 3817748704;

/// Whether a key is too long for a map. Takes constant time.
pub(crate) fn is_too_long(key: &[u8]) -> bool
    ensures too_long { IsTrue result → IsTooLong key.now }
    ensures fits { result ≡ false → IsNotTooLong key.now }
{
    MOST_BYTES < key.len()
}
