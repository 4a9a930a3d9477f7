//! Refusals, what they print, and the errors that they become.
ghost use Rattle.std.specs.Prelude.{◌≡◌};

use crate::map::Map;
use art_keys::KeyBytes;
use std::alloc::AllocError;
use std::error::Error;
use std::fmt;

/// Why an entry was not inserted.
#[derive(Clone, Copy, PartialEq, Eq, Debug, Drop)]
pub enum InsertRefusal {
    /// The encoding of the key has 2^32 bytes or more.
    KeyTooLong,
    /// Memory was refused.
    OutOfMemory,
}

/// An entry that was not inserted, and why.
#[derive(Drop)]
pub struct InsertFault<K, V> {
    /// Why.
    pub refusal: InsertRefusal,
    /// The key.
    pub key: K,
    /// The value.
    pub value: V,
}

/// The entry at which a call that inserts many stopped, and those that it did not come to.
#[derive(Drop)]
pub struct ExtendFault<K, V, I> {
    /// The entry that was refused, and why.
    pub refused: InsertFault<K, V>,
    /// The iterator, which yields the entries behind it.
    pub rest: I,
}

/// The entry at which [`split_off`](crate::Map::split_off) stopped, and those that were moved before.
#[derive(Drop)]
pub struct SplitFault<K: KeyBytes, V> {
    /// The entry that had no room.
    pub refused: InsertFault<K, V>,
    /// The entries behind it.
    pub moved: Map<K, V>,
}

impl fmt::Display for InsertRefusal {
    fn fmt<W: fmt::Write>(&self, f: &mut fmt::Formatter<W>) -> fmt::Result {
        match self {
            InsertRefusal::KeyTooLong => f.write_str("key too long"),
            InsertRefusal::OutOfMemory => f.write_str("out of memory"),
        }
    }
}

impl Error for InsertRefusal {}

/// The reason, without key and value, which need not be printable.
impl<K, V> fmt::Debug for InsertFault<K, V> {
    fn fmt<W: fmt::Write>(&self, f: &mut fmt::Formatter<W>) -> fmt::Result {
        write!(f, "InsertFault {{ refusal: {:?}, .. }}", self.refusal)
    }
}

/// As the reason is printed.
impl<K, V> fmt::Display for InsertFault<K, V> {
    fn fmt<W: fmt::Write>(&self, f: &mut fmt::Formatter<W>) -> fmt::Result {
        write!(f, "{}", self.refusal)
    }
}

impl<K: Drop, V: Drop> Error for InsertFault<K, V> {}

/// The reason alone. Key and value are dropped.
impl<K: Drop, V: Drop> From<InsertFault<K, V>> for InsertRefusal {
    ghost use Rattle.std.specs.Prelude.{◌≡◌};

    ghost from_gives = { λ fault refusal. refusal ≡ fault.refusal };

    fn from(fault: InsertFault<K, V>) -> InsertRefusal {
        fault.refusal
    }
}

/// An entry is refused for memory, or for an encoding of 2^32 bytes or more. Key and value are dropped.
impl<K: Drop, V: Drop> From<InsertFault<K, V>> for AllocError {
    fn from(_fault: InsertFault<K, V>) -> AllocError {
        AllocError
    }
}

/// Memory was refused. The entries that did not stay in the map are dropped.
impl<K: KeyBytes + Drop, V: Drop> From<SplitFault<K, V>> for AllocError {
    fn from(_fault: SplitFault<K, V>) -> AllocError {
        AllocError
    }
}

// How many bytes an encoding has, and more: an index holds none of them.
pub(crate) const TOO_LONG: usize = 4294967296;

/// A refusal of an entry.
pub(crate) fn refuse<K, V>(refusal: InsertRefusal, key: K, value: V) -> InsertFault<K, V>
    ensures refusal { result.refusal ≡ refusal }
    ensures entry { (result.key ≡ key) × (result.value ≡ value) }
{
    InsertFault {
        refusal,
        key,
        value,
    }
}
