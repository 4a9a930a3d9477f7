//! A refused insert and a refused load: why, what they print, and the errors that they become.
use crate::check::LoadRefusal;
use art_bytes::NoPrefixesBytes;
use std::alloc::AllocError;
use std::error::Error;
use std::fmt;

/// Why an insert refuses an entry. See [`InsertFault`] for an
/// example.
#[derive(Clone, Copy, Debug, PartialEq, Eq)]
pub enum InsertRefusal {
    /// The key has 2^32 bytes or more.
    KeyTooLong,
    /// The key is a proper prefix of a key in the tree, or a key in the tree is a proper prefix of
    /// it.
    Prefix,
    /// An allocation failed. The key is not at fault, and no entry has its bytes.
    OutOfMemory,
}

impl fmt::Display for InsertRefusal {
    ghost use Rattle.std.specs.Prelude.{Some};
    ghost use Rattle.art_steps.specs.RefusalTexts.{insert_refusal_text};

    ghost output = { λ refusal. Some (insert_refusal_text refusal) };

    fn fmt<W: fmt::Write>(&self, f: &mut fmt::Formatter<W>) -> fmt::Result {
        match self {
            InsertRefusal::KeyTooLong => write!(f, "key too long"),
            InsertRefusal::Prefix => write!(f, "one key is a prefix of the other"),
            InsertRefusal::OutOfMemory => write!(f, "out of memory"),
        }
    }
}

impl Error for InsertRefusal {}

/// A refused entry, and why it was refused.
///
/// An insert of a key that is a proper prefix of another one returns key and value:
///
/// (from crates/art_tree_tests/src/tree/changes.rt)
/// ```rust
/// let Err(fault) = tree.insert(String::from_str(alloc, text)?, 9) else {
///     panic!(rt; "inserted");
/// };
/// assert!(rt; fault.refusal == InsertRefusal::Prefix);
/// assert!(rt; fault.key.as_bytes() == text.as_bytes() && fault.value == 9);
/// ```
#[derive(Drop)]
pub struct InsertFault<K, V> {
    /// Why the entry was refused.
    pub refusal: InsertRefusal,
    /// The key.
    pub key: K,
    /// The value.
    pub value: V,
}

/// A refused load: why, and the entries, unchanged. They can be loaded again:
///
/// (from tests/art_tree_tests/tree/refusals.rt.txt)
/// ```rust
/// let fault = match ArtTree::load(alloc, entries) {
///     Ok(tree) => return Ok(tree),
///     Err(fault) => fault,
/// };
/// assert!(rt; fault.refusal == LoadRefusal::OutOfMemory);
/// // ..
/// let Ok(tree) = ArtTree::load(alloc, fault.entries) else {
///     panic!(rt; "refused twice");
/// };
/// ```
#[derive(Drop)]
pub struct LoadFault<K, V> {
    /// Why the entries were not loaded.
    pub refusal: LoadRefusal,
    /// The entries, in their order.
    pub entries: Vec<(K, V)>,
}

/// The reason, without key and value, which need not be printable.
impl<K, V> fmt::Debug for InsertFault<K, V> {
    fn fmt<W: fmt::Write>(&self, f: &mut fmt::Formatter<W>) -> fmt::Result {
        write!(f, "InsertFault {{ refusal: {:?}, .. }}", self.refusal)
    }
}

/// As the reason is printed.
impl<K, V> fmt::Display for InsertFault<K, V> {
    ghost use Rattle.std.specs.Prelude.{Some};
    ghost use Rattle.art_steps.specs.RefusalTexts.{insert_refusal_text};

    ghost output = { λ fault. Some (insert_refusal_text fault.refusal) };

    fn fmt<W: fmt::Write>(&self, f: &mut fmt::Formatter<W>) -> fmt::Result {
        write!(f, "{}", self.refusal)
    }
}

impl<K: Drop, V: Drop> Error for InsertFault<K, V> {}

/// The reason alone. Key and value are dropped.
impl<K: Drop, V: Drop> From<InsertFault<K, V>> for InsertRefusal {
    ghost use Rattle.std.specs.Prelude.{◌≡◌};

    ghost from_gives = { λ fault refusal. refusal ≡ fault.refusal };

    fn from(fault: InsertFault<K, V>) -> InsertRefusal {
        fault.refusal
    }
}

/// Where no key begins another, an entry is refused for memory, or for a key of 2^32 bytes. Key and
/// value are dropped.
impl<K: NoPrefixesBytes + Drop, V: Drop> From<InsertFault<K, V>> for AllocError {
    fn from(_fault: InsertFault<K, V>) -> AllocError {
        AllocError
    }
}

/// The reason, without the entries, which need not be printable.
impl<K, V> fmt::Debug for LoadFault<K, V> {
    fn fmt<W: fmt::Write>(&self, f: &mut fmt::Formatter<W>) -> fmt::Result {
        write!(f, "LoadFault {{ refusal: {:?}, .. }}", self.refusal)
    }
}

/// As the reason is printed.
impl<K, V> fmt::Display for LoadFault<K, V> {
    ghost use Rattle.std.specs.Prelude.{Some};
    ghost use Rattle.art_steps.specs.RefusalTexts.{load_refusal_text};

    ghost output = { λ fault. Some (load_refusal_text fault.refusal) };

    fn fmt<W: fmt::Write>(&self, f: &mut fmt::Formatter<W>) -> fmt::Result {
        write!(f, "{}", self.refusal)
    }
}

impl<K: Drop, V: Drop> Error for LoadFault<K, V> {}

/// The reason alone. The entries are dropped.
impl<K: Drop, V: Drop> From<LoadFault<K, V>> for LoadRefusal {
    ghost use Rattle.std.specs.Prelude.{◌≡◌};

    ghost from_gives = { λ fault refusal. refusal ≡ fault.refusal };

    fn from(fault: LoadFault<K, V>) -> LoadRefusal {
        fault.refusal
    }
}
