//! Loading: the faults of entries.
ghost use Rattle.std.specs.Prelude.{◌≡◌, ◌<◌, length, All, IfSome, IfNone, get_or};
ghost use Rattle.art_steps.specs.Refusals.{texts_of, HaveNoFault, IsRefusal, fault_at};

use art_bytes::AsBytes;
use std::cmp::Ordering;
use std::error::Error;
use std::fmt;

/// Why a load refuses entries. An index counts entries from 0.
///
/// Keys and their refusal:
///
/// (from tests/art_tree_tests/tree/loading.rt.txt)
/// ```rust
/// (&[], LoadRefusal::Empty),
/// (&["a", "a"], LoadRefusal::NotAscending(0)),
/// (&["b", "a"], LoadRefusal::NotAscending(0)),
/// (&["a", "ab"], LoadRefusal::Prefix(0)),
/// ```
#[derive(Clone, Copy, Debug, PartialEq, Eq)]
pub enum LoadRefusal {
    /// There are no entries.
    Empty,
    /// The key of this entry has 2^32 bytes or more.
    KeyTooLong(usize),
    /// The key of this entry is not below that of the next one.
    NotAscending(usize),
    /// The key of this entry is a proper prefix of that of the next one.
    Prefix(usize),
    /// An allocation failed. The entries are not at fault.
    OutOfMemory,
}

impl fmt::Display for LoadRefusal {
    ghost use Rattle.std.specs.Prelude.{Some};
    ghost use Rattle.art_steps.specs.RefusalTexts.{load_refusal_text};

    ghost output = { λ refusal. Some (load_refusal_text refusal) };

    fn fmt<W: fmt::Write>(&self, f: &mut fmt::Formatter<W>) -> fmt::Result {
        match self {
            LoadRefusal::Empty => write!(f, "no entries"),
            LoadRefusal::KeyTooLong(index) => write!(f, "entry {index}: key too long"),
            LoadRefusal::NotAscending(index) => {
                write!(f, "entry {index}: key is not below the next one")
            }
            LoadRefusal::Prefix(index) => {
                write!(f, "entry {index}: key is a prefix of the next one")
            }
            LoadRefusal::OutOfMemory => write!(f, "out of memory"),
        }
    }
}

impl Error for LoadRefusal {}

// The fault of the entry at an index, if it has one.
fn fault_of<K: AsBytes, V>(entries: &[(K, V)], index: usize) -> Option<LoadRefusal>
    requires { index < length entries.now }
    ensures fault { result ≡ fault_at (texts_of K.text entries.now) index }
    ensures key { (other : _) → K.is_key (get_or entries.now index other).0 }
{
    let text = entries[index].0.as_bytes();
    if text.len() >= 1 << 32 {
        return Some(LoadRefusal::KeyTooLong(index));
    }
    if index + 1 == entries.len() {
        return None;
    }
    let next = entries[index + 1].0.as_bytes();
    if text.cmp(next) != Ordering::Less {
        Some(LoadRefusal::NotAscending(index))
    } else if next.starts_with(text) {
        Some(LoadRefusal::Prefix(index))
    } else {
        None
    }
}

/// The fault of the entries, if they have one: there are none, or else the first fault.
pub fn refusal_of<K: AsBytes, V>(entries: &[(K, V)]) -> Option<LoadRefusal>
    ensures refused { IfSome result (IsRefusal (texts_of K.text entries.now)) }
    ensures no_fault { IfNone result (HaveNoFault (texts_of K.text entries.now)) }
    ensures keys { IfNone result (All (λ entry. K.is_key entry.0) entries.now) }
{
    if entries.is_empty() {
        return Some(LoadRefusal::Empty);
    }
    for index in 0..entries.len() {
        if let Some(refusal) = fault_of(entries, index) {
            return Some(refusal);
        }
    }
    None
}
