//! Indices into the places of a node.
ghost use Rattle.std.specs.Prelude.{◌≡◌, ◌<◌};
ghost use Rattle.std.specs.Option.{SomeIff};

use std::error::Error;
use std::fmt;
use std::marker::Model;

/// An index from 0 to 254, for an array of at most 255 places. Indices compare by their numbers.
///
/// (from crates/art_node_tests/src/header/non_max_index.rt)
/// ```rust
/// for number in [0, 19, 254] {
///     assert!(rt; NonMaxIndex::new(number).map(|index| index.get()) == Some(number));
/// }
/// assert!(rt; NonMaxIndex::new(255) == None);
/// ```
#[derive(Clone, Copy, Debug, PartialEq, Eq, PartialOrd, Ord)]
pub struct NonMaxIndex {
    value: u8,
}

impl Model for NonMaxIndex {
    ghost use Rattle.std.specs.Prelude.{ℕ, ◌<◌};

    ghost Value = { ℕ };

    ghost view = { λ index. index.value };

    ghost invariant = { λ index. index.value < 255 };

    ghost inverse = { λ number. record { value = number } };
}

impl NonMaxIndex {
    /// The index with this number, and `None` for 255.
    pub fn new(value: u8) -> Option<Self>
        ensures { SomeIff result (value < 255) value }
    {
        if value == u8::MAX {
            None
        } else {
            Some(NonMaxIndex { value })
        }
    }

    /// The index with this number. Condition: it is not 255; [`NonMaxIndex::new`] tests it.
    pub fn new_unchecked(value: u8) -> Self
        requires { value < 255 }
        ensures { result ≡ value }
    {
        NonMaxIndex { value }
    }

    /// The number, from 0 to 254.
    pub fn get(&self) -> u8
        ensures value { result ≡ self.now }
        ensures below_max { result < 255 }
    {
        self.value
    }
}

/// The index 0.
impl Default for NonMaxIndex {
    ghost use Rattle.std.specs.Prelude.{◌≡◌};

    ghost is_default = { λ index. index ≡ 0 };

    fn default() -> Self {
        NonMaxIndex { value: 0 }
    }
}

/// The number of an index.
impl From<NonMaxIndex> for u8 {
    ghost use Rattle.std.specs.Prelude.{◌≡◌};

    ghost from_gives = { λ index number. index ≡ number };

    fn from(value: NonMaxIndex) -> u8 {
        value.get()
    }
}

/// The number of an index.
impl From<NonMaxIndex> for usize {
    ghost use Rattle.std.specs.Prelude.{◌≡◌};

    ghost from_gives = { λ index number. index ≡ number };

    fn from(value: NonMaxIndex) -> usize {
        usize::from(value.get())
    }
}

/// The index with this number. Error: [`TryFromByteError`] for 255.
impl TryFrom<u8> for NonMaxIndex {
    type Error = TryFromByteError;

    ghost use Rattle.std.specs.Prelude.{◌<◌};
    ghost use Rattle.std.specs.Result.{OkIff};

    ghost try_from_gives = { λ number r. OkIff r (number < 255) number };

    fn try_from(value: u8) -> Result<Self, TryFromByteError> {
        NonMaxIndex::new(value).ok_or(TryFromByteError)
    }
}

/// The index with this number. Error: [`TryFromByteError`] for 255 and above.
impl TryFrom<usize> for NonMaxIndex {
    type Error = TryFromByteError;

    ghost use Rattle.std.specs.Prelude.{◌<◌};
    ghost use Rattle.std.specs.Result.{OkIff};

    ghost try_from_gives = { λ number r. OkIff r (number < 255) number };

    fn try_from(value: usize) -> Result<Self, TryFromByteError> {
        if value >= usize::from(u8::MAX) {
            Err(TryFromByteError)
        } else {
            Ok(NonMaxIndex::new_unchecked(value as u8))
        }
    }
}

/// The error for a number that is no [`NonMaxIndex`]: it is 255 or greater.
///
/// (from crates/art_node_tests/src/header/non_max_index.rt)
/// ```rust
/// assert!(rt; usize::from(NonMaxIndex::try_from(254usize)?) == 254);
/// assert!(rt; NonMaxIndex::try_from(255u8) == Err(TryFromByteError));
/// ```
#[derive(Clone, Copy, Debug, PartialEq, Eq)]
pub struct TryFromByteError;

impl fmt::Display for TryFromByteError {
    ghost use Rattle.std.specs.Prelude.{codes, Some};

    ghost output = { λ _. Some (codes "out of range integral type conversion attempted") };

    fn fmt<W: fmt::Write>(&self, f: &mut fmt::Formatter<W>) -> fmt::Result {
        write!(f, "out of range integral type conversion attempted")
    }
}

impl Error for TryFromByteError {}
