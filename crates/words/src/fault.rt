//! What may be wrong with a line.
use std::fmt;

/// The fault of a line of the list, or of a query.
#[derive(Clone, Copy, Debug, PartialEq, Eq)]
pub enum Fault {
    /// A byte is zero.
    ZeroByte,
    /// The word has more than 2^32 - 2 bytes.
    WordTooLong,
    /// The line begins with none of `?`, `#`, `<` and `>`.
    UnknownQuery,
    /// What follows the prefix is no number.
    BadNumber,
}

impl fmt::Display for Fault {
    ghost use Rattle.std.specs.Prelude.{Some};
    ghost use Rattle.words.specs.Faults.{word_fault_text};

    ghost output = { λ fault. Some (word_fault_text fault) };

    fn fmt<W: fmt::Write>(&self, f: &mut fmt::Formatter<W>) -> fmt::Result {
        match self {
            Fault::ZeroByte => write!(f, "zero byte"),
            Fault::WordTooLong => write!(f, "word too long"),
            Fault::UnknownQuery => write!(f, "unknown query"),
            Fault::BadNumber => write!(f, "bad number"),
        }
    }
}
