//! Failures: what ends a run before its output is written.
ghost use Rattle.std.specs.Prelude.{◌≡◌};
ghost use Rattle.art_cli.specs.Failure.{failure_at};

use program_lines::{BadLine, Source};
use std::fmt;

/// Why a run with good words ends without its output. Its text is the line for standard error.
pub type Failure = program_lines::Failure<LineFault>;

/// The fault of a line.
#[derive(Clone, Copy, Debug, PartialEq, Eq)]
pub enum LineFault {
    /// The line begins with no command: no name of `replay`, or none of `+`, `-` and `?` of `find`.
    UnknownCommand,
    /// The command takes more or fewer words.
    WrongNumberOfWords,
    /// A number or a bound is malformed or out of its range.
    BadNumber,
    /// The key of an entry has 2^32 bytes or more.
    KeyTooLong,
    /// The key of an entry is a proper prefix of that of another entry, or the other's of it.
    PrefixOfOther,
}

impl fmt::Display for LineFault {
    ghost use Rattle.std.specs.Prelude.{Some};
    ghost use Rattle.art_cli.specs.Failure.{line_fault_text};

    ghost output = { λ fault. Some (line_fault_text fault) };

    fn fmt<W: fmt::Write>(&self, f: &mut fmt::Formatter<W>) -> fmt::Result {
        match self {
            LineFault::UnknownCommand => write!(f, "unknown command"),
            LineFault::WrongNumberOfWords => write!(f, "wrong number of words"),
            LineFault::BadNumber => write!(f, "bad number"),
            LineFault::KeyTooLong => write!(f, "key too long"),
            LineFault::PrefixOfOther => write!(f, "one key is a front of the other"),
        }
    }
}

/// The failure of the line of this number, from 1.
pub(crate) fn failure_at(number: usize, fault: LineFault) -> Failure
    ensures { result ≡ failure_at number fault }
{
    Failure::BadLine(BadLine {
        source: Source::OnlyInput,
        number,
        fault,
    })
}
