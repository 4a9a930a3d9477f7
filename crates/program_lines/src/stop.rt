//! What ends a run before its input does.
ghost use Rattle.std.specs.Prelude.{◌≡◌};

use std::alloc::{AllocError, AllocFailed};
use std::fmt::Display;
use std::{fmt, io};

/// Why a run ends before its input does.
#[derive(Clone, Copy)]
pub(crate) enum Stop {
    /// An allocation failed.
    OutOfMemory,
    /// The input cannot be read.
    Input(io::Error),
    /// The output cannot be written.
    Output(io::Error),
    /// The errors cannot be written.
    Errors,
    /// The input has too many lines to number them.
    TooManyLines,
}

impl Stop {
    /// The failure of a read.
    pub(crate) fn of_input(error: io::Error) -> Stop {
        match error.kind() {
            io::ErrorKind::OutOfMemory => Stop::OutOfMemory,
            _ => Stop::Input(error),
        }
    }
}

impl Display for Stop {
    fn fmt<W: fmt::Write>(&self, f: &mut fmt::Formatter<W>) -> fmt::Result {
        match self {
            Stop::OutOfMemory => write!(f, "out of memory"),
            Stop::Input(error) => write!(f, "standard input: {}", Reason(*error)),
            Stop::Output(error) => write!(f, "standard output: {}", Reason(*error)),
            Stop::Errors => write!(f, "standard error cannot be written"),
            Stop::TooManyLines => write!(f, "standard input: too many lines"),
        }
    }
}

impl From<AllocError> for Stop {
    fn from(_error: AllocError) -> Stop {
        Stop::OutOfMemory
    }
}

impl<T: Drop> From<AllocFailed<T>> for Stop {
    fn from(_error: AllocFailed<T>) -> Stop {
        Stop::OutOfMemory
    }
}

/// The reason that the system gave.
#[derive(Clone, Copy)]
pub(crate) struct Reason(pub(crate) io::Error);

impl Display for Reason {
    fn fmt<W: fmt::Write>(&self, f: &mut fmt::Formatter<W>) -> fmt::Result {
        match self.0.kind() {
            io::ErrorKind::NotFound => write!(f, "no such file"),
            io::ErrorKind::PermissionDenied => write!(f, "permission denied"),
            io::ErrorKind::IsADirectory => write!(f, "is a directory"),
            io::ErrorKind::StorageFull => write!(f, "no space left"),
            _ => write!(f, "{}", self.0),
        }
    }
}
