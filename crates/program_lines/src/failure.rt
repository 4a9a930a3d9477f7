//! Failures: what ends a run before its output is written.
ghost use Rattle.std.specs.Prelude.{◌≡◌};

use crate::writing::write_line;
use std::alloc::{AllocError, AllocFailed};
use std::fmt::Display;
use std::io::Write;
use std::{fmt, io};

/// Where a program reads a line.
#[derive(Clone, Copy, Debug, PartialEq, Eq)]
pub enum Source {
    /// The file that the program is given.
    File,
    /// Standard input, where the program reads nothing else: a failure's line does not name it.
    OnlyInput,
}

impl Display for Source {
    ghost use Rattle.std.specs.Prelude.{Some};
    ghost use Rattle.program_lines.specs.Failures.{source_text};

    ghost output = { λ source. Some (source_text source) };

    fn fmt<W: fmt::Write>(&self, f: &mut fmt::Formatter<W>) -> fmt::Result {
        match self {
            Source::File => write!(f, "file "),
            Source::OnlyInput => Ok(()),
        }
    }
}

/// A line at fault.
#[derive(Clone, Copy, Debug, PartialEq, Eq)]
pub struct BadLine<F> {
    /// Where the line is read.
    pub source: Source,
    /// The number of the line there, from 1.
    pub number: usize,
    /// What is wrong with it.
    pub fault: F,
}

/// Why a run ends without its output. Its text is the line for standard error.
#[derive(Clone, Copy, Debug, PartialEq, Eq)]
pub enum Failure<F> {
    /// A line is at fault.
    BadLine(BadLine<F>),
    /// An allocation failed.
    OutOfMemory,
    /// A read or a write failed.
    Device,
}

impl<F> Failure<F> {
    ghost use Rattle.program_lines.specs.Failures.{status_of};

    /// The exit status: 2 for a bad line, 1 for an allocation failure or a failed device.
    pub fn status(&self) -> u8
        ensures { result ≡ status_of self.now }
    {
        match self {
            Failure::BadLine(_) => 2,
            Failure::OutOfMemory | Failure::Device => 1,
        }
    }
}

impl<F: Display + Copy> Failure<F> {
    ghost use Rattle.std.specs.Prelude.{IfSome};
    ghost use Rattle.program_lines.specs.Failures.{status_of, shown_failure};
    ghost use Rattle.program_lines.specs.Lines.{line};
    ghost use Rattle.program_lines.specs.Programs.{AppendsBeginning};

    /// Writes the line of the failure, as far as the writer takes it, and returns the status, also
    /// where the write fails.
    pub fn report<E: Write>(self, errors: &mut E) -> u8
        ensures status { result ≡ status_of self }
        ensures told { IfSome (shown_failure F.output self) (λ text.
            AppendsBeginning (E.contents errors.old) (E.contents errors.new) (line text)) }
    {
        write_line(errors, self);
        self.status()
    }
}

impl<F: Display> Display for Failure<F> {
    ghost use Rattle.program_lines.specs.Failures.{shown_failure};

    ghost output = { shown_failure F.output };

    fn fmt<W: fmt::Write>(&self, f: &mut fmt::Formatter<W>) -> fmt::Result {
        match self {
            Failure::BadLine(bad) => write!(f, "{}line {}: {}", bad.source, bad.number, bad.fault),
            Failure::OutOfMemory => write!(f, "out of memory"),
            Failure::Device => write!(f, "device failed"),
        }
    }
}

impl<F> From<AllocError> for Failure<F> {
    ghost use Rattle.program_lines.specs.declared.failure.Failure.TheVariants.{OutOfMemory};

    ghost from_gives = { λ _ failure. failure ≡ OutOfMemory };

    fn from(_error: AllocError) -> Failure<F> {
        Failure::OutOfMemory
    }
}

impl<F, T: Drop> From<AllocFailed<T>> for Failure<F> {
    ghost use Rattle.program_lines.specs.declared.failure.Failure.TheVariants.{OutOfMemory};

    ghost from_gives = { λ _ failure. failure ≡ OutOfMemory };

    fn from(_error: AllocFailed<T>) -> Failure<F> {
        Failure::OutOfMemory
    }
}

impl<F> From<io::Error> for Failure<F> {
    ghost use Rattle.std.specs.Prelude.{◌≡◌, ◌≢◌};
    ghost use Rattle.std.specs.IoError.{error_kind};
    ghost use Rattle.std.specs.declared.io.ErrorKind.TheVariants.{OutOfMemory as MemoryKind};
    ghost use Rattle.program_lines.specs.Failures.{status_of};
    ghost use Rattle.program_lines.specs.declared.failure.Failure.TheVariants.{OutOfMemory, Device};

    ghost from_gives = { λ error failure. (status_of failure ≡ 1)
        × (error_kind error ≡ MemoryKind → failure ≡ OutOfMemory)
        × (error_kind error ≢ MemoryKind → failure ≡ Device) };

    fn from(error: io::Error) -> Failure<F> {
        if error.kind() == io::ErrorKind::OutOfMemory {
            Failure::OutOfMemory
        } else {
            Failure::Device
        }
    }
}
