//! What may be wrong with a line.
use std::fmt;
use std::fmt::Display;

/// What may be wrong with a line, where `F` is what a program may find wrong.
#[derive(Clone, Copy, Debug, PartialEq, Eq)]
pub enum LineFault<F> {
    /// The last byte of the line is a carriage return.
    CarriageReturn,
    /// The line says nothing, for this reason.
    Other(F),
}

impl<F: Display> Display for LineFault<F> {
    ghost use Rattle.program_lines.specs.Faults.{shown_fault};

    ghost output = { shown_fault F.output };

    fn fmt<W: fmt::Write>(&self, f: &mut fmt::Formatter<W>) -> fmt::Result {
        match self {
            LineFault::CarriageReturn => write!(f, "ends with a carriage return"),
            LineFault::Other(fault) => write!(f, "{}", *fault),
        }
    }
}
