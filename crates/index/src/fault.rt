//! What may be wrong with a line.
use std::fmt;

/// The fault of a line of the table, or of a query.
#[derive(Clone, Copy, Debug, PartialEq, Eq)]
pub enum Fault {
    /// The first line of the table is not `address,time,value`.
    NoHeader,
    /// The line has fewer than three fields.
    MissingField,
    /// The host is no IPv4 or IPv6 address.
    BadAddress,
    /// The time is no whole number of 64 bits.
    BadTime,
    /// The line is no query.
    UnknownQuery,
}

impl fmt::Display for Fault {
    ghost use Rattle.std.specs.Prelude.{Some};
    ghost use Rattle.index.specs.Faults.{index_fault_text};

    ghost output = { λ fault. Some (index_fault_text fault) };

    fn fmt<W: fmt::Write>(&self, f: &mut fmt::Formatter<W>) -> fmt::Result {
        match self {
            Fault::NoHeader => write!(f, "no header"),
            Fault::MissingField => write!(f, "missing field"),
            Fault::BadAddress => write!(f, "bad address"),
            Fault::BadTime => write!(f, "bad time"),
            Fault::UnknownQuery => write!(f, "unknown query"),
        }
    }
}
