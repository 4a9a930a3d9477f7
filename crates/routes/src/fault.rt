//! What may be wrong with a line.
use art_routes::NetworkTextFault;
use std::fmt;

/// The fault of a line of the table, or of an address.
#[derive(Clone, Copy, Debug, PartialEq, Eq)]
pub enum Fault {
    /// The text is no IPv4 or IPv6 address.
    BadAddress,
    /// No space, with a next hop behind it, comes after the network.
    NoNextHop,
    /// What comes before the space writes no network.
    BadNetwork(NetworkTextFault),
    /// The line of this number, an earlier one, has the same network.
    SameNetwork(usize),
}

impl fmt::Display for Fault {
    ghost use Rattle.std.specs.Prelude.{Some};
    ghost use Rattle.routes.specs.Faults.{route_fault_text};

    ghost output = { λ fault. Some (route_fault_text fault) };

    fn fmt<W: fmt::Write>(&self, f: &mut fmt::Formatter<W>) -> fmt::Result {
        match self {
            Fault::BadAddress => write!(f, "bad address"),
            Fault::NoNextHop => write!(f, "no next hop"),
            Fault::BadNetwork(fault) => write!(f, "{}", *fault),
            Fault::SameNetwork(number) => write!(f, "same network as line {}", *number),
        }
    }
}
