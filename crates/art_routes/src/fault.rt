//! What may be wrong with a network.
use std::error::Error;
use std::fmt;

/// Why an address and a length make no network.
#[derive(Clone, Copy, Debug, PartialEq, Eq)]
pub enum NetworkFault {
    /// The length is above the bits of the address: 32 for IPv4, 128 for IPv6.
    LengthTooGreat,
    /// A bit of the address is set behind the length.
    BitsBehindLength,
}

impl fmt::Display for NetworkFault {
    ghost use Rattle.std.specs.Prelude.{Some};
    ghost use Rattle.art_routes.specs.Texts.{network_fault_text};

    ghost output = { λ fault. Some (network_fault_text fault) };

    fn fmt<W: fmt::Write>(&self, f: &mut fmt::Formatter<W>) -> fmt::Result {
        match self {
            NetworkFault::LengthTooGreat => write!(f, "length above the bits of the address"),
            NetworkFault::BitsBehindLength => write!(f, "bits set behind the length"),
        }
    }
}

impl Error for NetworkFault {}

/// Why a text writes no network.
#[derive(Clone, Copy, Debug, PartialEq, Eq)]
pub enum NetworkTextFault {
    /// There is no `/`.
    NoLength,
    /// What comes before the first `/` is no IPv4 or IPv6 address.
    BadAddress,
    /// What follows it is no number of one to ten digits, or one above the bits of the address: 32 for
    /// IPv4, 128 for IPv6.
    BadLength,
    /// A bit of the address is set behind the length.
    BitsBehindLength,
}

impl fmt::Display for NetworkTextFault {
    ghost use Rattle.std.specs.Prelude.{Some};
    ghost use Rattle.art_routes.specs.Texts.{text_fault_text};

    ghost output = { λ fault. Some (text_fault_text fault) };

    fn fmt<W: fmt::Write>(&self, f: &mut fmt::Formatter<W>) -> fmt::Result {
        match self {
            NetworkTextFault::NoLength => write!(f, "no length"),
            NetworkTextFault::BadAddress => write!(f, "bad address"),
            NetworkTextFault::BadLength => write!(f, "bad length"),
            NetworkTextFault::BitsBehindLength => write!(f, "bits set behind the length"),
        }
    }
}

impl Error for NetworkTextFault {}
