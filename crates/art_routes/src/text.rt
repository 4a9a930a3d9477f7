//! Networks as texts.
ghost use Rattle.std.specs.Prelude.{◌≡◌, ◌<◌, ℕ, IfErr, MatchOption, Ok, Result};
ghost use Rattle.std.specs.Net.Grammar.{Parses};
ghost use Rattle.program_lines.specs.Numbers.{IsNumber};
ghost use Rattle.art_routes.specs.Networks.{Block};
ghost use Rattle.art_routes.specs.Texts.{SayNetwork, IsTextFault, network_text};
ghost use Rattle.art_routes.specs.declared.fault.NetworkTextFault.{NetworkTextFault};

use crate::address::ip_of;
use crate::fault::{NetworkFault, NetworkTextFault};
use crate::network::{Network, parts};
use program_lines::{number_of, split_once};
use std::fmt;
use std::net::IpAddr;
use std::str::FromStr;

impl Network {
    /// The network that a text writes, as `10.0.0.0/8` or `2001:db8::/32`: an address as std's
    /// [`IpAddr`] reads it, `/`, and a length of one to ten decimal digits, of which the first may be
    /// zeros. `"10.0.0.0/8".parse()` reads the same.
    ///
    /// Errors: [`NoLength`] where there is no `/`, [`BadAddress`] where what comes before it is no
    /// address, [`BadLength`] where what follows is no such length or one above the bits of the address,
    /// and [`BitsBehindLength`] where a bit is set behind the length. Takes time linear in the length of
    /// the text, and no memory.
    ///
    /// (from tests/art_routes/tests.rt.txt)
    /// ```rust
    /// assert!(rt; Network::parse_ascii(b"10.0.0.0/8") == Ok(v4(&rt, 10, 0, 0, 0, 8)));
    /// assert!(rt; Network::parse_ascii(b"10.0.0.1/8") == Err(NetworkTextFault::BitsBehindLength));
    /// ```
    ///
    /// [`NoLength`]: NetworkTextFault::NoLength
    /// [`BadAddress`]: NetworkTextFault::BadAddress
    /// [`BadLength`]: NetworkTextFault::BadLength
    /// [`BitsBehindLength`]: NetworkTextFault::BitsBehindLength
    pub fn parse_ascii(text: &[u8]) -> Result<Network, NetworkTextFault>
        ensures network { Parses SayNetwork text.now result }
        ensures fault { IfErr result (IsTextFault text.now) }
    {
        let Some((prefix, digits)) = split_once(text, b'/') else {
            return Err(NetworkTextFault::NoLength);
        };
        let Ok(address) = IpAddr::parse_ascii(prefix) else {
            return Err(NetworkTextFault::BadAddress);
        };
        let Some(length) = length_of(digits) else {
            return Err(NetworkTextFault::BadLength);
        };
        match Network::new(address, length) {
            Ok(network) => Ok(network),
            Err(NetworkFault::LengthTooGreat) => Err(NetworkTextFault::BadLength),
            Err(NetworkFault::BitsBehindLength) => Err(NetworkTextFault::BitsBehindLength),
        }
    }

    /// The text that a network prints writes this network, and is read as it. Takes constant time and no
    /// memory.
    pub fn reads_back(&self)
        ensures printed { SayNetwork (network_text self.now) self.now }
        ensures read { (read : Result Block NetworkTextFault) → Parses SayNetwork (network_text self.now) read → read ≡ Ok self.now }
    {
        let (address, _length) = parts(self);
        let _address = ip_of(address);
    }
}

impl FromStr for Network {
    ghost use Rattle.std.specs.Prelude.{IfErr};
    ghost use Rattle.std.specs.Net.Grammar.{Parses};
    ghost use Rattle.art_routes.specs.Texts.{SayNetwork, IsTextFault};

    type Err = NetworkTextFault;

    ghost from_str_gives = { λ text read. Parses SayNetwork text read × IfErr read (IsTextFault text) };

    fn from_str(text: &str) -> Result<Network, NetworkTextFault> {
        Network::parse_ascii(text.as_bytes())
    }
}

/// As `10.0.0.0/8`, an IPv6 address in the form of RFC 5952.
impl fmt::Display for Network {
    ghost use Rattle.std.specs.Prelude.{Some};
    ghost use Rattle.art_routes.specs.Texts.{network_text};

    ghost output = { λ network. Some (network_text network) };

    fn fmt<W: fmt::Write>(&self, f: &mut fmt::Formatter<W>) -> fmt::Result {
        let (address, length) = parts(self);
        write!(f, "{}/{}", ip_of(address), length)
    }
}

/// As it is displayed.
impl fmt::Debug for Network {
    fn fmt<W: fmt::Write>(&self, f: &mut fmt::Formatter<W>) -> fmt::Result {
        write!(f, "{}", *self)
    }
}

// The length that the digits give, or None where they give none, or one that no address has.
fn length_of(digits: &[u8]) -> Option<u8>
    ensures { MatchOption result ((n : ℕ) → IsNumber digits.now n → 128 < n) (IsNumber digits.now) }
{
    match number_of(digits) {
        Some(length) if length <= 128 => Some(length as u8),
        _ => None,
    }
}
