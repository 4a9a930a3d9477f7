//! Lines of the table and of the input.
ghost use Rattle.std.specs.Prelude.{◌≡◌};
ghost use Rattle.routes.specs.Lines.{is_comment as is_comment_line};

use crate::fault::Fault;
use art_routes::Network;
use program_lines::{FromLine, split_once};
use std::net::IpAddr;

/// What the table keeps by the network of a line `PREFIX/LEN NEXTHOP`.
#[derive(Clone, Copy)]
pub struct Route<'a> {
    /// The whole line.
    pub(crate) line: &'a [u8],
    /// The number of the line in the table, from 1.
    pub(crate) number: usize,
}

/// A line of the input: an address.
#[derive(Clone, Copy)]
pub struct Query<'a> {
    /// The whole line.
    pub(crate) line: &'a [u8],
    /// What it writes.
    pub(crate) address: IpAddr,
}

/// Whether a line of the table is a comment: it is empty, or begins with `#`.
pub(crate) fn is_comment(line: &[u8]) -> bool
    ensures { result ≡ is_comment_line line.now }
{
    match line.first() {
        Some(byte) => *byte == b'#',
        None => true,
    }
}

impl<'a> FromLine<'a, Fault> for Network {
    ghost use Rattle.routes.specs.Faults.{IsRouteFault};
    ghost use Rattle.routes.specs.Lines.{SayRouteTo};

    ghost says = { SayRouteTo };

    ghost has_fault = { IsRouteFault };

    fn from_line(line: &'a [u8]) -> Result<Network, Fault> {
        let Some((text, next_hop)) = split_once(line, b' ') else {
            return Err(Fault::NoNextHop);
        };
        if next_hop.is_empty() {
            return Err(Fault::NoNextHop);
        }
        match Network::parse_ascii(text) {
            Ok(network) => Ok(network),
            Err(fault) => Err(Fault::BadNetwork(fault)),
        }
    }
}

impl<'a> FromLine<'a, Fault> for Query<'a> {
    ghost use Rattle.routes.specs.Faults.{IsRouteQueryFault};
    ghost use Rattle.routes.specs.Lines.{SayRouteQuery};

    ghost says = { SayRouteQuery };

    ghost has_fault = { IsRouteQueryFault };

    fn from_line(line: &'a [u8]) -> Result<Query<'a>, Fault> {
        match IpAddr::parse_ascii(line) {
            Ok(address) => Ok(Query { line, address }),
            Err(_) => Err(Fault::BadAddress),
        }
    }
}
