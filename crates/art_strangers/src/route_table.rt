//! A table of routes: the next hop of an address, and the routes around and inside a network.
ghost use Rattle.std.specs.Prelude.{◌≡◌};
ghost use Rattle.art_routes.specs.Networks.{network_order};

use art_routes::{Network, RouteTable};
use std::cmp::Ordering;
use std::net::IpAddr;

type Hops = RouteTable<u32>;

pub fn next_hop(hops: &Hops, address: IpAddr) -> u32 {
    match hops.longest_match(address) {
        Some((_, hop)) => *hop,
        None => 0,
    }
}

pub fn is_reached(hops: &Hops, address: IpAddr) -> bool {
    hops.longest_match(address).is_some()
}

fn announce(hops: &mut Hops, network: Network, hop: u32) -> bool {
    hops.insert(network, hop).is_ok()
}

pub fn announce_host(hops: &mut Hops, address: IpAddr, hop: u32) -> bool {
    let length = match address {
        IpAddr::V4(_) => 32,
        IpAddr::V6(_) => 128,
    };
    match Network::new(address, length) {
        Ok(network) => announce(hops, network, hop),
        Err(_) => false,
    }
}

pub fn announce_text(hops: &mut Hops, text: &str, hop: u32) -> bool {
    match text.parse() {
        Ok(network) => announce(hops, network, hop),
        Err(_) => false,
    }
}

pub fn reroute(hops: &mut Hops, network: &Network, hop: u32) -> bool {
    match hops.get_mut(network) {
        Some(old) => {
            *old = hop;
            true
        }
        None => false,
    }
}

pub fn has_parts(hops: &Hops, network: &Network) -> bool {
    hops.covered(network).next().is_some()
}

pub fn widest_around(hops: &Hops, network: &Network) -> Option<u8> {
    let mut length = None;
    for (around, _) in hops.covering(network) {
        length = Some(around.length());
    }
    length
}

pub fn withdraw(hops: &mut Hops, network: &Network) -> bool {
    hops.remove(network).is_ok()
}

/// How two networks sort.
pub fn sorts(network: Network, other: Network) -> Ordering
    ensures { result ≡ network_order network other }
{
    network.cmp(&other)
}
