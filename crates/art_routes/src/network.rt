//! Networks: the addresses that begin with the same bits.
ghost use Rattle.std.specs.Prelude.{◌≡◌, ◌⊎◌, ◌-◌, ◌^◌, ◌<◌, ◌≤◌, ℕ, IfErr, IfNone, IfOk, IfSome};
ghost use Rattle.art_routes.specs.Keys.{last_network};
ghost use Rattle.art_routes.specs.Networks.{Block, IsFault, IsNetwork, address_of, contains as contains_address, covers as covers_network, network_around};

use crate::address::{Address, first_address, has_bits_behind, ip_of, number_of};
use crate::fault::NetworkFault;
use std::marker::Model;
use std::net::IpAddr;

/// The addresses whose first bits are those of an address, so many of them as the length says, as
/// `10.0.0.0/8`: all others of its bits are zero. Of IPv4 a network has at most 32, of IPv6 128.
///
/// IPv4 networks come before those of IPv6; then they go by their first addresses, and of two with one
/// first address the shorter comes first.
#[derive(Clone, Copy, PartialEq, Eq, PartialOrd, Ord)]
pub struct Network {
    /// The first address.
    pub(crate) address: Address,
    /// How many bits are given.
    pub(crate) count: u8,
}

impl Model for Network {
    ghost use Rattle.art_routes.specs.Networks.{Block, IsNetwork};

    ghost Value = { Block };

    ghost view = { λ network. record { address = network.address; length = network.count } };

    ghost invariant = { λ network. IsNetwork (record { address = network.address; length = network.count }) };

    ghost inverse = { λ block. record { address = block.address; count = block.length } };
}

impl Network {
    /// The network of this first address and this length.
    ///
    /// Errors: [`LengthTooGreat`] where the address has fewer bits, and else [`BitsBehindLength`] where a
    /// bit is set behind the length: [`truncated`](Self::truncated) clears those.
    ///
    /// [`LengthTooGreat`]: NetworkFault::LengthTooGreat
    /// [`BitsBehindLength`]: NetworkFault::BitsBehindLength
    pub fn new(address: IpAddr, length: u8) -> Result<Network, NetworkFault>
        ensures network { IfOk result
            (λ network. network ≡ record { address = address_of address; length = length }) }
        ensures none_behind { IfOk result IsNetwork }
        ensures fault { IfErr result (IsFault (address_of address) length) }
    {
        let address = number_of(address);
        if length > address.width {
            return Err(NetworkFault::LengthTooGreat);
        }
        if has_bits_behind(address, length) {
            return Err(NetworkFault::BitsBehindLength);
        }
        Ok(Network {
            address,
            count: length,
        })
    }

    /// The network of the first bits of an address, so many of them, or None where the address has
    /// fewer: the bits behind the length are cleared.
    pub fn truncated(address: IpAddr, length: u8) -> Option<Network>
        ensures network { IfSome result
            (λ network. network ≡ network_around (address_of address) length) }
        ensures too_great { IfNone result ((address_of address).width < length) }
    {
        let address = number_of(address);
        if length > address.width {
            return None;
        }
        Some(network_at(address, length))
    }

    /// The first address of the network.
    pub fn address(&self) -> IpAddr
        ensures { address_of result ≡ self.now.address }
    {
        ip_of(self.address)
    }

    /// How many bits the addresses of the network begin with alike.
    pub fn length(&self) -> u8
        ensures { result ≡ self.now.length }
    {
        self.count
    }

    /// Whether the address is in the network: it is of the same family, and begins with its bits. An
    /// IPv4 network never contains an IPv6 address, nor an IPv6 network an IPv4 one.
    pub fn contains(&self, address: IpAddr) -> bool
        ensures { result ≡ contains_address self.now (address_of address) }
    {
        let address = number_of(address);
        begins(self.address, self.count, address)
    }

    /// Whether the other network is this one, or a part of it.
    pub fn covers(&self, other: &Network) -> bool
        ensures { result ≡ covers_network self.now other.now }
    {
        begins(self.address, self.count, other.address) && self.count <= other.count
    }
}

// Whether the other address has as many bits as this one, and the same first ones, so many of them.
fn begins(address: Address, length: u8, other: Address) -> bool
    requires network { IsNetwork (record { address = address; length = length }) }
    requires fits { other.bits < 2 ^ other.width }
    ensures { result ≡ contains_address (record { address = address; length = length }) other }
{
    other.width == address.width && first_address(other, length) == address.bits
}

/// Whether the network covers the first bits of an address, so many of them.
pub(crate) fn covers_bits(network: &Network, address: Address, length: u8) -> bool
    requires fits { address.bits < 2 ^ address.width }
    ensures { result ≡ covers_network network.now (record { address = address; length = length }) }
{
    begins(network.address, network.count, address) && network.count <= length
}

/// The first address of a network, as a number, and its length.
pub(crate) fn parts(network: &Network) -> (Address, u8)
    ensures address { result.0 ≡ network.now.address }
    ensures length { result.1 ≡ network.now.length }
    ensures family { (result.0.width ≡ 32) ⊎ (result.0.width ≡ 128) }
    ensures fits { result.0.bits < 2 ^ result.0.width }
    ensures within { result.1 ≤ result.0.width }
    ensures network { IsNetwork network.now }
{
    (network.address, network.count)
}

/// The network of the first bits of an address, so many of them.
pub(crate) fn network_at(address: Address, length: u8) -> Network
    requires family { (address.width ≡ 32) ⊎ (address.width ≡ 128) }
    requires fits { address.bits < 2 ^ address.width }
    requires length { length ≤ address.width }
    ensures { result ≡ network_around address length }
{
    Network {
        address: Address {
            width: address.width,
            bits: first_address(address, length),
        },
        count: length,
    }
}

// The number of so many bits that are all set.
fn ones(count: u8) -> u128
    requires { count ≤ 128 }
    ensures { result ≡ 2 ^ count - 1 }
{
    if count == 128 {
        u128::MAX
    } else {
        2_u128.pow(u32::from(count)) - 1
    }
}

/// The network of the last address alone.
pub(crate) fn last_of(network: &Network) -> Network
    ensures last { result ≡ last_network network.now }
    ensures network { IsNetwork result }
{
    let others = ones(network.address.width - network.count);
    Network {
        address: Address {
            width: network.address.width,
            bits: network.address.bits + others,
        },
        count: network.address.width,
    }
}
