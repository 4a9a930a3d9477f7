//! Addresses as numbers.
ghost use Rattle.std.specs.Prelude.{◌≡◌, ◌⊎◌, ◌≢◌, ◌↔◌, ◌-◌, ◌*◌, ◌^◌, ◌<◌, ◌≤◌, IsTrue};
ghost use Rattle.std.specs.Net.Grammar.{IsIpText};
ghost use Rattle.std.specs.Net.Text.{ip_text};
ghost use Rattle.art_routes.specs.Networks.{HasBitsBehind, address_of, first_bits};
ghost use Rattle.art_routes.specs.Texts.{address_text};

use std::net::{IpAddr, Ipv4Addr, Ipv6Addr};

/// An IPv4 or IPv6 address, as a number.
#[derive(Clone, Copy, PartialEq, Eq, PartialOrd, Ord)]
pub struct Address {
    /// How many bits the address has: 32 or 128.
    pub(crate) width: u8,
    /// The number that they are, the first bit the highest.
    pub(crate) bits: u128,
}

/// The address as a number.
pub(crate) fn number_of(ip: IpAddr) -> Address
    ensures number { result ≡ address_of ip }
    ensures family { (result.width ≡ 32) ⊎ (result.width ≡ 128) }
    ensures fits { result.bits < 2 ^ result.width }
{
    match ip {
        IpAddr::V4(ip) => Address {
            width: 32,
            bits: u128::from(ip.to_bits()),
        },
        IpAddr::V6(ip) => Address {
            width: 128,
            bits: ip.to_bits(),
        },
    }
}

/// The address of a number.
pub(crate) fn ip_of(address: Address) -> IpAddr
    requires family { (address.width ≡ 32) ⊎ (address.width ≡ 128) }
    requires fits { address.bits < 2 ^ address.width }
    ensures number { address_of result ≡ address }
    ensures text { ip_text result ≡ address_text address }
    ensures spelled { IsIpText (address_text address) result }
{
    if address.width == 32 {
        IpAddr::V4(Ipv4Addr::from_bits(address.bits as u32))
    } else {
        IpAddr::V6(Ipv6Addr::from_bits(address.bits))
    }
}

/// Whether a bit of the address is set behind the first ones, so many of them.
pub(crate) fn has_bits_behind(address: Address, length: u8) -> bool
    requires width { address.width ≤ 128 }
    requires length { length ≤ address.width }
    ensures { IsTrue result ↔ HasBitsBehind address length }
{
    let behind = address.width - length;
    if behind == 128 {
        address.bits != 0
    } else {
        address.bits % 2_u128.pow(u32::from(behind)) != 0
    }
}

/// The number of the first address with the same first bits, so many of them.
pub(crate) fn first_address(address: Address, length: u8) -> u128
    requires width { address.width ≤ 128 }
    requires fits { address.bits < 2 ^ address.width }
    requires length { length ≤ address.width }
    ensures { result ≡ first_bits address length * 2 ^ (address.width - length) }
{
    let behind = address.width - length;
    if behind == 128 {
        0
    } else {
        address.bits >> behind << behind
    }
}
