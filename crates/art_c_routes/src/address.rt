//! Addresses as C has them: four bytes or sixteen, the highest first.
ghost use Rattle.std.specs.Prelude.{◌≡◌, ◌*◌, ◌/◌, ◌<◌, true, false, IfNone, IfSome, drop, length, take};
ghost use Rattle.art_routes.specs.Networks.{address_of};
ghost use Rattle.art_c_maps.specs.Buffers.{written};
ghost use Rattle.art_c_routes.specs.Addresses.{address_bytes, address_in, byte_count, is_address, is_network, is_width, network_in};

use art_routes::Network;
use std::net::{IpAddr, Ipv4Addr, Ipv6Addr};

// The IPv4 address of four bytes.
fn four(bytes: &[u8]) -> IpAddr
    requires { length bytes.now ≡ 4 }
    ensures { address_of result ≡ address_in bytes.now }
{
    let mut octets = [0; 4];
    octets.copy_from_slice(bytes);
    let bits = u32::from_be_bytes(octets);
    IpAddr::V4(Ipv4Addr::from_bits(bits))
}

// The IPv6 address of sixteen bytes.
fn sixteen(bytes: &[u8]) -> IpAddr
    requires { length bytes.now ≡ 16 }
    ensures { address_of result ≡ address_in bytes.now }
{
    let mut octets = [0; 16];
    octets.copy_from_slice(bytes);
    let bits = u128::from_be_bytes(octets);
    IpAddr::V6(Ipv6Addr::from_bits(bits))
}

/// The address of these bytes, or None where they are neither four nor sixteen.
pub(crate) fn address_from(bytes: &[u8]) -> Option<IpAddr>
    ensures some { IfSome result (λ ip. address_of ip ≡ address_in bytes.now) }
    ensures is { IfSome result (λ ip. is_address bytes.now ≡ true) }
    ensures is_not { IfNone result (is_address bytes.now ≡ false) }
{
    match bytes.len() {
        4 => Some(four(bytes)),
        16 => Some(sixteen(bytes)),
        _ => None,
    }
}

/// The address at this place among addresses of four bytes each, or sixteen.
pub(crate) fn address_at(addresses: &[u8], width: usize, index: usize) -> IpAddr
    requires width { is_width width ≡ true }
    requires inside { index < length addresses.now / width }
    ensures { address_of result ≡ address_in (take width (drop (index * width) addresses.now)) }
{
    let start = index * width;
    let bytes = &addresses[start..start + width];
    if width == 4 {
        four(bytes)
    } else {
        sixteen(bytes)
    }
}

/// The network of these bytes and this length, or None where they are no network.
pub(crate) fn network_from(bytes: &[u8], length: u8) -> Option<Network>
    ensures some { IfSome result (λ network. network ≡ network_in bytes.now length) }
    ensures is { IfSome result (λ network. is_network bytes.now length ≡ true) }
    ensures is_not { IfNone result (is_network bytes.now length ≡ false) }
{
    let address = address_from(bytes)?;
    match Network::new(address, length) {
        Ok(network) => Some(network),
        Err(_) => None,
    }
}

// Writes these bytes where they fit.
fn write_bytes(bytes: &[u8], out: &mut [u8])
    ensures { out.new ≡ written bytes.now out.old }
{
    let len = bytes.len();
    if len <= out.len() {
        out[..len].copy_from_slice(bytes);
    }
}

/// Writes the bytes of an address where they fit. Returns how many they are.
pub(crate) fn write_address(address: IpAddr, out: &mut [u8]) -> usize
    ensures count { result ≡ byte_count (address_of address) }
    ensures bytes { out.new ≡ written (address_bytes (address_of address)) out.old }
{
    match address {
        IpAddr::V4(ip) => {
            write_bytes(&ip.to_bits().to_be_bytes(), out);
            4
        }
        IpAddr::V6(ip) => {
            write_bytes(&ip.to_bits().to_be_bytes(), out);
            16
        }
    }
}
