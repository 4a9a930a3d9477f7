//! The keys by which a table keeps its routes.
ghost use Rattle.std.specs.Prelude.{◌≡◌, ◌⊎◌, ◌<◌, ◌≤◌, ℕ, ◌+◌, ◌-◌, ◌*◌, ◌/◌, ◌%◌, ◌^◌, take};
ghost use Rattle.art_routes.specs.Keys.{key_text, last_network_byte, left as moved_left};
ghost use Rattle.art_routes.specs.Networks.{Block, IsNetwork};
ghost use Rattle.art_routes.specs.Strides.{kept, stride_at, symbol as symbol_of};

use crate::address::Address;
use crate::network::Network;
use art_bytes::{AsBytes, NoPrefixesBytes};
use std::marker::Model;

/// How many bytes a key has at most: one for the family, and one for each stride of seven bits.
pub(crate) const TEXT_LEN: usize = 20;

/// The key of a route: its network, and the bytes by which it is kept. The first byte says how many bits an address
/// has. Each further one stands for seven bits of the network, and the last one for fewer: it is the place of the bits
/// in the preorder of the complete binary tree of depth 7. So keys sort as networks do, none begins another, and the
/// routes around an address are children of the nodes on one way down.
#[derive(Drop)]
pub struct RouteKey {
    text: [u8; TEXT_LEN],
    octets: [u8; 16],
    count: u8,
}

impl Model for RouteKey {
    ghost use Rattle.art_routes.specs.Keys.{KeyOf, block_of};
    ghost use Rattle.art_routes.specs.Networks.{Block};

    ghost Value = { Block };

    ghost view = { λ key. block_of key.text key.octets key.count };

    ghost invariant = { λ key. KeyOf key.text (block_of key.text key.octets key.count) };
}

impl AsBytes for RouteKey {
    ghost use Rattle.art_routes.specs.Keys.{key_text};
    ghost use Rattle.art_routes.specs.Networks.{IsNetwork};

    ghost text = { key_text };

    ghost is_key = { IsNetwork };

    fn as_bytes(&self) -> &[u8] {
        let bytes = &self.text[..2 + usize::from(self.count / 7)];
        bytes
    }
}

impl NoPrefixesBytes for RouteKey {
    ghost use Rattle.art_routes.specs.KeyLaws.{no_key_begins_another};

    ghost no_prefixes = { no_key_begins_another };
}

// The byte of some bits, so many of the seven.
fn symbol(bits: u8, count: u8) -> u8
    requires bits { bits < 128 }
    requires count { count ≤ 7 }
    ensures { result ≡ symbol_of bits count }
{
    count + bits + bits / 2 + bits / 4 + bits / 8 + bits / 16 + bits / 32 + bits / 64
}

// The first of seven bits, so many, with the others cleared.
fn first_of(bits: u8, count: u8) -> u8
    requires bits { bits < 128 }
    requires count { count ≤ 7 }
    ensures is { result ≡ kept count bits }
    ensures fits { result < 128 }
{
    let behind = 7 - count;
    bits >> behind << behind
}

// The bits of an address as the first of 128.
fn left(address: Address) -> u128
    requires family { (address.width ≡ 32) ⊎ (address.width ≡ 128) }
    requires fits { address.bits < 2 ^ address.width }
    ensures is { result ≡ moved_left address }
    ensures fits { result < 2 ^ 128 }
{
    if address.width == 32 {
        address.bits * 2_u128.pow(96)
    } else {
        address.bits
    }
}

/// The last byte of the network of some first bits of an address: of so many strides of seven, and the rest.
pub(crate) fn end_byte(address: Address, place: usize, rest: u8) -> u8
    requires family { (address.width ≡ 32) ⊎ (address.width ≡ 128) }
    requires fits { address.bits < 2 ^ address.width }
    requires place { place ≤ 18 }
    requires rest { rest < 7 }
    ensures { result ≡ last_network_byte address place rest }
{
    let stride = (left(address) << (7 * place as u32)) >> 121;
    symbol(first_of(stride as u8, rest), rest)
}

/// The bytes of the key of the network of the first bits of an address, so many of them.
pub(crate) fn text_of(address: Address, length: u8) -> [u8; TEXT_LEN]
    requires family { (address.width ≡ 32) ⊎ (address.width ≡ 128) }
    requires fits { address.bits < 2 ^ address.width }
    requires length { length ≤ address.width }
    ensures text { take (length / 7 + 2) result ≡ key_text (record { address = address; length = length }) }
{
    let mut text = [0; TEXT_LEN];
    text[0] = address.width;
    let mut number = left(address);
    let count = usize::from(length / 7);
    for i in 0..count {
        text[1 + i] = symbol((number >> 121) as u8, 7);
        number <<= 7;
    }
    let rest = length % 7;
    text[1 + count] = symbol(first_of((number >> 121) as u8, rest), rest);
    text
}

/// The key of a network.
pub(crate) fn key_of(network: &Network) -> RouteKey
    ensures key { result ≡ network.now }
    ensures network { IsNetwork network.now }
{
    RouteKey {
        text: text_of(network.address, network.count),
        octets: network.address.bits.to_be_bytes(),
        count: network.count,
    }
}

/// The network of a key.
pub(crate) fn network_from(key: &RouteKey) -> Network
    ensures network { result ≡ key.now }
    ensures is { IsNetwork key.now }
{
    Network {
        address: Address {
            width: key.text[0],
            bits: u128::from_be_bytes(key.octets),
        },
        count: key.count,
    }
}
