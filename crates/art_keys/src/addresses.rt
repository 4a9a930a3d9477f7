//! IP addresses: their octets.
ghost use Rattle.std.specs.Prelude.{refl};
ghost use Rattle.std.specs.Net.Addr.{ipv4_octets, ipv6_octets, ipv6_segments};
ghost use Rattle.std.specs.Ordering.{on};
ghost use Rattle.art_bytes.specs.Text.{text_order};
ghost use Rattle.art_mapped.specs.Addresses.{IsIpv4, IsIpv6};
ghost use Rattle.art_mapped.specs.AddressLaws.{ipv4_keep, ipv6_keep};
ghost use Rattle.art_keys.specs.EncodingLaws.{width_sorts};
ghost use Rattle.art_keys.specs.AddressKeys.{ip_encoded, IsIp};
ghost use Rattle.art_keys.specs.AddressKeyLaws.{ips_sort, ips_are_bytes};

use crate::key::{KeyBytes, RadixKey};
use art_mapped::{Element, Octets};
use std::net::{IpAddr, Ipv4Addr, Ipv6Addr};

impl KeyBytes for Ipv4Addr {
    ghost encoded = { ipv4_octets };

    ghost is_key = { IsIpv4 };

    ghost order = { on ipv4_octets text_order };
}

impl RadixKey for Ipv4Addr {
    const WANTS_HEADS: bool = false;

    ghost ordered = { refl };

    ghost are_bytes = { λ _ is. is.1 };

    ghost sorted = { width_sorts ipv4_keep };

    fn encoded_len(&self) -> usize {
        let octets = <Ipv4Addr as Element<Octets>>::encode(*self);
        octets.len()
    }

    fn encoded_byte(&self, index: usize) -> u8 {
        let octets = <Ipv4Addr as Element<Octets>>::encode(*self);
        octets[index]
    }
}

impl KeyBytes for Ipv6Addr {
    ghost encoded = { ipv6_octets };

    ghost is_key = { IsIpv6 };

    ghost order = { on ipv6_segments text_order };
}

impl RadixKey for Ipv6Addr {
    const WANTS_HEADS: bool = false;

    ghost ordered = { refl };

    ghost are_bytes = { λ _ is. is.1 };

    ghost sorted = { width_sorts ipv6_keep };

    fn encoded_len(&self) -> usize {
        let octets = <Ipv6Addr as Element<Octets>>::encode(*self);
        octets.len()
    }

    fn encoded_byte(&self, index: usize) -> u8 {
        let octets = <Ipv6Addr as Element<Octets>>::encode(*self);
        octets[index]
    }
}

impl KeyBytes for IpAddr {
    ghost encoded = { ip_encoded };

    ghost is_key = { IsIp };

    ghost order = { ⟦<IpAddr as Ord>⟧.cmp };
}

impl RadixKey for IpAddr {
    const WANTS_HEADS: bool = false;

    ghost ordered = { refl };

    ghost are_bytes = { ips_are_bytes };

    ghost sorted = { ips_sort ⟦<IpAddr as Ord>⟧.cmp (λ a b. refl) (λ a b. refl) (λ a b. refl) (λ a b. refl) };

    fn encoded_len(&self) -> usize {
        match self {
            IpAddr::V4(address) => address.encoded_len() + 1,
            IpAddr::V6(address) => address.encoded_len() + 1,
        }
    }

    fn encoded_byte(&self, index: usize) -> u8 {
        match self {
            IpAddr::V4(address) => {
                if index == 0 {
                    4
                } else {
                    address.encoded_byte(index - 1)
                }
            }
            IpAddr::V6(address) => {
                if index == 0 {
                    6
                } else {
                    address.encoded_byte(index - 1)
                }
            }
        }
    }
}
