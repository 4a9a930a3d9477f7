//! IP addresses as bytes.
ghost use Rattle.std.specs.Net.Addr.{ipv4_octets, ipv6_octets};
ghost use Rattle.art_mapped.specs.Addresses.{IsIpv4, IsIpv6};
ghost use Rattle.art_mapped.specs.AddressLaws.{ipv4_keep, ipv6_keep};

use crate::element::{Element, Single};
use crate::written::{Domain, DomainTexts, ToBigEndian};
use std::net::{Ipv4Addr, Ipv6Addr};

/// The form of IP addresses: their octets in order.
///
/// [`ToBigEndian`] has an example.
pub struct Octets;

/// IP addresses, `Ipv4Addr` and `Ipv6Addr`, as their 4 or 16 octets in order. Takes no memory.
///
/// (from crates/art_node_tests/src/mapped/mapped_callers.rt)
/// ```rust
/// fn host(alloc: Global, address: Ipv4Addr) -> Result<Mapped<ToOctets, Ipv4Addr>, AllocError>
///     ensures text { IfOk result (λ key. mapped_text key ≡ ipv4_octets address) }
///     ensures always { IsOk result }
/// {
///     Mapped::new(alloc, address)
/// }
/// // ..
/// assert!(rt; host(alloc, Ipv4Addr::LOCALHOST)?.as_bytes() == [127, 0, 0, 1].as_slice());
/// ```
pub type ToOctets = ToBigEndian<Octets>;

impl Domain<Octets> for Ipv4Addr {
    type Mapping = Single<Octets>;

    ghost same_keys = { λ _ _. (λ holds. holds, λ holds. holds) };

    ghost same_texts = { λ _ _. (λ is. is, λ is. is) };
}

impl DomainTexts<Octets> for Ipv4Addr {
    type ToBytes = ToBigEndian<Octets>;

    ghost is_in_range = { IsIpv4 };

    ghost text_of = { ipv4_octets };
}

impl Element<Octets> for Ipv4Addr {
    type Bytes = [u8; 4];

    ghost keeps = { ipv4_keep };

    fn encode(self) -> [u8; 4] {
        self.octets()
    }

    fn decode(bytes: [u8; 4]) -> Option<Ipv4Addr> {
        Some(Ipv4Addr::from_octets(bytes))
    }
}

impl Domain<Octets> for Ipv6Addr {
    type Mapping = Single<Octets>;

    ghost same_keys = { λ _ _. (λ holds. holds, λ holds. holds) };

    ghost same_texts = { λ _ _. (λ is. is, λ is. is) };
}

impl DomainTexts<Octets> for Ipv6Addr {
    type ToBytes = ToBigEndian<Octets>;

    ghost is_in_range = { IsIpv6 };

    ghost text_of = { ipv6_octets };
}

impl Element<Octets> for Ipv6Addr {
    type Bytes = [u8; 16];

    ghost keeps = { ipv6_keep };

    fn encode(self) -> [u8; 16] {
        self.octets()
    }

    fn decode(bytes: [u8; 16]) -> Option<Ipv6Addr> {
        Some(Ipv6Addr::from_octets(bytes))
    }
}
