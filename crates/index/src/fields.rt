//! The fields of lines: addresses and times.
ghost use Rattle.std.specs.Prelude.{◌≡◌, ℤ, IfErr, IfOk, OnErr};
ghost use Rattle.std.specs.declared.net.Ipv6Addr.{Ipv6Addr};
ghost use Rattle.index.specs.Fields.{IsAddress, IsTime};
ghost use Rattle.index.specs.declared.fault.Fault.TheVariants.{BadAddress, BadTime};

use crate::fault::Fault;
use std::net::{Ipv4Addr, Ipv6Addr};
use std::str;

/// The address that the text writes. An IPv4 address a.b.c.d is ::ffff:a.b.c.d.
pub(crate) fn address_of(text: &[u8]) -> Result<Ipv6Addr, Fault>
    ensures said { IfOk result (IsAddress text.now) }
    ensures refused { OnErr result ((address : Ipv6Addr) → ¬ IsAddress text.now address) }
    ensures fault { IfErr result (λ fault. fault ≡ BadAddress) }
{
    if let Ok(address) = Ipv4Addr::parse_ascii(text) {
        return Ok(address.to_ipv6_mapped());
    }
    match Ipv6Addr::parse_ascii(text) {
        Ok(address) => Ok(address),
        Err(_) => Err(Fault::BadAddress),
    }
}

/// The time that the text writes.
pub(crate) fn time_of(text: &[u8]) -> Result<i64, Fault>
    ensures said { IfOk result (IsTime text.now) }
    ensures refused { OnErr result ((time : ℤ) → ¬ IsTime text.now time) }
    ensures fault { IfErr result (λ fault. fault ≡ BadTime) }
{
    let Ok(digits) = str::from_utf8(text) else {
        return Err(Fault::BadTime);
    };
    match digits.parse() {
        Ok(time) => Ok(time),
        Err(_) => Err(Fault::BadTime),
    }
}
