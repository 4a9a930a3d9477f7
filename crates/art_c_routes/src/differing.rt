//! The first network of which two tables differ.
ghost use Rattle.std.specs.Prelude.{◌≡◌, ℕ, Option, IfOk, MatchOption, OnErr, OnOk, Some, None, true, false};
ghost use Rattle.art_routes.specs.Networks.{Block, network_order};
ghost use Rattle.art_c_maps.specs.Buffers.{written};
ghost use Rattle.art_c_routes.specs.Addresses.{address_bytes, byte_count, is_network, network_in};
ghost use Rattle.art_c_routes.specs.Differing.{IsFirstDifference};
ghost use Rattle.art_c_routes.specs.Found.{routes_from};

use crate::address::{network_from, write_address};
use crate::number_routes::NumberRoutes;
use crate::refusal::Refusal;
use art_routes::{Network, Routes};
use std::cmp::Ordering;

/// What two tables have of a network of which they differ.
#[derive(Clone, Copy, PartialEq, Eq, Debug)]
pub struct Difference {
    /// How many bytes its address has.
    pub width: usize,
    /// Its length.
    pub length: u8,
    /// The value of the first table.
    pub before: Option<u64>,
    /// That of the second one.
    pub after: Option<u64>,
}

// How two networks compare.
fn order_of(network: &Network, other: &Network) -> Ordering
    ensures { result ≡ network_order network.now other.now }
{
    network.cmp(other)
}

// The first network of which these routes differ, which stand in order, and the value of each.
fn first_difference(
    mut old: Routes<'_, u64>,
    mut new: Routes<'_, u64>,
) -> Option<(Network, Option<u64>, Option<u64>)>
    ensures { MatchOption result (old.entry ≡ new.entry)
        (λ found. IsFirstDifference old.entry new.entry found.0 found.1 found.2) }
{
    'walk: loop {
        let Some(route) = old.next() else {
            return match new.next() {
                Some(other) => Some((other.0, None, Some(*other.1))),
                None => None,
            };
        };
        let Some(other) = new.next() else {
            return Some((route.0, Some(*route.1), None));
        };
        let before = *route.1;
        let after = *other.1;
        match order_of(&route.0, &other.0) {
            Ordering::Less => return Some((route.0, Some(before), None)),
            Ordering::Equal => {
                if before != after {
                    return Some((route.0, Some(before), Some(after)));
                }
            }
            Ordering::Greater => return Some((other.0, None, Some(after))),
        }
    }
}

impl NumberRoutes {
    // The first network at one or after it of which the tables differ, and the value of each.
    fn differing_from(
        &self,
        new: &NumberRoutes,
        from: &Network,
        inclusive: bool,
    ) -> Option<(Network, Option<u64>, Option<u64>)>
        ensures { MatchOption result (routes_from inclusive from.now self.now ≡ routes_from inclusive from.now new.now)
            (λ found. IsFirstDifference (routes_from inclusive from.now self.now) (routes_from inclusive from.now new.now)
            found.0 found.1 found.2) }
    {
        first_difference(
            self.routes_at(from, inclusive),
            new.routes_at(from, inclusive),
        )
    }

    /// The first network at this one or after it, only after it where it is not included, of which this table and a new one
    /// differ: of which but one of them has a route, or both with other values. Writes its address into `out`, where it
    /// fits. Takes no memory.
    pub fn next_difference(
        &self,
        new: &NumberRoutes,
        address: &[u8],
        length: u8,
        inclusive: bool,
        out: &mut [u8],
    ) -> Result<Option<Difference>, Refusal>
        ensures found { IfOk result (λ found. MatchOption found
            ((routes_from inclusive (network_in address.now length) self.now
            ≡ routes_from inclusive (network_in address.now length) new.now) × (out.new ≡ out.old))
            (λ difference. (network : Block)
            × IsFirstDifference (routes_from inclusive (network_in address.now length) self.now)
            (routes_from inclusive (network_in address.now length) new.now) network difference.before difference.after
            × (difference.width ≡ byte_count network.address) × (difference.length ≡ network.length)
            × (out.new ≡ written (address_bytes network.address) out.old))) }
        ensures is_network { OnOk result (is_network address.now length ≡ true) }
        ensures refusal_due { OnErr result (is_network address.now length ≡ false) }
        ensures same { OnErr result (out.new ≡ out.old) }
    {
        let Some(from) = network_from(address, length) else {
            return Err(Refusal::BadNetwork);
        };
        match self.differing_from(new, &from, inclusive) {
            Some((network, before, after)) => {
                let width = write_address(network.address(), out);
                Ok(Some(Difference {
                    width,
                    length: network.length(),
                    before,
                    after,
                }))
            }
            None => Ok(None),
        }
    }
}
