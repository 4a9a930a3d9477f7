//! Route tables with 64-bit values.
ghost use Rattle.std.specs.Prelude.{Err, IfErr, IfNone, IfOk, IfSome, MatchOption, None, Ok, OnErr, OnOk, [], drop, false, get_or, length as list_length, min, take, true, ℕ, ◌*◌, ◌/◌, ◌<◌, ◌==◌, ◌≡◌, ◌≢◌};
ghost use Rattle.std.specs.Option.{option_map};
ghost use Rattle.art_routes.specs.declared.address.Address.{Address};
ghost use Rattle.art_routes.specs.Aggregates.{IsAggregated, MatchAlike};
ghost use Rattle.art_routes.specs.Networks.{address_of, network_around};
ghost use Rattle.art_routes.specs.Removing.{without_covered};
ghost use Rattle.art_routes.specs.Tables.{IsLongest, IsParent, NoneAround, NoneContains, covered as covered_routes, covering as covering_routes, put_route, route_value, without_route};
ghost use Rattle.art_c_maps.specs.Entries.{begun_with, first_of, values_of};
ghost use Rattle.art_c_routes.specs.Addresses.{address_in, is_address, is_network, is_width, network_in};
ghost use Rattle.art_c_routes.specs.Found.{IsMatched, address_written, found_parts, lengths_of, routes_from};
ghost use Rattle.art_c_routes.specs.Refusals.{IsRouteRefused, StopsRemoving};

use crate::address::{address_at, address_from, network_from, write_address};
use crate::refusal::Refusal;
use art_routes::{Covering, Network, RouteTable, Routes};
use std::alloc::{AllocError, Global};
use std::marker::Model;
use std::net::IpAddr;

/// What stands in place of a length where no route contains an address.
pub const NO_ROUTE: u8 = 255;

/// A table from networks to 64-bit values: the list of its routes, in order, one for each network. No call
/// has a condition.
#[derive(Drop)]
pub struct NumberRoutes {
    pub(crate) table: RouteTable<u64>,
}

impl Model for NumberRoutes {
    ghost use Rattle.std.specs.Prelude.{List, ℕ};
    ghost use Rattle.art_routes.specs.Networks.{Block};

    ghost Value = { List (Block × ℕ) };

    ghost view = { λ routes. routes.table };
}

// Writes the lengths and the values of the first of these routes, as many as the shorter of both slices
// holds. Returns how many.
fn write_routes(mut routes: Covering<'_, u64>, lengths: &mut [u8], values: &mut [u64]) -> usize
    ensures count { result ≡ list_length (take (min (list_length lengths.old) (list_length values.old)) routes.entry) }
    ensures lengths { lengths.new ≡ begun_with
        (lengths_of (take (min (list_length lengths.old) (list_length values.old)) routes.entry)) lengths.old }
    ensures values { values.new ≡ begun_with
        (values_of (take (min (list_length lengths.old) (list_length values.old)) routes.entry)) values.old }
{
    let room = lengths.len().min(values.len());
    for index in 0..room {
        match routes.next() {
            Some(route) => {
                lengths[index] = route.0.length();
                values[index] = *route.1;
            }
            None => return index,
        }
    }
    room
}

impl NumberRoutes {
    /// A table with no routes. Takes no memory.
    pub fn new(alloc: Global) -> NumberRoutes
        ensures { result ≡ [] }
    {
        NumberRoutes {
            table: RouteTable::new(alloc),
        }
    }

    /// The number of routes. Takes constant time and no memory.
    pub fn len(&self) -> usize
        ensures { result ≡ list_length self.now }
    {
        self.table.len()
    }

    /// Removes all routes. Keeps the memory.
    pub fn clear(&mut self)
        ensures { self.new ≡ [] }
    {
        self.table.clear();
    }

    /// Reserves memory for `additional` more routes. The routes are unchanged, also after a failure.
    pub fn reserve(&mut self, additional: usize) -> Result<(), AllocError>
        ensures same_routes { self.new ≡ self.old }
    {
        self.table.reserve(additional)
    }

    /// Puts the routes into memory in their order, with room for just them. All memory is taken before a
    /// route moves: the routes are unchanged, also after a failure.
    pub fn compact(&mut self) -> Result<(), AllocError>
        ensures same_routes { self.new ≡ self.old }
    {
        self.table.compact()
    }

    /// Adds a route. Where there is one to the same network, its value is replaced and returned. Memory is
    /// refused only where there is none. After a refusal the routes are unchanged.
    pub fn insert(&mut self, address: &[u8], length: u8, value: u64) -> Result<Option<u64>, Refusal>
        ensures replaced { IfOk result (λ before. before ≡ route_value self.old (network_in address.now length)) }
        ensures routes { OnOk result (self.new ≡ put_route self.old (network_in address.now length) value) }
        ensures is_network { OnOk result (is_network address.now length ≡ true) }
        ensures refusal_due { IfErr result (IsRouteRefused address.now length) }
        ensures no_route { result ≡ Err Refusal.OutOfMemory → route_value self.old (network_in address.now length) ≡ None }
        ensures same_routes { OnErr result (self.new ≡ self.old) }
    {
        let Some(network) = network_from(address, length) else {
            return Err(Refusal::BadNetwork);
        };
        match self.table.insert(network, value) {
            Ok(before) => Ok(before),
            Err(_) => Err(Refusal::OutOfMemory),
        }
    }

    /// The value of the route to this very network, or None where there was none: then one with this value is added. Memory
    /// is refused only where there is none. After a refusal the routes are unchanged.
    pub fn get_or_insert(
        &mut self,
        address: &[u8],
        length: u8,
        value: u64,
    ) -> Result<Option<u64>, Refusal>
        ensures found { IfOk result (λ found. found ≡ route_value self.old (network_in address.now length)) }
        ensures added { result ≡ Ok None → self.new ≡ put_route self.old (network_in address.now length) value }
        ensures kept { result ≢ Ok None → self.new ≡ self.old }
        ensures is_network { OnOk result (is_network address.now length ≡ true) }
        ensures refusal_due { IfErr result (IsRouteRefused address.now length) }
        ensures no_route { result ≡ Err Refusal.OutOfMemory → route_value self.old (network_in address.now length) ≡ None }
    {
        let Some(network) = network_from(address, length) else {
            return Err(Refusal::BadNetwork);
        };
        match self.table.get(&network).copied() {
            Some(found) => Ok(Some(found)),
            None => match self.table.insert(network, value) {
                Ok(_) => Ok(None),
                Err(_) => Err(Refusal::OutOfMemory),
            },
        }
    }

    /// The value of the route to this very network, or None where there is none. Takes no memory.
    pub fn get(&self, address: &[u8], length: u8) -> Result<Option<u64>, Refusal>
        ensures found { IfOk result (λ value. value ≡ route_value self.now (network_in address.now length)) }
        ensures is_network { OnOk result (is_network address.now length ≡ true) }
        ensures refusal_due { OnErr result (is_network address.now length ≡ false) }
    {
        let Some(network) = network_from(address, length) else {
            return Err(Refusal::BadNetwork);
        };
        Ok(self.table.get(&network).copied())
    }

    /// Removes the route to this very network, if there is one, and returns its value. Memory is refused only
    /// where there is one. After a refusal the routes are unchanged.
    pub fn remove(&mut self, address: &[u8], length: u8) -> Result<Option<u64>, Refusal>
        ensures removed { IfOk result (λ value. value ≡ route_value self.old (network_in address.now length)) }
        ensures routes { OnOk result (self.new ≡ without_route self.old (network_in address.now length)) }
        ensures is_network { OnOk result (is_network address.now length ≡ true) }
        ensures refusal_due { IfErr result (IsRouteRefused address.now length) }
        ensures refused { result ≡ Err Refusal.OutOfMemory → route_value self.old (network_in address.now length) ≢ None }
        ensures same_routes { OnErr result (self.new ≡ self.old) }
    {
        let Some(network) = network_from(address, length) else {
            return Err(Refusal::BadNetwork);
        };
        match self.table.remove(&network) {
            Ok(removed) => Ok(removed),
            Err(_) => Err(Refusal::OutOfMemory),
        }
    }

    /// Removes the routes to a network and to parts of it, and returns how many there were. Memory is refused only where
    /// there is one. Then the first of them may be gone: those behind these and all others are as they were.
    pub fn remove_covered(&mut self, address: &[u8], length: u8) -> Result<usize, Refusal>
        ensures count { IfOk result (λ count. count ≡ list_length (covered_routes (network_in address.now length) self.old)) }
        ensures routes { OnOk result (self.new ≡ without_covered (network_in address.now length) self.old) }
        ensures is_network { OnOk result (is_network address.now length ≡ true) }
        ensures refusal_due { IfErr result (IsRouteRefused address.now length) }
        ensures stopped { result ≡ Err Refusal.OutOfMemory → StopsRemoving (network_in address.now length) self.old self.new }
        ensures same_routes { result ≡ Err Refusal.BadNetwork → self.new ≡ self.old }
    {
        let Some(network) = network_from(address, length) else {
            return Err(Refusal::BadNetwork);
        };
        match self.table.remove_covered(&network) {
            Ok(count) => Ok(count),
            Err(_) => Err(Refusal::OutOfMemory),
        }
    }

    /// Leaves fewer routes by which each address has the value that it had: none that has the value of the longest one
    /// around it, and none to the right half of a network that has the value of that to the left one. After a refusal
    /// some of this may be done: each address has the value that it had.
    pub fn aggregate(&mut self) -> Result<(), AllocError>
        ensures same_matches { (address : Address) → MatchAlike ◌==◌ self.old self.new address }
        ensures aggregated { OnOk result (IsAggregated ◌==◌ self.new) }
    {
        self.table.aggregate()
    }

    // The length and the value of the longest route that contains an address.
    fn longest(&self, address: IpAddr) -> Option<(u8, u64)>
        ensures { MatchOption result (NoneContains self.now (address_of address))
            (λ found. IsLongest self.now (address_of address) (network_around (address_of address) found.0, found.1)) }
    {
        self.table.routes_ascend();
        match self.table.longest_match(address) {
            Some((network, value)) => Some((network.length(), *value)),
            None => None,
        }
    }

    // The same, with no length and another value where there is no such route.
    fn longest_or(&self, address: IpAddr, other: u64) -> (u8, u64)
        ensures { IsMatched self.now (address_of address) other result }
    {
        match self.longest(address) {
            Some(found) => found,
            None => (NO_ROUTE, other),
        }
    }

    /// The length and the value of the longest route whose network contains the address, or None where none
    /// does. Takes no memory.
    pub fn longest_match(&self, address: &[u8]) -> Result<Option<(u8, u64)>, Refusal>
        ensures found { IfOk result (λ found. MatchOption found (NoneContains self.now (address_in address.now))
            (λ route. IsLongest self.now (address_in address.now) (network_around (address_in address.now) route.0, route.1))) }
        ensures is_address { OnOk result (is_address address.now ≡ true) }
        ensures refusal_due { OnErr result (is_address address.now ≡ false) }
    {
        let Some(ip) = address_from(address) else {
            return Err(Refusal::BadNetwork);
        };
        Ok(self.longest(ip))
    }

    // The length and the value of the longest route to a network around this one.
    fn parent_of(&self, network: &Network) -> Option<(u8, u64)>
        ensures { MatchOption result (NoneAround self.now network.now)
            (λ found. IsParent self.now network.now (network_around network.now.address found.0, found.1)) }
    {
        self.table.routes_ascend();
        match self.table.parent(network) {
            Some((around, value)) => Some((around.length(), *value)),
            None => None,
        }
    }

    /// The length and the value of the longest route to a network around this one, or None where there is none. Takes no
    /// memory.
    pub fn parent(&self, address: &[u8], length: u8) -> Result<Option<(u8, u64)>, Refusal>
        ensures found { IfOk result (λ found. MatchOption found (NoneAround self.now (network_in address.now length))
            (λ route. IsParent self.now (network_in address.now length) (network_around (address_in address.now) route.0, route.1))) }
        ensures is_network { OnOk result (is_network address.now length ≡ true) }
        ensures refusal_due { OnErr result (is_network address.now length ≡ false) }
    {
        let Some(network) = network_from(address, length) else {
            return Err(Refusal::BadNetwork);
        };
        Ok(self.parent_of(&network))
    }

    /// Looks up many addresses of `width` bytes each, as [`longest_match`](Self::longest_match) does. Where no
    /// route contains an address, the length is [`NO_ROUTE`], and the value as it was. As many as the shortest
    /// of the slices holds: returns how many, or None for a width other than 4 or 16. Takes no memory.
    pub fn longest_match_many(
        &self,
        addresses: &[u8],
        width: usize,
        lengths: &mut [u8],
        values: &mut [u64],
    ) -> Option<usize>
        ensures is_width { IfSome result (λ count. is_width width ≡ true) }
        ensures bad_width { IfNone result (is_width width ≡ false) }
        ensures count { IfSome result (λ count.
            count ≡ min (list_length addresses.now / width) (min (list_length lengths.old) (list_length values.old))) }
        ensures matches { IfSome result (λ count. (i : ℕ) → i < count → IsMatched self.now
            (address_in (take width (drop (i * width) addresses.now))) (get_or values.old i 0)
            (get_or lengths.new i 0, get_or values.new i 0)) }
        ensures others { IfSome result (λ count. (drop count lengths.new ≡ drop count lengths.old)
            × (drop count values.new ≡ drop count values.old)) }
        ensures same { IfNone result ((lengths.new ≡ lengths.old) × (values.new ≡ values.old)) }
    {
        if !(width == 4 || width == 16) {
            return None;
        }
        let count = (addresses.len() / width).min(lengths.len().min(values.len()));
        for index in 0..count {
            let (length, value) = self.longest_or(
                address_at(addresses, width, index),
                values[index],
            );
            lengths[index] = length;
            values[index] = value;
        }
        Some(count)
    }

    // The routes at a network and after it, only after it where it is not included.
    pub(crate) fn routes_at(&self, network: &Network, inclusive: bool) -> Routes<'_, u64>
        ensures { result ≡ routes_from inclusive network.now self.now }
    {
        if inclusive {
            self.table.iter_from(network)
        } else {
            self.table.iter_after(network)
        }
    }

    /// The first route at a network or after it, only after it where it is not included: how many bytes its
    /// address has, its length and its value. Writes the address into `out`, where it fits. Takes no memory.
    pub fn next(
        &self,
        address: &[u8],
        length: u8,
        inclusive: bool,
        out: &mut [u8],
    ) -> Result<Option<(usize, u8, u64)>, Refusal>
        ensures found { IfOk result (λ found. found ≡ option_map found_parts
            (first_of (routes_from inclusive (network_in address.now length) self.now))) }
        ensures address { OnOk result (out.new ≡ address_written
            (first_of (routes_from inclusive (network_in address.now length) self.now)) out.old) }
        ensures is_network { OnOk result (is_network address.now length ≡ true) }
        ensures refusal_due { OnErr result (is_network address.now length ≡ false) }
        ensures same { OnErr result (out.new ≡ out.old) }
    {
        let Some(from) = network_from(address, length) else {
            return Err(Refusal::BadNetwork);
        };
        let mut routes = self.routes_at(&from, inclusive);
        match routes.next() {
            Some((network, value)) => {
                let width = write_address(network.address(), out);
                Ok(Some((width, network.length(), *value)))
            }
            None => Ok(None),
        }
    }

    /// Writes the lengths and the values of the routes to a network and to those around it, the longest first:
    /// as many as the shorter of both slices holds. Returns how many, or None where it is no network. Takes no
    /// memory.
    pub fn covering(
        &self,
        address: &[u8],
        length: u8,
        lengths: &mut [u8],
        values: &mut [u64],
    ) -> Option<usize>
        ensures count { IfSome result (λ count. count ≡ list_length (take
            (min (list_length lengths.old) (list_length values.old))
            (covering_routes (network_in address.now length) self.now))) }
        ensures lengths { IfSome result (λ count. lengths.new ≡ begun_with (lengths_of (take
            (min (list_length lengths.old) (list_length values.old))
            (covering_routes (network_in address.now length) self.now))) lengths.old) }
        ensures values { IfSome result (λ count. values.new ≡ begun_with (values_of (take
            (min (list_length lengths.old) (list_length values.old))
            (covering_routes (network_in address.now length) self.now))) values.old) }
        ensures is_network { IfSome result (λ count. is_network address.now length ≡ true) }
        ensures refusal_due { IfNone result (is_network address.now length ≡ false) }
        ensures same { IfNone result ((lengths.new ≡ lengths.old) × (values.new ≡ values.old)) }
    {
        let network = network_from(address, length)?;
        Some(write_routes(self.table.covering(&network), lengths, values))
    }
}
