//! The free networks of a length, one after another.
ghost use Rattle.std.specs.Prelude.{◌≡◌, ◌⊎◌, ◌↔◌, ◌≤◌, ◌<◌, ◌^◌, AllPairs, Contains, IfNone, IfSome, MatchOption, All, false, true};
ghost use Rattle.std.specs.Iterator.{YieldsFirst, item_count};
ghost use Rattle.std.specs.declared.cmp.Ordering.TheVariants.{Less};
ghost use Rattle.art_routes.specs.FreeNetworks.{BeginsBehind, IsFree, overlaps};
ghost use Rattle.art_routes.specs.FreeWalks.{IsBehind, IsFirstInside, IsNextInside, Overlapping};
ghost use Rattle.art_routes.specs.Networks.{Block, IsNetwork, covers, network_order};

use crate::address::Address;
use crate::covering::ShowsRoutes;
use crate::network::{Network, last_of, network_at, parts};
use crate::table::RouteTable;
use std::iter::FusedIterator;
use std::marker::{Model, PhantomData};

/// The networks of a length that are left of those that no route of a table `T` overlaps. Callers name it [`Free`].
#[derive(Drop)]
pub struct FreeOver<T: ShowsRoutes<V>, V> {
    table: T,
    /// The last address in which one may begin.
    last: u128,
    /// The next one that may be free, or None where all are passed.
    next: Option<Network>,
    value: PhantomData<V>,
}

impl<T: ShowsRoutes<V>, V> Model for FreeOver<T, V> {
    ghost use Rattle.std.specs.Prelude.{List};
    ghost use Rattle.art_routes.specs.FreeWalks.{IsFreeWalk, free_left};
    ghost use Rattle.art_routes.specs.Networks.{Block};

    ghost Value = { List Block };

    ghost view = { λ left. free_left (T.routes left.table) left.last left.next };

    ghost invariant = { λ left. IsFreeWalk left.last left.next };
}

/// Networks of a length that no route of a table overlaps and that are left, in order. Contracts see their list. Takes no
/// memory.
pub type Free<'a, V> = FreeOver<&'a RouteTable<V>, V>;

// The first network of so many bits inside a network, if there is one.
fn first_inside(network: &Network, length: u8) -> Option<Network>
    ensures network { IsNetwork network.now }
    ensures first { IsFirstInside network.now length result }
{
    let (address, shortest) = parts(network);
    if length < shortest {
        return None;
    }
    if address.width < length {
        return None;
    }
    Some(network_at(address, length))
}

// The network of so many bits behind an address, if it begins no later than the last one.
fn network_behind(address: Address, length: u8, last: u128) -> Option<Network>
    requires family { (address.width ≡ 32) ⊎ (address.width ≡ 128) }
    requires fits { address.bits < 2 ^ address.width }
    requires length { length ≤ address.width }
    requires last { last < 2 ^ address.width }
    ensures { IsBehind address length last result }
{
    let (end, _) = parts(&last_of(&network_at(address, length)));
    if end.bits >= last {
        return None;
    }
    let behind = Address {
        width: address.width,
        bits: end.bits + 1,
    };
    Some(network_at(behind, length))
}

// The first network of so many bits inside a network that begins behind the last address of another one inside it, if
// there is one.
fn next_inside(network: &Network, length: u8, after: &Network) -> Option<Network>
    requires inside { covers network.now after.now ≡ true }
    ensures network { IsNetwork network.now }
    ensures after { IsNetwork after.now }
    ensures next { IsNextInside network.now length after.now result }
{
    let _is = parts(after);
    let (address, shortest) = parts(network);
    let (end, _) = parts(&last_of(after));
    let (last, _) = parts(&last_of(network));
    if length < shortest {
        return None;
    }
    if address.width < length {
        return None;
    }
    network_behind(end, length, last.bits)
}

// The network of a route that overlaps this one: the shortest that contains its first address, or else the first inside it.
fn overlapping<V>(table: &RouteTable<V>, part: &Network) -> Option<Network>
    ensures { MatchOption result (All (λ route. overlaps route.0 part.now ≡ false) table.now) (Overlapping table.now part.now) }
{
    table.routes_ascend();
    let _is = parts(part);
    match table.shortest_match(part.address()) {
        Some(route) => Some(route.0),
        None => match table.covered(part).next() {
            Some(route) => Some(route.0),
            None => None,
        },
    }
}

impl<'a, V> Iterator for Free<'a, V> {
    type Item = Network;

    ghost next_gives = { YieldsFirst (λ rest. rest) };

    ghost remaining = { item_count (λ rest. rest) };

    fn next(&mut self) -> Option<Network> {
        'walk: while let Some(part) = self.next {
            let (address, length) = parts(&part);
            match overlapping(self.table, &part) {
                Some(network) => {
                    let (end, _) = parts(&last_of(&network));
                    self.next = network_behind(end, length, self.last);
                }
                None => {
                    self.next = network_behind(address, length, self.last);
                    return Some(part);
                }
            }
        }
        None
    }
}

impl<'a, V> FusedIterator for Free<'a, V> {}

impl<V> RouteTable<V> {
    /// The networks of this length inside a network that no route overlaps, in order: none of them covers a route's
    /// network or is covered by one. Where the length is less than that of the network, or greater than the bits of its
    /// addresses, there are none.
    ///
    /// Does not try all of them: what follows a route that overlaps one begins behind the last address of that route. So
    /// each costs as much as a [`shortest_match`](Self::shortest_match) and the first of [`covered`](Self::covered), and
    /// as much again for each route that is passed on the way to it, those inside a shorter one not counted. Takes no
    /// memory.
    ///
    /// (from tests/art_routes/tests/free_networks.rt.txt)
    /// ```rust
    /// let mut free = table.free(&all, 2);
    /// assert!(rt; free.next() == Some(v4(&rt, 128, 0, 0, 0, 2)) && free.next().is_none());
    /// ```
    pub fn free(&self, network: &Network, length: u8) -> Free<'_, V>
        ensures order { AllPairs (λ a b. network_order a b ≡ Less) result }
        ensures exactly { (part : Block) → Contains result part ↔ IsFree self.now network.now length part }
    {
        let (last, _) = parts(&last_of(network));
        FreeOver {
            table: self,
            last: last.bits,
            next: first_inside(network, length),
            value: PhantomData,
        }
    }

    /// Those of them that begin behind the last address of another network, which is inside this one, or None where it
    /// is not. So the walk goes on behind a network that was free, also where routes have come and gone since.
    ///
    /// Costs as much as [`free`](Self::free), whatever the number of networks before. Takes no memory.
    ///
    /// (from tests/art_routes/tests/free_networks.rt.txt)
    /// ```rust
    /// let Some(mut free) = table.free_after(&all, 2, &v4(&rt, 128, 0, 0, 0, 2)) else {
    ///     panic!(rt; "it is inside");
    /// };
    /// assert!(rt; free.next() == Some(v4(&rt, 192, 0, 0, 0, 2)) && free.next().is_none());
    /// ```
    pub fn free_after(&self, network: &Network, length: u8, after: &Network) -> Option<Free<'_, V>>
        ensures order { IfSome result (AllPairs (λ a b. network_order a b ≡ Less)) }
        ensures exactly { IfSome result (λ free. (part : Block) → Contains free part
            ↔ (IsFree self.now network.now length part × BeginsBehind after.now part)) }
        ensures inside { IfSome result (λ free. covers network.now after.now ≡ true) }
        ensures outside { IfNone result (covers network.now after.now ≡ false) }
    {
        if !network.covers(after) {
            return None;
        }
        let (last, _) = parts(&last_of(network));
        Some(FreeOver {
            table: self,
            last: last.bits,
            next: next_inside(network, length, after),
            value: PhantomData,
        })
    }
}
