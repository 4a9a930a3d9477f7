//! The changes that make one table another.
ghost use Rattle.std.specs.Prelude.{◌≡◌, ◌∷◌, [], drop, MatchOption};
ghost use Rattle.std.specs.Iterator.{YieldsFirstBy, item_count};
ghost use Rattle.art_routes.specs.Changes.{AreOneIfEqual, ChangesAreInOrder, change_between, change_now, change_to, with_changes};
ghost use Rattle.art_routes.specs.Differences.{differences};
ghost use Rattle.art_routes.specs.Networks.{Block, network_order};
ghost use Rattle.art_routes.specs.Tables.{route_now, route_value};

use crate::leaves::{RouteArena, RouteLeaf};
use crate::network::Network;
use crate::routes::{HasRuns, Routes, RoutesOver};
use crate::table::RouteTable;
use std::cmp::Ordering;
use std::iter::FusedIterator;
use std::marker::Model;

/// A change of a table: to which network, and the value.
#[derive(Clone, Copy, PartialEq, Eq, Debug)]
pub enum Change<V> {
    /// A route to a network that has none.
    Insert(Network, V),
    /// No route to the network, which has one with this value.
    Remove(Network, V),
    /// This value for that of the route to the network.
    Replace(Network, V),
}

/// Routes that are left, of which the next is known.
#[derive(Drop)]
pub struct PeekedRoutes<'a, A: HasRuns<L, V>, L, V> {
    head: Option<(Network, &'a V)>,
    rest: RoutesOver<A, L, V>,
}

impl<'a, A: HasRuns<L, V>, L, V> Model for PeekedRoutes<'a, A, L, V> {
    ghost use Rattle.std.specs.Prelude.{◌≡◌, List, [], IfNone};
    ghost use Rattle.std.specs.List.{cons_option};
    ghost use Rattle.std.specs.Option.{option_map};
    ghost use Rattle.art_routes.specs.Networks.{Block};
    ghost use Rattle.art_routes.specs.Tables.{route_now};

    ghost Value = { List (Block × V) };

    ghost view = { λ p. cons_option (option_map route_now p.head) p.rest };

    ghost invariant = { λ p. IfNone p.head (p.rest ≡ []) };
}

type Peeked<'a, V> = PeekedRoutes<'a, &'a RouteArena<V>, RouteLeaf<V>, V>;

impl<'a, V> Peeked<'a, V> {
    // These routes.
    fn of(mut rest: Routes<'a, V>) -> Self
        ensures { result ≡ rest.entry }
    {
        let head = rest.next();
        PeekedRoutes { head, rest }
    }

    // The next route.
    fn peek(&self) -> Option<(Network, &'a V)>
        ensures { MatchOption result (self.now ≡ []) (λ route. self.now ≡ route_now route ∷ drop 1 self.now) }
    {
        match &self.head {
            Some(route) => Some((route.0, route.1)),
            None => None,
        }
    }

    // Goes past the next route.
    fn advance(&mut self)
        ensures { self.new ≡ drop 1 self.old }
    {
        self.head = self.rest.next();
    }
}

/// The changes that are left of those between two lists of routes. Callers name it [`Differences`].
#[derive(Drop)]
pub struct DifferencesOver<'a, A: HasRuns<L, V>, L, V: PartialEq> {
    old: PeekedRoutes<'a, A, L, V>,
    new: PeekedRoutes<'a, A, L, V>,
}

impl<'a, A: HasRuns<L, V>, L, V: PartialEq> Model for DifferencesOver<'a, A, L, V> {
    ghost use Rattle.std.specs.Prelude.{List};
    ghost use Rattle.art_routes.specs.declared.difference.Change.{Change};
    ghost use Rattle.art_routes.specs.Differences.{differences};

    ghost Value = { List (Change V) };

    ghost view = { λ d. differences V.eq d.old d.new };
}

/// Changes that make one table another and are left, in the order of their networks. Contracts see their list. A change
/// costs as many steps as routes of the two tables are passed on the way to it. Takes no memory.
pub type Differences<'a, V> = DifferencesOver<'a, &'a RouteArena<V>, RouteLeaf<V>, V>;

// How two networks compare.
fn order_of(network: &Network, other: &Network) -> Ordering
    ensures { result ≡ network_order network.now other.now }
{
    network.cmp(other)
}

/// Whether two values are equal.
pub(crate) fn are_equal<V: PartialEq>(value: &V, other: &V) -> bool
    ensures { result ≡ V.eq value.now other.now }
{
    value == other
}

impl<'a, V: PartialEq> Iterator for Differences<'a, V> {
    type Item = Change<&'a V>;

    ghost next_gives = { YieldsFirstBy change_now (λ rest. rest) };

    ghost remaining = { item_count (λ rest. rest) };

    fn next(&mut self) -> Option<Change<&'a V>> {
        'walk: loop {
            let Some((network, value)) = self.old.peek() else {
                let Some((network, value)) = self.new.peek() else {
                    return None;
                };
                self.new.advance();
                return Some(Change::Insert(network, value));
            };
            let Some((other, after)) = self.new.peek() else {
                self.old.advance();
                return Some(Change::Remove(network, value));
            };
            match order_of(&network, &other) {
                Ordering::Less => {
                    self.old.advance();
                    return Some(Change::Remove(network, value));
                }
                Ordering::Equal => {
                    self.old.advance();
                    self.new.advance();
                    if !are_equal(value, after) {
                        return Some(Change::Replace(other, after));
                    }
                }
                Ordering::Greater => {
                    self.new.advance();
                    return Some(Change::Insert(other, after));
                }
            }
        }
    }
}

impl<'a, V: PartialEq> FusedIterator for Differences<'a, V> {}

impl<V: PartialEq> RouteTable<V> {
    /// The changes that make this table the new one, in the order of their networks: a [`Remove`](Change::Remove) of each
    /// route of this table to a network that has none in the new one, with its value here; an [`Insert`](Change::Insert) of
    /// each route of the new one to a network that has none here; and a [`Replace`](Change::Replace) for each network whose
    /// values differ, with the new value.
    ///
    /// Goes along both tables once: each change costs as many steps as routes of the two are passed on the way to it.
    /// Takes no memory.
    ///
    /// (from tests/art_routes/tests/changes.rt.txt)
    /// ```rust
    /// let mut changes = old.difference(&new);
    /// ```
    pub fn difference<'a>(&'a self, new: &'a RouteTable<V>) -> Differences<'a, V>
        ensures order { ChangesAreInOrder result }
        ensures each { (network : Block) → change_to network result
            ≡ change_between V.eq network (route_value self.now network) (route_value new.now network) }
        ensures applied { AreOneIfEqual V.eq → with_changes self.now result ≡ new.now }
    {
        self.routes_ascend();
        new.routes_ascend();
        DifferencesOver {
            old: Peeked::of(self.iter()),
            new: Peeked::of(new.iter()),
        }
    }
}
