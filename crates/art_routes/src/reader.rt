//! A table that is read with a number of node visits that is counted.
ghost use Rattle.std.specs.Prelude.{All, MatchOption, ◌+◌, ◌<◌, ◌^◌, ◌≡◌, ◌≤◌, ◌⊎◌};
ghost use Rattle.std.specs.Option.{option_copied};
ghost use Rattle.art_tree.specs.Entries.{entries_of};
ghost use Rattle.art_routes.specs.Keys.{key_text};
ghost use Rattle.art_routes.specs.Networks.{IsNetwork, address_of};
ghost use Rattle.art_routes.specs.Readings.{most_visits};
ghost use Rattle.art_routes.specs.Tables.{AreInOrder, IsLongest, IsLongestOver, IsParent, IsShortest, NoneAround, NoneContains, NoneCovers, route_now, route_value};

use crate::address::{Address, number_of};
use crate::leaves::RouteTree;
use crate::network::{Network, parts};
use crate::route_key::RouteKey;
use crate::way::{PREFIX_LEN, RouteNode, longest_in, shortest_in};
use art_tree::ArenaReader;
use std::marker::{Model, PhantomData};
use std::net::IpAddr;

/// A reader of nodes below roots `R` that counts its visits: what it reads, and how many more are left.
pub trait ReadsRoutes<R, V>: Sized {
    ghost use Rattle.std.specs.Prelude.{List, Option, ℕ};
    ghost use Rattle.art_routes.specs.Networks.{Block};

    /// The routes that it reads.
    ghost routes: { Self → List (Block × V) };

    /// How many more node visits are allowed.
    ghost budget: { Self → ℕ };

    /// They are the routes of the tree at this root.
    ghost holds_one_tree: { Self → Option R → Type 0 };
}

impl<'a, V> ReadsRoutes<RouteNode<V>, V> for ArenaReader<'a, RouteKey, V, PREFIX_LEN> {
    ghost use Rattle.art_steps.specs.Art.{IsArt};
    ghost use Rattle.art_steps.specs.Dictionary.{HasKeys};
    ghost use Rattle.art_tree.specs.Entries.{entries_of};
    ghost use Rattle.art_routes.specs.Keys.{key_text};
    ghost use Rattle.art_routes.specs.Networks.{IsNetwork};

    ghost routes = { λ reader. entries_of key_text reader.arena };

    ghost budget = { λ reader. reader.budget };

    ghost holds_one_tree = { λ reader root.
        IsArt key_text reader.arena root × HasKeys key_text IsNetwork reader.arena };
}

/// A reader of nodes and the root of the routes. Callers name it [`RouteReader`].
#[derive(Drop)]
pub struct ReaderOver<A: ReadsRoutes<R, V>, R, V> {
    pub(crate) nodes: A,
    pub(crate) root: Option<R>,
    pub(crate) value: PhantomData<V>,
}

impl<A: ReadsRoutes<R, V>, R, V> Model for ReaderOver<A, R, V> {
    ghost use Rattle.art_routes.specs.Readings.{Reading};

    ghost Value = { Reading V };

    ghost view = { λ reader. record { routes = A.routes reader.nodes; budget = A.budget reader.nodes } };

    ghost invariant = { λ reader. A.holds_one_tree reader.nodes reader.root };
}

/// A borrowed table whose node visits are counted, as [`RouteTable::reader`](crate::TableOver::reader) returns it. A
/// contract sees the routes, and how many more visits are allowed. The reader has no other access to the table, so a
/// clause over what it leaves bounds all work of a call.
///
/// A table in which 10.0.0.0/8 has the value 8 and 10.0.0.0/9 the value 9, and two matches of IPv4 addresses:
///
/// (from tests/art_routes/tests.rt.txt)
/// ```rust
/// let mut reader = table.reader(14);
/// assert!(rt; is_value(reader.longest_match(ip4(10, 1, 0, 0)), 9));
/// assert!(rt; is_value(reader.longest_match(ip4(10, 192, 0, 1)), 8));
/// ```
pub type RouteReader<'a, V> = ReaderOver<ArenaReader<'a, RouteKey, V, PREFIX_LEN>, RouteNode<V>, V>;

/// A reader of the routes of a tree, with so many node visits.
pub(crate) fn reader_of<V>(tree: &RouteTree<V>, budget: usize) -> RouteReader<'_, V>
    ensures routes { result.routes ≡ entries_of key_text tree.now.arena }
    ensures budget { result.budget ≡ budget }
{
    ReaderOver {
        nodes: ArenaReader::with_budget(tree.arena(), budget),
        root: tree.root(),
        value: PhantomData,
    }
}

/// How many nodes a search over so many bits visits at most.
pub(crate) fn visits_over(bits: u8) -> usize
    ensures { result ≡ most_visits bits }
{
    usize::from(bits / 7) + 3
}

impl<'a, V> RouteReader<'a, V> {
    /// How many more node visits are allowed.
    pub fn remaining(&self) -> usize
        ensures { result ≡ self.now.budget }
    {
        self.nodes.remaining()
    }

    // The routes are in order, one for each network.
    fn routes_ascend(&self)
        ensures order { AreInOrder self.now.routes }
        ensures networks { All (λ route. IsNetwork route.0) self.now.routes }
    {
        let _nodes = &self.nodes;
    }

    // The longest route that covers the first bits of an address, so many of them: one way down the tree.
    pub(crate) fn longest_over(&mut self, address: Address, length: u8) -> Option<(Network, &'a V)>
        requires family { (address.width ≡ 32) ⊎ (address.width ≡ 128) }
        requires fits { address.bits < 2 ^ address.width }
        requires length { length ≤ address.width }
        requires budget { most_visits length ≤ self.old.budget }
        ensures longest { MatchOption result (NoneCovers self.old.routes (record { address = address; length = length }))
            (λ route. IsLongestOver self.old.routes (record { address = address; length = length }) (route_now route)) }
        ensures visits { self.old.budget ≤ self.new.budget + most_visits length }
        ensures same_routes { self.new.routes ≡ self.old.routes }
    {
        longest_in(&mut self.nodes, self.root, address, length)
    }

    /// The value of the route to this very network, or None where there is none. It makes at most one visit more than the
    /// key of the network has bytes, and so many must be left. Takes no memory.
    ///
    /// (from tests/art_routes/tests/reader_gets.rt.txt)
    /// ```rust
    /// let mut reader = table.reader(8);
    /// assert!(rt; reader.get(&eight) == Some(&8) && reader.get(&seven).is_none());
    /// ```
    pub fn get(&mut self, network: &Network) -> Option<&'a V>
        requires budget { most_visits network.now.length ≤ self.old.budget }
        ensures value { option_copied result ≡ route_value self.old.routes network.now }
        ensures visits { self.old.budget ≤ self.new.budget + most_visits network.now.length }
        ensures same_routes { self.new.routes ≡ self.old.routes }
    {
        self.routes_ascend();
        let (address, length) = parts(network);
        match self.longest_over(address, length) {
            Some(route) => {
                if route.0.length() == length {
                    Some(route.1)
                } else {
                    None
                }
            }
            None => None,
        }
    }

    /// The longest route whose network contains the address, with its value, or None where none does.
    ///
    /// At least 7 visits must be left for an IPv4 address, and 21 for an IPv6 one, and it makes no more, whatever the
    /// table: one more than the key of the address has bytes. Takes no memory.
    pub fn longest_match(&mut self, address: IpAddr) -> Option<(Network, &'a V)>
        requires budget { most_visits (address_of address).width ≤ self.old.budget }
        ensures longest { MatchOption result (NoneContains self.old.routes (address_of address))
            (λ route. IsLongest self.old.routes (address_of address) (route_now route)) }
        ensures visits { self.old.budget ≤ self.new.budget + most_visits (address_of address).width }
        ensures same_routes { self.new.routes ≡ self.old.routes }
    {
        self.routes_ascend();
        let address = number_of(address);
        self.longest_over(address, address.width)
    }

    /// The longest route whose network covers this one, with its value, or None where none does. It makes at most one
    /// visit more than the key of the network has bytes, and so many must be left.
    pub fn longest_match_of(&mut self, network: &Network) -> Option<(Network, &'a V)>
        requires budget { most_visits network.now.length ≤ self.old.budget }
        ensures longest { MatchOption result (NoneCovers self.old.routes network.now)
            (λ route. IsLongestOver self.old.routes network.now (route_now route)) }
        ensures visits { self.old.budget ≤ self.new.budget + most_visits network.now.length }
        ensures same_routes { self.new.routes ≡ self.old.routes }
    {
        let (address, length) = parts(network);
        self.longest_over(address, length)
    }

    /// The shortest route whose network contains the address, with its value, or None where none does. Needs as many
    /// visits as [`longest_match`](Self::longest_match).
    pub fn shortest_match(&mut self, address: IpAddr) -> Option<(Network, &'a V)>
        requires budget { most_visits (address_of address).width ≤ self.old.budget }
        ensures shortest { MatchOption result (NoneContains self.old.routes (address_of address))
            (λ route. IsShortest self.old.routes (address_of address) (route_now route)) }
        ensures visits { self.old.budget ≤ self.new.budget + most_visits (address_of address).width }
        ensures same_routes { self.new.routes ≡ self.old.routes }
    {
        shortest_in(&mut self.nodes, self.root, number_of(address))
    }

    /// The longest route to a network around this one, with its value, or None where there is none: the one that
    /// counts where that to this network is removed. Needs as many visits as
    /// [`longest_match_of`](Self::longest_match_of).
    pub fn parent(&mut self, network: &Network) -> Option<(Network, &'a V)>
        requires budget { most_visits network.now.length ≤ self.old.budget }
        ensures parent { MatchOption result (NoneAround self.old.routes network.now)
            (λ route. IsParent self.old.routes network.now (route_now route)) }
        ensures visits { self.old.budget ≤ self.new.budget + most_visits network.now.length }
        ensures same_routes { self.new.routes ≡ self.old.routes }
    {
        let (address, length) = parts(network);
        self.longest_over(address, length.checked_sub(1)?)
    }
}
