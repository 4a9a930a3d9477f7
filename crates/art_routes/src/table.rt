//! Tables of routes.
ghost use Rattle.std.specs.Prelude.{◌≡◌, ◌≢◌, ◌↔◌, ◌⊎◌, ◌<◌, ◌≤◌, ◌^◌, [], ◌∷◌, All, IfErr, IfNone, IfOk, IfSome, IsTrue, MatchOption, None, OnErr, OnOk, filter, length, map, true, false};
ghost use Rattle.std.specs.Borrow.{sem};
ghost use Rattle.std.specs.Option.{option_copied, option_copied_mut, option_map};
ghost use Rattle.art_nodes.specs.declared.pointers.OpaqueNodePtr.{OpaqueNodePtr as Pointer};
ghost use Rattle.art_routes.specs.Keys.{key_text};
ghost use Rattle.art_routes.specs.Lending.{LendsRoute};
ghost use Rattle.art_routes.specs.NearestLeaves.{is_between};
ghost use Rattle.art_routes.specs.Networks.{Block, IsNetwork, address_of, covers};
ghost use Rattle.art_routes.specs.Shrinking.{NeedsNode};
ghost use Rattle.art_routes.specs.Tables.{AreInOrder, at_or_after, behind, children as children_of, covered as covered_routes, covering as covering_routes, IsFirstToNetwork, IsLongest, IsLongestOver, IsParent, IsShortest, NoneAround, NoneContains, NoneCovers, put_route, put_routes, route_now, route_value, without_route};
ghost use Rattle.art_routes.specs.UpTo.{ahead, at_or_before};

use crate::address::{Address, number_of};
use crate::children::{Children, ChildrenOver};
use crate::covering::{Covering, CoveringOver};
use crate::holds_routes::HoldsRoutes;
use crate::leaves::RouteTree;
use crate::leaves::range::ends_between;
use crate::leaves::walk::removals_need_nodes;
use crate::network::{Network, last_of, parts};
use crate::reader::{RouteReader, reader_of, visits_over};
use crate::refused_route::RefusedRoute;
use crate::route_key::{RouteKey, key_of};
use crate::routes::{IntoRoutes, Routes, RoutesOver};
use crate::way::PREFIX_LEN;
use art_bytes::AsBytes;
use art_tree::laws::the_list_of_entries_changes_with_them;
use art_tree::{ArtTree, Side};
use std::alloc::{AllocError, Global};
use std::marker::{Model, PhantomData};
use std::net::IpAddr;

/// The routes that a tree `T` holds. Callers name it [`RouteTable`].
#[derive(Drop)]
pub struct TableOver<T: HoldsRoutes<V>, V> {
    pub(crate) tree: T,
    pub(crate) value: PhantomData<V>,
}

impl<T: HoldsRoutes<V>, V> Model for TableOver<T, V> {
    ghost use Rattle.std.specs.Prelude.{List, All};
    ghost use Rattle.art_routes.specs.Networks.{Block, IsNetwork};

    ghost Value = { List (Block × V) };

    ghost view = { λ table. T.routes table.tree };

    ghost invariant = { λ table. All (λ route. IsNetwork route.0) (T.routes table.tree) };
}

/// The routes: values by networks, in the order of the networks, one for each. No call has a condition.
pub type RouteTable<V> = TableOver<RouteTree<V>, V>;

// The value of an entry that was replaced or removed.
fn value_alone<V>(entry: Option<(RouteKey, V)>) -> Option<V>
    ensures { result ≡ option_map (λ entry. entry.1) entry }
{
    let (_, value) = entry?;
    Some(value)
}

impl<V> RouteTable<V> {
    /// A table with no routes. Takes no memory.
    pub fn new(alloc: Global) -> RouteTable<V>
        ensures { result ≡ [] }
    {
        TableOver {
            tree: ArtTree::new(alloc),
            value: PhantomData,
        }
    }

    /// The number of routes. Takes constant time and no memory.
    pub fn len(&self) -> usize
        ensures { result ≡ length self.now }
    {
        self.tree.len()
    }

    /// Whether there is no route. Takes constant time and no memory.
    pub fn is_empty(&self) -> bool
        ensures { IsTrue result ↔ (length self.now ≡ 0) }
    {
        self.len() == 0
    }

    /// The routes are in order, one for each network. Does no work.
    pub fn routes_ascend(&self)
        ensures order { AreInOrder self.now }
        ensures networks { All (λ route. IsNetwork route.0) self.now }
    {
        let _tree = &self.tree;
    }

    /// Adds a route. Where there is one to the same network, its value is replaced and returned.
    ///
    /// Only an allocation failure refuses a route, and only one to a network that has none: it is
    /// returned, and the routes are unchanged. Costs as much as [`ArtTree::insert`] of a key of 6 bytes for IPv4 and of 20
    /// at most for IPv6.
    pub fn insert(&mut self, network: Network, value: V) -> Result<Option<V>, RefusedRoute<V>>
        ensures replaced { IfOk result (λ before. before ≡ route_value self.old network) }
        ensures routes { OnOk result (self.new ≡ put_route self.old network value) }
        ensures route_back { IfErr result
            (λ refused. (refused.network ≡ network) × (refused.value ≡ value)) }
        ensures no_route { OnErr result (route_value self.old network ≡ None) }
        ensures same_routes { OnErr result (self.new ≡ self.old) }
    {
        let before = match self.tree.insert(key_of(&network), value) {
            Ok(before) => before,
            Err(fault) => {
                return Err(RefusedRoute {
                    network,
                    value: fault.value,
                });
            }
        };
        Ok(value_alone(before))
    }

    /// The value of the route to this very network, or None where there is none. Costs as much as
    /// [`ArtTree::get`] of a key of 6 bytes for IPv4 and of 20 at most for IPv6. Takes no memory.
    pub fn get(&self, network: &Network) -> Option<&V>
        ensures { option_copied result ≡ route_value self.now network.now }
    {
        let key = key_of(network);
        self.tree.get(key.as_bytes())
    }

    /// A mutable reference to the value of the route to this very network, or None where there is none.
    /// The table ends with the same networks, and this route with the value that the caller leaves there.
    /// Costs as much as [`get`](Self::get). Takes no memory.
    ///
    /// (from tests/art_routes/tests.rt.txt)
    /// ```rust
    /// if let Some(value) = table.get_mut(&nine) {
    ///     *value = 11;
    /// }
    /// assert!(rt; table.get(&nine) == Some(&11));
    /// ```
    pub fn get_mut(&mut self, network: &Network) -> Option<&mut V>
        ensures* writes_back { sem 𝓛 (LendsRoute V.row self.entry network.now result) }
        ensures value { option_copied_mut result ≡ route_value self.old network.now }
    {
        let key = key_of(network);
        match self.tree.get_mut(key.as_bytes()) {
            Some(value) => Some(value),
            None => None,
        }
    }

    /// Removes the route to this very network, if there is one, and returns its value.
    ///
    /// An allocation may fail only where there is such a route, and its key's leaf is one of 5, 17 or 49 children
    /// of its parent, since a node of a smaller kind takes its place. The routes are then unchanged.
    pub fn remove(&mut self, network: &Network) -> Result<Option<V>, AllocError>
        ensures removed { IfOk result (λ value. value ≡ route_value self.old network.now) }
        ensures routes { OnOk result (self.new ≡ without_route self.old network.now) }
        ensures refused { OnErr result (route_value self.old network.now ≢ None) }
        ensures needs_node { OnErr result (NeedsNode (Pointer Block V PREFIX_LEN)
            (map (λ route. key_text route.0) self.old) (key_text network.now)) }
        ensures same_routes { OnErr result (self.new ≡ self.old) }
    {
        removals_need_nodes(&self.tree);
        let key = key_of(network);
        let entry = self.tree.remove(key.as_bytes())?;
        Ok(value_alone(entry))
    }

    // The routes whose keys come after the one side of some bytes, and before the other side of others.
    fn between(&self, start_side: Side, start: &[u8], end_side: Side, end: &[u8]) -> Routes<'_, V>
        ensures routes { result ≡ filter
            (λ route. is_between start_side start.now end_side end.now (key_text route.0)) self.now }
        ensures networks { All (λ route. IsNetwork route.0) self.now }
    {
        let ends = ends_between(&self.tree, start_side, start, end_side, end);
        RoutesOver {
            arena: self.tree.arena(),
            ends,
            value: PhantomData,
        }
    }

    /// All routes, in order, and from the back in the opposite order. Visits the nodes on the way to the first route,
    /// twice, and to the last one; then each route takes constant time. Takes no memory.
    pub fn iter(&self) -> Routes<'_, V>
        ensures { result ≡ self.now }
    {
        self.between(Side::Before, &[], Side::AfterBegun, &[])
    }

    /// The routes to this network and to parts of it, in order, and from the back in the opposite order.
    /// Costs a descent to each end, and constant time for each route. Takes no memory.
    pub fn covered(&self, network: &Network) -> Routes<'_, V>
        ensures { result ≡ covered_routes network.now self.now }
    {
        let first = key_of(network);
        let last = key_of(&last_of(network));
        self.between(Side::Before, first.as_bytes(), Side::After, last.as_bytes())
    }

    /// The routes to this network and to those after it, in order, and from the back in the opposite order.
    /// Costs as much as [`covered`](Self::covered). Takes no memory.
    ///
    /// (from tests/art_routes/tests.rt.txt)
    /// ```rust
    /// assert!(rt; is_value(table.iter_from(&ten).next(), 2));
    /// assert!(rt; is_value(table.iter_after(&ten).next(), 3));
    /// ```
    pub fn iter_from(&self, network: &Network) -> Routes<'_, V>
        ensures { result ≡ at_or_after network.now self.now }
    {
        let first = key_of(network);
        self.between(Side::Before, first.as_bytes(), Side::AfterBegun, &[])
    }

    /// The routes to the networks after this one, as [`iter_from`](Self::iter_from).
    pub fn iter_after(&self, network: &Network) -> Routes<'_, V>
        ensures { result ≡ behind network.now self.now }
    {
        let first = key_of(network);
        self.between(Side::After, first.as_bytes(), Side::AfterBegun, &[])
    }

    /// The routes to this network and to those before it, in order, and from the back in the opposite order: so the first
    /// from the back is the last one up to a network. Costs as much as [`covered`](Self::covered). Takes no memory.
    ///
    /// (from tests/art_routes/tests.rt.txt)
    /// ```rust
    /// assert!(rt; is_value(table.iter_to(&ten).next_back(), 2));
    /// assert!(rt; is_value(table.iter_before(&ten).next_back(), 1));
    /// ```
    pub fn iter_to(&self, network: &Network) -> Routes<'_, V>
        ensures { result ≡ at_or_before network.now self.now }
    {
        let last = key_of(network);
        self.between(Side::Before, &[], Side::After, last.as_bytes())
    }

    /// The routes to the networks before this one, as [`iter_to`](Self::iter_to).
    pub fn iter_before(&self, network: &Network) -> Routes<'_, V>
        ensures { result ≡ ahead network.now self.now }
    {
        let last = key_of(network);
        self.between(Side::Before, &[], Side::Before, last.as_bytes())
    }

    /// Reserves memory for `additional` more routes: as many inserts to new networks, and removals, take
    /// none. The routes are unchanged, also after a failure. The clause sees the list of routes, which shows
    /// no memory.
    pub fn reserve(&mut self, additional: usize) -> Result<(), AllocError>
        ensures same_routes { self.new ≡ self.old }
    {
        the_list_of_entries_changes_with_them::<RouteKey, V, PREFIX_LEN>();
        self.tree.reserve_entries(additional)
    }

    /// The table, to be read with so many node visits at most. Takes no memory.
    ///
    /// Each look-up below is that of a reader with as many visits as it needs, so it makes no more, whatever the
    /// table. [`RouteReader`](crate::RouteReader) has an example.
    pub fn reader(&self, budget: usize) -> RouteReader<'_, V>
        ensures routes { result.routes ≡ self.now }
        ensures budget { result.budget ≡ budget }
    {
        reader_of(&self.tree, budget)
    }

    // The longest route that covers the first bits of an address, so many of them: one way down the tree.
    pub(crate) fn longest_over(&self, address: Address, length: u8) -> Option<(Network, &V)>
        requires family { (address.width ≡ 32) ⊎ (address.width ≡ 128) }
        requires fits { address.bits < 2 ^ address.width }
        requires length { length ≤ address.width }
        ensures { MatchOption result (NoneCovers self.now (record { address = address; length = length }))
            (λ route. IsLongestOver self.now (record { address = address; length = length }) (route_now route)) }
    {
        let mut reader = self.reader(visits_over(length));
        reader.longest_over(address, length)
    }

    /// The longest route whose network contains the address, with its value, or None where none does.
    /// IPv4 and IPv6 never match each other.
    ///
    /// One way down the tree, whatever the table: it visits at most one node more than the key of the address has
    /// bytes, which are 6 for IPv4 and 20 for IPv6. It is [`RouteReader::longest_match`](crate::ReaderOver::longest_match)
    /// with a budget of 7 or 21 visits, whose contract says so. Takes no memory.
    ///
    /// (from tests/art_routes/tests.rt.txt)
    /// ```rust
    /// assert!(rt; is_value(table.longest_match(ip4(10, 127, 0, 1)), 10));
    /// assert!(rt; is_value(table.longest_match(ip4(10, 128, 0, 1)), 8));
    /// ```
    pub fn longest_match(&self, address: IpAddr) -> Option<(Network, &V)>
        ensures { MatchOption result (NoneContains self.now (address_of address))
            (λ route. IsLongest self.now (address_of address) (route_now route)) }
    {
        let mut reader = self.reader(visits_over(number_of(address).width));
        reader.longest_match(address)
    }

    /// The longest route whose network covers this one, with its value, or None where none does. Costs as
    /// much as [`longest_match`](Self::longest_match).
    pub fn longest_match_of(&self, network: &Network) -> Option<(Network, &V)>
        ensures { MatchOption result (NoneCovers self.now network.now)
            (λ route. IsLongestOver self.now network.now (route_now route)) }
    {
        let mut reader = self.reader(visits_over(network.length()));
        reader.longest_match_of(network)
    }

    /// The shortest route whose network contains the address, with its value, or None where none does.
    ///
    /// Costs as much as [`longest_match`](Self::longest_match). Takes no memory.
    ///
    /// (from tests/art_routes/tests.rt.txt)
    /// ```rust
    /// assert!(rt; is_value(table.shortest_match(ip4(10, 127, 0, 1)), 8));
    /// ```
    pub fn shortest_match(&self, address: IpAddr) -> Option<(Network, &V)>
        ensures { MatchOption result (NoneContains self.now (address_of address))
            (λ route. IsShortest self.now (address_of address) (route_now route)) }
    {
        let mut reader = self.reader(visits_over(number_of(address).width));
        reader.shortest_match(address)
    }

    /// The longest route to a network around this one, with its value, or None where there is none: the one that
    /// counts where that to this network is removed. Costs as much as [`longest_match`](Self::longest_match).
    ///
    /// (from tests/art_routes/tests.rt.txt)
    /// ```rust
    /// assert!(rt; is_value(table.parent(&ten), 9) && is_value(table.parent(&eight), 0));
    /// ```
    pub fn parent(&self, network: &Network) -> Option<(Network, &V)>
        ensures { MatchOption result (NoneAround self.now network.now)
            (λ route. IsParent self.now network.now (route_now route)) }
    {
        let mut reader = self.reader(visits_over(network.length()));
        reader.parent(network)
    }

    // The first route behind a network, where another one covers it.
    pub(crate) fn next_covered(&self, network: &Network, after: &Network) -> Option<(Network, &V)>
        ensures covered { IfSome result (λ route. covers network.now (route_now route).0 ≡ true) }
        ensures first { IfSome result (λ route. (rest : _) × (behind after.now self.now ≡ route_now route ∷ rest)) }
        ensures none { IfNone result ((route : _) (rest : _) →
            behind after.now self.now ≡ route ∷ rest → covers network.now route.0 ≡ false) }
    {
        match self.iter_after(after).next() {
            Some(route) => {
                if network.covers(&route.0) {
                    Some(route)
                } else {
                    None
                }
            }
            None => None,
        }
    }

    /// The routes to parts of this network such that no route is to one between, in order: those of which it is the
    /// [`parent`](Self::parent), and where it has no route would be.
    ///
    /// Each costs as much as the first of [`iter_after`](Self::iter_after), however many routes are inside it. Takes no
    /// memory.
    ///
    /// (from tests/art_routes/tests.rt.txt)
    /// ```rust
    /// let mut parts = table.children(&eight);
    /// assert!(rt; is_value(parts.next(), 9) && is_value(parts.next(), 11) && parts.next().is_none());
    /// ```
    pub fn children(&self, network: &Network) -> Children<'_, V>
        ensures { result ≡ children_of network.now self.now }
    {
        self.routes_ascend();
        let _is = parts(network);
        ChildrenOver {
            table: self,
            network: *network,
            after: Some(*network),
            value: PhantomData,
        }
    }

    /// The routes to this network and to those around it, the longest first.
    ///
    /// Each costs as much as [`longest_match`](Self::longest_match). Takes no memory.
    ///
    /// (from tests/art_routes/tests.rt.txt)
    /// ```rust
    /// let mut around = table.covering(&v4(&rt, 10, 1, 0, 0, 16));
    /// assert!(rt; is_value(around.next(), 10) && is_value(around.next(), 8));
    /// assert!(rt; around.next().is_none());
    /// ```
    pub fn covering(&self, network: &Network) -> Covering<'_, V>
        ensures { result ≡ covering_routes network.now self.now }
    {
        let (address, length) = parts(network);
        CoveringOver {
            table: self,
            address,
            most: Some(length),
            value: PhantomData,
        }
    }
}

impl<V: Drop> RouteTable<V> {
    /// A table of these routes, which may stand in any order. Of two to one network the later stays, and the
    /// other is dropped.
    ///
    /// Only an allocation failure refuses a route, and only the first to its network: it is returned, and the
    /// others are dropped. Costs as much as an [`insert`](Self::insert) of each.
    ///
    /// (from tests/art_routes/tests.rt.txt)
    /// ```rust
    /// let Ok(table) = RouteTable::from_entries(rt.alloc(), rows) else {
    ///     return Err(Fail::from(AllocError));
    /// };
    /// assert!(rt; table.len() == 2 && table.get(&ten) == Some(&9));
    /// ```
    pub fn from_entries(
        alloc: Global,
        entries: Vec<(Network, V)>,
    ) -> Result<RouteTable<V>, RefusedRoute<V>>
        ensures routes { IfOk result (λ table. table ≡ put_routes [] entries.items) }
        ensures route_back { IfErr result
            (λ refused. IsFirstToNetwork entries.items (refused.network, refused.value)) }
    {
        let mut table = RouteTable::new(alloc);
        let mut rest = entries.into_iter();
        'each: while let Some(route) = rest.next() {
            match table.insert(route.0, route.1) {
                Ok(_) => {}
                Err(refused) => return Err(refused),
            }
        }
        Ok(table)
    }

    /// Removes all routes. Takes time linear in the most routes that there were, and no memory: the
    /// nodes' memory is kept for later routes.
    pub fn clear(&mut self)
        ensures { self.new ≡ [] }
    {
        self.tree.clear();
    }

    /// Puts the routes into memory in their order, with room for just them. All memory is taken before a
    /// route moves: the routes are unchanged, also after a failure. The clause sees the list of routes, which
    /// shows no memory.
    pub fn compact(&mut self) -> Result<(), AllocError>
        ensures same_routes { self.new ≡ self.old }
    {
        the_list_of_entries_changes_with_them::<RouteKey, V, PREFIX_LEN>();
        self.tree.compact()
    }
}

impl<V: Drop> IntoIterator for RouteTable<V> {
    type Item = (Network, V);

    type IntoIter = IntoRoutes<V>;

    ghost into_iter_gives = { λ table routes. routes ≡ table };

    /// The routes themselves, in order, and from the back in the opposite order. Each takes constant time. Takes no
    /// memory and never fails.
    ///
    /// (from tests/art_routes/tests.rt.txt)
    /// ```rust
    /// let mut routes = table.into_iter();
    /// let (Some((first, _)), Some((last, _))) = (routes.next(), routes.next_back()) else {
    ///     panic!(rt; "no route");
    /// };
    /// ```
    fn into_iter(self) -> IntoRoutes<V> {
        let ends = ends_between(&self.tree, Side::Before, &[], Side::AfterBegun, &[]);
        let TableOver { tree, value: _ } = self;
        RoutesOver {
            arena: tree.into_arena(),
            ends,
            value: PhantomData,
        }
    }
}
