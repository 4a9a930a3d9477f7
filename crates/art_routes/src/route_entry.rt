//! The route to a network in a table, whether it is there or not.
ghost use Rattle.std.specs.Prelude.{◌≡◌, ◌≢◌, IfErr, IfOk, IsSome, None, OnErr, OnOk, Some, map};
ghost use Rattle.std.specs.Borrow.{MutBor, sem};
ghost use Rattle.std.specs.Fn.{FnOnceReturnsAtMut};
ghost use Rattle.std.specs.Option.{UnwrapsOrElse, is_some, option_copied, option_copied_mut, unwrap_or};
ghost use Rattle.art_nodes.specs.declared.pointers.OpaqueNodePtr.{OpaqueNodePtr as Pointer};
ghost use Rattle.art_routes.specs.Keys.{key_text};
ghost use Rattle.art_routes.specs.Lending.{LendsRoute};
ghost use Rattle.art_routes.specs.Networks.{Block};
ghost use Rattle.art_routes.specs.RouteEntries.{LendsPutRoute, entry_network, entry_table, is_route_listed};
ghost use Rattle.art_routes.specs.Shrinking.{NeedsNode};
ghost use Rattle.art_routes.specs.Tables.{put_route, route_value, routes_with_value, without_route};

use crate::network::Network;
use crate::refused_route::RefusedRoute;
use crate::route_key::key_of;
use crate::table::RouteTable;
use crate::way::PREFIX_LEN;
use std::alloc::AllocError;
use std::mem;

/// A route that is there, in a table `T`. Callers name it [`OccupiedRoute`].
#[derive(Drop)]
pub struct OccupiedRouteOver<'a, T> {
    table: &'a mut T,
    network: Network,
}

/// A network without a route, in a table `T`. Callers name it [`VacantRoute`].
#[derive(Drop)]
pub struct VacantRouteOver<'a, T> {
    table: &'a mut T,
    network: Network,
}

/// The route to a network, in a table `T`. Callers name it [`RouteEntry`].
#[derive(Drop)]
pub enum RouteEntryOver<'a, T> {
    /// The route is there.
    Occupied(OccupiedRouteOver<'a, T>),
    /// There is none.
    Vacant(VacantRouteOver<'a, T>),
}

/// The route to a network in a table, as [`entry`](crate::TableOver::entry) returns it.
///
/// A table in which 10.0.0.0/8 has the value 8:
///
/// (from tests/art_routes/tests/entries.rt.txt)
/// ```rust
/// match table.entry(eight) {
///     RouteEntry::Occupied(route) => {
///         assert!(rt; route.network() == eight && route.get() == Some(&8));
///         assert!(rt; route.remove()? == Some(8));
///     }
///     RouteEntry::Vacant(_) => panic!(rt; "no route"),
/// }
/// ```
pub type RouteEntry<'a, V> = RouteEntryOver<'a, RouteTable<V>>;

/// A route that is there: its value, to be read, changed or removed.
///
/// Each call goes down to the route again. That it is there is known to a caller by the clause `occupied` of
/// [`entry`](crate::TableOver::entry), and not to the type, so what is looked up is in an `Option`.
pub type OccupiedRoute<'a, V> = OccupiedRouteOver<'a, RouteTable<V>>;

/// A network without a route, which may be added.
pub type VacantRoute<'a, V> = VacantRouteOver<'a, RouteTable<V>>;

impl<V> RouteTable<V> {
    /// A mutable reference to the value of the route to this network. Where there is none, one with the value that the
    /// closure makes is added first. The table ends with the value that the caller leaves there.
    ///
    /// Where the route is there, its value stays, and nothing that the closure makes is used: a test sees that it is not
    /// called, and no clause says so. Only an allocation failure refuses a route, and only one to a network that has
    /// none: network and value are returned, and the routes are unchanged. Costs as much as [`insert`](Self::insert).
    ///
    /// (from tests/art_routes/tests/entries.rt.txt)
    /// ```rust
    /// *table.get_or_insert_with(nine, || 9)? += 1;
    /// assert!(rt; table.get(&nine) == Some(&10));
    /// ```
    pub fn get_or_insert_with<F: FnOnce() -> V>(
        &mut self,
        network: Network,
        make: F,
    ) -> Result<&mut V, RefusedRoute<V>>
        requires { F.pre make }
        ensures* writes_back { sem 𝓛 (LendsPutRoute V.row self.entry network result) }
        ensures value { IfOk result
            (λ lent. UnwrapsOrElse (route_value self.old network) (F.post make) lent.now) }
        ensures route_back { IfErr result
            (λ refused. (refused.network ≡ network) × F.post make refused.value) }
        ensures no_route { OnErr result (route_value self.old network ≡ None) }
    {
        let _arena = self.tree.arena();
        match self.tree.get_or_insert_with(key_of(&network), make) {
            Ok(value) => Ok(value),
            Err(fault) => Err(RefusedRoute {
                network,
                value: fault.value,
            }),
        }
    }

    /// The route to this network, whether it is there or not: to be read, changed, added or removed. If it is dropped,
    /// the table is as it was. Costs as much as [`get`](Self::get), and each call of the entry as much as the call of the
    /// table that does the same; so [`get_or_insert_with`](Self::get_or_insert_with) spares a descent. Takes no memory.
    ///
    /// (from tests/art_routes/tests/entries.rt.txt)
    /// ```rust
    /// *table.entry(nine).or_insert(9)? += 1;
    /// *table.entry(eight).or_insert(9)? += 1;
    /// assert!(rt; table.get(&nine) == Some(&10) && table.get(&eight) == Some(&9));
    /// ```
    pub fn entry(&mut self, network: Network) -> RouteEntry<'_, V>
        ensures same_table { (entry_table result).ghost_name ≡ self.entry.ghost_name }
        ensures same_routes { (entry_table result).now ≡ self.old }
        ensures network { entry_network result ≡ network }
        ensures occupied { is_route_listed result ≡ is_some (route_value self.old network) }
    {
        if self.get(&network).is_some() {
            return RouteEntry::Occupied(OccupiedRouteOver {
                table: self,
                network,
            });
        }
        RouteEntry::Vacant(VacantRouteOver {
            table: self,
            network,
        })
    }
}

impl<'a, V: Drop> RouteEntry<'a, V> {
    /// The network that was looked for.
    pub fn network(&self) -> Network
        ensures { result ≡ entry_network self.now }
    {
        match self {
            RouteEntry::Occupied(route) => route.network,
            RouteEntry::Vacant(route) => route.network,
        }
    }

    /// A mutable reference to the value of the route. Where there is none, it is added with this value first. The table
    /// ends with the value that the caller leaves there.
    ///
    /// Only a network without a route is refused, as [`insert`](RouteTable::insert) refuses it, with network and value; the
    /// routes are then unchanged. Costs as much as [`get_or_insert_with`](RouteTable::get_or_insert_with).
    pub fn or_insert(self, value: V) -> Result<&'a mut V, RefusedRoute<V>>
        ensures* writes_back { sem 𝓛 (LendsPutRoute V.row (entry_table self.entry) (entry_network self.entry) result) }
        ensures value { IfOk result (λ lent. lent.now
            ≡ unwrap_or (route_value (entry_table self.entry).now (entry_network self.entry)) value) }
        ensures route_back { IfErr result
            (λ refused. (refused.network ≡ entry_network self.entry) × (refused.value ≡ value)) }
        ensures no_route { OnErr result (route_value (entry_table self.entry).now (entry_network self.entry) ≡ None) }
    {
        self.or_insert_with(move || value)
    }

    /// As [`or_insert`](Self::or_insert), with the value that the closure makes. Where the route is there, the closure is
    /// not called: a test sees that, and no clause says it.
    pub fn or_insert_with<F: FnOnce() -> V>(self, make: F) -> Result<&'a mut V, RefusedRoute<V>>
        requires { F.pre make }
        ensures* writes_back { sem 𝓛 (LendsPutRoute V.row (entry_table self.entry) (entry_network self.entry) result) }
        ensures value { IfOk result (λ lent. UnwrapsOrElse
            (route_value (entry_table self.entry).now (entry_network self.entry)) (F.post make) lent.now) }
        ensures route_back { IfErr result
            (λ refused. (refused.network ≡ entry_network self.entry) × F.post make refused.value) }
        ensures no_route { OnErr result (route_value (entry_table self.entry).now (entry_network self.entry) ≡ None) }
    {
        match self {
            RouteEntry::Occupied(route) => {
                let OccupiedRouteOver { table, network } = route;
                table.get_or_insert_with(network, make)
            }
            RouteEntry::Vacant(route) => {
                let VacantRouteOver { table, network } = route;
                table.get_or_insert_with(network, make)
            }
        }
    }
}

impl<'a, V: Drop> OccupiedRoute<'a, V> {
    /// The network of the route.
    pub fn network(&self) -> Network
        ensures { result ≡ self.now.network }
    {
        self.network
    }

    /// The value. Costs as much as [`get`](RouteTable::get) of the table. Takes no memory.
    pub fn get(&self) -> Option<&V>
        ensures { option_copied result ≡ route_value self.now.table.now self.now.network }
    {
        self.table.get(&self.network)
    }

    /// A mutable reference to the value, which the caller may change. Costs as much as [`get`](RouteTable::get) of the
    /// table. Takes no memory.
    ///
    /// No clause says what the table is afterwards: where a proof needs it, take [`insert`](Self::insert) or
    /// [`into_mut`](Self::into_mut).
    ///
    /// (from tests/art_routes/tests/entries.rt.txt)
    /// ```rust
    /// if let Some(value) = route.get_mut() {
    ///     *value += 1;
    /// }
    /// assert!(rt; route.insert(60) == Some(10));
    /// ```
    pub fn get_mut(&mut self) -> Option<&mut V>
        ensures { option_copied_mut result ≡ route_value self.old.table.now self.old.network }
    {
        let OccupiedRouteOver { table, network } = self;
        table.get_mut(network)
    }

    /// Replaces the value, and returns the one that was there. Costs as much as [`get`](RouteTable::get) of the table.
    /// Takes no memory. See [`get_mut`](Self::get_mut) for an example.
    pub fn insert(&mut self, value: V) -> Option<V>
        ensures same_table { self.new.table.ghost_name ≡ self.old.table.ghost_name }
        ensures same_network { self.new.network ≡ self.old.network }
        ensures replaced { result ≡ route_value self.old.table.now self.old.network }
        ensures routes { self.new.table.now ≡ routes_with_value self.old.table.now self.old.network value }
    {
        let held = self.table.get_mut(&self.network)?;
        Some(mem::replace(held, value))
    }

    /// A mutable reference to the value, for as long as the table is borrowed. The table ends with the value that the
    /// caller leaves there. Costs as much as [`get`](RouteTable::get) of the table. Takes no memory.
    pub fn into_mut(self) -> Option<&'a mut V>
        ensures* writes_back { sem 𝓛 (LendsRoute V.row self.entry.table self.entry.network result) }
        ensures value { option_copied_mut result ≡ route_value self.entry.table.now self.entry.network }
    {
        let OccupiedRouteOver { table, network } = self;
        table.get_mut(&network)
    }

    /// Removes the route, and returns its value. Fails and costs as [`remove`](RouteTable::remove) of the table.
    pub fn remove(self) -> Result<Option<V>, AllocError>
        ensures removed { IfOk result (λ value. value ≡ route_value self.entry.table.now self.entry.network) }
        ensures routes { OnOk result (self.exit.0.now ≡ without_route self.entry.table.now self.entry.network) }
        ensures refused { OnErr result (route_value self.entry.table.now self.entry.network ≢ None) }
        ensures needs_node { OnErr result (NeedsNode (Pointer Block V PREFIX_LEN)
            (map (λ route. key_text route.0) self.entry.table.now) (key_text self.entry.network)) }
        ensures same_routes { OnErr result (self.exit.0.now ≡ self.entry.table.now) }
    {
        let OccupiedRouteOver { table, network } = self;
        table.remove(&network)
    }
}

impl<'a, V: Drop> VacantRoute<'a, V> {
    /// The network that was looked for.
    pub fn network(&self) -> Network
        ensures { result ≡ self.now.network }
    {
        self.network
    }

    /// Adds the route with this value, and returns a mutable reference to it. Refused and costs as
    /// [`insert`](RouteTable::insert) of the table, with network and value; the routes are then unchanged.
    pub fn insert(self, value: V) -> Result<&'a mut V, RefusedRoute<V>>
        ensures* writes_back { sem 𝓛 (LendsPutRoute V.row self.entry.table self.entry.network result) }
        ensures value { IfOk result (λ lent. lent.now
            ≡ unwrap_or (route_value self.entry.table.now self.entry.network) value) }
        ensures route_back { IfErr result
            (λ refused. (refused.network ≡ self.entry.network) × (refused.value ≡ value)) }
        ensures no_route { OnErr result (route_value self.entry.table.now self.entry.network ≡ None) }
    {
        let VacantRouteOver { table, network } = self;
        table.get_or_insert_with(network, move || value)
    }
}
