//! Calls of a table that remove many routes: those inside a network, or those that a closure does not keep.
ghost use Rattle.std.specs.Prelude.{◌≡◌, ◌∷◌, [], IfNone, IfOk, IfSome, OnErr, OnOk, length, map};
ghost use Rattle.std.specs.Map.Calls.{CallableOnEachPair, CalledAtPair, RetainsPairs, TakesPair};
ghost use Rattle.art_nodes.specs.declared.pointers.OpaqueNodePtr.{OpaqueNodePtr as Pointer};
ghost use Rattle.art_routes.specs.Keys.{key_text};
ghost use Rattle.art_routes.specs.Networks.{Block};
ghost use Rattle.art_routes.specs.Removing.{LosesFirstCovered, without_covered};
ghost use Rattle.art_routes.specs.Retaining.{StopsRetaining};
ghost use Rattle.art_routes.specs.Shrinking.{NeedsNode};
ghost use Rattle.art_routes.specs.Tables.{covered as covered_routes};

use crate::leaves::walk::retain_each;
use crate::network::Network;
use crate::route_key::{RouteKey, network_from};
use crate::table::RouteTable;
use crate::way::PREFIX_LEN;
use std::alloc::AllocError;

impl<V> RouteTable<V> {
    // The first network inside this one that has a route.
    fn first_covered(&self, network: &Network) -> Option<Network>
        ensures none { IfNone result (covered_routes network.now self.now ≡ []) }
        ensures first { IfSome result (λ first. (route : _) × (rest : _)
            × (covered_routes network.now self.now ≡ route ∷ rest) × (first ≡ route.0)) }
    {
        match self.covered(network).next() {
            Some(route) => Some(route.0),
            None => None,
        }
    }
}

impl<V: Drop> RouteTable<V> {
    /// Removes the routes to this network and to parts of it, and returns how many there were.
    ///
    /// Each removal may fail where [`remove`](Self::remove) of the network would, and nowhere else. Then the routes
    /// inside the network before that one are gone, and all others are as they were: the call may be made again.
    ///
    /// Each costs as much as [`covered`](Self::covered) and [`remove`](Self::remove).
    ///
    /// (from tests/art_routes/tests/removing.rt.txt)
    /// ```rust
    /// assert!(rt; table.remove_covered(&eight)? == 3 && table.len() == 4);
    /// ```
    pub fn remove_covered(&mut self, network: &Network) -> Result<usize, AllocError>
        ensures count { IfOk result (λ count. count ≡ length (covered_routes network.now self.old)) }
        ensures routes { OnOk result (self.new ≡ without_covered network.now self.old) }
        ensures stopped { OnErr result (LosesFirstCovered network.now
            (λ refused. NeedsNode (Pointer Block V PREFIX_LEN) (map (λ route. key_text route.0) self.new) (key_text refused))
            self.old self.new) }
    {
        let count = self.len();
        self.remove_each(network)?;
        Ok(count - self.len())
    }

    // Removes the routes inside a network, the first of them first.
    fn remove_each(&mut self, network: &Network) -> Result<(), AllocError>
        ensures routes { OnOk result (self.new ≡ without_covered network.now self.old) }
        ensures stopped { OnErr result (LosesFirstCovered network.now
            (λ refused. NeedsNode (Pointer Block V PREFIX_LEN) (map (λ route. key_text route.0) self.new) (key_text refused))
            self.old self.new) }
    {
        'each: while let Some(first) = self.first_covered(network) {
            self.routes_ascend();
            self.remove(&first)?;
        }
        Ok(())
    }

    /// Calls the closure at each route, in order, and removes those at which it returns `false`. It may change the value
    /// of those that it keeps.
    ///
    /// Each removal may fail where [`remove`](Self::remove) of the network would, and nowhere else. Then the closure is
    /// not called again: this route stays, with the value that the closure left there, and the routes behind it are
    /// unchanged. The routes before it are kept or gone as the closure said.
    ///
    /// Each route takes constant time beside its call, and each removal costs as much as [`remove`](Self::remove).
    ///
    /// (from tests/art_routes/tests/removing.rt.txt)
    /// ```rust
    /// table.retain(|network, value| {
    ///     calls += 1;
    ///     *value += 1;
    ///     network.length() > 8
    /// })?;
    /// ```
    pub fn retain<F: FnMut(&Network, &mut V) -> bool>(&mut self, mut f: F) -> Result<(), AllocError>
        requires { CallableOnEachPair (CalledAtPair F.FnMut) (TakesPair F.FnMut) f self.old }
        ensures retained { OnOk result (RetainsPairs (CalledAtPair F.FnMut) f self.old self.new) }
        ensures stopped { OnErr result (StopsRetaining (CalledAtPair F.FnMut)
            (λ network. NeedsNode (Pointer Block V PREFIX_LEN) (map (λ route. key_text route.0) self.new) (key_text network))
            f self.old self.new) }
    {
        let keep = |key: &RouteKey, value: &mut V| -> bool
            requires { TakesPair F.FnMut f key.now value.old }
            ensures { CalledAtPair F.FnMut f.entry key.now value.old result value.new f.exit }
        { f(&network_from(key), value) };
        let result = retain_each(&mut self.tree, keep);
        let _arena = self.tree.arena();
        result
    }
}
