//! Fewer routes by which each address has the same value.
ghost use Rattle.std.specs.Prelude.{◌≡◌, ◌<◌, ◌∷◌, [], Contains, MatchOption, OnErr, OnOk, Some, length};
ghost use Rattle.art_nodes.specs.declared.pointers.OpaqueNodePtr.{OpaqueNodePtr as Pointer};
ghost use Rattle.art_routes.specs.AggregateSteps.{FewerOr, IsCovered, IsHalf, SaysOfHalf, SaysOfParent, left_behind};
ghost use Rattle.art_routes.specs.Aggregates.{IsAggregated, IsNeeded, MatchAlike, NeedsMemory};
ghost use Rattle.art_routes.specs.Networks.{Block, IsNetwork};
ghost use Rattle.art_routes.specs.Tables.{without_route};
ghost use Rattle.art_routes.specs.declared.address.Address.{Address};

use crate::difference::are_equal;
use crate::network::{Network, network_at, parts};
use crate::routes::Routes;
use crate::table::RouteTable;
use crate::way::PREFIX_LEN;
use std::alloc::AllocError;

// The other half of the network around this one, and that network, where this is the right half.
fn left_half(network: &Network) -> Option<(Network, Network)>
    ensures network { IsNetwork network.now }
    ensures half { IsHalf network.now result }
{
    let (address, length) = parts(network);
    if length == 0 {
        return None;
    }
    let whole = network_at(address, length - 1);
    let (first, _) = parts(&whole);
    if first.bits == address.bits {
        return None;
    }
    Some((network_at(first, length), whole))
}

// The first of these routes.
fn first_of<V: Copy>(mut routes: Routes<'_, V>) -> Option<(Network, V)>
    ensures { MatchOption result (routes.entry ≡ []) (λ route. (rest : _) × (routes.entry ≡ route ∷ rest)) }
{
    match routes.next() {
        Some(route) => Some((route.0, *route.1)),
        None => None,
    }
}

impl<V: Copy + PartialEq> RouteTable<V> {
    // Whether the longest route around a network has this value.
    fn parent_has(&self, network: &Network, value: &V) -> bool
        ensures { SaysOfParent V.eq self.now network.now value.now result }
    {
        self.routes_ascend();
        let _is = parts(network);
        match self.parent(network) {
            Some(route) => are_equal(value, route.1),
            None => false,
        }
    }

    // The left half beside a network and the whole of both, where that half has a route with this value.
    fn half_has(&self, network: &Network, value: &V) -> Option<(Network, Network)>
        ensures { SaysOfHalf V.eq self.now network.now value.now result }
    {
        self.routes_ascend();
        let Some(half) = left_half(network) else {
            return None;
        };
        let Some(other) = self.get(&half.0) else {
            return None;
        };
        if are_equal(other, value) {
            Some(half)
        } else {
            None
        }
    }

    // Removes a route that has the value of the longest one around it.
    fn remove_repeated(&mut self, network: &Network) -> Result<(), AllocError>
        requires covered { IsCovered V.eq self.old network.now }
        ensures same_matches { (address : Address) → MatchAlike V.eq self.old self.new address }
        ensures fewer { OnOk result (length self.new < length self.old) }
        ensures routes { OnOk result (self.new ≡ without_route self.old network.now) }
        ensures refused { OnErr result (NeedsMemory V.eq (Pointer Block V PREFIX_LEN) self.new) }
    {
        self.routes_ascend();
        self.remove(network)?;
        Ok(())
    }

    // Puts one route in place of those to both halves of a network, which have one value.
    fn merge(
        &mut self,
        left: &Network,
        right: &Network,
        whole: Network,
        value: V,
    ) -> Result<(), AllocError>
        requires right { Contains self.old (right.now, value) }
        requires left { SaysOfHalf V.eq self.old right.now value (Some (left.now, whole)) }
        ensures same_matches { (address : Address) → MatchAlike V.eq self.old self.new address }
        ensures fewer { OnOk result (length self.new < length self.old) }
        ensures refused { OnErr result (NeedsMemory V.eq (Pointer Block V PREFIX_LEN) self.new) }
    {
        self.routes_ascend();
        match self.insert(whole, value) {
            Ok(_) => {}
            Err(_) => return Err(AllocError),
        }
        self.routes_ascend();
        self.remove_repeated(left)?;
        self.routes_ascend();
        self.remove_repeated(right)?;
        Ok(())
    }

    // Removes a route that has the value of the longest one around it, or else puts one in place of it and of that to
    // the half before it, where these have one value. Leaves a route of which neither is so.
    fn step(&mut self, network: &Network, value: V) -> Result<(), AllocError>
        requires listed { Contains self.old (network.now, value) }
        ensures same_matches { (address : Address) → MatchAlike V.eq self.old self.new address }
        ensures fewer { OnOk result (FewerOr self.old self.new (λ routes. IsNeeded V.eq routes (network.now, value))) }
        ensures refused { OnErr result (NeedsMemory V.eq (Pointer Block V PREFIX_LEN) self.new) }
    {
        if self.parent_has(network, &value) {
            return self.remove_repeated(network);
        }
        let Some(half) = self.half_has(network, &value) else {
            self.routes_ascend();
            return Ok(());
        };
        self.merge(&half.0, network, half.1, value)
    }

    // The first route behind a network, or of all.
    fn route_behind(&self, after: Option<Network>) -> Option<(Network, V)>
        ensures { MatchOption result (left_behind after self.now ≡ [])
            (λ route. (rest : _) × (left_behind after self.now ≡ route ∷ rest)) }
    {
        match after {
            Some(network) => first_of(self.iter_after(&network)),
            None => first_of(self.iter()),
        }
    }

    // One step at each route, in order.
    fn pass(&mut self) -> Result<(), AllocError>
        ensures same_matches { (address : Address) → MatchAlike V.eq self.old self.new address }
        ensures fewer { OnOk result (FewerOr self.old self.new (λ routes. IsAggregated V.eq routes)) }
        ensures refused { OnErr result (NeedsMemory V.eq (Pointer Block V PREFIX_LEN) self.new) }
    {
        let mut after = None;
        'each: while let Some(route) = self.route_behind(after) {
            self.routes_ascend();
            self.step(&route.0, route.1)?;
            after = Some(route.0);
        }
        Ok(())
    }

    /// Drops each route that has the value of the longest one around it, and puts one in place of two to the halves of a
    /// network that have one value, until no route is left of which that is so. The longest match of each address has
    /// the value that it had, by `==`, and where none did none does.
    ///
    /// Only an allocation failure refuses it, of a route that is put for two halves whose network has none, or, as that of
    /// a [`remove`](Self::remove), of a route that is dropped. Some of this may then be done: the matches have their values
    /// as before. So it is never refused where there is nothing to do.
    ///
    /// Goes along the table until nothing changes, since what is put for two halves may be a half itself: mostly a few
    /// times. Each time a route costs a [`parent`](Self::parent) and at most one [`get`](Self::get).
    ///
    /// (from tests/art_routes/tests/aggregates.rt.txt)
    /// ```rust
    /// table.aggregate()?;
    /// ```
    pub fn aggregate(&mut self) -> Result<(), AllocError>
        ensures same_matches { (address : Address) → MatchAlike V.eq self.old self.new address }
        ensures aggregated { OnOk result (IsAggregated V.eq self.new) }
        ensures refused { OnErr result (NeedsMemory V.eq (Pointer Block V PREFIX_LEN) self.new) }
    {
        'passes: loop {
            self.routes_ascend();
            let before = self.len();
            self.pass()?;
            if self.len() == before {
                return Ok(());
            }
        }
    }
}
