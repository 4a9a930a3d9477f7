//! The routes of a table, one after another.
ghost use Rattle.std.specs.Prelude.{◌≡◌};
ghost use Rattle.std.specs.Iterator.{YieldsFirst, YieldsFirstBy, YieldsLast, YieldsLastBy, item_count};
ghost use Rattle.art_routes.specs.Tables.{route_now};

use crate::leaves::run::{take, take_out};
use crate::leaves::{RouteArena, RouteLeaf};
use crate::network::Network;
use crate::route_key::network_from;
use art_tree::End;
use std::iter::FusedIterator;
use std::marker::{Model, PhantomData};

/// An arena whose leaves, each at an `L`, make runs of routes: that of a table, borrowed or owned.
pub trait HasRuns<L, V>: Sized {
    ghost use Rattle.std.specs.Prelude.{Option, List};
    ghost use Rattle.art_routes.specs.Networks.{Block};

    /// The routes from the leaf at the first end to the leaf at the last, both included, as the links
    /// have them.
    ghost run: { Self → Option (L × L) → List (Block × V) };

    /// Links lead from the one to the other, if there are ends.
    ghost is_run: { Self → Option (L × L) → Type 0 };
}

impl<'a, V> HasRuns<RouteLeaf<V>, V> for &'a RouteArena<V> {
    ghost use Rattle.art_routes.specs.LeafRuns.{run_entries, IsRun};

    ghost run = { λ arena. run_entries arena.now };

    ghost is_run = { λ arena. IsRun arena.now };
}

impl<V> HasRuns<RouteLeaf<V>, V> for RouteArena<V> {
    ghost use Rattle.art_routes.specs.LeafRuns.{run_entries, IsRun};

    ghost run = { run_entries };

    ghost is_run = { IsRun };
}

/// The routes of a run of linked leaves of an arena `A` that are left, in order. Callers name it [`Routes`], or
/// [`IntoRoutes`].
#[derive(Drop)]
pub struct RoutesOver<A: HasRuns<L, V>, L, V> {
    pub(crate) arena: A,
    /// The first leaf that is left and the last one, if any is.
    pub(crate) ends: Option<(L, L)>,
    pub(crate) value: PhantomData<V>,
}

impl<A: HasRuns<L, V>, L, V> Model for RoutesOver<A, L, V> {
    ghost use Rattle.std.specs.Prelude.{List};
    ghost use Rattle.art_routes.specs.Networks.{Block};

    ghost Value = { List (Block × V) };

    ghost view = { λ routes. A.run routes.arena routes.ends };

    ghost invariant = { λ routes. A.is_run routes.arena routes.ends };
}

/// Routes of a table that are left, in order. Contracts see their list.
pub type Routes<'a, V> = RoutesOver<&'a RouteArena<V>, RouteLeaf<V>, V>;

impl<'a, V> Iterator for Routes<'a, V> {
    type Item = (Network, &'a V);

    ghost next_gives = { YieldsFirstBy route_now (λ rest. rest) };

    ghost remaining = { item_count (λ rest. rest) };

    fn next(&mut self) -> Option<(Network, &'a V)> {
        let ends = self.ends?;
        let (key, value, rest) = take(self.arena, ends, End::First);
        self.ends = rest;
        Some((network_from(key), value))
    }
}

impl<'a, V> DoubleEndedIterator for Routes<'a, V> {
    ghost next_back_gives = { YieldsLastBy route_now (λ rest. rest) };

    fn next_back(&mut self) -> Option<(Network, &'a V)> {
        let ends = self.ends?;
        let (key, value, rest) = take(self.arena, ends, End::Last);
        self.ends = rest;
        Some((network_from(key), value))
    }
}

impl<'a, V> FusedIterator for Routes<'a, V> {}

/// The routes of a table that was taken apart, in order, and from the back in the opposite order. Contracts see the list
/// of those that are left. What is left is freed when the iterator is dropped.
pub type IntoRoutes<V> = RoutesOver<RouteArena<V>, RouteLeaf<V>, V>;

impl<V: Drop> Iterator for IntoRoutes<V> {
    type Item = (Network, V);

    ghost next_gives = { YieldsFirst (λ rest. rest) };

    ghost remaining = { item_count (λ rest. rest) };

    fn next(&mut self) -> Option<(Network, V)> {
        let ends = self.ends?;
        let ((key, value), rest) = take_out(&mut self.arena, ends, End::First);
        self.ends = rest;
        Some((network_from(&key), value))
    }
}

impl<V: Drop> DoubleEndedIterator for IntoRoutes<V> {
    ghost next_back_gives = { YieldsLast (λ rest. rest) };

    fn next_back(&mut self) -> Option<(Network, V)> {
        let ends = self.ends?;
        let ((key, value), rest) = take_out(&mut self.arena, ends, End::Last);
        self.ends = rest;
        Some((network_from(&key), value))
    }
}

impl<V: Drop> FusedIterator for IntoRoutes<V> {}
