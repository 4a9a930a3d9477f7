//! The routes to parts of a network with none between, one after another.
ghost use Rattle.std.specs.Iterator.{YieldsFirstBy, item_count};
ghost use Rattle.art_routes.specs.Tables.{route_now};

use crate::covering::ShowsRoutes;
use crate::network::{Network, last_of};
use crate::table::RouteTable;
use std::iter::FusedIterator;
use std::marker::{Model, PhantomData};

/// The routes of a table `T` to parts of a network with none between that are left. Callers name it [`Children`].
#[derive(Drop)]
pub struct ChildrenOver<T: ShowsRoutes<V>, V> {
    pub(crate) table: T,
    pub(crate) network: Network,
    /// The next route is the first behind this network, or None where all are yielded.
    pub(crate) after: Option<Network>,
    pub(crate) value: PhantomData<V>,
}

impl<T: ShowsRoutes<V>, V> Model for ChildrenOver<T, V> {
    ghost use Rattle.std.specs.Prelude.{List};
    ghost use Rattle.art_routes.specs.Children.{IsWalk, children_left};
    ghost use Rattle.art_routes.specs.Networks.{Block};

    ghost Value = { List (Block × V) };

    ghost view = { λ left. children_left left.network left.after (T.routes left.table) };

    ghost invariant = { λ left. IsWalk left.network left.after (T.routes left.table) };
}

/// Routes of a table to parts of a network with none between that are left, in order. Contracts see their list.
pub type Children<'a, V> = ChildrenOver<&'a RouteTable<V>, V>;

impl<'a, V> Iterator for Children<'a, V> {
    type Item = (Network, &'a V);

    ghost next_gives = { YieldsFirstBy route_now (λ rest. rest) };

    ghost remaining = { item_count (λ rest. rest) };

    fn next(&mut self) -> Option<(Network, &'a V)> {
        let after = self.after?;
        self.table.routes_ascend();
        match self.table.next_covered(&self.network, &after) {
            Some(route) => {
                self.after = Some(last_of(&route.0));
                Some(route)
            }
            None => {
                self.after = None;
                None
            }
        }
    }
}

impl<'a, V> FusedIterator for Children<'a, V> {}
