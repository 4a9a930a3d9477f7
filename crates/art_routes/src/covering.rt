//! The routes that cover a network, one after another.
ghost use Rattle.std.specs.Iterator.{YieldsFirstBy, item_count};
ghost use Rattle.art_routes.specs.Tables.{route_now};

use crate::address::Address;
use crate::network::Network;
use crate::table::RouteTable;
use std::iter::FusedIterator;
use std::marker::{Model, PhantomData};

/// What shows routes: a table that is read.
pub trait ShowsRoutes<V>: Sized {
    ghost use Rattle.std.specs.Prelude.{List};
    ghost use Rattle.art_routes.specs.Networks.{Block};

    /// Its routes.
    ghost routes: { Self → List (Block × V) };
}

impl<'a, V> ShowsRoutes<V> for &'a RouteTable<V> {
    ghost routes = { λ table. table.now };
}

/// The routes of a table `T` that cover a network and are left. Callers name it [`Covering`].
#[derive(Drop)]
pub struct CoveringOver<T: ShowsRoutes<V>, V> {
    pub(crate) table: T,
    /// The first address of the network.
    pub(crate) address: Address,
    /// The length that the next route has at most, or None where all are yielded.
    pub(crate) most: Option<u8>,
    pub(crate) value: PhantomData<V>,
}

impl<T: ShowsRoutes<V>, V> Model for CoveringOver<T, V> {
    ghost use Rattle.std.specs.Prelude.{List};
    ghost use Rattle.art_routes.specs.Keys.{IsSearch, covering_left};
    ghost use Rattle.art_routes.specs.Networks.{Block};

    ghost Value = { List (Block × V) };

    ghost view = { λ left. covering_left left.address left.most (T.routes left.table) };

    ghost invariant = { λ left. IsSearch left.address left.most };
}

/// Routes of a table that cover a network and are left, the longest first. Contracts see their list.
pub type Covering<'a, V> = CoveringOver<&'a RouteTable<V>, V>;

impl<'a, V> Iterator for Covering<'a, V> {
    type Item = (Network, &'a V);

    ghost next_gives = { YieldsFirstBy route_now (λ rest. rest) };

    ghost remaining = { item_count (λ rest. rest) };

    fn next(&mut self) -> Option<(Network, &'a V)> {
        let most = self.most?;
        self.table.routes_ascend();
        match self.table.longest_over(self.address, most) {
            Some(route) => {
                self.most = route.0.length().checked_sub(1);
                Some(route)
            }
            None => {
                self.most = None;
                None
            }
        }
    }
}

impl<'a, V> FusedIterator for Covering<'a, V> {}
