//! What holds the routes of a table.

use crate::leaves::RouteTree;

/// What holds routes as entries by the keys of their networks: the tree of a table.
pub trait HoldsRoutes<V>: Sized {
    ghost use Rattle.std.specs.Prelude.{List};
    ghost use Rattle.art_routes.specs.Networks.{Block};

    /// Its routes.
    ghost routes: { Self → List (Block × V) };
}

impl<V> HoldsRoutes<V> for RouteTree<V> {
    ghost use Rattle.art_tree.specs.Entries.{entries_of};
    ghost use Rattle.art_routes.specs.Keys.{key_text};

    ghost routes = { λ tree. entries_of key_text tree.arena };
}
