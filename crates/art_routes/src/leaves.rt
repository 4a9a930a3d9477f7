//! The leaves of the tree of a table: runs of them by their links, and walks along them.

pub(crate) mod nearest;
pub(crate) mod range;
pub(crate) mod run;
pub(crate) mod walk;

use crate::route_key::RouteKey;
use crate::way::PREFIX_LEN;
use art_tree::{ArtTree, LeafPtr, NodeArena};

/// The tree of a table.
pub(crate) type RouteTree<V> = ArtTree<RouteKey, V, PREFIX_LEN>;

/// The arena of its nodes.
pub(crate) type RouteArena<V> = NodeArena<RouteKey, V, PREFIX_LEN>;

/// A leaf of it, by its pointer.
pub(crate) type RouteLeaf<V> = LeafPtr<RouteKey, V, PREFIX_LEN>;
