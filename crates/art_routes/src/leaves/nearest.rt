//! The leaf next to a side of a key.
ghost use Rattle.std.specs.Prelude.{ℕ, List};
ghost use Rattle.std.specs.Option.{option_map};
ghost use Rattle.art_nodes.specs.Pointers.{slab_key};
ghost use Rattle.art_arena.specs.Links.{HoldsLeaf};
ghost use Rattle.art_arena.specs.Trees.{leaves};
ghost use Rattle.art_steps.specs.Art.{IsAlone};
ghost use Rattle.art_search.specs.Search.{leaf_pointer};
ghost use Rattle.art_steps.specs.Sides.{IsBesideKey};
ghost use Rattle.art_steps.specs.declared.place.Side.{Side};
ghost use Rattle.art_routes.specs.Keys.{key_text};
ghost use Rattle.art_routes.specs.NearestLeaves.{IsBesideKeyOrNone};

use crate::leaves::{RouteArena, RouteLeaf};
use art_tree::End;

/// The first leaf after a side of a key, or the last before it, by the leaf beside that side, if there
/// is one.
pub(crate) fn leaf_toward<V>(
    arena: &RouteArena<V>,
    beside: (RouteLeaf<V>, End),
    end: End,
) -> Option<RouteLeaf<V>>
    requires { HoldsLeaf arena.now (slab_key beside.0) }
    ensures { (root whole : _) (side : Side) (key : List ℕ) →
        IsAlone key_text arena.now root whole →
        IsBesideKey side key (leaves whole) beside.1 (leaf_pointer beside.0) →
        IsBesideKeyOrNone side key end (leaves whole) (option_map leaf_pointer result) }
{
    let (leaf, side_of_leaf) = beside;
    match end {
        End::First => match side_of_leaf {
            End::First => Some(leaf),
            End::Last => arena.as_ref(leaf).next(),
        },
        End::Last => match side_of_leaf {
            End::First => arena.as_ref(leaf).previous(),
            End::Last => Some(leaf),
        },
    }
}
