//! The ends of the leaves between two sides of keys.
ghost use Rattle.std.specs.Prelude.{◌≡◌, filter};
ghost use Rattle.art_tree.specs.Entries.{entries_of};
ghost use Rattle.art_steps.specs.Sides.{is_before};
ghost use Rattle.art_routes.specs.Keys.{key_text};
ghost use Rattle.art_routes.specs.NearestLeaves.{is_between};
ghost use Rattle.art_routes.specs.LeafRuns.{run_entries, IsRun};

use crate::leaves::RouteTree;
use crate::leaves::nearest::leaf_toward;
use crate::leaves::run::Ends;
use art_bytes::AsBytes;
use art_tree::{End, Side, leaves_beside};

/// Whether a text comes before this side of the key.
pub(crate) fn is_before(side: Side, key: &[u8], text: &[u8]) -> bool
    ensures { result ≡ is_before side key.now text.now }
{
    let order = text.cmp(key);
    match side {
        Side::Before => order.is_lt(),
        Side::After => order.is_le(),
        Side::AfterBegun => order.is_lt() || text.starts_with(key),
    }
}

/// The first and the last leaf after the one side and before the other, if there is one. Takes no
/// memory.
pub(crate) fn ends_between<V>(
    tree: &RouteTree<V>,
    start_side: Side,
    start: &[u8],
    end_side: Side,
    end: &[u8],
) -> Option<Ends<V>>
    ensures run { IsRun tree.now.arena result }
    ensures entries { run_entries tree.now.arena result ≡ filter
        (λ entry. is_between start_side start.now end_side end.now (key_text entry.0))
        (entries_of key_text tree.now.arena) }
{
    let root = tree.root()?;
    let arena = tree.arena();
    let (from, to) = leaves_beside(arena, root, start, start_side, end, end_side);
    let first = leaf_toward(arena, from, End::First)?;
    let last = leaf_toward(arena, to, End::Last)?;
    let text = arena.as_ref(first).key_ref().as_bytes();
    if is_before(end_side, end, text) {
        Some((first, last))
    } else {
        None
    }
}
