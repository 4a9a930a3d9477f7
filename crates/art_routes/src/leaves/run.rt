//! A run of linked leaves by its two ends: one step from an end toward the other.
ghost use Rattle.std.specs.Prelude.{◌≡◌, Some};
ghost use Rattle.art_nodes.specs.Pointers.{slab_key};
ghost use Rattle.art_arena.specs.Links.{leaf_at};
ghost use Rattle.art_routes.specs.LeafRuns.{at_end, run_entries, IsRun, IsEndAndRest, StepsOver};

use crate::leaves::{RouteArena, RouteLeaf};
use crate::route_key::RouteKey;
use crate::way::PREFIX_LEN;
use art_tree::{End, LeafNode};

/// The first leaf of a run, and the last one.
pub(crate) type Ends<V> = (RouteLeaf<V>, RouteLeaf<V>);

// The leaf at this end.
#[inline(always)]
fn leaf_at_end<V>(ends: Ends<V>, end: End) -> RouteLeaf<V>
    ensures { result ≡ at_end end ends }
{
    match end {
        End::First => ends.0,
        End::Last => ends.1,
    }
}

// The ends of what is left of a run without the leaf at this end, if anything is.
#[inline(always)]
fn ends_without<V>(
    leaf: &LeafNode<RouteKey, V, PREFIX_LEN>,
    ends: Ends<V>,
    end: End,
) -> Option<Ends<V>>
    ensures { (arena : _) → IsRun arena (Some ends) →
        leaf_at arena (slab_key (at_end end ends)) ≡ Some leaf.now →
        StepsOver arena end ends leaf.now result }
{
    let (front, back) = ends;
    if front.key() == back.key() {
        return None;
    }
    match end {
        End::First => match leaf.next() {
            Some(next) => Some((next, back)),
            None => None,
        },
        End::Last => match leaf.previous() {
            Some(previous) => Some((front, previous)),
            None => None,
        },
    }
}

/// The entry at this end of a run, and what is left of the run.
#[inline(always)]
pub(crate) fn take<'a, V>(
    arena: &'a RouteArena<V>,
    ends: Ends<V>,
    end: End,
) -> (&'a RouteKey, &'a V, Option<Ends<V>>)
    requires { IsRun arena.now (Some ends) }
    ensures taken { IsEndAndRest end (run_entries arena.now (Some ends)) (result.0.now, result.1.now)
        (run_entries arena.now result.2) }
    ensures rest { IsRun arena.now result.2 }
{
    let leaf = arena.as_ref(leaf_at_end(ends, end));
    let (key, value) = leaf.entry_ref();
    (key, value, ends_without(leaf, ends, end))
}

/// Takes the entry at this end of a run out of the arena, and returns the ends of what is left.
#[inline(always)]
pub(crate) fn take_out<V>(
    arena: &mut RouteArena<V>,
    ends: Ends<V>,
    end: End,
) -> ((RouteKey, V), Option<Ends<V>>)
    requires { IsRun arena.old (Some ends) }
    ensures taken { IsEndAndRest end (run_entries arena.old (Some ends)) result.0 (run_entries arena.new result.1) }
    ensures rest { IsRun arena.new result.1 }
{
    let leaf = arena.deallocate_node_ptr(leaf_at_end(ends, end));
    let rest = ends_without(&leaf, ends, end);
    (leaf.into_entry(), rest)
}
