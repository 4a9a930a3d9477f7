//! A leaf that is likely the floor of a query, by the bytes that nodes store.
ghost use Rattle.std.specs.Prelude.{◌≡◌, ◌<◌, ◌+◌, ◌^◌, ℕ, IfSome};
ghost use Rattle.art_arena.specs.Standing.{TreeAt};
ghost use Rattle.art_index.specs.Descent.{IsDeep, StaysIn, StaysBelow};
ghost use Rattle.art_index.specs.Places.{IsPlaced};

use crate::search::{Step, compare_at, leaf_up_to, step_past_prefix};
use art_arena::{End, LeafPtr, NodeArena};
use art_bytes::AsBytes;
use art_keys::{RadixKey, RadixQuery};
use art_nodes::{InnerNodeRead, OpaqueNodePtr};
use art_tree::ArtTree;
use std::cmp::Ordering;

// Where a query likely goes from an inner node: what the node does not store of its prefix is skipped.
#[inline(always)]
fn likely_step_from_inner<
    A: AsBytes,
    V,
    const PREFIX_LEN: usize,
    N: InnerNodeRead<A, V, PREFIX_LEN>,
    K: RadixKey,
    Q: RadixQuery<K>,
>(node: &N, at: OpaqueNodePtr<A, V, PREFIX_LEN>, depth: usize, query: Q) -> Step<A, V, PREFIX_LEN>
    requires { depth + (N.inner node.now).prefix_len + 1 < 2 ^ 64 }
    ensures { StaysIn (N.inner node.now) at (depth + (N.inner node.now).prefix_len) result }
{
    let stored = node.stored_prefix();
    match compare_at(query, depth, stored) {
        Ordering::Less => Step::Beside(at, End::Last),
        Ordering::Equal => step_past_prefix(node, at, depth + node.prefix_len(), query),
        Ordering::Greater => Step::Beside(at, End::First),
    }
}

// Where a query likely goes from a node of any kind.
#[inline(always)]
fn likely_step<A: AsBytes, V, const PREFIX_LEN: usize, K: RadixKey, Q: RadixQuery<K>>(
    arena: &NodeArena<A, V, PREFIX_LEN>,
    at: OpaqueNodePtr<A, V, PREFIX_LEN>,
    depth: usize,
    query: Q,
) -> Step<A, V, PREFIX_LEN>
    requires { IsDeep A.text arena.now at depth }
    ensures { StaysBelow A.text arena.now depth result }
{
    let Some(node) = arena.node_ref(at).inner() else {
        return Step::Beside(at, End::Last);
    };
    likely_step_from_inner(&node, at, depth, query)
}

// The node at the root or below that is likely beside the query, and at which of its ends.
fn node_likely_beside<A: AsBytes, V, const PREFIX_LEN: usize, K: RadixKey, Q: RadixQuery<K>>(
    arena: &NodeArena<A, V, PREFIX_LEN>,
    root: OpaqueNodePtr<A, V, PREFIX_LEN>,
    query: Q,
) -> (OpaqueNodePtr<A, V, PREFIX_LEN>, End)
    requires { IsDeep A.text arena.now root 0 }
    ensures { TreeAt A.text arena.now result.0 }
{
    let mut at = root;
    let mut depth = 0;
    'way: loop {
        match likely_step(arena, at, depth, query) {
            Step::Down(child, below) => {
                at = child;
                depth = below;
            }
            Step::Beside(node, end) => {
                return (node, end);
            }
        }
    }
}

/// A leaf of the tree that is likely the [`floor`](crate::floor) of the query, or None. Whether it is,
/// its page shows: where the query is between two of the page's keys, no other page has it.
///
/// One descent that compares only what nodes store, and reads no anchor. Takes no memory.
pub fn likely_floor<A: AsBytes, V, const PREFIX_LEN: usize, K: RadixKey, Q: RadixQuery<K>>(
    tree: &ArtTree<A, V, PREFIX_LEN>,
    query: Q,
) -> Option<LeafPtr<A, V, PREFIX_LEN>>
    ensures { IfSome result (IsPlaced A.text tree.now.arena) }
{
    let root = tree.root()?;
    let arena = tree.arena();
    let (node, end) = node_likely_beside(arena, root, query);
    leaf_up_to(arena, node, end)
}
