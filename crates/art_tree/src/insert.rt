//! Insertion: a new entry in a tree, or a new entry with the key bytes of an old one.
ghost use Rattle.std.specs.Prelude.{◌≡◌, ◌<◌, ◌^◌, length, Some, None, Ok, Err, IfSome};
ghost use Rattle.std.specs.Option.{option_map};
ghost use Rattle.art_steps.specs.Art.{IsArt, IsAlone};
ghost use Rattle.art_steps.specs.Insertion.{AddsEntry, InsertsNew};
ghost use Rattle.art_steps.specs.Places.{Belongs, LacksChild, Parts, present_leaf};
ghost use Rattle.art_search.specs.Search.{EachTree};
ghost use Rattle.art_steps.specs.declared.faults.InsertRefusal.TheVariants.{OutOfMemory};

use art_arena::{LeafPtr, NodeArena, end_leaf};
use art_bytes::AsBytes;
use art_nodes::{LeafNode, OpaqueNodePtr};
use art_steps::{
    InsertFault, InsertRefusal, Mismatch, Place, Spot, add_child, fork_node, is_full,
    leaf_beside_child, link_leaf, near_end, put_child_or_root, reserve_for_child, reserve_for_fork,
    trim,
};

/// The root of a tree, and a place in it.
pub(crate) type RootAndPlace<K, V, const PREFIX_LEN: usize> = (
    OpaqueNodePtr<K, V, PREFIX_LEN>,
    Place<K, V, PREFIX_LEN>,
);

/// The root of a tree, and a leaf of it.
pub(crate) type RootAndLeaf<K, V, const PREFIX_LEN: usize> = (
    OpaqueNodePtr<K, V, PREFIX_LEN>,
    LeafPtr<K, V, PREFIX_LEN>,
);

// Makes a tree of one leaf in an arena that holds nothing, and returns the root and the leaf. On
// allocation failure it returns the entry.
fn insert_first<K: AsBytes, V, const PREFIX_LEN: usize>(
    arena: &mut NodeArena<K, V, PREFIX_LEN>,
    key: K,
    value: V,
) -> Result<RootAndLeaf<K, V, PREFIX_LEN>, (K, V)>
    requires empty { IsArt K.text arena.old None }
    requires short { length (K.text key) < 2 ^ 32 }
    ensures { AddsEntry K.text arena.old arena.new None key value result }
{
    match arena.allocate_node_ptr(LeafNode::with_no_siblings(key, value)) {
        Ok(leaf) => Ok((leaf.to_opaque(), leaf)),
        Err((_, leaf)) => Err(leaf.into_entry()),
    }
}

// Adds a new leaf under a byte of an inner node that has no child there. Returns the root and the
// leaf. On allocation failure it returns the entry.
fn insert_child<K: AsBytes, V, const PREFIX_LEN: usize>(
    arena: &mut NodeArena<K, V, PREFIX_LEN>,
    root: OpaqueNodePtr<K, V, PREFIX_LEN>,
    spot: Spot<K, V, PREFIX_LEN>,
    byte: u8,
    key: K,
    value: V,
) -> Result<RootAndLeaf<K, V, PREFIX_LEN>, (K, V)>
    requires short { length (K.text key) < 2 ^ 32 }
    requires place { (tree : _) × IsAlone K.text arena.old root tree ×
        LacksChild tree (K.text key) spot byte }
    ensures { AddsEntry K.text arena.old arena.new (Some root) key value result }
{
    let full = is_full(arena, spot.node);
    if reserve_for_child(arena, spot.node, full).is_err() {
        return Err((key, value));
    }
    let (sibling, end) = leaf_beside_child(arena, spot.node, byte);
    let leaf = link_leaf(arena, key, value, sibling, end);
    let node = add_child(arena, spot.node, byte, leaf.to_opaque(), full);
    Ok((
        put_child_or_root(arena, root, spot.parent, spot.node, node),
        leaf,
    ))
}

// Makes a new inner node over a new leaf and the node where the key differs. Returns the root and the
// leaf. On allocation failure it returns the entry.
fn insert_fork<K: AsBytes, V, const PREFIX_LEN: usize>(
    arena: &mut NodeArena<K, V, PREFIX_LEN>,
    root: OpaqueNodePtr<K, V, PREFIX_LEN>,
    spot: Spot<K, V, PREFIX_LEN>,
    mismatch: Mismatch,
    key: K,
    value: V,
) -> Result<RootAndLeaf<K, V, PREFIX_LEN>, (K, V)>
    requires short { length (K.text key) < 2 ^ 32 }
    requires place { (tree : _) × IsAlone K.text arena.old root tree ×
        Parts tree (K.text key) spot mismatch }
    ensures { AddsEntry K.text arena.old arena.new (Some root) key value result }
{
    let end = near_end(mismatch);
    if reserve_for_fork(arena).is_err() {
        return Err((key, value));
    }
    let sibling = end_leaf(arena, spot.node, end);
    let leaf = link_leaf(arena, key, value, sibling, end);
    trim(
        arena,
        spot.node,
        spot.depth,
        mismatch.index + 1 - spot.depth,
        sibling,
    );
    let node = fork_node(arena, leaf, spot.node, spot.depth, mismatch);
    Ok((
        put_child_or_root(arena, root, spot.parent, spot.node, node),
        leaf,
    ))
}

// The result of an insert of new key bytes: the root and the leaf, or the refused entry.
fn newly_added<K, V, const PREFIX_LEN: usize>(
    added: Result<RootAndLeaf<K, V, PREFIX_LEN>, (K, V)>,
) -> Result<RootAndLeaf<K, V, PREFIX_LEN>, InsertFault<K, V>>
    ensures added { (at : _) → added ≡ Ok at → result ≡ Ok at }
    ensures refused { (key value : _) → added ≡ Err (key, value) →
        result ≡ Err (record { refusal = OutOfMemory; key = key; value = value }) }
{
    match added {
        Ok(at) => Ok(at),
        Err((key, value)) => Err(InsertFault {
            refusal: InsertRefusal::OutOfMemory,
            key,
            value,
        }),
    }
}

/// The root and the leaf that has the key, where the place of the key is such a leaf.
#[inline(always)]
pub(crate) fn present<K, V, const PREFIX_LEN: usize>(
    found: Option<RootAndPlace<K, V, PREFIX_LEN>>,
) -> Option<RootAndLeaf<K, V, PREFIX_LEN>>
    ensures { result ≡ present_leaf found }
{
    match found {
        Some((root, Place::Present(leaf))) => Some((root, leaf)),
        _ => None,
    }
}

/// Adds an entry with new key bytes at their place, and returns the root and the leaf. A refused entry
/// is returned.
#[inline(always)]
pub(crate) fn insert_new<K: AsBytes, V, const PREFIX_LEN: usize>(
    arena: &mut NodeArena<K, V, PREFIX_LEN>,
    found: Option<RootAndPlace<K, V, PREFIX_LEN>>,
    key: K,
    value: V,
) -> Result<RootAndLeaf<K, V, PREFIX_LEN>, InsertFault<K, V>>
    requires art { IsArt K.text arena.old (option_map (λ place. place.0) found) }
    requires place { IfSome found (λ place.
        EachTree K.text arena.old place.0 (λ tree. Belongs tree (K.text key) place.1)) }
    requires new { present_leaf found ≡ None }
    ensures { InsertsNew K.text arena.old arena.new (option_map (λ place. place.0) found) key value
        result }
{
    if key.as_bytes().len() >= 1 << 32 {
        return Err(InsertFault {
            refusal: InsertRefusal::KeyTooLong,
            key,
            value,
        });
    }
    let Some((root, place)) = found else {
        return newly_added(insert_first(arena, key, value));
    };
    match place {
        Place::Present(_) => unreachable!(),
        Place::Extends(_) | Place::Begins { .. } => Err(InsertFault {
            refusal: InsertRefusal::Prefix,
            key,
            value,
        }),
        Place::Absent { spot, byte } => newly_added(insert_child(
            arena, root, spot, byte, key, value,
        )),
        Place::Differs { spot, mismatch } => newly_added(insert_fork(
            arena, root, spot, mismatch, key, value,
        )),
    }
}
