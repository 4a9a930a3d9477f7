//! Compaction: the entries of a tree, loaded into another arena in their order.
ghost use Rattle.std.specs.Prelude.{◌≡◌, ◌≤◌, [], All, Some, length, map, vec_capacity, IfOk, OnErr};
ghost use Rattle.art_nodes.specs.Pointers.{slab_key};
ghost use Rattle.art_arena.specs.Arena.{held, Nothing};
ghost use Rattle.art_arena.specs.Links.{AreDistinct, HoldsLeaf};
ghost use Rattle.art_steps.specs.Art.{IsArt};
ghost use Rattle.art_steps.specs.Loading.{HoldEntries};
ghost use Rattle.art_tree.specs.Reloading.{AreLeavesOf, IsReloaded};
ghost use Rattle.art_search.specs.Search.{leaf_pointer};

use crate::loading::{make, prepare};
use art_arena::{End, LeafPtr, NodeArena, end_leaf};
use art_bytes::AsBytes;
use art_nodes::OpaqueNodePtr;
use std::alloc::{AllocError, Global};

// The leaves of the tree at the root, in order.
fn leaves_in_order<K: AsBytes, V, const PREFIX_LEN: usize>(
    alloc: Global,
    arena: &NodeArena<K, V, PREFIX_LEN>,
    root: OpaqueNodePtr<K, V, PREFIX_LEN>,
) -> Result<Vec<LeafPtr<K, V, PREFIX_LEN>>, AllocError>
    requires { IsArt K.text arena.now (Some root) }
    ensures { IfOk result (λ leaves. AreLeavesOf K.text arena.now root leaves.items) }
{
    let mut leaves = Vec::with_capacity(alloc, arena.leaf_count())?;
    let mut at = Some(end_leaf(arena, root, End::First));
    'along: while let Some(leaf) = at {
        leaves.push_reserved(leaf);
        at = arena.as_ref(leaf).next();
    }
    Ok(leaves)
}

// Takes the entries of these leaves out of the arena, in order. There must be memory for them.
fn take_entries<K, V, const PREFIX_LEN: usize>(
    arena: &mut NodeArena<K, V, PREFIX_LEN>,
    leaves: &[LeafPtr<K, V, PREFIX_LEN>],
    entries: &mut Vec<(K, V)>,
)
    requires held { All (λ leaf. HoldsLeaf arena.old (slab_key leaf)) leaves.now }
    requires distinct { AreDistinct (map slab_key leaves.now) }
    requires none { entries.old.items ≡ [] }
    requires memory { length leaves.now ≤ vec_capacity entries.old }
    ensures { HoldEntries arena.old (map leaf_pointer leaves.now) entries.new.items }
{
    for leaf in leaves {
        let entry = arena.deallocate_node_ptr(*leaf).into_entry();
        entries.push_reserved(entry);
    }
}

/// Moves the entries of the tree at the root into an empty arena, and makes their tree there. All
/// memory is taken before an entry is moved, and the memory of the old arena is given back before
/// the new one is written. Returns the new root.
pub(crate) fn reload<K: AsBytes + Drop, V: Drop, const PREFIX_LEN: usize>(
    alloc: Global,
    old: &mut NodeArena<K, V, PREFIX_LEN>,
    root: OpaqueNodePtr<K, V, PREFIX_LEN>,
    arena: &mut NodeArena<K, V, PREFIX_LEN>,
) -> Result<OpaqueNodePtr<K, V, PREFIX_LEN>, AllocError>
    requires art { IsArt K.text old.old (Some root) }
    requires empty { (pointer : _) → held arena.old pointer ≡ Nothing }
    ensures reloaded { IfOk result (IsReloaded K.text old.old arena.new) }
    ensures kept { OnErr result (old.new ≡ old.old) }
{
    let leaves = leaves_in_order(alloc, old, root)?;
    let mut entries = Vec::with_capacity(alloc, leaves.len())?;
    let prepared = prepare(alloc, arena, &*old, &leaves)?;
    take_entries(old, &leaves, &mut entries);
    *old = NodeArena::new(alloc);
    Ok(make(arena, entries, prepared))
}
