//! A walk along the leaves of a tree that changes, where each entry is tested, and stays or is removed: the
//! list of the entries is what is behind, and what begins at a leaf.
ghost use Rattle.std.specs.Prelude.{◌≡◌, ◌∷◌, ◌++◌, [], List, Option, ℕ, Some, OnErr, OnOk};
ghost use Rattle.std.specs.Option.{option_map};
ghost use Rattle.std.specs.Map.Calls.{CallableOnEachPair, CalledAtPair, RetainsPairs, TakesPair};
ghost use Rattle.art_nodes.specs.Leaf.{leaf_key, leaf_value};
ghost use Rattle.art_nodes.specs.Pointers.{slab_key};
ghost use Rattle.art_nodes.specs.declared.pointers.OpaqueNodePtr.{OpaqueNodePtr as Pointer};
ghost use Rattle.art_arena.specs.Links.{HoldsLeaf, leaf_at};
ghost use Rattle.art_tree.specs.Entries.{entries_of};
ghost use Rattle.art_steps.specs.Refusals.{texts_of};
ghost use Rattle.art_steps.specs.Removal.{NeedsSmallerNode};
ghost use Rattle.art_routes.specs.Keys.{key_text};
ghost use Rattle.art_routes.specs.Networks.{Block};
ghost use Rattle.art_routes.specs.Retaining.{StopsRetaining};
ghost use Rattle.art_routes.specs.Shrinking.{NeedsNode};
ghost use Rattle.art_routes.specs.LeafWalks.{HoldsFirst, IsSplit, IsVisit, MayVisit};

use crate::leaves::nearest::leaf_toward;
use crate::leaves::{RouteLeaf, RouteTree};
use crate::route_key::RouteKey;
use crate::way::PREFIX_LEN;
use art_tree::{End, Side, leaf_beside};
use std::alloc::AllocError;

/// A removal that needs a smaller node in the arena needs one by the list of the entries. Does no work.
pub(crate) fn removals_need_nodes<V>(tree: &RouteTree<V>)
    ensures { (text : List ℕ) → NeedsSmallerNode key_text tree.now.arena text →
        NeedsNode (Pointer Block V PREFIX_LEN)
        (texts_of key_text (entries_of key_text tree.now.arena)) text }
{
    let _root = tree.root();
}

// The first leaf of a tree.
fn first_leaf<V>(tree: &RouteTree<V>) -> Option<RouteLeaf<V>>
    ensures { HoldsFirst tree.now.arena (option_map slab_key result) (entries_of key_text tree.now.arena) }
{
    let root = tree.root()?;
    let arena = tree.arena();
    let beside = leaf_beside(arena, root, &[], Side::Before);
    leaf_toward(arena, beside, End::First)
}

// The leaf behind this one.
fn leaf_behind<V>(tree: &RouteTree<V>, leaf: RouteLeaf<V>) -> Option<RouteLeaf<V>>
    requires { HoldsLeaf tree.now.arena (slab_key leaf) }
    ensures { (before : List (Block × V)) (entry : Block × V) (after : List (Block × V)) →
        IsSplit key_text tree.now.arena before (Some (slab_key leaf)) (entry ∷ after) →
        IsSplit key_text tree.now.arena (before ++ entry ∷ []) (option_map slab_key result) after }
{
    let _root = tree.root();
    tree.arena().as_ref(leaf).next()
}

// Calls the closure at the entry of a leaf. It may leave another value in it.
fn test_at<V, F: FnMut(&RouteKey, &mut V) -> bool>(
    tree: &mut RouteTree<V>,
    leaf: RouteLeaf<V>,
    f: &mut F,
) -> bool
    requires held { HoldsLeaf tree.old.arena (slab_key leaf) }
    requires accepted { (node : _) → leaf_at tree.old.arena (slab_key leaf) ≡ Some node →
        TakesPair F.FnMut f.old (leaf_key node) (leaf_value node) }
    ensures { (before : List (Block × V)) (entry : Block × V) (after : List (Block × V)) →
        IsSplit key_text tree.old.arena before (Some (slab_key leaf)) (entry ∷ after) →
        (value : V) × CalledAtPair F.FnMut f.old entry.0 entry.1 result value f.new ×
        IsSplit key_text tree.new.arena before (Some (slab_key leaf)) ((entry.0, value) ∷ after) }
{
    let _root = tree.root();
    let (key, value) = tree.as_key_ref_value_mut(leaf);
    f(key, value)
}

// Removes the entry of a leaf and returns it. Fails only where that needs a node, and then the entries
// are unchanged.
fn remove_at<V>(tree: &mut RouteTree<V>, leaf: RouteLeaf<V>) -> Result<(RouteKey, V), AllocError>
    requires { HoldsLeaf tree.old.arena (slab_key leaf) }
    ensures removed { (before : List (Block × V)) (entry : Block × V) (after : List (Block × V))
        (next : Option ℕ) →
        IsSplit key_text tree.old.arena before (Some (slab_key leaf)) (entry ∷ after) →
        HoldsFirst tree.old.arena next after →
        OnOk result (IsSplit key_text tree.new.arena before next after) }
    ensures needs_node { (before : List (Block × V)) (entry : Block × V) (after : List (Block × V)) →
        IsSplit key_text tree.old.arena before (Some (slab_key leaf)) (entry ∷ after) →
        OnErr result (NeedsNode (Pointer Block V PREFIX_LEN)
        (texts_of key_text (entries_of key_text tree.new.arena)) (key_text entry.0)) }
    ensures same_entries { OnErr result
        (entries_of key_text tree.new.arena ≡ entries_of key_text tree.old.arena) }
{
    removals_need_nodes(tree);
    let _root = tree.root();
    let entry = tree.remove_leaf(leaf)?;
    Ok(entry)
}

// Calls the closure at the entry of a leaf, removes it where the closure returns `false`, and returns the
// leaf behind it. The removal fails only where it needs a node: the entry stays, with the value that the
// closure left.
fn retain_at<V: Drop, F: FnMut(&RouteKey, &mut V) -> bool>(
    tree: &mut RouteTree<V>,
    leaf: RouteLeaf<V>,
    f: &mut F,
) -> Result<Option<RouteLeaf<V>>, AllocError>
    requires { MayVisit key_text (TakesPair F.FnMut) f.old tree.old.arena (slab_key leaf) }
    ensures { IsVisit key_text (CalledAtPair F.FnMut) f.old f.new tree.old.arena tree.new.arena
        (slab_key leaf) result }
{
    let keeps = test_at(tree, leaf, f);
    let next = leaf_behind(tree, leaf);
    if keeps {
        return Ok(next);
    }
    remove_at(tree, leaf)?;
    Ok(next)
}

/// Calls the closure at each entry, in ascending order, and removes those at which it returns `false`.
/// Stops at the first removal that fails, as it needs a node: the entry stays.
pub(crate) fn retain_each<V: Drop, F: FnMut(&RouteKey, &mut V) -> bool>(
    tree: &mut RouteTree<V>,
    mut f: F,
) -> Result<(), AllocError>
    requires { CallableOnEachPair (CalledAtPair F.FnMut) (TakesPair F.FnMut) f
        (entries_of key_text tree.old.arena) }
    ensures retained { OnOk result (RetainsPairs (CalledAtPair F.FnMut) f
        (entries_of key_text tree.old.arena) (entries_of key_text tree.new.arena)) }
    ensures stopped { OnErr result (StopsRetaining (CalledAtPair F.FnMut) (λ network. NeedsNode
        (Pointer Block V PREFIX_LEN) (texts_of key_text (entries_of key_text tree.new.arena)) (key_text network))
        f (entries_of key_text tree.old.arena) (entries_of key_text tree.new.arena)) }
{
    let mut at = first_leaf(tree);
    'along: while let Some(leaf) = at {
        at = retain_at(tree, leaf, &mut f)?;
    }
    Ok(())
}
