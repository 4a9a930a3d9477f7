//! Removal: an entry is removed from a tree.
ghost use Rattle.std.specs.Prelude.{◌≡◌, ◌++◌, ◌∷◌, ◌≢◌, ◌↔◌, ℕ, List, length, IfNone, IfSome, IsTrue};
ghost use Rattle.art_header.specs.NodeType.{least_children};
ghost use Rattle.art_nodes.specs.Inner.{Inner};
ghost use Rattle.art_nodes.specs.Pointers.{slab_key};
ghost use Rattle.art_arena.specs.Arena.{held, HeldInner};
ghost use Rattle.art_arena.specs.Links.{IsLinkedList};
ghost use Rattle.art_steps.specs.Art.{IsAlone};
ghost use Rattle.art_steps.specs.Cuts.{WhetherFewest};
ghost use Rattle.art_tree.specs.Dropping.{IsAtPath, IsLeafSpot, IsTaken};
ghost use Rattle.art_tree.specs.Finding.{ReachesLeaf};
ghost use Rattle.art_steps.specs.Removal.{RemovesEntry, RemovesFreely};
ghost use Rattle.art_search.specs.Search.{leaf_pointer};
ghost use Rattle.art_search.specs.declared.path.TreePath.TheVariants.{Root};

pub(crate) mod end_place;

use art_arena::{LeafPtr, NodeArena};
use art_bytes::AsBytes;
use art_links::LeafLinks;
use art_nodes::{LeafNode, NodeType, OpaqueNodePtr};
use art_search::TreePath;
use art_steps::{
    join_prefix, num_children, other_child, put_child_or_root, reserve_shrink, take_child,
};
use std::alloc::AllocError;

/// The root that is left of a tree, if there is one, and the entry that was removed.
pub(crate) type Removed<K, V, const PREFIX_LEN: usize> = (
    Option<OpaqueNodePtr<K, V, PREFIX_LEN>>,
    (K, V),
);

// The parent of a leaf, with the leaf's byte, and the grandparent, with the parent's byte, if the
// parent is not the root.
#[derive_where(Clone, Copy)]
struct LeafSpot<K, V, const PREFIX_LEN: usize> {
    parent: OpaqueNodePtr<K, V, PREFIX_LEN>,
    byte: u8,
    above: Option<(OpaqueNodePtr<K, V, PREFIX_LEN>, u8)>,
}

// Where the leaf at the end of a path is, or None where the leaf is the root.
fn leaf_spot<K, V, const PREFIX_LEN: usize>(
    path: TreePath<K, V, PREFIX_LEN>,
) -> Option<LeafSpot<K, V, PREFIX_LEN>>
    ensures root { IfNone result (path ≡ Root) }
    ensures spot { IfSome result (λ spot. (tree leaf : _) (text : List ℕ) →
        IsAtPath tree leaf path text →
        (at_spot : IsLeafSpot tree leaf spot) × (at_spot.text ≡ text)) }
{
    match path {
        TreePath::Root => None,
        TreePath::ChildOfRoot {
            parent,
            child_key_byte,
        } => Some(LeafSpot {
            parent,
            byte: child_key_byte,
            above: None,
        }),
        TreePath::Normal {
            grandparent,
            parent_key_byte,
            parent,
            child_key_byte,
        } => Some(LeafSpot {
            parent,
            byte: child_key_byte,
            above: Some((grandparent, parent_key_byte)),
        }),
    }
}

// Removes a leaf from its list and from the arena, and returns its entry.
fn take_leaf<K: AsBytes, V, const PREFIX_LEN: usize>(
    arena: &mut NodeArena<K, V, PREFIX_LEN>,
    leaf: LeafPtr<K, V, PREFIX_LEN>,
) -> (K, V)
    requires { (left right : List ℕ) × IsLinkedList arena.old (left ++ slab_key leaf ∷ right) }
    ensures { IsTaken arena.old arena.new (leaf_pointer leaf) result }
{
    LeafNode::remove_self(arena, leaf);
    arena.deallocate_node_ptr(leaf).into_entry()
}

// Removes a leaf from a node of more than two children.
fn remove_from_many<K: AsBytes, V, const PREFIX_LEN: usize>(
    arena: &mut NodeArena<K, V, PREFIX_LEN>,
    root: OpaqueNodePtr<K, V, PREFIX_LEN>,
    spot: LeafSpot<K, V, PREFIX_LEN>,
    leaf: LeafPtr<K, V, PREFIX_LEN>,
    fewest: bool,
) -> Result<Removed<K, V, PREFIX_LEN>, AllocError>
    requires place { (tree : _) × IsAlone K.text arena.old root tree ×
        IsLeafSpot tree (leaf_pointer leaf) spot }
    requires many { (node : Inner _) → held arena.old spot.parent ≡ HeldInner node →
        length node.children ≢ 2 }
    requires fewest { WhetherFewest arena.old spot.parent fewest }
    ensures { (tree : _) → IsAlone K.text arena.old root tree →
        (at_spot : IsLeafSpot tree (leaf_pointer leaf) spot) →
        RemovesEntry K.text arena.old arena.new root at_spot.text result }
{
    reserve_shrink(arena, spot.parent, fewest)?;
    let entry = take_leaf(arena, leaf);
    let node = take_child(arena, spot.parent, spot.byte, fewest);
    let root = put_child_or_root(arena, root, spot.above, spot.parent, node);
    Ok((Some(root), entry))
}

// Removes a leaf from a node of two children, whose other child takes the node's place.
fn remove_from_two<K: AsBytes, V, const PREFIX_LEN: usize>(
    arena: &mut NodeArena<K, V, PREFIX_LEN>,
    root: OpaqueNodePtr<K, V, PREFIX_LEN>,
    spot: LeafSpot<K, V, PREFIX_LEN>,
    leaf: LeafPtr<K, V, PREFIX_LEN>,
) -> Removed<K, V, PREFIX_LEN>
    requires place { (tree : _) × IsAlone K.text arena.old root tree ×
        IsLeafSpot tree (leaf_pointer leaf) spot }
    requires two { (node : Inner _) → held arena.old spot.parent ≡ HeldInner node →
        length node.children ≡ 2 }
    ensures { (tree : _) → IsAlone K.text arena.old root tree →
        (at_spot : IsLeafSpot tree (leaf_pointer leaf) spot) →
        RemovesFreely K.text arena.old arena.new at_spot.text result }
{
    let entry = take_leaf(arena, leaf);
    let (other_byte, child) = other_child(arena, spot.parent, spot.byte);
    join_prefix(arena, spot.parent, other_byte, child);
    arena.deallocate(spot.parent);
    let root = put_child_or_root(arena, root, spot.above, spot.parent, child);
    (Some(root), entry)
}

// Whether so many children are the fewest of an inner node of this kind.
fn are_fewest(kind: NodeType, count: usize) -> bool
    ensures { IsTrue result ↔ (count ≡ least_children kind) }
{
    count == *kind.capacity_range().start()
}

/// Removes the leaf at the end of a path from the tree that an arena holds.
pub(crate) fn remove_leaf<K: AsBytes, V, const PREFIX_LEN: usize>(
    arena: &mut NodeArena<K, V, PREFIX_LEN>,
    root: OpaqueNodePtr<K, V, PREFIX_LEN>,
    leaf: LeafPtr<K, V, PREFIX_LEN>,
    path: TreePath<K, V, PREFIX_LEN>,
) -> Result<Removed<K, V, PREFIX_LEN>, AllocError>
    requires { (text : List ℕ) × ReachesLeaf K.text arena.old root leaf path text }
    ensures { (text : List ℕ) → ReachesLeaf K.text arena.old root leaf path text →
        RemovesEntry K.text arena.old arena.new root text result }
{
    let Some(spot) = leaf_spot(path) else {
        return Ok((None, take_leaf(arena, leaf)));
    };
    let count = num_children(arena, spot.parent);
    if count == 2 {
        return Ok(remove_from_two(arena, root, spot, leaf));
    }
    let fewest = are_fewest(spot.parent.node_type(), count);
    remove_from_many(arena, root, spot, leaf, fewest)
}
