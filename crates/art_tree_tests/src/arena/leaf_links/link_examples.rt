//! How a crate uses `art_arena`: leaves are linked by ascending key, and visited in that order.
ghost use Rattle.std.specs.Prelude.{◌≡◌, ◌≢◌, ◌++◌, ◌∷◌, [], List, All, IfOk};
ghost use Rattle.std.specs.declared.cmp.Ordering.TheVariants.{Less};
ghost use Rattle.art_bytes.specs.Text.{text_order};
ghost use Rattle.art_header.specs.declared.node_type.NodeType.TheVariants as NodeType;
ghost use Rattle.art_nodes.specs.Pointers.{opaque_pointer, slab_key};
ghost use Rattle.art_arena.specs.Links.{IsLinkedList, HoldsLeaf, IsUnlinked, IsKnit, text_at};
ghost use Rattle.art_arena.specs.Standing.{IsTreeIn};
ghost use Rattle.art_arena.specs.Trees.{places};

use super::*;
use art_arena::laws::{
    allocating_keeps_lists_spelled, lists_are_spelled_where_their_leaves_are_kept,
    trees_stand_where_their_nodes_are_kept,
};
use std::alloc::AllocError;

/// Adds a leaf at the end of a list. Its key is greater than that of the last leaf.
fn push_back<K: AsBytes, V, const PREFIX_LEN: usize>(
    arena: &mut NodeArena<K, V, PREFIX_LEN>,
    this: LeafPtr<K, V, PREFIX_LEN>,
    last: LeafPtr<K, V, PREFIX_LEN>,
)
    requires held { HoldsLeaf arena.old (slab_key this) }
    requires unlinked { IsUnlinked arena.old (slab_key this) }
    requires apart { slab_key this ≢ slab_key last }
    requires last_knit { IsKnit arena.old (slab_key last) }
    requires above { text_order (text_at K.text arena.old (slab_key last))
        (text_at K.text arena.old (slab_key this)) ≡ Less }
    ensures { (leaves : List _) → IsLinkedList arena.old (leaves ++ slab_key last ∷ []) →
        IsLinkedList arena.new (leaves ++ slab_key last ∷ slab_key this ∷ []) }
{
    LeafNode::insert_after(arena, this, last);
}

/// Allocates a leaf. Each list of other leaves is unchanged.
fn allocate_leaf<K, V, const PREFIX_LEN: usize>(
    arena: &mut NodeArena<K, V, PREFIX_LEN>,
    key: K,
    value: V,
) -> Result<LeafPtr<K, V, PREFIX_LEN>, (AllocError, LeafNode<K, V, PREFIX_LEN>)>
    ensures { IfOk result (λ _. (leaves : List _) →
        IsLinkedList arena.old leaves → IsLinkedList arena.new leaves) }
{
    allocating_keeps_lists_spelled::<K, V, PREFIX_LEN>();
    arena.allocate_node_ptr(LeafNode::with_no_siblings(key, value))
}

/// Deallocates a leaf. Each list that it is not in, and each tree, is unchanged.
fn deallocate_leaf<K: AsBytes, V, const PREFIX_LEN: usize>(
    arena: &mut NodeArena<K, V, PREFIX_LEN>,
    leaf: LeafPtr<K, V, PREFIX_LEN>,
) -> LeafNode<K, V, PREFIX_LEN>
    requires { HoldsLeaf arena.old (slab_key leaf) }
    ensures list { (leaves : List _) → All (λ key. key ≢ slab_key leaf) leaves →
        IsLinkedList arena.old leaves → IsLinkedList arena.new leaves }
    ensures tree { (root : _) (tree : _) →
        All (λ pointer. pointer ≢ opaque_pointer NodeType.Leaf (slab_key leaf)) (places tree) →
        IsTreeIn K.text arena.old root tree → IsTreeIn K.text arena.new root tree }
{
    lists_are_spelled_where_their_leaves_are_kept::<K, V, PREFIX_LEN>();
    trees_stand_where_their_nodes_are_kept::<K, V, PREFIX_LEN>();
    arena.deallocate_node_ptr(leaf)
}
