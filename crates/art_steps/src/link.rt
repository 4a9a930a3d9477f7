//! Insertion: a new leaf, linked beside another.
ghost use Rattle.std.specs.Prelude.{◌≡◌, ◌≢◌, ◌<◌, ◌++◌, ◌∷◌, ℕ, List};
ghost use Rattle.art_header.specs.declared.node_type.NodeType.TheVariants.{Leaf};
ghost use Rattle.art_nodes.specs.Pointers.{slab_key};
ghost use Rattle.art_arena.specs.Arena.{held, room, Nothing, SameCapacity, SameOtherRoom};
ghost use Rattle.art_arena.specs.Links.{IsLinkedList, text_at};
ghost use Rattle.art_steps.specs.Edits.{HasGap, HoldsEntry, IsBeside, IsOnSide, StaysAt};
ghost use Rattle.art_search.specs.Search.{leaf_pointer};

use art_arena::{End, LeafPtr, NodeArena};
use art_bytes::AsBytes;
use art_links::LeafLinks;
use art_nodes::LeafNode;

/// Adds a leaf with the entry, linked before the sibling where that is the first leaf after its
/// place, and else after the sibling. There must be spare capacity for a leaf.
pub fn link_leaf<K: AsBytes, V, const PREFIX_LEN: usize>(
    arena: &mut NodeArena<K, V, PREFIX_LEN>,
    key: K,
    value: V,
    sibling: LeafPtr<K, V, PREFIX_LEN>,
    end: End,
) -> LeafPtr<K, V, PREFIX_LEN>
    requires room { 0 < room arena.old Leaf }
    requires gap { HasGap arena.old end (slab_key sibling) }
    requires order { IsOnSide end (K.text key) (text_at K.text arena.old (slab_key sibling)) }
    ensures was_free { held arena.old (leaf_pointer result) ≡ Nothing }
    ensures entry { HoldsEntry arena.new (leaf_pointer result) key value }
    ensures linked { (left right : List ℕ) → IsLinkedList arena.old (left ++ right) →
        IsBeside end left right (slab_key sibling) →
        IsLinkedList arena.new (left ++ slab_key result ∷ right) }
    ensures others { (pointer : _) → pointer ≢ leaf_pointer result →
        StaysAt arena.old arena.new pointer }
    ensures other_room { SameOtherRoom arena.old arena.new Leaf }
    ensures capacity { SameCapacity arena.old arena.new }
{
    let leaf = arena.allocate_reserved(LeafNode::with_no_siblings(key, value));
    match end {
        End::First => LeafNode::insert_before(arena, leaf, sibling),
        End::Last => LeafNode::insert_after(arena, leaf, sibling),
    }
    leaf
}
