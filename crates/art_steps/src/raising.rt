//! Loading: a plan to inner nodes.
ghost use Rattle.std.specs.Prelude.{◌≡◌, ◌≢◌, ℕ, ◌<◌, ◌≤◌, ◌-◌, ◌^◌, [], length, take, drop, vec_capacity};
ghost use Rattle.art_header.specs.NodeType.{kind_for};
ghost use Rattle.art_header.specs.declared.node_type.NodeType.TheVariants as NodeType;
ghost use Rattle.art_nodes.specs.ChildMap.{IsAscending, key_bytes};
ghost use Rattle.art_nodes.specs.Pointers.{slab_key};
ghost use Rattle.art_nodes.specs.declared.pointers.OpaqueNodePtr.{OpaqueNodePtr as Pointer};
ghost use Rattle.art_arena.specs.Arena.{room};
ghost use Rattle.art_arena.specs.Links.{HoldsLeaf, text_at};
ghost use Rattle.art_arena.specs.Trees.{Tree};
ghost use Rattle.art_steps.specs.Plan.{IsPlanOf, needed};
ghost use Rattle.art_steps.specs.Refusals.{text_of_entry};
ghost use Rattle.art_steps.specs.Raising.{IsRaised, HoldLeaves, leaf_texts};
ghost use Rattle.art_links.specs.Nodes.{node_of, IsPlaced};

use crate::steps::Step;
use art_arena::{LeafPtr, NodeArena};
use art_bytes::AsBytes;
use art_links::allocate_node_as;
use art_nodes::{InnerNode4, InnerNode16, InnerNode48, InnerNodeDirect, OpaqueNodePtr};

// Allocates an inner node of the smallest kind for these children, with the prefix that the leaf's
// key has from `start` to `end`. There must be spare capacity for it. Never inlined, so that nodes
// are no locals of `raise`.
#[inline(never)]
fn allocate_node<K: AsBytes, V, const PREFIX_LEN: usize>(
    arena: &mut NodeArena<K, V, PREFIX_LEN>,
    leaf: LeafPtr<K, V, PREFIX_LEN>,
    start: usize,
    end: usize,
    children: &[(u8, OpaqueNodePtr<K, V, PREFIX_LEN>)],
) -> OpaqueNodePtr<K, V, PREFIX_LEN>
    requires held { HoldsLeaf arena.old (slab_key leaf) }
    requires ordered { start ≤ end }
    requires within { end ≤ length (text_at K.text arena.old (slab_key leaf)) }
    requires short { end < 2 ^ 32 }
    requires two { 2 ≤ length children.now }
    requires few { length children.now ≤ 256 }
    requires ascending { IsAscending (key_bytes children.now) }
    requires room { 0 < room arena.old (kind_for (length children.now)) }
    ensures { IsPlaced arena.old arena.new (kind_for (length children.now))
        (node_of PREFIX_LEN
        (take (end - start) (drop start (text_at K.text arena.old (slab_key leaf)))) children.now)
        result }
{
    match children.len() {
        0..=4 => allocate_node_as::<K, V, PREFIX_LEN, InnerNode4<K, V, PREFIX_LEN>>(
            arena, leaf, start, end, children,
        ),
        5..=16 => allocate_node_as::<K, V, PREFIX_LEN, InnerNode16<K, V, PREFIX_LEN>>(
            arena, leaf, start, end, children,
        ),
        17..=48 => allocate_node_as::<K, V, PREFIX_LEN, InnerNode48<K, V, PREFIX_LEN>>(
            arena, leaf, start, end, children,
        ),
        _ => allocate_node_as::<K, V, PREFIX_LEN, InnerNodeDirect<K, V, PREFIX_LEN>>(
            arena, leaf, start, end, children,
        ),
    }
}

/// Makes the inner nodes of a plan over these leaves, for which there must be spare capacity, and
/// returns the root. `pending` is working memory, with capacity for as many trees as there are
/// leaves.
pub fn raise<K: AsBytes, V, const PREFIX_LEN: usize>(
    arena: &mut NodeArena<K, V, PREFIX_LEN>,
    leaves: &[LeafPtr<K, V, PREFIX_LEN>],
    steps: &[Step],
    mut pending: Vec<(u8, OpaqueNodePtr<K, V, PREFIX_LEN>)>,
) -> OpaqueNodePtr<K, V, PREFIX_LEN>
    requires held { HoldLeaves arena.old leaves.now }
    requires short { (i : ℕ) →
        length (text_of_entry (leaf_texts K.text arena.old leaves.now) i) < 2 ^ 32 }
    requires plan { IsPlanOf (leaf_texts K.text arena.old leaves.now) steps.now }
    requires room { (kind : _) → kind ≢ NodeType.Leaf →
        needed kind steps.now ≤ room arena.old kind }
    requires none_pending { pending.items ≡ [] }
    requires memory { length leaves.now ≤ vec_capacity pending }
    ensures { (tree : Tree (Pointer K V PREFIX_LEN))
        × IsRaised K.text arena.old arena.new leaves.now result tree }
{
    let mut next = 0;
    for step in steps {
        match *step {
            Step::Leaf { byte } => {
                pending.push_reserved((byte, leaves[next].to_opaque()));
                next += 1;
            }
            Step::Inner {
                byte,
                start,
                end,
                children,
            } => {
                let below = pending.len() - children;
                let node = allocate_node(arena, leaves[next - 1], start, end, &pending[below..]);
                pending.truncate(below);
                pending.push_reserved((byte, node));
            }
        }
    }
    let (_, root) = pending[0];
    root
}
