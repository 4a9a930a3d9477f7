//! Removal: changes of inner nodes.
ghost use Rattle.std.specs.Prelude.{◌≡◌, ◌≢◌, ◌<◌, ◌≤◌, ◌+◌, ◌^◌, ◌++◌, ◌∷◌, ℕ, List, length, Some, None, OnOk, OnErr};
ghost use Rattle.art_header.specs.Header.{StandsFor};
ghost use Rattle.art_header.specs.NodeType.{least_children, shrunk_kind};
ghost use Rattle.art_header.specs.declared.node_type.NodeType.TheVariants.{Leaf, Node4};
ghost use Rattle.art_nodes.specs.ChildMap.{child_at, first_pair, without_child};
ghost use Rattle.art_nodes.specs.Inner.{Inner, header_of, node_without_child};
ghost use Rattle.art_nodes.specs.Pointers.{node_kind};
ghost use Rattle.art_arena.specs.Arena.{held, HeldInner, Nothing, room, Changes, SameCapacity, SameNodes, SameRoom};
ghost use Rattle.art_steps.specs.Cuts.{HasOneLess, HasRoomToShrink, WhetherFewest};
ghost use Rattle.art_links.specs.Nodes.{IsReplaced, node_with_prefix};
ghost use Rattle.art_steps.specs.Reserving.{LacksRoomToShrink};
ghost use Rattle.art_steps.specs.Room.{GrowsOnlyWhere};

use art_arena::{NodeArena, NodeRef};
use art_links::replace_node;
use art_nodes::{InnerNode, InnerNodeRead, OpaqueNodePtr};
use std::alloc::AllocError;

// The least byte of the node that is not this one, with its child.
fn other_child_in<K, V, const PREFIX_LEN: usize, N: InnerNodeRead<K, V, PREFIX_LEN>>(
    node: &N,
    byte: u8,
) -> (u8, OpaqueNodePtr<K, V, PREFIX_LEN>)
    requires { 2 ≤ length (N.inner node.now).children }
    ensures { first_pair (without_child (N.inner node.now).children byte) ≡ Some result }
{
    let mut children = node.iter();
    let (least, child) = children.next().unwrap();
    if least != byte {
        return (least, child);
    }
    children.next().unwrap()
}

/// The least byte of the inner node at the pointer that is not this one, with its child.
pub fn other_child<K, V, const PREFIX_LEN: usize>(
    arena: &NodeArena<K, V, PREFIX_LEN>,
    pointer: OpaqueNodePtr<K, V, PREFIX_LEN>,
    byte: u8,
) -> (u8, OpaqueNodePtr<K, V, PREFIX_LEN>)
    requires held { held arena.now pointer ≢ Nothing }
    requires inner { node_kind pointer ≢ Leaf }
    requires two { (node : Inner _) → held arena.now pointer ≡ HeldInner node →
        2 ≤ length node.children }
    ensures { (node : Inner _) → held arena.now pointer ≡ HeldInner node →
        first_pair (without_child node.children byte) ≡ Some result }
{
    let node = arena.node_ref(pointer).inner().unwrap();
    other_child_in(&node, byte)
}

/// Makes spare capacity for the node that an inner node of more than two children shrinks to, where
/// they are the fewest of its kind.
pub fn reserve_shrink<K, V, const PREFIX_LEN: usize>(
    arena: &mut NodeArena<K, V, PREFIX_LEN>,
    pointer: OpaqueNodePtr<K, V, PREFIX_LEN>,
    fewest: bool,
) -> Result<(), AllocError>
    requires more { (node : Inner _) → held arena.old pointer ≡ HeldInner node →
        2 < length node.children }
    requires fewest { WhetherFewest arena.old pointer fewest }
    ensures room { OnOk result (HasRoomToShrink arena.new pointer) }
    ensures refused { OnErr result ((node : Inner _) → held arena.old pointer ≡ HeldInner node →
        (2 < length node.children) × (length node.children ≡ least_children (node_kind pointer))) }
    ensures nodes_kept { SameNodes arena.old arena.new }
    ensures takes_no_memory { (node : Inner _) → held arena.old pointer ≡ HeldInner node →
        length node.children ≢ least_children (node_kind pointer) →
        SameRoom arena.old arena.new }
    ensures no_room { OnErr result ((kind : _) × LacksRoomToShrink arena.old pointer kind) }
    ensures memory { GrowsOnlyWhere arena.old arena.new (LacksRoomToShrink arena.old pointer) }
{
    if !fewest {
        return Ok(());
    }
    arena.reserve(pointer.node_type().shrunk(), 1)
}

// Replaces the inner node at the pointer, which has too few children for its kind, by one of the
// next smaller kind, for which there must be spare capacity. Returns where that is. Kept out of its
// caller, which would clear the stack for that node each time.
#[inline(never)]
fn shrink_node<K, V, const PREFIX_LEN: usize>(
    arena: &mut NodeArena<K, V, PREFIX_LEN>,
    pointer: OpaqueNodePtr<K, V, PREFIX_LEN>,
) -> OpaqueNodePtr<K, V, PREFIX_LEN>
    requires held { held arena.old pointer ≢ Nothing }
    requires inner { node_kind pointer ≢ Leaf }
    requires large { node_kind pointer ≢ Node4 }
    requires few { (node : Inner _) → held arena.old pointer ≡ HeldInner node →
        length node.children < least_children (node_kind pointer) }
    requires room { 0 < room arena.old (shrunk_kind (node_kind pointer)) }
    ensures replaced { (node : Inner _) → held arena.old pointer ≡ HeldInner node →
        IsReplaced arena.old arena.new pointer (shrunk_kind (node_kind pointer)) node result }
    ensures capacity { SameCapacity arena.old arena.new }
{
    match arena.node_ref(pointer) {
        NodeRef::Node16(node) => {
            let shrunk = node.shrink();
            replace_node(arena, pointer, shrunk)
        }
        NodeRef::Node48(node) => {
            let shrunk = node.shrink();
            replace_node(arena, pointer, shrunk)
        }
        NodeRef::Node256(node) => {
            let shrunk = node.shrink();
            replace_node(arena, pointer, shrunk)
        }
        NodeRef::Node4(_) | NodeRef::LeafNode(_) => unreachable!(),
    }
}

/// Removes the child under the byte from the inner node at the pointer, which has more than two
/// children. A node with the fewest children of its kind is replaced by one of the next smaller
/// kind, for which there must be spare capacity. Returns where the node is.
pub fn take_child<K, V, const PREFIX_LEN: usize>(
    arena: &mut NodeArena<K, V, PREFIX_LEN>,
    pointer: OpaqueNodePtr<K, V, PREFIX_LEN>,
    byte: u8,
    fewest: bool,
) -> OpaqueNodePtr<K, V, PREFIX_LEN>
    requires held { held arena.old pointer ≢ Nothing }
    requires inner { node_kind pointer ≢ Leaf }
    requires fewest { WhetherFewest arena.old pointer fewest }
    requires there { (node : Inner _) → held arena.old pointer ≡ HeldInner node →
        child_at node.children byte ≢ None }
    requires many { (node : Inner _) → held arena.old pointer ≡ HeldInner node →
        (2 < length node.children) × (least_children (node_kind pointer) ≤ length node.children) }
    requires room { HasRoomToShrink arena.old pointer }
    ensures taken { (node : Inner _) → held arena.old pointer ≡ HeldInner node →
        HasOneLess arena.old arena.new pointer node (node_without_child node byte) result }
    ensures capacity { SameCapacity arena.old arena.new }
{
    arena.remove_child(pointer, byte);
    if fewest {
        return shrink_node(arena, pointer);
    }
    pointer
}

/// Gives the child of an inner node the node's prefix and the byte before its own prefix; a leaf is
/// unchanged. The new prefix has fewer than 2^32 bytes.
pub fn join_prefix<K, V, const PREFIX_LEN: usize>(
    arena: &mut NodeArena<K, V, PREFIX_LEN>,
    pointer: OpaqueNodePtr<K, V, PREFIX_LEN>,
    byte: u8,
    child: OpaqueNodePtr<K, V, PREFIX_LEN>,
)
    requires held { held arena.old pointer ≢ Nothing }
    requires inner { node_kind pointer ≢ Leaf }
    requires child_held { held arena.old child ≢ Nothing }
    requires short { (upper lower : Inner _) → held arena.old pointer ≡ HeldInner upper →
        held arena.old child ≡ HeldInner lower →
        upper.prefix_len + (1 + lower.prefix_len) < 2 ^ 32 }
    ensures leaf { node_kind child ≡ Leaf → SameNodes arena.old arena.new }
    ensures joined { (upper lower : Inner _) (front back : List ℕ) →
        held arena.old pointer ≡ HeldInner upper → held arena.old child ≡ HeldInner lower →
        StandsFor PREFIX_LEN (header_of upper) front → StandsFor PREFIX_LEN (header_of lower) back →
        Changes arena.old arena.new child
        (HeldInner (node_with_prefix PREFIX_LEN lower (front ++ byte ∷ back))) }
    ensures room { SameRoom arena.old arena.new }
{
    let Some(lower) = arena.header(child) else {
        return;
    };
    let mut joined = arena.header(pointer).unwrap().clone().unwrap();
    joined.push_prefix(&[byte], 1);
    joined.push_prefix(lower.read_prefix(), lower.prefix_len());
    arena.set_prefix(child, &joined);
}
