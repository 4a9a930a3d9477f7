//! Insertion: changes of inner nodes.
ghost use Rattle.std.specs.Prelude.{◌≡◌, ◌≢◌, ◌<◌, ◌≤◌, ◌+◌, ◌-◌, ◌^◌, ◌++◌, ℕ, List, length, take, drop, None};
ghost use Rattle.art_header.specs.Header.{StandsFor};
ghost use Rattle.art_header.specs.NodeType.{most_children};
ghost use Rattle.art_header.specs.declared.node_type.NodeType.TheVariants.{Leaf, Node4};
ghost use Rattle.art_nodes.specs.ChildMap.{child_at};
ghost use Rattle.art_nodes.specs.Inner.{Inner, header_of, node_with_child};
ghost use Rattle.art_nodes.specs.Pointers.{node_kind, slab_key};
ghost use Rattle.art_arena.specs.Arena.{held, HeldInner, Nothing, room, Changes, SameCapacity, SameNodes, SameRoom};
ghost use Rattle.art_arena.specs.Links.{HoldsLeaf, text_at};
ghost use Rattle.art_steps.specs.Edits.{HasOneMore, HasRoomToGrow, IsMoved, WhetherFull, two_children};
ghost use Rattle.art_links.specs.Nodes.{node_of, IsPlaced, node_with_prefix};
ghost use Rattle.art_search.specs.Search.{leaf_pointer};

use crate::parent::num_children;
use crate::place::Mismatch;
use art_arena::{LeafPtr, NodeArena, NodeRef};
use art_bytes::AsBytes;
use art_links::{allocate_node_as, replace_node};
use art_nodes::{InnerNode, InnerNode4, InnerNodeCommon, InnerNodeRead, LeafNode, OpaqueNodePtr};
use std::alloc::AllocError;

/// Whether the inner node at the pointer is full.
pub fn is_full<K, V, const PREFIX_LEN: usize>(
    arena: &NodeArena<K, V, PREFIX_LEN>,
    pointer: OpaqueNodePtr<K, V, PREFIX_LEN>,
) -> bool
    requires held { held arena.now pointer ≢ Nothing }
    requires inner { node_kind pointer ≢ Leaf }
    ensures { WhetherFull arena.now pointer result }
{
    num_children(arena, pointer) == *pointer.node_type().capacity_range().end()
}

// The same node of the next kind with one child more. Kept out of its caller, whose stack would
// have the nodes of each kind several times.
#[inline(never)]
fn with_child_more<const PREFIX_LEN: usize, N: InnerNode<PREFIX_LEN>>(
    node: &N,
    byte: u8,
    child: OpaqueNodePtr<N::Key, N::Value, PREFIX_LEN>,
) -> N::GrownNode
    ensures { N.GrownNode.inner result ≡ node_with_child (N.inner node.now) byte child }
{
    let mut grown = node.grow();
    grown.write_child(byte, child);
    grown
}

// Adds a child to the full inner node at the pointer, in a node of the next kind, for which there
// must be spare capacity. Kept out of its caller, which would clear the stack for that node each
// time.
#[inline(never)]
fn grow_child<K, V, const PREFIX_LEN: usize>(
    arena: &mut NodeArena<K, V, PREFIX_LEN>,
    pointer: OpaqueNodePtr<K, V, PREFIX_LEN>,
    byte: u8,
    child: OpaqueNodePtr<K, V, PREFIX_LEN>,
) -> OpaqueNodePtr<K, V, PREFIX_LEN>
    requires held { held arena.old pointer ≢ Nothing }
    requires inner { node_kind pointer ≢ Leaf }
    requires full { (node : Inner _) → held arena.old pointer ≡ HeldInner node →
        length node.children ≡ most_children (node_kind pointer) }
    requires absent { (node : Inner _) → held arena.old pointer ≡ HeldInner node →
        child_at node.children byte ≡ None }
    requires room { HasRoomToGrow arena.old pointer }
    ensures moved { (node : Inner _) → held arena.old pointer ≡ HeldInner node →
        IsMoved arena.old arena.new pointer node (node_with_child node byte child) result }
    ensures capacity { SameCapacity arena.old arena.new }
{
    match arena.node_ref(pointer) {
        NodeRef::Node4(node) => {
            let grown = with_child_more(node, byte, child);
            replace_node(arena, pointer, grown)
        }
        NodeRef::Node16(node) => {
            let grown = with_child_more(node, byte, child);
            replace_node(arena, pointer, grown)
        }
        NodeRef::Node48(node) => {
            let grown = with_child_more(node, byte, child);
            replace_node(arena, pointer, grown)
        }
        // A node of 256 children has one under every byte.
        NodeRef::Node256(node) => {
            prove!(node.num_children() < 256);
            unreachable!()
        }
        NodeRef::LeafNode(_) => unreachable!(),
    }
}

/// Adds a child to the inner node at the pointer. A full node is replaced by one of the next kind,
/// for which there must be spare capacity. Returns where the node is.
pub fn add_child<K, V, const PREFIX_LEN: usize>(
    arena: &mut NodeArena<K, V, PREFIX_LEN>,
    pointer: OpaqueNodePtr<K, V, PREFIX_LEN>,
    byte: u8,
    child: OpaqueNodePtr<K, V, PREFIX_LEN>,
    full: bool,
) -> OpaqueNodePtr<K, V, PREFIX_LEN>
    requires held { held arena.old pointer ≢ Nothing }
    requires inner { node_kind pointer ≢ Leaf }
    requires absent { (node : Inner _) → held arena.old pointer ≡ HeldInner node →
        child_at node.children byte ≡ None }
    requires full { WhetherFull arena.old pointer full }
    requires room { HasRoomToGrow arena.old pointer }
    ensures added { (node : Inner _) → held arena.old pointer ≡ HeldInner node →
        HasOneMore arena.old arena.new pointer node (node_with_child node byte child) result }
    ensures capacity { SameCapacity arena.old arena.new }
{
    if full {
        return grow_child(arena, pointer, byte, child);
    }
    arena.write_child(pointer, byte, child);
    pointer
}

/// Removes the first bytes of the compressed prefix of an inner node under a path of `depth` bytes;
/// a leaf is unchanged. The bytes that the node stores of the rest are read from the key of a leaf
/// below.
pub fn trim<K: AsBytes, V, const PREFIX_LEN: usize>(
    arena: &mut NodeArena<K, V, PREFIX_LEN>,
    pointer: OpaqueNodePtr<K, V, PREFIX_LEN>,
    depth: usize,
    len: usize,
    leaf: LeafPtr<K, V, PREFIX_LEN>,
)
    requires held { held arena.old pointer ≢ Nothing }
    requires leaf_held { HoldsLeaf arena.old (slab_key leaf) }
    requires within { (node : Inner _) → held arena.old pointer ≡ HeldInner node →
        len ≤ node.prefix_len }
    requires text { (node : Inner _) → held arena.old pointer ≡ HeldInner node →
        depth + node.prefix_len ≤ length (text_at K.text arena.old (slab_key leaf)) }
    ensures leaf { node_kind pointer ≡ Leaf → SameNodes arena.old arena.new }
    ensures trimmed { (node : Inner _) (path prefix rest : List ℕ) →
        held arena.old pointer ≡ HeldInner node → length path ≡ depth →
        text_at K.text arena.old (slab_key leaf) ≡ path ++ prefix ++ rest →
        StandsFor PREFIX_LEN (header_of node) prefix →
        Changes arena.old arena.new pointer
        (HeldInner (node_with_prefix PREFIX_LEN node (drop len prefix))) }
    ensures room { SameRoom arena.old arena.new }
{
    let Some(header) = arena.header(pointer) else {
        return;
    };
    let mut header = header.clone().unwrap();
    header.ltrim_by_with_leaf(len, depth, arena.as_key_ref(leaf).as_bytes());
    arena.set_prefix(pointer, &header);
}

/// Makes the node over a new leaf and the node from which the leaf's key differs at `index`, where
/// `depth` bytes lead to that node. There must be spare capacity for it.
pub fn fork_node<K: AsBytes, V, const PREFIX_LEN: usize>(
    arena: &mut NodeArena<K, V, PREFIX_LEN>,
    leaf: LeafPtr<K, V, PREFIX_LEN>,
    node: OpaqueNodePtr<K, V, PREFIX_LEN>,
    depth: usize,
    mismatch: Mismatch,
) -> OpaqueNodePtr<K, V, PREFIX_LEN>
    requires held { HoldsLeaf arena.old (slab_key leaf) }
    requires ordered { depth ≤ mismatch.index }
    requires within { mismatch.index ≤ length (text_at K.text arena.old (slab_key leaf)) }
    requires short { mismatch.index < 2 ^ 32 }
    requires differ { mismatch.byte ≢ mismatch.node_byte }
    requires room { 0 < room arena.old Node4 }
    ensures { IsPlaced arena.old arena.new Node4
        (node_of PREFIX_LEN
        (take (mismatch.index - depth) (drop depth (text_at K.text arena.old (slab_key leaf))))
        (two_children mismatch.byte (leaf_pointer leaf) mismatch.node_byte node)) result }
{
    let child = (mismatch.byte, leaf.to_opaque());
    let other = (mismatch.node_byte, node);
    let children = if mismatch.byte < mismatch.node_byte {
        [child, other]
    } else {
        [other, child]
    };
    allocate_node_as::<K, V, PREFIX_LEN, InnerNode4<K, V, PREFIX_LEN>>(
        arena,
        leaf,
        depth,
        mismatch.index,
        &children,
    )
}
