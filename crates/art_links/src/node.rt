//! Inner nodes of an arena that are made, and that are replaced by another.
ghost use Rattle.std.specs.Prelude.{◌≡◌, ◌≢◌, ◌<◌, ◌≤◌, ◌-◌, ◌^◌, length, take, drop};
ghost use Rattle.std.specs.Mem.{FitsInMemory};
ghost use Rattle.art_header.specs.declared.node_type.NodeType.TheVariants.{Leaf};
ghost use Rattle.art_nodes.specs.ChildMap.{IsAscending, key_bytes};
ghost use Rattle.art_nodes.specs.Inner.{Inner};
ghost use Rattle.art_nodes.specs.Pointers.{node_kind, slab_key};
ghost use Rattle.art_arena.specs.Arena.{held, Nothing, room, SameCapacity};
ghost use Rattle.art_arena.specs.Links.{HoldsLeaf, text_at};
ghost use Rattle.art_links.specs.Nodes.{node_of, IsPlaced, IsReplaced};

use art_arena::{ArenaInnerNode, LeafPtr, NodeArena};
use art_bytes::AsBytes;
use art_nodes::{InnerNodeCommon, Node, OpaqueNodePtr};

// The inner node with this prefix and these children.
fn inner_node<K, V, const PREFIX_LEN: usize, N: InnerNodeCommon<K, V, PREFIX_LEN>>(
    prefix: &[u8],
    children: &[(u8, OpaqueNodePtr<K, V, PREFIX_LEN>)],
) -> N
    requires memory { FitsInMemory N.row }
    requires short { length prefix.now < 2 ^ 32 }
    requires two { 2 ≤ length children.now }
    requires fits { length children.now ≤ N.room }
    requires ascending { IsAscending (key_bytes children.now) }
    ensures { N.inner result ≡ node_of PREFIX_LEN prefix.now children.now }
{
    let (byte, child) = children[0];
    let first = N::builder(prefix, prefix.len()).write_child(byte, child);
    let (byte, child) = children[1];
    let mut node = first.write_child(byte, child).build();
    for i in 2..children.len() {
        let (byte, child) = children[i];
        node.write_child(byte, child);
    }
    node
}

/// Allocates an inner node of one type, with these children and the prefix that the leaf's key has
/// from `start` to `end`. There must be spare capacity for it.
pub fn allocate_node_as<
    K: AsBytes,
    V,
    const PREFIX_LEN: usize,
    N: ArenaInnerNode<K, V, PREFIX_LEN> + Node<PREFIX_LEN, Key = K, Value = V>,
>(
    arena: &mut NodeArena<K, V, PREFIX_LEN>,
    leaf: LeafPtr<K, V, PREFIX_LEN>,
    start: usize,
    end: usize,
    children: &[(u8, OpaqueNodePtr<K, V, PREFIX_LEN>)],
) -> OpaqueNodePtr<K, V, PREFIX_LEN>
    requires memory { FitsInMemory N.row }
    requires held { HoldsLeaf arena.old (slab_key leaf) }
    requires ordered { start ≤ end }
    requires within { end ≤ length (text_at K.text arena.old (slab_key leaf)) }
    requires short { end < 2 ^ 32 }
    requires two { 2 ≤ length children.now }
    requires fits { length children.now ≤ N.room }
    requires ascending { IsAscending (key_bytes children.now) }
    requires room { 0 < room arena.old N.TYPE }
    ensures { IsPlaced arena.old arena.new N.TYPE
        (node_of PREFIX_LEN
        (take (end - start) (drop start (text_at K.text arena.old (slab_key leaf)))) children.now)
        result }
{
    let text = arena.as_key_ref(leaf).as_bytes();
    let node: N = inner_node(&text[start..end], children);
    arena.allocate_reserved(node).to_opaque()
}

/// Replaces the inner node at the pointer by this one of another kind, for which there must be spare
/// capacity. Returns where that is.
// Kept out of its caller, whose stack would have the nodes of each kind several times.
#[inline(never)]
pub fn replace_node<
    K,
    V,
    const PREFIX_LEN: usize,
    R: ArenaInnerNode<K, V, PREFIX_LEN> + Node<PREFIX_LEN, Key = K, Value = V>,
>(
    arena: &mut NodeArena<K, V, PREFIX_LEN>,
    pointer: OpaqueNodePtr<K, V, PREFIX_LEN>,
    node: R,
) -> OpaqueNodePtr<K, V, PREFIX_LEN>
    requires held { held arena.old pointer ≢ Nothing }
    requires inner { node_kind pointer ≢ Leaf }
    requires room { 0 < room arena.old R.TYPE }
    ensures replaced { IsReplaced arena.old arena.new pointer R.TYPE (R.inner node) result }
    ensures capacity { SameCapacity arena.old arena.new }
{
    let placed = arena.allocate_reserved(node);
    arena.deallocate(pointer);
    placed.to_opaque()
}
