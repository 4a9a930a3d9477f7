//! Generic callers of nodes. Each is proved from the clauses and laws of its bounds, for every
//! `PREFIX_LEN`, with no lemma but the public laws.
ghost use Rattle.std.specs.Prelude.{◌≡◌, ◌≢◌, ◌+◌, ◌<◌, ◌≤◌, ◌↔◌, length, slice_get, Some, None, IfSome, IsSome, IsTrue};
ghost use Rattle.std.specs.Cmp.Lexicographic.{pointwise};
ghost use Rattle.art_header.specs.Header.{capped};
ghost use Rattle.art_header.specs.NodeType.{least_children, most_children, shrunk_kind};
ghost use Rattle.art_header.specs.declared.node_type.NodeType.TheVariants.{Node4, Node16, Node48, Node256, Leaf};
ghost use Rattle.art_nodes.specs.ChildMap.{child_at, first_pair, last_pair, pairs_within};
ghost use Rattle.std.specs.Option.{option_map};
ghost use Rattle.std.specs.declared.ops.Bound.TheVariants.{Excluded, Unbounded};
ghost use Rattle.art_nodes.specs.Inner.{HasRoomFor, node_with_child};
ghost use Rattle.art_nodes.specs.Pointers.{node_kind, opaque_key, opaque_pointer, slab_key};

use art_nodes::{
    ChildCommand, ChildPairs, ChildReply, ConcreteInnerNodePtr, ConcreteNodePtr, HasOneChild,
    InnerNode, InnerNode4, InnerNode16, InnerNode48, InnerNodeBuilder, InnerNodeCommon,
    InnerNodeDirect, InnerNodeRead, InnerNodeSorted, LeafNode, Node, NodePtr, OpaqueNodePtr,
    OptimisticMismatch, PessimisticMismatch, Sequence,
};

// A child that is written is found.
#[tactic(auto, using(art_nodes::proofs::ChildMapLaws::child_at_written))]
fn write_then_look_up<K, V, const PREFIX_LEN: usize, N: InnerNodeCommon<K, V, PREFIX_LEN>>(
    node: &mut N,
    byte: u8,
    child: OpaqueNodePtr<K, V, PREFIX_LEN>,
) -> Option<OpaqueNodePtr<K, V, PREFIX_LEN>>
    requires { HasRoomFor N.room (N.inner node.old) byte }
    ensures { result ≡ Some child }
{
    node.write_child(byte, child);
    node.lookup_child(byte)
}

// Every other byte keeps its child.
#[tactic(auto, using(art_nodes::proofs::ChildMapLaws::child_at_removed_other))]
fn remove_then_look_up_another<K, V, const PREFIX_LEN: usize, N: InnerNodeCommon<K, V, PREFIX_LEN>>(
    node: &mut N,
    byte: u8,
    other: u8,
) -> Option<OpaqueNodePtr<K, V, PREFIX_LEN>>
    requires { other ≢ byte }
    ensures { result ≡ child_at (N.inner node.old).children other }
{
    node.remove_child(byte);
    node.lookup_child(other)
}

// A node that is not full takes another child.
fn write_where_there_is_room<const PREFIX_LEN: usize, N: InnerNode<PREFIX_LEN>>(
    node: &mut N,
    byte: u8,
    child: OpaqueNodePtr<N::Key, N::Value, PREFIX_LEN>,
) -> bool
    ensures { IsTrue result → N.inner node.new ≡ node_with_child (N.inner node.old) byte child }
{
    if node.is_full() {
        return false;
    }
    node.write_child(byte, child);
    true
}

// A builder with one child takes a second under another byte, where it has spare capacity.
fn write_second<K, V, const PREFIX_LEN: usize, N: InnerNodeCommon<K, V, PREFIX_LEN> + Drop>(
    builder: InnerNodeBuilder<K, V, PREFIX_LEN, N, HasOneChild>,
    byte: u8,
    child: OpaqueNodePtr<K, V, PREFIX_LEN>,
) -> Option<N>
    ensures { IfSome result (λ node.
        N.inner node ≡ node_with_child (N.inner builder) byte child) }
{
    if builder.num_children() >= builder.capacity() || builder.lookup_child(byte).is_some() {
        return None;
    }
    Some(builder.write_child(byte, child).build())
}

// A builder that has one child takes a second one behind it without a search, where its byte is greater.
fn append_second<K, V, const PREFIX_LEN: usize>(
    builder: InnerNodeBuilder<K, V, PREFIX_LEN, InnerNode4<K, V, PREFIX_LEN>, HasOneChild>,
    byte: u8,
    child: OpaqueNodePtr<K, V, PREFIX_LEN>,
) -> Option<InnerNode4<K, V, PREFIX_LEN>>
    ensures { IfSome result (λ node. node ≡ node_with_child builder byte child) }
{
    let last = builder.last_byte()?;
    if byte <= last || builder.num_children() != 1 {
        return None;
    }
    Some(builder.write_child_unchecked(byte, child).build())
}

// A builder in this state has one child.
fn count_of_one<K, V, const PREFIX_LEN: usize, N: InnerNodeCommon<K, V, PREFIX_LEN>>(
    builder: &InnerNodeBuilder<K, V, PREFIX_LEN, N, HasOneChild>,
) -> usize
    ensures { result ≡ 1 }
{
    builder.num_children()
}

// A node that is full grows, and then takes another child.
fn grow_then_write<const PREFIX_LEN: usize, N: InnerNode<PREFIX_LEN>>(
    node: &N,
    byte: u8,
    child: OpaqueNodePtr<N::Key, N::Value, PREFIX_LEN>,
) -> N::GrownNode
    ensures { N.GrownNode.inner result ≡ node_with_child (N.inner node.now) byte child }
{
    let mut grown = node.grow();
    grown.write_child(byte, child);
    grown
}

// Whether a node has so few children that it is to become one of the next smaller kind.
fn has_too_few<const PREFIX_LEN: usize, N: InnerNode<PREFIX_LEN>>(node: &N) -> bool
    ensures { N.TYPE ≢ Node4 → (IsTrue result ↔
        (length (N.inner node.now).children < least_children N.TYPE)) }
{
    N::TYPE.should_shrink_inner_node(node.num_children())
}

// The children of a node of the next smaller kind fit into it.
fn shrink_where_they_fit<const PREFIX_LEN: usize, N: InnerNode<PREFIX_LEN>>(
    node: &N,
) -> N::ShrunkNode
    requires { length (N.inner node.now).children ≤ most_children (shrunk_kind N.TYPE) }
    ensures { N.ShrunkNode.inner result ≡ N.inner node.now }
{
    node.shrink()
}

// A node has no more children than its kind holds.
fn count<const PREFIX_LEN: usize, N: InnerNode<PREFIX_LEN>>(node: &N) -> usize
    ensures { result ≤ most_children N.TYPE }
{
    node.num_children()
}

// The stored prefix and the length of the whole prefix.
fn read_the_prefix<K, V, const PREFIX_LEN: usize, N: InnerNodeCommon<K, V, PREFIX_LEN>>(
    node: &N,
) -> (&[u8], usize)
    ensures stored { result.0.now ≡ (N.inner node.now).stored }
    ensures whole { result.1 ≡ (N.inner node.now).prefix_len }
    ensures capped { length result.0.now ≡ capped PREFIX_LEN result.1 }
{
    (node.stored_prefix(), node.prefix_len())
}

// One step of a search: past a prefix that the key matches and the byte after it, and the child
// there.
fn step<K, V, const PREFIX_LEN: usize, N: InnerNodeCommon<K, V, PREFIX_LEN>>(
    node: &N,
    key: &[u8],
    depth: usize,
) -> Option<(usize, OpaqueNodePtr<K, V, PREFIX_LEN>)>
    requires { depth ≤ length key.now }
    ensures past { IfSome result (λ next. next.0 ≡ depth + (N.inner node.now).prefix_len + 1) }
    ensures within { IfSome result (λ next. next.0 ≤ length key.now) }
{
    let Ok(matched) = node.attempt_pessimistic_match_prefix(&key[depth..]) else {
        return None;
    };
    let end = depth + matched.matched_bytes;
    if end >= key.len() {
        return None;
    }
    let child = node.lookup_child(key[end])?;
    Some((end + 1, child))
}

// The least byte has the child that is returned with it.
#[tactic(auto, using(art_nodes::proofs::ChildMapLaws::child_at_first))]
fn look_up_the_least<K, V, const PREFIX_LEN: usize, N: InnerNodeCommon<K, V, PREFIX_LEN>>(
    node: &N,
) -> Option<OpaqueNodePtr<K, V, PREFIX_LEN>>
    requires { 0 < length (N.inner node.now).children }
    ensures { IsSome result }
{
    let (byte, _) = node.min();
    node.lookup_child(byte)
}

// The least byte above another that has a child, of a node or of a reference to one.
fn least_above<K, V, const PREFIX_LEN: usize, N: InnerNodeRead<K, V, PREFIX_LEN>>(
    node: &N,
    byte: u8,
) -> Option<u8>
    ensures { result ≡ option_map (λ pair. pair.0)
        (first_pair (pairs_within (N.inner node.now).children (Excluded byte) Unbounded)) }
{
    let (above, _) = node.child_above(byte)?;
    Some(above)
}

// Sequences are equal where their items are.
fn are_equal<T: PartialEq>(a: &Sequence<T>, b: &Sequence<T>) -> bool
    ensures { result ≡ pointwise T.eq a.now b.now }
{
    a == b
}

// Where only lengths were compared, there is no byte.
fn without_a_byte(mismatch: OptimisticMismatch) -> PessimisticMismatch
    ensures { result ≡ record { matched_bytes = mismatch.matched_bytes; prefix_byte = None } }
{
    PessimisticMismatch::from(mismatch)
}

// The pointer with a kind and a slab key.
fn points_to<const PREFIX_LEN: usize, N: Node<PREFIX_LEN>>(
    key: usize,
) -> OpaqueNodePtr<N::Key, N::Value, PREFIX_LEN>
    ensures { result ≡ opaque_pointer N.TYPE key }
{
    NodePtr::<PREFIX_LEN, N>::from_key(key).to_opaque()
}

// A pointer by kind points to the node of the pointer that it is made of.
fn node4_by_kind<K, V, const PREFIX_LEN: usize>(
    pointer: NodePtr<PREFIX_LEN, InnerNode4<K, V, PREFIX_LEN>>,
) -> OpaqueNodePtr<K, V, PREFIX_LEN>
    ensures { result ≡ opaque_pointer Node4 (slab_key pointer) }
{
    ConcreteNodePtr::from(pointer).to_opaque()
}

fn node16_by_kind<K, V, const PREFIX_LEN: usize>(
    pointer: NodePtr<PREFIX_LEN, InnerNode16<K, V, PREFIX_LEN>>,
) -> OpaqueNodePtr<K, V, PREFIX_LEN>
    ensures { result ≡ opaque_pointer Node16 (slab_key pointer) }
{
    ConcreteNodePtr::from(pointer).to_opaque()
}

fn node48_by_kind<K, V, const PREFIX_LEN: usize>(
    pointer: NodePtr<PREFIX_LEN, InnerNode48<K, V, PREFIX_LEN>>,
) -> OpaqueNodePtr<K, V, PREFIX_LEN>
    ensures { result ≡ opaque_pointer Node48 (slab_key pointer) }
{
    ConcreteNodePtr::from(pointer).to_opaque()
}

fn node256_by_kind<K, V, const PREFIX_LEN: usize>(
    pointer: NodePtr<PREFIX_LEN, InnerNodeDirect<K, V, PREFIX_LEN>>,
) -> OpaqueNodePtr<K, V, PREFIX_LEN>
    ensures { result ≡ opaque_pointer Node256 (slab_key pointer) }
{
    ConcreteNodePtr::from(pointer).to_opaque()
}

fn leaf_by_kind<K, V, const PREFIX_LEN: usize>(
    pointer: NodePtr<PREFIX_LEN, LeafNode<K, V, PREFIX_LEN>>,
) -> OpaqueNodePtr<K, V, PREFIX_LEN>
    ensures { result ≡ opaque_pointer Leaf (slab_key pointer) }
{
    ConcreteNodePtr::from(pointer).to_opaque()
}

// So does one to an inner node.
fn inner_node4_by_kind<K, V, const PREFIX_LEN: usize>(
    pointer: NodePtr<PREFIX_LEN, InnerNode4<K, V, PREFIX_LEN>>,
) -> OpaqueNodePtr<K, V, PREFIX_LEN>
    ensures { result ≡ opaque_pointer Node4 (slab_key pointer) }
{
    ConcreteInnerNodePtr::from(pointer).to_opaque()
}

fn inner_node16_by_kind<K, V, const PREFIX_LEN: usize>(
    pointer: NodePtr<PREFIX_LEN, InnerNode16<K, V, PREFIX_LEN>>,
) -> OpaqueNodePtr<K, V, PREFIX_LEN>
    ensures { result ≡ opaque_pointer Node16 (slab_key pointer) }
{
    ConcreteInnerNodePtr::from(pointer).to_opaque()
}

fn inner_node48_by_kind<K, V, const PREFIX_LEN: usize>(
    pointer: NodePtr<PREFIX_LEN, InnerNode48<K, V, PREFIX_LEN>>,
) -> OpaqueNodePtr<K, V, PREFIX_LEN>
    ensures { result ≡ opaque_pointer Node48 (slab_key pointer) }
{
    ConcreteInnerNodePtr::from(pointer).to_opaque()
}

fn inner_node256_by_kind<K, V, const PREFIX_LEN: usize>(
    pointer: NodePtr<PREFIX_LEN, InnerNodeDirect<K, V, PREFIX_LEN>>,
) -> OpaqueNodePtr<K, V, PREFIX_LEN>
    ensures { result ≡ opaque_pointer Node256 (slab_key pointer) }
{
    ConcreteInnerNodePtr::from(pointer).to_opaque()
}

// The default pointer is the one of the first kind and the first slab key.
fn default_pointer<K, V, const PREFIX_LEN: usize>() -> OpaqueNodePtr<K, V, PREFIX_LEN>
    ensures { result ≡ opaque_pointer Node4 0 }
{
    OpaqueNodePtr::default()
}

// A sorted node converted to a direct node is the same node.
fn direct_from_sorted<K, V, const PREFIX_LEN: usize, const SIZE: usize>(
    node: &InnerNodeSorted<K, V, PREFIX_LEN, SIZE>,
) -> InnerNodeDirect<K, V, PREFIX_LEN>
    ensures { result ≡ node.now }
{
    InnerNodeDirect::from(node)
}

// The first and the last pair, taken from both ends of one iterator, and the pair after the first: no
// pair comes twice.
fn from_both_ends<K, V, const PREFIX_LEN: usize, N: InnerNodeCommon<K, V, PREFIX_LEN>>(
    node: &N,
) -> (
    (u8, OpaqueNodePtr<K, V, PREFIX_LEN>),
    (u8, OpaqueNodePtr<K, V, PREFIX_LEN>),
    Option<(u8, OpaqueNodePtr<K, V, PREFIX_LEN>)>,
)
    requires { 2 ≤ length (N.inner node.now).children }
    ensures first { first_pair (N.inner node.now).children ≡ Some result.0 }
    ensures last { last_pair (N.inner node.now).children ≡ Some result.1 }
    ensures none_between { length (N.inner node.now).children ≡ 2 → result.2 ≡ None }
    ensures second { 2 < length (N.inner node.now).children →
        result.2 ≡ slice_get (N.inner node.now).children 1 }
{
    let mut children = node.iter();
    let first = children.next().unwrap();
    let last = children.next_back().unwrap();
    (first, last, children.next())
}

// Pointers are equal where their keys are.
fn same_node<const PREFIX_LEN: usize, N>(
    a: NodePtr<PREFIX_LEN, N>,
    b: NodePtr<PREFIX_LEN, N>,
) -> bool
    ensures { IsTrue result ↔ (slab_key a ≡ slab_key b) }
{
    a == b
}

// Pointers to nodes of any kind are equal where their kinds and their keys are.
fn same_opaque_node<K, V, const PREFIX_LEN: usize>(
    a: OpaqueNodePtr<K, V, PREFIX_LEN>,
    b: OpaqueNodePtr<K, V, PREFIX_LEN>,
) -> bool
    ensures { IsTrue result ↔ ((node_kind a ≡ node_kind b) × (opaque_key a ≡ opaque_key b)) }
{
    a == b
}

// Commands are equal where they are the same command.
fn same_command<K, V, const PREFIX_LEN: usize>(
    a: &ChildCommand<K, V, PREFIX_LEN>,
    b: &ChildCommand<K, V, PREFIX_LEN>,
) -> bool
    ensures { IsTrue result ↔ (a.now ≡ b.now) }
{
    a == b
}

// Replies with a child, or none, are equal where they have the same one.
fn same_child_reply<K, V, const PREFIX_LEN: usize>(
    a: Option<OpaqueNodePtr<K, V, PREFIX_LEN>>,
    b: Option<OpaqueNodePtr<K, V, PREFIX_LEN>>,
) -> bool
    ensures { IsTrue result ↔ (a ≡ b) }
{
    ChildReply::Child(a) == ChildReply::Child(b)
}

// Replies with a pair, or none, are equal where they have the same one.
fn same_pair_reply<K, V, const PREFIX_LEN: usize>(
    a: Option<(u8, OpaqueNodePtr<K, V, PREFIX_LEN>)>,
    b: Option<(u8, OpaqueNodePtr<K, V, PREFIX_LEN>)>,
) -> bool
    ensures { IsTrue result ↔ (a ≡ b) }
{
    ChildReply::Pair(a) == ChildReply::Pair(b)
}

// Replies with pairs are equal where they have the same ones, in the same order.
fn same_pairs_reply<K, V, const PREFIX_LEN: usize>(
    a: ChildPairs<K, V, PREFIX_LEN>,
    b: ChildPairs<K, V, PREFIX_LEN>,
) -> bool
    ensures { IsTrue result ↔ (a ≡ b) }
{
    ChildReply::Pairs(a) == ChildReply::Pairs(b)
}

// A reply with a child equals none of another kind.
fn child_reply_is_a_pair<K, V, const PREFIX_LEN: usize>(
    child: Option<OpaqueNodePtr<K, V, PREFIX_LEN>>,
    pair: Option<(u8, OpaqueNodePtr<K, V, PREFIX_LEN>)>,
) -> bool
    ensures { ¬ (IsTrue result) }
{
    ChildReply::Child(child) == ChildReply::Pair(pair)
        || ChildReply::Child(child) == ChildReply::InvalidBounds
}
