//! The arena: five slabs, one for each kind of node.
ghost use Rattle.std.specs.Prelude.{◌≡◌, ◌≢◌, ◌↔◌, ℕ, ◌+◌, ◌<◌, ◌≤◌, IsTrue, Some, IfOk, IfErr, OnOk, OnErr, IsOk};
ghost use Rattle.std.specs.Borrow.{sem};
ghost use Rattle.std.specs.Option.{option_copied, option_map};
ghost use Rattle.art_header.specs.declared.node_type.NodeType.TheVariants as NodeType;
ghost use Rattle.art_header.specs.NodeType.{most_children};
ghost use Rattle.art_nodes.specs.ChildMap.{child_at};
ghost use Rattle.art_nodes.specs.Inner.{HasRoomFor, IsInner, node_with_child, node_with_prefix_of, node_without_child};
ghost use Rattle.art_nodes.specs.Leaf.{leaf_key, leaf_value, with_value};
ghost use Rattle.art_nodes.specs.Pointers.{slab_key, node_kind, opaque_pointer};
ghost use Rattle.art_arena.specs.Links.{HoldsLeaf, leaf_at, with_value_at};
ghost use Rattle.art_arena.specs.Reader.{shown, shown_kind};
ghost use Rattle.art_arena.specs.Lending.{LendsArenaValue, LendsNode};
ghost use Rattle.art_arena.specs.Arena.{held, held_option, Nothing, HeldInner, HeldLeaf, held_header, Changes, SameNodes, capacity, leaf_count, room, SameRoom, SameOtherRoom, SameCapacity, SameOtherCapacity, slab_room, with_node};

mod arena_node;

use crate::reader::NodeRef;
pub use arena_node::{ArenaInnerNode, ArenaNode};
use art_nodes::{
    ConcreteNodePtr, Header, InnerNode4, InnerNode16, InnerNode48, InnerNode256, InnerNodeCommon,
    InnerNodeRead, LeafNode, Node, NodePtr, NodeType, OpaqueNodePtr,
};
use slab::Slab;
use std::alloc::{AllocError, Global};
use std::marker::Model;
use std::mem;

/// Five slabs. Callers name it [`NodeArena`].
#[derive(Drop)]
pub struct Slabs<A, B, C, D, L> {
    node4: Slab<A>,
    node16: Slab<B>,
    node48: Slab<C>,
    node256: Slab<D>,
    leaf: Slab<L>,
}

impl<A, B, C, D, L> Model for Slabs<A, B, C, D, L> {
    ghost use Rattle.art_arena.specs.Arena.{Slabs as Shown};

    ghost Value = { Shown A B C D L };

    ghost view = { λ a. record {
      node4 = a.node4;
      node16 = a.node16;
      node48 = a.node48;
      node256 = a.node256;
      leaf = a.leaf;
    } };
}

/// The nodes of trees, kept by kind under slab keys.
///
/// A contract sees the node at each pointer (`held`), and for each kind its spare capacity
/// (`room`): how many more nodes of the kind can be allocated without memory. A call changes at
/// most the node that it names. Only `allocate_node_ptr` and `reserve` take memory. Each call but
/// `clear` takes a constant number of steps, unless a slab grows.
///
/// The type names its nodes, so whoever has an arena knows that they fit in memory.
///
/// Three leaves, one of which is deallocated again (`put` is an `allocate_node_ptr` that must
/// succeed):
///
/// (from tests/art_tree_tests/arena/calls/three_leaves.rt.txt)
/// ```rust
/// arena.reserve(NodeType::Leaf, 3)?;
/// let first = put(&rt, arena, Leaf::with_no_siblings([1], 1));
/// let second = put(&rt, arena, Leaf::with_no_siblings([2], 2));
/// let third = put(&rt, arena, Leaf::with_no_siblings([3], 3));
/// // ..
/// arena.deallocate_node_ptr(second);
/// assert!(rt; arena.holds(first) && !arena.holds(second) && arena.holds(third));
/// ```
pub type NodeArena<K, V, const PREFIX_LEN: usize> = Slabs<
    InnerNode4<K, V, PREFIX_LEN>,
    InnerNode16<K, V, PREFIX_LEN>,
    InnerNode48<K, V, PREFIX_LEN>,
    InnerNode256<K, V, PREFIX_LEN>,
    LeafNode<K, V, PREFIX_LEN>,
>;

/// The pointer to a leaf.
pub type LeafPtr<K, V, const PREFIX_LEN: usize> = NodePtr<PREFIX_LEN, LeafNode<K, V, PREFIX_LEN>>;

// Evaluates an expression on the pointer to an inner node.
macro_rules! with_inner {
    ($pointer:expr, $node:ident => $run:expr) => {
        match $pointer.to_node_ptr() {
            ConcreteNodePtr::Node4($node) => $run,
            ConcreteNodePtr::Node16($node) => $run,
            ConcreteNodePtr::Node48($node) => $run,
            ConcreteNodePtr::Node256($node) => $run,
            ConcreteNodePtr::LeafNode(_) => unreachable!(),
        }
    };
}

// Whether a slab takes one more value without memory.
fn has_spare_slot<T>(slots: &Slab<T>) -> bool
    ensures { IsTrue result ↔ (0 < slab_room slots.now) }
{
    slots.len() < slots.capacity()
}

impl<K, V, const PREFIX_LEN: usize> NodeArena<K, V, PREFIX_LEN> {
    /// An arena without nodes. It takes no memory, and keeps the allocator.
    pub fn new(alloc: Global) -> Self
        ensures empty { (pointer : _) → held result pointer ≡ Nothing }
        ensures no_room { (kind : NodeType) → room result kind ≡ 0 }
    {
        Slabs {
            node4: Slab::new(alloc),
            node16: Slab::new(alloc),
            node48: Slab::new(alloc),
            node256: Slab::new(alloc),
            leaf: Slab::new(alloc),
        }
    }

    /// The number of leaves in the arena. Takes no memory.
    pub fn leaf_count(&self) -> usize
        ensures { result ≡ leaf_count self.now }
    {
        self.leaf.len()
    }

    /// Whether the arena holds a node of this type at the pointer.
    pub fn holds<N: ArenaNode<K, V, PREFIX_LEN>>(&self, ptr: NodePtr<PREFIX_LEN, N>) -> bool
        ensures { IsTrue result ↔ (held self.now (opaque_pointer N.TYPE (slab_key ptr)) ≢ Nothing) }
    {
        N::slab(self).contains(ptr.key())
    }

    /// The node at the pointer. The arena must hold one there.
    pub fn as_ref<N: ArenaNode<K, V, PREFIX_LEN>>(&self, ptr: NodePtr<PREFIX_LEN, N>) -> &N
        requires { held self.now (opaque_pointer N.TYPE (slab_key ptr)) ≢ Nothing }
        ensures { held self.now (opaque_pointer N.TYPE (slab_key ptr)) ≡ N.held_as result.now }
    {
        N::slab(self).get(ptr.key()).unwrap()
    }

    /// The node at the pointer, if the arena holds one there.
    pub fn get<N: ArenaNode<K, V, PREFIX_LEN>>(&self, ptr: NodePtr<PREFIX_LEN, N>) -> Option<&N>
        ensures { held self.now (opaque_pointer N.TYPE (slab_key ptr)) ≡ held_option N.held_as
            (option_copied result) }
    {
        N::slab(self).get(ptr.key())
    }

    /// Adds the node and returns its pointer, which held nothing before.
    ///
    /// Takes no memory where the kind has spare capacity, which [`NodeArena::reserve`] makes. On
    /// allocation failure it returns the node, and every node of the arena is unchanged.
    pub fn allocate_node_ptr<N: ArenaNode<K, V, PREFIX_LEN>>(
        &mut self,
        node: N,
    ) -> Result<NodePtr<PREFIX_LEN, N>, (AllocError, N)>
        ensures was_free { IfOk result
            (λ ptr. held self.old (opaque_pointer N.TYPE (slab_key ptr)) ≡ Nothing) }
        ensures added { IfOk result
            (λ ptr. Changes self.old self.new (opaque_pointer N.TYPE (slab_key ptr))
            (N.held_as node)) }
        ensures is_held { IfOk result
            (λ ptr. held self.new (opaque_pointer N.TYPE (slab_key ptr)) ≢ Nothing) }
        ensures room { OnOk result (room self.old N.TYPE ≤ room self.new N.TYPE + 1) }
        ensures takes_no_memory { OnOk result
            (0 < room self.old N.TYPE → room self.old N.TYPE ≡ room self.new N.TYPE + 1) }
        ensures no_growth { 0 < room self.old N.TYPE → SameCapacity self.old self.new }
        ensures other_room { SameOtherRoom self.old self.new N.TYPE }
        ensures other_capacity { SameOtherCapacity self.old self.new N.TYPE }
        ensures succeeds { 0 < room self.old N.TYPE → IsOk result }
        ensures nodes_kept { OnErr result (SameNodes self.old self.new) }
        ensures node_back { IfErr result (λ fault. fault.1 ≡ node) }
    {
        match N::slab_mut(self).insert(node) {
            Ok(key) => Ok(NodePtr::from_key(key)),
            Err(failed) => Err((AllocError, failed.value)),
        }
    }

    /// Whether there is spare capacity for a node of the kind: one more can be allocated without
    /// memory. Takes constant time and no memory.
    pub fn has_room(&self, kind: NodeType) -> bool
        ensures { IsTrue result ↔ (0 < room self.now kind) }
    {
        match kind {
            NodeType::Node4 => has_spare_slot(&self.node4),
            NodeType::Node16 => has_spare_slot(&self.node16),
            NodeType::Node48 => has_spare_slot(&self.node48),
            NodeType::Node256 => has_spare_slot(&self.node256),
            NodeType::Leaf => has_spare_slot(&self.leaf),
        }
    }

    /// Allocates a node of a kind with spare capacity, and returns its pointer. Unlike
    /// [`NodeArena::allocate_node_ptr`] it cannot fail, so it copies the node once less. Condition:
    /// there is spare capacity for the kind, which [`NodeArena::has_room`] tests. Takes no memory.
    pub fn allocate_reserved<N: ArenaNode<K, V, PREFIX_LEN>>(
        &mut self,
        node: N,
    ) -> NodePtr<PREFIX_LEN, N>
        requires { 0 < room self.old N.TYPE }
        ensures was_free { held self.old (opaque_pointer N.TYPE (slab_key result)) ≡ Nothing }
        ensures added { Changes self.old self.new (opaque_pointer N.TYPE (slab_key result))
            (N.held_as node) }
        ensures is_held { held self.new (opaque_pointer N.TYPE (slab_key result)) ≢ Nothing }
        ensures room { room self.old N.TYPE ≡ room self.new N.TYPE + 1 }
        ensures other_room { SameOtherRoom self.old self.new N.TYPE }
        ensures capacity { SameCapacity self.old self.new }
    {
        let key = N::slab_mut(self).insert_reserved(node);
        NodePtr::from_key(key)
    }

    /// Makes spare capacity for `additional` more nodes of the kind: that many allocations of the
    /// kind then succeed. Where there is so much already, it succeeds and nothing grows. On
    /// allocation failure every node and the spare capacity of the other kinds are unchanged, and
    /// this kind has no less.
    pub fn reserve(&mut self, kind: NodeType, additional: usize) -> Result<(), AllocError>
        ensures room { OnOk result (additional ≤ room self.new kind) }
        ensures succeeds { additional ≤ room self.old kind → IsOk result }
        ensures had_room { additional ≤ room self.old kind → SameRoom self.old self.new }
        ensures no_less_room { room self.old kind ≤ room self.new kind }
        ensures nodes_kept { SameNodes self.old self.new }
        ensures other_room { SameOtherRoom self.old self.new kind }
        ensures other_capacity { SameOtherCapacity self.old self.new kind }
    {
        match kind {
            NodeType::Node4 => self.reserve_slots::<InnerNode4<K, V, PREFIX_LEN>>(additional),
            NodeType::Node16 => self.reserve_slots::<InnerNode16<K, V, PREFIX_LEN>>(additional),
            NodeType::Node48 => self.reserve_slots::<InnerNode48<K, V, PREFIX_LEN>>(additional),
            NodeType::Node256 => {
                self.reserve_slots::<InnerNode256<K, V, PREFIX_LEN>>(additional)
            }
            NodeType::Leaf => self.reserve_slots::<LeafNode<K, V, PREFIX_LEN>>(additional),
        }
    }

    // Makes spare capacity for so many more nodes of this type.
    fn reserve_slots<N: ArenaNode<K, V, PREFIX_LEN>>(
        &mut self,
        additional: usize,
    ) -> Result<(), AllocError>
        ensures room { OnOk result (additional ≤ room self.new N.TYPE) }
        ensures succeeds { additional ≤ room self.old N.TYPE → IsOk result }
        ensures had_room { additional ≤ room self.old N.TYPE → SameRoom self.old self.new }
        ensures no_less_room { room self.old N.TYPE ≤ room self.new N.TYPE }
        ensures nodes_kept { SameNodes self.old self.new }
        ensures other_room { SameOtherRoom self.old self.new N.TYPE }
        ensures other_capacity { SameOtherCapacity self.old self.new N.TYPE }
    {
        if additional == 0 {
            return Ok(());
        }
        N::slab_mut(self).reserve(additional)
    }

    /// Removes the node at the pointer and returns it. The arena must hold one there, and holds
    /// nothing there afterwards. Takes no memory.
    pub fn deallocate_node_ptr<N: ArenaNode<K, V, PREFIX_LEN>>(
        &mut self,
        ptr: NodePtr<PREFIX_LEN, N>,
    ) -> N
        requires { held self.old (opaque_pointer N.TYPE (slab_key ptr)) ≢ Nothing }
        ensures node { held self.old (opaque_pointer N.TYPE (slab_key ptr)) ≡ N.held_as result }
        ensures removed { Changes self.old self.new (opaque_pointer N.TYPE (slab_key ptr)) Nothing }
        ensures room { room self.old N.TYPE ≤ room self.new N.TYPE }
        ensures takes_no_memory { room self.new N.TYPE ≤ room self.old N.TYPE + 1 }
        ensures capacity { SameCapacity self.old self.new }
        ensures other_room { SameOtherRoom self.old self.new N.TYPE }
    {
        N::slab_mut(self).remove(ptr.key())
    }

    /// A mutable reference to the node at the pointer. The arena must hold one there, and ends with
    /// the node that the caller leaves there; every other node and the spare capacity of each kind
    /// are unchanged.
    pub fn as_mut<N: ArenaNode<K, V, PREFIX_LEN>>(&mut self, ptr: NodePtr<PREFIX_LEN, N>) -> &mut N
        requires { held self.old (opaque_pointer N.TYPE (slab_key ptr)) ≢ Nothing }
        ensures* writes_back { sem 𝓛
            (LendsNode K.row V.row PREFIX_LEN.row N.row N.slab_of N.with_slab self.entry
            (slab_key ptr) result) }
        ensures node { held self.old (opaque_pointer N.TYPE (slab_key ptr)) ≡ N.held_as result.now }
        ensures changes { (now : _) →
            Changes self.old (with_node N.slab_of N.with_slab self.old (slab_key ptr) now)
            (opaque_pointer N.TYPE (slab_key ptr)) (N.held_as now) }
        ensures room { (now : _) →
            SameRoom self.old (with_node N.slab_of N.with_slab self.old (slab_key ptr) now) }
    {
        &mut N::slab_mut(self)[ptr.key()]
    }

    /// Replaces the node at the pointer and returns the old one. The arena must hold one there.
    /// Takes no memory.
    pub fn replace<N: ArenaNode<K, V, PREFIX_LEN>>(
        &mut self,
        ptr: NodePtr<PREFIX_LEN, N>,
        node: N,
    ) -> N
        requires { held self.old (opaque_pointer N.TYPE (slab_key ptr)) ≢ Nothing }
        ensures replaced_node { held self.old (opaque_pointer N.TYPE (slab_key ptr))
            ≡ N.held_as result }
        ensures replaced { Changes self.old self.new (opaque_pointer N.TYPE (slab_key ptr))
            (N.held_as node) }
        ensures is_held { held self.new (opaque_pointer N.TYPE (slab_key ptr)) ≢ Nothing }
        ensures room { SameRoom self.old self.new }
    {
        mem::replace(self.as_mut(ptr), node)
    }

    /// The key and the value of a leaf. The arena must hold the leaf.
    pub fn as_key_value_ref(&self, ptr: LeafPtr<K, V, PREFIX_LEN>) -> (&K, &V)
        requires { HoldsLeaf self.now (slab_key ptr) }
        ensures key { option_map leaf_key (leaf_at self.now (slab_key ptr)) ≡ Some result.0.now }
        ensures value { option_map leaf_value (leaf_at self.now (slab_key ptr))
            ≡ Some result.1.now }
    {
        self.as_ref(ptr).entry_ref()
    }

    /// The key of a leaf, and a mutable reference to its value. The arena must hold the leaf, and
    /// ends with the value that the caller leaves there. The leaf's links and every other node are
    /// unchanged.
    pub fn as_key_ref_value_mut(&mut self, ptr: LeafPtr<K, V, PREFIX_LEN>) -> (&K, &mut V)
        requires { HoldsLeaf self.old (slab_key ptr) }
        ensures* writes_back { sem 𝓛
            (LendsArenaValue K.row V.row PREFIX_LEN.row self.entry (slab_key ptr) result.1) }
        ensures key { option_map leaf_key (leaf_at self.old (slab_key ptr)) ≡ Some result.0.now }
        ensures value { option_map leaf_value (leaf_at self.old (slab_key ptr))
            ≡ Some result.1.now }
        ensures changes { (leaf value : _) →
            leaf_at self.old (slab_key ptr) ≡ Some leaf →
            Changes self.old (with_value_at self.old (slab_key ptr) value)
            (opaque_pointer NodeType.Leaf (slab_key ptr)) (HeldLeaf (with_value leaf value)) }
        ensures room { (value : _) →
            SameRoom self.old (with_value_at self.old (slab_key ptr) value) }
    {
        self.as_mut(ptr).key_ref_value_mut()
    }

    /// The key of a leaf. The arena must hold the leaf.
    pub fn as_key_ref(&self, ptr: LeafPtr<K, V, PREFIX_LEN>) -> &K
        requires { HoldsLeaf self.now (slab_key ptr) }
        ensures { option_map leaf_key (leaf_at self.now (slab_key ptr)) ≡ Some result.now }
    {
        self.as_ref(ptr).key_ref()
    }

    /// The value of a leaf. The arena must hold the leaf.
    pub fn as_value_ref(&self, ptr: LeafPtr<K, V, PREFIX_LEN>) -> &V
        requires { HoldsLeaf self.now (slab_key ptr) }
        ensures { option_map leaf_value (leaf_at self.now (slab_key ptr)) ≡ Some result.now }
    {
        self.as_ref(ptr).value_ref()
    }

    /// A mutable reference to the value of a leaf. The arena must hold the leaf, and ends with the
    /// value that the caller leaves there. The leaf's key and links and every other node are
    /// unchanged.
    pub fn as_value_mut(&mut self, ptr: LeafPtr<K, V, PREFIX_LEN>) -> &mut V
        requires { HoldsLeaf self.old (slab_key ptr) }
        ensures* writes_back { sem 𝓛
            (LendsArenaValue K.row V.row PREFIX_LEN.row self.entry (slab_key ptr) result) }
        ensures value { option_map leaf_value (leaf_at self.old (slab_key ptr)) ≡ Some result.now }
        ensures changes { (leaf value : _) →
            leaf_at self.old (slab_key ptr) ≡ Some leaf →
            Changes self.old (with_value_at self.old (slab_key ptr) value)
            (opaque_pointer NodeType.Leaf (slab_key ptr)) (HeldLeaf (with_value leaf value)) }
        ensures room { (value : _) →
            SameRoom self.old (with_value_at self.old (slab_key ptr) value) }
    {
        self.as_mut(ptr).value_mut()
    }

    /// The header of an inner node, or None for a leaf. The arena must hold a node at the pointer.
    pub fn header(&self, pointer: OpaqueNodePtr<K, V, PREFIX_LEN>) -> Option<&Header<PREFIX_LEN>>
        requires { held self.now pointer ≢ Nothing }
        ensures header { option_copied result ≡ held_header (held self.now pointer) }
        ensures sound { (node : _) → held self.now pointer ≡ HeldInner node →
            IsInner PREFIX_LEN (most_children (node_kind pointer)) node }
    {
        match self.node_ref(pointer) {
            NodeRef::Node4(node) => Some(node.header()),
            NodeRef::Node16(node) => Some(node.header()),
            NodeRef::Node48(node) => Some(node.header()),
            NodeRef::Node256(node) => Some(node.header()),
            NodeRef::LeafNode(_) => None,
        }
    }

    /// Gives an inner node the compressed prefix of this header: its length and its stored bytes.
    /// Its children and every other node are unchanged. The arena must hold a node at the pointer,
    /// and not a leaf.
    pub fn set_prefix(
        &mut self,
        pointer: OpaqueNodePtr<K, V, PREFIX_LEN>,
        header: &Header<PREFIX_LEN>,
    )
        requires held { held self.old pointer ≢ Nothing }
        requires inner { node_kind pointer ≢ NodeType.Leaf }
        ensures prefix { (node : _) →
            held self.old pointer ≡ HeldInner node →
            Changes self.old self.new pointer (HeldInner (node_with_prefix_of node header.now)) }
        ensures room { SameRoom self.old self.new }
    {
        with_inner!(pointer, node => self.as_mut(node).set_prefix(header))
    }

    /// Writes the child under the byte of an inner node, and replaces any that is there. The node's
    /// prefix and every other node are unchanged. The arena must hold a node at the pointer, and not
    /// a leaf; under a new byte, the node has fewer children than its kind holds. Takes no memory.
    pub fn write_child(
        &mut self,
        pointer: OpaqueNodePtr<K, V, PREFIX_LEN>,
        key_fragment: u8,
        child_pointer: OpaqueNodePtr<K, V, PREFIX_LEN>,
    )
        requires held { held self.old pointer ≢ Nothing }
        requires inner { node_kind pointer ≢ NodeType.Leaf }
        requires has_room { (node : _) → held self.old pointer ≡ HeldInner node →
            HasRoomFor (most_children (node_kind pointer)) node key_fragment }
        ensures written { (node : _) → held self.old pointer ≡ HeldInner node →
            Changes self.old self.new pointer
            (HeldInner (node_with_child node key_fragment child_pointer)) }
        ensures room { SameRoom self.old self.new }
    {
        with_inner!(pointer, node => self.as_mut(node).write_child(key_fragment, child_pointer))
    }

    /// Removes the child under the byte of an inner node and returns it. Without a child there it
    /// returns None and changes nothing. The node's prefix and kind and every other node are
    /// unchanged; it may be left with one child or none. The arena must hold a node at the pointer,
    /// and not a leaf. Takes no memory.
    pub fn remove_child(
        &mut self,
        pointer: OpaqueNodePtr<K, V, PREFIX_LEN>,
        key_fragment: u8,
    ) -> Option<OpaqueNodePtr<K, V, PREFIX_LEN>>
        requires held { held self.old pointer ≢ Nothing }
        requires inner { node_kind pointer ≢ NodeType.Leaf }
        ensures child { (node : _) → held self.old pointer ≡ HeldInner node →
            result ≡ child_at node.children key_fragment }
        ensures removed { (node : _) → held self.old pointer ≡ HeldInner node →
            Changes self.old self.new pointer
            (HeldInner (node_without_child node key_fragment)) }
        ensures room { SameRoom self.old self.new }
    {
        with_inner!(pointer, node => self.as_mut(node).remove_child(key_fragment))
    }

    /// Removes an inner node from the arena. Its children stay where they are. The arena must hold a
    /// node at the pointer, and not a leaf, and holds nothing there afterwards. Takes no memory.
    pub fn deallocate(&mut self, pointer: OpaqueNodePtr<K, V, PREFIX_LEN>)
        requires held { held self.old pointer ≢ Nothing }
        requires inner { node_kind pointer ≢ NodeType.Leaf }
        ensures removed { Changes self.old self.new pointer Nothing }
        ensures room { room self.old (node_kind pointer) ≤ room self.new (node_kind pointer) }
        ensures takes_no_memory { let kind = node_kind pointer in
            room self.new kind ≤ room self.old kind + 1 }
        ensures capacity { SameCapacity self.old self.new }
        ensures other_room { SameOtherRoom self.old self.new (node_kind pointer) }
    {
        with_inner!(pointer, node => {
            self.deallocate_node_ptr(node);
        })
    }

    /// Whether the arena holds a node of the pointer's kind there.
    pub fn holds_opaque(&self, ptr: OpaqueNodePtr<K, V, PREFIX_LEN>) -> bool
        ensures { IsTrue result ↔ (held self.now ptr ≢ Nothing) }
    {
        match ptr.to_node_ptr() {
            ConcreteNodePtr::Node4(node) => self.node4.contains(node.key()),
            ConcreteNodePtr::Node16(node) => self.node16.contains(node.key()),
            ConcreteNodePtr::Node48(node) => self.node48.contains(node.key()),
            ConcreteNodePtr::Node256(node) => self.node256.contains(node.key()),
            ConcreteNodePtr::LeafNode(leaf) => self.leaf.contains(leaf.key()),
        }
    }

    /// The node at a pointer, of any kind. The arena must hold one there.
    pub fn node_ref(
        &self,
        pointer: OpaqueNodePtr<K, V, PREFIX_LEN>,
    ) -> NodeRef<'_, K, V, PREFIX_LEN>
        requires { held self.now pointer ≢ Nothing }
        ensures node { held self.now pointer ≡ shown result }
        ensures kind { shown_kind result ≡ node_kind pointer }
    {
        match pointer.to_node_ptr() {
            ConcreteNodePtr::Node4(node) => NodeRef::Node4(self.node4.get(node.key()).unwrap()),
            ConcreteNodePtr::Node16(node) => NodeRef::Node16(self.node16.get(node.key()).unwrap()),
            ConcreteNodePtr::Node48(node) => NodeRef::Node48(self.node48.get(node.key()).unwrap()),
            ConcreteNodePtr::Node256(node) => NodeRef::Node256(
                self.node256.get(node.key()).unwrap(),
            ),
            ConcreteNodePtr::LeafNode(leaf) => NodeRef::LeafNode(
                self.leaf.get(leaf.key()).unwrap(),
            ),
        }
    }
}

impl<K: Drop, V: Drop, const PREFIX_LEN: usize> NodeArena<K, V, PREFIX_LEN> {
    /// Removes every node. The capacity of each kind is unchanged. Takes no memory, and time linear in
    /// the most nodes of each kind that were there at once since the arena was made or last cleared.
    pub fn clear(&mut self)
        ensures empty { (pointer : _) → held self.new pointer ≡ Nothing }
        ensures room { (kind : NodeType) → room self.new kind ≡ capacity self.old kind }
        ensures capacity { SameCapacity self.old self.new }
    {
        self.node4.clear();
        self.node16.clear();
        self.node48.clear();
        self.node256.clear();
        self.leaf.clear();
    }
}
