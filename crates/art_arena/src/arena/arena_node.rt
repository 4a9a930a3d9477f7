//! The slabs of an arena, one for each kind of node.
ghost use Rattle.std.specs.Prelude.{◌≡◌};
ghost use Rattle.std.specs.Borrow.{Lends, sem};
ghost use Rattle.std.proofs.Common.{refl, rules};
ghost use Rattle.art_arena.specs.Arena.{HeldInner, HeldLeaf};
ghost use Rattle.art_arena.specs.Lending.{slab_row};
ghost use Rattle.art_arena.specs.SlabLaws.{inner_slab, leaf_slab};

use crate::arena::NodeArena;
use art_nodes::{
    InnerNode4, InnerNode16, InnerNode48, InnerNode256, InnerNodeCommon, LeafNode, Node,
};
use slab::Slab;

/// A node that is kept in one slab of an arena.
pub trait InSlab<A>: Sized {
    ghost use Rattle.slab.specs.Slab.{Slab as Slots};

    /// The slab of these nodes in an arena.
    ghost slab_of: { A → Slots Self };

    /// The arena with this slab in the place of that one.
    ghost with_slab: { A → Slots Self → A };

    /// The slab of these nodes.
    fn slab(arena: &A) -> &Slab<Self>
        ensures { result.now ≡ slab_of arena.now };

    /// A mutable reference to that slab. The rest of the arena is unchanged.
    fn slab_mut(arena: &mut A) -> &mut Slab<Self>
        ensures* writes_back { sem 𝓛
            (Lends A.row (slab_row Self.row) arena.entry result (with_slab arena.entry.now)) }
        ensures value { result.now ≡ slab_of arena.old };
}

/// A node that an arena keeps: the four kinds of inner nodes and the leaf. No other type can be
/// one, since no other is a [`Node`]. Code that is generic over it works on nodes of each kind:
///
/// (from crates/art_tree_tests/src/arena.rt)
/// ```rust
/// fn put<K, V, const PREFIX_LEN: usize, N: ArenaNode<K, V, PREFIX_LEN> + Drop>(
///     rt: &impl Abort,
///     arena: &mut NodeArena<K, V, PREFIX_LEN>,
///     node: N,
/// ) -> NodePtr<PREFIX_LEN, N> {
///     let Ok(ptr) = arena.allocate_node_ptr(node) else {
///         panic!(rt; "an allocation was refused");
///     };
///     ptr
/// }
/// ```
pub trait ArenaNode<K, V, const PREFIX_LEN: usize>: Node<PREFIX_LEN, Key = K, Value = V>
    + InSlab<NodeArena<K, V, PREFIX_LEN>> {
    ghost use Rattle.art_arena.specs.Arena.{Held};
    ghost use Rattle.art_arena.specs.SlabOf.{IsSlabOf};
    ghost use Rattle.art_nodes.specs.declared.pointers.OpaqueNodePtr.{OpaqueNodePtr};
    ghost use Rattle.art_nodes.specs.declared.leaf_node.LeafNode.{LeafNode};

    /// The node as contracts see what an arena holds.
    ghost held_as: { Self → Held (OpaqueNodePtr K V PREFIX_LEN) (LeafNode K V PREFIX_LEN) };

    /// The node's slab is that of its kind. It has what the arena holds under each key of the kind,
    /// and the kind's spare capacity and capacity. The slab that is written is the one that is read,
    /// and leaves the other kinds unchanged. Two nodes that contracts see alike are equal, and a node
    /// is seen as something held.
    ghost is_slab: { IsSlabOf Self.TYPE held_as Self.slab_of Self.with_slab };
}

/// An inner node that an arena keeps, of any of the four kinds. Code that is generic over it works
/// on inner nodes of each kind:
///
/// (from crates/art_tree_tests/src/tree/tree_examples.rt)
/// ```rust
/// fn least_below<K: AsBytes, V, const PREFIX_LEN: usize, N: ArenaInnerNode<K, V, PREFIX_LEN>>(
///     arena: &NodeArena<K, V, PREFIX_LEN>,
///     node: NodePtr<PREFIX_LEN, N>,
///     byte: u8,
/// ) -> Option<LeafPtr<K, V, PREFIX_LEN>>
/// // ..
/// let child = arena.as_ref(node).lookup_child(byte)?;
/// Some(end_leaf(arena, child, End::First))
/// ```
pub trait ArenaInnerNode<K, V, const PREFIX_LEN: usize>: ArenaNode<K, V, PREFIX_LEN>
    + InnerNodeCommon<K, V, PREFIX_LEN> {
    /// What an arena holds is the node as the calls of [`InnerNodeCommon`] see it.
    ghost shown: { (node : Self) → Self.held_as node ≡ HeldInner (Self.inner node) };
}

impl<K, V, const PREFIX_LEN: usize> InSlab<NodeArena<K, V, PREFIX_LEN>>
    for InnerNode4<K, V, PREFIX_LEN> {
    ghost slab_of = { λ a. a.node4 };

    ghost with_slab = { λ a s. record a { node4 = s } };

    fn slab(arena: &NodeArena<K, V, PREFIX_LEN>) -> &Slab<Self> {
        &arena.node4
    }

    fn slab_mut(arena: &mut NodeArena<K, V, PREFIX_LEN>) -> &mut Slab<Self> {
        &mut arena.node4
    }
}

impl<K, V, const PREFIX_LEN: usize> ArenaNode<K, V, PREFIX_LEN> for InnerNode4<K, V, PREFIX_LEN> {
    ghost held_as = { HeldInner };

    ghost is_slab = { inner_slab (λ a. refl, λ a s. refl, Prim.search rules) };
}

impl<K, V, const PREFIX_LEN: usize> ArenaInnerNode<K, V, PREFIX_LEN>
    for InnerNode4<K, V, PREFIX_LEN> {
    ghost shown = { λ node. refl };
}

impl<K, V, const PREFIX_LEN: usize> InSlab<NodeArena<K, V, PREFIX_LEN>>
    for InnerNode16<K, V, PREFIX_LEN> {
    ghost slab_of = { λ a. a.node16 };

    ghost with_slab = { λ a s. record a { node16 = s } };

    fn slab(arena: &NodeArena<K, V, PREFIX_LEN>) -> &Slab<Self> {
        &arena.node16
    }

    fn slab_mut(arena: &mut NodeArena<K, V, PREFIX_LEN>) -> &mut Slab<Self> {
        &mut arena.node16
    }
}

impl<K, V, const PREFIX_LEN: usize> ArenaNode<K, V, PREFIX_LEN> for InnerNode16<K, V, PREFIX_LEN> {
    ghost held_as = { HeldInner };

    ghost is_slab = { inner_slab (λ a. refl, λ a s. refl, Prim.search rules) };
}

impl<K, V, const PREFIX_LEN: usize> ArenaInnerNode<K, V, PREFIX_LEN>
    for InnerNode16<K, V, PREFIX_LEN> {
    ghost shown = { λ node. refl };
}

impl<K, V, const PREFIX_LEN: usize> InSlab<NodeArena<K, V, PREFIX_LEN>>
    for InnerNode48<K, V, PREFIX_LEN> {
    ghost slab_of = { λ a. a.node48 };

    ghost with_slab = { λ a s. record a { node48 = s } };

    fn slab(arena: &NodeArena<K, V, PREFIX_LEN>) -> &Slab<Self> {
        &arena.node48
    }

    fn slab_mut(arena: &mut NodeArena<K, V, PREFIX_LEN>) -> &mut Slab<Self> {
        &mut arena.node48
    }
}

impl<K, V, const PREFIX_LEN: usize> ArenaNode<K, V, PREFIX_LEN> for InnerNode48<K, V, PREFIX_LEN> {
    ghost held_as = { HeldInner };

    ghost is_slab = { inner_slab (λ a. refl, λ a s. refl, Prim.search rules) };
}

impl<K, V, const PREFIX_LEN: usize> ArenaInnerNode<K, V, PREFIX_LEN>
    for InnerNode48<K, V, PREFIX_LEN> {
    ghost shown = { λ node. refl };
}

impl<K, V, const PREFIX_LEN: usize> InSlab<NodeArena<K, V, PREFIX_LEN>>
    for InnerNode256<K, V, PREFIX_LEN> {
    ghost slab_of = { λ a. a.node256 };

    ghost with_slab = { λ a s. record a { node256 = s } };

    fn slab(arena: &NodeArena<K, V, PREFIX_LEN>) -> &Slab<Self> {
        &arena.node256
    }

    fn slab_mut(arena: &mut NodeArena<K, V, PREFIX_LEN>) -> &mut Slab<Self> {
        &mut arena.node256
    }
}

impl<K, V, const PREFIX_LEN: usize> ArenaNode<K, V, PREFIX_LEN> for InnerNode256<K, V, PREFIX_LEN> {
    ghost held_as = { HeldInner };

    ghost is_slab = { inner_slab (λ a. refl, λ a s. refl, Prim.search rules) };
}

impl<K, V, const PREFIX_LEN: usize> ArenaInnerNode<K, V, PREFIX_LEN>
    for InnerNode256<K, V, PREFIX_LEN> {
    ghost shown = { λ node. refl };
}

impl<K, V, const PREFIX_LEN: usize> InSlab<NodeArena<K, V, PREFIX_LEN>>
    for LeafNode<K, V, PREFIX_LEN> {
    ghost slab_of = { λ a. a.leaf };

    ghost with_slab = { λ a s. record a { leaf = s } };

    fn slab(arena: &NodeArena<K, V, PREFIX_LEN>) -> &Slab<Self> {
        &arena.leaf
    }

    fn slab_mut(arena: &mut NodeArena<K, V, PREFIX_LEN>) -> &mut Slab<Self> {
        &mut arena.leaf
    }
}

impl<K, V, const PREFIX_LEN: usize> ArenaNode<K, V, PREFIX_LEN> for LeafNode<K, V, PREFIX_LEN> {
    ghost held_as = { HeldLeaf };

    ghost is_slab = { leaf_slab (λ a. refl, λ a s. refl, Prim.search rules) };
}
