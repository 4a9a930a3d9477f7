//! Pointers to nodes, as enums with a variant for each kind of node.
ghost use Rattle.std.specs.Prelude.{◌≡◌};
ghost use Rattle.art_nodes.specs.ConcretePointers.{opaque_of, opaque_of_inner, concrete_of};

use crate::inner_nodes::representations::inner_node_direct::InnerNodeDirect;
use crate::inner_nodes::representations::inner_node_indirect::InnerNode48;
use crate::inner_nodes::representations::inner_node_sorted::{InnerNode4, InnerNode16};
use crate::leaf_node::LeafNode;
use crate::pointers::{NodePtr, OpaqueNodePtr};
use art_header::NodeType;
use std::marker::PhantomData;

/// A pointer to a node of any kind, with a variant for each kind.
///
/// (from tests/art_node_tests/nodes/pointers.rt.txt)
/// ```rust
/// let four = NodePtr::<16, InnerNode4<u8, u8, 16>>::from_key(4);
/// assert!(rt; four.to_opaque().to_node_ptr().to_opaque() == four.to_opaque());
/// // ..
/// let by_kind = ConcreteNodePtr::from(four);
/// // ..
/// assert!(rt; by_kind.to_opaque() == four.to_opaque());
/// ```
#[derive_where(Clone, Copy)]
pub enum ConcreteNodePtr<K, V, const PREFIX_LEN: usize> {
    /// A pointer to a sorted node for at most 4 children.
    Node4(NodePtr<PREFIX_LEN, InnerNode4<K, V, PREFIX_LEN>>),
    /// A pointer to a sorted node for at most 16 children.
    Node16(NodePtr<PREFIX_LEN, InnerNode16<K, V, PREFIX_LEN>>),
    /// A pointer to an indirect node for at most 48 children.
    Node48(NodePtr<PREFIX_LEN, InnerNode48<K, V, PREFIX_LEN>>),
    /// A pointer to a direct node for at most 256 children.
    Node256(NodePtr<PREFIX_LEN, InnerNodeDirect<K, V, PREFIX_LEN>>),
    /// A pointer to a leaf.
    LeafNode(NodePtr<PREFIX_LEN, LeafNode<K, V, PREFIX_LEN>>),
}

/// A pointer to an inner node of any kind, with a variant for each kind.
///
/// (from tests/art_node_tests/nodes/pointers.rt.txt)
/// ```rust
/// let inner = ConcreteInnerNodePtr::from(all);
/// assert!(rt; inner.to_opaque() == all.to_opaque());
/// assert!(rt; ConcreteNodePtr::from(inner).to_opaque() == all.to_opaque());
/// ```
#[derive_where(Clone, Copy)]
pub enum ConcreteInnerNodePtr<K, V, const PREFIX_LEN: usize> {
    /// A pointer to a sorted node for at most 4 children.
    Node4(NodePtr<PREFIX_LEN, InnerNode4<K, V, PREFIX_LEN>>),
    /// A pointer to a sorted node for at most 16 children.
    Node16(NodePtr<PREFIX_LEN, InnerNode16<K, V, PREFIX_LEN>>),
    /// A pointer to an indirect node for at most 48 children.
    Node48(NodePtr<PREFIX_LEN, InnerNode48<K, V, PREFIX_LEN>>),
    /// A pointer to a direct node for at most 256 children.
    Node256(NodePtr<PREFIX_LEN, InnerNodeDirect<K, V, PREFIX_LEN>>),
}

impl<K, V, const PREFIX_LEN: usize> ConcreteNodePtr<K, V, PREFIX_LEN> {
    /// The same pointer, with the kind of the node as a value.
    pub fn to_opaque(self) -> OpaqueNodePtr<K, V, PREFIX_LEN>
        ensures pointer { result ≡ opaque_of self }
        ensures undone { concrete_of result ≡ self }
    {
        let (node_type, key) = match self {
            ConcreteNodePtr::Node4(pointer) => (NodeType::Node4, pointer.key()),
            ConcreteNodePtr::Node16(pointer) => (NodeType::Node16, pointer.key()),
            ConcreteNodePtr::Node48(pointer) => (NodeType::Node48, pointer.key()),
            ConcreteNodePtr::Node256(pointer) => (NodeType::Node256, pointer.key()),
            ConcreteNodePtr::LeafNode(pointer) => (NodeType::Leaf, pointer.key()),
        };
        OpaqueNodePtr {
            node_type,
            key,
            leaf: PhantomData,
        }
    }
}

impl<K, V, const PREFIX_LEN: usize> ConcreteInnerNodePtr<K, V, PREFIX_LEN> {
    /// The same pointer, with the kind of the node as a value.
    pub fn to_opaque(self) -> OpaqueNodePtr<K, V, PREFIX_LEN>
        ensures { result ≡ opaque_of_inner self }
    {
        ConcreteNodePtr::from(self).to_opaque()
    }
}

impl<K, V, const PREFIX_LEN: usize> OpaqueNodePtr<K, V, PREFIX_LEN> {
    /// The same pointer, with the type of the node as the variant.
    pub fn to_node_ptr(self) -> ConcreteNodePtr<K, V, PREFIX_LEN>
        ensures pointer { result ≡ concrete_of self }
        ensures undone { opaque_of result ≡ self }
    {
        let key = self.key;
        match self.node_type {
            NodeType::Node4 => ConcreteNodePtr::Node4(NodePtr::from_key(key)),
            NodeType::Node16 => ConcreteNodePtr::Node16(NodePtr::from_key(key)),
            NodeType::Node48 => ConcreteNodePtr::Node48(NodePtr::from_key(key)),
            NodeType::Node256 => ConcreteNodePtr::Node256(NodePtr::from_key(key)),
            NodeType::Leaf => ConcreteNodePtr::LeafNode(NodePtr::from_key(key)),
        }
    }
}

/// The same pointer, as one to a `Node4`.
impl<K, V, const PREFIX_LEN: usize> From<NodePtr<PREFIX_LEN, InnerNode4<K, V, PREFIX_LEN>>>
    for ConcreteNodePtr<K, V, PREFIX_LEN> {
    ghost use Rattle.std.specs.Prelude.{◌≡◌};
    ghost use Rattle.art_nodes.specs.declared.pointers.concrete.ConcreteNodePtr.TheVariants.{Node4};

    ghost from_gives = { λ pointer concrete. concrete ≡ Node4 pointer };

    fn from(value: NodePtr<PREFIX_LEN, InnerNode4<K, V, PREFIX_LEN>>) -> Self {
        ConcreteNodePtr::Node4(value)
    }
}

/// The same pointer, as one to a `Node16`.
impl<K, V, const PREFIX_LEN: usize> From<NodePtr<PREFIX_LEN, InnerNode16<K, V, PREFIX_LEN>>>
    for ConcreteNodePtr<K, V, PREFIX_LEN> {
    ghost use Rattle.std.specs.Prelude.{◌≡◌};
    ghost use Rattle.art_nodes.specs.declared.pointers.concrete.ConcreteNodePtr.TheVariants.{Node16};

    ghost from_gives = { λ pointer concrete. concrete ≡ Node16 pointer };

    fn from(value: NodePtr<PREFIX_LEN, InnerNode16<K, V, PREFIX_LEN>>) -> Self {
        ConcreteNodePtr::Node16(value)
    }
}

/// The same pointer, as one to a `Node48`.
impl<K, V, const PREFIX_LEN: usize> From<NodePtr<PREFIX_LEN, InnerNode48<K, V, PREFIX_LEN>>>
    for ConcreteNodePtr<K, V, PREFIX_LEN> {
    ghost use Rattle.std.specs.Prelude.{◌≡◌};
    ghost use Rattle.art_nodes.specs.declared.pointers.concrete.ConcreteNodePtr.TheVariants.{Node48};

    ghost from_gives = { λ pointer concrete. concrete ≡ Node48 pointer };

    fn from(value: NodePtr<PREFIX_LEN, InnerNode48<K, V, PREFIX_LEN>>) -> Self {
        ConcreteNodePtr::Node48(value)
    }
}

/// The same pointer, as one to a `Node256`.
impl<K, V, const PREFIX_LEN: usize> From<NodePtr<PREFIX_LEN, InnerNodeDirect<K, V, PREFIX_LEN>>>
    for ConcreteNodePtr<K, V, PREFIX_LEN> {
    ghost use Rattle.std.specs.Prelude.{◌≡◌};
    ghost use Rattle.art_nodes.specs.declared.pointers.concrete.ConcreteNodePtr.TheVariants.{Node256};

    ghost from_gives = { λ pointer concrete. concrete ≡ Node256 pointer };

    fn from(value: NodePtr<PREFIX_LEN, InnerNodeDirect<K, V, PREFIX_LEN>>) -> Self {
        ConcreteNodePtr::Node256(value)
    }
}

/// The same pointer, as one to a leaf.
impl<K, V, const PREFIX_LEN: usize> From<NodePtr<PREFIX_LEN, LeafNode<K, V, PREFIX_LEN>>>
    for ConcreteNodePtr<K, V, PREFIX_LEN> {
    ghost use Rattle.std.specs.Prelude.{◌≡◌};
    ghost use Rattle.art_nodes.specs.declared.pointers.concrete.ConcreteNodePtr.TheVariants.{LeafNode};

    ghost from_gives = { λ pointer concrete. concrete ≡ LeafNode pointer };

    fn from(value: NodePtr<PREFIX_LEN, LeafNode<K, V, PREFIX_LEN>>) -> Self {
        ConcreteNodePtr::LeafNode(value)
    }
}

/// The same pointer, as one to a `Node4`.
impl<K, V, const PREFIX_LEN: usize> From<NodePtr<PREFIX_LEN, InnerNode4<K, V, PREFIX_LEN>>>
    for ConcreteInnerNodePtr<K, V, PREFIX_LEN> {
    ghost use Rattle.std.specs.Prelude.{◌≡◌};
    ghost use Rattle.art_nodes.specs.declared.pointers.concrete.ConcreteInnerNodePtr.TheVariants.{Node4};

    ghost from_gives = { λ pointer concrete. concrete ≡ Node4 pointer };

    fn from(value: NodePtr<PREFIX_LEN, InnerNode4<K, V, PREFIX_LEN>>) -> Self {
        ConcreteInnerNodePtr::Node4(value)
    }
}

/// The same pointer, as one to a `Node16`.
impl<K, V, const PREFIX_LEN: usize> From<NodePtr<PREFIX_LEN, InnerNode16<K, V, PREFIX_LEN>>>
    for ConcreteInnerNodePtr<K, V, PREFIX_LEN> {
    ghost use Rattle.std.specs.Prelude.{◌≡◌};
    ghost use Rattle.art_nodes.specs.declared.pointers.concrete.ConcreteInnerNodePtr.TheVariants.{Node16};

    ghost from_gives = { λ pointer concrete. concrete ≡ Node16 pointer };

    fn from(value: NodePtr<PREFIX_LEN, InnerNode16<K, V, PREFIX_LEN>>) -> Self {
        ConcreteInnerNodePtr::Node16(value)
    }
}

/// The same pointer, as one to a `Node48`.
impl<K, V, const PREFIX_LEN: usize> From<NodePtr<PREFIX_LEN, InnerNode48<K, V, PREFIX_LEN>>>
    for ConcreteInnerNodePtr<K, V, PREFIX_LEN> {
    ghost use Rattle.std.specs.Prelude.{◌≡◌};
    ghost use Rattle.art_nodes.specs.declared.pointers.concrete.ConcreteInnerNodePtr.TheVariants.{Node48};

    ghost from_gives = { λ pointer concrete. concrete ≡ Node48 pointer };

    fn from(value: NodePtr<PREFIX_LEN, InnerNode48<K, V, PREFIX_LEN>>) -> Self {
        ConcreteInnerNodePtr::Node48(value)
    }
}

/// The same pointer, as one to a `Node256`.
impl<K, V, const PREFIX_LEN: usize> From<NodePtr<PREFIX_LEN, InnerNodeDirect<K, V, PREFIX_LEN>>>
    for ConcreteInnerNodePtr<K, V, PREFIX_LEN> {
    ghost use Rattle.std.specs.Prelude.{◌≡◌};
    ghost use Rattle.art_nodes.specs.declared.pointers.concrete.ConcreteInnerNodePtr.TheVariants.{Node256};

    ghost from_gives = { λ pointer concrete. concrete ≡ Node256 pointer };

    fn from(value: NodePtr<PREFIX_LEN, InnerNodeDirect<K, V, PREFIX_LEN>>) -> Self {
        ConcreteInnerNodePtr::Node256(value)
    }
}

/// The same pointer, as one to any node.
impl<K, V, const PREFIX_LEN: usize> From<ConcreteInnerNodePtr<K, V, PREFIX_LEN>>
    for ConcreteNodePtr<K, V, PREFIX_LEN> {
    ghost use Rattle.std.specs.Prelude.{◌≡◌};
    ghost use Rattle.art_nodes.specs.ConcretePointers.{any_of_inner};

    ghost from_gives = { λ inner concrete. concrete ≡ any_of_inner inner };

    fn from(value: ConcreteInnerNodePtr<K, V, PREFIX_LEN>) -> Self {
        match value {
            ConcreteInnerNodePtr::Node4(pointer) => ConcreteNodePtr::Node4(pointer),
            ConcreteInnerNodePtr::Node16(pointer) => ConcreteNodePtr::Node16(pointer),
            ConcreteInnerNodePtr::Node48(pointer) => ConcreteNodePtr::Node48(pointer),
            ConcreteInnerNodePtr::Node256(pointer) => ConcreteNodePtr::Node256(pointer),
        }
    }
}
