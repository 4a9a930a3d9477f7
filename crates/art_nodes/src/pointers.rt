//! Pointers to nodes: a node kind and a slab key, never an address.
ghost use Rattle.std.specs.Prelude.{◌≡◌, ◌↔◌, IsTrue, IsSome, IfSome};
ghost use Rattle.art_nodes.specs.Pointers.{slab_key, node_kind, opaque_key, opaque_pointer};

use crate::inner_nodes::traits::node::Node;
use art_header::NodeType;
use std::marker::PhantomData;

pub(crate) mod concrete;
pub(crate) mod link;
pub(crate) mod packed;

/// A pointer to a node of the type `N`: the slab key of the node.
///
/// (from tests/art_node_tests/nodes/pointers.rt.txt)
/// ```rust
/// let four = NodePtr::<16, InnerNode4<u8, u8, 16>>::from_key(5);
/// assert!(rt; four.to_opaque() != leaf(5));
/// assert!(rt; four == NodePtr::from_key(5));
/// assert!(rt; four != NodePtr::from_key(6));
/// ```
#[derive_where(Clone, Copy, PartialEq, Eq)]
pub struct NodePtr<const PREFIX_LEN: usize, N> {
    // The slab key.
    key: usize,
    node: PhantomData<N>,
}

/// A pointer to a node of any kind: its kind and its slab key.
///
/// (from tests/art_node_tests/nodes/pointers.rt.txt)
/// ```rust
/// assert!(rt; leaf::<16>(6).node_type() == NodeType::Leaf);
/// assert!(rt; leaf::<16>(6).cast::<InnerNode4<u8, u8, 16>>().is_none());
/// let cast = leaf::<16>(6).cast::<LeafNode<u8, u8, 16>>();
/// assert!(rt; cast.map(|leaf| leaf.key()) == Some(6));
/// ```
#[derive_where(Clone, Copy, PartialEq, Eq, Hash)]
pub struct OpaqueNodePtr<K, V, const PREFIX_LEN: usize> {
    node_type: NodeType,
    // The slab key, in the slab of that kind.
    key: usize,
    leaf: PhantomData<(K, V)>,
}

impl<const PREFIX_LEN: usize, N> NodePtr<PREFIX_LEN, N> {
    /// The pointer to the node with this slab key.
    pub fn from_key(key: usize) -> Self
        ensures { slab_key result ≡ key }
    {
        NodePtr {
            key,
            node: PhantomData,
        }
    }

    /// The slab key.
    pub fn key(self) -> usize
        ensures { result ≡ slab_key self }
    {
        self.key
    }
}

impl<const PREFIX_LEN: usize, N: Node<PREFIX_LEN>> NodePtr<PREFIX_LEN, N> {
    /// The same pointer, with the kind of the node in the value instead of the type.
    pub fn to_opaque(self) -> OpaqueNodePtr<N::Key, N::Value, PREFIX_LEN>
        ensures { result ≡ opaque_pointer N.TYPE (slab_key self) }
    {
        OpaqueNodePtr::new(self)
    }
}

impl<K, V, const PREFIX_LEN: usize> OpaqueNodePtr<K, V, PREFIX_LEN> {
    /// The pointer to a node of any kind that points to the same node.
    pub fn new<N: Node<PREFIX_LEN, Key = K, Value = V>>(pointer: NodePtr<PREFIX_LEN, N>) -> Self
        ensures { result ≡ opaque_pointer N.TYPE (slab_key pointer) }
    {
        OpaqueNodePtr {
            node_type: N::TYPE,
            key: pointer.key,
            leaf: PhantomData,
        }
    }

    /// Whether the node is of the kind of `N`.
    pub fn is<N: Node<PREFIX_LEN>>(&self) -> bool
        ensures { IsTrue result ↔ (node_kind self.now ≡ N.TYPE) }
    {
        N::TYPE == self.node_type
    }

    /// The pointer to a node of the type `N`, and `None` where the node is of another kind.
    pub fn cast<N: Node<PREFIX_LEN>>(self) -> Option<NodePtr<PREFIX_LEN, N>>
        ensures kind { IsSome result ↔ (node_kind self ≡ N.TYPE) }
        ensures key { IfSome result (λ pointer. slab_key pointer ≡ opaque_key self) }
    {
        if self.is::<N>() {
            Some(NodePtr::from_key(self.key))
        } else {
            None
        }
    }

    /// The kind of the node.
    pub fn node_type(self) -> NodeType
        ensures { result ≡ node_kind self }
    {
        self.node_type
    }
}

/// A pointer to the `Node4` with the slab key 0. It only fills places that have no pointer.
impl<K, V, const PREFIX_LEN: usize> Default for OpaqueNodePtr<K, V, PREFIX_LEN> {
    ghost use Rattle.std.specs.Prelude.{◌≡◌};
    ghost use Rattle.art_header.specs.declared.node_type.NodeType.TheVariants.{Node4};
    ghost use Rattle.art_nodes.specs.Pointers.{node_kind, opaque_key};

    ghost is_default = { λ p. (node_kind p ≡ Node4) × (opaque_key p ≡ 0) };

    fn default() -> Self {
        OpaqueNodePtr {
            node_type: NodeType::Node4,
            key: 0,
            leaf: PhantomData,
        }
    }
}
