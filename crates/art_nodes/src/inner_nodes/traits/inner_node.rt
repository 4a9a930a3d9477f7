//! Inner nodes that grow and shrink to the next kind.
ghost use Rattle.std.specs.Prelude.{◌≡◌, ◌≢◌, ℕ, ◌<◌, ◌≤◌, ◌↔◌, IsTrue, length};
ghost use Rattle.art_header.specs.NodeType.{most_children, grown_kind, shrunk_kind};
ghost use Rattle.art_header.specs.declared.node_type.NodeType.TheVariants.{Leaf};
ghost use Rattle.art_nodes.specs.Inner.{HasRoomFor};

use crate::inner_nodes::representations::inner_node_direct::InnerNodeDirect;
use crate::inner_nodes::representations::inner_node_indirect::InnerNode48;
use crate::inner_nodes::representations::inner_node_sorted::{InnerNode4, InnerNode16};
use crate::inner_nodes::traits::inner_node_read::InnerNodeRead;
use crate::inner_nodes::traits::node::{InnerNodeCommon, Node};

/// An inner node of one of the four kinds, and the kinds next to it.
///
/// (from crates/art_node_tests/src/nodes/node_callers.rt)
/// ```rust
/// fn grow_then_write<const PREFIX_LEN: usize, N: InnerNode<PREFIX_LEN>>(
///     // ..
/// ) -> N::GrownNode
///     ensures { N.GrownNode.inner result ≡ node_with_child (N.inner node.now) byte child }
/// {
///     let mut grown = node.grow();
///     grown.write_child(byte, child);
///     grown
/// }
/// ```
pub trait InnerNode<const PREFIX_LEN: usize>: Node<PREFIX_LEN>
    + InnerNodeCommon<
        <Self as Node<PREFIX_LEN>>::Key,
        <Self as Node<PREFIX_LEN>>::Value,
        PREFIX_LEN,
    > {
    /// The next greater kind, or this one where there is none.
    type GrownNode: Node<PREFIX_LEN, Key = Self::Key, Value = Self::Value>
        + InnerNodeCommon<Self::Key, Self::Value, PREFIX_LEN>;

    /// The next smaller kind, or this one where there is none.
    type ShrunkNode: Node<PREFIX_LEN, Key = Self::Key, Value = Self::Value>
        + InnerNodeCommon<Self::Key, Self::Value, PREFIX_LEN>;

    /// The node as one of the next greater kind, with the same prefix and children. It has spare
    /// capacity for a child under any byte. Of a `Node256`, which has no greater kind, a copy.
    /// Takes no memory, and costs a copy of the node.
    fn grow(&self) -> Self::GrownNode
        ensures same { Self.GrownNode.inner result ≡ Self.inner self.now }
        ensures has_room { (byte : ℕ) → byte < 256 →
            HasRoomFor Self.GrownNode.room (Self.inner self.now) byte };

    /// The node as one of the next smaller kind, with the same prefix and children. Of a `Node4`,
    /// which has no smaller kind, a copy. Takes no memory, and costs a copy of the node. Condition:
    /// the smaller kind holds the children.
    fn shrink(&self) -> Self::ShrunkNode
        requires { length (Self.inner self.now).children ≤ Self.ShrunkNode.room }
        ensures { Self.ShrunkNode.inner result ≡ Self.inner self.now };

    /// Whether the node has as many children as its kind holds.
    final fn is_full(&self) -> bool
        ensures full { let count = length (Self.inner self.now).children in
            IsTrue result ↔ (count ≡ most_children Self.TYPE) }
        ensures has_room { ¬ (IsTrue result) → length (Self.inner self.now).children < Self.room }
    {
        self.num_children() == self.capacity()
    }

    /// The kind is that of an inner node.
    ghost is_inner: { Self.TYPE ≢ Leaf };

    /// A node holds as many children as its kind.
    ghost room_of_kind: { Self.room ≡ most_children Self.TYPE };

    /// A grown node is of the next greater kind.
    ghost grown_type: { Self.GrownNode.TYPE ≡ grown_kind Self.TYPE };

    /// A grown node holds as many children as that kind.
    ghost grown_room: { Self.GrownNode.room ≡ most_children (grown_kind Self.TYPE) };

    /// A shrunk node is of the next smaller kind.
    ghost shrunk_type: { Self.ShrunkNode.TYPE ≡ shrunk_kind Self.TYPE };

    /// A shrunk node holds as many children as that kind.
    ghost shrunk_room: { Self.ShrunkNode.room ≡ most_children (shrunk_kind Self.TYPE) };
}

impl<K, V, const PREFIX_LEN: usize> InnerNode<PREFIX_LEN> for InnerNode4<K, V, PREFIX_LEN> {
    ghost use Rattle.std.specs.Prelude.{refl};

    ghost is_inner = { λ same. Prim.cc };

    ghost room_of_kind = { refl };

    ghost grown_type = { refl };

    ghost grown_room = { refl };

    ghost shrunk_type = { refl };

    ghost shrunk_room = { refl };

    type GrownNode = InnerNode16<K, V, PREFIX_LEN>;

    type ShrunkNode = Self;

    fn grow(&self) -> InnerNode16<K, V, PREFIX_LEN> {
        prove!(self.num_children() <= 4);
        self.change_block_size()
    }

    fn shrink(&self) -> Self {
        self.clone()
    }
}

impl<K, V, const PREFIX_LEN: usize> InnerNode<PREFIX_LEN> for InnerNode16<K, V, PREFIX_LEN> {
    ghost use Rattle.std.specs.Prelude.{refl};

    ghost is_inner = { λ same. Prim.cc };

    ghost room_of_kind = { refl };

    ghost grown_type = { refl };

    ghost grown_room = { refl };

    ghost shrunk_type = { refl };

    ghost shrunk_room = { refl };

    type GrownNode = InnerNode48<K, V, PREFIX_LEN>;

    type ShrunkNode = InnerNode4<K, V, PREFIX_LEN>;

    fn grow(&self) -> InnerNode48<K, V, PREFIX_LEN> {
        prove!(self.num_children() <= 16);
        InnerNode48::from_sorted(self)
    }

    fn shrink(&self) -> InnerNode4<K, V, PREFIX_LEN> {
        self.change_block_size()
    }
}

impl<K, V, const PREFIX_LEN: usize> InnerNode<PREFIX_LEN> for InnerNode48<K, V, PREFIX_LEN> {
    ghost use Rattle.std.specs.Prelude.{refl};

    ghost is_inner = { λ same. Prim.cc };

    ghost room_of_kind = { refl };

    ghost grown_type = { refl };

    ghost grown_room = { refl };

    ghost shrunk_type = { refl };

    ghost shrunk_room = { refl };

    type GrownNode = InnerNodeDirect<K, V, PREFIX_LEN>;

    type ShrunkNode = InnerNode16<K, V, PREFIX_LEN>;

    #[tactic(auto, using(crate::proofs::ChildMapLaws::length_absent))]
    fn grow(&self) -> InnerNodeDirect<K, V, PREFIX_LEN> {
        prove!(self.num_children() <= 48);
        InnerNodeDirect::from(self)
    }

    fn shrink(&self) -> InnerNode16<K, V, PREFIX_LEN> {
        InnerNode16::from_indirect(self)
    }
}

impl<K, V, const PREFIX_LEN: usize> InnerNode<PREFIX_LEN> for InnerNodeDirect<K, V, PREFIX_LEN> {
    ghost use Rattle.std.specs.Prelude.{refl};

    ghost is_inner = { λ same. Prim.cc };

    ghost room_of_kind = { refl };

    ghost grown_type = { refl };

    ghost grown_room = { refl };

    ghost shrunk_type = { refl };

    ghost shrunk_room = { refl };

    type GrownNode = Self;

    type ShrunkNode = InnerNode48<K, V, PREFIX_LEN>;

    #[tactic(auto, using(crate::proofs::ChildMapLaws::length_absent))]
    fn grow(&self) -> Self {
        prove!(self.num_children() <= 256);
        self.clone()
    }

    fn shrink(&self) -> InnerNode48<K, V, PREFIX_LEN> {
        InnerNode48::from_direct(self)
    }
}
