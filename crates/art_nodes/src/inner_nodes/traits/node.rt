//! The traits of every node and of every inner node.
ghost use Rattle.std.specs.Prelude.{◌≡◌, ◌<◌, ◌≤◌, ◌^◌, length};
ghost use Rattle.art_nodes.specs.ChildMap.{child_at};
ghost use Rattle.art_header.specs.Header.{capped, empty_header};
ghost use Rattle.art_nodes.specs.Inner.{HasRoomFor, empty_inner, IsInner, node_with_child, node_without_child, node_with_prefix_of};

use crate::inner_nodes::builder::{InnerNodeBuilder, NoChild};
use crate::inner_nodes::traits::inner_node_read::InnerNodeRead;
use crate::pointers::OpaqueNodePtr;
use crate::sealed::{InnerNodeInit, Sealed};
use art_header::{Header, NodeType};

/// A node whose kind is known at compile time.
///
/// (from crates/art_node_tests/src/nodes/node_callers.rt)
/// ```rust
/// fn points_to<const PREFIX_LEN: usize, N: Node<PREFIX_LEN>>(
///     key: usize,
/// ) -> OpaqueNodePtr<N::Key, N::Value, PREFIX_LEN>
///     ensures { result ≡ opaque_pointer N.TYPE key }
/// {
///     NodePtr::<PREFIX_LEN, N>::from_key(key).to_opaque()
/// }
/// ```
pub trait Node<const PREFIX_LEN: usize>: Sealed {
    /// The kind of the node.
    const TYPE: NodeType;

    ghost use Rattle.art_header.specs.declared.node_type.NodeType.{NodeType};

    /// The same kind, for contracts.
    ghost TYPE: { NodeType };

    /// The key type of the leaves below.
    type Key;

    /// The value type of the leaves below.
    type Value;
}

/// The calls of every inner node, whichever way it keeps its children: those of [`InnerNodeRead`],
/// and those that write.
///
/// Contracts see a node as the length of its prefix, the stored prefix, and a finite map from bytes
/// to children. No call takes memory. A look-up, a write and a removal cost O(`SIZE`) in a sorted
/// node and O(1) in the others; `min`, `max` and a step of an iterator read at most 256 places.
///
/// (from crates/art_node_tests/src/nodes/node_callers.rt)
/// ```rust
/// fn write_then_look_up<K, V, const PREFIX_LEN: usize, N: InnerNodeCommon<K, V, PREFIX_LEN>>(
///     // ..
/// ) -> Option<OpaqueNodePtr<K, V, PREFIX_LEN>>
///     requires { HasRoomFor N.room (N.inner node.old) byte }
///     ensures { result ≡ Some child }
/// {
///     node.write_child(byte, child);
///     node.lookup_child(byte)
/// }
/// ```
pub trait InnerNodeCommon<K, V, const PREFIX_LEN: usize>: InnerNodeRead<K, V, PREFIX_LEN>
    + InnerNodeInit<PREFIX_LEN> {
    ghost use Rattle.art_header.specs.Header.{Header};

    /// The greatest number of children that the node can hold.
    fn capacity(&self) -> usize
        ensures { result ≡ Self.room };

    /// Replaces the prefix by that of `header`: its length and its stored prefix. The children and
    /// their number are unchanged.
    fn set_prefix(&mut self, header: &Header<PREFIX_LEN>)
        ensures { Self.inner self.new ≡ node_with_prefix_of (Self.inner self.old) header.now };

    /// Writes the child under the byte, and replaces any that is there. Condition: under a new
    /// byte, the node has spare capacity, that is fewer children than
    /// [`InnerNodeCommon::capacity`].
    fn write_child(&mut self, key_fragment: u8, child_pointer: OpaqueNodePtr<K, V, PREFIX_LEN>)
        requires { HasRoomFor Self.room (Self.inner self.old) key_fragment }
        ensures written { Self.inner self.new ≡
            node_with_child (Self.inner self.old) key_fragment child_pointer };

    /// Removes the child under the byte and returns it. Without a child there it returns `None` and
    /// changes nothing. The node may be left with one child or none.
    fn remove_child(&mut self, key_fragment: u8) -> Option<OpaqueNodePtr<K, V, PREFIX_LEN>>
        ensures child { result ≡ child_at (Self.inner self.old).children key_fragment }
        ensures removed { Self.inner self.new ≡ node_without_child (Self.inner self.old) key_fragment }
        ensures sound { IsInner PREFIX_LEN Self.room (Self.inner self.old) };

    /// A builder of a node with this prefix. Conditions: those of [`Header::new`].
    final fn builder(
        prefix: &[u8],
        prefix_len: usize,
    ) -> InnerNodeBuilder<K, V, PREFIX_LEN, Self, NoChild>
        requires has_stored_bytes { capped PREFIX_LEN prefix_len ≤ length prefix.now }
        requires no_longer { length prefix.now ≤ prefix_len }
        requires fits { prefix_len < 2 ^ 32 }
        ensures { Self.inner result ≡ empty_inner (empty_header PREFIX_LEN prefix.now prefix_len) }
    {
        InnerNodeBuilder::new(prefix, prefix_len)
    }

    /// A new node has no children.
    ghost starts_empty: { (h : Header) → Self.inner (Self.empty_with h) ≡ empty_inner h };
}
