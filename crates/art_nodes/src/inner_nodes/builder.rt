//! A builder of inner nodes. It builds no node with fewer than two children.
ghost use Rattle.std.specs.Prelude.{◌≡◌, ◌≤◌, ◌<◌, ◌^◌, ℕ, length, All, IsNone, IfSome};
ghost use Rattle.std.specs.Option.{option_map};
ghost use Rattle.art_header.specs.Header.{capped, empty_header};
ghost use Rattle.art_nodes.specs.ChildMap.{child_at, key_bytes, last_pair};
ghost use Rattle.art_nodes.specs.Inner.{HasRoomFor, empty_inner, node_with_child};

use crate::inner_nodes::representations::inner_node_sorted::InnerNode4;
use crate::inner_nodes::traits::inner_node_read::InnerNodeRead;
use crate::inner_nodes::traits::node::InnerNodeCommon;
use crate::pointers::OpaqueNodePtr;
use crate::sealed::{InThisCrate, Sealed};
use std::marker::{Model, PhantomData};

/// How many children a builder's node has so far: none, one, or two or more.
///
/// [`InnerNodeBuilder`] has an example.
pub trait BuilderState: Sealed {
    ghost use Rattle.std.specs.Prelude.{ℕ};

    /// A node in this state may have this number of children.
    ghost Counts: { ℕ → Type 0 };
}

/// No child has been written.
///
/// [`InnerNodeBuilder`] has an example.
#[derive(Drop)]
pub struct NoChild;

impl Sealed for NoChild {}

impl BuilderState for NoChild {
    ghost use Rattle.std.specs.Prelude.{◌≡◌};

    ghost Counts = { λ n. n ≡ 0 };
}

/// One child has been written.
///
/// [`InnerNodeBuilder`] has an example.
#[derive(Drop)]
pub struct HasOneChild;

impl Sealed for HasOneChild {}

impl BuilderState for HasOneChild {
    ghost use Rattle.std.specs.Prelude.{◌≡◌};

    ghost Counts = { λ n. n ≡ 1 };
}

/// Two children or more have been written.
///
/// [`InnerNodeBuilder`] has an example.
#[derive(Drop)]
pub struct HasChild;

impl Sealed for HasChild {}

impl BuilderState for HasChild {
    ghost use Rattle.std.specs.Prelude.{◌≤◌};

    ghost Counts = { λ n. 2 ≤ n };
}

/// Builds an inner node of the type `N`, child by child. Only a node of two children or more can be
/// built. No call takes memory. [`InnerNodeCommon::builder`] begins one.
///
/// (from tests/art_node_tests/nodes/builder.rt.txt)
/// ```rust
/// let small = InnerNode4::<u8, u8, 16>::builder(b"prefix", 6)
///     .write_child(1, leaf(8))
///     .write_child(0, leaf(7))
///     .write_child(200, leaf(9))
///     .write_child(200, leaf(10))
///     .build();
/// ```
#[derive(Drop)]
pub struct InnerNodeBuilder<
    K,
    V,
    const PREFIX_LEN: usize,
    N: InnerNodeCommon<K, V, PREFIX_LEN>,
    S: BuilderState = NoChild,
> {
    node: N,
    state: PhantomData<(K, V, S)>,
}

impl<K, V, const PREFIX_LEN: usize, N: InnerNodeCommon<K, V, PREFIX_LEN>, S: BuilderState> Model
    for InnerNodeBuilder<K, V, PREFIX_LEN, N, S> {
    ghost use Rattle.art_nodes.specs.Builder.{AreWritten};

    ghost Value = { N };

    ghost view = { λ b. b.node };

    ghost invariant = { λ b. AreWritten S.Counts (N.inner b.node).children };
}

impl<
    K,
    V,
    const PREFIX_LEN: usize,
    N: InnerNodeCommon<K, V, PREFIX_LEN>,
    S: BuilderState,
> InnerNodeBuilder<K, V, PREFIX_LEN, N, S> {
    /// The greatest number of children that the node can hold. With the number of children and the
    /// look-ups it tests the conditions of the next write.
    pub fn capacity(&self) -> usize
        ensures { result ≡ N.room }
    {
        self.node.capacity()
    }

    /// The number of children so far. The state of the builder bounds it: 0, 1, or 2 and more.
    pub fn num_children(&self) -> usize
        ensures count { result ≡ length (N.inner self.now).children }
        ensures state { S.Counts result }
    {
        self.node.num_children()
    }

    /// The greatest byte that has a child, or `None` where there is no child. A byte above it is
    /// above every byte of the node, which is a condition of an unchecked write.
    pub fn last_byte(&self) -> Option<u8>
        ensures last { result ≡ option_map (λ pair. pair.0) (last_pair (N.inner self.now).children) }
        ensures above { (byte : ℕ) → IfSome result (λ last. last < byte) →
            All (λ other. other < byte) (key_bytes (N.inner self.now).children) }
    {
        if self.node.num_children() == 0 {
            return None;
        }
        let (byte, _) = self.node.max();
        Some(byte)
    }

    /// The child that has been written under this byte, if there is one.
    pub fn lookup_child(&self, key_fragment: u8) -> Option<OpaqueNodePtr<K, V, PREFIX_LEN>>
        ensures { result ≡ child_at (N.inner self.now).children key_fragment }
    {
        self.node.lookup_child(key_fragment)
    }
}

impl<K, V, const PREFIX_LEN: usize, N: InnerNodeCommon<K, V, PREFIX_LEN>> InnerNodeBuilder<
    K,
    V,
    PREFIX_LEN,
    N,
    NoChild,
> {
    /// A builder of a node with this prefix. Conditions: those of
    /// [`Header::new`](crate::Header::new).
    pub(crate) fn new(prefix: &[u8], prefix_len: usize) -> Self
        requires has_stored_bytes { capped PREFIX_LEN prefix_len ≤ length prefix.now }
        requires no_longer { length prefix.now ≤ prefix_len }
        requires fits { prefix_len < 2 ^ 32 }
        ensures { N.inner result ≡ empty_inner (empty_header PREFIX_LEN prefix.now prefix_len) }
    {
        InnerNodeBuilder {
            node: N::from_prefix(InThisCrate(()), prefix, prefix_len),
            state: PhantomData,
        }
    }

    /// Writes the first child. Condition: the node has spare capacity.
    pub fn write_child(
        mut self,
        key_byte: u8,
        first_child: OpaqueNodePtr<K, V, PREFIX_LEN>,
    ) -> InnerNodeBuilder<K, V, PREFIX_LEN, N, HasOneChild>
        requires { HasRoomFor N.room (N.inner self) key_byte }
        ensures { N.inner result ≡ node_with_child (N.inner self) key_byte first_child }
    {
        self.node.write_child(key_byte, first_child);
        InnerNodeBuilder {
            node: self.node,
            state: PhantomData,
        }
    }
}

impl<K, V, const PREFIX_LEN: usize, N: InnerNodeCommon<K, V, PREFIX_LEN>> InnerNodeBuilder<
    K,
    V,
    PREFIX_LEN,
    N,
    HasOneChild,
> {
    /// Writes the second child. Conditions: its byte is not that of the first, and the node has
    /// spare capacity.
    pub fn write_child(
        mut self,
        key_byte: u8,
        second_child: OpaqueNodePtr<K, V, PREFIX_LEN>,
    ) -> InnerNodeBuilder<K, V, PREFIX_LEN, N, HasChild>
        requires room { HasRoomFor N.room (N.inner self) key_byte }
        requires differs { IsNone (child_at (N.inner self).children key_byte) }
        ensures { N.inner result ≡ node_with_child (N.inner self) key_byte second_child }
    {
        self.node.write_child(key_byte, second_child);
        InnerNodeBuilder {
            node: self.node,
            state: PhantomData,
        }
    }
}

impl<K, V, const PREFIX_LEN: usize, N: InnerNodeCommon<K, V, PREFIX_LEN>> InnerNodeBuilder<
    K,
    V,
    PREFIX_LEN,
    N,
    HasChild,
> {
    /// Writes a child, and replaces any that is there. Condition: under a new byte, the node has
    /// spare capacity.
    pub fn write_child(mut self, key_byte: u8, child: OpaqueNodePtr<K, V, PREFIX_LEN>) -> Self
        requires { HasRoomFor N.room (N.inner self) key_byte }
        ensures { N.inner result ≡ node_with_child (N.inner self) key_byte child }
    {
        self.node.write_child(key_byte, child);
        self
    }

    /// The node. It has two children or more.
    pub fn build(self) -> N
        ensures node { result ≡ self }
        ensures two_or_more { 2 ≤ length (N.inner result).children }
    {
        let InnerNodeBuilder { node, state: _ } = self;
        node
    }
}

impl<K, V, const PREFIX_LEN: usize> InnerNodeBuilder<
    K,
    V,
    PREFIX_LEN,
    InnerNode4<K, V, PREFIX_LEN>,
    NoChild,
> {
    /// Writes the first child without a search. Conditions: the node has spare capacity and no byte
    /// at or above this one. A new builder always meets the second.
    pub fn write_child_unchecked(
        mut self,
        key_byte: u8,
        first_child: OpaqueNodePtr<K, V, PREFIX_LEN>,
    ) -> InnerNodeBuilder<K, V, PREFIX_LEN, InnerNode4<K, V, PREFIX_LEN>, HasOneChild>
        requires room { length self.children < 4 }
        requires above { All (λ byte. byte < key_byte) (key_bytes self.children) }
        ensures { result ≡ node_with_child self key_byte first_child }
    {
        self.node.write_child_unchecked(key_byte, first_child);
        InnerNodeBuilder {
            node: self.node,
            state: PhantomData,
        }
    }
}

impl<K, V, const PREFIX_LEN: usize> InnerNodeBuilder<
    K,
    V,
    PREFIX_LEN,
    InnerNode4<K, V, PREFIX_LEN>,
    HasOneChild,
> {
    /// Writes the second child without a search. Conditions: its byte is above that of the first,
    /// and the node has spare capacity.
    pub fn write_child_unchecked(
        mut self,
        key_byte: u8,
        second_child: OpaqueNodePtr<K, V, PREFIX_LEN>,
    ) -> InnerNodeBuilder<K, V, PREFIX_LEN, InnerNode4<K, V, PREFIX_LEN>, HasChild>
        requires room { length self.children < 4 }
        requires above { All (λ byte. byte < key_byte) (key_bytes self.children) }
        ensures { result ≡ node_with_child self key_byte second_child }
    {
        self.node.write_child_unchecked(key_byte, second_child);
        InnerNodeBuilder {
            node: self.node,
            state: PhantomData,
        }
    }
}

impl<K, V, const PREFIX_LEN: usize> InnerNodeBuilder<
    K,
    V,
    PREFIX_LEN,
    InnerNode4<K, V, PREFIX_LEN>,
    HasChild,
> {
    /// Writes another child without a search. Conditions: its byte is above every byte of the node,
    /// and the node has spare capacity.
    pub fn write_child_unchecked(
        mut self,
        key_byte: u8,
        child: OpaqueNodePtr<K, V, PREFIX_LEN>,
    ) -> Self
        requires room { length self.children < 4 }
        requires above { All (λ byte. byte < key_byte) (key_bytes self.children) }
        ensures { result ≡ node_with_child self key_byte child }
    {
        self.node.write_child_unchecked(key_byte, child);
        self
    }
}
