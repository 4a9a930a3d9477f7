//! An inner node whose kind is chosen at run time.
ghost use Rattle.std.specs.Prelude.{◌≡◌, ◌≢◌, ◌<◌, ◌≤◌, ◌↔◌, IsTrue, length, IfOk};
ghost use Rattle.art_header.specs.NodeType.{least_children, most_children, grown_kind, shrunk_kind};
ghost use Rattle.art_nodes.specs.AnyInner.{inner_of, kind_of};
ghost use Rattle.art_nodes.specs.ChildMap.{child_at, first_pair, last_pair, pairs_within, AreValidBounds};
ghost use Rattle.art_nodes.specs.Inner.{HasRoomFor, IsInner, header_of, node_with_child, node_without_child};

use crate::inner_nodes::representations::inner_node_direct::InnerNodeDirect;
use crate::inner_nodes::representations::inner_node_indirect::InnerNode48;
use crate::inner_nodes::representations::inner_node_sorted::{InnerNode4, InnerNode16};
use crate::inner_nodes::traits::inner_node::InnerNode;
use crate::inner_nodes::traits::inner_node_read::InnerNodeRead;
use crate::inner_nodes::traits::node::InnerNodeCommon;
use crate::iteration::bounds::byte_range;
use crate::iteration::child_iter::ChildIter;
use crate::pointers::OpaqueNodePtr;
use crate::with_node;
use art_header::{Header, NodeType};
use std::alloc::{AllocError, Global};
use std::ops::Bound;

/// An inner node of any kind. Its calls are those of [`InnerNodeCommon`], except that `min` and
/// `max` return `None` where there is no child, and that `insert_child`, which returns the old
/// child, takes the place of `write_child`. It is no [`InnerNodeRead`], whose `room` is the same for
/// all nodes of a type: here it is that of the kind.
#[derive(Drop)]
pub(crate) enum AnyInner<K, V, const PREFIX_LEN: usize> {
    Node4(InnerNode4<K, V, PREFIX_LEN>),
    Node16(InnerNode16<K, V, PREFIX_LEN>),
    Node48(InnerNode48<K, V, PREFIX_LEN>),
    Node256(InnerNodeDirect<K, V, PREFIX_LEN>),
}

// The pairs in a vector that begins with capacity for so many.
fn gathered<K, V, const PREFIX_LEN: usize>(
    alloc: Global,
    pairs: ChildIter<'_, K, V, PREFIX_LEN>,
    most: usize,
) -> Result<Vec<(u8, OpaqueNodePtr<K, V, PREFIX_LEN>)>, AllocError>
    ensures { IfOk result (λ gathered. gathered.items ≡ pairs.entry) }
{
    let mut gathered = Vec::with_capacity(alloc, most)?;
    for pair in pairs {
        gathered.push(pair)?;
    }
    Ok(gathered)
}

impl<K, V, const PREFIX_LEN: usize> AnyInner<K, V, PREFIX_LEN> {
    pub(crate) fn header(&self) -> &Header<PREFIX_LEN>
        ensures header { result.now ≡ header_of (inner_of self.now) }
        ensures sound { IsInner PREFIX_LEN (most_children (kind_of self.now)) (inner_of self.now) }
    {
        with_node!(AnyInner, self, node => node.header())
    }

    pub(crate) fn num_children(&self) -> usize
        ensures count { result ≡ length (inner_of self.now).children }
        ensures sound { IsInner PREFIX_LEN (most_children (kind_of self.now)) (inner_of self.now) }
    {
        self.header().num_children()
    }

    pub(crate) fn node_type(&self) -> NodeType
        ensures { result ≡ kind_of self.now }
    {
        match self {
            AnyInner::Node4(_) => NodeType::Node4,
            AnyInner::Node16(_) => NodeType::Node16,
            AnyInner::Node48(_) => NodeType::Node48,
            AnyInner::Node256(_) => NodeType::Node256,
        }
    }

    pub(crate) fn lookup_child(&self, key_fragment: u8) -> Option<OpaqueNodePtr<K, V, PREFIX_LEN>>
        ensures { result ≡ child_at (inner_of self.now).children key_fragment }
    {
        with_node!(AnyInner, self, node => node.lookup_child(key_fragment))
    }

    /// Writes the child under the byte and returns the one that was there. Condition: under a new
    /// byte, the node has spare capacity.
    pub(crate) fn insert_child(
        &mut self,
        key_fragment: u8,
        child_pointer: OpaqueNodePtr<K, V, PREFIX_LEN>,
    ) -> Option<OpaqueNodePtr<K, V, PREFIX_LEN>>
        requires { HasRoomFor (most_children (kind_of self.old)) (inner_of self.old) key_fragment }
        ensures old_child { result ≡ child_at (inner_of self.old).children key_fragment }
        ensures written { inner_of self.new ≡
            node_with_child (inner_of self.old) key_fragment child_pointer }
        ensures kind { kind_of self.new ≡ kind_of self.old }
    {
        with_node!(AnyInner, self, node => node.insert_child(key_fragment, child_pointer))
    }

    pub(crate) fn remove_child(
        &mut self,
        key_fragment: u8,
    ) -> Option<OpaqueNodePtr<K, V, PREFIX_LEN>>
        ensures child { result ≡ child_at (inner_of self.old).children key_fragment }
        ensures removed { inner_of self.new ≡ node_without_child (inner_of self.old) key_fragment }
        ensures sound { IsInner PREFIX_LEN (most_children (kind_of self.old)) (inner_of self.old) }
        ensures kind { kind_of self.new ≡ kind_of self.old }
    {
        with_node!(AnyInner, self, node => node.remove_child(key_fragment))
    }

    pub(crate) fn iter(&self) -> ChildIter<'_, K, V, PREFIX_LEN>
        ensures { result ≡ (inner_of self.now).children }
    {
        with_node!(AnyInner, self, node => node.iter())
    }

    pub(crate) fn min(&self) -> Option<(u8, OpaqueNodePtr<K, V, PREFIX_LEN>)>
        ensures { result ≡ first_pair (inner_of self.now).children }
    {
        self.iter().next()
    }

    pub(crate) fn max(&self) -> Option<(u8, OpaqueNodePtr<K, V, PREFIX_LEN>)>
        ensures { result ≡ last_pair (inner_of self.now).children }
    {
        self.iter().next_back()
    }

    /// The pairs within the bounds, in a vector. Condition: the bounds are valid.
    pub(crate) fn pairs_within(
        &self,
        alloc: Global,
        start: Bound<u8>,
        end: Bound<u8>,
    ) -> Result<Vec<(u8, OpaqueNodePtr<K, V, PREFIX_LEN>)>, AllocError>
        requires { AreValidBounds start end }
        ensures { let children = (inner_of self.now).children in
            IfOk result (λ pairs. pairs.items ≡ pairs_within children start end) }
    {
        // There are no more pairs than children, nor than bytes within the bounds.
        let most = self.num_children().min(byte_range(start, end).len());
        let pairs = with_node!(AnyInner, self, node => node.range(start, end));
        gathered(alloc, pairs, most)
    }

    /// Whether the node has as many children as its kind holds.
    pub(crate) fn is_full(&self) -> bool
        ensures sound { IsInner PREFIX_LEN (most_children (kind_of self.now)) (inner_of self.now) }
        ensures value { let count = length (inner_of self.now).children in
            IsTrue result ↔ (count ≡ most_children (kind_of self.now)) }
    {
        self.num_children() == *self.node_type().capacity_range().end()
    }

    /// Whether the node has fewer children than a node of its kind has in a tree.
    pub(crate) fn is_below_range(&self) -> bool
        ensures sound { IsInner PREFIX_LEN (most_children (kind_of self.now)) (inner_of self.now) }
        ensures value { let kind = kind_of self.now in
            let count = length (inner_of self.now).children in
            IsTrue result ↔ (kind ≢ NodeType.Node4 × count < least_children kind) }
    {
        self.node_type()
            .should_shrink_inner_node(self.num_children())
    }

    /// Makes the node one of the next greater kind. Condition: there is one.
    pub(crate) fn grow(&mut self)
        requires { kind_of self.old ≢ NodeType.Node256 }
        ensures same { inner_of self.new ≡ inner_of self.old }
        ensures kind { kind_of self.new ≡ grown_kind (kind_of self.old) }
    {
        let grown = match self {
            AnyInner::Node4(node) => AnyInner::Node16(node.grow()),
            AnyInner::Node16(node) => AnyInner::Node48(node.grow()),
            AnyInner::Node48(node) => AnyInner::Node256(node.grow()),
            AnyInner::Node256(_) => unreachable!(),
        };
        *self = grown;
    }

    /// Makes the node one of the next smaller kind. Condition: there is one, and it holds the
    /// children.
    pub(crate) fn shrink(&mut self)
        requires kind { kind_of self.old ≢ NodeType.Node4 }
        requires fits { let count = length (inner_of self.old).children in
            count ≤ most_children (shrunk_kind (kind_of self.old)) }
        ensures same { inner_of self.new ≡ inner_of self.old }
        ensures kind { kind_of self.new ≡ shrunk_kind (kind_of self.old) }
    {
        let shrunk = match self {
            AnyInner::Node4(_) => unreachable!(),
            AnyInner::Node16(node) => AnyInner::Node4(node.shrink()),
            AnyInner::Node48(node) => AnyInner::Node16(node.shrink()),
            AnyInner::Node256(node) => AnyInner::Node48(node.shrink()),
        };
        *self = shrunk;
    }
}
