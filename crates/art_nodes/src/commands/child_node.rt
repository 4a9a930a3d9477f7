//! A node that takes child commands and keeps the smallest kind that holds its children.
ghost use Rattle.std.specs.Prelude.{◌≡◌, ◌<◌, length, OnErr, IfOk, OnOk};
ghost use Rattle.art_header.specs.NodeType.{kind_for, most_children};
ghost use Rattle.art_nodes.specs.ChildMap.{child_at, pairs_within, AreValidBounds};
ghost use Rattle.art_nodes.specs.Commands.{reply_to, child_map_after, TakesMemory};
ghost use Rattle.art_nodes.specs.Inner.{IsInner, header_of, empty_inner, node_with_child, node_without_child, with_children};

use crate::commands::any_inner::AnyInner;
use crate::commands::command::{ChildCommand, ChildReply};
use crate::commands::sequence::Sequence;
use crate::inner_nodes::representations::inner_node_sorted::InnerNode4;
use crate::iteration::bounds::valid_range_bounds;
use crate::pointers::OpaqueNodePtr;
use art_header::{Header, NodeType};
use std::alloc::{AllocError, Global};
use std::marker::Model;
use std::ops::Bound;

/// An inner node that is always of the smallest kind that holds its children.
///
/// (from tests/art_node_tests/nodes/replay.rt.txt)
/// ```rust
/// let mut node = ChildNode::from_header(Header::<2>::new(b"", 0));
/// for byte in 0..20u8 {
///     node.apply(rt.alloc(), &Command::Write(byte, leaf(usize::from(byte))))?;
/// }
/// assert!(rt; node.node_type() == NodeType::Node48);
/// ```
#[derive(Drop)]
pub struct ChildNode<K, V, const PREFIX_LEN: usize> {
    node: AnyInner<K, V, PREFIX_LEN>,
}

impl<K, V, const PREFIX_LEN: usize> Model for ChildNode<K, V, PREFIX_LEN> {
    ghost use Rattle.art_nodes.specs.declared.pointers.OpaqueNodePtr.{OpaqueNodePtr};
    ghost use Rattle.art_nodes.specs.Inner.{Inner};

    ghost Value = { Inner (OpaqueNodePtr K V PREFIX_LEN) };

    ghost use Rattle.art_nodes.specs.AnyInner.{inner_of, IsSmallestKind};

    ghost view = { λ n. inner_of n.node };

    ghost invariant = { λ n. IsSmallestKind n.node };
}

impl<K, V, const PREFIX_LEN: usize> ChildNode<K, V, PREFIX_LEN> {
    /// A `Node4` with the prefix of this header and no children, whatever the header's count. Takes
    /// no memory.
    pub fn from_header(header: Header<PREFIX_LEN>) -> Self
        ensures { result ≡ empty_inner header.entry }
    {
        ChildNode {
            node: AnyInner::Node4(InnerNode4::from_header(header)),
        }
    }

    /// The header. Its count is the number of children.
    pub fn header(&self) -> &Header<PREFIX_LEN>
        ensures header { result.now ≡ header_of self.now }
        ensures sound { let kind = kind_for (length self.now.children) in
            IsInner PREFIX_LEN (most_children kind) self.now }
    {
        self.node.header()
    }

    /// The kind of the node: the smallest that holds its children.
    pub fn node_type(&self) -> NodeType
        ensures { result ≡ kind_for (length self.now.children) }
    {
        self.node.node_type()
    }

    /// The number of children, at most 256.
    pub fn num_children(&self) -> usize
        ensures count { result ≡ length self.now.children }
        ensures sound { let kind = kind_for (length self.now.children) in
            IsInner PREFIX_LEN (most_children kind) self.now }
    {
        self.node.num_children()
    }

    /// Applies the command and returns its reply. The prefix is unchanged, and the node is of the
    /// smallest kind that holds its children.
    ///
    /// Error: [`AllocError`] on an allocation failure. Only a [`ChildCommand::Range`] with valid
    /// bounds takes memory. The node is then unchanged.
    pub fn apply(
        &mut self,
        alloc: Global,
        command: &ChildCommand<K, V, PREFIX_LEN>,
    ) -> Result<ChildReply<K, V, PREFIX_LEN>, AllocError>
        ensures reply { IfOk result (λ reply. reply ≡ reply_to self.old.children command.now) }
        ensures children { let left = child_map_after self.old.children command.now in
            OnOk result (self.new ≡ with_children self.old left) }
        ensures refused_for_memory_only { OnErr result (TakesMemory command.now) }
        ensures refused { OnErr result (self.new ≡ self.old) }
    {
        match command {
            ChildCommand::Write(byte, child) => Ok(ChildReply::Child(self.write(*byte, *child))),
            ChildCommand::Remove(byte) => Ok(ChildReply::Child(self.remove(*byte))),
            ChildCommand::Lookup(byte) => Ok(ChildReply::Child(self.node.lookup_child(*byte))),
            ChildCommand::Min => Ok(ChildReply::Pair(self.node.min())),
            ChildCommand::Max => Ok(ChildReply::Pair(self.node.max())),
            ChildCommand::Range(start, end) => self.range(alloc, *start, *end),
        }
    }

    // Returns the child that was there.
    fn write(
        &mut self,
        byte: u8,
        child: OpaqueNodePtr<K, V, PREFIX_LEN>,
    ) -> Option<OpaqueNodePtr<K, V, PREFIX_LEN>>
        ensures old_child { result ≡ child_at self.old.children byte }
        ensures written { self.new ≡ node_with_child self.old byte child }
    {
        if self.node.is_full() && self.node.lookup_child(byte).is_none() {
            self.node.grow();
        }
        self.node.insert_child(byte, child)
    }

    // Returns the child that was there.
    fn remove(&mut self, byte: u8) -> Option<OpaqueNodePtr<K, V, PREFIX_LEN>>
        ensures old_child { result ≡ child_at self.old.children byte }
        ensures removed { self.new ≡ node_without_child self.old byte }
    {
        let old_child = self.node.remove_child(byte);
        if self.node.is_below_range() {
            self.node.shrink();
        }
        old_child
    }

    // Replies with the pairs within the bounds, or that the bounds are not valid.
    fn range(
        &self,
        alloc: Global,
        start: Bound<u8>,
        end: Bound<u8>,
    ) -> Result<ChildReply<K, V, PREFIX_LEN>, AllocError>
        ensures reply { let command = ChildCommand.Range start end in
            IfOk result (λ reply. reply ≡ reply_to self.now.children command) }
        ensures refused { OnErr result (AreValidBounds start end) }
    {
        if !valid_range_bounds(start, end) {
            return Ok(ChildReply::InvalidBounds);
        }
        let pairs = self.node.pairs_within(alloc, start, end)?;
        Ok(ChildReply::Pairs(Sequence::from_vec(pairs)))
    }
}
