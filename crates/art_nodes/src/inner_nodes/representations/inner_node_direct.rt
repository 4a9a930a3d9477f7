//! Inner nodes with a place for each byte: `Node256`.
use crate::inner_nodes::tables::child_table::ChildTable;
use crate::inner_nodes::traits::inner_node_read::InnerNodeRead;
use crate::inner_nodes::traits::node::{InnerNodeCommon, Node};
use crate::iteration::child_iter::ChildIter;
use crate::iteration::table_pairs::TablePairs;
use crate::pointers::OpaqueNodePtr;
use crate::pointers::packed::PackedNodePtr;
use crate::sealed::{InThisCrate, InnerNodeInit, Sealed};
use art_header::{Header, NodeType};
use std::marker::Model;
use std::ops::Bound;

/// An inner node of at most 256 children, with a table that has a place for each byte. Look-ups,
/// writes and removals cost O(1).
///
/// (from tests/art_node_tests/nodes/direct.rt.txt)
/// ```rust
/// type Node = InnerNodeDirect<u8, u8, 16>;
/// // ..
///     let mut node: Node = node_of(rt, &[], &AT_BORDERS);
///     // ..
///     assert!(rt; node.remove_child(63) == Some(leaf(63)));
///     // ..
///     assert!(rt; node.num_children() == 4);
///     assert!(rt; node.min() == (64, leaf(64)));
/// ```
#[derive(Drop)]
pub struct InnerNodeDirect<K, V, const PREFIX_LEN: usize> {
    // The prefix, and the number of children.
    header: Header<PREFIX_LEN>,
    // A place for each byte, with its child if it has one.
    child_pointers: ChildTable<PackedNodePtr<K, V, PREFIX_LEN>>,
}

/// A direct node, by the name of its kind.
///
/// [`InnerNodeDirect`] has an example.
pub type InnerNode256<K, V, const PREFIX_LEN: usize> = InnerNodeDirect<K, V, PREFIX_LEN>;

impl<K, V, const PREFIX_LEN: usize> Sealed for InnerNodeDirect<K, V, PREFIX_LEN> {}

impl<K, V, const PREFIX_LEN: usize> Model for InnerNodeDirect<K, V, PREFIX_LEN> {
    ghost use Rattle.art_nodes.specs.declared.pointers.OpaqueNodePtr.{OpaqueNodePtr};
    ghost use Rattle.art_nodes.specs.Inner.{Inner, inner_with};
    ghost use Rattle.art_nodes.specs.ChildMap.{table_children};
    ghost use Rattle.art_nodes.specs.DirectNode.{IsDirectNode};

    ghost Value = { Inner (OpaqueNodePtr K V PREFIX_LEN) };

    ghost view = { λ n. inner_with n.header (table_children 0 n.child_pointers) };

    ghost invariant = { λ n. IsDirectNode PREFIX_LEN n.header n.child_pointers };
}

impl<K, V, const PREFIX_LEN: usize> InnerNodeInit<PREFIX_LEN>
    for InnerNodeDirect<K, V, PREFIX_LEN> {
    ghost use Rattle.art_nodes.specs.Inner.{empty_inner};

    ghost empty_with = { empty_inner };

    fn from_prefix(_caller: InThisCrate, prefix: &[u8], prefix_len: usize) -> Self {
        Self::from_header(Header::new(prefix, prefix_len))
    }
}

impl<K, V, const PREFIX_LEN: usize> Node<PREFIX_LEN> for InnerNodeDirect<K, V, PREFIX_LEN> {
    ghost use Rattle.art_header.specs.declared.node_type.NodeType.TheVariants.{Node256};

    const TYPE: NodeType = NodeType::Node256;

    ghost TYPE = { Node256 };

    type Key = K;

    type Value = V;
}

impl<K, V, const PREFIX_LEN: usize> InnerNodeDirect<K, V, PREFIX_LEN> {
    ghost use Rattle.std.specs.Prelude.{◌≡◌, ℕ, ◌<◌, is_some};
    ghost use Rattle.art_nodes.specs.ByteSet.{has_byte};
    ghost use Rattle.art_nodes.specs.ChildMap.{child_at};
    ghost use Rattle.art_nodes.specs.Inner.{empty_inner, node_with_child, IsInner};

    /// A node with the prefix of this header and no children, whatever the header's count.
    pub(crate) fn from_header(mut header: Header<PREFIX_LEN>) -> Self
        ensures { result ≡ empty_inner header.entry }
    {
        header.reset_num_children();
        InnerNodeDirect {
            header,
            child_pointers: ChildTable::new(PackedNodePtr::default()),
        }
    }

    /// The children by ascending byte, as [`InnerNodeRead::iter`] has them.
    #[inline]
    pub(crate) fn pairs(&self) -> TablePairs<'_, PackedNodePtr<K, V, PREFIX_LEN>>
        ensures pairs { result ≡ self.now.children }
        ensures sound { IsInner PREFIX_LEN 256 self.now }
    {
        self.child_pointers.pairs()
    }

    /// Which bytes have a child, as words of bits: bit `b mod 64` of word `b div 64` is set exactly
    /// where the byte `b` has a child. Copies the words that the node keeps, and reads no child.
    pub fn filled_words(&self) -> [u64; 4]
        ensures { (byte : ℕ) → byte < 256 →
            has_byte result byte ≡ is_some (child_at self.now.children byte) }
    {
        self.child_pointers.filled_words()
    }

    /// Writes the child under the byte and returns the one that was there.
    #[inline]
    pub(crate) fn insert_child(
        &mut self,
        key_fragment: u8,
        child_pointer: OpaqueNodePtr<K, V, PREFIX_LEN>,
    ) -> Option<OpaqueNodePtr<K, V, PREFIX_LEN>>
        ensures old_child { result ≡ child_at self.old.children key_fragment }
        ensures written { self.new ≡ node_with_child self.old key_fragment child_pointer }
    {
        let old_child = self.lookup_child(key_fragment);
        if old_child.is_none() {
            self.header.inc_num_children();
        }
        self.child_pointers
            .fill(key_fragment, PackedNodePtr::new(child_pointer));
        old_child
    }

    /// A copy. Takes no memory.
    pub fn clone(&self) -> Self
        ensures { result ≡ self.now }
    {
        InnerNodeDirect {
            header: self.header.clone().unwrap(),
            child_pointers: self.child_pointers.clone(),
        }
    }
}

impl<K, V, const PREFIX_LEN: usize> InnerNodeRead<K, V, PREFIX_LEN>
    for InnerNodeDirect<K, V, PREFIX_LEN> {
    ghost inner = { λ n. n };

    ghost room = { 256 };

    fn header(&self) -> &Header<PREFIX_LEN> {
        &self.header
    }

    fn num_children(&self) -> usize {
        self.header.num_children()
    }

    fn prefix_len(&self) -> usize {
        self.header.prefix_len()
    }

    fn stored_prefix(&self) -> &[u8] {
        self.header.read_prefix()
    }

    fn lookup_child(&self, key_fragment: u8) -> Option<OpaqueNodePtr<K, V, PREFIX_LEN>> {
        let child = self.child_pointers.child(key_fragment)?;
        Some(child.to_opaque())
    }

    fn iter(&self) -> ChildIter<'_, K, V, PREFIX_LEN> {
        ChildIter::over_table(&self.child_pointers)
    }

    fn range(&self, start: Bound<u8>, end: Bound<u8>) -> ChildIter<'_, K, V, PREFIX_LEN> {
        ChildIter::over_table_range(&self.child_pointers, start, end)
    }

    fn min(&self) -> (u8, OpaqueNodePtr<K, V, PREFIX_LEN>) {
        let (byte, child) = self.child_pointers.pairs().next().unwrap();
        (byte, child.to_opaque())
    }

    fn max(&self) -> (u8, OpaqueNodePtr<K, V, PREFIX_LEN>) {
        let (byte, child) = self.child_pointers.pairs().next_back().unwrap();
        (byte, child.to_opaque())
    }
}

impl<K, V, const PREFIX_LEN: usize> InnerNodeCommon<K, V, PREFIX_LEN>
    for InnerNodeDirect<K, V, PREFIX_LEN> {
    ghost use Rattle.std.specs.Prelude.{◌≡◌, refl};
    ghost use Rattle.art_nodes.specs.Inner.{HasRoomFor, node_with_child};

    ghost starts_empty = { λ _. refl };

    fn capacity(&self) -> usize {
        256
    }

    fn set_prefix(&mut self, header: &Header<PREFIX_LEN>) {
        self.header.set_prefix(header);
    }

    fn write_child(&mut self, key_fragment: u8, child_pointer: OpaqueNodePtr<K, V, PREFIX_LEN>)
        requires { HasRoomFor 256 self.old key_fragment }
        ensures written { self.new ≡ node_with_child self.old key_fragment child_pointer }
    {
        self.insert_child(key_fragment, child_pointer);
    }

    fn remove_child(&mut self, key_fragment: u8) -> Option<OpaqueNodePtr<K, V, PREFIX_LEN>> {
        let removed_child = self.child_pointers.child(key_fragment)?;
        self.child_pointers.clear(key_fragment);
        self.header.dec_num_children();
        Some(removed_child.to_opaque())
    }
}
