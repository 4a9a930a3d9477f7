//! Inner nodes with an index for each byte: `Node48`.
use crate::inner_nodes::representations::inner_node_sorted::copy_of;
use crate::inner_nodes::tables::index_table::IndexTable;
use crate::inner_nodes::traits::inner_node_read::InnerNodeRead;
use crate::inner_nodes::traits::node::{InnerNodeCommon, Node};
use crate::iteration::child_iter::ChildIter;
use crate::iteration::index_pairs::IndexPairs;
use crate::pointers::OpaqueNodePtr;
use crate::pointers::packed::PackedNodePtr;
use crate::sealed::{InThisCrate, InnerNodeInit, Sealed};
use arrayvec::ArrayVec;
use art_header::{Header, NodeType, NonMaxIndex};
use std::marker::Model;
use std::ops::Bound;

/// An inner node with a table that has, for each byte, the index of its child. Look-ups, writes and
/// removals cost O(1).
///
/// It holds at most `SIZE` children, and at most 255, since 255 is no [`NonMaxIndex`].
///
/// (from tests/art_node_tests/nodes/indirect.rt.txt)
/// ```rust
/// let mut node: InnerNode48<u8, u8, 16> = node_of(&rt, &[], &[(1, 1), (2, 2), (3, 3)]);
/// assert!(rt; node.remove_child(1) == Some(leaf(1)));
/// // ..
/// assert!(rt; node.lookup_child(2) == Some(leaf(2)));
/// assert!(rt; node.lookup_child(3) == Some(leaf(3)));
/// ```
#[derive(Drop)]
pub struct InnerNodeIndirect<K, V, const PREFIX_LEN: usize, const SIZE: usize> {
    // The prefix, and the number of children.
    header: Header<PREFIX_LEN>,
    // For each byte that has a child, the index of its pointer.
    child_indices: IndexTable,
    // The byte of each pointer, at the same index.
    keys: ArrayVec<u8, SIZE>,
    // The children, in the order of their writes, except after removals.
    child_pointers: ArrayVec<PackedNodePtr<K, V, PREFIX_LEN>, SIZE>,
}

/// An indirect node for at most 48 children.
///
/// [`InnerNodeIndirect`] has an example.
pub type InnerNode48<K, V, const PREFIX_LEN: usize> = InnerNodeIndirect<K, V, PREFIX_LEN, 48>;

impl<K, V, const PREFIX_LEN: usize, const SIZE: usize> Sealed
    for InnerNodeIndirect<K, V, PREFIX_LEN, SIZE> {}

impl<K, V, const PREFIX_LEN: usize, const SIZE: usize> Model
    for InnerNodeIndirect<K, V, PREFIX_LEN, SIZE> {
    ghost use Rattle.art_nodes.specs.declared.pointers.OpaqueNodePtr.{OpaqueNodePtr};
    ghost use Rattle.art_nodes.specs.Inner.{Inner, indirect_room, inner_with};
    ghost use Rattle.art_nodes.specs.ChildMap.{table_children};
    ghost use Rattle.art_nodes.specs.IndirectNode.{named_pointers, IsIndirectNode};

    ghost Value = { Inner (OpaqueNodePtr K V PREFIX_LEN) };

    ghost view = { λ n. inner_with n.header
        (table_children 0 (named_pointers n.child_pointers.items n.child_indices)) };

    ghost invariant = { λ n. IsIndirectNode PREFIX_LEN (indirect_room SIZE) n.header
        n.child_indices n.keys.items n.child_pointers.items };
}

impl<K, V, const PREFIX_LEN: usize, const SIZE: usize> InnerNodeInit<PREFIX_LEN>
    for InnerNodeIndirect<K, V, PREFIX_LEN, SIZE> {
    ghost use Rattle.art_nodes.specs.Inner.{empty_inner};

    ghost empty_with = { empty_inner };

    fn from_prefix(_caller: InThisCrate, prefix: &[u8], prefix_len: usize) -> Self {
        Self::from_header(Header::new(prefix, prefix_len))
    }
}

impl<K, V, const PREFIX_LEN: usize> Node<PREFIX_LEN> for InnerNode48<K, V, PREFIX_LEN> {
    ghost use Rattle.art_header.specs.declared.node_type.NodeType.TheVariants.{Node48};

    const TYPE: NodeType = NodeType::Node48;

    ghost TYPE = { Node48 };

    type Key = K;

    type Value = V;
}

impl<K, V, const PREFIX_LEN: usize, const SIZE: usize> InnerNodeIndirect<K, V, PREFIX_LEN, SIZE> {
    ghost use Rattle.std.specs.Prelude.{◌≡◌, ◌<◌, None, length, map};
    ghost use Rattle.std.specs.List.Sorted.{IsPermutation};
    ghost use Rattle.art_nodes.specs.ChildMap.{child_at};
    ghost use Rattle.art_nodes.specs.Inner.{HasRoomFor, empty_inner, indirect_room, inner_with, node_with_child, sorted_children, IsInner};

    /// A node with the prefix of this header and no children, whatever the header's count.
    pub(crate) fn from_header(mut header: Header<PREFIX_LEN>) -> Self
        ensures { result ≡ empty_inner header.entry }
    {
        header.reset_num_children();
        InnerNodeIndirect {
            header,
            child_indices: IndexTable::new(),
            keys: ArrayVec::new(),
            child_pointers: ArrayVec::new(),
        }
    }

    /// The node with this header and a child for each of the bytes. Conditions: they ascend and
    /// fit.
    pub(crate) fn from_ascending(
        header: &Header<PREFIX_LEN>,
        bytes: &[u8],
        children: &[PackedNodePtr<K, V, PREFIX_LEN>],
    ) -> Self
        requires beside { length children.now ≡ length bytes.now }
        requires counted { header.now.count ≡ length bytes.now }
        requires sound { IsInner PREFIX_LEN (indirect_room SIZE)
            (inner_with header.now (sorted_children bytes.now children.now)) }
        ensures { result ≡ inner_with header.now (sorted_children bytes.now children.now) }
    {
        InnerNodeIndirect {
            header: header.clone().unwrap(),
            child_indices: IndexTable::of_places(bytes),
            keys: copy_of(bytes),
            child_pointers: copy_of(children),
        }
    }

    /// The children by ascending byte, as [`InnerNodeRead::iter`] has them.
    #[inline]
    pub(crate) fn pairs(&self) -> IndexPairs<'_, PackedNodePtr<K, V, PREFIX_LEN>>
        ensures pairs { result ≡ self.now.children }
        ensures sound { IsInner PREFIX_LEN (indirect_room SIZE) self.now }
    {
        IndexPairs::new(0, self.child_indices.places(), &self.child_pointers)
    }

    /// Writes a child under a byte that has none, after the other children. Condition: the node has
    /// spare capacity.
    pub(crate) fn add_child(
        &mut self,
        key_fragment: u8,
        child_pointer: OpaqueNodePtr<K, V, PREFIX_LEN>,
    )
        requires absent { child_at self.old.children key_fragment ≡ None }
        requires room { length self.old.children < indirect_room SIZE }
        ensures { self.new ≡ node_with_child self.old key_fragment child_pointer }
    {
        let index = NonMaxIndex::new_unchecked(self.child_pointers.len() as u8);
        self.child_indices.set(key_fragment, index);
        self.keys.push(key_fragment);
        self.child_pointers.push(PackedNodePtr::new(child_pointer));
        self.header.inc_num_children();
    }

    /// Writes the child under the byte and returns the one that was there. Condition: that of
    /// [`InnerNodeCommon::write_child`].
    #[inline]
    pub(crate) fn insert_child(
        &mut self,
        key_fragment: u8,
        child_pointer: OpaqueNodePtr<K, V, PREFIX_LEN>,
    ) -> Option<OpaqueNodePtr<K, V, PREFIX_LEN>>
        requires { HasRoomFor (indirect_room SIZE) self.old key_fragment }
        ensures old_child { result ≡ child_at self.old.children key_fragment }
        ensures written { self.new ≡ node_with_child self.old key_fragment child_pointer }
    {
        match self.child_indices.get(key_fragment) {
            Some(index) => {
                let place = usize::from(index);
                let old_child = self.child_pointers[place].to_opaque();
                self.child_pointers[place] = PackedNodePtr::new(child_pointer);
                Some(old_child)
            }
            None => {
                self.add_child(key_fragment, child_pointer);
                None
            }
        }
    }

    /// A copy. Takes no memory.
    pub fn clone(&self) -> Self
        ensures { result ≡ self.now }
    {
        InnerNodeIndirect {
            header: self.header.clone().unwrap(),
            child_indices: self.child_indices.clone(),
            keys: copy_of(&self.keys),
            child_pointers: copy_of(&self.child_pointers),
        }
    }

    /// The child of each byte, in an order that is not specified.
    pub fn initialized_child_pointers(&self) -> &[PackedNodePtr<K, V, PREFIX_LEN>]
        ensures { IsPermutation (map (λ p. p.1) self.now.children) result.now }
    {
        self.child_pointers.as_slice()
    }
}

impl<K, V, const PREFIX_LEN: usize, const SIZE: usize> InnerNodeRead<K, V, PREFIX_LEN>
    for InnerNodeIndirect<K, V, PREFIX_LEN, SIZE> {
    ghost use Rattle.art_nodes.specs.Inner.{indirect_room};

    ghost inner = { λ n. n };

    ghost room = { indirect_room SIZE };

    fn header(&self) -> &Header<PREFIX_LEN> {
        &self.header
    }

    fn num_children(&self) -> usize {
        self.header.num_children()
    }

    fn prefix_len(&self) -> usize {
        self.header.prefix_len()
    }

    fn stored_prefix(&self) -> &[u8] {
        self.header.read_prefix()
    }

    fn lookup_child(&self, key_fragment: u8) -> Option<OpaqueNodePtr<K, V, PREFIX_LEN>> {
        let index = self.child_indices.get(key_fragment)?;
        Some(self.child_pointers[usize::from(index)].to_opaque())
    }

    fn iter(&self) -> ChildIter<'_, K, V, PREFIX_LEN> {
        ChildIter::over_indices(self.pairs())
    }

    fn range(&self, start: Bound<u8>, end: Bound<u8>) -> ChildIter<'_, K, V, PREFIX_LEN> {
        ChildIter::over_indices_range(&self.child_indices, &self.child_pointers, start, end)
    }

    fn min(&self) -> (u8, OpaqueNodePtr<K, V, PREFIX_LEN>) {
        let (byte, child) = self.pairs().next().unwrap();
        (byte, child.to_opaque())
    }

    fn max(&self) -> (u8, OpaqueNodePtr<K, V, PREFIX_LEN>) {
        let (byte, child) = self.pairs().next_back().unwrap();
        (byte, child.to_opaque())
    }
}

impl<K, V, const PREFIX_LEN: usize, const SIZE: usize> InnerNodeCommon<K, V, PREFIX_LEN>
    for InnerNodeIndirect<K, V, PREFIX_LEN, SIZE> {
    ghost use Rattle.std.specs.Prelude.{◌≡◌, refl};
    ghost use Rattle.art_nodes.specs.Inner.{HasRoomFor, indirect_room, node_with_child};

    ghost starts_empty = { λ _. refl };

    fn capacity(&self) -> usize {
        SIZE.min(255)
    }

    fn set_prefix(&mut self, header: &Header<PREFIX_LEN>) {
        self.header.set_prefix(header);
    }

    fn write_child(&mut self, key_fragment: u8, child_pointer: OpaqueNodePtr<K, V, PREFIX_LEN>)
        requires { HasRoomFor (indirect_room SIZE) self.old key_fragment }
        ensures written { self.new ≡ node_with_child self.old key_fragment child_pointer }
    {
        self.insert_child(key_fragment, child_pointer);
    }

    fn remove_child(&mut self, key_fragment: u8) -> Option<OpaqueNodePtr<K, V, PREFIX_LEN>> {
        let index = self.child_indices.get(key_fragment)?;
        let freed = usize::from(index);
        // The last pointer moves into the freed place, so its byte gets that index.
        let moved_key = self.keys[self.keys.len() - 1];
        self.child_indices.set(moved_key, index);
        self.child_indices.clear(key_fragment);
        self.keys.swap_remove(freed);
        self.header.dec_num_children();
        Some(self.child_pointers.swap_remove(freed).to_opaque())
    }
}
