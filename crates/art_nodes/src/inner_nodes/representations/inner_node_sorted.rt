//! Inner nodes that keep their bytes sorted: `Node4` and `Node16`.
ghost use Rattle.std.specs.Prelude.{◌≡◌, ◌≢◌, ℕ, ◌<◌, ◌≤◌, IfOk, IfErr, IfSome, IfNone, length, slice_index};
ghost use Rattle.art_nodes.specs.ChildMap.{IsAscending};
ghost use Rattle.art_nodes.specs.WritePoint.{IsByteAt, IsGapFor};

use crate::inner_nodes::traits::inner_node_read::InnerNodeRead;
use crate::inner_nodes::traits::node::{InnerNodeCommon, Node};
use crate::iteration::child_iter::ChildIter;
use crate::pointers::OpaqueNodePtr;
use crate::pointers::packed::PackedNodePtr;
use crate::sealed::{InThisCrate, InnerNodeInit, Sealed};
use arrayvec::ArrayVec;
use art_header::{Header, NodeType};
use std::marker::Model;
use std::ops::Bound;

/// An inner node of at most `SIZE` children that keeps its bytes in ascending order and its
/// children in the same order. Look-ups, writes and removals cost O(`SIZE`).
///
/// (from tests/art_node_tests/nodes/builder.rt.txt)
/// ```rust
/// let unsearched = InnerNode4::<u8, u8, 16>::builder(b"prefix", 6)
///     .write_child_unchecked(0, leaf(7))
///     .write_child_unchecked(1, leaf(8))
///     .write_child_unchecked(200, leaf(10))
///     .build();
/// // ..
/// let (bytes, children) = unsearched.initialized_portion();
/// assert!(rt; bytes == [0, 1, 200].as_slice());
/// ```
#[derive(Drop)]
pub struct InnerNodeSorted<K, V, const PREFIX_LEN: usize, const SIZE: usize> {
    // The prefix, and the number of children.
    header: Header<PREFIX_LEN>,
    // The bytes that have a child, ascending.
    keys: ArrayVec<u8, SIZE>,
    // The child of each byte, at the same index.
    child_pointers: ArrayVec<PackedNodePtr<K, V, PREFIX_LEN>, SIZE>,
}

/// A sorted node for at most 4 children.
///
/// [`InnerNodeSorted`] has an example.
pub type InnerNode4<K, V, const PREFIX_LEN: usize> = InnerNodeSorted<K, V, PREFIX_LEN, 4>;

/// A sorted node for at most 16 children.
///
/// (from tests/art_node_tests/nodes/conversions.rt.txt)
/// ```rust
/// let node: InnerNode16<u8, u8, 16> = with_bytes(rt, first);
/// assert!(rt; node.num_children() <= 4);
/// sorted_has(rt, &node.shrink(), first);
/// ```
pub type InnerNode16<K, V, const PREFIX_LEN: usize> = InnerNodeSorted<K, V, PREFIX_LEN, 16>;

impl<K, V, const PREFIX_LEN: usize, const SIZE: usize> Sealed
    for InnerNodeSorted<K, V, PREFIX_LEN, SIZE> {}

impl<K, V, const PREFIX_LEN: usize, const SIZE: usize> Model
    for InnerNodeSorted<K, V, PREFIX_LEN, SIZE> {
    ghost use Rattle.art_nodes.specs.declared.pointers.OpaqueNodePtr.{OpaqueNodePtr};
    ghost use Rattle.art_nodes.specs.Inner.{Inner, inner_with, sorted_children};
    ghost use Rattle.art_nodes.specs.SortedNode.{IsSortedNode};

    ghost Value = { Inner (OpaqueNodePtr K V PREFIX_LEN) };

    ghost view = { λ n. inner_with n.header (sorted_children n.keys.items n.child_pointers.items) };

    ghost invariant = { λ n. IsSortedNode PREFIX_LEN SIZE n.header
        n.keys.items n.child_pointers.items };
}

impl<K, V, const PREFIX_LEN: usize, const SIZE: usize> InnerNodeInit<PREFIX_LEN>
    for InnerNodeSorted<K, V, PREFIX_LEN, SIZE> {
    ghost use Rattle.art_nodes.specs.Inner.{empty_inner};

    ghost empty_with = { empty_inner };

    fn from_prefix(_caller: InThisCrate, prefix: &[u8], prefix_len: usize) -> Self {
        Self::from_header(Header::new(prefix, prefix_len))
    }
}

impl<K, V, const PREFIX_LEN: usize> Node<PREFIX_LEN> for InnerNode4<K, V, PREFIX_LEN> {
    ghost use Rattle.art_header.specs.declared.node_type.NodeType.TheVariants.{Node4};

    const TYPE: NodeType = NodeType::Node4;

    ghost TYPE = { Node4 };

    type Key = K;

    type Value = V;
}

impl<K, V, const PREFIX_LEN: usize> Node<PREFIX_LEN> for InnerNode16<K, V, PREFIX_LEN> {
    ghost use Rattle.art_header.specs.declared.node_type.NodeType.TheVariants.{Node16};

    const TYPE: NodeType = NodeType::Node16;

    ghost TYPE = { Node16 };

    type Key = K;

    type Value = V;
}

impl<K, V, const PREFIX_LEN: usize, const SIZE: usize> InnerNodeSorted<K, V, PREFIX_LEN, SIZE> {
    ghost use Rattle.std.specs.Prelude.{◌≡◌, ◌<◌, ◌≤◌, All, length, map};
    ghost use Rattle.art_nodes.specs.ChildMap.{child_at, key_bytes};
    ghost use Rattle.art_nodes.specs.Inner.{HasRoomFor, empty_inner, node_with_child};

    /// A node with the prefix of this header and no children, whatever the header's count.
    pub(crate) fn from_header(mut header: Header<PREFIX_LEN>) -> Self
        ensures { result ≡ empty_inner header.entry }
    {
        header.reset_num_children();
        InnerNodeSorted {
            header,
            keys: ArrayVec::new(),
            child_pointers: ArrayVec::new(),
        }
    }

    /// A copy. Takes no memory.
    pub fn clone(&self) -> Self
        ensures { result ≡ self.now }
    {
        prove!(self.header().num_children() <= SIZE);
        self.change_block_size()
    }

    /// The bytes in ascending order, and the children in the same order.
    pub fn initialized_portion(&self) -> (&[u8], &[PackedNodePtr<K, V, PREFIX_LEN>])
        ensures bytes { result.0.now ≡ key_bytes self.now.children }
        ensures children { result.1.now ≡ map (λ p. p.1) self.now.children }
    {
        (&self.keys, &self.child_pointers)
    }

    /// Writes a child without a search. Conditions: its byte is above every byte of the node, and
    /// the node has spare capacity.
    pub fn write_child_unchecked(
        &mut self,
        key_fragment: u8,
        child_pointer: OpaqueNodePtr<K, V, PREFIX_LEN>,
    )
        requires room { length self.old.children < SIZE }
        requires above { All (λ byte. byte < key_fragment) (key_bytes self.old.children) }
        ensures { self.new ≡ node_with_child self.old key_fragment child_pointer }
    {
        self.keys.push(key_fragment);
        self.child_pointers.push(PackedNodePtr::new(child_pointer));
        self.header.inc_num_children();
    }

    /// Writes the child under the byte and returns the one that was there. Condition: that of
    /// [`InnerNodeCommon::write_child`].
    #[inline]
    pub(crate) fn insert_child(
        &mut self,
        key_fragment: u8,
        child_pointer: OpaqueNodePtr<K, V, PREFIX_LEN>,
    ) -> Option<OpaqueNodePtr<K, V, PREFIX_LEN>>
        requires { HasRoomFor SIZE self.old key_fragment }
        ensures old_child { result ≡ child_at self.old.children key_fragment }
        ensures written { self.new ≡ node_with_child self.old key_fragment child_pointer }
    {
        match find_write_point(&self.keys, key_fragment) {
            Ok(index) => {
                let old_child = self.child_pointers[index].to_opaque();
                self.child_pointers[index] = PackedNodePtr::new(child_pointer);
                Some(old_child)
            }
            Err(index) => {
                self.keys.insert(index, key_fragment);
                self.child_pointers
                    .insert(index, PackedNodePtr::new(child_pointer));
                self.header.inc_num_children();
                None
            }
        }
    }

    /// The same node with capacity for `NEW_SIZE` children. Condition: its children fit.
    pub(crate) fn change_block_size<const NEW_SIZE: usize>(
        &self,
    ) -> InnerNodeSorted<K, V, PREFIX_LEN, NEW_SIZE>
        requires { length self.now.children ≤ NEW_SIZE }
        ensures { result ≡ self.now }
    {
        InnerNodeSorted {
            header: self.header.clone().unwrap(),
            keys: copy_of(&self.keys),
            child_pointers: copy_of(&self.child_pointers),
        }
    }
}

/// A copy of these items. Condition: they fit.
#[inline]
pub(crate) fn copy_of<T: Copy + Default, const SIZE: usize>(items: &[T]) -> ArrayVec<T, SIZE>
    requires { length items.now ≤ SIZE }
    ensures { result.items ≡ items.now }
{
    let mut copy = ArrayVec::new();
    copy.try_extend_from_slice(items).unwrap();
    copy
}

// The index of a byte among others, if it is one of them.
fn place_of(keys: &[u8], key_fragment: u8) -> Option<usize>
    ensures found { IfSome result (IsByteAt keys.now key_fragment) }
    ensures absent { IfNone result ((k : ℕ) → k < length keys.now →
        slice_index keys.now k ≢ key_fragment) }
{
    keys.iter().position(|key| *key == key_fragment)
}

// The index of a byte among ascending bytes, or else the index to insert it at.
fn find_write_point(keys: &[u8], key_fragment: u8) -> Result<usize, usize>
    requires { IsAscending keys.now }
    ensures existing { IfOk result (IsByteAt keys.now key_fragment) }
    ensures absent { IfErr result (IsGapFor keys.now key_fragment) }
{
    match keys.iter().position(|key| *key >= key_fragment) {
        Some(place) if keys[place] == key_fragment => Ok(place),
        Some(place) => Err(place),
        None => Err(keys.len()),
    }
}

impl<K, V, const PREFIX_LEN: usize, const SIZE: usize> InnerNodeRead<K, V, PREFIX_LEN>
    for InnerNodeSorted<K, V, PREFIX_LEN, SIZE> {
    ghost inner = { λ n. n };

    ghost room = { SIZE };

    fn header(&self) -> &Header<PREFIX_LEN> {
        &self.header
    }

    fn num_children(&self) -> usize {
        self.header.num_children()
    }

    fn prefix_len(&self) -> usize {
        self.header.prefix_len()
    }

    fn stored_prefix(&self) -> &[u8] {
        self.header.read_prefix()
    }

    fn lookup_child(&self, key_fragment: u8) -> Option<OpaqueNodePtr<K, V, PREFIX_LEN>> {
        let index = place_of(&self.keys, key_fragment)?;
        Some(self.child_pointers[index].to_opaque())
    }

    fn iter(&self) -> ChildIter<'_, K, V, PREFIX_LEN> {
        ChildIter::over_sorted(&self.keys, &self.child_pointers)
    }

    fn range(&self, start: Bound<u8>, end: Bound<u8>) -> ChildIter<'_, K, V, PREFIX_LEN> {
        ChildIter::over_sorted_range(&self.keys, &self.child_pointers, start, end)
    }

    fn min(&self) -> (u8, OpaqueNodePtr<K, V, PREFIX_LEN>) {
        (self.keys[0], self.child_pointers[0].to_opaque())
    }

    fn max(&self) -> (u8, OpaqueNodePtr<K, V, PREFIX_LEN>) {
        let last = self.keys.len() - 1;
        (self.keys[last], self.child_pointers[last].to_opaque())
    }
}

impl<K, V, const PREFIX_LEN: usize, const SIZE: usize> InnerNodeCommon<K, V, PREFIX_LEN>
    for InnerNodeSorted<K, V, PREFIX_LEN, SIZE> {
    ghost use Rattle.std.specs.Prelude.{◌≡◌, refl};
    ghost use Rattle.art_nodes.specs.Inner.{HasRoomFor, node_with_child};

    ghost starts_empty = { λ _. refl };

    fn capacity(&self) -> usize {
        SIZE
    }

    fn set_prefix(&mut self, header: &Header<PREFIX_LEN>) {
        self.header.set_prefix(header);
    }

    fn write_child(&mut self, key_fragment: u8, child_pointer: OpaqueNodePtr<K, V, PREFIX_LEN>)
        requires { HasRoomFor SIZE self.old key_fragment }
        ensures written { self.new ≡ node_with_child self.old key_fragment child_pointer }
    {
        self.insert_child(key_fragment, child_pointer);
    }

    fn remove_child(&mut self, key_fragment: u8) -> Option<OpaqueNodePtr<K, V, PREFIX_LEN>> {
        match find_write_point(&self.keys, key_fragment) {
            Ok(index) => {
                self.keys.remove(index);
                self.header.dec_num_children();
                Some(self.child_pointers.remove(index).to_opaque())
            }
            Err(_) => None,
        }
    }
}
