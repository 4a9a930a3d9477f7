//! Conversions of a node to another representation.
ghost use Rattle.std.specs.Prelude.{◌≡◌};

use crate::inner_nodes::representations::inner_node_direct::InnerNodeDirect;
use crate::inner_nodes::representations::inner_node_indirect::InnerNodeIndirect;
use crate::inner_nodes::representations::inner_node_sorted::InnerNodeSorted;
use crate::inner_nodes::traits::inner_node_read::InnerNodeRead;
use crate::inner_nodes::traits::node::InnerNodeCommon;

/// The same node with a place for each byte. Takes no memory.
impl<'a, K, V, const PREFIX_LEN: usize, const SIZE: usize> From<
    &'a InnerNodeSorted<K, V, PREFIX_LEN, SIZE>,
> for InnerNodeDirect<K, V, PREFIX_LEN> {
    ghost use Rattle.std.specs.Prelude.{◌≡◌};

    ghost from_gives = { λ node direct. direct ≡ node.now };

    fn from(node: &'a InnerNodeSorted<K, V, PREFIX_LEN, SIZE>) -> Self {
        direct_from_sorted(node)
    }
}

// The same node with a place for each byte.
fn direct_from_sorted<K, V, const PREFIX_LEN: usize, const SIZE: usize>(
    node: &InnerNodeSorted<K, V, PREFIX_LEN, SIZE>,
) -> InnerNodeDirect<K, V, PREFIX_LEN>
    ensures { result ≡ node.now }
{
    let mut direct = InnerNodeDirect::from_header(node.header().clone().unwrap());
    for (byte, child) in node.iter() {
        direct.write_child(byte, child);
    }
    direct
}

/// The same node with a place for each byte. Takes no memory.
impl<'a, K, V, const PREFIX_LEN: usize, const SIZE: usize> From<
    &'a InnerNodeIndirect<K, V, PREFIX_LEN, SIZE>,
> for InnerNodeDirect<K, V, PREFIX_LEN> {
    ghost use Rattle.std.specs.Prelude.{◌≡◌};

    ghost from_gives = { λ node direct. direct ≡ node.now };

    fn from(node: &'a InnerNodeIndirect<K, V, PREFIX_LEN, SIZE>) -> Self {
        direct_from_indirect(node)
    }
}

// The same node with a place for each byte.
fn direct_from_indirect<K, V, const PREFIX_LEN: usize, const SIZE: usize>(
    node: &InnerNodeIndirect<K, V, PREFIX_LEN, SIZE>,
) -> InnerNodeDirect<K, V, PREFIX_LEN>
    ensures { result ≡ node.now }
{
    let mut direct = InnerNodeDirect::from_header(node.header().clone().unwrap());
    for (byte, child) in node.pairs() {
        direct.write_child(byte, child.to_opaque());
    }
    direct
}

impl<K, V, const PREFIX_LEN: usize, const SIZE: usize> InnerNodeIndirect<K, V, PREFIX_LEN, SIZE> {
    ghost use Rattle.std.specs.Prelude.{◌≡◌, ◌≤◌, length};
    ghost use Rattle.art_nodes.specs.Inner.{indirect_room};

    /// The same node with an index for each byte. Takes no memory. Condition: it has at most `SIZE`
    /// children, and at most 255.
    pub fn from_direct(node: &InnerNodeDirect<K, V, PREFIX_LEN>) -> Self
        requires { length node.now.children ≤ indirect_room SIZE }
        ensures { result ≡ node.now }
    {
        let mut indirect = Self::from_header(node.header().clone().unwrap());
        for (byte, child) in node.pairs() {
            indirect.add_child(byte, child.to_opaque());
        }
        indirect
    }

    /// The same node with an index for each byte. Takes no memory. Condition: it has at most `SIZE`
    /// children, and at most 255.
    pub fn from_sorted<const SORTED_SIZE: usize>(
        node: &InnerNodeSorted<K, V, PREFIX_LEN, SORTED_SIZE>,
    ) -> Self
        requires { length node.now.children ≤ indirect_room SIZE }
        ensures { result ≡ node.now }
    {
        let (bytes, children) = node.initialized_portion();
        Self::from_ascending(node.header(), bytes, children)
    }
}

impl<K, V, const PREFIX_LEN: usize, const SIZE: usize> InnerNodeSorted<K, V, PREFIX_LEN, SIZE> {
    ghost use Rattle.std.specs.Prelude.{◌≡◌, ◌≤◌, length};

    /// The same node with its bytes sorted. Takes no memory. Condition: it has at most `SIZE`
    /// children.
    pub fn from_direct(node: &InnerNodeDirect<K, V, PREFIX_LEN>) -> Self
        requires { length node.now.children ≤ SIZE }
        ensures { result ≡ node.now }
    {
        Self::from_node(node)
    }

    /// The same node with its bytes sorted. Takes no memory. Condition: it has at most `SIZE`
    /// children.
    pub fn from_indirect<const INDIRECT_SIZE: usize>(
        node: &InnerNodeIndirect<K, V, PREFIX_LEN, INDIRECT_SIZE>,
    ) -> Self
        requires { length node.now.children ≤ SIZE }
        ensures { result ≡ node.now }
    {
        Self::from_node(node)
    }

    // The same node with its bytes sorted, whichever way it has them. Condition: its children fit.
    fn from_node<N: InnerNodeRead<K, V, PREFIX_LEN>>(node: &N) -> Self
        requires { length (N.inner node.now).children ≤ SIZE }
        ensures { result ≡ N.inner node.now }
    {
        let mut sorted = Self::from_header(node.header().clone().unwrap());
        for (byte, child) in node.iter() {
            sorted.write_child_unchecked(byte, child);
        }
        sorted
    }
}
