//! A reference to an inner node of any kind.
ghost use Rattle.std.specs.Prelude.{◌≡◌, ◌↔◌, IsNone};
ghost use Rattle.std.specs.Option.{option_map};
ghost use Rattle.art_header.specs.declared.node_type.NodeType.TheVariants.{Leaf};
ghost use Rattle.art_arena.specs.Arena.{as_inner};
ghost use Rattle.art_arena.specs.InnerRef.{inner_shown};
ghost use Rattle.art_arena.specs.Reader.{shown, shown_kind};

use crate::reader::NodeRef;
use art_nodes::{
    ChildIter, Header, InnerNode4, InnerNode16, InnerNode48, InnerNode256, InnerNodeRead,
    OpaqueNodePtr, with_node,
};
use std::ops::Bound;

/// A reference to an inner node of one of four types. Callers name it [`InnerRef`].
#[derive_where(Clone, Copy)]
pub enum AnyInnerRef<'a, A, B, C, D> {
    /// An inner node of kind `Node4`.
    Node4(&'a A),
    /// An inner node of kind `Node16`.
    Node16(&'a B),
    /// An inner node of kind `Node48`.
    Node48(&'a C),
    /// An inner node of kind `Node256`.
    Node256(&'a D),
}

/// A reference to an inner node of any kind, with the calls of [`InnerNodeRead`]. A call looks at
/// the kind once for each call of that trait that it makes. [`NodeRef::inner`](AnyNodeRef::inner)
/// returns one.
pub type InnerRef<'a, K, V, const PREFIX_LEN: usize> = AnyInnerRef<
    'a,
    InnerNode4<K, V, PREFIX_LEN>,
    InnerNode16<K, V, PREFIX_LEN>,
    InnerNode48<K, V, PREFIX_LEN>,
    InnerNode256<K, V, PREFIX_LEN>,
>;

impl<'a, K, V, const PREFIX_LEN: usize> InnerNodeRead<K, V, PREFIX_LEN>
    for InnerRef<'a, K, V, PREFIX_LEN> {
    ghost use Rattle.art_arena.specs.InnerRef.{inner_shown};

    ghost inner = { inner_shown };

    ghost room = { 256 };

    #[tactic(auto, using(crate::proofs::InnerRefLemmas::of_node4, crate::proofs::InnerRefLemmas::of_node16, crate::proofs::InnerRefLemmas::of_node48))]
    fn header(&self) -> &Header<PREFIX_LEN> {
        with_node!(InnerRef, *self, node => node.header())
    }

    #[tactic(auto, using(crate::proofs::InnerRefLemmas::of_node4, crate::proofs::InnerRefLemmas::of_node16, crate::proofs::InnerRefLemmas::of_node48))]
    fn num_children(&self) -> usize {
        with_node!(InnerRef, *self, node => node.num_children())
    }

    fn prefix_len(&self) -> usize {
        with_node!(InnerRef, *self, node => node.prefix_len())
    }

    fn stored_prefix(&self) -> &[u8] {
        with_node!(InnerRef, *self, node => node.stored_prefix())
    }

    #[tactic(auto, using(crate::proofs::InnerRefLemmas::of_node4, crate::proofs::InnerRefLemmas::of_node16, crate::proofs::InnerRefLemmas::of_node48))]
    fn lookup_child(&self, key_fragment: u8) -> Option<OpaqueNodePtr<K, V, PREFIX_LEN>> {
        with_node!(InnerRef, *self, node => node.lookup_child(key_fragment))
    }

    #[tactic(auto, using(crate::proofs::InnerRefLemmas::of_node4, crate::proofs::InnerRefLemmas::of_node16, crate::proofs::InnerRefLemmas::of_node48))]
    fn iter(&self) -> ChildIter<'_, K, V, PREFIX_LEN> {
        with_node!(InnerRef, *self, node => node.iter())
    }

    fn range(&self, start: Bound<u8>, end: Bound<u8>) -> ChildIter<'_, K, V, PREFIX_LEN> {
        with_node!(InnerRef, *self, node => node.range(start, end))
    }

    #[tactic(auto, using(crate::proofs::InnerRefLemmas::of_node4, crate::proofs::InnerRefLemmas::of_node16, crate::proofs::InnerRefLemmas::of_node48))]
    fn min(&self) -> (u8, OpaqueNodePtr<K, V, PREFIX_LEN>) {
        with_node!(InnerRef, *self, node => node.min())
    }

    #[tactic(auto, using(crate::proofs::InnerRefLemmas::of_node4, crate::proofs::InnerRefLemmas::of_node16, crate::proofs::InnerRefLemmas::of_node48))]
    fn max(&self) -> (u8, OpaqueNodePtr<K, V, PREFIX_LEN>) {
        with_node!(InnerRef, *self, node => node.max())
    }
}

impl<'a, K, V, const PREFIX_LEN: usize> NodeRef<'a, K, V, PREFIX_LEN> {
    /// The inner node, or None for a leaf.
    pub fn inner(self) -> Option<InnerRef<'a, K, V, PREFIX_LEN>>
        ensures node { option_map inner_shown result ≡ as_inner (shown self.entry) }
        ensures leaf { IsNone result ↔ (shown_kind self.entry ≡ Leaf) }
    {
        match self {
            NodeRef::Node4(node) => Some(InnerRef::Node4(node)),
            NodeRef::Node16(node) => Some(InnerRef::Node16(node)),
            NodeRef::Node48(node) => Some(InnerRef::Node48(node)),
            NodeRef::Node256(node) => Some(InnerRef::Node256(node)),
            NodeRef::LeafNode(_) => None,
        }
    }
}
