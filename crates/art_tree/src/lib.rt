//! Adaptive radix trees over an arena of nodes: load, search, and [`ArtTree`], a tree with its
//! arena as one value, with inserts and removals.
//!
//! The crate re-exports every public name of the crates below it, so a crate that uses trees lists
//! this one alone.
#![tactic(auto)]

mod insert;
pub mod laws;
mod loading;
mod remove;
mod tree;

pub use art_arena::{
    AnyInnerRef, AnyNodeRef, ArenaInnerNode, ArenaNode, ArenaReader, End, InnerRef, LeafPtr,
    NodeArena, NodeRef, any_leaf, end_leaf,
};
pub use art_bytes::{
    AsBytes, CStringKey, CStringKeyError, NoPrefixesBytes, OrderedBytes, SliceKey, StrKey,
};
pub use art_links::{ExplicitMismatch, FullPrefix, LeafLinks, NodePrefix};
// Values as keys.
pub use art_mapped::{
    BorrowedMapping, BytesMapping, ConcatTuple, Domain, DomainTexts, Element, Escaped, EscapedKey,
    FixedBytes, Holds, Identity, InPlaceMapping, InjectiveMapping, IntegerForm, Mapped, MappedOver,
    NoPrefixesMapping, Octets, OrderedMapping, OrderedTuple, Several, Signed, Single, ToBigEndian,
    ToIBE, ToOctets, ToUBE, TupleMappings, TupleValues, Unsigned, ValueTexts, escaped_prefix,
    orders,
};
pub use art_nodes::{
    AttemptOptimisticPrefixMatch, BuilderState, ChildCommand, ChildIter, ChildNode, ChildPairs,
    ChildReply, ConcreteInnerNodePtr, ConcreteNodePtr, HasChild, HasOneChild, Header, InnerNode,
    InnerNode4, InnerNode16, InnerNode48, InnerNode256, InnerNodeBuilder, InnerNodeCommon,
    InnerNodeDirect, InnerNodeIndirect, InnerNodeRead, InnerNodeSorted, LeafNode, NoChild, Node,
    NodePtr, NodeType, NonMaxIndex, OpaqueNodePtr, OptimisticMismatch, PackedNodePtr, PairIter,
    PessimisticMismatch, PrefixMatch, Replayed, Sequence, TryFromByteError, common_prefix_len,
    replay, valid_range_bounds, with_node,
};
pub use art_search::{TreePath, TreePathSearch, find_leaf};
pub use art_steps::{
    InsertFault, InsertRefusal, LoadFault, LoadRefusal, Side, leaf_beside, leaves_beside,
};
pub use loading::load;
pub use tree::{ArtTree, HoldsOneTree, Rooted};
