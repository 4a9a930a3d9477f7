//! Child commands and their replies.
use crate::commands::sequence::Sequence;
use crate::pointers::OpaqueNodePtr;
use std::ops::Bound;

/// A command on the children of a node.
///
/// (from tests/art_node_tests/nodes/replay.rt.txt)
/// ```rust
///     (Command::Lookup(7), Reply::Child(Some(leaf(7)))),
///     (Command::Lookup(201), Reply::Child(None)),
///     (Command::Min, Reply::Pair(Some((0, leaf(0))))),
///     // ..
/// for (index, (command, reply)) in steps.into_iter().enumerate() {
///     assert!(rt;
///         node.apply(rt.alloc(), &command)? == reply,
///         "at step {index}"
///     );
/// }
/// ```
#[derive(Drop)]
#[derive_where(PartialEq, Eq)]
pub enum ChildCommand<K, V, const PREFIX_LEN: usize> {
    /// Writes the child under the byte, and replaces any that is there.
    Write(u8, OpaqueNodePtr<K, V, PREFIX_LEN>),
    /// Removes the child under the byte, if there is one.
    Remove(u8),
    /// Looks up the child under the byte.
    Lookup(u8),
    /// Looks up the pair of the least byte.
    Min,
    /// Looks up the pair of the greatest byte.
    Max,
    /// Lists the pairs whose byte lies between a start and an end.
    Range(Bound<u8>, Bound<u8>),
}

/// The reply to a [`ChildCommand`].
///
/// [`ChildCommand`] has an example.
#[derive(Drop)]
#[derive_where(PartialEq, Eq)]
pub enum ChildReply<K, V, const PREFIX_LEN: usize> {
    /// The child that was under the byte before the command, if there was one.
    Child(Option<OpaqueNodePtr<K, V, PREFIX_LEN>>),
    /// The pair, or `None` where the node has no children.
    Pair(Option<(u8, OpaqueNodePtr<K, V, PREFIX_LEN>)>),
    /// The pairs within the bounds, by ascending byte.
    Pairs(ChildPairs<K, V, PREFIX_LEN>),
    /// Both bounds are excluded and equal, or the start is above the end.
    InvalidBounds,
}

/// Pairs of a byte and a child.
///
/// [`Sequence`] has an example.
pub type ChildPairs<K, V, const PREFIX_LEN: usize> = Sequence<
    (u8, OpaqueNodePtr<K, V, PREFIX_LEN>),
>;
