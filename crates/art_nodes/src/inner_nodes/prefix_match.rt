//! Matches of a key with the prefix of a node, and why a key does not match.

use crate::leaf_node::LeafNode;
use crate::pointers::NodePtr;
use std::cmp::Ordering;

/// A prefix was matched. The result of
/// [`InnerNodeRead::optimistic_match_prefix`](crate::InnerNodeRead::optimistic_match_prefix).
///
/// (from tests/art_node_tests/nodes/prefix_match.rt.txt)
/// ```rust
/// let node: InnerNode4<u8, u8, 16> = pair(&rt, b"abc", leaf(1));
/// let found = node
///     .optimistic_match_prefix(b"xyz")
///     .expect(&rt, "as long as the prefix");
/// assert!(rt; found.matched_bytes == 3);
/// ```
#[derive(Debug, Drop)]
pub struct PrefixMatch {
    /// How many bytes were matched: the length of the prefix.
    pub matched_bytes: usize,
}

/// A prefix was matched, or skipped where the node does not store all of it. The result of
/// [`InnerNodeRead::attempt_pessimistic_match_prefix`](crate::InnerNodeRead::attempt_pessimistic_match_prefix).
///
/// (from tests/art_tree_tests/tree/matches.rt.txt)
/// ```rust
/// match node.attempt_pessimistic_match_prefix(key) {
///     Ok(found) => Ok((found.matched_bytes, found.any_implicit_bytes)),
///     Err(mismatch) => Err((mismatch.matched_bytes, mismatch.prefix_byte)),
/// }
/// ```
#[derive(Debug, Drop)]
pub struct AttemptOptimisticPrefixMatch {
    /// How many bytes were matched or skipped: the length of the prefix.
    pub matched_bytes: usize,
    /// Whether the prefix has bytes that the node does not store. If so, no byte was compared.
    pub any_implicit_bytes: bool,
}

/// The key is too short for the prefix.
///
/// (from tests/art_node_tests/nodes/prefix_match.rt.txt)
/// ```rust
/// let short = node
///     .optimistic_match_prefix(b"ab")
///     .expect_err(&rt, "shorter than the prefix");
/// assert!(rt; short.matched_bytes == 2);
/// ```
#[derive(Debug, Drop)]
pub struct OptimisticMismatch {
    /// How many bytes the key had left.
    pub matched_bytes: usize,
}

/// The key differs from the prefix, or is too short for it.
///
/// (from tests/art_node_tests/nodes/prefix_match.rt.txt)
/// ```rust
/// let short = PessimisticMismatch::from(short);
/// assert!(rt; short.matched_bytes == 2);
/// assert!(rt; short.prefix_byte == None);
/// ```
#[derive(Debug, Drop)]
pub struct PessimisticMismatch {
    /// How many bytes were matched.
    pub matched_bytes: usize,
    /// The byte of the prefix where the key differs or ends, if bytes were compared.
    pub prefix_byte: Option<u8>,
}

/// The key differs from the whole prefix, or ends inside it. The error of a full match of the
/// prefix.
///
/// (from crates/art_tree_tests/src/arena.rt)
/// ```rust
/// match node.match_full_prefix(arena, key, depth) {
///     Ok(found) => Ok(found.matched_bytes),
///     Err(mismatch) => {
///         assert!(rt; mismatch.leaf_ptr.is_some() == (PREFIX_LEN < node.prefix_len()));
///         let order = mismatch.node_prefix_comparison_to_search_key_segment;
///         Err((mismatch.matched_bytes, mismatch.prefix_byte, order))
///     }
/// }
/// ```
#[derive_where(Clone, Copy)]
pub struct ExplicitMismatch<K, V, const PREFIX_LEN: usize> {
    /// How many bytes were matched.
    pub matched_bytes: usize,
    /// The byte of the prefix where the key differs or ends.
    pub prefix_byte: u8,
    /// The leaf that the prefix was read from, where the node does not store all of it.
    pub leaf_ptr: Option<NodePtr<PREFIX_LEN, LeafNode<K, V, PREFIX_LEN>>>,
    /// How the prefix compares with the bytes of the key beside it. Never `Equal`.
    pub node_prefix_comparison_to_search_key_segment: Ordering,
}

/// The whole prefix of a node, and the leaf below from whose key it was read, where the node does
/// not store all of it.
///
/// (from crates/art_tree_tests/src/arena/full_prefix.rt)
/// ```rust
/// let (prefix, leaf) = node.read_full_prefix(arena, depth);
/// ```
pub type NodePrefix<'a, K, V, const PREFIX_LEN: usize> = (
    &'a [u8],
    Option<NodePtr<PREFIX_LEN, LeafNode<K, V, PREFIX_LEN>>>,
);

/// No byte was compared, so the mismatch has none.
impl From<OptimisticMismatch> for PessimisticMismatch {
    ghost use Rattle.std.specs.Prelude.{◌≡◌, None};

    ghost from_gives = { λ short mismatch.
        mismatch ≡ record { matched_bytes = short.matched_bytes; prefix_byte = None } };

    fn from(value: OptimisticMismatch) -> PessimisticMismatch {
        PessimisticMismatch {
            matched_bytes: value.matched_bytes,
            prefix_byte: None,
        }
    }
}
