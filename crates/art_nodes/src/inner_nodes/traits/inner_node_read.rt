//! The calls of an inner node that change nothing.
ghost use Rattle.std.specs.Prelude.{◌≡◌, ℕ, ◌<◌, ◌≤◌, ◌^◌, List, length, map, Contains, Some, IfOk, IsOkAnd};
ghost use Rattle.std.specs.declared.ops.Bound.TheVariants.{Excluded, Unbounded};
ghost use Rattle.art_nodes.specs.ChildMap.{child_at, first_pair, last_pair, pairs_within, AreValidBounds};
ghost use Rattle.art_nodes.specs.PrefixMatch.{optimistic_match, cheap_match, HasPrefix};
ghost use Rattle.art_header.specs.Header.{capped};
ghost use Rattle.art_bytes.specs.Text.{IsPrefixOf};
ghost use Rattle.art_nodes.specs.Inner.{Inner, IsInner, header_of};

use crate::inner_nodes::prefix_match::{
    AttemptOptimisticPrefixMatch, OptimisticMismatch, PessimisticMismatch, PrefixMatch,
};
use crate::iteration::child_iter::ChildIter;
use crate::pointers::OpaqueNodePtr;
use art_bytes::common_prefix_len;
use art_header::{Header, NodeType};
use std::ops::Bound;

/// The calls of an inner node that change nothing: of a node itself, or of a reference to one of
/// any kind.
///
/// Contracts see a node as the length of its prefix, the stored prefix, and a finite map from bytes
/// to children. No call takes memory. A look-up costs O(`SIZE`) in a sorted node and O(1) in the
/// others; `min`, `max` and a step of an iterator read at most 256 places.
///
/// (from crates/art_node_tests/src/nodes/node_callers.rt)
/// ```rust
/// fn least_above<K, V, const PREFIX_LEN: usize, N: InnerNodeRead<K, V, PREFIX_LEN>>(
///     // ..
/// ) -> Option<u8>
///     // ..
/// {
///     let (above, _) = node.child_above(byte)?;
///     Some(above)
/// }
/// ```
pub trait InnerNodeRead<K, V, const PREFIX_LEN: usize>: Sized {
    ghost use Rattle.art_nodes.specs.declared.pointers.OpaqueNodePtr.{OpaqueNodePtr};

    /// The node as contracts see it: prefix and child map.
    ghost inner: { Self → Inner (OpaqueNodePtr K V PREFIX_LEN) };

    /// The greatest number of children.
    ghost room: { ℕ };

    /// The header. Its count is the number of children.
    fn header(&self) -> &Header<PREFIX_LEN>
        ensures header { result.now ≡ header_of (inner self.now) }
        ensures sound { IsInner PREFIX_LEN room (inner self.now) };

    /// The number of children, at most 256.
    fn num_children(&self) -> usize
        ensures count { result ≡ length (inner self.now).children }
        ensures sound { IsInner PREFIX_LEN room (inner self.now) };

    /// The length of the whole prefix in bytes, stored or not, below 2^32.
    fn prefix_len(&self) -> usize
        ensures value { result ≡ (inner self.now).prefix_len }
        ensures fits { result < 2 ^ 32 };

    /// The stored prefix: the first `min(prefix_len, PREFIX_LEN)` bytes of the prefix.
    fn stored_prefix(&self) -> &[u8]
        ensures stored { result.now ≡ (inner self.now).stored }
        ensures capped { length result.now ≡ capped PREFIX_LEN (inner self.now).prefix_len };

    /// The child under the byte, if there is one.
    fn lookup_child(&self, key_fragment: u8) -> Option<OpaqueNodePtr<K, V, PREFIX_LEN>>
        ensures child { result ≡ child_at (inner self.now).children key_fragment }
        ensures sound { IsInner PREFIX_LEN room (inner self.now) };

    /// The children by ascending byte, each once, from either end.
    fn iter(&self) -> ChildIter<'_, K, V, PREFIX_LEN>
        ensures pairs { result ≡ (inner self.now).children }
        ensures sound { IsInner PREFIX_LEN room (inner self.now) };

    /// The children whose byte meets both bounds, by ascending byte. Condition: the bounds are
    /// valid; [`valid_range_bounds`](crate::valid_range_bounds) tests it.
    fn range(&self, start: Bound<u8>, end: Bound<u8>) -> ChildIter<'_, K, V, PREFIX_LEN>
        requires { AreValidBounds start end }
        ensures { result ≡ pairs_within (inner self.now).children start end };

    /// The least byte with its child. Condition: there is a child.
    fn min(&self) -> (u8, OpaqueNodePtr<K, V, PREFIX_LEN>)
        requires { 0 < length (inner self.now).children }
        ensures pair { first_pair (inner self.now).children ≡ Some result }
        ensures sound { IsInner PREFIX_LEN room (inner self.now) };

    /// The greatest byte with its child. Condition: there is a child.
    fn max(&self) -> (u8, OpaqueNodePtr<K, V, PREFIX_LEN>)
        requires { 0 < length (inner self.now).children }
        ensures pair { last_pair (inner self.now).children ≡ Some result }
        ensures sound { IsInner PREFIX_LEN room (inner self.now) };

    /// The least byte above this one that has a child, with that child, if there is one. Costs a
    /// range and one step of it.
    final fn child_above(&self, byte: u8) -> Option<(u8, OpaqueNodePtr<K, V, PREFIX_LEN>)>
        ensures { result ≡
            first_pair (pairs_within (inner self.now).children (Excluded byte) Unbounded) }
    {
        self.range(Bound::Excluded(byte), Bound::Unbounded).next()
    }

    /// Tests whether the rest of a key is long enough for the prefix. No byte is compared, so a
    /// search that uses this match must compare the whole key of the leaf that it reaches.
    ///
    /// Returns the length of the prefix. Error: the rest is shorter; the error has its length.
    final fn optimistic_match_prefix(
        &self,
        truncated_key: &[u8],
    ) -> Result<PrefixMatch, OptimisticMismatch>
        ensures matched { result ≡ optimistic_match (inner self.now).prefix_len truncated_key.now }
        ensures whole { IfOk result (λ found. found.matched_bytes ≡ (inner self.now).prefix_len) }
        ensures within { IfOk result (λ found. found.matched_bytes ≤ length truncated_key.now) }
        ensures passes_every_prefix { (prefix : List ℕ) →
            HasPrefix (inner self.now) prefix → IsPrefixOf prefix truncated_key.now →
            IsOkAnd result (λ found. found.matched_bytes ≡ length prefix) }
    {
        let prefix_len = self.prefix_len();
        if truncated_key.len() < prefix_len {
            Err(OptimisticMismatch {
                matched_bytes: truncated_key.len(),
            })
        } else {
            Ok(PrefixMatch {
                matched_bytes: prefix_len,
            })
        }
    }

    /// Compares the rest of a key with the prefix where the node stores all of it. Otherwise only
    /// tests whether the rest is long enough, as [`InnerNodeRead::optimistic_match_prefix`].
    ///
    /// Returns the length of the prefix. Error: how many bytes match, and the byte of the prefix
    /// where the rest differs or ends; no byte where only lengths were compared.
    final fn attempt_pessimistic_match_prefix(
        &self,
        truncated_key: &[u8],
    ) -> Result<AttemptOptimisticPrefixMatch, PessimisticMismatch>
        ensures matched { let node = inner self.now in
            result ≡ cheap_match PREFIX_LEN node.prefix_len node.stored truncated_key.now }
        ensures whole { IfOk result (λ found. found.matched_bytes ≡ (inner self.now).prefix_len) }
        ensures within { IfOk result (λ found. found.matched_bytes ≤ length truncated_key.now) }
        ensures passes_every_prefix { (prefix : List ℕ) →
            HasPrefix (inner self.now) prefix → IsPrefixOf prefix truncated_key.now →
            IsOkAnd result (λ found. found.matched_bytes ≡ length prefix) }
    {
        if PREFIX_LEN < self.prefix_len() {
            let PrefixMatch { matched_bytes } = self.optimistic_match_prefix(truncated_key)?;
            return Ok(AttemptOptimisticPrefixMatch {
                matched_bytes,
                any_implicit_bytes: true,
            });
        }
        let prefix = self.stored_prefix();
        let matched_bytes = common_prefix_len(prefix, truncated_key);
        if matched_bytes < prefix.len() {
            Err(PessimisticMismatch {
                matched_bytes,
                prefix_byte: Some(prefix[matched_bytes]),
            })
        } else {
            Ok(AttemptOptimisticPrefixMatch {
                matched_bytes,
                any_implicit_bytes: false,
            })
        }
    }

    /// One of the children: a leaf where there is one. The contract does not specify which child.
    /// Reads the children up to the first leaf. Condition: the node has two children or more.
    final fn any_child_prefer_leaf(&self) -> OpaqueNodePtr<K, V, PREFIX_LEN>
        requires { 2 ≤ length (inner self.now).children }
        ensures { Contains (map (λ pair. pair.1) (inner self.now).children) result }
    {
        let (_, least) = self.min();
        for (_, child) in self.iter() {
            if child.node_type() == NodeType::Leaf {
                return child;
            }
        }
        least
    }
}
