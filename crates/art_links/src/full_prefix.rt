//! The whole compressed prefix of an inner node, however few of its bytes the node stores.
ghost use Rattle.std.specs.Prelude.{◌≡◌, ◌≢◌, ◌↔◌, ◌<◌, ◌≤◌, ◌+◌, ◌++◌, ◌∷◌, ℕ, List, length, drop, All, None, IsOk, IsSome, IfSome, IfOk, IfErr};
ghost use Rattle.std.specs.declared.cmp.Ordering.TheVariants.{Equal};
ghost use Rattle.art_bytes.specs.Text.{IsPrefixOf};
ghost use Rattle.art_nodes.specs.Pointers.{slab_key};
ghost use Rattle.art_links.specs.FullPrefix.{match_of, LieOnSide};
ghost use Rattle.art_arena.specs.Links.{HoldsLeaf};
ghost use Rattle.art_arena.specs.CommonPrefix.{IsSharedFrom, full_match};
ghost use Rattle.art_arena.specs.Standing.{IsLeafOf, TreeUnder};
ghost use Rattle.art_arena.specs.Trees.{texts};

use art_arena::{NodeArena, any_leaf};
use art_bytes::AsBytes;
use art_nodes::{ExplicitMismatch, InnerNodeRead, NodePrefix, PrefixMatch, common_prefix_len};

/// An inner node whose whole compressed prefix can be read, with the arena that holds the nodes
/// below it.
///
/// A node stores at most `PREFIX_LEN` bytes of its prefix. A longer prefix is read from the key of
/// a leaf below the node, since the keys of all leaves below share it.
///
/// The prefix `abc` of a node under `depth` bytes, for each `PREFIX_LEN` (`expected` is `abc`):
///
/// (from crates/art_tree_tests/src/arena/full_prefix.rt)
/// ```rust
/// let (prefix, leaf) = node.read_full_prefix(arena, depth);
/// assert!(rt; prefix == expected);
/// assert!(rt; leaf.is_some() == (PREFIX_LEN < expected.len()));
/// ```
pub trait FullPrefix<K: AsBytes, V, const PREFIX_LEN: usize>: InnerNodeRead<K, V, PREFIX_LEN> {
    /// The whole compressed prefix of the node: the bytes that the keys of all leaves below share
    /// from `depth` on. `depth` is the number of bytes on the path to the node. Where the prefix is
    /// longer than `PREFIX_LEN`, the leaf that it was read from is returned too: some leaf below
    /// the node.
    ///
    /// Where the node stores all of its prefix, nothing is required, and no leaf is returned.
    /// Otherwise the branches of the node must stand in the arena, sound under a path of `depth`
    /// bytes; the call then goes down to one leaf and visits at most one inner node for each byte
    /// of its key. Takes no memory.
    final fn read_full_prefix<'a>(
        &'a self,
        arena: &'a NodeArena<K, V, PREFIX_LEN>,
        depth: usize,
    ) -> NodePrefix<'a, K, V, PREFIX_LEN>
        requires tree { PREFIX_LEN < (Self.inner self.now).prefix_len →
            TreeUnder K.text arena.now (Self.inner self.now) depth }
        ensures shared { (below : TreeUnder K.text arena.now (Self.inner self.now) depth) →
            IsSharedFrom depth (texts below.tree) result.0.now }
        ensures length { length result.0.now ≡ (Self.inner self.now).prefix_len }
        ensures leaf_where_longer { IsSome result.1 ↔ (PREFIX_LEN < length result.0.now) }
        ensures leaf_below { (below : TreeUnder K.text arena.now (Self.inner self.now) depth) →
            IfSome result.1 (IsLeafOf below.tree) }
        ensures leaf_held { IfSome result.1 (λ leaf. HoldsLeaf arena.now (slab_key leaf)) }
        ensures stored { (Self.inner self.now).prefix_len ≤ PREFIX_LEN →
            result.0.now ≡ (Self.inner self.now).stored }
    {
        let prefix_len = self.prefix_len();
        if prefix_len <= PREFIX_LEN {
            return (self.stored_prefix(), None);
        }
        let leaf = any_leaf(arena, self.any_child_prefer_leaf());
        let text = arena.as_ref(leaf).key_ref().as_bytes();
        (&text[depth..depth + prefix_len], Some(leaf))
    }

    /// Compares the whole compressed prefix of the node with the bytes of the key after the first
    /// `depth`. `depth` is the number of bytes on the path to the node, and at most the length of
    /// the key.
    ///
    /// Returns the length of the prefix where these bytes begin with it. Otherwise returns the
    /// mismatch: how many bytes match, the byte of the prefix after them, the order of the prefix
    /// against as many bytes of the key, and, where the prefix is longer than `PREFIX_LEN`, some
    /// leaf below the node. Where the key begins with the path to the node, every key below is on
    /// that side of it. The conditions on the arena are those of [`FullPrefix::read_full_prefix`].
    /// Takes no memory.
    final fn match_full_prefix(
        &self,
        arena: &NodeArena<K, V, PREFIX_LEN>,
        key: &[u8],
        depth: usize,
    ) -> Result<PrefixMatch, ExplicitMismatch<K, V, PREFIX_LEN>>
        requires depth { depth ≤ length key.now }
        requires tree { PREFIX_LEN < (Self.inner self.now).prefix_len →
            TreeUnder K.text arena.now (Self.inner self.now) depth }
        ensures matched { (below : TreeUnder K.text arena.now (Self.inner self.now) depth)
            (shared : List ℕ) →
            IsSharedFrom depth (texts below.tree) shared →
            match_of result ≡ full_match shared (drop depth key.now) }
        ensures whole { IfOk result (λ found.
            found.matched_bytes ≡ (Self.inner self.now).prefix_len) }
        ensures within { IfOk result (λ found. depth + found.matched_bytes ≤ length key.now) }
        ensures parted { IfErr result (λ mismatch.
            mismatch.matched_bytes < (Self.inner self.now).prefix_len) }
        ensures parted_within { IfErr result (λ mismatch.
            depth + mismatch.matched_bytes ≤ length key.now) }
        ensures leaf_where_longer { IfErr result (λ mismatch.
            IsSome mismatch.leaf_ptr ↔ (PREFIX_LEN < (Self.inner self.now).prefix_len)) }
        ensures leaf_below { (below : TreeUnder K.text arena.now (Self.inner self.now) depth) →
            IfErr result (λ mismatch. IfSome mismatch.leaf_ptr (IsLeafOf below.tree)) }
        ensures leaf_held { IfErr result (λ mismatch.
            IfSome mismatch.leaf_ptr (λ leaf. HoldsLeaf arena.now (slab_key leaf))) }
        ensures side { (below : TreeUnder K.text arena.now (Self.inner self.now) depth) →
            IsPrefixOf below.path key.now → IfErr result (λ mismatch. LieOnSide
            mismatch.node_prefix_comparison_to_search_key_segment key.now (texts below.tree)) }
        ensures begun { (below : TreeUnder K.text arena.now (Self.inner self.now) depth)
            (shared : List ℕ) →
            IsSharedFrom depth (texts below.tree) shared → IsPrefixOf below.path key.now →
            IsOk result → All (IsPrefixOf (below.path ++ shared)) (key.now ∷ texts below.tree) }
        ensures never_equal { IfErr result (λ mismatch.
            mismatch.node_prefix_comparison_to_search_key_segment ≢ Equal) }
        ensures stored { (Self.inner self.now).prefix_len ≤ PREFIX_LEN →
            match_of result ≡ full_match (Self.inner self.now).stored (drop depth key.now) }
        ensures no_leaf_where_stored { (Self.inner self.now).prefix_len ≤ PREFIX_LEN →
            IfErr result (λ mismatch. mismatch.leaf_ptr ≡ None) }
    {
        let (prefix, leaf_ptr) = self.read_full_prefix(arena, depth);
        let rest = &key[depth..];
        let matched_bytes = common_prefix_len(prefix, rest);
        if matched_bytes == prefix.len() {
            return Ok(PrefixMatch { matched_bytes });
        }
        let segment = &rest[..prefix.len().min(rest.len())];
        Err(ExplicitMismatch {
            matched_bytes,
            prefix_byte: prefix[matched_bytes],
            leaf_ptr,
            node_prefix_comparison_to_search_key_segment: prefix.cmp(segment),
        })
    }
}

impl<K: AsBytes, V, const PREFIX_LEN: usize, N: InnerNodeRead<K, V, PREFIX_LEN>> FullPrefix<
    K,
    V,
    PREFIX_LEN,
> for N {}
