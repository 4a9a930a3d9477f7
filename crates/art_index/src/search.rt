//! The last leaf whose text is not above a query.
ghost use Rattle.std.specs.Prelude.{◌≡◌, ◌≢◌, ◌<◌, ◌+◌, ◌^◌, ◌++◌, ◌∷◌, [], Some, None, length, IfSome, IfNone};
ghost use Rattle.std.specs.declared.ops.Bound.TheVariants.{Excluded, Unbounded};
ghost use Rattle.art_nodes.specs.ChildMap.{child_at, pairs_within};
ghost use Rattle.art_nodes.specs.Pointers.{slab_key};
ghost use Rattle.art_arena.specs.Arena.{held, HeldInner, NodeArena};
ghost use Rattle.art_arena.specs.Ends.{IsAtEnd};
ghost use Rattle.art_arena.specs.InnerRef.{inner_shown};
ghost use Rattle.art_arena.specs.Links.{HoldsLeaf};
ghost use Rattle.art_arena.specs.Standing.{TreeAt};
ghost use Rattle.art_arena.specs.Trees.{leaves};
ghost use Rattle.art_search.specs.Search.{HasTree, EachTree, leaf_pointer};
ghost use Rattle.art_index.specs.Places.{IsFloorFound};
ghost use Rattle.art_index.specs.Descent.{ComparesAs, GoesTo, IsBeside, IsDeeper, IsUpTo, LeadsTo, PassesPrefix, StaysIn};

use art_arena::{End, InnerRef, LeafPtr, NodeArena, end_leaf};
use art_bytes::AsBytes;
use art_keys::{RadixKey, RadixQuery};
use art_links::FullPrefix;
use art_nodes::{InnerNodeRead, OpaqueNodePtr};
use art_tree::ArtTree;
use std::cmp::Ordering;
use std::ops::Bound;

/// Where a query goes from a node.
#[derive_where(Clone, Copy)]
pub(crate) enum Step<A, V, const PREFIX_LEN: usize> {
    /// To this node, to which so many bytes lead.
    Down(OpaqueNodePtr<A, V, PREFIX_LEN>, usize),
    /// Beside all texts at this node: behind them where the end is the last, before them where it is
    /// the first.
    Beside(OpaqueNodePtr<A, V, PREFIX_LEN>, End),
}

/// How these bytes compare with as many of the query from an index on.
pub(crate) fn compare_at<K: RadixKey, Q: RadixQuery<K>>(
    query: Q,
    depth: usize,
    bytes: &[u8],
) -> Ordering
    requires { depth + length bytes.now < 2 ^ 64 }
    ensures { ComparesAs (Q.encoded query) depth bytes.now result }
{
    let len = query.encoded_len();
    let mut index = depth;
    for byte in bytes {
        if len <= index {
            return Ordering::Greater;
        }
        let own = query.encoded_byte(index);
        if *byte < own {
            return Ordering::Less;
        }
        if own < *byte {
            return Ordering::Greater;
        }
        index += 1;
    }
    Ordering::Equal
}

// The child under this byte, or else under the greatest byte below it, and that byte, if there is one.
#[inline(always)]
fn child_up_to<A, V, const PREFIX_LEN: usize, N: InnerNodeRead<A, V, PREFIX_LEN>>(
    node: &N,
    byte: u8,
) -> Option<(u8, OpaqueNodePtr<A, V, PREFIX_LEN>)>
    ensures own { IfSome result (λ found. found.0 ≡ byte →
        child_at (N.inner node.now).children byte ≡ Some found.1) }
    ensures below { IfSome result (λ found. found.0 ≢ byte →
        (child_at (N.inner node.now).children byte ≡ None) × (others : _) ×
        (pairs_within (N.inner node.now).children Unbounded (Excluded byte)
        ≡ others ++ (found.0, found.1) ∷ [])) }
    ensures none { IfNone result ((child_at (N.inner node.now).children byte ≡ None) ×
        (pairs_within (N.inner node.now).children Unbounded (Excluded byte) ≡ [])) }
{
    // So that the bytes are known to ascend.
    let _all = node.iter();
    let mut children = node.range(Bound::Unbounded, Bound::Included(byte));
    children.next_back()
}

/// Where a query goes from an inner node whose prefix it has, up to this index.
#[inline(always)]
pub(crate) fn step_past_prefix<
    A: AsBytes,
    V,
    const PREFIX_LEN: usize,
    N: InnerNodeRead<A, V, PREFIX_LEN>,
    K: RadixKey,
    Q: RadixQuery<K>,
>(node: &N, at: OpaqueNodePtr<A, V, PREFIX_LEN>, index: usize, query: Q) -> Step<A, V, PREFIX_LEN>
    requires { index + 1 < 2 ^ 64 }
    ensures goes { (arena : NodeArena A V PREFIX_LEN) (whole : _) →
        held arena at ≡ HeldInner (N.inner node.now) →
        PassesPrefix A.text arena (Q.encoded query) whole at index →
        GoesTo A.text arena (Q.encoded query) whole result }
    ensures stays { StaysIn (N.inner node.now) at index result }
    ensures deeper { IsDeeper index result }
{
    let len = query.encoded_len();
    if len <= index {
        return Step::Beside(at, End::First);
    }
    let byte = query.encoded_byte(index);
    match child_up_to(node, byte) {
        Some((found, child)) => {
            if found == byte {
                Step::Down(child, index + 1)
            } else {
                Step::Beside(child, End::Last)
            }
        }
        None => Step::Beside(at, End::First),
    }
}

// Where a query goes from an inner node. Where the node stores only a part of its prefix, the bytes
// of a leaf below are read.
#[inline(always)]
fn step_from_inner<
    A: AsBytes,
    V,
    const PREFIX_LEN: usize,
    N: InnerNodeRead<A, V, PREFIX_LEN>,
    K: RadixKey,
    Q: RadixQuery<K>,
>(
    arena: &NodeArena<A, V, PREFIX_LEN>,
    node: &N,
    at: OpaqueNodePtr<A, V, PREFIX_LEN>,
    depth: usize,
    query: Q,
) -> Step<A, V, PREFIX_LEN>
    requires node { held arena.now at ≡ HeldInner (N.inner node.now) }
    requires leads { (whole : _) × LeadsTo A.text arena.now (Q.encoded query) whole at depth }
    ensures goes { (whole : _) → LeadsTo A.text arena.now (Q.encoded query) whole at depth →
        GoesTo A.text arena.now (Q.encoded query) whole result }
    ensures deeper { IsDeeper depth result }
{
    let (prefix, _) = node.read_full_prefix(arena, depth);
    match compare_at(query, depth, prefix) {
        Ordering::Less => Step::Beside(at, End::Last),
        Ordering::Equal => step_past_prefix(node, at, depth + prefix.len(), query),
        Ordering::Greater => Step::Beside(at, End::First),
    }
}

// The same of an inner node of any kind, which is looked at once.
#[inline(always)]
fn step_from_any<A: AsBytes, V, const PREFIX_LEN: usize, K: RadixKey, Q: RadixQuery<K>>(
    arena: &NodeArena<A, V, PREFIX_LEN>,
    node: InnerRef<'_, A, V, PREFIX_LEN>,
    at: OpaqueNodePtr<A, V, PREFIX_LEN>,
    depth: usize,
    query: Q,
) -> Step<A, V, PREFIX_LEN>
    requires node { held arena.now at ≡ HeldInner (inner_shown node) }
    requires leads { (whole : _) × LeadsTo A.text arena.now (Q.encoded query) whole at depth }
    ensures goes { (whole : _) → LeadsTo A.text arena.now (Q.encoded query) whole at depth →
        GoesTo A.text arena.now (Q.encoded query) whole result }
    ensures deeper { IsDeeper depth result }
{
    match node {
        InnerRef::Node4(node) => step_from_inner(arena, node, at, depth, query),
        InnerRef::Node16(node) => step_from_inner(arena, node, at, depth, query),
        InnerRef::Node48(node) => step_from_inner(arena, node, at, depth, query),
        InnerRef::Node256(node) => step_from_inner(arena, node, at, depth, query),
    }
}

// Where a query goes from a leaf: behind it, or before it.
#[inline(always)]
fn step_at_leaf<A: AsBytes, V, const PREFIX_LEN: usize, K: RadixKey, Q: RadixQuery<K>>(
    arena: &NodeArena<A, V, PREFIX_LEN>,
    leaf: LeafPtr<A, V, PREFIX_LEN>,
    depth: usize,
    query: Q,
) -> End
    requires { (whole : _) ×
        LeadsTo A.text arena.now (Q.encoded query) whole (leaf_pointer leaf) depth }
    ensures { (whole : _) →
        LeadsTo A.text arena.now (Q.encoded query) whole (leaf_pointer leaf) depth →
        IsBeside A.text arena.now (Q.encoded query) whole (leaf_pointer leaf) result }
{
    let text = arena.as_ref(leaf).key_ref().as_bytes();
    let rest = &text[depth..];
    match compare_at(query, depth, rest) {
        Ordering::Less => End::Last,
        Ordering::Equal => End::Last,
        Ordering::Greater => End::First,
    }
}

// Where a query goes from a node of any kind.
#[inline(always)]
fn next_step<A: AsBytes, V, const PREFIX_LEN: usize, K: RadixKey, Q: RadixQuery<K>>(
    arena: &NodeArena<A, V, PREFIX_LEN>,
    at: OpaqueNodePtr<A, V, PREFIX_LEN>,
    depth: usize,
    query: Q,
) -> Step<A, V, PREFIX_LEN>
    requires { (whole : _) × LeadsTo A.text arena.now (Q.encoded query) whole at depth }
    ensures goes { (whole : _) → LeadsTo A.text arena.now (Q.encoded query) whole at depth →
        GoesTo A.text arena.now (Q.encoded query) whole result }
    ensures deeper { IsDeeper depth result }
{
    let Some(node) = arena.node_ref(at).inner() else {
        return Step::Beside(at, step_at_leaf(arena, at.cast().unwrap(), depth, query));
    };
    step_from_any(arena, node, at, depth, query)
}

// The node at the root or below whose leaves are beside the query, and at which of its ends the query
// is: all leaves of the tree before that end are not above the query, and all behind it are.
fn node_beside<A: AsBytes, V, const PREFIX_LEN: usize, K: RadixKey, Q: RadixQuery<K>>(
    arena: &NodeArena<A, V, PREFIX_LEN>,
    root: OpaqueNodePtr<A, V, PREFIX_LEN>,
    query: Q,
) -> (OpaqueNodePtr<A, V, PREFIX_LEN>, End)
    requires tree { HasTree A.text arena.now root }
    ensures { EachTree A.text arena.now root (λ tree.
        IsBeside A.text arena.now (Q.encoded query) (leaves tree) result.0 result.1) }
{
    let mut at = root;
    let mut depth = 0;
    'way: loop {
        match next_step(arena, at, depth, query) {
            Step::Down(child, below) => {
                at = child;
                depth = below;
            }
            Step::Beside(node, end) => {
                return (node, end);
            }
        }
    }
}

// The leaf at an end of a node: the node itself, where it is a leaf.
#[inline(always)]
fn leaf_at_end<A: AsBytes, V, const PREFIX_LEN: usize>(
    arena: &NodeArena<A, V, PREFIX_LEN>,
    node: OpaqueNodePtr<A, V, PREFIX_LEN>,
    end: End,
) -> LeafPtr<A, V, PREFIX_LEN>
    requires { TreeAt A.text arena.now node }
    ensures at_end { (found : TreeAt A.text arena.now node) →
        IsAtEnd end (leaves found.tree) (leaf_pointer result) }
    ensures held { HoldsLeaf arena.now (slab_key result) }
{
    match node.cast() {
        Some(leaf) => leaf,
        None => end_leaf(arena, node, end),
    }
}

/// The last leaf before this end of the leaves of a node: the last of them, or the one before the first.
pub(crate) fn leaf_up_to<A: AsBytes, V, const PREFIX_LEN: usize>(
    arena: &NodeArena<A, V, PREFIX_LEN>,
    node: OpaqueNodePtr<A, V, PREFIX_LEN>,
    end: End,
) -> Option<LeafPtr<A, V, PREFIX_LEN>>
    requires { TreeAt A.text arena.now node }
    ensures { (found : TreeAt A.text arena.now node) → IsUpTo arena.now end (leaves found.tree) result }
{
    let leaf = leaf_at_end(arena, node, end);
    match end {
        End::Last => Some(leaf),
        End::First => arena.as_ref(leaf).previous(),
    }
}

/// The leaf with the greatest text that is not above the query's encoding, or None where all texts are
/// above it, or there is none.
///
/// One descent: at each inner node its prefix is compared with the query's bytes, and at the leaf the
/// rest of its text. The encoding is read a byte at a time. Takes no memory.
pub fn floor<A: AsBytes, V, const PREFIX_LEN: usize, K: RadixKey, Q: RadixQuery<K>>(
    tree: &ArtTree<A, V, PREFIX_LEN>,
    query: Q,
) -> Option<LeafPtr<A, V, PREFIX_LEN>>
    ensures { IsFloorFound A.text tree.now.arena (Q.encoded query) result }
{
    let root = tree.root()?;
    let arena = tree.arena();
    let (node, end) = node_beside(arena, root, query);
    leaf_up_to(arena, node, end)
}
