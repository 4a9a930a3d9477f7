//! The place of a key in a tree, and the leaf beside it.
ghost use Rattle.std.specs.Prelude.{◌≡◌, ◌≢◌, ◌<◌, ◌≤◌, ◌⊎◌, ℕ, List, [], Contains, length, drop, option_copied, true, nat_lt, if◌then◌else◌, IfSome, IfNone, IfOk, IfErr};
ghost use Rattle.std.specs.declared.cmp.Ordering.TheVariants.{Equal, Greater};
ghost use Rattle.art_nodes.specs.Inner.{Inner};
ghost use Rattle.art_nodes.specs.Pointers.{slab_key};
ghost use Rattle.art_arena.specs.Arena.{held, HeldInner, Nothing};
ghost use Rattle.art_arena.specs.Links.{HoldsLeaf};
ghost use Rattle.art_arena.specs.Standing.{TreeAt};
ghost use Rattle.art_arena.specs.Trees.{branch_leaves, leaves, texts};
ghost use Rattle.art_arena.specs.declared.ends.End.{End};
ghost use Rattle.art_arena.specs.declared.ends.End.TheVariants.{First, Last};
ghost use Rattle.art_steps.specs.ChildPlaces.{HasGapUnder, IsChildBeside, IsLeafBeside, pairs_on};
ghost use Rattle.art_steps.specs.Places.{Belongs, HasLeafText, IsDescentIn, IsPlaceIn, IsSpotIn, child_after, prefix_of, toward};
ghost use Rattle.art_search.specs.Search.{HasTree, EachTree, leaf_pointer};
ghost use Rattle.art_steps.specs.Sides.{IsBesideKey, comes_before, is_last};
ghost use Rattle.art_steps.specs.declared.place.Place.TheVariants.{Absent, Differs};
ghost use Rattle.art_steps.specs.declared.place.Side.{Side};

use art_arena::{End, LeafPtr, NodeArena, any_leaf, end_leaf};
use art_bytes::AsBytes;
use art_nodes::{InnerNodeRead, NodeType, OpaqueNodePtr, common_prefix_len};
use std::ops::Bound;

/// A node of a tree: how many bytes lead to it, and its parent, with the byte.
#[derive_where(Clone, Copy)]
pub struct Spot<K, V, const PREFIX_LEN: usize> {
    /// The node.
    pub node: OpaqueNodePtr<K, V, PREFIX_LEN>,
    /// How many bytes lead to it.
    pub depth: usize,
    /// Its parent, with the byte of the node there; None for the root.
    pub parent: Option<(OpaqueNodePtr<K, V, PREFIX_LEN>, u8)>,
}

/// The index at which a key differs from all keys below a node, with its byte there and theirs.
#[derive(Clone, Copy)]
pub struct Mismatch {
    /// The index in the keys.
    pub index: usize,
    /// The key's byte.
    pub byte: u8,
    /// The byte of the keys below the node.
    pub node_byte: u8,
}

/// The place of a key in a tree.
#[derive_where(Clone, Copy)]
pub enum Place<K, V, const PREFIX_LEN: usize> {
    /// A leaf has the key.
    Present(LeafPtr<K, V, PREFIX_LEN>),
    /// The key of a leaf is a proper prefix of the key.
    Extends(LeafPtr<K, V, PREFIX_LEN>),
    /// The key is a proper prefix of all keys below a node.
    Begins {
        /// The node.
        spot: Spot<K, V, PREFIX_LEN>,
    },
    /// An inner node has no child under the next byte.
    Absent {
        /// The inner node.
        spot: Spot<K, V, PREFIX_LEN>,
        /// The byte.
        byte: u8,
    },
    /// The key differs from that of a leaf, or inside the prefix of an inner node.
    Differs {
        /// The leaf or the inner node.
        spot: Spot<K, V, PREFIX_LEN>,
        /// Where it differs.
        mismatch: Mismatch,
    },
}

/// A side of a key in the order of keys, for [`leaf_beside`], which has an example.
#[derive(Clone, Copy, Debug, PartialEq, Eq)]
pub enum Side {
    /// Right before the key.
    Before,
    /// Right after the key.
    After,
    /// Right after all keys that begin with the key.
    AfterBegun,
}

// The child of an inner node to which the rest of a key goes, whatever the prefix.
fn child_after_prefix<K, V, const PREFIX_LEN: usize, N: InnerNodeRead<K, V, PREFIX_LEN>>(
    node: &N,
    rest: &[u8],
) -> Option<OpaqueNodePtr<K, V, PREFIX_LEN>>
    ensures { result ≡ child_after (N.inner node.now) rest.now }
{
    match rest.get(node.prefix_len()) {
        Some(byte) => node.lookup_child(*byte),
        None => None,
    }
}

// The child of the node at this pointer to which the rest of a key goes, whatever the prefix, and
// what is left of the key below it.
fn child_toward<'b, K: AsBytes, V, const PREFIX_LEN: usize>(
    arena: &NodeArena<K, V, PREFIX_LEN>,
    pointer: OpaqueNodePtr<K, V, PREFIX_LEN>,
    rest: &'b [u8],
) -> Option<(OpaqueNodePtr<K, V, PREFIX_LEN>, &'b [u8])>
    requires tree { TreeAt K.text arena.now pointer }
    ensures child { (found : TreeAt K.text arena.now pointer) → IfSome result (λ (child, left).
        (below : TreeAt K.text arena.now child) ×
        (toward rest.now found.tree ≡ toward left.now below.tree)) }
    ensures shorter { IfSome result (λ (child, left). length left.now < length rest.now) }
    ensures none { (found : TreeAt K.text arena.now pointer) →
        IfNone result (toward rest.now found.tree ≡ found.tree) }
{
    let node = arena.node_ref(pointer).inner()?;
    let child = child_after_prefix(&node, rest)?;
    Some((child, &rest[node.prefix_len() + 1..]))
}

// The key bytes of a leaf of the tree that stands at this pointer, in the direction of the rest of a
// key: below the node where a search for it ends that compares no prefix. So a search that comes to a
// node by this rest has that leaf below it, and reads each prefix on its way from these bytes.
fn text_toward<'a, K: AsBytes, V, const PREFIX_LEN: usize>(
    arena: &'a NodeArena<K, V, PREFIX_LEN>,
    pointer: OpaqueNodePtr<K, V, PREFIX_LEN>,
    rest: &[u8],
) -> &'a [u8]
    requires tree { TreeAt K.text arena.now pointer }
    ensures leaf { (found : TreeAt K.text arena.now pointer) →
        Contains (texts found.tree) result.now }
    ensures direction { (found : TreeAt K.text arena.now pointer) →
        HasLeafText (toward rest.now found.tree) result.now }
{
    let mut at = pointer;
    let mut left = rest;
    'way: loop {
        match child_toward(arena, at, left) {
            Some((child, after)) => {
                at = child;
                left = after;
            }
            None => {
                let leaf = any_leaf(arena, at);
                return arena.as_ref(leaf).key_ref().as_bytes();
            }
        }
    }
}

// The same below a spot, where these bytes may be known.
fn text_below_spot<'a, K: AsBytes, V, const PREFIX_LEN: usize>(
    arena: &'a NodeArena<K, V, PREFIX_LEN>,
    spot: Spot<K, V, PREFIX_LEN>,
    key: &[u8],
    known: Option<&'a [u8]>,
) -> &'a [u8]
    requires { (tree : _) ×
        IsDescentIn K.text arena.now tree key.now spot (option_copied known) }
    ensures { (tree : _)
        (on : IsDescentIn K.text arena.now tree key.now spot (option_copied known.entry)) →
        HasLeafText (toward (drop spot.depth key.now) on.spot_in.at.part) result.now }
{
    match known {
        Some(text) => text,
        None => text_toward(arena, spot.node, &key[spot.depth..]),
    }
}

// The whole prefix of the inner node at a spot, from the node where it stores all of it, and else
// from the key bytes of a leaf below, which are returned too.
#[inline(always)]
fn whole_prefix<
    'n,
    'a: 'n,
    K: AsBytes,
    V,
    const PREFIX_LEN: usize,
    N: InnerNodeRead<K, V, PREFIX_LEN>,
>(
    arena: &'a NodeArena<K, V, PREFIX_LEN>,
    node: &'n N,
    spot: Spot<K, V, PREFIX_LEN>,
    key: &[u8],
    known: Option<&'a [u8]>,
) -> (&'n [u8], Option<&'a [u8]>)
    requires node { held arena.now spot.node ≡ HeldInner (N.inner node.now) }
    requires spot { (tree : _) ×
        IsDescentIn K.text arena.now tree key.now spot (option_copied known) }
    ensures prefix { (tree : _)
        (on : IsDescentIn K.text arena.now tree key.now spot (option_copied known.entry)) →
        result.0.now ≡ prefix_of on.spot_in.at.part }
    ensures known { (tree : _)
        (on : IsDescentIn K.text arena.now tree key.now spot (option_copied known.entry)) →
        IfSome (option_copied result.1)
        (HasLeafText (toward (drop spot.depth key.now) on.spot_in.at.part)) }
{
    let prefix_len = node.prefix_len();
    if prefix_len <= PREFIX_LEN {
        return (node.stored_prefix(), known);
    }
    let text = text_below_spot(arena, spot, key, known);
    (&text[spot.depth..spot.depth + prefix_len], Some(text))
}

// The spot of the child of an inner node where the search goes on, or else the place of the key. A
// prefix that is longer than `PREFIX_LEN` is read from the key bytes of one leaf, which serve for all
// nodes on the way: wherever the search goes on, that leaf is below.
#[inline(always)]
fn next_spot_in<'a, K: AsBytes, V, const PREFIX_LEN: usize, N: InnerNodeRead<K, V, PREFIX_LEN>>(
    arena: &'a NodeArena<K, V, PREFIX_LEN>,
    node: &N,
    spot: Spot<K, V, PREFIX_LEN>,
    key: &[u8],
    known: Option<&'a [u8]>,
) -> Result<(Spot<K, V, PREFIX_LEN>, Option<&'a [u8]>), Place<K, V, PREFIX_LEN>>
    requires node { held arena.now spot.node ≡ HeldInner (N.inner node.now) }
    requires spot { (tree : _) ×
        IsDescentIn K.text arena.now tree key.now spot (option_copied known) }
    ensures on { (tree : _) →
        IsDescentIn K.text arena.now tree key.now spot (option_copied known.entry) →
        IfOk result (λ (next, text).
        IsDescentIn K.text arena.now tree key.now next (option_copied text)) }
    ensures deeper { IfOk result (λ (next, text). spot.depth < next.depth) }
    ensures place { (tree : _) →
        IsDescentIn K.text arena.now tree key.now spot (option_copied known.entry) →
        IfErr result (Belongs tree key.now) }
{
    let rest = &key[spot.depth..];
    let (prefix, text) = whole_prefix(arena, node, spot, key, known);
    let matched = common_prefix_len(prefix, rest);
    let index = spot.depth + matched;
    if index == key.len() {
        return Err(Place::Begins { spot });
    }
    let byte = key[index];
    if matched < prefix.len() {
        let mismatch = Mismatch {
            index,
            byte,
            node_byte: prefix[matched],
        };
        return Err(Place::Differs { spot, mismatch });
    }
    match node.lookup_child(byte) {
        Some(child) => {
            let next = Spot {
                node: child,
                depth: index + 1,
                parent: Some((spot.node, byte)),
            };
            Ok((next, text))
        }
        None => Err(Place::Absent { spot, byte }),
    }
}

// The same for a node of any kind.
#[inline(always)]
fn next_spot<'a, K: AsBytes, V, const PREFIX_LEN: usize>(
    arena: &'a NodeArena<K, V, PREFIX_LEN>,
    spot: Spot<K, V, PREFIX_LEN>,
    key: &[u8],
    known: Option<&'a [u8]>,
) -> Result<(Spot<K, V, PREFIX_LEN>, Option<&'a [u8]>), Place<K, V, PREFIX_LEN>>
    requires { (tree : _) ×
        IsDescentIn K.text arena.now tree key.now spot (option_copied known) }
    ensures on { (tree : _) →
        IsDescentIn K.text arena.now tree key.now spot (option_copied known.entry) →
        IfOk result (λ (next, text).
        IsDescentIn K.text arena.now tree key.now next (option_copied text)) }
    ensures deeper { IfOk result (λ (next, text). spot.depth < next.depth) }
    ensures place { (tree : _) →
        IsDescentIn K.text arena.now tree key.now spot (option_copied known.entry) →
        IfErr result (Belongs tree key.now) }
{
    let Some(node) = arena.node_ref(spot.node).inner() else {
        return Err(place_at_leaf(arena, spot.node.cast().unwrap(), spot, key));
    };
    next_spot_in(arena, &node, spot, key, known)
}

// The place of a key whose search ends at this leaf.
#[inline(always)]
fn place_at_leaf<K: AsBytes, V, const PREFIX_LEN: usize>(
    arena: &NodeArena<K, V, PREFIX_LEN>,
    leaf: LeafPtr<K, V, PREFIX_LEN>,
    spot: Spot<K, V, PREFIX_LEN>,
    key: &[u8],
) -> Place<K, V, PREFIX_LEN>
    requires leaf { spot.node ≡ leaf_pointer leaf }
    requires spot { (tree : _) × IsSpotIn K.text arena.now tree key.now spot }
    ensures { (tree : _) → IsSpotIn K.text arena.now tree key.now spot →
        Belongs tree key.now result }
{
    let text = arena.as_ref(leaf).key_ref().as_bytes();
    // The way to the leaf has compared all bytes before.
    let depth = spot.depth;
    let index = depth + common_prefix_len(&text[depth..], &key[depth..]);
    if index == text.len() {
        return if index == key.len() {
            Place::Present(leaf)
        } else {
            Place::Extends(leaf)
        };
    }
    if index == key.len() {
        return Place::Begins { spot };
    }
    let mismatch = Mismatch {
        index,
        byte: key[index],
        node_byte: text[index],
    };
    Place::Differs { spot, mismatch }
}

// The place of a key, by a search that begins at a spot to which the key leads.
#[inline(always)]
fn find_place_from<K: AsBytes, V, const PREFIX_LEN: usize>(
    arena: &NodeArena<K, V, PREFIX_LEN>,
    spot: Spot<K, V, PREFIX_LEN>,
    key: &[u8],
) -> Place<K, V, PREFIX_LEN>
    requires { (tree : _) × IsSpotIn K.text arena.now tree key.now spot }
    ensures { (tree : _) → IsSpotIn K.text arena.now tree key.now spot →
        Belongs tree key.now result }
{
    let mut at = spot;
    let mut known = None;
    'way: loop {
        match next_spot(arena, at, key, known) {
            Ok((next, text)) => {
                at = next;
                known = text;
            }
            Err(place) => {
                return place;
            }
        }
    }
}

/// The place of the key in the tree at `root`. Takes no memory.
#[inline(always)]
pub fn find_place<K: AsBytes, V, const PREFIX_LEN: usize>(
    arena: &NodeArena<K, V, PREFIX_LEN>,
    root: OpaqueNodePtr<K, V, PREFIX_LEN>,
    key: &[u8],
) -> Place<K, V, PREFIX_LEN>
    requires tree { HasTree K.text arena.now root }
    ensures { EachTree K.text arena.now root (λ tree. Belongs tree key.now result) }
{
    let spot = Spot {
        node: root,
        depth: 0,
        parent: None,
    };
    find_place_from(arena, spot, key)
}

// The next spot, where so many bytes lead to it, and else the one before.
fn last_shared<K, V, const PREFIX_LEN: usize>(
    before: Spot<K, V, PREFIX_LEN>,
    next: Spot<K, V, PREFIX_LEN>,
    shared: usize,
) -> Spot<K, V, PREFIX_LEN>
    ensures { ((next.depth ≤ shared) × (result ≡ next)) ⊎ (result ≡ before) }
{
    if next.depth <= shared { next } else { before }
}

// The places of two keys in the tree at `root`. The search goes down once as far as both lead.
fn find_places<K: AsBytes, V, const PREFIX_LEN: usize>(
    arena: &NodeArena<K, V, PREFIX_LEN>,
    root: OpaqueNodePtr<K, V, PREFIX_LEN>,
    first: &[u8],
    second: &[u8],
) -> (Place<K, V, PREFIX_LEN>, Place<K, V, PREFIX_LEN>)
    requires tree { HasTree K.text arena.now root }
    ensures first { EachTree K.text arena.now root (λ tree. Belongs tree first.now result.0) }
    ensures second { EachTree K.text arena.now root (λ tree. Belongs tree second.now result.1) }
{
    let shared = common_prefix_len(first, second);
    let mut at = Spot {
        node: root,
        depth: 0,
        parent: None,
    };
    let mut fork = at;
    let mut known = None;
    'way: loop {
        match next_spot(arena, at, first, known) {
            Ok((next, text)) => {
                fork = last_shared(fork, next, shared);
                at = next;
                known = text;
            }
            Err(place) => {
                return (place, find_place_from(arena, fork, second));
            }
        }
    }
}

// The child of a node under the least byte above this one, which is next to it with its first leaf.
#[inline(always)]
fn child_above<K, V, const PREFIX_LEN: usize, N: InnerNodeRead<K, V, PREFIX_LEN>>(
    node: &N,
    byte: u8,
) -> Option<(OpaqueNodePtr<K, V, PREFIX_LEN>, End)>
    ensures child { IfSome result (λ (child, end).
        IsChildBeside end (N.inner node.now).children byte child) }
    ensures none { IfNone result (pairs_on First (N.inner node.now).children byte ≡ []) }
{
    let mut children = node.range(Bound::Excluded(byte), Bound::Unbounded);
    let (_, child) = children.next()?;
    Some((child, End::First))
}

// The child under the greatest byte below this one, which is next to it with its last leaf.
#[inline(always)]
fn child_below<K, V, const PREFIX_LEN: usize, N: InnerNodeRead<K, V, PREFIX_LEN>>(
    node: &N,
    byte: u8,
) -> Option<(OpaqueNodePtr<K, V, PREFIX_LEN>, End)>
    ensures child { IfSome result (λ (child, end).
        IsChildBeside end (N.inner node.now).children byte child) }
    ensures none { IfNone result (pairs_on Last (N.inner node.now).children byte ≡ []) }
{
    let mut children = node.range(Bound::Unbounded, Bound::Excluded(byte));
    let (_, child) = children.next_back()?;
    Some((child, End::Last))
}

// The child of a node that is next to a byte, above it or below it: a leaf where one of them is.
#[inline(always)]
fn child_beside_in<K, V, const PREFIX_LEN: usize, N: InnerNodeRead<K, V, PREFIX_LEN>>(
    node: &N,
    byte: u8,
) -> Option<(OpaqueNodePtr<K, V, PREFIX_LEN>, End)>
    ensures child { IfSome result (λ (child, end).
        IsChildBeside end (N.inner node.now).children byte child) }
    ensures none { IfNone result
        ((end : End) → pairs_on end (N.inner node.now).children byte ≡ []) }
{
    let Some(above) = child_above(node, byte) else {
        return child_below(node, byte);
    };
    if above.0.node_type() == NodeType::Leaf {
        return Some(above);
    }
    match child_below(node, byte) {
        Some(below) if below.0.node_type() == NodeType::Leaf => Some(below),
        _ => Some(above),
    }
}

// The same of the inner node at the pointer. A leaf has no children.
#[inline(always)]
fn child_beside<K, V, const PREFIX_LEN: usize>(
    arena: &NodeArena<K, V, PREFIX_LEN>,
    pointer: OpaqueNodePtr<K, V, PREFIX_LEN>,
    byte: u8,
) -> Option<(OpaqueNodePtr<K, V, PREFIX_LEN>, End)>
    requires { held arena.now pointer ≢ Nothing }
    ensures child { (node : Inner _) → held arena.now pointer ≡ HeldInner node → IfSome result
        (λ (child, end). IsChildBeside end node.children byte child) }
    ensures none { (node : Inner _) → held arena.now pointer ≡ HeldInner node → IfNone result
        ((end : End) → pairs_on end node.children byte ≡ []) }
{
    let node = arena.node_ref(pointer).inner()?;
    child_beside_in(&node, byte)
}

/// The leaf beside the place of a child under the byte: the first one after it, or the last one before
/// it. Goes down only where neither child beside the place is a leaf.
#[inline(always)]
pub fn leaf_beside_child<K: AsBytes, V, const PREFIX_LEN: usize>(
    arena: &NodeArena<K, V, PREFIX_LEN>,
    pointer: OpaqueNodePtr<K, V, PREFIX_LEN>,
    byte: u8,
) -> (LeafPtr<K, V, PREFIX_LEN>, End)
    requires { HasGapUnder K.text arena.now pointer byte }
    ensures beside { (place : HasGapUnder K.text arena.now pointer byte) → IsLeafBeside result.1
        (branch_leaves place.before) (branch_leaves place.after) (leaf_pointer result.0) }
    ensures held { HoldsLeaf arena.now (slab_key result.0) }
{
    let Some((child, end)) = child_beside(arena, pointer, byte) else {
        unreachable!()
    };
    (end_leaf(arena, child, end), end)
}

/// The end of the leaves below a node that is next to a key which differs from all of them.
pub fn near_end(mismatch: Mismatch) -> End
    ensures end { result ≡ (if nat_lt mismatch.byte mismatch.node_byte then First else Last) }
    ensures bytes { (mismatch.byte < 256) × (mismatch.node_byte < 256) }
{
    if mismatch.byte < mismatch.node_byte {
        End::First
    } else {
        End::Last
    }
}

// The end of a leaf with the key itself that is next to this side of the key.
fn end_at_key(side: Side) -> End
    ensures { is_last result ≡ comes_before side Equal true }
{
    match side {
        Side::Before => End::First,
        Side::After | Side::AfterBegun => End::Last,
    }
}

// The end of the leaves whose keys the key begins, and are longer, that is next to this side of it.
fn end_of_begun(side: Side) -> End
    ensures { is_last result ≡ comes_before side Greater true }
{
    match side {
        Side::Before | Side::After => End::First,
        Side::AfterBegun => End::Last,
    }
}

// The leaf beside a place under a byte of a node that has no child there.
fn leaf_beside_absent<K: AsBytes, V, const PREFIX_LEN: usize>(
    arena: &NodeArena<K, V, PREFIX_LEN>,
    spot: Spot<K, V, PREFIX_LEN>,
    byte: u8,
) -> (LeafPtr<K, V, PREFIX_LEN>, End)
    requires { (tree : _) × (key : List ℕ) ×
        IsPlaceIn K.text arena.now tree key (Absent spot byte) }
    ensures beside { (tree : _) (key : List ℕ) (side : Side) →
        IsPlaceIn K.text arena.now tree key (Absent spot byte) →
        IsBesideKey side key (leaves tree) result.1 (leaf_pointer result.0) }
    ensures held { HoldsLeaf arena.now (slab_key result.0) }
{
    leaf_beside_child(arena, spot.node, byte)
}

// The leaf beside a place where the key differs from all keys below.
fn leaf_beside_mismatch<K: AsBytes, V, const PREFIX_LEN: usize>(
    arena: &NodeArena<K, V, PREFIX_LEN>,
    spot: Spot<K, V, PREFIX_LEN>,
    mismatch: Mismatch,
) -> (LeafPtr<K, V, PREFIX_LEN>, End)
    requires { (tree : _) × (key : List ℕ) ×
        IsPlaceIn K.text arena.now tree key (Differs spot mismatch) }
    ensures beside { (tree : _) (key : List ℕ) (side : Side) →
        IsPlaceIn K.text arena.now tree key (Differs spot mismatch) →
        IsBesideKey side key (leaves tree) result.1 (leaf_pointer result.0) }
    ensures held { HoldsLeaf arena.now (slab_key result.0) }
{
    let end = near_end(mismatch);
    (end_leaf(arena, spot.node, end), end)
}

// The leaf beside a place, on this side of the key.
fn leaf_beside_place<K: AsBytes, V, const PREFIX_LEN: usize>(
    arena: &NodeArena<K, V, PREFIX_LEN>,
    place: Place<K, V, PREFIX_LEN>,
    side: Side,
) -> (LeafPtr<K, V, PREFIX_LEN>, End)
    requires { (tree : _) × (key : List ℕ) × IsPlaceIn K.text arena.now tree key place }
    ensures beside { (tree : _) (key : List ℕ) → IsPlaceIn K.text arena.now tree key place →
        IsBesideKey side key (leaves tree) result.1 (leaf_pointer result.0) }
    ensures held { HoldsLeaf arena.now (slab_key result.0) }
{
    match place {
        Place::Present(leaf) => (leaf, end_at_key(side)),
        Place::Extends(leaf) => (leaf, End::Last),
        Place::Begins { spot } => {
            let end = end_of_begun(side);
            (end_leaf(arena, spot.node, end), end)
        }
        Place::Absent { spot, byte } => leaf_beside_absent(arena, spot, byte),
        Place::Differs { spot, mismatch } => leaf_beside_mismatch(arena, spot, mismatch),
    }
}

/// The leaf beside a side of a key in the tree at `root`, and which end it is of the leaves on its
/// own side: the first one after, or the last one before. All leaves before it are before that side of
/// the key, and all after it are after.
///
/// A well-formed tree must stand at `root`. The key may be in the tree or not, and may be a prefix of
/// keys there. Takes no memory. Costs a descent, one to the leaf where a node's children lie there,
/// and one more where a prefix met is longer than `PREFIX_LEN`.
///
/// In a tree with the keys `abc1`, `abc2` and `b`, whose values are 0, 1 and 2, `(0, End::First)` is
/// `expected` right before `ab`, and `(1, End::Last)` right after all that begins with it:
///
/// (from tests/art_tree_tests/tree/searches.rt.txt)
/// ```rust
/// let (leaf, end) = leaf_beside(arena, root, key, side);
/// assert!(rt; (*arena.as_value_ref(leaf), end) == expected);
/// ```
pub fn leaf_beside<K: AsBytes, V, const PREFIX_LEN: usize>(
    arena: &NodeArena<K, V, PREFIX_LEN>,
    root: OpaqueNodePtr<K, V, PREFIX_LEN>,
    key: &[u8],
    side: Side,
) -> (LeafPtr<K, V, PREFIX_LEN>, End)
    requires tree { HasTree K.text arena.now root }
    ensures beside { EachTree K.text arena.now root (λ tree.
        IsBesideKey side key.now (leaves tree) result.1 (leaf_pointer result.0)) }
    ensures held { HoldsLeaf arena.now (slab_key result.0) }
{
    let place = find_place(arena, root, key);
    leaf_beside_place(arena, place, side)
}

/// The leaves beside two sides of keys in the tree at `root`, each as [`leaf_beside`] returns it. The
/// search goes down once as far as both keys lead. Takes no memory.
///
/// In a tree with the keys `abc1`, `abc2` and `b`, whose values are 0, 1 and 2, `(0, End::First)` is
/// `from` right before `ab`, and `(1, End::Last)` is `to` right after all that begins with it:
///
/// (from tests/art_tree_tests/tree/searches.rt.txt)
/// ```rust
/// let ((leaf, end), last) = leaves_beside(arena, root, key, Side::Before, key, Side::AfterBegun);
/// assert!(rt; (*arena.as_value_ref(leaf), end) == from);
/// assert!(rt; (*arena.as_value_ref(last.0), last.1) == to);
/// ```
pub fn leaves_beside<K: AsBytes, V, const PREFIX_LEN: usize>(
    arena: &NodeArena<K, V, PREFIX_LEN>,
    root: OpaqueNodePtr<K, V, PREFIX_LEN>,
    start: &[u8],
    start_side: Side,
    end: &[u8],
    end_side: Side,
) -> (
    (LeafPtr<K, V, PREFIX_LEN>, End),
    (LeafPtr<K, V, PREFIX_LEN>, End),
)
    requires tree { HasTree K.text arena.now root }
    ensures start { EachTree K.text arena.now root (λ tree.
        IsBesideKey start_side start.now (leaves tree) result.0.1 (leaf_pointer result.0.0)) }
    ensures end { EachTree K.text arena.now root (λ tree.
        IsBesideKey end_side end.now (leaves tree) result.1.1 (leaf_pointer result.1.0)) }
    ensures start_held { HoldsLeaf arena.now (slab_key result.0.0) }
    ensures end_held { HoldsLeaf arena.now (slab_key result.1.0) }
{
    let (first, second) = find_places(arena, root, start, end);
    (
        leaf_beside_place(arena, first, start_side),
        leaf_beside_place(arena, second, end_side),
    )
}
