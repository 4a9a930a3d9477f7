//! The first and the last leaf of a tree, and some leaf of it.
ghost use Rattle.std.specs.Prelude.{◌≡◌, ◌≢◌, ◌<◌, ◌≤◌, ℕ, length, map, Contains, Some, IfSome, IfNone};
ghost use Rattle.art_header.specs.declared.node_type.NodeType.TheVariants.{Leaf};
ghost use Rattle.art_nodes.specs.Inner.{Inner};
ghost use Rattle.art_nodes.specs.Pointers.{node_kind, slab_key, opaque_pointer};
ghost use Rattle.art_arena.specs.Arena.{held, HeldInner, Nothing};
ghost use Rattle.art_arena.specs.Ends.{end_pair, IsAtEnd};
ghost use Rattle.art_arena.specs.Links.{HoldsLeaf};
ghost use Rattle.art_arena.specs.Standing.{IsLeafOf, TreeAt};
ghost use Rattle.art_arena.specs.Trees.{leaves};

use crate::arena::{LeafPtr, NodeArena};
use art_bytes::AsBytes;
use art_nodes::{InnerNodeRead, OpaqueNodePtr};

/// One end of the leaves of a tree, for [`end_leaf`], which has an example.
#[derive(Clone, Copy, Debug, PartialEq, Eq)]
pub enum End {
    /// The leaf with the least key bytes.
    First,
    /// The leaf with the greatest key bytes.
    Last,
}

// The child under the least byte, or under the greatest.
fn end_child<K, V, const PREFIX_LEN: usize, N: InnerNodeRead<K, V, PREFIX_LEN>>(
    node: &N,
    end: End,
) -> OpaqueNodePtr<K, V, PREFIX_LEN>
    requires { 0 < length (N.inner node.now).children }
    ensures { (byte : ℕ) × (end_pair end (N.inner node.now).children ≡ Some (byte, result)) }
{
    let (_, child) = match end {
        End::First => node.min(),
        End::Last => node.max(),
    };
    child
}

// The same for the inner node at this pointer. A leaf has none.
fn step_to_end<K, V, const PREFIX_LEN: usize>(
    arena: &NodeArena<K, V, PREFIX_LEN>,
    pointer: OpaqueNodePtr<K, V, PREFIX_LEN>,
    end: End,
) -> Option<OpaqueNodePtr<K, V, PREFIX_LEN>>
    requires held { held arena.now pointer ≢ Nothing }
    requires has_child { (node : Inner _) → held arena.now pointer ≡ HeldInner node →
        0 < length node.children }
    ensures child { IfSome result (λ child. (node : Inner _) × (byte : ℕ) ×
        (held arena.now pointer ≡ HeldInner node) ×
        (end_pair end node.children ≡ Some (byte, child))) }
    ensures leaf { IfNone result (node_kind pointer ≡ Leaf) }
{
    let node = arena.node_ref(pointer).inner()?;
    Some(end_child(&node, end))
}

/// The first or the last leaf of the tree that stands at this pointer: the one with the least or
/// the greatest key bytes of the tree.
///
/// A tree must stand at the pointer, sound under some path. Takes no memory, and visits at most one
/// inner node for each byte of that leaf's key.
///
/// In a tree with the keys `abc1`, `abc2` and `b`, whose values are 0, 1 and 2, `first` is 0 and
/// `last` is 2:
///
/// (from tests/art_tree_tests/tree/searches.rt.txt)
/// ```rust
/// let leaf = end_leaf(arena, root, End::First);
/// assert!(rt; arena.holds(leaf) && *arena.as_value_ref(leaf) == first);
/// let leaf = end_leaf(arena, root, End::Last);
/// assert!(rt; arena.holds(leaf) && *arena.as_value_ref(leaf) == last);
/// ```
pub fn end_leaf<K: AsBytes, V, const PREFIX_LEN: usize>(
    arena: &NodeArena<K, V, PREFIX_LEN>,
    pointer: OpaqueNodePtr<K, V, PREFIX_LEN>,
    end: End,
) -> LeafPtr<K, V, PREFIX_LEN>
    requires tree { TreeAt K.text arena.now pointer }
    ensures at_end { (found : TreeAt K.text arena.now pointer) →
        IsAtEnd end (leaves found.tree) (opaque_pointer Leaf (slab_key result)) }
    ensures held { HoldsLeaf arena.now (slab_key result) }
{
    let mut at = pointer;
    'way: loop {
        match step_to_end(arena, at, end) {
            Some(child) => {
                at = child;
            }
            None => {
                return at.cast().unwrap();
            }
        }
    }
}

// A child of the inner node at this pointer: a leaf, where one is. A leaf has none.
fn step_to_leaf<K, V, const PREFIX_LEN: usize>(
    arena: &NodeArena<K, V, PREFIX_LEN>,
    pointer: OpaqueNodePtr<K, V, PREFIX_LEN>,
) -> Option<OpaqueNodePtr<K, V, PREFIX_LEN>>
    requires held { held arena.now pointer ≢ Nothing }
    requires two { (node : Inner _) → held arena.now pointer ≡ HeldInner node →
        2 ≤ length node.children }
    ensures child { IfSome result (λ child. (node : Inner _) ×
        (held arena.now pointer ≡ HeldInner node) ×
        Contains (map (λ pair. pair.1) node.children) child) }
    ensures leaf { IfNone result (node_kind pointer ≡ Leaf) }
{
    let node = arena.node_ref(pointer).inner()?;
    Some(node.any_child_prefer_leaf())
}

/// Some leaf of the tree that stands at this pointer. At each node the way goes to a child that is a
/// leaf, where there is one.
///
/// A tree must stand at the pointer, sound under some path. Takes no memory, and visits at most one
/// inner node for each byte of that leaf's key.
///
/// In any tree:
///
/// (from tests/art_tree_tests/tree/searches.rt.txt)
/// ```rust
/// assert!(rt; arena.holds(any_leaf(arena, root)));
/// ```
// Out of line: within an insert it costs those that meet no long prefix.
#[inline(never)]
pub fn any_leaf<K: AsBytes, V, const PREFIX_LEN: usize>(
    arena: &NodeArena<K, V, PREFIX_LEN>,
    pointer: OpaqueNodePtr<K, V, PREFIX_LEN>,
) -> LeafPtr<K, V, PREFIX_LEN>
    requires tree { TreeAt K.text arena.now pointer }
    ensures leaf { (found : TreeAt K.text arena.now pointer) → IsLeafOf found.tree result }
    ensures held { HoldsLeaf arena.now (slab_key result) }
{
    let mut at = pointer;
    'way: loop {
        match step_to_leaf(arena, at) {
            Some(child) => {
                at = child;
            }
            None => {
                return at.cast().unwrap();
            }
        }
    }
}
