//! The leaf at one end of a tree, with the path to it.
ghost use Rattle.std.specs.Prelude.{◌≡◌, ◌<◌, ℕ, List, length, Some, IfSome, IfNone};
ghost use Rattle.art_header.specs.declared.node_type.NodeType.TheVariants.{Leaf};
ghost use Rattle.art_nodes.specs.Inner.{Inner};
ghost use Rattle.art_nodes.specs.Pointers.{node_kind};
ghost use Rattle.art_arena.specs.Arena.{held, HeldInner};
ghost use Rattle.art_arena.specs.Ends.{IsAtEnd, end_pair};
ghost use Rattle.art_arena.specs.Standing.{TreeAt};
ghost use Rattle.art_arena.specs.Trees.{leaves};
ghost use Rattle.art_tree.specs.Dropping.{IsAtPath};
ghost use Rattle.art_search.specs.Search.{EachTree, HasTree, leaf_pointer};

use art_arena::{End, LeafPtr, NodeArena};
use art_bytes::AsBytes;
use art_nodes::{InnerNodeRead, OpaqueNodePtr};
use art_search::{TreePath, TreePathSearch};

// The child at one end of a node, with its byte.
fn pair_at_end<K, V, const PREFIX_LEN: usize, N: InnerNodeRead<K, V, PREFIX_LEN>>(
    node: &N,
    end: End,
) -> (u8, OpaqueNodePtr<K, V, PREFIX_LEN>)
    requires { 0 < length (N.inner node.now).children }
    ensures { end_pair end (N.inner node.now).children ≡ Some result }
{
    match end {
        End::First => node.min(),
        End::Last => node.max(),
    }
}

// The same of the inner node at the pointer. A leaf has no children.
fn child_at_end<K: AsBytes, V, const PREFIX_LEN: usize>(
    arena: &NodeArena<K, V, PREFIX_LEN>,
    pointer: OpaqueNodePtr<K, V, PREFIX_LEN>,
    end: End,
) -> Option<(u8, OpaqueNodePtr<K, V, PREFIX_LEN>)>
    requires { TreeAt K.text arena.now pointer }
    ensures child { IfSome result (λ pair. (node : Inner _) ×
        (held arena.now pointer ≡ HeldInner node) × (end_pair end node.children ≡ Some pair)) }
    ensures leaf { IfNone result (node_kind pointer ≡ Leaf) }
{
    let node = arena.node_ref(pointer).inner()?;
    Some(pair_at_end(&node, end))
}

/// The leaf at one end of a tree, with the path that leads to it.
pub(crate) fn end_place<K: AsBytes, V, const PREFIX_LEN: usize>(
    arena: &NodeArena<K, V, PREFIX_LEN>,
    root: OpaqueNodePtr<K, V, PREFIX_LEN>,
    end: End,
) -> (LeafPtr<K, V, PREFIX_LEN>, TreePath<K, V, PREFIX_LEN>)
    requires tree { HasTree K.text arena.now root }
    ensures path { EachTree K.text arena.now root (λ tree.
        (text : List ℕ) × IsAtPath tree (leaf_pointer result.0) result.1 text) }
    ensures at_end { EachTree K.text arena.now root (λ tree.
        IsAtEnd end (leaves tree) (leaf_pointer result.0)) }
{
    let mut at = root;
    let mut visits = TreePathSearch::default();
    'way: loop {
        match child_at_end(arena, at, end) {
            Some((byte, child)) => {
                visits.visit_inner_node(at, byte);
                at = child;
            }
            None => {
                return (at.cast().unwrap(), visits.finish());
            }
        }
    }
}
