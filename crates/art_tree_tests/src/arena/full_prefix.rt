//! Nodes that are built by hand, and their whole prefixes.
ghost use Rattle.std.specs.Prelude.{◌≡◌, ◌≤◌, ◌<◌, ◌++◌, ◌∷◌, [], ℕ, length, IfOk};
ghost use Rattle.art_nodes.specs.Pointers.{opaque_pointer, slab_key};
ghost use Rattle.art_links.specs.FullPrefix.{match_of};
ghost use Rattle.art_arena.specs.Standing.{TreeAt, TreeUnder};
ghost use Rattle.art_arena.specs.Trees.{SameButPointers};

use art_arena::laws::{
    allocating_leaves_trees_standing, an_allocated_node_makes_a_tree, same_trees_match_alike,
};
use art_arena::{ArenaInnerNode, NodeArena};
use art_bytes::AsBytes;
use art_links::FullPrefix;
use art_nodes::{
    ExplicitMismatch, InnerNode4, InnerNodeCommon, InnerNodeRead, LeafNode, NodePtr, OpaqueNodePtr,
    PrefixMatch,
};
use std::alloc::{AllocError, Global};

// Nodes of two trees that are the same but for their pointers match a key alike. The leaves of the
// two mismatches may differ.
fn match_alike<
    K: AsBytes,
    V,
    const P: usize,
    N: InnerNodeCommon<K, V, P>,
    L: AsBytes,
    W,
    const Q: usize,
    M: InnerNodeCommon<L, W, Q>,
>(
    arena: &NodeArena<K, V, P>,
    node: &N,
    other_arena: &NodeArena<L, W, Q>,
    other: &M,
    key: &[u8],
    depth: usize,
) -> (
    Result<PrefixMatch, ExplicitMismatch<K, V, P>>,
    Result<PrefixMatch, ExplicitMismatch<L, W, Q>>,
)
    requires depth { depth ≤ length key.now }
    requires same { (under : TreeUnder K.text arena.now (N.inner node.now) depth)
        × (other_under : TreeUnder L.text other_arena.now (M.inner other.now) depth)
        × SameButPointers under.tree other_under.tree }
    ensures { match_of result.0 ≡ match_of result.1 }
{
    same_trees_match_alike::<K, V, P, L, W, Q>();
    (
        node.match_full_prefix(arena, key, depth),
        other.match_full_prefix(other_arena, key, depth),
    )
}

// Allocates a node that has a tree below it. The node's pointer has that tree.
fn plant_node<K: AsBytes, V, const PREFIX_LEN: usize, N: ArenaInnerNode<K, V, PREFIX_LEN>>(
    arena: &mut NodeArena<K, V, PREFIX_LEN>,
    node: N,
    depth: usize,
) -> Result<NodePtr<PREFIX_LEN, N>, (AllocError, N)>
    ensures { (under : TreeUnder K.text arena.old (N.inner node) depth) → IfOk result (λ pointer.
        (found : TreeAt K.text arena.new (opaque_pointer N.TYPE (slab_key pointer))) ×
        (found.path ≡ under.path) × SameButPointers found.tree under.tree) }
{
    an_allocated_node_makes_a_tree::<K, V, PREFIX_LEN>();
    arena.allocate_node_ptr(node)
}

// A path, a prefix and one byte.
fn join(alloc: Global, path: &[u8], prefix: &[u8], byte: u8) -> Result<Vec<u8>, AllocError>
    ensures { IfOk result (λ key. key.items ≡ (path.now ++ prefix.now) ++ byte ∷ []) }
{
    let mut key = Vec::new(alloc);
    key.extend_from_slice(path)?;
    key.extend_from_slice(prefix)?;
    key.push(byte)?;
    Ok(key)
}

// A leaf whose key is a path, a prefix and one byte. Each tree that stands still stands.
fn plant_leaf<const PREFIX_LEN: usize>(
    alloc: Global,
    arena: &mut NodeArena<Vec<u8>, u8, PREFIX_LEN>,
    path: &[u8],
    prefix: &[u8],
    byte: u8,
) -> Result<OpaqueNodePtr<Vec<u8>, u8, PREFIX_LEN>, AllocError>
    ensures planted { IfOk result (λ pointer.
        (found : TreeAt ⟦<Vec<u8> as AsBytes>⟧.text arena.new pointer) ×
        (found.path ≡ (path.now ++ prefix.now) ++ byte ∷ [])) }
    ensures kept { IfOk result (λ _. (pointer : _)
        (found : TreeAt ⟦<Vec<u8> as AsBytes>⟧.text arena.old pointer) →
        (again : TreeAt ⟦<Vec<u8> as AsBytes>⟧.text arena.new pointer) × (again.path ≡ found.path)) }
{
    allocating_leaves_trees_standing::<Vec<u8>, u8, PREFIX_LEN>();
    let key = join(alloc, path, prefix, byte)?;
    let leaf = LeafNode::with_no_siblings(key, 0);
    let _text = leaf.key_ref().as_bytes();
    let Ok(pointer) = arena.allocate_node_ptr(leaf) else {
        return Err(AllocError);
    };
    Ok(pointer.to_opaque())
}

// A node under this path with this prefix, over two trees under what follows.
fn fork<K: AsBytes, const PREFIX_LEN: usize>(
    arena: &NodeArena<K, u8, PREFIX_LEN>,
    path: &[u8],
    prefix: &[u8],
    low: (u8, OpaqueNodePtr<K, u8, PREFIX_LEN>),
    high: (u8, OpaqueNodePtr<K, u8, PREFIX_LEN>),
) -> InnerNode4<K, u8, PREFIX_LEN>
    requires ascending { low.0 < high.0 }
    requires short { length prefix.now < 256 }
    ensures { (depth : ℕ) → depth ≡ length path.now →
        (a : TreeAt K.text arena.now low.1) → a.path ≡ (path.now ++ prefix.now) ++ low.0 ∷ [] →
        (b : TreeAt K.text arena.now high.1) → b.path ≡ (path.now ++ prefix.now) ++ high.0 ∷ [] →
        (under : TreeUnder K.text arena.now result depth) × (under.path ≡ path.now) }
{
    let (low_byte, low_child) = low;
    let (high_byte, high_child) = high;
    InnerNode4::builder(prefix, prefix.len())
        .write_child(low_byte, low_child)
        .write_child(high_byte, high_child)
        .build()
}

// A node under this path with this prefix, over two leaves.
fn fork_of_leaves<const PREFIX_LEN: usize>(
    alloc: Global,
    arena: &mut NodeArena<Vec<u8>, u8, PREFIX_LEN>,
    path: &[u8],
    prefix: &[u8],
    low: u8,
    high: u8,
) -> Result<InnerNode4<Vec<u8>, u8, PREFIX_LEN>, AllocError>
    requires ascending { low < high }
    requires short { length prefix.now < 256 }
    ensures { IfOk result (λ node.
        (under : TreeUnder ⟦<Vec<u8> as AsBytes>⟧.text arena.new node (length path.now)) ×
        (under.path ≡ path.now)) }
{
    let first = plant_leaf(alloc, arena, path, prefix, low)?;
    let second = plant_leaf(alloc, arena, path, prefix, high)?;
    Ok(fork(arena, path, prefix, (low, first), (high, second)))
}
