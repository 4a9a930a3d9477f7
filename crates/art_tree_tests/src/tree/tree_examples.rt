//! How a crate uses `art_tree`: values that are loaded once and read by key, and values that are
//! inserted into a tree and removed from it.
ghost use Rattle.std.specs.Prelude.{◌≡◌, ◌≢◌, ◌≤◌, ◌↔◌, ℕ, List, [], length, map, All, Contains, None, IsNone, IsTrue, IfSome, IfErr};
ghost use Rattle.art_nodes.specs.ChildMap.{child_at};
ghost use Rattle.art_nodes.specs.Pointers.{node_kind, opaque_pointer, slab_key};
ghost use Rattle.art_arena.specs.Arena.{held, HeldInner, Nothing};
ghost use Rattle.art_arena.specs.Links.{HoldsLeaf};
ghost use Rattle.art_arena.specs.Standing.{IsTreeIn, StandsIn, TreeAt};
ghost use Rattle.art_arena.specs.Trees.{places, root_of, texts, IsSound, IsWellFormed, SameButPointers};
ghost use Rattle.art_steps.specs.Art.{IsAlone};
ghost use Rattle.art_steps.specs.Contexts.{Under, path_to, plug};
ghost use Rattle.art_steps.specs.Dictionary.{entry_at, HasEntry, IsEntry};
ghost use Rattle.art_steps.specs.Refusals.{texts_of};
ghost use Rattle.art_search.specs.Search.{HasTree, EachTree, scan};
ghost use Rattle.art_steps.specs.declared.faults.InsertRefusal.TheVariants.{Prefix};

use super::*;
use art_tree::{
    ArenaInnerNode, End, FullPrefix, InsertFault, LeafPtr, NoPrefixesBytes, NodePtr, end_leaf,
};

/// The root of a tree with the key bytes of these entries, if they are in order and no allocation
/// fails.
fn table<K: AsBytes + Drop, V: Drop, const PREFIX_LEN: usize>(
    alloc: Global,
    arena: &mut NodeArena<K, V, PREFIX_LEN>,
    entries: Vec<(K, V)>,
) -> Option<OpaqueNodePtr<K, V, PREFIX_LEN>>
    ensures loaded { IfSome result (λ root. HasTree K.text arena.new root) }
    ensures texts { IfSome result (λ root. (tree : _) × IsTreeIn K.text arena.new root tree ×
        (texts tree ≡ texts_of K.text entries.items)) }
{
    laws::a_loaded_tree_has_the_texts_of_its_entries::<K, V, PREFIX_LEN>();
    load(alloc, arena, entries).ok()
}

/// The value under a key: None exactly where a scan of all leaves does not find the key.
fn value_of<'a, K: AsBytes, V, const PREFIX_LEN: usize>(
    arena: &'a NodeArena<K, V, PREFIX_LEN>,
    root: OpaqueNodePtr<K, V, PREFIX_LEN>,
    key: &[u8],
) -> Option<&'a V>
    requires { HasTree K.text arena.now root }
    ensures { EachTree K.text arena.now root (λ tree. IsNone result ↔ (scan tree key.now ≡ [])) }
{
    let mut reader = ArenaReader::with_budget(arena, key.len() + 1);
    let (leaf, _) = find_leaf(&mut reader, root, key)?;
    Some(arena.as_value_ref(leaf))
}

/// The least leaf below the child that a node of a tree has under a byte.
fn least_below<K: AsBytes, V, const PREFIX_LEN: usize, N: ArenaInnerNode<K, V, PREFIX_LEN>>(
    arena: &NodeArena<K, V, PREFIX_LEN>,
    node: NodePtr<PREFIX_LEN, N>,
    byte: u8,
) -> Option<LeafPtr<K, V, PREFIX_LEN>>
    requires { TreeAt K.text arena.now (opaque_pointer N.TYPE (slab_key node)) }
    ensures { IfSome result (λ leaf. HoldsLeaf arena.now (slab_key leaf)) }
{
    laws::each_node_of_a_tree_has_a_tree::<K, V, PREFIX_LEN>();
    let child = arena.as_ref(node).lookup_child(byte)?;
    Some(end_leaf(arena, child, End::First))
}

/// The index in a key after the whole prefix of a node of a tree, if the key has that prefix after
/// the path to the node, which has `depth` bytes.
fn behind_prefix<K: AsBytes, V, const PREFIX_LEN: usize, N: ArenaInnerNode<K, V, PREFIX_LEN>>(
    arena: &NodeArena<K, V, PREFIX_LEN>,
    node: NodePtr<PREFIX_LEN, N>,
    key: &[u8],
    depth: usize,
) -> Option<usize>
    requires tree { (at : TreeAt K.text arena.now (opaque_pointer N.TYPE (slab_key node))) ×
        (length at.path ≡ depth) }
    requires within { depth ≤ length key.now }
    ensures { IfSome result (λ index. index ≤ length key.now) }
{
    laws::each_node_of_a_tree_has_a_tree::<K, V, PREFIX_LEN>();
    let matched = arena
        .as_ref(node)
        .match_full_prefix(arena, key, depth)
        .ok()?;
    Some(depth + matched.matched_bytes)
}

/// Changes the value under a key in place, if the key is there. The tree still stands.
fn set_value<K: AsBytes, V: Drop, const PREFIX_LEN: usize>(
    arena: &mut NodeArena<K, V, PREFIX_LEN>,
    root: OpaqueNodePtr<K, V, PREFIX_LEN>,
    key: &[u8],
    value: V,
) -> bool
    requires { HasTree K.text arena.old root }
    ensures { HasTree K.text arena.new root }
{
    laws::trees_stand_where_texts_are_kept::<K, V, PREFIX_LEN>();
    let mut reader = ArenaReader::with_budget(arena, key.len() + 1);
    let Some((leaf, _)) = find_leaf(&mut reader, root, key) else {
        return false;
    };
    *arena.as_value_mut(leaf) = value;
    true
}

/// Puts a subtree in the place of the child that a node of a tree has under a byte. The whole is a
/// tree again. The new subtree must stand beside the node and be sound under the path to its place.
fn exchange_child<K: AsBytes, V, const PREFIX_LEN: usize, N: ArenaInnerNode<K, V, PREFIX_LEN>>(
    arena: &mut NodeArena<K, V, PREFIX_LEN>,
    node: NodePtr<PREFIX_LEN, N>,
    byte: u8,
    child: OpaqueNodePtr<K, V, PREFIX_LEN>,
)
    requires held { held arena.old (opaque_pointer N.TYPE (slab_key node)) ≢ Nothing }
    requires has_child { (own : _) →
        held arena.old (opaque_pointer N.TYPE (slab_key node)) ≡ HeldInner own →
        child_at own.children byte ≢ None }
    ensures { (above : _) (prefix : List ℕ) (before after : _) (part now : _) →
        let context = Under above (opaque_pointer N.TYPE (slab_key node)) prefix before byte after in
        StandsIn K.text arena.old (plug context part) → IsWellFormed (plug context part) →
        root_of now ≡ child → IsSound (path_to context) now → StandsIn K.text arena.old now →
        All (λ pointer. pointer ≢ opaque_pointer N.TYPE (slab_key node)) (places now) →
        StandsIn K.text arena.new (plug context now) × IsWellFormed (plug context now) }
{
    laws::a_subtree_may_be_exchanged::<K, V, PREFIX_LEN>();
    laws::trees_stand_where_their_nodes_are_kept::<K, V, PREFIX_LEN>();
    arena.as_mut(node).write_child(byte, child);
}

/// Inserts a value under a key. Where that succeeds, the key's bytes have this entry.
fn put<K: AsBytes + Drop, V: Drop, const PREFIX_LEN: usize>(
    tree: &mut ArtTree<K, V, PREFIX_LEN>,
    key: K,
    value: V,
) -> bool
    ensures { IsTrue result → IsEntry K.text tree.new.arena (key, value) }
{
    tree.insert(key, value).is_ok()
}

/// Removes a key. Where that succeeds, its bytes have no entry.
fn forget<K: AsBytes + Drop, V: Drop, const PREFIX_LEN: usize>(
    tree: &mut ArtTree<K, V, PREFIX_LEN>,
    key: &[u8],
) -> bool
    ensures { IsTrue result → (entry_at K.text tree.new.arena key.now ≡ None) }
{
    tree.remove(key).is_ok()
}

/// The tree that `load` makes of entries. A tree with entries for the same key bytes, whichever
/// calls made it, is the same but for pointers, kinds included.
fn loaded<K: AsBytes + Drop, V: Drop, const PREFIX_LEN: usize>(
    alloc: Global,
    tree: &ArtTree<K, V, PREFIX_LEN>,
    entries: Vec<(K, V)>,
) -> Option<ArtTree<K, V, PREFIX_LEN>>
    ensures { ((text : List ℕ) → HasEntry K.text tree.now.arena text ↔
        Contains (texts_of K.text entries.items) text) →
        IfSome result (λ loaded. (root other_root : _) (one other : _) →
        IsAlone K.text tree.now.arena root one → IsAlone K.text loaded.arena other_root other →
        SameButPointers one other × (map node_kind (places one) ≡ map node_kind (places other))) }
{
    laws::the_same_entries_make_the_same_tree::<K, V, PREFIX_LEN>();
    ArtTree::load(alloc, entries).ok()
}

/// Inserts a value under a key of a type without prefixes. No such key clashes with another.
fn put_apart<K: NoPrefixesBytes + Drop, V: Drop, const PREFIX_LEN: usize>(
    tree: &mut ArtTree<K, V, PREFIX_LEN>,
    key: K,
    value: V,
) -> Result<Option<(K, V)>, InsertFault<K, V>>
    ensures { IfErr result (λ fault. fault.refusal ≢ Prefix) }
{
    laws::keys_without_prefixes_never_clash::<K, V, PREFIX_LEN>();
    tree.insert(key, value)
}
