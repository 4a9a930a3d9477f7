//! Search: the leaf with a key, by one visit of each node on the way to it.
ghost use Rattle.std.specs.Prelude.{◌≡◌, ◌≢◌, ◌<◌, ◌≤◌, ◌+◌, length, IfSome, IfNone};
ghost use Rattle.art_arena.specs.Arena.{held, Nothing};
ghost use Rattle.art_arena.specs.Reader.{shown};
ghost use Rattle.art_search.specs.Descent.{LeadsOn, LeadsNowhere, LeadsOnFrom, LeadsNowhereFrom};
ghost use Rattle.art_search.specs.Paths.{Steps};
ghost use Rattle.art_search.specs.Search.{HasTree, EachTree, scan, found, met, IsWay, IsPathTo, LeadsTo, leaf_pointer};

use crate::path::{TreePath, TreePathSearch};
use art_arena::{ArenaReader, LeafPtr, NodeRef};
use art_bytes::AsBytes;
use art_nodes::{InnerNodeRead, LeafNode, OpaqueNodePtr};

// The index in the key of the byte that leads from the node to its child, and the child under that
// byte.
#[inline(always)]
fn next_child_in<K, V, const PREFIX_LEN: usize, N: InnerNodeRead<K, V, PREFIX_LEN>>(
    node: &N,
    key: &[u8],
    depth: usize,
) -> Option<(usize, OpaqueNodePtr<K, V, PREFIX_LEN>)>
    requires { depth ≤ length key.now }
    ensures on { IfSome result (LeadsOn PREFIX_LEN (N.inner node.now) key.now depth) }
    ensures within { IfSome result (λ (index, child). index < length key.now) }
    ensures nowhere { IfNone result (LeadsNowhere PREFIX_LEN (N.inner node.now) key.now depth) }
{
    let matched = node.attempt_pessimistic_match_prefix(&key[depth..]).ok()?;
    let index = depth + matched.matched_bytes;
    let byte = *key.get(index)?;
    let child = node.lookup_child(byte)?;
    Some((index, child))
}

// The same for a node of any kind. No child of a leaf has the key.
#[inline(always)]
fn next_child<K, V, const PREFIX_LEN: usize>(
    node: NodeRef<'_, K, V, PREFIX_LEN>,
    key: &[u8],
    depth: usize,
) -> Option<(usize, OpaqueNodePtr<K, V, PREFIX_LEN>)>
    requires { depth ≤ length key.now }
    ensures on { IfSome result (LeadsOnFrom PREFIX_LEN (shown node.entry) key.now depth) }
    ensures within { IfSome result (λ (index, child). index < length key.now) }
    ensures nowhere { IfNone result (LeadsNowhereFrom PREFIX_LEN (shown node.entry) key.now depth) }
{
    match node {
        NodeRef::Node4(node) => next_child_in(node, key, depth),
        NodeRef::Node16(node) => next_child_in(node, key, depth),
        NodeRef::Node48(node) => next_child_in(node, key, depth),
        NodeRef::Node256(node) => next_child_in(node, key, depth),
        NodeRef::LeafNode(_) => None,
    }
}

/// The leaf with this key in the tree at `root`, with its path, or None where no leaf has the key.
/// It is the leaf that a scan of all leaves finds.
///
/// A well-formed tree must stand at `root` in the reader's arena, for example the one that `load`
/// returns, and the budget must be at least the length of the key plus one.
///
/// The search visits each node on the way once: at most one more than the key has bytes. At an
/// inner node it compares the key with the prefix where the node stores all of it, and else skips
/// as many bytes; at the leaf it compares the whole key. Takes no memory.
///
/// (from crates/art_tree_tests/src/tree/tree_examples.rt)
/// ```rust
/// let entries = vec![in alloc; (StrKey::new("abc1"), 10), (StrKey::new("abc2"), 20)]?;
/// let root = load(alloc, arena, entries).map_err(|fault| fault.refusal)?;
/// let mut reader = ArenaReader::with_budget(arena, 5);
/// let Some((leaf, path)) = find_leaf(&mut reader, root, b"abc2") else {
///     panic!(rt; "not found");
/// };
/// assert!(rt; reader.remaining() == 3);
/// assert!(rt; *arena.as_value_ref(leaf) == 20);
/// ```
// Inlined, so that a caller that ignores the path does not pay for it.
#[inline(always)]
pub fn find_leaf<K: AsBytes, V, const PREFIX_LEN: usize>(
    reader: &mut ArenaReader<'_, K, V, PREFIX_LEN>,
    root: OpaqueNodePtr<K, V, PREFIX_LEN>,
    key: &[u8],
) -> Option<(LeafPtr<K, V, PREFIX_LEN>, TreePath<K, V, PREFIX_LEN>)>
    requires tree { HasTree K.text reader.old.arena root }
    requires budget { length key.now + 1 ≤ reader.old.budget }
    ensures answer { EachTree K.text reader.old.arena root (λ tree.
        scan tree key.now ≡ found result key.now) }
    ensures path { EachTree K.text reader.old.arena root (λ tree.
        IfSome result (λ (leaf, path). IsPathTo tree (leaf_pointer leaf) path)) }
    ensures leads { IfSome result (λ (leaf, path).
        LeadsTo reader.new.arena root path (leaf_pointer leaf)) }
    ensures visits { EachTree K.text reader.old.arena root (λ tree.
        reader.new.budget + length (met PREFIX_LEN tree key.now) ≡ reader.old.budget) }
    ensures visits_bounded { EachTree K.text reader.old.arena root (λ tree.
        length (met PREFIX_LEN tree key.now) ≤ length key.now + 1) }
    ensures visits_of_found { EachTree K.text reader.old.arena root (λ tree.
        IfSome result (λ (leaf, path). (steps : Steps K V PREFIX_LEN) →
        IsWay tree steps (leaf_pointer leaf) →
        length (met PREFIX_LEN tree key.now) ≡ length steps + 1)) }
    ensures same_arena { reader.new.arena ≡ reader.old.arena }
    ensures held { IfSome result (λ (leaf, path).
        held reader.new.arena (leaf_pointer leaf) ≢ Nothing) }
{
    let mut search = TreePathSearch::default();
    let mut at = root;
    let mut depth = 0;
    'way: loop {
        let node = reader.look(at);
        if let NodeRef::LeafNode(leaf) = node {
            return if leaf.matches_full_key(key) {
                Some((at.cast().unwrap(), search.finish()))
            } else {
                None
            };
        }
        let (index, child) = next_child(node, key, depth)?;
        search.visit_inner_node(at, key[index]);
        depth = index + 1;
        at = child;
    }
}
