//! A tree with its arena, as one value.
ghost use Rattle.std.specs.Prelude.{◌≡◌, None};
ghost use Rattle.std.specs.declared.alloc.Global.{Global};
ghost use Rattle.art_arena.specs.Arena.{room};
ghost use Rattle.art_steps.specs.Art.{IsArt};
ghost use Rattle.art_steps.specs.Dictionary.{HasKeys, IsEmpty};

mod all_entries;
mod changes;
mod ends;
mod reading;
mod room;

use art_arena::{LeafPtr, NodeArena};
use art_bytes::AsBytes;
use art_nodes::OpaqueNodePtr;
use art_search::TreePath;
use std::alloc::Global;
use std::marker::Model;

/// The invariant that a [`Rooted`] keeps for its arena and its root. [`NodeArena`] implements it.
/// See [`ArtTree`] for an example.
pub trait HoldsOneTree<R>: Sized {
    ghost use Rattle.std.specs.Prelude.{Option};

    /// The arena holds the tree at this root, if there is one, and nothing else, and the laws of
    /// keys hold for each of its keys.
    ghost holds_one_tree: { Self → Option R → Type 0 };
}

impl<K: AsBytes, V, const PREFIX_LEN: usize> HoldsOneTree<OpaqueNodePtr<K, V, PREFIX_LEN>>
    for NodeArena<K, V, PREFIX_LEN> {
    ghost use Rattle.art_steps.specs.Art.{IsArt};
    ghost use Rattle.art_steps.specs.Dictionary.{HasKeys};

    ghost holds_one_tree = { λ arena root.
        IsArt K.text arena root × HasKeys K.text K.is_key arena };
}

/// An arena and the root of its one tree. Callers name it [`ArtTree`], which has an example.
#[derive(Drop)]
pub struct Rooted<A: HoldsOneTree<R>, R> {
    arena: A,
    root: Option<R>,
    // That of the arena, for another one in its place.
    alloc: Global,
}

impl<A: HoldsOneTree<R>, R> Model for Rooted<A, R> {
    ghost use Rattle.art_steps.specs.Art.{Art};

    ghost Value = { Art A R };

    ghost view = { λ a. record { arena = a.arena; root = a.root } };

    ghost invariant = { λ a. A.holds_one_tree a.arena a.root };
}

/// A tree with its arena: a dictionary with at most one entry for each key. No call has a condition but
/// [`as_key_ref_value_mut`](Rooted::as_key_ref_value_mut) and [`remove_leaf`](Rooted::remove_leaf): the
/// arena holds the leaf.
///
/// A contract sees the arena and the root. The dictionary is what the arena's leaves hold
/// (`entry_at`). The arena holds one tree and nothing else: well-formed, with the smallest kinds
/// (each inner node is of the smallest kind that holds its children), its leaves linked in the
/// order of their key bytes.
///
/// The type names its nodes, as [`NodeArena`] does.
///
/// A tree with the entry (`abc1`, 10) gets another one:
///
/// (from crates/art_tree_tests/src/tree/tree_examples.rt)
/// ```rust
/// tree.insert(StrKey::new("abc2"), 20)
///     .map_err(|fault| fault.refusal)?;
/// assert!(rt; tree.get(b"abc2") == Some(&20));
/// // ..
/// let Some((key, value)) = tree.remove(b"abc1")? else {
///     panic!(rt; "absent");
/// };
/// assert!(rt; key.get() == "abc1" && value == 10);
/// ```
pub type ArtTree<K, V, const PREFIX_LEN: usize> = Rooted<
    NodeArena<K, V, PREFIX_LEN>,
    OpaqueNodePtr<K, V, PREFIX_LEN>,
>;

// A leaf of a tree, and the path to it.
type FoundLeaf<K, V, const PREFIX_LEN: usize> = (
    LeafPtr<K, V, PREFIX_LEN>,
    TreePath<K, V, PREFIX_LEN>,
);

impl<K: AsBytes, V, const PREFIX_LEN: usize> ArtTree<K, V, PREFIX_LEN> {
    /// A tree with no entries. Takes no memory.
    pub fn new(alloc: Global) -> Self
        ensures no_entry { IsEmpty K.text result.arena }
        ensures no_root { result.root ≡ None }
        ensures no_room { (kind : _) → room result.arena kind ≡ 0 }
    {
        Rooted {
            arena: NodeArena::new(alloc),
            root: None,
            alloc,
        }
    }

    /// The arena of the nodes.
    pub fn arena(&self) -> &NodeArena<K, V, PREFIX_LEN>
        ensures arena { result.now ≡ self.now.arena }
        ensures one_tree { IsArt K.text self.now.arena self.now.root }
        ensures keys { HasKeys K.text K.is_key self.now.arena }
    {
        &self.arena
    }

    /// The root, or None where there is no entry.
    pub fn root(&self) -> Option<OpaqueNodePtr<K, V, PREFIX_LEN>>
        ensures root { result ≡ self.now.root }
        ensures one_tree { IsArt K.text self.now.arena self.now.root }
    {
        self.root
    }

    /// The allocator of the nodes: the one value of its type.
    pub fn alloc(&self) -> Global
        ensures { (other : Global) → result ≡ other }
    {
        self.alloc
    }

    /// The arena alone, with all nodes of the tree. Takes constant time and no memory.
    pub fn into_arena(self) -> NodeArena<K, V, PREFIX_LEN>
        ensures { result ≡ self.arena }
    {
        let Rooted {
            arena,
            root: _,
            alloc: _,
        } = self;
        arena
    }
}
