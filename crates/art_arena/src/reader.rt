//! A reader of an arena, which counts the node visits.
ghost use Rattle.std.specs.Prelude.{◌≡◌, ◌≢◌, ◌<◌, ◌+◌};
ghost use Rattle.art_arena.specs.Arena.{held, Nothing};
ghost use Rattle.art_nodes.specs.Pointers.{node_kind};
ghost use Rattle.art_arena.specs.Reader.{shown, shown_kind};

use crate::arena::NodeArena;
use art_nodes::{InnerNode4, InnerNode16, InnerNode48, InnerNode256, LeafNode, OpaqueNodePtr};
use std::marker::Model;

/// A reference to a node of one of five types. Callers name it [`NodeRef`]; see [`ArenaReader`] for
/// an example.
#[derive_where(Clone, Copy)]
pub enum AnyNodeRef<'a, A, B, C, D, L> {
    /// An inner node of kind `Node4`.
    Node4(&'a A),
    /// An inner node of kind `Node16`.
    Node16(&'a B),
    /// An inner node of kind `Node48`.
    Node48(&'a C),
    /// An inner node of kind `Node256`.
    Node256(&'a D),
    /// A leaf.
    LeafNode(&'a L),
}

/// A reference to a node of any kind, for as long as the arena is borrowed. See [`ArenaReader`] for
/// an example.
pub type NodeRef<'a, K, V, const PREFIX_LEN: usize> = AnyNodeRef<
    'a,
    InnerNode4<K, V, PREFIX_LEN>,
    InnerNode16<K, V, PREFIX_LEN>,
    InnerNode48<K, V, PREFIX_LEN>,
    InnerNode256<K, V, PREFIX_LEN>,
    LeafNode<K, V, PREFIX_LEN>,
>;

/// A borrowed arena and a budget: how many more node visits are allowed. Callers name it
/// [`ArenaReader`].
#[derive(Drop)]
pub struct Reader<'a, A> {
    arena: &'a A,
    budget: usize,
}

impl<'a, A> Model for Reader<'a, A> {
    ghost use Rattle.art_arena.specs.ReaderValue.{Reader as Shown};

    ghost Value = { Shown A };

    ghost view = { λ r. record { arena = r.arena.now; budget = r.budget } };
}

/// A borrowed arena whose node visits are counted. Each [`look`](ArenaReader::look) is one visit
/// and takes one of the budget. The reader gives no other access to the arena.
///
/// The root of a loaded tree, by one visit:
///
/// (from tests/art_tree_tests/tree/loading.rt.txt)
/// ```rust
/// let entries = vec![in alloc; (*b"abc1", 0), (*b"abc2", 1)]?;
/// let root = load(alloc, arena, entries).map_err(|fault| fault.refusal)?;
/// let mut reader = ArenaReader::with_budget(arena, 3);
/// let NodeRef::Node4(node) = reader.look(root) else {
///     panic!(rt; "no Node4");
/// };
/// ```
pub type ArenaReader<'a, K, V, const PREFIX_LEN: usize> = Reader<'a, NodeArena<K, V, PREFIX_LEN>>;

impl<'a, K, V, const PREFIX_LEN: usize> ArenaReader<'a, K, V, PREFIX_LEN> {
    /// A reader of the arena that allows `budget` node visits.
    pub fn with_budget(arena: &'a NodeArena<K, V, PREFIX_LEN>, budget: usize) -> Self
        ensures arena { result.arena ≡ arena.now }
        ensures budget { result.budget ≡ budget }
    {
        Reader { arena, budget }
    }

    /// How many node visits are left.
    pub fn remaining(&self) -> usize
        ensures { result ≡ self.now.budget }
    {
        self.budget
    }

    /// Visits the node at this pointer and returns it. The arena must hold one there, and the
    /// budget must be above 0; it is one less afterwards.
    pub fn look(
        &mut self,
        pointer: OpaqueNodePtr<K, V, PREFIX_LEN>,
    ) -> NodeRef<'a, K, V, PREFIX_LEN>
        requires held { held self.old.arena pointer ≢ Nothing }
        requires budget { 0 < self.old.budget }
        ensures node { held self.old.arena pointer ≡ shown result }
        ensures kind { shown_kind result ≡ node_kind pointer }
        ensures counted { self.new.budget + 1 ≡ self.old.budget }
        ensures same_arena { self.new.arena ≡ self.old.arena }
    {
        self.budget -= 1;
        self.arena.node_ref(pointer)
    }
}
