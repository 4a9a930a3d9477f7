//! Paths: the last two nodes on the way to a leaf.
ghost use Rattle.std.specs.Prelude.{◌≡◌, ◌↔◌, [], ◌∷◌, ◌++◌};
ghost use Rattle.art_search.specs.Paths.{Steps, path_of, HasVisited};

use art_nodes::OpaqueNodePtr;
use std::marker::Model;

/// Where a leaf is in its tree: its parent and its grandparent, if it has them, each with the byte
/// that was taken from it.
///
/// The path to `abc2` in a tree of `abc1` and `abc2`:
///
/// (from crates/art_tree_tests/src/tree/tree_examples.rt)
/// ```rust
/// let TreePath::ChildOfRoot {
///     parent,
///     child_key_byte,
/// } = path
/// else {
///     panic!(rt; "another path");
/// };
/// assert!(rt; child_key_byte == b'2');
/// ```
#[derive_where(Clone, Copy)]
pub enum TreePath<K, V, const PREFIX_LEN: usize> {
    /// The leaf is the root.
    Root,
    /// The leaf is a child of the root.
    ChildOfRoot {
        /// The root.
        parent: OpaqueNodePtr<K, V, PREFIX_LEN>,
        /// The byte of the leaf in the root.
        child_key_byte: u8,
    },
    /// The leaf has a parent and a grandparent.
    Normal {
        /// The grandparent.
        grandparent: OpaqueNodePtr<K, V, PREFIX_LEN>,
        /// The byte of the parent in the grandparent.
        parent_key_byte: u8,
        /// The parent.
        parent: OpaqueNodePtr<K, V, PREFIX_LEN>,
        /// The byte of the leaf in the parent.
        child_key_byte: u8,
    },
}

/// How many inner nodes a search remembers.
#[derive(Clone, Copy)]
enum Visited {
    NoNode,
    OneNode,
    TwoNodes,
}

/// Remembers the last two inner nodes that a search visits, each with the byte taken from it.
///
/// (from tests/art_tree_tests/tree/path.rt.txt)
/// ```rust
/// let mut visits = TreePathSearch::default();
/// visits.visit_inner_node(node(1), 97);
/// visits.visit_inner_node(node(2), 98);
/// visits.visit_inner_node(node(3), 99);
/// let path = visits.finish();
/// let same = path;
/// let last_two = (Some((node(3), 99)), Some((node(2), 98)));
/// assert!(rt; above(path) == last_two);
/// ```
#[derive(Drop)]
pub struct TreePathSearch<K, V, const PREFIX_LEN: usize> {
    // How many of the two nodes below are visited. Only `finish` makes a path of them: a path kept
    // here would be copied whole at each visit, with its padding.
    visited: Visited,
    grandparent: OpaqueNodePtr<K, V, PREFIX_LEN>,
    parent_key_byte: u8,
    parent: OpaqueNodePtr<K, V, PREFIX_LEN>,
    child_key_byte: u8,
}

/// Contracts see the path that a search would return if it finished.
impl<K, V, const PREFIX_LEN: usize> Model for TreePathSearch<K, V, PREFIX_LEN> {
    ghost use Rattle.art_search.specs.Paths.{finished_with};
    ghost use Rattle.art_search.specs.declared.path.TreePath.{TreePath};

    ghost Value = { TreePath K V PREFIX_LEN };

    ghost view = { λ a.
        finished_with a.visited a.grandparent a.parent_key_byte a.parent a.child_key_byte };
}

/// A search that has visited no node.
impl<K, V, const PREFIX_LEN: usize> Default for TreePathSearch<K, V, PREFIX_LEN> {
    ghost use Rattle.std.specs.Prelude.{[]};
    ghost use Rattle.art_search.specs.Paths.{HasVisited};

    ghost is_default = { λ search. HasVisited search [] };

    fn default() -> Self {
        TreePathSearch {
            visited: Visited::NoNode,
            grandparent: OpaqueNodePtr::default(),
            parent_key_byte: 0,
            parent: OpaqueNodePtr::default(),
            child_key_byte: 0,
        }
    }
}

impl<K, V, const PREFIX_LEN: usize> TreePathSearch<K, V, PREFIX_LEN> {
    /// Visits an inner node and takes this byte from it.
    pub fn visit_inner_node(&mut self, inner_node: OpaqueNodePtr<K, V, PREFIX_LEN>, key_byte: u8)
        ensures { (steps : Steps K V PREFIX_LEN) → HasVisited self.old steps →
            HasVisited self.new (steps ++ (inner_node, key_byte) ∷ []) }
    {
        self.visited = match self.visited {
            Visited::NoNode => Visited::OneNode,
            Visited::OneNode | Visited::TwoNodes => Visited::TwoNodes,
        };
        self.grandparent = self.parent;
        self.parent_key_byte = self.child_key_byte;
        self.parent = inner_node;
        self.child_key_byte = key_byte;
    }

    /// The path that the visits make.
    pub fn finish(self) -> TreePath<K, V, PREFIX_LEN>
        ensures { (steps : Steps K V PREFIX_LEN) → HasVisited self steps ↔ (result ≡ path_of steps) }
    {
        match self.visited {
            Visited::NoNode => TreePath::Root,
            Visited::OneNode => TreePath::ChildOfRoot {
                parent: self.parent,
                child_key_byte: self.child_key_byte,
            },
            Visited::TwoNodes => TreePath::Normal {
                grandparent: self.grandparent,
                parent_key_byte: self.parent_key_byte,
                parent: self.parent,
                child_key_byte: self.child_key_byte,
            },
        }
    }
}
