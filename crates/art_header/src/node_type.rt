//! The kinds of nodes.
ghost use Rattle.std.specs.Prelude.{◌≡◌, ◌≢◌, ◌<◌, ◌↔◌, IsTrue};
ghost use Rattle.std.specs.Range.{range_inclusive_start, range_inclusive_end, range_inclusive_exhausted};
ghost use Rattle.art_header.specs.NodeType.{least_children, most_children, grown_kind, shrunk_kind};

use std::ops::RangeInclusive;

/// The kind of a node: an inner node by its greatest number of children, or a leaf. The kinds are
/// ordered as they are listed.
///
/// (from crates/art_node_tests/src/header/node_type.rt)
/// ```rust
/// let rows = [
///     (NodeType::Node4, 2, 4),
///     (NodeType::Node16, 5, 16),
///     // ..
/// ];
/// for (row, (kind, least, most)) in rows.into_iter().enumerate() {
///     assert!(rt; *kind.capacity_range().start() == least, "row {row}");
///     assert!(rt; *kind.capacity_range().end() == most, "row {row}");
/// }
/// ```
#[derive(Clone, Copy, Debug, PartialEq, Eq, PartialOrd, Ord, Hash)]
pub enum NodeType {
    /// At most 4 children; 2 to 4 in a tree.
    Node4,
    /// At most 16 children; 5 to 16 in a tree.
    Node16,
    /// At most 48 children; 17 to 48 in a tree.
    Node48,
    /// At most 256 children; 49 to 256 in a tree.
    Node256,
    /// A key and a value, and no children.
    Leaf,
}

impl NodeType {
    /// The range of the number of children that a node of this kind has in a tree. That of a leaf
    /// is 0 to 0.
    ///
    /// The kinds are those of Leis, Kemper and Neumann, "The Adaptive Radix Tree" (2013). The least
    /// number of each is one above the greatest of the next smaller kind.
    pub fn capacity_range(self) -> RangeInclusive<usize>
        ensures start { range_inclusive_start result ≡ least_children self }
        ensures end { range_inclusive_end result ≡ most_children self }
        ensures fresh { ¬ (IsTrue (range_inclusive_exhausted result)) }
    {
        match self {
            NodeType::Node4 => 2..=4,
            NodeType::Node16 => 5..=16,
            NodeType::Node48 => 17..=48,
            NodeType::Node256 => 49..=256,
            NodeType::Leaf => 0..=0,
        }
    }

    /// The next greater kind of inner node. `Node256` and `Leaf` have none and are returned
    /// unchanged.
    pub fn grown(self) -> Self
        ensures { result ≡ grown_kind self }
    {
        match self {
            NodeType::Node4 => NodeType::Node16,
            NodeType::Node16 => NodeType::Node48,
            NodeType::Node48 | NodeType::Node256 => NodeType::Node256,
            NodeType::Leaf => NodeType::Leaf,
        }
    }

    /// The next smaller kind of inner node. `Node4` and `Leaf` have none and are returned
    /// unchanged.
    pub fn shrunk(self) -> Self
        ensures { result ≡ shrunk_kind self }
    {
        match self {
            NodeType::Node4 | NodeType::Node16 => NodeType::Node4,
            NodeType::Node48 => NodeType::Node16,
            NodeType::Node256 => NodeType::Node48,
            NodeType::Leaf => NodeType::Leaf,
        }
    }

    /// Whether an inner node of this kind with `num_children` children is to become a node of the
    /// next smaller kind. False for `Node4`, which has no smaller kind.
    ///
    /// Condition: the kind is not `Leaf`.
    pub fn should_shrink_inner_node(self, num_children: usize) -> bool
        requires { self ≢ NodeType.Leaf }
        ensures smallest { self ≡ NodeType.Node4 → ¬ (IsTrue result) }
        ensures below_range { self ≢ NodeType.Node4 →
            (IsTrue result ↔ (num_children < least_children self)) }
    {
        match self {
            NodeType::Node4 => false,
            _ => num_children < *self.capacity_range().start(),
        }
    }
}
