//! Spare capacity of an [`ArtTree`] for entries and nodes that come.
ghost use Rattle.std.specs.Prelude.{◌≡◌, ◌≢◌, ◌≤◌, OnOk, IsOk};
ghost use Rattle.art_arena.specs.Arena.{room, SameNodes, SameOtherCapacity, SameOtherRoom, SameRoom};
ghost use Rattle.art_steps.specs.Dictionary.{SameEntries};
ghost use Rattle.art_steps.specs.NodeCounts.{most_nodes};
ghost use Rattle.art_steps.specs.Room.{HasEntryRoom, HasRoomOf};

use crate::tree::ArtTree;
use art_bytes::AsBytes;
use art_nodes::NodeType;
use std::alloc::AllocError;

// How many nodes of a kind a tree of so many entries has at most: an inner node has two children or
// more, one of a larger kind at least 5, 17 or 49.
fn most_of(kind: NodeType, entries: usize) -> usize
    ensures { result ≡ most_nodes kind entries }
{
    match kind {
        NodeType::Leaf | NodeType::Node4 => entries,
        NodeType::Node16 => entries / 4,
        NodeType::Node48 => entries / 16,
        NodeType::Node256 => entries / 48,
    }
}

impl<K: AsBytes, V, const PREFIX_LEN: usize> ArtTree<K, V, PREFIX_LEN> {
    /// Reserves memory for `additional` more nodes of the kind, as [`NodeArena::reserve`] does. Every
    /// entry, every node and the root are unchanged.
    ///
    /// With spare capacity for one node of each kind, no allocation fails in
    /// [`insert`](Self::insert) and [`remove`](Self::remove).
    ///
    /// [`NodeArena::reserve`]: art_arena::NodeArena::reserve
    pub fn reserve(&mut self, kind: NodeType, additional: usize) -> Result<(), AllocError>
        ensures room { OnOk result (additional ≤ room self.new.arena kind) }
        ensures succeeds { additional ≤ room self.old.arena kind → IsOk result }
        ensures had_room { additional ≤ room self.old.arena kind →
            SameRoom self.old.arena self.new.arena }
        ensures no_less_room { room self.old.arena kind ≤ room self.new.arena kind }
        ensures other_room { SameOtherRoom self.old.arena self.new.arena kind }
        ensures other_capacity { SameOtherCapacity self.old.arena self.new.arena kind }
        ensures same_entries { SameEntries K.text self.old.arena self.new.arena }
        ensures nodes_kept { SameNodes self.old.arena self.new.arena }
        ensures root_kept { self.new.root ≡ self.old.root }
    {
        self.arena.reserve(kind, additional)
    }

    // Reserves memory for so many more entries, in nodes of one kind.
    fn reserve_kind(&mut self, kind: NodeType, additional: usize) -> Result<(), AllocError>
        ensures room { OnOk result (HasRoomOf kind self.new.arena additional) }
        ensures other_room { (other : _) → other ≢ kind → HasRoomOf other self.old.arena additional →
            HasRoomOf other self.new.arena additional }
        ensures same_entries { SameEntries K.text self.old.arena self.new.arena }
        ensures nodes_kept { SameNodes self.old.arena self.new.arena }
        ensures root_kept { self.new.root ≡ self.old.root }
    {
        let _root = self.root();
        let Some(entries) = self.len().checked_add(additional) else {
            return Err(AllocError);
        };
        self.reserve(kind, additional.min(most_of(kind, entries)))
    }

    /// Reserves memory for `additional` more entries: as many inserts of new keys, or removals, take
    /// none, whatever their keys. For each kind of node that is spare capacity for as many nodes, or
    /// capacity for all nodes of the kind that a tree of so many entries can have: for n entries at
    /// most n `Node4`, n/4 `Node16`, n/16 `Node48` and n/48 `Node256`. Each kind has memory of its own,
    /// and which of them the keys need is not known, so no less suffices. Every entry, every node and
    /// the root are unchanged.
    ///
    /// (from crates/art_map_tests/src/map/reserved_entries.rt)
    /// ```rust
    /// tree.reserve_entries(entries.len())?;
    /// ```
    pub fn reserve_entries(&mut self, additional: usize) -> Result<(), AllocError>
        ensures room { OnOk result (HasEntryRoom self.new.arena additional) }
        ensures same_entries { SameEntries K.text self.old.arena self.new.arena }
        ensures nodes_kept { SameNodes self.old.arena self.new.arena }
        ensures root_kept { self.new.root ≡ self.old.root }
    {
        self.reserve_kind(NodeType::Leaf, additional)?;
        self.reserve_kind(NodeType::Node4, additional)?;
        self.reserve_kind(NodeType::Node16, additional)?;
        self.reserve_kind(NodeType::Node48, additional)?;
        self.reserve_kind(NodeType::Node256, additional)
    }
}
