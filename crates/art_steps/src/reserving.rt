//! Insertion: spare capacity for the nodes that it adds.
ghost use Rattle.std.specs.Prelude.{◌≢◌, ◌<◌, ◌≤◌, OnOk, OnErr};
ghost use Rattle.art_header.specs.declared.node_type.NodeType.TheVariants.{Leaf, Node4};
ghost use Rattle.art_nodes.specs.Pointers.{node_kind};
ghost use Rattle.art_arena.specs.Arena.{room, SameNodes};
ghost use Rattle.art_steps.specs.Edits.{HasRoomToGrow, WhetherFull};
ghost use Rattle.art_steps.specs.Reserving.{LacksRoomForChild, LacksRoomForFork, LacksRoomToGrow};
ghost use Rattle.art_steps.specs.Room.{GrowsOnlyWhere};

use art_arena::NodeArena;
use art_nodes::{NodeType, OpaqueNodePtr};
use std::alloc::AllocError;

// Makes spare capacity for the node that the inner node at the pointer grows to where it is full.
fn reserve_growth<K, V, const PREFIX_LEN: usize>(
    arena: &mut NodeArena<K, V, PREFIX_LEN>,
    pointer: OpaqueNodePtr<K, V, PREFIX_LEN>,
    full: bool,
) -> Result<(), AllocError>
    requires inner { node_kind pointer ≢ Leaf }
    requires full { WhetherFull arena.old pointer full }
    ensures room { OnOk result (HasRoomToGrow arena.new pointer) }
    ensures nodes_kept { SameNodes arena.old arena.new }
    ensures leaf_room { room arena.old Leaf ≤ room arena.new Leaf }
    ensures no_room { OnErr result ((kind : _) × LacksRoomToGrow arena.old pointer kind) }
    ensures memory { GrowsOnlyWhere arena.old arena.new (LacksRoomToGrow arena.old pointer) }
{
    if !full {
        return Ok(());
    }
    arena.reserve(pointer.node_type().grown(), 1)
}

/// Makes spare capacity for a new leaf and, where the node at the pointer is full, for the node that
/// it grows to.
pub fn reserve_for_child<K, V, const PREFIX_LEN: usize>(
    arena: &mut NodeArena<K, V, PREFIX_LEN>,
    pointer: OpaqueNodePtr<K, V, PREFIX_LEN>,
    full: bool,
) -> Result<(), AllocError>
    requires inner { node_kind pointer ≢ Leaf }
    requires full { WhetherFull arena.old pointer full }
    ensures leaf_room { OnOk result (0 < room arena.new Leaf) }
    ensures room { OnOk result (HasRoomToGrow arena.new pointer) }
    ensures nodes_kept { SameNodes arena.old arena.new }
    ensures no_room { OnErr result ((kind : _) × LacksRoomForChild arena.old pointer kind) }
    ensures memory { GrowsOnlyWhere arena.old arena.new (LacksRoomForChild arena.old pointer) }
{
    arena.reserve(NodeType::Leaf, 1)?;
    reserve_growth(arena, pointer, full)
}

/// Makes spare capacity for a new leaf and for its new parent.
pub fn reserve_for_fork<K, V, const PREFIX_LEN: usize>(
    arena: &mut NodeArena<K, V, PREFIX_LEN>,
) -> Result<(), AllocError>
    ensures leaf_room { OnOk result (0 < room arena.new Leaf) }
    ensures node_room { OnOk result (0 < room arena.new Node4) }
    ensures nodes_kept { SameNodes arena.old arena.new }
    ensures no_room { OnErr result ((kind : _) × LacksRoomForFork arena.old kind) }
    ensures memory { GrowsOnlyWhere arena.old arena.new (LacksRoomForFork arena.old) }
{
    arena.reserve(NodeType::Leaf, 1)?;
    arena.reserve(NodeType::Node4, 1)
}
