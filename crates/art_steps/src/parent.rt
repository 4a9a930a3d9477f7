//! The children of an inner node of an arena, counted, and one of them replaced.
ghost use Rattle.std.specs.Prelude.{◌≡◌, ◌≢◌, ◌≤◌, length};
ghost use Rattle.art_header.specs.NodeType.{most_children};
ghost use Rattle.art_header.specs.declared.node_type.NodeType.TheVariants.{Leaf};
ghost use Rattle.art_nodes.specs.Inner.{Inner};
ghost use Rattle.art_nodes.specs.Pointers.{node_kind};
ghost use Rattle.art_arena.specs.Arena.{held, HeldInner, Nothing, room, SameRoom};
ghost use Rattle.art_steps.specs.ChildPlaces.{HasChildUnder, IsChildOrRoot};

use art_arena::NodeArena;
use art_nodes::OpaqueNodePtr;

/// How many children the inner node at the pointer has.
pub fn num_children<K, V, const PREFIX_LEN: usize>(
    arena: &NodeArena<K, V, PREFIX_LEN>,
    pointer: OpaqueNodePtr<K, V, PREFIX_LEN>,
) -> usize
    requires held { held arena.now pointer ≢ Nothing }
    requires inner { node_kind pointer ≢ Leaf }
    ensures count { (node : Inner _) → held arena.now pointer ≡ HeldInner node →
        result ≡ length node.children }
    ensures fits { (node : Inner _) → held arena.now pointer ≡ HeldInner node →
        result ≤ most_children (node_kind pointer) }
{
    arena.header(pointer).unwrap().num_children()
}

/// Puts a node where another one was, under its parent or as the root. Returns the root. Writes nothing
/// where it is the same node.
pub fn put_child_or_root<K, V, const PREFIX_LEN: usize>(
    arena: &mut NodeArena<K, V, PREFIX_LEN>,
    root: OpaqueNodePtr<K, V, PREFIX_LEN>,
    parent: Option<(OpaqueNodePtr<K, V, PREFIX_LEN>, u8)>,
    before: OpaqueNodePtr<K, V, PREFIX_LEN>,
    node: OpaqueNodePtr<K, V, PREFIX_LEN>,
) -> OpaqueNodePtr<K, V, PREFIX_LEN>
    requires { HasChildUnder arena.old parent before }
    ensures placed { IsChildOrRoot arena.old arena.new parent node root result }
    ensures room { SameRoom arena.old arena.new }
{
    let Some((parent, byte)) = parent else {
        return node;
    };
    if node == before {
        return root;
    }
    arena.write_child(parent, byte, node);
    root
}
