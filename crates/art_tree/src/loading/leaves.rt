//! Loading: entries to linked leaves.
ghost use Rattle.std.specs.Prelude.{◌≡◌, ◌+◌, ◌≤◌, [], vec_len, vec_capacity};
ghost use Rattle.art_header.specs.declared.node_type.NodeType.TheVariants.{Leaf};
ghost use Rattle.art_arena.specs.Arena.{room, SameOtherRoom};
ghost use Rattle.art_steps.specs.Plan.{AreLoadable};
ghost use Rattle.art_steps.specs.Refusals.{texts_of};
ghost use Rattle.art_steps.specs.Loading.{AreLinked};

use art_arena::{LeafPtr, NodeArena};
use art_bytes::AsBytes;
use art_links::LeafLinks;
use art_nodes::LeafNode;

/// Moves the entries into leaves, each linked after the one before. There must be spare capacity
/// for all.
pub(crate) fn link_leaves<K: AsBytes, V, const PREFIX_LEN: usize>(
    arena: &mut NodeArena<K, V, PREFIX_LEN>,
    entries: Vec<(K, V)>,
    leaves: &mut Vec<LeafPtr<K, V, PREFIX_LEN>>,
)
    requires loadable { AreLoadable (texts_of K.text entries.items) }
    requires no_leaves { leaves.old.items ≡ [] }
    requires memory { vec_len entries ≤ vec_capacity leaves.old }
    requires room { vec_len entries ≤ room arena.old Leaf }
    ensures linked { AreLinked arena.old arena.new entries.items leaves.new.items }
    ensures leaf_room { room arena.old Leaf ≡ room arena.new Leaf + vec_len entries }
    ensures other_room { SameOtherRoom arena.old arena.new Leaf }
{
    let mut rest = entries.into_iter();
    'moving: while let Some((key, value)) = rest.next() {
        let leaf = arena.allocate_reserved(LeafNode::with_no_siblings(key, value));
        if let Some(sibling) = leaves.last() {
            LeafNode::insert_after(arena, leaf, *sibling);
        }
        leaves.push_reserved(leaf);
    }
    rest.destroy_empty();
}
