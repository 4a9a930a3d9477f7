//! Loading: a tree from ascending entries.
ghost use Rattle.std.specs.Prelude.{◌≡◌, ◌≢◌, ◌<◌, ◌≤◌, [], length, map, All, vec_len, vec_capacity, IfOk, IfErr, OnOk, OnErr};
ghost use Rattle.art_header.specs.declared.node_type.NodeType.TheVariants as NodeType;
ghost use Rattle.art_nodes.specs.declared.pointers.OpaqueNodePtr.{OpaqueNodePtr as Pointer};
ghost use Rattle.art_arena.specs.Arena.{room, SameNodes};
ghost use Rattle.art_arena.specs.Trees.{Tree};
ghost use Rattle.art_steps.specs.Plan.{AreLoadable, IsPlanOf, needed};
ghost use Rattle.art_steps.specs.Refusals.{HaveNoFault, IsDue, texts_of};
ghost use Rattle.art_steps.specs.declared.check.LoadRefusal.TheVariants.{OutOfMemory};
ghost use Rattle.art_steps.specs.Loading.{IsLoaded};

mod leaves;
mod reloading;

use crate::loading::leaves::link_leaves;
use art_arena::{LeafPtr, NodeArena};
use art_bytes::AsBytes;
use art_nodes::{NodeType, OpaqueNodePtr};
use art_steps::{KeyIn, LoadFault, LoadRefusal, Step, count_nodes, plan, raise, refusal_of};
pub(crate) use reloading::reload;
use std::alloc::{AllocError, Global};

// What a load needs besides the arena: the steps, and memory for the leaves and the pending trees.
struct Prepared<K, V, const PREFIX_LEN: usize> {
    steps: Vec<Step>,
    leaves: Vec<LeafPtr<K, V, PREFIX_LEN>>,
    pending: Vec<(u8, OpaqueNodePtr<K, V, PREFIX_LEN>)>,
}

/// Makes a tree of entries whose keys ascend and of which none is a prefix of another, and returns
/// its root. The arena then holds the tree's nodes besides what it held: a leaf for each entry,
/// linked in their order, and above them inner nodes, each of the smallest kind that holds its
/// children.
///
/// An empty list of entries is refused ([`LoadRefusal::Empty`]), and so is a key of 2^32 bytes or
/// more, a key that is not below the next one, and one that is a proper prefix of the next one. The
/// first entry at fault decides, and where one entry has several faults, the one that
/// [`LoadRefusal`] lists first. For such a fault no memory is taken for the arena.
/// [`LoadRefusal::OutOfMemory`] is returned only where the entries have no fault, before any of
/// them is moved. After each refusal every node of the arena is unchanged, and the entries are
/// returned.
///
/// Takes time linear in the key bytes of all entries together. The allocator is for working memory,
/// which is freed before the call returns; the nodes take memory of the arena's own allocator. See
/// [`find_leaf`](crate::find_leaf) and [`LoadFault`] for examples.
pub fn load<K: AsBytes, V, const PREFIX_LEN: usize>(
    alloc: Global,
    arena: &mut NodeArena<K, V, PREFIX_LEN>,
    entries: Vec<(K, V)>,
) -> Result<OpaqueNodePtr<K, V, PREFIX_LEN>, LoadFault<K, V>>
    ensures loaded { IfOk result
        (λ root. (tree : Tree (Pointer K V PREFIX_LEN))
        × IsLoaded K.text arena.old arena.new entries.items root tree) }
    ensures no_fault { OnOk result (HaveNoFault (texts_of K.text entries.items)) }
    ensures keys { OnOk result (All (λ entry. K.is_key entry.0) entries.items) }
    ensures refusal_due { IfErr result
        (λ fault. IsDue (texts_of K.text entries.items) fault.refusal) }
    ensures entries_back { IfErr result (λ fault. fault.entries ≡ entries) }
    ensures nodes_kept { OnErr result (SameNodes arena.old arena.new) }
    ensures untouched { IfErr result
        (λ fault. fault.refusal ≢ OutOfMemory → arena.new ≡ arena.old) }
{
    if let Some(refusal) = refusal_of(&entries) {
        return Err(LoadFault { refusal, entries });
    }
    match prepare(alloc, arena, &(), &entries) {
        Ok(prepared) => Ok(make(arena, entries, prepared)),
        Err(AllocError) => Err(LoadFault {
            refusal: LoadRefusal::OutOfMemory,
            entries,
        }),
    }
}

// Plans the tree of what has these keys, and reserves all memory that the load needs.
fn prepare<C, E: KeyIn<C>, K: AsBytes, V, const PREFIX_LEN: usize>(
    alloc: Global,
    arena: &mut NodeArena<K, V, PREFIX_LEN>,
    context: &C,
    entries: &[E],
) -> Result<Prepared<K, V, PREFIX_LEN>, AllocError>
    requires some { 0 < length entries.now }
    requires there { All (E.is_in context.now) entries.now }
    requires loadable { AreLoadable (map (E.text_in context.now) entries.now) }
    ensures nodes_kept { SameNodes arena.old arena.new }
    ensures plan { IfOk result (λ p. IsPlanOf (map (E.text_in context.now) entries.now) p.steps.items) }
    ensures leaves { IfOk result
        (λ p. (p.leaves.items ≡ []) × (length entries.now ≤ vec_capacity p.leaves)) }
    ensures pending { IfOk result
        (λ p. (p.pending.items ≡ []) × (length entries.now ≤ vec_capacity p.pending)) }
    ensures room { IfOk result
        (λ p. (kind : _) → kind ≢ NodeType.Leaf → needed kind p.steps.items ≤ room arena.new kind) }
    ensures leaf_room { OnOk result (length entries.now ≤ room arena.new NodeType.Leaf) }
{
    let steps = plan(alloc, context, entries)?;
    let leaves = Vec::with_capacity(alloc, entries.len())?;
    let pending = Vec::with_capacity(alloc, entries.len())?;
    arena.reserve(NodeType::Leaf, entries.len())?;
    reserve_nodes(arena, &steps)?;
    Ok(Prepared {
        steps,
        leaves,
        pending,
    })
}

// Makes spare capacity for every inner node of a plan.
fn reserve_nodes<K: AsBytes, V, const PREFIX_LEN: usize>(
    arena: &mut NodeArena<K, V, PREFIX_LEN>,
    steps: &[Step],
) -> Result<(), AllocError>
    ensures nodes_kept { SameNodes arena.old arena.new }
    ensures room { OnOk result
        ((kind : _) → kind ≢ NodeType.Leaf → needed kind steps.now ≤ room arena.new kind) }
    ensures leaf_room { room arena.new NodeType.Leaf ≡ room arena.old NodeType.Leaf }
{
    arena.reserve(NodeType::Node4, count_nodes(steps, NodeType::Node4))?;
    arena.reserve(NodeType::Node16, count_nodes(steps, NodeType::Node16))?;
    arena.reserve(NodeType::Node48, count_nodes(steps, NodeType::Node48))?;
    arena.reserve(NodeType::Node256, count_nodes(steps, NodeType::Node256))
}

// Moves the entries into leaves, and makes the inner nodes over them.
fn make<K: AsBytes, V, const PREFIX_LEN: usize>(
    arena: &mut NodeArena<K, V, PREFIX_LEN>,
    entries: Vec<(K, V)>,
    prepared: Prepared<K, V, PREFIX_LEN>,
) -> OpaqueNodePtr<K, V, PREFIX_LEN>
    requires loadable { AreLoadable (texts_of K.text entries.items) }
    requires plan { IsPlanOf (texts_of K.text entries.items) prepared.steps.items }
    requires no_leaves { prepared.leaves.items ≡ [] }
    requires leaves { vec_len entries ≤ vec_capacity prepared.leaves }
    requires no_pending { prepared.pending.items ≡ [] }
    requires pending { vec_len entries ≤ vec_capacity prepared.pending }
    requires room { (kind : _) → kind ≢ NodeType.Leaf →
        needed kind prepared.steps.items ≤ room arena.old kind }
    requires leaf_room { vec_len entries ≤ room arena.old NodeType.Leaf }
    ensures { (tree : Tree (Pointer K V PREFIX_LEN))
        × IsLoaded K.text arena.old arena.new entries.items result tree }
{
    let Prepared {
        steps,
        mut leaves,
        pending,
    } = prepared;
    link_leaves(arena, entries, &mut leaves);
    raise(arena, &leaves, &steps, pending)
}
