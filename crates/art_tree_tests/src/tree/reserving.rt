//! Memory is reserved first. No allocation fails in an insert after that.
ghost use Rattle.std.specs.Prelude.{◌≡◌, ◌≢◌, ◌≤◌, None, IfErr, IfOk, OnOk};
ghost use Rattle.art_header.specs.declared.node_type.NodeType.TheVariants.{Leaf};
ghost use Rattle.art_arena.specs.Arena.{room};
ghost use Rattle.art_steps.specs.Dictionary.{SameEntries};
ghost use Rattle.art_steps.specs.declared.faults.InsertRefusal.TheVariants.{OutOfMemory};

use super::*;
use art_tree::InsertFault;

/// Reserves memory for one node of each kind.
fn reserve_one_of_each<K: AsBytes, V, const PREFIX_LEN: usize>(
    tree: &mut ArtTree<K, V, PREFIX_LEN>,
) -> Result<(), AllocError>
    ensures room { OnOk result ((kind : _) → 1 ≤ room tree.new.arena kind) }
    ensures same_entries { SameEntries K.text tree.old.arena tree.new.arena }
{
    tree.reserve(NodeType::Leaf, 1)?;
    tree.reserve(NodeType::Node4, 1)?;
    tree.reserve(NodeType::Node16, 1)?;
    tree.reserve(NodeType::Node48, 1)?;
    tree.reserve(NodeType::Node256, 1)
}

/// Adds an entry. An allocation may fail before the insert, but not in it.
fn insert_reserved<K: AsBytes + Drop, V: Drop, const PREFIX_LEN: usize>(
    tree: &mut ArtTree<K, V, PREFIX_LEN>,
    key: K,
    value: V,
) -> Result<Result<Option<(K, V)>, InsertFault<K, V>>, AllocError>
    ensures { IfOk result
        (λ answer. IfErr answer (λ fault. fault.refusal ≢ OutOfMemory)) }
{
    reserve_one_of_each(tree)?;
    Ok(tree.insert(key, value))
}

/// Adds the first entry of a tree that has spare capacity for a leaf. No allocation fails: a tree of
/// one key has no other node.
fn insert_first_reserved<K: AsBytes, V, const PREFIX_LEN: usize>(
    tree: &mut ArtTree<K, V, PREFIX_LEN>,
    key: K,
    value: V,
) -> Result<Option<(K, V)>, InsertFault<K, V>>
    requires empty { tree.old.root ≡ None }
    requires room { 1 ≤ room tree.old.arena Leaf }
    ensures { IfErr result (λ fault. fault.refusal ≢ OutOfMemory) }
{
    laws::entries_are_what_leaves_hold::<K, V, PREFIX_LEN>();
    laws::the_same_texts_have_the_same_nodes::<
        OpaqueNodePtr<K, V, PREFIX_LEN>,
        OpaqueNodePtr<K, V, PREFIX_LEN>,
    >();
    tree.root();
    tree.insert(key, value)
}
