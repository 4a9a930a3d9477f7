//! The leaves of a tree as pages, in the words of the list of its entries.
ghost use Rattle.std.specs.Prelude.{◌≡◌, ◌≢◌, ◌+◌, ◌++◌, ◌∷◌, ℕ, List, OnErr, OnOk, IfOk, IfErr};
ghost use Rattle.std.specs.Borrow.{sem};
ghost use Rattle.art_nodes.specs.Pointers.{slab_key};
ghost use Rattle.art_arena.specs.Arena.{LeafPtr, SameNodes};
ghost use Rattle.art_arena.specs.Links.{with_value_at};
ghost use Rattle.art_tree.specs.Entries.{entries_of};
ghost use Rattle.art_steps.specs.Insertion.{IsRefused};
ghost use Rattle.art_steps.specs.Room.{HasEntryRoom};
ghost use Rattle.art_steps.specs.declared.faults.InsertRefusal.TheVariants.{OutOfMemory};
ghost use Rattle.art_tree.specs.TreeLending.{LendsLeafValue};
ghost use Rattle.art_index.specs.Places.{AllTextsAbove, AllTextsBelow, IsFirst, IsLast, IsNext, IsPlaced, IsPrevious};

use art_arena::{End, LeafPtr, end_leaf};
use art_bytes::AsBytes;
use art_tree::{ArtTree, InsertFault};
use std::alloc::AllocError;

/// The leaf of the first entry, or None where there is none. Takes no memory.
pub fn first_page<A: AsBytes, V, const PREFIX_LEN: usize>(
    tree: &ArtTree<A, V, PREFIX_LEN>,
) -> Option<LeafPtr<A, V, PREFIX_LEN>>
    ensures { IsFirst A.text tree.now.arena result }
{
    let root = tree.root()?;
    Some(end_leaf(tree.arena(), root, End::First))
}

/// The leaf of the last entry, or None where there is none. Takes no memory.
pub fn last_page<A: AsBytes, V, const PREFIX_LEN: usize>(
    tree: &ArtTree<A, V, PREFIX_LEN>,
) -> Option<LeafPtr<A, V, PREFIX_LEN>>
    ensures { IsLast A.text tree.now.arena result }
{
    let root = tree.root()?;
    Some(end_leaf(tree.arena(), root, End::Last))
}

/// The leaf of the entry after that of this leaf, which the tree holds, or None where it is the last.
/// Takes constant time and no memory.
pub fn next_page<A: AsBytes, V, const PREFIX_LEN: usize>(
    tree: &ArtTree<A, V, PREFIX_LEN>,
    leaf: LeafPtr<A, V, PREFIX_LEN>,
) -> Option<LeafPtr<A, V, PREFIX_LEN>>
    requires { IsPlaced A.text tree.now.arena leaf }
    ensures { (here : IsPlaced A.text tree.now.arena leaf) → IsNext A.text tree.now.arena here result }
{
    tree.arena().as_ref(leaf).next()
}

/// The leaf of the entry before that of this leaf, which the tree holds, or None where it is the first.
/// Takes constant time and no memory.
pub fn previous_page<A: AsBytes, V, const PREFIX_LEN: usize>(
    tree: &ArtTree<A, V, PREFIX_LEN>,
    leaf: LeafPtr<A, V, PREFIX_LEN>,
) -> Option<LeafPtr<A, V, PREFIX_LEN>>
    requires { IsPlaced A.text tree.now.arena leaf }
    ensures { (here : IsPlaced A.text tree.now.arena leaf) →
        IsPrevious A.text tree.now.arena here result }
{
    tree.arena().as_ref(leaf).previous()
}

/// The anchor and the page of a leaf, which the tree holds. Takes constant time and no memory.
pub fn page<A: AsBytes, V, const PREFIX_LEN: usize>(
    tree: &ArtTree<A, V, PREFIX_LEN>,
    leaf: LeafPtr<A, V, PREFIX_LEN>,
) -> (&A, &V)
    requires { IsPlaced A.text tree.now.arena leaf }
    ensures { (here : IsPlaced A.text tree.now.arena leaf) →
        (result.0.now, result.1.now) ≡ here.entry }
{
    tree.arena().as_key_value_ref(leaf)
}

/// Adds a page under its anchor, whose bytes no page has. Its entry stands between those with lesser
/// and those with greater bytes.
///
/// The page is refused as [`ArtTree::insert`] refuses an entry, with its anchor; then the tree is as it
/// was. With room for an entry it is not refused memory.
pub fn add_page<A: AsBytes + Drop, V: Drop, const PREFIX_LEN: usize>(
    tree: &mut ArtTree<A, V, PREFIX_LEN>,
    anchor: A,
    page: V,
) -> Result<(), InsertFault<A, V>>
    ensures added { IfOk result (λ _. (left right : List (A × V)) →
        entries_of A.text tree.old.arena ≡ left ++ right →
        AllTextsBelow A.text (A.text anchor) left → AllTextsAbove A.text (A.text anchor) right →
        entries_of A.text tree.new.arena ≡ left ++ (anchor, page) ∷ right) }
    ensures refusal_due { IfErr result
        (λ fault. IsRefused A.text tree.old.arena (A.text anchor) fault.refusal) }
    ensures page_back { IfErr result (λ fault. (fault.key ≡ anchor) × (fault.value ≡ page)) }
    ensures room_suffices { (count : ℕ) → HasEntryRoom tree.old.arena (count + 1) →
        IfErr result (λ fault. fault.refusal ≢ OutOfMemory) }
    ensures same_entries { OnErr result
        (entries_of A.text tree.new.arena ≡ entries_of A.text tree.old.arena) }
    ensures nodes_kept { OnErr result (SameNodes tree.old.arena tree.new.arena) }
{
    match tree.insert(anchor, page) {
        Ok(_) => Ok(()),
        Err(fault) => Err(fault),
    }
}

/// Takes the entry of a leaf, which the tree holds, out of the tree. On allocation failure the tree is
/// as it was. The leaf before it stays, with its entry.
pub fn take_page<A: AsBytes, V, const PREFIX_LEN: usize>(
    tree: &mut ArtTree<A, V, PREFIX_LEN>,
    leaf: LeafPtr<A, V, PREFIX_LEN>,
) -> Result<(A, V), AllocError>
    requires { IsPlaced A.text tree.old.arena leaf }
    ensures taken { (here : IsPlaced A.text tree.old.arena leaf) → IfOk result (λ entry.
        (entry ≡ here.entry) × (entries_of A.text tree.new.arena ≡ here.left ++ here.right)) }
    ensures previous_stays { (here : IsPlaced A.text tree.old.arena leaf)
        (previous : LeafPtr A V PREFIX_LEN) (before : IsPlaced A.text tree.old.arena previous) →
        before.right ≡ here.entry ∷ here.right →
        OnOk result ((now : IsPlaced A.text tree.new.arena previous) ×
        (now.left ≡ before.left) × (now.entry ≡ before.entry) × (now.right ≡ here.right)) }
    ensures same_entries { OnErr result
        (entries_of A.text tree.new.arena ≡ entries_of A.text tree.old.arena) }
    ensures nodes_kept { OnErr result (SameNodes tree.old.arena tree.new.arena) }
{
    tree.remove_leaf(leaf)
}

/// The page of a leaf, which the tree holds, to be changed. The tree ends with the page that the caller
/// leaves there, and all else is as it was. Takes constant time and no memory.
pub fn page_mut<A: AsBytes, V, const PREFIX_LEN: usize>(
    tree: &mut ArtTree<A, V, PREFIX_LEN>,
    leaf: LeafPtr<A, V, PREFIX_LEN>,
) -> &mut V
    requires { IsPlaced A.text tree.old.arena leaf }
    ensures* writes_back { sem 𝓛 (LendsLeafValue A.row V.row PREFIX_LEN.row A.text A.is_key
        tree.entry (slab_key leaf) result) }
    ensures page { (here : IsPlaced A.text tree.old.arena leaf) → result.now ≡ here.entry.1 }
    ensures changes { (here : IsPlaced A.text tree.old.arena leaf) (page : V) →
        (now : IsPlaced A.text (with_value_at tree.old.arena (slab_key leaf) page) leaf) ×
        (now.left ≡ here.left) × (now.entry ≡ (here.entry.0, page)) × (now.right ≡ here.right) }
{
    let _root = tree.root();
    let (_, page) = tree.as_key_ref_value_mut(leaf);
    page
}
