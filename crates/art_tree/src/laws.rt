//! Laws of every tree: those of `art_arena`, and those of a tree that changes; and of keys made of
//! values: those of `art_mapped`. The functions do no work: the contract of each is a law.
//!
//! A context is a tree with one subtree left out. With a subtree in that place it is a tree.
ghost use Rattle.std.specs.Prelude.{◌≡◌, ◌↔◌, ◌≤◌, ℕ, ◌+◌, ◌++◌, [], List, All, Contains, Some, None, length, map};
ghost use Rattle.art_header.specs.declared.node_type.NodeType.{NodeType};
ghost use Rattle.art_nodes.specs.Leaf.{leaf_key, leaf_value};
ghost use Rattle.art_nodes.specs.Pointers.{node_kind};
ghost use Rattle.art_nodes.specs.declared.pointers.OpaqueNodePtr.{OpaqueNodePtr as Pointer};
ghost use Rattle.art_arena.specs.Arena.{NodeArena, HeldLeaf, held, leaf_count, SameCapacity, SameNodes};
ghost use Rattle.art_arena.specs.Links.{AreDistinct, IsLinkedList};
ghost use Rattle.art_arena.specs.Standing.{StandsIn};
ghost use Rattle.art_arena.specs.Trees.{Tree, leaves, places, texts, IsSound, IsWellFormed, SameButPointers};
ghost use Rattle.art_steps.specs.Art.{IsAlone, IsArt};
ghost use Rattle.art_steps.specs.Contexts.{Context, plug, path_to, leaves_before, leaves_after, IsExchanged};
ghost use Rattle.art_steps.specs.Dictionary.{entry_at, Clashes, HasEntry, HasKeys, IsEmpty, IsEntry, SameEntries, SameOtherEntries};
ghost use Rattle.art_tree.specs.Entries.{AreEntries, entries_of, put_entry, without_text};
ghost use Rattle.art_steps.specs.Insertion.{ClashesIn};
ghost use Rattle.art_steps.specs.Loading.{HasSmallestKinds, IsLoaded};
ghost use Rattle.art_steps.specs.NodeCounts.{nodes_of};
ghost use Rattle.art_steps.specs.Refusals.{texts_of};
ghost use Rattle.art_steps.specs.Room.{HasEntryRoom, LacksRoomToInsert, LacksRoomToRemove};
ghost use Rattle.art_search.specs.Search.{met};

pub use art_arena::laws::{
    allocating_keeps_lists_spelled, allocating_leaves_trees_standing,
    an_allocated_node_makes_a_tree, each_leaf_of_a_list_is_knit, each_node_of_a_tree_has_a_tree,
    each_pointer_is_at_one_place, lists_are_spelled_where_links_are_kept,
    lists_are_spelled_where_their_leaves_are_kept, no_text_begins_another,
    path_and_prefix_are_shared, same_trees_have_the_same_texts, same_trees_match_alike,
    texts_ascend, texts_begin_with_their_path, texts_part_at_a_byte, trees_stand_where_all_is_kept,
    trees_stand_where_texts_are_kept, trees_stand_where_their_nodes_are_kept,
};
use art_bytes::{AsBytes, NoPrefixesBytes};
pub use art_mapped::laws::{
    any_bytes_are_a_value, bytes_of_arrays_and_vectors, bytes_of_escaped_strings,
    bytes_of_non_zero_signed_integers, bytes_of_non_zero_unsigned_integers, bytes_of_tuples,
    parts_have_their_widths,
};
use art_nodes::OpaqueNodePtr;

/// Two trees that are sound under one path and have the same keys are the same but for their
/// pointers. So there is one tree for given keys, whichever calls made it, and `load` makes that
/// one.
pub fn the_same_texts_make_the_same_tree<H, L>()
    ensures { (path : List ℕ) (tree : Tree H) (other : Tree L) → IsSound path tree →
        IsSound path other → texts tree ≡ texts other → SameButPointers tree other }
{}

/// Well-formed trees with the same texts have as many nodes of each kind. So the nodes that a change
/// of a tree needs follow from the texts before and after it.
pub fn the_same_texts_have_the_same_nodes<H, L>()
    ensures { (tree : Tree H) (other : Tree L) (kind : NodeType) → IsWellFormed tree →
        IsWellFormed other →
        ((text : List ℕ) → Contains (texts tree) text ↔ Contains (texts other) text) →
        nodes_of kind tree ≡ nodes_of kind other }
{}

/// The tree that `load` makes has the key bytes of its entries, in their order.
pub fn a_loaded_tree_has_the_texts_of_its_entries<K: AsBytes, V, const PREFIX_LEN: usize>()
    ensures { (old new : NodeArena K V PREFIX_LEN) (entries : List (K × V)) (root : _) (tree : _) →
        IsLoaded K.text old new entries root tree → texts tree ≡ texts_of K.text entries }
{}

/// A search visits no node twice: the nodes that a key meets on its way down are distinct, whichever
/// prefixes are stored whole.
pub fn the_nodes_that_a_key_meets_are_distinct<K: AsBytes, V, const PREFIX_LEN: usize>()
    ensures { (arena : NodeArena K V PREFIX_LEN) (path : List ℕ) (tree : _) (room : ℕ)
        (key : List ℕ) → StandsIn K.text arena tree → IsSound path tree →
        AreDistinct (met room tree key) }
{}

/// Two trees that are the same but for their pointers, each with the smallest kinds in its arena,
/// are of the same kinds node for node. So a tree made by inserts and removals is, but for its
/// pointers, the tree that `load` makes of its entries.
pub fn the_same_tree_has_the_same_kinds<K: AsBytes, V, const PREFIX_LEN: usize>()
    ensures { (arena other_arena : NodeArena K V PREFIX_LEN) (tree other : _) →
        StandsIn K.text arena tree → StandsIn K.text other_arena other →
        HasSmallestKinds tree → HasSmallestKinds other → SameButPointers tree other →
        map node_kind (places tree) ≡ map node_kind (places other) }
{}

/// A subtree of a tree stands where the tree does, and is sound under the path to it. It may be
/// exchanged for one that is sound under the same path. Then the whole is sound under the same path
/// as before, its leaves are those of before with the subtree's exchanged, and it has the smallest
/// kinds where both had them. It stands where the new subtree stands, the parent has it under the
/// byte of the old one, and all else of the tree is unchanged, but for the links of leaves.
pub fn a_subtree_may_be_exchanged<K: AsBytes, V, const PREFIX_LEN: usize>()
    ensures part { (path : List ℕ) (context : Context (Pointer K V PREFIX_LEN)) (part : _) →
        IsSound path (plug context part) → IsSound (path ++ path_to context) part }
    ensures part_stands { (arena : NodeArena K V PREFIX_LEN) (context : _) (part : _) →
        StandsIn K.text arena (plug context part) → StandsIn K.text arena part }
    ensures sound { (path : List ℕ) (context : Context (Pointer K V PREFIX_LEN)) (part now : _) →
        IsSound path (plug context part) → IsSound (path ++ path_to context) now →
        IsSound path (plug context now) }
    ensures leaves { (context : Context (Pointer K V PREFIX_LEN)) (part : _) →
        leaves (plug context part) ≡ leaves_before context ++ (leaves part ++ leaves_after context) }
    ensures smallest_kinds { (context : Context (Pointer K V PREFIX_LEN)) (part now : _) →
        HasSmallestKinds (plug context part) → HasSmallestKinds now → HasSmallestKinds (plug context now) }
    ensures stands { (old new : NodeArena K V PREFIX_LEN) (path : List ℕ) (context : _) (part now : _) →
        IsSound path (plug context part) → IsExchanged old new K.text context part now →
        StandsIn K.text new (plug context now) }
{}

/// Keys of a type of which none is a proper prefix of another never clash, so one tree holds them
/// all: no insert refuses one of them with `Prefix`.
pub fn keys_without_prefixes_never_clash<K: NoPrefixesBytes, V, const PREFIX_LEN: usize>()
    ensures keys { (keys : List K) (key : K) → All K.is_key keys → K.is_key key →
        ¬ Clashes (map K.text keys) (K.text key) }
    ensures entries { (arena : NodeArena K V PREFIX_LEN) (key : K) →
        HasKeys K.text K.is_key arena → K.is_key key → ¬ ClashesIn K.text arena (K.text key) }
{}

/// The dictionary of an arena that holds one tree and nothing else is what the tree's leaves hold.
/// Key bytes have an entry where they are those of a leaf of the tree, and each leaf is held and
/// has the entry of its key bytes. An arena has an entry exactly where it has a root. The key of an
/// entry has the entry's bytes.
pub fn entries_are_what_leaves_hold<K: AsBytes, V, const PREFIX_LEN: usize>()
    ensures none { (arena : NodeArena K V PREFIX_LEN) → IsArt K.text arena None →
        IsEmpty K.text arena }
    ensures some { (arena : NodeArena K V PREFIX_LEN) (root : _) (tree : _) →
        IsAlone K.text arena root tree → (text : List ℕ) × HasEntry K.text arena text }
    ensures text { (arena : NodeArena K V PREFIX_LEN) (text : List ℕ) (entry : _) →
        entry_at K.text arena text ≡ Some entry → K.text entry.0 ≡ text }
    ensures texts { (arena : NodeArena K V PREFIX_LEN) (root : _) (tree : _) →
        IsAlone K.text arena root tree → (text : List ℕ) →
        HasEntry K.text arena text ↔ Contains (texts tree) text }
    ensures held { (arena : NodeArena K V PREFIX_LEN) (root : _) (tree : _) →
        IsAlone K.text arena root tree → (pointer : _) (text : _) →
        Contains (leaves tree) (pointer, text) → (leaf : _) ×
        (held arena pointer ≡ HeldLeaf leaf) × (K.text (leaf_key leaf) ≡ text) }
    ensures leaves { (arena : NodeArena K V PREFIX_LEN) (root : _) (tree : _) →
        IsAlone K.text arena root tree → (pointer : _) (text : _) (leaf : _) →
        Contains (leaves tree) (pointer, text) → held arena pointer ≡ HeldLeaf leaf →
        entry_at K.text arena text ≡ Some (leaf_key leaf, leaf_value leaf) }
{}

/// Two trees with their arenas that have entries for the same key bytes are the same but for their
/// pointers, kinds included, whichever calls made them. So each is the tree that `load` makes of
/// its entries.
pub fn the_same_entries_make_the_same_tree<K: AsBytes, V, const PREFIX_LEN: usize>()
    ensures { (arena other_arena : NodeArena K V PREFIX_LEN) (root other_root : _) (tree other : _) →
        IsAlone K.text arena root tree → IsAlone K.text other_arena other_root other →
        ((text : List ℕ) → HasEntry K.text arena text ↔ HasEntry K.text other_arena text) →
        SameButPointers tree other × (map node_kind (places tree) ≡ map node_kind (places other)) }
{}

/// The entries of an arena are one list, ascending by key bytes. An entry is one of them exactly
/// where its key bytes have it. No other list has all entries in that order.
pub fn entries_are_one_list<K: AsBytes, V, const PREFIX_LEN: usize>()
    ensures list { (arena : NodeArena K V PREFIX_LEN) →
        AreEntries K.text arena (entries_of K.text arena) }
    ensures only { (arena : NodeArena K V PREFIX_LEN) (entries others : _) →
        AreEntries K.text arena entries → AreEntries K.text arena others → entries ≡ others }
    ensures members { (arena : NodeArena K V PREFIX_LEN) (entry : _) →
        Contains (entries_of K.text arena) entry ↔ IsEntry K.text arena entry }
    ensures none { (arena : NodeArena K V PREFIX_LEN) →
        IsEmpty K.text arena → entries_of K.text arena ≡ [] }
{}

/// The list of the entries after a change: the same where each entry is, with an entry put at its
/// place where that one is new or has a new value, and without the entry of some key bytes where
/// that one is gone.
pub fn the_list_of_entries_changes_with_them<K: AsBytes, V, const PREFIX_LEN: usize>()
    ensures same { (old new : NodeArena K V PREFIX_LEN) → SameEntries K.text old new →
        entries_of K.text new ≡ entries_of K.text old }
    ensures put { (old new : NodeArena K V PREFIX_LEN) (entry : _) → IsEntry K.text new entry →
        SameOtherEntries K.text old new (K.text entry.0) →
        entries_of K.text new ≡ put_entry K.text (entries_of K.text old) entry }
    ensures without { (old new : NodeArena K V PREFIX_LEN) (text : List ℕ) →
        entry_at K.text new text ≡ None → SameOtherEntries K.text old new text →
        entries_of K.text new ≡ without_text K.text (entries_of K.text old) text }
{}

/// The leaves of a tree that is alone in its arena have, from left to right, the key bytes of the
/// list of the entries. They are as many as the arena has leaves. A linked list is no
/// longer.
pub fn entries_are_as_many_as_leaves<K: AsBytes, V, const PREFIX_LEN: usize>()
    ensures texts { (arena : NodeArena K V PREFIX_LEN) (root : _) (tree : _) →
        IsAlone K.text arena root tree →
        texts_of K.text (entries_of K.text arena) ≡ texts tree }
    ensures leaves { (arena : NodeArena K V PREFIX_LEN) (root : _) (tree : _) →
        IsAlone K.text arena root tree → length (leaves tree) ≡ leaf_count arena }
    ensures entries { (arena : NodeArena K V PREFIX_LEN) (root : _) → IsArt K.text arena root →
        length (entries_of K.text arena) ≡ leaf_count arena }
    ensures linked { (arena : NodeArena K V PREFIX_LEN) (keys : List ℕ) → IsLinkedList arena keys →
        length keys ≤ leaf_count arena }
{}

/// Room for so many inserts and removals suffices for the next one of them, and after it there is room
/// for one fewer: where none takes memory, whatever their keys.
pub fn room_lasts<K: AsBytes, V, const PREFIX_LEN: usize>()
    ensures enough_to_insert { (arena : NodeArena K V PREFIX_LEN) (root : _) (text : List ℕ)
        (kind : NodeType) (count : ℕ) → IsArt K.text arena root → HasEntryRoom arena (count + 1) →
        ¬ LacksRoomToInsert K.text arena root text kind }
    ensures enough_to_remove { (arena : NodeArena K V PREFIX_LEN) (root : _) (text : List ℕ)
        (kind : NodeType) (count : ℕ) → IsArt K.text arena root → HasEntryRoom arena (count + 1) →
        ¬ LacksRoomToRemove K.text arena root text kind }
    ensures inserted { (old new : NodeArena K V PREFIX_LEN) (root new_root : _) (text : List ℕ)
        (count : ℕ) → IsArt K.text old root → IsArt K.text new new_root →
        SameOtherEntries K.text old new text → SameCapacity old new → HasEntry K.text new text →
        HasEntryRoom old (count + 1) → HasEntryRoom new count }
    ensures removed { (old new : NodeArena K V PREFIX_LEN) (root new_root : _) (text : List ℕ)
        (count : ℕ) → IsArt K.text old root → IsArt K.text new new_root →
        SameOtherEntries K.text old new text → SameCapacity old new →
        entry_at K.text new text ≡ None → HasEntryRoom old (count + 1) → HasEntryRoom new count }
    ensures kept { (old new : NodeArena K V PREFIX_LEN) (root : _) (count : ℕ) →
        IsArt K.text old root → SameNodes old new → SameCapacity old new →
        HasEntryRoom old (count + 1) → HasEntryRoom new count }
    ensures fewer { (arena : NodeArena K V PREFIX_LEN) (count : ℕ) → HasEntryRoom arena (count + 1) →
        HasEntryRoom arena count }
    ensures same_count { (old new : NodeArena K V PREFIX_LEN) (root : _) → IsArt K.text old root →
        SameNodes old new → leaf_count new ≡ leaf_count old }
{}
