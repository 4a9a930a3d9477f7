//! Laws of every tree and of every list. The functions do no work: the contract of each is a law.
//!
//! A tree is seen as plain data: a leaf with its pointer and its key bytes, or an inner node with
//! its pointer, its prefix and its branches by ascending byte. It is sound under a path where the
//! key bytes of each leaf begin with the way to it and each inner node has two branches or more. It
//! stands in an arena where each of its pointers holds its node.
ghost use Rattle.std.specs.Prelude.{◌≡◌, ◌≢◌, ◌<◌, ◌≤◌, ◌++◌, [], ◌∷◌, ℕ, List, Some, None, length, slice_get, All, AllPairs};
ghost use Rattle.std.specs.declared.cmp.Ordering.TheVariants.{Less};
ghost use Rattle.art_bytes.specs.Text.{IsPrefixOf, text_order};
ghost use Rattle.art_nodes.specs.ChildMap.{IsAscending, child_at, key_bytes};
ghost use Rattle.art_header.specs.declared.node_type.NodeType.TheVariants as NodeType;
ghost use Rattle.art_nodes.specs.Leaf.{leaf_key, previous_key, next_key};
ghost use Rattle.art_nodes.specs.Pointers.{node_kind, opaque_pointer};
ghost use Rattle.art_nodes.specs.PrefixMatch.{HasPrefix};
ghost use Rattle.art_nodes.specs.declared.pointers.OpaqueNodePtr.{OpaqueNodePtr};
ghost use Rattle.art_arena.specs.Arena.{NodeArena, HeldInner, HeldLeaf, Nothing, Changes, held};
ghost use Rattle.art_arena.specs.Links.{AreDistinct, IsKnit, IsLinkedList, SameButLinks, leaf_at, next_at, previous_at};
ghost use Rattle.art_arena.specs.CommonPrefix.{IsFullMatch, IsLongestCommonPrefix, IsSharedFrom};
ghost use Rattle.art_arena.specs.Standing.{NodeStands, StandsIn, AllStandIn, TreeAt, TreeUnder, IsTreeIn};
ghost use Rattle.art_arena.specs.Trees.{Tree, Inner, Branches, branch_roots, leaves, texts, places, IsSound, AreSound, SameButPointers};

use art_bytes::AsBytes;

/// The path to an inner node and its prefix are the longest common prefix of all keys below.
pub fn path_and_prefix_are_shared<H>()
    ensures { (path prefix : List ℕ) (pointer : H) (branches : Branches H) →
        IsSound path (Inner pointer prefix branches) →
        IsLongestCommonPrefix (texts (Inner pointer prefix branches)) (path ++ prefix) }
{}

/// The keys of a sound tree begin with the path to it. Those below an inner node go on, after the path
/// and the prefix, by at least one byte.
pub fn texts_begin_with_their_path<H>()
    ensures path { (path : List ℕ) (tree : Tree H) → IsSound path tree →
        All (IsPrefixOf path) (texts tree) }
    ensures prefix { (path prefix : List ℕ) (pointer : H) (branches : Branches H) →
        IsSound path (Inner pointer prefix branches) →
        All (λ text. (byte : ℕ) × IsPrefixOf ((path ++ prefix) ++ byte ∷ []) text)
        (texts (Inner pointer prefix branches)) }
{}

/// Trees part at a byte, as the branches of a node do: where the path to a sound tree ends with a
/// lesser byte than a key has there, all keys of the tree come before that key, and where it ends with
/// a greater one, all come behind it.
pub fn texts_part_at_a_byte<H>()
    ensures before { (path key : List ℕ) (byte other : ℕ) (tree : Tree H) →
        IsSound (path ++ byte ∷ []) tree → IsPrefixOf (path ++ other ∷ []) key → byte < other →
        All (λ text. text_order text key ≡ Less) (texts tree) }
    ensures behind { (path key : List ℕ) (byte other : ℕ) (tree : Tree H) →
        IsSound (path ++ byte ∷ []) tree → IsPrefixOf (path ++ other ∷ []) key → other < byte →
        All (λ text. text_order key text ≡ Less) (texts tree) }
{}

/// The keys of a sound tree ascend strictly, from left to right.
pub fn texts_ascend<H>()
    ensures { (path : List ℕ) (tree : Tree H) → IsSound path tree →
        AllPairs (λ a b. text_order a b ≡ Less) (texts tree) }
{}

/// No key of a sound tree is a prefix of another.
pub fn no_text_begins_another<H>()
    ensures { (path : List ℕ) (tree : Tree H) → IsSound path tree →
        AllPairs (λ a b. (¬ IsPrefixOf a b) × (¬ IsPrefixOf b a)) (texts tree) }
{}

/// Each pointer of a sound tree that stands in an arena is at one place of it.
pub fn each_pointer_is_at_one_place<K: AsBytes, V, const PREFIX_LEN: usize>()
    ensures { (arena : NodeArena K V PREFIX_LEN) (path : List ℕ) (tree : _) →
        StandsIn K.text arena tree → IsSound path tree → AreDistinct (places tree) }
{}

/// Trees that are the same but for their pointers have the same key bytes, and so share the same
/// bytes from each depth on. The pointers may be those of arenas of different `PREFIX_LEN`.
pub fn same_trees_have_the_same_texts<H, L>()
    ensures texts { (tree : Tree H) (other : Tree L) → SameButPointers tree other →
        texts tree ≡ texts other }
    ensures shared { (tree : Tree H) (other : Tree L) (depth : ℕ) (shared : List ℕ) →
        SameButPointers tree other → IsSharedFrom depth (texts tree) shared →
        IsSharedFrom depth (texts other) shared }
{}

/// Nodes of two trees that are the same but for their pointers match each key alike, however many
/// bytes of the prefix each of them stores. The arenas may be of different `PREFIX_LEN`.
pub fn same_trees_match_alike<
    K: AsBytes,
    V,
    const PREFIX_LEN: usize,
    L: AsBytes,
    W,
    const OTHER_PREFIX_LEN: usize,
>()
    ensures { (arena : NodeArena K V PREFIX_LEN) (other_arena : NodeArena L W OTHER_PREFIX_LEN)
        (node other : _) (depth : ℕ) (key : List ℕ) (found other_found : _)
        (under : TreeUnder K.text arena node depth)
        (other_under : TreeUnder L.text other_arena other depth) →
        SameButPointers under.tree other_under.tree →
        IsFullMatch depth (texts under.tree) key found →
        IsFullMatch depth (texts other_under.tree) key other_found → found ≡ other_found }
{}

/// Each node of a tree has a tree, so the calls that require one can be made on the way down. The
/// root of a well-formed tree has it. Where a tree stands, something is held. If that is an inner
/// node, the node has the tree under the same path, and its child under a byte has one under the
/// path, the prefix and the byte, whose leaves stand together among those of the whole tree. The
/// keys below a node share a common prefix from its depth on, which `match_full_prefix` compares
/// with a key.
pub fn each_node_of_a_tree_has_a_tree<K: AsBytes, V, const PREFIX_LEN: usize>()
    ensures root { (arena : NodeArena K V PREFIX_LEN) (root : _) (tree : _) →
        IsTreeIn K.text arena root tree → (at : TreeAt K.text arena root) × (at.path ≡ []) }
    ensures held { (arena : NodeArena K V PREFIX_LEN) (pointer : _) →
        TreeAt K.text arena pointer → held arena pointer ≢ Nothing }
    ensures node { (arena : NodeArena K V PREFIX_LEN) (pointer : _) (node : _)
        (at : TreeAt K.text arena pointer) → held arena pointer ≡ HeldInner node →
        (under : TreeUnder K.text arena node (length at.path)) ×
        (under.tree ≡ at.tree) × (under.path ≡ at.path) }
    ensures child { (arena : NodeArena K V PREFIX_LEN) (pointer child : _) (node : _) (byte : ℕ)
        (at : TreeAt K.text arena pointer) → held arena pointer ≡ HeldInner node →
        child_at node.children byte ≡ Some child →
        (below : TreeAt K.text arena child) × ((prefix : List ℕ) × HasPrefix node prefix ×
        (below.path ≡ (at.path ++ prefix) ++ byte ∷ [])) ×
        ((left : List _) × (right : List _) ×
        (leaves at.tree ≡ left ++ (leaves below.tree ++ right))) }
    ensures shared { (arena : NodeArena K V PREFIX_LEN) (node : _) (depth : ℕ)
        (under : TreeUnder K.text arena node depth) →
        (shared : List ℕ) × IsSharedFrom depth (texts under.tree) shared }
{}

/// A node over sound trees that stand makes, once allocated, a tree that stands and is sound. So a
/// node that has a tree as a value has it under its pointer once it is allocated.
pub fn an_allocated_node_makes_a_tree<K: AsBytes, V, const PREFIX_LEN: usize>()
    ensures stands { (old new : NodeArena K V PREFIX_LEN) (pointer : _) (node : _) (prefix : List ℕ)
        (branches : _) → held old pointer ≡ Nothing → Changes old new pointer (HeldInner node) →
        NodeStands PREFIX_LEN node prefix branches → AllStandIn K.text old branches →
        StandsIn K.text new (Inner pointer prefix branches) }
    ensures tree { (old new : NodeArena K V PREFIX_LEN) (pointer : _) (node : _)
        (path prefix : List ℕ) (branches : _) → held old pointer ≡ Nothing →
        Changes old new pointer (HeldInner node) → NodeStands PREFIX_LEN node prefix branches →
        2 ≤ length node.children → IsAscending (key_bytes node.children) →
        AllStandIn K.text old branches → AreSound (path ++ prefix) branches →
        StandsIn K.text new (Inner pointer prefix branches) ×
        IsSound path (Inner pointer prefix branches) }
    ensures under { (old new : NodeArena K V PREFIX_LEN) (pointer : _) (node : _) (depth : ℕ)
        (under : TreeUnder K.text old node depth) → held old pointer ≡ Nothing →
        Changes old new pointer (HeldInner node) →
        (at : TreeAt K.text new pointer) × (at.path ≡ under.path) ×
        SameButPointers at.tree under.tree }
{}

/// A tree still stands in an arena that holds all that was held, as it was held.
pub fn trees_stand_where_all_is_kept<K: AsBytes, V, const PREFIX_LEN: usize>()
    ensures { (old new : NodeArena K V PREFIX_LEN) (tree : _) →
        ((pointer : _) → held old pointer ≢ Nothing → held new pointer ≡ held old pointer) →
        StandsIn K.text old tree → StandsIn K.text new tree }
{}

/// A tree still stands where each of its pointers holds what it held, whatever changes elsewhere.
pub fn trees_stand_where_their_nodes_are_kept<K: AsBytes, V, const PREFIX_LEN: usize>()
    ensures { (old new : NodeArena K V PREFIX_LEN) (tree : _) →
        All (λ pointer. held new pointer ≡ held old pointer) (places tree) →
        StandsIn K.text old tree → StandsIn K.text new tree }
{}

/// A tree still stands where links of leaves change, and where a leaf is replaced by one with the
/// same key bytes, for example one with another value.
pub fn trees_stand_where_texts_are_kept<K: AsBytes, V, const PREFIX_LEN: usize>()
    ensures links { (old new : NodeArena K V PREFIX_LEN) (tree : _) →
        SameButLinks old new → StandsIn K.text old tree → StandsIn K.text new tree }
    ensures leaf { (old new : NodeArena K V PREFIX_LEN) (key : ℕ) (was now : _) (tree : _) →
        leaf_at old key ≡ Some was →
        Changes old new (opaque_pointer NodeType.Leaf key) (HeldLeaf now) →
        K.text (leaf_key now) ≡ K.text (leaf_key was) →
        StandsIn K.text old tree → StandsIn K.text new tree }
{}

/// Each tree that stands still stands after an allocation.
pub fn allocating_leaves_trees_standing<K: AsBytes, V, const PREFIX_LEN: usize>()
    ensures tree { (old new : NodeArena K V PREFIX_LEN) (pointer : _) (now : _) (tree : _) →
        held old pointer ≡ Nothing → Changes old new pointer now →
        StandsIn K.text old tree → StandsIn K.text new tree }
    ensures branches { (old new : NodeArena K V PREFIX_LEN) (pointer : _) (now : _) (branches : _) →
        held old pointer ≡ Nothing → Changes old new pointer now →
        AllStandIn K.text old branches → AllStandIn K.text new branches }
{}

/// Each linked list is still linked after an allocation.
pub fn allocating_keeps_lists_spelled<K, V, const PREFIX_LEN: usize>()
    ensures { (old new : NodeArena K V PREFIX_LEN) (pointer : _) (now : _) (keys : List ℕ) →
        held old pointer ≡ Nothing → Changes old new pointer now →
        IsLinkedList old keys → IsLinkedList new keys }
{}

/// A list of leaves is still linked where an inner node changes, and where a leaf is replaced by
/// one that names the same neighbours, for example one with another value.
pub fn lists_are_spelled_where_links_are_kept<K, V, const PREFIX_LEN: usize>()
    ensures inner { (old new : NodeArena K V PREFIX_LEN) (pointer : _) (now : _) (keys : List ℕ) →
        node_kind pointer ≢ NodeType.Leaf → Changes old new pointer now →
        IsLinkedList old keys → IsLinkedList new keys }
    ensures leaf { (old new : NodeArena K V PREFIX_LEN) (key : ℕ) (was now : _) (keys : List ℕ) →
        leaf_at old key ≡ Some was →
        Changes old new (opaque_pointer NodeType.Leaf key) (HeldLeaf now) →
        previous_key now ≡ previous_key was → next_key now ≡ next_key was →
        IsLinkedList old keys → IsLinkedList new keys }
{}

/// A list of leaves is still linked where each of its leaves is unchanged, whatever changes
/// elsewhere, for example where a leaf is deallocated that was removed from the list.
pub fn lists_are_spelled_where_their_leaves_are_kept<K, V, const PREFIX_LEN: usize>()
    ensures { (old new : NodeArena K V PREFIX_LEN) (keys : List ℕ) →
        All (λ key. leaf_at new key ≡ leaf_at old key) keys → IsLinkedList old keys → IsLinkedList new keys }
{}

/// Each leaf of a linked list is knit, so the calls of `LeafLinks` may be made with it,
/// and it names the leaves beside it in the list.
pub fn each_leaf_of_a_list_is_knit<K, V, const PREFIX_LEN: usize>()
    ensures knit { (arena : NodeArena K V PREFIX_LEN) (before after : List ℕ) (key : ℕ) →
        IsLinkedList arena (before ++ key ∷ after) → IsKnit arena key }
    ensures next { (arena : NodeArena K V PREFIX_LEN) (before after : List ℕ) (key : ℕ) →
        IsLinkedList arena (before ++ key ∷ after) → next_at arena key ≡ slice_get after 0 }
    ensures previous { (arena : NodeArena K V PREFIX_LEN) (before after : List ℕ) (other key : ℕ) →
        IsLinkedList arena (before ++ other ∷ key ∷ after) → previous_at arena key ≡ Some other }
    ensures first { (arena : NodeArena K V PREFIX_LEN) (after : List ℕ) (key : ℕ) →
        IsLinkedList arena (key ∷ after) → previous_at arena key ≡ None }
{}
