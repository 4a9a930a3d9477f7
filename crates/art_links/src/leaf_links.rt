//! The linked list of leaves: each leaf names the one before it and the one after it.
ghost use Rattle.std.specs.Prelude.{◌≡◌, ◌≢◌, ◌↔◌, List, ◌∷◌, ◌++◌, IsTrue, Some, None, false, not};
ghost use Rattle.std.specs.Option.{ForSome, option_map};
ghost use Rattle.std.specs.declared.cmp.Ordering.TheVariants.{Less};
ghost use Rattle.art_bytes.specs.Text.{text_order};
ghost use Rattle.art_nodes.specs.Pointers.{slab_key};
ghost use Rattle.art_arena.specs.Arena.{SameRoom};
ghost use Rattle.art_arena.specs.Links.{IsLinkedList, HoldsLeaf, IsUnlinked, IsKnit, SameButLinks, Joins, StandsBetween, TakesPlace, previous_at, next_at, text_at};
ghost use Rattle.art_arena.specs.Relinking.{SetsBoth, SetsNext, SetsPrevious};

use art_arena::{LeafPtr, NodeArena};
use art_bytes::AsBytes;
use art_nodes::{LeafNode, NodePtr};

/// The calls that insert leaves into a linked list and remove them.
///
/// A leaf is knit where the arena holds it, and holds each neighbour that it names, and that
/// neighbour names it back on that side. Each call changes only the links of the named leaves and
/// of their neighbours: keys, values, inner nodes and other leaves are unchanged. No call takes
/// memory, and each takes a constant number of steps.
///
/// An insert after `sibling`, each of its conditions tested first:
///
/// (from crates/art_tree_tests/src/arena/leaf_links.rt)
/// ```rust
/// assert!(rt; arena.holds(this));
/// assert!(rt; !Leaf::is_linked(arena, this));
/// assert!(rt; this != sibling);
/// assert!(rt; Leaf::is_knit(arena, sibling));
/// let key = arena.as_key_ref(this);
/// assert!(rt; arena.as_ref(sibling).compare_full_key(key.as_bytes()) == Ordering::Less);
/// Leaf::insert_after(arena, this, sibling);
/// ```
pub trait LeafLinks<K: AsBytes, V, const PREFIX_LEN: usize>: Sized {
    /// Inserts `this` right after `sibling` into the sibling's list.
    ///
    /// The arena must hold `this`, unlinked, and it must be another leaf than the sibling. The
    /// sibling must be knit, and its key bytes must be less than those of `this`.
    fn insert_after(
        arena: &mut NodeArena<K, V, PREFIX_LEN>,
        this: NodePtr<PREFIX_LEN, Self>,
        sibling: NodePtr<PREFIX_LEN, Self>,
    )
        requires held { HoldsLeaf arena.old (slab_key this) }
        requires unlinked { IsUnlinked arena.old (slab_key this) }
        requires apart { slab_key this ≢ slab_key sibling }
        requires sibling_knit { IsKnit arena.old (slab_key sibling) }
        requires above { text_order (text_at K.text arena.old (slab_key sibling))
            (text_at K.text arena.old (slab_key this)) ≡ Less }
        ensures placed { StandsBetween arena.old arena.new (Some (slab_key sibling)) (slab_key this)
            (next_at arena.old (slab_key sibling)) }
        ensures linked { (before after : List _) →
            IsLinkedList arena.old (before ++ slab_key sibling ∷ after) →
            IsLinkedList arena.new (before ++ slab_key sibling ∷ slab_key this ∷ after) }
        ensures contents { SameButLinks arena.old arena.new }
        ensures room { SameRoom arena.old arena.new };

    /// Inserts `this` right before `sibling` into the sibling's list.
    ///
    /// The arena must hold `this`, unlinked, and it must be another leaf than the sibling. The
    /// sibling must be knit, and its key bytes must be greater than those of `this`.
    fn insert_before(
        arena: &mut NodeArena<K, V, PREFIX_LEN>,
        this: NodePtr<PREFIX_LEN, Self>,
        sibling: NodePtr<PREFIX_LEN, Self>,
    )
        requires held { HoldsLeaf arena.old (slab_key this) }
        requires unlinked { IsUnlinked arena.old (slab_key this) }
        requires apart { slab_key this ≢ slab_key sibling }
        requires sibling_knit { IsKnit arena.old (slab_key sibling) }
        requires below { text_order (text_at K.text arena.old (slab_key this))
            (text_at K.text arena.old (slab_key sibling)) ≡ Less }
        ensures placed { StandsBetween arena.old arena.new
            (previous_at arena.old (slab_key sibling)) (slab_key this) (Some (slab_key sibling)) }
        ensures linked { (before after : List _) →
            IsLinkedList arena.old (before ++ slab_key sibling ∷ after) →
            IsLinkedList arena.new (before ++ slab_key this ∷ slab_key sibling ∷ after) }
        ensures contents { SameButLinks arena.old arena.new }
        ensures room { SameRoom arena.old arena.new };

    /// Gives `this` the place of `old` in its list. The arena still holds the old leaf, which is
    /// unlinked afterwards.
    ///
    /// The arena must hold `this`, unlinked, and it must be another leaf than the old one, which
    /// must be knit. Without `force` the two must have the same key bytes. With it, the order of
    /// the list is the caller's responsibility.
    fn replace(
        arena: &mut NodeArena<K, V, PREFIX_LEN>,
        this: NodePtr<PREFIX_LEN, Self>,
        old: NodePtr<PREFIX_LEN, Self>,
        force: bool,
    )
        requires held { HoldsLeaf arena.old (slab_key this) }
        requires unlinked { IsUnlinked arena.old (slab_key this) }
        requires apart { slab_key this ≢ slab_key old }
        requires old_knit { IsKnit arena.old (slab_key old) }
        requires same_text { force ≡ false →
            text_at K.text arena.old (slab_key this) ≡ text_at K.text arena.old (slab_key old) }
        ensures replaced { TakesPlace arena.old arena.new (slab_key old) (slab_key this) }
        ensures linked { (before after : List _) →
            IsLinkedList arena.old (before ++ slab_key old ∷ after) →
            IsLinkedList arena.new (before ++ slab_key this ∷ after) }
        ensures contents { SameButLinks arena.old arena.new }
        ensures room { SameRoom arena.old arena.new };

    /// Removes `this`, which must be knit, from its list. Its own links are unchanged.
    fn remove_self(arena: &mut NodeArena<K, V, PREFIX_LEN>, this: NodePtr<PREFIX_LEN, Self>)
        requires { IsKnit arena.old (slab_key this) }
        ensures removed { Joins arena.old arena.new (previous_at arena.old (slab_key this))
            (next_at arena.old (slab_key this)) }
        ensures linked { (before after : List _) →
            IsLinkedList arena.old (before ++ slab_key this ∷ after) →
            IsLinkedList arena.new (before ++ after) }
        ensures own_previous { previous_at arena.new (slab_key this)
            ≡ previous_at arena.old (slab_key this) }
        ensures own_next { next_at arena.new (slab_key this) ≡ next_at arena.old (slab_key this) }
        ensures contents { SameButLinks arena.old arena.new }
        ensures room { SameRoom arena.old arena.new };

    /// Whether the leaf names a neighbour. The arena must hold the leaf.
    fn is_linked(arena: &NodeArena<K, V, PREFIX_LEN>, this: NodePtr<PREFIX_LEN, Self>) -> bool
        requires { HoldsLeaf arena.now (slab_key this) }
        ensures { IsTrue (not result) ↔ IsUnlinked arena.now (slab_key this) };

    /// Whether the arena holds the leaf, and holds each neighbour that it names, and that neighbour
    /// names it back on that side.
    fn is_knit(arena: &NodeArena<K, V, PREFIX_LEN>, this: NodePtr<PREFIX_LEN, Self>) -> bool
        ensures { IsTrue result ↔ IsKnit arena.now (slab_key this) };
}

impl<K: AsBytes, V, const PREFIX_LEN: usize> LeafLinks<K, V, PREFIX_LEN>
    for LeafNode<K, V, PREFIX_LEN> {
    fn insert_after(
        arena: &mut NodeArena<K, V, PREFIX_LEN>,
        this: NodePtr<PREFIX_LEN, Self>,
        sibling: NodePtr<PREFIX_LEN, Self>,
    )
        requires held { HoldsLeaf arena.old (slab_key this) }
        requires unlinked { IsUnlinked arena.old (slab_key this) }
        requires apart { slab_key this ≢ slab_key sibling }
        requires sibling_knit { IsKnit arena.old (slab_key sibling) }
        requires above { text_order (text_at K.text arena.old (slab_key sibling))
            (text_at K.text arena.old (slab_key this)) ≡ Less }
        ensures placed { StandsBetween arena.old arena.new (Some (slab_key sibling)) (slab_key this)
            (next_at arena.old (slab_key sibling)) }
        ensures linked { (before after : List _) →
            IsLinkedList arena.old (before ++ slab_key sibling ∷ after) →
            IsLinkedList arena.new (before ++ slab_key sibling ∷ slab_key this ∷ after) }
        ensures contents { SameButLinks arena.old arena.new }
        ensures room { SameRoom arena.old arena.new }
    {
        let after = next_of(arena, sibling);
        link_between(arena, Some(sibling), this, after);
    }

    fn insert_before(
        arena: &mut NodeArena<K, V, PREFIX_LEN>,
        this: NodePtr<PREFIX_LEN, Self>,
        sibling: NodePtr<PREFIX_LEN, Self>,
    )
        requires held { HoldsLeaf arena.old (slab_key this) }
        requires unlinked { IsUnlinked arena.old (slab_key this) }
        requires apart { slab_key this ≢ slab_key sibling }
        requires sibling_knit { IsKnit arena.old (slab_key sibling) }
        requires below { text_order (text_at K.text arena.old (slab_key this))
            (text_at K.text arena.old (slab_key sibling)) ≡ Less }
        ensures placed { StandsBetween arena.old arena.new
            (previous_at arena.old (slab_key sibling)) (slab_key this) (Some (slab_key sibling)) }
        ensures linked { (before after : List _) →
            IsLinkedList arena.old (before ++ slab_key sibling ∷ after) →
            IsLinkedList arena.new (before ++ slab_key this ∷ slab_key sibling ∷ after) }
        ensures contents { SameButLinks arena.old arena.new }
        ensures room { SameRoom arena.old arena.new }
    {
        let before = previous_of(arena, sibling);
        link_between(arena, before, this, Some(sibling));
    }

    fn replace(
        arena: &mut NodeArena<K, V, PREFIX_LEN>,
        this: NodePtr<PREFIX_LEN, Self>,
        old: NodePtr<PREFIX_LEN, Self>,
        force: bool,
    )
        requires held { HoldsLeaf arena.old (slab_key this) }
        requires unlinked { IsUnlinked arena.old (slab_key this) }
        requires apart { slab_key this ≢ slab_key old }
        requires old_knit { IsKnit arena.old (slab_key old) }
        requires same_text { force ≡ false →
            text_at K.text arena.old (slab_key this) ≡ text_at K.text arena.old (slab_key old) }
        ensures replaced { TakesPlace arena.old arena.new (slab_key old) (slab_key this) }
        ensures linked { (before after : List _) →
            IsLinkedList arena.old (before ++ slab_key old ∷ after) →
            IsLinkedList arena.new (before ++ slab_key this ∷ after) }
        ensures contents { SameButLinks arena.old arena.new }
        ensures room { SameRoom arena.old arena.new }
    {
        let (before, after) = neighbours_of(arena, old);
        link_between(arena, before, this, after);
        set_both(arena, old, None, None);
    }

    fn remove_self(arena: &mut NodeArena<K, V, PREFIX_LEN>, this: NodePtr<PREFIX_LEN, Self>)
        requires { IsKnit arena.old (slab_key this) }
        ensures removed { Joins arena.old arena.new (previous_at arena.old (slab_key this))
            (next_at arena.old (slab_key this)) }
        ensures linked { (before after : List _) →
            IsLinkedList arena.old (before ++ slab_key this ∷ after) →
            IsLinkedList arena.new (before ++ after) }
        ensures own_previous { previous_at arena.new (slab_key this)
            ≡ previous_at arena.old (slab_key this) }
        ensures own_next { next_at arena.new (slab_key this) ≡ next_at arena.old (slab_key this) }
        ensures contents { SameButLinks arena.old arena.new }
        ensures room { SameRoom arena.old arena.new }
    {
        let (before, after) = neighbours_of(arena, this);
        join(arena, before, after);
    }

    fn is_linked(arena: &NodeArena<K, V, PREFIX_LEN>, this: NodePtr<PREFIX_LEN, Self>) -> bool
        requires { HoldsLeaf arena.now (slab_key this) }
        ensures { IsTrue (not result) ↔ IsUnlinked arena.now (slab_key this) }
    {
        let leaf = arena.as_ref(this);
        leaf.previous().is_some() || leaf.next().is_some()
    }

    fn is_knit(arena: &NodeArena<K, V, PREFIX_LEN>, this: NodePtr<PREFIX_LEN, Self>) -> bool
        ensures { IsTrue result ↔ IsKnit arena.now (slab_key this) }
    {
        arena.holds(this) && previous_is_knit(arena, this) && next_is_knit(arena, this)
    }
}

// The leaf that this one names as the previous one, if the arena holds it and it names one.
fn previous_of<K, V, const PREFIX_LEN: usize>(
    arena: &NodeArena<K, V, PREFIX_LEN>,
    leaf: LeafPtr<K, V, PREFIX_LEN>,
) -> Option<LeafPtr<K, V, PREFIX_LEN>>
    ensures { option_map slab_key result ≡ previous_at arena.now (slab_key leaf) }
{
    arena.get(leaf)?.previous()
}

// The leaf that this one names as the next one, if the arena holds it and it names one.
fn next_of<K, V, const PREFIX_LEN: usize>(
    arena: &NodeArena<K, V, PREFIX_LEN>,
    leaf: LeafPtr<K, V, PREFIX_LEN>,
) -> Option<LeafPtr<K, V, PREFIX_LEN>>
    ensures { option_map slab_key result ≡ next_at arena.now (slab_key leaf) }
{
    arena.get(leaf)?.next()
}

// The leaves that this one names as the previous and the next one. The arena must hold it.
#[inline]
fn neighbours_of<K, V, const PREFIX_LEN: usize>(
    arena: &NodeArena<K, V, PREFIX_LEN>,
    leaf: LeafPtr<K, V, PREFIX_LEN>,
) -> (
    Option<LeafPtr<K, V, PREFIX_LEN>>,
    Option<LeafPtr<K, V, PREFIX_LEN>>,
)
    requires { HoldsLeaf arena.now (slab_key leaf) }
    ensures previous { option_map slab_key result.0 ≡ previous_at arena.now (slab_key leaf) }
    ensures next { option_map slab_key result.1 ≡ next_at arena.now (slab_key leaf) }
{
    let leaf = arena.as_ref(leaf);
    (leaf.previous(), leaf.next())
}

// Whether the leaf that this one names as the previous one names it back, if it names one.
fn previous_is_knit<K, V, const PREFIX_LEN: usize>(
    arena: &NodeArena<K, V, PREFIX_LEN>,
    this: LeafPtr<K, V, PREFIX_LEN>,
) -> bool
    ensures { IsTrue result ↔
        ((other : _) → previous_at arena.now (slab_key this) ≡ Some other →
        next_at arena.now other ≡ Some (slab_key this)) }
{
    match previous_of(arena, this) {
        Some(before) => is_named(next_of(arena, before), this),
        None => true,
    }
}

// Whether the leaf that this one names as the next one names it back, if it names one.
fn next_is_knit<K, V, const PREFIX_LEN: usize>(
    arena: &NodeArena<K, V, PREFIX_LEN>,
    this: LeafPtr<K, V, PREFIX_LEN>,
) -> bool
    ensures { IsTrue result ↔
        ((other : _) → next_at arena.now (slab_key this) ≡ Some other →
        previous_at arena.now other ≡ Some (slab_key this)) }
{
    match next_of(arena, this) {
        Some(after) => is_named(previous_of(arena, after), this),
        None => true,
    }
}

// Whether the link is to this leaf.
fn is_named<K, V, const PREFIX_LEN: usize>(
    link: Option<LeafPtr<K, V, PREFIX_LEN>>,
    leaf: LeafPtr<K, V, PREFIX_LEN>,
) -> bool
    ensures { IsTrue result ↔ (option_map slab_key link ≡ Some (slab_key leaf)) }
{
    match link {
        Some(link) => link.key() == leaf.key(),
        None => false,
    }
}

// Inserts a leaf between these two, each of which may be none.
fn link_between<K, V, const PREFIX_LEN: usize>(
    arena: &mut NodeArena<K, V, PREFIX_LEN>,
    before: Option<LeafPtr<K, V, PREFIX_LEN>>,
    this: LeafPtr<K, V, PREFIX_LEN>,
    after: Option<LeafPtr<K, V, PREFIX_LEN>>,
)
    requires before_held { ForSome before (λ leaf. HoldsLeaf arena.old (slab_key leaf)) }
    requires held { HoldsLeaf arena.old (slab_key this) }
    requires after_held { ForSome after (λ leaf. HoldsLeaf arena.old (slab_key leaf)) }
    requires apart_from_before { option_map slab_key before ≢ Some (slab_key this) }
    requires apart_from_after { option_map slab_key after ≢ Some (slab_key this) }
    ensures placed { StandsBetween arena.old arena.new (option_map slab_key before) (slab_key this)
        (option_map slab_key after) }
    ensures contents { SameButLinks arena.old arena.new }
    ensures room { SameRoom arena.old arena.new }
{
    set_next(arena, before, Some(this));
    set_both(arena, this, before, after);
    set_previous(arena, after, Some(this));
}

// Makes these two neighbours, each of which may be none.
fn join<K, V, const PREFIX_LEN: usize>(
    arena: &mut NodeArena<K, V, PREFIX_LEN>,
    before: Option<LeafPtr<K, V, PREFIX_LEN>>,
    after: Option<LeafPtr<K, V, PREFIX_LEN>>,
)
    requires before_held { ForSome before (λ leaf. HoldsLeaf arena.old (slab_key leaf)) }
    requires after_held { ForSome after (λ leaf. HoldsLeaf arena.old (slab_key leaf)) }
    ensures joined { Joins arena.old arena.new (option_map slab_key before)
        (option_map slab_key after) }
    ensures contents { SameButLinks arena.old arena.new }
    ensures room { SameRoom arena.old arena.new }
{
    set_next(arena, before, after);
    set_previous(arena, after, before);
}

// Sets both neighbours of the leaf, each of which may be none.
#[inline]
fn set_both<K, V, const PREFIX_LEN: usize>(
    arena: &mut NodeArena<K, V, PREFIX_LEN>,
    leaf: LeafPtr<K, V, PREFIX_LEN>,
    previous: Option<LeafPtr<K, V, PREFIX_LEN>>,
    next: Option<LeafPtr<K, V, PREFIX_LEN>>,
)
    requires held { HoldsLeaf arena.old (slab_key leaf) }
    ensures set { SetsBoth arena.old arena.new (slab_key leaf) (option_map slab_key previous)
        (option_map slab_key next) }
    ensures room { SameRoom arena.old arena.new }
{
    arena.as_mut(leaf).set_links(previous, next);
}

// Sets the next neighbour of the leaf, which may be none.
#[inline]
fn set_next<K, V, const PREFIX_LEN: usize>(
    arena: &mut NodeArena<K, V, PREFIX_LEN>,
    leaf: Option<LeafPtr<K, V, PREFIX_LEN>>,
    next: Option<LeafPtr<K, V, PREFIX_LEN>>,
)
    requires held { ForSome leaf (λ leaf. HoldsLeaf arena.old (slab_key leaf)) }
    ensures set { SetsNext arena.old arena.new (option_map slab_key leaf)
        (option_map slab_key next) }
    ensures room { SameRoom arena.old arena.new }
{
    if let Some(leaf) = leaf {
        let leaf = arena.as_mut(leaf);
        let previous = leaf.previous();
        leaf.set_links(previous, next);
    }
}

// Sets the previous neighbour of the leaf, which may be none.
#[inline]
fn set_previous<K, V, const PREFIX_LEN: usize>(
    arena: &mut NodeArena<K, V, PREFIX_LEN>,
    leaf: Option<LeafPtr<K, V, PREFIX_LEN>>,
    previous: Option<LeafPtr<K, V, PREFIX_LEN>>,
)
    requires held { ForSome leaf (λ leaf. HoldsLeaf arena.old (slab_key leaf)) }
    ensures set { SetsPrevious arena.old arena.new (option_map slab_key leaf)
        (option_map slab_key previous) }
    ensures room { SameRoom arena.old arena.new }
{
    if let Some(leaf) = leaf {
        let leaf = arena.as_mut(leaf);
        let next = leaf.next();
        leaf.set_links(previous, next);
    }
}
