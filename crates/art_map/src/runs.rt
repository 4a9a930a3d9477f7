//! Runs of pages: the leaves of a tree from one to another, and one page after another taken off either end.
ghost use Rattle.std.specs.Prelude.{◌≡◌, ◌∷◌, ◌++◌, List, ℕ, [], None, IfSome};
ghost use Rattle.art_index.specs.Places.{IsPlaced};
ghost use Rattle.art_map.specs.Pages.{entries_in};
ghost use Rattle.art_map.specs.Trees.{pages_in, pages_of};
ghost use Rattle.art_map.specs.Runs.{IsRun, pages_between};

use crate::map::{Leaf, Tree};
use art_index::{first_page, last_page, next_page, page, previous_page};
use art_keys::RadixKey;

/// The first page of a run, and what is left of the run.
pub fn take_first<'a, K: RadixKey, V>(
    tree: &'a Tree<K, V>,
    first: Leaf<K, V>,
    last: Leaf<K, V>,
) -> (
    &'a [(K, V)],
    Option<(&'a Tree<K, V>, Leaf<K, V>, Leaf<K, V>)>,
)
    requires { IsRun tree.now.arena first last }
    ensures taken { (anchor : List ℕ) × (pages_between tree.now.arena first last
        ≡ (anchor, result.0.now) ∷ pages_in (λ run. pages_between run.0.now.arena run.1 run.2) result.1) }
    ensures rest { IfSome result.1 (λ run. IsRun run.0.now.arena run.1 run.2) }
{
    let entries = page(tree, first).1.entries();
    let _arena = tree.arena();
    if first.key() == last.key() {
        return (entries, None);
    }
    match next_page(tree, first) {
        Some(next) => (entries, Some((tree, next, last))),
        None => (entries, None),
    }
}

/// The last page of a run, and what is left of the run.
pub fn take_last<'a, K: RadixKey, V>(
    tree: &'a Tree<K, V>,
    first: Leaf<K, V>,
    last: Leaf<K, V>,
) -> (
    &'a [(K, V)],
    Option<(&'a Tree<K, V>, Leaf<K, V>, Leaf<K, V>)>,
)
    requires { IsRun tree.now.arena first last }
    ensures taken { (anchor : List ℕ) × (pages_between tree.now.arena first last
        ≡ pages_in (λ run. pages_between run.0.now.arena run.1 run.2) result.1 ++ (anchor, result.0.now) ∷ []) }
    ensures rest { IfSome result.1 (λ run. IsRun run.0.now.arena run.1 run.2) }
{
    let entries = page(tree, last).1.entries();
    let _arena = tree.arena();
    if first.key() == last.key() {
        return (entries, None);
    }
    match previous_page(tree, last) {
        Some(previous) => (entries, Some((tree, first, previous))),
        None => (entries, None),
    }
}

/// All pages of a tree, if there is one and it has any.
pub fn whole_run<K: RadixKey, V>(
    tree: &Option<Box<Tree<K, V>>>,
) -> Option<(&Tree<K, V>, Leaf<K, V>, Leaf<K, V>)>
    ensures pages { pages_in (λ run. pages_between run.0.now.arena run.1 run.2) result
        ≡ pages_in (λ tree. pages_of tree.value.arena) tree.now }
    ensures run { IfSome result (λ run. IsRun run.0.now.arena run.1 run.2) }
{
    match tree {
        Some(tree) => ends_of(tree),
        None => None,
    }
}

// The same of a tree.
fn ends_of<K: RadixKey, V>(tree: &Tree<K, V>) -> Option<(&Tree<K, V>, Leaf<K, V>, Leaf<K, V>)>
    ensures pages { pages_in (λ run. pages_between run.0.now.arena run.1 run.2) result
        ≡ pages_of tree.now.arena }
    ensures run { IfSome result (λ run. IsRun run.0.now.arena run.1 run.2) }
{
    let first = first_page(tree)?;
    let last = last_page(tree)?;
    Some((tree, first, last))
}

/// The first page of a run that has entries, and what is left of the run behind it. Where there is
/// none, no entries, and nothing.
pub fn first_filled<'a, K: RadixKey, V>(
    run: Option<(&'a Tree<K, V>, Leaf<K, V>, Leaf<K, V>)>,
) -> (
    &'a [(K, V)],
    Option<(&'a Tree<K, V>, Leaf<K, V>, Leaf<K, V>)>,
)
    requires { IfSome run (λ run. IsRun run.0.now.arena run.1 run.2) }
    ensures taken { entries_in (pages_in (λ run. pages_between run.0.now.arena run.1 run.2) run.entry)
        ≡ result.0.now ++ entries_in (pages_in (λ run. pages_between run.0.now.arena run.1 run.2) result.1) }
    ensures rest { IfSome result.1 (λ run. IsRun run.0.now.arena run.1 run.2) }
    ensures filled { result.0.now ≡ [] → result.1 ≡ None }
{
    let mut run = run;
    'pages: while let Some((tree, first, last)) = run {
        let (entries, rest) = take_first(tree, first, last);
        if !entries.is_empty() {
            return (entries, rest);
        }
        run = rest;
    }
    (&[], None)
}

/// The last page of a run that has entries, and what is left of the run before it. Where there is
/// none, no entries, and nothing.
#[tactic(auto, using(crate::proofs::RunLemmas::entries_last))]
pub fn last_filled<'a, K: RadixKey, V>(
    run: Option<(&'a Tree<K, V>, Leaf<K, V>, Leaf<K, V>)>,
) -> (
    &'a [(K, V)],
    Option<(&'a Tree<K, V>, Leaf<K, V>, Leaf<K, V>)>,
)
    requires { IfSome run (λ run. IsRun run.0.now.arena run.1 run.2) }
    ensures taken { entries_in (pages_in (λ run. pages_between run.0.now.arena run.1 run.2) run.entry)
        ≡ entries_in (pages_in (λ run. pages_between run.0.now.arena run.1 run.2) result.1) ++ result.0.now }
    ensures rest { IfSome result.1 (λ run. IsRun run.0.now.arena run.1 run.2) }
    ensures filled { result.0.now ≡ [] → result.1 ≡ None }
{
    let mut run = run;
    'pages: while let Some((tree, first, last)) = run {
        let (entries, rest) = take_last(tree, first, last);
        if !entries.is_empty() {
            return (entries, rest);
        }
        run = rest;
    }
    (&[], None)
}
