//! The first entry of a map, or the last one, taken out.
ghost use Rattle.std.specs.Prelude.{◌≡◌, ◌∷◌, ◌++◌, [], IfSome, IfNone};
ghost use Rattle.art_map.specs.Pages.{entries_in, map_entries, IsMap};
ghost use Rattle.art_map.specs.Trees.{pages_in, pages_of};
ghost use Rattle.art_map.specs.Ends.{IsFirstFilled, IsLastFilled};

use crate::join::settle;
use crate::map::{Leaf, Tree};
use art_index::{first_page, last_page, next_page, page, page_mut, previous_page};
use art_keys::RadixKey;
use art_pages::Page;

// The leaf of the first page with entries, if there is one.
pub(crate) fn first_filled_leaf<K: RadixKey, V>(tree: &Tree<K, V>) -> Option<Leaf<K, V>>
    ensures { IsFirstFilled tree.now.arena result }
{
    let mut at = first_page(tree);
    'leaves: while let Some(leaf) = at {
        if page(tree, leaf).1.is_empty() {
            at = next_page(tree, leaf);
        } else {
            return Some(leaf);
        }
    }
    None
}

// Takes the first entry out of the tree of a map whose first page has none.
fn take_first_over<K: RadixKey, V>(_head: &Page<K, V>, tree: &mut Tree<K, V>) -> Option<(K, V)>
    requires map { IsMap K.order K.is_key K.encoded _head.now.entries (pages_of tree.old.arena) }
    requires none { _head.now.entries ≡ [] }
    ensures map { IsMap K.order K.is_key K.encoded _head.now.entries (pages_of tree.new.arena) }
    ensures first { IfSome result (λ entry. map_entries _head.now.entries (pages_of tree.old.arena)
        ≡ entry ∷ map_entries _head.now.entries (pages_of tree.new.arena)) }
    ensures none { IfNone result (map_entries _head.now.entries (pages_of tree.old.arena) ≡ []) }
    ensures same { IfNone result (map_entries _head.now.entries (pages_of tree.new.arena) ≡ []) }
{
    let leaf = first_filled_leaf(tree)?;
    let entry = page_mut(tree, leaf).remove_at(0);
    settle(_head, tree, leaf);
    Some(entry)
}

/// Takes the first entry out of a map, if it has one. Is never refused.
pub(crate) fn take_first<K: RadixKey, V>(
    head: &mut Page<K, V>,
    tree: &mut Option<Box<Tree<K, V>>>,
) -> Option<(K, V)>
    requires { IsMap K.order K.is_key K.encoded head.old.entries
        (pages_in (λ tree. pages_of tree.value.arena) tree.old) }
    ensures map { IsMap K.order K.is_key K.encoded head.new.entries
        (pages_in (λ tree. pages_of tree.value.arena) tree.new) }
    ensures first { IfSome result (λ entry.
        map_entries head.old.entries (pages_in (λ tree. pages_of tree.value.arena) tree.old)
        ≡ entry ∷ map_entries head.new.entries (pages_in (λ tree. pages_of tree.value.arena) tree.new)) }
    ensures none { IfNone result
        (map_entries head.old.entries (pages_in (λ tree. pages_of tree.value.arena) tree.old) ≡ []) }
    ensures same { IfNone result
        (map_entries head.new.entries (pages_in (λ tree. pages_of tree.value.arena) tree.new) ≡ []) }
{
    if !head.is_empty() {
        return Some(head.remove_at(0));
    }
    match tree {
        Some(tree) => take_first_over(head, tree),
        None => None,
    }
}

// The leaf of the last page with entries, if there is one.
fn last_filled_leaf<K: RadixKey, V>(tree: &Tree<K, V>) -> Option<Leaf<K, V>>
    ensures { IsLastFilled tree.now.arena result }
{
    let mut at = last_page(tree);
    'leaves: while let Some(leaf) = at {
        if page(tree, leaf).1.is_empty() {
            at = previous_page(tree, leaf);
        } else {
            return Some(leaf);
        }
    }
    None
}

// Takes the last entry out of a page, if it has one.
fn take_last_in<K: RadixKey, V>(page: &mut Page<K, V>) -> Option<(K, V)>
    ensures last { IfSome result (λ entry. page.old.entries ≡ page.new.entries ++ entry ∷ []) }
    ensures none { IfNone result (page.old.entries ≡ []) }
    ensures same { IfNone result (page.new.entries ≡ page.old.entries) }
{
    let len = page.len();
    if len == 0 {
        return None;
    }
    Some(page.remove_at(len - 1))
}

// Takes the last entry out of the tree of a map, if a page of it has one.
fn take_last_of_tree<K: RadixKey, V>(_head: &Page<K, V>, tree: &mut Tree<K, V>) -> Option<(K, V)>
    requires { IsMap K.order K.is_key K.encoded _head.now.entries (pages_of tree.old.arena) }
    ensures map { IsMap K.order K.is_key K.encoded _head.now.entries (pages_of tree.new.arena) }
    ensures last { IfSome result (λ entry. map_entries _head.now.entries (pages_of tree.old.arena)
        ≡ map_entries _head.now.entries (pages_of tree.new.arena) ++ entry ∷ []) }
    ensures none { IfNone result (entries_in (pages_of tree.old.arena) ≡ []) }
    ensures same { IfNone result (pages_of tree.new.arena ≡ pages_of tree.old.arena) }
{
    let leaf = last_filled_leaf(tree)?;
    let last = page(tree, leaf).1.len() - 1;
    let entry = page_mut(tree, leaf).remove_at(last);
    settle(_head, tree, leaf);
    Some(entry)
}

// Takes the last entry out of a map that has a tree.
fn take_last_over<K: RadixKey, V>(head: &mut Page<K, V>, tree: &mut Tree<K, V>) -> Option<(K, V)>
    requires { IsMap K.order K.is_key K.encoded head.old.entries (pages_of tree.old.arena) }
    ensures map { IsMap K.order K.is_key K.encoded head.new.entries (pages_of tree.new.arena) }
    ensures last { IfSome result (λ entry. map_entries head.old.entries (pages_of tree.old.arena)
        ≡ map_entries head.new.entries (pages_of tree.new.arena) ++ entry ∷ []) }
    ensures none { IfNone result (map_entries head.old.entries (pages_of tree.old.arena) ≡ []) }
    ensures same { IfNone result (map_entries head.new.entries (pages_of tree.new.arena) ≡ []) }
{
    match take_last_of_tree(head, tree) {
        Some(entry) => Some(entry),
        None => take_last_in(head),
    }
}

/// Takes the last entry out of a map, if it has one. Is never refused.
pub(crate) fn take_last<K: RadixKey, V>(
    head: &mut Page<K, V>,
    tree: &mut Option<Box<Tree<K, V>>>,
) -> Option<(K, V)>
    requires { IsMap K.order K.is_key K.encoded head.old.entries
        (pages_in (λ tree. pages_of tree.value.arena) tree.old) }
    ensures map { IsMap K.order K.is_key K.encoded head.new.entries
        (pages_in (λ tree. pages_of tree.value.arena) tree.new) }
    ensures last { IfSome result (λ entry.
        map_entries head.old.entries (pages_in (λ tree. pages_of tree.value.arena) tree.old)
        ≡ map_entries head.new.entries (pages_in (λ tree. pages_of tree.value.arena) tree.new) ++ entry ∷ []) }
    ensures none { IfNone result
        (map_entries head.old.entries (pages_in (λ tree. pages_of tree.value.arena) tree.old) ≡ []) }
    ensures same { IfNone result
        (map_entries head.new.entries (pages_in (λ tree. pages_of tree.value.arena) tree.new) ≡ []) }
{
    match tree {
        Some(tree) => take_last_over(head, tree),
        None => take_last_in(head),
    }
}
