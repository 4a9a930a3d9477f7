//! A walk along the pages of a map, in which each entry is tested in turn, and stays or is dropped.
ghost use Rattle.std.specs.Prelude.{◌≡◌, ◌+◌, ◌≤◌, ◌++◌, List, ℕ, IfSome, length, map};
ghost use Rattle.std.specs.Map.Calls.{CallableOnEachPair, RetainsPairs};
ghost use Rattle.art_index.specs.Places.{IsPlaced};
ghost use Rattle.art_pages.specs.Contents.{PageContents};
ghost use Rattle.art_pages.specs.Retaining.{RetainsTo};
ghost use Rattle.art_map.specs.Pages.{entries_in, map_entries, IsMap};
ghost use Rattle.art_map.specs.Trees.{page_of, pages_in, pages_of};
ghost use Rattle.art_map.specs.Walk.{ArePagesUpTo, IsAt};

use crate::map::{Leaf, Tree};
use art_index::{first_page, next_page, page, page_mut, previous_page, take_page};
use art_keys::RadixKey;
use art_pages::{Keeps, Page};

// Tests the entries of the page of a leaf, and returns how many are gone.
fn retain_at<K: RadixKey + Drop, V: Drop, F: Keeps<K, V>>(
    tree: &mut Tree<K, V>,
    leaf: Leaf<K, V>,
    test: &mut F,
) -> usize
    requires { (here : IsPlaced (λ anchor. anchor) tree.old.arena leaf) ×
        CallableOnEachPair F.step F.accepts test.old here.entry.1.entries }
    ensures map { (head : List (K × V)) →
        IsMap K.order K.is_key K.encoded head (pages_of tree.old.arena) →
        IsMap K.order K.is_key K.encoded head (pages_of tree.new.arena) }
    ensures retained { (here : IsPlaced (λ anchor. anchor) tree.old.arena leaf) →
        (now : IsPlaced (λ anchor. anchor) tree.new.arena leaf) ×
        (now.left ≡ here.left) × (now.right ≡ here.right) ×
        RetainsTo F.step test.old here.entry.1.entries now.entry.1.entries test.new ×
        (length now.entry.1.entries + result ≡ length here.entry.1.entries) }
{
    page_mut(tree, leaf).retain(test)
}

// Takes the page of a leaf out of a tree, if it has no entries and memory is not refused for that.
// Returns the leaf of the last page up to there.
fn drop_emptied<K: RadixKey + Drop, V: Drop>(
    tree: &mut Tree<K, V>,
    leaf: Leaf<K, V>,
) -> Option<Leaf<K, V>>
    requires { IsPlaced (λ anchor. anchor) tree.old.arena leaf }
    ensures map { (head : List (K × V)) →
        IsMap K.order K.is_key K.encoded head (pages_of tree.old.arena) →
        IsMap K.order K.is_key K.encoded head (pages_of tree.new.arena) }
    ensures passed { (here : IsPlaced (λ anchor. anchor) tree.old.arena leaf) →
        (seen : List (List ℕ × PageContents K V)) × ArePagesUpTo tree.new.arena result seen here.right ×
        (entries_in (map page_of seen) ≡ entries_in (map page_of here.left) ++ here.entry.1.entries) }
{
    if !page(tree, leaf).1.is_empty() {
        return Some(leaf);
    }
    let previous = previous_page(tree, leaf);
    match take_page(tree, leaf) {
        Ok((_anchor, _emptied)) => previous,
        Err(_) => Some(leaf),
    }
}

// The leaf of the page behind one, or of the first page.
fn page_behind<K: RadixKey, V>(tree: &Tree<K, V>, last: Option<Leaf<K, V>>) -> Option<Leaf<K, V>>
    requires { IfSome last (λ leaf. IsPlaced (λ anchor. anchor) tree.now.arena leaf) }
    ensures { (seen rest : List (List ℕ × PageContents K V)) → ArePagesUpTo tree.now.arena last seen rest →
        IsAt tree.now.arena result seen rest }
{
    match last {
        Some(leaf) => next_page(tree, leaf),
        None => first_page(tree),
    }
}

// Tests all entries of a tree that has so many entries or fewer, and returns so many without those that
// are gone.
fn retain_over<K: RadixKey + Drop, V: Drop, F: Keeps<K, V>>(
    tree: &mut Tree<K, V>,
    len: usize,
    test: &mut F,
) -> usize
    requires callable { CallableOnEachPair F.step F.accepts test.old
        (entries_in (pages_of tree.old.arena)) }
    requires len { length (entries_in (pages_of tree.old.arena)) ≤ len }
    ensures map { (head : List (K × V)) →
        IsMap K.order K.is_key K.encoded head (pages_of tree.old.arena) →
        IsMap K.order K.is_key K.encoded head (pages_of tree.new.arena) }
    ensures retained { RetainsTo F.step test.old (entries_in (pages_of tree.old.arena))
        (entries_in (pages_of tree.new.arena)) test.new }
    ensures len { result + length (entries_in (pages_of tree.old.arena))
        ≡ len + length (entries_in (pages_of tree.new.arena)) }
{
    let mut len = len;
    let mut at = page_behind(tree, None);
    'pages: while let Some(leaf) = at {
        len -= retain_at(tree, leaf, test);
        let last = drop_emptied(tree, leaf);
        at = page_behind(tree, last);
    }
    len
}

// The same where there may be no tree.
fn retain_behind<K: RadixKey + Drop, V: Drop, F: Keeps<K, V>>(
    tree: &mut Option<Box<Tree<K, V>>>,
    len: usize,
    test: &mut F,
) -> usize
    requires callable { CallableOnEachPair F.step F.accepts test.old
        (entries_in (pages_in (λ tree. pages_of tree.value.arena) tree.old)) }
    requires len { length (entries_in (pages_in (λ tree. pages_of tree.value.arena) tree.old)) ≤ len }
    ensures map { (head : List (K × V)) →
        IsMap K.order K.is_key K.encoded head (pages_in (λ tree. pages_of tree.value.arena) tree.old) →
        IsMap K.order K.is_key K.encoded head (pages_in (λ tree. pages_of tree.value.arena) tree.new) }
    ensures retained { RetainsTo F.step test.old
        (entries_in (pages_in (λ tree. pages_of tree.value.arena) tree.old))
        (entries_in (pages_in (λ tree. pages_of tree.value.arena) tree.new)) test.new }
    ensures len { result + length (entries_in (pages_in (λ tree. pages_of tree.value.arena) tree.old))
        ≡ len + length (entries_in (pages_in (λ tree. pages_of tree.value.arena) tree.new)) }
{
    match tree {
        Some(tree) => retain_over(tree, len, test),
        None => len,
    }
}

/// Tests all entries of a map, which has so many, in turn, and drops those that the test does not keep.
/// Returns how many are left. Is never refused.
pub(crate) fn retain<K: RadixKey + Drop, V: Drop, F: Keeps<K, V>>(
    head: &mut Page<K, V>,
    tree: &mut Option<Box<Tree<K, V>>>,
    len: usize,
    test: F,
) -> usize
    requires map { IsMap K.order K.is_key K.encoded head.old.entries
        (pages_in (λ tree. pages_of tree.value.arena) tree.old) }
    requires callable { CallableOnEachPair F.step F.accepts test
        (map_entries head.old.entries (pages_in (λ tree. pages_of tree.value.arena) tree.old)) }
    requires len { len
        ≡ length (map_entries head.old.entries (pages_in (λ tree. pages_of tree.value.arena) tree.old)) }
    ensures map { IsMap K.order K.is_key K.encoded head.new.entries
        (pages_in (λ tree. pages_of tree.value.arena) tree.new) }
    ensures retained { RetainsPairs F.step test
        (map_entries head.old.entries (pages_in (λ tree. pages_of tree.value.arena) tree.old))
        (map_entries head.new.entries (pages_in (λ tree. pages_of tree.value.arena) tree.new)) }
    ensures len { result
        ≡ length (map_entries head.new.entries (pages_in (λ tree. pages_of tree.value.arena) tree.new)) }
{
    let mut test = test;
    let gone = head.retain(&mut test);
    retain_behind(tree, len - gone, &mut test)
}
