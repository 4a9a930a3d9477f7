//! Look-ups.
ghost use Rattle.std.specs.Prelude.{◌≡◌, is_some};
ghost use Rattle.std.specs.Option.{option_copied, option_map};
ghost use Rattle.art_pages.specs.Entries.{IsPlaceOf, get_by, get_key_by};
ghost use Rattle.art_map.specs.Pages.{map_entries, IsMap, IsPageOf};
ghost use Rattle.art_map.specs.Trees.{pages_in, pages_of};

use super::{Map, Tree};
use crate::spots::find_over;
use art_index::page;
use art_keys::{RadixKey, RadixQuery};
use art_pages::Page;

// The page where a query belongs, and its index there.
fn seat_over<'a, K: RadixKey, V, Q: RadixQuery<K>>(
    head: &'a Page<K, V>,
    tree: &'a Tree<K, V>,
    query: Q,
) -> (&'a Page<K, V>, Result<usize, usize>)
    requires { IsMap K.order K.is_key K.encoded head.now.entries (pages_of tree.now.arena) }
    ensures page { IsPageOf (Q.compare query) result.0.now.entries
        (map_entries head.now.entries (pages_of tree.now.arena)) }
    ensures place { IsPlaceOf (Q.compare query) result.0.now.entries result.1 }
{
    let (leaf, place) = find_over(head, tree, query);
    match leaf {
        Some(leaf) => (page(tree, leaf).1, place),
        None => (head, place),
    }
}

// The same, where there may be no tree.
fn seat_in<'a, K: RadixKey, V, Q: RadixQuery<K>>(
    head: &'a Page<K, V>,
    tree: &'a Option<Box<Tree<K, V>>>,
    query: Q,
) -> (&'a Page<K, V>, Result<usize, usize>)
    requires { IsMap K.order K.is_key K.encoded head.now.entries
        (pages_in (λ tree. pages_of tree.value.arena) tree.now) }
    ensures page { IsPageOf (Q.compare query) result.0.now.entries
        (map_entries head.now.entries (pages_in (λ tree. pages_of tree.value.arena) tree.now)) }
    ensures place { IsPlaceOf (Q.compare query) result.0.now.entries result.1 }
{
    match tree {
        Some(tree) => seat_over(head, tree, query),
        None => (head, head.search(query)),
    }
}

impl<K: RadixKey, V> Map<K, V> {
    /// The value under the key of a query.
    pub fn get<Q: RadixQuery<K>>(&self, key: Q) -> Option<&V>
        ensures { option_copied result ≡ get_by (Q.compare key) self.now }
    {
        let (_, value) = self.get_key_value(key)?;
        Some(value)
    }

    /// The key and the value under the key of a query.
    pub fn get_key_value<Q: RadixQuery<K>>(&self, key: Q) -> Option<(&K, &V)>
        ensures key { option_map (λ entry. entry.0.now) result ≡ get_key_by (Q.compare key) self.now }
        ensures value { option_map (λ entry. entry.1.now) result ≡ get_by (Q.compare key) self.now }
    {
        let (page, found) = seat_in(&self.head, &self.tree, key);
        match found {
            Ok(place) => Some(page.entry_at(place)),
            Err(_) => None,
        }
    }

    /// Whether there is an entry with the key of a query.
    pub fn contains_key<Q: RadixQuery<K>>(&self, key: Q) -> bool
        ensures { result ≡ is_some (get_by (Q.compare key) self.now) }
    {
        self.get(key).is_some()
    }
}
