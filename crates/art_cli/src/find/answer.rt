//! The result of a query.
ghost use Rattle.art_cli.specs.Find.{Entries};
ghost use Rattle.art_cli.specs.Answer.{HoldsEntries, IsFindAnswer};

use art_tree::laws::entries_are_what_leaves_hold;
use art_tree::{ArenaReader, ArtTree, AsBytes, TreePath, find_leaf};

/// The number of an entry, and the path to its leaf.
pub(crate) type Found<K, const PREFIX_LEN: usize> = (usize, TreePath<K, usize, PREFIX_LEN>);

/// The entry with this key, if there is one, and how many nodes the search visits.
pub(crate) fn answer<K: AsBytes, const PREFIX_LEN: usize>(
    tree: &ArtTree<K, usize, PREFIX_LEN>,
    query: &[u8],
) -> (Option<Found<K, PREFIX_LEN>>, usize)
    ensures { (entries : Entries) → HoldsEntries K.text tree.now.arena entries →
        IsFindAnswer entries query.now result.0 result.1 }
{
    entries_are_what_leaves_hold::<K, usize, PREFIX_LEN>();
    let Some(root) = tree.root() else {
        return (None, 0);
    };
    let arena = tree.arena();
    let budget = query.len() + 1;
    let mut reader = ArenaReader::with_budget(arena, budget);
    let found = find_leaf(&mut reader, root, query);
    let reads = budget - reader.remaining();
    match found {
        Some((leaf, path)) => (Some((*arena.as_value_ref(leaf), path)), reads),
        None => (None, reads),
    }
}
