//! A value changed in place, and a tree that is not empty.
ghost use Rattle.std.specs.Prelude.{◌≡◌, IsTrue};
ghost use Rattle.std.specs.Option.{option_map};
ghost use Rattle.art_steps.specs.Dictionary.{entry_at, IsEmpty};

use super::*;

/// Changes the value under a key, if the key is there.
fn set<K: AsBytes, const PREFIX_LEN: usize>(
    tree: &mut ArtTree<K, usize, PREFIX_LEN>,
    key: &[u8],
    number: usize,
) -> bool
    ensures { IsTrue result → entry_at K.text tree.new.arena key.now
        ≡ option_map (λ entry. (entry.0, number)) (entry_at K.text tree.old.arena key.now) }
{
    let Some(value) = tree.get_mut(key) else {
        return false;
    };
    *value = number;
    true
}

/// A tree of which a key is known has an entry.
fn has_some<K: AsBytes, V, const PREFIX_LEN: usize>(
    tree: &ArtTree<K, V, PREFIX_LEN>,
    key: &[u8],
) -> bool
    ensures { IsTrue result → ¬ IsEmpty K.text tree.now.arena }
{
    tree.contains_key(key)
}
