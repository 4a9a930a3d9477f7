//! All entries of an [`ArtTree`] at once: loaded, removed, or moved to memory in their order.
ghost use Rattle.std.specs.Prelude.{◌≡◌, ℕ, List, All, Contains, None, IfOk, IfErr, OnOk, OnErr};
ghost use Rattle.art_arena.specs.Arena.{capacity, room, SameCapacity};
ghost use Rattle.art_steps.specs.Dictionary.{HasEntry, IsEmpty, IsEntry, SameEntries};
ghost use Rattle.art_steps.specs.Refusals.{texts_of, HaveNoFault, IsDue};

use crate::loading::{load, reload};
use crate::tree::{ArtTree, Rooted};
use art_arena::NodeArena;
use art_bytes::AsBytes;
use art_steps::LoadFault;
use std::alloc::{AllocError, Global};

impl<K: AsBytes + Drop, V: Drop, const PREFIX_LEN: usize> ArtTree<K, V, PREFIX_LEN> {
    /// Makes a tree of these entries, whose keys must ascend and of which none may be a prefix of
    /// another.
    ///
    /// The refusals are those of [`load`]: no entries, a key of 2^32 bytes or more, keys that do
    /// not ascend, a key that is a proper prefix of the next one, and out of memory. A refusal
    /// returns the entries in their order.
    ///
    /// Takes time linear in the key bytes of all entries together.
    pub fn load(alloc: Global, entries: Vec<(K, V)>) -> Result<Self, LoadFault<K, V>>
        ensures entries { IfOk result (λ tree. All (IsEntry K.text tree.arena) entries.items) }
        ensures no_others { IfOk result (λ tree. (key : List ℕ) →
            HasEntry K.text tree.arena key → Contains (texts_of K.text entries.items) key) }
        ensures no_fault { OnOk result (HaveNoFault (texts_of K.text entries.items)) }
        ensures refusal_due { IfErr result
            (λ fault. IsDue (texts_of K.text entries.items) fault.refusal) }
        ensures entries_back { IfErr result (λ fault. fault.entries ≡ entries) }
    {
        let mut arena = NodeArena::new(alloc);
        match load(alloc, &mut arena, entries) {
            Ok(root) => Ok(Rooted {
                arena,
                root: Some(root),
                alloc,
            }),
            Err(fault) => Err(fault),
        }
    }

    /// Removes every entry. The capacity of each kind of node is unchanged. Takes no memory, and time
    /// linear in the most entries that there were since the tree was made or last cleared.
    pub fn clear(&mut self)
        ensures no_entry { IsEmpty K.text self.new.arena }
        ensures no_root { self.new.root ≡ None }
        ensures capacity { SameCapacity self.old.arena self.new.arena }
        ensures room { (kind : _) → room self.new.arena kind ≡ capacity self.old.arena kind }
    {
        self.arena.clear();
        self.root = None;
    }

    /// Makes the tree anew, with the same entries, as [`load`](Self::load) makes it of them: leaves
    /// and nodes lie in memory in the order of the keys, and each kind has capacity for those that
    /// there are (for four where they are fewer). So going over the entries in order goes through
    /// memory in order, and spare capacity is given back, which is all that `shrink_to_fit` of the
    /// collections of std does.
    ///
    /// Leaves and nodes get new pointers. All memory is taken before an entry moves: while the call
    /// runs, there are the old tree, the new one, the entries once more, and working memory of some
    /// hundred bytes for each. The old tree's memory is given back before the new one is written, so
    /// memory that the system provides when it is written peaks lower. Where memory is refused, the
    /// tree is unchanged, pointers too.
    ///
    /// Takes time linear in the key bytes of all entries together.
    ///
    /// (from tests/art_tree_tests/tree/refusals.rt.txt)
    /// ```rust
    /// tree.compact()?;
    /// ```
    pub fn compact(&mut self) -> Result<(), AllocError>
        ensures same_entries { SameEntries K.text self.old.arena self.new.arena }
        ensures unchanged { OnErr result (self.new ≡ self.old) }
    {
        let mut arena = NodeArena::new(self.alloc);
        let Some(root) = self.root else {
            self.arena = arena;
            return Ok(());
        };
        let root = reload(self.alloc, &mut self.arena, root, &mut arena)?;
        self.arena = arena;
        self.root = Some(root);
        Ok(())
    }
}
