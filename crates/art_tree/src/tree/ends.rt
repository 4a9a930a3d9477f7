//! The first and the last entry of an [`ArtTree`].
ghost use Rattle.std.specs.Prelude.{◌≢◌, ℕ, List, IfSome, IfNone};
ghost use Rattle.std.specs.declared.cmp.Ordering.TheVariants.{Less, Greater};
ghost use Rattle.art_bytes.specs.Text.{text_order};
ghost use Rattle.art_arena.specs.declared.ends.End.TheVariants.{First, Last};
ghost use Rattle.art_steps.specs.Dictionary.{IsEntry, HasEntry, IsEmpty};
ghost use Rattle.art_steps.specs.Ends.{IsWithin, PopsEntry};
ghost use Rattle.art_tree.specs.Finding.{IsEndFound};

use crate::remove::end_place::end_place;
use crate::tree::{ArtTree, FoundLeaf};
use art_arena::{End, end_leaf};
use art_bytes::AsBytes;
use std::alloc::AllocError;

impl<K: AsBytes, V, const PREFIX_LEN: usize> ArtTree<K, V, PREFIX_LEN> {
    /// Key and value of the entry with the least key bytes, or None where there is no entry. Visits
    /// at most one inner node for each byte of that key. Takes no memory.
    pub fn first(&self) -> Option<(&K, &V)>
        ensures entry { IfSome result
            (λ (key, value). IsEntry K.text self.now.arena (key.now, value.now)) }
        ensures least { IfSome result (λ (key, value). (other : List ℕ) →
            HasEntry K.text self.now.arena other → text_order (K.text key.now) other ≢ Greater) }
        ensures none { IfNone result (IsEmpty K.text self.now.arena) }
    {
        self.end_entry(End::First)
    }

    /// Key and value of the entry with the greatest key bytes, or None where there is no entry.
    /// Visits at most one inner node for each byte of that key. Takes no memory.
    pub fn last(&self) -> Option<(&K, &V)>
        ensures entry { IfSome result
            (λ (key, value). IsEntry K.text self.now.arena (key.now, value.now)) }
        ensures greatest { IfSome result (λ (key, value). (other : List ℕ) →
            HasEntry K.text self.now.arena other → text_order (K.text key.now) other ≢ Less) }
        ensures none { IfNone result (IsEmpty K.text self.now.arena) }
    {
        self.end_entry(End::Last)
    }

    // The entry at one end.
    fn end_entry(&self, end: End) -> Option<(&K, &V)>
        ensures entry { IfSome result
            (λ (key, value). IsEntry K.text self.now.arena (key.now, value.now)) }
        ensures at_end { IfSome result (λ (key, value). (other : List ℕ) →
            HasEntry K.text self.now.arena other → IsWithin end (K.text key.now) other) }
        ensures none { IfNone result (IsEmpty K.text self.now.arena) }
    {
        let root = self.root?;
        let leaf = end_leaf(&self.arena, root, end);
        Some(self.arena.as_key_value_ref(leaf))
    }

    /// Removes the entry with the least key bytes and returns it, or None where there is no entry.
    ///
    /// Allocation fails as in [`remove`](Self::remove) of that entry, and no other; room lasts as
    /// there. After a failure every node and the root are unchanged. Each other leaf keeps its pointer.
    ///
    /// Costs as much as [`remove`](Self::remove).
    pub fn pop_first(&mut self) -> Result<Option<(K, V)>, AllocError>
        ensures { PopsEntry K.text self.old self.new First result }
    {
        self.pop_end(End::First)
    }

    /// Removes the entry with the greatest key bytes and returns it, or None where there is no
    /// entry.
    ///
    /// Allocation fails as in [`remove`](Self::remove) of that entry, and no other; room lasts as
    /// there. After a failure every node and the root are unchanged. Each other leaf keeps its pointer.
    ///
    /// Costs as much as [`remove`](Self::remove).
    pub fn pop_last(&mut self) -> Result<Option<(K, V)>, AllocError>
        ensures { PopsEntry K.text self.old self.new Last result }
    {
        self.pop_end(End::Last)
    }

    // Removes the entry at one end, if there is one.
    fn pop_end(&mut self, end: End) -> Result<Option<(K, V)>, AllocError>
        ensures { PopsEntry K.text self.old self.new end result }
    {
        let Some((leaf, path)) = self.find_end(end) else {
            return Ok(None);
        };
        let entry = self.remove_found(leaf, path)?;
        Ok(Some(entry))
    }

    // The leaf of the entry at one end and the path to it, if there is one.
    fn find_end(&self, end: End) -> Option<FoundLeaf<K, V, PREFIX_LEN>>
        ensures { IsEndFound K.text self.now end result }
    {
        let root = self.root?;
        Some(end_place(&self.arena, root, end))
    }
}
