//! Entries of an [`ArtTree`] by key, to be read or to be changed in place, and their number.
ghost use Rattle.std.specs.Prelude.{◌≡◌, ◌↔◌, Some, IsTrue, length};
ghost use Rattle.std.specs.Borrow.{sem};
ghost use Rattle.std.specs.Option.{option_copied, option_copied_mut, option_map};
ghost use Rattle.art_header.specs.declared.node_type.NodeType.{NodeType};
ghost use Rattle.art_nodes.specs.Leaf.{leaf_key, leaf_value, with_value};
ghost use Rattle.art_nodes.specs.Pointers.{slab_key, opaque_pointer};
ghost use Rattle.art_arena.specs.Arena.{Changes, HeldLeaf};
ghost use Rattle.art_arena.specs.Links.{HoldsLeaf, leaf_at, with_value_at};
ghost use Rattle.art_steps.specs.Dictionary.{entry_at, HasEntry, IsEmpty};
ghost use Rattle.art_tree.specs.Entries.{entries_of};
ghost use Rattle.art_tree.specs.Finding.{IsFound};
ghost use Rattle.art_tree.specs.TreeLending.{LendsLeafValue, LendsValueAt};

use crate::tree::{ArtTree, FoundLeaf};
use art_arena::{ArenaReader, LeafPtr};
use art_bytes::AsBytes;
use art_search::find_leaf;

impl<K: AsBytes, V, const PREFIX_LEN: usize> ArtTree<K, V, PREFIX_LEN> {
    // The leaf with these key bytes and the path to it, if there is one. Inlined, as `find_leaf` is.
    #[inline(always)]
    pub(super) fn find(&self, key: &[u8]) -> Option<FoundLeaf<K, V, PREFIX_LEN>>
        ensures { IsFound K.text self.now key.now result }
    {
        let root = self.root?;
        let mut reader = ArenaReader::with_budget(&self.arena, key.len() + 1);
        find_leaf(&mut reader, root, key)
    }

    /// The value of the entry with these key bytes, or None where there is none. Costs one
    /// [`find_leaf`](crate::find_leaf): at most one node visit more than the key has bytes. Takes no
    /// memory.
    pub fn get(&self, key: &[u8]) -> Option<&V>
        ensures { option_copied result
            ≡ option_map (λ entry. entry.1) (entry_at K.text self.now.arena key.now) }
    {
        let (_, value) = self.get_key_value(key)?;
        Some(value)
    }

    /// Key and value of the entry with these key bytes, or None where there is none. Costs as much
    /// as [`get`](Self::get). Takes no memory.
    pub fn get_key_value(&self, key: &[u8]) -> Option<(&K, &V)>
        ensures { option_map (λ (key, value). (key.now, value.now)) result
            ≡ entry_at K.text self.now.arena key.now }
    {
        let (leaf, _) = self.find(key)?;
        Some(self.arena.as_key_value_ref(leaf))
    }

    /// A mutable reference to the value of the entry with these key bytes, or None where there is
    /// none. The entry ends with the value that the caller leaves there. Its key, every other
    /// entry, every other node and the root are unchanged. Where there is none, the tree is
    /// unchanged. Costs as much as [`get`](Self::get). Takes no memory.
    pub fn get_mut(&mut self, key: &[u8]) -> Option<&mut V>
        ensures* writes_back { sem 𝓛 (LendsValueAt K.row V.row PREFIX_LEN.row K.text K.is_key
            self.entry key.now result) }
        ensures value { option_copied_mut result
            ≡ option_map (λ entry. entry.1) (entry_at K.text self.old.arena key.now) }
    {
        let (leaf, _) = self.find(key)?;
        Some(self.arena.as_value_mut(leaf))
    }

    /// Whether an entry has these key bytes. Costs as much as [`get`](Self::get). Takes no memory.
    pub fn contains_key(&self, key: &[u8]) -> bool
        ensures { IsTrue result ↔ HasEntry K.text self.now.arena key.now }
    {
        self.get_key_value(key).is_some()
    }

    /// Whether there is no entry. Takes constant time and no memory.
    pub fn is_empty(&self) -> bool
        ensures { IsTrue result ↔ IsEmpty K.text self.now.arena }
    {
        self.root.is_none()
    }

    /// The number of entries. Takes constant time and no memory.
    pub fn len(&self) -> usize
        ensures { result ≡ length (entries_of K.text self.now.arena) }
    {
        self.arena.leaf_count()
    }

    /// The key of a leaf, and a mutable reference to its value. The arena must hold the leaf, as it
    /// holds those that `first`, `last` and the links lead to. The leaf ends with the value that the
    /// caller leaves there. Its key and links, every other node and the root are unchanged. Takes
    /// constant time and no memory.
    pub fn as_key_ref_value_mut(&mut self, ptr: LeafPtr<K, V, PREFIX_LEN>) -> (&K, &mut V)
        requires { HoldsLeaf self.old.arena (slab_key ptr) }
        ensures* writes_back { sem 𝓛 (LendsLeafValue K.row V.row PREFIX_LEN.row K.text K.is_key
            self.entry (slab_key ptr) result.1) }
        ensures key { option_map leaf_key (leaf_at self.old.arena (slab_key ptr))
            ≡ Some result.0.now }
        ensures value { option_map leaf_value (leaf_at self.old.arena (slab_key ptr))
            ≡ Some result.1.now }
        ensures changes { (leaf value : _) →
            leaf_at self.old.arena (slab_key ptr) ≡ Some leaf →
            Changes self.old.arena (with_value_at self.old.arena (slab_key ptr) value)
            (opaque_pointer NodeType.Leaf (slab_key ptr)) (HeldLeaf (with_value leaf value)) }
    {
        self.arena.as_key_ref_value_mut(ptr)
    }
}
