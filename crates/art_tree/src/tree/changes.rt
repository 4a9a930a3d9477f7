//! Entries of an [`ArtTree`] added and removed.
ghost use Rattle.std.specs.Prelude.{◌≡◌, ◌≢◌, ◌+◌, ℕ, List, Some, None, IfNone, IfOk, IfErr, OnOk, OnErr, IsOk};
ghost use Rattle.std.specs.Borrow.{sem};
ghost use Rattle.std.specs.Option.{UnwrapsOrElse, option_map};
ghost use Rattle.art_nodes.specs.Leaf.{leaf_key};
ghost use Rattle.art_nodes.specs.Pointers.{slab_key};
ghost use Rattle.art_arena.specs.Arena.{SameNodes, SameRoom};
ghost use Rattle.art_arena.specs.Links.{HoldsLeaf, leaf_at};
ghost use Rattle.art_steps.specs.Dictionary.{entry_at, HasKeys, IsEntry, SameEntries, SameOtherEntries};
ghost use Rattle.art_tree.specs.Entering.{FindsOrInserts, InsertsAt, IsPlaceOf, IsPresent, ReplacesEntry};
ghost use Rattle.art_tree.specs.Finding.{IsLeafOf};
ghost use Rattle.art_steps.specs.Insertion.{IsRefused, MayEnter};
ghost use Rattle.art_tree.specs.LeafRemoval.{TakesEntry};
ghost use Rattle.art_steps.specs.Leaves.{KeepsOtherLeaves};
ghost use Rattle.art_steps.specs.Places.{present_leaf};
ghost use Rattle.art_steps.specs.Removal.{NeedsSmallerNode};
ghost use Rattle.art_steps.specs.Room.{FreesOneEach, GrowsOnlyWhere, HasEntryRoom, LacksRoomToInsert, LacksRoomToRemove};
ghost use Rattle.art_tree.specs.TreeLending.{LendsEntryValue};
ghost use Rattle.art_steps.specs.declared.faults.InsertRefusal.TheVariants.{OutOfMemory};

use crate::insert::{RootAndPlace, insert_new, present};
use crate::remove::remove_leaf;
use crate::tree::ArtTree;
use art_arena::LeafPtr;
use art_bytes::AsBytes;
use art_nodes::LeafNode;
use art_search::TreePath;
use art_steps::{InsertFault, find_place};
use std::alloc::AllocError;

impl<K: AsBytes, V, const PREFIX_LEN: usize> ArtTree<K, V, PREFIX_LEN> {
    /// Adds an entry. Where an entry has the same key bytes, its key and its value are replaced and
    /// returned.
    ///
    /// The first of these refusals that is due is returned, with key and value: [`KeyTooLong`], a
    /// key of 2^32 bytes or more; [`Prefix`], where the key is a proper prefix of one in the tree,
    /// or one in the tree of the key; [`OutOfMemory`], only where no entry has the key bytes, the
    /// tree with them has more nodes of some kind, and that kind has no spare capacity. After a
    /// refusal every node and the root are unchanged. Where the key is at fault, the spare capacity
    /// is unchanged too.
    ///
    /// The capacity of a kind grows only where the tree with the key bytes has more nodes of the
    /// kind and there is no spare capacity for it. Each other leaf keeps its pointer. With room for
    /// some changes, as [`reserve_entries`](Self::reserve_entries) makes it, the refusal is not
    /// [`OutOfMemory`], and there is room for one change fewer afterwards.
    ///
    /// Visits the nodes on the way to the key's place, and then those on the way to a leaf beside
    /// it. Where a prefix on the way to the place is longer than `PREFIX_LEN`, it also visits those
    /// on the way to one leaf below, whose key has all such prefixes. Each time it visits at most
    /// one inner node for each byte of a key, so the visits are linear in the lengths of the keys.
    ///
    /// [`KeyTooLong`]: crate::InsertRefusal::KeyTooLong
    /// [`Prefix`]: crate::InsertRefusal::Prefix
    /// [`OutOfMemory`]: crate::InsertRefusal::OutOfMemory
    pub fn insert(&mut self, key: K, value: V) -> Result<Option<(K, V)>, InsertFault<K, V>>
        ensures replaced { IfOk result
            (λ before. before ≡ entry_at K.text self.old.arena (K.text key)) }
        ensures entry { OnOk result (IsEntry K.text self.new.arena (key, value)) }
        ensures others { OnOk result
            (SameOtherEntries K.text self.old.arena self.new.arena (K.text key)) }
        ensures leaves_stay { OnOk result
            (KeepsOtherLeaves K.text self.old.arena self.new.arena (K.text key)) }
        ensures no_refusal { OnOk result (MayEnter K.text self.old.arena (K.text key)) }
        ensures refusal_due { IfErr result
            (λ fault. IsRefused K.text self.old.arena (K.text key) fault.refusal) }
        ensures entry_back { IfErr result (λ fault. (fault.key ≡ key) × (fault.value ≡ value)) }
        ensures same_entries { OnErr result (SameEntries K.text self.old.arena self.new.arena) }
        ensures nodes_kept { OnErr result (SameNodes self.old.arena self.new.arena) }
        ensures root_kept { OnErr result (self.new.root ≡ self.old.root) }
        ensures untouched { IfErr result
            (λ fault. fault.refusal ≢ OutOfMemory → self.new ≡ self.old) }
        ensures no_room { IfErr result
            (λ fault. fault.refusal ≡ OutOfMemory → (kind : _) ×
            LacksRoomToInsert K.text self.old.arena self.old.root (K.text key) kind) }
        ensures takes_no_memory { entry_at K.text self.old.arena (K.text key) ≢ None →
            SameRoom self.old.arena self.new.arena }
        ensures memory { GrowsOnlyWhere self.old.arena self.new.arena
            (LacksRoomToInsert K.text self.old.arena self.old.root (K.text key)) }
        ensures room_suffices { (count : ℕ) → HasEntryRoom self.old.arena (count + 1) →
            IfErr result (λ fault. fault.refusal ≢ OutOfMemory) }
        ensures room_lasts { (count : ℕ) → HasEntryRoom self.old.arena (count + 1) →
            HasEntryRoom self.new.arena count }
        ensures is_key { K.is_key key }
        ensures are_keys { HasKeys K.text K.is_key self.old.arena }
    {
        let place = self.place_of(&key);
        match present(place) {
            Some((_, leaf)) => Ok(Some(self.replace(leaf, key, value))),
            None => {
                self.insert_at(place, key, value)?;
                Ok(None)
            }
        }
    }

    // Where a key belongs, with the root, or None where there is no entry.
    #[inline(always)]
    fn place_of(&self, key: &K) -> Option<RootAndPlace<K, V, PREFIX_LEN>>
        ensures place { IsPlaceOf K.text self.now (K.text key.now) result }
        ensures is_key { K.is_key key.now }
        ensures are_keys { HasKeys K.text K.is_key self.now.arena }
    {
        let text = key.as_bytes();
        let root = self.root?;
        Some((root, find_place(&self.arena, root, text)))
    }

    // Replaces the entry of a leaf by this one, which has the same key bytes, and returns the old one.
    fn replace(&mut self, leaf: LeafPtr<K, V, PREFIX_LEN>, key: K, value: V) -> (K, V)
        requires present { IsPresent K.text self.old leaf (K.text key) }
        requires is_key { K.is_key key }
        ensures { ReplacesEntry K.text self.old self.new key value result }
    {
        let old = self.arena.as_ref(leaf);
        let (previous, next) = (old.previous(), old.next());
        let mut new = LeafNode::with_no_siblings(key, value);
        new.set_links(previous, next);
        self.arena.replace(leaf, new).into_entry()
    }

    // Adds an entry with new key bytes at their place, and returns its leaf. A refused entry is returned.
    #[inline(always)]
    fn insert_at(
        &mut self,
        place: Option<RootAndPlace<K, V, PREFIX_LEN>>,
        key: K,
        value: V,
    ) -> Result<LeafPtr<K, V, PREFIX_LEN>, InsertFault<K, V>>
        requires place { IsPlaceOf K.text self.old (K.text key) place }
        requires new { present_leaf place ≡ None }
        requires is_key { K.is_key key }
        ensures { InsertsAt K.text self.old self.new key value result }
    {
        match insert_new(&mut self.arena, place, key, value) {
            Ok((root, leaf)) => {
                self.root = Some(root);
                Ok(leaf)
            }
            Err(fault) => Err(fault),
        }
    }

    /// Removes the entry with these key bytes, if there is one, and returns it. Where there is
    /// none, the tree is unchanged.
    ///
    /// An allocation may fail only where the parent of the entry's leaf has 5, 17 or 49 children,
    /// since a node of a smaller kind takes its place, and only where that kind has no spare
    /// capacity. After a failure every node and the root are unchanged. In all other cases no memory
    /// is taken, and each kind has spare capacity for at most one node more, the one that was freed.
    /// Each other leaf keeps its pointer. With room for some changes it succeeds, and there is room for
    /// one change fewer afterwards.
    ///
    /// Searches for the entry as [`get`](Self::get) does: at most one node visit more than the key
    /// has bytes. Then it changes the leaf's neighbours and at most three inner nodes: the two
    /// above the leaf, and the one that takes its parent's place.
    pub fn remove(&mut self, key: &[u8]) -> Result<Option<(K, V)>, AllocError>
        ensures removed { IfOk result (λ entry. entry ≡ entry_at K.text self.old.arena key.now) }
        ensures absent_kept { IfOk result (λ entry. IfNone entry (self.new ≡ self.old)) }
        ensures gone { OnOk result (entry_at K.text self.new.arena key.now ≡ None) }
        ensures others { OnOk result
            (SameOtherEntries K.text self.old.arena self.new.arena key.now) }
        ensures leaves_stay { OnOk result
            (KeepsOtherLeaves K.text self.old.arena self.new.arena key.now) }
        ensures refused { OnErr result (NeedsSmallerNode K.text self.old.arena key.now) }
        ensures same_entries { OnErr result (SameEntries K.text self.old.arena self.new.arena) }
        ensures nodes_kept { OnErr result (SameNodes self.old.arena self.new.arena) }
        ensures root_kept { OnErr result (self.new.root ≡ self.old.root) }
        ensures no_room { OnErr result ((kind : _) ×
            LacksRoomToRemove K.text self.old.arena self.old.root key.now kind) }
        ensures takes_no_memory { (¬ NeedsSmallerNode K.text self.old.arena key.now) →
            FreesOneEach self.old.arena self.new.arena }
        ensures memory { GrowsOnlyWhere self.old.arena self.new.arena
            (LacksRoomToRemove K.text self.old.arena self.old.root key.now) }
        ensures room_suffices { (count : ℕ) → HasEntryRoom self.old.arena (count + 1) → IsOk result }
        ensures room_lasts { (count : ℕ) → HasEntryRoom self.old.arena (count + 1) →
            HasEntryRoom self.new.arena count }
    {
        let Some((leaf, path)) = self.find(key) else {
            return Ok(None);
        };
        let entry = self.remove_found(leaf, path)?;
        Ok(Some(entry))
    }

    /// Removes the entry of a leaf and returns it. The arena must hold the leaf, as it holds those that
    /// the links lead to.
    ///
    /// Allocation fails as in [`remove`](Self::remove) of the leaf's key, and no other; room lasts as
    /// there. After a failure every node and the root are unchanged. Each other leaf keeps its pointer.
    ///
    /// Costs as much as [`remove`](Self::remove): it goes down to the leaf by its key.
    pub fn remove_leaf(&mut self, ptr: LeafPtr<K, V, PREFIX_LEN>) -> Result<(K, V), AllocError>
        requires { HoldsLeaf self.old.arena (slab_key ptr) }
        ensures { (leaf : _) → leaf_at self.old.arena (slab_key ptr) ≡ Some leaf →
            TakesEntry K.text self.old self.new (K.text (leaf_key leaf)) result }
    {
        let key = self.arena.as_key_ref(ptr).as_bytes();
        let (leaf, path) = self.find(key).unwrap();
        self.remove_found(leaf, path)
    }

    // Removes the entry of a leaf, to which this path leads, and returns it.
    pub(super) fn remove_found(
        &mut self,
        leaf: LeafPtr<K, V, PREFIX_LEN>,
        path: TreePath<K, V, PREFIX_LEN>,
    ) -> Result<(K, V), AllocError>
        requires { (text : List ℕ) × IsLeafOf K.text self.old leaf path text }
        ensures { (text : List ℕ) → IsLeafOf K.text self.old leaf path text →
            TakesEntry K.text self.old self.new text result }
    {
        let (root, entry) = remove_leaf(&mut self.arena, self.root.unwrap(), leaf, path)?;
        self.root = root;
        Ok(entry)
    }
}

impl<K: AsBytes + Drop, V, const PREFIX_LEN: usize> ArtTree<K, V, PREFIX_LEN> {
    /// A mutable reference to the value of the entry with these key bytes. Where there is none, an
    /// entry with the key and the value that the closure makes is added first. The entry ends with the
    /// value that the caller leaves there. Where it was there, its key stays, and every other node and
    /// the root are unchanged.
    ///
    /// Only a key without an entry is refused, as [`insert`](Self::insert) refuses it, with the key and
    /// the value that was made. After a refusal every node and the root are unchanged. Costs one
    /// [`insert`](Self::insert).
    pub fn get_or_insert_with<F: FnOnce() -> V>(
        &mut self,
        key: K,
        make: F,
    ) -> Result<&mut V, InsertFault<K, V>>
        requires { F.pre make }
        ensures* writes_back { sem 𝓛 (LendsEntryValue K.row V.row PREFIX_LEN.row K.text K.is_key
            self.entry key result) }
        ensures value { IfOk result (λ value. UnwrapsOrElse
            (option_map (λ entry. entry.1) (entry_at K.text self.old.arena (K.text key)))
            (F.post make) value.now) }
        ensures no_refusal { OnOk result (MayEnter K.text self.old.arena (K.text key)) }
        ensures refusal_due { IfErr result
            (λ fault. IsRefused K.text self.old.arena (K.text key) fault.refusal) }
        ensures entry_back { IfErr result (λ fault. (fault.key ≡ key) × F.post make fault.value) }
        ensures no_room { IfErr result
            (λ fault. fault.refusal ≡ OutOfMemory → (kind : _) ×
            LacksRoomToInsert K.text self.old.arena self.old.root (K.text key) kind) }
        ensures is_key { K.is_key key }
    {
        let leaf = self.find_or_insert(key, make)?;
        Ok(self.arena.as_value_mut(leaf))
    }

    // The leaf with a key, which is added with the value that the closure makes where there is none.
    fn find_or_insert<F: FnOnce() -> V>(
        &mut self,
        key: K,
        make: F,
    ) -> Result<LeafPtr<K, V, PREFIX_LEN>, InsertFault<K, V>>
        requires { F.pre make }
        ensures found { FindsOrInserts K.text self.old self.new key (F.post make) result }
        ensures is_key { K.is_key key }
    {
        let place = self.place_of(&key);
        match present(place) {
            Some((_, leaf)) => Ok(leaf),
            None => self.insert_at(place, key, make()),
        }
    }
}
