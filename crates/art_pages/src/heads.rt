//! The heads of a page: eight bytes of the encoding of each key, behind the bytes that all of them share. They guess
//! where an entry is, for keys of strings. What a search returns does not rest on them, so a page may have none, as after
//! an allocation failure.
ghost use Rattle.std.specs.Prelude.{◌<◌, ◌≤◌, length};

use crate::guess::{entries_below, heads_below};
use art_keys::{RadixKey, RadixQuery};
use std::alloc::Global;
use std::mem;

/// How many more bytes the keys have to share before all heads are read anew.
const FEW_BYTES: u32 = 4;

/// A page with fewer entries has no heads: it is searched by its keys.
pub(crate) const FEWEST_HEADS: usize = 16;

/// The heads of all entries of a page, or none.
#[derive(Drop)]
pub(crate) struct Heads {
    skip: u32,
    heads: Vec<u64>,
}

impl Heads {
    pub(crate) fn new(alloc: Global) -> Self {
        Heads {
            skip: 0,
            heads: Vec::new(alloc),
        }
    }

    /// An index at which the entry of a query may be.
    #[inline]
    pub(crate) fn guess<K: RadixKey, V, Q: RadixQuery<K>>(
        &self,
        pairs: &[(K, V)],
        query: Q,
    ) -> usize
        ensures { result ≤ length pairs.now }
    {
        if !K::WANTS_HEADS {
            return entries_below(pairs, query);
        }
        if self.heads.len() != pairs.len() {
            return 0;
        }
        heads_below(self.heads.as_slice(), query.encoded_head(self.skip))
    }

    /// Takes memory for this many more heads, if there is some.
    pub(crate) fn reserve<K: RadixKey>(&mut self, more: usize) {
        if K::WANTS_HEADS {
            let _reserved = self.heads.try_reserve_exact(more);
        }
    }

    /// Follows an insert of the entry at an index.
    #[inline]
    pub(crate) fn follow_insert<K: RadixKey, V>(&mut self, pairs: &[(K, V)], place: usize)
        requires { place < length pairs.now }
    {
        if K::WANTS_HEADS {
            self.add(pairs, place);
        }
    }

    fn add<K: RadixKey, V>(&mut self, pairs: &[(K, V)], place: usize)
        requires { place < length pairs.now }
    {
        let len = pairs.len();
        if len < FEWEST_HEADS {
            self.heads.clear();
            return;
        }
        // A key between two others shares what they share.
        let is_end = place == 0 || place == len - 1;
        let is_apart = is_end && self.skip != 0 && shared_len(pairs) < self.skip;
        if is_apart || self.heads.len() != len - 1 {
            self.read_all(pairs);
            return;
        }
        if self
            .heads
            .insert(place, pairs[place].0.encoded_head(self.skip))
            .is_err()
        {
            self.heads.clear();
        }
    }

    /// Follows the removal of the entry at an index.
    #[inline]
    pub(crate) fn follow_remove(&mut self, place: usize) {
        if place < self.heads.len() {
            let _head = self.heads.remove(place);
        }
    }

    /// Follows a cut of the entries before these.
    pub(crate) fn follow_split<K: RadixKey, V>(
        &mut self,
        lower: &[(K, V)],
        upper: &[(K, V)],
        room: usize,
    ) -> Self {
        let alloc = *self.heads.allocator();
        if !K::WANTS_HEADS {
            return Heads::new(alloc);
        }
        let mut cut = Vec::new(alloc);
        if lower.len() <= self.heads.len() {
            if let Ok(heads) = self.heads.split_off(lower.len()) {
                cut = heads;
            }
        }
        let _reserved = cut.try_reserve_exact(room.saturating_sub(cut.len()));
        let mut heads = Heads {
            skip: self.skip,
            heads: cut,
        };
        self.skip_more(lower);
        heads.skip_more(upper);
        heads
    }

    /// Follows a change that leaves these entries.
    pub(crate) fn follow_entries<K: RadixKey, V>(&mut self, pairs: &[(K, V)]) {
        if K::WANTS_HEADS {
            self.read_all(pairs);
        }
    }

    /// Follows a cut of the entries from an index on.
    pub(crate) fn follow_truncate(&mut self, len: usize) {
        self.heads.truncate(len);
    }

    // Reads all heads behind the bytes that the keys share now, where these are some more.
    fn skip_more<K: RadixKey, V>(&mut self, pairs: &[(K, V)]) {
        if self.heads.len() != pairs.len()
            || self.skip.saturating_add(FEW_BYTES) <= shared_len(pairs)
        {
            self.read_all(pairs);
        }
    }

    // Reads all heads behind the bytes that the keys share.
    #[inline(never)]
    fn read_all<K: RadixKey, V>(&mut self, pairs: &[(K, V)]) {
        self.heads.clear();
        self.skip = shared_len(pairs);
        if self.heads.try_reserve_exact(pairs.len()).is_err() {
            return;
        }
        for pair in pairs {
            if self.heads.push(pair.0.encoded_head(self.skip)).is_err() {
                self.heads.clear();
                return;
            }
        }
    }
}

/// How many bytes the encodings of the first and the last of these keys share, and so all of them; where they are more than
/// 504, some of these.
fn shared_len<K: RadixKey, V>(pairs: &[(K, V)]) -> u32 {
    let (Some(first), Some(last)) = (pairs.first(), pairs.last()) else {
        return 0;
    };
    for word in 0..64u32 {
        let one = first.0.encoded_head(8 * word);
        let other = last.0.encoded_head(8 * word);
        if one != other {
            return 8 * word + (one ^ other).leading_zeros() / 8;
        }
        if one == 0 {
            return 0;
        }
    }
    512
}
