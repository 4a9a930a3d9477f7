//! The header of an inner node: its count of children and its compressed prefix.
ghost use Rattle.std.specs.Prelude.{◌≡◌, ℕ, ◌+◌, ◌-◌, ◌^◌, ◌<◌, ◌≤◌, List, [], ◌++◌, length, min, take, drop, Result};

use std::alloc::AllocError;
use std::marker::Model;

/// The header of an inner node: its number of children, the length of its compressed prefix in
/// bytes, and the stored prefix.
///
/// At most `PREFIX_LEN` bytes of the prefix are stored. The other bytes of a longer prefix are
/// implicit: the key of any leaf below the node has them (the hybrid of pessimistic and optimistic
/// path compression of Leis, Kemper and Neumann, 2013). No call takes memory; each costs
/// O(`PREFIX_LEN`).
///
/// (from tests/art_node_tests/header/prefix.rt.txt)
/// ```rust
/// let header = Header::<2>::new(b"abcd", 4);
/// // ..
/// assert!(rt; header.capped_prefix_len() == 2);
/// // ..
/// let mut header = Header::<2>::new(b"abcd", 4);
/// header.push_prefix(b"ef", 2);
/// // ..
/// let (bytes, len, capped_len) = header.clear_prefix();
/// assert!(rt; bytes.as_slice() == b"ab".as_slice());
/// assert!(rt; (len, capped_len) == (6, 2));
/// ```
#[derive(Drop)]
pub struct Header<const PREFIX_LEN: usize> {
    num_children: u16,
    prefix_len: u32,
    prefix: [u8; PREFIX_LEN],
}

impl<const PREFIX_LEN: usize> Model for Header<PREFIX_LEN> {
    ghost use Rattle.std.specs.Prelude.{◌≡◌, ◌^◌, ◌<◌, length, take};
    ghost use Rattle.art_header.specs.Header.{Header as Shown, capped};

    ghost Value = { Shown };

    ghost view = { λ h. record {
      count = h.num_children;
      prefix_len = h.prefix_len;
      stored = take (capped PREFIX_LEN h.prefix_len) h.prefix;
    } };

    ghost invariant = { λ h. (length h.prefix ≡ PREFIX_LEN) ×
        (h.num_children < 2 ^ 16) × (h.prefix_len < 2 ^ 32) };
}

impl<const PREFIX_LEN: usize> Header<PREFIX_LEN> {
    ghost use Rattle.art_header.specs.Header.{capped, empty_header, with_prefix_of, ltrimmed, with_more, with_prefix, StandsFor};

    /// A header with no children, for a prefix of `prefix_len` bytes that begins with `prefix`.
    ///
    /// Conditions: `prefix` has at least the `min(prefix_len, PREFIX_LEN)` bytes that are stored
    /// and at most `prefix_len` bytes, and `prefix_len` is below 2^32.
    pub fn new(prefix: &[u8], prefix_len: usize) -> Self
        requires has_stored_bytes { capped PREFIX_LEN prefix_len ≤ length prefix.now }
        requires no_longer { length prefix.now ≤ prefix_len }
        requires fits { prefix_len < 2 ^ 32 }
        ensures { result ≡ empty_header PREFIX_LEN prefix.now prefix_len }
    {
        let capped_len = prefix_len.min(PREFIX_LEN);
        let mut stored = [0; PREFIX_LEN];
        stored[..capped_len].copy_from_slice(&prefix[..capped_len]);
        Header {
            num_children: 0,
            prefix_len: prefix_len as u32,
            prefix: stored,
        }
    }

    /// The stored prefix: the first `min(prefix_len, PREFIX_LEN)` bytes of the prefix.
    pub fn read_prefix(&self) -> &[u8]
        ensures stored { result.now ≡ self.now.stored }
        ensures capped { length result.now ≡ capped PREFIX_LEN self.now.prefix_len }
    {
        let bytes = &self.prefix[..];
        &bytes[..self.capped_prefix_len()]
    }

    /// The length of the whole prefix in bytes, stored or not, below 2^32.
    pub fn prefix_len(&self) -> usize
        ensures value { result ≡ self.now.prefix_len }
        ensures fits { result < 2 ^ 32 }
    {
        self.prefix_len as usize
    }

    /// The length of the stored prefix in bytes: `min(prefix_len, PREFIX_LEN)`.
    pub fn capped_prefix_len(&self) -> usize
        ensures value { result ≡ capped PREFIX_LEN self.now.prefix_len }
        ensures stored { result ≡ length self.now.stored }
    {
        (self.prefix_len as usize).min(PREFIX_LEN)
    }

    /// The number of children, below 65536.
    pub fn num_children(&self) -> usize
        ensures value { result ≡ self.now.count }
        ensures fits { result < 2 ^ 16 }
    {
        usize::from(self.num_children)
    }

    /// Replaces the prefix by that of another header: its length and its stored prefix. The number
    /// of children is unchanged.
    pub fn set_prefix(&mut self, other: &Header<PREFIX_LEN>)
        ensures prefix { self.new ≡ with_prefix_of self.old other.now }
        ensures capped { length self.new.stored ≡ capped PREFIX_LEN self.new.prefix_len }
    {
        self.prefix_len = other.prefix_len;
        self.prefix = other.prefix;
    }

    /// Removes the first `len` bytes of the prefix. The other stored bytes move to the start.
    ///
    /// Conditions: the prefix has at least `len` bytes, and all of it is stored unless `len` is 0.
    pub fn ltrim_by(&mut self, len: usize)
        requires wholly_stored { 0 < len → self.old.prefix_len ≤ PREFIX_LEN }
        requires within { len ≤ self.old.prefix_len }
        ensures { self.new ≡ ltrimmed self.old len }
    {
        self.prefix_len = (self.prefix_len() - len) as u32;
        let end = len + self.capped_prefix_len();
        self.prefix.copy_within(len..end, 0);
    }

    /// Empties the prefix. Returns an array with the stored prefix, the length that the whole
    /// prefix had, and the length that the stored prefix had. Later bytes of the array have no
    /// meaning. The number of children is unchanged.
    pub fn clear_prefix(&mut self) -> ([u8; PREFIX_LEN], usize, usize)
        ensures cleared { self.new ≡ record self.old { prefix_len = 0; stored = [] } }
        ensures bytes { take result.2 result.0 ≡ self.old.stored }
        ensures len { result.1 ≡ self.old.prefix_len }
        ensures capped_len { result.2 ≡ capped PREFIX_LEN self.old.prefix_len }
    {
        let len = self.prefix_len();
        let capped_len = self.capped_prefix_len();
        self.prefix_len = 0;
        (self.prefix, len, capped_len)
    }

    /// Appends `len` bytes to the prefix. `new` has the first of them.
    ///
    /// Conditions: `new` has every byte that is to be stored, that is `len` bytes or as many as
    /// there is spare capacity for, and the whole prefix stays shorter than 2^32.
    pub fn push_prefix(&mut self, new: &[u8], len: usize)
        requires has_stored_bytes { min len (PREFIX_LEN - capped PREFIX_LEN self.old.prefix_len)
            ≤ length new.now }
        requires fits { self.old.prefix_len + len < 2 ^ 32 }
        ensures { self.new ≡ with_more PREFIX_LEN self.old new.now len }
    {
        let start = self.capped_prefix_len();
        self.prefix_len = (self.prefix_len() + len) as u32;
        let end = self.capped_prefix_len();
        let bytes = &mut self.prefix[..];
        bytes[start..end].copy_from_slice(&new[..end - start]);
    }

    /// Removes the first `len` bytes of the prefix, and stores as much of the rest as fits. The
    /// bytes are read from `leaf_key`, the key of a leaf below, in which the prefix begins at index
    /// `depth`.
    ///
    /// Conditions: the prefix has at least `len` bytes, and `leaf_key` has every byte that is to be
    /// stored.
    pub fn ltrim_by_with_leaf(&mut self, len: usize, depth: usize, leaf_key: &[u8])
        requires within { len ≤ self.old.prefix_len }
        requires has_stored_bytes { depth + len + capped PREFIX_LEN (self.old.prefix_len - len) ≤
            length leaf_key.now }
        ensures trimmed { self.new ≡ with_prefix PREFIX_LEN self.old
            (drop (depth + len) leaf_key.now) (self.old.prefix_len - len) }
        ensures stands { (path prefix rest : List ℕ) →
            length path ≡ depth → leaf_key.now ≡ path ++ prefix ++ rest →
            StandsFor PREFIX_LEN self.old prefix →
            StandsFor PREFIX_LEN self.new (drop len prefix) }
    {
        self.prefix_len = (self.prefix_len() - len) as u32;
        let capped_len = self.capped_prefix_len();
        let start = depth + len;
        let bytes = &mut self.prefix[..];
        bytes[0..capped_len].copy_from_slice(&leaf_key[start..start + capped_len]);
    }

    /// Adds 1 to the number of children. Condition: it is below 65535.
    pub fn inc_num_children(&mut self)
        requires { self.old.count < 65535 }
        ensures { self.new ≡ record self.old { count = self.old.count + 1 } }
    {
        self.num_children += 1;
    }

    /// Subtracts 1 from the number of children. Condition: it is above 0.
    pub fn dec_num_children(&mut self)
        requires { 0 < self.old.count }
        ensures { self.new ≡ record self.old { count = self.old.count - 1 } }
    {
        self.num_children -= 1;
    }

    /// Sets the number of children to 0.
    pub fn reset_num_children(&mut self)
        ensures count { self.new ≡ record self.old { count = 0 } }
        ensures capped { length self.new.stored ≡ capped PREFIX_LEN self.new.prefix_len }
    {
        self.num_children = 0;
    }
}

/// A copy takes no memory and never fails.
impl<const PREFIX_LEN: usize> Clone for Header<PREFIX_LEN> {
    ghost use Rattle.std.specs.Prelude.{◌≡◌, ⊤};

    ghost is_clone = { λ h copy. copy ≡ h };

    ghost is_infallible = { λ _. ⊤ };

    fn clone(&self) -> Result<Self, AllocError> {
        Ok(Header {
            num_children: self.num_children,
            prefix_len: self.prefix_len,
            prefix: self.prefix,
        })
    }
}

/// Two headers are equal where count, prefix length and stored prefix are. Bytes of the array after
/// the stored prefix have no effect.
impl<const PREFIX_LEN: usize> PartialEq for Header<PREFIX_LEN> {
    ghost use Rattle.std.specs.Cmp.{partial_equiv_from_equiv};
    ghost use Rattle.art_header.specs.Header.{same_header, same_header_equiv};

    ghost eq = { same_header };

    ghost laws = { partial_equiv_from_equiv same_header_equiv };

    fn eq(&self, other: &Self) -> bool {
        self.num_children == other.num_children
            && self.prefix_len == other.prefix_len
            && self.read_prefix() == other.read_prefix()
    }
}

impl<const PREFIX_LEN: usize> Eq for Header<PREFIX_LEN> {
    ghost use Rattle.art_header.specs.Header.{same_header_equiv};

    ghost laws = { same_header_equiv };
}
