//! Sets of bytes, as four words of 64 bits.
ghost use Rattle.std.specs.Prelude.{◌≡◌, ◌≢◌, ℕ, ◌<◌, ◌≤◌, ◌+◌, true, false, IfSome, IfNone};
ghost use Rattle.std.specs.Int.{bit_at};
ghost use Rattle.art_nodes.specs.ByteSet.{has_byte, HasNoBit, HasNoByte};

/// A set of bytes. The byte `b` is in it where bit `b mod 64` of word `b div 64` is set.
#[derive(Clone, Copy)]
pub(crate) struct ByteSet {
    pub(super) words: [u64; 4],
}

impl ByteSet {
    /// The empty set.
    pub(crate) fn new() -> Self
        ensures { (byte : ℕ) → has_byte result.words byte ≡ false }
    {
        ByteSet { words: [0; 4] }
    }

    /// Whether the byte is in the set.
    #[inline]
    pub(crate) fn contains(&self, byte: u8) -> bool
        ensures { result ≡ has_byte self.now.words byte }
    {
        let byte = usize::from(byte);
        (self.words[byte / 64] >> (byte % 64)) & 1 == 1
    }

    /// Adds the byte.
    #[inline]
    pub(crate) fn insert(&mut self, byte: u8)
        ensures added { has_byte self.new.words byte ≡ true }
        ensures others_kept { (other : ℕ) → other ≢ byte →
            has_byte self.new.words other ≡ has_byte self.old.words other }
    {
        let byte = usize::from(byte);
        self.words[byte / 64] |= 1 << (byte % 64);
    }

    /// Removes the byte.
    #[inline]
    pub(crate) fn remove(&mut self, byte: u8)
        ensures removed { has_byte self.new.words byte ≡ false }
        ensures others_kept { (other : ℕ) → other ≢ byte →
            has_byte self.new.words other ≡ has_byte self.old.words other }
    {
        let byte = usize::from(byte);
        self.words[byte / 64] &= !(1 << (byte % 64));
    }

    /// The least byte at or above `from`.
    #[inline]
    pub(crate) fn first_from(&self, from: usize) -> Option<u8>
        ensures found { IfSome result (λ byte.
            (from ≤ byte) × (has_byte self.now.words byte ≡ true)) }
        ensures first { IfSome result (λ byte. HasNoByte self.now.words from byte) }
        ensures none { IfNone result (HasNoByte self.now.words from 256) }
    {
        // Where bytes are dense this is the next byte.
        if from < 256 && self.contains(from as u8) {
            return Some(from as u8);
        }
        for index in from / 64..4 {
            let start = 64 * index;
            if let Some(bit) = first_bit(self.words[index], from.saturating_sub(start)) {
                return Some((start + bit) as u8);
            }
        }
        None
    }

    /// The greatest byte below `end`.
    #[inline]
    pub(crate) fn last_before(&self, end: usize) -> Option<u8>
        requires { end ≤ 256 }
        ensures found { IfSome result (λ byte.
            (byte < end) × (has_byte self.now.words byte ≡ true)) }
        ensures last { IfSome result (λ byte. HasNoByte self.now.words (byte + 1) end) }
        ensures none { IfNone result (HasNoByte self.now.words 0 end) }
    {
        let mut index = end.div_ceil(64);
        while index > 0 {
            index -= 1;
            let start = 64 * index;
            if let Some(bit) = last_bit(self.words[index], (end - start).min(64)) {
                return Some((start + bit) as u8);
            }
        }
        None
    }
}

// The lowest set bit at or above `from`.
#[inline]
fn first_bit(word: u64, from: usize) -> Option<usize>
    requires { from < 64 }
    ensures found { IfSome result (λ bit. (from ≤ bit) × (bit < 64) × (bit_at word bit ≡ 1)) }
    ensures first { IfSome result (λ bit. HasNoBit word from bit) }
    ensures none { IfNone result (HasNoBit word from 64) }
{
    let bits = word & (u64::MAX << from);
    if bits == 0 {
        None
    } else {
        Some(bits.trailing_zeros() as usize)
    }
}

// The highest set bit below `end`.
#[inline]
fn last_bit(word: u64, end: usize) -> Option<usize>
    requires some { 0 < end }
    requires fits { end ≤ 64 }
    ensures found { IfSome result (λ bit. (bit < end) × (bit_at word bit ≡ 1)) }
    ensures last { IfSome result (λ bit. HasNoBit word (bit + 1) end) }
    ensures none { IfNone result (HasNoBit word 0 end) }
{
    let bits = word & (u64::MAX >> (64 - end));
    if bits == 0 {
        None
    } else {
        Some(bits.ilog2() as usize)
    }
}
