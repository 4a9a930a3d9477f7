//! Tables with a place for each byte, and a bit that marks a place that has a child.
ghost use Rattle.std.specs.Prelude.{◌≡◌, ℕ, ◌<◌, ◌≤◌, length, slice_index_or, slice_set, replicate, is_some, Some, None};
ghost use Rattle.art_nodes.specs.ByteSet.{has_byte};
ghost use Rattle.art_nodes.specs.ChildMap.{table_children};
ghost use Rattle.art_nodes.specs.ChildTable.{children_within};

use crate::inner_nodes::tables::byte_set::ByteSet;
use crate::iteration::table_pairs::TablePairs;
use std::marker::Model;
use std::ops::Range;

/// A place for each byte. Marked places have a child.
#[derive(Drop)]
pub(crate) struct ChildTable<H> {
    filled: ByteSet,
    // Only marked places are read.
    children: [H; 256],
}

impl<H> Model for ChildTable<H> {
    ghost use Rattle.std.specs.Prelude.{◌≡◌, List, Option, length};
    ghost use Rattle.art_nodes.specs.ByteSet.{has_byte, marked_places};

    ghost Value = { List (Option H) };

    ghost view = { λ t. marked_places (has_byte t.filled.words) 0 t.children };

    ghost invariant = { λ t. length t.children ≡ 256 };
}

impl<H: Copy> ChildTable<H> {
    /// A table with no child. Each place holds `vacant` until it is filled.
    pub(crate) fn new(vacant: H) -> Self
        ensures { result ≡ replicate 256 None }
    {
        ChildTable {
            filled: ByteSet::new(),
            children: [vacant; 256],
        }
    }

    /// A copy. Takes no memory.
    pub(crate) fn clone(&self) -> Self
        ensures { result ≡ self.now }
    {
        ChildTable {
            filled: self.filled,
            children: self.children,
        }
    }

    /// Which places have a child, as words of bits.
    pub(crate) fn filled_words(&self) -> [u64; 4]
        ensures { (byte : ℕ) → byte < 256 →
            has_byte result byte ≡ is_some (slice_index_or self.now byte None) }
    {
        self.filled.words
    }

    /// The child at the place of the byte, if there is one.
    #[inline]
    pub(crate) fn child(&self, byte: u8) -> Option<H>
        ensures { result ≡ slice_index_or self.now byte None }
    {
        if self.filled.contains(byte) {
            Some(self.children[usize::from(byte)])
        } else {
            None
        }
    }

    /// Puts the child at the place of the byte.
    #[inline]
    pub(crate) fn fill(&mut self, byte: u8, child: H)
        ensures { self.new ≡ slice_set self.old byte (Some child) }
    {
        self.filled.insert(byte);
        self.children[usize::from(byte)] = child;
    }

    /// Empties the place of the byte.
    #[inline]
    pub(crate) fn clear(&mut self, byte: u8)
        ensures { self.new ≡ slice_set self.old byte None }
    {
        self.filled.remove(byte);
    }

    /// The children with their bytes.
    #[inline]
    pub(crate) fn pairs(&self) -> TablePairs<'_, H>
        ensures { result ≡ table_children 0 self.now }
    {
        TablePairs::new(&self.filled, &self.children[..], 0..256)
    }

    /// The children within a range of bytes.
    pub(crate) fn pairs_within(&self, bytes: Range<usize>) -> TablePairs<'_, H>
        requires { bytes.end ≤ 256 }
        ensures all_places { length self.now ≡ 256 }
        ensures within { result ≡ children_within self.now bytes.start bytes.end }
    {
        TablePairs::new(&self.filled, &self.children[..], bytes)
    }
}
