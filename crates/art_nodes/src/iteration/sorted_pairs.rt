//! The remaining pairs of an iterator over a sorted node.
ghost use Rattle.std.specs.Prelude.{◌≡◌, length, count_by, nat_lt};
ghost use Rattle.std.specs.Iterator.{YieldsFirst, YieldsLast};
ghost use Rattle.art_nodes.specs.Inner.{sorted_children};

use std::marker::Model;

/// Bytes with their children, at the same index.
#[derive(Drop)]
pub(crate) struct SortedPairs<'a, H> {
    keys: &'a [u8],
    children: &'a [H],
}

impl<'a, H> Model for SortedPairs<'a, H> {
    ghost use Rattle.std.specs.Prelude.{◌≡◌, length};
    ghost use Rattle.art_nodes.specs.ChildMap.{ChildMap};
    ghost use Rattle.art_nodes.specs.Inner.{sorted_children};

    ghost Value = { ChildMap H };

    ghost view = { λ p. sorted_children p.keys.now p.children.now };

    ghost invariant = { λ p. length p.children.now ≡ length p.keys.now };
}

impl<'a, H: Copy> SortedPairs<'a, H> {
    /// The pairs of these bytes and children.
    pub(crate) fn new(keys: &'a [u8], children: &'a [H]) -> Self
        requires { length children.now ≡ length keys.now }
        ensures { result ≡ sorted_children keys.now children.now }
    {
        SortedPairs { keys, children }
    }

    /// Removes and returns the first pair.
    pub(crate) fn next(&mut self) -> Option<(u8, H)>
        ensures { YieldsFirst (λ pairs. pairs) self.old result self.new }
    {
        let (key, keys) = self.keys.split_first()?;
        let child = self.children[0];
        self.keys = keys;
        self.children = &self.children[1..];
        Some((*key, child))
    }

    /// Removes and returns the last pair.
    pub(crate) fn next_back(&mut self) -> Option<(u8, H)>
        ensures { YieldsLast (λ pairs. pairs) self.old result self.new }
    {
        let (key, keys) = self.keys.split_last()?;
        let last = keys.len();
        let child = self.children[last];
        self.keys = keys;
        self.children = &self.children[..last];
        Some((*key, child))
    }
}

/// How many of the bytes are below this number.
pub(crate) fn count_below(keys: &[u8], byte: usize) -> usize
    ensures { result ≡ count_by (λ key. nat_lt key byte) keys.now }
{
    keys.iter().filter(|key| usize::from(**key) < byte).count()
}
