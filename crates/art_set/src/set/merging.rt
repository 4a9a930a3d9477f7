//! Two sets walked side by side: the keys of either, of both, of one alone.
ghost use Rattle.std.specs.Prelude.{◌≡◌, ◌∷◌, [], drop, MatchOption, ⊤};
ghost use Rattle.std.specs.Iterator.{YieldsFirstBy, item_count};
ghost use Rattle.art_set.specs.KeyLists.{union, intersection, difference, symmetric_difference};
ghost use Rattle.art_set.specs.Walks.{walk};

use super::Set;
use art_keys::{KeyBytes, RadixKey};
use art_map::Keys;
use std::alloc::AllocError;
use std::cmp::Ordering;
use std::iter::FusedIterator;
use std::marker::Model;

// Keys that are left, of which the next is known.
#[derive(Drop)]
struct Peeked<'a, K: KeyBytes> {
    head: Option<&'a K>,
    rest: Keys<'a, K, ()>,
}

impl<'a, K: KeyBytes> Model for Peeked<'a, K> {
    ghost use Rattle.std.specs.Prelude.{◌≡◌, List, [], IfNone};
    ghost use Rattle.std.specs.List.{cons_option};
    ghost use Rattle.std.specs.Option.{option_copied};

    ghost Value = { List K };

    ghost view = { λ p. cons_option (option_copied p.head) p.rest };

    ghost invariant = { λ p. IfNone p.head (p.rest ≡ []) };
}

impl<'a, K: RadixKey> Peeked<'a, K> {
    // These keys.
    fn of(mut rest: Keys<'a, K, ()>) -> Self
        ensures { result ≡ rest.entry }
    {
        let head = rest.next();
        Peeked { head, rest }
    }

    // The next key.
    fn peek(&self) -> Option<&'a K>
        ensures { MatchOption result (self.now ≡ []) (λ key. self.now ≡ key.now ∷ drop 1 self.now) }
    {
        self.head
    }

    // Goes past the next key.
    fn advance(&mut self)
        ensures { self.new ≡ drop 1 self.old }
    {
        self.head = self.rest.next();
    }

    // Takes the next key.
    fn take(&mut self) -> Option<&'a K>
        ensures { MatchOption result ((self.old ≡ []) × (self.new ≡ []))
            (λ key. self.old ≡ key.now ∷ self.new) }
    {
        let head = self.peek();
        self.advance();
        head
    }
}

impl<'a, K: KeyBytes> Clone for Peeked<'a, K> {
    ghost is_clone = { λ keys copy. copy ≡ keys };

    ghost is_infallible = { λ _. ⊤ };

    fn clone(&self) -> Result<Peeked<'a, K>, AllocError> {
        let rest = self.rest.clone()?;
        Ok(Peeked {
            head: self.head,
            rest,
        })
    }
}

/// The keys of a union, an intersection or a difference of two sets that are left, in ascending order.
/// Contracts see the list of those. A key costs as many steps as keys of the two sets are passed on the way
/// to it, and each step compares two keys. Takes no memory.
#[derive(Drop)]
pub struct Merged<'a, K: KeyBytes> {
    left: Peeked<'a, K>,
    right: Peeked<'a, K>,
    // Which keys are yielded: those of the left set alone, of both, of the right one alone.
    in_left: bool,
    in_both: bool,
    in_right: bool,
}

impl<'a, K: KeyBytes> Model for Merged<'a, K> {
    ghost use Rattle.std.specs.Prelude.{List};
    ghost use Rattle.art_set.specs.Walks.{walk};

    ghost Value = { List K };

    ghost view = { λ m. walk K.order m.in_left m.in_both m.in_right m.left m.right };
}

// How two keys compare, by the order that a struct knows of.
fn order_of<K: RadixKey>(key: &K, other: &K) -> Ordering
    ensures { result ≡ K.order key.now other.now }
{
    key.cmp(other)
}

impl<'a, K: RadixKey> Iterator for Merged<'a, K> {
    type Item = &'a K;

    ghost next_gives = { YieldsFirstBy (λ item. item.now) (λ rest. rest) };

    ghost remaining = { item_count (λ rest. rest) };

    fn next(&mut self) -> Option<&'a K> {
        'walk: loop {
            let Some(key) = self.left.peek() else {
                if !self.in_right {
                    return None;
                }
                return self.right.take();
            };
            let Some(other) = self.right.peek() else {
                if !self.in_left {
                    return None;
                }
                return self.left.take();
            };
            match order_of(key, other) {
                Ordering::Less => {
                    self.left.advance();
                    if self.in_left {
                        return Some(key);
                    }
                }
                Ordering::Equal => {
                    self.left.advance();
                    self.right.advance();
                    if self.in_both {
                        return Some(key);
                    }
                }
                Ordering::Greater => {
                    self.right.advance();
                    if self.in_right {
                        return Some(other);
                    }
                }
            }
        }
    }

    // Written out: the trait's own body gets no proof where the item lacks a type of the iterator.
    fn size_hint(&self) -> (usize, Option<usize>) {
        (0, None)
    }
}

impl<'a, K: RadixKey> FusedIterator for Merged<'a, K> {}

/// Another iterator over the keys that are left. Takes no memory and never fails.
impl<'a, K: KeyBytes> Clone for Merged<'a, K> {
    ghost is_clone = { λ keys copy. copy ≡ keys };

    ghost is_infallible = { λ _. ⊤ };

    fn clone(&self) -> Result<Merged<'a, K>, AllocError> {
        let left = self.left.clone()?;
        let right = self.right.clone()?;
        Ok(Merged {
            left,
            right,
            in_left: self.in_left,
            in_both: self.in_both,
            in_right: self.in_right,
        })
    }
}

// The keys of two sets, as far as they are told to be yielded.
fn merge_keys<'a, K: RadixKey>(
    left: Keys<'a, K, ()>,
    right: Keys<'a, K, ()>,
    in_left: bool,
    in_both: bool,
    in_right: bool,
) -> Merged<'a, K>
    ensures { result ≡ walk K.order in_left in_both in_right left.entry right.entry }
{
    Merged {
        left: Peeked::of(left),
        right: Peeked::of(right),
        in_left,
        in_both,
        in_right,
    }
}

impl<K: RadixKey> Set<K> {
    /// The keys of either set, in ascending order. Of two equal keys it has this set's. Goes along both sets
    /// once. Takes no memory.
    pub fn union<'a>(&'a self, other: &'a Self) -> Merged<'a, K>
        ensures { result ≡ union K.cmp self.now other.now }
    {
        merge_keys(self.iter(), other.iter(), true, true, true)
    }

    /// The keys of this set that the other one has, in ascending order. Goes along both sets once, until one
    /// ends. Takes no memory.
    pub fn intersection<'a>(&'a self, other: &'a Self) -> Merged<'a, K>
        ensures { result ≡ intersection K.cmp self.now other.now }
    {
        merge_keys(self.iter(), other.iter(), false, true, false)
    }

    /// The keys of this set that the other one lacks, in ascending order. Goes along both sets once, until
    /// this one ends. Takes no memory.
    pub fn difference<'a>(&'a self, other: &'a Self) -> Merged<'a, K>
        ensures { result ≡ difference K.cmp self.now other.now }
    {
        merge_keys(self.iter(), other.iter(), true, false, false)
    }

    /// The keys of each set that the other one lacks, in ascending order. Goes along both sets once. Takes
    /// no memory.
    pub fn symmetric_difference<'a>(&'a self, other: &'a Self) -> Merged<'a, K>
        ensures { result ≡ symmetric_difference K.cmp self.now other.now }
    {
        merge_keys(self.iter(), other.iter(), true, false, true)
    }
}
