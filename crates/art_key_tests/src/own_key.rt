//! A key type of one's own: a struct that is generic in its parts, whose laws are those of its parts.
ghost use Rattle.std.specs.Prelude.{◌++◌};
ghost use Rattle.std.specs.Ordering.{ordering_then};
ghost use Rattle.std.proofs.lemmas.List.Elements.{All-append};
ghost use Rattle.art_bytes.specs.Text.{IsByte};
ghost use Rattle.art_keys.specs.EncodingLaws.{joined_sort};

use art_keys::{KeyBytes, RadixKey, RadixQuery};
use std::cmp::Reverse;

/// A release of a program: by its name, and the newest first.
pub type Release = Numbered<String, Reverse<u32>>;

/// A name, and a number among those of the name.
#[derive(PartialEq, Eq, PartialOrd, Ord, Drop)]
pub struct Numbered<N, R> {
    pub name: N,
    pub number: R,
}

impl<N: KeyBytes, R: KeyBytes> KeyBytes for Numbered<N, R> {
    ghost encoded = { λ it. N.encoded it.name ++ R.encoded it.number };

    ghost is_key = { λ it. N.is_key it.name × R.is_key it.number };

    ghost order = { λ x y. ordering_then (N.order x.name y.name) (R.order x.number y.number) };
}

impl<N: RadixKey, R: RadixKey> RadixKey for Numbered<N, R> {
    const WANTS_HEADS: bool = N::WANTS_HEADS || R::WANTS_HEADS;

    ghost ordered = { λ i x y. ordering_then (N.ordered i x.name y.name)
        (R.ordered i x.number y.number) };

    ghost are_bytes = { λ it is. All-append IsByte (N.encoded it.name) (R.encoded it.number)
        (N.are_bytes it.name is.0) (R.are_bytes it.number is.1) };

    ghost sorted = { λ x y x_is y_is. joined_sort (N.cmp x.name y.name) (R.cmp x.number y.number)
        (N.encoded x.name) (N.encoded y.name) (R.encoded x.number) (R.encoded y.number)
        (N.sorted x.name y.name x_is.0 y_is.0) (R.sorted x.number y.number x_is.1 y_is.1) };

    fn encoded_len(&self) -> usize {
        let parts = (&self.name, &self.number);
        <_ as RadixQuery<(N, R)>>::encoded_len(&parts)
    }

    fn encoded_byte(&self, index: usize) -> u8 {
        let parts = (&self.name, &self.number);
        <_ as RadixQuery<(N, R)>>::encoded_byte(&parts, index)
    }

    fn encoded_head(&self, skip: u32) -> u64 {
        let parts = (&self.name, &self.number);
        <_ as RadixQuery<(N, R)>>::encoded_head(&parts, skip)
    }
}
