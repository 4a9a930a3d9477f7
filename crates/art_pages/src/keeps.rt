//! The test that is made of each entry in turn, from a closure.
ghost use Rattle.std.specs.Prelude.{◌≡◌, Bool, true};
ghost use Rattle.std.specs.Map.Calls.{CalledAtPair, TakesPair};
ghost use Rattle.art_pages.specs.Retaining.{ChangesValue, TakesValue};

use std::marker::Model;

/// A test of an entry, which may change the value.
pub trait Keeps<K, V>: Drop {
    /// The test may be made of this key and value.
    ghost accepts: { Self → K → V → Type 0 };

    /// A test of this key and value may return this, and leave this value and this test.
    ghost step: { Self → K → V → Bool → V → Self → Type 0 };

    /// Tests an entry: whether it stays.
    fn keeps(&mut self, key: &K, value: &mut V) -> bool
        requires { accepts self.old key.now value.old }
        ensures { step self.old key.now value.old result value.new self.new };
}

/// A closure over a key and its value.
#[derive(Drop)]
pub struct OnEntry<F> {
    pub keep: F,
}

impl<F> Model for OnEntry<F> {
    ghost Value = { F };

    ghost view = { λ test. test.keep };
}

impl<K, V, F: FnMut(&K, &mut V) -> bool> Keeps<K, V> for OnEntry<F> {
    ghost accepts = { TakesPair F.FnMut };

    ghost step = { CalledAtPair F.FnMut };

    fn keeps(&mut self, key: &K, value: &mut V) -> bool {
        (self.keep)(key, value)
    }
}

/// A closure over a key and its value. Each entry stays.
#[derive(Drop)]
pub struct OnValue<F> {
    pub change: F,
}

impl<F> Model for OnValue<F> {
    ghost Value = { F };

    ghost view = { λ test. test.change };
}

impl<K, V, F: FnMut(&K, &mut V)> Keeps<K, V> for OnValue<F> {
    ghost accepts = { TakesValue F.FnMut };

    ghost step = { λ f key value keeps now f'.
        (keeps ≡ true) × ChangesValue F.FnMut f key value now f' };

    fn keeps(&mut self, key: &K, value: &mut V) -> bool {
        (self.change)(key, value);
        true
    }
}
