//! An array of no bytes.
use std::marker::{Model, PhantomData};

/// An array of no bytes, of which contracts see nothing.
///
/// A function knows of a type in its signature that it fits in memory where `PREFIX_LEN` is a
/// parameter. Where `PREFIX_LEN` is a number, it knows so of a type that holds an array of that length,
/// as inner nodes do. A leaf holds this one.
#[derive(Drop)]
pub(crate) struct NoBytes<K, const PREFIX_LEN: usize>([PhantomData<K>; PREFIX_LEN]);

impl<K, const PREFIX_LEN: usize> Model for NoBytes<K, PREFIX_LEN> {
    ghost Value = { Unit {0} };

    ghost view = { λ _. tt };
}

impl<K, const PREFIX_LEN: usize> NoBytes<K, PREFIX_LEN> {
    pub(crate) fn new() -> Self {
        NoBytes([PhantomData; PREFIX_LEN])
    }
}
