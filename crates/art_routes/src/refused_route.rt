//! A route that an insert refuses.
use crate::network::Network;
use std::alloc::AllocError;
use std::error::Error;
use std::fmt;

/// A route that was not inserted, for an allocation failure.
#[derive(Drop)]
pub struct RefusedRoute<V> {
    /// The network of the route.
    pub network: Network,
    /// Its value.
    pub value: V,
}

/// The network, without the value, which need not be printable.
impl<V> fmt::Debug for RefusedRoute<V> {
    fn fmt<W: fmt::Write>(&self, f: &mut fmt::Formatter<W>) -> fmt::Result {
        write!(f, "RefusedRoute {{ network: {}, .. }}", self.network)
    }
}

impl<V> fmt::Display for RefusedRoute<V> {
    ghost use Rattle.std.specs.Prelude.{Some, codes};

    ghost output = { λ refused. Some (codes "out of memory") };

    fn fmt<W: fmt::Write>(&self, f: &mut fmt::Formatter<W>) -> fmt::Result {
        write!(f, "out of memory")
    }
}

impl<V: Drop> Error for RefusedRoute<V> {}

/// The route is dropped.
impl<V: Drop> From<RefusedRoute<V>> for AllocError {
    fn from(_refused: RefusedRoute<V>) -> AllocError {
        AllocError
    }
}
