//! References, `Box` and `Rc` of a key as keys.
use crate::bytes::{AsBytes, NoPrefixesBytes, OrderedBytes};
use std::rc::Rc;

/// A reference to a key has that key's bytes.
impl<T: AsBytes> AsBytes for &T {
    ghost text = { λ r. T.text r.now };

    ghost is_key = { λ r. T.is_key r.now };

    fn as_bytes(&self) -> &[u8] {
        (*self).as_bytes()
    }
}

impl<T: NoPrefixesBytes> NoPrefixesBytes for &T {
    ghost no_prefixes = { λ a b. T.no_prefixes a.now b.now };
}

impl<T: OrderedBytes> OrderedBytes for &T {
    ghost ordered = { λ a b. T.ordered a.now b.now };
}

/// A box of a key has that key's bytes.
impl<T: AsBytes> AsBytes for Box<T> {
    ghost text = { λ b. T.text b.value };

    ghost is_key = { λ b. T.is_key b.value };

    fn as_bytes(&self) -> &[u8] {
        self.as_ref().as_bytes()
    }
}

impl<T: NoPrefixesBytes> NoPrefixesBytes for Box<T> {
    ghost no_prefixes = { λ a b. T.no_prefixes a.value b.value };
}

impl<T: OrderedBytes> OrderedBytes for Box<T> {
    ghost ordered = { λ a b. T.ordered a.value b.value };
}

/// A reference-counted key has that key's bytes.
impl<T: AsBytes> AsBytes for Rc<T> {
    ghost text = { λ r. T.text r.value };

    ghost is_key = { λ r. T.is_key r.value };

    fn as_bytes(&self) -> &[u8] {
        (**self).as_bytes()
    }
}

impl<T: NoPrefixesBytes> NoPrefixesBytes for Rc<T> {
    ghost no_prefixes = { λ a b. T.no_prefixes a.value b.value };
}

impl<T: OrderedBytes> OrderedBytes for Rc<T> {
    ghost ordered = { λ a b. T.ordered a.value b.value };
}
