//! Sets as std's `Debug` writes those of its own.
use crate::set::Set;
use art_keys::RadixKey;
use std::fmt::{Debug, Formatter, Result, Write};

/// The keys in order, as `{"iron", "tin"}`.
impl<K: RadixKey + Debug> Debug for Set<K> {
    fn fmt<W: Write>(&self, f: &mut Formatter<W>) -> Result {
        let mut out = f.debug_set();
        for key in self.iter() {
            out.entry(key);
        }
        out.finish()
    }
}
