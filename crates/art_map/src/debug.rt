//! Maps as std's `Debug` writes those of its own.
use crate::map::Map;
use art_keys::RadixKey;
use std::fmt::{Debug, Formatter, Result, Write};

/// The entries in order, as `{"iron": 26, "tin": 50}`.
impl<K: RadixKey + Debug, V: Debug> Debug for Map<K, V> {
    fn fmt<W: Write>(&self, f: &mut Formatter<W>) -> Result {
        let mut out = f.debug_map();
        for (key, value) in self.iter() {
            out.entry(key, value);
        }
        out.finish()
    }
}
