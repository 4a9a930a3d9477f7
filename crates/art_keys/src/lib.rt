//! Keys of an ordered map as bytes that sort as they do, one byte at a time and with no memory.
//!
//! A [`RadixKey`] is a native value, as a `u64`, a `String` or a tuple of such, with an encoding that a
//! tree can branch on. A [`RadixQuery`] is what a map by such keys is asked for, and a [`PrefixQuery`] for
//! all keys that begin alike.
#![tactic(auto)]

mod addresses;
mod byte_strings;
mod first_of_six;
mod first_parts;
mod floats;
mod grouped;
mod head;
mod in_memory;
mod key;
pub mod laws;
mod non_zero;
mod options;
mod part_prefixes;
mod prefix;
mod query;
mod scalars;
mod signed;
mod strings;
mod text_prefixes;
mod tuples;
mod unsigned;

pub use floats::{TotalF32, TotalF64};
pub use in_memory::{encoding, encoding_prefix};
pub use key::{KeyBytes, RadixKey};
pub use prefix::{Edge, Prefix, PrefixBound, PrefixQuery};
pub use query::{ExactQuery, RadixQuery};
