//! Keys as bytes: what an adaptive radix tree requires of its keys. Names follow the crate `blart`.
//!
//! [`AsBytes::as_bytes`] returns the bytes of a key. Two traits are laws of a type of keys, and
//! each impl of them is a proof: under [`NoPrefixesBytes`] no key is a proper prefix of another,
//! and under [`OrderedBytes`] the keys have the order of their bytes.
//!
//! The examples are lines of tests. There `rt` is the `HostRuntime` of the test, `alloc` is
//! `rt.alloc()`, `assert!(rt; c)` fails where `c` is false, and `text_of(key)` is `key.as_bytes()`.
#![tactic(auto)]

mod bytes;
mod c_string_key;
mod prefix;
mod slice_key;
mod str_key;
mod wrappers;

pub use bytes::{AsBytes, NoPrefixesBytes, OrderedBytes};
pub use c_string_key::{CStringKey, CStringKeyError};
pub use prefix::common_prefix_len;
pub use slice_key::SliceKey;
pub use str_key::StrKey;
