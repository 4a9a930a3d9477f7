//! Values as keys: their bytes, their order, and reading them back.
use art_bytes::{AsBytes, OrderedBytes};
use art_mapped::{
    BytesMapping, ConcatTuple, Domain, DomainTexts, Element, Escaped, EscapedKey, FixedBytes,
    Identity, IntegerForm, Mapped, OrderedMapping, Single, ToBigEndian, ToIBE, ToOctets, ToUBE,
    Unsigned, escaped_prefix,
};
use std::alloc::{AllocError, Global};
use std::cmp::Ordering;
use std::net::{Ipv4Addr, Ipv6Addr};
use std::num::{
    NonZeroI8, NonZeroI16, NonZeroI32, NonZeroI64, NonZeroI128, NonZeroIsize, NonZeroU8,
    NonZeroU16, NonZeroU32, NonZeroU64, NonZeroU128, NonZeroUsize,
};

mod digits;
mod escaped_examples;
mod mapped_callers;
mod mapped_examples;
mod own_mapping;
mod read_values;
mod tuples;
mod value_bytes;
mod value_orders;
