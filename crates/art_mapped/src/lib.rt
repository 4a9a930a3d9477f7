//! Values as bytes that keep their order, for the keys of an adaptive radix tree.
//!
//! A [`BytesMapping`] gives each value of a domain its bytes, and reads the value back from them.
//! [`ToUBE`] and [`ToIBE`] map integers, and arrays and vectors of integers; [`ToOctets`] maps IP
//! addresses; [`Escaped`] maps strings of any bytes; [`Identity`] maps a key to itself;
//! [`ConcatTuple`] maps tuples of two to six parts, for composite indexes. A [`Mapped`] is a key made
//! of a value: it holds the value's bytes, and under an ordered mapping it compares as the value
//! does.
//!
//! The examples are lines of tests. There `rt` is the `HostRuntime` of the test, `alloc` is
//! `rt.alloc()`, and `assert!(rt; c)` fails where `c` is false.
#![tactic(auto)]

mod array;
mod element;
mod escaped;
mod escaped_key;
mod escaped_string;
mod fixed;
mod identity;
mod joint;
pub mod laws;
mod mapped;
mod mapping;
mod octets;
pub mod orders;
mod sequence;
mod signed;
mod tuple;
mod unsigned;
mod vector;
mod written;

pub use element::{Element, Single};
pub use escaped::{Escaped, escaped_prefix};
pub use escaped_key::EscapedKey;
pub use fixed::FixedBytes;
pub use identity::Identity;
pub use mapped::{Mapped, MappedOver};
pub use mapping::{
    BorrowedMapping, BytesMapping, Holds, InPlaceMapping, InjectiveMapping, NoPrefixesMapping,
    OrderedMapping, ValueTexts,
};
pub use octets::{Octets, ToOctets};
pub use sequence::{IntegerForm, Several};
pub use signed::{Signed, ToIBE};
pub use tuple::{ConcatTuple, OrderedTuple, TupleMappings, TupleValues};
pub use unsigned::{ToUBE, Unsigned};
pub use written::{Domain, DomainTexts, ToBigEndian};
