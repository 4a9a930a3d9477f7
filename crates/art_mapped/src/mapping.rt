//! Mappings between values and bytes, and their laws.
ghost use Rattle.std.specs.Vec.{vec_items};
ghost use Rattle.std.specs.declared.alloc.Global.{Global};
ghost use Rattle.std.specs.Prelude.{◌≤◌, length, Vec, ◌≡◌, ◌↔◌, ℕ, List, Bool, false, IsTrue, IsOk, IfOk, OnErr, IfSome, IfNone};
ghost use Rattle.art_bytes.specs.Text.{IsPrefixOf, text_order};
ghost use Rattle.art_mapped.specs.Mapping.{StandsForSome};

use art_bytes::AsBytes;
use std::alloc::{AllocError, Global};

/// Which values a key of the type `K` holds, under a mapping. It is the only trait of a mapping that
/// the type [`Mapped`](crate::Mapped) names.
pub trait Holds<D, K> {
    /// The key holds the value.
    ghost holds: { K → D → Type 0 };
}

/// Which lists are the bytes of a value, under a mapping. It is what a tuple asks of the mappings of
/// its parts.
pub trait ValueTexts<D> {
    /// The list is the bytes of the value.
    ghost is_text: { List ℕ → D → Type 0 };
}

/// A reversible conversion of the values of a domain `D` to bytes.
///
/// The only error of a call is an allocation failure: its argument has then been dropped, and
/// nothing else has changed.
///
/// (from crates/art_node_tests/src/mapped.rt)
/// ```rust
/// let bytes = <ToIBE as BytesMapping<[i16; 2]>>::to_bytes(alloc, [-1, 0])?;
/// assert!(rt; bytes.as_slice() == [127, 255, 128, 0].as_slice());
/// assert!(rt; <ToIBE as BytesMapping<[i16; 2]>>::is_value(&bytes));
/// assert!(rt; <ToIBE as BytesMapping<[i16; 2]>>::from_bytes(alloc, bytes)? == [-1, 0]);
/// ```
pub trait BytesMapping<D>: Holds<D, Self::Bytes> + ValueTexts<D> {
    /// The bytes that a value is converted to.
    type Bytes: AsBytes + Drop;

    /// Whether `to_bytes` takes memory. Where it is false, `to_bytes` never fails.
    const ALLOCATES: bool;

    /// Whether `from_bytes` and `checked_from_bytes` take memory. Where it is false, they never
    /// fail.
    const READ_ALLOCATES: bool;

    /// The constant `ALLOCATES`, for contracts.
    ghost ALLOCATES: { Bool };

    /// The constant `READ_ALLOCATES`, for contracts.
    ghost READ_ALLOCATES: { Bool };

    /// Which values are in the domain, as 0 to 65535 for `u16`.
    ghost is_in_domain: { D → Type 0 };

    /// The bytes of a value, as a list.
    ghost text_of: { D → List ℕ };

    /// Two values are the same for contracts: equal, or for vectors with equal elements.
    ghost are_same: { D → D → Type 0 };

    /// The bytes are those of the value.
    ghost stands_for: { Self.Bytes → D → Type 0 };

    /// The bytes of a value.
    fn to_bytes(alloc: Global, value: D) -> Result<Self::Bytes, AllocError>
        ensures text { IfOk result (λ bytes. Self.Bytes.text bytes ≡ text_of value) }
        ensures stands { IfOk result (λ bytes. is_in_domain value × stands_for bytes value) }
        ensures takes_no_memory { ALLOCATES ≡ false → IsOk result };

    /// The value with these bytes. Condition: there is one, which `is_value` tests.
    fn from_bytes(alloc: Global, bytes: Self::Bytes) -> Result<D, AllocError>
        requires { StandsForSome is_in_domain stands_for bytes }
        ensures stands { IfOk result (λ read. is_in_domain read × stands_for bytes read) }
        ensures text { IfOk result (λ read. Self.Bytes.text bytes ≡ text_of read) }
        ensures inverts { (value : D) → is_in_domain value → stands_for bytes value →
            IfOk result (λ read. are_same read value) }
        ensures takes_no_memory { READ_ALLOCATES ≡ false → IsOk result };

    /// Whether some value has these bytes. Takes no memory. The laws of [`laws`](crate::laws) state
    /// which bytes these are.
    fn is_value(bytes: &Self::Bytes) -> bool
        ensures { IsTrue result ↔ StandsForSome is_in_domain stands_for bytes.now };

    /// The value with these bytes, and `None` exactly where `is_value` is false. Memory is taken
    /// only where there is a value.
    fn checked_from_bytes(alloc: Global, bytes: Self::Bytes) -> Result<Option<D>, AllocError>
        ensures some { IfOk result (λ answer.
            IfSome answer (λ read. is_in_domain read × stands_for bytes read)) }
        ensures text { IfOk result (λ answer.
            IfSome answer (λ read. Self.Bytes.text bytes ≡ text_of read)) }
        ensures none { IfOk result (λ answer.
            IfNone answer (StandsForSome is_in_domain stands_for bytes → ⊥)) }
        ensures refused_for_a_value_only { OnErr result
            (StandsForSome is_in_domain stands_for bytes) }
        ensures takes_no_memory { READ_ALLOCATES ≡ false → IsOk result }
    {
        if Self::is_value(&bytes) {
            Ok(Some(Self::from_bytes(alloc, bytes)?))
        } else {
            Ok(None)
        }
    }

    /// A key holds the values of the domain that it stands for.
    ghost holds_value: { (bytes : Self.Bytes) (value : D) →
        Self.holds bytes value ↔ (is_in_domain value × stands_for bytes value) };

    /// A list is the bytes of the values that a key with these bytes stands for. It is no longer than
    /// some vector, so that there is such a key.
    ghost is_text_of_a_key: { (other : Vec ℕ Global) (text : List ℕ) (value : D) →
        length text ≤ length (vec_items other) →
        Self.is_text text value ↔ ((bytes : Self.Bytes) × Self.Bytes.is_key bytes ×
        (Self.Bytes.text bytes ≡ text) × is_in_domain value × stands_for bytes value) };

    /// The bytes that stand for a value are its bytes.
    ghost has_text: { (bytes : Self.Bytes) (value : D) → is_in_domain value →
        stands_for bytes value → Self.Bytes.text bytes ≡ text_of value };

    /// Equal values have the same bytes.
    ghost one_text: { (x y : D) → are_same x y → text_of x ≡ text_of y };

    /// Bytes stand for at most one value.
    ghost reads_one: { (bytes : Self.Bytes) (x y : D) → is_in_domain x → is_in_domain y →
        stands_for bytes x → stands_for bytes y → are_same x y };

    /// Whether bytes stand for some value depends on the bytes alone, not on how they are held.
    ghost kept_by_text: { (a b : Self.Bytes) → Self.Bytes.is_key b →
        Self.Bytes.text a ≡ Self.Bytes.text b →
        StandsForSome is_in_domain stands_for a → StandsForSome is_in_domain stands_for b };
}

/// A mapping under which different values have different bytes. Each but
/// [`Identity`](crate::Identity) is one.
///
/// (from crates/art_node_tests/src/mapped/tuples.rt)
/// ```rust
/// fn are_one<B: InjectiveMapping<D>, D>(a: &Mapped<B, D>, b: &Mapped<B, D>) -> bool
///     ensures { (x y : D) → HoldsValue a.now x → HoldsValue b.now y →
///         IsTrue result ↔ B.are_same x y }
/// {
///     a == b
/// }
/// ```
pub trait InjectiveMapping<D>: BytesMapping<D> {
    /// Values with the same bytes are equal.
    ghost decided_by_text: { (x y : D) → Self.is_in_domain x → Self.is_in_domain y →
        Self.text_of x ≡ Self.text_of y → Self.are_same x y };
}

/// A mapping whose bytes keep the order of the domain. The laws of [`orders`](crate::orders) state
/// that order in the terms of each domain.
///
/// (from crates/art_node_tests/src/mapped/mapped_callers.rt)
/// ```rust
/// fn compared<B: OrderedMapping<D>, D: Ord + Drop>(
///     alloc: Global,
///     a: D,
///     b: D,
/// ) -> Result<Ordering, AllocError>
///     ensures { IfOk result (λ order. order ≡ D.cmp a b) }
/// {
///     Ok(Mapped::<B, D>::new(alloc, a)?.cmp(&Mapped::<B, D>::new(alloc, b)?))
/// }
/// ```
pub trait OrderedMapping<D: Ord>: InjectiveMapping<D> {
    /// Two values compare as their bytes do.
    ghost keeps_order: { (x y : D) → Self.is_in_domain x → Self.is_in_domain y →
        D.cmp x y ≡ text_order (Self.text_of x) (Self.text_of y) };
}

/// A mapping under which no value's bytes are a proper prefix of another's.
///
/// (from crates/art_node_tests/src/mapped/tuples.rt)
/// ```rust
///     B: OrderedMapping<D> + NoPrefixesMapping<D>,
///     // ..
///     let less_key = Mapped::<B, D>::new(alloc, less)?;
///     let more_key = Mapped::<B, D>::new(alloc, more)?;
///     assert!(rt; !has_prefix(&more_key, &less_key));
/// ```
pub trait NoPrefixesMapping<D>: BytesMapping<D> {
    /// Where the bytes of one value are a prefix of another's, they are equal.
    ghost no_prefixes: { (x y : D) → Self.is_in_domain x → Self.is_in_domain y →
        IsPrefixOf (Self.text_of x) (Self.text_of y) → Self.text_of x ≡ Self.text_of y };
}

/// A mapping that also reads a value from bytes that it only borrows. Each but
/// [`Identity`](crate::Identity) is one.
///
/// (from crates/art_node_tests/src/mapped/read_values.rt)
/// ```rust
/// let key = Mapped::<ToIBE, [i16; 2]>::new(alloc, [-1, 0])?;
/// assert!(rt; key.read(alloc)? == [-1, 0]);
/// ```
pub trait BorrowedMapping<D>: BytesMapping<D> {
    /// The value with these bytes. Condition: there is one, which `is_value` tests.
    ///
    /// Error: [`AllocError`] on an allocation failure, and never where `READ_ALLOCATES` is false.
    fn read(alloc: Global, bytes: &Self::Bytes) -> Result<D, AllocError>
        requires { StandsForSome Self.is_in_domain Self.stands_for bytes.now }
        ensures in_domain { IfOk result (λ read. Self.is_in_domain read) }
        ensures stands { IfOk result (λ read. Self.stands_for bytes.now read) }
        ensures takes_no_memory { Self.READ_ALLOCATES ≡ false → IsOk result };
}

/// A mapping that takes no memory, so that no call fails: that of integers and addresses.
///
/// (from crates/art_node_tests/src/mapped/read_values.rt)
/// ```rust
/// type Port = Mapped<ToUBE, u16>;
/// // ..
///     let key = Port::of(443);
///     assert!(rt; key.value() == 443);
/// ```
pub trait InPlaceMapping<D>: BytesMapping<D> {
    /// The bytes of a value. Takes no memory.
    fn encode(value: D) -> Self::Bytes
        ensures in_domain { Self.is_in_domain value }
        ensures stands { Self.stands_for result value };

    /// The value with these bytes. Condition: there is one, which `is_value` tests. Takes no memory.
    fn decode(bytes: &Self::Bytes) -> D
        requires { StandsForSome Self.is_in_domain Self.stands_for bytes.now }
        ensures in_domain { Self.is_in_domain result }
        ensures stands { Self.stands_for bytes.now result };
}

/// Shows that this value is a key: only the contract of [`AsBytes::as_bytes`] says which values are.
/// So that call is made, here alone; `prove!` calls nothing through a bound.
#[inline]
pub(crate) fn prove_is_key<K: AsBytes>(key: &K)
    ensures { K.is_key key.now }
{
    let _text = key.as_bytes();
}
