//! A key made of a value by a mapping.
ghost use Rattle.std.specs.Prelude.{◌≡◌, IsOk, IfOk, false};
ghost use Rattle.art_mapped.specs.Mapping.{HoldsSome};

use crate::mapping::{
    BorrowedMapping, BytesMapping, Holds, InPlaceMapping, NoPrefixesMapping, OrderedMapping,
    prove_is_key,
};
use art_bytes::{AsBytes, NoPrefixesBytes, OrderedBytes};
use std::alloc::{AllocError, Global};
use std::cmp::Ordering;
use std::fmt::{self, Debug, Display, Formatter, Write};
use std::hash::{Hash, Hasher};
use std::marker::PhantomData;

/// A [`Mapped`] whose type of bytes, `K`, is a parameter. It names one trait of the mapping, so that a
/// function over keys of any type gets its proof; code names the alias.
pub struct MappedOver<B: Holds<D, K>, D, K: AsBytes> {
    repr: K,
    mapping: PhantomData<(B, D)>,
    ghost of_a_value: { HoldsSome B.holds repr },
}

/// A key made of a value of `D`: the bytes of the value under the mapping `B`.
///
/// Keys are equal, and hashed, by their bytes. Under an [`OrderedMapping`] they have the order of
/// the values, which is that of the bytes. The mapping `B` is only named: no value of it is needed.
///
/// (from crates/art_node_tests/src/mapped.rt)
/// ```rust
/// let key = Mapped::<ToIBE, [i32; 300]>::new(alloc, [-1; 300])?;
/// assert!(rt; key.as_bytes().len() == 1200);
/// // ..
/// assert!(rt; key.get(alloc)? == [-1; 300]);
/// // ..
/// let key = Mapped::<ToUBE, u16>::new(alloc, 443)?;
/// let other = Mapped::<ToUBE, u16>::new(alloc, 444)?;
/// assert!(rt; key != other);
/// assert!(rt; key.partial_cmp(&other) == Some(Ordering::Less));
/// ```
pub type Mapped<B, D> = MappedOver<B, D, <B as BytesMapping<D>>::Bytes>;

impl<B: Holds<D, K>, D, K: AsBytes + Drop> Drop for MappedOver<B, D, K> {
    fn drop(self) {
        let MappedOver {
            repr: _,
            mapping: _,
        } = self;
    }
}

/// A key is copied where its bytes are, as those of integers and addresses.
impl<B: Holds<D, K>, D, K: AsBytes + Copy> Clone for MappedOver<B, D, K> {
    ghost use Rattle.std.specs.Prelude.{◌≡◌, ⊤};

    ghost is_clone = { λ mapped copy. copy ≡ mapped };

    ghost is_infallible = { λ _. ⊤ };

    fn clone(&self) -> Result<Self, AllocError> {
        Ok(MappedOver {
            repr: self.repr,
            mapping: PhantomData,
        })
    }
}

impl<K: AsBytes + Drop, B: BytesMapping<D, Bytes = K>, D> MappedOver<B, D, K> {
    ghost use Rattle.art_mapped.specs.Mapped.{mapped_bytes, mapped_text, HoldsValue};

    /// The key of a value. Its bytes are those of the value under `B`.
    ///
    /// Error: [`AllocError`] on an allocation failure, and never where `B::ALLOCATES` is false. The
    /// value has then been dropped.
    pub fn new(alloc: Global, value: D) -> Result<Self, AllocError>
        ensures value { IfOk result (λ mapped. HoldsValue mapped value) }
        ensures text { IfOk result (λ mapped. mapped_text mapped ≡ B.text_of value) }
        ensures takes_no_memory { B.ALLOCATES ≡ false → IsOk result }
    {
        let repr = B::to_bytes(alloc, value)?;
        Ok(MappedOver {
            repr,
            mapping: PhantomData,
        })
    }

    /// The value that the key was made of.
    ///
    /// Error: [`AllocError`] on an allocation failure, and never where `B::READ_ALLOCATES` is
    /// false. The key has then been dropped.
    pub fn get(self, alloc: Global) -> Result<D, AllocError>
        ensures value { IfOk result (λ read. HoldsValue self read) }
        ensures text { IfOk result (λ read. mapped_text self ≡ B.text_of read) }
        ensures inverts { (value : D) → HoldsValue self value →
            IfOk result (λ read. B.are_same read value) }
        ensures takes_no_memory { B.READ_ALLOCATES ≡ false → IsOk result }
    {
        let MappedOver { repr, mapping: _ } = self;
        B::from_bytes(alloc, repr)
    }

    /// A copy of the key. It holds the same value wherever each clone of the bytes stands for that
    /// value. Condition: a clone of the key's bytes has the same bytes.
    ///
    /// Error: where the clone of the bytes fails; that of an array never does. The key is
    /// unchanged.
    pub fn clone(&self) -> Result<Self, AllocError>
    where
        K: Clone,
        requires { (bytes : K) → K.is_clone (mapped_bytes self.now) bytes →
            K.text bytes ≡ mapped_text self.now }
        ensures bytes { IfOk result (λ mapped.
            K.is_clone (mapped_bytes self.now) (mapped_bytes mapped)) }
        ensures text { IfOk result (λ mapped. mapped_text mapped ≡ mapped_text self.now) }
        ensures value { (value : D) → HoldsValue self.now value →
            ((bytes : K) → K.is_clone (mapped_bytes self.now) bytes →
            B.stands_for bytes value) →
            IfOk result (λ mapped. HoldsValue mapped value) }
        ensures takes_no_memory { K.is_infallible (mapped_bytes self.now) → IsOk result }
    {
        let repr = self.repr.clone()?;
        prove_is_key(&repr);
        Ok(MappedOver {
            repr,
            mapping: PhantomData,
        })
    }
}

impl<K: AsBytes + Drop, B: BorrowedMapping<D, Bytes = K>, D> MappedOver<B, D, K> {
    ghost use Rattle.art_mapped.specs.Mapped.{mapped_text, HoldsValue};

    /// The value that the key was made of. The key stays.
    ///
    /// Error: [`AllocError`] on an allocation failure, and never where `B::READ_ALLOCATES` is
    /// false.
    pub fn read(&self, alloc: Global) -> Result<D, AllocError>
        ensures value { IfOk result (λ read. HoldsValue self.now read) }
        ensures text { IfOk result (λ read. mapped_text self.now ≡ B.text_of read) }
        ensures inverts { (value : D) → HoldsValue self.now value →
            IfOk result (λ read. B.are_same read value) }
        ensures takes_no_memory { B.READ_ALLOCATES ≡ false → IsOk result }
    {
        B::read(alloc, &self.repr)
    }
}

impl<K: AsBytes + Drop, B: InPlaceMapping<D, Bytes = K>, D> MappedOver<B, D, K> {
    ghost use Rattle.art_mapped.specs.Mapped.{mapped_text, HoldsValue};

    /// The key of a value, as [`new`](MappedOver::new) returns it. Takes no memory.
    pub fn of(value: D) -> Self
        ensures value { HoldsValue result value }
        ensures text { mapped_text result ≡ B.text_of value }
    {
        let repr = B::encode(value);
        prove_is_key(&repr);
        MappedOver {
            repr,
            mapping: PhantomData,
        }
    }

    /// The value that the key was made of, as [`get`](MappedOver::get) returns it. Takes no memory.
    pub fn value(&self) -> D
        ensures value { HoldsValue self.now result }
        ensures text { mapped_text self.now ≡ B.text_of result }
        ensures inverts { (value : D) → HoldsValue self.now value → B.are_same result value }
    {
        B::decode(&self.repr)
    }
}

/// The bytes of the key are those of its value.
impl<B: Holds<D, K>, D, K: AsBytes> AsBytes for MappedOver<B, D, K> {
    ghost use Rattle.art_mapped.specs.Mapped.{mapped_bytes, mapped_text};

    ghost text = { mapped_text };

    ghost is_key = { λ mapped. HoldsSome B.holds (mapped_bytes mapped) };

    fn as_bytes(&self) -> &[u8] {
        self.repr.as_bytes()
    }
}

/// No key is a proper prefix of another where the mapping has that law: for integers, addresses,
/// arrays and tuples, and under [`Identity`] where the keys have it. Vectors do not.
impl<K: AsBytes, B: NoPrefixesMapping<D> + BytesMapping<D, Bytes = K>, D> NoPrefixesBytes
    for MappedOver<B, D, K> {
    ghost use Rattle.art_mapped.specs.MappingLaws.{stands_for_some, text_prefix_is_whole};

    ghost no_prefixes = { λ a b a_some b_some.
        text_prefix_is_whole _ _ _ _ B.has_text B.no_prefixes a.repr b.repr
        (stands_for_some B.holds_value a.repr a_some)
        (stands_for_some B.holds_value b.repr b_some) };
}

/// The value, as its own type writes it. A map of such keys is written with it.
impl<K: AsBytes + Drop, B: InPlaceMapping<D, Bytes = K>, D: Debug + Drop> Debug
    for MappedOver<B, D, K> {
    fn fmt<W: Write>(&self, f: &mut Formatter<W>) -> fmt::Result {
        self.value().fmt(f)
    }
}

/// The value, as its own type writes it.
impl<K: AsBytes + Drop, B: InPlaceMapping<D, Bytes = K>, D: Display + Drop> Display
    for MappedOver<B, D, K> {
    fn fmt<W: Write>(&self, f: &mut Formatter<W>) -> fmt::Result {
        self.value().fmt(f)
    }
}

/// Keys are equal where their bytes are.
impl<B: Holds<D, K>, D, K: AsBytes> PartialEq for MappedOver<B, D, K> {
    ghost use Rattle.std.specs.Prelude.{nat_eq};
    ghost use Rattle.std.specs.Ordering.{on};
    ghost use Rattle.std.specs.Cmp.{partial_equiv_from_equiv};
    ghost use Rattle.std.specs.Cmp.Lexicographic.{pointwise};
    ghost use Rattle.std.proofs.lemmas.Cmp.{on_equiv, nat_list_eq_equiv};
    ghost use Rattle.art_mapped.specs.Mapped.{mapped_text};

    ghost eq = { on mapped_text (pointwise nat_eq) };

    ghost laws = { partial_equiv_from_equiv (on_equiv mapped_text nat_list_eq_equiv) };

    fn eq(&self, other: &Self) -> bool {
        self.as_bytes() == other.as_bytes()
    }
}

impl<B: Holds<D, K>, D, K: AsBytes> Eq for MappedOver<B, D, K> {
    ghost use Rattle.std.proofs.lemmas.Cmp.{on_equiv, nat_list_eq_equiv};
    ghost use Rattle.art_mapped.specs.Mapped.{mapped_text};

    ghost laws = { on_equiv mapped_text nat_list_eq_equiv };
}

/// A key is hashed by its bytes.
impl<B: Holds<D, K>, D, K: AsBytes> Hash for MappedOver<B, D, K> {
    ghost use Rattle.std.proofs.Common.{rules};
    ghost use Rattle.std.specs.Cmp.Rules.{hashing};
    ghost use Rattle.std.specs.Hash as fed;
    ghost use Rattle.art_mapped.specs.Mapped.{mapped_text};

    ghost hash_input = { λ mapped. fed.slice fed.u8 (mapped_text mapped) };

    ghost respects_eq = { Prim.search (hashing, rules) };

    fn hash<H: Hasher>(&self, state: &mut H) {
        self.as_bytes().hash(state);
    }
}

/// Keys of an ordered mapping have the order of their bytes, which is that of the values.
impl<K: AsBytes, B: OrderedMapping<D> + BytesMapping<D, Bytes = K>, D: Ord> Ord
    for MappedOver<B, D, K> {
    ghost use Rattle.std.specs.Ordering.{on};
    ghost use Rattle.std.proofs.Common.{rules};
    ghost use Rattle.std.specs.Cmp.Rules.{comparing};
    ghost use Rattle.std.proofs.lemmas.Cmp.{on_total, nat_list_cmp_total};
    ghost use Rattle.art_bytes.specs.Text.{text_order};
    ghost use Rattle.art_mapped.specs.Mapped.{mapped_text, HoldsValue};

    ghost cmp = { on mapped_text text_order };

    ghost total = { on_total mapped_text nat_list_cmp_total };

    ghost matches_partial_cmp = { Prim.search (comparing, rules) };

    ghost matches_eq = { Prim.search (comparing, rules) };

    fn cmp(&self, other: &Self) -> Ordering
        ensures texts { result ≡ text_order (mapped_text self.now) (mapped_text other.now) }
        ensures values { (x y : D) → HoldsValue self.now x → HoldsValue other.now y →
            result ≡ D.cmp x y }
    {
        self.as_bytes().cmp(other.as_bytes())
    }
}

impl<K: AsBytes, B: OrderedMapping<D> + BytesMapping<D, Bytes = K>, D: Ord> PartialOrd
    for MappedOver<B, D, K> {
    ghost use Rattle.std.specs.Ordering.{on, as_partial_cmp};
    ghost use Rattle.std.proofs.Common.{rules};
    ghost use Rattle.std.specs.Cmp.{partial_order_from_own_ties};
    ghost use Rattle.std.specs.Cmp.Rules.{comparing};
    ghost use Rattle.art_bytes.specs.Text.{text_order};
    ghost use Rattle.art_mapped.specs.Mapped.{mapped_text};

    ghost partial_cmp = { as_partial_cmp (on mapped_text text_order) };

    ghost laws = { partial_order_from_own_ties
        (Prim.search (comparing, rules)) (Prim.search (comparing, rules)) };

    fn partial_cmp(&self, other: &Self) -> Option<Ordering> {
        Some(self.cmp(other))
    }
}

impl<K: AsBytes, B: OrderedMapping<D> + BytesMapping<D, Bytes = K>, D: Ord> OrderedBytes
    for MappedOver<B, D, K> {
    ghost use Rattle.std.specs.Prelude.{refl};

    ghost ordered = { λ _ _ _ _. refl };
}
