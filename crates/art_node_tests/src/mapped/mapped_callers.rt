//! Facts that a caller gets from the contracts, at types that it names.
ghost use Rattle.std.specs.Prelude.{◌≡◌, ℕ, ℤ, IsOk, IfOk, Vec, fold};
ghost use Rattle.std.specs.declared.alloc.Global.{Global};
ghost use Rattle.std.specs.Hash as fed;
ghost use Rattle.std.specs.Ordering.{int_cmp};
ghost use Rattle.std.specs.Net.Addr.{ipv4_octets};
ghost use Rattle.art_mapped.specs.Mapped.{mapped_text, HoldsValue};
ghost use Rattle.art_mapped.specs.Numbers.{signed_text};
ghost use Rattle.art_mapped.specs.Sequences.{joined};

use super::*;
use std::hash::{Hash, Hasher};

// The key of an address is its octets. The call never fails.
fn host(alloc: Global, address: Ipv4Addr) -> Result<Mapped<ToOctets, Ipv4Addr>, AllocError>
    ensures text { IfOk result (λ key. mapped_text key ≡ ipv4_octets address) }
    ensures always { IsOk result }
{
    Mapped::new(alloc, address)
}

// The key of a vector of signed numbers joins their bytes.
fn path(alloc: Global, steps: Vec<i16>) -> Result<Mapped<ToIBE, Vec<i16>>, AllocError>
    ensures { IfOk result (λ key. mapped_text key ≡ joined (signed_text 2) steps.items) }
{
    Mapped::new(alloc, steps)
}

// Keys of signed numbers compare by size.
fn by_size(a: &Mapped<ToIBE, i32>, b: &Mapped<ToIBE, i32>) -> Ordering
    ensures { (x y : ℤ) → HoldsValue a.now x → HoldsValue b.now y → result ≡ int_cmp x y }
{
    a.cmp(b)
}

// Keys compare as the values do.
fn compared<B: OrderedMapping<D>, D: Ord + Drop>(
    alloc: Global,
    a: D,
    b: D,
) -> Result<Ordering, AllocError>
    ensures { IfOk result (λ order. order ≡ D.cmp a b) }
{
    Ok(Mapped::<B, D>::new(alloc, a)?.cmp(&Mapped::<B, D>::new(alloc, b)?))
}

// An integer or an address is read back, and no call fails.
fn element_back<F, E: Element<F>>(alloc: Global, value: E) -> Result<E, AllocError>
    ensures value { IfOk result (λ read. read ≡ value) }
    ensures always { IsOk result }
{
    Mapped::<Single<F>, E>::new(alloc, value)?.get(alloc)
}

fn unsigned_back(alloc: Global, value: u64) -> Result<u64, AllocError>
    ensures value { IfOk result (λ read. read ≡ value) }
    ensures always { IsOk result }
{
    Mapped::<ToUBE, u64>::new(alloc, value)?.get(alloc)
}

fn ipv6_back(alloc: Global, value: Ipv6Addr) -> Result<Ipv6Addr, AllocError>
    ensures value { IfOk result (λ read. read ≡ value) }
    ensures always { IsOk result }
{
    Mapped::<ToOctets, Ipv6Addr>::new(alloc, value)?.get(alloc)
}

// Reading an integer or an address from any bytes never fails.
fn element_asked<F, E: Element<F>>(alloc: Global, bytes: E::Bytes) -> Result<Option<E>, AllocError>
    ensures { IsOk result }
{
    <Single<F> as BytesMapping<E>>::checked_from_bytes(alloc, bytes)
}

fn ipv6_asked(alloc: Global, bytes: [u8; 16]) -> Result<Option<Ipv6Addr>, AllocError>
    ensures { IsOk result }
{
    <ToOctets as BytesMapping<Ipv6Addr>>::checked_from_bytes(alloc, bytes)
}

// An array is read back.
fn array_back<F: IntegerForm, E: Element<F>, const N: usize>(
    alloc: Global,
    value: [E; N],
) -> Result<[E; N], AllocError>
    ensures { IfOk result (λ read. read ≡ value) }
{
    Mapped::<ToBigEndian<F>, [E; N]>::new(alloc, value)?.get(alloc)
}

// Reading an array from a key or from any bytes never fails.
fn array_of_key<F: IntegerForm, E: Element<F>, const N: usize>(
    alloc: Global,
    key: Mapped<ToBigEndian<F>, [E; N]>,
) -> Result<[E; N], AllocError>
    ensures { IsOk result }
{
    key.get(alloc)
}

fn array_asked<F: IntegerForm, E: Element<F>, const N: usize>(
    alloc: Global,
    bytes: Vec<u8>,
) -> Result<Option<[E; N]>, AllocError>
    ensures { IsOk result }
{
    <ToBigEndian<F> as BytesMapping<[E; N]>>::checked_from_bytes(alloc, bytes)
}

// The elements of a vector are read back.
fn vector_back<F: IntegerForm, E: Element<F>>(
    alloc: Global,
    value: Vec<E>,
) -> Result<Vec<E>, AllocError>
    ensures { IfOk result (λ read. read.items ≡ value.items) }
{
    Mapped::<ToBigEndian<F>, Vec<E>>::new(alloc, value)?.get(alloc)
}

// A clone holds the value that the key holds. Where the bytes are an array it never fails.
fn port_again(key: &Mapped<ToUBE, u16>) -> Result<Mapped<ToUBE, u16>, AllocError>
    ensures value { (port : ℕ) → HoldsValue key.now port →
        IfOk result (λ again. HoldsValue again port) }
    ensures always { IsOk result }
{
    key.clone()
}

fn path_again(key: &Mapped<ToIBE, Vec<i16>>) -> Result<Mapped<ToIBE, Vec<i16>>, AllocError>
    ensures { (steps : Vec ℤ Global) → HoldsValue key.now steps →
        IfOk result (λ again. HoldsValue again steps) }
{
    key.clone()
}

// A key feeds a hasher what its bytes do.
fn feed<B: BytesMapping<D>, D, H: Hasher>(key: &Mapped<B, D>, hasher: &mut H)
    ensures { hasher.new ≡ fold H.write hasher.old (fed.slice fed.u8 (mapped_text key.now)) }
{
    key.hash(hasher);
}
