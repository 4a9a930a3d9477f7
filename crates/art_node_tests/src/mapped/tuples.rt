//! Composite keys, and keys under `Identity`.
ghost use Rattle.std.specs.Prelude.{◌≡◌, ◌↔◌, ◌++◌, ℕ, List, IsTrue, IsOk, IfOk};
ghost use Rattle.std.specs.Net.Addr.{ipv4_octets};
ghost use Rattle.art_mapped.specs.Mapped.{mapped_text, HoldsValue};
ghost use Rattle.art_mapped.specs.Numbers.{digits, signed_text};

use super::*;
use art_mapped::InjectiveMapping;

type Route = ConcatTuple<(ToOctets, ToIBE)>;

type Priced = ConcatTuple<(ToOctets, ToUBE, ToIBE)>;

type Labelled = ConcatTuple<(ToOctets, ToUBE, ToIBE, Identity)>;

type Counted = ConcatTuple<(ToOctets, ToUBE, ToIBE, ToUBE, ToIBE)>;

type Ranked = ConcatTuple<(ToOctets, ToUBE, ToIBE, Identity, ToUBE, ToIBE)>;

type Named = ConcatTuple<(Identity, ToUBE)>;

// The key of an address and a number has the octets, and then the number's bytes.
fn route(
    alloc: Global,
    to: Ipv4Addr,
    cost: i32,
) -> Result<Mapped<Route, (Ipv4Addr, i32)>, AllocError>
    ensures { IfOk result (λ key. mapped_text key ≡ ipv4_octets to ++ signed_text 4 cost) }
{
    Mapped::new(alloc, (to, cost))
}

// Each of three parts is mapped by the mapping at its place.
fn priced(
    alloc: Global,
    to: Ipv4Addr,
    port: u16,
    cost: i32,
) -> Result<Mapped<Priced, (Ipv4Addr, u16, i32)>, AllocError>
    ensures { IfOk result (λ key.
        mapped_text key ≡ (ipv4_octets to ++ digits 2 port) ++ signed_text 4 cost) }
{
    Mapped::new(alloc, (to, port, cost))
}

// So is each of four parts.
fn labelled(
    alloc: Global,
    to: Ipv4Addr,
    port: u16,
    cost: i32,
    label: [u8; 3],
) -> Result<Mapped<Labelled, (Ipv4Addr, u16, i32, [u8; 3])>, AllocError>
    ensures { IfOk result (λ key.
        mapped_text key ≡ ((ipv4_octets to ++ digits 2 port) ++ signed_text 4 cost) ++ label) }
{
    Mapped::new(alloc, (to, port, cost, label))
}

// So is each of five parts.
fn counted(
    alloc: Global,
    to: Ipv4Addr,
    port: u16,
    cost: i32,
    count: u16,
    rank: i32,
) -> Result<Mapped<Counted, (Ipv4Addr, u16, i32, u16, i32)>, AllocError>
    ensures { IfOk result (λ key. mapped_text key ≡
        (((ipv4_octets to ++ digits 2 port) ++ signed_text 4 cost) ++ digits 2 count)
        ++ signed_text 4 rank) }
{
    Mapped::new(alloc, (to, port, cost, count, rank))
}

// So is each of six parts.
fn ranked(
    alloc: Global,
    to: Ipv4Addr,
    port: u16,
    cost: i32,
    label: [u8; 3],
    count: u64,
    rank: i8,
) -> Result<Mapped<Ranked, (Ipv4Addr, u16, i32, [u8; 3], u64, i8)>, AllocError>
    ensures { IfOk result (λ key. mapped_text key ≡
        ((((ipv4_octets to ++ digits 2 port) ++ signed_text 4 cost) ++ label) ++ digits 8 count)
        ++ signed_text 1 rank) }
{
    Mapped::new(alloc, (to, port, cost, label, count, rank))
}

// Both parts are read back.
fn host_back(alloc: Global, host: Ipv4Addr, port: u16) -> Result<(Ipv4Addr, u16), AllocError>
    ensures { IfOk result (λ read. (read.0 ≡ host) × (read.1 ≡ port)) }
{
    Mapped::<ConcatTuple<(ToOctets, ToUBE)>, (Ipv4Addr, u16)>::new(alloc, (host, port))?.get(alloc)
}

// Reading the parts of a key never fails.
fn route_of(
    alloc: Global,
    key: Mapped<Route, (Ipv4Addr, i32)>,
) -> Result<(Ipv4Addr, i32), AllocError>
    ensures { IsOk result }
{
    key.get(alloc)
}

// A key under `Identity` is read back unchanged, and no call fails.
fn key_back<D: AsBytes + Drop>(alloc: Global, key: D) -> Result<D, AllocError>
    ensures same { IfOk result (λ read. read ≡ key) }
    ensures always { IsOk result }
{
    Mapped::<Identity, D>::new(alloc, key)?.get(alloc)
}

// Keys are equal exactly where they hold the same value.
fn are_one<B: InjectiveMapping<D>, D>(a: &Mapped<B, D>, b: &Mapped<B, D>) -> bool
    ensures { (x y : D) → HoldsValue a.now x → HoldsValue b.now y →
        IsTrue result ↔ B.are_same x y }
{
    a == b
}

// Of an array under `Identity` and a number, equal keys hold both.
fn are_one_named(a: &Mapped<Named, ([u8; 3], u16)>, b: &Mapped<Named, ([u8; 3], u16)>) -> bool
    ensures { (x y : List ℕ × ℕ) → HoldsValue a.now x → HoldsValue b.now y →
        IsTrue result ↔ ((x.0 ≡ y.0) × (x.1 ≡ y.1)) }
{
    are_one(a, b)
}
