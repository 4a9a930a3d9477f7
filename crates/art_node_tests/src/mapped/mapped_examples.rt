//! How a crate uses `art_mapped`: keys of ports, for which no call fails.
ghost use Rattle.std.specs.Prelude.{◌≡◌, ℕ, IsOk, IfOk};
ghost use Rattle.std.specs.Ordering.{nat_cmp};
ghost use Rattle.art_mapped.specs.Mapped.{mapped_text, HoldsValue};
ghost use Rattle.art_mapped.specs.Numbers.{digits};

use super::*;

/// The key of a port is its two bytes, the higher one first.
fn key_of(alloc: Global, port: u16) -> Result<Mapped<ToUBE, u16>, AllocError>
    ensures text { IfOk result (λ key. mapped_text key ≡ digits 2 port) }
    ensures always { IsOk result }
{
    Mapped::new(alloc, port)
}

/// The port of a key is the one that it was made of.
fn port_of(alloc: Global, key: Mapped<ToUBE, u16>) -> Result<u16, AllocError>
    ensures port { (port : ℕ) → HoldsValue key port → IfOk result (λ read. read ≡ port) }
    ensures always { IsOk result }
{
    key.get(alloc)
}

/// Keys have the order of the ports.
fn compare(a: &Mapped<ToUBE, u16>, b: &Mapped<ToUBE, u16>) -> Ordering
    ensures { (x y : ℕ) → HoldsValue a.now x → HoldsValue b.now y → result ≡ nat_cmp x y }
{
    a.cmp(b)
}
