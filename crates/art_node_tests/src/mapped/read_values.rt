//! Keys made without an allocator, and values read from a borrowed key.
ghost use Rattle.std.specs.Prelude.{◌≡◌, ℕ, IfOk, Vec};
ghost use Rattle.std.specs.declared.alloc.Global.{Global as GlobalAlloc};
ghost use Rattle.art_mapped.specs.Mapped.{mapped_text, HoldsValue};
ghost use Rattle.art_mapped.specs.Numbers.{digits};

use super::*;

type Port = Mapped<ToUBE, u16>;

/// The key of a port is its two bytes, and no call can fail.
fn port_key(port: u16) -> Port
    ensures value { HoldsValue result port }
    ensures text { mapped_text result ≡ digits 2 port }
{
    Port::of(port)
}

/// A port is read back from a key that is only borrowed.
fn port_read(key: &Port) -> u16
    ensures { (port : ℕ) → HoldsValue key.now port → result ≡ port }
{
    key.value()
}

/// A name is read from a key that stays.
fn name_read(alloc: Global, key: &Mapped<Escaped, Vec<u8>>) -> Result<Vec<u8>, AllocError>
    ensures { (name : Vec ℕ GlobalAlloc) → HoldsValue key.now name →
        IfOk result (λ read. read.items ≡ name.items) }
{
    key.read(alloc)
}
