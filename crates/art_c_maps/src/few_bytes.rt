//! Bytes in place, and in a box of a fixed size.
ghost use Rattle.std.specs.Prelude.{◌≡◌, ◌≤◌, ◌++◌, ◌<◌, ◌^◌, IfOk, drop, length, take};

use std::alloc::{AllocError, Global};

/// Few bytes, in place.
#[derive(Drop)]
pub(crate) struct Short {
    len: u8,
    bytes: [u8; 22],
    ghost fits: { len ≤ 22 },
}

/// Up to `N` bytes, on the heap.
#[derive(Drop)]
pub(crate) struct Boxed<const N: usize> {
    len: usize,
    bytes: Box<[u8; N]>,
    ghost fits: { len ≤ N },
    ghost small: { N < 2 ^ 63 },
}

impl Short {
    pub(crate) fn of(bytes: &[u8]) -> Short
        requires { length bytes.now ≤ 22 }
        ensures { take result.len result.bytes ≡ bytes.now }
    {
        let mut own = [0; 22];
        write_first(bytes, &mut own);
        Short {
            len: bytes.len() as u8,
            bytes: own,
        }
    }

    #[inline]
    pub(crate) fn as_bytes(&self) -> &[u8]
        ensures { result.now ≡ take self.now.len self.now.bytes }
    {
        let all = &self.bytes[..];
        &all[..self.len as usize]
    }
}

impl<const N: usize> Boxed<N> {
    // Never inlined, so that a caller does not clear an array of each size.
    #[inline(never)]
    pub(crate) fn of(alloc: Global, bytes: &[u8]) -> Result<Boxed<N>, AllocError>
        requires fits { length bytes.now ≤ N }
        requires small { N < 2 ^ 63 }
        ensures { IfOk result (λ boxed. take boxed.len boxed.bytes.value ≡ bytes.now) }
    {
        let mut own = [0; N];
        write_first(bytes, &mut own);
        let boxed = Box::new(alloc, own)?;
        Ok(Boxed {
            len: bytes.len(),
            bytes: boxed,
        })
    }

    #[inline]
    pub(crate) fn as_bytes(&self) -> &[u8]
        ensures { result.now ≡ take self.now.len self.now.bytes.value }
    {
        let all = &self.bytes.as_ref()[..];
        &all[..self.len]
    }
}

// Bytes written over the first ones.
fn write_first(bytes: &[u8], out: &mut [u8])
    requires { length bytes.now ≤ length out.old }
    ensures { out.new ≡ bytes.now ++ drop (length bytes.now) out.old }
{
    out[..bytes.len()].copy_from_slice(bytes);
}
