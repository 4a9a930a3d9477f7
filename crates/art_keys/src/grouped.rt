//! Byte strings in groups of eight bytes and a marker.
ghost use Rattle.std.specs.Prelude.{◌≡◌, ◌<◌, length, get_or};
ghost use Rattle.art_bytes.specs.Text.{IsText};
ghost use Rattle.art_keys.specs.Groups.{grouped};
ghost use Rattle.art_keys.specs.Heads.{head_at};

use crate::head::{ByteSource, head_of};

/// How many bytes the groups have.
pub(crate) fn grouped_len(bytes: &[u8]) -> usize
    ensures len { result ≡ length (grouped bytes.now) }
    ensures bytes { IsText bytes.now }
{
    // A call's result, so that the check knows that each item is a byte.
    let bytes = itself(bytes);
    (bytes.len().saturating_sub(1) / 8 + 1) * 9
}

fn itself(bytes: &[u8]) -> &[u8]
    ensures { result.now ≡ bytes.now }
{
    bytes
}

/// One byte of the groups.
pub(crate) fn grouped_byte(bytes: &[u8], index: usize) -> u8
    requires { index < length (grouped bytes.now) }
    ensures { result ≡ get_or (grouped bytes.now) index 0 }
{
    let group = index / 9;
    let place = index % 9;
    let start = group * 8;
    if place < 8 {
        if start + place < bytes.len() {
            bytes[start + place]
        } else {
            0
        }
    } else {
        (bytes.len() - start).min(9) as u8
    }
}

/// Eight bytes of the groups.
pub(crate) fn grouped_head(bytes: &[u8], skip: u32) -> u64
    ensures { result ≡ head_at skip (grouped bytes.now) }
{
    head_of(Grouped(bytes), skip)
}

#[derive(Clone, Copy)]
struct Grouped<'a>(&'a [u8]);

impl ByteSource for Grouped<'_> {
    ghost text = { λ bytes. grouped bytes.0.now };

    fn byte_at(&self, index: usize) -> u8 {
        if index < grouped_len(self.0) {
            grouped_byte(self.0, index)
        } else {
            0
        }
    }
}
