//! Eight bytes of an encoding as one number.
ghost use Rattle.std.specs.Prelude.{◌≡◌, ℕ, ◌<◌, ◌^◌, List, get_or};
ghost use Rattle.art_keys.specs.Heads.{head_at};

/// Bytes that are read one at a time, with zeros behind their end.
pub(crate) trait ByteSource: Copy {
    /// The bytes.
    ghost text: { Self → List ℕ };

    /// The byte at an index, which is not near the greatest one.
    fn byte_at(&self, index: usize) -> u8
        requires { index < 2 ^ 33 }
        ensures { result ≡ get_or (text self.now) index 0 };
}

/// The eight bytes behind the first `skip`, the first the most significant.
pub(crate) fn head_of<B: ByteSource>(bytes: B, skip: u32) -> u64
    ensures { result ≡ head_at skip (B.text bytes) }
{
    let start = skip as usize;
    let mut head = 0;
    for place in 0..8 {
        head = head * 256 + bytes.byte_at(start + place) as u64;
    }
    head
}
