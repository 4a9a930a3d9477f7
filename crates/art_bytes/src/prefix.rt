//! The longest common prefix of two slices of bytes.
ghost use Rattle.std.specs.Prelude.{◌≡◌, nat_eq};
ghost use Rattle.std.specs.List.{common_prefix_len};

/// The length of the longest common prefix of `a` and `b`, in bytes. Compares each byte of it and
/// at most one more.
pub fn common_prefix_len(a: &[u8], b: &[u8]) -> usize
    ensures { result ≡ common_prefix_len nat_eq a.now b.now }
{
    let shorter = a.len().min(b.len());
    for place in 0..shorter {
        if a[place] != b[place] {
            return place;
        }
    }
    shorter
}
