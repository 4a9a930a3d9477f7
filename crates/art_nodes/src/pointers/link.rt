//! The links of leaves, in nine bytes each.
ghost use Rattle.std.specs.Prelude.{◌≡◌};

use std::marker::Model;

/// The slab key of a neighbour, or none, in nine bytes. It may lie at any address. Contracts see the
/// optional key.
#[derive(Drop)]
pub(crate) struct Link {
    is_some: bool,
    // The slab key, lowest byte first.
    key: [u8; 8],
}

impl Model for Link {
    ghost use Rattle.std.specs.Prelude.{◌≡◌, ◌<◌, ℕ, Option, Some, None, cond, length, get_or};
    ghost use Rattle.std.specs.Int.{w64, from_le_bytes};

    ghost Value = { Option ℕ };

    ghost view = { λ link. cond link.is_some (Some (from_le_bytes w64 link.key)) None };

    ghost invariant = { λ link. (length link.key ≡ 8) × ((i : ℕ) → get_or link.key i 0 < 256) };
}

impl Link {
    /// The link with this key, or none.
    #[inline]
    pub(crate) fn new(key: Option<usize>) -> Self
        ensures { result ≡ key }
    {
        match key {
            Some(key) => Link {
                is_some: true,
                key: key.to_le_bytes(),
            },
            None => Link {
                is_some: false,
                key: [0; 8],
            },
        }
    }

    /// The key, if there is one.
    #[inline]
    pub(crate) fn key(&self) -> Option<usize>
        ensures { result ≡ self.now }
    {
        if self.is_some {
            Some(usize::from_le_bytes(self.key))
        } else {
            None
        }
    }
}
