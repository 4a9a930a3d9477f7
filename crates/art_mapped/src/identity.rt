//! The mapping of keys to themselves.
ghost use Rattle.std.specs.Prelude.{◌≡◌, false, refl};
ghost use Rattle.std.proofs.Math.Logic.{∥∥₁_map};
ghost use Rattle.art_mapped.specs.Mapping.{HasTextInRange};
ghost use Rattle.std.proofs.Common.{ap, sym, ◌∙◌};

use crate::mapping::{BytesMapping, Holds, NoPrefixesMapping, ValueTexts, prove_is_key};
use art_bytes::{AsBytes, NoPrefixesBytes};
use std::alloc::{AllocError, Global};

/// Maps each key to itself, and takes no memory. Reading returns the key that was written.
///
/// The mapping has no order law, since the order of its domain may differ from that of the bytes.
///
/// (from crates/art_node_tests/src/mapped/tuples.rt)
/// ```rust
/// fn key_back<D: AsBytes + Drop>(alloc: Global, key: D) -> Result<D, AllocError>
///     ensures same { IfOk result (λ read. read ≡ key) }
///     ensures always { IsOk result }
/// {
///     Mapped::<Identity, D>::new(alloc, key)?.get(alloc)
/// }
/// ```
#[derive(Debug)]
pub struct Identity;

impl<D: AsBytes> Holds<D, D> for Identity {
    ghost holds = { λ bytes value. D.is_key value × (value ≡ bytes) };
}

impl<D: AsBytes> ValueTexts<D> for Identity {
    ghost is_text = { HasTextInRange D.is_key (λ text. text) D.text };
}

impl<D: AsBytes + Drop> BytesMapping<D> for Identity {
    ghost holds_value = { λ _ _. (λ holds. holds, λ holds. holds) };

    ghost is_text_of_a_key = { λ _ text value _. (
      λ of. (value, of.0, sym of.1, of.0, refl),
      λ of. (of.3, sym of.2 ∙ ap D.text (sym of.4)),
    ) };

    type Bytes = D;

    const ALLOCATES: bool = false;

    const READ_ALLOCATES: bool = false;

    ghost ALLOCATES = { false };

    ghost READ_ALLOCATES = { false };

    ghost is_in_domain = { D.is_key };

    ghost text_of = { D.text };

    ghost are_same = { λ x y. x ≡ y };

    ghost stands_for = { λ bytes value. value ≡ bytes };

    ghost has_text = { λ _ _ _ stands. Prim.cc };

    ghost one_text = { λ x y same. Prim.cc };

    ghost reads_one = { λ _ x y _ _ x_stands y_stands. Prim.cc };

    ghost kept_by_text = { λ a b is_key _ some. ∥∥₁_map some (λ _. (b, is_key, refl)) };

    fn to_bytes(_alloc: Global, value: D) -> Result<D, AllocError> {
        prove_is_key(&value);
        Ok(value)
    }

    fn from_bytes(_alloc: Global, bytes: D) -> Result<D, AllocError> {
        prove_is_key(&bytes);
        Ok(bytes)
    }

    fn is_value(bytes: &D) -> bool {
        prove_is_key(bytes);
        true
    }
}

impl<D: NoPrefixesBytes + Drop> NoPrefixesMapping<D> for Identity {
    ghost no_prefixes = { D.no_prefixes };
}
