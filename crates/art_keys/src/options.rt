//! Options: a byte that tells whether there is a value, and its bytes.
ghost use Rattle.std.specs.Prelude.{[], ◌∷◌};
ghost use Rattle.std.specs.Option.{option_cmp};
ghost use Rattle.art_keys.specs.Encoding.{option_encoded, IsOptionKey};
ghost use Rattle.art_keys.specs.EncodingLaws.{options_sort, options_are_bytes, option_order};

use crate::key::{KeyBytes, RadixKey};

impl<K: KeyBytes> KeyBytes for Option<K> {
    ghost encoded = { option_encoded K.encoded };

    ghost is_key = { IsOptionKey K.is_key };

    ghost order = { option_cmp K.order };
}

impl<K: RadixKey> RadixKey for Option<K> {
    const WANTS_HEADS: bool = K::WANTS_HEADS;

    ghost ordered = { option_order K.ordered };

    ghost are_bytes = { options_are_bytes K.encoded K.are_bytes };

    ghost sorted = { options_sort K.encoded K.cmp K.sorted };

    fn encoded_len(&self) -> usize {
        match self {
            None => 1,
            Some(key) => key.encoded_len().saturating_add(1),
        }
    }

    fn encoded_byte(&self, index: usize) -> u8 {
        match self {
            None => 0,
            Some(key) => {
                if index == 0 {
                    1
                } else {
                    key.encoded_byte(index - 1)
                }
            }
        }
    }
}
