//! The bytes of the wider integers, by contract. Other tests compare those of the narrower ones
//! with worked examples.
ghost use Rattle.std.specs.Prelude.{◌≡◌};
ghost use Rattle.std.specs.Int.NonZero.{non_zero_u32_get, non_zero_u64_get, non_zero_u128_get, non_zero_usize_get};
ghost use Rattle.std.specs.Int.NonZero.{non_zero_i32_get, non_zero_i64_get, non_zero_i128_get, non_zero_isize_get};
ghost use Rattle.art_mapped.specs.Numbers.{digits, signed_text};

use super::*;

fn u64_bytes(number: u64) -> [u8; 8]
    ensures { result ≡ digits 8 number }
{
    number.encode()
}

fn u128_bytes(number: u128) -> [u8; 16]
    ensures { result ≡ digits 16 number }
{
    number.encode()
}

fn i128_bytes(number: i128) -> [u8; 16]
    ensures { result ≡ signed_text 16 number }
{
    number.encode()
}

fn isize_bytes(number: isize) -> [u8; 8]
    ensures { result ≡ signed_text 8 number }
{
    number.encode()
}

fn non_zero_u32_bytes(number: NonZeroU32) -> [u8; 4]
    ensures { result ≡ digits 4 (non_zero_u32_get number) }
{
    number.encode()
}

fn non_zero_u64_bytes(number: NonZeroU64) -> [u8; 8]
    ensures { result ≡ digits 8 (non_zero_u64_get number) }
{
    number.encode()
}

fn non_zero_u128_bytes(number: NonZeroU128) -> [u8; 16]
    ensures { result ≡ digits 16 (non_zero_u128_get number) }
{
    number.encode()
}

fn non_zero_usize_bytes(number: NonZeroUsize) -> [u8; 8]
    ensures { result ≡ digits 8 (non_zero_usize_get number) }
{
    number.encode()
}

fn non_zero_i32_bytes(number: NonZeroI32) -> [u8; 4]
    ensures { result ≡ signed_text 4 (non_zero_i32_get number) }
{
    number.encode()
}

fn non_zero_i64_bytes(number: NonZeroI64) -> [u8; 8]
    ensures { result ≡ signed_text 8 (non_zero_i64_get number) }
{
    number.encode()
}

fn non_zero_i128_bytes(number: NonZeroI128) -> [u8; 16]
    ensures { result ≡ signed_text 16 (non_zero_i128_get number) }
{
    number.encode()
}

fn non_zero_isize_bytes(number: NonZeroIsize) -> [u8; 8]
    ensures { result ≡ signed_text 8 (non_zero_isize_get number) }
{
    number.encode()
}
