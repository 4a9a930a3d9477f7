//! Facts that a caller gets from the traits of headers and indices, stated of the values.
ghost use Rattle.std.specs.Prelude.{◌≡◌, ◌<◌, IsOk, IfOk};
ghost use Rattle.std.specs.Result.{OkIff};
ghost use Rattle.art_header.specs.Header.{same_header};

use art_header::{Header, NonMaxIndex, TryFromByteError};
use std::alloc::AllocError;

// Headers are equal where count, prefix length and stored prefix are.
fn are_equal<const PREFIX_LEN: usize>(a: &Header<PREFIX_LEN>, b: &Header<PREFIX_LEN>) -> bool
    ensures { result ≡ same_header a.now b.now }
{
    a == b
}

// A copy is equal to the header, and never fails.
fn copied<const PREFIX_LEN: usize>(
    header: &Header<PREFIX_LEN>,
) -> Result<Header<PREFIX_LEN>, AllocError>
    ensures same { IfOk result (λ copy. copy ≡ header.now) }
    ensures always { IsOk result }
{
    header.clone()
}

// An index has its number, at either width.
fn byte_of(index: NonMaxIndex) -> u8
    ensures { result ≡ index }
{
    u8::from(index)
}

fn place_of(index: NonMaxIndex) -> usize
    ensures { result ≡ index }
{
    usize::from(index)
}

// A number below 255 has its index, and no other number has one.
fn index_of_byte(number: u8) -> Result<NonMaxIndex, TryFromByteError>
    ensures { OkIff result (number < 255) number }
{
    NonMaxIndex::try_from(number)
}

fn index_of_place(number: usize) -> Result<NonMaxIndex, TryFromByteError>
    ensures { OkIff result (number < 255) number }
{
    NonMaxIndex::try_from(number)
}

// The first index is 0.
fn first_index() -> NonMaxIndex
    ensures { result ≡ 0 }
{
    NonMaxIndex::default()
}
