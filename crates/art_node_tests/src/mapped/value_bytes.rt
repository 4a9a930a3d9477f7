//! Which bytes are a value's: facts that a caller gets from the laws of `art_mapped`.
ghost use Rattle.std.specs.Prelude.{◌≡◌, ◌≢◌, ◌↔◌, ◌%◌, ◌<◌, ◌∷◌, [], ℕ, IsTrue, IsOk, IfOk, length, replicate, drop};
ghost use Rattle.std.specs.Net.Addr.{ipv4_octets};
ghost use Rattle.art_bytes.specs.Text.{IsText};
ghost use Rattle.art_mapped.specs.Sequences.{part};

use super::*;
use art_mapped::laws;

// Any four bytes are an address. No test is needed before they are converted.
fn address_of(alloc: Global, bytes: [u8; 4]) -> Result<Ipv4Addr, AllocError>
    ensures octets { IfOk result (λ address. bytes ≡ ipv4_octets address) }
    ensures always { IsOk result }
{
    laws::any_bytes_are_a_value();
    <ToOctets as BytesMapping<Ipv4Addr>>::from_bytes(alloc, bytes)
}

// Any bytes of its width are an address or an integer.
fn is_ipv6(bytes: &[u8; 16]) -> bool
    ensures { IsTrue result }
{
    laws::any_bytes_are_a_value();
    <ToOctets as BytesMapping<Ipv6Addr>>::is_value(bytes)
}

fn is_u16(bytes: &[u8; 2]) -> bool
    ensures { IsTrue result }
{
    laws::any_bytes_are_a_value();
    <ToUBE as BytesMapping<u16>>::is_value(bytes)
}

fn is_i64(bytes: &[u8; 8]) -> bool
    ensures { IsTrue result }
{
    laws::any_bytes_are_a_value();
    <ToIBE as BytesMapping<i64>>::is_value(bytes)
}

// Bytes are those of an unsigned integer other than zero where they are not all zero.
fn is_non_zero_u32(bytes: &[u8; 4]) -> bool
    ensures { IsTrue result ↔ (bytes.now ≢ replicate 4 0) }
{
    laws::bytes_of_non_zero_unsigned_integers();
    <ToUBE as BytesMapping<NonZeroU32>>::is_value(bytes)
}

// Bytes are those of a signed integer other than zero where they are not 128 and zeros.
fn is_non_zero_i16(bytes: &[u8; 2]) -> bool
    ensures { IsTrue result ↔ (bytes.now ≢ 128 ∷ 0 ∷ []) }
{
    laws::bytes_of_non_zero_signed_integers();
    <ToIBE as BytesMapping<NonZeroI16>>::is_value(bytes)
}

// Bytes are those of three numbers of two bytes where there are six.
fn are_three_ports(bytes: &Vec<u8>) -> bool
    ensures { IsTrue result ↔ (length bytes.now.items ≡ 6) }
{
    laws::any_bytes_are_a_value();
    laws::parts_have_their_widths();
    laws::bytes_of_arrays_and_vectors::<Unsigned, u16>();
    <ToUBE as BytesMapping<[u16; 3]>>::is_value(bytes)
}

// Bytes are those of a vector of numbers of two bytes where their number is even.
fn are_ports(bytes: &Vec<u8>) -> bool
    ensures { IsTrue result ↔ (length bytes.now.items % 2 ≡ 0) }
{
    laws::any_bytes_are_a_value();
    laws::parts_have_their_widths();
    laws::bytes_of_arrays_and_vectors::<Unsigned, u16>();
    <ToUBE as BytesMapping<Vec<u16>>>::is_value(bytes)
}

// Bytes are those of two numbers other than zero where there are four and neither part is zero.
fn are_two_counts(bytes: &Vec<u8>) -> bool
    ensures { IsTrue result ↔ ((length bytes.now.items ≡ 4) ×
        ((k : ℕ) → k < 2 → part 2 k bytes.now.items ≢ replicate 2 0)) }
{
    laws::bytes_of_non_zero_unsigned_integers();
    laws::parts_have_their_widths();
    laws::bytes_of_arrays_and_vectors::<Unsigned, NonZeroU16>();
    <ToUBE as BytesMapping<[NonZeroU16; 2]>>::is_value(bytes)
}

// Bytes are those of an address and a number other than zero where there are six and the last two
// are not zero.
fn is_host(bytes: &Vec<u8>) -> bool
    ensures { IsTrue result ↔
        ((length bytes.now.items ≡ 6) × (drop 4 bytes.now.items ≢ replicate 2 0)) }
{
    laws::any_bytes_are_a_value();
    laws::bytes_of_non_zero_unsigned_integers();
    laws::parts_have_their_widths();
    laws::bytes_of_tuples::<_, (Ipv4Addr, NonZeroU16), _, _, (ToOctets, ToUBE)>();
    <ConcatTuple<(ToOctets, ToUBE)> as BytesMapping<(Ipv4Addr, NonZeroU16)>>::is_value(bytes)
}

// Bytes that are one for each part of a tuple of three to six are a value's exactly where the one of
// the part other than zero is not zero.
fn are_three_bytes(bytes: &Vec<u8>) -> bool
    ensures length { IsTrue result → length bytes.now.items ≡ 3 }
    ensures value { (a b c : ℕ) → IsText (a ∷ b ∷ c ∷ []) →
        bytes.now.items ≡ a ∷ b ∷ c ∷ [] → IsTrue result ↔ (b ≢ 0) }
{
    laws::any_bytes_are_a_value();
    laws::bytes_of_non_zero_unsigned_integers();
    laws::bytes_of_tuples::<_, (u8, NonZeroU8, u8), _, _, (ToUBE, ToUBE, ToUBE)>();
    <ConcatTuple<(ToUBE, ToUBE, ToUBE)> as BytesMapping<(u8, NonZeroU8, u8)>>::is_value(bytes)
}

fn are_four_bytes(bytes: &Vec<u8>) -> bool
    ensures length { IsTrue result → length bytes.now.items ≡ 4 }
    ensures value { (a b c d : ℕ) → IsText (a ∷ b ∷ c ∷ d ∷ []) →
        bytes.now.items ≡ a ∷ b ∷ c ∷ d ∷ [] → IsTrue result ↔ (c ≢ 0) }
{
    laws::any_bytes_are_a_value();
    laws::bytes_of_non_zero_unsigned_integers();
    laws::bytes_of_tuples::<_, (u8, u8, NonZeroU8, u8), _, _, (ToUBE, ToUBE, ToUBE, ToUBE)>();
    <ConcatTuple<(ToUBE, ToUBE, ToUBE, ToUBE)> as BytesMapping<(u8, u8, NonZeroU8, u8)>>::is_value(
        bytes,
    )
}

fn are_five_bytes(bytes: &Vec<u8>) -> bool
    ensures length { IsTrue result → length bytes.now.items ≡ 5 }
    ensures value { (a b c d e : ℕ) → IsText (a ∷ b ∷ c ∷ d ∷ e ∷ []) →
        bytes.now.items ≡ a ∷ b ∷ c ∷ d ∷ e ∷ [] → IsTrue result ↔ (a ≢ 0) }
{
    laws::any_bytes_are_a_value();
    laws::bytes_of_non_zero_unsigned_integers();
    laws::bytes_of_tuples::<
        _,
        (NonZeroU8, u8, u8, u8, u8),
        _,
        _,
        (ToUBE, ToUBE, ToUBE, ToUBE, ToUBE),
    >();
    <ConcatTuple<(ToUBE, ToUBE, ToUBE, ToUBE, ToUBE)> as BytesMapping<
        (NonZeroU8, u8, u8, u8, u8),
    >>::is_value(bytes)
}

fn are_six_bytes(bytes: &Vec<u8>) -> bool
    ensures length { IsTrue result → length bytes.now.items ≡ 6 }
    ensures value { (a b c d e f : ℕ) → IsText (a ∷ b ∷ c ∷ d ∷ e ∷ f ∷ []) →
        bytes.now.items ≡ a ∷ b ∷ c ∷ d ∷ e ∷ f ∷ [] → IsTrue result ↔ (f ≢ 0) }
{
    laws::any_bytes_are_a_value();
    laws::bytes_of_non_zero_unsigned_integers();
    laws::bytes_of_tuples::<
        _,
        (u8, u8, u8, u8, u8, NonZeroU8),
        _,
        _,
        (ToUBE, ToUBE, ToUBE, ToUBE, ToUBE, ToUBE),
    >();
    <ConcatTuple<(ToUBE, ToUBE, ToUBE, ToUBE, ToUBE, ToUBE)> as BytesMapping<
        (u8, u8, u8, u8, u8, NonZeroU8),
    >>::is_value(bytes)
}
