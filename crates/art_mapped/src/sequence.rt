//! Several integers as their bytes joined: what arrays and vectors share.
ghost use Rattle.std.specs.Prelude.{◌≡◌, ◌≢◌, ◌↔◌, ◌/◌, ◌<◌, length, All, IsTrue, IfOk, IfSome, IfNone, OnOk};
ghost use Rattle.art_mapped.specs.Sequences.{joined, AreJoined, part};

use crate::element::Element;
use crate::fixed::FixedBytes;
use art_bytes::AsBytes;
use std::alloc::{AllocError, Global};
use std::array;
use std::marker::PhantomData;

/// The forms of integers. Arrays and vectors of integers in such a form are mapped too.
///
/// (from crates/art_node_tests/src/mapped/mapped_callers.rt)
/// ```rust
/// fn array_back<F: IntegerForm, E: Element<F>, const N: usize>(
///     alloc: Global,
///     value: [E; N],
/// ) -> Result<[E; N], AllocError>
///     ensures { IfOk result (λ read. read ≡ value) }
/// {
///     Mapped::<ToBigEndian<F>, [E; N]>::new(alloc, value)?.get(alloc)
/// }
/// ```
pub trait IntegerForm {}

/// The mapping of several integers to their bytes joined.
///
/// [`BytesMapping`](crate::BytesMapping) has an example with an array.
pub struct Several<F>(PhantomData<F>);

/// The bytes of the elements, joined. The only error is an allocation failure.
pub(crate) fn joined_bytes<F, E: Element<F>>(
    alloc: Global,
    elements: &[E],
) -> Result<Vec<u8>, AllocError>
    ensures in_range { OnOk result (All E.is_in_range elements.now) }
    ensures text { IfOk result (λ bytes. bytes.items ≡ joined E.text_of elements.now) }
{
    let mut bytes = Vec::with_capacity(alloc, elements.len().saturating_mul(E::Bytes::WIDTH))?;
    for element in elements {
        bytes.extend_from_slice(element.encode().as_bytes())?;
    }
    Ok(bytes)
}

/// The element whose bytes are at this index, counted in elements, if they are those of an element.
fn decode_at<F, E: Element<F>>(bytes: &[u8], index: usize) -> Option<E>
    requires { index < length bytes.now / E.Bytes.WIDTH }
    ensures some { IfSome result (λ element.
        E.is_in_range element × (part E.Bytes.WIDTH index bytes.now ≡ E.text_of element)) }
    ensures none { IfNone result ((element : E) → E.is_in_range element →
        part E.Bytes.WIDTH index bytes.now ≢ E.text_of element) }
{
    let rest = &bytes[index * E::Bytes::WIDTH..];
    E::decode(E::Bytes::from_slice(&rest[..E::Bytes::WIDTH]))
}

/// Whether the bytes are those of some elements, joined.
pub(crate) fn are_elements<F, E: Element<F>>(bytes: &[u8]) -> bool
    ensures { IsTrue result ↔ AreJoined E.is_in_range E.text_of bytes.now }
{
    let width = E::Bytes::WIDTH;
    if bytes.len() % width != 0 {
        return false;
    }
    for index in 0..bytes.len() / width {
        if decode_at::<F, E>(bytes, index).is_none() {
            return false;
        }
    }
    true
}

/// The element whose bytes are at this index, counted in elements.
fn element_at<F, E: Element<F>>(bytes: &[u8], index: usize) -> E
    requires whole { index < length bytes.now / E.Bytes.WIDTH }
    requires elements { AreJoined E.is_in_range E.text_of bytes.now }
    ensures in_range { E.is_in_range result }
    ensures text { part E.Bytes.WIDTH index bytes.now ≡ E.text_of result }
{
    match decode_at::<F, E>(bytes, index) {
        Some(element) => element,
        None => unreachable!(),
    }
}

/// The elements with these bytes, as a vector. The only error is an allocation failure.
pub(crate) fn vec_of<F, E: Element<F>>(alloc: Global, bytes: &[u8]) -> Result<Vec<E>, AllocError>
    requires { AreJoined E.is_in_range E.text_of bytes.now }
    ensures in_range { IfOk result (λ elements. All E.is_in_range elements.items) }
    ensures text { IfOk result (λ elements. bytes.now ≡ joined E.text_of elements.items) }
{
    let count = bytes.len() / E::Bytes::WIDTH;
    let mut elements = Vec::with_capacity(alloc, count)?;
    for index in 0..count {
        elements.push(element_at::<F, E>(bytes, index))?;
    }
    Ok(elements)
}

/// The elements with these bytes, as an array.
pub(crate) fn array_of<F, E: Element<F>, const N: usize>(bytes: &[u8]) -> [E; N]
    requires size { length bytes.now / E.Bytes.WIDTH ≡ N }
    requires elements { AreJoined E.is_in_range E.text_of bytes.now }
    ensures len { length result ≡ N }
    ensures in_range { All E.is_in_range result }
    ensures text { bytes.now ≡ joined E.text_of result }
{
    array::from_fn(|index| element_at::<F, E>(bytes, index))
}
