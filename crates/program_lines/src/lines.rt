//! Lines of bytes, and what they say.
ghost use Rattle.std.specs.Prelude.{◌≡◌, ◌==◌, ◌<◌, ◌↔◌, ◌∷◌, drop, length, position, IfOk, IfErr, OnErr, IfSome, IfNone, IsTrue};
ghost use Rattle.program_lines.specs.Lines.{lines_of, line_at, SayAll, SayLine, IsFirstBad, IsCutAt, HasNo, EndsInReturn};
ghost use Rattle.program_lines.specs.Failures.{IfBadLine, IsLineFailure};
ghost use Rattle.program_lines.specs.Faults.{IsLineFault};

use crate::failure::{BadLine, Failure, Source};
use crate::line_fault::LineFault;
use std::alloc::Global;

/// What one line says that has no carriage return at its end. A line that says nothing has a fault.
pub trait FromLine<'a, Fault>: Sized {
    ghost use Rattle.std.specs.Prelude.{ℕ, List, IfOk, IfErr, OnErr};

    /// The line says this.
    ghost says: { List ℕ → Self → Type 0 };

    /// This is what is wrong with the line.
    ghost has_fault: { List ℕ → Fault → Type 0 } = { λ _ _. Unit {0} };

    /// What a line says, without the byte that ends it.
    ///
    /// Refuses a line that says nothing.
    fn from_line(line: &'a [u8]) -> Result<Self, Fault>
        ensures said { IfOk result (says line.now) }
        ensures refused { OnErr result ((item : Self) → ¬ says line.now item) }
        ensures fault { IfErr result (has_fault line.now) };
}

/// What a line says, without the byte that ends it.
///
/// Refuses a line that ends with a carriage return, and one that says nothing.
pub fn item_of<'a, Fault: Copy, T: FromLine<'a, Fault>>(
    line: &'a [u8],
) -> Result<T, LineFault<Fault>>
    ensures said { IfOk result (SayLine T.says line.now) }
    ensures refused { OnErr result ((item : T) → ¬ SayLine T.says line.now item) }
    ensures fault { IfErr result (IsLineFault T.has_fault line.now) }
{
    if ends_in_return(line) {
        return Err(LineFault::CarriageReturn);
    }
    match T::from_line(line) {
        Ok(item) => Ok(item),
        Err(fault) => Err(LineFault::Other(fault)),
    }
}

/// What the lines say, one item a line. A line ends at byte 10, and a last line without one counts
/// where it has a byte.
///
/// Refuses the first line that says nothing. An allocation may fail.
pub fn said<'a, Fault: Copy, T: FromLine<'a, Fault> + Drop>(
    alloc: Global,
    source: Source,
    bytes: &'a [u8],
) -> Result<Vec<T>, Failure<Fault>>
    ensures all { IfOk result (λ items. SayAll T.says (lines_of bytes.now) items.items) }
    ensures first_bad { IfErr result (IfBadLine (λ bad.
        (bad.source ≡ source) × IsFirstBad T.says (lines_of bytes.now) bad.number)) }
    ensures fault { IfErr result (IsLineFailure (λ bad.
        T.has_fault (line_at (lines_of bytes.now) bad.number) bad.fault)) }
{
    items_of::<Fault, T, AsItStands>(alloc, source, bytes)
}

/// What the lines say as [`said`] reads them, where none may end with a carriage return.
///
/// Refuses the first line that does, or that says nothing. An allocation may fail.
pub fn said_whole<'a, Fault: Copy, T: FromLine<'a, Fault> + Drop>(
    alloc: Global,
    source: Source,
    bytes: &'a [u8],
) -> Result<Vec<T>, Failure<LineFault<Fault>>>
    ensures all { IfOk result (λ items.
        SayAll (SayLine T.says) (lines_of bytes.now) items.items) }
    ensures first_bad { IfErr result (IfBadLine (λ bad.
        (bad.source ≡ source) × IsFirstBad (SayLine T.says) (lines_of bytes.now) bad.number)) }
    ensures fault { IfErr result (IsLineFailure (λ bad.
        IsLineFault T.has_fault (line_at (lines_of bytes.now) bad.number) bad.fault)) }
{
    items_of::<LineFault<Fault>, T, WithoutReturn>(alloc, source, bytes)
}

// A way to read a line.
trait ReadLine<'a, Fault, T> {
    ghost use Rattle.std.specs.Prelude.{ℕ, List, IfOk, IfErr, OnErr};

    // The line says this.
    ghost reads: { List ℕ → T → Type 0 };

    // This is what is wrong with the line.
    ghost refuses: { List ℕ → Fault → Type 0 };

    fn read_line(line: &'a [u8]) -> Result<T, Fault>
        ensures said { IfOk result (reads line.now) }
        ensures refused { OnErr result ((item : T) → ¬ reads line.now item) }
        ensures fault { IfErr result (refuses line.now) };
}

// A line says what it says.
struct AsItStands;

impl<'a, Fault, T: FromLine<'a, Fault>> ReadLine<'a, Fault, T> for AsItStands {
    ghost reads = { T.says };

    ghost refuses = { T.has_fault };

    fn read_line(line: &'a [u8]) -> Result<T, Fault> {
        T::from_line(line)
    }
}

// A line that ends with a carriage return says nothing.
struct WithoutReturn;

impl<'a, Fault: Copy, T: FromLine<'a, Fault>> ReadLine<'a, LineFault<Fault>, T> for WithoutReturn {
    ghost use Rattle.program_lines.specs.Lines.{SayLine};
    ghost use Rattle.program_lines.specs.Faults.{IsLineFault};

    ghost reads = { SayLine T.says };

    ghost refuses = { IsLineFault T.has_fault };

    fn read_line(line: &'a [u8]) -> Result<T, LineFault<Fault>> {
        item_of(line)
    }
}

// What the lines say, read in this way.
fn items_of<'a, Fault: Copy, T: Drop, L: ReadLine<'a, Fault, T>>(
    alloc: Global,
    source: Source,
    bytes: &'a [u8],
) -> Result<Vec<T>, Failure<Fault>>
    ensures all { IfOk result (λ items. SayAll L.reads (lines_of bytes.now) items.items) }
    ensures first_bad { IfErr result (IfBadLine (λ bad.
        (bad.source ≡ source) × IsFirstBad L.reads (lines_of bytes.now) bad.number)) }
    ensures fault { IfErr result (IsLineFailure (λ bad.
        L.refuses (line_at (lines_of bytes.now) bad.number) bad.fault)) }
{
    let lines = bytes.iter().filter(|byte| **byte == b'\n').count() + 1;
    let mut items = Vec::with_capacity(alloc, lines)?;
    let mut rest = bytes;
    while !rest.is_empty() {
        let (line, after) = first_line(rest);
        match L::read_line(line) {
            Ok(item) => items.push(item)?,
            Err(fault) => {
                return Err(Failure::BadLine(BadLine {
                    source,
                    number: items.len() + 1,
                    fault,
                }));
            }
        }
        rest = after;
    }
    Ok(items)
}

/// The first line, without the byte 10 that ends it, and the bytes after that: nothing where no
/// byte 10 ends the line. There must be a byte.
pub fn first_line(bytes: &[u8]) -> (&[u8], &[u8])
    requires { 0 < length bytes.now }
    ensures lines { lines_of bytes.now ≡ result.0.now ∷ lines_of result.1.now }
    ensures shorter { length result.1.now < length bytes.now }
{
    match position_of(bytes, b'\n') {
        Some(end) => (&bytes[..end], &bytes[end + 1..]),
        None => (bytes, &[]),
    }
}

/// The line of this number, from 1, without the byte that ends it, or no bytes where there is none.
pub(crate) fn line_numbered(bytes: &[u8], number: usize) -> &[u8]
    ensures { result.now ≡ line_at (lines_of bytes.now) number }
{
    let mut rest = bytes;
    for _line in 1..number {
        rest = after_line(rest);
    }
    if rest.is_empty() {
        return rest;
    }
    first_line(rest).0
}

// What comes after the first line.
fn after_line(bytes: &[u8]) -> &[u8]
    ensures { lines_of result.now ≡ drop 1 (lines_of bytes.now) }
{
    if bytes.is_empty() {
        return bytes;
    }
    first_line(bytes).1
}

// The index of the first such byte, or None where there is none.
fn position_of(bytes: &[u8], at: u8) -> Option<usize>
    ensures index { result ≡ position (λ b. b == at) bytes.now }
    ensures within { IfSome result (λ index. index < length bytes.now) }
{
    bytes.iter().position(|byte| *byte == at)
}

/// What comes before the first such byte and after it, or None where there is none.
pub fn split_once(bytes: &[u8], at: u8) -> Option<(&[u8], &[u8])>
    ensures cut { IfSome result (λ parts. IsCutAt at bytes.now parts.0.now parts.1.now) }
    ensures none { IfNone result (HasNo at bytes.now) }
{
    match position_of(bytes, at) {
        Some(index) => Some((&bytes[..index], &bytes[index + 1..])),
        None => None,
    }
}

/// Whether the last byte is a carriage return.
pub fn ends_in_return(line: &[u8]) -> bool
    ensures { IsTrue result ↔ EndsInReturn line.now }
{
    line.last().copied() == Some(b'\r')
}
