//! Queries, and the lines that say them.
ghost use Rattle.std.specs.Prelude.{◌≡◌, ℕ, ◌∷◌, IfErr, IfOk, OnErr};
ghost use Rattle.art_bytes.specs.CString.{HasNoZero};
ghost use Rattle.program_lines.specs.Numbers.{IsNumber};
ghost use Rattle.words.specs.Faults.{IsBeginFault, IsWordQueryFault};
ghost use Rattle.words.specs.Queries.{SayWordQuery, IsFirstOf};
ghost use Rattle.words.specs.declared.fault.Fault.TheVariants.{ZeroByte, BadNumber};
ghost use Rattle.words.specs.declared.query.Query.{Query};

use crate::fault::Fault;
use program_lines::{FromLine, number_of, split_once};

/// A query about the words of the list.
#[derive(Clone, Copy)]
pub enum Query<'a> {
    /// `?PREFIX`: the words that begin with the prefix.
    Begin(&'a [u8]),
    /// `?PREFIX N`: the first N of them.
    FirstOf(&'a [u8], u64),
    /// `#PREFIX`: how many they are.
    Count(&'a [u8]),
    /// `<WORD`: the last word below this one.
    Before(&'a [u8]),
    /// `>WORD`: the first word above this one.
    After(&'a [u8]),
}

impl<'a> FromLine<'a, Fault> for Query<'a> {
    ghost use Rattle.words.specs.Faults.{IsWordQueryFault};
    ghost use Rattle.words.specs.Queries.{SayWordQuery};

    ghost says = { SayWordQuery };

    ghost has_fault = { IsWordQueryFault };

    fn from_line(line: &'a [u8]) -> Result<Query<'a>, Fault> {
        match line {
            [b'?', rest @ ..] => beginning(rest),
            [b'#', prefix @ ..] => count(prefix),
            [b'<', word @ ..] => before(word),
            [b'>', word @ ..] => after(word),
            _ => Err(Fault::UnknownQuery),
        }
    }
}

// The query for what follows `#`.
fn count(prefix: &[u8]) -> Result<Query<'_>, Fault>
    ensures said { IfOk result (SayWordQuery (35 ∷ prefix.now)) }
    ensures refused { OnErr result ((query : Query) → ¬ SayWordQuery (35 ∷ prefix.now) query) }
    ensures fault { IfErr result (IsWordQueryFault (35 ∷ prefix.now)) }
{
    match without_zero(prefix) {
        Ok(prefix) => Ok(Query::Count(prefix)),
        Err(fault) => Err(fault),
    }
}

// The query for what follows `<`.
fn before(word: &[u8]) -> Result<Query<'_>, Fault>
    ensures said { IfOk result (SayWordQuery (60 ∷ word.now)) }
    ensures refused { OnErr result ((query : Query) → ¬ SayWordQuery (60 ∷ word.now) query) }
    ensures fault { IfErr result (IsWordQueryFault (60 ∷ word.now)) }
{
    match without_zero(word) {
        Ok(word) => Ok(Query::Before(word)),
        Err(fault) => Err(fault),
    }
}

// The query for what follows `>`.
fn after(word: &[u8]) -> Result<Query<'_>, Fault>
    ensures said { IfOk result (SayWordQuery (62 ∷ word.now)) }
    ensures refused { OnErr result ((query : Query) → ¬ SayWordQuery (62 ∷ word.now) query) }
    ensures fault { IfErr result (IsWordQueryFault (62 ∷ word.now)) }
{
    match without_zero(word) {
        Ok(word) => Ok(Query::After(word)),
        Err(fault) => Err(fault),
    }
}

// The query for what follows `?`: a prefix without a space, and a number after a space if there is one.
fn beginning(rest: &[u8]) -> Result<Query<'_>, Fault>
    ensures said { IfOk result (SayWordQuery (63 ∷ rest.now)) }
    ensures refused { OnErr result ((query : Query) → ¬ SayWordQuery (63 ∷ rest.now) query) }
    ensures fault { IfErr result (IsBeginFault rest.now) }
{
    match split_once(rest, b' ') {
        None => Ok(Query::Begin(without_zero(rest)?)),
        Some((prefix, digits)) => first_of(without_zero(prefix)?, digits),
    }
}

// The query for the first words with a prefix, as many as the digits give.
fn first_of<'a>(prefix: &'a [u8], digits: &[u8]) -> Result<Query<'a>, Fault>
    ensures number { IfOk result (λ query. (most : ℕ)
        × IsFirstOf query prefix.now most × IsNumber digits.now most) }
    ensures refused { OnErr result ((most : ℕ) → ¬ IsNumber digits.now most) }
    ensures fault { IfErr result (λ fault. fault ≡ BadNumber) }
{
    match number_of(digits) {
        Some(most) => Ok(Query::FirstOf(prefix, most)),
        None => Err(Fault::BadNumber),
    }
}

// The same bytes, of which none is zero.
pub(crate) fn without_zero(bytes: &[u8]) -> Result<&[u8], Fault>
    ensures same { IfOk result (λ given. given.now ≡ bytes.now) }
    ensures none { IfOk result (λ given. HasNoZero bytes.now) }
    ensures refused { OnErr result (¬ HasNoZero bytes.now) }
    ensures fault { IfErr result (λ fault. fault ≡ ZeroByte) }
{
    if bytes.iter().all(|byte| *byte != 0) {
        Ok(bytes)
    } else {
        Err(Fault::ZeroByte)
    }
}
