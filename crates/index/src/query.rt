//! Queries, and the lines that say them.
ghost use Rattle.std.specs.Prelude.{◌≡◌, ◌≢◌, ◌++◌, ℕ, ℤ, List, IfErr, IfOk, MatchOption, OnErr, codes};
ghost use Rattle.std.specs.declared.net.Ipv6Addr.{Ipv6Addr};
ghost use Rattle.index.specs.Queries.{AreBounds, AskIndexFor, IsAskFault, IsBoundsFault, IsHostFault, SayHost};
ghost use Rattle.index.specs.declared.query.Query.{Query};

use crate::fault::Fault;
use crate::fields::{address_of, time_of};
use program_lines::{FromLine, split_once};
use std::net::Ipv6Addr;

/// A query about the rows of the table.
#[derive(Clone, Copy)]
pub enum Query {
    /// `host ADDRESS from TIME to TIME`: the rows of the host from the one time to the other, both
    /// included. `host ADDRESS`: all its rows, which are those from the least time to the greatest.
    Host(Ipv6Addr, i64, i64),
    /// `time from TIME to TIME`: the rows of all hosts from the one time to the other, both included.
    Time(i64, i64),
    /// `hosts`: each address that has a row.
    Hosts,
    /// `first`: the first row.
    First,
    /// `last`: the last row.
    Last,
    /// `count`: how many rows there are.
    Count,
    /// `count ADDRESS from TIME to TIME`, or `count ADDRESS`: how many rows `host` has with the same words.
    CountHost(Ipv6Addr, i64, i64),
}

impl<'a> FromLine<'a, Fault> for Query {
    ghost use Rattle.index.specs.Queries.{AskIndexFor, IsAskFault};

    ghost says = { AskIndexFor };

    ghost has_fault = { IsAskFault };

    fn from_line(line: &'a [u8]) -> Result<Query, Fault> {
        query_of(line)
    }
}

// What a line asks for.
fn query_of(line: &[u8]) -> Result<Query, Fault>
    ensures said { IfOk result (AskIndexFor line.now) }
    ensures refused { OnErr result ((query : Query) → ¬ AskIndexFor line.now query) }
    ensures fault { IfErr result (IsAskFault line.now) }
{
    if let Some(rest) = after(line, b"host ") {
        let (address, from, to) = host_of(rest)?;
        return Ok(Query::Host(address, from, to));
    }
    if let Some(rest) = after(line, b"time ") {
        let (first, last) = bounds_of(rest)?;
        return Ok(Query::Time(first, last));
    }
    if let Some(rest) = after(line, b"count ") {
        let (host, start, end) = host_of(rest)?;
        return Ok(Query::CountHost(host, start, end));
    }
    word_of(line)
}

// The query of a line that is one word.
fn word_of(line: &[u8]) -> Result<Query, Fault>
    requires host { (text : List ℕ) → line.now ≢ codes "host " ++ text }
    requires time { (text : List ℕ) → line.now ≢ codes "time " ++ text }
    requires count { (text : List ℕ) → line.now ≢ codes "count " ++ text }
    ensures said { IfOk result (AskIndexFor line.now) }
    ensures refused { OnErr result ((query : Query) → ¬ AskIndexFor line.now query) }
    ensures fault { IfErr result (IsAskFault line.now) }
{
    if line == b"hosts".as_slice() {
        return Ok(Query::Hosts);
    }
    if line == b"first".as_slice() {
        return Ok(Query::First);
    }
    if line == b"last".as_slice() {
        return Ok(Query::Last);
    }
    if line == b"count".as_slice() {
        return Ok(Query::Count);
    }
    Err(Fault::UnknownQuery)
}

// What comes after the word, or None where the text does not begin with it.
fn after<'a>(text: &'a [u8], word: &[u8]) -> Option<&'a [u8]>
    ensures { MatchOption result ((rest : List ℕ) → text.now ≢ word.now ++ rest)
        (λ rest. text.now ≡ word.now ++ rest.now) }
{
    text.strip_prefix(word)
}

// The address and the bounds of what follows `host `.
fn host_of(text: &[u8]) -> Result<(Ipv6Addr, i64, i64), Fault>
    ensures said { IfOk result (λ host. SayHost text.now host.0 host.1 host.2) }
    ensures refused { OnErr result
        ((address : Ipv6Addr) (from to : ℤ) → ¬ SayHost text.now address from to) }
    ensures fault { IfErr result (IsHostFault text.now) }
{
    match split_once(text, b' ') {
        None => {
            let address = address_of(text)?;
            Ok((address, i64::MIN, i64::MAX))
        }
        Some((host, bounds)) => {
            let address = address_of(host)?;
            let (from, to) = bounds_of(bounds)?;
            Ok((address, from, to))
        }
    }
}

// The times of `from TIME to TIME`.
fn bounds_of(text: &[u8]) -> Result<(i64, i64), Fault>
    ensures said { IfOk result (λ bounds. AreBounds text.now bounds.0 bounds.1) }
    ensures refused { OnErr result ((from to : ℤ) → ¬ AreBounds text.now from to) }
    ensures fault { IfErr result (IsBoundsFault text.now) }
{
    let Some(rest) = after(text, b"from ") else {
        return Err(Fault::UnknownQuery);
    };
    let Some((first, next)) = split_once(rest, b' ') else {
        return Err(Fault::UnknownQuery);
    };
    let Some(last) = after(next, b"to ") else {
        return Err(Fault::UnknownQuery);
    };
    let from = time_of(first)?;
    let to = time_of(last)?;
    Ok((from, to))
}
