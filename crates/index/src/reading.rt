//! Readings, and the table of them.
ghost use Rattle.std.specs.Prelude.{◌≡◌, List, ℕ, IfErr, IfOk, OnErr, true};
ghost use Rattle.program_lines.specs.Failures.{IfBadLine};
ghost use Rattle.program_lines.specs.Lines.{SayAll, lines_of};
ghost use Rattle.index.specs.Readings.{AreRowLines, HasFields, IsBadRow, IsFieldFault, IsFirstBadRow, IsHeaderFault, SayReading};
ghost use Rattle.program_lines.specs.declared.failure.Source.TheVariants.{File};
ghost use Rattle.index.specs.declared.reading.Reading.{Reading};

use crate::fault::Fault;
use crate::fields::{address_of, time_of};
use program_lines::{
    BadLine, Failure, FromLine, LineFault, Source, ends_in_return, first_line, said_whole,
    split_once,
};
use std::alloc::Global;
use std::net::Ipv6Addr;

/// A reading: what a line of the table says.
#[derive(Clone, Copy)]
pub struct Reading<'a> {
    /// The host. An IPv4 address a.b.c.d is ::ffff:a.b.c.d.
    pub address: Ipv6Addr,
    /// The time in seconds.
    pub time: i64,
    /// The whole line.
    pub line: &'a [u8],
}

impl<'a> FromLine<'a, Fault> for Reading<'a> {
    ghost use Rattle.index.specs.Readings.{HasFields, IsFieldFault};

    ghost says = { HasFields };

    ghost has_fault = { IsFieldFault };

    fn from_line(line: &'a [u8]) -> Result<Reading<'a>, Fault> {
        reading_of(line)
    }
}

// The reading of a line.
fn reading_of(line: &[u8]) -> Result<Reading<'_>, Fault>
    ensures said { IfOk result (HasFields line.now) }
    ensures refused { OnErr result ((reading : Reading) → ¬ HasFields line.now reading) }
    ensures fault { IfErr result (IsFieldFault line.now) }
{
    let Some((host, rest)) = split_once(line, b',') else {
        return Err(Fault::MissingField);
    };
    let Some((seconds, _)) = split_once(rest, b',') else {
        return Err(Fault::MissingField);
    };
    let address = address_of(host)?;
    let time = time_of(seconds)?;
    Ok(Reading {
        address,
        time,
        line,
    })
}

/// The readings of a table. An allocation may fail.
///
/// Refuses a table without its header, where it is to have one, and else the first row that is no
/// reading.
pub(crate) fn table_of(
    alloc: Global,
    has_header: bool,
    file: &[u8],
) -> Result<Vec<Reading<'_>>, Failure<LineFault<Fault>>>
    ensures all { IfOk result (λ table. (rows : List (List ℕ))
        × AreRowLines has_header file.now rows × SayAll SayReading rows table.items) }
    ensures first_bad { IfErr result (IfBadLine (IsBadRow has_header file.now)) }
{
    if !has_header {
        return said_whole(alloc, Source::File, file);
    }
    match rows_of(file) {
        Ok(rows) => rows_after_header(alloc, rows),
        Err(fault) => Err(Failure::BadLine(BadLine {
            source: Source::File,
            number: 1,
            fault,
        })),
    }
}

// What comes after the header of a table.
fn rows_of(file: &[u8]) -> Result<&[u8], LineFault<Fault>>
    ensures rows { IfOk result (λ rows. AreRowLines true file.now (lines_of rows.now)) }
    ensures fault { IfErr result (IsHeaderFault file.now) }
{
    if file.is_empty() {
        return Err(LineFault::Other(Fault::NoHeader));
    }
    let (line, rows) = first_line(file);
    if ends_in_return(line) {
        return Err(LineFault::CarriageReturn);
    }
    if line != b"address,time,value".as_slice() {
        return Err(LineFault::Other(Fault::NoHeader));
    }
    Ok(rows)
}

// The readings of the rows that come after the header. A bad line is numbered in the file.
fn rows_after_header(
    alloc: Global,
    rows: &[u8],
) -> Result<Vec<Reading<'_>>, Failure<LineFault<Fault>>>
    ensures all { IfOk result (λ table. SayAll SayReading (lines_of rows.now) table.items) }
    ensures first_bad { IfErr result (IfBadLine (λ bad.
        (bad.source ≡ File) × IsFirstBadRow 1 (lines_of rows.now) bad)) }
{
    match said_whole(alloc, Source::File, rows) {
        Ok(table) => Ok(table),
        Err(Failure::BadLine(bad)) => Err(Failure::BadLine(BadLine {
            source: bad.source,
            number: bad.number + 1,
            fault: bad.fault,
        })),
        Err(failure) => Err(failure),
    }
}
