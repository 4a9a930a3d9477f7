//! The replies to queries.
ghost use Rattle.std.specs.Prelude.{◌≡◌, ◌++◌, List, IfErr, IfNone, IfOk, IfSome, OnOk, filter, map};
ghost use Rattle.std.specs.List.{flat_map};
ghost use Rattle.std.specs.Option.{option_map};
ghost use Rattle.std.specs.declared.net.Ipv6Addr.{Ipv6Addr};
ghost use Rattle.index.specs.Keys.{AreKeyed, HasTimes, IsIndexTable};
ghost use Rattle.program_lines.specs.Failures.{IfBadLine};
ghost use Rattle.index.specs.Queries.{SayIndexQuery};
ghost use Rattle.index.specs.Readings.{IsBadRow};
ghost use Rattle.index.specs.Replies.{HasIndexFault, end_line, host_line, is_timed, row_line};
ghost use Rattle.index.specs.Rows.{AreHosts};
ghost use Rattle.index.specs.Searches.{AppendsIndexReply};
ghost use Rattle.index.specs.declared.query.Query.{Query};

use crate::fault::Fault;
use crate::query::Query;
use crate::reading::table_of;
use crate::rows::{Row, RowKey, RowMap, index_of};
use crate::searches::{Rows, count_of_host, next_host, rows_of_host};
use program_lines::{Failure, LineFault, Program, item_of, push_line, push_number};
use std::alloc::{AllocError, Global};
use std::net::Ipv6Addr;

/// The rows of a table, which answer queries. The first line of the table is its header, or a row as
/// the others.
#[derive(Drop)]
pub(crate) struct ReadingIndex<'a, const HAS_HEADER: bool> {
    rows: RowMap<'a>,
}

impl<'a, const HAS_HEADER: bool> Program<'a> for ReadingIndex<'a, HAS_HEADER> {
    ghost use Rattle.std.specs.Prelude.{◌≡◌, []};
    ghost use Rattle.index.specs.Keys.{IsIndexTable};
    ghost use Rattle.index.specs.Readings.{IsBadRow};
    ghost use Rattle.index.specs.Replies.{HasIndexFault, HasIndexReply};

    type Fault = Fault;

    ghost is_table = { λ file index. IsIndexTable HAS_HEADER file index.rows };

    ghost is_heading = { λ file heading. heading ≡ [] };

    ghost is_reply = { HasIndexReply HAS_HEADER };

    ghost is_bad = { IsBadRow HAS_HEADER };

    ghost has_fault = { HasIndexFault };

    fn load(
        alloc: Global,
        file: &'a [u8],
        _output: &mut Vec<u8>,
    ) -> Result<ReadingIndex<'a, HAS_HEADER>, Failure<LineFault<Fault>>> {
        let rows = rows_of_table(alloc, HAS_HEADER, file)?;
        Ok(ReadingIndex { rows })
    }

    fn push_reply(
        &self,
        alloc: Global,
        line: &[u8],
        output: &mut Vec<u8>,
    ) -> Result<Option<LineFault<Fault>>, AllocError> {
        answer_line(alloc, &self.rows, line, output)
    }
}

// The rows of a table, in order.
fn rows_of_table(
    alloc: Global,
    has_header: bool,
    file: &[u8],
) -> Result<RowMap<'_>, Failure<LineFault<Fault>>>
    ensures table { IfOk result (IsIndexTable has_header file.now) }
    ensures refused { IfErr result (IfBadLine (IsBadRow has_header file.now)) }
{
    let table = table_of(alloc, has_header, file)?;
    let rows = index_of(alloc, &table)?;
    Ok(rows)
}

// Appends the reply to a line, or returns what is wrong with it.
fn answer_line(
    alloc: Global,
    rows: &RowMap<'_>,
    line: &[u8],
    output: &mut Vec<u8>,
) -> Result<Option<LineFault<Fault>>, AllocError>
    requires keyed { AreKeyed rows.now }
    ensures reply { IfOk result (λ fault. IfNone fault ((query : Query) × SayIndexQuery line.now query
        × AppendsIndexReply (map (λ entry. entry.1) rows.now) query output.old.items output.new.items)) }
    ensures fault { IfOk result (λ fault. IfSome fault (λ this.
        HasIndexFault line.now this × (output.new.items ≡ output.old.items))) }
{
    let query: Query = match item_of(line) {
        Ok(query) => query,
        Err(fault) => return Ok(Some(fault)),
    };
    push_reply(alloc, rows, &query, output)?;
    Ok(None)
}

// Appends what a query prints.
fn push_reply(
    alloc: Global,
    index: &RowMap<'_>,
    query: &Query,
    output: &mut Vec<u8>,
) -> Result<(), AllocError>
    requires keyed { AreKeyed index.now }
    requires times { HasTimes query.now }
    ensures { OnOk result
        (AppendsIndexReply (map (λ entry. entry.1) index.now) query.now output.old.items output.new.items) }
{
    match *query {
        Query::Host(address, from, to) => {
            let rows = rows_of_host(index, address, from, to);
            push_rows(rows, output)?;
        }
        Query::Time(from, to) => push_timed(index, from, to, output)?,
        Query::Hosts => push_hosts(alloc, index, output)?,
        Query::First => push_end(index.first_key_value(), output)?,
        Query::Last => push_end(index.last_key_value(), output)?,
        Query::Count => push_number(alloc, index.len(), output)?,
        Query::CountHost(address, from, to) => {
            push_number(alloc, count_of_host(index, address, from, to), output)?;
        }
    }
    Ok(())
}

// Appends the line of each row.
fn push_rows(rows: Rows<'_, '_>, output: &mut Vec<u8>) -> Result<(), AllocError>
    ensures { OnOk result (output.new.items ≡ output.old.items
        ++ flat_map row_line (map (λ entry. entry.1) rows.entry)) }
{
    for (_, row) in rows {
        push_line(output, row.reading.line)?;
    }
    Ok(())
}

// Appends the line of each row from the one time to the other. Goes down the tree for each host, and
// not over the other rows.
fn push_timed(
    index: &RowMap<'_>,
    from: i64,
    to: i64,
    output: &mut Vec<u8>,
) -> Result<(), AllocError>
    requires keyed { AreKeyed index.now }
    ensures { OnOk result (output.new.items ≡ output.old.items
        ++ flat_map row_line (filter (is_timed from to) (map (λ entry. entry.1) index.now))) }
{
    // So that the rows are known to ascend where there is no host.
    let _count = index.len();
    let mut last = None;
    while let Some(address) = next_host(index, last) {
        push_rows(rows_of_host(index, address, from, to), output)?;
        last = Some(address);
    }
    Ok(())
}

// Appends a line for each host.
fn push_hosts(alloc: Global, index: &RowMap<'_>, output: &mut Vec<u8>) -> Result<(), AllocError>
    requires keyed { AreKeyed index.now }
    ensures { OnOk result ((hosts : List Ipv6Addr) × AreHosts (map (λ entry. entry.1) index.now) hosts
        × (output.new.items ≡ output.old.items ++ flat_map host_line hosts)) }
{
    let mut last = None;
    while let Some(address) = next_host(index, last) {
        push_host(alloc, address, output)?;
        last = Some(address);
    }
    Ok(())
}

// Appends a line with a host: as an IPv4 address, where it is one.
fn push_host(alloc: Global, address: Ipv6Addr, output: &mut Vec<u8>) -> Result<(), AllocError>
    ensures { OnOk result (output.new.items ≡ output.old.items ++ host_line address) }
{
    match address.to_ipv4_mapped() {
        Some(ipv4) => {
            let text = format!(in alloc; "{ipv4}")?;
            push_line(output, text.as_bytes())
        }
        None => {
            let text = format!(in alloc; "{address}")?;
            push_line(output, text.as_bytes())
        }
    }
}

// Appends the line of a row, or one with none.
fn push_end(entry: Option<(&RowKey, &Row<'_>)>, output: &mut Vec<u8>) -> Result<(), AllocError>
    ensures { OnOk result (output.new.items ≡ output.old.items
        ++ end_line (option_map (λ (key, row). row.now) entry.entry)) }
{
    match entry {
        Some((_, row)) => push_line(output, row.reading.line),
        None => push_line(output, b"none"),
    }
}
