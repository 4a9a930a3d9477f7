//! Tables of routes, read from the lines of a file.
ghost use Rattle.std.specs.Prelude.{IfOk, IfErr, IfNone, IfSome};
ghost use Rattle.program_lines.specs.Failures.{IfBadLine};
ghost use Rattle.routes.specs.Replies.{IsFirstBadRoute};
ghost use Rattle.routes.specs.Reading.{IsRouteTable, AddsRoute, IsNextFault};

use crate::fault::Fault;
use crate::route::{Route, is_comment};
use art_routes::{Network, RouteTable};
use program_lines::{BadLine, Failure, LineFault, Source, first_line, item_of};
use std::alloc::{AllocError, Global};

/// The routes of a table.
#[derive(Drop)]
pub(crate) struct Table<'a> {
    /// The lines by their networks.
    pub(crate) routes: RouteTable<Route<'a>>,
}

/// The table of the routes that the lines of a file are, but for its comments.
///
/// Refuses the first line that is no route, or that has the network of an earlier one. An allocation may
/// fail.
pub(crate) fn table_of<'a>(
    alloc: Global,
    file: &'a [u8],
) -> Result<Table<'a>, Failure<LineFault<Fault>>>
    ensures routes { IfOk result (λ table. IsRouteTable file.now table.routes) }
    ensures refused { IfErr result (IfBadLine (IsFirstBadRoute file.now)) }
{
    let mut table = Table {
        routes: RouteTable::new(alloc),
    };
    let mut rest = file;
    let mut number: usize = 0;
    while !rest.is_empty() {
        let (line, after) = first_line(rest);
        number += 1;
        if !is_comment(line) {
            match add_line(&mut table, line, number)? {
                None => {}
                Some(fault) => {
                    return Err(Failure::BadLine(BadLine {
                        source: Source::File,
                        number,
                        fault,
                    }));
                }
            }
        }
        rest = after;
    }
    Ok(table)
}

// Adds the route that the line of this number is, or returns what is wrong with it.
fn add_line<'a>(
    table: &mut Table<'a>,
    line: &'a [u8],
    number: usize,
) -> Result<Option<LineFault<Fault>>, AllocError>
    ensures added { IfOk result (λ fault. IfNone fault
        (AddsRoute number line.now table.old.routes table.new.routes)) }
    ensures fault { IfOk result (λ fault. IfSome fault (IsNextFault line.now table.old.routes)) }
{
    let network: Network = match item_of(line) {
        Ok(network) => network,
        Err(fault) => return Ok(Some(fault)),
    };
    if let Some(earlier) = table.routes.get(&network) {
        return Ok(Some(LineFault::Other(Fault::SameNetwork(earlier.number))));
    }
    match table.routes.insert(network, Route { line, number }) {
        Ok(_) => Ok(None),
        Err(_) => Err(AllocError),
    }
}
