//! The replies to addresses.
ghost use Rattle.std.specs.Prelude.{OnOk};
ghost use Rattle.routes.specs.Reading.{AppendsRouteReply};

use crate::fault::Fault;
use crate::route::Query;
use crate::table::{Table, table_of};
use program_lines::{Failure, LineFault, Program, item_of, push_line};
use std::alloc::{AllocError, Global};

impl<'a> Program<'a> for Table<'a> {
    ghost use Rattle.std.specs.Prelude.{◌≡◌, []};
    ghost use Rattle.routes.specs.Reading.{IsRouteTable};
    ghost use Rattle.routes.specs.Replies.{HasRouteReply, IsFirstBadRoute, HasRouteFault};

    type Fault = Fault;

    ghost is_table = { λ file table. IsRouteTable file table.routes };

    ghost is_heading = { λ file heading. heading ≡ [] };

    ghost is_reply = { HasRouteReply };

    ghost is_bad = { IsFirstBadRoute };

    ghost has_fault = { HasRouteFault };

    fn load(
        alloc: Global,
        file: &'a [u8],
        _output: &mut Vec<u8>,
    ) -> Result<Table<'a>, Failure<LineFault<Fault>>> {
        table_of(alloc, file)
    }

    fn push_reply(
        &self,
        alloc: Global,
        line: &[u8],
        output: &mut Vec<u8>,
    ) -> Result<Option<LineFault<Fault>>, AllocError> {
        let query: Query<'_> = match item_of(line) {
            Ok(query) => query,
            Err(fault) => return Ok(Some(fault)),
        };
        push_reply(self, &query, output)?;
        Ok(None)
    }
}

// Appends the line for an address.
fn push_reply(table: &Table<'_>, query: &Query<'_>, output: &mut Vec<u8>) -> Result<(), AllocError>
    ensures { OnOk result (AppendsRouteReply table.now.routes query.now output.old.items output.new.items) }
{
    output.extend_from_slice(query.line)?;
    match table.routes.longest_match(query.address) {
        Some((_, route)) => {
            output.push(b' ')?;
            push_line(output, route.line)
        }
        None => push_line(output, b" none"),
    }
}
