//! The program `index`: reads a table of readings from a file, and answers queries on standard input by
//! host and time.
//!
//! `ReadingIndex` answers the lines of the input, as a [`Program`](program_lines::Program).
#![tactic(auto)]

mod fault;
mod fields;
mod query;
mod reading;
mod replies;
mod rows;
mod searches;

pub use fault::Fault;
use program_lines::Description;
use replies::ReadingIndex;
use std::process::ExitCode;

const DESCRIPTION: Description = Description {
    program: "index",
    flag: "--no-header",
    usage: "usage: index [--no-header] FILE\n\
        FILE is a table of readings: the header address,time,value, then a line ADDRESS,TIME,VALUE for\n\
        each; with --no-header the first line is a reading too. Queries are lines of standard input:\n\
        host ADDRESS                     the rows of this host, by time\n\
        host ADDRESS from TIME to TIME   those from the one time to the other\n\
        time from TIME to TIME           the rows of all hosts from the one time to the other\n\
        hosts                            each host that has a row\n\
        first                            the first row by address and time, or none\n\
        last                             the last one, or none\n\
        count                            how many rows there are\n\
        count ADDRESS                    how many rows this host has\n\
        count ADDRESS from TIME to TIME  how many from the one time to the other\n",
};

fn main(rt: HostRuntime) -> ExitCode {
    match program_lines::requested(&rt, DESCRIPTION) {
        Ok(request) if request.is_flagged => program_lines::answer::<ReadingIndex<'_, false>>(
            &rt,
            DESCRIPTION.program,
            &request,
        ),
        Ok(request) => program_lines::answer::<ReadingIndex<'_, true>>(
            &rt,
            DESCRIPTION.program,
            &request,
        ),
        Err(status) => ExitCode::from(status),
    }
}
