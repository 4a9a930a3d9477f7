//! The program `routes`: reads a table of routes from a file, and prints for each address on standard
//! input the longest route of the table that matches it.
//!
//! `Table` answers the lines of the input, as a [`Program`](program_lines::Program).
#![tactic(auto)]

mod fault;
mod replies;
mod route;
mod table;

pub use fault::Fault;
use program_lines::Description;
use std::process::ExitCode;
use table::Table;

const DESCRIPTION: Description = Description {
    program: "routes",
    flag: "",
    usage: "usage: routes TABLE\n\
        TABLE is a file of routes, one a line: PREFIX/LEN NEXTHOP, as 10.0.0.0/8 core1 or\n\
        2001:db8::/32 core2. Empty lines and lines that begin with # are skipped. Each line of standard\n\
        input is an IPv4 or IPv6 address, and is printed with the longest route that matches it, or\n\
        with none.\n",
};

fn main(rt: HostRuntime) -> ExitCode {
    match program_lines::requested(&rt, DESCRIPTION) {
        Ok(request) => program_lines::answer::<Table<'_>>(&rt, DESCRIPTION.program, &request),
        Err(status) => ExitCode::from(status),
    }
}
