//! The program `words`: reads a list of words from a file, and answers queries on standard input by
//! their prefixes and neighbours.
//!
//! `Words` answers the lines of the input, as a [`Program`](program_lines::Program).
#![tactic(auto)]

mod dictionary;
mod fault;
mod query;
mod replies;

pub use fault::Fault;
use program_lines::Description;
use replies::Words;
use std::process::ExitCode;

const DESCRIPTION: Description = Description {
    program: "words",
    flag: "",
    usage: "usage: words FILE\n\
        FILE is a list of words, one a line. Queries are lines of standard input:\n\
        ?PREFIX    the words that begin with the prefix, in order\n\
        ?PREFIX N  the first N of them\n\
        #PREFIX    how many they are\n\
        <WORD      the last word below this one, or none\n\
        >WORD      the first word above this one, or none\n",
};

fn main(rt: HostRuntime) -> ExitCode {
    match program_lines::requested(&rt, DESCRIPTION) {
        Ok(request) => program_lines::answer::<Words>(&rt, DESCRIPTION.program, &request),
        Err(status) => ExitCode::from(status),
    }
}
