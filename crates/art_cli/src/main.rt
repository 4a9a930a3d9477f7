//! The program `artnodes`: reads lines from standard input, writes results to standard output.
//!
//! `artnodes replay` carries out child commands on one node of an adaptive radix tree and prints,
//! after the replies, the kind of the node that is left. `artnodes find P` carries out inserts,
//! removals and queries on one tree. [`run`] is the whole program over any reader and writers;
//! `main` passes it the words and the standard streams.
#![tactic(auto)]

mod failure;
mod find;
mod program;
mod replay;
mod request;

pub use failure::{Failure, LineFault};
pub use program::run;
use program_lines::words_after_name;
use std::process::ExitCode;

fn main(rt: HostRuntime) -> ExitCode {
    let mut errors = rt.stderr();
    let status = match words_after_name(&rt) {
        Ok(words) => run(
            rt.alloc(),
            &words,
            &mut rt.stdin(),
            &mut rt.stdout(),
            &mut errors,
        ),
        Err(error) => Failure::from(error).report(&mut errors),
    };
    ExitCode::from(status)
}
