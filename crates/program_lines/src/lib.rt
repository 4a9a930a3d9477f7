//! What the programs on an ordered map share: lines of bytes to what they say, failures and their exit
//! statuses, and the run over a file, a reader and two writers. [`run`] is proved once, for every
//! [`Program`].
#![tactic(auto)]

mod failure;
mod line_fault;
mod lines;
mod message;
mod numbers;
mod process;
mod program;
mod session;
mod stop;
mod writing;

pub use failure::{BadLine, Failure, Source};
pub use line_fault::LineFault;
pub use lines::{FromLine, ends_in_return, first_line, item_of, said, said_whole, split_once};
pub use message::Names;
pub use numbers::number_of;
pub use process::{Description, Request, answer, requested, words_after_name};
pub use program::{Outcome, Program, run, run_in_memory};
pub use writing::{push_line, push_number, write_line, write_out};
