//! `artnodes replay`: reads child commands, and prints the replies.
ghost use Rattle.std.specs.Prelude.{◌≡◌, [], length, IfOk, IfErr, string_bytes};
ghost use Rattle.art_nodes.specs.Commands.{run_of};
ghost use Rattle.art_cli.specs.Reply.{output_of};
ghost use Rattle.art_cli.specs.Program.{IsReplayOutput, IsReplayFailure};

mod nodes;
mod parse;
mod print_reply_lines;

use crate::failure::Failure;
use crate::replay::nodes::Command;
use crate::replay::print_reply_lines::text_of;
use art_tree::{Header, replay};
use program_lines::{Source, said};
use std::alloc::{AllocError, Global};

/// The output for the commands of this input. The input is freed before the replies are made.
pub(crate) fn replay_text(alloc: Global, input: Vec<u8>) -> Result<String, Failure>
    ensures text { IfOk result (λ text. IsReplayOutput input.items (string_bytes text)) }
    ensures refused { IfErr result (IsReplayFailure input.items) }
{
    let commands: Vec<Command> = said(alloc, Source::OnlyInput, &input)?;
    drop(input);
    Ok(replies_text(alloc, commands)?)
}

// A line for each reply to the commands, and one for the node that they leave.
fn replies_text(alloc: Global, commands: Vec<Command>) -> Result<String, AllocError>
    ensures { IfOk result (λ text. string_bytes text
        ≡ output_of (run_of [] commands.items).0 (length (run_of [] commands.items).1)) }
{
    let (replies, node) = replay(alloc, Header::new(b"", 0), &commands)?;
    drop(commands);
    text_of(alloc, &replies, &node)
}
