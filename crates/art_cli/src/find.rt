//! `artnodes find P`: reads entries, removals and queries, and prints the results.
ghost use Rattle.std.specs.Prelude.{IfOk, IfErr, OnOk, string_bytes};
ghost use Rattle.art_bytes.specs.SliceKey.{slice_key_text};
ghost use Rattle.art_steps.specs.Dictionary.{IsEmpty};
ghost use Rattle.art_cli.specs.Find.{GiveCommands};
ghost use Rattle.art_cli.specs.Program.{IsFindOutput, IsFindFailure};

mod answer;
mod carry_out;
mod command;
mod print_found;

use crate::failure::Failure;
use crate::find::carry_out::carry_out;
use crate::find::command::first_command;
use art_tree::{ArtTree, SliceKey};
use std::alloc::Global;

/// What the commands of this input print, from no entries on. They are carried out in the tree.
///
/// All lines are checked before the first command, so that a line that gives none is reported also
/// where an entry before it is refused.
pub(crate) fn find_text<'a, const PREFIX_LEN: usize>(
    alloc: Global,
    tree: &mut ArtTree<SliceKey<'a>, usize, PREFIX_LEN>,
    input: &'a [u8],
) -> Result<String, Failure>
    requires { IsEmpty slice_key_text tree.old.arena }
    ensures text { IfOk result (λ text. IsFindOutput PREFIX_LEN input.now (string_bytes text)) }
    ensures refused { IfErr result (IsFindFailure input.now) }
{
    check_lines(input)?;
    replies_text(alloc, tree, input)
}

// Checks that each line gives a command. The failure is that of the first one that gives none.
fn check_lines(input: &[u8]) -> Result<(), Failure>
    ensures commands { OnOk result (GiveCommands input.now) }
    ensures refused { IfErr result (IsFindFailure input.now) }
{
    let mut number = 0;
    let mut rest = input;
    while !rest.is_empty() {
        number += 1;
        let (_, after) = first_command(number, rest)?;
        rest = after;
    }
    Ok(())
}

// What the commands of this input print, from no entries on. Each line must give one.
fn replies_text<'a, const PREFIX_LEN: usize>(
    alloc: Global,
    tree: &mut ArtTree<SliceKey<'a>, usize, PREFIX_LEN>,
    input: &'a [u8],
) -> Result<String, Failure>
    requires no_entries { IsEmpty slice_key_text tree.old.arena }
    requires commands { GiveCommands input.now }
    ensures text { IfOk result (λ text. IsFindOutput PREFIX_LEN input.now (string_bytes text)) }
    ensures refused { IfErr result (IsFindFailure input.now) }
{
    let mut text = String::new(alloc);
    let mut next = 0;
    let mut number = 0;
    let mut rest = input;
    while !rest.is_empty() {
        number += 1;
        let (command, after) = first_command(number, rest)?;
        next = carry_out(number, command, tree, next, &mut text)?;
        rest = after;
    }
    Ok(text)
}
