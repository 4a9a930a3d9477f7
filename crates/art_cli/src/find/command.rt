//! The lines of `find` to its commands.
ghost use Rattle.std.specs.Prelude.{◌≡◌, ◌<◌, ◌∷◌, length, IfOk, IfErr};
ghost use Rattle.art_bytes.specs.SliceKey.{slice_key_text};
ghost use Rattle.program_lines.specs.Lines.{lines_of, IsFirstBad};
ghost use Rattle.art_cli.specs.Failure.{failure_at};
ghost use Rattle.art_cli.specs.Find.{SayTreeCommand, command_line, with_text};

use crate::failure::{Failure, LineFault, failure_at};
use art_tree::SliceKey;
use program_lines::first_line;

/// A command on the tree, by the key of an entry.
#[derive(Clone, Copy)]
pub(crate) enum TreeCommand<K> {
    /// `+`: inserts the entry, with a number of its own.
    Insert(K),
    /// `-`: removes the entry.
    Remove(K),
    /// `?`: searches for the entry.
    Find(K),
}

/// The command of the first line, and the bytes after that line. There must be a byte.
///
/// A line that gives no command is the failure of the line with this number.
pub(crate) fn first_command(
    number: usize,
    bytes: &[u8],
) -> Result<(TreeCommand<SliceKey<'_>>, &[u8]), Failure>
    requires { 0 < length bytes.now }
    ensures said { IfOk result (λ first. lines_of bytes.now
        ≡ command_line (with_text slice_key_text first.0) ∷ lines_of first.1.now) }
    ensures shorter { IfOk result (λ first. length first.1.now < length bytes.now) }
    ensures nothing_said { IfErr result (λ failure.
        (failure ≡ failure_at number LineFault.UnknownCommand)
        × IsFirstBad SayTreeCommand (lines_of bytes.now) 1) }
{
    let (line, after) = first_line(bytes);
    match TreeCommand::of_line(line) {
        Some(command) => Ok((command, after)),
        None => Err(failure_at(number, LineFault::UnknownCommand)),
    }
}

impl<'a> TreeCommand<SliceKey<'a>> {
    ghost use Rattle.std.specs.Prelude.{ℕ, List, MatchOption};
    ghost use Rattle.art_bytes.specs.SliceKey.{slice_key_text};
    ghost use Rattle.art_cli.specs.Find.{SayTreeCommand, with_text};
    ghost use Rattle.art_cli.specs.declared.find.command.TreeCommand.{TreeCommand};

    /// The command of a line, without the byte that ends it, or None where it gives none. Its first
    /// byte decides.
    fn of_line(line: &'a [u8]) -> Option<TreeCommand<SliceKey<'a>>>
        ensures { MatchOption result
            ((command : TreeCommand (List ℕ)) → ¬ SayTreeCommand line.now command)
            (λ command. SayTreeCommand line.now (with_text slice_key_text command)) }
    {
        match line {
            [b'+', key @ ..] => Some(TreeCommand::Insert(SliceKey::new(key))),
            [b'-', key @ ..] => Some(TreeCommand::Remove(SliceKey::new(key))),
            [b'?', key @ ..] => Some(TreeCommand::Find(SliceKey::new(key))),
            _ => None,
        }
    }
}
