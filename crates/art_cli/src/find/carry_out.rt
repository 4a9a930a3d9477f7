//! The effect of one command of `find`.
ghost use Rattle.std.specs.Prelude.{◌≡◌, ◌+◌, ◌<◌, ◌^◌, IfOk, IfErr, string_bytes};
ghost use Rattle.art_cli.specs.Find.{Entries, with_text};
ghost use Rattle.art_cli.specs.Answer.{HoldsEntries, IsCarriedOut};
ghost use Rattle.art_cli.specs.Program.{IsCommandFailure, failure_for};

use crate::failure::{Failure, LineFault, failure_at};
use crate::find::answer::answer;
use crate::find::command::TreeCommand;
use crate::find::print_found::{print_answer, print_removal};
use art_tree::{ArtTree, AsBytes, InsertRefusal};

/// Carries out the command of this line, and appends what it prints. An inserted entry gets the
/// number `next`. Returns the number for the next entry.
pub(crate) fn carry_out<K: AsBytes + Copy, const PREFIX_LEN: usize>(
    line: usize,
    command: TreeCommand<K>,
    tree: &mut ArtTree<K, usize, PREFIX_LEN>,
    next: usize,
    text: &mut String,
) -> Result<usize, Failure>
    requires { next + 1 < 2 ^ 64 }
    ensures carried_out { (entries : Entries) → HoldsEntries K.text tree.old.arena entries →
        next ≡ entries.next → IfOk result (IsCarriedOut K.text entries (with_text K.text command)
        tree.new.arena (string_bytes text.old) (string_bytes text.new)) }
    ensures refused { (entries : Entries) → HoldsEntries K.text tree.old.arena entries →
        IfErr result (IsCommandFailure entries line (with_text K.text command)) }
{
    match command {
        TreeCommand::Insert(key) => match tree.insert(key, next) {
            Ok(_) => Ok(next + 1),
            Err(fault) => Err(failure_of(line, fault.refusal)),
        },
        TreeCommand::Remove(key) => {
            let removed = tree.remove(key.as_bytes())?;
            print_removal(text, removed.map(|(_, number)| number))?;
            Ok(next)
        }
        TreeCommand::Find(key) => {
            let (answer, reads) = answer(tree, key.as_bytes());
            print_answer(text, answer, reads)?;
            Ok(next)
        }
    }
}

// The failure for a refusal of the entry in this line.
fn failure_of(line: usize, refusal: InsertRefusal) -> Failure
    ensures { result ≡ failure_for line refusal }
{
    match refusal {
        InsertRefusal::KeyTooLong => failure_at(line, LineFault::KeyTooLong),
        InsertRefusal::Prefix => failure_at(line, LineFault::PrefixOfOther),
        InsertRefusal::OutOfMemory => Failure::OutOfMemory,
    }
}
