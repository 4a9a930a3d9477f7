//! The lines of an input, answered one after another.
ghost use Rattle.std.specs.Prelude.{◌≡◌, ◌≢◌, ◌&&◌, ◌++◌, ℕ, List, [], IfOk, OnOk, OnErr, IfSome, true, false, codes};
ghost use Rattle.std.specs.Io.BufRead.{strip_last};
ghost use Rattle.std.specs.Io.Buffered.{reader_remaining};
ghost use Rattle.std.specs.Io.KnownBytes.{Appends};
ghost use Rattle.program_lines.specs.Faults.{shown_fault};
ghost use Rattle.program_lines.specs.Lines.{lines_of};
ghost use Rattle.program_lines.specs.Messages.{IsMessage, message};
ghost use Rattle.program_lines.specs.Programs.{AppendsBeginning};
ghost use Rattle.program_lines.specs.Sessions.{AnswersAll, AnswersSome, IsQuiet, IsAnswer, Moves, TakesLine};

use crate::line_fault::LineFault;
use crate::message::{Names, push_message};
use crate::program::Program;
use crate::stop::Stop;
use crate::writing::write_out;
use std::alloc::Global;
use std::fmt::Display;
use std::io::{BufRead, BufReader, Read, Write};

/// From so many bytes on, replies are written while more lines are at hand.
const MOST_WAITING: usize = 1 << 16;

/// Answers each line of the input, and returns whether each has a reply. `waiting` has the bytes that
/// are to be written first.
///
/// All replies are written before the input is waited for.
pub(crate) fn answer_lines<'a, P: Program<'a>, R: Read, W: Write, E: Write>(
    alloc: Global,
    names: Names<'_>,
    table: &P,
    waiting: &mut Vec<u8>,
    input: &mut BufReader<R>,
    output: &mut W,
    errors: &mut E,
) -> Result<bool, Stop>
    requires table { (file : List ℕ) × P.is_table file table.now }
    ensures answered { IfOk result (λ quiet. (file : List ℕ) → P.is_table file table.now →
        AnswersAll (P.is_reply file) (IsMessage P.Fault.output P.has_fault names.entry.program.now)
        (λ heading. heading ≡ waiting.old.items) quiet (reader_remaining R.remaining input.old)
        (W.contents output.old) (W.contents output.new) (E.contents errors.old) (E.contents errors.new)) }
    ensures stopped { OnErr result ((file : List ℕ) → P.is_table file table.now →
        AnswersSome (P.is_reply file) (IsMessage P.Fault.output P.has_fault names.entry.program.now)
        (λ heading. heading ≡ waiting.old.items) (reader_remaining R.remaining input.old)
        (W.contents output.old) (W.contents output.new)) }
{
    let mut line = Vec::new(alloc);
    let mut quiet = true;
    for number in 1..u64::MAX {
        make_room(input, waiting, output)?;
        if !next_line(input, &mut line)? {
            write_waiting(waiting, output)?;
            return Ok(quiet);
        }
        let replied = answer_line(alloc, names, table, number, &line, waiting, output, errors)?;
        quiet = both(quiet, replied);
    }
    Err(Stop::TooManyLines)
}

fn both(a: bool, b: bool) -> bool
    ensures { result ≡ (a && b) }
{
    a && b
}

// Writes what waits where it is much, or where the rest of a line has to be read before it can be answered.
fn make_room<R: Read, W: Write>(
    input: &BufReader<R>,
    waiting: &mut Vec<u8>,
    output: &mut W,
) -> Result<(), Stop>
    ensures moved { OnOk result (Moves (W.contents output.old) (W.contents output.new)
        waiting.old.items waiting.new.items) }
    ensures beginning { OnErr result (AppendsBeginning (W.contents output.old) (W.contents output.new)
        waiting.old.items) }
{
    if waiting.len() < MOST_WAITING && input.buffer().contains(&b'\n') {
        return Ok(());
    }
    write_waiting(waiting, output)
}

// Writes what waits.
fn write_waiting<W: Write>(waiting: &mut Vec<u8>, output: &mut W) -> Result<(), Stop>
    ensures whole { OnOk result (Appends (W.contents output.old) (W.contents output.new) waiting.old.items) }
    ensures none_left { OnOk result (waiting.new.items ≡ []) }
    ensures beginning { OnErr result (AppendsBeginning (W.contents output.old) (W.contents output.new)
        waiting.old.items) }
{
    if waiting.is_empty() {
        return Ok(());
    }
    match write_out(output, waiting) {
        Ok(()) => {
            waiting.clear();
            Ok(())
        }
        Err(error) => Err(Stop::Output(error)),
    }
}

// Reads the next line into the buffer, without the byte that ends it, and returns whether there is one.
fn next_line<B: BufRead>(input: &mut B, line: &mut Vec<u8>) -> Result<bool, Stop>
    ensures line { IfOk result (λ more. more ≡ true →
        TakesLine (B.remaining input.old) (B.remaining input.new) line.new.items) }
    ensures end { IfOk result (λ more. more ≡ false →
        IfSome (B.remaining input.old) (λ given. lines_of given ≡ [])) }
{
    line.clear();
    match input.read_until(b'\n', line) {
        Ok(0) => Ok(false),
        Ok(_) => {
            drop_end(line);
            Ok(true)
        }
        Err(error) => Err(Stop::of_input(error)),
    }
}

// Takes off the byte that ends the line, where there is one.
fn drop_end(line: &mut Vec<u8>)
    ensures { line.new.items ≡ strip_last 10 line.old.items }
{
    let length = line.len();
    if length > 0 && line[length - 1] == b'\n' {
        line.truncate(length - 1);
    }
}

// Appends the reply to a line, or tells what is wrong with it when what waits is written. Returns whether
// it has a reply.
fn answer_line<'a, P: Program<'a>, W: Write, E: Write>(
    alloc: Global,
    names: Names<'_>,
    table: &P,
    number: u64,
    line: &[u8],
    waiting: &mut Vec<u8>,
    output: &mut W,
    errors: &mut E,
) -> Result<bool, Stop>
    requires table { (file : List ℕ) × P.is_table file table.now }
    ensures answered { IfOk result (λ quiet. (file : List ℕ) → P.is_table file table.now → (reply told : List ℕ)
        × IsAnswer (P.is_reply file) (IsMessage P.Fault.output P.has_fault names.entry.program.now) number line.now reply told
        × IsQuiet quiet told × Moves (W.contents output.old) (W.contents output.new) (waiting.old.items ++ reply) waiting.new.items
        × Appends (E.contents errors.old) (E.contents errors.new) told) }
    ensures beginning { OnErr result (AppendsBeginning (W.contents output.old) (W.contents output.new)
        waiting.old.items) }
{
    match table.push_reply(alloc, line, waiting)? {
        None => Ok(true),
        Some(fault) => {
            write_waiting(waiting, output)?;
            report_line(alloc, names, number, line, fault, errors)?;
            Ok(false)
        }
    }
}

// Tells what is wrong with a line of the input.
fn report_line<F: Display + Copy, E: Write>(
    alloc: Global,
    names: Names<'_>,
    number: u64,
    line: &[u8],
    fault: LineFault<F>,
    errors: &mut E,
) -> Result<(), Stop>
    ensures { OnOk result ((told : List ℕ) × (told ≢ [])
        × IfSome (shown_fault F.output fault) (λ text.
        told ≡ message names.entry.program.now (codes "standard input") number text line.now)
        × Appends (E.contents errors.old) (E.contents errors.new) told) }
{
    let mut told = Vec::new(alloc);
    push_message(
        alloc,
        names.program,
        "standard input",
        number,
        fault,
        line,
        &mut told,
    )?;
    match write_out(errors, &told) {
        Ok(()) => Ok(()),
        Err(_) => Err(Stop::Errors),
    }
}
