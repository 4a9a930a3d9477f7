//! The program over any reader and writers.
ghost use Rattle.std.specs.Prelude.{◌≡◌, ◌≢◌, ◌≤◌, ◌⊎◌, IfOk, IfErr, OnOk, IfSome, string_bytes};
ghost use Rattle.std.specs.Io.KnownBytes.{Keeps, IsAtEnd};
ghost use Rattle.program_lines.specs.declared.failure.Failure.TheVariants.{Device};
ghost use Rattle.program_lines.specs.Failures.{status_of, failure_text};
ghost use Rattle.program_lines.specs.Lines.{line};
ghost use Rattle.program_lines.specs.Programs.{Prints, PrintsBeginning, AppendsBeginning};
ghost use Rattle.art_cli.specs.Failure.{line_fault_text};
ghost use Rattle.art_cli.specs.Request.{AreTaken};
ghost use Rattle.art_cli.specs.Program.{IsOutput, IsFailure, IsAsked, IsBad, Tells};

use crate::failure::Failure;
use crate::find::find_text;
use crate::replay::replay_text;
use crate::request::{Request, request_of};
use art_tree::ArtTree;
use program_lines::{write_line, write_out};
use std::alloc::Global;
use std::io::{Read, Write};

// The line for words that the program does not take.
const USAGE: &str = "usage: artnodes replay | artnodes find 0|2|16";

/// Runs the program on the words that follow its name, and returns its exit status.
///
/// The words are checked first: for bad ones nothing is read. Then `input` is read to its end.
/// `replay` reads child commands, one a line, and writes a line for each reply and one for the node
/// that is left; `find` reads inserts, removals and queries, one a line, and writes a line for each
/// removal and query. They write to `output`, with status 0.
///
/// A failure writes its line to `errors`. For bad words or bad input the status is 2, and nothing
/// is written to `output`. For an allocation failure the status is 1, and nothing is written to
/// `output` either. For a failed device the status is 1; the first part of the output may have been
/// written, and nothing else. The status does not depend on whether the line could be written to
/// `errors`.
pub fn run<R: Read, W: Write, E: Write>(
    alloc: Global,
    words: &[String],
    input: &mut R,
    output: &mut W,
    errors: &mut E,
) -> u8
    ensures status { result ≤ 2 }

    // The words come before the input.
    ensures usage { result ≢ 2 → AreTaken words.now }
    ensures bad_words_read_nothing { ¬ (AreTaken words.now) → input.new ≡ input.old }
    ensures reads_to_the_end { AreTaken words.now → result ≢ 1 → IsAtEnd (R.remaining input.new) }

    // What each status means.
    ensures answers { result ≡ 0 → IfSome (R.remaining input.old)
        (λ given. Prints (IsAsked words.now given) (W.contents output.old) (W.contents output.new)) }
    ensures failed_run_prints_a_beginning { result ≡ 1 → IfSome (R.remaining input.old)
        (λ given. PrintsBeginning (IsAsked words.now given) (W.contents output.old) (W.contents output.new)) }
    ensures refused { result ≡ 2 → AreTaken words.now →
        IfSome (R.remaining input.old) (IsBad words.now) }

    // What is written to the output, after a failure and after a success.
    ensures bad_input_prints_nothing { result ≡ 2 →
        Keeps (W.contents output.old) (W.contents output.new) }
    ensures refused_memory_prints_nothing { result ≡ 1 →
        Keeps (W.contents output.old) (W.contents output.new)
        ⊎ AppendsBeginning (E.contents errors.old) (E.contents errors.new)
        (line (failure_text line_fault_text Device)) }
    ensures success_is_quiet { result ≡ 0 →
        Keeps (E.contents errors.old) (E.contents errors.new) }

    // What is written of a failure.
    ensures told { result ≢ 0 → Tells words.now (R.remaining input.old) result
        (E.contents errors.old) (E.contents errors.new) }
{
    let Some(request) = request_of(words) else {
        write_line(errors, USAGE);
        return 2;
    };
    let text = match answer(alloc, request, input) {
        Ok(text) => text,
        Err(failure) => return failure.report(errors),
    };
    match write_out(output, text.as_bytes()) {
        Ok(()) => 0,
        Err(_) => Failure::Device.report(errors),
    }
}

// The output of a request for what a reader has.
fn answer<R: Read>(alloc: Global, request: Request, input: &mut R) -> Result<String, Failure>
    ensures read_where_good { OnOk result (IsAtEnd (R.remaining input.new)) }
    ensures read_where_bad { IfErr result (λ failure. status_of failure ≡ 2 →
        IsAtEnd (R.remaining input.new)) }
    ensures text { IfOk result (λ text. IfSome (R.remaining input.old)
        (λ given. IsOutput request given (string_bytes text))) }
    ensures refused { IfErr result (λ failure. IfSome (R.remaining input.old)
        (λ given. IsFailure request given failure)) }
{
    let mut bytes = Vec::new(alloc);
    input.read_to_end(&mut bytes)?;
    requested_text(alloc, request, bytes)
}

// The output of a request for this input.
fn requested_text(alloc: Global, request: Request, input: Vec<u8>) -> Result<String, Failure>
    ensures text { IfOk result (λ text. IsOutput request input.items (string_bytes text)) }
    ensures refused { IfErr result (IsFailure request input.items) }
{
    match request {
        Request::Replay => replay_text(alloc, input),
        Request::Find0 => find_text(alloc, &mut ArtTree::<_, _, 0>::new(alloc), &input),
        Request::Find2 => find_text(alloc, &mut ArtTree::<_, _, 2>::new(alloc), &input),
        Request::Find16 => find_text(alloc, &mut ArtTree::<_, _, 16>::new(alloc), &input),
    }
}
