//! A program over a file, a reader and two writers.
ghost use Rattle.std.specs.Prelude.{◌≡◌, ◌≤◌, ◌↔◌, ◌⊎◌, IsTrue, true, false};
ghost use Rattle.std.specs.Io.KnownBytes.{Keeps};
ghost use Rattle.program_lines.specs.Messages.{IsMessage};
ghost use Rattle.program_lines.specs.Sessions.{TellsBadLine, AnswersAll, AnswersSome};

use crate::failure::Failure;
use crate::line_fault::LineFault;
use crate::message::{Names, report_bad_line, report_stop};
use crate::session::answer_lines;
use crate::stop::Stop;
use std::alloc::{AllocError, Global};
use std::fmt::Display;
use std::io::{BufReader, Read, Write};

/// A program that answers the lines of its input from the lines of a file: the table of that file.
pub trait Program<'a>: Sized {
    ghost use Rattle.std.specs.Prelude.{◌≡◌, ◌++◌, ℕ, List, IfNone, IfSome, IfOk, IfErr};
    ghost use Rattle.program_lines.specs.Failures.{IfBadLine};
    ghost use Rattle.program_lines.specs.declared.failure.BadLine.{BadLine};
    ghost use Rattle.program_lines.specs.declared.line_fault.LineFault.{LineFault};

    /// What may be wrong with a line, beside a carriage return at its end.
    type Fault: Display + Copy;

    /// This is the table of a file with these bytes.
    ghost is_table: { List ℕ → Self → Type 0 };

    /// The output for a file with these bytes begins with this.
    ghost is_heading: { List ℕ → List ℕ → Type 0 };

    /// For a file with these bytes, a line of the input has this reply.
    ghost is_reply: { List ℕ → List ℕ → List ℕ → Type 0 };

    /// In a file with these bytes this line is at fault.
    ghost is_bad: { List ℕ → BadLine (LineFault Self.Fault) → Type 0 };

    /// This is what is wrong with a line of the input.
    ghost has_fault: { List ℕ → LineFault Self.Fault → Type 0 };

    /// The table of a file. Appends what the output begins with.
    fn load(
        alloc: Global,
        file: &'a [u8],
        output: &mut Vec<u8>,
    ) -> Result<Self, Failure<LineFault<Self::Fault>>>
        ensures table { IfOk result (is_table file.now) }
        ensures heading { IfOk result (λ table. (heading : List ℕ)
            × is_heading file.now heading × (output.new.items ≡ output.old.items ++ heading)) }
        ensures refused { IfErr result (IfBadLine (is_bad file.now)) };

    /// Appends the reply to a line, or returns what is wrong with it. An allocation may fail.
    fn push_reply(
        &self,
        alloc: Global,
        line: &[u8],
        output: &mut Vec<u8>,
    ) -> Result<Option<LineFault<Self::Fault>>, AllocError>
        requires table { (file : List ℕ) × is_table file self.now }
        ensures reply { IfOk result (λ fault. IfNone fault ((file : List ℕ) → is_table file self.now →
            (reply : List ℕ) × is_reply file line.now reply × (output.new.items ≡ output.old.items ++ reply))) }
        ensures fault { IfOk result (λ fault. IfSome fault (λ this.
            has_fault line.now this × (output.new.items ≡ output.old.items))) };
}

/// Answers each line that the input gives, from the table of a file, and returns the exit status.
///
/// The reply to a line is written before the next one is waited for. A line at fault is reported on
/// `errors`, with its number, and the others are answered. The status is 0 where each line has a
/// reply, 2 where one is at fault. Where a line of the file is at fault, that alone is reported, with
/// status 2. With status 1 an allocation, a read or a write failed, or the input has 2^64 lines.
///
/// A failure writes its line to `errors`, except where the reader of `output` has closed it: that
/// ends the run quietly, with status 1.
pub fn run<'a, P: Program<'a> + Drop, R: Read + Drop, W: Write, E: Write>(
    alloc: Global,
    names: Names<'_>,
    file: &'a [u8],
    input: R,
    output: &mut W,
    errors: &mut E,
) -> u8
    ensures status { result ≤ 2 }
    ensures answers { result ≡ 0 → AnswersAll (P.is_reply file.now)
        (IsMessage P.Fault.output P.has_fault names.entry.program.now) (P.is_heading file.now) true
        (R.remaining input) (W.contents output.old) (W.contents output.new)
        (E.contents errors.old) (E.contents errors.new) }
    ensures refused { result ≡ 2 → TellsBadLine P.Fault.output (P.is_bad file.now)
        names.entry.program.now names.entry.file.now file.now (W.contents output.old) (W.contents output.new)
        (E.contents errors.old) (E.contents errors.new)
        ⊎ AnswersAll (P.is_reply file.now)
        (IsMessage P.Fault.output P.has_fault names.entry.program.now) (P.is_heading file.now) false
        (R.remaining input) (W.contents output.old) (W.contents output.new)
        (E.contents errors.old) (E.contents errors.new) }
    ensures failed_run_prints_a_beginning { result ≡ 1 → Keeps (W.contents output.old) (W.contents output.new)
        ⊎ AnswersSome (P.is_reply file.now)
        (IsMessage P.Fault.output P.has_fault names.entry.program.now) (P.is_heading file.now)
        (R.remaining input) (W.contents output.old) (W.contents output.new) }
{
    let mut waiting = Vec::new(alloc);
    let table = match P::load(alloc, file, &mut waiting) {
        Ok(table) => table,
        Err(Failure::BadLine(bad)) => {
            return report_bad_line(alloc, names, file, bad, errors);
        }
        Err(_) => return report_stop(names, Stop::OutOfMemory, errors),
    };
    let mut lines = match BufReader::new(alloc, input) {
        Ok(lines) => lines,
        Err(_) => return report_stop(names, Stop::OutOfMemory, errors),
    };
    match answer_lines(
        alloc,
        names,
        &table,
        &mut waiting,
        &mut lines,
        output,
        errors,
    ) {
        Ok(true) => 0,
        Ok(false) => 2,
        Err(stop) => report_stop(names, stop, errors),
    }
}

/// What a run over bytes in memory wrote, and its status.
#[derive(Drop)]
pub struct Outcome {
    /// The exit status.
    pub status: u8,
    /// What it wrote to its output.
    pub output: Vec<u8>,
    /// What it wrote to its errors.
    pub errors: Vec<u8>,
}

impl Outcome {
    /// Whether these are the status, the output and the errors.
    pub fn is(&self, status: u8, output: &[u8], errors: &[u8]) -> bool
        ensures { IsTrue result ↔ (self.now.status ≡ status)
            × (self.now.output.items ≡ output.now) × (self.now.errors.items ≡ errors.now) }
    {
        self.status == status
            && self.output.as_slice() == output
            && self.errors.as_slice() == errors
    }
}

/// Runs a program on the bytes of its file and of its input, as [`run`] does, and returns what it wrote.
///
/// A list with `tin`, `titanium`, `iron`, `ti`, `zinc`, and an empty word:
///
/// (from tests/words/tests.rt.txt)
/// ```rust
/// let outcome = run_in_memory::<Words>(rt.alloc(), NAMES, LIST, b"#ti\n#tin\n#zinc\n#x\n#");
/// assert!(rt; outcome.is(0, b"6 words in 7 lines\n3\n1\n1\n0\n6\n", b""));
/// ```
pub fn run_in_memory<'a, P: Program<'a> + Drop>(
    alloc: Global,
    names: Names<'_>,
    file: &'a [u8],
    input: &[u8],
) -> Outcome
    ensures { result.status ≤ 2 }
{
    let mut output = Vec::new(alloc);
    let mut errors = Vec::new(alloc);
    let status = run::<P, _, _, _>(alloc, names, file, input, &mut output, &mut errors);
    Outcome {
        status,
        output,
        errors,
    }
}
