//! Lines of the output, and writes with contracts that name what a failed one has written.
ghost use Rattle.std.specs.Prelude.{◌≡◌, ◌++◌, OnOk, OnErr, IfSome};
ghost use Rattle.std.specs.Fmt.{decimal};
ghost use Rattle.std.specs.Io.KnownBytes.{Appends};
ghost use Rattle.program_lines.specs.Lines.{line};
ghost use Rattle.program_lines.specs.Programs.{AppendsBeginning};

use arrayvec::ArrayString;
use std::alloc::{AllocError, Global};
use std::fmt::Display;
use std::io::Write;
use std::{fmt, io};

/// Appends a line of the output.
pub fn push_line(output: &mut Vec<u8>, text: &[u8]) -> Result<(), AllocError>
    ensures { OnOk result (output.new.items ≡ output.old.items ++ line text.now) }
{
    output.extend_from_slice(text)?;
    output.push(b'\n')?;
    Ok(())
}

/// Appends a line with a number.
pub fn push_number(alloc: Global, number: usize, output: &mut Vec<u8>) -> Result<(), AllocError>
    ensures { OnOk result (output.new.items ≡ output.old.items ++ line (decimal number)) }
{
    let text = format!(in alloc; "{number}")?;
    push_line(output, text.as_bytes())
}

/// Writes the text, and flushes the writer. Unlike that of `write_all` its contract names what a
/// failed write has written.
#[tactic(auto, using(crate::proofs::Writes::appends_more, crate::proofs::Writes::appends_whole))]
pub fn write_out<W: Write>(output: &mut W, text: &[u8]) -> io::Result<()>
    ensures whole { OnOk result
        (Appends (W.contents output.old) (W.contents output.new) text.now) }
    ensures beginning { OnErr result
        (AppendsBeginning (W.contents output.old) (W.contents output.new) text.now) }
{
    let mut written = 0;
    for _ in 0..u64::MAX {
        if written >= text.len() {
            return output.flush();
        }
        match output.write(&text[written..]) {
            Ok(0) => return Err(io::Error::from(io::ErrorKind::WriteZero)),
            Ok(count) => written += count,
            Err(error) if error.kind() == io::ErrorKind::Interrupted => {}
            Err(error) => return Err(error),
        }
    }
    Err(io::Error::from(io::ErrorKind::Interrupted))
}

/// Writes the line of a text, as far as the writer takes it, without an allocation. A text has up
/// to 127 bytes: nothing is written of a longer one.
pub fn write_line<W: Write, D: Display + Drop>(output: &mut W, text: D)
    ensures { IfSome (D.output text) (λ shown.
        AppendsBeginning (W.contents output.old) (W.contents output.new) (line shown)) }
{
    let mut buffer = ArrayString::<128>::new();
    if let Ok(()) = fmt::Write::writeln(&mut buffer, text) {
        let _ = write_out(output, buffer.as_str().as_bytes());
    }
}
