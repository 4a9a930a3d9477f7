//! Messages on standard error.
ghost use Rattle.std.specs.Prelude.{◌≡◌, ◌≢◌, ◌<◌, [], ◌++◌, ◌⊎◌, OnOk, IfSome, take};
ghost use Rattle.std.specs.Char.{digit_char};
ghost use Rattle.std.specs.Fmt.{decimal};
ghost use Rattle.std.specs.List.{flat_map};
ghost use Rattle.program_lines.specs.Faults.{shown_fault};
ghost use Rattle.program_lines.specs.Lines.{lines_of, line_at};
ghost use Rattle.program_lines.specs.Messages.{message, shown_byte};
ghost use Rattle.program_lines.specs.Programs.{AppendsBeginning};

use crate::failure::BadLine;
use crate::line_fault::LineFault;
use crate::lines::line_numbered;
use crate::stop::{Reason, Stop};
use crate::writing::{write_line, write_out};
use std::alloc::{AllocError, Global};
use std::fmt::Display;
use std::io::Write;
use std::{fmt, io};

/// How a program's messages name it and its file.
#[derive(Clone, Copy)]
pub struct Names<'a> {
    /// The program.
    pub program: &'a str,
    /// The file.
    pub file: &'a str,
}

/// How many bytes of a line at fault a message shows.
const SHOWN: usize = 80;

/// Appends the message on a line at fault: the program, where the line is read, its number, its fault,
/// and its first 80 bytes, of which control bytes are escaped.
pub(crate) fn push_message<F: Display + Copy>(
    alloc: Global,
    program: &str,
    source: &str,
    number: u64,
    fault: F,
    line: &[u8],
    output: &mut Vec<u8>,
) -> Result<(), AllocError>
    ensures text { OnOk result (IfSome (F.output fault) (λ text. output.new.items
        ≡ output.old.items ++ message program.now source.now number text line.now)) }
    ensures some { OnOk result (output.new.items ≢ []) }
{
    output.extend_from_slice(program.as_bytes())?;
    output.extend_from_slice(b": ")?;
    output.extend_from_slice(source.as_bytes())?;
    output.extend_from_slice(b": line ")?;
    push_decimal(alloc, number, output)?;
    output.extend_from_slice(b": ")?;
    push_shown(alloc, fault, output)?;
    output.extend_from_slice(b": ")?;
    push_escaped(first_bytes(line), output)?;
    output.push(b'\n')?;
    Ok(())
}

// Appends the digits of a number.
fn push_decimal(alloc: Global, number: u64, output: &mut Vec<u8>) -> Result<(), AllocError>
    ensures { OnOk result (output.new.items ≡ output.old.items ++ decimal number) }
{
    let text = format!(in alloc; "{number}")?;
    output.extend_from_slice(text.as_bytes())?;
    Ok(())
}

// Appends what a fault prints.
fn push_shown<F: Display + Copy>(
    alloc: Global,
    fault: F,
    output: &mut Vec<u8>,
) -> Result<(), AllocError>
    ensures { OnOk result (IfSome (F.output fault) (λ text.
        output.new.items ≡ output.old.items ++ text)) }
{
    let text = format!(in alloc; "{fault}")?;
    output.extend_from_slice(text.as_bytes())?;
    Ok(())
}

// What a message shows of a line.
fn first_bytes(line: &[u8]) -> &[u8]
    ensures { result.now ≡ take 80 line.now }
{
    &line[..SHOWN.min(line.len())]
}

// Appends the bytes, control bytes escaped: a terminal would obey them.
fn push_escaped(bytes: &[u8], output: &mut Vec<u8>) -> Result<(), AllocError>
    ensures { OnOk result (output.new.items ≡ output.old.items ++ flat_map shown_byte bytes.now) }
{
    for byte in bytes {
        push_shown_byte(*byte, output)?;
    }
    Ok(())
}

// Appends a byte, escaped where it is a control byte.
fn push_shown_byte(byte: u8, output: &mut Vec<u8>) -> Result<(), AllocError>
    ensures { OnOk result (output.new.items ≡ output.old.items ++ shown_byte byte) }
{
    if byte.is_ascii_control() {
        let escaped = [b'\\', b'x', hex_digit(byte / 16), hex_digit(byte % 16)];
        output.extend_from_slice(&escaped)?;
    } else {
        output.push(byte)?;
    }
    Ok(())
}

fn hex_digit(value: u8) -> u8
    requires { value < 16 }
    ensures { result ≡ digit_char value }
{
    if value < 10 {
        b'0' + value
    } else {
        b'a' + (value - 10)
    }
}

/// Tells that this line of the file is at fault, as far as the writer takes it, and returns status 2, or
/// 1 where there is no memory for it.
pub(crate) fn report_bad_line<F: Display + Copy, E: Write>(
    alloc: Global,
    names: Names<'_>,
    file: &[u8],
    bad: BadLine<LineFault<F>>,
    errors: &mut E,
) -> u8
    ensures status { (result ≡ 1) ⊎ (result ≡ 2) }
    ensures told { result ≡ 2 → IfSome (shown_fault F.output bad.fault) (λ fault.
        AppendsBeginning (E.contents errors.old) (E.contents errors.new) (message names.entry.program.now
        names.entry.file.now bad.number fault (line_at (lines_of file.now) bad.number))) }
{
    let mut told = Vec::new(alloc);
    let line = line_numbered(file, bad.number);
    let number = bad.number as u64;
    match push_message(
        alloc,
        names.program,
        names.file,
        number,
        bad.fault,
        line,
        &mut told,
    ) {
        Ok(()) => {
            let _ = write_out(errors, &told);
            2
        }
        Err(_) => report_stop(names, Stop::OutOfMemory, errors),
    }
}

/// Tells why a run ended before its input did, as far as the writer takes it, and returns status 1. A
/// closed output is not reported.
pub(crate) fn report_stop<E: Write>(names: Names<'_>, stop: Stop, errors: &mut E) -> u8
    ensures { result ≡ 1 }
{
    if !is_closed_output(stop) {
        let program = names.program;
        write_line(errors, Stopped { program, stop });
    }
    1
}

fn is_closed_output(stop: Stop) -> bool {
    match stop {
        Stop::Output(error) => error.kind() == io::ErrorKind::BrokenPipe,
        _ => false,
    }
}

// A program, and why its run ended.
#[derive(Clone, Copy)]
struct Stopped<'a> {
    program: &'a str,
    stop: Stop,
}

impl Display for Stopped<'_> {
    fn fmt<W: fmt::Write>(&self, f: &mut fmt::Formatter<W>) -> fmt::Result {
        write!(f, "{}: {}", self.program, self.stop)
    }
}

/// Tells why the file cannot be read, and returns status 1.
pub(crate) fn report_no_file<E: Write>(
    alloc: Global,
    names: Names<'_>,
    error: io::Error,
    errors: &mut E,
) -> u8
    ensures { result ≡ 1 }
{
    if error.kind() == io::ErrorKind::OutOfMemory {
        return report_stop(names, Stop::OutOfMemory, errors);
    }
    let (program, file, reason) = (names.program, names.file, Reason(error));
    match format!(in alloc; "{program}: {file}: {reason}\n") {
        Ok(text) => {
            let _ = write_out(errors, text.as_bytes());
            1
        }
        Err(_) => report_stop(names, Stop::OutOfMemory, errors),
    }
}
