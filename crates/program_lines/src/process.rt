//! The `main` of a program.
use crate::message::{Names, report_no_file, report_stop};
use crate::program::{Program, run};
use crate::stop::Stop;
use crate::writing::{write_line, write_out};
use std::alloc::AllocError;
use std::fmt::Display;
use std::io::{IsTerminal, Write};
use std::process::ExitCode;
use std::{env, fmt, fs, io};

// A file of so many bytes takes about a second to load.
const LARGE_FILE: usize = 8 << 20;

// That a file of so many bytes is being loaded.
#[derive(Clone, Copy)]
struct Loading {
    bytes: usize,
}

impl Display for Loading {
    fn fmt<W: fmt::Write>(&self, f: &mut fmt::Formatter<W>) -> fmt::Result {
        write!(f, "loading {} MiB", self.bytes >> 20)
    }
}

/// How a program is called.
#[derive(Clone, Copy)]
pub struct Description {
    /// Its name.
    pub program: &'static str,
    /// What `--help` prints, one or more lines.
    pub usage: &'static str,
    /// A word that may come first, or no bytes.
    pub flag: &'static str,
}

/// What the words of a process ask for.
#[derive(Drop)]
pub struct Request {
    /// Whether the flag comes first.
    pub is_flagged: bool,
    /// The name of the file.
    pub name: String,
    /// Its bytes.
    pub bytes: Vec<u8>,
}

/// Reads the file that the words of a process name, or returns the exit status.
///
/// The word `--help` prints how the program is called, with status 0; other words print it on
/// standard error, with status 2. Where the file cannot be read a line says so, with status 1. Where
/// standard error is a terminal, a line says that a file of 8 MiB or more is being loaded.
pub fn requested(rt: &HostRuntime, description: Description) -> Result<Request, u8> {
    let words = match words_after_name(rt) {
        Ok(words) => words,
        Err(_) => return Err(out_of_memory(rt, description)),
    };
    match words.split_first() {
        Some((first, others))
            if !description.flag.is_empty() && first.as_str() == description.flag => {
            request_of(rt, description, true, others)
        }
        _ => request_of(rt, description, false, &words),
    }
}

fn out_of_memory(rt: &HostRuntime, description: Description) -> u8 {
    let names = Names {
        program: description.program,
        file: "",
    };
    report_stop(names, Stop::OutOfMemory, &mut rt.stderr())
}

fn request_of(
    rt: &HostRuntime,
    description: Description,
    is_flagged: bool,
    words: &[String],
) -> Result<Request, u8> {
    let mut errors = rt.stderr();
    let [word] = words else {
        let _ = write_out(&mut errors, description.usage.as_bytes());
        return Err(2);
    };
    if word.as_str() == "--help" {
        return match write_out(&mut rt.stdout(), description.usage.as_bytes()) {
            Ok(()) => Err(0),
            Err(_) => Err(1),
        };
    }
    let names = Names {
        program: description.program,
        file: word.as_str(),
    };
    let bytes = match fs::read(rt, word.as_str()) {
        Ok(bytes) => bytes,
        Err(error) => return Err(report_no_file(rt.alloc(), names, error, &mut errors)),
    };
    say_large(&mut errors, bytes.len());
    match word.clone() {
        Ok(name) => Ok(Request {
            is_flagged,
            name,
            bytes,
        }),
        Err(_) => Err(out_of_memory(rt, description)),
    }
}

fn say_large<E: Write + IsTerminal>(errors: &mut E, bytes: usize) {
    if bytes >= LARGE_FILE && errors.is_terminal() {
        write_line(errors, Loading { bytes });
    }
}

/// Answers standard input from the file of a request, as [`run`] does.
pub fn answer<'a, P: Program<'a> + Drop>(
    rt: &HostRuntime,
    program: &str,
    request: &'a Request,
) -> ExitCode {
    let names = Names {
        program,
        file: request.name.as_str(),
    };
    ExitCode::from(run::<P, _, _, _>(
        rt.alloc(),
        names,
        &request.bytes,
        rt.stdin(),
        &mut rt.stdout(),
        &mut rt.stderr(),
    ))
}

/// The words after the program's name, or none where one is not UTF-8: no program takes such a word.
pub fn words_after_name(rt: &HostRuntime) -> Result<Vec<String>, AllocError> {
    match env::args(rt) {
        Ok(words) => Ok(words.skip(1).collect(rt.alloc())?),
        Err(error) if error.kind() == io::ErrorKind::OutOfMemory => Err(AllocError),
        Err(_) => Ok(Vec::new(rt.alloc())),
    }
}
