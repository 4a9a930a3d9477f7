//! The results of `find` to lines.
ghost use Rattle.std.specs.Prelude.{◌≡◌, ◌++◌, OnOk, string_bytes};
ghost use Rattle.program_lines.specs.Lines.{line};
ghost use Rattle.art_cli.specs.Answer.{answer_text, removal_text};

use crate::find::answer::Found;
use art_tree::TreePath;
use std::alloc::AllocError;
use std::fmt;

/// The line for a query: the number of the entry that is found and the path to its leaf, or none,
/// and how many nodes were visited.
pub(crate) fn print_answer<K, const PREFIX_LEN: usize>(
    text: &mut String,
    answer: Option<Found<K, PREFIX_LEN>>,
    reads: usize,
) -> Result<(), AllocError>
    ensures { OnOk result
        (string_bytes text.new ≡ string_bytes text.old ++ line (answer_text answer reads)) }
{
    match answer {
        None => writeln!(text, "none reads {reads}"),
        Some((number, path)) => writeln!(text, "found {number} {} reads {reads}", Shown(path)),
    }
}

/// The line for a removal: the number of the entry that is removed, or that there was none.
pub(crate) fn print_removal(text: &mut String, removed: Option<usize>) -> Result<(), AllocError>
    ensures { OnOk result
        (string_bytes text.new ≡ string_bytes text.old ++ line (removal_text removed)) }
{
    match removed {
        None => writeln!(text, "absent"),
        Some(number) => writeln!(text, "removed {number}"),
    }
}

// The path to a leaf, as a line shows it: by the bytes taken on the way.
#[derive_where(Clone, Copy)]
struct Shown<K, V, const PREFIX_LEN: usize>(TreePath<K, V, PREFIX_LEN>);

impl<K, V, const PREFIX_LEN: usize> fmt::Display for Shown<K, V, PREFIX_LEN> {
    ghost use Rattle.std.specs.Prelude.{Some};
    ghost use Rattle.art_cli.specs.Answer.{path_text};

    ghost output = { λ shown. Some (path_text shown.0) };

    fn fmt<W: fmt::Write>(&self, f: &mut fmt::Formatter<W>) -> fmt::Result {
        match self.0 {
            TreePath::Root => write!(f, "root"),
            TreePath::ChildOfRoot { child_key_byte, .. } => write!(f, "child {child_key_byte}"),
            TreePath::Normal {
                parent_key_byte,
                child_key_byte,
                ..
            } => write!(f, "normal {parent_key_byte} {child_key_byte}"),
        }
    }
}
