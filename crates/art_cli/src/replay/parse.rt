//! The lines of `replay` to its commands.
ghost use Rattle.std.specs.Prelude.{◌≡◌, ◌≢◌, ℕ, ◌<◌, ◌≤◌, [], ◌∷◌, MatchOption, OnErr, IfErr, IfOk};
ghost use Rattle.std.specs.declared.ops.Bound.{Bound};
ghost use Rattle.program_lines.specs.Numbers.{IsNumber};
ghost use Rattle.art_cli.specs.Words.{words_of};
ghost use Rattle.art_cli.specs.Command.{IsByteNumber, IsBound, SayCommand, SayNothing};
ghost use Rattle.art_cli.specs.Command.{IsName, BeginWithName, HaveTheirNumber};
ghost use Rattle.art_cli.specs.Words.{AreWords};

use crate::failure::LineFault;
use crate::replay::nodes::{Command, child_of};
use art_tree::ChildCommand;
use program_lines::{FromLine, number_of, split_once};
use std::ops::Bound;

impl FromLine<'_, LineFault> for Command {
    ghost use Rattle.art_cli.specs.Words.{words_of};
    ghost use Rattle.art_cli.specs.Command.{SayReplayLine, IsFaultOf};

    ghost says = { SayReplayLine };

    ghost has_fault = { λ line. IsFaultOf (words_of line) };

    fn from_line(line: &[u8]) -> Result<Command, LineFault> {
        command(line)
    }
}

// The command of a line, without the byte that ends it.
fn command(line: &[u8]) -> Result<Command, LineFault>
    ensures said { IfOk result (SayCommand (words_of line.now)) }
    ensures refused { OnErr result (SayNothing (words_of line.now)) }
    ensures unknown { result ≡ Err LineFault.UnknownCommand →
        ¬ (BeginWithName (words_of line.now)) }
    ensures known { result ≡ Err LineFault.WrongNumberOfWords → BeginWithName (words_of line.now) }
    ensures miscounted { result ≡ Err LineFault.WrongNumberOfWords
        → ¬ (HaveTheirNumber (words_of line.now)) }
    ensures counted { result ≡ Err LineFault.BadNumber → HaveTheirNumber (words_of line.now) }
    ensures no_entry { (result ≢ Err LineFault.KeyTooLong) × (result ≢ Err LineFault.PrefixOfOther) }
{
    match split_words(line) {
        Words::One(b"min") => Ok(ChildCommand::Min),
        Words::One(b"max") => Ok(ChildCommand::Max),
        Words::Two(b"r", byte) => Ok(ChildCommand::Remove(byte_number(byte)?)),
        Words::Two(b"l", byte) => Ok(ChildCommand::Lookup(byte_number(byte)?)),
        Words::Three(b"w", byte, key) => {
            let byte = byte_number(byte)?;
            Ok(ChildCommand::Write(byte, child_of(number_below(key, 1 << 32)? as u32)))
        }
        Words::Three(b"range", start, end) => Ok(ChildCommand::Range(bound(start)?, bound(end)?)),
        Words::One(name) | Words::Two(name, _) | Words::Three(name, _, _) | Words::More(name) => {
            Err(fault_of_count(name))
        }
    }
}

// The fault of a line with this first word and a number of words that it does not take.
fn fault_of_count(name: &[u8]) -> LineFault
    ensures fault { (result ≢ LineFault.BadNumber)
        × (result ≢ LineFault.KeyTooLong) × (result ≢ LineFault.PrefixOfOther) }
    ensures known { result ≡ LineFault.WrongNumberOfWords → IsName name.now }
    ensures unknown { result ≡ LineFault.UnknownCommand → ¬ (IsName name.now) }
{
    match name {
        b"w" | b"r" | b"l" | b"min" | b"max" | b"range" => LineFault::WrongNumberOfWords,
        _ => LineFault::UnknownCommand,
    }
}

// The words of a line, as far as a command may have them.
#[derive(Clone, Copy)]
enum Words<'a> {
    One(&'a [u8]),
    Two(&'a [u8], &'a [u8]),
    Three(&'a [u8], &'a [u8], &'a [u8]),
    // The first of four words or more.
    More(&'a [u8]),
}

fn split_words(line: &[u8]) -> Words<'_>
    ensures { AreWords (words_of line.now) result }
{
    let (first, rest) = first_word(line);
    let Some(rest) = rest else {
        return Words::One(first);
    };
    let (second, rest) = first_word(rest);
    let Some(rest) = rest else {
        return Words::Two(first, second);
    };
    let (third, rest) = first_word(rest);
    match rest {
        None => Words::Three(first, second, third),
        Some(_) => Words::More(first),
    }
}

// The first word, and what comes after the space that ends it, if one does.
fn first_word(line: &[u8]) -> (&[u8], Option<&[u8]>)
    ensures { MatchOption result.1 (words_of line.now ≡ result.0.now ∷ [])
        (λ rest. words_of line.now ≡ result.0.now ∷ words_of rest.now) }
{
    match split_once(line, b' ') {
        Some((word, rest)) => (word, Some(rest)),
        None => (line, None),
    }
}

// A bound: `i` and a byte's number, which is included, `e` and one, which is excluded, or `u`.
fn bound(word: &[u8]) -> Result<Bound<u8>, LineFault>
    ensures said { IfOk result (IsBound word.now) }
    ensures refused { OnErr result ((bound : Bound ℕ) → ¬ (IsBound word.now bound)) }
    ensures fault { IfErr result (λ fault. fault ≡ LineFault.BadNumber) }
{
    match word {
        [b'i', digits @ ..] => Ok(Bound::Included(byte_number(digits)?)),
        [b'e', digits @ ..] => Ok(Bound::Excluded(byte_number(digits)?)),
        [b'u'] => Ok(Bound::Unbounded),
        _ => Err(LineFault::BadNumber),
    }
}

fn byte_number(word: &[u8]) -> Result<u8, LineFault>
    ensures said { IfOk result (IsByteNumber word.now) }
    ensures refused { OnErr result ((n : ℕ) → ¬ (IsByteNumber word.now n)) }
    ensures fault { IfErr result (λ fault. fault ≡ LineFault.BadNumber) }
{
    Ok(number_below(word, 256)? as u8)
}

// The number below a bound that one to ten decimal digits give.
fn number_below(word: &[u8], bound: u64) -> Result<u64, LineFault>
    ensures said { IfOk result (λ n. IsNumber word.now n × (n < bound)) }
    ensures refused { OnErr result ((n : ℕ) → IsNumber word.now n → bound ≤ n) }
    ensures fault { IfErr result (λ fault. fault ≡ LineFault.BadNumber) }
{
    match number_of(word) {
        Some(number) if number < bound => Ok(number),
        _ => Err(LineFault::BadNumber),
    }
}
