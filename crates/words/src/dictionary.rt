//! The list of words, and the dictionary of them.
ghost use Rattle.std.specs.Prelude.{◌≡◌, map, IfOk};
ghost use Rattle.words.specs.Dictionaries.{IsDictionary};
ghost use Rattle.words.specs.Places.{CountsFrom, entry_words};
ghost use Rattle.words.specs.Queries.{SayWord};

use crate::fault::Fault;
use crate::query::without_zero;
use art_map::Map;
use program_lines::FromLine;
use std::alloc::{AllocError, Global};

/// The words of a list. The value of a word is how many words come before it in order, so that words
/// with one prefix are counted by the places of the first and the last.
pub(crate) type Dictionary = Map<Vec<u8>, usize>;

/// A line of the list.
#[derive(Clone, Copy)]
pub(crate) struct Word<'a> {
    bytes: &'a [u8],
}

impl<'a> FromLine<'a, Fault> for Word<'a> {
    ghost use Rattle.words.specs.Faults.{IsWordFault};
    ghost use Rattle.words.specs.Queries.{SayWord};

    ghost says = { SayWord };

    ghost has_fault = { IsWordFault };

    fn from_line(line: &'a [u8]) -> Result<Word<'a>, Fault> {
        if line.len() >= u32::MAX as usize {
            return Err(Fault::WordTooLong);
        }
        let bytes = without_zero(line)?;
        Ok(Word { bytes })
    }
}

/// The dictionary of these words.
pub(crate) fn dictionary_of(alloc: Global, words: &[Word<'_>]) -> Result<Dictionary, AllocError>
    ensures words { IfOk result (λ entries.
        IsDictionary (map (λ word. word.bytes.now) words.now) (entry_words entries)) }
    ensures places { IfOk result (CountsFrom 0) }
{
    let mut dictionary = unnumbered(alloc, words)?;
    number(&mut dictionary);
    Ok(dictionary)
}

// The dictionary of these words, where each word has place 0.
fn unnumbered(alloc: Global, words: &[Word<'_>]) -> Result<Dictionary, AllocError>
    ensures { IfOk result (λ entries.
        IsDictionary (map (λ word. word.bytes.now) words.now) (entry_words entries)) }
{
    let mut dictionary: Dictionary = Map::new(alloc);
    for word in words {
        let key = word.bytes.to_vec(alloc)?;
        dictionary.insert(key, 0)?;
    }
    // So that the words are known to ascend where there is none.
    let _count = dictionary.len();
    Ok(dictionary)
}

// Gives each word its place.
fn number(dictionary: &mut Dictionary)
    ensures words { entry_words dictionary.new ≡ entry_words dictionary.old }
    ensures places { CountsFrom 0 dictionary.new }
{
    let _count = dictionary.len();
    let mut next: usize = 0;
    dictionary.for_each_value_mut(move |_, place| {
        *place = next;
        // There are fewer words than numbers.
        next = next.wrapping_add(1);
    });
}
