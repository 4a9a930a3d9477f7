//! The replies to queries.
ghost use Rattle.std.specs.Prelude.{◌≡◌, ◌-◌, ◌≤◌, ◌++◌, OnOk, codes, length, map, slice_get, take};
ghost use Rattle.std.specs.Fmt.{decimal};
ghost use Rattle.std.specs.List.{flat_map};
ghost use Rattle.std.specs.Option.{option_map};
ghost use Rattle.program_lines.specs.Lines.{line};
ghost use Rattle.words.specs.Places.{Counts, CountsFrom, entry_words};
ghost use Rattle.words.specs.Queries.{IsSaid};
ghost use Rattle.words.specs.Replies.{reply, neighbour};

use crate::dictionary::{Dictionary, Word, dictionary_of};
use crate::fault::Fault;
use crate::query::Query;
use art_map::Iter;
use program_lines::{
    Failure, LineFault, Program, Source, item_of, push_line, push_number, said_whole,
};
use std::alloc::{AllocError, Global};
use std::ops::Bound;

/// The words of a list, which answer queries.
#[derive(Drop)]
pub(crate) struct Words {
    dictionary: Dictionary,
}

impl<'a> Program<'a> for Words {
    ghost use Rattle.words.specs.Places.{IsWordTable};
    ghost use Rattle.words.specs.Replies.{IsHeading, HasWordReply, IsFirstBadWord, HasWordFault};

    type Fault = Fault;

    ghost is_table = { λ list words. IsWordTable list words.dictionary };

    ghost is_heading = { IsHeading };

    ghost is_reply = { HasWordReply };

    ghost is_bad = { IsFirstBadWord };

    ghost has_fault = { HasWordFault };

    fn load(
        alloc: Global,
        list: &'a [u8],
        output: &mut Vec<u8>,
    ) -> Result<Words, Failure<LineFault<Fault>>> {
        let words: Vec<Word<'_>> = said_whole(alloc, Source::File, list)?;
        let dictionary = dictionary_of(alloc, &words)?;
        push_counts(alloc, dictionary.len(), words.len(), output)?;
        Ok(Words { dictionary })
    }

    fn push_reply(
        &self,
        alloc: Global,
        line: &[u8],
        output: &mut Vec<u8>,
    ) -> Result<Option<LineFault<Fault>>, AllocError> {
        let query: Query<'_> = match item_of(line) {
            Ok(query) => query,
            Err(fault) => return Ok(Some(fault)),
        };
        push_reply(alloc, &self.dictionary, &query, output)?;
        Ok(None)
    }
}

// Words of a dictionary in order, each with its place.
type Entries<'a> = Iter<'a, Vec<u8>, usize>;

// Appends what a query prints.
fn push_reply(
    alloc: Global,
    dictionary: &Dictionary,
    query: &Query<'_>,
    output: &mut Vec<u8>,
) -> Result<(), AllocError>
    requires places { CountsFrom 0 dictionary.now }
    requires said { IsSaid query.now }
    ensures { OnOk result (output.new.items
        ≡ output.old.items ++ reply (entry_words dictionary.now) query.now) }
{
    match *query {
        Query::Begin(prefix) => push_words(dictionary.prefix(prefix), output)?,
        Query::FirstOf(prefix, most) => {
            push_first_words(dictionary.prefix(prefix), most, output)?;
        }
        Query::Count(prefix) => {
            let count = count_of(dictionary.prefix(prefix), dictionary.len());
            push_number(alloc, count, output)?;
        }
        Query::Before(word) => {
            let gap = dictionary.upper_bound(Bound::Excluded(word));
            push_neighbour(gap.peek_prev(), output)?;
        }
        Query::After(word) => {
            let gap = dictionary.lower_bound(Bound::Excluded(word));
            push_neighbour(gap.peek_next(), output)?;
        }
    }
    Ok(())
}

// Appends the first line.
fn push_counts(
    alloc: Global,
    words: usize,
    lines: usize,
    output: &mut Vec<u8>,
) -> Result<(), AllocError>
    ensures { OnOk result (output.new.items ≡ output.old.items
        ++ line (decimal words ++ codes " words in " ++ decimal lines ++ codes " lines")) }
{
    let text = format!(in alloc; "{words} words in {lines} lines")?;
    push_line(output, text.as_bytes())
}

// How many entries there are, by their places. The dictionary has no fewer.
fn count_of(mut entries: Entries<'_>, most: usize) -> usize
    requires places { Counts entries }
    requires most { length entries ≤ most }
    ensures { result ≡ length entries.entry }
{
    let Some((_, first)) = entries.next() else {
        return 0;
    };
    match entries.next_back() {
        Some((_, last)) => *last - *first + 1,
        None => 1,
    }
}

// Appends a line for each word.
fn push_words(entries: Entries<'_>, output: &mut Vec<u8>) -> Result<(), AllocError>
    ensures { OnOk result (output.new.items
        ≡ output.old.items ++ flat_map line (entry_words entries.entry)) }
{
    for (key, _) in entries {
        push_line(output, key)?;
    }
    Ok(())
}

// Appends a line for each of the first words, at most so many.
fn push_first_words(entries: Entries<'_>, most: u64, output: &mut Vec<u8>) -> Result<(), AllocError>
    ensures { OnOk result (output.new.items
        ≡ output.old.items ++ flat_map line (take most (entry_words entries.entry))) }
{
    let mut left = most;
    for (key, _) in entries {
        if left == 0 {
            return Ok(());
        }
        left -= 1;
        push_line(output, key)?;
    }
    Ok(())
}

// Appends a line with the word of an entry, or with none.
fn push_neighbour(entry: Option<(&Vec<u8>, &usize)>, output: &mut Vec<u8>) -> Result<(), AllocError>
    ensures { OnOk result (output.new.items ≡ output.old.items
        ++ neighbour (option_map (λ (key, place). key.now.items) entry.entry)) }
{
    match entry {
        Some((key, _)) => push_line(output, key),
        None => push_line(output, b"none"),
    }
}
