//! Requests: the words after the program's name.
ghost use Rattle.std.specs.Prelude.{map, string_bytes, MatchOption};
ghost use Rattle.art_cli.specs.Request.{AskFor, AreTaken, AreTexts};

/// A request to the program.
#[derive(Clone, Copy)]
pub(crate) enum Request {
    /// `replay`
    Replay,
    /// `find 0`
    Find0,
    /// `find 2`
    Find2,
    /// `find 16`
    Find16,
}

/// The request that these words make, or None where the program takes no such words.
pub(crate) fn request_of(words: &[String]) -> Option<Request>
    ensures { MatchOption result (¬ (AreTaken words.now)) (AskFor words.now) }
{
    match texts_of(words) {
        Texts::One("replay") => Some(Request::Replay),
        Texts::Two("find", "0") => Some(Request::Find0),
        Texts::Two("find", "2") => Some(Request::Find2),
        Texts::Two("find", "16") => Some(Request::Find16),
        _ => None,
    }
}

// One text or two, or neither.
#[derive(Clone, Copy)]
enum Texts<'a> {
    One(&'a str),
    Two(&'a str, &'a str),
    Others,
}

fn texts_of(words: &[String]) -> Texts<'_>
    ensures { AreTexts (map string_bytes words.now) result }
{
    match words {
        [word] => Texts::One(word.as_str()),
        [first, second] => Texts::Two(first.as_str(), second.as_str()),
        _ => Texts::Others,
    }
}
