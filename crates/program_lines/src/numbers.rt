//! Numbers of lines.
ghost use Rattle.std.specs.Prelude.{ℕ, ◌↔◌, MatchOption, All, IsTrue};
ghost use Rattle.std.specs.Int.{IsInRange};
ghost use Rattle.program_lines.specs.Numbers.{IsNumber};

use std::str;

/// The number that one to ten decimal digits give, or None where the word is none. There may be
/// leading zeros.
#[tactic(auto, using(crate::proofs::NumberLemmas::number_is_text, crate::proofs::NumberLemmas::refused_number))]
pub fn number_of(word: &[u8]) -> Option<u64>
    ensures { MatchOption result ((n : ℕ) → ¬ IsNumber word.now n) (IsNumber word.now) }
{
    if word.is_empty() || word.len() > 10 || !are_digits(word) {
        return None;
    }
    let Ok(digits) = str::from_utf8(word) else {
        return None;
    };
    match digits.parse() {
        Ok(number) => Some(number),
        Err(_) => None,
    }
}

fn are_digits(word: &[u8]) -> bool
    ensures { IsTrue result ↔ All (IsInRange 48 57) word.now }
{
    word.iter().all(|byte| byte.is_ascii_digit())
}
