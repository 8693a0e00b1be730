//! A line compared with what it must be.
ghost use Rattle.std.specs.Prelude.{◌≡◌, ◌≤◌, ◌∷◌, [], length, MatchOption};
ghost use Rattle.line_text.specs.Words.{spaced_words};
ghost use Rattle.evening_plan.specs.Misfit.{words_left, wrong_at, extra_at, first_misfit};

use crate::misfit::Misfit;
use crate::part::{Check, Part};
use crate::word::is_fit;
use line_text::first_word;

/// The next word and what is left behind it; `None` where nothing is left.
fn next_word(rest: Option<&[u8]>) -> Option<(&[u8], Option<&[u8]>)>
    ensures { MatchOption result (words_left rest.entry ≡ []) (λ next. words_left rest.entry ≡ next.0.now ∷ words_left next.1) }
{
    let text = rest?;
    match first_word(text) {
        Some((word, after)) => Some((word, Some(after))),
        None => Some((text, None)),
    }
}

/// What is wrong with the word of that number.
fn wrong_at(at: u32, part: Part, word: &[u8]) -> Misfit
    ensures { result ≡ wrong_at at part word.now }
{
    if word.is_empty() {
        Misfit::Empty(at)
    } else {
        Misfit::Wrong(at, part)
    }
}

/// What is wrong with the word of that number, of which no part is left.
fn extra_at(at: u32, word: &[u8]) -> Misfit
    ensures { result ≡ extra_at at word.now }
{
    if word.is_empty() {
        Misfit::Empty(at)
    } else {
        Misfit::Extra(at)
    }
}

/// The first word of a line that is not as it must be, is lacking, or is one too many.
pub fn first_misfit(check: Check, parts: &[Part], line: &[u8]) -> Option<Misfit>
    requires { length parts.now ≤ 6 }
    ensures { result ≡ first_misfit check 1 [] parts.now (spaced_words line.now) }
{
    let mut rest = Some(line);
    let mut previous: &[u8] = b"";
    let mut at = 1;
    for part in parts {
        let Some((word, after)) = next_word(rest) else {
            return Some(Misfit::Lacking(at));
        };
        if !is_fit(check, previous, *part, word) {
            return Some(wrong_at(at, *part, word));
        }
        rest = after;
        previous = word;
        at += 1;
    }
    let (word, _) = next_word(rest)?;
    Some(extra_at(at, word))
}
