//! Which line of a configuration is due.
ghost use Rattle.std.specs.Prelude.{◌≡◌, ◌≤◌, ◌<◌, ◌+◌, ◌-◌, slice_get};
ghost use Rattle.std.specs.Option.{option_map};
ghost use Rattle.std.specs.Str.Lines.{lines};
ghost use Rattle.line_text.specs.WordViews.{view_of_five};
ghost use Rattle.line_text.specs.Words.{spaced_words};
ghost use Rattle.evening_plan.specs.Kind.{number_up_to, shape_sizes, sizes_of, begins_with, movement_kind, kind_after, kind_at};

use crate::line_kind::{LineKind, Sizes};
use line_text::{Five, first_line, first_word, five_after, is_numeral, value_of, word_after};

/// The number of a numeral up to a limit; 0 where it is none.
fn number_up_to(high: u32, word: &[u8]) -> u32
    ensures number { result ≡ number_up_to high word.now }
    ensures most { result ≤ high }
{
    if !is_numeral(word) {
        return 0;
    }
    match value_of(word) {
        Some(number) if number <= high => number,
        _ => 0,
    }
}

/// How many rows and pairs a shape has.
fn shape_sizes(words: Option<Five<'_>>) -> Sizes
    ensures sizes { result ≡ shape_sizes (option_map view_of_five words.entry) }
    ensures rows { result.rows ≤ 144 }
    ensures pairs { result.pairs ≤ 24 }
{
    match words {
        Some(words) => Sizes {
            rows: number_up_to(12, words.second) * number_up_to(12, words.first),
            pairs: number_up_to(24, words.fourth),
        },
        None => Sizes { rows: 0, pairs: 0 },
    }
}

/// How many rows and pairs the sixth line states.
fn sizes_of(line: Option<&[u8]>) -> Sizes
    ensures sizes { result ≡ sizes_of (option_map (λ text. text.now) line.entry) }
    ensures rows { result.rows ≤ 144 }
    ensures pairs { result.pairs ≤ 24 }
{
    let Some(line) = line else {
        return Sizes { rows: 0, pairs: 0 };
    };
    match word_after(b"MITCHELL", line) {
        Some(tables) => Sizes {
            rows: 0,
            pairs: 2 * number_up_to(12, tables),
        },
        None => shape_sizes(five_after(b"MOVEMENT", line)),
    }
}

/// Whether a line's first word is the keyword.
fn begins_with(keyword: &[u8], line: &[u8]) -> bool
    ensures { result ≡ begins_with keyword.now (spaced_words line.now) }
{
    match first_word(line) {
        Some((word, _)) => word == keyword,
        None => line == keyword,
    }
}

/// Which of the two movements the sixth line is.
fn movement_kind(line: Option<&[u8]>) -> LineKind
    ensures { result ≡ movement_kind (option_map (λ text. text.now) line.entry) }
{
    match line {
        Some(line) if begins_with(b"MITCHELL", line) => LineKind::Mitchell,
        _ => LineKind::Movement,
    }
}

/// The line of that index after the sixth.
fn kind_after(sizes: Sizes, index: u32) -> LineKind
    requires rows { sizes.rows ≤ 144 }
    requires pairs { sizes.pairs ≤ 24 }
    ensures { result ≡ kind_after sizes index }
{
    if index < sizes.rows {
        LineKind::Row
    } else if index == sizes.rows {
        LineKind::Director
    } else if index <= sizes.rows + sizes.pairs {
        LineKind::Pair(index - sizes.rows)
    } else {
        LineKind::End
    }
}

/// The line of that number, from 1, of a text; `None` where the text has ended.
pub fn line_at(text: &[u8], number: u32) -> Option<&[u8]>
    ensures { option_map (λ line. line.now) result ≡ slice_get (lines text.now) (number - 1) }
{
    let mut rest = text;
    for _index in 1..number {
        let (_, after) = first_line(rest)?;
        rest = after;
    }
    let (line, _) = first_line(rest)?;
    Some(line)
}

/// What the line of that number, from 1, must state.
pub fn kind_at(text: &[u8], number: u32) -> LineKind
    ensures { result ≡ kind_at (lines text.now) number }
{
    match number {
        0 | 1 => LineKind::Event,
        2 => LineKind::Site,
        3 => LineKind::Date,
        4 => LineKind::Scoring,
        5 => LineKind::Boards,
        6 => movement_kind(line_at(text, 6)),
        _ => kind_after(sizes_of(line_at(text, 6)), number - 7),
    }
}
