//! Whether a word is as it must be.
ghost use Rattle.std.specs.Prelude.{◌≡◌, ◌≤◌, length};
ghost use Rattle.evening_plan.specs.Part.{keyword_of, parts_due, is_formed, word_number, has_within, is_split, is_ranged, is_fit};

use crate::line_kind::LineKind;
use crate::part::{Check, Part};
use arrayvec::ArrayVec;
use bridge_config::{read_date, read_name};
use line_text::{is_numeral, value_of};

/// The most words of a line.
pub const MOST_PARTS: usize = 6;

/// What the words of a line must be, in order.
pub type Parts = ArrayVec<Part, MOST_PARTS>;

/// A number of any size that a key may have.
const KEY: Part = Part::Number(0, 4_294_967_295);

/// A number that a row may have.
const ROW: Part = Part::Number(0, 255);

/// The first word of a line.
pub fn keyword_of(kind: LineKind) -> &'static [u8]
    ensures text { result.now ≡ keyword_of kind }
    ensures short { length result.now ≤ 8 }
{
    match kind {
        LineKind::Event => b"EVENT",
        LineKind::Site => b"SITE",
        LineKind::Date => b"DATE",
        LineKind::Scoring => b"SCORING",
        LineKind::Boards => b"BOARDS",
        LineKind::Mitchell => b"MITCHELL",
        LineKind::Movement => b"MOVEMENT",
        LineKind::Row => b"ROW",
        LineKind::Director => b"DIRECTOR",
        LineKind::Pair(_) => b"PAIR",
        LineKind::End => b"",
    }
}

/// The parts, inline.
fn inline_parts(parts: &[Part]) -> Parts
    requires { length parts.now ≤ MOST_PARTS }
    ensures { result.items ≡ parts.now }
{
    let mut inline = Parts::new();
    inline.try_extend_from_slice(parts).unwrap();
    inline
}

/// What the words of a line must be, in order.
pub fn parts_due(kind: LineKind) -> Parts
    ensures { result.items ≡ parts_due kind }
{
    let keyword = Part::Keyword(kind);
    match kind {
        LineKind::Event | LineKind::Site => inline_parts(&[keyword, Part::Name]),
        LineKind::Date => inline_parts(&[keyword, Part::Date]),
        LineKind::Scoring => inline_parts(&[keyword, Part::Scoring]),
        LineKind::Boards => inline_parts(&[keyword, Part::Number(1, 3)]),
        LineKind::Mitchell => inline_parts(&[keyword, Part::Number(2, 12)]),
        LineKind::Movement => inline_parts(&[
            keyword,
            Part::Number(2, 12),
            Part::Number(1, 12),
            Part::Number(1, 12),
            Part::Number(2, 24),
            Part::Split,
        ]),
        LineKind::Row => inline_parts(&[keyword, ROW, ROW, ROW, ROW, ROW]),
        LineKind::Director => inline_parts(&[keyword, KEY]),
        LineKind::Pair(index) => inline_parts(&[
            keyword,
            Part::Number(index, index),
            Part::Name,
            KEY,
            Part::Name,
            KEY,
        ]),
        LineKind::End => Parts::new(),
    }
}

/// Whether the word is in the form of its part.
fn is_formed(part: Part, word: &[u8]) -> bool
    ensures { result ≡ is_formed part word.now }
{
    match part {
        Part::Keyword(kind) => word == keyword_of(kind),
        Part::Name => read_name(word).is_some(),
        Part::Date => read_date(word).is_some(),
        Part::Scoring => word == b"MP".as_slice() || word == b"IMP".as_slice(),
        Part::Number(_, _) | Part::Split => is_numeral(word),
    }
}

/// The number that a word is; `None` where it is none of four bytes at most.
fn word_number(word: &[u8]) -> Option<u32>
    ensures { result ≡ word_number word.now }
{
    if is_numeral(word) {
        value_of(word)
    } else {
        None
    }
}

/// Whether it is a number from the low to the high one.
fn has_within(low: u32, high: u32, number: Option<u32>) -> bool
    ensures { result ≡ has_within low high number }
{
    match number {
        Some(number) => (low..=high).contains(&number),
        None => false,
    }
}

/// Whether the last pair of the first field is one of so many pairs.
fn is_split(pairs: Option<u32>, number: Option<u32>) -> bool
    ensures { result ≡ is_split pairs number }
{
    match pairs {
        Some(pairs) => has_within(1, pairs, number),
        None => false,
    }
}

/// Whether the word, after the previous one, is within the range of its part. Of a date, which is the one word of its line
/// that has a range, it is not asked where it is out of it.
fn is_ranged(previous: &[u8], part: Part, word: &[u8]) -> bool
    ensures { result ≡ is_ranged previous.now part word.now }
{
    match part {
        Part::Keyword(_) | Part::Name | Part::Scoring => true,
        Part::Date => false,
        Part::Number(low, high) => has_within(low, high, word_number(word)),
        Part::Split => is_split(word_number(previous), word_number(word)),
    }
}

/// Whether the word is what is asked of it.
pub fn is_fit(check: Check, previous: &[u8], part: Part, word: &[u8]) -> bool
    ensures { result ≡ is_fit check previous.now part word.now }
{
    match check {
        Check::Form => is_formed(part, word),
        Check::Range => is_ranged(previous, part, word),
    }
}
