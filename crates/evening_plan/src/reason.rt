//! Why a line is refused, in words.
ghost use Rattle.std.specs.Prelude.{◌≡◌, ◌+◌, ◌≤◌, ◌++◌, length};
ghost use Rattle.std.specs.Option.{option_map};
ghost use Rattle.arrayvec.specs.ArrayVec.{array_vec_len};
ghost use Rattle.evening_plan.specs.Reason.{keyword_words, form_words, between_words, range_words, part_words, word_words, extra_words, misfit_words, words_reason, form_reason, range_reason, movement_reason, reason_of};

use crate::compare::first_misfit;
use crate::line_kind::LineKind;
use crate::misfit::Misfit;
use crate::part::{Check, Part};
use crate::text::push_number;
use crate::word::{keyword_of, parts_due};
use bridge_config::ConfigRefused;
use bridge_movement::MovementRefused;
use line_text::LINE_BYTES;
use page_layout::{PAGE_BYTES, PageText, push_bytes};

/// The keywords that may begin the line.
fn keyword_words(kind: LineKind) -> &'static [u8]
    ensures text { result.now ≡ keyword_words kind }
    ensures short { length result.now ≤ 20 }
{
    match kind {
        LineKind::Movement => b"MITCHELL or MOVEMENT",
        _ => keyword_of(kind),
    }
}

/// The form of a word.
fn form_words(part: Part) -> &'static [u8]
    ensures text { result.now ≡ form_words part }
    ensures short { length result.now ≤ 60 }
{
    match part {
        Part::Keyword(kind) => keyword_words(kind),
        Part::Name => b"a name of 1 to 24 letters, digits, . - _",
        Part::Date => b"a date of four, two and two digits with dots between them",
        Part::Scoring => b"MP or IMP",
        Part::Number(_, _) | Part::Split => b"a number in digits alone, without a 0 in front",
    }
}

/// Adds the numbers from the low to the high one.
fn push_between(text: &mut PageText, low: u32, high: u32)
    requires { array_vec_len text.old + 60 ≤ PAGE_BYTES }
    ensures text { text.new.items ≡ text.old.items ++ between_words low high }
    ensures room { array_vec_len text.new ≤ array_vec_len text.old + 60 }
{
    if low == high {
        push_number(text, low);
        push_bytes(text, b", the number that is due");
    } else {
        push_bytes(text, b"from ");
        push_number(text, low);
        push_bytes(text, b" to ");
        push_number(text, high);
    }
}

/// Adds the range of a word.
fn push_range(text: &mut PageText, part: Part)
    requires { array_vec_len text.old + 60 ≤ PAGE_BYTES }
    ensures text { text.new.items ≡ text.old.items ++ range_words part }
    ensures room { array_vec_len text.new ≤ array_vec_len text.old + 60 }
{
    match part {
        Part::Keyword(_) | Part::Name | Part::Scoring => push_bytes(text, b"as it must be"),
        Part::Date => push_bytes(
            text,
            b"a day: the month is from 01 to 12, the day from 01 to 31",
        ),
        Part::Number(low, high) => push_between(text, low, high),
        Part::Split => push_bytes(text, b"from 1 to the number of pairs, which is word 5"),
    }
}

/// Adds what a word must be.
fn push_part(text: &mut PageText, check: Check, part: Part)
    requires { array_vec_len text.old + 60 ≤ PAGE_BYTES }
    ensures text { text.new.items ≡ text.old.items ++ part_words check part }
    ensures room { array_vec_len text.new ≤ array_vec_len text.old + 60 }
{
    match check {
        Check::Form => push_bytes(text, form_words(part)),
        Check::Range => push_range(text, part),
    }
}

/// Adds the number of a word, and words of it.
fn push_word(text: &mut PageText, at: u32, words: &[u8])
    requires words { length words.now ≤ 80 }
    requires room { array_vec_len text.old + 95 ≤ PAGE_BYTES }
    ensures text { text.new.items ≡ text.old.items ++ word_words at words.now }
    ensures room { array_vec_len text.new ≤ array_vec_len text.old + 95 }
{
    push_bytes(text, b"word ");
    push_number(text, at);
    push_bytes(text, words);
}

/// Adds that for a word nothing is due; where it is the first, its line is one too many.
fn push_extra(text: &mut PageText, at: u32)
    requires { array_vec_len text.old + 95 ≤ PAGE_BYTES }
    ensures text { text.new.items ≡ text.old.items ++ extra_words at }
    ensures room { array_vec_len text.new ≤ array_vec_len text.old + 95 }
{
    if at == 1 {
        push_bytes(text, b"no line is due any more");
    } else {
        push_word(text, at, b" is one too many");
    }
}

/// Adds what is wrong with a word.
fn push_misfit(text: &mut PageText, check: Check, misfit: Option<Misfit>)
    requires { array_vec_len text.old + 155 ≤ PAGE_BYTES }
    ensures text { text.new.items ≡ text.old.items ++ misfit_words check misfit }
    ensures room { array_vec_len text.new ≤ array_vec_len text.old + 155 }
{
    match misfit {
        None => push_bytes(text, b"it has another form"),
        Some(Misfit::Lacking(at)) => push_word(text, at, b" is missing"),
        Some(Misfit::Extra(at)) => push_extra(text, at),
        Some(Misfit::Empty(at)) => push_word(
            text,
            at,
            b" is empty: one space stands between two words, and none at the end",
        ),
        Some(Misfit::Wrong(at, part)) => {
            push_word(text, at, b" is not ");
            push_part(text, check, part);
        }
    }
}

/// Adds what is wrong with the words of the line.
fn push_words_reason(text: &mut PageText, check: Check, kind: LineKind, line: &[u8])
    requires { array_vec_len text.old + 155 ≤ PAGE_BYTES }
    ensures text { text.new.items ≡ text.old.items ++ words_reason check kind line.now }
    ensures room { array_vec_len text.new ≤ array_vec_len text.old + 155 }
{
    let parts = parts_due(kind);
    push_misfit(text, check, first_misfit(check, parts.as_slice(), line));
}

/// Adds why a line is out of form.
fn push_form_reason(text: &mut PageText, kind: LineKind, line: Option<&[u8]>)
    requires { array_vec_len text.old + 155 ≤ PAGE_BYTES }
    ensures text { text.new.items ≡ text.old.items ++ form_reason kind (option_map (λ shown. shown.now) line.entry) }
    ensures room { array_vec_len text.new ≤ array_vec_len text.old + 155 }
{
    match line {
        None => push_bytes(text, b"the text ends before this line"),
        Some(line) if line.len() > LINE_BYTES => {
            push_bytes(text, b"the line has more than 128 characters");
        }
        Some(line) if line.is_empty() => push_bytes(text, b"the line is empty"),
        Some(line) => push_words_reason(text, Check::Form, kind, line),
    }
}

/// Adds which word is out of range.
fn push_range_reason(text: &mut PageText, kind: LineKind, line: Option<&[u8]>)
    requires { array_vec_len text.old + 155 ≤ PAGE_BYTES }
    ensures text { text.new.items ≡ text.old.items ++ range_reason kind (option_map (λ shown. shown.now) line.entry) }
    ensures room { array_vec_len text.new ≤ array_vec_len text.old + 155 }
{
    match line {
        None => push_bytes(text, b"the text ends before this line"),
        Some(line) => push_words_reason(text, Check::Range, kind, line),
    }
}

/// Why the rows are no movement.
fn movement_reason(refused: MovementRefused) -> &'static [u8]
    ensures text { result.now ≡ movement_reason refused }
    ensures short { length result.now ≤ 80 }
{
    match refused {
        MovementRefused::MissingRow(_) => b"its round and table are not the ones that are next",
        MovementRefused::BadPair(_) => b"a pair's number is above the number of pairs in line 6",
        MovementRefused::SamePair(_) => b"the pair plays against itself",
        MovementRefused::BadSet(_) => b"the set is 0, or above the number of sets in line 6",
        MovementRefused::PairTwice(_) => {
            b"a pair of this row stands in an earlier row of the same round"
        }
        MovementRefused::SetAgain(_) => {
            b"a pair of this row has played this set in an earlier row"
        }
    }
}

/// Adds why that line is refused.
pub fn push_reason(text: &mut PageText, kind: LineKind, line: Option<&[u8]>, cause: ConfigRefused)
    requires { array_vec_len text.old + 155 ≤ PAGE_BYTES }
    ensures text { text.new.items ≡ text.old.items ++ reason_of kind (option_map (λ shown. shown.now) line.entry) cause }
    ensures room { array_vec_len text.new ≤ array_vec_len text.old + 155 }
{
    match cause {
        // Never met: `write_fault` says it itself, since of a text that is too long no line is shown.
        ConfigRefused::TooLong => push_bytes(text, b"the text has more than 16384 characters"),
        ConfigRefused::Form => push_form_reason(text, kind, line),
        ConfigRefused::Range => push_range_reason(text, kind, line),
        ConfigRefused::KeyTwice => push_bytes(text, b"one of its keys stands earlier in the text"),
        ConfigRefused::Movement(refused) => push_bytes(text, movement_reason(refused)),
    }
}
