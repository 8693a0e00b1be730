//! What the first part of a session states, read from it.
ghost use Rattle.std.specs.Prelude.{◌≡◌, ◌*◌, ◌<◌, ◌≤◌, length, IfSome, IfNone};
ghost use Rattle.session_bytes.specs.PartsRead.{text_in, after_text, scoring_at, shape_of_numbers, key_in};
ghost use Rattle.session_bytes.specs.Head.{IsHeadingOf, IsHeadingPart};

use arrayvec::ArrayString;
use bridge_cards::Scoring;
use bridge_config::{DATE_BYTES, Key, NAME_BYTES, read_date, read_name};
use bridge_movement::Shape;

/// What the first part states.
#[derive(Clone, Copy)]
pub struct Heading {
    /// The name of the event.
    pub event: ArrayString<NAME_BYTES>,
    /// The name of the site.
    pub site: ArrayString<NAME_BYTES>,
    /// The date.
    pub date: ArrayString<DATE_BYTES>,
    /// How scores are compared.
    pub scoring: Scoring,
    /// The number of boards in a set.
    pub boards: u8,
    /// How large the movement is.
    pub shape: Shape,
    /// The director's key.
    pub director: Key,
    /// From 1 to one more than the last round.
    pub round: u8,
}

/// The text that bytes begin with, by its length, and what comes after it.
pub fn split_text(bytes: &[u8]) -> (&[u8], &[u8])
    ensures text { result.0.now ≡ text_in bytes.now }
    ensures rest { result.1.now ≡ after_text bytes.now }
{
    let Some((count, rest)) = bytes.split_first() else {
        return (bytes, bytes);
    };
    rest.split_at(usize::from(*count).min(rest.len()))
}

fn scoring_of(number: u8) -> Option<Scoring>
    ensures some { IfSome result (λ scoring. scoring ≡ scoring_at number) }
    ensures none { IfNone result (2 ≤ number) }
{
    match number {
        0 => Some(Scoring::MatchPoints),
        1 => Some(Scoring::Imps),
        _ => None,
    }
}

/// The shape in the twelve bytes behind the date.
fn shape_of(numbers: &[u8]) -> Shape
    requires { length numbers.now ≡ 12 }
    ensures { result ≡ shape_of_numbers numbers.now }
{
    Shape {
        tables: numbers[2],
        rounds: numbers[3],
        sets: numbers[4],
        pairs: numbers[5],
        split: numbers[6],
    }
}

/// The key that the bytes begin with.
pub fn key_of(bytes: &[u8]) -> Key
    requires { 4 ≤ length bytes.now }
    ensures { result.0 ≡ key_in bytes.now }
{
    let (key, _) = bytes.split_at(4);
    Key(u32::from_be_bytes([key[0], key[1], key[2], key[3]]))
}

/// What the first part states, if it is in form.
pub fn read_heading(part: &[u8]) -> Option<Heading>
    ensures some { IfSome result (IsHeadingOf part.now) }
    ensures none { IfNone result (¬ IsHeadingPart part.now) }
{
    let (event, rest) = split_text(part);
    let (site, rest) = split_text(rest);
    let Some(event) = read_name(event) else {
        return None;
    };
    let Some(site) = read_name(site) else {
        return None;
    };
    if rest.len() != 22 {
        return None;
    }
    let (date, numbers) = rest.split_at(DATE_BYTES);
    let Some(date) = read_date(date) else {
        return None;
    };
    let (_, key) = numbers.split_at(7);
    let Some(scoring) = scoring_of(numbers[0]) else {
        return None;
    };
    Some(Heading {
        event,
        site,
        date,
        scoring,
        boards: numbers[1],
        shape: shape_of(numbers),
        director: key_of(key),
        round: numbers[11],
    })
}
