//! What the words of a line must be.
use crate::line_kind::LineKind;

/// What a word of a line must be.
#[derive(Clone, Copy, Debug, PartialEq, Eq)]
pub enum Part {
    /// The first word of a line of that kind.
    Keyword(LineKind),
    /// A name.
    Name,
    /// A date.
    Date,
    /// The word of a scoring.
    Scoring,
    /// A number from the first to the second.
    Number(u32, u32),
    /// The number of one of the pairs, of which the word before says how many there are.
    Split,
}

impl Default for Part {
    fn default() -> Part {
        Part::Name
    }
}

/// What is asked of a word.
#[derive(Clone, Copy, Debug, PartialEq, Eq)]
pub enum Check {
    /// Whether it is in form.
    Form,
    /// Whether it is within its range.
    Range,
}
