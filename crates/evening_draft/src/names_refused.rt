//! Why a list of names is refused.
/// What is wrong with a line of names, or with the list.
#[derive(Clone, Copy, Debug, PartialEq, Eq, Hash)]
pub enum NamesRefused {
    /// There is no `&` and no tab in the line, so no second name.
    OneName,
    /// Nothing stands before or behind the `&` or the tab.
    NoName,
    /// A name is no text in UTF-8.
    NotText,
    /// A control character, a second `&` or tab, or one that turns the direction of text stands in a name.
    Character,
    /// A name has more than 40 characters.
    LongName,
    /// There are more than 24 pairs.
    TooManyPairs,
    /// There are fewer than 3 pairs.
    TooFewPairs,
    /// There are more than 999 lines.
    TooManyLines,
}

/// The first fault of a list of names, with its line.
#[derive(Clone, Copy, Debug, PartialEq, Eq, Hash)]
pub struct NamesFault {
    /// The number of the line, from 1; of a list with too few pairs the line after its last.
    pub line: u32,
    /// What is wrong with it.
    pub cause: NamesRefused,
}
