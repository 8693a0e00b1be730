//! Why a text of deals is refused.
/// What is wrong with a line, or with the text.
#[derive(Clone, Copy, Debug, PartialEq, Eq)]
pub enum DealsRefused {
    /// The board is no number from 1 to 36.
    Board,
    /// The dealer is no seat's letter.
    Dealer,
    /// The word for who is vulnerable is none.
    Vulnerable,
    /// The deal is in no form of four hands, or not of 13 cards each, or a card is in two of them.
    Deal,
    /// There is no board before the deal.
    NoBoard,
    /// There are more than 99,999 lines.
    TooManyLines,
}

/// Why no deals are had.
#[derive(Clone, Copy, Debug, PartialEq, Eq)]
pub enum DealsFault {
    /// A line is refused, the first of them: its number from 1, and what is wrong with it.
    Line(u32, DealsRefused),
    /// Memory is refused.
    Memory,
}
