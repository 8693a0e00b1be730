//! In which format a page is written, and what it is made of.

/// The format of a page.
#[derive(Clone, Copy)]
pub enum Format {
    /// Lines of plain text.
    Plain,
    /// One HTML page.
    Html,
}

/// The side of a column at which its cells stand.
#[derive(Clone, Copy)]
pub enum Align {
    /// Blanks follow the text of a cell.
    Left,
    /// Blanks stand before the text of a cell.
    Right,
}

/// What the cells of a column hold.
#[derive(Clone, Copy)]
pub enum Content {
    /// Words, names and numbers.
    Words,
    /// Cards, bids and contracts, in which the letters S, H, D and C are suits.
    Cards,
}

/// A column of a table.
#[derive(Clone, Copy)]
pub struct Column {
    /// How many bytes its cells take in plain text; a longer text is not cut off.
    pub width: usize,
    /// The side at which its cells stand.
    pub align: Align,
    /// What its cells hold.
    pub content: Content,
}

/// The level of a heading.
#[derive(Clone, Copy)]
pub enum Level {
    /// The title of the page.
    Title,
    /// What a sheet is about.
    Sheet,
    /// What a part of a sheet is about.
    Part,
}

/// A part of a page that is kept together when it is printed.
#[derive(Clone, Copy)]
pub enum Section {
    /// A sheet of its own.
    Sheet,
    /// A board with its traveller, which no page break divides.
    Traveller,
    /// A score card, to be cut out.
    ScoreCard,
}
