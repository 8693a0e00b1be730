//! A line of a traveller over all sections.
use bridge_results::BoardLine;

/// A line of a traveller over all sections.
#[derive(Clone, Copy)]
pub struct SectionPlay {
    /// The section's number, from 1.
    pub section: u8,
    /// Who played the board there and what came of it, compared with the scores of all sections.
    pub line: BoardLine,
}
