//! The columns of a traveller over all sections.
ghost use Rattle.std.specs.Prelude.{◌≡◌, ◌≤◌, ◌∷◌, []};
ghost use Rattle.page_layout.specs.declared.format.Content.TheVariants.{Words, Cards};
ghost use Rattle.bridge_results.specs.Columns.{width_of, contents_of};
ghost use Rattle.event_results.specs.declared.columns.TheConstants.{LINE_COLUMNS as line_columns};

use page_layout::columns::{LETTERS, NUMBER, SMALL};
use page_layout::{Align, Column, Content};

/// A score.
const SCORE: Column = Column {
    width: 9,
    align: Align::Right,
    content: Content::Words,
};

/// What a side gained.
const GAIN: Column = Column {
    width: 8,
    align: Align::Right,
    content: Content::Words,
};

/// A contract, or a word in its place.
const CONTRACT: Column = Column {
    width: 8,
    align: Align::Left,
    content: Content::Cards,
};

/// A card.
const CARD: Column = Column {
    width: 4,
    align: Align::Left,
    content: Content::Cards,
};

/// Section, round, table, the pairs, contract, declarer, lead, tricks, score, and what each side gained.
pub const LINE_COLUMNS: [Column; 12] = [
    NUMBER, SMALL, SMALL, SMALL, SMALL, CONTRACT, LETTERS, CARD, NUMBER, SCORE, GAIN, GAIN,
];

/// The columns take at most 100 bytes of a line of plain text.
pub fn travellers_are_narrow()
    ensures { width_of line_columns ≤ 100 }
{}

/// Contracts and leads stand in columns in which the letters S, H, D and C are suits; sections, seats and numbers do not.
pub fn suits_stand_in_columns_of_cards()
    ensures { contents_of line_columns ≡ Words ∷ Words ∷ Words ∷ Words ∷ Words ∷ Cards ∷ Words ∷ Cards ∷ Words ∷ Words ∷ Words ∷ Words ∷ [] }
{}
