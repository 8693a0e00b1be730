//! The columns of the tables.
ghost use Rattle.std.specs.Prelude.{◌≡◌, ◌≤◌, ◌∷◌, []};
ghost use Rattle.page_layout.specs.declared.format.Content.TheVariants.{Words, Cards};
ghost use Rattle.bridge_results.specs.declared.pages.columns.TheConstants.{SHARE_COLUMNS as share_columns, SUM_COLUMNS as sum_columns, LINE_COLUMNS as line_columns, FREQUENCY_COLUMNS as frequency_columns, CARD_COLUMNS as card_columns, HAND_COLUMNS as hand_columns, MAKEABLE_COLUMNS as makeable_columns};
ghost use Rattle.bridge_results.specs.Columns.{width_of, contents_of};

use page_layout::columns::{LETTERS, NUMBER, SMALL};
use page_layout::{Align, Column, Content};

/// A number of at most seven characters, which may have decimals.
const VALUE: Column = Column {
    width: 9,
    align: Align::Right,
    content: Content::Words,
};

/// How many columns of a terminal the names of a pair have.
pub const NAMES_COLUMNS: usize = 53;

/// The names of a pair.
const NAMES: Column = Column {
    width: NAMES_COLUMNS,
    align: Align::Left,
    content: Content::Words,
};

/// A contract, or a word in its place.
const CONTRACT: Column = Column {
    width: 8,
    align: Align::Left,
    content: Content::Cards,
};

/// A card.
const CARD: Column = Column {
    width: 4,
    align: Align::Left,
    content: Content::Cards,
};

/// The letter of a seat, under a title of words.
const SEAT: Column = Column {
    width: 11,
    align: Align::Left,
    content: Content::Words,
};

/// The cards of a hand in a suit.
const SUIT: Column = Column {
    width: 16,
    align: Align::Left,
    content: Content::Cards,
};

/// The cards of a hand in a suit, in the last column.
const LAST_SUIT: Column = Column {
    width: 0,
    align: Align::Left,
    content: Content::Cards,
};

/// Of a ranking by matchpoints: place, pair, names, matchpoints, those available, and the percentage.
pub const SHARE_COLUMNS: [Column; 6] = [SMALL, SMALL, NAMES, VALUE, VALUE, NUMBER];

/// Of a ranking by IMPs: place, pair, names, and the sum.
pub const SUM_COLUMNS: [Column; 4] = [SMALL, SMALL, NAMES, VALUE];

/// Of a traveller: round, table, the pairs, contract, declarer, lead, tricks, score, and what each side gained.
pub const LINE_COLUMNS: [Column; 11] = [
    SMALL, SMALL, SMALL, SMALL, CONTRACT, LETTERS, CARD, NUMBER, VALUE, VALUE, VALUE,
];

/// Of frequencies: the score, how often it was made, and what each side gains by it.
pub const FREQUENCY_COLUMNS: [Column; 4] = [VALUE, NUMBER, VALUE, VALUE];

/// Of a score card: round, board, side, opponents, contract, declarer, tricks, score, and what the pair gained.
pub const CARD_COLUMNS: [Column; 9] = [
    SMALL, SMALL, LETTERS, NUMBER, CONTRACT, LETTERS, NUMBER, VALUE, VALUE,
];

/// Of a diagram of hands: West, North and South, East.
pub const HAND_COLUMNS: [Column; 3] = [SUIT, SUIT, LAST_SUIT];

/// Of what could be made: the declarer, and the tricks in clubs, diamonds, hearts, spades and no trump.
pub const MAKEABLE_COLUMNS: [Column; 6] = [SEAT, SMALL, SMALL, SMALL, SMALL, SMALL];

/// Contracts, leads and the cards of hands stand in columns in which the letters S, H, D and C are suits, and nothing else of
/// these tables does.
pub fn suits_stand_in_columns_of_cards()
    ensures rankings { (contents_of share_columns ≡ Words ∷ Words ∷ Words ∷ Words ∷ Words ∷ Words ∷ [])
        × (contents_of sum_columns ≡ Words ∷ Words ∷ Words ∷ Words ∷ []) }
    ensures traveller { contents_of line_columns ≡ Words ∷ Words ∷ Words ∷ Words ∷ Cards ∷ Words ∷ Cards ∷ Words ∷ Words ∷ Words ∷ Words ∷ [] }
    ensures frequencies { contents_of frequency_columns ≡ Words ∷ Words ∷ Words ∷ Words ∷ [] }
    ensures card { contents_of card_columns ≡ Words ∷ Words ∷ Words ∷ Words ∷ Cards ∷ Words ∷ Words ∷ Words ∷ Words ∷ [] }
    ensures hands { contents_of hand_columns ≡ Cards ∷ Cards ∷ Cards ∷ [] }
    ensures makeable { contents_of makeable_columns ≡ Words ∷ Words ∷ Words ∷ Words ∷ Words ∷ Words ∷ [] }
{}

/// The columns of each table take at most 100 bytes of a line of plain text.
pub fn tables_are_narrow()
    ensures rankings { (width_of share_columns ≤ 100) × (width_of sum_columns ≤ 100) }
    ensures boards { (width_of line_columns ≤ 100) × (width_of frequency_columns ≤ 100) × (width_of hand_columns ≤ 100) }
    ensures cards { width_of card_columns ≤ 100 }
    ensures makeable { width_of makeable_columns ≤ 100 }
{}
