//! The columns of the tables of an HTML page.
ghost use Rattle.std.specs.Prelude.{◌≡◌, ◌∷◌, []};
ghost use Rattle.page_layout.specs.declared.format.Content.TheVariants.{Words, Cards};
ghost use Rattle.bridge_results.specs.Columns.{contents_of};
ghost use Rattle.bridge_results.specs.declared.html.columns.TheConstants.{SHARE_LINE_COLUMNS as share_line_columns, SUM_LINE_COLUMNS as sum_line_columns, SHARE_CARD_COLUMNS as share_card_columns, SUM_CARD_COLUMNS as sum_card_columns, CALL_COLUMNS as call_columns, TRICK_COLUMNS as trick_columns};

use page_layout::{Align, Column, Content};

/// Numbers.
const NUMBERS: Column = Column {
    width: 0,
    align: Align::Right,
    content: Content::Words,
};

/// Words.
const WORDS: Column = Column {
    width: 0,
    align: Align::Left,
    content: Content::Words,
};

/// Calls, cards and contracts.
const CARDS: Column = Column {
    width: 0,
    align: Align::Left,
    content: Content::Cards,
};

/// Of a traveller by matchpoints: the pairs, the contract and what came of it, declarer, lead, score, what each side gained, and
/// the same in per cent.
pub const SHARE_LINE_COLUMNS: [Column; 10] = [
    NUMBERS, NUMBERS, CARDS, WORDS, CARDS, NUMBERS, NUMBERS, NUMBERS, NUMBERS, NUMBERS,
];

/// The same by IMPs, without percentages.
pub const SUM_LINE_COLUMNS: [Column; 8] = [
    NUMBERS, NUMBERS, CARDS, WORDS, CARDS, NUMBERS, NUMBERS, NUMBERS,
];

/// Of a score card by matchpoints: board, side, opponents and their names, the contract and what came of it, declarer, score, what
/// the pair gained, and the same in per cent.
pub const SHARE_CARD_COLUMNS: [Column; 9] = [
    NUMBERS, WORDS, NUMBERS, WORDS, CARDS, WORDS, NUMBERS, NUMBERS, NUMBERS,
];

/// The same by IMPs, without percentages.
pub const SUM_CARD_COLUMNS: [Column; 8] = [
    NUMBERS, WORDS, NUMBERS, WORDS, CARDS, WORDS, NUMBERS, NUMBERS,
];

/// Of an auction: a column for each seat.
pub const CALL_COLUMNS: [Column; 4] = [CARDS, CARDS, CARDS, CARDS];

/// Of a play: the trick, who led, the four cards, and who won.
pub const TRICK_COLUMNS: [Column; 7] = [NUMBERS, WORDS, CARDS, CARDS, CARDS, CARDS, WORDS];

/// Calls, contracts, leads and the cards of tricks stand in columns in which the letters S, H, D and C are suits; seats, sides,
/// names and numbers do not.
pub fn html_suits_stand_in_columns_of_cards()
    ensures share_line { contents_of share_line_columns ≡ Words ∷ Words ∷ Cards ∷ Words ∷ Cards ∷ Words ∷ Words ∷ Words ∷ Words ∷ Words ∷ [] }
    ensures sum_line { contents_of sum_line_columns ≡ Words ∷ Words ∷ Cards ∷ Words ∷ Cards ∷ Words ∷ Words ∷ Words ∷ [] }
    ensures share_card { contents_of share_card_columns ≡ Words ∷ Words ∷ Words ∷ Words ∷ Cards ∷ Words ∷ Words ∷ Words ∷ Words ∷ [] }
    ensures sum_card { contents_of sum_card_columns ≡ Words ∷ Words ∷ Words ∷ Words ∷ Cards ∷ Words ∷ Words ∷ Words ∷ [] }
    ensures calls { contents_of call_columns ≡ Cards ∷ Cards ∷ Cards ∷ Cards ∷ [] }
    ensures tricks { contents_of trick_columns ≡ Words ∷ Words ∷ Cards ∷ Cards ∷ Cards ∷ Cards ∷ Words ∷ [] }
{}
