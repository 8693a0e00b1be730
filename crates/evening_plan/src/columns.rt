//! The columns of a pair's rounds.
use page_layout::columns::{LETTERS, NUMBER, SMALL};
use page_layout::{Align, Column, Content};

/// Words in the last column.
const WORDS: Column = Column {
    width: 0,
    align: Align::Left,
    content: Content::Words,
};

/// Of a round that is played: round, table, side, the pair against it, set and boards.
pub const PLAY_COLUMNS: [Column; 6] = [SMALL, SMALL, LETTERS, NUMBER, SMALL, WORDS];

/// Of a round in which a pair sits out: the round, and that.
pub const REST_COLUMNS: [Column; 2] = [SMALL, WORDS];
