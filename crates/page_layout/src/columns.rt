//! Columns that stand in many tables.
use crate::format::{Align, Column, Content};

/// A number of at most two digits.
pub const SMALL: Column = Column {
    width: 5,
    align: Align::Right,
    content: Content::Words,
};

/// A number of two digits under a longer title, or a percentage.
pub const NUMBER: Column = Column {
    width: 7,
    align: Align::Right,
    content: Content::Words,
};

/// The letters of a seat, or of a side.
pub const LETTERS: Column = Column {
    width: 4,
    align: Align::Left,
    content: Content::Words,
};
