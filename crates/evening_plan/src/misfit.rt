//! How a line is at odds with what it must be.
use crate::part::Part;

/// What is wrong with a word of a line, with its number from 1.
#[derive(Clone, Copy, Debug, PartialEq, Eq)]
pub enum Misfit {
    /// It is missing.
    Lacking(u32),
    /// It is one too many.
    Extra(u32),
    /// It is empty.
    Empty(u32),
    /// It is not what its part must be.
    Wrong(u32, Part),
}
