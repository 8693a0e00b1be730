//! Sets of lines.

/// Which lines are read.
#[derive(Clone, Copy, Debug, PartialEq, Eq)]
pub enum LineSet {
    /// Those of the table protocol.
    Protocol,
    /// Those by which the director mends what was done.
    Corrections,
}
