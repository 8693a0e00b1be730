//! The fields of a session.
/// A field of the session, whose pairs are ranked among themselves.
#[derive(Clone, Copy, Debug, PartialEq, Eq)]
pub enum Field {
    /// The pairs from 1 to the movement's split.
    First,
    /// The pairs after it, if there are any.
    Second,
}
