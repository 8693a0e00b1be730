//! Why there is no draft.
/// Why there is no draft of an evening.
#[derive(Clone, Copy, Debug, PartialEq, Eq, Hash)]
pub enum DraftRefused {
    /// There is no such movement for so many pairs.
    Movement,
    /// The seed gives too few different keys, which no seed that was drawn by chance does.
    Keys,
    /// The event or the site is no name, or the date is none.
    Heading,
}
