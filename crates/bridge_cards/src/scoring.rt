//! The two ways of scoring.

/// How the scores of a session are compared (Law 78).
#[derive(Clone, Copy, Debug, PartialEq, Eq, Hash)]
pub enum Scoring {
    /// Matchpoints, of which a pair's share of what was available to it counts (Law 78A).
    MatchPoints,
    /// Cross-IMPs, whose sum counts (Law 78B).
    Imps,
}
