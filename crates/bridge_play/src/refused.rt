//! Why a card, a claim or an answer to a claim is refused.
use thiserror::Error;

/// Why a card is refused. A refused card changes nothing.
#[derive(Clone, Copy, Debug, PartialEq, Eq, Hash, Error)]
pub enum CardRefused {
    /// The play is over.
    #[error("Over")]
    Over,
    /// A claim stands (Law 68).
    #[error("ClaimStands")]
    ClaimStands,
    /// It is another player's turn; declarer plays dummy's cards, and dummy plays none (Laws 41 to 45).
    #[error("NotYourTurn")]
    NotYourTurn,
    /// The hand in turn does not hold the card.
    #[error("NotHeld")]
    NotHeld,
    /// The hand in turn holds a card of the suit led (Law 44).
    #[error("MustFollow")]
    MustFollow,
}

/// Why a claim is refused. A refused claim changes nothing.
#[derive(Clone, Copy, Debug, PartialEq, Eq, Hash, Error)]
pub enum ClaimRefused {
    /// The play is over.
    #[error("Over")]
    Over,
    /// A claim stands.
    #[error("ClaimStands")]
    ClaimStands,
    /// Dummy claims nothing.
    #[error("NotYourTurn")]
    NotYourTurn,
    /// A claim is made between tricks alone.
    #[error("MidTrick")]
    MidTrick,
    /// More tricks are claimed than are left.
    #[error("TooManyTricks")]
    TooManyTricks,
    /// 99 claims were made in this play.
    #[error("ClaimsSpent")]
    ClaimsSpent,
}

/// Why a player's answer to a claim is refused. A refused answer changes nothing.
#[derive(Clone, Copy, Debug, PartialEq, Eq, Hash, Error)]
pub enum ConsentRefused {
    /// The number is not the number of claims made.
    #[error("Stale")]
    Stale,
    /// No claim stands; one that was agreed stands no longer.
    #[error("NoClaim")]
    NoClaim,
    /// The player is not asked, or has agreed already.
    #[error("NotAsked")]
    NotAsked,
}
