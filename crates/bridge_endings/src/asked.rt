//! What a search asks of its table.
use bridge_cards::{CardSet, Seat, Suit};

/// Hands at the start of a trick, of which it is asked whether North and South reach so many tricks.
#[derive(Clone, Copy)]
pub struct Asked {
    /// The hands.
    pub hands: [CardSet; 4],
    /// How many cards of each suit they have.
    pub lengths: u64,
    /// The trump suit, if there is one.
    pub trump: Option<Suit>,
    /// The seat to lead.
    pub leader: Seat,
    /// How many tricks are left.
    pub tricks: u8,
    /// How many of them North and South need.
    pub need: u8,
}
