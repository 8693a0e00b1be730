//! What a card that was played gave away.
ghost use Rattle.std.specs.Prelude.{◌≡◌};
ghost use Rattle.bridge_endings.specs.PlayedCards.{given_away};

use bridge_cards::{Card, Seat, Side};

/// A card that was played, and what it cost.
#[derive(Clone, Copy, Debug, PartialEq, Eq)]
pub struct CardCost {
    /// The card.
    pub card: Card,
    /// The seat that played it; where it was dummy, the declarer chose it.
    pub seat: Seat,
    /// The tricks that it gave away, 0 to 13: how many fewer the side of the seat takes after it than before it, where from
    /// then on both sides play for as many as they can.
    pub tricks: u8,
}

/// A card that cost nothing, so that a list of costs has a value for the indexes that it does not use.
impl Default for CardCost {
    fn default() -> Self {
        CardCost {
            card: Card::default(),
            seat: Seat::North,
            tricks: 0,
        }
    }
}

/// What a card gives away for the side that plays it, by the tricks of North and South before it and after it.
pub fn given_away(side: Side, before: u8, after: u8) -> u8
    ensures { result ≡ given_away side before after }
{
    match side {
        Side::NorthSouth => before.saturating_sub(after),
        Side::EastWest => after.saturating_sub(before),
    }
}
