//! A deal with what par needs to know of its board.
use bridge_cards::{BoardNumber, Deal, Seat, Vulnerability};

/// A deal, and on which board it is played.
#[derive(Clone, Copy)]
pub struct BoardDeal {
    /// The board.
    pub board: BoardNumber,
    /// Who calls first.
    pub dealer: Seat,
    /// Which sides are vulnerable.
    pub vulnerability: Vulnerability,
    /// The four hands.
    pub deal: Deal,
}
