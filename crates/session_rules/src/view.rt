//! What a player is shown of the current play of the table.

use crate::action::PlayId;
use arrayvec::ArrayVec;
use bridge_auction::Call;
use bridge_cards::{BoardNumber, Card, CardSet, Seat, Vulnerability};

/// The cards of a trick, and who led to it.
#[derive(Debug, Drop)]
pub struct Trick {
    /// Who led to it.
    pub leader: Seat,
    /// In the order in which they were played.
    pub cards: ArrayVec<Card, 4>,
}

/// What a player is shown of the current play of the table.
#[derive(Debug, Drop)]
pub struct View<'a> {
    /// The play in progress at the table.
    pub play: PlayId,
    /// The board's number.
    pub board: BoardNumber,
    /// Where the viewer sits.
    pub seat: Seat,
    /// Who calls first (Law 2).
    pub dealer: Seat,
    /// Which sides are vulnerable (Law 2).
    pub vulnerability: Vulnerability,
    /// Whether there is a contract.
    pub in_play: bool,
    /// Who calls next, or whose hand plays next.
    pub turn: Seat,
    /// How many calls were made.
    pub calls_made: u16,
    /// How many cards were played.
    pub cards_made: u8,
    /// How many claims were made.
    pub claims_made: u8,
    /// The viewer's cards that are left.
    pub hand: CardSet,
    /// Dummy's cards that are left, once a card was played.
    pub dummy: Option<CardSet>,
    /// The calls, in order.
    pub calls: &'a [Call],
    /// The trick that is not whole, once there is a contract.
    pub trick: Option<Trick>,
    /// The last whole trick.
    pub last: Option<Trick>,
    /// The whole tricks of North and South.
    pub tricks_ns: u8,
    /// The whole tricks of East and West.
    pub tricks_ew: u8,
    /// Who claims, and how many of the tricks left.
    pub claim: Option<(Seat, u8)>,
}
