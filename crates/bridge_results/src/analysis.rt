//! What was found of the deals of a session and of how they were played.
ghost use Rattle.std.specs.Prelude.{◌≡◌};
ghost use Rattle.bridge_results.specs.Costs.{is_of, costs_at};

use crate::makeable::Makeable;
use crate::play::TablePlay;
use arrayvec::ArrayVec;
use bridge_cards::{BoardNumber, DECK};

/// What the cards of a play cost.
#[derive(Drop)]
pub struct PlayCosts {
    /// The round.
    pub round: u8,
    /// The table.
    pub table: u8,
    /// The board.
    pub board: BoardNumber,
    /// The tricks that each card gave away, from the first on.
    pub cards: ArrayVec<u8, DECK>,
}

/// What was found.
#[derive(Clone, Copy)]
pub struct Analysis<'a> {
    /// What could be made on each board from board 1 on, as far as it is known.
    pub boards: &'a [Option<Makeable>],
    /// What the cards of plays cost.
    pub plays: &'a [PlayCosts],
}

/// Whether these are costs of a play.
fn is_of(known: &PlayCosts, play: &TablePlay) -> bool
    ensures { result ≡ is_of known.now play.now }
{
    known.board.number() == play.board.number()
        && (known.round == play.row.round && known.table == play.row.table)
}

/// The tricks that each card of a play gave away; none where that is not known.
pub(crate) fn costs_at<'a>(plays: &'a [PlayCosts], play: &TablePlay) -> &'a [u8]
    ensures { result.now ≡ costs_at plays.now play.now }
{
    for known in plays {
        if is_of(known, play) {
            return known.cards.as_slice();
        }
    }
    &[]
}
