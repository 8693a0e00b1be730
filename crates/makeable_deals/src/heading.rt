//! What stands before a deal.
ghost use Rattle.std.specs.Prelude.{◌≡◌};
ghost use Rattle.makeable_deals.specs.Reading.{no_heading, heading_after, board_deal};

use crate::board_deal::BoardDeal;
use crate::line_item::LineItem;
use bridge_cards::{BoardNumber, Deal, Seat, Vulnerability, dealer, vulnerability_of};

/// The tags before a deal, as far as there are any.
#[derive(Clone, Copy)]
pub struct Heading {
    /// The board.
    pub board: Option<BoardNumber>,
    /// Who deals it, behind the board's tag.
    pub dealer: Option<Seat>,
    /// Who is vulnerable, likewise.
    pub vulnerability: Option<Vulnerability>,
}

/// No tag.
pub fn no_heading() -> Heading
    ensures { result ≡ no_heading }
{
    Heading {
        board: None,
        dealer: None,
        vulnerability: None,
    }
}

/// The tags with what a line says.
pub fn heading_after(heading: &Heading, says: &LineItem) -> Heading
    ensures { result ≡ heading_after heading.now says.now }
{
    match *says {
        LineItem::Board(board) | LineItem::Dealt(board, _) => Heading {
            board: Some(board),
            dealer: None,
            vulnerability: None,
        },
        LineItem::Dealer(seat) => Heading {
            board: heading.board,
            dealer: Some(seat),
            vulnerability: heading.vulnerability,
        },
        LineItem::Vulnerable(vulnerability) => Heading {
            board: heading.board,
            dealer: heading.dealer,
            vulnerability: Some(vulnerability),
        },
        LineItem::Deal(_) | LineItem::Other => *heading,
    }
}

/// A deal of a board with those tags.
pub fn board_deal(heading: &Heading, board: BoardNumber, deal: Deal) -> BoardDeal
    ensures { result ≡ board_deal heading.now board deal }
{
    BoardDeal {
        board,
        dealer: heading.dealer.unwrap_or(dealer(board)),
        vulnerability: heading.vulnerability.unwrap_or(vulnerability_of(board)),
        deal,
    }
}
