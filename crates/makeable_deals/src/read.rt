//! Reading the deals of a text.
ghost use Rattle.std.specs.Prelude.{Ok, Err, MatchResult};
ghost use Rattle.std.specs.Str.Lines.{lines};
ghost use Rattle.makeable_deals.specs.Reading.{AddsDeal, TakesItem, StepsBy, ReadsDeals};

use crate::board_deal::BoardDeal;
use crate::heading::{Heading, board_deal, heading_after, no_heading};
use crate::line_item::{LineItem, read_line};
use crate::refused::{DealsFault, DealsRefused};
use bridge_cards::Deal;
use line_text::{first_line, without_return};
use std::alloc::Global;

/// Adds a deal, where its board is known.
fn push_deal(
    number: u32,
    heading: &Heading,
    deal: Deal,
    deals: &mut Vec<BoardDeal>,
) -> Result<(), DealsFault>
    ensures { AddsDeal number heading.now deal deals.old.items deals.new.items result }
{
    match heading.board {
        None => Err(DealsFault::Line(number, DealsRefused::NoBoard)),
        Some(board) => match deals.push(board_deal(heading, board, deal)) {
            Ok(()) => Ok(()),
            Err(_) => Err(DealsFault::Memory),
        },
    }
}

/// Takes what a line says.
fn take_item(
    number: u32,
    says: &LineItem,
    heading: &mut Heading,
    deals: &mut Vec<BoardDeal>,
) -> Result<(), DealsFault>
    ensures { TakesItem number heading.old deals.old.items says.now heading.new deals.new.items result }
{
    *heading = heading_after(heading, says);
    match *says {
        LineItem::Deal(deal) | LineItem::Dealt(_, deal) => push_deal(number, heading, deal, deals),
        _ => Ok(()),
    }
}

/// Takes a line.
fn take_line(
    number: u32,
    line: &[u8],
    heading: &mut Heading,
    deals: &mut Vec<BoardDeal>,
) -> Result<(), DealsFault>
    ensures { StepsBy number heading.old deals.old.items line.now heading.new deals.new.items result }
{
    match read_line(without_return(line)) {
        Ok(says) => take_item(number, &says, heading, deals),
        Err(cause) => Err(DealsFault::Line(number, cause)),
    }
}

/// Reads the deals of a text in Portable Bridge Notation: those of its tags `Deal`, each for the board, the dealer and the
/// vulnerability of the tags `Board`, `Dealer` and `Vulnerable` before it. A tag stands on a line of its own, as `[Board "7"]`.
/// Where the last two are missing since the board's, they are those of Law 2, as in the director's lines `DEAL key board deal`. All
/// other lines are passed over.
///
/// The fault is that of the first line at fault, or that memory is refused.
pub fn read_deals(alloc: Global, text: &[u8]) -> Result<Vec<BoardDeal>, DealsFault>
    ensures { MatchResult result (λ deals. ReadsDeals (lines text.now) (Ok deals.items)) (λ fault. ReadsDeals (lines text.now) (Err fault)) }
{
    let mut heading = no_heading();
    let mut deals = Vec::new(alloc);
    let mut rest = text;
    for number in 1..100_001 {
        let Some((line, after)) = first_line(rest) else {
            return Ok(deals);
        };
        take_line(number, line, &mut heading, &mut deals)?;
        rest = after;
    }
    Err(DealsFault::Line(100_000, DealsRefused::TooManyLines))
}
