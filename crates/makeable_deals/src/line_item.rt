//! What a line says.
ghost use Rattle.std.specs.Prelude.{◌≡◌, Some};
ghost use Rattle.std.specs.Option.{option_map};
ghost use Rattle.makeable_deals.specs.Reading.{behind, without_end, value_in, board_of, seat_of, vulnerability_of, dealing_of, ReadsDeal, ReadsDealt, ReadsDealing, ReadsUntagged, ReadsLast, ReadsLine};
ghost use Rattle.line_text.specs.Words.{spaced_words};
ghost use Rattle.makeable_deals.specs.DealingViews.{view_of_dealing};

use crate::refused::DealsRefused;
use bridge_cards::{BoardNumber, Deal, Seat, Vulnerability, read_deal};
use line_text::{first_word, is_numeral, value_of};

/// What a line says.
#[derive(Clone, Copy)]
pub enum LineItem {
    /// A board.
    Board(BoardNumber),
    /// Who deals.
    Dealer(Seat),
    /// Who is vulnerable.
    Vulnerable(Vulnerability),
    /// A deal.
    Deal(Deal),
    /// A board and its deal.
    Dealt(BoardNumber, Deal),
    /// Something else.
    Other,
}

/// What stands behind those bytes, where the line begins so.
fn behind<'a>(start: &[u8], line: &'a [u8]) -> Option<&'a [u8]>
    ensures { option_map (λ rest. rest.now) result ≡ behind start.now line.now }
{
    line.strip_prefix(start)
}

/// The text without the quotation mark and the bracket at its end.
fn without_end(text: &[u8]) -> &[u8]
    ensures { result.now ≡ without_end text.now }
{
    text.strip_suffix(b"\"]").unwrap_or(text)
}

/// The value of the tag that begins so.
fn value_in<'a>(start: &[u8], line: &'a [u8]) -> Option<&'a [u8]>
    ensures { option_map (λ value. value.now) result ≡ value_in start.now line.now }
{
    Some(without_end(behind(start, line)?))
}

/// A board, 1 to 36.
fn board_of(value: &[u8]) -> Option<BoardNumber>
    ensures { result ≡ board_of value.now }
{
    if !is_numeral(value) {
        return None;
    }
    match value_of(value) {
        Some(number) if (1..=36).contains(&number) => BoardNumber::new(number as u8),
        _ => None,
    }
}

/// A seat, by its letter.
fn seat_of(value: &[u8]) -> Option<Seat>
    ensures { result ≡ seat_of value.now }
{
    if value == b"N".as_slice() {
        Some(Seat::North)
    } else if value == b"E".as_slice() {
        Some(Seat::East)
    } else if value == b"S".as_slice() {
        Some(Seat::South)
    } else if value == b"W".as_slice() {
        Some(Seat::West)
    } else {
        None
    }
}

/// Which sides are vulnerable, in any of the words for it.
fn vulnerability_of(value: &[u8]) -> Option<Vulnerability>
    ensures { result ≡ vulnerability_of value.now }
{
    if value == b"None".as_slice() {
        Some(Vulnerability::Neither)
    } else if value == b"Love".as_slice() {
        Some(Vulnerability::Neither)
    } else if value == b"-".as_slice() {
        Some(Vulnerability::Neither)
    } else if value == b"NS".as_slice() {
        Some(Vulnerability::NorthSouth)
    } else if value == b"EW".as_slice() {
        Some(Vulnerability::EastWest)
    } else if value == b"All".as_slice() {
        Some(Vulnerability::Both)
    } else if value == b"Both".as_slice() {
        Some(Vulnerability::Both)
    } else {
        None
    }
}

/// A deal.
fn read_deal_item(value: &[u8]) -> Result<LineItem, DealsRefused>
    ensures { ReadsDeal value.now result }
{
    match read_deal(value) {
        Ok(deal) => Ok(LineItem::Deal(deal)),
        Err(_) => Err(DealsRefused::Deal),
    }
}

/// What a director's line deals.
#[derive(Clone, Copy)]
struct Dealing<'a> {
    /// The board.
    board: &'a [u8],
    /// The hands.
    hands: &'a [u8],
}

/// What stands behind `DEAL` and a space: a key, a board, and hands.
fn dealing_of(text: &[u8]) -> Option<Dealing<'_>>
    ensures { option_map view_of_dealing result ≡ dealing_of (spaced_words text.now) }
{
    let (_, rest) = first_word(text)?;
    match first_word(rest) {
        Some((board, hands)) => Some(Dealing { board, hands }),
        None => Some(Dealing {
            board: rest,
            hands: b"",
        }),
    }
}

/// The deal of a board.
fn read_dealt(board: BoardNumber, hands: &[u8]) -> Result<LineItem, DealsRefused>
    ensures { ReadsDealt (Some board) hands.now result }
{
    match read_deal(hands) {
        Ok(deal) => Ok(LineItem::Dealt(board, deal)),
        Err(_) => Err(DealsRefused::Deal),
    }
}

/// What a director's line deals, by what stands behind `DEAL`.
fn read_dealing(text: &[u8]) -> Result<LineItem, DealsRefused>
    ensures { ReadsDealing (dealing_of (spaced_words text.now)) result }
{
    let Some(dealing) = dealing_of(text) else {
        return Err(DealsRefused::Board);
    };
    match board_of(dealing.board) {
        Some(board) => read_dealt(board, dealing.hands),
        None => Err(DealsRefused::Board),
    }
}

/// What a line says that is no tag.
fn read_untagged(line: &[u8]) -> Result<LineItem, DealsRefused>
    ensures { ReadsUntagged line.now result }
{
    match behind(b"DEAL ", line) {
        Some(rest) => read_dealing(rest),
        None => Ok(LineItem::Other),
    }
}

/// What a line says that is none of the first three tags.
fn read_last(line: &[u8]) -> Result<LineItem, DealsRefused>
    ensures { ReadsLast line.now result }
{
    match value_in(b"[Deal \"", line) {
        Some(value) => read_deal_item(value),
        None => read_untagged(line),
    }
}

/// What a line says.
pub fn read_line(line: &[u8]) -> Result<LineItem, DealsRefused>
    ensures { ReadsLine line.now result }
{
    if let Some(value) = value_in(b"[Board \"", line) {
        return board_of(value)
            .map(LineItem::Board)
            .ok_or(DealsRefused::Board);
    }
    if let Some(value) = value_in(b"[Dealer \"", line) {
        return seat_of(value)
            .map(LineItem::Dealer)
            .ok_or(DealsRefused::Dealer);
    }
    if let Some(value) = value_in(b"[Vulnerable \"", line) {
        return vulnerability_of(value)
            .map(LineItem::Vulnerable)
            .ok_or(DealsRefused::Vulnerable);
    }
    read_last(line)
}
