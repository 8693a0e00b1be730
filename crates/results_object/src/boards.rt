//! The boards.
ghost use Rattle.std.specs.Prelude.{◌≡◌, ◌∷◌, [], map, Some, IfOk};
ghost use Rattle.std.specs.List.{range_with_len};
ghost use Rattle.bridge_cards.specs.Seat.{seat_letter};
ghost use Rattle.bridge_cards.specs.Board.{dealer_of, vulnerability_on};
ghost use Rattle.bridge_cards.specs.Vulnerability.{vulnerability_text};
ghost use Rattle.session_rules.specs.State.{deal_on};
ghost use Rattle.bridge_results.specs.HtmlBoard.{available_on};
ghost use Rattle.bridge_results.specs.Traveller.{traveller};
ghost use Rattle.serde_json.specs.View.{view};
ghost use Rattle.results_object.specs.Values.{IsValue, text_data, list_data};
ghost use Rattle.results_object.specs.Plays.{play_data};
ghost use Rattle.results_object.specs.Object.{deal_data, board_data};

use crate::builder::ObjectBuilder;
use crate::plays::plays_value;
use crate::values::{count_value, list_value, text_value};
use arrayvec::ArrayString;
use bridge_cards::{
    BoardNumber, DEAL_BYTES, Deal, dealer, print_deal, seat_text, vulnerability_of,
    vulnerability_text,
};
use bridge_results::Results;
use bridge_session::Session;
use serde_json::Value;
use std::alloc::{AllocError, Global};

/// The hands, the dealer's first.
pub fn hands_value(alloc: Global, board: BoardNumber, deal: &Deal) -> Result<Value, AllocError>
    ensures { IsValue (deal_data board (Some deal.now)) result }
{
    let mut text = ArrayString::<DEAL_BYTES>::new();
    print_deal(deal, dealer(board), &mut text);
    Value::try_from_str(alloc, text.as_str())
}

/// The hands, or null before the board is dealt.
fn deal_value(alloc: Global, session: &Session, board: BoardNumber) -> Result<Value, AllocError>
    ensures { IsValue (deal_data board (deal_on session.now.deals board)) result }
{
    match session.deal(board) {
        Some(deal) => hands_value(alloc, board, deal),
        None => Ok(Value::Null),
    }
}

/// The dealer's letter.
pub fn dealer_value(alloc: Global, board: BoardNumber) -> Result<Value, AllocError>
    ensures { IsValue (text_data (seat_letter (dealer_of board) ∷ [])) result }
{
    text_value(alloc, seat_text(dealer(board)))
}

/// The vulnerability.
pub fn vulnerable_value(alloc: Global, board: BoardNumber) -> Result<Value, AllocError>
    ensures { IsValue (text_data (vulnerability_text (vulnerability_on board))) result }
{
    text_value(alloc, vulnerability_text(vulnerability_of(board)))
}

/// The plays of a board, in the order of its traveller.
fn traveller_value(
    alloc: Global,
    session: &Session,
    results: &Results<'_>,
    board: BoardNumber,
) -> Result<Value, AllocError>
    requires { results.now ≡ session.now }
    ensures { IsValue (list_data (play_data session.now (available_on session.now board)) (traveller session.now board)) result }
{
    let lines = results.traveller(board);
    plays_value(alloc, session, results.available(board), lines.as_slice())
}

/// A board with the plays of its traveller.
fn board_value(
    alloc: Global,
    session: &Session,
    results: &Results<'_>,
    board: BoardNumber,
) -> Result<Value, AllocError>
    requires { results.now ≡ session.now }
    ensures { IsValue (board_data session.now board) result }
{
    ObjectBuilder::new(alloc)
        .with("board", Ok(count_value(board.number())))
        .with("deal", deal_value(alloc, session, board))
        .with("dealer", dealer_value(alloc, board))
        .with("plays", traveller_value(alloc, session, results, board))
        .with("vulnerable", vulnerable_value(alloc, board))
        .build()
}

/// Boards 1 to 36.
fn board_values(
    alloc: Global,
    session: &Session,
    results: &Results<'_>,
) -> Result<Vec<Value>, AllocError>
    requires { results.now ≡ session.now }
    ensures { IfOk result (λ list. map view list.items ≡ map (board_data session.now) (range_with_len 1 36)) }
{
    let mut list = Vec::new(alloc);
    for number in 1..37 {
        let board = BoardNumber::new(number).unwrap();
        let value = board_value(alloc, session, results, board)?;
        serde_json::push(&mut list, value)?;
    }
    Ok(list)
}

/// Boards 1 to 36 as a list.
pub fn boards_value(
    alloc: Global,
    session: &Session,
    results: &Results<'_>,
) -> Result<Value, AllocError>
    requires { results.now ≡ session.now }
    ensures { IsValue (list_data (board_data session.now) (range_with_len 1 36)) result }
{
    Ok(list_value(board_values(alloc, session, results)?))
}
