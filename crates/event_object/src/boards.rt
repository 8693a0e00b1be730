//! The boards.
ghost use Rattle.std.specs.Prelude.{◌≡◌, map, Some, IfOk};
ghost use Rattle.std.specs.List.{range_with_len};
ghost use Rattle.event_ranking.specs.Dealt.{first_deal};
ghost use Rattle.event_ranking.specs.EventRanking.{scoring_of};
ghost use Rattle.event_results.specs.EventTraveller.{event_traveller};
ghost use Rattle.serde_json.specs.View.{view};
ghost use Rattle.results_object.specs.Values.{IsValue, list_data};
ghost use Rattle.results_object.specs.Object.{deal_data};
ghost use Rattle.event_object.specs.SectionPlays.{section_play_data};
ghost use Rattle.event_object.specs.EventObject.{available_on, board_data};

use crate::plays::section_plays_value;
use bridge_cards::BoardNumber;
use bridge_session::Session;
use event_ranking::gain::available_of;
use event_ranking::{Event, first_deal, scoring_of};
use event_results::EventResults;
use results_object::boards::{dealer_value, hands_value, vulnerable_value};
use results_object::builder::ObjectBuilder;
use results_object::values::{count_value, list_value};
use serde_json::Value;
use std::alloc::{AllocError, Global};

/// The hands that a board has in any of the sections, or null before it is dealt.
fn deal_value(alloc: Global, sections: &[Session], board: BoardNumber) -> Result<Value, AllocError>
    ensures { IsValue (deal_data board (first_deal sections.now board)) result }
{
    match first_deal(sections, board) {
        Some(deal) => hands_value(alloc, board, deal),
        None => Ok(Value::Null),
    }
}

/// What was available on a board to each side, in tenths of a matchpoint.
fn available_on(event: &Event<'_>, board: BoardNumber) -> u32
    ensures { result ≡ available_on event.now board }
{
    available_of(event.scores(board))
}

/// The plays of a board, in the order of its traveller.
fn traveller_value(
    alloc: Global,
    results: &EventResults<'_>,
    event: &Event<'_>,
    board: BoardNumber,
) -> Result<Value, AllocError>
    requires { event.now ≡ results.now }
    ensures { IsValue (list_data (section_play_data (scoring_of results.now) (available_on results.now board)) (event_traveller results.now board)) result }
{
    let scoring = scoring_of(results.sections());
    let available = available_on(event, board);
    section_plays_value(alloc, scoring, available, results.traveller(board))
}

/// A board with the plays of its traveller.
fn board_value(
    alloc: Global,
    results: &EventResults<'_>,
    event: &Event<'_>,
    board: BoardNumber,
) -> Result<Value, AllocError>
    requires { event.now ≡ results.now }
    ensures { IsValue (board_data results.now board) result }
{
    ObjectBuilder::new(alloc)
        .with("board", Ok(count_value(board.number())))
        .with("deal", deal_value(alloc, results.sections(), board))
        .with("dealer", dealer_value(alloc, board))
        .with("plays", traveller_value(alloc, results, event, board))
        .with("vulnerable", vulnerable_value(alloc, board))
        .build()
}

/// Boards 1 to 36.
fn board_values(
    alloc: Global,
    results: &EventResults<'_>,
    event: &Event<'_>,
) -> Result<Vec<Value>, AllocError>
    requires { event.now ≡ results.now }
    ensures { IfOk result (λ list. map view list.items ≡ map (board_data results.now) (range_with_len 1 36)) }
{
    let mut list = Vec::new(alloc);
    for number in 1..37 {
        let board = BoardNumber::new(number).unwrap();
        let value = board_value(alloc, results, event, board)?;
        serde_json::push(&mut list, value)?;
    }
    Ok(list)
}

/// Boards 1 to 36 as a list.
pub fn boards_value(
    alloc: Global,
    results: &EventResults<'_>,
    event: &Event<'_>,
) -> Result<Value, AllocError>
    requires { event.now ≡ results.now }
    ensures { IsValue (list_data (board_data results.now) (range_with_len 1 36)) result }
{
    Ok(list_value(board_values(alloc, results, event)?))
}
