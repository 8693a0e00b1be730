//! The auction and the cards of a play.
ghost use Rattle.std.specs.Prelude.{◌≡◌, map, IfOk};
ghost use Rattle.std.specs.Option.{option_copied};
ghost use Rattle.bridge_auction.specs.Spelling.{call_text};
ghost use Rattle.session_rules.specs.State.{record_of};
ghost use Rattle.bridge_results.specs.HtmlCourse.{shown_record};
ghost use Rattle.serde_json.specs.View.{view};
ghost use Rattle.results_object.specs.Values.{IsValue, list_data};
ghost use Rattle.results_object.specs.Plays.{call_data, card_data, cards_of, course_data, found_data};

use crate::builder::ObjectBuilder;
use crate::values::{list_value, text_value};
use arrayvec::ArrayString;
use bridge_auction::{Auction, Call, print_bid};
use bridge_cards::Card;
use bridge_play::Play;
use bridge_results::pages::cells::lead_cell;
use bridge_results::{TablePlay, shown_id};
use bridge_session::Session;
use serde_json::Value;
use session_rules::PlayId;
use std::alloc::{AllocError, Global};

/// A call, as `PASS`, `X`, `XX` or `1NT`.
fn call_text(call: Call) -> ArrayString<4>
    ensures { result.bytes ≡ call_text call }
{
    let mut text = ArrayString::new();
    match call {
        Call::Pass => text.push_str("PASS"),
        Call::Bid(bid) => print_bid(bid, &mut text),
        Call::Double => text.push_str("X"),
        Call::Redouble => text.push_str("XX"),
    }
    text
}

/// A call as a value.
fn call_value(alloc: Global, call: Call) -> Result<Value, AllocError>
    ensures { IsValue (call_data call) result }
{
    Value::try_from_str(alloc, call_text(call).as_str())
}

/// A card as a value.
fn card_value(alloc: Global, card: Card) -> Result<Value, AllocError>
    ensures { IsValue (card_data card) result }
{
    text_value(alloc, lead_cell(Some(card)).as_str())
}

/// Calls as values.
fn call_values(alloc: Global, calls: &[Call]) -> Result<Vec<Value>, AllocError>
    ensures { IfOk result (λ list. map view list.items ≡ map call_data calls.now) }
{
    let mut list = Vec::new(alloc);
    for call in calls {
        let value = call_value(alloc, *call)?;
        serde_json::push(&mut list, value)?;
    }
    Ok(list)
}

/// Cards as values.
fn card_values(alloc: Global, cards: &[Card]) -> Result<Vec<Value>, AllocError>
    ensures { IfOk result (λ list. map view list.items ≡ map card_data cards.now) }
{
    let mut list = Vec::new(alloc);
    for card in cards {
        let value = card_value(alloc, *card)?;
        serde_json::push(&mut list, value)?;
    }
    Ok(list)
}

/// Calls as a list.
fn calls_value(alloc: Global, calls: &[Call]) -> Result<Value, AllocError>
    ensures { IsValue (list_data call_data calls.now) result }
{
    Ok(list_value(call_values(alloc, calls)?))
}

/// Cards as a list.
fn cards_value(alloc: Global, cards: &[Card]) -> Result<Value, AllocError>
    ensures { IsValue (list_data card_data cards.now) result }
{
    Ok(list_value(card_values(alloc, cards)?))
}

/// The cards of a play, if it has begun.
fn cards_of(played: Option<&Play>) -> &[Card]
    ensures { result.now ≡ cards_of (option_copied played.entry) }
{
    match played {
        Some(known) => known.cards(),
        None => &[],
    }
}

/// The calls and the cards.
fn course_value(
    alloc: Global,
    auction: &Auction,
    played: Option<&Play>,
) -> Result<Value, AllocError>
    ensures { IsValue (course_data auction.now (option_copied played.entry)) result }
{
    ObjectBuilder::new(alloc)
        .with("calls", calls_value(alloc, auction.calls()))
        .with("cards", cards_value(alloc, cards_of(played)))
        .build()
}

/// The calls and the cards of the record of a play, or null.
fn found_value(alloc: Global, session: &Session, id: PlayId) -> Result<Value, AllocError>
    ensures { IsValue (found_data session.now (record_of session.now id)) result }
{
    match session.entry(id) {
        Some(known) => course_value(alloc, known.auction, known.play),
        None => Ok(Value::Null),
    }
}

/// The calls and the cards of a play of a traveller, or null.
pub fn recorded_value(
    alloc: Global,
    session: &Session,
    play: &TablePlay,
) -> Result<Value, AllocError>
    ensures { IsValue (found_data session.now (shown_record session.now play.now)) result }
{
    match shown_id(session.config(), play) {
        Some(id) => found_value(alloc, session, id),
        None => Ok(Value::Null),
    }
}
