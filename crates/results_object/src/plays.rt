//! The plays of a board.
ghost use Rattle.std.specs.Prelude.{◌≡◌, map, IfOk};
ghost use Rattle.serde_json.specs.Data.{array, item, no_items};
ghost use Rattle.serde_json.specs.View.{view};
ghost use Rattle.results_object.specs.Values.{IsValue, count_data, list_data};
ghost use Rattle.results_object.specs.Plays.{row_data, tricks_data, averages_data, result_data, gain_of, share_of, gain_data, play_data};

use crate::builder::ObjectBuilder;
use crate::course::recorded_value;
use crate::values::{count_value, list_value, number_value, percent_value, text_value};
use bridge_cards::Scoring;
use bridge_movement::Row;
use bridge_results::pages::cells::{
    contract_cell, declarer_cell, gain_cell, lead_cell, line_score,
};
use bridge_results::{BoardLine, Comparison, TablePlay};
use bridge_score::{Ranked, share_percent};
use bridge_session::Session;
use serde_json::{Value, json};
use session_rules::Outcome;
use std::alloc::{AllocError, Global};

/// Who met, when and where.
pub fn row_value(alloc: Global, row: &Row) -> Result<Value, AllocError>
    ensures { IsValue (row_data row.now) result }
{
    ObjectBuilder::new(alloc)
        .with("ew", Ok(count_value(row.ew)))
        .with("ns", Ok(count_value(row.ns)))
        .with("round", Ok(count_value(row.round)))
        .with("table", Ok(count_value(row.table)))
        .build()
}

/// Declarer's tricks, those of a ruling where there is one.
fn tricks_value(outcome: Outcome) -> Value
    ensures { view result ≡ tricks_data outcome }
{
    match outcome {
        Outcome::Played { tricks, .. } | Outcome::Assigned { tricks, .. } => count_value(tricks),
        _ => Value::Null,
    }
}

/// Two numbers.
fn pair_value(alloc: Global, ns: u8, ew: u8) -> Result<Value, AllocError>
    ensures { IsValue (array (item (count_data ns) (item (count_data ew) no_items))) result }
{
    let (first, second) = (count_value(ns), count_value(ew));
    json!(in alloc; [first, second])
}

/// The averages that were awarded in place of a score.
pub fn averages_value(alloc: Global, outcome: Outcome) -> Result<Value, AllocError>
    ensures { IsValue (averages_data outcome) result }
{
    match outcome {
        Outcome::Adjusted { ns, ew } => pair_value(alloc, ns.percent(), ew.percent()),
        _ => Ok(Value::Null),
    }
}

/// The contract or what else came of the play, declarer, the opening lead, and the tricks.
pub fn result_value(alloc: Global, play: &TablePlay) -> Result<Value, AllocError>
    ensures { IsValue (result_data play.now) result }
{
    let contract = text_value(alloc, contract_cell(play.outcome).as_str());
    let lead = text_value(alloc, lead_cell(play.lead).as_str());
    ObjectBuilder::new(alloc)
        .with("contract", contract)
        .with("declarer", text_value(alloc, declarer_cell(play.outcome)))
        .with("lead", lead)
        .with("tricks", Ok(tricks_value(play.outcome)))
        .build()
}

/// What a side gained, if anything can be.
pub fn gain_of(comparison: Option<Comparison>, ns: bool) -> Option<i32>
    ensures { result ≡ gain_of ns comparison }
{
    let compared = comparison?;
    Some(if ns {
        compared.ns_gain
    } else {
        compared.ew_gain
    })
}

/// The same in hundredths of a per cent of what was available, by matchpoints.
fn share_of(scoring: Scoring, available: u32, gain: Option<i32>) -> Option<u32>
    ensures { result ≡ share_of scoring available gain }
{
    match (scoring, gain) {
        (Scoring::MatchPoints, Some(gained)) => share_percent(&Ranked {
            pair: 0,
            place: 0,
            value: gained,
            available,
        }),
        _ => None,
    }
}

/// What a side gained, and the same in per cent.
pub fn gain_value(
    alloc: Global,
    scoring: Scoring,
    available: u32,
    gain: Option<i32>,
) -> Result<Value, AllocError>
    ensures { IsValue (gain_data scoring available gain) result }
{
    let percent = percent_value(alloc, share_of(scoring, available, gain));
    let points = text_value(alloc, gain_cell(scoring, gain).as_str());
    ObjectBuilder::new(alloc)
        .with("percent", percent)
        .with("points", points)
        .build()
}

/// How the scores of a session are compared.
fn scoring_of(session: &Session) -> Scoring
    ensures { result ≡ session.now.configuration.scoring }
{
    session.config().fields().scoring
}

/// A play.
fn play_value(
    alloc: Global,
    session: &Session,
    available: u32,
    line: &BoardLine,
) -> Result<Value, AllocError>
    ensures { IsValue (play_data session.now available line.now) result }
{
    let scoring = scoring_of(session);
    let play = &line.play;
    let ew = gain_value(alloc, scoring, available, gain_of(line.comparison, false));
    let ns = gain_value(alloc, scoring, available, gain_of(line.comparison, true));
    let score = number_value(line_score(line.comparison));
    ObjectBuilder::new(alloc)
        .with("averages", averages_value(alloc, play.outcome))
        .with("course", recorded_value(alloc, session, play))
        .with("ew", ew)
        .with("ns", ns)
        .with("result", result_value(alloc, play))
        .with("row", row_value(alloc, &play.row))
        .with("score", Ok(score))
        .build()
}

/// Plays.
fn play_values(
    alloc: Global,
    session: &Session,
    available: u32,
    lines: &[BoardLine],
) -> Result<Vec<Value>, AllocError>
    ensures { IfOk result (λ list. map view list.items ≡ map (play_data session.now available) lines.now) }
{
    let mut list = Vec::new(alloc);
    for line in lines {
        let value = play_value(alloc, session, available, line)?;
        serde_json::push(&mut list, value)?;
    }
    Ok(list)
}

/// Plays as a list.
pub fn plays_value(
    alloc: Global,
    session: &Session,
    available: u32,
    lines: &[BoardLine],
) -> Result<Value, AllocError>
    ensures { IsValue (list_data (play_data session.now available) lines.now) result }
{
    Ok(list_value(play_values(alloc, session, available, lines)?))
}
