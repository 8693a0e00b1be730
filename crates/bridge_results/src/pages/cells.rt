//! What stands in the cells about a play.
ghost use Rattle.std.specs.Prelude.{◌≡◌, ◌+◌, ◌≤◌, ◌++◌, codes, length};
ghost use Rattle.std.specs.Fmt.{signed_decimal};
ghost use Rattle.bridge_auction.specs.Spelling.{bid_text, doubling_text};
ghost use Rattle.session_rules.specs.declared.outcome.Outcome.TheVariants.{Adjusted};
ghost use Rattle.bridge_results.specs.PlayCells.{contract_cell, declarer_cell, tricks_cell, lead_cell, award_cell, score_cell, gain_text, gain_cell, result_score, line_score};

use crate::compare::Comparison;
use arrayvec::ArrayString;
use bridge_auction::{Contract, doubling_text, print_bid};
use bridge_cards::{Card, Scoring, seat_text};
use bridge_ranking::PlayResult;
use line_text::{NumberText, number_text, signed_text, tenths_text};
use session_rules::{Average, Outcome};

/// The text of a cell.
pub type CellText = ArrayString<22>;

/// The bid and its doubling, as `4HXX`.
pub fn bid_cell(contract: &Contract) -> CellText
    ensures text { result.bytes ≡ bid_text contract.now.bid ++ doubling_text contract.now.doubling }
    ensures short { length result.bytes ≤ 22 }
{
    let mut text = CellText::new();
    print_bid(contract.bid, &mut text);
    text.push_str(doubling_text(contract.doubling));
    text
}

/// The same of an assigned score, with a mark.
fn assigned_cell(contract: &Contract) -> CellText
    ensures text { result.bytes ≡ (bid_text contract.now.bid ++ doubling_text contract.now.doubling) ++ codes "*" }
    ensures short { length result.bytes ≤ 22 }
{
    let mut text = bid_cell(contract);
    text.push_str("*");
    text
}

/// A word as a cell.
fn word_cell(word: &str) -> CellText
    requires { length word.now ≤ 22 }
    ensures { result.bytes ≡ word.now }
{
    let mut text = CellText::new();
    text.push_str(word);
    text
}

/// The contract of a play, or what else came of it.
pub fn contract_cell(outcome: Outcome) -> CellText
    ensures text { result.bytes ≡ contract_cell outcome }
    ensures short { length result.bytes ≤ 22 }
{
    match outcome {
        Outcome::Unfinished => word_cell(""),
        Outcome::PassedOut => word_cell("Pass"),
        Outcome::Played { contract, .. } => bid_cell(&contract),
        Outcome::Voided => word_cell("Void"),
        Outcome::Adjusted { .. } => word_cell("Adjusted"),
        Outcome::Assigned { contract, .. } => assigned_cell(&contract),
    }
}

/// The declarer of a play, as the seat's letter.
pub fn declarer_cell(outcome: Outcome) -> &'static str
    ensures text { result.now ≡ declarer_cell outcome }
    ensures short { length result.now ≤ 1 }
{
    match outcome {
        Outcome::Played { contract, .. } => seat_text(contract.declarer),
        Outcome::Assigned { contract, .. } => seat_text(contract.declarer),
        _ => "",
    }
}

/// Declarer's tricks.
pub fn tricks_cell(outcome: Outcome) -> NumberText
    ensures text { result.bytes ≡ tricks_cell outcome }
    ensures short { length result.bytes ≤ 22 }
{
    match outcome {
        Outcome::Played { tricks, .. } => number_text(u32::from(tricks)),
        Outcome::Assigned { tricks, .. } => number_text(u32::from(tricks)),
        _ => NumberText::new(),
    }
}

/// The opening lead.
pub fn lead_cell(lead: Option<Card>) -> CellText
    ensures text { result.bytes ≡ lead_cell lead }
    ensures short { length result.bytes ≤ 22 }
{
    let mut text = CellText::new();
    if let Some(card) = lead {
        text.push(char::from(card.suit().letter()));
        text.push(char::from(card.rank().letter()));
    }
    text
}

/// The averages of North and South and of East and West, as `60/40%`.
fn averages_cell(ns: Average, ew: Average) -> CellText
    ensures { result.bytes ≡ award_cell (Adjusted ns ew) }
{
    let mut text = CellText::new();
    text.push_str(number_text(u32::from(ns.percent())).as_str());
    text.push_str("/");
    text.push_str(number_text(u32::from(ew.percent())).as_str());
    text.push_str("%");
    text
}

/// What the director awarded in place of a score.
fn award_cell(outcome: Outcome) -> CellText
    ensures { result.bytes ≡ award_cell outcome }
{
    match outcome {
        Outcome::Adjusted { ns, ew } => averages_cell(ns, ew),
        _ => CellText::new(),
    }
}

/// A number as a cell.
fn signed_cell(number: i32) -> CellText
    ensures { result.bytes ≡ signed_decimal number }
{
    let mut text = CellText::new();
    text.push_str(signed_text(i64::from(number)).as_str());
    text
}

/// The score, or what the director awarded in place of one.
pub fn score_cell(outcome: Outcome, score: Option<i32>) -> CellText
    ensures text { result.bytes ≡ score_cell outcome score }
    ensures short { length result.bytes ≤ 22 }
{
    match score {
        Some(score) => signed_cell(score),
        None => award_cell(outcome),
    }
}

/// What was gained: matchpoints with one decimal, or IMPs.
pub fn gain_text(scoring: Scoring, gain: i64) -> NumberText
    ensures text { result.bytes ≡ gain_text scoring gain }
    ensures short { length result.bytes ≤ 22 }
{
    match scoring {
        Scoring::MatchPoints => tenths_text(gain.unsigned_abs()),
        Scoring::Imps => signed_text(gain),
    }
}

/// What was gained, if anything can be.
pub fn gain_cell(scoring: Scoring, gain: Option<i32>) -> NumberText
    ensures text { result.bytes ≡ gain_cell scoring gain }
    ensures short { length result.bytes ≤ 22 }
{
    match gain {
        Some(gain) => gain_text(scoring, i64::from(gain)),
        None => NumberText::new(),
    }
}

/// The score of North and South, which averages have not.
fn result_score(by: PlayResult) -> Option<i32>
    ensures { result ≡ result_score by }
{
    match by {
        PlayResult::Score(score) => Some(score),
        PlayResult::Averages { .. } => None,
    }
}

/// The score of North and South in a line of a traveller.
pub fn line_score(comparison: Option<Comparison>) -> Option<i32>
    ensures { result ≡ line_score comparison }
{
    result_score(comparison?.result)
}
