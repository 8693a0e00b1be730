//! What stands in the cells about a play in HTML, as players write it.
ghost use Rattle.std.specs.Prelude.{◌≡◌, ◌+◌, ◌≤◌, ◌<◌, ◌++◌, codes, length};
ghost use Rattle.std.specs.Fmt.{decimal};
ghost use Rattle.bridge_auction.specs.Level.{IsLevel};
ghost use Rattle.bridge_auction.specs.Spelling.{bid_text};
ghost use Rattle.bridge_results.specs.HtmlCells.{doubled_marks, tricks_beside, made_cell, result_cell, shown_letter, card_cell, perhaps_card, gain_share, percent_cell};

use crate::pages::cells::{CellText, contract_cell};
use arrayvec::ArrayString;
use bridge_auction::{Contract, Doubling, print_bid};
use bridge_cards::Card;
use bridge_score::{Ranked, share_percent};
use line_text::{NumberText, number_text, percent_text};
use session_rules::Outcome;

/// What stands behind a bid that was doubled or redoubled.
fn doubled_marks(doubling: Doubling) -> &'static str
    ensures text { result.now ≡ doubled_marks doubling }
    ensures short { length result.now ≤ 2 }
{
    match doubling {
        Doubling::Undoubled => "",
        Doubling::Doubled => "x",
        Doubling::Redoubled => "xx",
    }
}

/// A sign, and how many tricks.
fn signed_tricks(sign: &str, tricks: u8) -> ArrayString<12>
    requires { length sign.now ≤ 1 }
    ensures text { result.bytes ≡ sign.now ++ decimal tricks }
    ensures short { length result.bytes ≤ 12 }
{
    let mut text = ArrayString::new();
    text.push_str(sign);
    text.push_str(number_text(u32::from(tricks)).as_str());
    text
}

/// Declarer's tricks beside those that a contract of a level needs: `=` as many, or how many more or less.
fn tricks_beside(level: u8, tricks: u8) -> ArrayString<12>
    requires { IsLevel level }
    ensures text { result.bytes ≡ tricks_beside level tricks }
    ensures short { length result.bytes ≤ 12 }
{
    let needed = level + 6;
    if tricks == needed {
        let mut text = ArrayString::new();
        text.push_str("=");
        text
    } else if tricks < needed {
        signed_tricks("-", needed - tricks)
    } else {
        signed_tricks("+", tricks - needed)
    }
}

/// A bid and its doubling, as `4Sx`.
pub fn doubled_bid(contract: &Contract) -> CellText
    ensures text { result.bytes ≡ bid_text contract.now.bid ++ doubled_marks contract.now.doubling }
    ensures short { length result.bytes ≤ 5 }
{
    let mut text = CellText::new();
    print_bid(contract.bid, &mut text);
    text.push_str(doubled_marks(contract.doubling));
    text
}

/// A contract and what came of it, as `4Sx-2`.
fn made_cell(contract: &Contract, tricks: u8) -> CellText
    ensures text { result.bytes ≡ made_cell contract.now tricks }
    ensures short { length result.bytes ≤ 17 }
{
    let mut text = doubled_bid(contract);
    text.push_str(tricks_beside(contract.bid.level.number(), tricks).as_str());
    text
}

/// The same of an assigned score, with a mark.
fn assigned_cell(contract: &Contract, tricks: u8) -> CellText
    ensures text { result.bytes ≡ made_cell contract.now tricks ++ codes "*" }
    ensures short { length result.bytes ≤ 22 }
{
    let mut text = made_cell(contract, tricks);
    text.push_str("*");
    text
}

/// The contract of a play and what came of it, or what else came of the play.
pub fn result_cell(outcome: Outcome) -> CellText
    ensures text { result.bytes ≡ result_cell outcome }
    ensures short { length result.bytes ≤ 22 }
{
    match outcome {
        Outcome::Played { contract, tricks } => made_cell(&contract, tricks),
        Outcome::Assigned { contract, tricks } => assigned_cell(&contract, tricks),
        other => contract_cell(other),
    }
}

/// The letter of a rank, and 10 for a ten.
pub fn shown_letter(letter: u8) -> ArrayString<2>
    requires { letter < 128 }
    ensures text { result.bytes ≡ shown_letter letter }
    ensures short { length result.bytes ≤ 2 }
{
    let mut text = ArrayString::new();
    if letter == b'T' {
        text.push_str("10");
    } else {
        text.push(char::from(letter));
    }
    text
}

/// A card, as `H10`.
fn card_cell(card: Card) -> CellText
    ensures text { result.bytes ≡ card_cell card }
    ensures short { length result.bytes ≤ 22 }
{
    let mut text = CellText::new();
    text.push(char::from(card.suit().letter()));
    text.push_str(shown_letter(card.rank().letter()).as_str());
    text
}

/// A card, if there is one.
pub fn perhaps_card(card: Option<Card>) -> CellText
    ensures text { result.bytes ≡ perhaps_card card }
    ensures short { length result.bytes ≤ 22 }
{
    match card {
        Some(card) => card_cell(card),
        None => CellText::new(),
    }
}

/// Which share of what was available was gained.
fn gain_share(gain: i32, available: u32) -> Option<u32>
    ensures { result ≡ gain_share gain available }
{
    share_percent(&Ranked {
        pair: 0,
        place: 0,
        value: gain,
        available,
    })
}

/// The same in per cent, where there is a gain, as a void play has none.
pub fn percent_cell(gain: Option<i32>, available: u32) -> NumberText
    ensures text { result.bytes ≡ percent_cell gain available }
    ensures short { length result.bytes ≤ 13 }
{
    match gain {
        Some(gain) => percent_text(gain_share(gain, available)),
        None => NumberText::new(),
    }
}
