//! What came of a play.
ghost use Rattle.std.specs.Prelude.{◌≡◌, ◌∷◌, ◌++◌, [], OnOk, Some, codes};
ghost use Rattle.session_rules.specs.Outcome.{HasFewTricks};
ghost use Rattle.line_replies.specs.ReplyTexts.{each_spaced};
ghost use Rattle.line_replies.specs.TableWords.{contract_words};
ghost use Rattle.board_replies.specs.PlayLines.{score_on, score_words, played_words, average_words, result_by, result_line};

use crate::text::{push_end, push_number, push_signed, push_str, push_word};
use arrayvec::ArrayString;
use bridge_auction::{Contract, doubling_text, print_bid};
use bridge_cards::{BoardNumber, seat_text};
use bridge_ranking::PlayResult;
use bridge_ranking::game::result_of;
use session_rules::{Average, Outcome};
use std::alloc::AllocError;

/// The score of North and South on a board, where what came of it has one.
fn score_on(board: BoardNumber, outcome: &Outcome) -> Option<i32>
    requires { HasFewTricks outcome.now }
    ensures { result ≡ score_on board outcome.now }
{
    match result_of(board, *outcome) {
        Some(PlayResult::Score(score)) => Some(score),
        _ => None,
    }
}

/// Adds a score, if there is one.
fn push_score(text: &mut Vec<u8>, score: Option<i32>) -> Result<(), AllocError>
    ensures { OnOk result (text.new.items ≡ text.old.items ++ each_spaced (score_words score)) }
{
    match score {
        Some(score) => push_signed(text, score),
        None => Ok(()),
    }
}

/// Adds the bid with its doubling, and declarer.
fn push_contract(text: &mut Vec<u8>, contract: Contract) -> Result<(), AllocError>
    ensures { OnOk result (text.new.items ≡ text.old.items ++ each_spaced (contract_words (Some contract))) }
{
    let mut word = ArrayString::<5>::new();
    print_bid(contract.bid, &mut word);
    word.push_str(doubling_text(contract.doubling));
    push_word(text, word.as_str())?;
    push_word(text, seat_text(contract.declarer))
}

/// Adds the contract, declarer's tricks and the score.
fn push_played(
    text: &mut Vec<u8>,
    contract: Contract,
    tricks: u8,
    score: Option<i32>,
) -> Result<(), AllocError>
    ensures { OnOk result (text.new.items ≡ text.old.items ++ each_spaced (played_words contract tricks score)) }
{
    push_contract(text, contract)?;
    push_number(text, tricks)?;
    push_score(text, score)
}

/// Adds the averages of North and South, and of East and West, in per cent.
pub(crate) fn push_averages(text: &mut Vec<u8>, ns: Average, ew: Average) -> Result<(), AllocError>
    ensures { OnOk result (text.new.items ≡ text.old.items ++ each_spaced (average_words ns ew)) }
{
    push_word(text, "AVERAGE")?;
    push_number(text, ns.percent())?;
    push_number(text, ew.percent())
}

/// Adds that a board was passed out, and the score.
fn push_passed(text: &mut Vec<u8>, score: Option<i32>) -> Result<(), AllocError>
    ensures { OnOk result (text.new.items ≡ text.old.items ++ each_spaced (codes "PASS" ∷ score_words score)) }
{
    push_word(text, "PASS")?;
    push_score(text, score)
}

/// Adds an assigned score: the contract, declarer's tricks and the score.
pub(crate) fn push_assigned(
    text: &mut Vec<u8>,
    contract: Contract,
    tricks: u8,
    score: Option<i32>,
) -> Result<(), AllocError>
    ensures { OnOk result (text.new.items ≡ text.old.items ++ each_spaced (codes "ASSIGNED" ∷ played_words contract tricks score)) }
{
    push_word(text, "ASSIGNED")?;
    push_played(text, contract, tricks, score)
}

/// Adds what came of a play with that score of North and South.
pub(crate) fn push_result(
    text: &mut Vec<u8>,
    outcome: Outcome,
    score: Option<i32>,
) -> Result<(), AllocError>
    ensures { OnOk result (text.new.items ≡ text.old.items ++ each_spaced (result_by outcome score)) }
{
    match outcome {
        Outcome::Unfinished => push_word(text, "-"),
        Outcome::PassedOut => push_passed(text, score),
        Outcome::Played { contract, tricks } => push_played(text, contract, tricks, score),
        Outcome::Voided => push_word(text, "VOID"),
        Outcome::Adjusted { ns, ew } => push_averages(text, ns, ew),
        Outcome::Assigned { contract, tricks } => push_assigned(text, contract, tricks, score),
    }
}

/// Adds the line of what came of a play of a board.
pub(crate) fn push_result_line(
    text: &mut Vec<u8>,
    board: BoardNumber,
    outcome: Outcome,
) -> Result<(), AllocError>
    requires { HasFewTricks outcome }
    ensures { OnOk result (text.new.items ≡ text.old.items ++ (result_line board outcome ++ 10 ∷ [])) }
{
    let score = score_on(board, &outcome);
    push_str(text, "RESULT")?;
    push_result(text, outcome, score)?;
    push_end(text)
}
