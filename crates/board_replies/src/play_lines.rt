//! The lines about one play.
ghost use Rattle.std.specs.Prelude.{◌≡◌, ◌∷◌, ◌++◌, [], OnOk, codes, map, option_and_then};
ghost use Rattle.std.specs.Option.{option_copied};
ghost use Rattle.bridge_cards.specs.Card.{card_text};
ghost use Rattle.bridge_auction.specs.Spelling.{call_text};
ghost use Rattle.bridge_config.specs.ConfigValue.{configuration_of};
ghost use Rattle.line_text.specs.Lines.{lines_text};
ghost use Rattle.line_replies.specs.ReplyTexts.{each_spaced, spaced_line};
ghost use Rattle.board_replies.specs.PlayLines.{side_word, board_line, names_line, deal_word, led_words, cards_words, claim_told, claim_words, play_lines};
ghost use Rattle.board_replies.specs.KnownPlay.{seen_play};
ghost use Rattle.session_rules.specs.Outcome.{HasFewTricks};

use crate::known_play::KnownPlay;
use crate::result_line::push_result_line;
use crate::text::{push_end, push_number, push_str, push_word};
use arrayvec::ArrayString;
use bridge_auction::{Call, print_bid};
use bridge_cards::{BoardNumber, Card, DEAL_BYTES, Deal, Seat, Side, print_deal, seat_text};
use bridge_config::{ConfigFields, player_name};
use bridge_movement::Row;
use bridge_play::{Claim, Play};
use std::alloc::AllocError;

/// The side of the pair that is told, or `-` for the director.
fn side_word(side: Option<Side>) -> &'static str
    ensures { result.now ≡ side_word side }
{
    match side {
        Some(Side::NorthSouth) => "NS",
        Some(Side::EastWest) => "EW",
        None => "-",
    }
}

/// Adds the line of the board, the round, the table, the index in the set, and the side.
fn push_board_line(
    text: &mut Vec<u8>,
    row: Row,
    index: u8,
    side: Option<Side>,
    board: BoardNumber,
) -> Result<(), AllocError>
    ensures { OnOk result (text.new.items ≡ text.old.items ++ (board_line row index side board ++ 10 ∷ [])) }
{
    push_str(text, "BOARD")?;
    push_number(text, board.number())?;
    push_number(text, row.round)?;
    push_number(text, row.table)?;
    push_number(text, index)?;
    push_word(text, side_word(side))?;
    push_end(text)
}

/// Adds the line of the names in North, East, South and West.
fn push_names_line(text: &mut Vec<u8>, fields: &ConfigFields, row: Row) -> Result<(), AllocError>
    ensures { OnOk result (text.new.items ≡ text.old.items ++ (names_line (configuration_of fields.now) row ++ 10 ∷ [])) }
{
    push_str(text, "NAMES")?;
    push_word(text, player_name(&fields.pairs, row.ns, true))?;
    push_word(text, player_name(&fields.pairs, row.ew, true))?;
    push_word(text, player_name(&fields.pairs, row.ns, false))?;
    push_word(text, player_name(&fields.pairs, row.ew, false))?;
    push_end(text)
}

/// Adds the hands, North's first, or `-`.
fn push_deal(text: &mut Vec<u8>, deal: Option<&Deal>) -> Result<(), AllocError>
    ensures { OnOk result (text.new.items ≡ text.old.items ++ 32 ∷ deal_word (option_copied deal.entry)) }
{
    match deal {
        Some(deal) => {
            let mut hands = ArrayString::<DEAL_BYTES>::new();
            print_deal(deal, Seat::North, &mut hands);
            push_word(text, hands.as_str())
        }
        None => push_word(text, "-"),
    }
}

/// Adds the line of the hands.
fn push_deal_line(text: &mut Vec<u8>, deal: Option<&Deal>) -> Result<(), AllocError>
    ensures { OnOk result (text.new.items ≡ text.old.items ++ (spaced_line (codes "DEAL") (deal_word (option_copied deal.entry) ∷ []) ++ 10 ∷ [])) }
{
    push_str(text, "DEAL")?;
    push_deal(text, deal)?;
    push_end(text)
}

/// Adds a call.
fn push_call(text: &mut Vec<u8>, call: Call) -> Result<(), AllocError>
    ensures { OnOk result (text.new.items ≡ text.old.items ++ 32 ∷ call_text call) }
{
    match call {
        Call::Pass => push_word(text, "PASS"),
        Call::Bid(bid) => {
            let mut word = ArrayString::<3>::new();
            print_bid(bid, &mut word);
            push_word(text, word.as_str())
        }
        Call::Double => push_word(text, "X"),
        Call::Redouble => push_word(text, "XX"),
    }
}

/// Adds all calls.
fn push_calls(text: &mut Vec<u8>, calls: &[Call]) -> Result<(), AllocError>
    ensures { OnOk result (text.new.items ≡ text.old.items ++ each_spaced (map call_text calls.now)) }
{
    for call in calls {
        push_call(text, *call)?;
    }
    Ok(())
}

/// Adds the line of all calls.
fn push_calls_line(text: &mut Vec<u8>, calls: &[Call]) -> Result<(), AllocError>
    ensures { OnOk result (text.new.items ≡ text.old.items ++ (spaced_line (codes "CALLS") (map call_text calls.now) ++ 10 ∷ [])) }
{
    push_str(text, "CALLS")?;
    push_calls(text, calls)?;
    push_end(text)
}

/// Adds a card.
fn push_card(text: &mut Vec<u8>, card: Card) -> Result<(), AllocError>
    ensures { OnOk result (text.new.items ≡ text.old.items ++ 32 ∷ card_text card) }
{
    text.extend_from_slice(&[b' ', card.suit().letter(), card.rank().letter()])
}

/// Adds cards.
fn push_cards(text: &mut Vec<u8>, cards: &[Card]) -> Result<(), AllocError>
    ensures { OnOk result (text.new.items ≡ text.old.items ++ each_spaced (map card_text cards.now)) }
{
    for card in cards {
        push_card(text, *card)?;
    }
    Ok(())
}

/// Adds the opening leader and the cards of a play, or `-`.
fn push_led(text: &mut Vec<u8>, play: &Play) -> Result<(), AllocError>
    ensures { OnOk result (text.new.items ≡ text.old.items ++ each_spaced (led_words play.now.contract play.now.cards)) }
{
    let cards = play.cards();
    if cards.is_empty() {
        return push_word(text, "-");
    }
    push_word(text, seat_text(play.leader(0)))?;
    push_cards(text, cards)
}

/// Adds the same, once there is a contract.
fn push_cards_of(text: &mut Vec<u8>, play: Option<&Play>) -> Result<(), AllocError>
    ensures { OnOk result (text.new.items ≡ text.old.items ++ each_spaced (cards_words (option_copied play.entry))) }
{
    match play {
        Some(play) => push_led(text, play),
        None => push_word(text, "-"),
    }
}

/// Adds the line of the cards.
fn push_cards_line(text: &mut Vec<u8>, play: Option<&Play>) -> Result<(), AllocError>
    ensures { OnOk result (text.new.items ≡ text.old.items ++ (spaced_line (codes "CARDS") (cards_words (option_copied play.entry)) ++ 10 ∷ [])) }
{
    push_str(text, "CARDS")?;
    push_cards_of(text, play)?;
    push_end(text)
}

/// The claim of a play that is told: to the director the one that stands, agreed or not, and to a player the agreed one.
fn claim_of(side: Option<Side>, play: &Play) -> Option<Claim>
    ensures { result ≡ claim_told side play.now }
{
    let claim = play.claim()?;
    if side.is_none() || claim.is_agreed(play.contract()) {
        Some(claim)
    } else {
        None
    }
}

/// The claim that is told, once there is a contract.
fn claim_in(side: Option<Side>, play: Option<&Play>) -> Option<Claim>
    ensures { result ≡ option_and_then (claim_told side) (option_copied play.entry) }
{
    claim_of(side, play?)
}

/// Adds who claims and how many tricks, or `-`.
fn push_claim(text: &mut Vec<u8>, claim: Option<Claim>) -> Result<(), AllocError>
    ensures { OnOk result (text.new.items ≡ text.old.items ++ each_spaced (claim_words claim)) }
{
    match claim {
        Some(claim) => {
            push_word(text, seat_text(claim.claimer))?;
            push_number(text, claim.tricks)
        }
        None => push_word(text, "-"),
    }
}

/// Adds the line of the claim.
fn push_claim_line(
    text: &mut Vec<u8>,
    side: Option<Side>,
    play: Option<&Play>,
) -> Result<(), AllocError>
    ensures { OnOk result (text.new.items ≡ text.old.items ++ (spaced_line (codes "CLAIM") (claim_words (option_and_then (claim_told side) (option_copied play.entry))) ++ 10 ∷ [])) }
{
    push_str(text, "CLAIM")?;
    push_claim(text, claim_in(side, play))?;
    push_end(text)
}

/// Adds the lines of a play in a row.
pub(crate) fn push_play(
    text: &mut Vec<u8>,
    fields: &ConfigFields,
    row: Row,
    index: u8,
    side: Option<Side>,
    known: &KnownPlay<'_>,
) -> Result<(), AllocError>
    requires { HasFewTricks known.now.outcome }
    ensures { OnOk result (text.new.items ≡ text.old.items ++ lines_text (play_lines (configuration_of fields.now) row index side (seen_play known.now))) }
{
    push_board_line(text, row, index, side, known.board)?;
    push_names_line(text, fields, row)?;
    push_deal_line(text, known.deal)?;
    push_calls_line(text, known.auction.calls())?;
    push_cards_line(text, known.play)?;
    push_claim_line(text, side, known.play)?;
    push_result_line(text, known.board, known.outcome)
}
