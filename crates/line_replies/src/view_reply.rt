//! The reply to a player's question for the view.
ghost use Rattle.std.specs.Prelude.{◌≡◌, ◌+◌, ◌*◌, ◌≤◌, ◌∷◌, ◌++◌, [], codes, length, map};
ghost use Rattle.std.specs.Fmt.{decimal};
ghost use Rattle.arrayvec.specs.ArrayString.{array_string_len};
ghost use Rattle.bridge_cards.specs.Card.{card_text};
ghost use Rattle.bridge_cards.specs.DealText.{hand_text};
ghost use Rattle.bridge_auction.specs.Spelling.{call_text};
ghost use Rattle.line_replies.specs.ReplyTexts.{spaced_line, each_spaced};
ghost use Rattle.line_replies.specs.ViewText.{seat_word, phase_text, hand_or_dash, trick_words, claim_words, play_line, dealer_line, at_line, view_text};

use crate::reply_text::{REPLY_BYTES, ReplyText, push_number, push_word};
use bridge_auction::{Call, print_bid};
use bridge_cards::{Card, CardSet, Seat, print_hand, seat_text, vulnerability_text};
use session_rules::{Trick, View};

/// `PLAY` once there is a contract, and before `AUCTION`.
pub fn phase_text(in_play: bool) -> &'static str
    ensures text { result.now ≡ phase_text in_play }
    ensures short { length result.now ≤ 7 }
{
    if in_play { "PLAY" } else { "AUCTION" }
}

/// Adds the round, the table, the board's place in its set and the board.
fn push_play_line(text: &mut ReplyText, view: &View<'_>)
    requires { array_string_len text.old + 49 ≤ REPLY_BYTES }
    ensures line { text.new.bytes ≡ text.old.bytes ++ (play_line view.now ++ 10 ∷ []) }
    ensures room { array_string_len text.new ≤ array_string_len text.old + 49 }
{
    text.push_str("PLAY");
    push_number(text, u32::from(view.play.round.number()));
    push_number(text, u32::from(view.play.table.number()));
    push_number(text, u32::from(view.play.index.number()));
    push_number(text, u32::from(view.board.number()));
    text.push_str("\n");
}

/// Adds a line of a first word and a seat.
fn push_seat_line(text: &mut ReplyText, first: &str, seat: Seat)
    requires first { length first.now ≤ 6 }
    requires room { array_string_len text.old + 9 ≤ REPLY_BYTES }
    ensures line { text.new.bytes ≡ text.old.bytes ++ (spaced_line first.now (seat_word seat ∷ []) ++ 10 ∷ []) }
    ensures room { array_string_len text.new ≤ array_string_len text.old + 9 }
{
    text.push_str(first);
    push_word(text, seat_text(seat));
    text.push_str("\n");
}

/// Adds the dealer and the vulnerability.
fn push_dealer_line(text: &mut ReplyText, view: &View<'_>)
    requires { array_string_len text.old + 18 ≤ REPLY_BYTES }
    ensures line { text.new.bytes ≡ text.old.bytes ++ (dealer_line view.now ++ 10 ∷ []) }
    ensures room { array_string_len text.new ≤ array_string_len text.old + 18 }
{
    text.push_str("DEALER");
    push_word(text, seat_text(view.dealer));
    push_word(text, "VUL");
    push_word(text, vulnerability_text(view.vulnerability));
    text.push_str("\n");
}

/// Adds whether there is a contract.
fn push_phase_line(text: &mut ReplyText, in_play: bool)
    requires { array_string_len text.old + 14 ≤ REPLY_BYTES }
    ensures line { text.new.bytes ≡ text.old.bytes ++ (spaced_line (codes "PHASE") (phase_text in_play ∷ []) ++ 10 ∷ []) }
    ensures room { array_string_len text.new ≤ array_string_len text.old + 14 }
{
    text.push_str("PHASE");
    push_word(text, phase_text(in_play));
    text.push_str("\n");
}

/// Adds how many calls, cards and claims were made.
fn push_at_line(text: &mut ReplyText, view: &View<'_>)
    requires { array_string_len text.old + 36 ≤ REPLY_BYTES }
    ensures line { text.new.bytes ≡ text.old.bytes ++ (at_line view.now ++ 10 ∷ []) }
    ensures room { array_string_len text.new ≤ array_string_len text.old + 36 }
{
    text.push_str("AT");
    push_number(text, u32::from(view.calls_made));
    push_number(text, u32::from(view.cards_made));
    push_number(text, u32::from(view.claims_made));
    text.push_str("\n");
}

/// Adds the viewer's cards.
fn push_hand_line(text: &mut ReplyText, hand: CardSet)
    requires { array_string_len text.old + 61 ≤ REPLY_BYTES }
    ensures line { text.new.bytes ≡ text.old.bytes ++ (spaced_line (codes "HAND") (hand_text hand ∷ []) ++ 10 ∷ []) }
    ensures room { array_string_len text.new ≤ array_string_len text.old + 61 }
{
    text.push_str("HAND ");
    print_hand(hand, text);
    text.push_str("\n");
}

/// Adds dummy's cards, or `-` where they are not shown.
fn push_dummy_line(text: &mut ReplyText, dummy: Option<CardSet>)
    requires { array_string_len text.old + 62 ≤ REPLY_BYTES }
    ensures line { text.new.bytes ≡ text.old.bytes ++ (spaced_line (codes "DUMMY") (hand_or_dash dummy ∷ []) ++ 10 ∷ []) }
    ensures room { array_string_len text.new ≤ array_string_len text.old + 62 }
{
    text.push_str("DUMMY ");
    match dummy {
        Some(hand) => print_hand(hand, text),
        None => text.push_str("-"),
    }
    text.push_str("\n");
}

/// Adds a space and a call.
fn push_call(text: &mut ReplyText, call: Call)
    requires { array_string_len text.old + 5 ≤ REPLY_BYTES }
    ensures text { text.new.bytes ≡ text.old.bytes ++ 32 ∷ call_text call }
    ensures room { array_string_len text.new ≤ array_string_len text.old + 5 }
{
    match call {
        Call::Pass => text.push_str(" PASS"),
        Call::Bid(bid) => {
            text.push_str(" ");
            print_bid(bid, text);
        }
        Call::Double => text.push_str(" X"),
        Call::Redouble => text.push_str(" XX"),
    }
}

/// Adds all calls.
fn push_calls(text: &mut ReplyText, calls: &[Call])
    requires few { length calls.now ≤ 319 }
    requires room { array_string_len text.old + 5 * 319 ≤ REPLY_BYTES }
    ensures text { text.new.bytes ≡ text.old.bytes ++ each_spaced (map call_text calls.now) }
    ensures room { array_string_len text.new ≤ array_string_len text.old + 5 * 319 }
{
    for call in calls {
        push_call(text, *call);
    }
}

/// Adds the line of all calls.
fn push_calls_line(text: &mut ReplyText, calls: &[Call])
    requires few { length calls.now ≤ 319 }
    requires room { array_string_len text.old + 1601 ≤ REPLY_BYTES }
    ensures line { text.new.bytes ≡ text.old.bytes ++ (spaced_line (codes "CALLS") (map call_text calls.now) ++ 10 ∷ []) }
    ensures room { array_string_len text.new ≤ array_string_len text.old + 1601 }
{
    text.push_str("CALLS");
    push_calls(text, calls);
    text.push_str("\n");
}

/// Adds a space and a card.
fn push_card(text: &mut ReplyText, card: Card)
    requires { array_string_len text.old + 3 ≤ REPLY_BYTES }
    ensures text { text.new.bytes ≡ text.old.bytes ++ 32 ∷ card_text card }
    ensures room { array_string_len text.new ≤ array_string_len text.old + 3 }
{
    text.push_str(" ");
    text.push(char::from(card.suit().letter()));
    text.push(char::from(card.rank().letter()));
}

/// Adds the cards of a trick.
fn push_cards(text: &mut ReplyText, cards: &[Card])
    requires few { length cards.now ≤ 4 }
    requires room { array_string_len text.old + 3 * 4 ≤ REPLY_BYTES }
    ensures text { text.new.bytes ≡ text.old.bytes ++ each_spaced (map card_text cards.now) }
    ensures room { array_string_len text.new ≤ array_string_len text.old + 3 * 4 }
{
    for card in cards {
        push_card(text, *card);
    }
}

/// Adds a trick, or `-` where there is none, after the line's first word.
fn push_trick(text: &mut ReplyText, trick: &Option<Trick>)
    requires { array_string_len text.old + 14 ≤ REPLY_BYTES }
    ensures text { text.new.bytes ≡ text.old.bytes ++ each_spaced (trick_words trick.now) }
    ensures room { array_string_len text.new ≤ array_string_len text.old + 14 }
{
    match trick {
        Some(trick) => {
            push_word(text, seat_text(trick.leader));
            push_cards(text, trick.cards.as_slice());
        }
        None => text.push_str(" -"),
    }
}

/// Adds the line of a trick.
fn push_trick_line(text: &mut ReplyText, first: &str, trick: &Option<Trick>)
    requires first { length first.now ≤ 5 }
    requires room { array_string_len text.old + 20 ≤ REPLY_BYTES }
    ensures line { text.new.bytes ≡ text.old.bytes ++ (spaced_line first.now (trick_words trick.now) ++ 10 ∷ []) }
    ensures room { array_string_len text.new ≤ array_string_len text.old + 20 }
{
    text.push_str(first);
    push_trick(text, trick);
    text.push_str("\n");
}

/// Adds the whole tricks of both sides.
fn push_tricks_line(text: &mut ReplyText, ns: u8, ew: u8)
    requires { array_string_len text.old + 29 ≤ REPLY_BYTES }
    ensures line { text.new.bytes ≡ text.old.bytes ++ (spaced_line (codes "TRICKS") (decimal ns ∷ decimal ew ∷ []) ++ 10 ∷ []) }
    ensures room { array_string_len text.new ≤ array_string_len text.old + 29 }
{
    text.push_str("TRICKS");
    push_number(text, u32::from(ns));
    push_number(text, u32::from(ew));
    text.push_str("\n");
}

/// Adds the claim, or `-`, after the line's first word.
fn push_claim(text: &mut ReplyText, claim: Option<(Seat, u8)>)
    requires { array_string_len text.old + 13 ≤ REPLY_BYTES }
    ensures text { text.new.bytes ≡ text.old.bytes ++ each_spaced (claim_words claim) }
    ensures room { array_string_len text.new ≤ array_string_len text.old + 13 }
{
    match claim {
        Some((claimer, tricks)) => {
            push_word(text, seat_text(claimer));
            push_number(text, u32::from(tricks));
        }
        None => text.push_str(" -"),
    }
}

/// Adds the line of the claim.
fn push_claim_line(text: &mut ReplyText, claim: Option<(Seat, u8)>)
    requires { array_string_len text.old + 19 ≤ REPLY_BYTES }
    ensures line { text.new.bytes ≡ text.old.bytes ++ (spaced_line (codes "CLAIM") (claim_words claim) ++ 10 ∷ []) }
    ensures room { array_string_len text.new ≤ array_string_len text.old + 19 }
{
    text.push_str("CLAIM");
    push_claim(text, claim);
    text.push_str("\n");
}

/// Adds the reply to a player's question for the view: `OK`, thirteen lines, and a full stop. A view has 319 calls at most.
pub fn push_view(text: &mut ReplyText, view: &View<'_>)
    requires few { length view.now.calls.now ≤ 319 }
    requires empty { text.old.bytes ≡ [] }
    ensures { text.new.bytes ≡ view_text view.now }
{
    text.push_str("OK\n");
    push_play_line(text, view);
    push_seat_line(text, "SEAT", view.seat);
    push_dealer_line(text, view);
    push_phase_line(text, view.in_play);
    push_seat_line(text, "TURN", view.turn);
    push_at_line(text, view);
    push_hand_line(text, view.hand);
    push_dummy_line(text, view.dummy);
    push_calls_line(text, view.calls);
    push_trick_line(text, "TRICK", &view.trick);
    push_trick_line(text, "LAST", &view.last);
    push_tricks_line(text, view.tricks_ns, view.tricks_ew);
    push_claim_line(text, view.claim);
    text.push_str(".\n");
}
