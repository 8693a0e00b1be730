//! The Auction section of a game.
ghost use Rattle.std.specs.Prelude.{◌≡◌, ◌+◌, ◌*◌, ◌/◌, ◌≤◌, ◌∷◌, ◌++◌, [], if◌then◌else◌, codes, length, map};
ghost use Rattle.std.specs.List.{range_with_len};
ghost use Rattle.arrayvec.specs.ArrayString.{array_string_len};
ghost use Rattle.line_text.specs.Lines.{lines_text};
ghost use Rattle.line_text.specs.Words.{spaced};
ghost use Rattle.bridge_pbn.specs.Sections.{call_word, calls_line, auction_lines};

use crate::text::{GAME_BYTES, GameText, TAG_BYTES, push_tag};
use bridge_auction::{Call, print_bid};
use bridge_cards::{Seat, seat_text};

/// The room for a call and the space before it.
pub const CALL_BYTES: usize = 5;

/// The room for a line of four calls.
pub const CALLS_LINE_BYTES: usize = 21;

/// The room for an Auction section: that of its tag pair and of 80 lines, for the longest auction has 319 calls.
pub const AUCTION_BYTES: usize = TAG_BYTES + 80 * CALLS_LINE_BYTES;

/// Adds a call, as `Pass`, `X`, `XX` or `1NT`.
fn push_call(text: &mut GameText, call: Call)
    requires { array_string_len text.old + 4 ≤ GAME_BYTES }
    ensures text { text.new.bytes ≡ text.old.bytes ++ call_word call }
    ensures room { array_string_len text.new ≤ array_string_len text.old + 4 }
{
    match call {
        Call::Pass => text.push_str("Pass"),
        Call::Bid(bid) => print_bid(bid, text),
        Call::Double => text.push_str("X"),
        Call::Redouble => text.push_str("XX"),
    }
}

/// Adds a call of a line, after a space if it is not the first.
fn push_next_call(text: &mut GameText, first: bool, call: Call)
    requires { array_string_len text.old + CALL_BYTES ≤ GAME_BYTES }
    ensures text { text.new.bytes ≡ (text.old.bytes ++ (if first then [] else codes " ")) ++ call_word call }
    ensures room { array_string_len text.new ≤ array_string_len text.old + CALL_BYTES }
{
    text.push_str(if first { "" } else { " " });
    push_call(text, call);
}

/// Adds the calls with single spaces between.
fn push_calls(text: &mut GameText, calls: &[Call])
    requires few { length calls.now ≤ 4 }
    requires room { array_string_len text.old + CALL_BYTES * 4 ≤ GAME_BYTES }
    ensures text { text.new.bytes ≡ text.old.bytes ++ spaced (map call_word calls.now) }
    ensures room { array_string_len text.new ≤ array_string_len text.old + CALL_BYTES * length calls.now }
{
    for index in 0..calls.len() {
        push_next_call(text, index == 0, calls[index]);
    }
}

/// Adds a line of calls, the lines counted from 0: four, or what is left.
fn push_line(text: &mut GameText, calls: &[Call], line: usize)
    requires some { 4 * line ≤ length calls.now }
    requires few { length calls.now ≤ 319 }
    requires room { array_string_len text.old + CALLS_LINE_BYTES ≤ GAME_BYTES }
    ensures line { text.new.bytes ≡ text.old.bytes ++ (calls_line calls.now line ++ 10 ∷ []) }
    ensures room { array_string_len text.new ≤ array_string_len text.old + CALLS_LINE_BYTES }
{
    let (_, rest) = calls.split_at(4 * line);
    let count = rest.len().min(4);
    push_calls(text, &rest[..count]);
    text.push_str("\n");
}

/// Adds the lines of calls.
fn push_lines(text: &mut GameText, calls: &[Call])
    requires few { length calls.now ≤ 319 }
    requires room { array_string_len text.old + 80 * CALLS_LINE_BYTES ≤ GAME_BYTES }
    ensures lines { text.new.bytes ≡ text.old.bytes ++ lines_text (map (calls_line calls.now) (range_with_len 0 ((length calls.now + 3) / 4))) }
    ensures room { array_string_len text.new ≤ array_string_len text.old + 80 * CALLS_LINE_BYTES }
{
    for line in 0..(calls.len() + 3) / 4 {
        push_line(text, calls, line);
    }
}

/// Adds the Auction section: the dealer, and the calls, four a line.
pub fn push_auction(text: &mut GameText, dealer: Seat, calls: &[Call])
    requires few { length calls.now ≤ 319 }
    requires room { array_string_len text.old + AUCTION_BYTES ≤ GAME_BYTES }
    ensures lines { text.new.bytes ≡ text.old.bytes ++ lines_text (auction_lines dealer calls.now) }
    ensures room { array_string_len text.new ≤ array_string_len text.old + AUCTION_BYTES }
{
    push_tag(text, "Auction", seat_text(dealer));
    push_lines(text, calls);
}
