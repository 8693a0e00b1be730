//! The corrections that lines of the director state.
ghost use Rattle.std.specs.Prelude.{◌≡◌, ◌≤◌, length};
ghost use Rattle.line_text.specs.Words.{spaced_words};
ghost use Rattle.table_server.specs.LineWords.{FoundAs, first_of};
ghost use Rattle.table_server.specs.CorrectionLine.{is_cross, crosses_of, doubling_of, doubled_bid_of, seat_of_word, back_line, undeal_line, assign_line, correction_after, correction_of};

use crate::line_words::{next_key, read_board, read_tricks};
use crate::named_play::{next_play, read_play};
use bridge_auction::{Bid, Call, Contract, Doubling, read_call};
use bridge_cards::Seat;
use bridge_session::Action;
use line_text::{first_word, only_word};

/// A bid, and whether it was doubled.
#[derive(Clone, Copy)]
pub struct DoubledBid {
    /// The bid.
    pub bid: Bid,
    /// Whether it was doubled or redoubled.
    pub doubling: Doubling,
}

/// Whether a letter `X` stands so many places from the end of a word.
fn is_cross(word: &[u8], back: usize) -> bool
    requires { 1 ≤ back }
    ensures { result ≡ is_cross word.now back }
{
    word.len() >= back && word[word.len() - back] == b'X'
}

/// How many letters `X` a word ends with, two at most.
fn crosses_of(word: &[u8]) -> usize
    ensures count { result ≡ crosses_of word.now }
    ensures within { result ≤ length word.now }
{
    if !is_cross(word, 1) {
        0
    } else if is_cross(word, 2) {
        2
    } else {
        1
    }
}

/// The doubling that so many letters `X` say.
fn doubling_of(crosses: usize) -> Doubling
    ensures { result ≡ doubling_of crosses }
{
    match crosses {
        0 => Doubling::Undoubled,
        1 => Doubling::Doubled,
        _ => Doubling::Redoubled,
    }
}

/// A bid, with `X` or `XX` behind it where it is doubled or redoubled, as `4SX`.
fn read_doubled_bid(word: &[u8]) -> Option<DoubledBid>
    ensures { result ≡ doubled_bid_of word.now }
{
    let crosses = crosses_of(word);
    let (bid, _) = word.split_at(word.len() - crosses);
    match read_call(bid) {
        Some(Call::Bid(bid)) => Some(DoubledBid {
            bid,
            doubling: doubling_of(crosses),
        }),
        _ => None,
    }
}

/// A seat's letter.
fn read_seat(word: &[u8]) -> Option<Seat>
    ensures { result ≡ seat_of_word word.now }
{
    if word == b"N".as_slice() {
        Some(Seat::North)
    } else if word == b"E".as_slice() {
        Some(Seat::East)
    } else if word == b"S".as_slice() {
        Some(Seat::South)
    } else if word == b"W".as_slice() {
        Some(Seat::West)
    } else {
        None
    }
}

/// Takes the bid that several words begin with from them.
fn next_doubled_bid(text: &mut &[u8]) -> Option<DoubledBid>
    ensures { FoundAs (λ bid. (bid, spaced_words text.new.now)) result (first_of doubled_bid_of (spaced_words text.old.now)) }
{
    let (word, rest) = first_word(text)?;
    let bid = read_doubled_bid(word)?;
    *text = rest;
    Some(bid)
}

/// Takes the seat that several words begin with from them.
fn next_seat(text: &mut &[u8]) -> Option<Seat>
    ensures { FoundAs (λ seat. (seat, spaced_words text.new.now)) result (first_of seat_of_word (spaced_words text.old.now)) }
{
    let (word, rest) = first_word(text)?;
    let seat = read_seat(word)?;
    *text = rest;
    Some(seat)
}

/// Reads what follows `BACK`.
#[tactic(auto, unfolding(crate::specs::CorrectionLine::back_line))]
fn read_back_line(text: &[u8]) -> Option<Action>
    ensures { result ≡ back_line (spaced_words text.now) }
{
    let mut rest = text;
    let key = next_key(&mut rest)?;
    let play = read_play(rest)?;
    Some(Action::Back { key, play })
}

/// Reads what follows `UNDEAL`.
#[tactic(auto, unfolding(crate::specs::CorrectionLine::undeal_line))]
fn read_undeal_line(text: &[u8]) -> Option<Action>
    ensures { result ≡ undeal_line (spaced_words text.now) }
{
    let mut rest = text;
    let key = next_key(&mut rest)?;
    let board = read_board(only_word(rest)?)?;
    Some(Action::Undeal { key, board })
}

/// Reads what follows `ASSIGN`.
#[tactic(auto, unfolding(crate::specs::CorrectionLine::assign_line))]
fn read_assign_line(text: &[u8]) -> Option<Action>
    ensures { result ≡ assign_line (spaced_words text.now) }
{
    let mut rest = text;
    let key = next_key(&mut rest)?;
    let play = next_play(&mut rest)?;
    let DoubledBid { bid, doubling } = next_doubled_bid(&mut rest)?;
    let declarer = next_seat(&mut rest)?;
    let tricks = read_tricks(only_word(rest)?)?;
    let contract = Contract {
        bid,
        doubling,
        declarer,
    };
    Some(Action::Assign {
        key,
        play,
        contract,
        tricks,
    })
}

/// The correction that the words behind that keyword state.
fn read_after(keyword: &[u8], text: &[u8]) -> Option<Action>
    ensures { result ≡ correction_after keyword.now (spaced_words text.now) }
{
    if keyword == b"BACK".as_slice() {
        read_back_line(text)
    } else if keyword == b"UNDEAL".as_slice() {
        read_undeal_line(text)
    } else if keyword == b"ASSIGN".as_slice() {
        read_assign_line(text)
    } else {
        None
    }
}

/// The correction that a line states, without its ending, if it states one: `BACK key round table index` takes back the latest
/// thing done in a play, `UNDEAL key board` the deal of a board, and `ASSIGN key round table index bid declarer tricks` assigns
/// a score (Law 12C1), the bid with `X` or `XX` behind it where it is doubled or redoubled.
pub fn read_correction(line: &[u8]) -> Option<Action>
    ensures { result ≡ correction_of (spaced_words line.now) }
{
    let (keyword, rest) = first_word(line)?;
    read_after(keyword, rest)
}
