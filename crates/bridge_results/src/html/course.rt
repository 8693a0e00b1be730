//! The auction of a board at a table in HTML, and its play behind it.
ghost use Rattle.std.specs.Prelude.{◌≡◌, ◌+◌, ◌≤◌, ◌<◌, length, map};
ghost use Rattle.std.specs.Option.{option_copied};
ghost use Rattle.line_text.specs.Streams.{stream, Written};
ghost use Rattle.bridge_config.specs.ConfigValue.{pair_of};
ghost use Rattle.bridge_results.specs.HtmlCourse.{call_words, call_cell, call_row, letter_from, auction_head, call_rows, auction_html, calls_and_cards, course_html};

use crate::html::columns::CALL_COLUMNS;
use crate::html::links::play_target;
use crate::html::summary::write_summary;
use crate::html::tricks::write_play_part;
use crate::pages::board::write_table_end;
use crate::play::TablePlay;
use arrayvec::ArrayString;
use bridge_auction::{Auction, Call, print_bid};
use bridge_cards::{Seat, seat_text};
use bridge_config::PairFields;
use bridge_play::Play;
use evening_draft::PairNames;
use line_text::write_text;
use page_layout::{Format, PageText, push_bytes, push_linked_row, push_titles};
use std::io::{Error, Write};

/// A call.
type CallText = ArrayString<4>;

/// A call, as `Pass`, `X`, `XX` or `1NT`.
fn call_words(call: Call) -> CallText
    ensures { result.bytes ≡ call_words call }
{
    let mut text = CallText::new();
    match call {
        Call::Pass => text.push_str("Pass"),
        Call::Bid(bid) => print_bid(bid, &mut text),
        Call::Double => text.push_str("X"),
        Call::Redouble => text.push_str("XX"),
    }
    text
}

/// The call at an index, if there is one.
fn call_cell(calls: &[Call], index: usize) -> CallText
    ensures text { result.bytes ≡ call_cell calls.now index }
    ensures short { length result.bytes ≤ 4 }
{
    match calls.get(index) {
        Some(call) => call_words(*call),
        None => CallText::new(),
    }
}

/// Writes a line of the auction, counted from 0.
fn write_calls<W: Write>(calls: &[Call], line: usize, writer: &mut W) -> Result<(), Error>
    requires { line < 80 }
    ensures { Written (stream W.contents writer.old writer.new) (call_row calls.now line) result }
{
    let (first, second) = (call_cell(calls, 4 * line), call_cell(calls, 4 * line + 1));
    let (third, fourth) = (
        call_cell(calls, 4 * line + 2),
        call_cell(calls, 4 * line + 3),
    );
    let cells = [
        first.as_str().as_bytes(),
        second.as_str().as_bytes(),
        third.as_str().as_bytes(),
        fourth.as_str().as_bytes(),
    ];
    let mut text = PageText::new();
    let targets: [&[u8]; 4] = [b"", b"", b"", b""];
    push_linked_row(&mut text, &CALL_COLUMNS, &targets, &cells);
    write_text(writer, text.as_slice())
}

/// Writes the lines of the auction.
fn write_call_rows<W: Write>(calls: &[Call], writer: &mut W) -> Result<(), Error>
    requires { length calls.now ≤ 319 }
    ensures { Written (stream W.contents writer.old writer.new) (call_rows calls.now) result }
{
    for line in 0..(calls.len() + 3) / 4 {
        write_calls(calls, line, writer)?;
    }
    Ok(())
}

/// The letter of the seat that is so many places clockwise from another.
fn letter_from(seat: Seat, places: usize) -> &'static str
    ensures text { result.now ≡ letter_from seat places }
    ensures short { length result.now ≤ 1 }
{
    seat_text(seat.clockwise(places))
}

/// Writes what stands above the calls.
#[tactic(auto, unfolding(crate::specs::HtmlCourse::auction_head))]
fn write_auction_head<W: Write>(play: &TablePlay, dealer: Seat, writer: &mut W) -> Result<(), Error>
    ensures { Written (stream W.contents writer.old writer.new) (auction_head play.now dealer) result }
{
    let target = play_target(play);
    let titles = [
        letter_from(dealer, 0).as_bytes(),
        letter_from(dealer, 1).as_bytes(),
        letter_from(dealer, 2).as_bytes(),
        letter_from(dealer, 3).as_bytes(),
    ];
    let mut text = PageText::new();
    push_bytes(&mut text, b"<table class=\"auction\" id=\"");
    push_bytes(&mut text, target.as_str().as_bytes());
    push_bytes(&mut text, b"\">\n<caption>Auction</caption>\n");
    push_titles(&mut text, Format::Html, &CALL_COLUMNS, &titles);
    write_text(writer, text.as_slice())
}

/// Writes the auction.
fn write_auction<W: Write>(play: &TablePlay, auction: &Auction, writer: &mut W) -> Result<(), Error>
    ensures { Written (stream W.contents writer.old writer.new) (auction_html play.now auction.now) result }
{
    write_auction_head(play, auction.dealer(), writer)?;
    write_call_rows(auction.calls(), writer)?;
    write_table_end(Format::Html, writer)
}

/// Writes the auction and the play.
fn write_calls_and_cards<W: Write>(
    costs: &[u8],
    play: &TablePlay,
    auction: &Auction,
    played: Option<&Play>,
    writer: &mut W,
) -> Result<(), Error>
    ensures { Written (stream W.contents writer.old writer.new) (calls_and_cards costs.now play.now auction.now (option_copied played.entry)) result }
{
    write_auction(play, auction, writer)?;
    write_play_part(costs, played, writer)?;
    write_text(writer, b"</details>\n")
}

/// Writes how a board was played at a table.
pub fn write_course<W: Write>(
    names: Option<&[PairNames]>,
    costs: &[u8],
    pairs: &[PairFields],
    play: &TablePlay,
    auction: &Auction,
    played: Option<&Play>,
    writer: &mut W,
) -> Result<(), Error>
    ensures { Written (stream W.contents writer.old writer.new) (course_html names.entry costs.now (map pair_of pairs.now) play.now auction.now (option_copied played.entry)) result }
{
    write_summary(names, pairs, play, writer)?;
    write_calls_and_cards(costs, play, auction, played, writer)
}
