//! The play of a board at a table in HTML, trick by trick.
ghost use Rattle.std.specs.Prelude.{◌≡◌, ◌+◌, ◌≤◌, ◌<◌, ◌++◌, [], length, slice_get};
ghost use Rattle.std.specs.Option.{option_copied, option_map_or};
ghost use Rattle.line_text.specs.Streams.{stream, Written};
ghost use Rattle.bridge_play.specs.Trick.{whole_tricks};
ghost use Rattle.bridge_results.specs.HtmlCells.{perhaps_card};
ghost use Rattle.bridge_results.specs.Costs.{cost_mark, marked_card};
ghost use Rattle.bridge_results.specs.HtmlCourse.{winner_cell, trick_row, tricks_head, trick_rows, claim_words, agreed_claim, claim_html, play_end, play_html, play_part};

use crate::html::cells::perhaps_card;
use crate::html::columns::TRICK_COLUMNS;
use crate::pages::cells::CellText;
use arrayvec::ArrayString;
use bridge_cards::seat_text;
use bridge_play::{Claim, Play};
use line_text::{number_text, write_text};
use page_layout::{
    Format, PageText, push_bytes, push_linked_row, push_paragraph, push_table_end, push_titles,
};
use std::io::{Error, Write};

/// The tricks that a card gave away, if it gave any.
fn cost_mark(cost: u8) -> ArrayString<12>
    ensures text { result.bytes ≡ cost_mark cost }
    ensures short { length result.bytes ≤ 12 }
{
    let mut text = ArrayString::new();
    if cost != 0 {
        text.push_str(" -");
        text.push_str(number_text(u32::from(cost)).as_str());
    }
    text
}

/// The same, if it is known.
fn perhaps_mark(cost: Option<u8>) -> ArrayString<12>
    ensures text { result.bytes ≡ option_map_or cost_mark cost [] }
    ensures short { length result.bytes ≤ 12 }
{
    match cost {
        Some(cost) => cost_mark(cost),
        None => ArrayString::new(),
    }
}

/// The tricks that the card at an index gave away, if it gave any and that is known.
fn mark_at(costs: &[u8], index: usize) -> ArrayString<12>
    ensures text { result.bytes ≡ option_map_or cost_mark (slice_get costs.now index) [] }
    ensures short { length result.bytes ≤ 12 }
{
    perhaps_mark(costs.get(index).copied())
}

/// The card at an index, if so many were played.
fn card_at(play: &Play, index: usize) -> CellText
    ensures text { result.bytes ≡ perhaps_card (slice_get play.now.cards index) }
    ensures short { length result.bytes ≤ 22 }
{
    perhaps_card(play.cards().get(index).copied())
}

/// The same, and the tricks that it gave away.
fn marked_card(play: &Play, costs: &[u8], index: usize) -> ArrayString<40>
    ensures text { result.bytes ≡ marked_card play.now.cards costs.now index }
    ensures short { length result.bytes ≤ 40 }
{
    let mut text = ArrayString::new();
    text.push_str(card_at(play, index).as_str());
    text.push_str(mark_at(costs, index).as_str());
    text
}

/// Who won a trick, the tricks counted from 0.
fn winner_cell(play: &Play, trick: usize) -> &'static str
    ensures text { result.now ≡ winner_cell play.now.contract play.now.cards trick }
    ensures short { length result.now ≤ 1 }
{
    if trick < play.cards().len() / 4 {
        seat_text(play.leader(trick + 1))
    } else {
        ""
    }
}

/// Writes a trick, counted from 0.
fn write_trick<W: Write>(
    play: &Play,
    costs: &[u8],
    trick: usize,
    writer: &mut W,
) -> Result<(), Error>
    requires there { trick ≤ whole_tricks play.now.cards }
    requires few { trick ≤ 13 }
    ensures { Written (stream W.contents writer.old writer.new) (trick_row play.now.contract play.now.cards costs.now trick) result }
{
    let number = number_text(trick as u32 + 1);
    let first = marked_card(play, costs, 4 * trick);
    let second = marked_card(play, costs, 4 * trick + 1);
    let third = marked_card(play, costs, 4 * trick + 2);
    let fourth = marked_card(play, costs, 4 * trick + 3);
    let cells = [
        number.as_str().as_bytes(),
        seat_text(play.leader(trick)).as_bytes(),
        first.as_str().as_bytes(),
        second.as_str().as_bytes(),
        third.as_str().as_bytes(),
        fourth.as_str().as_bytes(),
        winner_cell(play, trick).as_bytes(),
    ];
    let mut text = PageText::new();
    let targets: [&[u8]; 7] = [b"", b"", b"", b"", b"", b"", b""];
    push_linked_row(&mut text, &TRICK_COLUMNS, &targets, &cells);
    write_text(writer, text.as_slice())
}

/// Writes the tricks.
fn write_tricks<W: Write>(play: &Play, costs: &[u8], writer: &mut W) -> Result<(), Error>
    ensures { Written (stream W.contents writer.old writer.new) (trick_rows play.now.contract play.now.cards costs.now) result }
{
    for trick in 0..(play.cards().len() + 3) / 4 {
        write_trick(play, costs, trick, writer)?;
    }
    Ok(())
}

/// Writes what stands above the tricks.
#[tactic(auto, unfolding(crate::specs::HtmlCourse::tricks_head))]
fn write_tricks_head<W: Write>(writer: &mut W) -> Result<(), Error>
    ensures { Written (stream W.contents writer.old writer.new) tricks_head result }
{
    let titles: [&[u8]; 7] = [
        b"Trick", b"Led by", b"1st", b"2nd", b"3rd", b"4th", b"Won by",
    ];
    let mut text = PageText::new();
    push_bytes(
        &mut text,
        b"<table class=\"tricks\">\n<caption>Play</caption>\n",
    );
    push_titles(&mut text, Format::Html, &TRICK_COLUMNS, &titles);
    write_text(writer, text.as_slice())
}

/// Who claimed how many of the tricks that were left.
fn claim_words(claim: Claim) -> ArrayString<40>
    ensures text { result.bytes ≡ claim_words claim }
    ensures short { length result.bytes ≤ 40 }
{
    let mut text = ArrayString::new();
    text.push_str("Claim by ");
    text.push_str(seat_text(claim.claimer));
    text.push_str(", tricks: ");
    text.push_str(number_text(u32::from(claim.tricks)).as_str());
    text
}

/// The claim by which the play ended, if it did.
fn agreed_claim(play: &Play) -> Option<Claim>
    ensures { result ≡ agreed_claim play.now }
{
    let claim = play.claim()?;
    if claim.is_agreed(play.contract()) {
        Some(claim)
    } else {
        None
    }
}

/// Adds a claim, if there is one.
fn push_claim(text: &mut PageText, claim: Option<Claim>)
    requires { length text.old.items ≤ 2000 }
    ensures { text.new.items ≡ text.old.items ++ claim_html claim }
{
    if let Some(agreed) = claim {
        let words = claim_words(agreed);
        push_paragraph(text, Format::Html, words.as_str().as_bytes());
    }
}

/// Writes what ends the tricks, and the claim.
#[tactic(auto, unfolding(crate::specs::HtmlCourse::play_end))]
fn write_play_end<W: Write>(play: &Play, writer: &mut W) -> Result<(), Error>
    ensures { Written (stream W.contents writer.old writer.new) (play_end play.now) result }
{
    let mut text = PageText::new();
    push_table_end(&mut text, Format::Html);
    push_claim(&mut text, agreed_claim(play));
    write_text(writer, text.as_slice())
}

/// Writes the play.
fn write_play<W: Write>(costs: &[u8], play: &Play, writer: &mut W) -> Result<(), Error>
    ensures { Written (stream W.contents writer.old writer.new) (play_html costs.now play.now) result }
{
    write_tricks_head(writer)?;
    write_tricks(play, costs, writer)?;
    write_play_end(play, writer)
}

/// Writes the play, once there was a contract.
pub fn write_play_part<W: Write>(
    costs: &[u8],
    play: Option<&Play>,
    writer: &mut W,
) -> Result<(), Error>
    ensures { Written (stream W.contents writer.old writer.new) (play_part costs.now (option_copied play.entry)) result }
{
    match play {
        Some(play) => write_play(costs, play, writer),
        None => write_text(writer, b""),
    }
}
