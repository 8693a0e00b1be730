//! The score card of a pair.
ghost use Rattle.std.specs.Prelude.{◌≡◌, ◌≤◌, length, map, flat_map, sum_by};
ghost use Rattle.line_text.specs.Streams.{stream, Written};
ghost use Rattle.bridge_score.specs.Comparison.{int_sum_by};
ghost use Rattle.bridge_config.specs.ConfigValue.{pair_of};
ghost use Rattle.bridge_results.specs.PlayCells.{gain_cell};
ghost use Rattle.bridge_results.specs.CardText.{pair_words, card_head, side_words, counted_gain, card_row, total_words, card_end, score_card_text};

use crate::card::CardLine;
use crate::pages::cells::{
    contract_cell, declarer_cell, gain_cell, gain_text, score_cell, tricks_cell,
};
use crate::pages::columns::CARD_COLUMNS;
use crate::pages::shown::shown_pair;
use arrayvec::ArrayString;
use bridge_cards::{Scoring, Side};
use bridge_config::PairFields;
use evening_draft::PairNames;
use line_text::{NumberText, number_text, tenths_text, write_text};
use page_layout::{
    Format, Level, PageText, Section, push_heading, push_paragraph, push_row, push_section_end,
    push_section_start, push_table_end, push_table_start, push_titles,
};
use session_rules::Outcome;
use std::io::{Error, Write};

/// The most bytes of the heading of a card.
const HEADING_BYTES: usize = 342;

/// The heading of a card: the pair's number and its names.
pub fn pair_words(
    names: Option<&[PairNames]>,
    pairs: &[PairFields],
    pair: u8,
) -> ArrayString<HEADING_BYTES>
    ensures text { result.bytes ≡ pair_words names.entry (map pair_of pairs.now) pair }
    ensures short { length result.bytes ≤ HEADING_BYTES }
{
    let mut text = ArrayString::new();
    text.push_str("Pair ");
    text.push_str(number_text(u32::from(pair)).as_str());
    text.push_str(": ");
    text.push_str(shown_pair(names, pairs, pair).as_str());
    text
}

/// Writes what stands above the rows of a card.
fn write_head<W: Write>(
    format: Format,
    names: Option<&[PairNames]>,
    pairs: &[PairFields],
    pair: u8,
    writer: &mut W,
) -> Result<(), Error>
    ensures { Written (stream W.contents writer.old writer.new) (card_head format names.entry (map pair_of pairs.now) pair) result }
{
    let heading = pair_words(names, pairs, pair);
    let titles: [&[u8]; 9] = [
        b"Round",
        b"Board",
        b"Side",
        b"Against",
        b"Contract",
        b"By",
        b"Tricks",
        b"Score",
        b"Gain",
    ];
    let mut text = PageText::new();
    push_section_start(&mut text, format, Section::ScoreCard);
    push_heading(&mut text, format, Level::Part, heading.as_str().as_bytes());
    push_table_start(&mut text, format);
    push_titles(&mut text, format, &CARD_COLUMNS, &titles);
    write_text(writer, text.as_slice())
}

/// The letters of a side.
pub fn side_words(side: Side) -> &'static [u8]
    ensures text { result.now ≡ side_words side }
    ensures short { length result.now ≤ 2 }
{
    match side {
        Side::NorthSouth => b"NS",
        Side::EastWest => b"EW",
    }
}

/// What the pair gained by a play that is not void.
pub fn counted_gain(outcome: Outcome, gain: i32) -> Option<i32>
    ensures { result ≡ counted_gain outcome gain }
{
    match outcome {
        Outcome::Voided => None,
        _ => Some(gain),
    }
}

/// What the pair gained by a line, if anything can be.
pub fn line_gain(scoring: Scoring, line: &CardLine) -> NumberText
    ensures text { result.bytes ≡ gain_cell scoring (counted_gain line.now.outcome line.now.gain) }
    ensures short { length result.bytes ≤ 22 }
{
    gain_cell(scoring, counted_gain(line.outcome, line.gain))
}

/// Writes the row of a play.
fn write_row<W: Write>(
    format: Format,
    scoring: Scoring,
    line: &CardLine,
    writer: &mut W,
) -> Result<(), Error>
    ensures { Written (stream W.contents writer.old writer.new) (card_row format scoring line.now) result }
{
    let round = number_text(u32::from(line.round));
    let board = number_text(u32::from(line.board.number()));
    let opponents = number_text(u32::from(line.opponents));
    let contract = contract_cell(line.outcome);
    let tricks = tricks_cell(line.outcome);
    let score = score_cell(line.outcome, line.score);
    let gain = line_gain(scoring, line);
    let cells = [
        round.as_str().as_bytes(),
        board.as_str().as_bytes(),
        side_words(line.side),
        opponents.as_str().as_bytes(),
        contract.as_str().as_bytes(),
        declarer_cell(line.outcome).as_bytes(),
        tricks.as_str().as_bytes(),
        score.as_str().as_bytes(),
        gain.as_str().as_bytes(),
    ];
    let mut text = PageText::new();
    push_row(&mut text, format, &CARD_COLUMNS, &cells);
    write_text(writer, text.as_slice())
}

/// Writes the rows of a card.
fn write_rows<W: Write>(
    format: Format,
    scoring: Scoring,
    lines: &[CardLine],
    writer: &mut W,
) -> Result<(), Error>
    ensures { Written (stream W.contents writer.old writer.new) (flat_map (card_row format scoring) lines.now) result }
{
    for line in lines {
        write_row(format, scoring, line, writer)?;
    }
    Ok(())
}

/// What the pair gained in all.
fn gain_sum(lines: &[CardLine]) -> i64
    requires { length lines.now ≤ 36 }
    ensures { result ≡ int_sum_by (λ line. line.gain) lines.now }
{
    let mut sum = 0i64;
    for line in lines {
        sum += i64::from(line.gain);
    }
    sum
}

/// What was available to the pair in all.
fn available_sum(lines: &[CardLine]) -> u64
    requires { length lines.now ≤ 36 }
    ensures { result ≡ sum_by (λ line. line.available) lines.now }
{
    lines.iter().map(|line| u64::from(line.available)).sum()
}

/// What the pair gained in all, and by matchpoints of how many.
fn total_words(scoring: Scoring, lines: &[CardLine]) -> ArrayString<80>
    requires { length lines.now ≤ 36 }
    ensures text { result.bytes ≡ total_words scoring lines.now }
    ensures short { length result.bytes ≤ 80 }
{
    let mut text = ArrayString::new();
    text.push_str("Total: ");
    text.push_str(gain_text(scoring, gain_sum(lines)).as_str());
    match scoring {
        Scoring::MatchPoints => {
            text.push_str(" of ");
            text.push_str(tenths_text(available_sum(lines)).as_str());
        }
        Scoring::Imps => {}
    }
    text
}

/// Writes what stands below the rows of a card.
fn write_end<W: Write>(
    format: Format,
    scoring: Scoring,
    lines: &[CardLine],
    writer: &mut W,
) -> Result<(), Error>
    requires { length lines.now ≤ 36 }
    ensures { Written (stream W.contents writer.old writer.new) (card_end format scoring lines.now) result }
{
    let total = total_words(scoring, lines);
    let mut text = PageText::new();
    push_table_end(&mut text, format);
    push_paragraph(&mut text, format, total.as_str().as_bytes());
    push_section_end(&mut text, format);
    write_text(writer, text.as_slice())
}

/// Writes the card of a pair, from its lines.
pub fn write_card<W: Write>(
    format: Format,
    scoring: Scoring,
    names: Option<&[PairNames]>,
    pairs: &[PairFields],
    pair: u8,
    lines: &[CardLine],
    writer: &mut W,
) -> Result<(), Error>
    requires { length lines.now ≤ 36 }
    ensures { Written (stream W.contents writer.old writer.new) (score_card_text format scoring names.entry (map pair_of pairs.now) pair lines.now) result }
{
    write_head(format, names, pairs, pair, writer)?;
    write_rows(format, scoring, lines, writer)?;
    write_end(format, scoring, lines, writer)
}
