//! The rows of a score card in HTML.
ghost use Rattle.std.specs.Prelude.{◌≡◌, map};
ghost use Rattle.line_text.specs.Streams.{stream, Written};
ghost use Rattle.bridge_config.specs.ConfigValue.{pair_of};
ghost use Rattle.bridge_cards.specs.declared.scoring.Scoring.TheVariants.{MatchPoints, Imps};
ghost use Rattle.bridge_results.specs.HtmlCard.{html_card_line, html_card_lines};

use crate::card::CardLine;
use crate::html::cells::{percent_cell, result_cell};
use crate::html::columns::{SHARE_CARD_COLUMNS, SUM_CARD_COLUMNS};
use crate::html::links::{board_target, linked_row, pair_target};
use crate::pages::cells::{declarer_cell, score_cell};
use crate::pages::pair_card::{counted_gain, line_gain, side_words};
use crate::pages::shown::shown_pair;
use bridge_cards::Scoring;
use bridge_config::PairFields;
use evening_draft::PairNames;
use line_text::{number_text, write_text};
use page_layout::PageText;
use std::io::{Error, Write};

/// The row of a line by matchpoints.
fn share_line(names: Option<&[PairNames]>, pairs: &[PairFields], line: &CardLine) -> PageText
    ensures { result.items ≡ html_card_line MatchPoints names.entry (map pair_of pairs.now) line.now }
{
    let board = number_text(u32::from(line.board.number()));
    let opponents = number_text(u32::from(line.opponents));
    let shown = shown_pair(names, pairs, line.opponents);
    let made = result_cell(line.outcome);
    let score = score_cell(line.outcome, line.score);
    let gain = line_gain(Scoring::MatchPoints, line);
    let percent = percent_cell(counted_gain(line.outcome, line.gain), line.available);
    let cells = [
        board.as_str().as_bytes(),
        side_words(line.side),
        opponents.as_str().as_bytes(),
        shown.as_str().as_bytes(),
        made.as_str().as_bytes(),
        declarer_cell(line.outcome).as_bytes(),
        score.as_str().as_bytes(),
        gain.as_str().as_bytes(),
        percent.as_str().as_bytes(),
    ];
    let (first, second) = (board_target(line.board), pair_target(line.opponents));
    let targets = [
        first.as_str().as_bytes(),
        b"",
        second.as_str().as_bytes(),
        b"",
        b"",
        b"",
        b"",
        b"",
        b"",
    ];
    linked_row(&SHARE_CARD_COLUMNS, &targets, &cells)
}

/// The row of a line by IMPs.
fn sum_line(names: Option<&[PairNames]>, pairs: &[PairFields], line: &CardLine) -> PageText
    ensures { result.items ≡ html_card_line Imps names.entry (map pair_of pairs.now) line.now }
{
    let board = number_text(u32::from(line.board.number()));
    let opponents = number_text(u32::from(line.opponents));
    let shown = shown_pair(names, pairs, line.opponents);
    let made = result_cell(line.outcome);
    let score = score_cell(line.outcome, line.score);
    let gain = line_gain(Scoring::Imps, line);
    let cells = [
        board.as_str().as_bytes(),
        side_words(line.side),
        opponents.as_str().as_bytes(),
        shown.as_str().as_bytes(),
        made.as_str().as_bytes(),
        declarer_cell(line.outcome).as_bytes(),
        score.as_str().as_bytes(),
        gain.as_str().as_bytes(),
    ];
    let (first, second) = (board_target(line.board), pair_target(line.opponents));
    let targets = [
        first.as_str().as_bytes(),
        b"",
        second.as_str().as_bytes(),
        b"",
        b"",
        b"",
        b"",
        b"",
    ];
    linked_row(&SUM_CARD_COLUMNS, &targets, &cells)
}

/// Writes the row of a line.
fn write_line<W: Write>(
    scoring: Scoring,
    names: Option<&[PairNames]>,
    pairs: &[PairFields],
    line: &CardLine,
    writer: &mut W,
) -> Result<(), Error>
    ensures { Written (stream W.contents writer.old writer.new) (html_card_line scoring names.entry (map pair_of pairs.now) line.now) result }
{
    match scoring {
        Scoring::MatchPoints => write_text(writer, share_line(names, pairs, line).as_slice()),
        Scoring::Imps => write_text(writer, sum_line(names, pairs, line).as_slice()),
    }
}

/// Writes the rows of a card.
pub fn write_rows<W: Write>(
    scoring: Scoring,
    names: Option<&[PairNames]>,
    pairs: &[PairFields],
    lines: &[CardLine],
    writer: &mut W,
) -> Result<(), Error>
    ensures { Written (stream W.contents writer.old writer.new) (html_card_lines scoring names.entry (map pair_of pairs.now) lines.now) result }
{
    for line in lines {
        write_line(scoring, names, pairs, line, writer)?;
    }
    Ok(())
}
