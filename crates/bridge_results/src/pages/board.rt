//! A board: its hands and what could be made, its traveller and its frequencies.
ghost use Rattle.std.specs.Prelude.{◌≡◌, ◌≤◌, length, flat_map};
ghost use Rattle.std.specs.Option.{option_copied};
ghost use Rattle.line_text.specs.Streams.{stream, Written};
ghost use Rattle.page_layout.specs.Page.{section_end};
ghost use Rattle.page_layout.specs.Table.{table_end};
ghost use Rattle.bridge_results.specs.BoardText.{board_words, deal_words, board_head, side_gain, line_row, line_titles, traveller_text, hands_text, deal_text, board_tables, board_text};

use crate::compare::Comparison;
use crate::makeable::Makeable;
use crate::pages::cells::{
    contract_cell, declarer_cell, gain_cell, lead_cell, line_score, score_cell, tricks_cell,
};
use crate::pages::columns::LINE_COLUMNS;
use crate::pages::diagram::diagram_text;
use crate::pages::frequencies::write_frequencies_of;
use crate::pages::makeable::write_known;
use crate::traveller::BoardLine;
use arrayvec::ArrayString;
use bridge_cards::{
    BoardNumber, Deal, Scoring, dealer, seat_text, vulnerability_of, vulnerability_text,
};
use line_text::{NumberText, number_text, write_text};
use page_layout::{
    Format, Level, PageText, Section, push_heading, push_paragraph, push_row, push_section_end,
    push_section_start, push_table_end, push_table_start, push_titles,
};
use std::io::{Error, Write};

/// The heading of a board.
pub fn board_words(board: BoardNumber) -> ArrayString<20>
    ensures text { result.bytes ≡ board_words board }
    ensures short { length result.bytes ≤ 20 }
{
    let mut text = ArrayString::new();
    text.push_str("Board ");
    text.push_str(number_text(u32::from(board.number())).as_str());
    text
}

/// The dealer and the vulnerability of a board.
pub fn deal_words(board: BoardNumber) -> ArrayString<40>
    ensures text { result.bytes ≡ deal_words board }
    ensures short { length result.bytes ≤ 40 }
{
    let mut text = ArrayString::new();
    text.push_str("Dealer: ");
    text.push_str(seat_text(dealer(board)));
    text.push_str(", vulnerable: ");
    text.push_str(vulnerability_text(vulnerability_of(board)));
    text
}

/// What stands above the hands of a board.
fn board_head(format: Format, board: BoardNumber) -> PageText
    ensures { result.items ≡ board_head format board }
{
    let heading = board_words(board);
    let words = deal_words(board);
    let mut text = PageText::new();
    push_section_start(&mut text, format, Section::Traveller);
    push_heading(&mut text, format, Level::Part, heading.as_str().as_bytes());
    push_paragraph(&mut text, format, words.as_str().as_bytes());
    text
}

/// Writes what stands above the hands of a board.
pub fn write_head<W: Write>(format: Format, board: BoardNumber, writer: &mut W) -> Result<(), Error>
    ensures { Written (stream W.contents writer.old writer.new) (board_head format board) result }
{
    let text = board_head(format, board);
    write_text(writer, text.as_slice())
}

/// What a side gained, if anything can be.
pub fn side_gain(scoring: Scoring, comparison: Option<Comparison>, ns: bool) -> NumberText
    ensures text { result.bytes ≡ side_gain scoring comparison ns }
    ensures short { length result.bytes ≤ 22 }
{
    match comparison {
        Some(compared) if ns => gain_cell(scoring, Some(compared.ns_gain)),
        Some(compared) => gain_cell(scoring, Some(compared.ew_gain)),
        None => NumberText::new(),
    }
}

/// Writes the row of a play.
fn write_line<W: Write>(
    format: Format,
    scoring: Scoring,
    line: &BoardLine,
    writer: &mut W,
) -> Result<(), Error>
    ensures { Written (stream W.contents writer.old writer.new) (line_row format scoring line.now) result }
{
    let play = &line.play;
    let round = number_text(u32::from(play.row.round));
    let table = number_text(u32::from(play.row.table));
    let ns = number_text(u32::from(play.row.ns));
    let ew = number_text(u32::from(play.row.ew));
    let contract = contract_cell(play.outcome);
    let lead = lead_cell(play.lead);
    let tricks = tricks_cell(play.outcome);
    let score = score_cell(play.outcome, line_score(line.comparison));
    let ns_gain = side_gain(scoring, line.comparison, true);
    let ew_gain = side_gain(scoring, line.comparison, false);
    let cells = [
        round.as_str().as_bytes(),
        table.as_str().as_bytes(),
        ns.as_str().as_bytes(),
        ew.as_str().as_bytes(),
        contract.as_str().as_bytes(),
        declarer_cell(play.outcome).as_bytes(),
        lead.as_str().as_bytes(),
        tricks.as_str().as_bytes(),
        score.as_str().as_bytes(),
        ns_gain.as_str().as_bytes(),
        ew_gain.as_str().as_bytes(),
    ];
    let mut text = PageText::new();
    push_row(&mut text, format, &LINE_COLUMNS, &cells);
    write_text(writer, text.as_slice())
}

/// Writes what stands above the rows of a traveller.
fn write_line_titles<W: Write>(format: Format, writer: &mut W) -> Result<(), Error>
    ensures { Written (stream W.contents writer.old writer.new) (line_titles format) result }
{
    let titles: [&[u8]; 11] = [
        b"Round",
        b"Table",
        b"NS",
        b"EW",
        b"Contract",
        b"By",
        b"Lead",
        b"Tricks",
        b"Score",
        b"NS gain",
        b"EW gain",
    ];
    let mut text = PageText::new();
    push_table_start(&mut text, format);
    push_titles(&mut text, format, &LINE_COLUMNS, &titles);
    write_text(writer, text.as_slice())
}

/// Writes what stands below the rows of a table.
pub fn write_table_end<W: Write>(format: Format, writer: &mut W) -> Result<(), Error>
    ensures { Written (stream W.contents writer.old writer.new) (table_end format) result }
{
    let mut text = PageText::new();
    push_table_end(&mut text, format);
    write_text(writer, text.as_slice())
}

/// Writes the rows of a traveller.
fn write_line_rows<W: Write>(
    format: Format,
    scoring: Scoring,
    lines: &[BoardLine],
    writer: &mut W,
) -> Result<(), Error>
    ensures { Written (stream W.contents writer.old writer.new) (flat_map (line_row format scoring) lines.now) result }
{
    for line in lines {
        write_line(format, scoring, line, writer)?;
    }
    Ok(())
}

/// Writes a traveller.
fn write_lines<W: Write>(
    format: Format,
    scoring: Scoring,
    lines: &[BoardLine],
    writer: &mut W,
) -> Result<(), Error>
    ensures { Written (stream W.contents writer.old writer.new) (traveller_text format scoring lines.now) result }
{
    write_line_titles(format, writer)?;
    write_line_rows(format, scoring, lines, writer)?;
    write_table_end(format, writer)
}

/// Writes the hands of a board, once it is dealt.
fn write_hands<W: Write>(format: Format, deal: Option<&Deal>, writer: &mut W) -> Result<(), Error>
    ensures { Written (stream W.contents writer.old writer.new) (hands_text format (option_copied deal.entry)) result }
{
    match deal {
        Some(deal) => write_text(writer, diagram_text(format, deal).as_slice()),
        None => write_text(writer, b""),
    }
}

/// Writes the hands of a board, and what could be made, if it is known.
pub fn write_deal<W: Write>(
    format: Format,
    board: BoardNumber,
    deal: Option<&Deal>,
    known: Option<Makeable>,
    writer: &mut W,
) -> Result<(), Error>
    ensures { Written (stream W.contents writer.old writer.new) (deal_text format board (option_copied deal.entry) known) result }
{
    write_hands(format, deal, writer)?;
    write_known(format, board, known, writer)
}

/// Writes what ends the section of a board.
pub fn write_end<W: Write>(format: Format, writer: &mut W) -> Result<(), Error>
    ensures { Written (stream W.contents writer.old writer.new) (section_end format) result }
{
    let mut text = PageText::new();
    push_section_end(&mut text, format);
    write_text(writer, text.as_slice())
}

/// Writes the traveller and the frequencies of a board.
fn write_tables<W: Write>(
    format: Format,
    scoring: Scoring,
    lines: &[BoardLine],
    writer: &mut W,
) -> Result<(), Error>
    requires { length lines.now ≤ 144 }
    ensures { Written (stream W.contents writer.old writer.new) (board_tables format scoring lines.now) result }
{
    write_lines(format, scoring, lines, writer)?;
    write_frequencies_of(format, scoring, lines, writer)?;
    write_end(format, writer)
}

/// Writes a board with the lines of its traveller.
pub fn write_board<W: Write>(
    format: Format,
    scoring: Scoring,
    board: BoardNumber,
    deal: Option<&Deal>,
    known: Option<Makeable>,
    lines: &[BoardLine],
    writer: &mut W,
) -> Result<(), Error>
    requires { length lines.now ≤ 144 }
    ensures { Written (stream W.contents writer.old writer.new) (board_text format scoring board (option_copied deal.entry) known lines.now) result }
{
    write_head(format, board, writer)?;
    write_deal(format, board, deal, known, writer)?;
    write_tables(format, scoring, lines, writer)
}
