//! The traveller of a board over all sections.
ghost use Rattle.std.specs.Prelude.{◌≡◌, flat_map};
ghost use Rattle.line_text.specs.Streams.{stream, Written};
ghost use Rattle.event_results.specs.EventPage.{line_row, line_titles, traveller_text};

use crate::columns::LINE_COLUMNS;
use crate::play::SectionPlay;
use bridge_cards::Scoring;
use bridge_results::pages::board::{side_gain, write_table_end};
use bridge_results::pages::cells::{
    contract_cell, declarer_cell, lead_cell, line_score, score_cell, tricks_cell,
};
use event_ranking::section_letters;
use line_text::{number_text, write_text};
use page_layout::{Format, PageText, push_caption, push_row, push_table_start, push_titles};
use std::io::{Error, Write};

/// The row of a play.
fn line_row(format: Format, scoring: Scoring, line: &SectionPlay) -> PageText
    ensures { result.items ≡ line_row format scoring line.now }
{
    let (play, comparison) = (&line.line.play, line.line.comparison);
    let section = section_letters(line.section);
    let round = number_text(u32::from(play.row.round));
    let table = number_text(u32::from(play.row.table));
    let ns = number_text(u32::from(play.row.ns));
    let ew = number_text(u32::from(play.row.ew));
    let contract = contract_cell(play.outcome);
    let lead = lead_cell(play.lead);
    let tricks = tricks_cell(play.outcome);
    let score = score_cell(play.outcome, line_score(comparison));
    let ns_gain = side_gain(scoring, comparison, true);
    let ew_gain = side_gain(scoring, comparison, false);
    let cells = [
        section.as_str().as_bytes(),
        round.as_str().as_bytes(),
        table.as_str().as_bytes(),
        ns.as_str().as_bytes(),
        ew.as_str().as_bytes(),
        contract.as_str().as_bytes(),
        declarer_cell(play.outcome).as_bytes(),
        lead.as_str().as_bytes(),
        tricks.as_str().as_bytes(),
        score.as_str().as_bytes(),
        ns_gain.as_str().as_bytes(),
        ew_gain.as_str().as_bytes(),
    ];
    let mut text = PageText::new();
    push_row(&mut text, format, &LINE_COLUMNS, &cells);
    text
}

/// Writes the row of a play.
fn write_line<W: Write>(
    format: Format,
    scoring: Scoring,
    line: &SectionPlay,
    writer: &mut W,
) -> Result<(), Error>
    ensures { Written (stream W.contents writer.old writer.new) (line_row format scoring line.now) result }
{
    let row = line_row(format, scoring, line);
    write_text(writer, row.as_slice())
}

/// Writes what stands above the rows.
fn write_line_titles<W: Write>(format: Format, writer: &mut W) -> Result<(), Error>
    ensures { Written (stream W.contents writer.old writer.new) (line_titles format) result }
{
    let titles: [&[u8]; 12] = [
        b"Section",
        b"Round",
        b"Table",
        b"NS",
        b"EW",
        b"Contract",
        b"By",
        b"Lead",
        b"Tricks",
        b"Score",
        b"NS gain",
        b"EW gain",
    ];
    let mut text = PageText::new();
    push_table_start(&mut text, format);
    push_caption(&mut text, format, b"Results");
    push_titles(&mut text, format, &LINE_COLUMNS, &titles);
    write_text(writer, text.as_slice())
}

/// Writes the rows of a traveller.
fn write_lines<W: Write>(
    format: Format,
    scoring: Scoring,
    lines: &[SectionPlay],
    writer: &mut W,
) -> Result<(), Error>
    ensures { Written (stream W.contents writer.old writer.new) (flat_map (line_row format scoring) lines.now) result }
{
    for line in lines {
        write_line(format, scoring, line, writer)?;
    }
    Ok(())
}

/// Writes a traveller.
pub fn write_traveller<W: Write>(
    format: Format,
    scoring: Scoring,
    lines: &[SectionPlay],
    writer: &mut W,
) -> Result<(), Error>
    ensures { Written (stream W.contents writer.old writer.new) (traveller_text format scoring lines.now) result }
{
    write_line_titles(format, writer)?;
    write_lines(format, scoring, lines, writer)?;
    write_table_end(format, writer)
}
