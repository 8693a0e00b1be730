//! The plays of several sections as a table.
ghost use Rattle.std.specs.Prelude.{flat_map};
ghost use Rattle.line_text.specs.Streams.{stream, Written};
ghost use Rattle.bridge_results.specs.TablesText.{play_row as row_in_section};
ghost use Rattle.event_ranking.specs.EventRanking.{scoring_of};
ghost use Rattle.event_results.specs.EventTables.{section_field, play_row, play_titles, board_rows, all_rows, plays_table};

use crate::play::SectionPlay;
use crate::results::EventResults;
use crate::tables::section::section_field;
use bridge_cards::{BoardNumber, Scoring};
use bridge_results::BoardLine;
use bridge_results::tables::plays::play_row;
use event_ranking::scoring_of;
use line_text::write_text;
use std::io::{Error, Write};

/// Writes the section that begins a row.
fn write_section<W: Write>(section: u8, writer: &mut W) -> Result<(), Error>
    ensures { Written (stream W.contents writer.old writer.new) (section_field section) result }
{
    write_text(writer, section_field(section).as_slice())
}

/// Writes the row that a play has in the table of its section.
fn write_line<W: Write>(
    scoring: Scoring,
    board: BoardNumber,
    line: &BoardLine,
    writer: &mut W,
) -> Result<(), Error>
    ensures { Written (stream W.contents writer.old writer.new) (row_in_section scoring board line.now) result }
{
    write_text(writer, play_row(scoring, board, line).as_slice())
}

/// Writes the row of a play.
fn write_row<W: Write>(
    scoring: Scoring,
    board: BoardNumber,
    play: &SectionPlay,
    writer: &mut W,
) -> Result<(), Error>
    ensures { Written (stream W.contents writer.old writer.new) (play_row scoring board play.now) result }
{
    write_section(play.section, writer)?;
    write_line(scoring, board, &play.line, writer)
}

/// Writes the rows of the lines of a board.
fn write_rows<W: Write>(
    scoring: Scoring,
    board: BoardNumber,
    plays: &[SectionPlay],
    writer: &mut W,
) -> Result<(), Error>
    ensures { Written (stream W.contents writer.old writer.new) (flat_map (play_row scoring board) plays.now) result }
{
    for play in plays {
        write_row(scoring, board, play, writer)?;
    }
    Ok(())
}

/// Writes the rows of a board.
fn write_board_rows<W: Write>(
    results: &EventResults<'_>,
    board: BoardNumber,
    writer: &mut W,
) -> Result<(), Error>
    ensures { Written (stream W.contents writer.old writer.new) (board_rows results.now board) result }
{
    let scoring = scoring_of(results.sections());
    write_rows(scoring, board, results.traveller(board), writer)
}

/// Writes the rows of all boards, by number.
fn write_all_rows<W: Write>(results: &EventResults<'_>, writer: &mut W) -> Result<(), Error>
    ensures { Written (stream W.contents writer.old writer.new) (all_rows results.now) result }
{
    for number in 1..37 {
        let board = BoardNumber::new(number).unwrap();
        write_board_rows(results, board, writer)?;
    }
    Ok(())
}

/// Writes what stands above the rows.
fn write_titles<W: Write>(writer: &mut W) -> Result<(), Error>
    ensures { Written (stream W.contents writer.old writer.new) play_titles result }
{
    write_text(
        writer,
        b"section,board,round,table,ns,ew,contract,by,lead,tricks,score,ns_gain,ew_gain\r\n",
    )
}

/// Writes the plays of all sections of which something came, as comma-separated values: below a row of titles a row for each, by
/// board and in the order of its traveller over all sections, with the section's letters before what the traveller has. It takes
/// no memory.
///
/// It stops at the writer's first error, or with `WriteZero` where a write takes no byte: the writer then has a prefix of
/// the text.
pub fn write_event_plays<W: Write>(results: &EventResults<'_>, writer: &mut W) -> Result<(), Error>
    ensures { Written (stream W.contents writer.old writer.new) (plays_table results.now) result }
{
    write_titles(writer)?;
    write_all_rows(results, writer)
}
