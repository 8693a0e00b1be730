//! The sheet of the boards.
ghost use Rattle.line_text.specs.Streams.{stream, Written};
ghost use Rattle.event_ranking.specs.EventRanking.{scoring_of};
ghost use Rattle.event_results.specs.EventPage.{board_tables, board_text, played_text, board_on, all_boards, boards_text};

use crate::pages::board::write_traveller;
use crate::pages::deal::write_board_deal;
use crate::play::SectionPlay;
use crate::results::EventResults;
use bridge_cards::BoardNumber;
use bridge_results::Makeable;
use bridge_results::pages::board::{write_end, write_head};
use bridge_results::pages::sheets::write_sheet_head;
use bridge_session::Session;
use event_ranking::scoring_of;
use line_text::write_text;
use page_layout::Format;
use std::io::{Error, Write};

/// Writes the traveller of a board, and what ends the board.
fn write_tables<W: Write>(
    format: Format,
    sections: &[Session],
    lines: &[SectionPlay],
    writer: &mut W,
) -> Result<(), Error>
    ensures { Written (stream W.contents writer.old writer.new) (board_tables format sections.now lines.now) result }
{
    write_traveller(format, scoring_of(sections), lines, writer)?;
    write_end(format, writer)
}

/// Writes a board with the lines of its traveller.
fn write_board<W: Write>(
    format: Format,
    boards: &[Option<Makeable>],
    sections: &[Session],
    board: BoardNumber,
    lines: &[SectionPlay],
    writer: &mut W,
) -> Result<(), Error>
    ensures { Written (stream W.contents writer.old writer.new) (board_text format boards.now sections.now board lines.now) result }
{
    write_head(format, board, writer)?;
    write_board_deal(format, boards, sections, board, writer)?;
    write_tables(format, sections, lines, writer)
}

/// Writes a board with these lines, if it was played.
fn write_played<W: Write>(
    format: Format,
    boards: &[Option<Makeable>],
    sections: &[Session],
    board: BoardNumber,
    lines: &[SectionPlay],
    writer: &mut W,
) -> Result<(), Error>
    ensures { Written (stream W.contents writer.old writer.new) (played_text format boards.now sections.now board lines.now) result }
{
    if lines.is_empty() {
        return write_text(writer, b"");
    }
    write_board(format, boards, sections, board, lines, writer)
}

/// Writes a board, if it was played.
fn write_board_of<W: Write>(
    format: Format,
    boards: &[Option<Makeable>],
    results: &EventResults<'_>,
    board: BoardNumber,
    writer: &mut W,
) -> Result<(), Error>
    ensures { Written (stream W.contents writer.old writer.new) (board_on format boards.now results.now board) result }
{
    let lines = results.traveller(board);
    write_played(format, boards, results.sections(), board, lines, writer)
}

/// Writes the boards that were played, by number.
fn write_boards<W: Write>(
    format: Format,
    boards: &[Option<Makeable>],
    results: &EventResults<'_>,
    writer: &mut W,
) -> Result<(), Error>
    ensures { Written (stream W.contents writer.old writer.new) (all_boards format boards.now results.now) result }
{
    for number in 1..37 {
        let board = BoardNumber::new(number).unwrap();
        write_board_of(format, boards, results, board, writer)?;
    }
    Ok(())
}

/// Writes the sheet of the boards.
pub fn write_board_sheet<W: Write>(
    format: Format,
    boards: &[Option<Makeable>],
    results: &EventResults<'_>,
    writer: &mut W,
) -> Result<(), Error>
    ensures { Written (stream W.contents writer.old writer.new) (boards_text format boards.now results.now) result }
{
    write_sheet_head(format, b"Boards", writer)?;
    write_boards(format, boards, results, writer)?;
    write_end(format, writer)
}
