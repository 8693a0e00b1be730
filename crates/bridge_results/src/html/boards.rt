//! The sheet of the boards in HTML.
ghost use Rattle.std.specs.Prelude.{◌≡◌, ◌≤◌, codes, length};
ghost use Rattle.line_text.specs.Streams.{stream, Written};
ghost use Rattle.page_layout.specs.Page.{paragraph_text};
ghost use Rattle.page_layout.specs.declared.format.Format.TheVariants.{Html};
ghost use Rattle.bridge_results.specs.Costs.{seen, costs_note};
ghost use Rattle.bridge_results.specs.HtmlPage.{played_html, html_board_on, html_boards, boards_start, html_board_sheet};

use crate::analysis::{Analysis, PlayCosts};
use crate::html::board::write_board;
use crate::pages::board::write_end;
use crate::results::Results;
use crate::traveller::BoardLine;
use bridge_cards::BoardNumber;
use bridge_session::Session;
use evening_draft::PairNames;
use line_text::write_text;
use page_layout::{Format, PageText, push_paragraph};
use std::io::{Error, Write};

/// Writes a board with these lines, if it was played.
fn write_played<W: Write>(
    names: Option<&[PairNames]>,
    analysis: &Analysis<'_>,
    session: &Session,
    results: &Results<'_>,
    board: BoardNumber,
    lines: &[BoardLine],
    writer: &mut W,
) -> Result<(), Error>
    requires results { results.now ≡ session.now }
    requires few { length lines.now ≤ 144 }
    ensures { Written (stream W.contents writer.old writer.new) (played_html names.entry (seen analysis.now) session.now board lines.now) result }
{
    if lines.is_empty() {
        return write_text(writer, b"");
    }
    write_board(names, analysis, session, results, board, lines, writer)
}

/// Writes a board, if it was played.
fn write_board_of<W: Write>(
    names: Option<&[PairNames]>,
    analysis: &Analysis<'_>,
    session: &Session,
    results: &Results<'_>,
    board: BoardNumber,
    writer: &mut W,
) -> Result<(), Error>
    requires { results.now ≡ session.now }
    ensures { Written (stream W.contents writer.old writer.new) (html_board_on names.entry (seen analysis.now) session.now board) result }
{
    let lines = results.traveller(board);
    write_played(
        names,
        analysis,
        session,
        results,
        board,
        lines.as_slice(),
        writer,
    )
}

/// Writes the boards that were played, by number.
fn write_boards<W: Write>(
    names: Option<&[PairNames]>,
    analysis: &Analysis<'_>,
    session: &Session,
    results: &Results<'_>,
    writer: &mut W,
) -> Result<(), Error>
    requires { results.now ≡ session.now }
    ensures { Written (stream W.contents writer.old writer.new) (html_boards names.entry (seen analysis.now) session.now) result }
{
    for number in 1..37 {
        let board = BoardNumber::new(number).unwrap();
        write_board_of(names, analysis, session, results, board, writer)?;
    }
    Ok(())
}

/// Writes what begins the sheet of the boards.
fn write_sheet_start<W: Write>(writer: &mut W) -> Result<(), Error>
    ensures { Written (stream W.contents writer.old writer.new) boards_start result }
{
    write_text(
        writer,
        b"<section class=\"sheet\" id=\"boards\">\n<h2>Boards</h2>\n",
    )
}

/// What the marks behind cards say.
fn note_text() -> PageText
    ensures { result.items ≡ paragraph_text Html (codes "A card with -1 behind it gave a trick away, as all the cards lay.") }
{
    let mut text = PageText::new();
    push_paragraph(
        &mut text,
        Format::Html,
        b"A card with -1 behind it gave a trick away, as all the cards lay.",
    );
    text
}

/// Writes what the marks behind cards say, where there may be some.
fn write_note<W: Write>(plays: &[PlayCosts], writer: &mut W) -> Result<(), Error>
    ensures { Written (stream W.contents writer.old writer.new) (costs_note plays.now) result }
{
    if plays.is_empty() {
        return write_text(writer, b"");
    }
    write_text(writer, note_text().as_slice())
}

/// Writes the sheet of the boards.
pub fn write_board_sheet<W: Write>(
    names: Option<&[PairNames]>,
    analysis: &Analysis<'_>,
    session: &Session,
    results: &Results<'_>,
    writer: &mut W,
) -> Result<(), Error>
    requires { results.now ≡ session.now }
    ensures { Written (stream W.contents writer.old writer.new) (html_board_sheet names.entry (seen analysis.now) session.now) result }
{
    write_sheet_start(writer)?;
    write_note(analysis.plays, writer)?;
    write_boards(names, analysis, session, results, writer)?;
    write_end(Format::Html, writer)
}
