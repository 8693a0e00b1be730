//! A board in HTML: its hands and what could be made, its traveller, its frequencies, and how each table played it.
ghost use Rattle.std.specs.Prelude.{◌≡◌, ◌≤◌, length};
ghost use Rattle.line_text.specs.Streams.{stream, Written};
ghost use Rattle.bridge_results.specs.Costs.{seen};
ghost use Rattle.bridge_results.specs.HtmlBoard.{available_on, board_start, html_hands, html_deal, html_tables, html_played, board_html};

use crate::analysis::{Analysis, PlayCosts};
use crate::html::lines::write_traveller;
use crate::html::links::board_target;
use crate::html::often::write_often;
use crate::html::recorded::write_courses;
use crate::makeable::Makeable;
use crate::pages::board::{board_words, deal_words, write_deal as write_cards, write_end};
use crate::pages::makeable::makeable_on;
use crate::results::Results;
use crate::traveller::BoardLine;
use bridge_cards::{BoardNumber, Scoring};
use bridge_session::Session;
use evening_draft::PairNames;
use line_text::write_text;
use page_layout::{Format, Level, PageText, push_bytes, push_heading, push_paragraph};
use std::io::{Error, Write};

/// Writes what stands above the hands of a board.
#[tactic(auto, unfolding(crate::specs::HtmlBoard::board_start))]
fn write_start<W: Write>(board: BoardNumber, writer: &mut W) -> Result<(), Error>
    ensures { Written (stream W.contents writer.old writer.new) (board_start board) result }
{
    let target = board_target(board);
    let heading = board_words(board);
    let words = deal_words(board);
    let mut text = PageText::new();
    push_bytes(&mut text, b"<section class=\"traveller\" id=\"");
    push_bytes(&mut text, target.as_str().as_bytes());
    push_bytes(&mut text, b"\">\n");
    push_heading(
        &mut text,
        Format::Html,
        Level::Part,
        heading.as_str().as_bytes(),
    );
    push_paragraph(&mut text, Format::Html, words.as_str().as_bytes());
    write_text(writer, text.as_slice())
}

/// Writes the hands of a board, once it is dealt, and what could be made, if it is known.
fn write_hands_of<W: Write>(
    boards: &[Option<Makeable>],
    session: &Session,
    board: BoardNumber,
    writer: &mut W,
) -> Result<(), Error>
    ensures { Written (stream W.contents writer.old writer.new) (html_hands boards.now session.now board) result }
{
    let known = makeable_on(boards, board);
    write_cards(Format::Html, board, session.deal(board), known, writer)
}

/// Writes the heading of a board, and its hands with what could be made.
fn write_deal<W: Write>(
    boards: &[Option<Makeable>],
    session: &Session,
    board: BoardNumber,
    writer: &mut W,
) -> Result<(), Error>
    ensures { Written (stream W.contents writer.old writer.new) (html_deal boards.now session.now board) result }
{
    write_start(board, writer)?;
    write_hands_of(boards, session, board, writer)
}

/// Writes the traveller and the frequencies of a board.
fn write_tables<W: Write>(
    scoring: Scoring,
    available: u32,
    lines: &[BoardLine],
    writer: &mut W,
) -> Result<(), Error>
    requires { length lines.now ≤ 144 }
    ensures { Written (stream W.contents writer.old writer.new) (html_tables scoring available lines.now) result }
{
    write_traveller(scoring, available, lines, writer)?;
    write_often(lines, writer)
}

/// Writes the tables of a board.
fn write_tables_of<W: Write>(
    session: &Session,
    results: &Results<'_>,
    board: BoardNumber,
    lines: &[BoardLine],
    writer: &mut W,
) -> Result<(), Error>
    requires results { results.now ≡ session.now }
    requires few { length lines.now ≤ 144 }
    ensures { Written (stream W.contents writer.old writer.new) (html_tables session.now.configuration.scoring (available_on session.now board) lines.now) result }
{
    let scoring = session.config().fields().scoring;
    write_tables(scoring, results.available(board), lines, writer)
}

/// Writes the tables of a board, and how it was played.
fn write_played<W: Write>(
    names: Option<&[PairNames]>,
    plays: &[PlayCosts],
    session: &Session,
    results: &Results<'_>,
    board: BoardNumber,
    lines: &[BoardLine],
    writer: &mut W,
) -> Result<(), Error>
    requires results { results.now ≡ session.now }
    requires few { length lines.now ≤ 144 }
    ensures { Written (stream W.contents writer.old writer.new) (html_played names.entry plays.now session.now board lines.now) result }
{
    write_tables_of(session, results, board, lines, writer)?;
    write_courses(names, plays, session, lines, writer)?;
    write_end(Format::Html, writer)
}

/// Writes a board with the lines of its traveller.
pub fn write_board<W: Write>(
    names: Option<&[PairNames]>,
    analysis: &Analysis<'_>,
    session: &Session,
    results: &Results<'_>,
    board: BoardNumber,
    lines: &[BoardLine],
    writer: &mut W,
) -> Result<(), Error>
    requires results { results.now ≡ session.now }
    requires few { length lines.now ≤ 144 }
    ensures { Written (stream W.contents writer.old writer.new) (board_html names.entry (seen analysis.now) session.now board lines.now) result }
{
    write_deal(analysis.boards, session, board, writer)?;
    write_played(
        names,
        analysis.plays,
        session,
        results,
        board,
        lines,
        writer,
    )
}
