//! The sheet of the boards, and that of the score cards.
ghost use Rattle.std.specs.Prelude.{◌≡◌, ◌≤◌, length, flat_map};
ghost use Rattle.std.specs.List.{range_with_len};
ghost use Rattle.line_text.specs.Streams.{stream, Written};
ghost use Rattle.page_layout.specs.Page.{section_end};
ghost use Rattle.bridge_results.specs.CardText.{score_card_text};
ghost use Rattle.bridge_results.specs.ResultsText.{sheet_head, played_text, board_on, all_boards, boards_text, card_on, all_cards, cards_text};

use crate::card::CardLine;
use crate::makeable::Makeable;
use crate::pages::board::write_board;
use crate::pages::makeable::makeable_on;
use crate::pages::pair_card::write_card;
use crate::results::Results;
use crate::traveller::BoardLine;
use bridge_cards::BoardNumber;
use bridge_config::Config;
use bridge_session::Session;
use evening_draft::PairNames;
use line_text::write_text;
use page_layout::{
    Format, Level, PageText, Section, push_heading, push_section_end, push_section_start,
};
use std::io::{Error, Write};

/// Writes what begins a sheet of that heading.
pub fn write_sheet_head<W: Write>(
    format: Format,
    heading: &[u8],
    writer: &mut W,
) -> Result<(), Error>
    requires { length heading.now ≤ 20 }
    ensures { Written (stream W.contents writer.old writer.new) (sheet_head format heading.now) result }
{
    let mut text = PageText::new();
    push_section_start(&mut text, format, Section::Sheet);
    push_heading(&mut text, format, Level::Sheet, heading);
    write_text(writer, text.as_slice())
}

/// Writes what ends a sheet.
fn write_sheet_end<W: Write>(format: Format, writer: &mut W) -> Result<(), Error>
    ensures { Written (stream W.contents writer.old writer.new) (section_end format) result }
{
    let mut text = PageText::new();
    push_section_end(&mut text, format);
    write_text(writer, text.as_slice())
}

/// Writes a board with these lines, if it was played.
fn write_played<W: Write>(
    format: Format,
    analysis: &[Option<Makeable>],
    session: &Session,
    board: BoardNumber,
    lines: &[BoardLine],
    writer: &mut W,
) -> Result<(), Error>
    requires { length lines.now ≤ 144 }
    ensures { Written (stream W.contents writer.old writer.new) (played_text format analysis.now session.now board lines.now) result }
{
    if lines.is_empty() {
        return write_text(writer, b"");
    }
    let scoring = session.config().fields().scoring;
    let known = makeable_on(analysis, board);
    let deal = session.deal(board);
    write_board(format, scoring, board, deal, known, lines, writer)
}

/// Writes a board, if it was played.
fn write_board_of<W: Write>(
    format: Format,
    analysis: &[Option<Makeable>],
    session: &Session,
    results: &Results<'_>,
    board: BoardNumber,
    writer: &mut W,
) -> Result<(), Error>
    requires { results.now ≡ session.now }
    ensures { Written (stream W.contents writer.old writer.new) (board_on format analysis.now session.now board) result }
{
    let lines = results.traveller(board);
    write_played(format, analysis, session, board, lines.as_slice(), writer)
}

/// Writes the boards that were played, by number.
fn write_boards<W: Write>(
    format: Format,
    analysis: &[Option<Makeable>],
    session: &Session,
    results: &Results<'_>,
    writer: &mut W,
) -> Result<(), Error>
    requires { results.now ≡ session.now }
    ensures { Written (stream W.contents writer.old writer.new) (all_boards format analysis.now session.now) result }
{
    for number in 1..37 {
        let board = BoardNumber::new(number).unwrap();
        write_board_of(format, analysis, session, results, board, writer)?;
    }
    Ok(())
}

/// Writes the sheet of the boards.
pub fn write_board_sheet<W: Write>(
    format: Format,
    analysis: &[Option<Makeable>],
    session: &Session,
    results: &Results<'_>,
    writer: &mut W,
) -> Result<(), Error>
    requires { results.now ≡ session.now }
    ensures { Written (stream W.contents writer.old writer.new) (boards_text format analysis.now session.now) result }
{
    write_sheet_head(format, b"Boards", writer)?;
    write_boards(format, analysis, session, results, writer)?;
    write_sheet_end(format, writer)
}

/// Writes the card of a pair with these lines.
fn write_card_by<W: Write>(
    format: Format,
    names: Option<&[PairNames]>,
    config: &Config,
    pair: u8,
    lines: &[CardLine],
    writer: &mut W,
) -> Result<(), Error>
    requires { length lines.now ≤ 36 }
    ensures { Written (stream W.contents writer.old writer.new) (score_card_text format config.now.scoring names.entry config.now.pairs pair lines.now) result }
{
    let fields = config.fields();
    let pairs = fields.pairs.as_slice();
    write_card(format, fields.scoring, names, pairs, pair, lines, writer)
}

/// Writes the card of a pair.
fn write_card_of<W: Write>(
    format: Format,
    names: Option<&[PairNames]>,
    session: &Session,
    results: &Results<'_>,
    pair: u8,
    writer: &mut W,
) -> Result<(), Error>
    requires { results.now ≡ session.now }
    ensures { Written (stream W.contents writer.old writer.new) (card_on format names.entry session.now pair) result }
{
    let card = results.score_card(pair);
    write_card_by(
        format,
        names,
        session.config(),
        pair,
        card.as_slice(),
        writer,
    )
}

/// Writes the cards of the pairs, by number.
fn write_cards<W: Write>(
    format: Format,
    names: Option<&[PairNames]>,
    session: &Session,
    results: &Results<'_>,
    pairs: u8,
    writer: &mut W,
) -> Result<(), Error>
    requires results { results.now ≡ session.now }
    requires few { pairs ≤ 24 }
    ensures { Written (stream W.contents writer.old writer.new) (flat_map (card_on format names.entry session.now) (range_with_len 1 pairs)) result }
{
    for pair in 1..pairs + 1 {
        write_card_of(format, names, session, results, pair, writer)?;
    }
    Ok(())
}

/// Writes the cards of all pairs.
fn write_all_cards<W: Write>(
    format: Format,
    names: Option<&[PairNames]>,
    session: &Session,
    results: &Results<'_>,
    writer: &mut W,
) -> Result<(), Error>
    requires { results.now ≡ session.now }
    ensures { Written (stream W.contents writer.old writer.new) (all_cards format names.entry session.now) result }
{
    let pairs = session.config().fields().movement.shape().pairs;
    write_cards(format, names, session, results, pairs, writer)
}

/// Writes the sheet of the score cards.
pub fn write_card_sheet<W: Write>(
    format: Format,
    names: Option<&[PairNames]>,
    session: &Session,
    results: &Results<'_>,
    writer: &mut W,
) -> Result<(), Error>
    requires { results.now ≡ session.now }
    ensures { Written (stream W.contents writer.old writer.new) (cards_text format names.entry session.now) result }
{
    write_sheet_head(format, b"Score cards", writer)?;
    write_all_cards(format, names, session, results, writer)?;
    write_sheet_end(format, writer)
}
