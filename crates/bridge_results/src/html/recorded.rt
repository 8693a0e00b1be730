//! How a board was played at a table, as the session's record tells.
ghost use Rattle.std.specs.Prelude.{◌≡◌, ◌-◌};
ghost use Rattle.std.specs.Option.{option_copied};
ghost use Rattle.line_text.specs.Streams.{stream, Written};
ghost use Rattle.bridge_movement.specs.Boards.{boards_before};
ghost use Rattle.session_rules.specs.State.{record_of};
ghost use Rattle.bridge_results.specs.HtmlBoard.{line_course, courses_html};
ghost use Rattle.bridge_results.specs.HtmlCourse.{is_id, shown_id, course_html, found_html, course_on};

use crate::analysis::{PlayCosts, costs_at};
use crate::html::course::write_course;
use crate::play::TablePlay;
use crate::traveller::BoardLine;
use bridge_config::Config;
use bridge_movement::boards_before;
use bridge_session::{Entry, Session};
use evening_draft::PairNames;
use line_text::write_text;
use session_rules::{BoardIndex, PlayId, RoundNumber, TableNumber};
use std::io::{Error, Write};

/// Whether these are numbers of a play.
fn is_id(round: u8, table: u8, index: u16) -> bool
    ensures { result ≡ is_id (record { round = round; table = table; index = index }) }
{
    (1 <= round && round <= 12) && ((1 <= table && table <= 12) && (1 <= index && index <= 3))
}

/// The play of a line, where its numbers are those of a play.
pub fn shown_id(config: &Config, play: &TablePlay) -> Option<PlayId>
    ensures { result ≡ shown_id config.now play.now }
{
    let row = play.row;
    let before = boards_before(config.fields().boards, row.set);
    let index = u16::from(play.board.number()).saturating_sub(before);
    if !is_id(row.round, row.table, index) {
        return None;
    }
    Some(PlayId {
        round: RoundNumber::new(row.round).unwrap(),
        table: TableNumber::new(row.table).unwrap(),
        index: BoardIndex::new(index as u8).unwrap(),
    })
}

/// Writes how a play went, with the names of a list or a configuration's, and with what its cards cost, where it is known.
fn write_course_by<W: Write>(
    names: Option<&[PairNames]>,
    costs: &[u8],
    config: &Config,
    play: &TablePlay,
    known: &Entry<'_>,
    writer: &mut W,
) -> Result<(), Error>
    ensures { Written (stream W.contents writer.old writer.new) (course_html names.entry costs.now config.now.pairs play.now known.now.auction.now (option_copied known.now.play)) result }
{
    let fields = config.fields();
    let pairs = fields.pairs.as_slice();
    write_course(names, costs, pairs, play, known.auction, known.play, writer)
}

/// Writes how the play went by its record, if there is one.
fn write_found<W: Write>(
    names: Option<&[PairNames]>,
    costs: &[u8],
    session: &Session,
    play: &TablePlay,
    id: PlayId,
    writer: &mut W,
) -> Result<(), Error>
    ensures { Written (stream W.contents writer.old writer.new) (found_html names.entry costs.now session.now play.now (record_of session.now id)) result }
{
    match session.entry(id) {
        Some(known) => write_course_by(names, costs, session.config(), play, &known, writer),
        None => write_text(writer, b""),
    }
}

/// Writes how the play of a line went.
fn write_course_on<W: Write>(
    names: Option<&[PairNames]>,
    costs: &[u8],
    session: &Session,
    play: &TablePlay,
    writer: &mut W,
) -> Result<(), Error>
    ensures { Written (stream W.contents writer.old writer.new) (course_on names.entry costs.now session.now play.now) result }
{
    match shown_id(session.config(), play) {
        Some(id) => write_found(names, costs, session, play, id, writer),
        None => write_text(writer, b""),
    }
}

/// Writes how the play of a line of a traveller went.
fn write_line_course<W: Write>(
    names: Option<&[PairNames]>,
    plays: &[PlayCosts],
    session: &Session,
    line: &BoardLine,
    writer: &mut W,
) -> Result<(), Error>
    ensures { Written (stream W.contents writer.old writer.new) (line_course names.entry plays.now session.now line.now) result }
{
    let costs = costs_at(plays, &line.play);
    write_course_on(names, costs, session, &line.play, writer)
}

/// Writes how each table played a board.
pub fn write_courses<W: Write>(
    names: Option<&[PairNames]>,
    plays: &[PlayCosts],
    session: &Session,
    lines: &[BoardLine],
    writer: &mut W,
) -> Result<(), Error>
    ensures { Written (stream W.contents writer.old writer.new) (courses_html names.entry plays.now session.now lines.now) result }
{
    for line in lines {
        write_line_course(names, plays, session, line, writer)?;
    }
    Ok(())
}
