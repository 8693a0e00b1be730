//! The games of a session.
ghost use Rattle.std.specs.Prelude.{◌≡◌};
ghost use Rattle.line_text.specs.Streams.{stream, Written};
ghost use Rattle.bridge_results.specs.MakeableText.{makeable_on};
ghost use Rattle.results_pbn.specs.Totals.{seen};
ghost use Rattle.results_pbn.specs.Games.{board_start, board_tables, board_game, played_game, game_on, all_games, results_games, AreTotals, WritesGames};

use crate::optimum::write_known;
use crate::scores::write_scores;
use crate::tags::write_head;
use crate::totals::{Totals, first_board, write_totals};
use bridge_cards::BoardNumber;
use bridge_config::Config;
use bridge_ranking::Field;
use bridge_results::pages::makeable::makeable_on;
use bridge_results::{BoardLine, Makeable, Results};
use bridge_session::Session;
use line_text::write_text;
use std::io::{Error, Write};

/// Writes the tags of a board, and what could be made on it.
fn write_start<W: Write>(
    session: &Session,
    boards: &[Option<Makeable>],
    board: BoardNumber,
    writer: &mut W,
) -> Result<(), Error>
    ensures { Written (stream W.contents writer.old writer.new) (board_start session.now boards.now board) result }
{
    write_head(session.config(), board, session.deal(board), writer)?;
    write_known(board, makeable_on(boards, board), writer)
}

/// Writes the tables of a board with these lines.
fn write_tables<W: Write>(
    config: &Config,
    totals: &Totals,
    board: BoardNumber,
    lines: &[BoardLine],
    writer: &mut W,
) -> Result<(), Error>
    ensures { Written (stream W.contents writer.old writer.new) (board_tables config.now (seen totals.now) board lines.now) result }
{
    write_scores(config.fields().scoring, lines, writer)?;
    write_totals(config, totals, board, writer)?;
    write_text(writer, b"\n")
}

/// Writes the game of a board with these lines.
fn write_game<W: Write>(
    session: &Session,
    boards: &[Option<Makeable>],
    totals: &Totals,
    board: BoardNumber,
    lines: &[BoardLine],
    writer: &mut W,
) -> Result<(), Error>
    ensures { Written (stream W.contents writer.old writer.new) (board_game session.now boards.now (seen totals.now) board lines.now) result }
{
    write_start(session, boards, board, writer)?;
    write_tables(session.config(), totals, board, lines, writer)
}

/// The same where a table has a result.
fn write_played<W: Write>(
    session: &Session,
    boards: &[Option<Makeable>],
    totals: &Totals,
    board: BoardNumber,
    lines: &[BoardLine],
    writer: &mut W,
) -> Result<(), Error>
    ensures { Written (stream W.contents writer.old writer.new) (played_game session.now boards.now (seen totals.now) board lines.now) result }
{
    if lines.is_empty() {
        return write_text(writer, b"");
    }
    write_game(session, boards, totals, board, lines, writer)
}

/// Writes the game of a board with the lines of its traveller.
fn write_game_on<W: Write>(
    session: &Session,
    results: &Results<'_>,
    boards: &[Option<Makeable>],
    totals: &Totals,
    board: BoardNumber,
    writer: &mut W,
) -> Result<(), Error>
    requires { results.now ≡ session.now }
    ensures { Written (stream W.contents writer.old writer.new) (game_on session.now boards.now (seen totals.now) board) result }
{
    let lines = results.traveller(board);
    write_played(session, boards, totals, board, lines.as_slice(), writer)
}

/// Writes the games of all boards, by number.
fn write_all<W: Write>(
    session: &Session,
    results: &Results<'_>,
    boards: &[Option<Makeable>],
    totals: &Totals,
    writer: &mut W,
) -> Result<(), Error>
    requires { results.now ≡ session.now }
    ensures { Written (stream W.contents writer.old writer.new) (all_games session.now boards.now (seen totals.now)) result }
{
    for number in 1..37 {
        let board = BoardNumber::new(number).unwrap();
        write_game_on(session, results, boards, totals, board, writer)?;
    }
    Ok(())
}

/// Writes the text with these rankings.
fn write_text_with<W: Write>(
    session: &Session,
    results: &Results<'_>,
    boards: &[Option<Makeable>],
    totals: &Totals,
    writer: &mut W,
) -> Result<(), Error>
    requires { results.now ≡ session.now }
    ensures { Written (stream W.contents writer.old writer.new) (results_games session.now boards.now (seen totals.now)) result }
{
    write_text(writer, b"% PBN 2.1\n")?;
    write_all(session, results, boards, totals, writer)
}

/// The rankings, to stand in the first game.
fn totals_of(results: &Results<'_>) -> Totals
    ensures { AreTotals results.now (seen result) }
{
    let board = first_board(results.plays());
    let first = results.ranking(Field::First);
    let second = results.ranking(Field::Second);
    Totals {
        board,
        first,
        second,
    }
}

/// Writes the results of the session in Portable Bridge Notation 2.1 (sections 3.4 and 4): a game for each board of which a table
/// has a result, by number, with a row of its ScoreTable for each line of its traveller, and with OptimumScore and
/// OptimumResultTable where `boards`, from board 1 on, says what could be made; in the first game also the rankings as
/// TotalScoreTable. It takes no memory.
///
/// It stops at the writer's first error, or with `WriteZero` where a write takes no byte: the writer then has a prefix of
/// the text.
pub fn write_results_games<W: Write>(
    session: &Session,
    boards: &[Option<Makeable>],
    writer: &mut W,
) -> Result<(), Error>
    ensures { WritesGames (stream W.contents writer.old writer.new) boards.now session.now result }
{
    let results = Results::new(session);
    let totals = totals_of(&results);
    write_text_with(session, &results, boards, &totals, writer)
}
