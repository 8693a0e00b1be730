//! Writing the results of a session.
ghost use Rattle.std.specs.Prelude.{false};
ghost use Rattle.std.specs.Option.{option_to_list};
ghost use Rattle.line_text.specs.Streams.{stream, Written};
ghost use Rattle.session_rules.specs.Numbers.{IsRoundNumber, IsTableNumber};
ghost use Rattle.bridge_pbn.specs.Games.{game_at, games_on, all_games, session_text};
ghost use Rattle.bridge_pbn.specs.Written.{WrittenGames};

use crate::game::game_text;
use bridge_cards::BoardNumber;
use bridge_movement::Row;
use bridge_session::Session;
use line_text::write_text;
use std::io::{Error, Write};

/// Writes the game of a board by the pairs of a row, if there is one, after an empty line where a game stands before it.
/// The answer is whether a game stands there now.
fn write_game<W: Write>(
    session: &Session,
    board: BoardNumber,
    row: Row,
    begun: bool,
    writer: &mut W,
) -> Result<bool, Error>
    requires round { IsRoundNumber row.round }
    requires table { IsTableNumber row.table }
    ensures { WrittenGames (stream W.contents writer.old writer.new) begun (option_to_list (game_at session.now board row)) result }
{
    let Some(game) = game_text(session, board, row, begun) else {
        return Ok(begun);
    };
    write_text(writer, game.as_str().as_bytes())?;
    Ok(true)
}

/// Writes the games of a board. The answer is whether a game stands there now.
fn write_board<W: Write>(
    session: &Session,
    board: BoardNumber,
    begun: bool,
    writer: &mut W,
) -> Result<bool, Error>
    ensures { WrittenGames (stream W.contents writer.old writer.new) begun (games_on session.now board) result }
{
    let rows = session.config().fields().movement.rows();
    let mut begun_now = begun;
    for row in rows {
        begun_now = write_game(session, board, *row, begun_now, writer)?;
    }
    Ok(begun_now)
}

/// Writes the games of all boards.
fn write_games<W: Write>(session: &Session, writer: &mut W) -> Result<bool, Error>
    ensures { WrittenGames (stream W.contents writer.old writer.new) false (all_games session.now) result }
{
    let mut begun = false;
    for number in 1..37 {
        let board = BoardNumber::new(number).unwrap();
        begun = write_board(session, board, begun, writer)?;
    }
    Ok(begun)
}

/// Writes the results of the session in Portable Bridge Notation 2.1: all plays that are finished, not void and not
/// adjusted, by board, round and table. It takes no memory.
///
/// It stops at the writer's first error, or with `WriteZero` where a write takes no byte: the writer then has a prefix of
/// the text.
pub fn write_pbn<W: Write>(session: &Session, writer: &mut W) -> Result<(), Error>
    ensures { Written (stream W.contents writer.old writer.new) (session_text session.now) result }
{
    write_text(writer, b"% PBN 2.1\n")?;
    write_games(session, writer)?;
    Ok(())
}
