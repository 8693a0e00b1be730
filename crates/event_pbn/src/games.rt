//! The games of several sections.
ghost use Rattle.std.specs.Prelude.{◌≡◌};
ghost use Rattle.line_text.specs.Streams.{stream, Written};
ghost use Rattle.event_pbn.specs.EventGames.{seen, totals_on, board_start, board_tables, board_game, played_game, game_on, all_games, games_text, event_games, WritesEventGames};

use crate::played::first_board;
use crate::scores::write_section_scores;
use crate::totals::write_total_table;
use bridge_cards::{BoardNumber, Scoring};
use bridge_config::Config;
use bridge_ranking::Field;
use bridge_results::Makeable;
use bridge_results::pages::makeable::makeable_on;
use event_ranking::{SectionRanked, first_deal};
use event_results::{EventResults, SectionPlay};
use line_text::write_text;
use results_pbn::optimum::write_known;
use results_pbn::tags::write_head;
use std::io::{Error, Write};

/// What the games are made of.
#[derive(Clone, Copy)]
pub struct EventGames<'a> {
    /// The configuration of the first section.
    pub config: &'a Config,
    /// The results of all sections.
    pub results: &'a EventResults<'a>,
    /// What could be made on each board from board 1 on, as far as it is known.
    pub boards: &'a [Option<Makeable>],
    /// The board in whose game the rankings stand.
    pub board: u8,
    /// The ranking of the first field.
    pub first: &'a [SectionRanked],
    /// The ranking of the second field, which is empty where there is none.
    pub second: &'a [SectionRanked],
}

/// How scores are compared.
fn scoring_of(games: &EventGames<'_>) -> Scoring
    ensures { result ≡ (seen games.now).configuration.scoring }
{
    games.config.fields().scoring
}

/// Writes the table of the rankings in the game of its board.
fn write_totals<W: Write>(
    games: &EventGames<'_>,
    board: BoardNumber,
    writer: &mut W,
) -> Result<(), Error>
    ensures { Written (stream W.contents writer.old writer.new) (totals_on (seen games.now) board) result }
{
    if board.number() != games.board {
        return write_text(writer, b"");
    }
    let sections = games.results.sections();
    write_total_table(
        scoring_of(games),
        sections,
        games.first,
        games.second,
        writer,
    )
}

/// Writes the tags of a board, and what could be made on it.
fn write_start<W: Write>(
    games: &EventGames<'_>,
    board: BoardNumber,
    writer: &mut W,
) -> Result<(), Error>
    ensures { Written (stream W.contents writer.old writer.new) (board_start (seen games.now) board) result }
{
    let deal = first_deal(games.results.sections(), board);
    write_head(games.config, board, deal, writer)?;
    write_known(board, makeable_on(games.boards, board), writer)
}

/// Writes the tables of a board with these plays.
fn write_tables<W: Write>(
    games: &EventGames<'_>,
    board: BoardNumber,
    plays: &[SectionPlay],
    writer: &mut W,
) -> Result<(), Error>
    ensures { Written (stream W.contents writer.old writer.new) (board_tables (seen games.now) board plays.now) result }
{
    write_section_scores(scoring_of(games), plays, writer)?;
    write_totals(games, board, writer)?;
    write_text(writer, b"\n")
}

/// Writes the game of a board with these plays.
fn write_game<W: Write>(
    games: &EventGames<'_>,
    board: BoardNumber,
    plays: &[SectionPlay],
    writer: &mut W,
) -> Result<(), Error>
    ensures { Written (stream W.contents writer.old writer.new) (board_game (seen games.now) board plays.now) result }
{
    write_start(games, board, writer)?;
    write_tables(games, board, plays, writer)
}

/// The same where a table has a result.
fn write_played<W: Write>(
    games: &EventGames<'_>,
    board: BoardNumber,
    plays: &[SectionPlay],
    writer: &mut W,
) -> Result<(), Error>
    ensures { Written (stream W.contents writer.old writer.new) (played_game (seen games.now) board plays.now) result }
{
    if plays.is_empty() {
        return write_text(writer, b"");
    }
    write_game(games, board, plays, writer)
}

/// Writes the game of a board with the plays of its traveller.
fn write_game_on<W: Write>(
    games: &EventGames<'_>,
    board: BoardNumber,
    writer: &mut W,
) -> Result<(), Error>
    ensures { Written (stream W.contents writer.old writer.new) (game_on (seen games.now) board) result }
{
    write_played(games, board, games.results.traveller(board), writer)
}

/// Writes the games of all boards, by number.
fn write_all<W: Write>(games: &EventGames<'_>, writer: &mut W) -> Result<(), Error>
    ensures { Written (stream W.contents writer.old writer.new) (all_games (seen games.now)) result }
{
    for number in 1..37 {
        let board = BoardNumber::new(number).unwrap();
        write_game_on(games, board, writer)?;
    }
    Ok(())
}

/// Writes the games with these rankings.
fn write_games<W: Write>(
    results: &EventResults<'_>,
    boards: &[Option<Makeable>],
    first: &[SectionRanked],
    second: &[SectionRanked],
    writer: &mut W,
) -> Result<(), Error>
    ensures { Written (stream W.contents writer.old writer.new) (games_text results.now boards.now first.now second.now) result }
{
    match results.sections().first() {
        Some(section) => write_all(
            &EventGames {
                config: section.config(),
                results,
                boards,
                board: first_board(results),
                first,
                second,
            },
            writer,
        ),
        None => write_text(writer, b""),
    }
}

/// Writes the text with these rankings.
fn write_text_with<W: Write>(
    results: &EventResults<'_>,
    boards: &[Option<Makeable>],
    first: &[SectionRanked],
    second: &[SectionRanked],
    writer: &mut W,
) -> Result<(), Error>
    ensures { Written (stream W.contents writer.old writer.new) (event_games results.now boards.now first.now second.now) result }
{
    write_text(writer, b"% PBN 2.1\n")?;
    write_games(results, boards, first, second, writer)
}

/// Writes the results of several sections as one field in Portable Bridge Notation 2.1 (sections 3.4 and 4): a game for each board
/// of which a section has a result, by number, with the first section's event and the deal of the first that has it dealt, with a row
/// of its ScoreTable for each play of its traveller, which begins with the section's letters, and with OptimumScore and
/// OptimumResultTable where `boards`, from board 1 on, says what could be made; in the first game also the rankings over all sections
/// as TotalScoreTable. It takes no memory.
///
/// It stops at the writer's first error, or with `WriteZero` where a write takes no byte: the writer then has a prefix of
/// the text.
pub fn write_event_games<W: Write>(
    results: &EventResults<'_>,
    boards: &[Option<Makeable>],
    writer: &mut W,
) -> Result<(), Error>
    ensures { WritesEventGames (stream W.contents writer.old writer.new) boards.now results.now result }
{
    let first = results.ranking(Field::First);
    let second = results.ranking(Field::Second);
    write_text_with(results, boards, first, second, writer)
}
