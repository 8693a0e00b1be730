//! The plays of a session, read row by row.
ghost use Rattle.std.specs.Prelude.{◌≡◌, ◌≤◌, ◌+◌, ◌-◌, ◌*◌, length, IfSome, All, Contains, option_and_then};
ghost use Rattle.std.specs.Option.{option_copied};
ghost use Rattle.session_rules.specs.Numbers.{IsRoundNumber, IsTableNumber, IsBoardIndex};
ghost use Rattle.session_rules.specs.StateRange.{IsSession};
ghost use Rattle.bridge_results.specs.Plays.{play_by, lead_of, table_play_at, plays_at, plays_of, HasTricksWithin};
ghost use Rattle.bridge_movement.specs.Boards.{boards_before};

use crate::play::{TablePlay, push_play};
use arrayvec::ArrayVec;
use bridge_cards::{BoardNumber, Card};
use bridge_movement::{Row, boards_before};
use bridge_play::Play;
use bridge_ranking::game::MOST_PLAYS;
use bridge_session::{Entry, Session};
use session_rules::{BoardIndex, Outcome, PlayId, RoundNumber, TableNumber};

/// The board at an index of a set, from 1, where each set has so many boards.
fn board_at(boards: u8, set: u8, index: u8) -> BoardNumber
    requires boards { boards ≤ 3 }
    requires set { set ≤ 12 }
    requires index { IsBoardIndex index }
    ensures { result ≡ boards_before boards set + index }
{
    BoardNumber::new(boards_before(boards, set) as u8 + index).unwrap()
}

/// The opening lead of a play, once a card was played.
fn lead_of(play: Option<&Play>) -> Option<Card>
    ensures lead { result ≡ option_and_then (λ known. lead_of known.cards) (option_copied play.entry) }
    ensures few { IfSome (option_copied play.entry) (λ known. length known.cards ≤ 52) }
{
    play?.cards().first().copied()
}

/// The play with that outcome, if something came of it.
fn play_by(row: Row, board: BoardNumber, outcome: Outcome, lead: Option<Card>) -> Option<TablePlay>
    ensures { result ≡ play_by row board outcome lead }
{
    match outcome {
        Outcome::Unfinished => None,
        _ => Some(TablePlay {
            row,
            board,
            outcome,
            lead,
        }),
    }
}

/// The play of which so much is known, if something came of it.
fn play_known(row: Row, board: BoardNumber, known: &Entry<'_>) -> Option<TablePlay>
    ensures play { result ≡ play_by row board known.now.outcome (option_and_then (λ play. lead_of play.cards) (option_copied known.now.play)) }
    ensures few { IfSome (option_copied known.now.play) (λ play. length play.cards ≤ 52) }
{
    let lead = lead_of(known.play);
    play_by(row, board, known.outcome, lead)
}

/// The play at an index of a row's set, from 1.
fn play_id(row: Row, index: u8) -> PlayId
    requires round { IsRoundNumber row.round }
    requires table { IsTableNumber row.table }
    requires index { IsBoardIndex index }
    ensures { result ≡ record { round = row.round; table = row.table; index = index } }
{
    PlayId {
        round: RoundNumber::new(row.round).unwrap(),
        table: TableNumber::new(row.table).unwrap(),
        index: BoardIndex::new(index).unwrap(),
    }
}

/// The play of the board at an index of a row's set, from 1, if something came of it.
fn table_play_at(session: &Session, row: Row, index: u8) -> Option<TablePlay>
    requires session { IsSession session.now }
    requires row { Contains session.now.configuration.movement.rows row }
    requires index { IsBoardIndex index }
    ensures play { result ≡ table_play_at session.now row index }
    ensures tricks { IfSome result HasTricksWithin }
{
    let board = board_at(session.config().fields().boards, row.set, index);
    match session.entry(play_id(row, index)) {
        Some(known) => play_known(row, board, &known),
        None => None,
    }
}

/// The plays of a row's set.
fn plays_at(session: &Session, row: Row) -> ArrayVec<TablePlay, 3>
    requires session { IsSession session.now }
    requires row { Contains session.now.configuration.movement.rows row }
    ensures plays { result.items ≡ plays_at session.now row }
    ensures tricks { All HasTricksWithin result.items }
    ensures few { length result.items ≤ 3 }
{
    let mut plays = ArrayVec::new();
    push_play(&mut plays, table_play_at(session, row, 1).as_ref());
    push_play(&mut plays, table_play_at(session, row, 2).as_ref());
    push_play(&mut plays, table_play_at(session, row, 3).as_ref());
    plays
}

/// The plays of a session of which something came, by round, table and board.
pub fn plays_of(session: &Session) -> ArrayVec<TablePlay, MOST_PLAYS>
    requires { IsSession session.now }
    ensures plays { result.items ≡ plays_of session.now }
    ensures tricks { All HasTricksWithin result.items }
    ensures most { length result.items ≤ 432 }
{
    let rows = session.config().fields().movement.rows();
    let mut plays = ArrayVec::new();
    for row in rows {
        let played = plays_at(session, *row);
        plays.try_extend_from_slice(&played).unwrap();
    }
    plays
}
