//! How far a session is.
ghost use Rattle.std.specs.Prelude.{◌≡◌, ◌≤◌, Some};
ghost use Rattle.session_rules.specs.Numbers.{IsBoardIndex, IsRoundNumber, IsTableNumber};
ghost use Rattle.club_commands.specs.Checked.{dealt_boards_at, boards_dealt, done_by, done_at, row_done, plays_done};

use bridge_cards::BoardNumber;
use bridge_movement::Row;
use bridge_session::{BoardIndex, Outcome, PlayId, RoundNumber, Session, TableNumber};

/// 1 where the board is dealt, and else 0.
fn dealt_boards_at(session: &Session, board: BoardNumber) -> u16
    ensures count { result ≡ dealt_boards_at session.now board }
    ensures most { result ≤ 1 }
{
    match session.deal(board) {
        Some(_) => 1,
        None => 0,
    }
}

/// How many boards are dealt, up to 36.
pub fn boards_dealt(session: &Session) -> u16
    ensures { result ≡ boards_dealt session.now }
{
    let mut count = 0;
    for number in 1..37 {
        let board = BoardNumber::new(number).unwrap();
        count += dealt_boards_at(session, board);
    }
    count
}

/// 1 where a play with this outcome is finished, void or adjusted, and else 0.
fn done_by(outcome: Outcome) -> u16
    ensures count { result ≡ done_by (Some outcome) }
    ensures most { result ≤ 1 }
{
    match outcome {
        Outcome::Unfinished => 0,
        _ => 1,
    }
}

/// The same of the play of the board at an index of a row's set, and 0 where there is no such play.
fn done_at(session: &Session, row: Row, index: u8) -> u16
    requires round { IsRoundNumber row.round }
    requires table { IsTableNumber row.table }
    requires index { IsBoardIndex index }
    ensures count { result ≡ done_at session.now row index }
    ensures most { result ≤ 1 }
{
    let play = PlayId {
        round: RoundNumber::new(row.round).unwrap(),
        table: TableNumber::new(row.table).unwrap(),
        index: BoardIndex::new(index).unwrap(),
    };
    match session.entry(play) {
        Some(entry) => done_by(entry.outcome),
        None => 0,
    }
}

/// How many plays of a row's set are finished, void or adjusted.
fn row_done(session: &Session, row: Row) -> u16
    requires round { IsRoundNumber row.round }
    requires table { IsTableNumber row.table }
    ensures count { result ≡ row_done session.now row }
    ensures most { result ≤ 3 }
{
    done_at(session, row, 1) + done_at(session, row, 2) + done_at(session, row, 3)
}

/// How many plays are finished, void or adjusted, up to 432.
pub fn plays_done(session: &Session) -> u16
    ensures { result ≡ plays_done session.now }
{
    let rows = session.config().fields().movement.rows();
    let mut count = 0;
    for row in rows {
        count += row_done(session, *row);
    }
    count
}
