//! The plays of a session that are compared, with their scores or averages.
ghost use Rattle.std.specs.Prelude.{◌≡◌, ◌≤◌, length, map, All, IfSome, Some};
ghost use Rattle.std.specs.List.{filter_map};
ghost use Rattle.bridge_score.specs.ScoringTable.{IsScore};
ghost use Rattle.session_rules.specs.Outcome.{HasFewTricks};
ghost use Rattle.bridge_ranking.specs.Ranking.{score_for, played_score, result_of};
ghost use Rattle.bridge_ranking.specs.KeptGames.{IsGame, IsResult, kept_game, kept_games};

use arrayvec::ArrayVec;
use bridge_auction::Contract;
use bridge_cards::{BoardNumber, Side, vulnerable};
use bridge_movement::Row;
use bridge_score::score;
use bridge_table::Record;
use session_rules::{Average, Outcome};

/// How many plays a session may have: three in each of 144 rows.
pub const MOST_PLAYS: usize = 432;

/// What a play is compared by.
#[derive(Clone, Copy, Debug, PartialEq, Eq)]
pub enum PlayResult {
    /// What North and South scored, in points: it counts among the scores of its board.
    Score(i32),
    /// What each side was awarded (Law 12C2): no score of the board.
    Averages { ns: Average, ew: Average },
}

/// A score of 0, so that a list of games has a value for the indexes that it does not use.
impl Default for PlayResult {
    ghost use Rattle.std.specs.Prelude.{◌≡◌, pos};
    ghost use Rattle.bridge_ranking.specs.declared.game.PlayResult.TheVariants.{Score};

    ghost is_default = { λ result. result ≡ Score (pos 0) };

    fn default() -> Self {
        PlayResult::Score(0)
    }
}

/// A play that is compared: finished and not void, adjusted, or with an assigned score.
#[derive(Clone, Copy, Debug, Default, PartialEq, Eq)]
pub struct Game {
    /// The board's number.
    pub board: u8,
    /// The pair of North and South.
    pub ns: u8,
    /// The pair of East and West.
    pub ew: u8,
    /// The score, or the averages.
    pub result: PlayResult,
}

/// What a side scores where North and South score so much, and the other way round.
pub fn score_for(side: Side, score: i32) -> i32
    requires { IsScore score }
    ensures value { result ≡ score_for side score }
    ensures range { IsScore result }
{
    match side {
        Side::NorthSouth => score,
        Side::EastWest => -score,
    }
}

/// What North and South score for a contract on a board, with so many tricks (Law 77).
fn played_score(board: BoardNumber, contract: &Contract, tricks: u8) -> i32
    requires { tricks ≤ 13 }
    ensures value { result ≡ played_score board contract.now tricks }
    ensures range { IsScore result }
{
    let side = contract.declarer.side();
    score_for(side, score(contract, vulnerable(board, side), tricks))
}

/// What a play with that outcome is compared by, if it is.
pub fn result_of(board: BoardNumber, outcome: Outcome) -> Option<PlayResult>
    requires { HasFewTricks outcome }
    ensures value { result ≡ result_of board outcome }
    ensures range { IfSome result IsResult }
{
    match outcome {
        Outcome::Unfinished | Outcome::Voided => None,
        Outcome::PassedOut => Some(PlayResult::Score(0)),
        Outcome::Played { contract, tricks } => {
            let score = played_score(board, &contract, tricks);
            Some(PlayResult::Score(score))
        }
        Outcome::Assigned { contract, tricks } => {
            let assigned = played_score(board, &contract, tricks);
            Some(PlayResult::Score(assigned))
        }
        Outcome::Adjusted { ns, ew } => Some(PlayResult::Averages { ns, ew }),
    }
}

/// The play of a record by the pairs of a row, if it is compared.
fn game_in(row: Row, kept: &Record) -> Option<Game>
    ensures game { result ≡ kept_game row kept.now }
    ensures each { IfSome result IsGame }
{
    let result = result_of(kept.board, kept.outcome())?;
    Some(Game {
        board: kept.board.number(),
        ns: row.ns,
        ew: row.ew,
        result,
    })
}

/// The plays of a table's records that are compared.
fn games_in(row: Row, table: &[Record]) -> ArrayVec<Game, 3>
    requires { length table.now ≤ 3 }
    ensures games { result.items ≡ filter_map (kept_game row) table.now }
    ensures each { All IsGame result.items }
{
    let mut games = ArrayVec::new();
    for record in table {
        if let Some(game) = game_in(row, record) {
            games.push(game);
        }
    }
    games
}

/// The plays that are compared, of the tables of all rows.
pub fn games_of(rows: &[Row], tables: &[Vec<Record>]) -> ArrayVec<Game, MOST_PLAYS>
    requires count { length rows.now ≡ length tables.now }
    requires most { length rows.now ≤ 144 }
    requires few { All (λ table. length table.items ≤ 3) tables.now }
    ensures games { result.items ≡ kept_games rows.now (map (λ table. table.items) tables.now) }
    ensures each { All IsGame result.items }
    ensures most { length result.items ≤ 432 }
{
    let mut games = ArrayVec::new();
    for index in 0..rows.len() {
        let table = &tables[index];
        let played = games_in(rows[index], table.as_slice());
        games.try_extend_from_slice(&played).unwrap();
    }
    games
}
