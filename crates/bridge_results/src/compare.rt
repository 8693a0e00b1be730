//! How a play compares with the others of its board.
ghost use Rattle.std.specs.Prelude.{◌≡◌, ◌≤◌, length, IfSome, All};
ghost use Rattle.bridge_ranking.specs.Gains.{AreGames};
ghost use Rattle.bridge_ranking.specs.KeptGames.{IsGame, IsResult};
ghost use Rattle.bridge_results.specs.Plays.{HasTricksWithin};
ghost use Rattle.bridge_results.specs.Comparison.{result_in, game_of, games_among, comparison_by, comparison_of};

use crate::gain::gain_on;
use crate::play::TablePlay;
use arrayvec::ArrayVec;
use bridge_cards::{BoardNumber, Scoring, Side};
use bridge_ranking::game::{MOST_PLAYS, result_of};
use bridge_ranking::{Game, PlayResult};

/// What a play is compared by, and what each side gained by it against the other scores of its board: matchpoints in tenths,
/// or cross-IMPs.
#[derive(Clone, Copy)]
pub struct Comparison {
    /// The score of North and South, or the averages.
    pub result: PlayResult,
    /// What North and South gained.
    pub ns_gain: i32,
    /// What East and West gained.
    pub ew_gain: i32,
}

/// What a play is compared by, if it is not void.
pub fn result_in(play: &TablePlay) -> Option<PlayResult>
    requires { HasTricksWithin play.now }
    ensures value { result ≡ result_in play.now }
    ensures range { IfSome result IsResult }
{
    result_of(play.board, play.outcome)
}

/// The game of a play, if it is compared.
fn game_of(play: &TablePlay) -> Option<Game>
    requires { HasTricksWithin play.now }
    ensures game { result ≡ game_of play.now }
    ensures each { IfSome result IsGame }
{
    let result = result_in(play)?;
    Some(Game {
        board: play.board.number(),
        ns: play.row.ns,
        ew: play.row.ew,
        result,
    })
}

/// The games among plays.
pub(crate) fn games_among(plays: &[TablePlay]) -> ArrayVec<Game, MOST_PLAYS>
    requires tricks { All HasTricksWithin plays.now }
    requires most { length plays.now ≤ MOST_PLAYS }
    ensures games { result.items ≡ games_among plays.now }
    ensures each { All IsGame result.items }
    ensures most { length result.items ≤ 432 }
{
    let mut games = ArrayVec::new();
    for play in plays {
        if let Some(game) = game_of(play) {
            games.push(game);
        }
    }
    games
}

/// What each side gained on a board of these games by that result.
fn comparison_by(scoring: Scoring, games: &[Game], board: BoardNumber, by: PlayResult) -> Comparison
    requires games { AreGames games.now }
    requires compared { IsResult by }
    ensures { result ≡ comparison_by scoring games.now board by }
{
    Comparison {
        result: by,
        ns_gain: gain_on(scoring, games, Side::NorthSouth, board, by),
        ew_gain: gain_on(scoring, games, Side::EastWest, board, by),
    }
}

/// How a play compares with the others of its board, if it is not void.
pub(crate) fn comparison_of(
    scoring: Scoring,
    games: &[Game],
    play: &TablePlay,
) -> Option<Comparison>
    requires games { AreGames games.now }
    requires tricks { HasTricksWithin play.now }
    ensures { result ≡ comparison_of scoring games.now play.now }
{
    let result = result_in(play)?;
    Some(comparison_by(scoring, games, play.board, result))
}
