//! What a side scores on a board, and gains there against its other scores or is awarded (Laws 12C2, 78). Matchpoints are in
//! tenths.
ghost use Rattle.std.specs.Prelude.{◌≡◌, ◌≤◌, length, All, IfSome};
ghost use Rattle.bridge_score.specs.ScoringTable.{IsScore};
ghost use Rattle.bridge_ranking.specs.Ranking.{side_score, score_in, scores_on, gained};
ghost use Rattle.bridge_ranking.specs.Gains.{AreGames};
ghost use Rattle.bridge_ranking.specs.KeptGames.{IsResult};

use arrayvec::ArrayVec;
use bridge_cards::{BoardNumber, Scoring, Side};
use bridge_movement::MOST_ROWS;
use bridge_ranking::gain::gained;
use bridge_ranking::game::score_for;
use bridge_ranking::{Game, PlayResult};

/// The scores of a side on a board.
type Scores = ArrayVec<i32, MOST_ROWS>;

/// A side's score by that result, which an adjusted play has not.
pub(crate) fn side_score(side: Side, by: PlayResult) -> Option<i32>
    requires { IsResult by }
    ensures value { result ≡ side_score side by }
    ensures range { IfSome result IsScore }
{
    match by {
        PlayResult::Score(score) => Some(score_for(side, score)),
        PlayResult::Averages { .. } => None,
    }
}

/// A side's score in a game, if it is one of the board.
fn score_in(side: Side, board: BoardNumber, game: Game) -> Option<i32>
    requires { IsResult game.result }
    ensures value { result ≡ score_in side board game }
    ensures range { IfSome result IsScore }
{
    if game.board == board.number() {
        side_score(side, game.result)
    } else {
        None
    }
}

/// The scores of a side on a board, in the order of the games.
pub(crate) fn scores_on(games: &[Game], side: Side, board: BoardNumber) -> Scores
    requires { AreGames games.now }
    ensures scores { result.items ≡ scores_on games.now side board }
    ensures range { All IsScore result.items }
    ensures most { length result.items ≤ 144 }
{
    let mut scores = ArrayVec::new();
    for game in games {
        if let Some(score) = score_in(side, board, *game) {
            scores.push(score);
        }
    }
    scores
}

/// What a side gains on a board of these games by that result.
pub(crate) fn gain_on(
    scoring: Scoring,
    games: &[Game],
    side: Side,
    board: BoardNumber,
    by: PlayResult,
) -> i32
    requires games { AreGames games.now }
    requires compared { IsResult by }
    ensures { result ≡ gained scoring (scores_on games.now side board) side by }
{
    let scores = scores_on(games, side, board);
    gained(scoring, &scores, side, by)
}
