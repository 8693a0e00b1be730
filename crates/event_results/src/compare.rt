//! How a play compares with the plays of its board in all sections.
ghost use Rattle.std.specs.Prelude.{◌≡◌, map};
ghost use Rattle.bridge_ranking.specs.Ranking.{games_of, scores_on, gained};
ghost use Rattle.bridge_results.specs.Plays.{HasTricksWithin};
ghost use Rattle.bridge_results.specs.Comparison.{comparison_by, comparison_of};
ghost use Rattle.event_ranking.specs.Joint.{joint};

use bridge_cards::{BoardNumber, Scoring, Side};
use bridge_ranking::PlayResult;
use bridge_results::compare::result_in;
use bridge_results::{Comparison, TablePlay};
use event_ranking::Event;
use event_ranking::gain::gained;

/// What a side gains on a board by that result, against the scores of all sections.
fn gain_on(
    scoring: Scoring,
    event: &Event<'_>,
    side: Side,
    board: BoardNumber,
    by: PlayResult,
) -> i32
    ensures { result ≡ gained scoring (scores_on (joint (map games_of event.now)) side board) side by }
{
    gained(scoring, event.scores(board), side, by)
}

/// What each side gains on a board by that result.
fn comparison_by(
    scoring: Scoring,
    event: &Event<'_>,
    board: BoardNumber,
    by: PlayResult,
) -> Comparison
    ensures { result ≡ comparison_by scoring (joint (map games_of event.now)) board by }
{
    Comparison {
        result: by,
        ns_gain: gain_on(scoring, event, Side::NorthSouth, board, by),
        ew_gain: gain_on(scoring, event, Side::EastWest, board, by),
    }
}

/// How a play compares with those of its board in all sections, if it is not void.
pub fn comparison_of(scoring: Scoring, event: &Event<'_>, play: &TablePlay) -> Option<Comparison>
    requires { HasTricksWithin play.now }
    ensures { result ≡ comparison_of scoring (joint (map games_of event.now)) play.now }
{
    let result = result_in(play)?;
    Some(comparison_by(scoring, event, play.board, result))
}
